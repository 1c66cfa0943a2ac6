//! Messages that come.

ghost use Rattle.std.specs.Prelude.{◌≡◌, ◌<◌, ◌^◌, OnOk, Some};
ghost use Rattle.thread_roster.specs.Order.{HaveComeBehind};
ghost use Rattle.site_units.specs.Invariant.{IsConsistent};
ghost use Rattle.site_core.specs.Turns.{IsReceived};

use crate::deliver::deliver;
use crate::fit::is_fit;
use kernel_syntax::Program;
use site_cells::laws::tables_take_as_sites;
use site_message::Msg;
use site_model::bundles_come_last;
use site_units::{Core, Output, open_message, pack_sent};
use std::alloc::AllocError;

/// A message has come: where it is fit it is opened, and the site does what its kind says; one that is unfit changes
/// nothing. After want of memory the data are given up.
pub fn receive(
    core: &mut Core,
    output: &mut Output,
    program: &Program,
    msg: Msg,
) -> Result<(), AllocError>
    requires consistent { IsConsistent program.now core.old }
    requires room { core.old.steps < 2 ^ 50 }
    ensures received { OnOk result (IsReceived program.now (Some msg) core.old output.old core.new output.new) }
    ensures order { OnOk result (HaveComeBehind core.old.threads.order core.new.threads.order) }
    ensures steps { OnOk result (core.new.steps ≡ core.old.steps) }
{
    program.is_program();
    tables_take_as_sites();
    if !is_fit(core, program, &msg) {
        return Ok(());
    }
    open_message(core, output, &msg)?;
    let before = output.sent.len();
    deliver(core, output, program, msg)?;
    bundles_come_last();
    pack_sent(core, output, before)
}
