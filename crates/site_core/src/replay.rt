//! Turns of given units.

ghost use Rattle.std.specs.Prelude.{◌≡◌, ◌+◌, ◌≤◌, ◌^◌, length, Err, OnOk};
ghost use Rattle.tree_node.specs.declared.limits.TheConstants.{MOST_UNITS};
ghost use Rattle.site_units.specs.declared.replay.Replay.TheVariants.{NotRunnable};
ghost use Rattle.site_units.specs.Core.{site_of};
ghost use Rattle.site_units.specs.Invariant.{IsConsistent};
ghost use Rattle.site_core.specs.Replay.{IsStuckTurn, IsTheTurnMade};
ghost use Rattle.site_core.specs.Site.{message_in};

use crate::receive::receive;
use kernel_syntax::Program;
use site_message::Msg;
use site_units::{Core, Output, Replay, units_of};
use tree_node::ThreadName;

/// A turn: the message, if there is one, and then a unit of each of these threads. Where a thread cannot go on when its unit comes,
/// and after want of memory, the data are given up.
pub fn replay(
    core: &mut Core,
    output: &mut Output,
    program: &Program,
    message: Option<(u64, Msg)>,
    threads: &[ThreadName],
) -> Result<(), Replay>
    requires consistent { IsConsistent program.now core.old }
    requires room { core.old.steps ≤ 2 ^ 48 }
    requires most { length threads.now ≤ MOST_UNITS }
    ensures turn { OnOk result (IsTheTurnMade program.now threads.now (message_in message) core.old output.old core.new output.new) }
    ensures stuck { (at : _) → result ≡ Err (NotRunnable at) → IsStuckTurn program.now core.old.sites (site_of core.old) (message_in message) threads.now at }
    ensures steps { OnOk result (core.new.steps ≤ core.old.steps + length threads.now) }
{
    match message {
        None => units_of(core, output, program, threads),
        Some((_, msg)) => {
            receive(core, output, program, msg)?;
            units_of(core, output, program, threads)
        }
    }
}
