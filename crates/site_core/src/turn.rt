//! Turns.

ghost use Rattle.std.specs.Prelude.{◌+◌, ◌≤◌, ◌^◌, OnOk};
ghost use Rattle.tree_node.specs.declared.limits.TheConstants.{MOST_UNITS};
ghost use Rattle.site_units.specs.Invariant.{IsConsistent};
ghost use Rattle.site_core.specs.Turns.{IsToldTurnMade};
ghost use Rattle.site_core.specs.Site.{message_in};

use crate::receive::receive;
use kernel_syntax::Program;
use site_message::{Msg, Quantum, Units};
use site_units::{Core, Output, units};
use std::alloc::AllocError;

/// A turn: the message, if there is one, and then as many units as the quantum, fewer only where no thread can go on. Their
/// threads are told behind `told`. After want of memory the data are given up.
pub fn turn(
    core: &mut Core,
    output: &mut Output,
    program: &Program,
    message: Option<(u64, Msg)>,
    quantum: Quantum,
    told: &mut Units,
) -> Result<(), AllocError>
    requires consistent { IsConsistent program.now core.old }
    requires room { core.old.steps ≤ 2 ^ 48 }
    requires most { quantum.0 ≤ MOST_UNITS }
    ensures turn { OnOk result (IsToldTurnMade program.now quantum.0 told.old told.new (message_in message) core.old output.old core.new output.new) }
    ensures steps { OnOk result (core.new.steps ≤ core.old.steps + quantum.0) }
{
    match message {
        None => units(core, output, program, quantum.0, told),
        Some((_, msg)) => {
            receive(core, output, program, msg)?;
            units(core, output, program, quantum.0, told)
        }
    }
}
