//! What is kept of the steps that a run made.

ghost use Rattle.std.specs.Prelude.{◌≡◌, ◌++◌, [], OnOk, option_to_list};
ghost use Rattle.oz_model.specs.Step.{stack_of};
ghost use Rattle.run_trace.specs.Births.{birth_of};
ghost use Rattle.run_trace.specs.Kept.{entry_of};
ghost use Rattle.run_trace.specs.Raised.{is_caught, raise_of};

use crate::begun::LastBegun;
use crate::findings::{Birth, Raise};
use crate::top::{Told, was_caught};
use central_machine::Central;
use std::alloc::{AllocError, Global};

/// The exceptions that rose and the threads that were made, each in order.
#[derive(Drop)]
pub struct Notes {
    pub raises: Vec<Raise>,
    pub births: Vec<Birth>,
}

impl Notes {
    /// None so far.
    pub fn new(alloc: Global) -> Notes
        ensures raises { result.raises.items ≡ [] }
        ensures births { result.births.items ≡ [] }
    {
        Notes {
            raises: Vec::new(alloc),
            births: Vec::new(alloc),
        }
    }
}

/// Keeps the exception that a step raised and the thread that it made, if it did, where the pick told this before the step.
pub fn note(
    central: &Central<'_>,
    last: &LastBegun,
    notes: &mut Notes,
    told: Told,
) -> Result<(), AllocError>
    ensures raises { OnOk result (notes.new.raises.items ≡ notes.old.raises.items ++ option_to_list (raise_of told.before (entry_of last.now told.thread) told.raised (is_caught (stack_of central.now.state told.thread)))) }
    ensures births { OnOk result (notes.new.births.items ≡ notes.old.births.items ++ option_to_list (birth_of (entry_of last.now told.thread) told.made)) }
{
    if let Some(birth) = last.birth(told) {
        notes.births.push(birth)?;
    }
    if let Some(raise) = last.raise(told, was_caught(central, told.thread))? {
        notes.raises.push(raise)?;
    }
    Ok(())
}
