//! The run of a program on the centralised machine.

ghost use Rattle.std.specs.Prelude.{◌≡◌};
ghost use Rattle.oz_words.specs.Words.{InRange};
ghost use Rattle.oz_words.specs.declared.options.Action.TheVariants.{Central};
ghost use Rattle.oz_runner.specs.Run.{IsStatusOfRun};
ghost use Rattle.oz_runner.specs.Ends.{output_of_work};
ghost use Rattle.oz_runner.specs.Machine.{machine_status};
ghost use Rattle.oz_runner.specs.Saving.{IsPlain};

use crate::Status;
use crate::work::{RunLines, Work};
use central_machine::{Reason, run_program};
use kernel_syntax::Program;
use oz_words::Options;
use site_message::Schedule;
use std::alloc::Global;

/// Runs a program on the centralised machine.
pub fn run_machine(alloc: Global, options: Options, program: &Program) -> Work
    requires { InRange options }
    ensures came { options.action ≡ Central → IsStatusOfRun program.now options (output_of_work result) result.status }
    ensures plain { IsPlain result.printed }
{
    let ran = run_program(alloc, program, options.steps);
    Work {
        status: machine_status(ran.reason, ran.ended, ran.waiting),
        schedule: Schedule::from_picks(alloc, ran.picks),
        printed: RunLines::Machine(ran.lines),
    }
}

// The status of a run that stopped for this reason. The machine is site 1.
fn machine_status(reason: Reason, ended: u64, waiting: u64) -> Status
    ensures { result ≡ machine_status reason ended waiting }
{
    match reason {
        Reason::Quiet => Status::Quiescent { ended, waiting },
        Reason::Steps => Status::StepLimit(1),
        Reason::Memory => Status::Memory,
    }
}
