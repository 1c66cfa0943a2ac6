//! Who says which turn comes next.

ghost use Rattle.std.specs.Prelude.{◌≡◌, List};
ghost use Rattle.kernel_syntax.specs.declared.stmt.Stmt.{Stmt};
ghost use Rattle.kernel_syntax.specs.Program.{IsProgram};
ghost use Rattle.site_message.specs.declared.limits.Limits.{Limits};
ghost use Rattle.site_message.specs.declared.turn.Turn.{Turn};
ghost use Rattle.site_message.specs.Limits.{AreLimits};
ghost use Rattle.world_core.specs.World.{WorldState};
ghost use Rattle.plain_run.specs.Rounds.{Standing};
ghost use Rattle.plain_run.specs.Progress.{IsGoing, standing_of};
ghost use Rattle.plain_run.specs.Order.{CanBeMade, IsChosenTurn};

use site_message::Limits;
use world_core::World;

/// The turn that comes next: its site, how many threads of it are passed by, the place of the message that it takes, if it takes one, and
/// the most units that it makes, 1 to 64.
#[derive(Clone, Copy, Debug, PartialEq, Eq)]
pub(crate) struct Choice {
    pub site: u32,
    pub passed: u32,
    pub place: Option<usize>,
    pub units: u32,
}

/// An order of turns, which the driver of a run asks for each.
pub(crate) trait Order {
    // The turns of the journal come in the order, from the start of the program to this standing of the sites.
    ghost follows: { List Stmt → Limits → List Turn → Standing → Type 0 };

    // What is kept of the turns.
    ghost recalls: { Self → Limits → List Turn → Type 0 };

    /// The turn that comes next in a run that goes on.
    fn next(&mut self, world: &World<'_>, limits: Limits) -> Choice
        requires program { IsProgram world.now.program }
        requires limits { AreLimits limits }
        requires going { IsGoing limits world.now.program world.now }
        requires recalls { recalls self.old limits world.now.journal }
        ensures can { CanBeMade limits world.now result }
        ensures recalls { (new : WorldState) → IsChosenTurn limits world.now new result → recalls self.new limits new.journal }
        ensures follows { (new : WorldState) → IsChosenTurn limits world.now new result →
            follows world.now.program limits world.now.journal (standing_of world.now) → follows world.now.program limits new.journal (standing_of new) };
}
