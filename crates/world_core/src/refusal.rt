//! Why a turn was not made.

ghost use Rattle.std.specs.Prelude.{◌≡◌};
ghost use Rattle.world_core.specs.declared.refusal.WorldRefusal.TheVariants.{Memory};
ghost use Rattle.world_core.specs.declared.refusal.ReplayRefusal.TheVariants.{Memory as OutOfMemory};
ghost use Rattle.world_core.specs.Replay.{refusal_of, replay_refusal_of};

use site_core::Replay;
use std::alloc::AllocError;

/// Why a turn was not made: no message for the site travels at the given place, or memory ran out.
#[derive(Clone, Copy, Debug, PartialEq, Eq)]
pub enum WorldRefusal {
    NotThere,
    Memory,
}

impl From<AllocError> for WorldRefusal {
    ghost from_gives = { λ _ e. e ≡ Memory };

    fn from(_: AllocError) -> Self {
        WorldRefusal::Memory
    }
}

/// Why a turn was not made again: no message for the site travels at the given place; the thread at this place of the units, counted
/// from 0, cannot go on when its unit comes; the turn prints other lines; or memory ran out.
#[derive(Clone, Copy, Debug, PartialEq, Eq)]
pub enum ReplayRefusal {
    NotThere,
    NotRunnable(usize),
    OtherLines,
    Memory,
}

impl From<AllocError> for ReplayRefusal {
    ghost from_gives = { λ _ e. e ≡ OutOfMemory };

    fn from(_: AllocError) -> Self {
        ReplayRefusal::Memory
    }
}

impl From<WorldRefusal> for ReplayRefusal {
    ghost from_gives = { refusal_of };

    fn from(refusal: WorldRefusal) -> Self {
        match refusal {
            WorldRefusal::NotThere => ReplayRefusal::NotThere,
            WorldRefusal::Memory => ReplayRefusal::Memory,
        }
    }
}

impl From<Replay> for ReplayRefusal {
    ghost from_gives = { replay_refusal_of };

    fn from(refusal: Replay) -> Self {
        match refusal {
            Replay::NotRunnable(at) => ReplayRefusal::NotRunnable(at),
            Replay::Memory => ReplayRefusal::Memory,
        }
    }
}
