//! Why a step of a call stops.
use crate::line::Line;
use std::alloc::AllocError;

/// Why a step stops: a line is said instead of what it looks for, or there is no memory.
#[derive(Clone, Copy, Debug, PartialEq, Eq)]
pub enum Stop {
    /// This line is said.
    Say(Line),
    /// There was no memory.
    Memory,
}

impl From<AllocError> for Stop {
    ghost use Rattle.walker_run.specs.declared.stop.Stop.TheVariants.{Memory};
    ghost use Rattle.std.specs.Prelude.{◌≡◌};

    ghost from_gives = { λ _ stop. stop ≡ Memory };

    fn from(_refused: AllocError) -> Stop {
        Stop::Memory
    }
}
