//! Why a crossing or a walk is refused.
use std::alloc::AllocError;
use thiserror::Error;

/// The most sides of the name at which a crossing arrives.
pub const DEEPEST: usize = tree_model::DEEPEST as usize;

/// Why a crossing or a walk is refused.
#[derive(Clone, Copy, Debug, PartialEq, Eq, Error)]
pub enum StepFault {
    /// A crossing arrives at a tile whose name has more than 4,000 sides.
    #[error("a tile at a distance of more than 4000")]
    Deep,
    /// There is no memory.
    #[error("out of memory")]
    Memory,
}

impl From<AllocError> for StepFault {
    ghost use Rattle.std.specs.Prelude.{◌≡◌};
    ghost use Rattle.step_engine.specs.declared.fault.StepFault.TheVariants.{Memory};

    ghost from_gives = { λ _ fault. fault ≡ Memory };

    fn from(_: AllocError) -> StepFault {
        StepFault::Memory
    }
}
