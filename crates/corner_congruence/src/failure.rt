// Why there are no corner types.
use std::alloc::{AllocError, AllocFailed};
use weighted_sets::TieFault;

/// Why there are no corner types.
#[derive(Clone, Copy, Debug, PartialEq, Eq)]
pub(crate) enum Failure {
    /// What the conditions ask of the corners contradicts itself, or goes past a limit.
    Contradiction,
    /// There is no memory.
    Memory,
}

impl From<AllocError> for Failure {
    ghost use Rattle.std.specs.Prelude.{◌≡◌};
    ghost use Rattle.corner_congruence.specs.declared.failure.Failure.TheVariants.{Memory};

    ghost from_gives = { λ _ failure. failure ≡ Memory };

    fn from(_: AllocError) -> Failure {
        Failure::Memory
    }
}

impl<T: Drop> From<AllocFailed<T>> for Failure {
    ghost use Rattle.std.specs.Prelude.{◌≡◌};
    ghost use Rattle.corner_congruence.specs.declared.failure.Failure.TheVariants.{Memory};

    ghost from_gives = { λ _ failure. failure ≡ Memory };

    fn from(_: AllocFailed<T>) -> Failure {
        Failure::Memory
    }
}

impl From<TieFault> for Failure {
    ghost use Rattle.std.specs.Prelude.{◌≡◌};
    ghost use Rattle.corner_congruence.specs.declared.failure.Failure.TheVariants.{Contradiction};

    ghost from_gives = { λ _ failure. failure ≡ Contradiction };

    fn from(_: TieFault) -> Failure {
        Failure::Contradiction
    }
}
