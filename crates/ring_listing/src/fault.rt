//! Why a ring is not counted or not listed.
use std::alloc::AllocError;
use thiserror::Error;

/// Why a ring is not counted.
#[derive(Clone, Copy, Debug, PartialEq, Eq, Error)]
pub enum CountFault {
    /// The ring lies more than 4,000 crossings from the root.
    #[error("a ring at a distance of more than 4000")]
    Far,
    /// This is the first ring with more than 2^128 - 1 names, up to the ring that was asked for.
    #[error("ring {0} has more than 2^128 - 1 tiles")]
    TooBig(u32),
    /// There is no memory.
    #[error("out of memory")]
    Memory,
}

impl From<AllocError> for CountFault {
    ghost use Rattle.std.specs.Prelude.{◌≡◌};
    ghost use Rattle.ring_listing.specs.declared.fault.CountFault.TheVariants.{Memory};

    ghost from_gives = { λ _ fault. fault ≡ Memory };

    fn from(_: AllocError) -> CountFault {
        CountFault::Memory
    }
}

/// Why a ring is not listed.
#[derive(Clone, Copy, Debug, PartialEq, Eq, Error)]
pub enum RingFault {
    /// The ring lies more than 4,000 crossings from the root.
    #[error("a ring at a distance of more than 4000")]
    Far,
    /// This is the first ring with more than 2^128 - 1 names, up to the ring that was asked for.
    #[error("ring {0} has more than 2^128 - 1 tiles")]
    TooBig(u32),
    /// The ring has so many names, more than 100,000.
    #[error("a ring of {0} tiles, more than 100000")]
    TooMany(u128),
    /// There is no memory.
    #[error("out of memory")]
    Memory,
}

impl From<AllocError> for RingFault {
    ghost use Rattle.std.specs.Prelude.{◌≡◌};
    ghost use Rattle.ring_listing.specs.declared.fault.RingFault.TheVariants.{Memory};

    ghost from_gives = { λ _ fault. fault ≡ Memory };

    fn from(_: AllocError) -> RingFault {
        RingFault::Memory
    }
}

impl From<CountFault> for RingFault {
    ghost use Rattle.std.specs.Prelude.{◌≡◌};
    ghost use Rattle.ring_listing.specs.Faults.{ring_fault};

    ghost from_gives = { λ count fault. fault ≡ ring_fault count };

    fn from(fault: CountFault) -> RingFault {
        match fault {
            CountFault::Far => RingFault::Far,
            CountFault::TooBig(ring) => RingFault::TooBig(ring),
            CountFault::Memory => RingFault::Memory,
        }
    }
}
