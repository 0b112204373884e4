// Why a text is refused.
use std::alloc::AllocError;
use thiserror::Error;
use tile_kinds::KindFault;

/// Why the text of a tessellation is refused.
#[derive(Clone, Copy, Debug, PartialEq, Eq, Error)]
pub enum TessFault {
    /// The first bad line, counted from 1. The end of the text counts as a line.
    #[error("line {0} is bad")]
    Line(u32),
    /// No line is bad, and the kinds are no tessellation.
    #[error("the kinds are no tessellation: {0}")]
    Kinds(KindFault),
    /// There was not enough memory.
    #[error("there is not enough memory")]
    Memory,
}

impl From<AllocError> for TessFault {
    ghost use Rattle.std.specs.Prelude.{◌≡◌};
    ghost use Rattle.tess_text.specs.declared.fault.TessFault.TheVariants.{Memory};

    ghost from_gives = { λ _ e. e ≡ Memory };

    fn from(_: AllocError) -> Self {
        TessFault::Memory
    }
}
