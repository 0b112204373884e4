// Why no rules are made for a tessellation.
use std::alloc::AllocError;
use thiserror::Error;

/// Why no rules are made for a tessellation: it is not regular, since it has two or more kinds or a
/// repeat over 1, or it is {p,q} with (p - 2)(q - 2) below 4 and so has finitely many tiles, or
/// memory ran out.
#[derive(Clone, Copy, Debug, PartialEq, Eq, Drop, Error)]
pub enum RegFault {
    #[error("the tessellation is not regular")]
    NotRegular,
    #[error("the tessellation {{{p},{q}}} is spherical")]
    Spherical { p: u8, q: u8 },
    #[error("out of memory")]
    Memory,
}

impl From<AllocError> for RegFault {
    ghost use Rattle.regular_maker.specs.declared.fault.RegFault.TheVariants.{Memory};
    ghost use Rattle.std.specs.Prelude.{◌≡◌};

    ghost from_gives = { λ _ fault. fault ≡ Memory };

    fn from(_refused: AllocError) -> RegFault {
        RegFault::Memory
    }
}
