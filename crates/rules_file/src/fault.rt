//! Why a rules file is refused.
use crate::take::Unread;
use thiserror::Error;

/// The parts of a rules file, in the order in which their shape is tried.
#[derive(Clone, Copy, Debug, PartialEq, Eq, Drop)]
pub enum Part {
    Whole,
    Version,
    Scale,
    Roots,
    Corners,
    Corner,
    States,
    State,
}

/// Why bytes are no rules file: they are no JSON text, or the first part whose shape fails, with
/// its index (the place of the entry for an entry of a list, else 0), or memory ran out.
#[derive(Clone, Copy, Debug, PartialEq, Eq, Drop, Error)]
pub enum RulesFault {
    #[error("not a JSON text")]
    Syntax,
    #[error("the shape fails at {part:?} {index}")]
    Shape { part: Part, index: u32 },
    #[error("out of memory")]
    Memory,
}

impl From<Unread> for RulesFault {
    ghost use Rattle.rules_file.specs.Parts.{fault_of};
    ghost use Rattle.std.specs.Prelude.{◌≡◌};

    ghost from_gives = { λ u e. e ≡ fault_of u };

    fn from(refused: Unread) -> RulesFault {
        match refused {
            Unread::Syntax => RulesFault::Syntax,
            Unread::Memory => RulesFault::Memory,
        }
    }
}
