// Why a difference is not told or not taken.
use thiserror::Error;

/// Why a difference of two elements is not told or not taken.
#[derive(Clone, Copy, Debug, PartialEq, Eq, Error)]
pub enum TieFault {
    /// There is no such element.
    #[error("no such element")]
    Unknown,
    /// The elements are known to differ by something else.
    #[error("another difference is known")]
    Contradiction,
    /// A difference is out of the range of an `i32`.
    #[error("a difference out of range")]
    Overflow,
}
