//! How much is tried. All bounds of this crate stand here; none is needed for an answer to be
//! right.

/// The most cone types.
pub(crate) const MOST_TYPES: usize = 20_000;

/// How often a code is begun again, since the parent side turned out to be another one. Once or
/// twice is usual.
pub(crate) const READINGS: u32 = 1_000;
