//! Pairs of states to which one path leads from two states.

/// Two states to which one path leads, the number of the pair from which its last side leads to
/// them, and that side.
#[derive(Clone, Copy, Debug, PartialEq, Eq)]
pub(crate) struct Pair {
    pub(crate) first: u32,
    pub(crate) second: u32,
    pub(crate) from: u32,
    pub(crate) side: u8,
}
