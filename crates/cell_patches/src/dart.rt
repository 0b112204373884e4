// Darts of patches.

/// A dart of a patch: the patch of a kind, and a side of a cell there.
#[derive(Clone, Copy, Debug, PartialEq, Eq)]
pub struct PatchDart {
    pub patch: u8,
    pub cell: u32,
    pub side: u8,
}
