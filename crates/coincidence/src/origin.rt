// Where cells come from.

/// The kind of a cell, and for each but the first the dart across which it was made, packed, and
/// its own side there.
#[derive(Clone, Copy, Debug)]
pub(crate) struct Origin {
    pub(crate) kind: u8,
    pub(crate) own: u8,
    pub(crate) across: u32,
}
