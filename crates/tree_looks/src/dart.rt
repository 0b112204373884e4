//! Darts of the tree: sides of its tiles.

/// A dart of the tree: a root, the sides of a name from it, and a side of the tile at its end.
#[derive(Debug, Drop)]
pub struct TreeDart {
    pub root: u8,
    pub name: Vec<u8>,
    pub side: u8,
}

/// A dart of the tree by the number of a node, and a side of its tile.
#[derive(Clone, Copy, Debug, PartialEq, Eq, Hash)]
pub(crate) struct NodeDart {
    pub(crate) node: u32,
    pub(crate) side: u8,
}
