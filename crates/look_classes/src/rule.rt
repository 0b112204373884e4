//! What a side of a cell is in the tree of a region.

/// The side of the parent, the side of a child, or a side outside the tree whose inner corner lies
/// at its left or at its right end.
#[derive(Clone, Copy, Debug, PartialEq, Eq)]
pub enum SideRule {
    Parent,
    Child,
    Left,
    Right,
}
