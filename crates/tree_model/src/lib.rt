//! Tree automata over a tessellation: their tables, the twelve conditions on them, and the tree
//! that they generate, with its names, its positions and what lies across each side.
#![tactic(auto)]

/// What a side of a tile is in the tree: the side of the parent, the side of a child in that state,
/// or a side outside the tree whose inner corner lies at its left or at its right end.
#[derive(Clone, Copy, Debug, PartialEq, Eq)]
pub enum Rule {
    Parent,
    Child(u32),
    Left,
    Right,
}

/// A corner type, and one of the places round it.
#[derive(Clone, Copy, Debug, PartialEq, Eq)]
pub struct Claim {
    pub corner: u32,
    pub place: u8,
}

/// The most crossings that a walker may be from the root of its tree, and so the most sides of a
/// name that is read.
pub const DEEPEST: u32 = 4_000;
