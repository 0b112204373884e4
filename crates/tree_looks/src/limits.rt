//! How much is looked at. All bounds of this crate stand here.

/// The most cone types that a base automaton is split into, and the most corners that are told
/// where corners do not close.
#[derive(Clone, Copy, Debug, PartialEq, Eq)]
pub struct Limits {
    /// The most cone types.
    pub types: usize,
    /// The most open corners that are told. 40 give a learner enough to look at in one round.
    pub open: usize,
}

/// The most nodes of the tree that are made. With ten times as many, a plain program learnt the
/// same rules for all of 370 tessellations. Looks at far horizons ask for more, and so do automata
/// that are wrong.
pub(crate) const MOST_NODES: usize = 100_000;

/// The most steps along a contour, in the search for the bracket that matches a Left or a Right
/// side. A longer one shows that the automaton is wrong, or lies too far out to be looked at.
pub(crate) const MOST_STEPS: u32 = 4_000;

/// The most darts that are noted of one look at an open corner.
pub(crate) const MOST_NOTED: u32 = 8_000;
