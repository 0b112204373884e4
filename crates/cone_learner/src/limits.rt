//! How much is tried. All bounds of this crate stand here; they were set by hand, and none is
//! needed for an answer to be right.
use tree_looks::Limits;

/// The most rounds of a level: base automata that are tried, each after the refinement of the one
/// before. Files that were learnt took up to 200.
pub(crate) const MOST_ROUNDS: u32 = 500;

/// The most times that a base automaton is read off the cells anew, since cells were made or joined
/// while it was read.
pub(crate) const MOST_PASSES: u32 = 1_000;

/// The most cone types with which the second level is tried: there each takes in many cells.
pub(crate) const MOST_RING_TYPES: usize = 1_000;

/// The cone types up to which they are merged before corners are looked at. With more, merging
/// takes longer than it saves.
pub(crate) const FEW_TYPES: usize = 300;

/// The looks at open corners in one round for which it is worth to read a base automaton with so
/// many cone types again: where fewer corners are open, they are followed. The more cone types
/// there are, the longer it takes to read, and the fewer readings can be afforded.
pub(crate) fn looks_worth_reading(types: usize) -> usize {
    types.saturating_mul(types) / 100_000
}

/// The horizons to which corners are looked at, where no horizon is enough without.
pub(crate) const HORIZONS: [u32; 7] = [0, 1, 2, 4, 8, 16, 32];

/// The most cone types that corners are looked at with, and as many open corners as give enough to
/// look at in one round.
pub(crate) const LOOKS: Limits = Limits {
    types: 20_000,
    open: 40,
};

/// The number of cells up to which one round makes cells for open corners, once one of them split a
/// cone type: 200, and a twentieth of those that were there.
pub(crate) fn most_compared(made: u32) -> u32 {
    made.saturating_add(200).saturating_add(made / 20)
}

/// The number of cells up to which cells are made round those that open corners came by, where no
/// cone type was split: 200, and a quarter of those that were there.
pub(crate) fn most_widened(made: u32) -> u32 {
    made.saturating_add(200).saturating_add(made / 4)
}

/// The open corners of which the cells are widened.
pub(crate) const WIDENED: usize = 8;
