//! The functions do nothing: their contracts state laws of every tessellation, of all rules that are accepted for it,
//! and of every position of the infinite tree of a kind.

ghost use Rattle.tree_laws.specs.Laws.{OfEachTree};
ghost use Rattle.log_laws.specs.Laws.{ChangesAreFunctions, CrossingsAreLogged, ContoursWriteLogs};

/// The log of a crossing outside the tree leads from the word of the side, crossed, to the word of the side across.
/// The walk along the contour with one counter of open brackets writes it as it goes.
pub fn crossings()
    ensures lead { OfEachTree CrossingsAreLogged }
    ensures written { OfEachTree ContoursWriteLogs }
{}

/// A change leads from a walk to one walk.
pub fn changes()
    ensures { ChangesAreFunctions }
{}
