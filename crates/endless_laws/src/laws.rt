//! The tree of accepted rules never ends.
//! The function does nothing: its contract states laws of every tessellation, of all rules that are accepted for it, and
//! of the infinite tree of each kind.

ghost use Rattle.tree_laws.specs.Laws.{OfEachTree};
ghost use Rattle.endless_laws.specs.Laws.{NamesGoOn, RingsAreInhabited, DistancesAreReached};
ghost use Rattle.endless_laws.specs.Laws.{TilesNeverEnd, ClosedHaveNoRules};

/// Names of each length are in the tree, so no ring is empty and there is a tile at each distance from the root.
/// Hence no number is that of the tiles, and a tessellation in which walks from side 0 of some kind lead to so many
/// tiles has no accepted rules.
pub fn endless()
    ensures names { OfEachTree NamesGoOn }
    ensures rings { OfEachTree RingsAreInhabited }
    ensures distances { OfEachTree DistancesAreReached }
    ensures tiles { OfEachTree TilesNeverEnd }
    ensures closed { ClosedHaveNoRules }
{}
