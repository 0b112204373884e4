//! Closure of the tree of accepted rules.
//! The functions do nothing: their contracts state laws of every tessellation, of all rules that are accepted for it,
//! and of every position of the infinite tree of a kind, at any depth.

ghost use Rattle.tree_laws.specs.Laws.{OfEachTree, LeftSidesAreMatched, RightSidesAreMatched};
ghost use Rattle.tree_laws.specs.Laws.{AcrossIsOne, AcrossIsBack, AcrossIsPartner, AcrossIsNear};
ghost use Rattle.tree_laws.specs.Laws.{CornersClose, WalksArrive};
ghost use Rattle.tree_laws.specs.Laws.{WeightStays, WeightFalls, WeightIsBounded};
ghost use Rattle.tree_laws.specs.Laws.{WalksHaveOnePlace, PlacesTellRelated, NamesTellTiles};
ghost use Rattle.tree_laws.specs.Laws.{PlacesTellTypes, StatesTellKinds, DepthIsDistance};
ghost use Rattle.tree_laws.specs.Laws.{PlacesTellDistance, DistanceIsDepth, NamesSpellShortestWays};
ghost use Rattle.tree_laws.specs.Laws.{DistanceOnwards, RingsAreAtDistance, RingsAreWhole};
ghost use Rattle.tree_laws.specs.Laws.{RingsHavePlaces, RingsExist, RingsCountTiles, NamesAreApart};

/// Each Left side is matched with exactly one Right side, and each Right side with exactly one Left side.
pub fn matching()
    ensures left_sides { OfEachTree LeftSidesAreMatched }
    ensures right_sides { OfEachTree RightSidesAreMatched }
{}

/// The walk along the contour with one counter of open brackets, from each side outside the tree, stops at the position
/// across.
pub fn contours()
    ensures arrive { OfEachTree WalksArrive }
{}

/// The weight of a corner stays the same round it, falls at each nested side, and is bounded below.
pub fn weights()
    ensures stays { OfEachTree WeightStays }
    ensures falls { OfEachTree WeightFalls }
    ensures bounded { OfEachTree WeightIsBounded }
{}

/// Each walk from side 0 of a kind has exactly one place, the position to which it leads.
/// Two walks have one place exactly where they are related, and places of one name exactly where they are at the same
/// tile.
/// The side at its place has the walk's type, and the state there is one of that type's kind.
pub fn places()
    ensures one { OfEachTree WalksHaveOnePlace }
    ensures related { OfEachTree PlacesTellRelated }
    ensures tiles { OfEachTree NamesTellTiles }
    ensures types { OfEachTree PlacesTellTypes }
    ensures kinds { OfEachTree StatesTellKinds }
{}

/// A crossing changes the depth by one at most, and the length of the name of a walk's place is its distance from the
/// root.
pub fn levels()
    ensures near { OfEachTree AcrossIsNear }
    ensures distance { OfEachTree DepthIsDistance }
{}

/// The distance between any two walks is the depth to which the second one leads in the tree whose root is the tile of
/// the first.
/// The name there spells a shortest way, and a walk that goes on from another needs no way back.
pub fn shortest()
    ensures place { OfEachTree PlacesTellDistance }
    ensures depth { OfEachTree DistanceIsDepth }
    ensures ways { OfEachTree NamesSpellShortestWays }
    ensures onwards { OfEachTree DistanceOnwards }
{}

/// Ring d has a name of each tile at distance d from the root, that of its place, and none other, and no two names are
/// one tile. So there are as many such tiles as names in it.
pub fn rings()
    ensures distance { OfEachTree RingsAreAtDistance }
    ensures whole { OfEachTree RingsAreWhole }
    ensures places { OfEachTree RingsHavePlaces }
    ensures exist { OfEachTree RingsExist }
    ensures counts { OfEachTree RingsCountTiles }
    ensures apart { OfEachTree NamesAreApart }
{}
