//! What the definitions come to. The functions do nothing: their contracts state laws that hold of
//! all lists of kinds, types and walks.

ghost use Rattle.tile_model.specs.Laws.{MovesUndo, WalksKeepTypes, TurnsAdd, LoopsLeadBack};
ghost use Rattle.tile_model.specs.Laws.{RelatedIsEquivalence, RelatedBehind, RelatedBefore, BeginningsCancel, RelatedHaveOneType};
ghost use Rattle.tile_model.specs.Laws.{InverseCancels, InverseCancelsBack, InverseLeadsBack, InversesAreRelated, InverseCrosses};
ghost use Rattle.tile_model.specs.Laws.{SameTileIsEquivalence, RelatedAtSameTile, WayBetween, TurnsStay};
ghost use Rattle.tile_model.specs.Laws.{OneCount};
ghost use Rattle.tile_model.specs.Laws.{OneDistance, DistanceOfTiles, DistanceZero, DistanceBack, Triangle, DistanceBehind, DistanceHome};

/// The moves of a tessellation undo each other, walks lead from types to types, and each of the
/// five loops leads back to its type.
pub fn type_laws()
    ensures undone { MovesUndo }
    ensures types { WalksKeepTypes }
    ensures turns { TurnsAdd }
    ensures loops { LoopsLeadBack }
{}

/// Being related is an equivalence. It is kept behind and before a walk, common beginnings cancel,
/// and related walks have one type.
pub fn related_laws()
    ensures equivalence { RelatedIsEquivalence }
    ensures behind { RelatedBehind }
    ensures before { RelatedBefore }
    ensures cancels { BeginningsCancel }
    ensures one_type { RelatedHaveOneType }
{}

/// The way back undoes a walk: both in turn are related to the empty walk, and it leads back to the
/// first type.
pub fn inverse_laws()
    ensures cancels { InverseCancels }
    ensures cancels_back { InverseCancelsBack }
    ensures leads_back { InverseLeadsBack }
    ensures related { InversesAreRelated }
    ensures crosses { InverseCrosses }
{}

/// Being at the same tile is an equivalence. Related walks are at the same tile, turns stay there,
/// and a way leads from each tile to each.
pub fn tile_laws()
    ensures equivalence { SameTileIsEquivalence }
    ensures related { RelatedAtSameTile }
    ensures way { WayBetween }
    ensures turns { TurnsStay }
{}

/// Two walks have one distance. It is a metric of tiles, and a common beginning of both walks does
/// not count: it may be taken from where the first walk leads, along the way back and the second
/// walk.
pub fn distance_laws()
    ensures one { OneDistance }
    ensures of_tiles { DistanceOfTiles }
    ensures zero { DistanceZero }
    ensures back { DistanceBack }
    ensures triangle { Triangle }
    ensures behind { DistanceBehind }
    ensures home { DistanceHome }
{}

/// The tiles at one distance have one number.
pub fn count_laws()
    ensures one { OneCount }
{}
