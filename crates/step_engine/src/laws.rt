//! Walks and their places in the tree of accepted rules.
//! The functions do nothing: their clauses state laws of all walks, at any distance.

ghost use Rattle.std.specs.Prelude.{◌<◌, length};
ghost use Rattle.tree_laws.specs.Laws.{WalksHaveOnePlace, PlacesTellRelated, NamesTellTiles};
ghost use Rattle.step_engine.specs.Crossings.{DeepIsFar, DeepWalksAreFar};

use crate::tile::accepted;
use structure_check::Rules;

/// Each walk has exactly one place, the position that its turns and crossings reach.
/// Two walks have one place exactly where they are related, and places of one name exactly where they are at the same
/// tile.
pub fn one_place(r: &Rules, kind: u8)
    requires kind { kind < length r.now.kinds }
    ensures one { WalksHaveOnePlace r.now.kinds r.now.automaton kind }
    ensures related { PlacesTellRelated r.now.kinds r.now.automaton kind }
    ensures tiles { NamesTellTiles r.now.kinds r.now.automaton kind }
{
    accepted(r);
}

/// What `Deep` tells is a distance.
/// A crossing arrives at a name of more than so many sides exactly where the tile there lies more than so many
/// crossings from the root, and so do the crossings of a walk.
pub fn deep_is_far()
    ensures crossings { DeepIsFar }
    ensures walks { DeepWalksAreFar }
{}
