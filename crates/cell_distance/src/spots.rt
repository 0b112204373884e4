//! Distances and shortest walks between two spots of one tree.
ghost use Rattle.std.specs.Prelude.{◌≡◌, ◌≤◌, ◌⊎◌, ◌+◌, List, [], length, take, drop};
ghost use Rattle.std.specs.Prelude.{IfOk, IsErrOf, IsTrue};
ghost use Rattle.tile_model.specs.declared.Letter.{Letter};
ghost use Rattle.tile_model.specs.Walks.{type_of};
ghost use Rattle.tile_model.specs.Relation.{IsDistance};
ghost use Rattle.tree_model.specs.Names.{word};
ghost use Rattle.tree_model.specs.Places.{position_word};
ghost use Rattle.tree_model.specs.Positions.{Position};
ghost use Rattle.tree_laws.specs.Laws.{IsPlaceFrom, IsShortestWay, way_to};
ghost use Rattle.structure_check.specs.Rules.{AreSound};
ghost use Rattle.spot_laws.specs.Spots.{IsSpot, position, root_kind};
ghost use Rattle.step_engine.specs.Crossings.{StandsAfter};
ghost use Rattle.tree_model.specs.Limits.{deepest};
ghost use Rattle.cell_distance.specs.Passing.{WalkPassesFar, ArrivesFrom};

use crate::arrival::{arrive_between, way_along};
use crate::fault::DistFault;
use std::alloc::Global;
use structure_check::Rules;
use tile_kinds::DartType;
use turn_rules::Spot;
use walk_words::Walk;

/// How many sides are compared at once.
const BLOCK: usize = 64;

/// The least number of crossings of a walk from the tile of `s` to the tile of `t`, two spots of
/// one tree: whatever walks they stand after, this is the distance between the two.
///
/// `Deep` comes exactly where some tile on the way in the tree from the root to the tile of `t` is
/// more than 4,000 crossings from the tile of `s`. The name of `s` has at most 4,000 sides.
pub fn spot_distance(alloc: Global, r: &Rules, s: &Spot, t: &Spot) -> Result<u32, DistFault>
    requires first { IsSpot r.now s.now }
    requires second { IsSpot r.now t.now }
    requires tree { root_kind r.now t.now ≡ root_kind r.now s.now }
    requires near { length s.now.name ≤ deepest }
    ensures least { IfOk result (λ n. (u w : List Letter)
        → StandsAfter r.now s.now u → StandsAfter r.now t.now w
        → IsDistance r.now.kinds (root_kind r.now s.now, 0) u w n) }
    ensures deep { IsErrOf result DistFault.Deep → (u : List Letter) → StandsAfter r.now s.now u
        → WalkPassesFar r.now.kinds (root_kind r.now s.now, 0) u [] (word t.now.name) }
    ensures too_deep { (u : List Letter) → StandsAfter r.now s.now u
        → WalkPassesFar r.now.kinds (root_kind r.now s.now, 0) u [] (word t.now.name)
        → IsErrOf result DistFault.Deep ⊎ IsErrOf result DistFault.Memory }
{
    let (_, there) = go_between_spots(alloc, r, s, t)?;
    Ok(there.level() as u32)
}

/// A walk with the least number of crossings from the tile of `s` to the tile of `t`, two spots of
/// one tree: in the tree whose root is the tile of `s`, back from the faced side to side 0 and then
/// along the name of the tile of `t`. It is empty where the tiles are one.
///
/// `Deep` comes where it comes from `spot_distance`. The name of `s` has at most 4,000 sides.
pub fn spot_shortest(alloc: Global, r: &Rules, s: &Spot, t: &Spot) -> Result<Walk, DistFault>
    requires first { IsSpot r.now s.now }
    requires second { IsSpot r.now t.now }
    requires tree { root_kind r.now t.now ≡ root_kind r.now s.now }
    requires near { length s.now.name ≤ deepest }
    ensures least { IfOk result (λ z. (u w : List Letter)
        → StandsAfter r.now s.now u → StandsAfter r.now t.now w
        → IsShortestWay r.now.kinds (root_kind r.now s.now, 0) u w z) }
    ensures named { IfOk result (λ z. (u w : List Letter) (p : Position)
        → StandsAfter r.now s.now u → StandsAfter r.now t.now w
        → IsPlaceFrom r.now.kinds r.now.automaton (root_kind r.now s.now) u w p
        → z ≡ way_to (type_of r.now.kinds (root_kind r.now s.now, 0) u).1 p.name) }
    ensures deep { IsErrOf result DistFault.Deep → (u : List Letter) → StandsAfter r.now s.now u
        → WalkPassesFar r.now.kinds (root_kind r.now s.now, 0) u [] (word t.now.name) }
    ensures too_deep { (u : List Letter) → StandsAfter r.now s.now u
        → WalkPassesFar r.now.kinds (root_kind r.now s.now, 0) u [] (word t.now.name)
        → IsErrOf result DistFault.Deep ⊎ IsErrOf result DistFault.Memory }
{
    let (from, there) = go_between_spots(alloc, r, s, t)?;
    Ok(way_along(alloc, from.residue, there.name())?)
}

/// The type that `s` faces, and where the way to the tile of `t` leads in the tree whose root is
/// the tile of `s`: back along the word of `s` and then along that of `t`, without what both words
/// share, the sides that their names begin with.
fn go_between_spots(
    alloc: Global,
    r: &Rules,
    s: &Spot,
    t: &Spot,
) -> Result<(DartType, Spot), DistFault>
    requires first { IsSpot r.now s.now }
    requires near { length s.now.name ≤ deepest }
    ensures sound { AreSound r.now }
    ensures arrives { IfOk result (λ e.
        ArrivesFrom r.now.kinds r.now.automaton (root_kind r.now s.now)
        (position_word (position s.now)) (word t.now.name) e.0 e.1) }
    ensures deep { IsErrOf result DistFault.Deep
        → WalkPassesFar r.now.kinds (root_kind r.now s.now, 0)
        (position_word (position s.now)) [] (word t.now.name) }
    ensures too_deep { WalkPassesFar r.now.kinds (root_kind r.now s.now, 0)
        (position_word (position s.now)) [] (word t.now.name)
        → IsErrOf result DistFault.Deep ⊎ IsErrOf result DistFault.Memory }
{
    let from = s.faced_type(r);
    let kept = shared(s.name().sides(), t.name().sides());
    let back = &s.name().sides()[kept..];
    let onwards = &t.name().sides()[kept..];
    let there = arrive_between(alloc, r, from.kind, from.residue, s.spin(), back, onwards)?;
    Ok((from, there))
}

/// How many sides two names begin with that are the same: deep names share nearly all of them, so
/// whole blocks of sides are compared first.
fn shared(m: &[u8], n: &[u8]) -> usize
    ensures first { result ≤ length m.now }
    ensures second { result ≤ length n.now }
    ensures same { take result m.now ≡ take result n.now }
{
    let mut count = 0;
    while is_same_block(m, n, count) {
        count += BLOCK;
    }
    while count < m.len() && count < n.len() && m[count] == n[count] {
        count += 1;
    }
    count
}

/// Whether both lists go on with one block of sides from a place on.
fn is_same_block(m: &[u8], n: &[u8], at: usize) -> bool
    requires first { at ≤ length m.now }
    requires second { at ≤ length n.now }
    ensures first { IsTrue result → at + BLOCK ≤ length m.now }
    ensures second { IsTrue result → at + BLOCK ≤ length n.now }
    ensures same { IsTrue result → take BLOCK (drop at m.now) ≡ take BLOCK (drop at n.now) }
{
    m.len() - at >= BLOCK && n.len() - at >= BLOCK && m[at..at + BLOCK] == n[at..at + BLOCK]
}
