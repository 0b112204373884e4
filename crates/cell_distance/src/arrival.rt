//! Where a way leads in the tree whose root is the tile where it begins, and shortest walks there.
ghost use Rattle.std.specs.Prelude.{◌≡◌, ◌<◌, ◌≤◌, ◌⊎◌, ◌++◌, length, replicate};
ghost use Rattle.std.specs.Prelude.{IfOk, OnOk, IsErrOf};
ghost use Rattle.tile_model.specs.declared.Letter.TheVariants.{L, R};
ghost use Rattle.tile_model.specs.Tessellations.{sides};
ghost use Rattle.tile_model.specs.Walks.{inverse, opposite as undone};
ghost use Rattle.tree_model.specs.Names.{word};
ghost use Rattle.tree_model.specs.Positions.{Leads, root};
ghost use Rattle.tree_laws.specs.Laws.{way_to};
ghost use Rattle.structure_check.specs.Rules.{AreSound};
ghost use Rattle.spot_laws.specs.Spots.{position};
ghost use Rattle.tree_model.specs.Limits.{deepest};
ghost use Rattle.cell_distance.specs.Passing.{LeadsFar};

use crate::fault::DistFault;
use cell_names::Name;
use std::alloc::{AllocError, Global};
use step_engine::{root_spot, walk, walk_between};
use structure_check::Rules;
use turn_rules::Spot;
use walk_words::{Letter, Walk};

/// Where the way leads from a side of the root of a kind of the tessellation.
pub fn arrive(alloc: Global, r: &Rules, kind: u8, side: u8, way: &Walk) -> Result<Spot, DistFault>
    requires sound { AreSound r.now }
    requires kind { kind < length r.now.kinds }
    requires side { side < sides r.now.kinds (kind, 0) }
    ensures leads { IfOk result (λ s.
        Leads r.now.kinds r.now.automaton kind root (replicate side L ++ way.now) (position s)) }
    ensures near { IfOk result (λ s. length s.name ≤ deepest) }
    ensures deep { IsErrOf result DistFault.Deep
        → LeadsFar r.now.kinds r.now.automaton kind side way.now }
    ensures too_deep { LeadsFar r.now.kinds r.now.automaton kind side way.now
        → IsErrOf result DistFault.Deep ⊎ IsErrOf result DistFault.Memory }
{
    let mut spot = root_spot(alloc, r, kind)?;
    spot.face(r, side);
    walk(&mut spot, r, way)?;
    Ok(spot)
}

/// Where the way back along the word of a position, and then along the word of a name, leads from a side of the root of
/// a kind of the tessellation. The position has the name `back` and the side `spin`.
pub fn arrive_between(
    alloc: Global,
    r: &Rules,
    kind: u8,
    side: u8,
    spin: u8,
    back: &[u8],
    onwards: &[u8],
) -> Result<Spot, DistFault>
    requires sound { AreSound r.now }
    requires kind { kind < length r.now.kinds }
    requires side { side < sides r.now.kinds (kind, 0) }
    ensures leads { IfOk result (λ s.
        Leads r.now.kinds r.now.automaton kind root
        (replicate side L ++ (inverse (word back.now ++ replicate spin L) ++ word onwards.now))
        (position s)) }
    ensures near { IfOk result (λ s. length s.name ≤ deepest) }
    ensures deep { IsErrOf result DistFault.Deep
        → LeadsFar r.now.kinds r.now.automaton kind side
        (inverse (word back.now ++ replicate spin L) ++ word onwards.now) }
    ensures too_deep { LeadsFar r.now.kinds r.now.automaton kind side
        (inverse (word back.now ++ replicate spin L) ++ word onwards.now)
        → IsErrOf result DistFault.Deep ⊎ IsErrOf result DistFault.Memory }
{
    let mut spot = root_spot(alloc, r, kind)?;
    spot.face(r, side);
    walk_between(&mut spot, r, spin, back, onwards)?;
    Ok(spot)
}

/// The way from a side of a tile to the tile of a name in the tree whose root is that tile: back to
/// side 0, and along the name. It is empty where the name is.
pub fn way_along(alloc: Global, side: u8, name: &Name) -> Result<Walk, AllocError>
    ensures { IfOk result (λ way. way ≡ way_to side name.now) }
{
    let mut way = Walk::new(alloc);
    if name.is_empty() {
        return Ok(way);
    }
    push_turns(&mut way, Letter::R, side)?;
    push_word(&mut way, name.sides())?;
    Ok(way)
}

/// Adds that many letters, all the same.
pub fn push_turns(way: &mut Walk, letter: Letter, count: u8) -> Result<(), AllocError>
    ensures { OnOk result (way.new ≡ way.old ++ replicate count letter) }
{
    for turn in 0..count {
        way.push(letter)?;
    }
    Ok(())
}

/// Adds the word of a name: for each side that many letters L, and then X.
pub fn push_word(way: &mut Walk, name: &[u8]) -> Result<(), AllocError>
    ensures { OnOk result (way.new ≡ way.old ++ word name.now) }
{
    for side in name {
        push_turns(way, Letter::L, *side)?;
        way.push(Letter::X)?;
    }
    Ok(())
}

/// The letter that undoes a letter.
pub fn opposite(x: Letter) -> Letter
    ensures { result ≡ undone x }
{
    match x {
        Letter::L => Letter::R,
        Letter::R => Letter::L,
        Letter::X => Letter::X,
    }
}
