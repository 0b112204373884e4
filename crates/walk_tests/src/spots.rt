// The steps of a spot in a tree of two kinds of tile, with the names and states that the tables tell.
ghost use Rattle.std.specs.Prelude.{OnOk};
ghost use Rattle.spot_laws.specs.Spots.{IsSpot};

use crate::steps::start;
use rules_data::Rule;
use sample_tilings::heptagons_and_hexagons;
use smallvec::SmallVec;
use std::alloc::{AllocError, Global};
use std::test::Fail;
use structure_check::Rules;
use turn_rules::{Spot, rule};

// Faces a side of the tile, and goes to the child across it. It answers whether there is one.
#[tactic(auto, using(spot_laws::proofs::Spots::tile_known), unfolding(tree_model::specs::Automata::side_count))]
fn enter(s: &mut Spot, r: &Rules, side: u8) -> Result<bool, AllocError>
    requires { IsSpot r.now s.old }
    ensures { OnOk result (IsSpot r.now s.new) }
{
    if side >= r.tessellation().kind(s.kind(r)).sides {
        return Ok(false);
    }
    s.face(r, side);
    let Rule::Child(_) = rule(r, s.state(), s.spin()) else {
        return Ok(false);
    };
    s.down(r)?;
    Ok(true)
}

// Goes to the parent. It answers whether there is one.
fn leave(s: &mut Spot, r: &Rules) -> bool
    requires { IsSpot r.now s.old }
    ensures { IsSpot r.now s.new }
{
    if s.level() == 0 {
        return false;
    }
    s.up(r);
    true
}

// Whether the spot faces this side of the tile of this name, and these are the states on the way to it.
fn is_at(s: &Spot, sides: &[u8], states: &[u32], spin: u8) -> bool {
    let tile = s.name().sides() == sides && s.level() == sides.len();
    let way = s.path() == states && states.last() == Some(&s.state());
    tile && way && s.spin() == spin
}

#[test]
fn enters_and_leaves(rt: HostRuntime) -> Result<(), Fail> {
    let alloc = rt.alloc();
    let Some(r) = heptagons_and_hexagons(alloc) else {
        panic!(rt; "refused");
    };
    let Some(mut s) = start(alloc, &r)? else {
        panic!(rt; "no kind");
    };
    assert!(rt; is_at(&s, &[], &[0], 0) && s.kind(&r) == 0);
    assert!(rt; enter(&mut s, &r, 5)?);
    assert!(rt; is_at(&s, &[5], &[0, 2], 0) && s.kind(&r) == 1);
    assert!(rt; !enter(&mut s, &r, 1)?);
    assert!(rt; is_at(&s, &[5], &[0, 2], 1));
    assert!(rt; enter(&mut s, &r, 3)?);
    assert!(rt; enter(&mut s, &r, 3)?);
    assert!(rt; is_at(&s, &[5, 3, 3], &[0, 2, 3, 6], 0) && s.kind(&r) == 0);
    assert!(rt; leave(&mut s, &r));
    assert!(rt; is_at(&s, &[5, 3], &[0, 2, 3], 3) && s.kind(&r) == 1);
    Ok(())
}

#[test]
fn goes_on_by_other_sides(rt: HostRuntime) -> Result<(), Fail> {
    let alloc = rt.alloc();
    let Some(r) = heptagons_and_hexagons(alloc) else {
        panic!(rt; "refused");
    };
    let Some(mut s) = start(alloc, &r)? else {
        panic!(rt; "no kind");
    };
    assert!(rt; enter(&mut s, &r, 5)? && enter(&mut s, &r, 3)?);
    assert!(rt; s.level() >= 1);
    s.rejoin(1, &[4], &[7], 2)?;
    assert!(rt; is_at(&s, &[5, 4], &[0, 2, 7], 2));
    let list: SmallVec<u8, 4> = s.empty_list();
    assert!(rt; list.is_empty());
    Ok(())
}
