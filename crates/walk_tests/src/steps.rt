// Walks that are known from outside, in a tree of pentagons.
ghost use Rattle.std.specs.Prelude.{IfOk, IfSome};
ghost use Rattle.spot_laws.specs.Spots.{IsSpot};

use sample_tilings::pentagons;
use std::alloc::{AllocError, Global};
use std::test::Fail;
use step_engine::laws::{deep_is_far, one_place};
use step_engine::{
    StepFault, cross, root_spot, spot_walk, turn_left, turn_right, walk, walk_between,
};
use structure_check::Rules;
use tree_laws::laws::{contours, levels, matching, places, rings, shortest, weights};
use turn_rules::Spot;
use turn_rules::laws::{across_back, round_corner};
use walk_words::{Walk, print_walk, read_walk};

// Side 0 of the root of kind 0.
pub(crate) fn start(alloc: Global, r: &Rules) -> Result<Option<Spot>, AllocError>
    ensures { IfOk result (λ found. IfSome found (IsSpot r.now)) }
{
    if r.tessellation().kinds() == 0 {
        return Ok(None);
    }
    Ok(Some(root_spot(alloc, r, 0)?))
}

// Whether the walk leads from there to this side of this tile.
fn leads(alloc: Global, r: &Rules, w: &Walk, sides: &[u8], spin: u8) -> Result<bool, StepFault> {
    let Some(mut s) = start(alloc, r)? else {
        return Ok(false);
    };
    walk(&mut s, r, w)?;
    Ok(s.name().sides() == sides && s.spin() == spin)
}

// Whether a copy that goes on leaves the spot where it was, and what lies across lies there both ways.
fn copies(alloc: Global, r: &Rules, w: &Walk) -> Result<bool, StepFault> {
    let Some(mut s) = start(alloc, r)? else {
        return Ok(false);
    };
    walk(&mut s, r, w)?;
    let mut copy = s.copy(alloc)?;
    cross(&mut copy, r)?;
    let left = copy.name().sides() == [0, 4, 3].as_slice() && copy.spin() == 4;
    let stays = s.name().sides() == [1, 2].as_slice() && s.spin() == 1;
    turn_right(&mut copy, r);
    turn_left(&mut copy, r);
    cross(&mut copy, r)?;
    let back = copy.name() == s.name() && copy.spin() == s.spin();
    Ok(left && stays && back)
}

#[test]
fn crosses_by_brackets(rt: HostRuntime) -> Result<(), Fail> {
    let alloc = rt.alloc();
    let Some(r) = pentagons(alloc) else {
        panic!(rt; "refused");
    };
    let there = read_walk(alloc, b"LXLX")?;
    assert!(rt; leads(alloc, &r, &there, &[0, 4], 4)?);
    let back = read_walk(alloc, b"LXLXLXLX")?;
    assert!(rt; leads(alloc, &r, &back, &[], 0)?);
    let far = read_walk(alloc, b"XLLLLXLLLXLLLLX")?;
    assert!(rt; leads(alloc, &r, &far, &[1, 2], 1)?);
    assert!(rt; copies(alloc, &r, &far)?);
    Ok(())
}

#[test]
fn writes_the_word_of_a_spot(rt: HostRuntime) -> Result<(), Fail> {
    let alloc = rt.alloc();
    let Some(r) = pentagons(alloc) else {
        panic!(rt; "refused");
    };
    let Some(mut s) = start(alloc, &r)? else {
        panic!(rt; "no kind");
    };
    walk(&mut s, &r, &read_walk(alloc, b"XLLLLXLLLXLLLLX")?)?;
    let word = print_walk(alloc, &spot_walk(alloc, &s)?)?;
    assert_eq!(rt; word.as_slice(), b"LXLLXL".as_slice());
    Ok(())
}

// The position at side 1 of the tile 1.2, gone back from there, and the names 1.2 and 0.4, gone along from the root. Six
// sides to the right are one, round a pentagon.
#[test]
fn goes_by_names(rt: HostRuntime) -> Result<(), Fail> {
    let alloc = rt.alloc();
    let Some(r) = pentagons(alloc) else {
        panic!(rt; "refused");
    };
    let Some(mut s) = start(alloc, &r)? else {
        panic!(rt; "no kind");
    };
    walk(&mut s, &r, &read_walk(alloc, b"XLLLLXLLLXLLLLX")?)?;
    assert_eq!(rt; (s.name().sides(), s.spin()), ([1, 2].as_slice(), 1));
    walk_between(&mut s, &r, 1, &[1, 2], &[])?;
    assert_eq!(rt; (s.name().sides(), s.spin()), ([].as_slice(), 0));
    walk_between(&mut s, &r, 0, &[], &[1, 2])?;
    assert_eq!(rt; (s.name().sides(), s.spin()), ([1, 2].as_slice(), 0));
    turn_left(&mut s, &r);
    walk_between(&mut s, &r, 6, &[1, 2], &[0, 4])?;
    assert_eq!(rt; (s.name().sides(), s.spin()), ([0, 4].as_slice(), 0));
    Ok(())
}

// The laws do nothing. What they ask of the rules is met by some.
#[test]
fn calls_the_laws(rt: HostRuntime) -> Result<(), Fail> {
    let alloc = rt.alloc();
    let Some(r) = pentagons(alloc) else {
        panic!(rt; "refused");
    };
    assert_eq!(rt; r.tessellation().kinds(), 1);
    one_place(&r, 0);
    deep_is_far();
    across_back(&r, 0);
    round_corner(&r, 0);
    matching();
    contours();
    weights();
    places();
    levels();
    shortest();
    rings();
    Ok(())
}
