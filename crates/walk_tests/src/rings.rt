//! Sizes and names of rings of heptagons, compared with values from outside.
use ring_listing::{CountFault, Ring, RingFault, RingSizes, count, ring};
use sample_tilings::heptagons;
use std::alloc::{AllocError, Global};
use std::test::Fail;
use structure_check::Rules;

// How many tiles a ring has, counted alone and after a larger one.
fn counted(alloc: Global, r: &Rules, d: u32) -> Option<[Result<u128, CountFault>; 2]> {
    if r.tessellation().kinds() == 0 {
        return None;
    }
    let mut sizes = RingSizes::new(alloc, r, 0);
    let _larger = sizes.count(91);
    Some([count(alloc, r, 0, d), sizes.count(d)])
}

#[test]
fn rings_have_their_sizes(rt: HostRuntime) -> Result<(), Fail> {
    let alloc = rt.alloc();
    let Some(r) = heptagons(alloc) else {
        panic!(rt; "no rules");
    };
    assert_eq!(rt; counted(alloc, &r, 3), Some([Ok(56), Ok(56)]));
    let large = Err(CountFault::TooBig(92));
    assert_eq!(rt; counted(alloc, &r, 92), Some([large, large]));
    Ok(())
}

// The fault of listing a ring.
fn refused(alloc: Global, r: &Rules, d: u32) -> Option<RingFault> {
    if r.tessellation().kinds() == 0 {
        return None;
    }
    ring(alloc, r, 0, d).err()
}

#[test]
fn rings_may_have_too_many_names(rt: HostRuntime) -> Result<(), Fail> {
    let alloc = rt.alloc();
    let Some(r) = heptagons(alloc) else {
        panic!(rt; "no rules");
    };
    assert_eq!(rt; refused(alloc, &r, 11), Some(RingFault::TooMany(123_977)));
    Ok(())
}

// The first sides of the names of the first ring, until none comes.
fn first_sides(alloc: Global, r: &Rules) -> Result<Vec<Option<u8>>, AllocError> {
    let mut sides = Vec::new(alloc);
    if r.tessellation().kinds() == 0 {
        return Ok(sides);
    }
    let mut names = Ring::of(alloc, r, 0, 1)?;
    for _turn in 0..9 {
        sides.push(match names.step() {
            Some(name) => name.sides().first().copied(),
            None => None,
        })?;
    }
    Ok(sides)
}

#[test]
fn rings_are_listed_in_order(rt: HostRuntime) -> Result<(), Fail> {
    let alloc = rt.alloc();
    let Some(r) = heptagons(alloc) else {
        panic!(rt; "no rules");
    };
    let sides = first_sides(alloc, &r)?;
    assert_eq!(rt; sides.len(), 9);
    for (side, found) in (0..7u8).zip(&sides) {
        assert_eq!(rt; *found, Some(side));
    }
    assert_eq!(rt; sides.get(7).copied(), Some(None));
    assert_eq!(rt; sides.get(8).copied(), Some(None));
    Ok(())
}
