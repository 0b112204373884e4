//! Regions of tessellations whose tiles are counted elsewhere.
use crate::samples::{kind, regular, truncated};
use region_grower::{Grown, Region};
use std::alloc::{AllocError, Global};
use std::test::Fail;
use tile_kinds::{Kind, Tessellation};

/// Cut off as far as the middles of the sides: tiles with p and with q sides, four round each
/// corner.
fn rectified(alloc: Global, p: u8, q: u8) -> Result<Vec<Kind>, AllocError> {
    let mut kinds = Vec::new(alloc);
    kinds.push(kind(alloc, p, 1, &[(1, 0)], &[4])?)?;
    kinds.push(kind(alloc, q, 1, &[(0, 0)], &[4])?)?;
    Ok(kinds)
}

/// Turned, with two triangles for each side: five tiles round each corner.
fn snub(alloc: Global, p: u8, q: u8) -> Result<Vec<Kind>, AllocError> {
    let mut kinds = Vec::new(alloc);
    kinds.push(kind(alloc, p, 1, &[(2, 0)], &[5])?)?;
    kinds.push(kind(alloc, q, 1, &[(2, 1)], &[5])?)?;
    kinds.push(kind(alloc, 3, 3, &[(0, 0), (1, 0), (2, 2)], &[5, 5, 5])?)?;
    Ok(kinds)
}

/// A ring of squares that must close after three and after four steps.
fn collapsing(alloc: Global) -> Result<Vec<Kind>, AllocError> {
    let mut kinds = Vec::new(alloc);
    kinds.push(kind(alloc, 3, 1, &[(1, 0)], &[3])?)?;
    kinds.push(kind(
        alloc,
        4,
        4,
        &[(0, 0), (1, 3), (2, 0), (1, 1)],
        &[3, 3, 3, 3],
    )?)?;
    kinds.push(kind(alloc, 4, 1, &[(1, 2)], &[3])?)?;
    Ok(kinds)
}

/// The number of tiles of a region, grown from kind 0 until it is closed; 0 where it does not close.
fn tiles(alloc: Global, kinds: Vec<Kind>) -> Result<u32, AllocError> {
    let Ok(t) = Tessellation::make(kinds) else {
        return Ok(0);
    };
    if t.kinds() == 0 {
        return Ok(0);
    }
    let mut region = Region::start(alloc, &t, 0)?;
    for _layer in 0..100 {
        if region.made() > 50_000 {
            return Ok(0);
        }
        if let Grown::Closed(count) = region.grow(50_000)? {
            return Ok(count);
        }
    }
    Ok(0)
}

/// The numbers of tiles of a regular tessellation, and of it truncated, rectified and snub.
fn four_counts(alloc: Global, p: u8, q: u8) -> Result<[u32; 4], AllocError> {
    Ok([
        tiles(alloc, regular(alloc, p, q)?)?,
        tiles(alloc, truncated(alloc, p, q)?)?,
        tiles(alloc, rectified(alloc, p, q)?)?,
        tiles(alloc, snub(alloc, p, q)?)?,
    ])
}

#[test]
fn closes_with_the_number_of_faces(rt: HostRuntime) -> Result<(), Fail> {
    let alloc = rt.alloc();
    // sides of a face, faces round a corner, corners, edges and faces of the five solids
    for (p, q, v, e, f) in [
        (3, 3, 4, 6, 4),
        (4, 3, 8, 12, 6),
        (3, 4, 6, 12, 8),
        (5, 3, 20, 30, 12),
        (3, 5, 12, 30, 20),
    ] {
        let want = [f, f + v, f + v, f + v + 2 * e];
        assert_eq!(rt; four_counts(alloc, p, q)?, want, "{p},{q}");
    }
    assert_eq!(rt; tiles(alloc, truncated(alloc, 2, 3)?)?, 5);
    assert_eq!(rt; tiles(alloc, collapsing(alloc)?)?, 3);
    Ok(())
}

#[test]
fn grows_by_layers(rt: HostRuntime) -> Result<(), Fail> {
    let alloc = rt.alloc();
    let Ok(t) = Tessellation::make(truncated(alloc, 3, 7)?) else {
        panic!(rt; "refused");
    };
    if t.kinds() == 0 {
        panic!(rt; "no kind");
    }
    let mut region = Region::start(alloc, &t, 0)?;
    assert_eq!(rt; region.radius(0), Some(0));
    assert_eq!(rt; region.grow(5)?, Grown::Full(5));
    assert_eq!(rt; region.layers(), 0);
    if region.made() > 8 {
        panic!(rt; "too many cells");
    }
    assert_eq!(rt; region.grow(8)?, Grown::Layer(1));
    let counts = (region.made(), region.live(), region.layers());
    assert_eq!(rt; counts, (8, 8, 1));
    assert_eq!(rt; (region.radius(7), region.radius(8)), (Some(1), None));
    Ok(())
}

#[test]
fn makes_no_square_twice(rt: HostRuntime) -> Result<(), Fail> {
    let alloc = rt.alloc();
    let Ok(t) = Tessellation::make(regular(alloc, 4, 4)?) else {
        panic!(rt; "refused");
    };
    if t.kinds() == 0 {
        panic!(rt; "no kind");
    }
    let mut region = Region::start(alloc, &t, 0)?;
    for layer in 1..12u32 {
        if region.made() > 1_000 {
            panic!(rt; "too many cells");
        }
        assert_eq!(rt; region.grow(1_000)?, Grown::Layer(layer));
        // the squares of a grid that lie at most so many steps from one of them
        let made = 2 * layer * (layer + 1) + 1;
        assert_eq!(rt; (region.made(), region.live()), (made, made));
        assert_eq!(rt; region.radius(made - 1), Some(layer));
    }
    Ok(())
}
