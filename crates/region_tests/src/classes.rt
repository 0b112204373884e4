//! Classes in regions of regular tessellations, and of heptagons and hexagons.
use crate::samples::{regular, truncated};
use look_classes::{Classes, Looks, SideRule, classes};
use region_grower::{Grown, Region};
use std::alloc::{AllocError, Global};
use std::test::Fail;
use tile_kinds::Tessellation;

/// How many numbers there are.
fn there(numbers: &[Option<u32>]) -> u64 {
    let mut count = 0u64;
    for number in numbers {
        if number.is_some() {
            count = count.saturating_add(1);
        }
    }
    count
}

/// Makes up to so many cells.
fn grown(region: &mut Region<'_>, most: u32) -> Result<(), AllocError> {
    for _layer in 0..100 {
        if region.made() > most || most > 1_000_000 {
            return Ok(());
        }
        match region.grow(most)? {
            Grown::Layer(_) => {}
            _ => return Ok(()),
        }
    }
    Ok(())
}

/// The classes in a region of so many cells of a regular tessellation, to a horizon.
fn regular_classes(
    alloc: Global,
    p: u8,
    q: u8,
    most: u32,
    horizon: u32,
) -> Result<Option<Classes>, AllocError> {
    let Ok(t) = Tessellation::make(regular(alloc, p, q)?) else {
        return Ok(None);
    };
    if t.kinds() == 0 {
        return Ok(None);
    }
    let mut region = Region::start(alloc, &t, 0)?;
    grown(&mut region, most)?;
    Ok(Some(classes(alloc, &region, horizon)?))
}

#[test]
fn as_many_classes_as_states_and_corner_types(rt: HostRuntime) -> Result<(), Fail> {
    let alloc = rt.alloc();
    // The automaton of a regular tessellation of p-gons, p at least 4, has 2q - 3 states and 2
    // corner types where q is odd, and q - 1 states and 1 corner type where it is even.
    for (p, q, horizon, cells, corners) in [
        (7, 3, 0, 3, 2),
        (7, 3, 1, 3, 2),
        (6, 3, 3, 3, 2),
        (5, 4, 0, 3, 1),
        (4, 4, 1, 3, 1),
        (4, 5, 0, 7, 2),
    ] {
        let found = regular_classes(alloc, p, q, 3_000, horizon)?;
        let counts = match &found {
            Some(found) => (found.cell_count, found.corner_count),
            None => (0, 0),
        };
        assert_eq!(rt; counts, (cells, corners), "{p},{q} to {horizon}");
    }
    Ok(())
}

#[test]
fn no_number_where_a_look_leaves_the_finished_part(rt: HostRuntime) -> Result<(), Fail> {
    let alloc = rt.alloc();
    // cells and sides with a number: of one tile none, of the twelve of a dodecahedron all
    for (p, q, most, cells, corners) in [(7, 3, 1, 0, 0), (5, 3, 100, 12, 60)] {
        let found = regular_classes(alloc, p, q, most, 1)?;
        let counts = match &found {
            Some(found) => (there(&found.cells), there(&found.corners)),
            None => (100, 100),
        };
        assert_eq!(rt; counts, (cells, corners), "{p},{q}");
    }
    Ok(())
}

/// The rule of side 0 of the first cell of a region.
fn first_rule(alloc: Global, region: &Region<'_>) -> Result<Option<SideRule>, AllocError> {
    let looks = Looks::start(alloc, region)?;
    if looks.region().joins().alive(0) {
        return Ok(looks.rule(0, 0));
    }
    Ok(None)
}

#[test]
fn the_first_cell_has_children_alone(rt: HostRuntime) -> Result<(), Fail> {
    let alloc = rt.alloc();
    let Ok(t) = Tessellation::make(regular(alloc, 7, 3)?) else {
        panic!(rt; "refused");
    };
    if t.kinds() == 0 {
        panic!(rt; "no kind");
    }
    let mut region = Region::start(alloc, &t, 0)?;
    grown(&mut region, 100)?;
    assert_eq!(rt; first_rule(alloc, &region)?, Some(SideRule::Child));
    Ok(())
}

/// The number of the layer that is finished with so many cells in all, if one is.
fn next_layer(region: &mut Region<'_>, most: u32) -> Result<Option<u32>, AllocError> {
    if region.made() > most || most > 1_000_000 {
        return Ok(None);
    }
    match region.grow(most)? {
        Grown::Layer(layer) => Ok(Some(layer)),
        _ => Ok(None),
    }
}

#[test]
fn the_tiles_round_the_first_one_are_one_class(rt: HostRuntime) -> Result<(), Fail> {
    let alloc = rt.alloc();
    let Ok(t) = Tessellation::make(truncated(alloc, 3, 7)?) else {
        panic!(rt; "refused");
    };
    if t.kinds() == 0 {
        panic!(rt; "no kinds");
    }
    let mut region = Region::start(alloc, &t, 0)?;
    assert_eq!(rt; next_layer(&mut region, 5)?, None);
    assert_eq!(rt; next_layer(&mut region, 8)?, Some(1));
    let found = classes(alloc, &region, 0)?;
    assert_eq!(rt; (found.cells.len(), there(&found.cells)), (8, 0));
    assert_eq!(rt; next_layer(&mut region, 1_000)?, Some(2));
    assert_eq!(rt; next_layer(&mut region, 1_000)?, Some(3));
    let found = classes(alloc, &region, 0)?;
    let one = Some(1);
    let first = [Some(0), one, one, one, one, one, one, one];
    assert!(rt; found.cells.starts_with(&first));
    Ok(())
}
