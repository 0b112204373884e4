// The candidate of heptagons and hexagons, whose rules are known.
use crate::tables::sizes;
use crate::tilings::{tessellation, truncated};
use region_grower::Region;
use state_candidates::Candidates;
use std::alloc::{AllocError, Global};
use std::test::Fail;
use structure_check::first_broken;
use tile_kinds::Tessellation;

/// A region of so many layers, of 5,000 cells at most, started at each of two kinds.
fn regions<'t>(
    alloc: Global,
    t: &'t Tessellation,
    layers: u32,
) -> Result<Vec<Region<'t>>, AllocError> {
    let mut regions = Vec::new(alloc);
    for kind in 0..2 {
        if (kind as u16) < t.kinds() {
            let mut region = Region::start(alloc, t, kind)?;
            for _layer in 0..layers {
                if region.made() <= 5_000 {
                    region.grow(5_000)?;
                }
            }
            regions.push(region)?;
        }
    }
    Ok(regions)
}

/// The numbers of states, corner types and roots of the candidate to horizon 0 or 1 over regions of
/// so many layers, where it meets all conditions; none where it does not, or where there is none.
fn found(
    alloc: Global,
    layers: u32,
    farther: bool,
) -> Result<Option<(usize, usize, usize)>, AllocError> {
    let Some(t) = tessellation(truncated(alloc, 3, 7)?) else {
        return Ok(None);
    };
    let regions = regions(alloc, &t, layers)?;
    let mut candidates = Candidates::over(alloc, &regions)?;
    if farther {
        candidates.farther()?;
    }
    let Some(candidate) = candidates.candidate(alloc, &t)? else {
        return Ok(None);
    };
    if first_broken(&t, &candidate).is_some() {
        return Ok(None);
    }
    Ok(Some(sizes(&candidate)))
}

/// So many layers are enough for rules, seven states of each region and two corner types; fewer
/// are not.
#[test]
fn rules_of_heptagons_and_hexagons(rt: HostRuntime) -> Result<(), Fail> {
    let alloc = rt.alloc();
    assert_eq!(rt; found(alloc, 6, false)?, Some((14, 4, 2)));
    assert_eq!(rt; found(alloc, 1, true)?, None);
    Ok(())
}
