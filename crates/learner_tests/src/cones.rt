// Tessellations with the numbers of states and corner types, and of the cells that were made, that
// another program found; and some with no rules.
use crate::tilings::{alike, rectified, regular, tessellation, truncated};
use cell_patches::Patches;
use cone_learner::learn_cones;
use std::alloc::{AllocError, Global};
use std::test::Fail;
use tile_kinds::Kind;

/// How many states and corner types the rules have that are learnt, 0 where there are none, and how
/// many cells are made.
fn learnt(alloc: Global, kinds: Vec<Kind>, budget: u32) -> Result<(usize, usize, u32), AllocError> {
    let Some(t) = tessellation(kinds) else {
        return Ok((0, 0, u32::MAX));
    };
    let Some(mut patches) = Patches::start(alloc, &t, budget)? else {
        return Ok((0, 0, 0));
    };
    let Some(rules) = learn_cones(alloc, &t, &mut patches)? else {
        return Ok((0, 0, patches.made()));
    };
    let automaton = rules.automaton();
    Ok((
        automaton.states.len(),
        automaton.corners.len(),
        patches.made(),
    ))
}

/// Heptagons and hexagons, heptagons with their corners cut off, and triangles and heptagons, which
/// take two rounds.
#[test]
fn learns_tiles_of_two_kinds(rt: HostRuntime) -> Result<(), Fail> {
    let alloc = rt.alloc();
    for (p, q, to_middles, states, corners, most) in [
        (3, 7, false, 8, 2, 77),
        (7, 3, false, 7, 7, 95),
        (3, 7, true, 8, 2, 144),
    ] {
        let tiles = if to_middles {
            rectified(alloc, p, q)?
        } else {
            truncated(alloc, p, q)?
        };
        let (found, types, cells) = learnt(alloc, tiles, 50_000)?;
        assert_eq!(rt; (found, types), (states, corners), "{p},{q}");
        assert!(rt; cells <= most, "{p},{q}");
    }
    Ok(())
}

/// Duals of truncated {12,12} and {3,30}, then likewise of rectified, of rhombic and of snub ones.
#[test]
fn learns_duals_with_many_tiles_at_a_corner(rt: HostRuntime) -> Result<(), Fail> {
    let alloc = rt.alloc();
    let three = [2, 1, 0];
    let four = [3, 2, 1, 0];
    let five = [4, 1, 3, 2, 0];
    for (sides, across, valences, states, corners) in [
        (3, &three[..], &[24, 24, 12][..], 58, 3),
        (3, &three, &[6, 6, 30], 40, 3),
        (4, &[1, 0], &[12, 12], 21, 1),
        (4, &[1, 0], &[30, 3], 88, 7),
        (4, &four, &[4, 12, 4, 12], 25, 2),
        (4, &four, &[4, 30, 4, 3], 39, 6),
        (4, &four, &[4, 3, 4, 64], 73, 6),
        (5, &five, &[3, 3, 12, 3, 12], 50, 12),
        (5, &five, &[3, 3, 30, 3, 3], 73, 16),
    ] {
        let (found, types, cells) = learnt(alloc, alike(alloc, sides, across, valences)?, 50_000)?;
        assert_eq!(rt; (found, types), (states, corners), "{sides}");
        assert!(rt; cells <= 4_730, "{sides}");
    }
    Ok(())
}

#[test]
fn learns_nothing_of_a_cube(rt: HostRuntime) -> Result<(), Fail> {
    let alloc = rt.alloc();
    let (states, _, cells) = learnt(alloc, regular(alloc, 4, 3)?, 50_000)?;
    assert_eq!(rt; states, 0);
    assert!(rt; cells <= 50);
    Ok(())
}

#[test]
fn makes_no_more_cells_than_its_budget(rt: HostRuntime) -> Result<(), Fail> {
    let alloc = rt.alloc();
    assert_eq!(rt; learnt(alloc, truncated(alloc, 3, 7)?, 30)?, (0, 0, 30));
    assert_eq!(rt; learnt(alloc, truncated(alloc, 3, 7)?, 1)?, (0, 0, 0));
    Ok(())
}
