// The rules that both ways of learning find have the same names, as many in each ring as another
// program counted.
use crate::tilings::{rectified, tessellation, truncated};
use cell_patches::Patches;
use cone_learner::learn_cones;
use regular_maker::{RegFault, regular as regular_rules};
use rules_data::{Automaton, Rule};
use state_learner::learn_by_regions;
use std::alloc::{AllocError, Global};
use std::test::Fail;
use structure_check::Rules;
use tile_kinds::Kind;

/// A name of the tree of a root, and the state that it comes to.
#[derive(Drop)]
struct Name {
    state: u32,
    sides: Vec<u8>,
}

/// Adds the names that are one side longer than a name, from left to right.
fn add_children(
    alloc: Global,
    automaton: &Automaton,
    name: &Name,
    longer: &mut Vec<Name>,
) -> Result<(), AllocError> {
    let Some(state) = automaton.states.get(name.state as usize) else {
        return Ok(());
    };
    for (side, rule) in (0..u8::MAX).zip(&state.rules) {
        if let Rule::Child(state) = *rule {
            let mut sides = Vec::from_slice(alloc, &name.sides)?;
            sides.push(side)?;
            longer.push(Name { state, sides })?;
        }
    }
    Ok(())
}

/// The names of a ring of the tree of the first root.
fn ring(alloc: Global, rules: &Rules, distance: u8) -> Result<Vec<Name>, AllocError> {
    let automaton = rules.automaton();
    let mut names = Vec::new(alloc);
    if let Some(root) = automaton.roots.first() {
        names.push(Name {
            state: *root,
            sides: Vec::new(alloc),
        })?;
    }
    for step in 0..distance {
        let mut longer = Vec::new(alloc);
        for name in &names {
            add_children(alloc, automaton, name, &mut longer)?;
        }
        names = longer;
    }
    Ok(names)
}

/// Whether two lists have the same names.
fn are_same(a: &[Name], b: &[Name]) -> bool {
    if a.len() != b.len() {
        return false;
    }
    a.iter()
        .zip(b)
        .all(|(x, y)| x.sides.as_slice() == y.sides.as_slice())
}

/// How many names a ring has by both ways of learning, if they have the same names; 0 if not.
fn common_ring(alloc: Global, kinds: Vec<Kind>, distance: u8) -> Result<usize, AllocError> {
    let Some(t) = tessellation(kinds) else {
        return Ok(0);
    };
    let Err(RegFault::NotRegular) = regular_rules(alloc, &t) else {
        return Ok(0);
    };
    let Ok(by_regions) = learn_by_regions(alloc, &t, 50_000) else {
        return Ok(0);
    };
    let Some(mut patches) = Patches::start(alloc, &t, 50_000)? else {
        return Ok(0);
    };
    let Some(by_cones) = learn_cones(alloc, &t, &mut patches)? else {
        return Ok(0);
    };
    let a = ring(alloc, &by_regions, distance)?;
    let b = ring(alloc, &by_cones, distance)?;
    Ok(if are_same(&a, &b) { a.len() } else { 0 })
}

#[test]
fn both_ways_have_the_same_rings(rt: HostRuntime) -> Result<(), Fail> {
    let alloc = rt.alloc();
    for (p, q, to_middles, names) in [
        (3, 7, false, 49),
        (4, 5, false, 100),
        (5, 4, false, 168),
        (7, 3, true, 21),
        (5, 4, true, 40),
    ] {
        let tiles = if to_middles {
            rectified(alloc, p, q)?
        } else {
            truncated(alloc, p, q)?
        };
        assert_eq!(rt; common_ring(alloc, tiles, 4)?, names, "{p},{q}");
    }
    Ok(())
}
