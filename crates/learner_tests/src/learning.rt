// Learning tessellations whose rules, tiles or regions are known from elsewhere.
ghost use Rattle.std.specs.Prelude.{◌≤◌};

use crate::tilings::{collapsing, regular, tessellation, truncated};
use region_grower::Region;
use regular_maker::{RegFault, regular as regular_rules};
use state_learner::{LearnFault, Learner, Teacher, learn, learn_by_regions};
use std::alloc::Global;
use std::test::Fail;
use structure_check::Rules;
use tile_kinds::Kind;

/// What an answer says: of rules the numbers of states and of corner types, of regions the numbers
/// of cells that the first two made.
#[derive(Clone, Copy, Debug, PartialEq, Eq)]
enum Said {
    Rules(usize, usize),
    Spherical(u8, u8),
    Closed(u32),
    GaveUp(u32, u32),
    Nothing,
}

fn rules_told(rules: &Rules) -> Said {
    let a = rules.automaton();
    Said::Rules(a.states.len(), a.corners.len())
}

fn made(regions: &[Region<'_>], k: usize) -> u32 {
    match regions.get(k) {
        Some(region) => region.made(),
        None => 0,
    }
}

fn told(answer: &Result<Rules, LearnFault<'_>>) -> Said {
    match answer {
        Ok(rules) => rules_told(rules),
        Err(LearnFault::Spherical { p, q }) => Said::Spherical(*p, *q),
        Err(LearnFault::Closed(tiles)) => Said::Closed(*tiles),
        Err(LearnFault::GaveUp(regions)) => Said::GaveUp(made(regions, 0), made(regions, 1)),
        Err(LearnFault::Memory) => Said::Nothing,
    }
}

/// What is learnt with so many cells.
fn learnt(alloc: Global, kinds: Vec<Kind>, budget: u32) -> Said
    requires at_least { 1 ≤ budget }
    requires at_most { budget ≤ 1000000 }
{
    match tessellation(kinds) {
        Some(t) => told(&learn(alloc, &t, budget)),
        None => Said::Nothing,
    }
}

/// What is learnt by regions alone.
fn learnt_by_regions(alloc: Global, kinds: Vec<Kind>, budget: u32) -> Said
    requires at_least { 1 ≤ budget }
    requires at_most { budget ≤ 1000000 }
{
    let Some(t) = tessellation(kinds) else {
        return Said::Nothing;
    };
    match regular_rules(alloc, &t) {
        Err(RegFault::NotRegular) => told(&learn_by_regions(alloc, &t, budget)),
        _ => Said::Nothing,
    }
}

/// Heptagons and hexagons with cells enough and with too few, and a prism over a triangle.
#[test]
fn learns_cut_off_corners(rt: HostRuntime) -> Result<(), Fail> {
    let alloc = rt.alloc();
    for (p, q, budget, wanted) in [
        (3, 7, 50_000, Said::Rules(8, 2)),
        (3, 7, 5, Said::GaveUp(4, 1)),
        (2, 3, 50_000, Said::Closed(5)),
    ] {
        let said = learnt(alloc, truncated(alloc, p, q)?, budget);
        assert_eq!(rt; said, wanted, "{p},{q}");
    }
    Ok(())
}

#[test]
fn learns_by_regions(rt: HostRuntime) -> Result<(), Fail> {
    let alloc = rt.alloc();
    let said = learnt_by_regions(alloc, truncated(alloc, 3, 7)?, 50_000);
    assert_eq!(rt; said, Said::Rules(14, 4));
    // a triangle and two squares that meet all round
    let said = learnt(alloc, collapsing(alloc)?, 50_000);
    assert_eq!(rt; said, Said::Closed(3));
    Ok(())
}

#[test]
fn makes_the_rules_of_regular_ones(rt: HostRuntime) -> Result<(), Fail> {
    let alloc = rt.alloc();
    let said = learnt(alloc, regular(alloc, 5, 4)?, 1);
    assert_eq!(rt; said, Said::Rules(3, 1));
    let said = learnt(alloc, regular(alloc, 5, 3)?, 50_000);
    assert_eq!(rt; said, Said::Spherical(5, 3));
    Ok(())
}

#[test]
fn counts_give_ups(rt: HostRuntime) -> Result<(), Fail> {
    let alloc = rt.alloc();
    let Some(t) = tessellation(truncated(alloc, 3, 7)?) else {
        panic!(rt; "refused");
    };
    let mut learner = Learner::new(alloc);
    let first = told(&learner.teach(alloc, &t, 5));
    let second = told(&learner.teach(alloc, &t, 1));
    assert_eq!(rt; first, Said::GaveUp(4, 1));
    assert_eq!(rt; second, Said::GaveUp(1, 0));
    assert_eq!(rt; learner.give_ups(), 2);
    Ok(())
}
