// Rules of regular tessellations, of which tables and numbers of states are known by hand.
use crate::tables::{is_corner, is_state, sizes};
use crate::tilings::{kind, regular as symbol, tessellation, truncated};
use regular_maker::{RegFault, regular};
use rules_data::Rule::{Child, Left, Parent, Right};
use std::alloc::{AllocError, Global};
use std::test::Fail;
use structure_check::Rules;
use tile_kinds::Kind;

/// The rules of {p,q}; None where there are none.
fn made(alloc: Global, p: u8, q: u8) -> Result<Option<Rules>, AllocError> {
    let Some(tess) = tessellation(symbol(alloc, p, q)?) else {
        return Ok(None);
    };
    Ok(regular(alloc, &tess).ok())
}

#[test]
fn makes_the_tables_of_pentagons(rt: HostRuntime) -> Result<(), Fail> {
    let Some(rules) = made(rt.alloc(), 5, 4)? else {
        panic!(rt; "no rules");
    };
    let a = rules.automaton();
    let one = [Parent, Right, Child(1), Child(1), Child(2)];
    let two = [Parent, Right, Child(1), Child(2), Left];
    assert_eq!(rt; sizes(a), (3, 1, 1));
    assert!(rt; is_corner(a, 0, &[0, -1, -2, -1], (0, 1)));
    assert!(rt; is_state(a, 0, &[Child(1); 5], &[(0, 2); 5]));
    assert!(rt; is_state(a, 1, &one, &[(0, 3), (0, 2), (0, 2), (0, 2), (0, 1)]));
    assert!(rt; is_state(a, 2, &two, &[(0, 3), (0, 2), (0, 2), (0, 1), (0, 0)]));
    Ok(())
}

#[test]
fn makes_the_tables_of_heptagons(rt: HostRuntime) -> Result<(), Fail> {
    let Some(rules) = made(rt.alloc(), 7, 3)? else {
        panic!(rt; "no rules");
    };
    let a = rules.automaton();
    let one = [Parent, Right, Right, Child(1), Child(1), Child(2), Left];
    let two = [Parent, Right, Right, Child(1), Child(2), Left, Left];
    let ones = [(0, 2), (1, 2), (0, 1), (0, 1), (0, 1), (1, 1), (0, 0)];
    let twos = [(0, 2), (1, 2), (0, 1), (0, 1), (1, 1), (0, 0), (1, 0)];
    assert_eq!(rt; sizes(a), (3, 2, 1));
    assert!(rt; is_corner(a, 0, &[0, -1, 0], (1, 1)));
    assert!(rt; is_corner(a, 1, &[0, -1, -1], (0, 0)));
    assert!(rt; is_state(a, 0, &[Child(1); 7], &[(0, 1); 7]));
    assert!(rt; is_state(a, 1, &one, &ones));
    assert!(rt; is_state(a, 2, &two, &twos));
    Ok(())
}

/// Sides, tiles at a corner, and how many states the rules have:
/// q - 1 for even q and 2q - 3 for odd q, and one more for triangles.
const STATES: [(u8, u8, usize); 50] = [
    (3, 6, 6),
    (3, 7, 12),
    (3, 8, 8),
    (3, 9, 16),
    (3, 10, 10),
    (3, 31, 60),
    (3, 32, 32),
    (3, 62, 62),
    (3, 63, 124),
    (3, 64, 64),
    (4, 4, 3),
    (4, 5, 7),
    (4, 6, 5),
    (4, 7, 11),
    (4, 8, 7),
    (4, 63, 123),
    (4, 64, 63),
    (5, 4, 3),
    (5, 5, 7),
    (5, 6, 5),
    (5, 63, 123),
    (5, 64, 63),
    (6, 3, 3),
    (6, 4, 3),
    (6, 5, 7),
    (6, 6, 5),
    (6, 7, 11),
    (7, 3, 3),
    (7, 4, 3),
    (7, 7, 11),
    (8, 3, 3),
    (8, 4, 3),
    (8, 8, 7),
    (9, 3, 3),
    (9, 5, 7),
    (10, 3, 3),
    (12, 12, 11),
    (16, 3, 3),
    (17, 17, 31),
    (31, 32, 31),
    (32, 31, 59),
    (48, 3, 3),
    (60, 5, 7),
    (63, 3, 3),
    (63, 63, 123),
    (63, 64, 63),
    (64, 3, 3),
    (64, 4, 3),
    (64, 63, 123),
    (64, 64, 63),
];

#[test]
fn has_the_number_of_states(rt: HostRuntime) -> Result<(), Fail> {
    for (p, q, states) in STATES {
        let Some(rules) = made(rt.alloc(), p, q)? else {
            panic!(rt; "no rules of {p},{q}");
        };
        assert_eq!(rt; rules.automaton().states.len(), states, "{p},{q}");
        assert_eq!(rt; rules.tessellation().kinds(), 1);
    }
    Ok(())
}

/// Why there are no rules, if there are none.
fn fault(alloc: Global, kinds: Vec<Kind>) -> Option<RegFault> {
    let tess = tessellation(kinds)?;
    regular(alloc, &tess).err()
}

#[test]
fn answers_spherical(rt: HostRuntime) -> Result<(), Fail> {
    let alloc = rt.alloc();
    for (p, q) in [(3, 3), (3, 4), (3, 5), (4, 3), (5, 3)] {
        let fault = fault(alloc, symbol(alloc, p, q)?);
        assert_eq!(rt; fault, Some(RegFault::Spherical { p, q }));
    }
    Ok(())
}

#[test]
fn answers_not_regular(rt: HostRuntime) -> Result<(), Fail> {
    let alloc = rt.alloc();
    let mixed = truncated(alloc, 3, 7)?;
    assert_eq!(rt; fault(alloc, mixed), Some(RegFault::NotRegular));
    let striped = vec![in alloc; kind(alloc, 6, &[(0, 0), (0, 1)], &[4, 4])?]?;
    assert_eq!(rt; fault(alloc, striped), Some(RegFault::NotRegular));
    Ok(())
}
