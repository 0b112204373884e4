//! Tessellations made, refused, walked and copied, with values reckoned by hand.
use crate::samples::{heptagons_and, kind};
use std::test::Fail;
use tile_kinds::{DartType, KindFault, Tessellation};

fn dart(kind: u8, residue: u8) -> DartType {
    DartType { kind, residue }
}

/// The types to the left, to the right and across; none where this is no type.
fn moves(t: &Tessellation, d: DartType) -> Option<[DartType; 3]> {
    if t.has(d) {
        return Some([t.left(d), t.right(d), t.cross(d)]);
    }
    None
}

/// The sides of the tile and the tiles round the corner; none where this is no type.
fn numbers(t: &Tessellation, d: DartType) -> Option<[u8; 2]> {
    if t.has(d) {
        return Some([t.sides(d), t.valence(d)]);
    }
    None
}

#[test]
fn moves_between_types(rt: HostRuntime) -> Result<(), Fail> {
    let alloc = rt.alloc();
    let hexagon = kind(alloc, 6, 2, &[(0, 0), (1, 1)], &[3, 3])?;
    let mut kinds = heptagons_and(alloc, hexagon)?;
    kinds.push(kind(alloc, 3, 3, &[(2, 0), (2, 1), (2, 2)], &[6, 6, 6])?)?;
    let Ok(first) = Tessellation::make(kinds) else {
        panic!(rt; "refused");
    };
    let t = first.copy(alloc)?;
    assert_eq!(rt; t.kinds(), 3);
    let cases = [
        (dart(0, 0), [dart(0, 0), dart(0, 0), dart(1, 0)], [7, 3]),
        (dart(1, 0), [dart(1, 1), dart(1, 1), dart(0, 0)], [6, 3]),
        (dart(1, 1), [dart(1, 0), dart(1, 0), dart(1, 1)], [6, 3]),
        (dart(2, 0), [dart(2, 1), dart(2, 2), dart(2, 0)], [3, 6]),
        (dart(2, 2), [dart(2, 0), dart(2, 1), dart(2, 2)], [3, 6]),
    ];
    for (d, moved, counted) in cases {
        assert_eq!(rt; moves(&t, d), Some(moved), "{d:?}");
        assert_eq!(rt; numbers(&t, d), Some(counted), "{d:?}");
    }
    for d in [dart(0, 1), dart(1, 2), dart(3, 0)] {
        assert!(rt; !t.has(d), "{d:?} is no type");
    }
    Ok(())
}

/// Sides, repeat, partners and valences of a hexagon's place, and the fault that is found first.
const REFUSED: [(u8, u8, [(u8, u8); 2], [u8; 2], KindFault); 9] = [
    (
        2,
        2,
        [(0, 0), (1, 1)],
        [3, 3],
        KindFault::Sides {
            kind: 1,
            residue: 0,
        },
    ),
    (
        65,
        2,
        [(0, 0), (1, 1)],
        [3, 3],
        KindFault::Sides {
            kind: 1,
            residue: 0,
        },
    ),
    (
        6,
        4,
        [(0, 0), (1, 1)],
        [3, 3],
        KindFault::Repeat {
            kind: 1,
            residue: 0,
        },
    ),
    (
        6,
        3,
        [(0, 0), (1, 1)],
        [3, 3],
        KindFault::Repeat {
            kind: 1,
            residue: 0,
        },
    ),
    (
        6,
        2,
        [(0, 0), (2, 0)],
        [2, 3],
        KindFault::Partner {
            kind: 1,
            residue: 1,
        },
    ),
    (
        6,
        2,
        [(1, 1), (1, 1)],
        [3, 65],
        KindFault::Valence {
            kind: 1,
            residue: 1,
        },
    ),
    (
        6,
        2,
        [(1, 1), (1, 1)],
        [3, 4],
        KindFault::Involution {
            kind: 0,
            residue: 0,
        },
    ),
    (
        6,
        2,
        [(0, 0), (1, 1)],
        [3, 4],
        KindFault::Corner {
            kind: 1,
            residue: 0,
        },
    ),
    (
        6,
        2,
        [(0, 0), (1, 1)],
        [4, 4],
        KindFault::Corner {
            kind: 0,
            residue: 0,
        },
    ),
];

#[test]
fn answers_the_first_fault(rt: HostRuntime) -> Result<(), Fail> {
    let alloc = rt.alloc();
    for (sides, repeat, partner, valence, want) in REFUSED {
        let hexagon = kind(alloc, sides, repeat, &partner, &valence)?;
        let Err((kinds, fault)) = Tessellation::make(heptagons_and(alloc, hexagon)?) else {
            panic!(rt; "accepted in place of {want:?}");
        };
        assert_eq!(rt; fault, want);
        assert_eq!(rt; kinds.len(), 2);
    }
    let Err((_, fault)) = Tessellation::make(Vec::new(alloc)) else {
        panic!(rt; "accepted no kinds");
    };
    assert_eq!(rt; fault, KindFault::Count);
    Ok(())
}
