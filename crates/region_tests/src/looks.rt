//! Base automata that a plain Rust program found, each with the numbers of cone types that it was
//! split into there, and the numbers of open corners.
use cone_types::{ConeType, Rule};
use std::alloc::{AllocError, Global};
use std::test::Fail;
use tile_kinds::{Kind, Tessellation};
use tree_looks::{Limits, Split, TreeDart, split_by_looks, way_of_look};

const LIMITS: Limits = Limits {
    types: 20_000,
    open: 40,
};

/// A kind of tile, by its sides, and by what lies across its first sides and at their corners.
fn kind(alloc: Global, sides: u8, across: &[(u8, u8)], valence: u8) -> Result<Kind, AllocError> {
    Ok(Kind {
        sides,
        repeat: if across.len() == 1 { 1 } else { 2 },
        partner: Vec::from_slice(alloc, across)?,
        valence: vec![in alloc; valence; across.len()]?,
    })
}

/// Heptagons and hexagons, a heptagon and two hexagons at each corner.
fn heptagons(alloc: Global) -> Result<Vec<Kind>, AllocError> {
    let mut kinds = vec![in alloc; kind(alloc, 7, &[(1, 0)], 3)?]?;
    kinds.push(kind(alloc, 6, &[(0, 0), (1, 1)], 3)?)?;
    Ok(kinds)
}

/// Squares, hexagons and tiles of 14 sides, one of each at each corner: (4.6.14).
fn squares(alloc: Global) -> Result<Vec<Kind>, AllocError> {
    let mut kinds = vec![in alloc; kind(alloc, 14, &[(1, 0), (2, 0)], 3)?]?;
    kinds.push(kind(alloc, 6, &[(0, 0), (2, 1)], 3)?)?;
    kinds.push(kind(alloc, 4, &[(0, 1), (1, 1)], 3)?)?;
    Ok(kinds)
}

/// The rule that a word spells.
fn rule(word: &str) -> Rule {
    match word {
        "P" => Rule::Parent,
        "L" => Rule::Left,
        "R" => Rule::Right,
        _ => Rule::Child(word.parse().unwrap_or(0)),
    }
}

/// Cone types, each by its kind, its off and its rules.
fn automaton(alloc: Global, rows: &[(u8, u8, &str)]) -> Result<Vec<ConeType>, AllocError> {
    let mut types = Vec::new(alloc);
    for (kind, off, words) in rows.iter() {
        let mut rules = Vec::new(alloc);
        for word in words.split_whitespace() {
            rules.push(rule(word))?;
        }
        types.push(ConeType {
            kind: *kind,
            off: *off,
            rules,
        })?;
    }
    Ok(types)
}

/// How many cone types there are after a split, or else how many open corners are told.
fn count(
    alloc: Global,
    tess: &Tessellation,
    types: &[ConeType],
    horizon: u32,
    limits: Limits,
) -> Result<Result<usize, usize>, AllocError> {
    match &split_by_looks(alloc, tess, types, horizon, limits)? {
        Split::Types(types) => Ok(Ok(types.len())),
        Split::Open(corners) => Ok(Err(corners.len())),
    }
}

static OF_HEPTAGONS: [(u8, u8, &str); 8] = [
    (0, 0, "2 2 2 2 2 2 2"),
    (1, 0, "3 4 3 4 3 4"),
    (1, 0, "P R R 4 5 L"),
    (0, 0, "P R R 2 2 6 L"),
    (1, 1, "P R R 3 7 L"),
    (0, 0, "P R R 2 6 L L"),
    (1, 0, "P R R 7 L L"),
    (1, 1, "P R R 5 L L"),
];

static OF_SQUARES: [(u8, u8, &str); 21] = [
    (0, 0, "3 4 3 4 3 4 3 4 3 4 3 4 3 4"),
    (1, 0, "5 6 5 6 5 6"),
    (2, 0, "7 8 7 8"),
    (1, 0, "P R R 6 9 L"),
    (2, 0, "P R R L"),
    (0, 0, "P R R 4 3 4 3 4 3 4 10 4 11 L"),
    (2, 1, "P R R L"),
    (0, 1, "P R R 12 4 3 4 3 4 13 4 14 15 L"),
    (1, 1, "P R R 16 17 L"),
    (0, 0, "P R R 4 3 4 3 4 10 4 11 L L L"),
    (1, 0, "P R R 6 18 L"),
    (1, 0, "P R R L L L"),
    (1, 0, "P R R R 19 L"),
    (1, 0, "P R R 6 20 L"),
    (1, 0, "P R R 17 L L"),
    (2, 0, "P R L L"),
    (0, 0, "P R R R 12 4 3 4 13 4 14 15 L L"),
    (2, 1, "P R L L"),
    (0, 0, "P R R 4 3 4 10 4 11 L L L L L"),
    (0, 0, "P R R R 12 4 3 4 10 4 11 L L L"),
    (0, 0, "P R R 4 3 4 13 4 14 15 L L L L"),
];

/// An automaton of the same tessellation that is wrong: cone types that differ count as one.
static TOO_COARSE: [(u8, u8, &str); 17] = [
    (0, 0, "3 4 3 4 3 4 3 4 3 4 3 4 3 4"),
    (1, 0, "5 6 5 6 5 6"),
    (2, 0, "7 8 7 8"),
    (1, 0, "P R R 6 9 L"),
    (2, 0, "P R R L"),
    (0, 0, "P R R 4 3 4 3 4 3 4 3 4 10 L"),
    (2, 1, "P R R L"),
    (0, 1, "P R R 11 4 3 4 3 4 3 4 12 13 L"),
    (1, 1, "P R R 14 15 L"),
    (0, 0, "P R R 4 3 4 3 4 3 4 10 L L L"),
    (1, 0, "P R R L L L"),
    (1, 0, "P R R R 16 L"),
    (1, 0, "P R R 15 L L"),
    (2, 0, "P R L L"),
    (0, 0, "P R R R 11 4 3 4 3 4 12 13 L L"),
    (2, 1, "P R L L"),
    (0, 0, "P R R R 11 4 3 4 3 4 10 L L L"),
];

#[test]
fn heptagons_need_no_split(rt: HostRuntime) -> Result<(), Fail> {
    let alloc = rt.alloc();
    let Ok(tess) = Tessellation::make(heptagons(alloc)?) else {
        panic!(rt; "no tessellation");
    };
    let types = automaton(alloc, &OF_HEPTAGONS)?;
    for horizon in [0, 1, 2, 4, 8, 16, 32] {
        let counted = count(alloc, &tess, &types, horizon, LIMITS)?;
        assert_eq!(rt; counted, Ok(8), "{horizon}");
    }
    Ok(())
}

#[test]
fn squares_are_split(rt: HostRuntime) -> Result<(), Fail> {
    let alloc = rt.alloc();
    let Ok(tess) = Tessellation::make(squares(alloc)?) else {
        panic!(rt; "no tessellation");
    };
    let types = automaton(alloc, &OF_SQUARES)?;
    for (horizon, want) in [(0, 21), (1, 23), (2, 23), (8, 23), (32, 23)] {
        let counted = count(alloc, &tess, &types, horizon, LIMITS)?;
        assert_eq!(rt; counted, Ok(want), "{horizon}");
    }
    let few = Limits {
        types: 22,
        open: 40,
    };
    for (horizon, want) in [(0, Ok(21)), (1, Err(0))] {
        let counted = count(alloc, &tess, &types, horizon, few)?;
        assert_eq!(rt; counted, want, "{horizon}");
    }
    Ok(())
}

/// Whether the name of a dart leads from its root over sides of children, to a tile with the dart's
/// side.
fn is_there(types: &[ConeType], dart: &TreeDart) -> bool {
    let mut number = dart.root as u32;
    for side in dart.name.iter() {
        let Some(cone) = types.get(number as usize) else {
            return false;
        };
        match cone.rules.get(*side as usize) {
            Some(Rule::Child(child)) => number = *child,
            _ => return false,
        }
    }
    match types.get(number as usize) {
        Some(cone) => cone.rules.get(dart.side as usize).is_some(),
        None => false,
    }
}

/// How many darts the looks at corners come by in all, if none of the corners closes and all these
/// darts are there.
fn darts_of_looks(
    alloc: Global,
    tess: &Tessellation,
    types: &[ConeType],
    corners: &[TreeDart],
    horizon: u32,
) -> Result<Option<usize>, AllocError> {
    let mut darts: usize = 0;
    for corner in corners {
        let Some(way) = way_of_look(alloc, tess, types, corner, horizon)? else {
            return Ok(None);
        };
        if !way.iter().all(|dart| is_there(types, dart)) {
            return Ok(None);
        }
        darts = darts.saturating_add(way.len());
    }
    Ok(Some(darts))
}

/// How many open corners are told, and how many darts the looks at them come by in all; none where
/// none are told, one of them closes or one of the darts is not there.
fn told(
    alloc: Global,
    tess: &Tessellation,
    types: &[ConeType],
    horizon: u32,
) -> Result<Option<(usize, usize)>, AllocError> {
    let Split::Open(open) = split_by_looks(alloc, tess, types, horizon, LIMITS)? else {
        return Ok(None);
    };
    let darts = darts_of_looks(alloc, tess, types, &open, horizon)?;
    Ok(darts.map(|darts| (open.len(), darts)))
}

#[test]
fn wrong_automata_have_open_corners(rt: HostRuntime) -> Result<(), Fail> {
    let alloc = rt.alloc();
    let Ok(tess) = Tessellation::make(squares(alloc)?) else {
        panic!(rt; "no tessellation");
    };
    let types = automaton(alloc, &TOO_COARSE)?;
    for (horizon, corners, darts) in [(0, 9, 426), (1, 7, 330), (2, 16, 744), (4, 40, 1_748)] {
        let found = told(alloc, &tess, &types, horizon)?;
        assert_eq!(rt; found, Some((corners, darts)), "{horizon}");
    }
    Ok(())
}

#[test]
fn a_look_at_a_corner_that_closes_has_no_way(rt: HostRuntime) -> Result<(), Fail> {
    let alloc = rt.alloc();
    let Ok(tess) = Tessellation::make(squares(alloc)?) else {
        panic!(rt; "no tessellation");
    };
    let types = automaton(alloc, &OF_SQUARES)?;
    for (name, side) in [(&[0][..], 1), (&[0, 3], 2), (&[99], 0), (&[0], 99)] {
        let corner = TreeDart {
            root: 0,
            name: Vec::from_slice(alloc, name)?,
            side,
        };
        assert!(rt; way_of_look(alloc, &tess, &types, &corner, 2)?.is_none());
    }
    Ok(())
}
