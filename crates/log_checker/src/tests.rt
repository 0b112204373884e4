// Logs over squares, four round each corner, and over heptagons with hexagons between them, which
// are followed here by hand.
use crate::{LogFault, verify};
use log_model::Change;
use std::alloc::{AllocError, Global};
use std::test::Fail;
use tile_kinds::{Kind, Tessellation};
use walk_words::read_walk;

/// A walk, the changes (whether a loop is inserted, where, and which), a walk, and the fault.
type Row = (
    &'static str,
    &'static [(bool, u64, u8)],
    &'static str,
    Option<LogFault>,
);

static SQUARES: [Row; 14] = [
    ("XX", &[(false, 0, 1)], "-", None),
    ("LXLXLXLX", &[(false, 0, 5)], "-", None),
    ("LXLXLXLX", &[(false, 0, 4)], "-", Some(LogFault::Change(1))),
    ("LXLXLXLX", &[], "-", Some(LogFault::End)),
    ("LLLL", &[(false, 0, 4)], "-", None),
    ("XLLLL", &[(false, 0, 4)], "X", Some(LogFault::Change(1))),
    ("XLLLL", &[(false, 1, 4)], "X", None),
    ("-", &[(true, 1, 1)], "XX", Some(LogFault::Change(1))),
    (
        "-",
        &[(true, 0, 2), (true, 2, 3), (false, 1, 3)],
        "LL",
        Some(LogFault::Change(3)),
    ),
    (
        "-",
        &[(true, 0, 2), (true, 2, 3), (true, 1, 1)],
        "LXXRRL",
        None,
    ),
    ("X", &[(true, 0, 0)], "X", Some(LogFault::Change(1))),
    ("X", &[(true, 0, 6)], "X", Some(LogFault::Change(1))),
    (
        "XX",
        &[(false, 0, 1), (false, 0, 1)],
        "-",
        Some(LogFault::Change(2)),
    ),
    (
        "XX",
        &[(true, 18_446_744_073_709_551_615, 1)],
        "-",
        Some(LogFault::Change(1)),
    ),
];

static HEPTAGONS: [Row; 5] = [
    ("X", &[(true, 1, 4)], "XLLLLLL", None),
    ("X", &[(true, 1, 4)], "XLLLLLLL", Some(LogFault::End)),
    ("X", &[(true, 0, 4)], "LLLLLLLX", None),
    ("LXLXLX", &[(false, 0, 5)], "-", None),
    (
        "LXLX",
        &[(true, 2, 1), (true, 3, 4), (true, 1, 5)],
        "LLXLXLXXXLLLLLLLXLX",
        None,
    ),
];

fn kind(
    alloc: Global,
    sides: u8,
    repeat: u8,
    partner: &[(u8, u8)],
    valence: &[u8],
) -> Result<Kind, AllocError> {
    Ok(Kind {
        sides,
        repeat,
        partner: Vec::from_slice(alloc, partner)?,
        valence: Vec::from_slice(alloc, valence)?,
    })
}

/// Squares, four round each corner.
fn squares(alloc: Global) -> Result<Option<Tessellation>, AllocError> {
    let square = kind(alloc, 4, 1, &[(0, 0)], &[4])?;
    Ok(Tessellation::make(vec![in alloc; square]?).ok())
}

/// A heptagon and two hexagons round each corner.
fn heptagons(alloc: Global) -> Result<Option<Tessellation>, AllocError> {
    let heptagon = kind(alloc, 7, 1, &[(1, 0)], &[3])?;
    let hexagon = kind(alloc, 6, 2, &[(0, 0), (1, 1)], &[3, 3])?;
    Ok(Tessellation::make(vec![in alloc; heptagon, hexagon]?).ok())
}

/// What `verify` says of a row, from side 0 of kind 0.
fn answer(alloc: Global, t: &Tessellation, row: &Row) -> Result<Option<LogFault>, Fail> {
    let (u, changes, w, _) = *row;
    let mut log = Vec::new(alloc);
    for (insert, at, which) in changes {
        log.push(Change {
            at: *at,
            which: *which,
            insert: *insert,
        })?;
    }
    // It tells that there is a kind 0.
    let _kinds = t.kinds();
    let u = read_walk(alloc, u.as_bytes())?;
    let w = read_walk(alloc, w.as_bytes())?;
    Ok(verify(alloc, t, t.start(0), &u, &log, &w).err())
}

#[test]
fn follows_short_logs(rt: HostRuntime) -> Result<(), Fail> {
    let alloc = rt.alloc();
    let Some(t) = squares(alloc)? else {
        panic!(rt; "no squares");
    };
    for row in &SQUARES {
        let got = answer(alloc, &t, row)?;
        assert_eq!(rt; got, row.3, "{} to {}", row.0, row.2);
    }
    let Some(t) = heptagons(alloc)? else {
        panic!(rt; "no heptagons");
    };
    for row in &HEPTAGONS {
        let got = answer(alloc, &t, row)?;
        assert_eq!(rt; got, row.3, "{} to {}", row.0, row.2);
    }
    Ok(())
}

/// Ways round the corner are put in at the beginning until the walk has many pieces, and are taken
/// out again from the middle to both ends.
#[test]
fn follows_a_long_log(rt: HostRuntime) -> Result<(), Fail> {
    let alloc = rt.alloc();
    let Some(t) = squares(alloc)? else {
        panic!(rt; "no squares");
    };
    let mut log = Vec::new(alloc);
    for _ in 0..4_000 {
        log.push(Change {
            at: 0,
            which: 5,
            insert: true,
        })?;
    }
    for left in (0..4_000).rev() {
        log.push(Change {
            at: left / 2 * 8,
            which: 5,
            insert: false,
        })?;
    }
    // It tells that there is a kind 0.
    let _kinds = t.kinds();
    let empty = read_walk(alloc, b"-")?;
    let got = verify(alloc, &t, t.start(0), &empty, &log, &empty);
    assert_eq!(rt; got, Ok(()));
    log.pop();
    let got = verify(alloc, &t, t.start(0), &empty, &log, &empty);
    assert_eq!(rt; got, Err(LogFault::End));
    Ok(())
}
