// Logs of walks that are known from outside, followed by a reader that knows the five loops and no
// rules.
use derivation_log::make_log;
use log_model::Change;
use sample_tilings::pentagons;
use std::alloc::Global;
use std::test::Fail;
use step_engine::StepFault;
use structure_check::Rules;
use walk_words::{Letter, Walk, print_walk, read_walk};

/// Pairs of walks that are related, as their texts.
static RELATED: [(&str, &str); 6] = [
    ("LXLX", "XRXR"),
    ("X", "X"),
    ("LXLXLXLX", "-"),
    ("-", "LXLXLXLX"),
    ("RXLLXRRRXLXLLLLXRX", "RXLLXRRRXLXRXRX"),
    ("LLLLLXXRL", "-"),
];

/// What is written from LXLX to XRXR: whether it is inserted, behind how many letters, and which
/// loop.
static LOG: [(bool, u64, u8); 11] = [
    (true, 3, 1),
    (true, 0, 1),
    (true, 1, 4),
    (true, 5, 1),
    (true, 6, 4),
    (false, 10, 5),
    (false, 10, 1),
    (true, 10, 2),
    (false, 6, 4),
    (true, 5, 2),
    (false, 1, 4),
];

/// A loop round a tile or a corner of pentagons, four round each corner, by its number.
fn loop_of(which: u8) -> Option<&'static [u8]> {
    match which {
        1 => Some(b"XX"),
        2 => Some(b"LR"),
        3 => Some(b"RL"),
        4 => Some(b"LLLLL"),
        5 => Some(b"LXLXLXLX"),
        _ => None,
    }
}

/// The walk behind a change, where it is allowed.
fn changed(alloc: Global, walk: &[u8], change: &Change) -> Option<Vec<u8>> {
    let at = usize::try_from(change.at).ok()?;
    let front = walk.get(..at)?;
    let behind = walk.get(at..)?;
    let round = loop_of(change.which)?;
    let mut next = Vec::from_slice(alloc, front).ok()?;
    if change.insert {
        next.extend_from_slice(round).ok()?;
        next.extend_from_slice(behind).ok()?;
    } else {
        next.extend_from_slice(behind.strip_prefix(round)?).ok()?;
    }
    Some(next)
}

/// Whether a log leads from a walk to another one.
fn leads(alloc: Global, log: &[Change], u: &[u8], w: &[u8]) -> Option<bool> {
    let mut walk = Vec::from_slice(alloc, u).ok()?;
    for change in log {
        walk = changed(alloc, &walk, change)?;
    }
    Some(walk.as_slice() == w)
}

/// The letters of a text, where one dash stands for none.
fn letters(text: &str) -> &[u8] {
    match text.as_bytes() {
        b"-" => &[],
        bytes => bytes,
    }
}

/// The log from a walk to another one, both given as texts.
fn log_between(alloc: Global, r: &Rules, u: &str, w: &str) -> Result<Option<Vec<Change>>, Fail> {
    if r.tessellation().kinds() == 0 {
        return Ok(None);
    }
    let from = read_walk(alloc, u.as_bytes())?;
    let to = read_walk(alloc, w.as_bytes())?;
    Ok(make_log(alloc, r, 0, &from, &to)?)
}

#[test]
fn logs_lead_without_rules(rt: HostRuntime) -> Result<(), Fail> {
    let alloc = rt.alloc();
    let Some(r) = pentagons(alloc) else {
        panic!(rt; "refused");
    };
    for (u, w) in &RELATED {
        let Some(log) = log_between(alloc, &r, u, w)? else {
            panic!(rt; "apart");
        };
        assert!(rt; leads(alloc, &log, letters(u), letters(w)) == Some(true));
    }
    Ok(())
}

#[test]
fn writes_what_the_contour_does(rt: HostRuntime) -> Result<(), Fail> {
    let alloc = rt.alloc();
    let Some(r) = pentagons(alloc) else {
        panic!(rt; "refused");
    };
    let Some(log) = log_between(alloc, &r, "LXLX", "XRXR")? else {
        panic!(rt; "apart");
    };
    assert!(rt; log.len() == LOG.len());
    for (change, row) in log.iter().zip(LOG.iter()) {
        assert!(rt; (change.insert, change.at, change.which) == *row);
    }
    Ok(())
}

#[test]
fn tells_apart_and_too_deep(rt: HostRuntime) -> Result<(), Fail> {
    let alloc = rt.alloc();
    let Some(r) = pentagons(alloc) else {
        panic!(rt; "refused");
    };
    assert!(rt; log_between(alloc, &r, "LX", "X")?.is_none());
    let mut far = Walk::new(alloc);
    for step in 0..4_000 {
        far.push(Letter::X)?;
        far.push(Letter::L)?;
        far.push(Letter::L)?;
    }
    assert!(rt; make_log(alloc, &r, 0, &far, &Walk::new(alloc))?.is_none());
    far.push(Letter::X)?;
    assert!(rt; make_log(alloc, &r, 0, &far, &Walk::new(alloc)).err() == Some(StepFault::Deep));
    Ok(())
}
