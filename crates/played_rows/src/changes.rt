// Rules with one number changed: what the checker says of them, and what a second reading of the
// conditions does.
use crate::call::{call, sink, source};
use crate::stage::Stage;
use crate::told::{halves, tell};
use crate::twelve::first_broken;
use rules_file::read_rules;
use std::alloc::{AllocError, Global};
use tess_text::read_tess;
use tile_kinds::Tessellation;

// What `check` writes for a tessellation file and these bytes.
fn checked(stage: &Stage, tess: &str, rules: &[u8]) -> Result<Vec<u8>, AllocError> {
    let alloc = stage.alloc;
    let mut files = stage.files()?;
    files.add("x", rules)?;
    let mut input = source(alloc, b"", 10, &[])?;
    let mut out = sink(alloc, 100, 100, &[])?;
    let words = format!(in alloc; "check {tess} x")?;
    call(alloc, &words, &mut files, &mut input, &mut out)?;
    out.taken().to_vec(alloc)
}

// A text with one place changed, from `at` on for so many bytes.
fn changed(
    alloc: Global,
    text: &[u8],
    at: usize,
    count: usize,
    new: &str,
) -> Result<Vec<u8>, AllocError> {
    let mut out = Vec::new(alloc);
    out.extend_from_slice(text.get(..at).unwrap_or(text))?;
    out.extend_from_slice(new.as_bytes())?;
    out.extend_from_slice(text.get(at.saturating_add(count)..).unwrap_or(b""))?;
    Ok(out)
}

fn is_of_number(byte: u8) -> bool {
    byte == b'-' || byte.is_ascii_digit()
}

// How many bytes the number has that begins at a place; none where none begins there.
fn number_at(text: &[u8], at: usize) -> usize {
    if at > 0 && text.get(at - 1).is_some_and(|byte| is_of_number(*byte)) {
        return 0;
    }
    let rest = text.get(at..).unwrap_or(b"");
    rest.iter().take_while(|byte| is_of_number(**byte)).count()
}

// What the second reading of the twelve conditions says of a rules file, as `check` would write it.
fn said_of(alloc: Global, tess: &Tessellation, rules: &[u8]) -> Result<Vec<u8>, AllocError> {
    if rules.len() > 100_000 {
        return Ok(Vec::new(alloc));
    }
    let Ok(automaton) = read_rules(alloc, rules) else {
        return b"rules shape".to_vec(alloc);
    };
    let line = match first_broken(tess.all_kinds(), &automaton) {
        None => format!(in alloc;
            "accepted {} {}\n",
            automaton.states.len(),
            automaton.corners.len()
        )?,
        Some((condition, first, second)) => {
            format!(in alloc; "broken {condition} {first} {second}\n")?
        }
    };
    line.as_bytes().to_vec(alloc)
}

// The tessellation of a file.
fn tessellation(alloc: Global, bytes: &[u8]) -> Option<Tessellation> {
    if bytes.len() > 100_000 {
        return None;
    }
    read_tess(alloc, bytes).ok()
}

// How many changes were tried, accepted, and named otherwise than by the second reading.
#[derive(Clone, Copy, Default)]
struct Counts {
    tried: u32,
    accepted: u32,
    otherwise: u32,
}

/// Each number of a rules file raised and lowered by one: how many changes there are, how many of
/// them the checker accepts, and for how many it names another place than the second reading.
pub(crate) fn tell_changes(
    stage: &mut Stage,
    rest: &str,
    said: &mut Vec<u8>,
) -> Result<(), AllocError> {
    let alloc = stage.alloc;
    let (name, rules) = halves(rest, " ");
    let bytes = stage.content(rules)?;
    let Some(tess) = tessellation(alloc, &stage.content(name)?) else {
        return tell(said, "no tessellation\n");
    };
    let mut counts = Counts {
        tried: 0,
        accepted: 0,
        otherwise: 0,
    };
    for at in 0..bytes.len() {
        let digits = number_at(&bytes, at);
        let Some(value) = value_of(bytes.get(at..at.saturating_add(digits))) else {
            continue;
        };
        for other in [value.saturating_sub(1), value.saturating_add(1)] {
            let new = format!(in alloc; "{other}")?;
            let rules = changed(alloc, &bytes, at, digits, &new)?;
            let came = checked(stage, name, &rules)?;
            let due = said_of(alloc, &tess, &rules)?;
            counts.tried = counts.tried.saturating_add(1);
            if came.starts_with(b"accepted") {
                counts.accepted = counts.accepted.saturating_add(1);
            }
            if !came.starts_with(due.as_slice()) {
                counts.otherwise = counts.otherwise.saturating_add(1);
            }
        }
    }
    let Counts {
        tried,
        accepted,
        otherwise,
    } = counts;
    let line = format!(in alloc;
        "{tried} tried, {accepted} accepted, {otherwise} named otherwise\n"
    )?;
    tell(said, line.as_str())
}

// The number that bytes spell.
fn value_of(bytes: Option<&[u8]>) -> Option<i64> {
    std::str::from_utf8(bytes?).ok()?.parse::<i64>().ok()
}
