// Scripts: what the words of their lines mean. A line sets something for the next call, or is one.
use crate::changes::tell_changes;
use crate::meetings::tell_meetings;
use crate::slow::tell_slow_walks;
use crate::stage::{Held, Next, Stage};
use crate::told::{add_text, halves, number, numbers, tell};
use crate::unread::tell_unread_words;
use std::alloc::{AllocError, Global};
use way_io::Files;

/// Scripts and files are not longer.
const LONGEST: u32 = 1_000_000;

/// Plays a script, and adds what came.
pub(crate) fn play<F: Files>(
    alloc: Global,
    disk: &mut F,
    name: &str,
    stage: &mut Stage,
    said: &mut Vec<u8>,
) -> Result<(), AllocError> {
    let Ok(bytes) = disk.fetch(alloc, name, LONGEST) else {
        return tell(said, "no such script\n");
    };
    let Ok(text) = std::str::from_utf8(&bytes) else {
        return tell(said, "no text\n");
    };
    for line in text.split('\n') {
        play_line(alloc, disk, line, stage, said)?;
    }
    Ok(())
}

// Whether a line with this word is a call.
fn is_call(word: &str) -> bool {
    matches!(
        word,
        "call"
            | "sweep_reads"
            | "sweep_writes"
            | "beginnings"
            | "meetings"
            | "changes"
            | "slow_walks"
            | "unread_words"
    )
}

fn play_line<F: Files>(
    alloc: Global,
    disk: &mut F,
    line: &str,
    stage: &mut Stage,
    said: &mut Vec<u8>,
) -> Result<(), AllocError> {
    let (word, rest) = halves(line, " ");
    if word.is_empty() {
        return Ok(());
    }
    if word == "#" {
        return tell_line(said, line);
    }
    if word == "have" {
        return have(alloc, disk, rest, stage);
    }
    if is_call(word) {
        tell_line(said, line)?;
        act(stage, word, rest, said)?;
        stage.next = Next::new(alloc);
        return Ok(());
    }
    if !set(alloc, stage, word, rest)? {
        tell(said, "no such word\n")?;
        tell_line(said, line)?;
    }
    Ok(())
}

fn tell_line(said: &mut Vec<u8>, line: &str) -> Result<(), AllocError> {
    tell(said, line)?;
    tell(said, "\n")
}

// A file of `data/` that all further calls find.
fn have<F: Files>(
    alloc: Global,
    disk: &mut F,
    name: &str,
    stage: &mut Stage,
) -> Result<(), AllocError> {
    if let Ok(bytes) = disk.fetch(alloc, name, LONGEST) {
        let name = String::from_str(alloc, name)?;
        stage.kept.push(Held { name, bytes })?;
    }
    Ok(())
}

fn act(stage: &mut Stage, word: &str, rest: &str, said: &mut Vec<u8>) -> Result<(), AllocError> {
    match word {
        "call" => stage.play(rest, said),
        "sweep_reads" => stage.sweep(true, rest, said),
        "sweep_writes" => stage.sweep(false, rest, said),
        "beginnings" => stage.beginnings(rest, said),
        "meetings" => tell_meetings(stage, rest, said),
        "slow_walks" => tell_slow_walks(stage, rest, said),
        "changes" => tell_changes(stage, rest, said),
        _ => tell_unread_words(stage.alloc, said),
    }
}

// Sets something for the next call, and answers whether the word says what.
fn set(alloc: Global, stage: &mut Stage, word: &str, rest: &str) -> Result<bool, AllocError> {
    if set_number(&mut stage.next, word, number(rest)) {
        return Ok(true);
    }
    if set_numbers(alloc, &mut stage.next, word, rest)? {
        return Ok(true);
    }
    if set_text(&mut stage.next, word, rest)? {
        return Ok(true);
    }
    if set_name(alloc, &mut stage.next, word, rest)? {
        return Ok(true);
    }
    set_file(alloc, stage, word, rest)
}

fn set_number(next: &mut Next, word: &str, count: u32) -> bool {
    match word {
        "flood" => next.flood = count,
        "room" => next.room = count,
        "piece" => next.piece = count,
        _ => return false,
    }
    true
}

fn set_numbers(alloc: Global, next: &mut Next, word: &str, rest: &str) -> Result<bool, AllocError> {
    let counts = numbers(alloc, rest)?;
    match word {
        "steps" => next.steps = counts,
        "failing_files" => next.failing_files = counts,
        "failing_reads" => next.failing_reads = counts,
        "failing_writes" => next.failing_writes = counts,
        _ => return Ok(false),
    }
    Ok(true)
}

// Adds to what the next call reads, or to the letters of its words.
fn set_text(next: &mut Next, word: &str, rest: &str) -> Result<bool, AllocError> {
    match word {
        "<" => {
            add_text(&mut next.input, rest)?;
            next.input.push(b'\n')?;
        }
        "input" => add_text(&mut next.input, rest)?,
        "times" => add_times(&mut next.input, rest)?,
        "letters" => add_letters(&mut next.letters, rest)?,
        _ => return Ok(false),
    }
    Ok(true)
}

// A text, as often as the number in front of it says.
fn add_times(input: &mut Vec<u8>, rest: &str) -> Result<(), AllocError> {
    let (count, text) = halves(rest, " ");
    for _ in 0..number(count) {
        add_text(input, text)?;
    }
    Ok(())
}

fn add_letters(letters: &mut String, rest: &str) -> Result<(), AllocError> {
    let (count, text) = halves(rest, " ");
    for _ in 0..number(count) {
        letters.push_str(text)?;
    }
    Ok(())
}

fn set_name(alloc: Global, next: &mut Next, word: &str, rest: &str) -> Result<bool, AllocError> {
    let name = String::from_str(alloc, rest)?;
    match word {
        "show" => next.shown.push(name)?,
        "find" => next.found.push(name)?,
        "keep" => next.stored.push(name)?,
        "writes" => next.written.push(name)?,
        _ => return Ok(false),
    }
    Ok(true)
}

// Sets what the file x of the next call holds.
fn set_file(alloc: Global, stage: &mut Stage, word: &str, rest: &str) -> Result<bool, AllocError> {
    let bytes = match word {
        "x" => {
            let mut bytes = stage.content("x")?;
            add_text(&mut bytes, rest)?;
            bytes.push(b'\n')?;
            bytes
        }
        "x_is" => stage.content(rest)?,
        "x_spaces" => { vec![in alloc; b' '; number(rest) as usize]? }
        "x_begins" => {
            let whole = stage.content("x")?;
            let count = number(rest) as usize;
            whole.get(..count).unwrap_or(&whole).to_vec(alloc)?
        }
        "x_changes" => {
            let (old, new) = halves(rest, "=>");
            let whole = stage.content("x")?;
            changed(alloc, &whole, old, new)?
        }
        _ => return Ok(false),
    };
    stage.next.files = Vec::new(alloc);
    let name = String::from_str(alloc, "x")?;
    stage.next.files.push(Held { name, bytes })?;
    Ok(true)
}

// A text in whose first place with the old text the new one stands; nothing where there is none.
fn changed(alloc: Global, whole: &[u8], old: &str, new: &str) -> Result<Vec<u8>, AllocError> {
    let mut from = Vec::new(alloc);
    add_text(&mut from, old)?;
    let mut out = Vec::new(alloc);
    for at in 0..whole.len() {
        let rest = whole.get(at..).unwrap_or(whole);
        if let Some(behind) = rest.strip_prefix(from.as_slice()) {
            out.extend_from_slice(whole.get(..at).unwrap_or(whole))?;
            add_text(&mut out, new)?;
            out.extend_from_slice(behind)?;
            break;
        }
    }
    Ok(out)
}
