// Lines at random: words of the commands, numbers at their limits, any bytes. A second reading of
// the grammar says which of them are commands, and which replies may come to each.
use crate::call::{SESSION, code, files};
use std::alloc::{AllocError, Global};
use std::test::Fail;
use way_io::{MemSink, MemSource};

const BATCHES: u32 = 250;

const LINES: u32 = 4_000;

// A linear congruence (Knuth's MMIX), of which the upper half is drawn.
#[derive(Drop)]
struct Draws {
    state: u64,
}

impl Draws {
    // A number below n, 0 where n is 0.
    fn below(&mut self, n: usize) -> usize {
        self.state = self
            .state
            .wrapping_mul(6_364_136_223_846_793_005)
            .wrapping_add(1_442_695_040_888_963_407);
        let drawn = (self.state >> 33) as usize;
        if n == 0 { 0 } else { drawn % n }
    }

    // One of the texts, none where there are none.
    fn one_of<'a>(&mut self, texts: &[&'a str]) -> &'a str {
        let chosen = self.below(texts.len());
        texts.get(chosen).copied().unwrap_or("")
    }
}

const VERBS: [&str; 14] = [
    "new", "go", "at", "same", "level", "dist", "path", "put", "get", "ring", "count", "hop",
    "New", "",
];

const NUMBERS: [&str; 18] = [
    "0",
    "1",
    "2",
    "3",
    "00",
    "63",
    "64",
    "000000063",
    "0000000063",
    "4000",
    "4001",
    "999999999",
    "1000000000",
    "4294967296",
    "-1",
    "+1",
    "1x",
    "",
];

const WALKS: [&str; 12] = [
    "-", "X", "L", "R", "LX", "XRXRX", "LLX", "RXLX", "LXLXLXLX", "lx", "L X", "",
];

const GAPS: [&str; 20] = [
    " ", " ", " ", " ", " ", " ", " ", " ", " ", " ", " ", " ", " ", " ", " ", " ", " ", "  ", "",
    "\t",
];

// Adds so many bytes at random, none of which ends a line.
fn add_bytes(draws: &mut Draws, count: usize, line: &mut Vec<u8>) -> Result<(), AllocError> {
    for _ in 0..count {
        let byte = u8::try_from(draws.below(256)).unwrap_or(b' ');
        line.push(if byte == b'\n' { b' ' } else { byte })?;
    }
    Ok(())
}

// Adds what looks like a command.
fn add_command(draws: &mut Draws, line: &mut Vec<u8>) -> Result<(), AllocError> {
    let verb = draws.one_of(&VERBS);
    line.extend_from_slice(verb.as_bytes())?;
    let words = if verb == "same" || verb == "dist" || verb == "path" {
        2
    } else {
        1
    };
    for _ in 0..words {
        line.extend_from_slice(draws.one_of(&GAPS).as_bytes())?;
        // Mostly one of the few walkers, and of the numbers of rings those with few names.
        let known = if draws.below(5) > 0 { 4 } else { NUMBERS.len() };
        let number = draws.one_of(NUMBERS.get(..known).unwrap_or(&NUMBERS));
        line.extend_from_slice(number.as_bytes())?;
    }
    if verb == "go" {
        line.extend_from_slice(draws.one_of(&GAPS).as_bytes())?;
        line.extend_from_slice(draws.one_of(&WALKS).as_bytes())?;
    }
    if verb == "put" && draws.below(8) > 0 {
        line.push(b' ')?;
        let count = draws.below(68);
        add_bytes(draws, count, line)?;
    }
    Ok(())
}

// Adds a line, mostly with its end.
fn add_line(draws: &mut Draws, stream: &mut Vec<u8>) -> Result<(), AllocError> {
    match draws.below(400) {
        0..=359 => add_command(draws, stream)?,
        360..=379 => {
            let count = draws.below(40);
            add_bytes(draws, count, stream)?;
        }
        380 => {
            let count = draws.below(3).saturating_add(8_191);
            add_bytes(draws, count, stream)?;
        }
        _ => {}
    }
    if draws.below(10) == 0 {
        stream.push(b'\r')?;
    }
    stream.push(b'\n')?;
    Ok(())
}

// What stands before the first of a byte, and what behind it, where it is there.
fn cut(bytes: &[u8], at: u8) -> (&[u8], Option<&[u8]>) {
    match bytes.iter().position(|byte| *byte == at) {
        Some(place) => (
            bytes.get(..place).unwrap_or(bytes),
            bytes.get(place.saturating_add(1)..),
        ),
        None => (bytes, None),
    }
}

// A number of one to nine digits.
fn number(word: &[u8]) -> Option<u64> {
    if word.is_empty() || word.len() > 9 {
        return None;
    }
    let mut value: u64 = 0;
    for byte in word {
        let digit = byte.checked_sub(b'0')?;
        if digit > 9 {
            return None;
        }
        value = value.saturating_mul(10).saturating_add(u64::from(digit));
    }
    Some(value)
}

fn is_walker(word: &[u8]) -> bool {
    number(word).is_some_and(|value| value < 64)
}

// Whether a word is this text.
fn is(word: &[u8], text: &str) -> bool {
    word == text.as_bytes()
}

fn is_walk(word: &[u8]) -> bool {
    let letters = word
        .iter()
        .all(|byte| *byte == b'L' || *byte == b'R' || *byte == b'X');
    is(word, "-") || (letters && !word.is_empty())
}

// Whether the rest of a line suits its verb.
fn suits(verb: &[u8], rest: &[u8]) -> bool {
    let (first, second) = cut(rest, b' ');
    if is(verb, "new") || is(verb, "at") || is(verb, "level") || is(verb, "get") {
        return is_walker(rest);
    }
    if is(verb, "ring") || is(verb, "count") {
        return number(rest).is_some();
    }
    let Some(second) = second else {
        return false;
    };
    if is(verb, "same") || is(verb, "dist") || is(verb, "path") {
        return is_walker(first) && is_walker(second);
    }
    (is(verb, "go") && is_walker(first) && is_walk(second)) || (is(verb, "put") && is_walker(first))
}

// The verb of a line that is in a form, without the end of the line; `bad` of any other.
fn verb(line: &[u8]) -> &[u8] {
    let (verb, rest) = cut(line, b' ');
    match rest {
        Some(rest) if suits(verb, rest) => verb,
        _ => b"bad",
    }
}

// Which replies may come to which verb: whole, or as a beginning.
const REPLIES: [(&str, &str, bool); 32] = [
    ("bad", "bad", true),
    ("new", "ok", true),
    ("new", "taken", true),
    ("go", "ok", true),
    ("go", "no walker", true),
    ("go", "deep", true),
    ("at", "at ", false),
    ("at", "no walker", true),
    ("same", "yes", true),
    ("same", "no", true),
    ("same", "no walker", true),
    ("level", "level ", false),
    ("level", "no walker", true),
    ("dist", "dist ", false),
    ("dist", "no walker", true),
    ("dist", "deep", true),
    ("path", "path ", false),
    ("path", "no walker", true),
    ("path", "deep", true),
    ("put", "ok", true),
    ("put", "no walker", true),
    ("put", "long", true),
    ("get", "text ", false),
    ("get", "none", true),
    ("get", "no walker", true),
    ("ring", "tiles ", false),
    ("ring", "far", true),
    ("ring", "too many ", false),
    ("ring", "too big ", false),
    ("count", "count ", false),
    ("count", "far", true),
    ("count", "too big ", false),
];

fn may_reply(verb: &[u8], reply: &[u8]) -> bool {
    REPLIES.iter().any(|(word, text, whole)| {
        word.as_bytes() == verb
            && reply.starts_with(text.as_bytes())
            && (!*whole || reply.len() == text.len())
    })
}

// The output behind the names of a ring, if so many stand there.
fn behind_names(output: &[u8], count: u64) -> Option<&[u8]> {
    let mut left = output;
    for _ in 0..count {
        let (name, rest) = cut(left, b'\n');
        let sides = name
            .iter()
            .all(|byte| byte.is_ascii_digit() || *byte == b'.');
        if !is(name, "-") && (name.is_empty() || !sides) {
            return None;
        }
        left = rest?;
    }
    Some(left)
}

// What is left of an output behind the reply to a line, where that is one that may come.
fn behind_reply<'a>(line: &[u8], output: &'a [u8]) -> Option<&'a [u8]> {
    let text = line.strip_suffix(b"\r").unwrap_or(line);
    if line.len() <= 8_192 && text.is_empty() {
        return Some(output);
    }
    let (reply, rest) = cut(output, b'\n');
    let rest = rest?;
    if line.len() > 8_192 {
        return if is(reply, "too long") {
            Some(rest)
        } else {
            None
        };
    }
    if !may_reply(verb(text), reply) {
        return None;
    }
    match reply.strip_prefix(b"tiles ") {
        Some(count) if is(verb(text), "ring") => behind_names(rest, number(count)?),
        _ => Some(rest),
    }
}

// The line whose reply is the first that may not come, if there is one.
fn first_wrong<'a>(stream: &'a [u8], output: &[u8]) -> Option<&'a [u8]> {
    let (mut lines, mut replies) = (stream, output);
    for _ in 0..stream.len() {
        let (line, Some(rest)) = cut(lines, b'\n') else {
            break;
        };
        match behind_reply(line, replies) {
            Some(behind) => replies = behind,
            None => return Some(line),
        }
        lines = rest;
    }
    if replies.is_empty() {
        None
    } else {
        Some(lines)
    }
}

#[test]
fn lines_at_random_are_answered(rt: HostRuntime) -> Result<(), Fail> {
    let alloc = rt.alloc();
    let mut draws = Draws { state: 2_026 };
    let mut bytes: usize = 0;
    for batch in 0..BATCHES {
        let mut stream = Vec::new(alloc);
        for _ in 0..LINES {
            add_line(&mut draws, &mut stream)?;
        }
        let mut held = files(alloc, b"")?;
        let step = u32::try_from(draws.below(5_000)).unwrap_or(0);
        let mut input = MemSource::new(alloc, &stream, step.saturating_add(1), &[])?;
        let mut out = MemSink::new(alloc, 4_000_000, 9_973, &[])?;
        assert_eq!(rt;
            code(alloc, SESSION, &mut held, &mut input, &mut out)?,
            0,
            "{batch}"
        );
        assert!(rt; first_wrong(&stream, out.taken()).is_none(), "{batch}");
        bytes = bytes.saturating_add(out.taken().len());
    }
    assert!(rt; bytes > 0);
    Ok(())
}
