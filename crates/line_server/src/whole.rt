//! One line, answered whole: for who hands lines over one by one, without a stream.
ghost use Rattle.std.specs.Prelude.{◌≡◌, ◌+◌, ◌<◌, ◌≤◌, ◌++◌, List, ℕ, length, OnOk, OnErr};
ghost use Rattle.lazy_map.specs.Texts.{most_texts};
ghost use Rattle.line_server.specs.Answering.{name_lines};
ghost use Rattle.line_server.specs.Whole.{HasAnsweredWhole};

use crate::answer::{answer_line, is_too_long};
use crate::lines::text_of;
use cell_names::write_name;
use ring_listing::Ring;
use session_core::Session;
use std::alloc::{AllocError, Global};

/// Answers one line, which has no line feed, as the line of a stream that a line feed ends: a
/// carriage return at its end does not belong to its text. All that it is answered with is appended
/// to the bytes that wait, the names of a ring too. Fewer than 4,294,967,295 tiles have a text
/// before it.
///
/// # Errors
///
/// `AllocError` where there is no memory: the session and the bytes that wait are as they were.
pub fn answer_whole(
    alloc: Global,
    session: &mut Session<'_>,
    line: &[u8],
    waiting: &mut Vec<u8>,
) -> Result<(), AllocError>
    requires { length session.old.texts < most_texts }
    ensures answered { OnOk result (HasAnsweredWhole session.old line.now waiting.old.items
        session.new waiting.new.items) }
    ensures unchanged { OnErr result (session.new ≡ session.old) }
    ensures unsaid { OnErr result (waiting.new.items ≡ waiting.old.items) }
{
    let start = waiting.len();
    let answered = append_answer(alloc, session, line, waiting);
    if answered.is_err() {
        waiting.truncate(start);
    }
    answered
}

/// Appends what a line is answered with, or a beginning of it.
fn append_answer(
    alloc: Global,
    session: &mut Session<'_>,
    line: &[u8],
    waiting: &mut Vec<u8>,
) -> Result<(), AllocError>
    requires { length session.old.texts < most_texts }
    ensures answered { OnOk result (HasAnsweredWhole session.old line.now waiting.old.items
        session.new waiting.new.items) }
    ensures unchanged { OnErr result (session.new ≡ session.old) }
    ensures kept { (more : List ℕ) × (waiting.new.items ≡ waiting.old.items ++ more) }
{
    let is_long = is_too_long(false, line);
    match answer_line(alloc, session, is_long, text_of(line), waiting)? {
        Some(d) => append_names(&mut session.names_of_ring(d)?, waiting),
        None => Ok(()),
    }
}

/// Appends the names that a ring still gives, each as a line, or a beginning of them.
fn append_names(ring: &mut Ring<'_>, waiting: &mut Vec<u8>) -> Result<(), AllocError>
    ensures named { OnOk result
        (waiting.new.items ≡ waiting.old.items ++ name_lines ring.old.rest) }
    ensures kept { (more : List ℕ) × (waiting.new.items ≡ waiting.old.items ++ more) }
{
    while let Some(name) = ring.step() {
        write_name(waiting, name)?;
        waiting.extend_from_slice(b"\n")?;
    }
    Ok(())
}
