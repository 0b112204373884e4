//! `Reader`: the piece of the stream that is at hand, and what it keeps of a line that has not
//! ended.
ghost use Rattle.std.specs.Prelude.{◌≡◌, ◌≤◌, ◌<◌, ◌+◌, ◌++◌, [], ℕ, List, length, take, drop, IfOk, OnOk, OnErr, IsErrOf, IsTrue};
ghost use Rattle.way_io.specs.Counts.{Rose};
ghost use Rattle.lazy_map.specs.Texts.{most_texts};
ghost use Rattle.line_server.specs.Lines.{LacksFeed};
ghost use Rattle.line_server.specs.Readers.{IsReader, Keeps, AreDropped, HasComeTo, HasRead, HasStopped, HasEnded, HasFailed, HasReplied, IsTextBehind, behind, buffer_size};

use crate::answer::{answer_line, is_too_long};
use crate::lines::{next_line, text_of};
use crate::writing::{Stop, pass_names, write_all, write_if_full};
use command_text::LONGEST_LINE;
use session_core::Session;
use std::alloc::{AllocError, Global};
use way_io::{ReadFault, Sink, Source};

/// How many bytes are kept of the stream at a time.
const BUFFER_SIZE: usize = 65_536;

/// A buffer whose first bytes belong to a line that has not ended. Of a line that is too long none
/// are kept: it is lost.
#[derive(Drop)]
pub(crate) struct Reader {
    pub(crate) buffer: Vec<u8>,
    pub(crate) kept: usize,
    pub(crate) lost: bool,
}

impl Reader {
    /// A reader that has read nothing.
    pub(crate) fn new(alloc: Global) -> Result<Reader, AllocError>
        ensures shape { IfOk result IsReader }
        ensures nothing { IfOk result (λ r. Keeps r []) }
        ensures empty { IfOk result (λ r. r.kept ≡ 0) }
    {
        Ok(Reader {
            buffer: vec![in alloc; 0; BUFFER_SIZE]?,
            kept: 0,
            lost: false,
        })
    }

    /// Reads more bytes of the stream behind those that are kept, and says how many.
    pub(crate) fn read<I: Source>(&mut self, input: &mut I) -> Result<usize, ReadFault>
        requires { IsReader self.old }
        ensures shape { IsReader self.new }
        ensures kept { self.new.kept ≡ self.old.kept }
        ensures keeps { (line : List ℕ) → Keeps self.old line → Keeps self.new line }
        ensures within { IfOk result (λ n. self.new.kept + n ≤ buffer_size) }
        ensures next { IsTrue I.tells → IfOk result (λ n. I.left input.old
            ≡ take n (drop self.new.kept self.new.buffer.items) ++ I.left input.new) }
        ensures end { IsTrue I.tells → IfOk result (λ n. n ≡ 0 → I.left input.old ≡ []) }
        ensures unread { IsTrue I.tells → OnErr result (I.left input.new ≡ I.left input.old) }
        ensures later { I.faults input.old ≤ I.faults input.new }
        ensures cause { OnErr result (Rose (I.faults input.old) (I.faults input.new)) }
    {
        input.read(&mut self.buffer[self.kept..])
    }

    /// Answers the lines that end among the bytes kept and the `fresh` ones behind them, and keeps
    /// what stands behind. Nothing waits before, and nothing afterwards.
    pub(crate) fn answer<O: Sink>(
        &mut self,
        alloc: Global,
        session: &mut Session<'_>,
        fresh: usize,
        waiting: &mut Vec<u8>,
        out: &mut O,
    ) -> Result<(), Stop>
        requires shape { IsReader self.old }
        requires within { self.old.kept + fresh ≤ buffer_size }
        requires room { length session.old.texts + (self.old.kept + fresh) < most_texts }
        requires written { waiting.old.items ≡ [] }
        ensures few { OnOk result (length session.new.texts + self.new.kept
            ≤ length session.old.texts + (self.old.kept + fresh)) }
        ensures shape { OnOk result (IsReader self.new) }
        ensures written { OnOk result (waiting.new.items ≡ []) }
        ensures answered { (line : List ℕ) → Keeps self.old line
            → OnOk result (HasRead O.tells session.old
            (line ++ take fresh (drop self.old.kept self.old.buffer.items))
            (O.taken out.old) session.new self.new (O.taken out.new)) }
        ensures stopped { (line : List ℕ) → Keeps self.old line
            → OnErr result (HasStopped O.tells session.old
            (line ++ take fresh (drop self.old.kept self.old.buffer.items))
            (O.taken out.old) (O.taken out.new)) }
        ensures later { O.faults out.old ≤ O.faults out.new }
        ensures cause { IsErrOf result Stop.Write → Rose (O.faults out.old) (O.faults out.new) }
    {
        let end = self.kept + fresh;
        let (rest, lost) = answer_lines(
            alloc,
            session,
            &self.buffer[..end],
            self.lost,
            waiting,
            out,
        )?;
        self.keep(end, rest, lost);
        Ok(())
    }

    /// Keeps the last `rest` bytes of the first `end` ones, which belong to a line that has not
    /// ended. If it has lost its beginning or is too long, none of it is kept.
    fn keep(&mut self, end: usize, rest: usize, lost: bool)
        requires shape { IsReader self.old }
        requires within { rest ≤ end }
        requires size { end ≤ buffer_size }
        ensures few { self.new.kept ≤ rest }
        ensures shape { IsReader self.new }
        ensures keeps { (dropped : List ℕ) → AreDropped lost dropped
            → LacksFeed (dropped ++ behind rest (take end self.old.buffer.items))
            → Keeps self.new (dropped ++ behind rest (take end self.old.buffer.items)) }
    {
        if lost || rest > LONGEST_LINE {
            self.lost = true;
            self.kept = 0;
            return;
        }
        self.buffer.copy_within(end - rest..end, 0);
        self.kept = rest;
        self.lost = false;
    }

    /// Answers what stands behind the last line feed, where anything does. Nothing waits before.
    pub(crate) fn finish<O: Sink>(
        &self,
        alloc: Global,
        session: &mut Session<'_>,
        waiting: &mut Vec<u8>,
        out: &mut O,
    ) -> Result<(), Stop>
        requires shape { IsReader self.now }
        requires room { length session.old.texts + self.now.kept < most_texts }
        requires written { waiting.old.items ≡ [] }
        ensures ended { (line : List ℕ) → Keeps self.now line
            → OnOk result (HasEnded O.tells session.old line (O.taken out.old)
            session.new (O.taken out.new)) }
        ensures failed { (line : List ℕ) → Keeps self.now line
            → OnErr result (HasFailed O.tells session.old line line
            (O.taken out.old) [] (O.taken out.new)) }
        ensures later { O.faults out.old ≤ O.faults out.new }
        ensures cause { IsErrOf result Stop.Write → Rose (O.faults out.old) (O.faults out.new) }
    {
        let line = &self.buffer[..self.kept];
        answer_one(alloc, session, line, line, self.lost, waiting, out)?;
        write_all(waiting, out)?;
        Ok(())
    }
}

/// Answers the lines that end among the bytes, and writes the answers. The first line may have lost
/// its beginning: then it is too long. It tells how many bytes stand behind the last line feed, and
/// whether these belong to a line that has lost its beginning.
fn answer_lines<O: Sink>(
    alloc: Global,
    session: &mut Session<'_>,
    bytes: &[u8],
    lost: bool,
    waiting: &mut Vec<u8>,
    out: &mut O,
) -> Result<(usize, bool), Stop>
    requires room { length session.old.texts + length bytes.now < most_texts }
    requires written { waiting.old.items ≡ [] }
    ensures few { IfOk result (λ end.
        length session.new.texts + end.0 ≤ length session.old.texts + length bytes.now) }
    ensures behind { IfOk result (λ end. end.0 ≤ length bytes.now) }
    ensures written { OnOk result (waiting.new.items ≡ []) }
    ensures answered { (dropped : List ℕ) → AreDropped lost dropped
        → IfOk result (λ end. HasComeTo O.tells session.old dropped bytes.now
        (O.taken out.old) session.new end.0 end.1 (O.taken out.new)) }
    ensures stopped { (dropped : List ℕ) → AreDropped lost dropped
        → OnErr result (HasStopped O.tells session.old (dropped ++ bytes.now)
        (O.taken out.old) (O.taken out.new)) }
    ensures later { O.faults out.old ≤ O.faults out.new }
    ensures cause { IsErrOf result Stop.Write → Rose (O.faults out.old) (O.faults out.new) }
{
    let mut lost = lost;
    let mut rest = bytes;
    while let Some((line, behind)) = next_line(rest) {
        answer_one(alloc, session, line, text_of(line), lost, waiting, out)?;
        lost = false;
        rest = behind;
    }
    write_all(waiting, out)?;
    Ok((rest.len(), lost))
}

/// Answers a line by its end and its text, and passes the answer on. The line is too long if its
/// beginning was dropped.
fn answer_one<O: Sink>(
    alloc: Global,
    session: &mut Session<'_>,
    line: &[u8],
    text: &[u8],
    lost: bool,
    waiting: &mut Vec<u8>,
    out: &mut O,
) -> Result<(), Stop>
    requires within { length text.now ≤ length line.now }
    requires room { length session.old.texts < most_texts }
    ensures few { length session.new.texts ≤ length session.old.texts + length line.now }
    ensures replied { (dropped whole : List ℕ) → AreDropped lost dropped
        → IsTextBehind lost text.now whole
        → OnOk result (HasReplied O.tells session.old (dropped ++ line.now) whole
        (O.taken out.old) waiting.old.items session.new (O.taken out.new) waiting.new.items) }
    ensures failed { (dropped whole : List ℕ) → AreDropped lost dropped
        → IsTextBehind lost text.now whole
        → OnErr result (HasFailed O.tells session.old (dropped ++ line.now) whole
        (O.taken out.old) waiting.old.items (O.taken out.new)) }
    ensures later { O.faults out.old ≤ O.faults out.new }
    ensures cause { IsErrOf result Stop.Write → Rose (O.faults out.old) (O.faults out.new) }
{
    let is_long = is_too_long(lost, line);
    match answer_line(alloc, session, is_long, text, waiting)? {
        Some(d) => pass_names(&mut session.names_of_ring(d)?, waiting, out),
        None => Ok(write_if_full(waiting, out)?),
    }
}
