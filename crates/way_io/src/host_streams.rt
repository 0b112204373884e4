// Readers and writers of the standard library, as standard input and standard output.
ghost use Rattle.std.specs.Prelude.{◌≡◌, ◌≤◌, ◌<◌, [], false, length, take, is_err, if◌then◌else◌};
ghost use Rattle.std.specs.Prelude.{IfOk, IfSome};
ghost use Rattle.std.specs.Io.KnownBytes.{Appends, ReadConsumes};
ghost use Rattle.way_io.specs.Counts.{counted};
ghost use Rattle.way_io.specs.OfHost.{Counting};

use crate::sink::{Sink, WriteFault};
use crate::source::{ReadFault, Source};
use std::io::{Read, Write};
use std::marker::Model;

/// A reader of the standard library, such as standard input. What it has left is not told.
#[derive(Drop)]
pub struct StdSource<T: Read + Drop> {
    reader: T,
    faults: u64,
}

impl<T: Read + Drop> Model for StdSource<T> {
    ghost Value = { Counting T };

    ghost view = { λ s. record { stream = s.reader; faults = s.faults } };
}

impl<T: Read + Drop> StdSource<T> {
    /// A source over a reader, with no fault counted yet.
    pub fn new(reader: T) -> StdSource<T>
        ensures { result ≡ record { stream = reader; faults = 0 } }
    {
        StdSource { reader, faults: 0 }
    }
}

impl<T: Read + Drop> Source for StdSource<T> {
    ghost tells = { false };

    ghost left = { λ _. [] };

    ghost faults = { λ s. s.faults };

    // One read of the reader, whose bytes are given and no others.
    fn read(&mut self, buf: &mut [u8]) -> Result<usize, ReadFault>
        ensures within { IfOk result (λ n. n ≤ length buf.new) }
        ensures bytes { ReadConsumes
            (T.remaining self.old.stream) (T.remaining self.new.stream) result buf.new }
        ensures faults { self.new.faults ≡
            (if is_err result then counted self.old.faults else self.old.faults) }
        ensures later { self.old.faults ≤ self.new.faults }
    {
        match self.reader.read(buf) {
            Ok(count) => Ok(count),
            Err(_) => {
                self.faults = self.faults.saturating_add(1);
                Err(ReadFault)
            }
        }
    }
}

/// A writer of the standard library, such as standard output, flushed after each write. What it
/// took is not told.
#[derive(Drop)]
pub struct StdSink<W: Write + Drop> {
    writer: W,
    faults: u64,
}

impl<W: Write + Drop> Model for StdSink<W> {
    ghost Value = { Counting W };

    ghost view = { λ s. record { stream = s.writer; faults = s.faults } };
}

impl<W: Write + Drop> StdSink<W> {
    /// A sink over a writer, with no fault counted yet.
    pub fn new(writer: W) -> StdSink<W>
        ensures { result ≡ record { stream = writer; faults = 0 } }
    {
        StdSink { writer, faults: 0 }
    }
}

impl<W: Write + Drop> Sink for StdSink<W> {
    ghost tells = { false };

    ghost taken = { λ _. [] };

    ghost faults = { λ s. s.faults };

    // One write to the writer, which appends what is said to be taken and nothing else.
    fn write(&mut self, bytes: &[u8]) -> Result<usize, WriteFault>
        ensures within { IfOk result (λ n. n ≤ length bytes.now) }
        ensures some { 0 < length bytes.now → IfOk result (λ n. 0 < n) }
        ensures bytes { IfOk result (λ n. Appends
            (W.contents self.old.stream) (W.contents self.new.stream) (take n bytes.now)) }
        ensures faults { self.new.faults ≡
            (if is_err result then counted self.old.faults else self.old.faults) }
        ensures later { self.old.faults ≤ self.new.faults }
    {
        match write_out(&mut self.writer, bytes) {
            Some(count) => Ok(count),
            None => {
                self.faults = self.faults.saturating_add(1);
                Err(WriteFault)
            }
        }
    }
}

// Writes the first bytes of a piece, and flushes them.
fn write_out<W: Write>(out: &mut W, bytes: &[u8]) -> Option<usize>
    ensures within { IfSome result (λ n. n ≤ length bytes.now) }
    ensures some { 0 < length bytes.now → IfSome result (λ n. 0 < n) }
    ensures appended { IfSome result
        (λ n. Appends (W.contents out.old) (W.contents out.new) (take n bytes.now)) }
{
    let count = out.write(bytes).ok()?;
    if count == 0 && !bytes.is_empty() {
        return None;
    }
    out.flush().ok()?;
    Some(count)
}
