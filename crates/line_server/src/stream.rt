//! The stream from its source to its sink.
ghost use Rattle.std.specs.Prelude.{◌≡◌, ◌≤◌, ◌<◌, ◌+◌, [], ℕ, List, length, IsTrue};
ghost use Rattle.way_io.specs.Counts.{Rose};
ghost use Rattle.lazy_map.specs.Texts.{most_texts};
ghost use Rattle.session_core.specs.Sessions.{StandsForWalks};
ghost use Rattle.line_server.specs.Lines.{most_of_stream};
ghost use Rattle.reply_model.specs.Histories.{History};
ghost use Rattle.line_server.specs.Sessions.{Continues, answering_of};
ghost use Rattle.line_server.specs.Serving.{EndsAs, ending_of};
ghost use Rattle.line_server.specs.Endings.{IsServed, IsCutOff, IsOverrun, IsBegun, GivesInOrder, TakesMore};

use crate::reader::Reader;
use crate::writing::Stop;
use session_core::Session;
use std::alloc::Global;
use way_io::{Sink, Source};

/// The most bytes that a stream may have.
const LONGEST_STREAM: usize = 268_435_456;

/// How the work on a stream ended.
#[derive(Clone, Copy, Debug, PartialEq, Eq)]
pub enum Ending {
    /// The stream was read to its end, and all its lines are answered.
    Done,
    /// A read failed.
    ReadFault,
    /// The stream has over 268,435,456 bytes.
    InputTooLong,
    /// A write failed.
    WriteFault,
    /// There was no memory.
    Memory,
}

/// Answers the lines of a stream, from its source to its sink, until the stream ends or something
/// fails. The answers to all lines that have ended are written before more is read, so that whoever
/// waits for an answer at the other end gets it; this last is tested, and no clause says it.
///
/// A line ends at a line feed, and a carriage return in front of it belongs to the line's end. What
/// stands behind the last line feed is a line too. A line of no bytes has no answer, one of over
/// 8,192 bytes is answered `too long`, and one in no form `bad`. Before the stream at least 268,435,456
/// texts fewer are on tiles than the 4,294,967,295 that there can be.
pub fn serve<I: Source, O: Sink>(
    alloc: Global,
    session: &mut Session<'_>,
    input: &mut I,
    out: &mut O,
) -> Ending
    requires { length session.old.texts + most_of_stream < most_texts }

    // What stands at each ending, after each history for which the session stood.
    // The session stands then for a longer one.
    ensures done { IsTrue I.tells → IsTrue O.tells → result ≡ Ending.Done
        → Continues session.old session.new (λ before after. IsServed (answering_of session.old)
        before (I.left input.old) (I.left input.new)
        (O.taken out.old) (O.taken out.new) after) }
    ensures read_fault { IsTrue I.tells → IsTrue O.tells → result ≡ Ending.ReadFault
        → Continues session.old session.new (λ before after. IsCutOff (answering_of session.old)
        before (I.left input.old) (I.left input.new)
        (O.taken out.old) (O.taken out.new) after) }
    ensures input_too_long { IsTrue I.tells → IsTrue O.tells → result ≡ Ending.InputTooLong
        → Continues session.old session.new (λ before after. IsOverrun (answering_of session.old)
        before (I.left input.old) (O.taken out.old) (O.taken out.new) after) }
    ensures begun { IsTrue I.tells → IsTrue O.tells
        → (before : History) → StandsForWalks session.old before
        → IsBegun (answering_of session.old)
        before (I.left input.old) (O.taken out.old) (O.taken out.new) }

    // Why it ended so.
    // Of a read or a write that failed the count of faults tells, which never falls.
    ensures ended { IsTrue I.tells → result ≡ Ending.Done
        → (I.left input.new ≡ []) × (length (I.left input.old) ≤ most_of_stream) }
    ensures overrun { IsTrue I.tells → result ≡ Ending.InputTooLong
        → most_of_stream < length (I.left input.old) }
    ensures read_cause { result ≡ Ending.ReadFault
        → Rose (I.faults input.old) (I.faults input.new) }
    ensures write_cause { result ≡ Ending.WriteFault → Rose (O.faults out.old) (O.faults out.new) }
    ensures reads_later { I.faults input.old ≤ I.faults input.new }
    ensures writes_later { O.faults out.old ≤ O.faults out.new }

    // No byte is lost or doubled, and what was written stays.
    ensures in_order { IsTrue I.tells → GivesInOrder (I.left input.old) (I.left input.new) }
    ensures kept { IsTrue O.tells → TakesMore (O.taken out.old) (O.taken out.new) }
{
    serve_lines(alloc, session, input, out)
}

/// Answers the lines of a stream, and tells in one clause how that ended.
fn serve_lines<I: Source, O: Sink>(
    alloc: Global,
    session: &mut Session<'_>,
    input: &mut I,
    out: &mut O,
) -> Ending
    requires { length session.old.texts + most_of_stream < most_texts }
    ensures ends { EndsAs I.tells O.tells
        session.old (I.left input.old) (O.taken out.old)
        session.new (I.left input.new) (O.taken out.new) result }
    ensures read_cause { result ≡ Ending.ReadFault
        → Rose (I.faults input.old) (I.faults input.new) }
    ensures write_cause { result ≡ Ending.WriteFault → Rose (O.faults out.old) (O.faults out.new) }
    ensures reads_later { I.faults input.old ≤ I.faults input.new }
    ensures writes_later { O.faults out.old ≤ O.faults out.new }
{
    let Ok(mut reader) = Reader::new(alloc) else {
        return Ending::Memory;
    };
    let mut waiting = Vec::new(alloc);
    let mut total = 0;
    loop {
        let Ok(count) = reader.read(input) else {
            return Ending::ReadFault;
        };
        if count == 0 {
            if let Err(stop) = reader.finish(alloc, session, &mut waiting, out) {
                return ending_of(stop);
            }
            return Ending::Done;
        }
        let fresh = count.min(LONGEST_STREAM - total);
        if let Err(stop) = reader.answer(alloc, session, fresh, &mut waiting, out) {
            return ending_of(stop);
        }
        if fresh < count {
            return Ending::InputTooLong;
        }
        total += fresh;
    }
}

/// The ending that a stop leads to.
fn ending_of(stop: Stop) -> Ending
    ensures { result ≡ ending_of stop }
{
    match stop {
        Stop::Write => Ending::WriteFault,
        Stop::Memory => Ending::Memory,
    }
}
