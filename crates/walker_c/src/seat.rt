//! `Seat`: a session that owns its rules, and the answers that wait to be taken.
ghost use Rattle.std.specs.Prelude.{◌≡◌, ◌≤◌, ◌<◌, ◌++◌, ◌↔◌, ℕ, List, length, IfOk, OnOk, OnErr, IsErrOf};
ghost use Rattle.std.specs.Prelude.{IfErr, IfSome, IfNone, drop};
ghost use Rattle.lazy_map.specs.Texts.{most_texts};
ghost use Rattle.structure_check.specs.Rules.{TreeRules};
ghost use Rattle.session_core.specs.Sessions.{IsSession, session_over};
ghost use Rattle.line_server.specs.Lines.{LacksFeed};
ghost use Rattle.line_server.specs.Whole.{HasAnsweredWhole};
ghost use Rattle.walker_c.specs.Seats.{HasTold, HasGiven, IsLine, IsNew};

use command_text::cut_at;
use line_server::answer_whole;
use session_core::{Resting, Session};
use std::alloc::{AllocError, Global};
use std::marker::Model;
use structure_check::Rules;

/// The most texts before a line is answered.
const MOST_TEXTS: u32 = 4_294_967_294;

/// Why a line is not answered.
#[derive(Clone, Copy, Debug, PartialEq, Eq)]
pub(crate) enum TellFault {
    /// A line feed stands in it, and not at its end.
    Feeds,
    /// There is no memory, or as many tiles have a text as there can be.
    Memory,
}

/// A session that owns its rules, and the answers that wait to be taken. Between two calls the session
/// rests.
#[derive(Drop)]
pub struct Seat {
    alloc: Global,
    rules: Rules,
    resting: Option<Resting>,
    /// Answers, of which the first bytes were given already.
    bytes: Vec<u8>,
    given: usize,
}

impl Model for Seat {
    ghost use Rattle.std.specs.Prelude.{length};
    ghost use Rattle.walker_c.specs.Seats.{SeatState, seat_of, IsSeat};

    ghost Value = { SeatState };

    ghost view = { λ s. seat_of s.rules s.resting s.bytes.items s.given };

    ghost invariant = { λ s. IsSeat s.rules s.resting s.bytes.items s.given };
}

impl Seat {
    /// A new session over rules, in the tree of a kind, which is one of the tessellation.
    pub(crate) fn new(alloc: Global, rules: Rules, kind: u8) -> Result<Box<Seat>, AllocError>
        requires { kind < length rules.kinds }
        ensures { IfOk result (λ seat. IsNew rules.kinds rules.automaton kind seat.value) }
    {
        let session = Session::new(alloc, &rules, kind)?;
        let resting = session.rest();
        match Box::new(
            alloc,
            Seat {
                alloc,
                rules,
                resting: Some(resting),
                bytes: Vec::new(alloc),
                given: 0,
            },
        ) {
            Ok(seat) => Ok(seat),
            Err(_) => Err(AllocError),
        }
    }

    /// Answers a line, which may end in a line feed. The answer waits behind what waits.
    ///
    /// # Errors
    ///
    /// `Feeds` where a line feed stands in the line and not at its end; `Memory` where there is none
    /// for the answer or for what the session keeps, and where 4,294,967,295 tiles have a text. The
    /// session and what waits are as they were.
    pub(crate) fn tell(&mut self, line: &[u8]) -> Result<(), TellFault>
        ensures told { OnOk result (HasTold self.old line.now self.new) }
        ensures unchanged { OnErr result (self.new ≡ self.old) }
        ensures feeds { IsErrOf result TellFault.Feeds
            → (bare : List ℕ) → IsLine line.now bare → LacksFeed bare → ⊥ }
    {
        let Some(line) = whole_line(line) else {
            return Err(TellFault::Feeds);
        };
        drop_given(&mut self.bytes, &mut self.given);
        let Some(resting) = self.resting.take() else {
            return Err(TellFault::Memory);
        };
        let (resting, answered) = answer(self.alloc, &self.rules, resting, line, &mut self.bytes);
        self.resting = Some(resting);
        answered
    }

    /// Puts the first of what waits into `room`, as much as fits: it waits no longer. Tells how many
    /// bytes waited.
    pub(crate) fn give(&mut self, room: &mut [u8]) -> usize
        ensures { HasGiven self.old room.old room.new self.new result }
    {
        let waits = self.bytes.len() - self.given;
        let count = waits.min(room.len());
        room[..count].copy_from_slice(&self.bytes[self.given..self.given + count]);
        self.given += count;
        waits
    }
}

/// A line without the line feed at its end, where it has one and no other.
fn whole_line(line: &[u8]) -> Option<&[u8]>
    ensures some { IfSome result (λ bare. IsLine line.now bare.now × LacksFeed bare.now) }
    ensures none { IfNone result ((bare : List ℕ) → IsLine line.now bare → LacksFeed bare → ⊥) }
{
    match cut_at(line, b'\n') {
        None => Some(line),
        Some((bare, rest)) if rest.is_empty() => Some(bare),
        Some(_) => None,
    }
}

/// Lets go of the bytes that were given.
fn drop_given(bytes: &mut Vec<u8>, given: &mut usize)
    requires { given.old ≤ length bytes.old.items }
    ensures bytes { bytes.new.items ≡ drop given.old bytes.old.items }
    ensures given { given.new ≡ 0 }
{
    let waits = bytes.len() - *given;
    bytes.copy_within(*given.., 0);
    bytes.truncate(waits);
    *given = 0;
}

/// Answers a line in a session that rests, which then rests again.
fn answer(
    alloc: Global,
    rules: &Rules,
    resting: Resting,
    line: &[u8],
    waiting: &mut Vec<u8>,
) -> (Resting, Result<(), TellFault>)
    requires { IsSession (session_over rules.now resting) }
    ensures session { IsSession (session_over rules.now result.0) }
    ensures answered { OnOk result.1 (HasAnsweredWhole (session_over rules.now resting) line.now
        waiting.old.items (session_over rules.now result.0) waiting.new.items) }
    ensures unchanged { OnErr result.1 (result.0 ≡ resting) }
    ensures unsaid { OnErr result.1 (waiting.new.items ≡ waiting.old.items) }
    ensures lacks { IfErr result.1 (λ fault. fault ≡ TellFault.Memory) }
{
    let mut session = Session::resume(rules, resting);
    if session.written() > MOST_TEXTS {
        return (session.rest(), Err(TellFault::Memory));
    }
    match answer_whole(alloc, &mut session, line, waiting) {
        Ok(()) => (session.rest(), Ok(())),
        Err(_) => (session.rest(), Err(TellFault::Memory)),
    }
}
