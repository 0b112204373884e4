//! One line, answered by a session into the bytes that wait to be written.
ghost use Rattle.std.specs.Prelude.{◌≡◌, ℕ, ◌+◌, ◌<◌, ◌≤◌, ◌↔◌, ◌++◌, suc, List, length, IfOk, OnErr, IsTrue};
ghost use Rattle.std.specs.Prelude.{IfSome, IfNone, IsSome};
ghost use Rattle.command_text.specs.CommandLines.{IsSpelling, most_of_line};
ghost use Rattle.command_text.specs.Replies.{reply_text};
ghost use Rattle.lazy_map.specs.Texts.{most_texts};
ghost use Rattle.session_core.specs.Answered.{IsBrief};
ghost use Rattle.session_core.specs.Sessions.{HasNumbers, SessionState};
ghost use Rattle.line_server.specs.Readers.{AreDropped, IsMeasured, HasAnsweredLine, AreNames};
ghost use Rattle.line_server.specs.Answering.{AreBehind};

use command_text::{
    CommandFault, LONGEST_LINE, bad_line, read_command, too_long_line, write_reply,
};
use reply_model::{Command, Reply};
use session_core::{Session, laws};
use std::alloc::{AllocError, Global};

/// The most bytes of a brief reply's line.
const LONGEST_BRIEF: usize = 10;

/// Whether a line is too long of which this is the end, behind what was dropped of it, if anything
/// was.
pub(crate) fn is_too_long(lost: bool, line: &[u8]) -> bool
    ensures { (dropped : List ℕ) → AreDropped lost dropped
        → IsTrue result ↔ (most_of_line < length (dropped ++ line.now)) }
{
    if lost {
        return true;
    }
    line.len() > LONGEST_LINE
}

/// Answers a line with this text, or one that is too long. What it is answered with is appended to
/// the bytes that wait, and behind them the names of the ring whose number comes back follow, each as
/// a line.
/// Fewer than 4,294,967,295 tiles have a text before it, and at most as many more behind it as the
/// text has bytes.
///
/// # Errors
///
/// `AllocError` where there is no memory: the session and the bytes that wait are as they were.
pub(crate) fn answer_line(
    alloc: Global,
    session: &mut Session<'_>,
    is_long: bool,
    text: &[u8],
    waiting: &mut Vec<u8>,
) -> Result<Option<u32>, AllocError>
    requires { length session.old.texts < most_texts }
    ensures few { length session.new.texts ≤ length session.old.texts + length text.now }
    ensures replied { (line whole : List ℕ) → IsMeasured is_long text.now line whole
        → IfOk result (λ ring. HasAnsweredLine session.old line whole waiting.old.items
        session.new waiting.new.items ring) }
    ensures listed { IfOk result (λ ring. IsSome ring → session.new ≡ session.old) }
    ensures unchanged { OnErr result (session.new ≡ session.old) }
    ensures unsaid { OnErr result (waiting.new.items ≡ waiting.old.items) }
{
    if is_long {
        waiting.extend_from_slice(too_long_line())?;
        return Ok(None);
    }
    if text.is_empty() {
        return Ok(None);
    }
    match read_command(alloc, text) {
        Ok(command) => answer_command(session, &command, waiting),
        Err(CommandFault::Bad) => {
            waiting.extend_from_slice(bad_line())?;
            Ok(None)
        }
        Err(CommandFault::Memory) => Err(AllocError),
    }
}

/// Answers a command: appends the line of its reply, and gives the number of the ring whose names
/// follow. All room that the reply may need is taken before anything changes; a command that asks
/// changes nothing.
fn answer_command(
    session: &mut Session<'_>,
    command: &Command,
    waiting: &mut Vec<u8>,
) -> Result<Option<u32>, AllocError>
    requires numbers { HasNumbers command.now }
    requires room { length session.old.texts < most_texts }
    ensures few { length session.new.texts ≤ suc (length session.old.texts) }
    ensures replied { (line text : List ℕ) → length line ≤ most_of_line
        → IsSpelling text command.now
        → IfOk result (λ ring. HasAnsweredLine session.old line text waiting.old.items
        session.new waiting.new.items ring) }
    ensures listed { IfOk result (λ ring. IsSome ring → session.new ≡ session.old) }
    ensures unchanged { OnErr result (session.new ≡ session.old) }
    ensures unsaid { OnErr result (waiting.new.items ≡ waiting.old.items) }
{
    waiting.reserve(LONGEST_BRIEF)?;
    // The session answers by what the tree says, before and after, and that is what walks say.
    laws::readings(session);
    let reply = session.apply(command)?;
    laws::readings(session);
    if let Some(text) = brief_line(&reply) {
        waiting.extend_from_slice(text)?;
        return Ok(None);
    }
    write_reply(waiting, &reply)?;
    Ok(ring_behind(&reply))
}

/// The line of a brief reply.
fn brief_line(x: &Reply) -> Option<&'static [u8]>
    ensures line { IfSome result (λ text. text.now ≡ reply_text x.now) }
    ensures short { IfSome result (λ text. length text.now ≤ 10) }
    ensures one { IfSome result (λ _. IsBrief x.now) }
    ensures none { IfNone result (¬ IsBrief x.now) }
{
    match x {
        Reply::Done => Some(b"ok\n"),
        Reply::Taken => Some(b"taken\n"),
        Reply::NoWalker => Some(b"no walker\n"),
        Reply::Deep => Some(b"deep\n"),
        Reply::Long => Some(b"long\n"),
        _ => None,
    }
}

/// The number of the ring whose names follow the line of a reply: of the one that it lists.
fn ring_behind(x: &Reply) -> Option<u32>
    ensures { (s : SessionState) (names : List (List ℕ)) → AreNames s result names
        → AreBehind s x.now names }
{
    match x {
        Reply::Tiles { d, .. } => Some(*d),
        _ => None,
    }
}
