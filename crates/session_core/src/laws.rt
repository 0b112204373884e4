//! What the replies of a session come to.
//! The functions only read the rules or the session: their contracts state laws of the definitions.
ghost use Rattle.std.specs.Prelude.{◌<◌, length};
ghost use Rattle.reply_model.specs.WalkReadings.{IsWalkReply};
ghost use Rattle.reply_model.specs.TreeReadings.{IsTreeReply};
ghost use Rattle.reply_laws.specs.Laws.{HaveOneReply, InterleavingsAgree};
ghost use Rattle.session_core.specs.Sessions.{AreReadAlike};

use crate::session::Session;
use structure_check::Rules;

/// After each history, each command has exactly one reply.
/// What stands between the commands `new` and `go` does not matter to where walkers are: after two histories that hold
/// the same of these commands in the same order, the same replies are due to commands that ask where a walker is.
/// Both are said over walks and over the tree. `kind` is a kind of the tessellation.
pub fn interleaving(r: &Rules, kind: u8)
    requires { kind < length r.now.kinds }
    ensures one_reply_over_walks { HaveOneReply (IsWalkReply r.now.kinds r.now.automaton kind) }
    ensures interleavings_over_walks { InterleavingsAgree
        (IsWalkReply r.now.kinds r.now.automaton kind) }
    ensures one_reply { HaveOneReply (IsTreeReply r.now.kinds r.now.automaton kind) }
    ensures interleavings { InterleavingsAgree (IsTreeReply r.now.kinds r.now.automaton kind) }
{
    // The laws hold of accepted rules, and this call tells that these are.
    let _automaton = r.automaton();
}

/// A session stands for a history by what walks say exactly where it does by what the tree says,
/// and a reply is due by the one exactly where it is due by the other.
pub fn readings(session: &Session<'_>)
    ensures { AreReadAlike session.now }
{
    // The law holds of the state of a session, and this call tells that this is one.
    let _written = session.written();
}
