//! What the table comes to. The functions do nothing: their contracts state laws of the definitions.
ghost use Rattle.walker_run.specs.Laws.{OneLineIsDue, OneSessionIsServed, NeverBoth, NeverALogToo};
ghost use Rattle.walker_run.specs.LaterRuns.{LogsAreVerified};

use crate::below::laws_below;

/// To each call at most one line is due, or it serves walkers over one automaton and in the tree of
/// one kind, or it writes a log, and never two of these.
pub fn table()
    ensures one_line { OneLineIsDue }
    ensures one_session { OneSessionIsServed }
    ensures never_both { NeverBoth }
    ensures never_a_log { NeverALogToo }
{
    laws_below();
}

/// The log that a run of `log` writes, a later run of `verify` over the same tessellation and the
/// same walks accepts: it says `related`, unless the outside or memory fails.
pub fn logs()
    ensures { LogsAreVerified }
{
    laws_below();
}
