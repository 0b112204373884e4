//! What the outputs of streams come to. The functions do nothing: their contracts state laws of the
//! definitions. They hold of every tessellation, of all rules that are accepted for it, and of each
//! of its kinds.
ghost use Rattle.tree_laws.specs.Laws.{OfEachTree};
ghost use Rattle.line_server.specs.Laws.{OutputsAreOne, FrontsBeginOutputs, FrontsBeginWhatIsWithin};
ghost use Rattle.line_server.specs.Laws.{OutputsLeadToDue, InterleavingsHaveOneAnswer, OutputsAgree};

/// Each stream has exactly one output after each history.
/// What is written of a stream where the work on it ends early begins that output, and where the
/// stream is over the limit, the output of the lines that end within the limit.
/// The history to which an output leads is due.
/// And two streams may have the same lines `new W` and `go W` in the same order, whatever comes
/// between: then two lines `at W`, or two lines `level W`, each behind as many of these lines, have
/// the same answer.
pub fn outputs()
    ensures one { OfEachTree OutputsAreOne }
    ensures begins { OfEachTree FrontsBeginOutputs }
    ensures begins_within { OfEachTree FrontsBeginWhatIsWithin }
    ensures due { OfEachTree OutputsLeadToDue }
    ensures interleavings { OfEachTree InterleavingsHaveOneAnswer }
{
    // The law that a line spells exactly one command, or none.
    command_text::laws::spelling();
}

/// The output is the same by what walks say and by what the tree of the rules says.
pub fn readings()
    ensures { OfEachTree OutputsAgree }
{}
