//! The commands of the input, answered.
ghost use Rattle.std.specs.Prelude.{◌≡◌, ◌<◌, length, IsTrue};
ghost use Rattle.line_server.specs.Answering.{over_walks};
ghost use Rattle.way_io.specs.Counts.{Rose};
ghost use Rattle.line_server.specs.Endings.{GivesInOrder, TakesMore};
ghost use Rattle.walker_run.specs.Lines.{IsRefusal};
ghost use Rattle.walker_run.specs.Ending.{EndsStream};

use crate::line::Line;
use crate::say::say;
use crate::status::Status;
use line_server::{Ending, serve};
use session_core::Session;
use std::alloc::Global;
use structure_check::Rules;
use way_io::{Sink, Source};

/// Answers the commands of the input over rules, in the tree of a kind, and tells how that ended.
/// An input that is too long is told by a line of its own.
pub fn serve_walkers<I: Source, O: Sink>(
    alloc: Global,
    rules: &Rules,
    kind: u8,
    input: &mut I,
    out: &mut O,
) -> Status
    requires { kind < length rules.now.kinds }
    ensures ends { EndsStream I.tells O.tells
        (over_walks rules.now.kinds rules.now.automaton kind)
        (I.left input.old) (I.left input.new) (O.taken out.old) (O.taken out.new) result }
    ensures no_refusal { IsRefusal result → ⊥ }
    ensures read_cause { result ≡ Status.ReadFault
        → Rose (I.faults input.old) (I.faults input.new) }
    ensures write_cause { result ≡ Status.WriteFault → Rose (O.faults out.old) (O.faults out.new) }
    ensures in_order { IsTrue I.tells → GivesInOrder (I.left input.old) (I.left input.new) }
    ensures kept { IsTrue O.tells → TakesMore (O.taken out.old) (O.taken out.new) }
{
    let Ok(mut session) = Session::new(alloc, rules, kind) else {
        return Status::Memory;
    };
    match serve(alloc, &mut session, input, out) {
        Ending::Done => Status::Done,
        Ending::ReadFault => Status::ReadFault,
        Ending::InputTooLong => say(alloc, &Line::InputTooLong, out),
        Ending::WriteFault => Status::WriteFault,
        Ending::Memory => Status::Memory,
    }
}
