//! A line or another text, written.
ghost use Rattle.std.specs.Prelude.{◌≡◌, IsTrue};
ghost use Rattle.way_io.specs.Counts.{Rose};
ghost use Rattle.line_server.specs.Endings.{TakesMore};
ghost use Rattle.walker_run.specs.Ending.{SaysLine, PrintsText};

use crate::line::Line;
use crate::status::Status;
use std::alloc::Global;
use way_io::{Sink, write_piece};

/// Writes a line, and tells how that ended: by its status, unless it could not be written.
pub fn say<O: Sink>(alloc: Global, line: &Line, out: &mut O) -> Status
    ensures line { SaysLine O.tells line.now (O.taken out.old) (O.taken out.new) result }
    ensures read { result ≡ Status.ReadFault → ⊥ }
    ensures cause { result ≡ Status.WriteFault → Rose (O.faults out.old) (O.faults out.new) }
    ensures kept { IsTrue O.tells → TakesMore (O.taken out.old) (O.taken out.new) }
{
    let Ok(text) = line.text(alloc) else {
        return Status::Memory;
    };
    match write_piece(out, &text) {
        Ok(()) => line.status(),
        Err(_) => Status::WriteFault,
    }
}

/// Writes a text, and tells how that ended: by `Done`, unless it could not be written.
pub fn write_text<O: Sink>(text: &[u8], out: &mut O) -> Status
    ensures text { PrintsText O.tells text.now (O.taken out.old) (O.taken out.new) result }
    ensures read { result ≡ Status.ReadFault → ⊥ }
    ensures cause { result ≡ Status.WriteFault → Rose (O.faults out.old) (O.faults out.new) }
    ensures kept { IsTrue O.tells → TakesMore (O.taken out.old) (O.taken out.new) }
{
    match write_piece(out, text) {
        Ok(()) => Status::Done,
        Err(_) => Status::WriteFault,
    }
}
