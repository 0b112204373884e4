//! What waits to be written, and is passed on to a sink.
//! The answers are those that the sink took, and then those that wait: they are written once they
//! are many, so that an answer of any length is never held whole.
ghost use Rattle.std.specs.Prelude.{◌≡◌, ◌≤◌, [], OnOk, OnErr, IsErrOf, IsTrue};
ghost use Rattle.way_io.specs.Counts.{Rose};
ghost use Rattle.line_server.specs.Answering.{name_lines};
ghost use Rattle.line_server.specs.Outboxes.{HasSaid, HasBroken};

use cell_names::write_name;
use ring_listing::Ring;
use std::alloc::AllocError;
use thiserror::Error;
use way_io::{Sink, WriteFault, write_piece};

/// How many bytes of answers wait before they are written.
const FULL: usize = 65_536;

/// Why nothing more is said.
#[derive(Clone, Copy, Debug, PartialEq, Eq, Error)]
pub(crate) enum Stop {
    /// A write failed.
    #[error("a write failed")]
    Write,
    /// There is no memory.
    #[error("out of memory")]
    Memory,
}

impl From<AllocError> for Stop {
    ghost use Rattle.std.specs.Prelude.{◌≡◌};
    ghost use Rattle.line_server.specs.declared.writing.Stop.TheVariants.{Memory};

    ghost from_gives = { λ _ stop. stop ≡ Memory };

    fn from(_: AllocError) -> Stop {
        Stop::Memory
    }
}

impl From<WriteFault> for Stop {
    ghost use Rattle.std.specs.Prelude.{◌≡◌};
    ghost use Rattle.line_server.specs.declared.writing.Stop.TheVariants.{Write};

    ghost from_gives = { λ _ stop. stop ≡ Write };

    fn from(_: WriteFault) -> Stop {
        Stop::Write
    }
}

/// Passes on the names that a ring still gives: each waits too, as a line, and what waits is written
/// where it is much.
///
/// # Errors
///
/// `Write` where a write failed, which the sink counted, and `Memory` where there is none for the
/// names. Of what waited and of the names the sink took a prefix.
pub(crate) fn pass_names<O: Sink>(
    ring: &mut Ring<'_>,
    waiting: &mut Vec<u8>,
    out: &mut O,
) -> Result<(), Stop>
    ensures said { OnOk result (HasSaid O.tells (O.taken out.old) waiting.old.items (name_lines ring.old.rest)
        (O.taken out.new) waiting.new.items) }
    ensures broken { OnErr result (HasBroken O.tells (O.taken out.old) waiting.old.items (name_lines ring.old.rest)
        (O.taken out.new)) }
    ensures later { O.faults out.old ≤ O.faults out.new }
    ensures cause { IsErrOf result Stop.Write → Rose (O.faults out.old) (O.faults out.new) }
{
    while let Some(name) = ring.step() {
        write_name(waiting, name)?;
        waiting.extend_from_slice(b"\n")?;
        write_if_full(waiting, out)?;
    }
    Ok(())
}

/// Writes what waits, if it is much.
///
/// # Errors
///
/// The sink took a prefix of what waits.
pub(crate) fn write_if_full<O: Sink>(waiting: &mut Vec<u8>, out: &mut O) -> Result<(), WriteFault>
    ensures said { OnOk result (HasSaid O.tells (O.taken out.old) waiting.old.items []
        (O.taken out.new) waiting.new.items) }
    ensures broken { OnErr result (HasBroken O.tells (O.taken out.old) waiting.old.items []
        (O.taken out.new)) }
    ensures later { O.faults out.old ≤ O.faults out.new }
    ensures cause { OnErr result (Rose (O.faults out.old) (O.faults out.new)) }
{
    if waiting.len() < FULL {
        return Ok(());
    }
    write_all(waiting, out)
}

/// Writes all that waits.
///
/// # Errors
///
/// The sink took a prefix of what waits.
pub(crate) fn write_all<O: Sink>(waiting: &mut Vec<u8>, out: &mut O) -> Result<(), WriteFault>
    ensures empty { OnOk result (waiting.new.items ≡ []) }
    ensures said { OnOk result (HasSaid O.tells (O.taken out.old) waiting.old.items []
        (O.taken out.new) waiting.new.items) }
    ensures broken { OnErr result (HasBroken O.tells (O.taken out.old) waiting.old.items []
        (O.taken out.new)) }
    ensures later { O.faults out.old ≤ O.faults out.new }
    ensures cause { OnErr result (Rose (O.faults out.old) (O.faults out.new)) }
{
    write_piece(out, waiting)?;
    waiting.clear();
    Ok(())
}
