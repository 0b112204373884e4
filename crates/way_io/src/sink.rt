// Where bytes go to.
ghost use Rattle.std.specs.Prelude.{◌≡◌, ◌≤◌, ◌<◌, ◌++◌, ℕ, List, Bool, length, take, IfOk, OnOk};
ghost use Rattle.std.specs.Prelude.{OnErr, IsTrue};
ghost use Rattle.way_io.specs.Counts.{Rose};
ghost use Rattle.way_io.specs.Pieces.{AppendsPrefix};

use thiserror::Error;

/// A write failed, and the sink counted it.
#[derive(Clone, Copy, Debug, PartialEq, Eq, Error)]
#[error("a write failed")]
pub struct WriteFault;

/// A sink for bytes.
pub trait Sink {
    /// Whether objects of this type tell the bytes that they took.
    ghost tells: { Bool };

    /// The bytes that were taken, where they are told.
    ghost taken: { Self → List ℕ };

    /// How often writing has failed. A sink that tries again may count a try that failed and still
    /// take bytes. Nothing else is counted.
    ghost faults: { Self → ℕ };

    /// Takes the first bytes of a piece, and says how many they are: at least one, unless the
    /// piece is empty.
    ///
    /// # Errors
    ///
    /// A write that fails is counted, and nothing of the piece was taken. A sink that would take
    /// nothing of a piece that is not empty fails.
    fn write(&mut self, bytes: &[u8]) -> Result<usize, WriteFault>
        ensures within { IfOk result (λ n. n ≤ length bytes.now) }
        ensures some { 0 < length bytes.now → IfOk result (λ n. 0 < n) }
        ensures appended { IsTrue tells
            → IfOk result (λ n. taken self.new ≡ taken self.old ++ take n bytes.now) }
        ensures kept { IsTrue tells → OnErr result (taken self.new ≡ taken self.old) }
        ensures later { faults self.old ≤ faults self.new }
        ensures cause { OnErr result (Rose (faults self.old) (faults self.new)) };
}

/// Writes a whole piece, by as many writes as it takes.
///
/// # Errors
///
/// The first write that fails ends it: the sink counted that fault, and took a prefix of the piece.
pub fn write_piece<S: Sink>(out: &mut S, bytes: &[u8]) -> Result<(), WriteFault>
    ensures whole { IsTrue S.tells → OnOk result (S.taken out.new ≡ S.taken out.old ++ bytes.now) }
    ensures prefix { IsTrue S.tells → AppendsPrefix (S.taken out.old) (S.taken out.new) bytes.now }
    ensures later { S.faults out.old ≤ S.faults out.new }
    ensures cause { OnErr result (Rose (S.faults out.old) (S.faults out.new)) }
{
    let mut rest = bytes;
    while !rest.is_empty() {
        let count = out.write(rest)?;
        rest = &rest[count..];
    }
    Ok(())
}
