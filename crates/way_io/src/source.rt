// Where bytes come from.
ghost use Rattle.std.specs.Prelude.{◌≡◌, ◌≤◌, ◌<◌, ◌++◌, ◌↔◌, [], ℕ, List, Bool, length, take};
ghost use Rattle.std.specs.Prelude.{IfOk, OnErr, IsTrue};
ghost use Rattle.way_io.specs.Counts.{Rose};

use thiserror::Error;

/// A read failed, and the source counted it.
#[derive(Clone, Copy, Debug, PartialEq, Eq, Error)]
#[error("a read failed")]
pub struct ReadFault;

/// A source of bytes.
pub trait Source {
    /// Whether objects of this type tell the bytes that they have left.
    ghost tells: { Bool };

    /// The bytes that are left, where they are told.
    ghost left: { Self → List ℕ };

    /// How often reading has failed. A source that tries again may count a try that failed and
    /// still give bytes. Nothing else is counted.
    ghost faults: { Self → ℕ };

    /// Reads the next bytes into the start of `buf`, and says how many they are. `Ok(0)` on a
    /// buffer that is not empty is the end of the input. What stands in `buf` behind the bytes
    /// read is open, and so is all of it after an error.
    ///
    /// # Errors
    ///
    /// A read that fails is counted, and no byte is lost by it.
    fn read(&mut self, buf: &mut [u8]) -> Result<usize, ReadFault>
        ensures within { IfOk result (λ n. n ≤ length buf.new) }
        ensures next { IsTrue tells
            → IfOk result (λ n. left self.old ≡ take n buf.new ++ left self.new) }
        ensures end { IsTrue tells → 0 < length buf.new
            → IfOk result (λ n. (n ≡ 0) ↔ (left self.old ≡ [])) }
        ensures kept { IsTrue tells → OnErr result (left self.new ≡ left self.old) }
        ensures later { faults self.old ≤ faults self.new }
        ensures cause { OnErr result (Rose (faults self.old) (faults self.new)) };
}
