// Files that are fetched and stored whole, by their names.
ghost use Rattle.std.specs.Prelude.{◌≡◌, ◌≤◌, ◌<◌, ◌⊎◌, ℕ, List, Bool, length, IfOk, OnOk, IsTrue};
ghost use Rattle.std.specs.Prelude.{IsErrOf, Some, None, Option};
ghost use Rattle.way_io.specs.Counts.{Rose};
ghost use Rattle.way_io.specs.Contents.{KeepsAll, KeepsOthers, IsLonger};

use std::alloc::{AllocError, Global};
use thiserror::Error;

/// Why a file was not fetched.
#[derive(Clone, Copy, Debug, PartialEq, Eq, Error)]
pub enum FetchFault {
    /// There is no such file, or reading it failed. The files counted it.
    #[error("the file could not be read")]
    Failed,
    /// The file has more bytes than the limit.
    #[error("the file is longer than its limit")]
    TooLong,
    /// There was no memory for the bytes.
    #[error("no memory for the bytes of the file")]
    Memory,
}

impl From<AllocError> for FetchFault {
    ghost use Rattle.std.specs.Prelude.{◌≡◌};
    ghost use Rattle.way_io.specs.declared.files.FetchFault.TheVariants.{Memory};

    ghost from_gives = { λ _ e. e ≡ Memory };

    fn from(_: AllocError) -> Self {
        FetchFault::Memory
    }
}

/// Why a file was not stored.
#[derive(Clone, Copy, Debug, PartialEq, Eq, Error)]
pub enum StoreFault {
    /// Writing the file failed. The files counted it.
    #[error("the file could not be written")]
    Failed,
    /// There was no memory for the bytes.
    #[error("no memory to store the file")]
    Memory,
}

impl From<AllocError> for StoreFault {
    ghost use Rattle.std.specs.Prelude.{◌≡◌};
    ghost use Rattle.way_io.specs.declared.files.StoreFault.TheVariants.{Memory};

    ghost from_gives = { λ _ e. e ≡ Memory };

    fn from(_: AllocError) -> Self {
        StoreFault::Memory
    }
}

/// Files by their names.
pub trait Files {
    /// Whether objects of this type tell what their files hold.
    ghost tells: { Bool };

    /// What the file of a name holds, if there is one, where it is told.
    ghost contents: { Self → List ℕ → Option (List ℕ) };

    /// How often fetching has failed. Files that try again may count a try that failed and still
    /// give the file. Nothing else is counted.
    ghost fetch_faults: { Self → ℕ };

    /// How often storing has failed, in the same way. Nothing else is counted.
    ghost store_faults: { Self → ℕ };

    /// The bytes of the file `name`, which are at most `limit`. No file changes.
    ///
    /// # Errors
    ///
    /// `Failed` where there is no such file or it cannot be read, and this is counted; `TooLong`
    /// where it has more than `limit` bytes; `Memory` where there is none for its bytes.
    fn fetch(&mut self, alloc: Global, name: &str, limit: u32) -> Result<Vec<u8>, FetchFault>
        ensures later { fetch_faults self.old ≤ fetch_faults self.new }
        ensures cause { IsErrOf result FetchFault.Failed
            → Rose (fetch_faults self.old) (fetch_faults self.new) }
        ensures other_count { store_faults self.new ≡ store_faults self.old }
        ensures within { IfOk result (λ bytes. length bytes.items ≤ limit) }
        ensures content { IsTrue tells
            → IfOk result (λ bytes. contents self.old name.now ≡ Some bytes.items) }
        ensures missing { IsTrue tells → contents self.old name.now ≡ None
            → IsErrOf result FetchFault.Failed }
        ensures too_long { IsTrue tells → IsErrOf result FetchFault.TooLong
            → IsLonger (contents self.old) name.now limit }
        ensures longer { IsTrue tells → (bytes : List ℕ) → contents self.old name.now ≡ Some bytes
            → limit < length bytes
            → IsErrOf result FetchFault.TooLong ⊎ IsErrOf result FetchFault.Failed }
        ensures same { IsTrue tells → KeepsAll (contents self.old) (contents self.new) };

    /// Makes `bytes` the content of the file `name`, whether there was one or not. All other
    /// files stay.
    ///
    /// # Errors
    ///
    /// `Failed` where the file cannot be written, and this is counted; `Memory` where there is
    /// none for it. After either the content of that name is open.
    fn store(&mut self, name: &str, bytes: &[u8]) -> Result<(), StoreFault>
        ensures later { store_faults self.old ≤ store_faults self.new }
        ensures cause { IsErrOf result StoreFault.Failed
            → Rose (store_faults self.old) (store_faults self.new) }
        ensures other_count { fetch_faults self.new ≡ fetch_faults self.old }
        ensures content { IsTrue tells → OnOk result (contents self.new name.now ≡ Some bytes.now) }
        ensures others { IsTrue tells
            → KeepsOthers (contents self.old) (contents self.new) name.now };
}
