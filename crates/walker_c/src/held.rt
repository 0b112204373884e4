//! `Held`: the bytes of two files that are lent, as files.
ghost use Rattle.std.specs.Prelude.{◌≡◌, true};
ghost use Rattle.walker_c.specs.Opening.{holding};

use std::alloc::Global;
use way_io::{FetchFault, Files, StoreFault};

/// The name under which the tessellation file is held. Under any other name the rules file is.
pub(crate) const TESS: &str = "tess";

/// The name by which the rules file is asked for.
pub(crate) const RULES: &str = "rules";

/// A tessellation file and a rules file, whose bytes are lent. A fetch fails only where the file is
/// longer than it may be, and for want of memory, and nothing can be stored.
#[derive(Drop)]
pub(crate) struct Held<'f> {
    pub(crate) tess: &'f [u8],
    pub(crate) rules: &'f [u8],
}

impl<'f> Files for Held<'f> {
    ghost tells = { true };

    ghost contents = { λ h. holding h.tess.now h.rules.now };

    ghost fetch_faults = { λ _. 0 };

    ghost store_faults = { λ _. 0 };

    fn fetch(&mut self, alloc: Global, name: &str, limit: u32) -> Result<Vec<u8>, FetchFault> {
        let bytes = if name == TESS { self.tess } else { self.rules };
        if bytes.len() > limit as usize {
            return Err(FetchFault::TooLong);
        }
        Ok(bytes.to_vec(alloc)?)
    }

    fn store(&mut self, _name: &str, _bytes: &[u8]) -> Result<(), StoreFault> {
        Err(StoreFault::Memory)
    }
}
