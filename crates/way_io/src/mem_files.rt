// Files in memory.
ghost use Rattle.std.specs.Prelude.{◌≡◌, ◌↔◌, ◌≤◌, ◌<◌, ◌⊎◌, List, ℕ, true, length, IfOk, OnOk};
ghost use Rattle.std.specs.Prelude.{OnErr, IsErrOf, IsTrue, Some, None, option_copied};
ghost use Rattle.way_io.specs.Counts.{counted};
ghost use Rattle.way_io.specs.Calls.{no_calls, one_more, next_fails};
ghost use Rattle.way_io.specs.Contents.{KeepsAll, KeepsOthers, IsLonger};
ghost use Rattle.way_io.specs.FilesInMemory.{contents_of, calls_of, failed_fetches, failed_stores};

use crate::calls::Calls;
use crate::files::{FetchFault, Files, StoreFault};
use std::alloc::{AllocError, Global};
use std::collections::BTreeMap;

/// Files in memory, with calls of `fetch` and `store` that fail.
#[derive(Debug, Drop)]
pub struct MemFiles {
    alloc: Global,
    files: BTreeMap<String, Vec<u8>>,
    calls: Calls,
    fetch_faults: u64,
    store_faults: u64,
}

impl MemFiles {
    /// No file yet. The calls of `fetch` and `store` whose numbers, counted together from 1,
    /// stand in `failing` fail.
    ///
    /// # Errors
    ///
    /// `AllocError` where there is no memory for the copy of `failing`.
    pub fn new(alloc: Global, failing: &[u32]) -> Result<MemFiles, AllocError>
        ensures empty { IfOk result (λ files. (name : List ℕ) → contents_of files name ≡ None) }
        ensures calls { IfOk result (λ files. calls_of files ≡ no_calls failing.now) }
        ensures fetch_faults { IfOk result (λ files. failed_fetches files ≡ 0) }
        ensures store_faults { IfOk result (λ files. failed_stores files ≡ 0) }
    {
        Ok(MemFiles {
            alloc,
            files: BTreeMap::new(alloc),
            calls: Calls::new(alloc, failing)?,
            fetch_faults: 0,
            store_faults: 0,
        })
    }

    /// Makes `bytes` the content of the file `name`, whether there was one or not. It counts as
    /// no call, and never fails as one.
    ///
    /// # Errors
    ///
    /// `AllocError` where there is no memory for the copies. No file has changed then.
    #[tactic(auto, using(std::proofs::lemmas::Map::Text::text_keys))]
    pub fn add(&mut self, name: &str, bytes: &[u8]) -> Result<(), AllocError>
        ensures content { OnOk result (contents_of self.new name.now ≡ Some bytes.now) }
        ensures others { KeepsOthers (contents_of self.old) (contents_of self.new) name.now }
        ensures refused { OnErr result (KeepsAll (contents_of self.old) (contents_of self.new)) }
        ensures calls { calls_of self.new ≡ calls_of self.old }
        ensures fetch_faults { failed_fetches self.new ≡ failed_fetches self.old }
        ensures store_faults { failed_stores self.new ≡ failed_stores self.old }
    {
        let key = String::from_str(self.alloc, name)?;
        let content = bytes.to_vec(self.alloc)?;
        self.files.insert(key, content)?;
        Ok(())
    }

    /// What the file `name` holds: `None` exactly where there is no such file.
    pub fn content(&self, name: &str) -> Option<&[u8]>
        ensures { option_copied result ≡ contents_of self.now name.now }
    {
        match self.files.get(name) {
            Some(bytes) => Some(bytes.as_slice()),
            None => None,
        }
    }
}

impl Files for MemFiles {
    ghost tells = { true };

    ghost contents = { contents_of };

    ghost fetch_faults = { failed_fetches };

    ghost store_faults = { failed_stores };

    fn fetch(&mut self, alloc: Global, name: &str, limit: u32) -> Result<Vec<u8>, FetchFault>
        ensures fails { IsErrOf result FetchFault.Failed
            ↔ (IsTrue (next_fails (calls_of self.old)) ⊎ (contents_of self.old name.now ≡ None)) }
        ensures within { IfOk result (λ bytes. length bytes.items ≤ limit) }
        ensures content { IfOk result (λ bytes. contents_of self.old name.now ≡ Some bytes.items) }
        ensures too_long { IsErrOf result FetchFault.TooLong
            → IsLonger (contents_of self.old) name.now limit }
        ensures longer { (bytes : List ℕ) → contents_of self.old name.now ≡ Some bytes
            → limit < length bytes
            → IsErrOf result FetchFault.TooLong ⊎ IsErrOf result FetchFault.Failed }
        ensures same { KeepsAll (contents_of self.old) (contents_of self.new) }
        ensures calls { calls_of self.new ≡ one_more (calls_of self.old) }
        ensures later { failed_fetches self.old ≤ failed_fetches self.new }
        ensures counted { IsErrOf result FetchFault.Failed
            → failed_fetches self.new ≡ counted (failed_fetches self.old) }
        ensures uncounted { ¬ IsErrOf result FetchFault.Failed
            → failed_fetches self.new ≡ failed_fetches self.old }
        ensures other_count { failed_stores self.new ≡ failed_stores self.old }
    {
        let fails = self.calls.next();
        match self.content(name) {
            Some(bytes) if !fails => {
                if bytes.len() > limit as usize {
                    return Err(FetchFault::TooLong);
                }
                Ok(bytes.to_vec(alloc)?)
            }
            _ => {
                self.fetch_faults = self.fetch_faults.saturating_add(1);
                Err(FetchFault::Failed)
            }
        }
    }

    // A store that is refused, for whatever cause, leaves the file as it was.
    fn store(&mut self, name: &str, bytes: &[u8]) -> Result<(), StoreFault>
        ensures fails { IsErrOf result StoreFault.Failed ↔ IsTrue (next_fails (calls_of self.old)) }
        ensures content { OnOk result (contents_of self.new name.now ≡ Some bytes.now) }
        ensures others { KeepsOthers (contents_of self.old) (contents_of self.new) name.now }
        ensures refused { OnErr result (KeepsAll (contents_of self.old) (contents_of self.new)) }
        ensures calls { calls_of self.new ≡ one_more (calls_of self.old) }
        ensures later { failed_stores self.old ≤ failed_stores self.new }
        ensures counted { IsErrOf result StoreFault.Failed
            → failed_stores self.new ≡ counted (failed_stores self.old) }
        ensures uncounted { ¬ IsErrOf result StoreFault.Failed
            → failed_stores self.new ≡ failed_stores self.old }
        ensures other_count { failed_fetches self.new ≡ failed_fetches self.old }
    {
        if self.calls.next() {
            self.store_faults = self.store_faults.saturating_add(1);
            return Err(StoreFault::Failed);
        }
        Ok(self.add(name, bytes)?)
    }
}
