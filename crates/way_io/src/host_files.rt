// The files of the machine.
ghost use Rattle.std.specs.Prelude.{◌≡◌, ◌≤◌, false, None, length, IfOk};
ghost use Rattle.way_io.specs.OfHost.{FileFaults};

use crate::files::{FetchFault, Files, StoreFault};
use std::alloc::Global;
use std::fs;
use std::io::{Read, Write};
use std::marker::Model;
use std::rt::Files as Disk;

/// The files of the machine, named by their paths. They do not tell what they hold.
#[derive(Drop)]
pub struct HostFiles<'a, R: Disk> {
    rt: &'a R,
    fetch_faults: u64,
    store_faults: u64,
}

impl<'a, R: Disk> Model for HostFiles<'a, R> {
    ghost Value = { FileFaults };

    ghost view = { λ h. record { fetches = h.fetch_faults; stores = h.store_faults } };
}

impl<'a, R: Disk> HostFiles<'a, R> {
    /// The files that the process reaches, with no fault counted yet.
    pub fn new(rt: &'a R) -> HostFiles<'a, R>
        ensures { result ≡ record { fetches = 0; stores = 0 } }
    {
        HostFiles {
            rt,
            fetch_faults: 0,
            store_faults: 0,
        }
    }
}

impl<R: Disk> Files for HostFiles<'_, R> {
    ghost tells = { false };

    ghost contents = { λ _ _. None };

    ghost fetch_faults = { λ h. h.fetches };

    ghost store_faults = { λ h. h.stores };

    fn fetch(&mut self, alloc: Global, name: &str, limit: u32) -> Result<Vec<u8>, FetchFault> {
        let result = read_file(self.rt, alloc, name, limit);
        if let Err(FetchFault::Failed) = result {
            self.fetch_faults = self.fetch_faults.saturating_add(1);
        }
        result
    }

    fn store(&mut self, name: &str, bytes: &[u8]) -> Result<(), StoreFault> {
        let result = write_file(self.rt, name, bytes);
        if let Err(StoreFault::Failed) = result {
            self.store_faults = self.store_faults.saturating_add(1);
        }
        result
    }
}

// Reads a file to its end, or until it shows that it has more than `limit` bytes.
fn read_file<R: Disk>(rt: &R, alloc: Global, name: &str, limit: u32) -> Result<Vec<u8>, FetchFault>
    ensures within { IfOk result (λ bytes. length bytes.items ≤ limit) }
{
    let Ok(mut file) = fs::open(rt, name) else {
        return Err(FetchFault::Failed);
    };
    let mut bytes = Vec::new(alloc);
    let mut buf = [0u8; 65536];
    loop {
        let Ok(count) = file.read(&mut buf) else {
            return Err(FetchFault::Failed);
        };
        if count == 0 {
            return Ok(bytes);
        }
        if count > limit as usize - bytes.len() {
            return Err(FetchFault::TooLong);
        }
        bytes.extend_from_slice(&buf[..count])?;
    }
}

// Writes a file anew, in place of one of that name.
fn write_file<R: Disk>(rt: &R, name: &str, bytes: &[u8]) -> Result<(), StoreFault> {
    let Ok(mut file) = fs::create(rt, name) else {
        return Err(StoreFault::Failed);
    };
    let mut rest = bytes;
    while !rest.is_empty() {
        match file.write(rest) {
            Ok(count) if count > 0 => rest = &rest[count..],
            _ => return Err(StoreFault::Failed),
        }
    }
    match file.flush() {
        Ok(()) => Ok(()),
        Err(_) => Err(StoreFault::Failed),
    }
}
