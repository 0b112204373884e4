// A source over bytes in memory.
ghost use Rattle.std.specs.Prelude.{◌≡◌, ◌≤◌, ◌<◌, ◌↔◌, ◌++◌, [], true, length, take, drop, min};
ghost use Rattle.std.specs.Prelude.{is_err, if◌then◌else◌, IfOk, OnErr};
ghost use Rattle.way_io.specs.Counts.{counted};
ghost use Rattle.way_io.specs.Calls.{no_calls, one_more, next_fails};
ghost use Rattle.way_io.specs.InMemory.{SourceState};

use crate::calls::Calls;
use crate::source::{ReadFault, Source};
use std::alloc::{AllocError, Global};
use std::marker::Model;

/// Bytes in memory, read in short steps, with calls that fail.
#[derive(Debug, Drop)]
pub struct MemSource {
    bytes: Vec<u8>,
    at: usize,
    step: u32,
    calls: Calls,
    faults: u64,
}

impl Model for MemSource {
    ghost Value = { SourceState };

    ghost view = { λ s.
        record {
          left = drop s.at s.bytes.items;
          step = s.step;
          calls = s.calls;
          faults = s.faults;
        } };

    ghost invariant = { λ s. (s.at ≤ length s.bytes.items) × (1 ≤ s.step) };
}

impl MemSource {
    /// A source that gives `bytes`, at most `step` of them a read. The reads whose numbers,
    /// counted from 1, stand in `failing` fail.
    ///
    /// # Errors
    ///
    /// `AllocError` where there is no memory for the copies of `bytes` and `failing`.
    pub fn new(
        alloc: Global,
        bytes: &[u8],
        step: u32,
        failing: &[u32],
    ) -> Result<MemSource, AllocError>
        requires { 1 ≤ step }
        ensures { IfOk result (λ source. source ≡ record {
          left = bytes.now;
          step = step;
          calls = no_calls failing.now;
          faults = 0;
        }) }
    {
        Ok(MemSource {
            bytes: bytes.to_vec(alloc)?,
            at: 0,
            step,
            calls: Calls::new(alloc, failing)?,
            faults: 0,
        })
    }
}

impl Source for MemSource {
    ghost tells = { true };

    ghost left = { λ s. s.left };

    ghost faults = { λ s. s.faults };

    fn read(&mut self, buf: &mut [u8]) -> Result<usize, ReadFault>
        ensures fails { is_err result ≡ next_fails self.old.calls }
        ensures count { IfOk result
            (λ n. n ≡ min (min (length self.old.left) (length buf.new)) self.old.step) }
        ensures next { IfOk result (λ n. self.old.left ≡ take n buf.new ++ self.new.left) }
        ensures end { 0 < length buf.new → IfOk result (λ n. (n ≡ 0) ↔ (self.old.left ≡ [])) }
        ensures kept { OnErr result (self.new.left ≡ self.old.left) }
        ensures faults { self.new.faults ≡
            (if is_err result then counted self.old.faults else self.old.faults) }
        ensures later { self.old.faults ≤ self.new.faults }
        ensures calls { self.new.calls ≡ one_more self.old.calls }
        ensures step { self.new.step ≡ self.old.step }
    {
        if self.calls.next() {
            self.faults = self.faults.saturating_add(1);
            return Err(ReadFault);
        }
        let rest = &self.bytes[self.at..];
        let count = rest.len().min(buf.len()).min(self.step as usize);
        buf[..count].copy_from_slice(&rest[..count]);
        self.at += count;
        Ok(count)
    }
}
