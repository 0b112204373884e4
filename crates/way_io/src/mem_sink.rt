// A sink in memory.
ghost use Rattle.std.specs.Prelude.{◌≡◌, ◌+◌, ◌≤◌, ◌<◌, ◌==◌, ◌||◌, ◌++◌, [], true, length, take};
ghost use Rattle.std.specs.Prelude.{min, is_err, if◌then◌else◌, IfOk, OnErr};
ghost use Rattle.std.specs.Vec.{vec_len, vec_capacity};
ghost use Rattle.way_io.specs.Counts.{counted};
ghost use Rattle.way_io.specs.Calls.{no_calls, one_more, next_fails};
ghost use Rattle.way_io.specs.InMemory.{SinkState};

use crate::calls::Calls;
use crate::sink::{Sink, WriteFault};
use std::alloc::{AllocError, Global};
use std::marker::Model;

/// A sink in memory with little room, which takes short steps and has calls that fail.
#[derive(Debug, Drop)]
pub struct MemSink {
    bytes: Vec<u8>,
    room: u32,
    step: u32,
    calls: Calls,
    faults: u64,
}

impl Model for MemSink {
    ghost Value = { SinkState };

    ghost view = { λ s.
        record {
          taken = s.bytes.items;
          room = s.room;
          step = s.step;
          calls = s.calls;
          faults = s.faults;
        } };

    ghost invariant = { λ s. (vec_len s.bytes + s.room ≤ vec_capacity s.bytes) × (1 ≤ s.step) };
}

impl MemSink {
    /// An empty sink with room for `room` bytes, which takes at most `step` of them a write. The
    /// writes whose numbers, counted from 1, stand in `failing` fail. All room is taken here.
    ///
    /// # Errors
    ///
    /// `AllocError` where there is no memory for `room` bytes and the copy of `failing`.
    pub fn new(alloc: Global, room: u32, step: u32, failing: &[u32]) -> Result<MemSink, AllocError>
        requires { 1 ≤ step }
        ensures { IfOk result (λ sink. sink ≡ record {
          taken = [];
          room = room;
          step = step;
          calls = no_calls failing.now;
          faults = 0;
        }) }
    {
        Ok(MemSink {
            bytes: Vec::with_capacity(alloc, room as usize)?,
            room,
            step,
            calls: Calls::new(alloc, failing)?,
            faults: 0,
        })
    }

    /// The bytes that were taken, in their order.
    pub fn taken(&self) -> &[u8]
        ensures { result.now ≡ self.now.taken }
    {
        &self.bytes
    }
}

impl Sink for MemSink {
    ghost tells = { true };

    ghost taken = { λ s. s.taken };

    ghost faults = { λ s. s.faults };

    // A write fails where its number stands among those that fail, and where no room is left.
    fn write(&mut self, bytes: &[u8]) -> Result<usize, WriteFault>
        ensures fails { is_err result ≡ (next_fails self.old.calls || self.old.room == 0) }
        ensures count { IfOk result
            (λ n. n ≡ min (min (length bytes.now) self.old.room) self.old.step) }
        ensures some { 0 < length bytes.now → IfOk result (λ n. 0 < n) }
        ensures appended { IfOk result (λ n. self.new.taken ≡ self.old.taken ++ take n bytes.now) }
        ensures room { IfOk result (λ n. self.old.room ≡ self.new.room + n) }
        ensures kept { OnErr result (self.new.taken ≡ self.old.taken) }
        ensures room_kept { OnErr result (self.new.room ≡ self.old.room) }
        ensures faults { self.new.faults ≡
            (if is_err result then counted self.old.faults else self.old.faults) }
        ensures later { self.old.faults ≤ self.new.faults }
        ensures calls { self.new.calls ≡ one_more self.old.calls }
        ensures step { self.new.step ≡ self.old.step }
    {
        if self.calls.next() || self.room == 0 {
            self.faults = self.faults.saturating_add(1);
            return Err(WriteFault);
        }
        let count = bytes.len().min(self.room as usize).min(self.step as usize);
        // The room was taken at the start, so this finds its place.
        let _ = self.bytes.extend_from_slice(&bytes[..count]);
        self.room -= count as u32;
        Ok(count)
    }
}
