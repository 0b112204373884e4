// A source of many copies of one byte.
ghost use Rattle.std.specs.Prelude.{◌≡◌, ◌++◌, true, length, min, take, replicate, IfOk, IsOk};
ghost use Rattle.way_io.specs.InMemory.{fill_left};

use crate::source::{ReadFault, Source};

/// So many copies of one byte. No read of it fails.
#[derive(Clone, Copy, Debug)]
pub struct FillSource {
    byte: u8,
    count: u64,
}

impl FillSource {
    /// A source that gives `count` copies of `byte`, and then its end.
    pub fn new(byte: u8, count: u64) -> FillSource
        ensures { fill_left result ≡ replicate count byte }
    {
        FillSource { byte, count }
    }
}

impl Source for FillSource {
    ghost tells = { true };

    ghost left = { fill_left };

    ghost faults = { λ _. 0 };

    fn read(&mut self, buf: &mut [u8]) -> Result<usize, ReadFault>
        ensures succeeds { IsOk result }
        ensures count { IfOk result (λ n. n ≡ min (length buf.new) (length (fill_left self.old))) }
        ensures next { IfOk result
            (λ n. fill_left self.old ≡ take n buf.new ++ fill_left self.new) }
    {
        let count = self.count.min(buf.len() as u64) as usize;
        buf[..count].fill(self.byte);
        self.count -= count as u64;
        Ok(count)
    }
}
