// The calls of an object in memory, of which those of certain numbers fail.
ghost use Rattle.std.specs.Prelude.{◌≡◌, IfOk};
ghost use Rattle.way_io.specs.Calls.{CallsMade, no_calls, one_more, next_fails};

use std::alloc::{AllocError, Global};
use std::marker::Model;

#[derive(Debug, Drop)]
pub(crate) struct Calls {
    made: u64,
    failing: Vec<u32>,
}

impl Model for Calls {
    ghost Value = { CallsMade };

    ghost view = { λ c. record { made = c.made; failing = c.failing.items } };
}

impl Calls {
    // No call was made yet.
    pub(crate) fn new(alloc: Global, failing: &[u32]) -> Result<Calls, AllocError>
        ensures { IfOk result (λ calls. calls ≡ no_calls failing.now) }
    {
        Ok(Calls {
            made: 0,
            failing: failing.to_vec(alloc)?,
        })
    }

    // Counts a call, and says whether it fails.
    pub(crate) fn next(&mut self) -> bool
        ensures fails { result ≡ next_fails self.old }
        ensures made { self.new ≡ one_more self.old }
    {
        self.made = self.made.saturating_add(1);
        self.failing
            .iter()
            .any(|number| u64::from(*number) == self.made)
    }
}
