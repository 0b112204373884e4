//! `Learner`: the teacher that calls `learn`.
ghost use Rattle.std.specs.Prelude.{◌≡◌, IfOk, None};
ghost use Rattle.state_learner.specs.GiveUps.{GiveUp, GiveUps};

use crate::fault::LearnFault;
use crate::learning::learn;
use crate::teacher::Teacher;
use std::alloc::{AllocError, Global};
use std::marker::Model;
use structure_check::Rules;
use tile_kinds::Tessellation;

/// A call that gave up: a copy of the tessellation that was handed in, and the budget.
#[derive(Debug, Drop)]
struct LastGiveUp {
    tessellation: Tessellation,
    budget: u32,
}

impl Model for LastGiveUp {
    ghost use Rattle.state_learner.specs.GiveUps.{GiveUp};

    ghost Value = { GiveUp };

    ghost view = { λ x. record { kinds = x.tessellation; budget = x.budget } };
}

impl LastGiveUp {
    // A call for a tessellation with a budget.
    fn of(alloc: Global, t: &Tessellation, budget: u32) -> Result<LastGiveUp, AllocError>
        ensures { IfOk result (λ x. x ≡ record { kinds = t.now; budget = budget }) }
    {
        Ok(LastGiveUp {
            tessellation: t.copy(alloc)?,
            budget,
        })
    }
}

/// Calls `learn`, counts the calls in which it gave up, and keeps of the last one a copy of the
/// tessellation and the budget. Where it gave up and there is no memory for the copy, the answer is
/// `Memory` and nothing is counted.
#[derive(Debug, Drop)]
pub struct Learner {
    give_ups: u64,
    last: Option<LastGiveUp>,
}

impl Model for Learner {
    ghost use Rattle.state_learner.specs.GiveUps.{GiveUps};

    ghost Value = { GiveUps };

    ghost view = { λ l. record { count = l.give_ups; last = l.last } };
}

impl Learner {
    /// A learner that has not given up yet. Takes no memory.
    pub fn new(_alloc: Global) -> Learner
        ensures { result ≡ record { count = 0; last = None } }
    {
        Learner {
            give_ups: 0,
            last: None,
        }
    }

    /// How many calls gave up.
    pub fn give_ups(&self) -> u64
        ensures { result ≡ self.now.count }
    {
        self.give_ups
    }
}

impl Teacher for Learner {
    ghost give_ups = { λ l. l.count };

    ghost last = { λ l. l.last };

    fn teach<'t>(
        &mut self,
        alloc: Global,
        t: &'t Tessellation,
        budget: u32,
    ) -> Result<Rules, LearnFault<'t>> {
        match learn(alloc, t, budget) {
            Err(LearnFault::GaveUp(regions)) => {
                self.last = Some(LastGiveUp::of(alloc, t, budget)?);
                self.give_ups = self.give_ups.saturating_add(1);
                Err(LearnFault::GaveUp(regions))
            }
            answer => answer,
        }
    }
}
