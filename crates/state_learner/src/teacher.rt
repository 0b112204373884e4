//! `Teacher`: what learns rules, and tells when it gave up.
ghost use Rattle.std.specs.Prelude.{◌≡◌, ◌≤◌, ◌↔◌, ℕ, Option, Some, false, IfOk, IfErr, IsErrOf, IsTrue};
ghost use Rattle.way_io.specs.Counts.{Rose};
ghost use Rattle.regular_maker.specs.Regular.{IsRegular, IsInfinite, p_of, q_of};
ghost use Rattle.state_learner.specs.Learning.{AreLearnt, IsFault, IsSphere};
ghost use Rattle.state_learner.specs.GiveUps.{GiveUp, gave_up};

use crate::fault::LearnFault;
use std::alloc::Global;
use structure_check::Rules;
use tile_kinds::Tessellation;

/// What learns rules, and counts the calls in which it gave up.
pub trait Teacher {
    /// How many calls gave up. It never falls, and stands still at the last value of its type.
    ghost give_ups: { Self → ℕ };

    /// The last call that gave up, where there is one.
    ghost last: { Self → Option GiveUp };

    /// Rules for a tessellation, with a budget of 1 to 1,000,000 cells. What holds of the answers
    /// of `learn` holds of its answers.
    ///
    /// # Errors
    ///
    /// As `learn`. `GaveUp` only where the count of give-ups rose in this call, and then the last
    /// of them is of this tessellation with this budget; after any other answer both are as before.
    fn teach<'t>(
        &mut self,
        alloc: Global,
        t: &'t Tessellation,
        budget: u32,
    ) -> Result<Rules, LearnFault<'t>>
        requires at_least { 1 ≤ budget }
        requires at_most { budget ≤ 1000000 }
        ensures rules { IfOk result (AreLearnt t.now) }
        ensures fault { IfErr result (IsFault t.now budget) }
        ensures complete { IsRegular t.now → IsInfinite (p_of t.now) (q_of t.now)
            → IfErr result (λ fault. fault ≡ LearnFault.Memory) }
        ensures spherical { (p q : ℕ) → IsErrOf result (LearnFault.Spherical p q)
            ↔ IsSphere t.now p q }
        ensures later { give_ups self.old ≤ give_ups self.new }
        ensures counted { IsTrue (gave_up result)
            → Rose (give_ups self.old) (give_ups self.new) }
        ensures last { IsTrue (gave_up result)
            → last self.new ≡ Some (record { kinds = t.now; budget = budget }) }
        ensures same_count { gave_up result ≡ false → give_ups self.new ≡ give_ups self.old }
        ensures same_last { gave_up result ≡ false → last self.new ≡ last self.old };
}
