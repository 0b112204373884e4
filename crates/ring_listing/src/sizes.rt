//! The sizes of rings.
ghost use Rattle.std.specs.Prelude.{◌≡◌, ℕ, ◌<◌, ◌≤◌, ◌⊎◌, ◌↔◌, length, IfOk, IsErrOf, MatchResult};
ghost use Rattle.tree_model.specs.Limits.{deepest};
ghost use Rattle.ring_listing.specs.Rings.{RingsAreCounted, IsFirstTooBigRing};

use crate::fault::CountFault;
use crate::tally::Tally;
use std::alloc::Global;
use std::marker::Model;
use structure_check::Rules;
use tree_model::DEEPEST;

/// The sizes of the rings of the tree of a kind. They are counted from ring 0 on, as far as they were
/// asked for, and kept: at most 4,001 sizes, and for each state of the rules its children and how many
/// tiles of the last ring are in it. It borrows the rules.
#[derive(Debug, Drop)]
pub struct RingSizes<'r> {
    tally: Tally<'r>,
}

impl<'r> Model for RingSizes<'r> {
    ghost use Rattle.ring_listing.specs.Rings.{KindTree};

    ghost Value = { KindTree };

    ghost use Rattle.ring_listing.specs.Tallies.{IsTally};

    ghost view = { λ s. record { rules = s.tally.rules.now; kind = s.tally.kind } };

    ghost invariant = { λ s. IsTally s.tally };
}

impl<'r> RingSizes<'r> {
    /// The sizes of the rings of a kind, which is one of the tessellation. Nothing is counted yet, and no
    /// memory is taken.
    pub fn new(alloc: Global, r: &'r Rules, kind: u8) -> RingSizes<'r>
        requires { kind < length r.now.kinds }
        ensures rules { result.rules ≡ r.now }
        ensures kind { result.kind ≡ kind }
    {
        RingSizes {
            tally: Tally::empty(alloc, r, kind),
        }
    }

    /// The number of tiles of ring `d`: those that are `d` crossings from the root. Counts on from the
    /// last ring that was counted before.
    ///
    /// # Errors
    ///
    /// `Far` exactly where `d` is over 4,000. Else `TooBig` with the first ring up to `d` that has more
    /// than 2^128 - 1 tiles, exactly where there is one, unless memory runs out. After `Memory` a later
    /// call may go on.
    pub fn count(&mut self, d: u32) -> Result<u128, CountFault>
        ensures unchanged { self.new ≡ self.old }

        // What is told is the size, and it is told where all rings up to this one can be counted.
        ensures counted { IfOk result (λ n.
            RingsAreCounted self.old.rules.kinds self.old.rules.automaton self.old.kind d n) }
        ensures near { IfOk result (λ _. d ≤ deepest) }
        ensures told { (n : ℕ) → d ≤ deepest
            → RingsAreCounted self.old.rules.kinds self.old.rules.automaton self.old.kind d n
            → MatchResult result (λ m. m ≡ n) (λ fault. fault ≡ CountFault.Memory) }

        // Far and TooBig come for these reasons alone, and come then.
        ensures far { IsErrOf result CountFault.Far ↔ (deepest < d) }
        ensures too_big { (r : ℕ) → IsErrOf result (CountFault.TooBig r)
            → IsFirstTooBigRing self.old.rules.kinds self.old.rules.automaton self.old.kind d r }
        ensures big { (r : ℕ) → d ≤ deepest
            → IsFirstTooBigRing self.old.rules.kinds self.old.rules.automaton self.old.kind d r
            → IsErrOf result (CountFault.TooBig r) ⊎ IsErrOf result CountFault.Memory }
    {
        if d > DEEPEST {
            return Err(CountFault::Far);
        }
        self.tally.count_to(d)?;
        self.tally.size(d)
    }
}

/// The number of tiles of ring `d` in the tree of a kind, which is one of the tessellation: those that
/// are `d` crossings from the root.
///
/// # Errors
///
/// `Far` exactly where `d` is over 4,000. Else `TooBig` with the first ring up to `d` that has more than
/// 2^128 - 1 tiles, exactly where there is one, unless memory runs out.
pub fn count(alloc: Global, r: &Rules, kind: u8, d: u32) -> Result<u128, CountFault>
    requires { kind < length r.now.kinds }
    ensures counted { IfOk result (λ n. RingsAreCounted r.now.kinds r.now.automaton kind d n) }
    ensures near { IfOk result (λ _. d ≤ deepest) }
    ensures told { (n : ℕ) → d ≤ deepest
        → RingsAreCounted r.now.kinds r.now.automaton kind d n
        → MatchResult result (λ m. m ≡ n) (λ fault. fault ≡ CountFault.Memory) }
    ensures far { IsErrOf result CountFault.Far ↔ (deepest < d) }
    ensures too_big { (q : ℕ) → IsErrOf result (CountFault.TooBig q)
        → IsFirstTooBigRing r.now.kinds r.now.automaton kind d q }
    ensures big { (q : ℕ) → d ≤ deepest
        → IsFirstTooBigRing r.now.kinds r.now.automaton kind d q
        → IsErrOf result (CountFault.TooBig q) ⊎ IsErrOf result CountFault.Memory }
{
    RingSizes::new(alloc, r, kind).count(d)
}
