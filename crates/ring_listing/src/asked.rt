//! The list of a ring that is asked for, where it has few enough names.
ghost use Rattle.std.specs.Prelude.{◌≡◌, ℕ, ◌<◌, ◌≤◌, ◌⊎◌, ◌↔◌, length, IfOk, IsErrOf, MatchResult};
ghost use Rattle.tree_model.specs.Limits.{deepest, most_listed};
ghost use Rattle.tree_model.specs.Names.{IsRing};
ghost use Rattle.ring_listing.specs.Rings.{RingsAreCounted, IsFirstTooBigRing};

use crate::fault::RingFault;
use crate::listing::Ring;
use crate::sizes::count;
use std::alloc::Global;
use structure_check::Rules;

/// The most names that are listed.
const MOST_LISTED: u128 = 100_000;

/// All names of ring `d` of a kind, which is one of the tessellation.
///
/// # Errors
///
/// `Far` exactly where `d` is over 4,000. Else `TooBig` with the first ring up to `d` that has more than
/// 2^128 - 1 names, exactly where there is one. Else `TooMany` with the number of names, exactly where
/// it is over 100,000. All but `Far` may give way to `Memory`.
pub fn ring(alloc: Global, r: &Rules, kind: u8, d: u32) -> Result<Ring<'_>, RingFault>
    requires { kind < length r.now.kinds }
    ensures names { IfOk result (λ ring. IsRing r.now.kinds r.now.automaton kind d ring.rest) }
    ensures rules { IfOk result (λ ring. ring.rules ≡ r.now) }
    ensures kind { IfOk result (λ ring. ring.kind ≡ kind) }
    ensures sides { IfOk result (λ ring. ring.sides ≡ d) }
    ensures few { IfOk result (λ ring. length ring.rest ≤ most_listed) }
    ensures counted { IfOk result (λ ring.
        RingsAreCounted r.now.kinds r.now.automaton kind d (length ring.rest)) }
    ensures far { IsErrOf result RingFault.Far ↔ (deepest < d) }
    ensures too_big { (q : ℕ) → IsErrOf result (RingFault.TooBig q)
        → IsFirstTooBigRing r.now.kinds r.now.automaton kind d q }
    ensures big { (q : ℕ) → d ≤ deepest
        → IsFirstTooBigRing r.now.kinds r.now.automaton kind d q
        → IsErrOf result (RingFault.TooBig q) ⊎ IsErrOf result RingFault.Memory }
    ensures too_many { (n : ℕ) → IsErrOf result (RingFault.TooMany n)
        → RingsAreCounted r.now.kinds r.now.automaton kind d n × (most_listed < n) }
    ensures many { (n : ℕ) → d ≤ deepest
        → RingsAreCounted r.now.kinds r.now.automaton kind d n → most_listed < n
        → IsErrOf result (RingFault.TooMany n) ⊎ IsErrOf result RingFault.Memory }
    ensures listed { (n : ℕ) → d ≤ deepest
        → RingsAreCounted r.now.kinds r.now.automaton kind d n → n ≤ most_listed
        → MatchResult result (λ _. Unit {0}) (λ fault. fault ≡ RingFault.Memory) }
{
    let names = count(alloc, r, kind, d)?;
    if names > MOST_LISTED {
        return Err(RingFault::TooMany(names));
    }
    Ok(Ring::of(alloc, r, kind, d)?)
}
