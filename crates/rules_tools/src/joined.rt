//! Sets of states that are joined two by two (union-find).
ghost use Rattle.std.specs.Prelude.{◌≡◌, ◌≢◌, ◌<◌, ◌≤◌, ◌+◌, ℕ, List, length, replicate, true, false, None, Some, IfOk};
ghost use Rattle.rules_tools.specs.declared.pairs.Pair.{Pair};
ghost use Rattle.rules_tools.specs.Pairs.{IsPair};
ghost use Rattle.rules_tools.specs.Joined.{Linked, link_at, AreLinks, AreFalling, set_count};

use std::alloc::{AllocError, Global};

/// So many states, each in a set of its own.
pub(crate) fn alone(alloc: Global, count: usize) -> Result<Vec<Option<u32>>, AllocError>
    ensures { IfOk result (λ v. v.items ≡ replicate count None) }
{
    vec![in alloc; None; count]
}

/// What a state is linked to directly.
fn link(above: &[Option<u32>], x: u32) -> Option<u32>
    ensures { result ≡ link_at above.now x }
{
    match above.get(x as usize) {
        Some(link) => *link,
        None => None,
    }
}

/// Links a state to what the state above it is linked to, where that is no root.
#[tactic(auto, using(crate::proofs::Joining::halved_links, crate::proofs::Joining::halved_falling, crate::proofs::Joining::halved_roots, crate::proofs::Joining::halved_count))]
fn halve(above: &mut Vec<Option<u32>>, x: u32, y: u32)
    requires link { link_at above.old.items x ≡ Some y }
    requires falling { AreFalling above.old.items }
    ensures long { length above.new.items ≡ length above.old.items }
    ensures falling { AreFalling above.new.items }
    ensures links { (q : List Pair) → AreLinks (IsPair q) above.old.items
        → AreLinks (IsPair q) above.new.items }
    ensures roots { (z : ℕ) → link_at above.old.items z ≡ None → link_at above.new.items z ≡ None }
    ensures count { set_count above.new.items ≡ set_count above.old.items }
    ensures below { y < x }
    ensures linked { (q : List Pair) → AreLinks (IsPair q) above.old.items → Linked (IsPair q) x y }
{
    if let Some(z) = link(above, y) {
        above[x as usize] = Some(z);
    }
}

/// The root of the set of a state.
pub(crate) fn root(above: &mut Vec<Option<u32>>, x: u32) -> u32
    requires falling { AreFalling above.old.items }
    ensures long { length above.new.items ≡ length above.old.items }
    ensures falling { AreFalling above.new.items }
    ensures links { (q : List Pair) → AreLinks (IsPair q) above.old.items
        → AreLinks (IsPair q) above.new.items }
    ensures linked { (q : List Pair) → AreLinks (IsPair q) above.old.items
        → Linked (IsPair q) x result }
    ensures roots { (z : ℕ) → link_at above.old.items z ≡ None → link_at above.new.items z ≡ None }
    ensures count { set_count above.new.items ≡ set_count above.old.items }
    ensures root { link_at above.new.items result ≡ None }
    ensures least { result ≤ x }
{
    let mut at = x;
    while let Some(y) = link(above, at) {
        halve(above, at, y);
        at = y;
    }
    at
}

/// Links the root of a set to a lesser state.
#[tactic(auto, using(crate::proofs::Joining::hung_links, crate::proofs::Joining::hung_falling, crate::proofs::Joining::hung_count))]
fn hang(above: &mut Vec<Option<u32>>, root: u32, lesser: u32)
    requires state { root < length above.old.items }
    requires root { link_at above.old.items root ≡ None }
    requires lesser { lesser < root }
    requires falling { AreFalling above.old.items }
    ensures long { length above.new.items ≡ length above.old.items }
    ensures falling { AreFalling above.new.items }
    ensures links { (q : List Pair) → AreLinks (IsPair q) above.old.items
        → Linked (IsPair q) root lesser
        → AreLinks (IsPair q) above.new.items }
    ensures count { set_count above.new.items + 1 ≡ set_count above.old.items }
{
    above[root as usize] = Some(lesser);
}

/// Makes one set of the sets of two states. Answers whether they were one.
pub(crate) fn join(above: &mut Vec<Option<u32>>, x: u32, y: u32) -> bool
    requires first { x < length above.old.items }
    requires second { y < length above.old.items }
    requires falling { AreFalling above.old.items }
    ensures long { length above.new.items ≡ length above.old.items }
    ensures falling { AreFalling above.new.items }
    ensures one { (q : List Pair) → AreLinks (IsPair q) above.old.items → result ≡ true
        → Linked (IsPair q) x y }
    ensures kept { (q : List Pair) → AreLinks (IsPair q) above.old.items → result ≡ true
        → AreLinks (IsPair q) above.new.items }
    ensures joined { (q : List Pair) → AreLinks (IsPair q) above.old.items
        → Linked (IsPair q) x y → AreLinks (IsPair q) above.new.items }
    ensures count { result ≡ false → set_count above.new.items + 1 ≡ set_count above.old.items }
    ensures same_count { result ≡ true → set_count above.new.items ≡ set_count above.old.items }
{
    let first = root(above, x);
    let second = root(above, y);
    if first == second {
        return true;
    }
    if first < second {
        hang(above, second, first);
    } else {
        hang(above, first, second);
    }
    false
}
