//! The least corner type on a cycle of outer links that does not fall.
//!
//! A walk starts at each corner type in turn and follows outer links. It stamps the corner types
//! that it passes with its number, and ends at the first one that has a stamp. Where that is its own
//! stamp, it has gone into a cycle that no earlier walk met, and goes round it to sum the entered
//! offsets. So each link is followed twice at most, wherever the links lead, and the stamps are in
//! an array of fixed length.
ghost use Rattle.std.specs.Prelude.{◌≡◌, ◌≢◌, ◌<◌, ◌≤◌, ◌-◌, ℕ, true, false, suc, ◌+◌, List, length, IfSome, IfNone, pos, ◌+ℤ◌, ◌-ℤ◌, ◌≤ℤ◌, ◌<ℤ◌};
ghost use Rattle.tree_model.specs.Automata.{outer, offset, corner_valence};
ghost use Rattle.tree_model.specs.OuterLinks.{entered, led};
ghost use Rattle.tree_model.specs.Conditions.{HasFallingCycles};
ghost use Rattle.structure_check.specs.Cycles.{stamp_at, HaveOuters, HasPassed, IsSettled, AreJudged};

use rules_data::Automaton;

/// The most corner types.
const MOST: usize = 20_000;

/// The number of corner types.
fn count(a: &Automaton) -> u32
    requires { HaveOuters a.now }
    ensures { result ≡ length a.now.corners }
{
    a.corners.len() as u32
}

/// The offset at which the outer corner type of `g` is entered.
fn entered(a: &Automaton, g: u32) -> i8
    requires outers { HaveOuters a.now }
    requires corner { g < length a.now.corners }
    ensures { result ≡ entered a.now g }
{
    let outer = a.outer(g);
    a.offset(outer.corner, outer.place)
}

/// A sum with the offset at which the outer corner type of `g` is entered.
fn entering(a: &Automaton, g: u32, sum: i64) -> i64
    requires outers { HaveOuters a.now }
    requires corner { g < length a.now.corners }
    requires least { (pos 0 -ℤ pos 2000000) ≤ℤ (sum +ℤ entered a.now g) }
    requires most { (sum +ℤ entered a.now g) ≤ℤ pos 2000000 }
    ensures { result ≡ sum +ℤ entered a.now g }
{
    sum + i64::from(entered(a, g))
}

/// The walk from `g`, whose number is `stamp`: stamps the corner types to which outer links lead
/// from `g`, up to the first that has a stamp. Answers that one and the number of links to it.
fn pass(a: &Automaton, seen: &mut [u16], g: u32, stamp: u16) -> (u32, u32)
    requires outers { HaveOuters a.now }
    requires corner { g < length a.now.corners }
    requires long { length seen.old ≡ 20000 }
    requires stamp { stamp ≢ 0 }
    ensures { HasPassed a.now g stamp seen.old seen.new result.0 result.1 }
{
    let mut x = g;
    let mut links = 0;
    while seen[x as usize] == 0 {
        seen[x as usize] = stamp;
        x = a.outer(x).corner;
        links += 1;
    }
    (x, links)
}

/// Whether a sum is below 0.
fn falls(sum: i64) -> bool
    ensures falls { result ≡ true → sum <ℤ pos 0 }
    ensures stays { result ≡ false → pos 0 ≤ℤ sum }
{
    sum < 0
}

/// Goes once round the cycle of `x`, to which so many links lead back at most. Answers whether the
/// offsets entered sum below 0, and the least corner type on the cycle.
fn round(a: &Automaton, x: u32, links: u32) -> (bool, u32)
    requires outers { HaveOuters a.now }
    requires corner { x < length a.now.corners }
    requires few { links ≤ 20000 }
    requires back { (n : ℕ) × (n < links) × (led a.now (suc n) x ≡ x) }
    ensures { IsSettled a.now x result.0 result.1 }
{
    let mut y = a.outer(x).corner;
    let mut sum = i64::from(entered(a, x));
    let mut least = x;
    for link in 0..links {
        if y == x {
            break;
        }
        sum = entering(a, y, sum);
        least = least.min(y);
        y = a.outer(y).corner;
    }
    (falls(sum), least)
}

/// Judges the corner types to which outer links lead from `g`, by the walk from `g`. Answers the
/// least corner type found so far on a cycle that does not fall, which is `least` before.
fn judge(a: &Automaton, seen: &mut [u16], g: u32, least: u32) -> u32
    requires outers { HaveOuters a.now }
    requires corner { g < length a.now.corners }
    requires long { length seen.old ≡ 20000 }
    requires stamps { (y : ℕ) → stamp_at seen.old y ≤ g }
    requires judged { AreJudged a.now seen.old least }
    ensures long { length seen.new ≡ 20000 }
    ensures stamps { (y : ℕ) → stamp_at seen.new y ≤ suc g }
    ensures kept { (y : ℕ) → stamp_at seen.old y ≢ 0 → stamp_at seen.new y ≢ 0 }
    ensures passed { stamp_at seen.new g ≢ 0 }
    ensures judged { AreJudged a.now seen.new result }
{
    let stamp = g as u16 + 1;
    let (x, links) = pass(a, seen, g, stamp);
    if seen[x as usize] != stamp {
        return least;
    }
    let (falling, low) = round(a, x, links);
    if falling { least } else { least.min(low) }
}

/// The least corner type that lies on a cycle of outer links along which the entered offsets do not
/// sum below 0. Takes no memory.
pub fn least_not_falling(a: &Automaton) -> Option<u32>
    requires { HaveOuters a.now }
    ensures none { IfNone result ((g : ℕ) → g < length a.now.corners → HasFallingCycles a.now g) }
    ensures some { IfSome result (λ g. (g < length a.now.corners) × (¬ (HasFallingCycles a.now g))
        × ((h : ℕ) → h < g → HasFallingCycles a.now h)) }
{
    let corners = count(a);
    let mut seen = [0u16; MOST];
    let mut least = corners;
    for g in 0..corners {
        least = judge(a, &mut seen, g, least);
    }
    if least < corners { Some(least) } else { None }
}
