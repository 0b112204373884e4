// The conditions on the sides and claims of states, which make the tables describe one tree in the
// tessellation.
ghost use Rattle.std.specs.Prelude.{◌≡◌, ◌<◌, ◌↔◌, ℕ, suc, length, IsTrue, IfNone, IfSome, OnOk, IfErr};
ghost use Rattle.tree_model.specs.declared.Claim.{Claim};
ghost use Rattle.tree_model.specs.Automata.{side_count, claim_at, corner_valence, previous, further};
ghost use Rattle.tree_model.specs.Conditions.{IsClosedTable, AtEverySide, HasParentRule, HasChildType, HasClaimValence, HasFirstPlace, HasLastPlace, HasOuterBefore, HasOuterBehind, HasChildClaims, KeepsClaims};
ghost use Rattle.structure_check.specs.Broken.{IsFirstBroken};
ghost use Rattle.structure_check.specs.Search.{HoldBelow, IsSideReady, SideHolds, SidesBelow, side_number};

use crate::broken::Broken;
use crate::reading::{claim_before, is_deeper, side_behind, sides_of, type_of};
use crate::roots::{is_root, is_root_of_its_kind};
use rules_data::{Automaton, Claim, Rule};
use tile_kinds::Tessellation;

/// A condition that is read at each side or claim of each state.
#[derive(Clone, Copy, Debug, PartialEq, Eq)]
pub enum SideCondition {
    Parents,
    ChildTypes,
    Valences,
    FirstPlaces,
    LastPlaces,
    OutersBefore,
    OutersBehind,
    ChildClaims,
}

/// The number of the condition.
fn number(condition: SideCondition) -> u8
    ensures { result ≡ side_number condition }
{
    match condition {
        SideCondition::Parents => 2,
        SideCondition::ChildTypes => 3,
        SideCondition::Valences => 4,
        SideCondition::FirstPlaces => 5,
        SideCondition::LastPlaces => 6,
        SideCondition::OutersBefore => 7,
        SideCondition::OutersBehind => 8,
        SideCondition::ChildClaims => 9,
    }
}

/// Whether a claim is another one with 1 added to its place.
fn is_further(claim: Claim, before: Claim) -> bool
    ensures { IsTrue result ↔ (claim ≡ further before) }
{
    claim.corner == before.corner && claim.place as u16 == before.place as u16 + 1
}

/// Whether side 0 is Parent in a state that is no root and no other side is, no child is a root,
/// and roots fit their kinds.
fn has_parent_rule(tess: &Tessellation, a: &Automaton, s: u32, i: u8) -> bool
    requires closed { IsClosedTable tess.now a.now }
    requires state { s < length a.now.states }
    requires side { i < side_count tess.now a.now s }
    ensures { IsTrue result ↔ HasParentRule tess.now a.now s i }
{
    let rule = a.rule(s, i);
    let child_fits = match rule {
        Rule::Child(c) => !is_root(a, c),
        _ => true,
    };
    child_fits
        && (rule == Rule::Parent) == (i == 0 && !is_root(a, s))
        && (i != 0 || is_root_of_its_kind(tess, a, s))
}

/// Whether the side across a Child side is side 0 of the child.
fn has_child_type(tess: &Tessellation, a: &Automaton, s: u32, i: u8) -> bool
    requires closed { IsClosedTable tess.now a.now }
    requires state { s < length a.now.states }
    requires side { i < side_count tess.now a.now s }
    ensures { IsTrue result ↔ HasChildType tess.now a.now s i }
{
    let Rule::Child(c) = a.rule(s, i) else {
        return true;
    };
    let child = a.state(c);
    let across = tess.cross(type_of(tess, a, s, i));
    across.kind == child.kind && across.residue == child.off
}

/// Whether the claim's corner type has the valence of the corner.
fn has_claim_valence(tess: &Tessellation, a: &Automaton, s: u32, i: u8) -> bool
    requires closed { IsClosedTable tess.now a.now }
    requires state { s < length a.now.states }
    requires side { i < side_count tess.now a.now s }
    ensures { IsTrue result ↔ HasClaimValence tess.now a.now s i }
{
    a.valence(a.claim(s, i).corner) == tess.valence(type_of(tess, a, s, i)) as usize
}

/// Whether the claim's place is 0 exactly where the side is Left.
fn has_first_place(tess: &Tessellation, a: &Automaton, s: u32, i: u8) -> bool
    requires closed { IsClosedTable tess.now a.now }
    requires state { s < length a.now.states }
    requires side { i < side_count tess.now a.now s }
    ensures { IsTrue result ↔ HasFirstPlace a.now s i }
{
    (a.claim(s, i).place == 0) == (a.rule(s, i) == Rule::Left)
}

/// Whether the claim's place is the last one exactly where the next side is Right.
fn has_last_place(tess: &Tessellation, a: &Automaton, s: u32, i: u8) -> bool
    requires closed { IsClosedTable tess.now a.now }
    requires state { s < length a.now.states }
    requires side { i < side_count tess.now a.now s }
    ensures { IsTrue result ↔ HasLastPlace tess.now a.now s i }
{
    let claim = a.claim(s, i);
    let is_last = claim.place as usize + 1 == a.valence(claim.corner);
    is_last == (a.rule(s, side_behind(tess, a, s, i)) == Rule::Right)
}

/// Whether the claim before a Left side is the outer of the side's corner.
fn has_outer_before(tess: &Tessellation, a: &Automaton, s: u32, i: u8) -> bool
    requires closed { IsClosedTable tess.now a.now }
    requires state { s < length a.now.states }
    requires side { i < side_count tess.now a.now s }
    ensures { IsTrue result ↔ HasOuterBefore tess.now a.now s i }
{
    a.rule(s, i) != Rule::Left || claim_before(tess, a, s, i) == a.outer(a.claim(s, i).corner)
}

/// Whether the claim of a Right side is the outer of the corner before the side, one place further.
fn has_outer_behind(tess: &Tessellation, a: &Automaton, s: u32, i: u8) -> bool
    requires closed { IsClosedTable tess.now a.now }
    requires state { s < length a.now.states }
    requires side { i < side_count tess.now a.now s }
    ensures { IsTrue result ↔ HasOuterBehind tess.now a.now s i }
{
    a.rule(s, i) != Rule::Right
        || is_further(a.claim(s, i), a.outer(claim_before(tess, a, s, i).corner))
}

/// Whether child `c` across side `i` has the claims at both ends of the side, each seen from its
/// own place, which lies one level deeper.
fn has_child_claims(tess: &Tessellation, a: &Automaton, s: u32, i: u8, c: u32) -> bool
    requires closed { IsClosedTable tess.now a.now }
    requires state { s < length a.now.states }
    requires side { i < side_count tess.now a.now s }
    requires child { c < length a.now.states }
    requires right_inner { suc (claim_at a.now s (previous (side_count tess.now a.now s) i)).place
        < corner_valence a.now
        (claim_at a.now s (previous (side_count tess.now a.now s) i)).corner }
    requires left_inner { 0 < (claim_at a.now s i).place }
    ensures { IsTrue result ↔ HasChildClaims tess.now a.now s i c }
{
    let sides = sides_of(tess, a, c);
    let first = a.claim(c, 0);
    let last = a.claim(c, sides - 1);
    let right = claim_before(tess, a, s, i);
    let left = a.claim(s, i);
    is_further(first, right)
        && is_deeper(a, right.corner, right.place + 1, right.place)
        && is_further(left, last)
        && is_deeper(a, left.corner, left.place - 1, left.place)
}

/// Whether the child across a Child side, if it is one, has the claims at both ends of the side.
fn keeps_claims(tess: &Tessellation, a: &Automaton, s: u32, i: u8) -> bool
    requires closed { IsClosedTable tess.now a.now }
    requires first_places { AtEverySide tess.now a.now (HasFirstPlace a.now) }
    requires last_places { AtEverySide tess.now a.now (HasLastPlace tess.now a.now) }
    requires state { s < length a.now.states }
    requires side { i < side_count tess.now a.now s }
    ensures { IsTrue result ↔ KeepsClaims tess.now a.now s i }
{
    match a.rule(s, i) {
        Rule::Child(c) => has_child_claims(tess, a, s, i, c),
        _ => true,
    }
}

/// Whether the condition holds at side or claim `i` of state `s`.
fn holds(condition: SideCondition, tess: &Tessellation, a: &Automaton, s: u32, i: u8) -> bool
    requires closed { IsClosedTable tess.now a.now }
    requires ready { IsSideReady condition tess.now a.now }
    requires state { s < length a.now.states }
    requires side { i < side_count tess.now a.now s }
    ensures { IsTrue result ↔ SideHolds condition tess.now a.now s i }
{
    match condition {
        SideCondition::Parents => has_parent_rule(tess, a, s, i),
        SideCondition::ChildTypes => has_child_type(tess, a, s, i),
        SideCondition::Valences => has_claim_valence(tess, a, s, i),
        SideCondition::FirstPlaces => has_first_place(tess, a, s, i),
        SideCondition::LastPlaces => has_last_place(tess, a, s, i),
        SideCondition::OutersBefore => has_outer_before(tess, a, s, i),
        SideCondition::OutersBehind => has_outer_behind(tess, a, s, i),
        SideCondition::ChildClaims => keeps_claims(tess, a, s, i),
    }
}

/// The least side or claim of state `s` at which the condition fails.
fn failing_side(condition: SideCondition, tess: &Tessellation, a: &Automaton, s: u32) -> Option<u8>
    requires closed { IsClosedTable tess.now a.now }
    requires ready { IsSideReady condition tess.now a.now }
    requires state { s < length a.now.states }
    ensures none { IfNone result
        (SidesBelow condition tess.now a.now s (side_count tess.now a.now s)) }
    ensures side { IfSome result (λ i. i < side_count tess.now a.now s) }
    ensures fails { IfSome result (λ i. ¬ (SideHolds condition tess.now a.now s i)) }
    ensures before { IfSome result (λ i. SidesBelow condition tess.now a.now s i) }
{
    for i in 0..sides_of(tess, a, s) {
        if !holds(condition, tess, a, s, i) {
            return Some(i);
        }
    }
    None
}

/// Looks for the least state, and in it for the least side or claim, at which the condition fails.
pub fn check_sides(
    condition: SideCondition,
    tess: &Tessellation,
    a: &Automaton,
) -> Result<(), Broken>
    requires { HoldBelow tess.now a.now (side_number condition) }
    ensures ok { OnOk result (HoldBelow tess.now a.now (suc (side_number condition))) }
    ensures err { IfErr result (λ b. IsFirstBroken tess.now a.now b.condition b.first b.second) }
{
    for s in 0..a.states.len() as u32 {
        if let Some(i) = failing_side(condition, tess, a, s) {
            return Err(Broken {
                condition: number(condition),
                first: s,
                second: i,
            });
        }
    }
    Ok(())
}
