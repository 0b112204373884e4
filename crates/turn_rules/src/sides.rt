//! The sides of a tile in a state: how many there are, which one comes next, and what each is in the tree.
ghost use Rattle.std.specs.Prelude.{◌≡◌, ◌<◌, ◌≤◌, ◌+◌, ◌%◌, true, false, length};
ghost use Rattle.tree_model.specs.Automata.{next, previous, rule_at, side_count as count_of};
ghost use Rattle.spot_laws.specs.Spots.{BracketsAreFew};

use rules_data::{left_side, right_side};
use structure_check::Rules;
use tree_model::Rule;

/// The number of sides of a tile in a state of the rules.
#[tactic(auto, unfolding(tree_model::specs::Automata::side_count))]
fn side_count(r: &Rules, state: u32) -> u8
    requires { state < length r.now.automaton.states }
    ensures value { result ≡ count_of r.now.kinds r.now.automaton state }
    ensures at_least { 3 ≤ result }
    ensures at_most { result ≤ 64 }
{
    r.automaton().state(state).rules.len() as u8
}

/// The rule of a side of a tile in a state of the rules.
pub fn rule(r: &Rules, state: u32, side: u8) -> Rule
    requires state { state < length r.now.automaton.states }
    requires side { side < count_of r.now.kinds r.now.automaton state }
    ensures { result ≡ rule_at r.now.automaton state side }
{
    r.automaton().rule(state, side)
}

/// The side to the left of a side of a tile in a state of the rules.
pub fn next_left(r: &Rules, state: u32, side: u8) -> u8
    requires state { state < length r.now.automaton.states }
    requires side { side < count_of r.now.kinds r.now.automaton state }
    ensures { result ≡ next (count_of r.now.kinds r.now.automaton state) side }
{
    left_side(side_count(r, state), side)
}

/// The side to the right of a side of a tile in a state of the rules.
pub fn next_right(r: &Rules, state: u32, side: u8) -> u8
    requires state { state < length r.now.automaton.states }
    requires side { side < count_of r.now.kinds r.now.automaton state }
    ensures { result ≡ previous (count_of r.now.kinds r.now.automaton state) side }
{
    right_side(side_count(r, state), side)
}

/// The side that lies `count` sides to the left of a side of a tile in a state of the rules.
pub fn left_by(r: &Rules, state: u32, side: u8, count: u8) -> u8
    requires state { state < length r.now.automaton.states }
    requires side { side < count_of r.now.kinds r.now.automaton state }
    ensures { result ≡ (side + count) % count_of r.now.kinds r.now.automaton state }
{
    let sides = side_count(r, state) as u16;
    let mut there = side as u16 + count as u16;
    while there >= sides {
        there -= sides;
    }
    there as u8
}

/// The side that lies `count` sides to the right of a side of a tile in a state of the rules: the one from which
/// `count` sides to the left lead back.
pub fn right_by(r: &Rules, state: u32, side: u8, count: u8) -> u8
    requires state { state < length r.now.automaton.states }
    requires side { side < count_of r.now.kinds r.now.automaton state }
    ensures below { result < count_of r.now.kinds r.now.automaton state }
    ensures back { (result + count) % count_of r.now.kinds r.now.automaton state ≡ side }
{
    let sides = side_count(r, state) as u16;
    let mut there = side as u16;
    while there < count as u16 {
        there += sides;
    }
    (there - count as u16) as u8
}

/// A counter of open brackets below 2^127 is enough for the walk along the contour, leftwards or
/// rightwards.
/// The call does nothing but read the rules, which tell this.
pub fn brackets_fit(r: &Rules, leftwards: bool)
    ensures { BracketsAreFew r.now leftwards }
{
    let _automaton = r.automaton();
}
