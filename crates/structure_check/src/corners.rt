// The conditions on corner types, which make the crossing by brackets end.
ghost use Rattle.std.specs.Prelude.{◌≡◌, ◌-◌, ◌<◌, ◌≤◌, ◌-ℤ◌, ◌↔◌, ℕ, suc, List, length, IsTrue, OnOk, IfErr};
ghost use Rattle.tile_model.specs.Tessellations.{TileKind};
ghost use Rattle.tree_model.specs.Automata.{offset, corner_valence};
ghost use Rattle.tree_model.specs.Conditions.{HasOneChange, HasSmallChange};
ghost use Rattle.structure_check.specs.Broken.{IsFirstBroken};
ghost use Rattle.structure_check.specs.Search.{HoldBelow, HasCorners, CornerHolds, corner_number};

use crate::broken::Broken;
use crate::cycles::least_not_falling;
use rules_data::Automaton;

/// A condition that is read at each corner type.
#[derive(Clone, Copy, Debug, PartialEq, Eq)]
pub enum CornerCondition {
    OneChange,
    SmallChange,
}

/// The number of the condition.
fn number(condition: CornerCondition) -> u8
    ensures { result ≡ corner_number condition }
{
    match condition {
        CornerCondition::OneChange => 10,
        CornerCondition::SmallChange => 11,
    }
}

/// The depth of the tile at the last place less that of the tile at place 0.
fn last_offset(a: &Automaton, g: u32) -> i8
    requires corners { HasCorners a.now }
    requires corner { g < length a.now.corners }
    ensures { result ≡ offset a.now g (corner_valence a.now g - 1) }
{
    a.offset(g, (a.valence(g) - 1) as u8)
}

/// The depth of the tile at place `t` less that of the tile at place `u`, without loss.
fn difference(a: &Automaton, g: u32, t: u8, u: u8) -> i16
    requires corner { g < length a.now.corners }
    requires minuend { t < corner_valence a.now g }
    requires subtrahend { u < corner_valence a.now g }
    ensures { result ≡ offset a.now g t -ℤ offset a.now g u }
{
    a.offset(g, t) as i16 - a.offset(g, u) as i16
}

/// Whether the depth changes across the key edge by as much seen from the outer corner as seen from
/// the corner itself.
fn has_one_change(a: &Automaton, g: u32) -> bool
    requires corners { HasCorners a.now }
    requires corner { g < length a.now.corners }
    ensures { IsTrue result ↔ HasOneChange a.now g }
{
    let outer = a.outer(g);
    let last = (a.valence(g) - 1) as u8;
    difference(a, outer.corner, outer.place + 1, outer.place) == difference(a, g, last, 0)
}

/// Whether that change is -1, 0 or 1.
fn has_small_change(a: &Automaton, g: u32) -> bool
    requires corners { HasCorners a.now }
    requires corner { g < length a.now.corners }
    ensures { IsTrue result ↔ HasSmallChange a.now g }
{
    let change = last_offset(a, g);
    -1 <= change && change <= 1
}

/// Whether the condition holds of a corner type.
fn holds(condition: CornerCondition, a: &Automaton, g: u32) -> bool
    requires corners { HasCorners a.now }
    requires corner { g < length a.now.corners }
    ensures { IsTrue result ↔ CornerHolds condition a.now g }
{
    match condition {
        CornerCondition::OneChange => has_one_change(a, g),
        CornerCondition::SmallChange => has_small_change(a, g),
    }
}

/// Looks for the least corner type of which the condition fails.
pub fn check_corners(condition: CornerCondition, a: &Automaton) -> Result<(), Broken>
    requires { HasCorners a.now }
    ensures ok { OnOk result ((kinds : List TileKind)
        → HoldBelow kinds a.now (corner_number condition)
        → HoldBelow kinds a.now (suc (corner_number condition))) }
    ensures err { IfErr result
        (λ b. (kinds : List TileKind) → HoldBelow kinds a.now (corner_number condition)
        → IsFirstBroken kinds a.now b.condition b.first b.second) }
{
    for g in 0..a.corners.len() as u32 {
        if !holds(condition, a, g) {
            return Err(Broken {
                condition: number(condition),
                first: g,
                second: 0,
            });
        }
    }
    Ok(())
}

/// Looks for the least corner type that lies on a cycle of outer links along which the entered
/// offsets do not sum below 0, as condition 12 forbids. Takes no memory, and a constant number of
/// passes over the corner types.
pub fn check_cycles(a: &Automaton) -> Result<(), Broken>
    requires { HasCorners a.now }
    ensures ok { OnOk result ((kinds : List TileKind) → HoldBelow kinds a.now 12
        → HoldBelow kinds a.now 13) }
    ensures err { IfErr result (λ b. (kinds : List TileKind) → HoldBelow kinds a.now 12
        → IsFirstBroken kinds a.now b.condition b.first b.second) }
{
    match least_not_falling(a) {
        None => Ok(()),
        Some(first) => Err(Broken {
            condition: 12,
            first,
            second: 0,
        }),
    }
}
