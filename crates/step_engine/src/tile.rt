//! The state of a spot's tile, as one of the rules.
ghost use Rattle.std.specs.Prelude.{◌≡◌, ◌<◌, length};
ghost use Rattle.structure_check.specs.Rules.{AreSound};
ghost use Rattle.spot_laws.specs.Spots.{IsSpot, tile_state};

use structure_check::Rules;
use turn_rules::Spot;

/// The state of the tile, which is one of the rules.
pub(crate) fn tile(s: &Spot, r: &Rules) -> u32
    requires { IsSpot r.now s.now }
    ensures value { result ≡ tile_state r.now s.now }
    ensures known { result < length r.now.automaton.states }
    ensures sound { AreSound r.now }
{
    accepted(r);
    s.state()
}

/// The rules are accepted.
/// A body that reads nothing of them does not know this of its argument, so those that need it call this one, which
/// does nothing else.
pub(crate) fn accepted(r: &Rules)
    ensures { AreSound r.now }
{
    let _automaton = r.automaton();
}
