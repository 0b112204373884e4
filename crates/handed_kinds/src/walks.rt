// The handed types that walks lead to.
ghost use Rattle.std.specs.Prelude.{◌≡◌};
ghost use Rattle.tile_model.specs.Walks.{type_of};
ghost use Rattle.handed_kinds.specs.Handed.{IsHandedType};
ghost use Rattle.handed_kinds.specs.HandedWalks.{handed_type as handed_along};
ghost use Rattle.handed_kinds.specs.Expansion.{flat, expanded};

use crate::handed::Handed;
use crate::kinds::HandType;
use tile_model::Letter;
use walk_words::Walk;

/// The handed type that a walk leads to from the handed type `from`. Its `flat` is where the walk
/// leads in the expansion, from the `flat` of `from`. Takes no memory.
pub fn handed_type(h: &Handed, from: HandType, w: &Walk) -> HandType
    requires { IsHandedType h.now from }
    ensures value { result ≡ handed_along h.now from w.now }
    ensures is_type { IsHandedType h.now result }
    ensures flat { flat h.now result ≡ type_of (expanded h.now) (flat h.now from) w.now }
{
    let _valid = h.kinds();
    let mut at = from;
    for x in w.letters() {
        at = match x {
            Letter::L => h.left(at),
            Letter::R => h.right(at),
            Letter::X => h.cross(at),
        };
    }
    at
}
