//! Walks along the words of names, which are not spelled out in letters.
ghost use Rattle.std.specs.Prelude.{◌≡◌, ◌⊎◌, ◌++◌, replicate, OnOk, OnErr, IsErrOf};
ghost use Rattle.tile_model.specs.declared.Letter.TheVariants.{L};
ghost use Rattle.tile_model.specs.Walks.{inverse};
ghost use Rattle.tree_model.specs.Names.{word};
ghost use Rattle.spot_laws.specs.Spots.{IsSpot, position, root_kind};
ghost use Rattle.step_engine.specs.Crossings.{WalkLeadsTo, WalksDeep};

use crate::detour::Detour;
use crate::fault::{DEEPEST, StepFault};
use structure_check::Rules;
use turn_rules::Spot;

/// Goes back along the word of a position, that is the word of the name `back` and as many letters L as `spin` is, and
/// then along the word of the name `onwards`: to the right by `spin` sides, for each side of `back` from the last one
/// on across and to the right by that many sides, and for each side of `onwards` to the left by that many sides and
/// across.
/// `walk` does the same by the letters of that walk, each turn a letter of its own.
///
/// # Errors
///
/// `Deep` comes exactly where some crossing on the way arrives at a name of more than 4,000 sides, that is more than
/// 4,000 crossings from the root.
/// After an error the spot is as it was.
pub fn walk_between(
    s: &mut Spot,
    r: &Rules,
    spin: u8,
    back: &[u8],
    onwards: &[u8],
) -> Result<(), StepFault>
    requires { IsSpot r.now s.old }
    ensures spot { OnOk result (IsSpot r.now s.new) }
    ensures tree { OnOk result (root_kind r.now s.new ≡ root_kind r.now s.old) }
    ensures leads { OnOk result (WalkLeadsTo r.now s.old
        (inverse (word back.now ++ replicate spin L) ++ word onwards.now) (position s.new)) }
    ensures deep { IsErrOf result StepFault.Deep → WalksDeep r.now s.old
        (inverse (word back.now ++ replicate spin L) ++ word onwards.now) DEEPEST }
    ensures too_deep { WalksDeep r.now s.old
        (inverse (word back.now ++ replicate spin L) ++ word onwards.now) DEEPEST
        → IsErrOf result StepFault.Deep ⊎ IsErrOf result StepFault.Memory }
    ensures unchanged { OnErr result (s.new ≡ s.old) }
{
    let mut detour = Detour::start(s, r);
    detour.turn_rights(s, r, spin);
    let mut rest = back;
    while let Some((last, before)) = rest.split_last() {
        detour.cross(s, r)?;
        detour.turn_rights(s, r, *last);
        rest = before;
    }
    for side in onwards {
        detour.turn_lefts(s, r, *side);
        detour.cross(s, r)?;
    }
    detour.finish(s)?;
    Ok(())
}
