//! Classes of states by rounds: states are of one class where they have one key by the classes
//! before.
ghost use Rattle.std.specs.Prelude.{◌≡◌, ◌≤◌, length, IfOk, List, ℕ};
ghost use Rattle.tile_model.specs.Tessellations.{TileKind};
ghost use Rattle.tree_model.specs.Conditions.{IsAccepted};
ghost use Rattle.rules_tools.specs.Classes.{AreApart, AreStable, AreByKey};

use crate::children::count;
use crate::keys::key;
use crate::numbers::{plain, zeros};
use crate::splitting::refined;
use crate::stability::is_stable;
use key_numbers::Numbering;
use rules_data::Automaton;
use std::alloc::{AllocError, Global};

/// The classes of the states by their keys, and how many these are.
pub(crate) fn round(
    alloc: Global,
    a: &Automaton,
    before: &[u32],
) -> Result<(Vec<u32>, u32), AllocError>
    requires { length a.now.states ≤ 100000 }
    ensures { IfOk result (λ x. AreByKey a.now before.now x.0.items x.1) }
{
    let mut numbering = Numbering::new(alloc);
    for s in 0..count(a) {
        numbering.add(Some(key(alloc, a, before, s)?))?;
    }
    let (numbers, count) = numbering.finish()?;
    Ok((plain(alloc, &numbers)?, count))
}

/// The classes of the states that no path tells apart, by as many rounds as it takes from classes
/// that paths tell apart.
fn settle(alloc: Global, a: &Automaton, start: Vec<u32>) -> Result<Vec<u32>, AllocError>
    requires { length a.now.states ≤ 100000 }
    ensures long { IfOk result (λ v. length v.items ≡ length a.now.states) }
    ensures apart { (kinds : List TileKind) → IsAccepted kinds a.now
        → AreApart kinds a.now start.items
        → IfOk result (λ v. AreApart kinds a.now v.items) }
    ensures stable { (kinds : List TileKind) → IsAccepted kinds a.now
        → IfOk result (λ v. AreStable kinds a.now v.items) }
{
    let mut before = start;
    let mut count = 0;
    let (mut class, mut more) = round(alloc, a, &before)?;
    while count < more {
        let (next, next_count) = round(alloc, a, &class)?;
        before = class;
        count = more;
        class = next;
        more = next_count;
    }
    Ok(class)
}

/// The classes of the states that no path tells apart. Where those by faces are stable, it is these.
pub(crate) fn settled(alloc: Global, a: &Automaton) -> Result<Vec<u32>, AllocError>
    requires { length a.now.states ≤ 100000 }
    ensures apart { (kinds : List TileKind) → IsAccepted kinds a.now
        → IfOk result (λ v. AreApart kinds a.now v.items) }
    ensures stable { (kinds : List TileKind) → IsAccepted kinds a.now
        → IfOk result (λ v. AreStable kinds a.now v.items) }
{
    let start = zeros(alloc, a.states.len())?;
    let (faces, _) = round(alloc, a, &start)?;
    if is_stable(alloc, a, &faces)? {
        return Ok(faces);
    }
    let class = refined(alloc, a, faces)?;
    if is_stable(alloc, a, &class)? {
        return Ok(class);
    }
    settle(alloc, a, class)
}
