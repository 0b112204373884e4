// The states of a base automaton with the claims of their corners.
ghost use Rattle.std.specs.Prelude.{◌≡◌, ◌≤◌, length, map, All, IfOk};
ghost use Rattle.corner_congruence.specs.Congruence.{cone_of, HasClaims, AreFirst};

use crate::classes::Classes;
use crate::failure::Failure;
use crate::row::{CornerRow, TileCorners};
use cone_types::ConeType;
use rules_data::{Claim, State};
use std::alloc::{AllocError, Global};

/// The claims of the corners of a tile with so many sides.
fn claims(
    alloc: Global,
    classes: &Classes,
    tile: TileCorners,
    sides: usize,
) -> Result<Vec<Claim>, Failure>
    ensures { IfOk result (λ v. length v.items ≡ sides) }
{
    let mut all = Vec::with_capacity(alloc, sides)?;
    for side in 0..sides {
        let corner = tile.behind(side).ok_or(Failure::Contradiction)?;
        all.push(classes.claim(corner).ok_or(Failure::Contradiction)?)?;
    }
    Ok(all)
}

/// The state of a cone type.
fn state(
    alloc: Global,
    classes: &Classes,
    tile: TileCorners,
    cone: &ConeType,
) -> Result<State, Failure>
    ensures cone { IfOk result (λ s. cone_of s ≡ cone.now) }
    ensures claims { IfOk result (λ s. HasClaims s) }
{
    Ok(State {
        kind: cone.kind,
        off: cone.off,
        rules: Vec::from_slice(alloc, &cone.rules)?,
        claims: claims(alloc, classes, tile, cone.rules.len())?,
    })
}

/// A state for each cone type.
#[tactic(auto, using(crate::proofs::Growing::one_more, crate::proofs::Growing::as_many))]
pub(crate) fn all_states(
    alloc: Global,
    classes: &Classes,
    row: &CornerRow,
    types: &[ConeType],
) -> Result<Vec<State>, Failure>
    ensures cones { IfOk result (λ v. map cone_of v.items ≡ types.now) }
    ensures count { IfOk result (λ v. length v.items ≡ length types.now) }
    ensures claims { IfOk result (λ v. All HasClaims v.items) }
{
    let mut states = Vec::with_capacity(alloc, types.len())?;
    for number in 0..types.len() {
        let tile = *row.tiles.get(number).ok_or(Failure::Contradiction)?;
        states.push(state(alloc, classes, tile, &types[number])?)?;
    }
    Ok(states)
}

/// The roots: the first states, one for each kind.
#[tactic(auto, using(crate::proofs::Growing::one_more_root))]
pub(crate) fn all_roots(alloc: Global, kinds: u16) -> Result<Vec<u32>, AllocError>
    ensures count { IfOk result (λ v. length v.items ≡ kinds) }
    ensures first { IfOk result (λ v. AreFirst kinds v.items) }
{
    let mut roots = Vec::with_capacity(alloc, kinds as usize)?;
    for kind in 0..kinds {
        roots.push(kind as u32)?;
    }
    Ok(roots)
}
