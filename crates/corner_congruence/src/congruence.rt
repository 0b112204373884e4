// Corner types by congruence.
ghost use Rattle.std.specs.Prelude.{◌≡◌, length, IfOk, IfSome};
ghost use Rattle.corner_congruence.specs.Congruence.{IsOver};

use crate::classes::all_corners;
use crate::edges::{key_edges, tie_all, tie_children};
use crate::failure::Failure;
use crate::row::{CornerRow, MOST_STATES};
use crate::states::{all_roots, all_states};
use cone_types::ConeType;
use rules_data::Automaton;
use std::alloc::{AllocError, Global};
use tile_kinds::Tessellation;
use weighted_sets::WeightedSets;

/// The automaton, or why there is none.
fn automaton(alloc: Global, tess: &Tessellation, types: &[ConeType]) -> Result<Automaton, Failure>
    ensures { IfOk result (λ a. IsOver types.now (length tess.now) a) }
{
    if types.len() < tess.kinds() as usize || types.len() > MOST_STATES {
        return Err(Failure::Contradiction);
    }
    let row = CornerRow::of(alloc, tess, types)?;
    let edges = key_edges(alloc, &row, types)?;
    let mut sets = WeightedSets::alone(alloc, row.count().ok_or(Failure::Contradiction)?)?;
    tie_children(&mut sets, &row, types)?;
    tie_all(alloc, &mut sets, &row, &edges)?;
    let (corners, classes) = all_corners(alloc, &mut sets, &row, &edges)?;
    Ok(Automaton {
        states: all_states(alloc, &classes, &row, types)?,
        corners,
        roots: all_roots(alloc, tess.kinds())?,
    })
}

/// The cone types of a base automaton as states, with the claims of their corners, and with corner
/// types: the classes of the least congruence on pairs of a cone type and a corner that the
/// conditions on claims force. The corner before a side to a child is corner 0 of the child, which
/// lies there one place further; the corner behind the side is the last one of the child, which
/// lies there one place less; and the child lies one deeper. A side outside the tree has an inner
/// corner, which has there its first place (rule Left) or its last one (Right), and an outer
/// corner; and corners of one type have one outer corner, entered at one place.
///
/// None where this contradicts itself: where a corner would have two places, or a place two depths,
/// or corners of one type two valences, or where a place of a corner type has no tile. None too
/// where a cone type has no type of the tessellation, or too few or too many rules, where a child
/// or a root is missing, where there are over 100,000 cone types or 20,000 corner types, and where
/// an offset is out of the range of an `i8`. Whether the automaton meets the conditions is not said:
/// `structure_check` tells.
///
/// # Errors
///
/// `AllocError` where there is no memory, and only there.
pub fn corner_types(
    alloc: Global,
    tess: &Tessellation,
    types: &[ConeType],
) -> Result<Option<Automaton>, AllocError>
    ensures { IfOk result (λ o. IfSome o (λ a. IsOver types.now (length tess.now) a)) }
{
    match automaton(alloc, tess, types) {
        Ok(a) => Ok(Some(a)),
        Err(Failure::Contradiction) => Ok(None),
        Err(Failure::Memory) => Err(AllocError),
    }
}
