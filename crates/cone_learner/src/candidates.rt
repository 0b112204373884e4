//! From a base automaton to rules: corner types are added, and the checker decides.
ghost use Rattle.std.specs.Prelude.{◌≡◌, None, IfOk, IfSome};
ghost use Rattle.cone_learner.specs.Candidates.{AreAccepted};

use crate::limits::{FEW_TYPES, HORIZONS, LOOKS};
use crate::refining::Open;
use cone_types::{ConeType, coarsest};
use corner_congruence::{corner_types, merged};
use std::alloc::{AllocError, Global};
use structure_check::{Rules, first_broken};
use tile_kinds::Tessellation;
use tree_looks::{Split, TreeDart, split_by_looks};

/// What a base automaton came to: rules that were accepted, or corners that do not close, which may
/// be none.
#[derive(Drop)]
pub(crate) struct Candidate {
    pub rules: Option<Rules>,
    pub open: Open,
}

impl Candidate {
    /// Rules that were accepted, if any, and no open corner.
    fn of(alloc: Global, rules: Option<Rules>) -> Candidate
        ensures { result.rules ≡ rules }
    {
        Candidate {
            rules,
            open: Open {
                corners: Vec::new(alloc),
                horizon: 0,
            },
        }
    }

    /// No rules, but open corners.
    fn open(corners: Vec<TreeDart>, horizon: u32) -> Candidate
        ensures { result.rules ≡ None }
    {
        Candidate {
            rules: None,
            open: Open { corners, horizon },
        }
    }
}

/// The rules that a base automaton and the corner types that belong to it make, if they are
/// accepted.
fn accepted(
    alloc: Global,
    tess: &Tessellation,
    types: &[ConeType],
) -> Result<Option<Rules>, AllocError>
    ensures { IfOk result (λ o. IfSome o (AreAccepted tess.now)) }
{
    let Some(fine) = corner_types(alloc, tess, types)? else {
        return Ok(None);
    };
    let automaton = merged(alloc, &fine)?;
    if first_broken(tess, &automaton).is_some() {
        return Ok(None);
    }
    let tess = tess.copy(alloc)?;
    Ok(Some(Rules::of_accepted(tess, automaton)))
}

/// Corners that do not close, of a base automaton with so many cone types that they are looked at
/// before these are merged.
fn first_open(
    alloc: Global,
    tess: &Tessellation,
    types: &[ConeType],
) -> Result<Vec<TreeDart>, AllocError> {
    if types.len() > FEW_TYPES {
        if let Split::Open(corners) = split_by_looks(alloc, tess, types, 0, LOOKS)? {
            return Ok(corners);
        }
    }
    Ok(Vec::new(alloc))
}

/// Rules that a base automaton makes, with its cone types merged and then as they are or split by
/// looks; where corners do not close, those corners.
pub(crate) fn try_types(
    alloc: Global,
    tess: &Tessellation,
    types: &[ConeType],
) -> Result<Candidate, AllocError>
    ensures { IfOk result (λ c. IfSome c.rules (AreAccepted tess.now)) }
{
    let corners = first_open(alloc, tess, types)?;
    if !corners.is_empty() {
        return Ok(Candidate::open(corners, 0));
    }
    let types = coarsest(alloc, types, tess.kinds() as usize)?;
    let rules = accepted(alloc, tess, &types)?;
    if rules.is_some() {
        return Ok(Candidate::of(alloc, rules));
    }
    for horizon in HORIZONS {
        match split_by_looks(alloc, tess, &types, horizon, LOOKS)? {
            Split::Open(corners) => return Ok(Candidate::open(corners, horizon)),
            Split::Types(split) => {
                let rules = accepted(alloc, tess, &split)?;
                if rules.is_some() {
                    return Ok(Candidate::of(alloc, rules));
                }
            }
        }
    }
    Ok(Candidate::of(alloc, None))
}
