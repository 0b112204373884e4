//! Trying the candidates over regions.
ghost use Rattle.std.specs.Prelude.{◌≡◌, IfOk, IfSome, IfNone};
ghost use Rattle.structure_check.specs.Rules.{AreSound};
ghost use Rattle.state_learner.specs.Learning.{NoneAccepted};
ghost use Rattle.state_learner.specs.Growing.{IsTrial};

use region_grower::Region;
use state_candidates::Candidates;
use std::alloc::{AllocError, Global};
use structure_check::{Rules, first_broken};
use tile_kinds::Tessellation;

/// The greatest horizon that is tried whether there is a candidate to it or not.
const SURE_HORIZON: u32 = 8;

/// The greatest horizon that is tried at all. Tilings that are truncated twice, say, need 9 to 17.
const LAST_HORIZON: u32 = 24;

/// What a trial of a candidate came to.
#[derive(Debug, Drop)]
pub(crate) enum Trial {
    /// There is no candidate.
    Missing,
    /// There is one, and it breaks a condition.
    Refused,
    /// It meets all conditions.
    Accepted(Rules),
}

/// Tries the candidate to the horizon that was come to.
fn try_candidate(
    alloc: Global,
    t: &Tessellation,
    candidates: &Candidates<'_, '_>,
) -> Result<Trial, AllocError>
    ensures { IfOk result (IsTrial t.now candidates.now.regions candidates.now.horizon) }
{
    let Some(automaton) = candidates.candidate(alloc, t)? else {
        return Ok(Trial::Missing);
    };
    if first_broken(t, &automaton).is_some() {
        return Ok(Trial::Refused);
    }
    Ok(Trial::Accepted(Rules::of_accepted(t.copy(alloc)?, automaton)))
}

/// Rules by the first candidate over regions that is accepted, to one horizon after the other.
pub(crate) fn attempt(
    alloc: Global,
    t: &Tessellation,
    regions: &[Region<'_>],
) -> Result<Option<Rules>, AllocError>
    ensures kinds { IfOk result (λ rules. IfSome rules (λ r. r.kinds ≡ t.now)) }
    ensures sound { IfOk result (λ rules. IfSome rules AreSound) }
    ensures none { IfOk result (λ rules. IfNone rules (NoneAccepted t.now regions.now 8)) }
{
    let mut candidates = Candidates::over(alloc, regions)?;
    for horizon in 0..=LAST_HORIZON {
        match try_candidate(alloc, t, &candidates)? {
            Trial::Accepted(rules) => return Ok(Some(rules)),
            Trial::Missing if horizon >= SURE_HORIZON => return Ok(None),
            _ => candidates.farther()?,
        }
    }
    Ok(None)
}
