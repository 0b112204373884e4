//! The log of two walks.
ghost use Rattle.std.specs.Prelude.{◌≡◌, ◌↔◌, ◌<◌, ◌⊎◌, All, length, IsTrue, IfOk, IfSome, IfNone};
ghost use Rattle.std.specs.Prelude.{IsErrOf};
ghost use Rattle.tile_model.specs.Relation.{Lead, AreRelated};
ghost use Rattle.tree_model.specs.Positions.{root, Leads};
ghost use Rattle.spot_laws.specs.Spots.{position};
ghost use Rattle.log_model.specs.LogTexts.{HasText};
ghost use Rattle.derivation_log.specs.Passing.{PassesFar};

use crate::pen::{accepted, log_to_word};
use log_model::Change;
use std::alloc::Global;
use step_engine::{StepFault, root_spot, walk};
use structure_check::Rules;
use turn_rules::Spot;
use walk_words::Walk;

/// The log that leads from the walk `u` to the walk `w`, both from side 0 of a kind, which is one
/// of the tessellation.
/// None comes where the walks are not related. Which of the logs that lead from `u` to `w` comes is
/// not said.
/// It takes time in proportion to the contours along which the walks cross.
///
/// # Errors
///
/// `Deep` comes exactly where a beginning of `u` or of `w` ends at a tile that lies more than 4,000
/// crossings from the first one, whether the walks are related or not.
/// `Memory` comes also where a place that the log would tell is not below 2^64.
pub fn make_log(
    alloc: Global,
    r: &Rules,
    kind: u8,
    u: &Walk,
    w: &Walk,
) -> Result<Option<Vec<Change>>, StepFault>
    requires { kind < length r.now.kinds }
    ensures leads { IfOk result (λ found.
        IfSome found (λ log. Lead r.now.kinds (kind, 0) log.items u.now w.now)) }
    ensures texts { IfOk result (λ found. IfSome found (λ log. All HasText log.items)) }
    ensures apart { IfOk result (λ found.
        IfNone found (¬ (AreRelated r.now.kinds (kind, 0) u.now w.now))) }
    ensures deep { IsErrOf result StepFault.Deep
        → PassesFar r.now.kinds kind u.now ⊎ PassesFar r.now.kinds kind w.now }
    ensures too_deep { PassesFar r.now.kinds kind u.now ⊎ PassesFar r.now.kinds kind w.now
        → IsErrOf result StepFault.Deep ⊎ IsErrOf result StepFault.Memory }
{
    accepted(r);
    let first = arrive(alloc, r, kind, u)?;
    let second = arrive(alloc, r, kind, w)?;
    if !stand_together(&first, &second) {
        return Ok(None);
    }
    let mut log = log_to_word(alloc, r, kind, u)?;
    let other = log_to_word(alloc, r, kind, w)?;
    log.write_back(&other)?;
    Ok(Some(log.into_changes()))
}

/// Where a walk leads from side 0 of the root of a kind, which is one of the tessellation.
fn arrive(alloc: Global, r: &Rules, kind: u8, w: &Walk) -> Result<Spot, StepFault>
    requires { kind < length r.now.kinds }
    ensures leads { IfOk result (λ s.
        Leads r.now.kinds r.now.automaton kind root w.now (position s)) }
    ensures deep { IsErrOf result StepFault.Deep → PassesFar r.now.kinds kind w.now }
    ensures too_deep { PassesFar r.now.kinds kind w.now
        → IsErrOf result StepFault.Deep ⊎ IsErrOf result StepFault.Memory }
{
    accepted(r);
    let mut spot = root_spot(alloc, r, kind)?;
    walk(&mut spot, r, w)?;
    Ok(spot)
}

/// Whether two spots stand at one position.
fn stand_together(first: &Spot, second: &Spot) -> bool
    ensures { IsTrue result ↔ (position first.now ≡ position second.now) }
{
    first.spin() == second.spin() && first.name() == second.name()
}
