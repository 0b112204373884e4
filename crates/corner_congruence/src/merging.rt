// The coarsest automaton with the same tree and the same corners.
ghost use Rattle.std.specs.Prelude.{◌≡◌, ◌≤◌, ◌<◌, length, map, IfOk};
ghost use Rattle.cone_types.specs.Partitions.{KeepsLow};
ghost use Rattle.corner_congruence.specs.Merged.{IsMerged, renamed_claim, renamed_corner, renamed_root, renamed_state as state_under};
ghost use Rattle.cone_types.specs.Representatives.{StandForClasses};

use crate::looks::{Corners, States};
use cone_types::{class_number, coarsest_partition, renamed_rules};
use rules_data::{Automaton, Claim, Corner, State};
use std::alloc::{AllocError, Global};

/// A claim, with the class of the corner type as its number.
fn renamed(claim: Claim, classes: &[usize]) -> Claim
    requires { KeepsLow classes.now }
    ensures { result ≡ renamed_claim classes.now claim }
{
    Claim {
        corner: class_number(claim.corner, classes),
        place: claim.place,
    }
}

/// The claims, with the classes of the corner types as their numbers.
fn renamed_claims(
    alloc: Global,
    claims: &[Claim],
    classes: &[usize],
) -> Result<Vec<Claim>, AllocError>
    requires { KeepsLow classes.now }
    ensures { IfOk result (λ v. v.items ≡ map (renamed_claim classes.now) claims.now) }
{
    let mut all = Vec::with_capacity(alloc, claims.len())?;
    for claim in claims {
        all.push(renamed(*claim, classes))?;
    }
    Ok(all)
}

/// The corner type with the class of its outer corner as its number.
fn renamed_type(alloc: Global, corner: &Corner, classes: &[usize]) -> Result<Corner, AllocError>
    requires { KeepsLow classes.now }
    ensures { IfOk result (λ g. g ≡ renamed_corner classes.now corner.now) }
{
    Ok(Corner {
        offsets: Vec::from_slice(alloc, &corner.offsets)?,
        outer: renamed(corner.outer, classes),
    })
}

/// One corner type for each class, with the classes as numbers.
#[tactic(auto, using(cone_types::specs::Representatives::none_stands, cone_types::specs::Representatives::one_more_stands))]
fn merged_corners(
    alloc: Global,
    corners: &[Corner],
    classes: &[usize],
) -> Result<Vec<Corner>, AllocError>
    requires classes { length classes.now ≡ length corners.now }
    requires low { KeepsLow classes.now }
    ensures few { IfOk result (λ v. length v.items ≤ length corners.now) }
    ensures stand { IfOk result (λ v. StandForClasses (renamed_corner classes.now) classes.now
        corners.now v.items) }
{
    let mut merged = Vec::new(alloc);
    for entry in 0..corners.len() {
        if classes[entry] != merged.len() {
            continue;
        }
        merged.push(renamed_type(alloc, &corners[entry], classes)?)?;
    }
    Ok(merged)
}

/// The state with the classes of its children and of its corner types as their numbers.
fn renamed_state(
    alloc: Global,
    state: &State,
    classes: &[usize],
    corner_classes: &[usize],
) -> Result<State, AllocError>
    requires states { KeepsLow classes.now }
    requires corners { KeepsLow corner_classes.now }
    ensures { IfOk result (λ s. s ≡ state_under classes.now corner_classes.now state.now) }
{
    Ok(State {
        kind: state.kind,
        off: state.off,
        rules: renamed_rules(alloc, &state.rules, classes)?,
        claims: renamed_claims(alloc, &state.claims, corner_classes)?,
    })
}

/// One state for each class, with the classes of states and of corner types as numbers.
#[tactic(auto, using(cone_types::specs::Representatives::none_stands, cone_types::specs::Representatives::one_more_stands))]
fn merged_states(
    alloc: Global,
    states: &[State],
    classes: &[usize],
    corner_classes: &[usize],
) -> Result<Vec<State>, AllocError>
    requires classes { length classes.now ≡ length states.now }
    requires low { KeepsLow classes.now }
    requires corners { KeepsLow corner_classes.now }
    ensures few { IfOk result (λ v. length v.items ≤ length states.now) }
    ensures stand { IfOk result (λ v. StandForClasses
        (state_under classes.now corner_classes.now) classes.now states.now v.items) }
{
    let mut merged = Vec::new(alloc);
    for entry in 0..states.len() {
        if classes[entry] != merged.len() {
            continue;
        }
        merged.push(renamed_state(alloc, &states[entry], classes, corner_classes)?)?;
    }
    Ok(merged)
}

/// The roots, with the classes of states as numbers.
fn merged_roots(alloc: Global, roots: &[u32], classes: &[usize]) -> Result<Vec<u32>, AllocError>
    requires { KeepsLow classes.now }
    ensures { IfOk result (λ v. v.items ≡ map (renamed_root classes.now) roots.now) }
{
    let mut merged = Vec::with_capacity(alloc, roots.len())?;
    for root in roots {
        merged.push(class_number(*root, classes))?;
    }
    Ok(merged)
}

/// The coarsest automaton with the same tree and the same corners: corner types with the same
/// offsets whose outer corners are alike become one, and then states with the same kind, off, rules
/// and claims over these. The first states, one for each root, stay apart.
///
/// # Errors
///
/// `AllocError` where there is no memory, and only there.
pub fn merged(alloc: Global, a: &Automaton) -> Result<Automaton, AllocError>
    ensures { IfOk result (λ m. IsMerged a.now m) }
{
    let corner_table = Corners {
        corners: &a.corners,
    };
    let corner_classes = coarsest_partition(alloc, &corner_table, a.corners.len(), 0)?;
    let state_table = States {
        states: &a.states,
        corner_classes: &corner_classes,
    };
    let classes = coarsest_partition(alloc, &state_table, a.states.len(), a.roots.len())?;
    Ok(Automaton {
        states: merged_states(alloc, &a.states, &classes, &corner_classes)?,
        corners: merged_corners(alloc, &a.corners, &corner_classes)?,
        roots: merged_roots(alloc, &a.roots, &classes)?,
    })
}
