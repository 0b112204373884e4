// What corner types and states show where only the classes of what they name are known.
use cone_types::{ConeLook, Table};
use rules_data::{Claim, Corner, State};
use std::alloc::{AllocError, Global};

/// A claim, with the class of the corner type in place of its number.
#[derive(Clone, Copy, Debug, PartialEq, Eq, Hash)]
struct SeenClaim {
    corner: usize,
    place: u8,
}

/// A claim as it is seen over the classes of all corner types. A number that is out of range stays.
fn seen(claim: Claim, classes: &[usize]) -> SeenClaim {
    let number = claim.corner as usize;
    SeenClaim {
        corner: classes.get(number).copied().unwrap_or(number),
        place: claim.place,
    }
}

/// Corner types, which name each other as outer corners.
#[derive(Clone, Copy)]
pub(crate) struct Corners<'a> {
    pub(crate) corners: &'a [Corner],
}

/// The offsets and the outer corner of a corner type.
#[derive(Debug, PartialEq, Eq, Hash, Drop)]
pub(crate) struct CornerLook {
    offsets: Vec<i8>,
    outer: SeenClaim,
}

impl Table for Corners<'_> {
    type Look = Option<CornerLook>;

    fn look(
        &self,
        alloc: Global,
        entry: usize,
        classes: &[usize],
    ) -> Result<Option<CornerLook>, AllocError> {
        match self.corners.get(entry) {
            Some(corner) => Ok(Some(CornerLook {
                offsets: Vec::from_slice(alloc, &corner.offsets)?,
                outer: seen(corner.outer, classes),
            })),
            None => Ok(None),
        }
    }
}

/// States, which name each other as children, with the classes of their corner types.
#[derive(Clone, Copy)]
pub(crate) struct States<'a> {
    pub(crate) states: &'a [State],
    pub(crate) corner_classes: &'a [usize],
}

/// The kind, the off, the rules and the claims of a state.
#[derive(Debug, PartialEq, Eq, Hash, Drop)]
pub(crate) struct StateLook {
    cone: ConeLook,
    claims: Vec<SeenClaim>,
}

/// The claims of a state over the classes of all corner types.
fn seen_claims(
    alloc: Global,
    claims: &[Claim],
    corner_classes: &[usize],
) -> Result<Vec<SeenClaim>, AllocError> {
    let mut all = Vec::with_capacity(alloc, claims.len())?;
    for claim in claims {
        all.push(seen(*claim, corner_classes))?;
    }
    Ok(all)
}

impl Table for States<'_> {
    type Look = Option<StateLook>;

    fn look(
        &self,
        alloc: Global,
        entry: usize,
        classes: &[usize],
    ) -> Result<Option<StateLook>, AllocError> {
        match self.states.get(entry) {
            Some(state) => Ok(Some(StateLook {
                cone: ConeLook::of(alloc, state.kind, state.off, &state.rules, classes)?,
                claims: seen_claims(alloc, &state.claims, self.corner_classes)?,
            })),
            None => Ok(None),
        }
    }
}
