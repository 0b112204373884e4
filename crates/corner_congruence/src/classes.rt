// The classes of corners, and the corner types that they are.
ghost use Rattle.std.specs.Prelude.{◌≤◌, length, IfOk};

use crate::edges::KeyEdge;
use crate::failure::Failure;
use crate::row::CornerRow;
use rules_data::{Claim, Corner};
use std::alloc::Global;
use weighted_sets::{Shift, WeightedSets};

/// The most corner types.
const MOST_CORNERS: usize = 20_000;

/// The class of a corner, and how far the corner is from the first one of the class.
#[derive(Clone, Copy, Debug, PartialEq, Eq)]
struct Spot {
    class: usize,
    shift: Shift,
}

/// What is known of a class.
#[derive(Debug, Drop)]
struct CornerClass {
    /// Place 0, from the first corner of the class on.
    zero: Option<i32>,
    /// The depth at each place, less that of the first corner of the class.
    depths: Vec<Option<i32>>,
    /// The outer corner, and the place at which it is entered.
    outer: Option<Claim>,
}

/// The spots of all corners, and all classes, numbered by their first corners.
#[derive(Debug, Drop)]
pub(crate) struct Classes {
    spots: Vec<Spot>,
    classes: Vec<CornerClass>,
}

impl Classes {
    /// The classes of all corners, of which each must have one valence.
    fn of(alloc: Global, sets: &mut WeightedSets, row: &CornerRow) -> Result<Classes, Failure> {
        let mut spots: Vec<Spot> = Vec::with_capacity(alloc, row.valences.len())?;
        let mut classes: Vec<CornerClass> = Vec::new(alloc);
        for corner in 0..row.count().ok_or(Failure::Contradiction)? {
            let found = sets.find(corner)?;
            let valence = *row
                .valences
                .get(corner as usize)
                .ok_or(Failure::Contradiction)?;
            let class = match spots.get(found.root as usize) {
                Some(root) => root.class,
                None => {
                    let next = classes.len();
                    classes.push(CornerClass {
                        zero: None,
                        depths: vec![in alloc; None; valence as usize]?,
                        outer: None,
                    })?;
                    next
                }
            };
            let known = classes.get(class).ok_or(Failure::Contradiction)?;
            if known.depths.len() != valence as usize {
                return Err(Failure::Contradiction);
            }
            spots.push(Spot {
                class,
                shift: found.shift,
            })?;
        }
        Ok(Classes { spots, classes })
    }

    /// Takes over where place 0 of a class lies.
    fn set_zero(&mut self, edge: KeyEdge) -> Option<()> {
        let spot = *self.spots.get(edge.inner as usize)?;
        let class = self.classes.get_mut(spot.class)?;
        let zero = spot.shift.place.checked_sub(edge.inner_place as i32)?;
        match class.zero {
            Some(known) if known != zero => None,
            _ => {
                class.zero = Some(zero);
                Some(())
            }
        }
    }

    /// The claim of a corner: its class, and its place there.
    pub(crate) fn claim(&self, corner: u32) -> Option<Claim> {
        let spot = *self.spots.get(corner as usize)?;
        let class = self.classes.get(spot.class)?;
        let place = spot.shift.place.checked_sub(class.zero?)?;
        Some(Claim {
            corner: u32::try_from(spot.class).ok()?,
            place: u8::try_from(place).ok()?,
        })
    }

    /// Takes over the depth at a place of a class.
    fn set_depth(&mut self, corner: u32) -> Option<()> {
        let claim = self.claim(corner)?;
        let depth = self.spots.get(corner as usize)?.shift.depth;
        let class = self.classes.get_mut(claim.corner as usize)?;
        let slot = class.depths.get_mut(claim.place as usize)?;
        match *slot {
            Some(known) if known != depth => None,
            _ => {
                *slot = Some(depth);
                Some(())
            }
        }
    }

    /// Takes over the outer corner of a class.
    fn set_outer(&mut self, edge: KeyEdge) -> Option<()> {
        let inner = self.claim(edge.inner)?;
        let seen = self.claim(edge.outer)?;
        let outer = Claim {
            corner: seen.corner,
            place: seen.place.checked_sub(edge.outer_step)?,
        };
        let class = self.classes.get_mut(inner.corner as usize)?;
        let before = class.outer;
        match before {
            Some(known) if known != outer => None,
            _ => {
                class.outer = Some(outer);
                Some(())
            }
        }
    }
}

/// The offsets of the places of a class, of which each must be known.
fn offsets(alloc: Global, class: &CornerClass) -> Result<Vec<i8>, Failure> {
    let first = class
        .depths
        .first()
        .copied()
        .flatten()
        .ok_or(Failure::Contradiction)?;
    let mut all = Vec::with_capacity(alloc, class.depths.len())?;
    for depth in class.depths.iter() {
        let offset = (*depth).ok_or(Failure::Contradiction)?.checked_sub(first);
        let offset = offset.ok_or(Failure::Contradiction)?;
        all.push(i8::try_from(offset).ok().ok_or(Failure::Contradiction)?)?;
    }
    Ok(all)
}

/// The corner type of a class, of which the outer corner and all depths must be known.
fn corner_type(alloc: Global, class: &CornerClass) -> Result<Corner, Failure> {
    Ok(Corner {
        offsets: offsets(alloc, class)?,
        outer: class.outer.ok_or(Failure::Contradiction)?,
    })
}

/// The corner types of all classes, of which there must be one and may be 20,000.
fn corner_types_of(alloc: Global, classes: &[CornerClass]) -> Result<Vec<Corner>, Failure>
    ensures some { IfOk result (λ v. 1 ≤ length v.items) }
    ensures few { IfOk result (λ v. length v.items ≤ 20000) }
{
    if classes.is_empty() || classes.len() > MOST_CORNERS {
        return Err(Failure::Contradiction);
    }
    let mut corners = Vec::with_capacity(alloc, classes.len())?;
    for class in classes {
        corners.push(corner_type(alloc, class)?)?;
    }
    Ok(corners)
}

/// All corner types, in the order of the classes, and the classes of all corners.
pub(crate) fn all_corners(
    alloc: Global,
    sets: &mut WeightedSets,
    row: &CornerRow,
    edges: &[KeyEdge],
) -> Result<(Vec<Corner>, Classes), Failure>
    ensures some { IfOk result (λ v. 1 ≤ length v.0.items) }
    ensures few { IfOk result (λ v. length v.0.items ≤ 20000) }
{
    if sets.count() as usize > MOST_CORNERS {
        return Err(Failure::Contradiction);
    }
    let mut classes = Classes::of(alloc, sets, row)?;
    for edge in edges {
        classes.set_zero(*edge).ok_or(Failure::Contradiction)?;
    }
    for corner in 0..row.count().ok_or(Failure::Contradiction)? {
        classes.set_depth(corner).ok_or(Failure::Contradiction)?;
    }
    for edge in edges {
        classes.set_outer(*edge).ok_or(Failure::Contradiction)?;
    }
    let corners = corner_types_of(alloc, &classes.classes)?;
    Ok((corners, classes))
}
