// Key edges: the sides outside the tree, each with an inner corner at one end and an outer corner
// at the other.
use crate::failure::Failure;
use crate::row::{CornerRow, TileCorners};
use cone_types::{ConeType, Rule};
use std::alloc::Global;
use weighted_sets::{Shift, WeightedSets};

/// From a corner of a tile to the corner of its child that lies behind it round the corner.
const CHILD_BEHIND: Shift = Shift { place: 1, depth: 1 };

/// From a corner of a tile to the corner of its child that lies before it round the corner.
const CHILD_BEFORE: Shift = Shift {
    place: -1,
    depth: 1,
};

/// A side outside the tree. At one end lies its inner corner, at which the tile is the first or the
/// last one; at the other end its outer corner. The outer corner of a corner type is entered at one
/// place: there lies the tile at the side of the first one, and at the next place the tile at the
/// side of the last one.
#[derive(Clone, Copy, Debug, PartialEq, Eq)]
pub(crate) struct KeyEdge {
    pub(crate) inner: u32,
    /// The place of the tile at the inner corner.
    pub(crate) inner_place: u8,
    pub(crate) outer: u32,
    /// The place of the tile at the outer corner, less that at which it is entered.
    pub(crate) outer_step: u8,
}

/// The key edge at a side, where there is one.
fn key_edge(row: &CornerRow, tile: TileCorners, side: usize, rule: Rule) -> Option<KeyEdge> {
    let before = tile.before(side)?;
    let behind = tile.behind(side)?;
    match rule {
        Rule::Left => Some(KeyEdge {
            inner: behind,
            inner_place: 0,
            outer: before,
            outer_step: 0,
        }),
        Rule::Right => Some(KeyEdge {
            inner: before,
            inner_place: row.valences.get(before as usize)?.checked_sub(1)?,
            outer: behind,
            outer_step: 1,
        }),
        Rule::Parent | Rule::Child(_) => None,
    }
}

/// All key edges of the tiles of all cone types.
pub(crate) fn key_edges(
    alloc: Global,
    row: &CornerRow,
    types: &[ConeType],
) -> Result<Vec<KeyEdge>, Failure> {
    let mut edges = Vec::new(alloc);
    for (cone, tile) in types.iter().zip(row.tiles.iter()) {
        for side in 0..cone.rules.len() {
            if let Some(edge) = key_edge(row, *tile, side, cone.rules[side]) {
                edges.push(edge)?;
            }
        }
    }
    Ok(edges)
}

/// Takes over how the corners at both ends of a side to a child lie to those of the child.
fn tie_child(
    sets: &mut WeightedSets,
    tile: TileCorners,
    side: usize,
    child: TileCorners,
) -> Result<(), Failure> {
    let before = tile.before(side).ok_or(Failure::Contradiction)?;
    let behind = tile.behind(side).ok_or(Failure::Contradiction)?;
    let last = child.last().ok_or(Failure::Contradiction)?;
    sets.tie(before, child.first(), CHILD_BEHIND)?;
    sets.tie(behind, last, CHILD_BEFORE)?;
    Ok(())
}

/// Takes over how the corners of all tiles lie to those of their children.
pub(crate) fn tie_children(
    sets: &mut WeightedSets,
    row: &CornerRow,
    types: &[ConeType],
) -> Result<(), Failure> {
    for (cone, tile) in types.iter().zip(row.tiles.iter()) {
        for side in 0..cone.rules.len() {
            if let Rule::Child(number) = cone.rules[side] {
                let child = row
                    .tiles
                    .get(number as usize)
                    .ok_or(Failure::Contradiction)?;
                tie_child(sets, *tile, side, *child)?;
            }
        }
    }
    Ok(())
}

/// Takes over that two key edges whose inner corners are of one type have one outer corner.
fn tie_outers(sets: &mut WeightedSets, first: KeyEdge, edge: KeyEdge) -> Result<(), Failure> {
    let start = sets.find(first.inner)?.shift;
    let end = sets.find(edge.inner)?.shift;
    let apart = end.minus(start).ok_or(Failure::Contradiction)?;
    if apart.place != edge.inner_place as i32 - first.inner_place as i32 {
        return Err(Failure::Contradiction);
    }
    let shift = Shift {
        place: edge.outer_step as i32 - first.outer_step as i32,
        depth: apart.depth,
    };
    sets.tie(first.outer, edge.outer, shift)?;
    Ok(())
}

/// Goes once over all key edges, and ties the outer corners of those whose inner corners are known
/// to be of one type. `firsts` has a place for each corner.
fn tie_once(
    sets: &mut WeightedSets,
    edges: &[KeyEdge],
    firsts: &mut [Option<KeyEdge>],
) -> Result<(), Failure> {
    for first in firsts.iter_mut() {
        *first = None;
    }
    for edge in edges {
        let root = sets.find(edge.inner)?.root;
        let first = firsts.get_mut(root as usize).ok_or(Failure::Contradiction)?;
        match *first {
            Some(known) => tie_outers(sets, known, *edge)?,
            None => *first = Some(*edge),
        }
    }
    Ok(())
}

/// Ties the outer corners of all key edges whose inner corners are of one type, until no more
/// corners become one type.
pub(crate) fn tie_all(
    alloc: Global,
    sets: &mut WeightedSets,
    row: &CornerRow,
    edges: &[KeyEdge],
) -> Result<(), Failure> {
    let mut firsts = vec![in alloc; None; row.valences.len()]?;
    loop {
        let before = sets.count();
        tie_once(sets, edges, &mut firsts)?;
        if sets.count() >= before {
            return Ok(());
        }
    }
}
