//! Looks of corners: how deep the tiles round a corner lie, and likewise for the corner outside it,
//! and so on to a horizon.
use crate::dart::NodeDart;
use crate::scout::Scout;
use crate::stuck::Stuck;
use indexmap::{IndexMap, IndexSet};
use std::alloc::Global;
use tree_model::Rule;

/// Where a dart stands at the corner at its left end: how many darts are before it, and the dart at
/// place 0, whose side is Left.
#[derive(Clone, Copy, Debug)]
struct Standing {
    place: u8,
    base: NodeDart,
}

/// What is seen at a corner alone: the number of its shape, and the dart at place 0 of the corner
/// outside it.
#[derive(Clone, Copy, Debug)]
struct View {
    shape: u32,
    outer: NodeDart,
}

/// The looks of the corners of a tree, each kept by its dart at place 0.
#[derive(Drop)]
pub(crate) struct Looks {
    alloc: Global,
    known: IndexMap<NodeDart, View>,
    /// The shapes of corners: the place of the key edge at the corner outside, and the depths of
    /// the tiles round the corner less that of the tile at place 0.
    shapes: IndexSet<Vec<i64>>,
}

impl Looks {
    /// No corner was looked at yet.
    pub(crate) fn new(alloc: Global) -> Looks {
        Looks {
            alloc,
            known: IndexMap::new(alloc),
            shapes: IndexSet::new(alloc),
        }
    }

    /// Adds to a key the look of the corner at the left end of a dart: its place, and the shapes of
    /// the corner and of so many corners outside it.
    pub(crate) fn add_look(
        &mut self,
        scout: &mut Scout<'_>,
        d: NodeDart,
        horizon: u32,
        key: &mut Vec<u32>,
    ) -> Result<(), Stuck> {
        let standing = standing_of(scout, d)?;
        key.push(standing.place as u32)?;
        let mut base = standing.base;
        for _corner in 0..=horizon {
            let view = self.view(scout, base)?;
            key.push(view.shape)?;
            base = view.outer;
        }
        Ok(())
    }

    /// What is seen at the corner with a dart at place 0.
    fn view(&mut self, scout: &mut Scout<'_>, base: NodeDart) -> Result<View, Stuck> {
        if let Some(view) = self.known.get(&base) {
            return Ok(*view);
        }
        let key_edge = scout.tree.right(base).ok_or(Stuck::Open)?;
        let outer = standing_of(scout, key_edge)?;
        let shape = shape_of(self.alloc, scout, base, outer.place)?;
        let (number, _is_new) = self.shapes.insert_full(shape)?;
        let view = View {
            shape: u32::try_from(number).ok().ok_or(Stuck::Open)?,
            outer: outer.base,
        };
        self.known.insert(base, view)?;
        Ok(view)
    }
}

/// Where a dart stands at the corner at its left end.
fn standing_of(scout: &mut Scout<'_>, d: NodeDart) -> Result<Standing, Stuck> {
    let mut base = d;
    for place in 0..scout.tree.valence(d).ok_or(Stuck::Open)? {
        if scout.tree.rule(base).ok_or(Stuck::Open)? == Rule::Left {
            return Ok(Standing { place, base });
        }
        let over = scout.cross(base)?;
        base = scout.tree.right(over).ok_or(Stuck::Open)?;
    }
    Err(Stuck::Open)
}

/// The shape of the corner with a dart at place 0, whose outer corner is seen at a place. The
/// corner has to close after as many tiles as its valence says, which all agree on it.
fn shape_of(
    alloc: Global,
    scout: &mut Scout<'_>,
    base: NodeDart,
    place: u8,
) -> Result<Vec<i64>, Stuck> {
    let valence = scout.tree.valence(base);
    let tiles = valence.ok_or(Stuck::Open)?;
    let depth = scout.tree.depth(base.node).ok_or(Stuck::Open)?;
    let mut shape = Vec::with_capacity(alloc, tiles as usize + 1)?;
    shape.push(place as i64)?;
    let mut d = base;
    for _tile in 0..tiles {
        if scout.tree.valence(d) != valence {
            return Err(Stuck::Open);
        }
        let here = scout.tree.depth(d.node).ok_or(Stuck::Open)?;
        shape.push(here as i64 - depth as i64)?;
        let left = scout.tree.left(d).ok_or(Stuck::Open)?;
        d = scout.cross(left)?;
    }
    if d != base {
        return Err(Stuck::Open);
    }
    Ok(shape)
}
