//! One round of refinement: open corners are followed in the cells.
ghost use Rattle.std.specs.Prelude.{◌≡◌};

use crate::limits::{WIDENED, looks_worth_reading, most_compared, most_widened};
use cell_patches::{PatchDart, Patches};
use cone_questions::{AskFault, Comparison, Cones, Found, Questions};
use std::alloc::{AllocError, Global};
use tree_looks::{TreeDart, way_of_look};

/// Corners of a tree that do not close when they are looked at to a horizon.
#[derive(Drop)]
pub(crate) struct Open {
    pub corners: Vec<TreeDart>,
    pub horizon: u32,
}

/// What a round of refinement came to.
#[derive(Clone, Copy, Debug, PartialEq, Eq)]
pub(crate) enum Outcome {
    /// The cells do as the base automaton says.
    Same,
    /// Cone types were split, and the base automaton is to be read again.
    Split,
    /// Cone types were split, and the base automaton went along.
    WentAlong,
    /// The tessellation has finitely many tiles, or there are too many cone types.
    Stopped,
}

/// How far a round goes: up to so many cells, once a cone type was split, and so many looks in all
/// sweeps behind the first. Where it follows, the base automaton goes along with each split, and
/// there are further sweeps.
#[derive(Clone, Copy, Debug)]
struct Bounds {
    cells: u32,
    looks: usize,
    follows: bool,
}

/// A round of refinement: which corners were followed to their ends, the ways of the first looks,
/// and how many looks there were.
#[derive(Drop)]
pub(crate) struct Refinement {
    alloc: Global,
    comparison: Comparison,
    is_done: Vec<bool>,
    ways: Vec<Vec<TreeDart>>,
    looks: usize,
    is_split: bool,
}

impl Refinement {
    /// Nothing was looked at yet.
    pub(crate) fn new(alloc: Global, open: &Open) -> Result<Refinement, AllocError> {
        Ok(Refinement {
            alloc,
            comparison: Comparison::new(alloc),
            is_done: vec![in alloc; false; open.corners.len()]?,
            ways: Vec::new(alloc),
            looks: 0,
            is_split: false,
        })
    }

    /// Follows open corners in the cells, and splits cone types where the cells differ from the
    /// base automaton. Many corners are each looked at once, and each cone type is split once.
    /// Where there are few, the base automaton goes along, and they are followed until they close.
    pub(crate) fn refine(
        &mut self,
        questions: &mut Questions,
        patches: &mut Patches,
        cones: &mut Cones,
        open: &Open,
    ) -> Result<Outcome, AskFault>
        ensures most { patches.new.most ≡ patches.old.most }
    {
        let looks = looks_worth_reading(cones.types.len());
        let bounds = Bounds {
            cells: most_compared(patches.made()),
            looks,
            follows: open.corners.len() < looks,
        };
        for sweep in 0..=looks {
            match self.sweep(questions, patches, cones, open, bounds, sweep == 0)? {
                Outcome::Stopped => return Ok(Outcome::Stopped),
                Outcome::WentAlong => {}
                Outcome::Same | Outcome::Split => break,
            }
        }
        Ok(match (self.is_split, bounds.follows) {
            (false, _) => Outcome::Same,
            (true, false) => Outcome::Split,
            (true, true) => Outcome::WentAlong,
        })
    }

    /// Looks at each corner that was not followed to its end. Answers `WentAlong` where another
    /// sweep may find more.
    fn sweep(
        &mut self,
        questions: &mut Questions,
        patches: &mut Patches,
        cones: &mut Cones,
        open: &Open,
        bounds: Bounds,
        is_first: bool,
    ) -> Result<Outcome, AskFault>
        ensures most { patches.new.most ≡ patches.old.most }
    {
        self.comparison.begin_sweep(cones);
        let mut outcome = Outcome::Same;
        for (number, corner) in open.corners.iter().enumerate() {
            if self.is_done.get(number) == Some(&true) {
                continue;
            }
            if self.is_enough(patches, bounds, is_first) {
                return Ok(Outcome::Split);
            }
            let found = self.look(questions, patches, cones, corner, open.horizon)?;
            match found {
                Found::Nothing | Found::Known => self.finish(number),
                Found::New(_) | Found::Moved(_, _) => {
                    self.is_split = true;
                    if bounds.follows {
                        if !questions.go_along(patches, cones, found)? {
                            return Ok(Outcome::Stopped);
                        }
                        outcome = Outcome::WentAlong;
                    }
                }
            }
        }
        Ok(outcome)
    }

    /// Whether enough was looked at in this round.
    fn is_enough(&self, patches: &Patches, bounds: Bounds, is_first: bool) -> bool {
        (self.is_split && patches.made() > bounds.cells)
            || (!is_first && self.looks >= bounds.looks)
    }

    /// Notes that a corner was followed to its end.
    fn finish(&mut self, number: usize) {
        if let Some(is_done) = self.is_done.get_mut(number) {
            *is_done = true;
        }
    }

    /// Looks at one corner, and compares the darts that this comes by with the cells, up to the
    /// first difference.
    fn look(
        &mut self,
        questions: &mut Questions,
        patches: &mut Patches,
        cones: &Cones,
        corner: &TreeDart,
        horizon: u32,
    ) -> Result<Found, AskFault>
        ensures most { patches.new.most ≡ patches.old.most }
    {
        let tess = patches.tessellation();
        let Some(way) = way_of_look(self.alloc, tess, &cones.types, corner, horizon)? else {
            return Ok(Found::Nothing);
        };
        self.looks = self.looks.saturating_add(1);
        let found = self.compare(questions, patches, cones, &way)?;
        if self.ways.len() < WIDENED {
            self.ways.push(way)?;
        }
        Ok(found)
    }

    /// Compares the darts of one way with the cells, up to the first difference.
    fn compare(
        &mut self,
        questions: &mut Questions,
        patches: &mut Patches,
        cones: &Cones,
        way: &[TreeDart],
    ) -> Result<Found, AskFault>
        ensures most { patches.new.most ≡ patches.old.most }
    {
        for dart in way {
            let found = self.comparison.compare(questions, patches, cones, dart)?;
            if found != Found::Nothing {
                return Ok(found);
            }
        }
        Ok(Found::Nothing)
    }

    /// Closes all corners of the cells that the first ways came by: where the cells do as the base
    /// automaton says and corners are open all the same, their distances may be too great.
    pub(crate) fn widen(&self, patches: &mut Patches) -> Result<(), AskFault>
        ensures most { patches.new.most ≡ patches.old.most }
    {
        let most = most_widened(patches.made());
        for way in &self.ways {
            if !self.widen_way(patches, way, most)? {
                break;
            }
        }
        Ok(())
    }

    /// Closes all corners of the cells that one way came by. Answers as `widen_cell` does.
    fn widen_way(
        &self,
        patches: &mut Patches,
        way: &[TreeDart],
        most: u32,
    ) -> Result<bool, AskFault>
        ensures most { patches.new.most ≡ patches.old.most }
    {
        for dart in way {
            if let Some(cell) = self.comparison.cell(dart)? {
                if !widen_cell(patches, cell, most)? {
                    return Ok(false);
                }
            }
        }
        Ok(true)
    }
}

/// Closes all corners of a cell. Answers false where more cells are made than so many, or as many
/// as may be.
fn widen_cell(patches: &mut Patches, cell: PatchDart, most: u32) -> Result<bool, AskFault>
    ensures most { patches.new.most ≡ patches.old.most }
{
    for side in 0..patches.sides(cell) {
        let at = patches.turned(patches.named(cell), side);
        if patches.made() > most || !patches.close_corner(at)? {
            return Ok(false);
        }
    }
    Ok(true)
}
