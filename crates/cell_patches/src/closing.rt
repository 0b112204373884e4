// Cells are made and corners closed.
ghost use Rattle.std.specs.Prelude.{◌≡◌, ◌+◌, ◌≤◌, length, IsTrue, IfOk};
ghost use Rattle.coincidence.specs.Cells.{name};
ghost use Rattle.region_grower.specs.Corners.{IsWhole};
ghost use Rattle.cell_patches.specs.Patches.{IsThereIn};

use crate::limits::{CLOSING_PASSES, CORNER_STEPS, MOST_CELLS};
use crate::note::CellNote;
use crate::patch::Patch;
use coincidence::{Dart, Joins};
use region_grower::corners::{back, close, is_dart, is_whole, turn_of};
use std::alloc::AllocError;

/// Closes the corner of a dart of a live cell from where its joins begin. Answers the first dart
/// there, if darts were joined.
fn close_around(joins: &mut Joins, d: Dart) -> Option<Dart>
    ensures { joins.new.origins ≡ joins.old.origins }
{
    if d.cell >= joins.made() || !is_dart(joins, d) {
        return None;
    }
    let valence = joins.tessellation().valence(joins.type_of(d));
    let first = back(joins, d, valence - 1);
    if close(joins, first) {
        Some(first)
    } else {
        None
    }
}

/// Closes the corner of a dart of a live cell, if all tiles round it are there. Answers whether
/// darts were joined.
fn close_from(joins: &mut Joins, d: Dart) -> bool
    ensures { joins.new.origins ≡ joins.old.origins }
{
    if d.cell >= joins.made() || !is_dart(joins, d) {
        return false;
    }
    close(joins, d)
}

impl<'t> Patch<'t> {
    /// Makes a cell across a dart of a live cell that is not joined, and closes the corners of the
    /// new cell. Does nothing where the dart is none of these, or the table is full.
    fn make(&mut self, d: Dart) -> Result<(), AllocError>
        ensures { length self.new.table.origins ≤ length self.old.table.origins + 1 }
    {
        if self.joins.made() >= MOST_CELLS || !is_dart(&self.joins, d) {
            return Ok(());
        }
        match self.joins.joined(d) {
            Some(_) => return Ok(()),
            None => {}
        }
        self.notes.reserve(1)?;
        self.distances.reserve(1)?;
        let cell = self.joins.make_across(d)?;
        let distance = self.distance(d.cell).saturating_add(1);
        self.distances.push(distance)?;
        self.notes.push(CellNote::new())?;
        self.forget(d.cell);
        self.count_change();
        self.close_new(cell)?;
        self.pass_distances_on()
    }

    /// Closes the corners of a new cell, as long as there are some that can be closed.
    fn close_new(&mut self, cell: u32) -> Result<(), AllocError>
        ensures { self.new.table.origins ≡ self.old.table.origins }
    {
        for pass in 0..CLOSING_PASSES {
            if !self.close_round(cell)? {
                return Ok(());
            }
        }
        Ok(())
    }

    /// Closes the corners of a cell, each from where its joins begin. Answers whether darts were
    /// joined.
    fn close_round(&mut self, cell: u32) -> Result<bool, AllocError>
        ensures { self.new.table.origins ≡ self.old.table.origins }
    {
        let mut changed = false;
        for side in 0..turn_of(&self.joins, cell) {
            let live = self.joins.live();
            if let Some(first) = close_around(&mut self.joins, Dart { cell, side }) {
                self.note_join(first, live)?;
                changed = true;
            }
        }
        Ok(changed)
    }

    /// Notes that a dart was joined, before which so many cells were live.
    fn note_join(&mut self, d: Dart, live: u32) -> Result<(), AllocError>
        ensures { self.new.table ≡ self.old.table }
    {
        self.count_change();
        let renamed = live.saturating_sub(self.joins.live());
        self.note_renamed(renamed)?;
        let here = self.named(d);
        self.note_joined_cell(here.cell)?;
        match self.joins.joined(here) {
            Some(over) => self.note_joined_cell(over.cell),
            None => Ok(()),
        }
    }

    /// Notes that a side of a cell was joined.
    fn note_joined_cell(&mut self, cell: u32) -> Result<(), AllocError>
        ensures { self.new ≡ self.old }
    {
        if turn_of(&self.joins, cell) < self.sides(cell) {
            self.forget_all();
        } else {
            self.forget(cell);
        }
        self.unpassed.push(cell)?;
        Ok(())
    }

    /// Notes which cells were renamed, so many of them; mostly they are late ones. What they became
    /// lies as near as they did, and perhaps nearer, so that the parent sides of the cells next to
    /// it may be others.
    fn note_renamed(&mut self, renamed: u32) -> Result<(), AllocError>
        ensures { self.new.table ≡ self.old.table }
    {
        let mut left = renamed;
        let mut cell = self.joins.made();
        while left > 0 && cell > 0 {
            cell -= 1;
            if self.is_newly_gone(cell) {
                left -= 1;
                let into = self.named(Dart { cell, side: 0 }).cell;
                self.lower(into, self.distance(cell));
                self.note_joined_cell(into)?;
                self.forget_around(into);
                self.count_change();
            }
        }
        Ok(())
    }

    /// Whether a cell was renamed, and that was not noted before. It is noted now.
    fn is_newly_gone(&mut self, cell: u32) -> bool
        ensures { self.new ≡ self.old }
    {
        if self.joins.alive(cell) {
            return false;
        }
        match self.notes.get_mut(cell as usize) {
            Some(note) => {
                let newly = !note.gone;
                note.gone = true;
                newly
            }
            None => false,
        }
    }

    /// The side across which a cell is missing round the corner at the left end of a dart, going
    /// left; None where all tiles are there.
    fn missing(&self, d: Dart) -> Option<Dart> {
        let mut at = d;
        for time in 1..self.valence(d) {
            let next = self.left(at);
            match self.joins.joined(next) {
                Some(over) => at = over,
                None => return Some(next),
            }
        }
        None
    }

    /// Closes a corner round which all tiles are there. Answers whether darts were joined.
    fn close_whole(&mut self, d: Dart) -> Result<bool, AllocError>
        ensures { self.new.table.origins ≡ self.old.table.origins }
    {
        let live = self.joins.live();
        if !close_from(&mut self.joins, d) {
            return Ok(false);
        }
        self.note_join(d, live)?;
        self.pass_distances_on()?;
        Ok(true)
    }

    /// Whether the corner at the left end of a dart, as it is named now, is whole.
    fn is_whole(&self, d: Dart) -> bool
        ensures { IsTrue result → IsThereIn self.now.table d
            → IsWhole self.now.table (name self.now.table.cells d) }
    {
        let here = self.named(d);
        self.joins.made() > 0 && is_dart(&self.joins, here) && is_whole(&self.joins, here)
    }

    /// Makes and closes all tiles round the corner at the left end of a dart, as it is named now,
    /// where so many cells may be in the patch. False where so many are there, or steps came to
    /// their bound, and the corner is not whole.
    pub(crate) fn close_corner(&mut self, d: Dart, most: u32) -> Result<bool, AllocError>
        requires { length self.old.table.origins ≤ most }
        ensures made { length self.new.table.origins ≤ most }
        ensures whole { IfOk result (λ whole. IsTrue whole → IsThereIn self.new.table d
            → IsWhole self.new.table (name self.new.table.cells d)) }
    {
        // Most corners that are asked for are whole already: one way round them is enough.
        if self.is_whole(d) {
            return Ok(true);
        }
        for step in 0..CORNER_STEPS {
            let here = self.named(d);
            match self.missing(here) {
                Some(side) => {
                    if self.joins.made() >= most {
                        return Ok(false);
                    }
                    self.make(side)?;
                }
                None => {
                    if !self.close_whole(here)? {
                        return Ok(self.is_whole(d));
                    }
                }
            }
        }
        Ok(false)
    }
}
