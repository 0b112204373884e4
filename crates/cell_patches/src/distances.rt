// Distances are passed on, until those of joined cells differ by at most 1.
ghost use Rattle.std.specs.Prelude.{◌≡◌};

use crate::limits::PASSED_ON;
use crate::patch::Patch;
use coincidence::Dart;
use region_grower::corners::turn_of;
use std::alloc::AllocError;

impl<'t> Patch<'t> {
    /// Passes distances on from all cells that wait for it. Out of memory some distances stay too
    /// great.
    pub(crate) fn pass_distances_on(&mut self) -> Result<(), AllocError>
        ensures { self.new.table ≡ self.old.table }
    {
        for time in 0..PASSED_ON {
            match self.unpassed.pop() {
                Some(cell) => self.pass_on(cell)?,
                None => return Ok(()),
            }
        }
        Ok(())
    }

    /// Passes distances on to a cell from those next to it, and then from it to them.
    fn pass_on(&mut self, cell: u32) -> Result<(), AllocError>
        ensures { self.new.table ≡ self.old.table }
    {
        let least = self.least_beside(cell);
        self.lower(cell, least);
        for side in 0..turn_of(&self.joins, cell) {
            if let Some(over) = self.joins.joined(Dart { cell, side }) {
                self.pass_to(over.cell, least.saturating_add(1))?;
            }
        }
        Ok(())
    }

    /// The distance of a cell, or one more than that of a cell next to it, if that is less.
    fn least_beside(&self, cell: u32) -> u32 {
        let mut least = self.distance(cell);
        for side in 0..turn_of(&self.joins, cell) {
            if let Some(over) = self.joins.joined(Dart { cell, side }) {
                least = least.min(self.distance(over.cell).saturating_add(1));
            }
        }
        least
    }

    /// Lowers the distance of a cell to at most so much; if it falls, distances are passed on from
    /// there later.
    fn pass_to(&mut self, cell: u32, distance: u32) -> Result<(), AllocError>
        ensures { self.new.table ≡ self.old.table }
    {
        if self.distance(cell) > distance {
            self.unpassed.push(cell)?;
            self.lower(cell, distance);
        }
        Ok(())
    }

    /// Lowers the distance of a cell to at most so much. If it falls, what is known of the parent
    /// sides of the cell and of those next to it is forgotten.
    pub(crate) fn lower(&mut self, cell: u32, distance: u32)
        ensures { self.new.table ≡ self.old.table }
    {
        if self.distance(cell) <= distance {
            return;
        }
        if let Some(least) = self.distances.get_mut(cell as usize) {
            *least = distance;
        }
        self.count_change();
        self.forget(cell);
        self.forget_around(cell);
    }

    /// Forgets the parent sides of the cells next to a cell.
    pub(crate) fn forget_around(&mut self, cell: u32)
        ensures { self.new ≡ self.old }
    {
        for side in 0..turn_of(&self.joins, cell) {
            if let Some(over) = self.joins.joined(Dart { cell, side }) {
                self.forget(over.cell);
            }
        }
    }
}
