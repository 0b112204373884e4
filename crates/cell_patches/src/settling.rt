// Parent sides are settled: the corners from which they are chosen are closed first.
ghost use Rattle.std.specs.Prelude.{◌≡◌, ◌≤◌, ℕ, IfOk};
ghost use Rattle.cell_patches.specs.Settling.{IsOfPatch};

use crate::dart::PatchDart;
use crate::limits::SETTLINGS;
use crate::patches::Patches;
use std::alloc::AllocError;

/// The parent side of a cell, once the corners from which it is chosen are closed.
#[derive(Clone, Copy, Debug, PartialEq, Eq)]
pub enum Settled {
    /// It is a start cell, and has none.
    Start,
    /// This side.
    Parent(PatchDart),
    /// As many cells were made as may be, and a corner is not whole.
    Full,
}

impl<'t> Patches<'t> {
    /// The parent side of the cell of a dart, as it is named now, once the corners at the left ends
    /// of the sides from which it is chosen are closed.
    ///
    /// # Errors
    /// Out of memory all stands sound, and may have grown in part; some distances may be too great.
    pub fn settle(&mut self, d: PatchDart) -> Result<Settled, AllocError>
        ensures patch { IfOk result (IsOfPatch d.patch) }
        ensures kinds { self.new.kinds ≡ self.old.kinds }
        ensures most { self.new.most ≡ self.old.most }
        ensures changes { self.old.changes ≤ self.new.changes }
    {
        for turn in 0..SETTLINGS {
            let at = self.named(d);
            if self.distance(at) == 0 {
                return Ok(Settled::Start);
            }
            if let Some(parent) = self.settled_parent(at) {
                return Ok(Settled::Parent(parent));
            }
            let before = self.changes();
            if !self.close_lasts(at)? {
                return Ok(Settled::Full);
            }
            if self.changes() == before {
                return Ok(self.note_settled(at));
            }
        }
        let at = self.named(d);
        Ok(match self.parent(at) {
            Some(parent) => Settled::Parent(parent),
            None => Settled::Start,
        })
    }

    /// Finds the parent side of a cell whose corners are closed, and notes that it is settled.
    fn note_settled(&mut self, d: PatchDart) -> Settled
        ensures patch { IsOfPatch d.patch result }
        ensures same { self.new ≡ self.old }
    {
        let Some(parent) = self.parent(d) else {
            return Settled::Start;
        };
        self.keep_settled(d);
        Settled::Parent(parent)
    }

    /// Closes the corners at the left ends of the sides from which the parent side of a cell is
    /// chosen. False where as many cells were made as may be.
    fn close_lasts(&mut self, d: PatchDart) -> Result<bool, AllocError>
        ensures kinds { self.new.kinds ≡ self.old.kinds }
        ensures most { self.new.most ≡ self.old.most }
        ensures changes { self.old.changes ≤ self.new.changes }
    {
        let lasts = self.lasts(d);
        for side in 0..self.turn(d) {
            if lasts.has(side) && !self.close_corner(PatchDart { side, ..d })? {
                return Ok(false);
            }
        }
        Ok(true)
    }
}
