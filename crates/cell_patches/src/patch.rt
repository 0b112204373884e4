// One patch: cells round a start cell of one kind, and what is noted of each.
ghost use Rattle.std.specs.Prelude.{◌≡◌, ◌<◌, ◌≤◌, length, IfOk};
ghost use Rattle.tile_model.specs.Tessellations.{valence};
ghost use Rattle.coincidence.specs.Cells.{IsLive, name};
ghost use Rattle.coincidence.specs.Tables.{type_at};
ghost use Rattle.cell_patches.specs.Patches.{IsThereIn, distance_in, sides_in, turned_in};

use crate::limits::FAR;
use crate::note::{CellNote, Known};
use coincidence::{Dart, Joins};
use region_grower::corners::turn_of;
use std::alloc::{AllocError, Global};
use std::marker::Model;
use tile_kinds::{DartType, Tessellation};

/// The cells and joins of a patch, and for each cell its least known distance and a note.
/// `unpassed` are cells whose neighbours may lie nearer or farther than their distances say.
/// `changes` rises with each cell made, each join, and each distance that falls, and
/// `era` where all parent sides are forgotten.
///
/// Joins rest on neither: a distance that is too great, or a wrong parent side, does no harm to
/// them.
#[derive(Debug, Drop)]
pub(crate) struct Patch<'t> {
    pub(crate) joins: Joins<'t>,
    pub(crate) distances: Vec<u32>,
    pub(crate) notes: Vec<CellNote>,
    pub(crate) unpassed: Vec<u32>,
    pub(crate) changes: u64,
    pub(crate) era: u64,
}

impl<'t> Model for Patch<'t> {
    ghost use Rattle.cell_patches.specs.Patches.{PatchState};

    ghost Value = { PatchState };

    ghost view = { λ p. record { table = p.joins; distances = p.distances.items } };
}

impl<'t> Patch<'t> {
    /// The patch of one cell.
    pub(crate) fn start(
        alloc: Global,
        t: &'t Tessellation,
        kind: u8,
    ) -> Result<Patch<'t>, AllocError>
        requires { kind < length t.now }
        ensures { IfOk result (λ p. length p.table.origins ≡ 1) }
    {
        let joins = Joins::first(alloc, t, kind)?;
        let mut notes = Vec::new(alloc);
        notes.push(CellNote::new())?;
        let mut distances = Vec::new(alloc);
        distances.push(0)?;
        Ok(Patch {
            joins,
            distances,
            notes,
            unpassed: Vec::new(alloc),
            changes: 0,
            era: 0,
        })
    }

    /// The number of cells made.
    pub(crate) fn made(&self) -> u32
        ensures { result ≡ length self.now.table.origins }
    {
        self.joins.made()
    }

    /// The type of a side of a cell, if the cell was made.
    pub(crate) fn type_of(&self, d: Dart) -> Option<DartType> {
        if d.cell < self.joins.made() {
            Some(self.joins.type_of(d))
        } else {
            None
        }
    }

    /// The number of sides of a tile of its kind, 0 of a cell that was not made.
    pub(crate) fn sides(&self, cell: u32) -> u8
        ensures value { cell < length self.now.table.origins
            → result ≡ sides_in self.now.table cell }
        ensures at_least { cell < length self.now.table.origins → 3 ≤ result }
        ensures at_most { result ≤ 64 }
    {
        if cell < self.joins.made() {
            let side = Dart { cell, side: 0 };
            self.joins.tessellation().sides(self.joins.type_of(side))
        } else {
            0
        }
    }

    /// The number of tiles round the corner at the left end of the side, 0 of a cell that was not
    /// made.
    pub(crate) fn valence(&self, d: Dart) -> u8
        ensures value { d.0 < length self.now.table.origins
            → result ≡ valence self.now.table.kinds (type_at self.now.table d) }
        ensures at_most { result ≤ 64 }
    {
        if d.cell < self.joins.made() {
            self.joins.tessellation().valence(self.joins.type_of(d))
        } else {
            0
        }
    }

    /// The dart of a live cell that a dart is now; a dart of a cell that was not made is left
    /// alone.
    pub(crate) fn named(&self, d: Dart) -> Dart
        ensures name { IsThereIn self.now.table d → result ≡ name self.now.table.cells d }
        ensures live { IsThereIn self.now.table d → IsLive self.now.table.cells result.0 }
    {
        let sides = self.sides(d.cell);
        if sides == 0 || d.cell >= self.joins.made() {
            return d;
        }
        self.joins.named(Dart {
            cell: d.cell,
            side: d.side % sides,
        })
    }

    /// The next side to the left.
    pub(crate) fn left(&self, d: Dart) -> Dart {
        let turn = turn_of(&self.joins, d.cell);
        let side = if turn == 0 || d.side >= turn - 1 {
            0
        } else {
            d.side + 1
        };
        Dart { cell: d.cell, side }
    }

    /// The next side to the right.
    pub(crate) fn right(&self, d: Dart) -> Dart {
        let side = if d.side == 0 {
            turn_of(&self.joins, d.cell).saturating_sub(1)
        } else {
            d.side - 1
        };
        Dart { cell: d.cell, side }
    }

    /// The dart so many sides to the left, as it is named now.
    pub(crate) fn turned(&self, d: Dart, sides: u8) -> Dart
        ensures { IsThereIn self.now.table d → result ≡ turned_in self.now.table d sides }
    {
        let here = self.named(d);
        let turn = turn_of(&self.joins, here.cell);
        if turn == 0 {
            return here;
        }
        let side = (here.side as u32 + sides as u32) % turn as u32;
        Dart {
            cell: here.cell,
            side: side as u8,
        }
    }

    /// The least known distance of a cell.
    pub(crate) fn distance(&self, cell: u32) -> u32
        ensures { result ≡ distance_in self.now cell }
    {
        match self.distances.get(cell as usize) {
            Some(distance) => *distance,
            None => FAR,
        }
    }

    /// Counts a change.
    pub(crate) fn count_change(&mut self)
        ensures { self.new ≡ self.old }
    {
        self.changes = self.changes.saturating_add(1);
    }

    /// Forgets what is known of the parent side of a cell.
    pub(crate) fn forget(&mut self, cell: u32)
        ensures { self.new ≡ self.old }
    {
        if let Some(note) = self.notes.get_mut(cell as usize) {
            note.known = Known::Nothing;
            note.settled = false;
        }
    }

    /// Forgets all parent sides.
    pub(crate) fn forget_all(&mut self)
        ensures { self.new ≡ self.old }
    {
        self.era = self.era.saturating_add(1);
    }
}
