//! `Joins`: cells of a tessellation, made one by one across darts, and the darts known to be
//! joined.
ghost use Rattle.std.specs.Prelude.{◌≡◌, ℕ, ◌+◌, ◌<◌, ◌≤◌, ◌↔◌, ◌≢◌, length, Option, None, Some, IsTrue, IfOk, IfSome, OnOk, OnErr};
ghost use Rattle.tile_model.specs.Tessellations.{IsType, cross, sides};
ghost use Rattle.coincidence.specs.Cells.{IsLive, turn_at, cell_at, live_count, name};
ghost use Rattle.coincidence.specs.Atlases.{LieAcross};
ghost use Rattle.coincidence.specs.Tables.{JoinTable, kind_of, origin_at, atlas, type_at, joined_to};
ghost use Rattle.coincidence.specs.Joined.{IsTable, IsFirst, HasMade, HasRenamed};

use crate::dart::{Dart, NOWHERE, WIDTH, packed, unpacked};
use crate::origin::Origin;
use crate::table::Table;
use std::alloc::{AllocError, Global};
use std::marker::Model;
use tile_kinds::{DartType, Tessellation};

/// A table of cells and of the darts that are joined. It borrows the tessellation.
///
/// Side `i` of a cell of kind `k` has the type `(k, i modulo the repeat)`. The turn of a cell is
/// the number of its sides that are not known to coincide: sides equal modulo it are one dart, and
/// answers give the least of them.
#[derive(Debug, Drop)]
pub struct Joins<'t> {
    tessellation: &'t Tessellation,
    origins: Vec<Origin>,
    table: Table,
}

impl<'t> Model for Joins<'t> {
    ghost use Rattle.coincidence.specs.Tables.{JoinTable};
    ghost use Rattle.coincidence.specs.Joined.{IsKept};

    ghost Value = { JoinTable };

    ghost view = { λ j. record {
      kinds = j.tessellation.now;
      origins = j.origins.items;
      cells = j.table.cells.items;
      slots = j.table.slots.items;
    } };

    ghost invariant = { λ j. IsKept j.tessellation.now j.origins.items j.table };
}

impl<'t> Joins<'t> {
    /// The table with one cell, cell 0, of a kind of the tessellation.
    pub fn first(alloc: Global, t: &'t Tessellation, kind: u8) -> Result<Joins<'t>, AllocError>
        requires { kind < length t.now }
        ensures first { IfOk result (IsFirst t.now kind) }
        ensures table { IfOk result (λ j. IsTable j) }
    {
        let tile = &t.all_kinds()[kind as usize];
        let mut origins = Vec::new(alloc);
        origins.push(Origin {
            kind,
            own: 0,
            across: 0,
        })?;
        let mut table = Table::empty(alloc);
        table.extend(tile.sides)?;
        Ok(Joins {
            tessellation: t,
            origins,
            table,
        })
    }

    /// Makes a cell across a live dart that is not joined, where fewer than 1,000,000 cells were
    /// made. The new cell has the next number. The dart is joined to that of its sides whose number
    /// is the residue of the partner. All room for later joins is taken here. Out of memory nothing
    /// changes.
    pub fn make_across(&mut self, d: Dart) -> Result<u32, AllocError>
        requires live { IsLive self.old.cells d.0 }
        requires not_joined { joined_to self.old d ≡ None }
        requires room { length self.old.origins < 1000000 }
        ensures made { IfOk result (HasMade self.old self.new d) }
        ensures unchanged { OnErr result (self.new ≡ self.old) }
        ensures table { IsTable self.new }
    {
        let cell = self.origins.len() as u32;
        let near = self.least(d);
        let over = self.tessellation.cross(self.type_of(near));
        let sides = self.tessellation.sides(over);
        self.origins.reserve(1)?;
        self.table.extend(sides)?;
        self.origins.push(Origin {
            kind: over.kind,
            own: over.residue,
            across: packed(near),
        })?;
        self.table
            .link(packed(near), cell * WIDTH + over.residue as u32);
        Ok(cell)
    }

    /// The least side of a live cell that is the same dart.
    fn least(&self, d: Dart) -> Dart
        requires { IsLive self.now.cells d.0 }
        ensures { result ≡ name self.now.cells d }
    {
        let x = &self.table.cells[d.cell as usize];
        Dart {
            cell: d.cell,
            side: d.side % x.turn,
        }
    }

    /// The tessellation that was handed in.
    pub fn tessellation(&self) -> &Tessellation
        ensures value { result.now ≡ self.now.kinds }
        ensures table { IsTable self.now }
    {
        self.tessellation
    }

    /// The number of cells made, renamed ones among them.
    pub fn made(&self) -> u32
        ensures value { result ≡ length self.now.origins }
        ensures table { IsTable self.now }
    {
        self.origins.len() as u32
    }

    /// The number of live cells.
    pub fn live(&self) -> u32
        ensures { result ≡ live_count self.now.cells }
    {
        self.table.live
    }

    /// Whether a cell is live: it was made, and was not renamed.
    pub fn alive(&self, cell: u32) -> bool
        ensures { IsTrue result ↔ IsLive self.now.cells cell }
    {
        match self.table.cells.get(cell as usize) {
            Some(x) => x.turn > 0,
            None => false,
        }
    }

    /// The number of sides of a live cell that are not known to coincide.
    pub fn turn(&self, cell: u32) -> u8
        requires { IsLive self.now.cells cell }
        ensures { result ≡ turn_at self.now.cells cell }
    {
        self.table.cells[cell as usize].turn
    }

    /// The kind of a cell that was made.
    pub fn kind(&self, cell: u32) -> u8
        requires { cell < length self.now.origins }
        ensures { result ≡ kind_of self.now.origins cell }
    {
        self.origins[cell as usize].kind
    }

    /// The type of a side of a cell that was made.
    pub fn type_of(&self, d: Dart) -> DartType
        requires { d.0 < length self.now.origins }
        ensures value { result ≡ type_at self.now d }
        ensures is_type { IsType self.now.kinds result }
    {
        let kind = self.origins[d.cell as usize].kind;
        let tile = self.tessellation.kind(kind);
        DartType {
            kind,
            residue: d.side % tile.repeat,
        }
    }

    /// The dart of a live cell that a side of a cell is now. A renamed cell is followed to what it
    /// became; of sides that are one dart the least is answered.
    pub fn named(&self, d: Dart) -> Dart
        requires made { d.0 < length self.now.origins }
        requires side { d.1 < 64 }
        ensures { result ≡ name self.now.cells d }
    {
        unpacked(self.table.name(d.cell, d.side as u32))
    }

    /// The dart that a dart is joined to; None exactly where nothing is joined there. A dart that
    /// is not live is joined to none.
    pub fn joined(&self, d: Dart) -> Option<Dart>
        ensures value { result ≡ joined_to self.now d }
        ensures side { IfSome result (λ e. e.1 < 64) }
    {
        let Some(x) = self.table.cells.get(d.cell as usize) else {
            return None;
        };
        if x.turn == 0 {
            return None;
        }
        let side = d.side % x.turn;
        let over = self.table.slots[packed(Dart { cell: d.cell, side }) as usize];
        if over == NOWHERE {
            None
        } else {
            Some(unpacked(over))
        }
    }

    /// Joins two darts of live cells, and all that follows from it. The walk of the first, followed
    /// by X, is to be related to the walk of the second; so the type of the second is the partner
    /// of that of the first. Where a dart was joined to another one the two cells coincide: the
    /// later one is renamed, everywhere and at once. Where a cell coincides with itself turned, its
    /// turn falls to the greatest common divisor. Answers how many cells were renamed. Takes no
    /// memory, and can't be refused.
    pub fn join(&mut self, a: Dart, b: Dart) -> u32
        requires live { IsLive self.old.cells a.0 }
        requires other_live { IsLive self.old.cells b.0 }
        requires across { LieAcross (atlas self.old) a b }
        ensures renamed { HasRenamed self.old self.new }
        ensures joined { joined_to self.new (name self.new.cells a) ≡ Some (name self.new.cells b) }
        ensures count { live_count self.new.cells + result ≡ live_count self.old.cells }
        ensures table { IsTable self.new }
    {
        let before = self.table.live;
        let x = packed(Dart {
            cell: a.cell,
            side: a.side % self.table.cells[a.cell as usize].turn,
        });
        let y = packed(Dart {
            cell: b.cell,
            side: b.side % self.table.cells[b.cell as usize].turn,
        });
        self.table.join(x, y);
        before - self.table.live
    }
}
