//! `Region`, and what a call of `grow` answers.
ghost use Rattle.std.specs.Prelude.{◌≡◌, ℕ, ◌+◌, ◌<◌, ◌≤◌, List, length, IfOk, IfSome, IfNone, OnOk, OnErr, slice_index};
ghost use Rattle.tile_model.specs.Tessellations.{TileKind};
ghost use Rattle.coincidence.specs.Cells.{IsLive, live_count};
ghost use Rattle.coincidence.specs.Tables.{kind_of};
ghost use Rattle.coincidence.specs.Joined.{IsTable, IsFirst};
ghost use Rattle.region_grower.specs.Ways.{IsRadius};
ghost use Rattle.region_grower.specs.Growth.{HasGrown};
ghost use Rattle.region_grower.specs.Regions.{RegionState, IsGrown};
ghost use Rattle.region_grower.specs.Calls.{IsGrownFrom};

use crate::growth::{Answer, advance};
use coincidence::Joins;
use std::alloc::{AllocError, Global};
use std::marker::Model;
use tile_kinds::Tessellation;

/// What a call of `grow` came to.
#[derive(Clone, Copy, Debug, PartialEq, Eq)]
pub enum Grown {
    /// A layer was finished: all sides of the live cells at distances below this number are joined.
    Layer(u32),
    /// So many cells were made as were allowed, and the layer is not finished.
    Full(u32),
    /// All sides of the live cells are joined: there are so many tiles.
    Closed(u32),
}

/// A region of a tessellation, which it borrows: cells round a first one, and the number of the
/// last layer that was finished. All tiles round each corner of the cells below `whole` are there,
/// so they are not looked at again.
#[derive(Debug, Drop)]
pub struct Region<'t> {
    joins: Joins<'t>,
    radii: Vec<u32>,
    layers: u32,
    whole: u32,
}

impl<'t> Model for Region<'t> {
    ghost use Rattle.region_grower.specs.Regions.{RegionState, IsRegionFrom};

    ghost Value = { RegionState };

    ghost view = { λ r. record { table = r.joins; radii = r.radii.items; layers = r.layers } };

    ghost invariant = { λ r. IsRegionFrom
        (record { table = r.joins; radii = r.radii.items; layers = r.layers }) r.whole };
}

impl<'t> Region<'t> {
    /// The region of one cell, of a kind of the tessellation.
    pub fn start(alloc: Global, t: &'t Tessellation, kind: u8) -> Result<Region<'t>, AllocError>
        requires { kind < length t.now }
        ensures first { IfOk result (λ r. IsFirst t.now kind r.table) }
        ensures made { IfOk result (λ r. length r.table.origins ≡ 1) }
        ensures kinds { IfOk result (λ r. r.table.kinds ≡ t.now) }
        ensures kind { IfOk result (λ r. kind_of r.table.origins 0 ≡ kind) }
        ensures layers { IfOk result (λ r. r.layers ≡ 0) }
        ensures table { IfOk result (λ r. IsTable r.table) }
        ensures from { IfOk result (IsGrownFrom t.now kind) }
    {
        let joins = Joins::first(alloc, t, kind)?;
        let mut radii = Vec::new(alloc);
        radii.push(0)?;
        Ok(Region {
            joins,
            radii,
            layers: 0,
            whole: 0,
        })
    }

    /// The number of the last layer that was finished, 0 before the first one.
    pub fn layers(&self) -> u32
        ensures { result ≡ self.now.layers }
    {
        self.layers
    }

    /// The cells and their joins.
    pub fn joins(&self) -> &Joins<'t>
        ensures value { result.now ≡ self.now.table }
        ensures table { IsTable self.now.table }
    {
        &self.joins
    }

    /// The number of cells made.
    pub fn made(&self) -> u32
        ensures { result ≡ length self.now.table.origins }
    {
        self.joins.made()
    }

    /// The number of live cells.
    pub fn live(&self) -> u32
        ensures { result ≡ live_count self.now.table.cells }
    {
        self.joins.live()
    }

    /// The least number of crossings through joined darts from the first cell; None exactly for a
    /// cell that is not live.
    pub fn radius(&self, cell: u32) -> Option<u32>
        ensures some { IfSome result (λ r. IsRadius self.now.table cell r) }
        ensures value { IfSome result (λ r. r ≡ slice_index self.now.radii cell) }
        ensures at_most { IfSome result (λ r. r ≤ 1000000) }
        ensures live { IfSome result (λ _. IsLive self.now.table.cells cell) }
        ensures none { IfNone result (IsLive self.now.table.cells cell → ⊥) }
    {
        if self.joins.alive(cell) {
            Some(self.radii[cell as usize])
        } else {
            None
        }
    }

    /// Makes cells, `most` in all at most, until a layer is finished or the region is closed, and
    /// closes the corners. Cells that were there keep where they come from, their names and their
    /// joins. Out of memory the region is sound, and may have grown in part.
    pub fn grow(&mut self, most: u32) -> Result<Grown, AllocError>
        requires most { most ≤ 1000000 }
        requires made { length self.old.table.origins ≤ most }
        ensures grown { IfOk result (IsGrown self.old self.new most) }
        ensures kept { HasGrown self.old.table self.new.table }
        ensures kinds { self.new.table.kinds ≡ self.old.table.kinds }
        ensures start { kind_of self.new.table.origins 0 ≡ kind_of self.old.table.origins 0 }
        ensures made { length self.new.table.origins ≤ most }
        ensures layers { OnErr result (self.new.layers ≡ self.old.layers) }
        ensures table { IsTable self.new.table }
        ensures from { OnOk result ((kinds : List TileKind) (k : ℕ)
            → IsGrownFrom kinds k self.old → IsGrownFrom kinds k self.new) }
    {
        let within = self.layers;
        match advance(
            &mut self.joins,
            &mut self.radii,
            &mut self.whole,
            within,
            most,
        )? {
            Answer::Closed => Ok(Grown::Closed(self.joins.live())),
            Answer::Layer => {
                self.layers = within + 1;
                Ok(Grown::Layer(within + 1))
            }
            _ => Ok(Grown::Full(most)),
        }
    }
}
