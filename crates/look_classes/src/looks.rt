//! `Looks`: the looks of all cells and corners of a region, to one horizon after the other.
ghost use Rattle.std.specs.Prelude.{◌≡◌, ℕ, suc, ◌+◌, ◌<◌, IfOk, IfSome, OnOk, OnErr};
ghost use Rattle.coincidence.specs.Cells.{IsLive, turn_at};
ghost use Rattle.region_grower.specs.Ways.{IsDart};
ghost use Rattle.look_classes.specs.Tree.{sides_of, counted};
ghost use Rattle.look_classes.specs.Places.{place, outer_side, rule_of};
ghost use Rattle.look_classes.specs.Classes.{AreClasses};
ghost use Rattle.look_classes.specs.States.{LooksState};

use crate::corners::{first_corners, next_corners};
use crate::faces::{first_cells, next_cells};
use crate::lists::Classes;
use crate::places::Places;
use crate::rule::SideRule;
use coincidence::Dart;
use region_grower::Region;
use std::alloc::{AllocError, Global};
use std::marker::Model;

/// The looks of all cells and corners of a region, which it borrows, to a horizon.
#[derive(Debug, Drop)]
pub struct Looks<'g, 't> {
    alloc: Global,
    places: Places<'g, 't>,
    firsts: Vec<Option<u32>>,
    horizon: u32,
    classes: Classes,
}

impl<'g, 't> Model for Looks<'g, 't> {
    ghost use Rattle.look_classes.specs.States.{LooksState};
    ghost use Rattle.look_classes.specs.Codes.{IsLooks};

    ghost Value = { LooksState };

    ghost view = { λ x. record { region = x.places; horizon = x.horizon } };

    ghost invariant = { λ x. IsLooks x.places x.horizon x.firsts.items x.classes };
}

impl<'g, 't> Looks<'g, 't> {
    /// The looks to horizon 0.
    pub fn start(alloc: Global, region: &'g Region<'t>) -> Result<Looks<'g, 't>, AllocError>
        ensures region { IfOk result (λ x. x.region ≡ region.now) }
        ensures horizon { IfOk result (λ x. x.horizon ≡ 0) }
    {
        let places = Places::of(alloc, region)?;
        let _region = places.region();
        let (firsts, corner_count) = first_corners(alloc, &places)?;
        let (cells, cell_count) = first_cells(alloc, &places, &firsts)?;
        let classes = Classes {
            cells,
            corners: Vec::from_slice(alloc, &firsts)?,
            cell_count,
            corner_count,
        };
        Ok(Looks {
            alloc,
            places,
            firsts,
            horizon: 0,
            classes,
        })
    }

    /// Goes on to the looks to a horizon one farther, where it is below 4,294,967,295. Out of
    /// memory nothing changes.
    pub fn farther(&mut self) -> Result<(), AllocError>
        requires { self.old.horizon < 4294967295 }
        ensures region { self.new.region ≡ self.old.region }
        ensures horizon { OnOk result (self.new.horizon ≡ self.old.horizon + 1) }
        ensures unchanged { OnErr result (self.new ≡ self.old) }
    {
        let classes = self.next()?;
        self.classes = classes;
        self.horizon += 1;
        Ok(())
    }

    /// The classes to a horizon one farther.
    fn next(&self) -> Result<Classes, AllocError>
        ensures { IfOk result (AreClasses (suc self.now.horizon) self.now.region) }
    {
        let _region = self.places.region();
        let lists = self.classes.lists();
        let (corners, corner_count) = next_corners(
            self.alloc,
            &self.places,
            &self.firsts,
            lists.1,
        )?;
        let (cells, cell_count) = next_cells(self.alloc, &self.places, &corners, lists.0)?;
        Ok(Classes {
            cells,
            corners,
            cell_count,
            corner_count,
        })
    }

    /// The region.
    pub fn region(&self) -> &'g Region<'t>
        ensures { result.now ≡ self.now.region }
    {
        self.places.region()
    }

    /// The classes of the cells and of the corners by their looks to the horizon.
    pub fn classes(&self) -> &Classes
        ensures { AreClasses self.now.horizon self.now.region result.now }
    {
        let _ = &self.places;
        &self.classes
    }

    /// The classes, where nothing farther is looked at.
    pub(crate) fn into_classes(self) -> Classes
        ensures { AreClasses self.entry.horizon self.entry.region result }
    {
        self.classes
    }

    /// Side `j` of a live cell, counted from its parent side, or from side 0 of the first cell.
    pub fn counted(&self, cell: u32, j: u8) -> Dart
        requires live { IsLive self.now.region.table.cells cell }
        requires side { j < sides_of self.now.region cell }
        ensures value { result ≡ counted self.now.region cell j }
        ensures dart { IsDart self.now.region.table result }
    {
        self.places.counted(cell, j)
    }

    /// The rule of side `j` of a live cell, counted from its parent side; None where it has none.
    pub fn rule(&self, cell: u32, j: u8) -> Option<SideRule>
        requires live { IsLive self.now.region.table.cells cell }
        requires side { j < sides_of self.now.region cell }
        ensures { result ≡ rule_of self.now.region cell j }
    {
        self.places.rule(cell, j)
    }

    /// The place of a dart of a live cell round the corner at its left end; None where it has none.
    pub fn place(&self, d: Dart) -> Option<u8>
        requires { IsDart self.now.region.table d }
        ensures { result ≡ place self.now.region d }
    {
        self.places.place(d)
    }

    /// The side next to the right of the base of a dart of a live cell; None where it has no place.
    pub fn outer_side(&self, d: Dart) -> Option<Dart>
        requires { IsDart self.now.region.table d }
        ensures value { result ≡ outer_side self.now.region d }
        ensures dart { IfSome result (IsDart self.now.region.table) }
    {
        self.places.outer_side(d)
    }
}
