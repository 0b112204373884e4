//! `Classes`: the numbers of the looks of all cells and corners of a region.
ghost use Rattle.std.specs.Prelude.{◌≡◌};

use std::marker::Model;

/// Numbers of looks in order of first sight: of each cell that was made, and of the corner of each
/// of its sides, in order of cells and then of sides. None stands where a look leaves the finished
/// part of the region.
#[derive(Debug, Drop)]
pub struct Classes {
    pub cells: Vec<Option<u32>>,
    pub corners: Vec<Option<u32>>,
    pub cell_count: u32,
    pub corner_count: u32,
}

impl Model for Classes {
    ghost use Rattle.look_classes.specs.Classes.{ClassLists};

    ghost Value = { ClassLists };

    ghost view = { λ c. record {
      cells = c.cells.items;
      corners = c.corners.items;
      cell_count = c.cell_count;
      corner_count = c.corner_count;
    } };
}

impl Classes {
    /// The numbers of cells and those of corners.
    pub(crate) fn lists(&self) -> (&[Option<u32>], &[Option<u32>])
        ensures cells { result.0.now ≡ self.now.cells }
        ensures corners { result.1.now ≡ self.now.corners }
    {
        (self.cells.as_slice(), self.corners.as_slice())
    }
}
