// Darts, and their packed form.
ghost use Rattle.std.specs.Prelude.{◌≡◌, ◌<◌};
ghost use Rattle.coincidence.specs.Darts.{pack, unpack};

use std::marker::Model;

/// What stands where there is no dart and no cell.
pub(crate) const NOWHERE: u32 = 4_294_967_295;

/// The number of sides for which each cell has room.
pub(crate) const WIDTH: u32 = 64;

/// A side of a cell of the table.
#[derive(Clone, Copy, Debug, PartialEq, Eq)]
pub struct Dart {
    pub cell: u32,
    pub side: u8,
}

impl Model for Dart {
    ghost use Rattle.std.specs.Prelude.{ℕ};

    ghost Value = { ℕ × ℕ };

    ghost view = { λ d. (d.cell, d.side) };

    ghost inverse = { λ d. record { cell = d.0; side = d.1 } };
}

/// A dart in one number: 64 numbers for each cell, of which a side has its own.
pub(crate) fn packed(d: Dart) -> u32
    requires cell { d.0 < 1000000 }
    requires side { d.1 < 64 }
    ensures { result ≡ pack d }
{
    d.cell * WIDTH + d.side as u32
}

/// The dart of a number.
pub(crate) fn unpacked(dart: u32) -> Dart
    ensures { result ≡ unpack dart }
{
    Dart {
        cell: dart / WIDTH,
        side: (dart % WIDTH) as u8,
    }
}
