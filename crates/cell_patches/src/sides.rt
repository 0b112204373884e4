// Sets of sides of one cell.
ghost use Rattle.std.specs.Prelude.{◌≡◌, ℕ, ◌⊎◌, slice_index_or, false};

use std::marker::Model;

/// Some of the sides of a cell, of which it has at most 64: for each number below 64, whether that
/// side is among them.
#[derive(Clone, Copy, Debug)]
pub struct Sides {
    among: [bool; 64],
}

impl Model for Sides {
    ghost use Rattle.std.specs.Prelude.{List, Bool};

    ghost Value = { List Bool };

    ghost view = { λ s. s.among };

    ghost inverse = { λ v. record { among = v } };
}

impl Sides {
    ghost use Rattle.cell_patches.specs.Patches.{IsAmong};

    /// No side.
    pub(crate) fn none() -> Sides
        ensures { (i : ℕ) → IsAmong result i → ⊥ }
    {
        Sides { among: [false; 64] }
    }

    /// These, and a side below 64.
    pub(crate) fn with(self, side: u8) -> Sides
        ensures { (i : ℕ) → IsAmong result i → IsAmong self i ⊎ (i ≡ side) }
    {
        if side >= 64 {
            return self;
        }
        let mut among = self.among;
        among[side as usize] = true;
        Sides { among }
    }

    /// Whether a side is among them; no side of number 64 or more is.
    pub fn has(self, side: u8) -> bool
        ensures { result ≡ slice_index_or self side false }
    {
        match self.among.get(side as usize) {
            Some(is_among) => *is_among,
            None => false,
        }
    }

    /// The one side, if there is exactly one below a number.
    pub(crate) fn sole(self, below: u8) -> Option<u8> {
        let mut sole = None;
        for side in 0..below {
            if self.has(side) {
                if sole.is_some() {
                    return None;
                }
                sole = Some(side);
            }
        }
        sole
    }
}
