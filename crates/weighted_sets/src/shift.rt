// Differences of places and depths.
ghost use Rattle.std.specs.Prelude.{◌≡◌, ◌+ℤ◌, ◌-ℤ◌, IfSome};

/// The place and the depth of one element less those of another one.
#[derive(Clone, Copy, Debug, PartialEq, Eq)]
pub struct Shift {
    pub place: i32,
    pub depth: i32,
}

impl Shift {
    /// No difference.
    pub const NONE: Shift = Shift { place: 0, depth: 0 };

    /// One shift and then another, or None where the sum is out of range.
    pub fn plus(self, other: Shift) -> Option<Shift>
        ensures place { IfSome result (λ s. s.place ≡ self.place +ℤ other.place) }
        ensures depth { IfSome result (λ s. s.depth ≡ self.depth +ℤ other.depth) }
    {
        Some(Shift {
            place: self.place.checked_add(other.place)?,
            depth: self.depth.checked_add(other.depth)?,
        })
    }

    /// One shift and then the reverse of another, or None where the difference is out of range.
    pub fn minus(self, other: Shift) -> Option<Shift>
        ensures place { IfSome result (λ s. s.place ≡ self.place -ℤ other.place) }
        ensures depth { IfSome result (λ s. s.depth ≡ self.depth -ℤ other.depth) }
    {
        Some(Shift {
            place: self.place.checked_sub(other.place)?,
            depth: self.depth.checked_sub(other.depth)?,
        })
    }
}
