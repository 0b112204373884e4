// A common divisor of two numbers of turns.
ghost use Rattle.std.specs.Prelude.{◌≡◌, ◌<◌, ◌≤◌, ◌%◌, ℕ};
ghost use Rattle.coincidence.specs.Atlases.{Atlas, HasPeriod};

/// The greatest common divisor. A cell that is the same when turned by the one and by the other is
/// so when turned by it.
pub(crate) fn common_divisor(first: u8, second: u8) -> u8
    requires { 0 < first }
    ensures positive { 0 < result }
    ensures at_most { result ≤ first }
    ensures of_first { first % result ≡ 0 }
    ensures of_second { second % result ≡ 0 }
    ensures periods { (atlas : Atlas) (c : ℕ) → HasPeriod atlas c first → HasPeriod atlas c second
        → HasPeriod atlas c result }
{
    let mut greater = first;
    let mut lesser = second;
    while lesser > 0 {
        let rest = greater % lesser;
        greater = lesser;
        lesser = rest;
    }
    greater
}
