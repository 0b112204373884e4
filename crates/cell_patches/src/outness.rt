// How far out a corner lies: by the distances of the known tiles round it.

use crate::patch::Patch;
use coincidence::Dart;

/// The greatest and the least distance of some cells, and a thousand times their mean, rounded
/// down.
#[derive(Clone, Copy, Debug, PartialEq, Eq)]
pub(crate) struct Outness {
    pub(crate) greatest: u32,
    pub(crate) least: u32,
    pub(crate) mean: u64,
}

impl Outness {
    /// Whether these lie farther out than others: by the greatest distance, then by the least, and
    /// then by the mean.
    pub(crate) fn is_farther(self, other: Outness) -> bool {
        if self.greatest != other.greatest {
            return self.greatest > other.greatest;
        }
        if self.least != other.least {
            return self.least > other.least;
        }
        self.mean > other.mean
    }

    /// Whether these lie nearer than others: by the least distance, then by the mean, and then by
    /// the greatest.
    pub(crate) fn is_nearer(self, other: Outness) -> bool {
        if self.least != other.least {
            return self.least < other.least;
        }
        if self.mean != other.mean {
            return self.mean < other.mean;
        }
        self.greatest < other.greatest
    }
}

/// Distances that were seen.
#[derive(Clone, Copy, Debug)]
struct Seen {
    greatest: u32,
    least: u32,
    sum: u64,
    count: u64,
}

impl Seen {
    /// One distance.
    fn first(distance: u32) -> Seen {
        Seen {
            greatest: distance,
            least: distance,
            sum: distance as u64,
            count: 1,
        }
    }

    /// One more.
    fn and(self, distance: u32) -> Seen {
        Seen {
            greatest: self.greatest.max(distance),
            least: self.least.min(distance),
            sum: self.sum.saturating_add(distance as u64),
            count: self.count.saturating_add(1),
        }
    }

    /// What they come to.
    fn outness(self) -> Outness {
        Outness {
            greatest: self.greatest,
            least: self.least,
            mean: self.sum.saturating_mul(1000) / self.count.max(1),
        }
    }
}

impl<'t> Patch<'t> {
    /// How far out the corner at the left end of a dart lies, by the tiles that are known from the
    /// dart on: going left, and where that does not lead all round, then going right.
    pub(crate) fn outness(&self, d: Dart) -> Outness {
        let valence = self.valence(d);
        let mut seen = Seen::first(self.distance(d.cell));
        let mut at = d;
        for step in 1..valence {
            match self.joins.joined(self.left(at)) {
                Some(over) => {
                    at = over;
                    seen = seen.and(self.distance(over.cell));
                }
                None => return self.outness_on_right(d, valence - step, seen),
            }
        }
        seen.outness()
    }

    /// The same, going right so many steps at most, with what was seen on the left.
    fn outness_on_right(&self, d: Dart, steps: u8, seen: Seen) -> Outness {
        let mut seen = seen;
        let mut at = d;
        for step in 0..steps {
            match self.joins.joined(at) {
                Some(over) => {
                    seen = seen.and(self.distance(over.cell));
                    at = self.right(over);
                }
                None => return seen.outness(),
            }
        }
        seen.outness()
    }
}
