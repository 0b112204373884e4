// The order of branches: two cells, and the way from each to the start cell by parent sides.
ghost use Rattle.std.specs.Prelude.{◌≡◌};

use crate::limits::{BRANCH_PARTS, BRANCH_STEPS, CONTOUR_STEPS};
use crate::parents::Parent;
use crate::patch::Patch;
use coincidence::Dart;
use region_grower::corners::turn_of;

/// Two sides of the cell at which two branches part, and its parent side, if it has one.
#[derive(Clone, Copy, Debug)]
pub(crate) struct Fork {
    a: Dart,
    b: Dart,
    parent: Option<u8>,
}

/// Where two branches that were walked up stand, and the cell whose parent side is needed next.
#[derive(Clone, Copy, Debug)]
pub(crate) struct Part {
    a: Dart,
    b: Dart,
    pub(crate) cell: u32,
}

/// What came of walking up two branches.
#[derive(Clone, Copy, Debug)]
pub(crate) enum Meeting {
    At(Fork),
    Never,
    Needs(Part),
}

/// One step up a branch.
#[derive(Clone, Copy, Debug)]
enum Step {
    To(Dart),
    Ends,
    Needs,
}

/// How far side `i` of a cell with so many sides lies to the left of side `z`.
fn sides_from(i: u8, z: u8, turn: u8) -> u16 {
    let turn = turn.max(1) as u16;
    (i as u16 + turn).saturating_sub(z as u16) % turn
}

impl<'t> Patch<'t> {
    /// From a cell across its parent side.
    fn step_up(&self, cell: u32) -> Step {
        match self.known_parent(cell) {
            Parent::Unknown => Step::Needs,
            Parent::Root => Step::Ends,
            Parent::Side(side) => match self.joins.joined(Dart { cell, side }) {
                Some(over) => Step::To(over),
                None => Step::Ends,
            },
        }
    }

    /// The fork of two sides of one cell.
    fn fork(&self, a: Dart, b: Dart) -> Meeting {
        let cell = a.cell;
        match self.known_parent(cell) {
            Parent::Unknown => Meeting::Needs(Part { a, b, cell }),
            Parent::Root => Meeting::At(Fork { a, b, parent: None }),
            Parent::Side(side) => Meeting::At(Fork {
                a,
                b,
                parent: Some(side),
            }),
        }
    }

    /// Walks up two branches, that of the cell that lies farther first, until they come to one
    /// cell.
    pub(crate) fn meet(&self, a: Dart, b: Dart) -> Meeting {
        let mut a = a;
        let mut b = b;
        for step in 0..BRANCH_STEPS {
            if a.cell == b.cell {
                return self.fork(a, b);
            }
            let of_first = self.distance(a.cell) >= self.distance(b.cell);
            let cell = if of_first { a.cell } else { b.cell };
            match self.step_up(cell) {
                Step::Needs => return Meeting::Needs(Part { a, b, cell }),
                Step::Ends => return Meeting::Never,
                Step::To(over) => {
                    if of_first {
                        a = over;
                    } else {
                        b = over;
                    }
                }
            }
        }
        Meeting::Never
    }

    /// Whether the first branch of a fork comes before the second. Where the cell has no parent
    /// side, the first one does if the second lies less than half way round to the left of it.
    pub(crate) fn is_first(&self, fork: Fork) -> bool {
        let turn = turn_of(&self.joins, fork.a.cell);
        match fork.parent {
            Some(z) => sides_from(fork.b.side, z, turn) > sides_from(fork.a.side, z, turn),
            None => {
                let twice = sides_from(fork.b.side, fork.a.side, turn).saturating_mul(2);
                twice < turn as u16 || (twice == turn as u16 && fork.b.side > fork.a.side)
            }
        }
    }

    /// Whether the branch that leaves through one dart comes before the one that leaves through
    /// another.
    pub(crate) fn is_before(&mut self, a: Dart, b: Dart) -> bool
        ensures { self.new ≡ self.old }
    {
        let is_edge = self.joins.joined(a) == Some(b);
        let mut here = a;
        let mut there = b;
        for part in 0..BRANCH_PARTS {
            match self.meet(here, there) {
                Meeting::Never => return false,
                Meeting::At(fork) => {
                    if is_edge && fork.parent.is_none() {
                        if let Some(is_left) = self.side_of_edge(a, b) {
                            return is_left;
                        }
                    }
                    return self.is_first(fork);
                }
                Meeting::Needs(part) => {
                    let _side = self.parent(part.cell);
                    here = part.a;
                    there = part.b;
                }
            }
        }
        false
    }

    /// Whether a dart whose branch parts from that of the dart across at the start cell is a Left,
    /// if it can be told: by the contours, of which the one that comes to the dart across does, or
    /// does sooner; and else by the ends of the edge, of which the left one lies nearer.
    fn side_of_edge(&mut self, d: Dart, over: Dart) -> Option<bool>
        ensures { self.new ≡ self.old }
    {
        let on_left = self.contour(d, over, true);
        let on_right = self.contour(d, over, false);
        match (on_left, on_right) {
            (Some(_), None) => return Some(true),
            (None, Some(_)) => return Some(false),
            (Some(l), Some(r)) => {
                if l != r {
                    return Some(l < r);
                }
            }
            (None, None) => {}
        }
        let left_end = self.outness(d);
        let right_end = self.outness(self.right(d));
        if left_end == right_end {
            None
        } else {
            Some(left_end.is_nearer(right_end))
        }
    }

    /// The steps of the contour of the tree from a dart to the one that it is joined to, leftward
    /// or rightward; None where it comes to a side that is not joined, or takes too many.
    fn contour(&mut self, d: Dart, goal: Dart, leftward: bool) -> Option<u32>
        ensures { self.new ≡ self.old }
    {
        let mut at = d;
        for step in 0..CONTOUR_STEPS {
            let next = if leftward {
                self.left(at)
            } else {
                self.right(at)
            };
            let over = self.joins.joined(next)?;
            if next == goal {
                return Some(step);
            }
            at = if self.is_tree_side(next, over) {
                over
            } else {
                next
            };
        }
        None
    }

    /// Whether a dart, or the one that it is joined to, is the parent side of its cell.
    fn is_tree_side(&mut self, d: Dart, over: Dart) -> bool
        ensures { self.new ≡ self.old }
    {
        self.parent(d.cell) == Some(d.side) || self.parent(over.cell) == Some(over.side)
    }
}
