// Parent sides. Of the sides that lead nearer the last ones are taken; of several of these the one
// whose left end lies farthest out, and at a draw the first in the order of the branches that they
// lead to.
//
// The parent side of a cell needs those of nearer cells only, at a draw. A cell waits for these in
// a chain that leads through the notes, and is looked at again when they are known.
ghost use Rattle.std.specs.Prelude.{◌≡◌, ℕ, true};
ghost use Rattle.cell_patches.specs.Patches.{IsAmong, LeadsNearer};

use crate::branches::Meeting;
use crate::limits::PARENT_LOOKS;
use crate::note::Known;
use crate::outness::Outness;
use crate::patch::Patch;
use crate::sides::Sides;
use coincidence::Dart;
use region_grower::corners::turn_of;

/// The parent side of a cell, if it is known: a side, or none, as of a start cell.
#[derive(Clone, Copy, Debug)]
pub(crate) enum Parent {
    Unknown,
    Root,
    Side(u8),
}

/// What a look for a parent side came to: it is known, or it needs that of another cell.
#[derive(Clone, Copy, Debug)]
enum Look {
    Found(Known),
    Needs(u32),
}

/// A side that may be the parent side, and how far out its left end lies.
#[derive(Clone, Copy, Debug)]
struct Candidate {
    side: u8,
    outness: Outness,
}

/// Whether one candidate comes before another, or that this needs the parent side of a cell.
#[derive(Clone, Copy, Debug)]
enum Order {
    Before,
    After,
    Needs(u32),
}

impl<'t> Patch<'t> {
    /// Whether the cell across a side lies one crossing nearer.
    fn leads_nearer(&self, d: Dart) -> bool
        ensures { result ≡ true → LeadsNearer self.now d }
    {
        let Some(over) = self.joins.joined(d) else {
            return false;
        };
        let here = self.distance(d.cell);
        let there = self.distance(over.cell);
        there < here && there + 1 == here
    }

    /// The sides of a cell that lead nearer.
    fn nearer_sides(&self, cell: u32) -> Sides
        ensures { (i : ℕ) → IsAmong result i → LeadsNearer self.now (cell, i) }
    {
        let mut sides = Sides::none();
        for side in 0..turn_of(&self.joins, cell) {
            if self.leads_nearer(Dart { cell, side }) {
                sides = sides.with(side);
            }
        }
        sides
    }

    /// The sides of a cell that lead nearer and have none such next to their left, or else all that
    /// lead nearer.
    pub(crate) fn lasts(&self, cell: u32) -> Sides
        ensures { (i : ℕ) → IsAmong result i → LeadsNearer self.now (cell, i) }
    {
        let nearer = self.nearer_sides(cell);
        let mut lasts = Sides::none();
        let mut some = false;
        for side in 0..turn_of(&self.joins, cell) {
            if nearer.has(side) && !nearer.has(self.left(Dart { cell, side }).side) {
                lasts = lasts.with(side);
                some = true;
            }
        }
        if some { lasts } else { nearer }
    }

    /// What is known of the parent side of a cell.
    pub(crate) fn known_parent(&self, cell: u32) -> Parent {
        let Some(note) = self.notes.get(cell as usize) else {
            return Parent::Root;
        };
        if self.distance(cell) == 0 {
            return Parent::Root;
        }
        match note.known {
            Known::Nothing => Parent::Unknown,
            Known::Sole(side, era) => {
                if era == self.era {
                    Parent::Side(side)
                } else {
                    Parent::Unknown
                }
            }
            Known::Chosen(choice, changes) => {
                if changes != self.changes {
                    return Parent::Unknown;
                }
                match choice {
                    Some(side) => Parent::Side(side),
                    None => Parent::Root,
                }
            }
        }
    }

    /// The parent side of a cell, None of a start cell.
    pub(crate) fn parent(&mut self, cell: u32) -> Option<u8>
        ensures { self.new ≡ self.old }
    {
        match self.known_parent(cell) {
            Parent::Unknown => self.find_parent(cell),
            Parent::Root => {}
            Parent::Side(side) => return Some(side),
        }
        match self.known_parent(cell) {
            Parent::Side(side) => Some(side),
            _ => None,
        }
    }

    /// Finds the parent side of a cell, and those that it needs.
    fn find_parent(&mut self, cell: u32)
        ensures { self.new ≡ self.old }
    {
        let mut at = cell;
        for look in 0..PARENT_LOOKS {
            match self.look(at) {
                Look::Needs(other) => {
                    self.let_wait(at, other);
                    at = other;
                }
                Look::Found(known) => {
                    self.learn(at, known);
                    if at == cell {
                        return;
                    }
                    at = self.waiting(at);
                }
            }
        }
    }

    /// Notes that the one cell waits for the parent side of the other.
    fn let_wait(&mut self, cell: u32, other: u32)
        ensures { self.new ≡ self.old }
    {
        if let Some(note) = self.notes.get_mut(other as usize) {
            note.waiting = cell;
        }
    }

    /// The cell that waits for the parent side of this one.
    fn waiting(&self, cell: u32) -> u32 {
        match self.notes.get(cell as usize) {
            Some(note) => note.waiting,
            None => 0,
        }
    }

    /// Notes what is known of the parent side of a cell.
    fn learn(&mut self, cell: u32, known: Known)
        ensures { self.new ≡ self.old }
    {
        if let Some(note) = self.notes.get_mut(cell as usize) {
            note.known = known;
            note.settled = false;
        }
    }

    /// The parent side of a cell, if it was settled and nothing changed next to the cell since.
    pub(crate) fn settled_parent(&self, cell: u32) -> Option<u8> {
        let note = self.notes.get(cell as usize)?;
        match note.known {
            Known::Sole(side, era) if note.settled && era == self.era => Some(side),
            _ => None,
        }
    }

    /// Notes that the corners are closed from which the parent side of a cell was chosen.
    pub(crate) fn note_settled(&mut self, cell: u32)
        ensures { self.new ≡ self.old }
    {
        if let Some(note) = self.notes.get_mut(cell as usize) {
            note.settled = true;
        }
    }

    /// Looks for the parent side of a cell.
    fn look(&self, cell: u32) -> Look {
        let lasts = self.lasts(cell);
        match lasts.sole(turn_of(&self.joins, cell)) {
            Some(side) => Look::Found(Known::Sole(side, self.era)),
            None => self.look_among(cell, lasts),
        }
    }

    /// Looks for the parent side of a cell among several.
    fn look_among(&self, cell: u32, lasts: Sides) -> Look {
        let mut best = None;
        for side in 0..turn_of(&self.joins, cell) {
            if lasts.has(side) {
                let candidate = Candidate {
                    side,
                    outness: self.outness(Dart { cell, side }),
                };
                match self.compare(cell, candidate, best) {
                    Order::Before => best = Some(candidate),
                    Order::After => {}
                    Order::Needs(other) => return Look::Needs(other),
                }
            }
        }
        let choice = best.map(|candidate| candidate.side);
        Look::Found(Known::Chosen(choice, self.changes))
    }

    /// Whether a candidate comes before the best one yet: it lies farther out, or as far and is
    /// first in the order of the branches.
    fn compare(&self, cell: u32, candidate: Candidate, best: Option<Candidate>) -> Order {
        let Some(best) = best else {
            return Order::Before;
        };
        if candidate.outness != best.outness {
            return if candidate.outness.is_farther(best.outness) {
                Order::Before
            } else {
                Order::After
            };
        }
        let here = Dart {
            cell,
            side: candidate.side,
        };
        let there = Dart {
            cell,
            side: best.side,
        };
        match (self.joins.joined(here), self.joins.joined(there)) {
            (Some(a), Some(b)) => self.compare_branches(a, b),
            _ => Order::After,
        }
    }

    /// Whether the branch through the one dart comes before that through the other.
    fn compare_branches(&self, a: Dart, b: Dart) -> Order {
        match self.meet(a, b) {
            Meeting::Needs(part) => Order::Needs(part.cell),
            Meeting::Never => Order::After,
            Meeting::At(fork) => {
                if self.is_first(fork) {
                    Order::Before
                } else {
                    Order::After
                }
            }
        }
    }
}
