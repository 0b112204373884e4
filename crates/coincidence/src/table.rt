// The cells, the slots of their darts, and the renaming of cells that coincide.
//
// A slot of a side below its cell's turn holds the dart that is joined there. Where a turn falls,
// or a cell is renamed, the sides past the turn keep what they held, and what they held still holds
// of the darts that they are now named: it waits there to be joined anew. The cells with such slots
// are chained through their records, so that nothing else need be kept.
ghost use Rattle.std.specs.Prelude.{◌≡◌, ◌==◌, if◌then◌else◌, ℕ, ◌+◌, ◌-◌, ◌*◌, ◌/◌, ◌%◌, ◌<◌, ◌≤◌, ◌≢◌, length, slice_set, IfNone, IfSome, ◌⊎◌, [], OnOk, OnErr, IsOk};
ghost use Rattle.coincidence.specs.Darts.{pack, unpack, slot_at, nowhere, IsTaken};
ghost use Rattle.coincidence.specs.Cells.{name, cell_at, turn_at, IsLive};
ghost use Rattle.coincidence.specs.Atlases.{Atlas, AreOne, HasPeriod, walk_of, LieAcross, IsSound, AllowsFall};
ghost use Rattle.coincidence.specs.Pending.{IsShaped, IsQuiet, IsPending, IsChained, AreCovered, HasUnchained, HasSettled, IsExtended, last_link, written_cell, written_head, MayFall, HasMoved};
ghost use Rattle.coincidence.specs.Followed.{IsFollowed, AreNamed, IsSettled};

use crate::dart::{NOWHERE, WIDTH};
use crate::divisor::common_divisor;
use std::alloc::{AllocError, Global};

/// The end of the chain of cells.
pub(crate) const LAST_LINK: u32 = 4_294_967_294;

/// A cell. `turn` is the number of its sides that are not known to coincide, 0 of a cell that was
/// renamed. Side `i` of a renamed cell became side `i + shift` of the cell `into`. `next` is the
/// next cell of the chain.
#[derive(Clone, Copy, Debug)]
pub(crate) struct Cell {
    pub(crate) turn: u8,
    pub(crate) shift: u8,
    pub(crate) into: u32,
    pub(crate) next: u32,
}

/// All cells, a slot for each of 64 sides of each, the first cell of the chain, and the number of
/// live cells.
#[derive(Debug, Drop)]
pub(crate) struct Table {
    pub(crate) cells: Vec<Cell>,
    pub(crate) slots: Vec<u32>,
    pub(crate) head: u32,
    pub(crate) live: u32,
}

impl Table {
    /// A table of no cells. Takes no memory.
    pub(crate) fn empty(alloc: Global) -> Table
        ensures cells { result.cells.items ≡ [] }
        ensures slots { result.slots.items ≡ [] }
        ensures head { result.head ≡ last_link }
        ensures live { result.live ≡ 0 }
    {
        Table {
            cells: Vec::new(alloc),
            slots: Vec::new(alloc),
            head: LAST_LINK,
            live: 0,
        }
    }

    /// Adds a live cell with so many sides, of which none is joined. Out of memory the table is as
    /// it was.
    pub(crate) fn extend(&mut self, turn: u8) -> Result<(), AllocError>
        requires { self.old.live < 1000000 }
        ensures extended { OnOk result (IsExtended self.old self.new turn) }
        ensures same_cells { OnErr result (self.new.cells.items ≡ self.old.cells.items) }
        ensures same_slots { OnErr result (self.new.slots.items ≡ self.old.slots.items) }
        ensures same_head { OnErr result (self.new.head ≡ self.old.head) }
        ensures same_live { OnErr result (self.new.live ≡ self.old.live) }
    {
        self.cells.reserve(1)?;
        add_empty(&mut self.slots)?;
        self.cells.push(Cell {
            turn,
            shift: 0,
            into: 0,
            next: NOWHERE,
        })?;
        self.live += 1;
        Ok(())
    }

    /// The dart of a live cell that a side of a cell is.
    pub(crate) fn name(&self, cell: u32, side: u32) -> u32
        requires shaped { IsShaped self.now }
        requires cell { cell < length self.now.cells.items }
        requires side { side < 64 }
        ensures { result ≡ pack (name self.now.cells.items (cell, side)) }
    {
        let mut at = cell;
        let mut turned = side;
        let mut here = self.cells[cell as usize];
        while here.turn == 0 {
            turned += here.shift as u32;
            at = here.into;
            here = self.cells[at as usize];
        }
        at * WIDTH + turned % here.turn as u32
    }

    /// Gives a cell a new turn and what it became, and chains it.
    fn write(&mut self, cell: u32, turn: u8, into: u32, shift: u8)
        requires cell { cell < length self.old.cells.items }
        requires live { turn ≡ 0 → 0 < self.old.live }
        ensures cells { self.new.cells.items
            ≡ slice_set self.old.cells.items cell (written_cell
            (cell_at self.old.cells.items cell) turn into shift self.old.head) }
        ensures head { self.new.head ≡ written_head
            (cell_at self.old.cells.items cell) cell self.old.head }
        ensures live { self.new.live ≡ (if turn == 0 then self.old.live - 1 else self.old.live) }
        ensures slots { self.new.slots ≡ self.old.slots }
    {
        let old = self.cells[cell as usize];
        let next = if old.next == NOWHERE {
            self.head
        } else {
            old.next
        };
        if old.next == NOWHERE {
            self.head = cell;
        }
        if turn == 0 {
            self.live -= 1;
        }
        self.cells[cell as usize] = Cell {
            turn,
            shift,
            into,
            next,
        };
    }

    /// Makes the turn of a live cell less: it folds, or becomes another cell.
    fn shrink(&mut self, cell: u32, turn: u8, into: u32, shift: u8)
        requires shaped { IsShaped self.old }
        requires may_fall { MayFall self.old.cells.items cell turn into shift }
        ensures moved { HasMoved self.old self.new }
        ensures cells { self.new.cells.items
            ≡ slice_set self.old.cells.items cell (written_cell
            (cell_at self.old.cells.items cell) turn into shift self.old.head) }
        ensures slots { self.new.slots ≡ self.old.slots }
        ensures sound { (atlas : Atlas) → IsSound atlas self.old.cells.items self.old.slots.items
            → AllowsFall atlas cell turn into shift
            → IsSound atlas self.new.cells.items self.new.slots.items }
    {
        self.write(cell, turn, into, shift);
    }

    /// Lets the turn of a live cell fall to what it has in common with a number of sides.
    fn fold(&mut self, cell: u32, by: u8)
        requires shaped { IsShaped self.old }
        requires cell { cell < length self.old.cells.items }
        requires live { IsLive self.old.cells.items cell }
        ensures moved { HasMoved self.old self.new }
        ensures live { IsLive self.new.cells.items cell }
        ensures divides { by % turn_at self.new.cells.items cell ≡ 0 }
        ensures others { (c : ℕ) → c ≢ cell
            → cell_at self.new.cells.items c ≡ cell_at self.old.cells.items c }
        ensures slots { self.new.slots ≡ self.old.slots }
        ensures sound { (atlas : Atlas) → IsSound atlas self.old.cells.items self.old.slots.items
            → HasPeriod atlas cell by
            → IsSound atlas self.new.cells.items self.new.slots.items }
    {
        let turn = self.cells[cell as usize].turn;
        let less = common_divisor(turn, by);
        if less < turn {
            self.shrink(cell, less, 0, 0);
        }
    }

    /// Renames a live cell: its side `i` becomes side `j` of an earlier live cell.
    fn rename(&mut self, later: u32, i: u32, earlier: u32, j: u32)
        requires shaped { IsShaped self.old }
        requires later { later < length self.old.cells.items }
        requires before { earlier < later }
        requires side { i < turn_at self.old.cells.items later }
        requires other_side { j < turn_at self.old.cells.items earlier }
        ensures moved { HasMoved self.old self.new }
        ensures together { name self.new.cells.items (later, i) ≡ name self.new.cells.items
            (earlier, j) }
        ensures slots { self.new.slots ≡ self.old.slots }
        ensures sound { (atlas : Atlas) → IsSound atlas self.old.cells.items self.old.slots.items
            → AreOne atlas (walk_of atlas (later, i)) (walk_of atlas (earlier, j))
            → IsSound atlas self.new.cells.items self.new.slots.items }
    {
        let turn = self.cells[later as usize].turn;
        self.fold(earlier, turn);
        let shared = self.cells[earlier as usize].turn;
        let shift = (j + (turn as u32 - i)) % shared as u32;
        self.shrink(later, 0, earlier, shift as u8);
    }

    /// Makes two darts of live cells one: their cells are renamed, or the turn of their cell falls.
    fn merge(&mut self, x: u32, y: u32)
        requires shaped { IsShaped self.old }
        requires first { IsSettled self.old.cells.items x }
        requires second { IsSettled self.old.cells.items y }
        ensures moved { HasMoved self.old self.new }
        ensures together { name self.new.cells.items (unpack x) ≡ name self.new.cells.items
            (unpack y) }
        ensures slots { self.new.slots ≡ self.old.slots }
        ensures sound { (atlas : Atlas) → IsSound atlas self.old.cells.items self.old.slots.items
            → AreOne atlas (walk_of atlas (unpack x)) (walk_of atlas (unpack y))
            → IsSound atlas self.new.cells.items self.new.slots.items }
    {
        let (c, i) = (x / WIDTH, x % WIDTH);
        let (e, j) = (y / WIDTH, y % WIDTH);
        if c == e {
            self.fold(c, apart(i, j) as u8);
        } else if e < c {
            self.rename(c, i, e, j);
        } else {
            self.rename(e, j, c, i);
        }
    }

    /// Joins two darts of live cells whose slots are empty.
    pub(crate) fn link(&mut self, a: u32, b: u32)
        requires shaped { IsShaped self.old }
        requires first { IsSettled self.old.cells.items a }
        requires second { IsSettled self.old.cells.items b }
        requires first_empty { slot_at self.old.slots.items a ≡ nowhere }
        requires second_empty { slot_at self.old.slots.items b ≡ nowhere }
        ensures moved { HasMoved self.old self.new }
        ensures cells { self.new.cells ≡ self.old.cells }
        ensures slot { slot_at self.new.slots.items a ≡ b }
        ensures others { (n : ℕ) → n ≢ a → n ≢ b
            → slot_at self.new.slots.items n ≡ slot_at self.old.slots.items n }
        ensures sound { (atlas : Atlas) → IsSound atlas self.old.cells.items self.old.slots.items
            → LieAcross atlas (unpack a) (unpack b)
            → IsSound atlas self.new.cells.items self.new.slots.items }
    {
        self.slots[a as usize] = b;
        self.slots[b as usize] = a;
    }

    /// Joins two darts of live cells. Where one of them was joined to a dart, that dart and the
    /// other one are made one.
    fn step(&mut self, a: u32, b: u32)
        requires shaped { IsShaped self.old }
        requires first { IsSettled self.old.cells.items a }
        requires second { IsSettled self.old.cells.items b }
        ensures moved { HasMoved self.old self.new }
        ensures named { AreNamed self.new.cells.items self.new.slots.items
            (name self.new.cells.items (unpack a))
            (name self.new.cells.items (unpack b)) }
        ensures sound { (atlas : Atlas) → IsSound atlas self.old.cells.items self.old.slots.items
            → LieAcross atlas (unpack a) (unpack b)
            → IsSound atlas self.new.cells.items self.new.slots.items }
    {
        let over_a = self.slots[a as usize];
        let over_b = self.slots[b as usize];
        if over_a != NOWHERE {
            let x = self.name(over_a / WIDTH, over_a % WIDTH);
            self.merge(x, b);
        } else if over_b != NOWHERE {
            let x = self.name(over_b / WIDTH, over_b % WIDTH);
            self.merge(x, a);
        } else {
            self.link(a, b);
        }
    }

    /// Empties the slots of two darts that are joined.
    fn clear(&mut self, dart: u32, over: u32)
        requires shaped { IsShaped self.old }
        requires taken { IsTaken self.old.slots.items dart }
        requires over { over ≡ slot_at self.old.slots.items dart }
        ensures shaped { IsShaped self.new }
        ensures cells { self.new.cells ≡ self.old.cells }
        ensures empty { slot_at self.new.slots.items dart ≡ nowhere }
        ensures still { (n : ℕ) → IsTaken self.new.slots.items n
            → IsTaken self.old.slots.items n × (slot_at self.new.slots.items n
            ≡ slot_at self.old.slots.items n) }
        ensures only { (n : ℕ) → IsTaken self.old.slots.items n
            → (n ≡ dart) ⊎ ((n ≡ over) ⊎ IsTaken self.new.slots.items n) }
    {
        self.slots[dart as usize] = NOWHERE;
        self.slots[over as usize] = NOWHERE;
    }

    /// Joins anew what waits in a slot past its cell's turn, under the names that both darts have
    /// now.
    fn join_anew(&mut self, dart: u32, over: u32)
        requires shaped { IsShaped self.old }
        requires pending { IsPending self.old.cells.items self.old.slots.items dart }
        requires over { over ≡ slot_at self.old.slots.items dart }
        ensures settled { HasSettled self.old self.new }
        ensures covered { AreCovered self.old.cells.items self.old.slots.items
            (dart / 64) (dart % 64)
            → AreCovered self.new.cells.items self.new.slots.items (dart / 64) (dart % 64 + 1) }
    {
        self.clear(dart, over);
        let a = self.name(dart / WIDTH, dart % WIDTH);
        let b = self.name(over / WIDTH, over % WIDTH);
        self.step(a, b);
    }

    /// Joins anew what waits in a slot, if it is past its cell's turn.
    fn settle(&mut self, dart: u32)
        requires shaped { IsShaped self.old }
        requires made { dart < 64 * length self.old.cells.items }
        ensures settled { HasSettled self.old self.new }
        ensures covered { AreCovered self.old.cells.items self.old.slots.items
            (dart / 64) (dart % 64)
            → AreCovered self.new.cells.items self.new.slots.items (dart / 64) (dart % 64 + 1) }
    {
        let over = self.slots[dart as usize];
        let turn = self.cells[(dart / WIDTH) as usize].turn as u32;
        if over != NOWHERE {
            if turn <= dart % WIDTH {
                self.join_anew(dart, over);
            }
        }
    }

    /// Joins anew what waits in the slots of a cell.
    fn settle_cell(&mut self, cell: u32)
        requires shaped { IsShaped self.old }
        requires made { cell < length self.old.cells.items }
        ensures settled { HasSettled self.old self.new }
        ensures covered { AreCovered self.old.cells.items self.old.slots.items cell 0
            → AreCovered self.new.cells.items self.new.slots.items 0 64 }
    {
        for side in 0..WIDTH {
            self.settle(cell * WIDTH + side);
        }
    }

    /// Takes the first cell from the chain.
    fn next_chained(&mut self) -> Option<u32>
        requires { IsShaped self.old }
        ensures none { IfNone result ((c : ℕ) → IsChained self.new.cells.items c → ⊥) }
        ensures same { IfNone result (self.new ≡ self.old) }
        ensures some { IfSome result (HasUnchained self.old self.new) }
    {
        let cell = self.head;
        if cell == LAST_LINK {
            return None;
        }
        let old = self.cells[cell as usize];
        self.head = old.next;
        self.cells[cell as usize] = Cell {
            turn: old.turn,
            shift: old.shift,
            into: old.into,
            next: NOWHERE,
        };
        Some(cell)
    }

    /// Joins anew all that waits.
    fn settle_all(&mut self)
        requires shaped { IsShaped self.old }
        requires covered { AreCovered self.old.cells.items self.old.slots.items 0 64 }
        ensures settled { HasSettled self.old self.new }
        ensures quiet { IsQuiet self.new.cells.items self.new.slots.items }
    {
        while let Some(cell) = self.next_chained() {
            self.settle_cell(cell);
        }
    }

    /// Joins two darts of live cells, and all that follows from it. Takes no memory.
    pub(crate) fn join(&mut self, a: u32, b: u32)
        requires shaped { IsShaped self.old }
        requires quiet { IsQuiet self.old.cells.items self.old.slots.items }
        requires first { IsSettled self.old.cells.items a }
        requires second { IsSettled self.old.cells.items b }
        ensures shaped { IsShaped self.new }
        ensures followed { IsFollowed self.old.cells.items self.old.slots.items
            self.new.cells.items self.new.slots.items }
        ensures quiet { IsQuiet self.new.cells.items self.new.slots.items }
        ensures named { AreNamed self.new.cells.items self.new.slots.items
            (name self.new.cells.items (unpack a))
            (name self.new.cells.items (unpack b)) }
        ensures sound { (atlas : Atlas) → IsSound atlas self.old.cells.items self.old.slots.items
            → LieAcross atlas (unpack a) (unpack b)
            → IsSound atlas self.new.cells.items self.new.slots.items }
    {
        self.step(a, b);
        self.settle_all();
    }
}

/// How far apart two sides are.
fn apart(i: u32, j: u32) -> u32
    ensures { result ≡ (i - j) + (j - i) }
{
    if i < j { j - i } else { i - j }
}

/// Adds the empty slots of one more cell. Out of memory nothing is added.
fn add_empty(slots: &mut Vec<u32>) -> Result<(), AllocError>
    ensures count { OnOk result (length slots.new.items ≡ length slots.old.items + 64) }
    ensures same { IsOk result → (n : ℕ) → slot_at slots.new.items n ≡ slot_at slots.old.items n }
    ensures unchanged { OnErr result (slots.new.items ≡ slots.old.items) }
{
    slots.extend_from_slice(&[NOWHERE; 64])
}
