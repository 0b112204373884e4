// All patches of a tessellation.
ghost use Rattle.std.specs.Prelude.{◌≡◌, ◌≤◌, ◌<◌, length, IfOk, IfSome, IfNone, Some, None, IsTrue, ℕ};
ghost use Rattle.tile_model.specs.Tessellations.{IsType, valence};

use crate::dart::PatchDart;
use crate::patch::Patch;
use crate::sides::Sides;
use coincidence::Dart;
use region_grower::corners::turn_of;
use std::alloc::{AllocError, Global};
use std::marker::Model;
use tile_kinds::{DartType, Tessellation};

/// A patch for each kind of a tessellation, which is borrowed: cells round a start cell of that
/// kind, made where they are asked for, and at most so many in all patches together.
///
/// A dart that is not there, or whose cell was not made, is harmless: it is joined to none, its
/// numbers are 0, and it lies as far away as a number can say.
#[derive(Debug, Drop)]
pub struct Patches<'t> {
    tessellation: &'t Tessellation,
    patches: Vec<Patch<'t>>,
    most: u32,
    made: u32,
    changes: u64,
}

impl<'t> Model for Patches<'t> {
    ghost use Rattle.std.specs.Prelude.{◌≡◌, ◌≤◌};
    ghost use Rattle.cell_patches.specs.Patches.{PatchTables, cells_made};

    ghost Value = { PatchTables };

    ghost view = { λ p. record {
      kinds = p.tessellation.now;
      patches = p.patches.items;
      most = p.most;
      changes = p.changes;
    } };

    ghost invariant = { λ p. (p.made ≡ cells_made p.patches.items) × (p.made ≤ p.most) };
}

/// A dart within its patch.
fn within(d: PatchDart) -> Dart
    ensures { result ≡ (d.cell, d.side) }
{
    Dart {
        cell: d.cell,
        side: d.side,
    }
}

/// A dart within a patch, as one of the patch.
fn of_patch(patch: u8, d: Dart) -> PatchDart
    ensures patch { result.patch ≡ patch }
    ensures dart { (result.cell, result.side) ≡ d }
{
    PatchDart {
        patch,
        cell: d.cell,
        side: d.side,
    }
}

impl<'t> Patches<'t> {
    ghost use Rattle.coincidence.specs.Cells.{name, turn_at};
    ghost use Rattle.coincidence.specs.Tables.{type_at};
    ghost use Rattle.region_grower.specs.Corners.{IsWhole};
    ghost use Rattle.cell_patches.specs.Patches.{PatchState, IsThere, IsAmong, LeadsNearer, cells_made, distance_in};
    ghost use Rattle.cell_patches.specs.Patches.{joined_in_patch, sides_in, turned_in};

    /// Patches of one start cell each, with at most so many cells in all; None exactly where these
    /// are fewer than the kinds.
    ///
    /// # Errors
    /// Out of memory.
    pub fn start(
        alloc: Global,
        t: &'t Tessellation,
        most: u32,
    ) -> Result<Option<Patches<'t>>, AllocError>
        ensures kinds { IfOk result (λ o. IfSome o (λ p. p.kinds ≡ t.now)) }
        ensures most { IfOk result (λ o. IfSome o (λ p. p.most ≡ most)) }
        ensures patches { IfOk result (λ o. IfSome o (λ p. length p.patches ≡ length t.now)) }
        ensures made { IfOk result (λ o. IfSome o (λ p. cells_made p.patches ≡ length t.now)) }
        ensures none { IfOk result (λ o. IfNone o (most < length t.now)) }
    {
        let kinds = t.kinds();
        if most < kinds as u32 {
            return Ok(None);
        }
        let patches = Patches::start_each(alloc, t)?;
        Ok(Some(Patches {
            tessellation: t,
            patches,
            most,
            made: kinds as u32,
            changes: 0,
        }))
    }

    /// One patch for each kind, of one cell.
    fn start_each(alloc: Global, t: &'t Tessellation) -> Result<Vec<Patch<'t>>, AllocError>
        ensures patches { IfOk result (λ ps. length ps.items ≡ length t.now) }
        ensures made { IfOk result (λ ps. cells_made ps.items ≡ length t.now) }
    {
        let mut patches = Vec::new(alloc);
        for kind in 0..t.kinds() {
            patches.push(Patch::start(alloc, t, kind as u8)?)?;
        }
        Ok(patches)
    }

    /// The number of cells made in all patches, renamed ones among them.
    pub fn made(&self) -> u32
        ensures value { result ≡ cells_made self.now.patches }
        ensures at_most { result ≤ self.now.most }
    {
        self.made
    }

    /// How many cells may be made in all.
    pub fn most(&self) -> u32
        ensures { result ≡ self.now.most }
    {
        self.most
    }

    /// The tessellation that was handed in.
    pub fn tessellation(&self) -> &Tessellation
        ensures { result.now ≡ self.now.kinds }
    {
        self.tessellation
    }

    /// A number that rises with each cell made, each join, each renaming and each distance that
    /// falls, until it comes to its bound.
    pub fn changes(&self) -> u64
        ensures { result ≡ self.now.changes }
    {
        self.changes
    }

    /// Side 0 of the start cell of a kind.
    pub fn start_of(&self, kind: u8) -> PatchDart
        ensures patch { result.patch ≡ kind }
        ensures cell { result.cell ≡ 0 }
        ensures side { result.side ≡ 0 }
    {
        PatchDart {
            patch: kind,
            cell: 0,
            side: 0,
        }
    }

    /// The dart of a live cell that a dart is now: a renamed cell is followed to what it became,
    /// and the side is below the turn. A dart of a cell that was not made is left alone.
    pub fn named(&self, d: PatchDart) -> PatchDart
        ensures name { (s : PatchState) → IsThere self.now d.patch (d.cell, d.side) s
            → (result.cell, result.side) ≡ name s.table.cells (d.cell, d.side) }
        ensures patch { result.patch ≡ d.patch }
    {
        match self.patches.get(d.patch as usize) {
            Some(patch) => of_patch(d.patch, patch.named(within(d))),
            None => d,
        }
    }

    /// The dart that a dart is joined to; None where nothing is joined there. A dart of a renamed
    /// cell is joined to none.
    pub fn joined(&self, d: PatchDart) -> Option<PatchDart>
        ensures some { IfSome result (λ e. joined_in_patch self.now d.patch (d.cell, d.side)
            ≡ Some (e.cell, e.side)) }
        ensures none { IfNone result (joined_in_patch self.now d.patch (d.cell, d.side) ≡ None) }
        ensures patch { IfSome result (λ e. e.patch ≡ d.patch) }
    {
        match self.patches.get(d.patch as usize) {
            Some(patch) => match patch.joins.joined(within(d)) {
                Some(over) => Some(of_patch(d.patch, over)),
                None => None,
            },
            None => None,
        }
    }

    /// The dart so many sides to the left, of the cell as it is named now.
    pub fn turned(&self, d: PatchDart, sides: u8) -> PatchDart
        ensures dart { (s : PatchState) → IsThere self.now d.patch (d.cell, d.side) s
            → (result.cell, result.side) ≡ turned_in s.table (d.cell, d.side) sides }
        ensures patch { result.patch ≡ d.patch }
    {
        match self.patches.get(d.patch as usize) {
            Some(patch) => of_patch(d.patch, patch.turned(within(d), sides)),
            None => d,
        }
    }

    /// The number of sides of a tile of its kind, 3 to 64; 0 of a cell that was not made.
    pub fn sides(&self, d: PatchDart) -> u8
        ensures value { (s : PatchState) → IsThere self.now d.patch (d.cell, d.side) s
            → result ≡ sides_in s.table d.cell }
        ensures at_most { result ≤ 64 }
    {
        match self.patches.get(d.patch as usize) {
            Some(patch) => patch.sides(d.cell),
            None => 0,
        }
    }

    /// The number of sides of its cell that are not known to coincide; 0 of a cell that is not
    /// live.
    pub fn turn(&self, d: PatchDart) -> u8
        ensures { (s : PatchState) → IsThere self.now d.patch (d.cell, d.side) s
            → result ≡ turn_at s.table.cells d.cell }
    {
        match self.patches.get(d.patch as usize) {
            Some(patch) => turn_of(&patch.joins, d.cell),
            None => 0,
        }
    }

    /// The number of tiles round the corner at the left end of the side, 3 to 64; 0 of a cell that
    /// was not made.
    pub fn valence(&self, d: PatchDart) -> u8
        ensures value { (s : PatchState) → IsThere self.now d.patch (d.cell, d.side) s
            → result ≡ valence s.table.kinds (type_at s.table (d.cell, d.side)) }
        ensures at_most { result ≤ 64 }
    {
        match self.patches.get(d.patch as usize) {
            Some(patch) => patch.valence(within(d)),
            None => 0,
        }
    }

    /// The type of the side; of a cell that was not made, that of side 0 of kind 0.
    pub fn type_of(&self, d: PatchDart) -> DartType
        ensures { IsType self.now.kinds result }
    {
        if let Some(patch) = self.patches.get(d.patch as usize) {
            if let Some(t) = patch.type_of(within(d)) {
                if self.tessellation.has(t) {
                    return t;
                }
            }
        }
        // That there is a kind is told with their number: it is read for the proof alone.
        let _kinds = self.tessellation.kinds();
        self.tessellation.start(0)
    }

    /// The least known number of crossings from the start cell of the patch; that of joined cells
    /// differs by at most 1. Of a cell that was not made the greatest number.
    pub fn distance(&self, d: PatchDart) -> u32
        ensures { (s : PatchState) → IsThere self.now d.patch (d.cell, d.side) s
            → result ≡ distance_in s d.cell }
    {
        match self.patches.get(d.patch as usize) {
            Some(patch) => patch.distance(d.cell),
            None => u32::MAX,
        }
    }

    /// Makes and closes all tiles round the corner at the left end of the dart, as it is named now.
    /// False where as many cells were made as may be, and the corner is not whole.
    ///
    /// # Errors
    /// Out of memory all stands sound, and may have grown in part; some distances may be too great.
    pub fn close_corner(&mut self, d: PatchDart) -> Result<bool, AllocError>
        ensures whole { IfOk result (λ whole. IsTrue whole → (s : PatchState)
            → IsThere self.new d.patch (d.cell, d.side) s
            → IsWhole s.table (name s.table.cells (d.cell, d.side))) }
        ensures kinds { self.new.kinds ≡ self.old.kinds }
        ensures most { self.new.most ≡ self.old.most }
        ensures changes { self.old.changes ≤ self.new.changes }
    {
        let at = d.patch as usize;
        if at >= self.patches.len() {
            return Ok(false);
        }
        let before = self.patches[at].made();
        let changes = self.patches[at].changes;
        let most = before + (self.most - self.made);
        let answer = self.patches[at].close_corner(within(d), most);
        self.made = self.made - before + self.patches[at].made();
        let more = self.patches[at].changes.saturating_sub(changes);
        self.changes = self.changes.saturating_add(more);
        answer
    }

    /// The sides of its cell from which the parent side is chosen: those that lead nearer to the
    /// start cell and have none such next to their left, or else all that lead nearer.
    pub fn lasts(&self, d: PatchDart) -> Sides
        ensures { (s : PatchState) → IsThere self.now d.patch (d.cell, d.side) s → (i : ℕ)
            → IsAmong result i → LeadsNearer s (d.cell, i) }
    {
        match self.patches.get(d.patch as usize) {
            Some(patch) => patch.lasts(d.cell),
            None => Sides::none(),
        }
    }

    /// The parent side of its cell, of the sides that lead nearer the last one; None of a start
    /// cell.
    pub fn parent(&mut self, d: PatchDart) -> Option<PatchDart>
        ensures same { self.new ≡ self.old }
        ensures patch { IfSome result (λ e. e.patch ≡ d.patch) }
        ensures cell { IfSome result (λ e. e.cell ≡ d.cell) }
    {
        let at = d.patch as usize;
        if at >= self.patches.len() {
            return None;
        }
        let side = self.patches[at].parent(d.cell)?;
        Some(PatchDart {
            patch: d.patch,
            cell: d.cell,
            side,
        })
    }

    /// The parent side of the cell of a dart, if it was settled and nothing changed next to the
    /// cell since.
    pub(crate) fn settled_parent(&self, d: PatchDart) -> Option<PatchDart>
        ensures patch { IfSome result (λ e. e.patch ≡ d.patch) }
        ensures cell { IfSome result (λ e. e.cell ≡ d.cell) }
    {
        let patch = self.patches.get(d.patch as usize)?;
        let side = patch.settled_parent(d.cell)?;
        Some(PatchDart { side, ..d })
    }

    /// Notes that the corners are closed from which the parent side of a cell was chosen.
    pub(crate) fn keep_settled(&mut self, d: PatchDart)
        ensures { self.new ≡ self.old }
    {
        let at = d.patch as usize;
        if at < self.patches.len() {
            self.patches[at].note_settled(d.cell);
        }
    }

    /// Whether the branch that leaves through the first dart comes before the one that leaves
    /// through the second, from left to right. Of a dart that is joined to the other one: whether
    /// it is a Left.
    pub fn is_before(&mut self, a: PatchDart, b: PatchDart) -> bool
        ensures { self.new ≡ self.old }
    {
        let at = a.patch as usize;
        if at >= self.patches.len() {
            return false;
        }
        self.patches[at].is_before(within(a), within(b))
    }
}
