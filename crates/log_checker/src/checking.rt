//! The checker: it follows the changes of a log, each in the walk that those before it lead to.
ghost use Rattle.std.specs.Prelude.{◌≡◌, ◌≢◌, ◌↔◌, ◌++◌, ℕ, List, take, false};
ghost use Rattle.std.specs.Prelude.{IsTrue, IsOk, IfOk, IsErrOf, IfSome, IfNone};
ghost use Rattle.tile_model.specs.declared.Letter.{Letter};
ghost use Rattle.tile_model.specs.Tessellations.{IsType};
ghost use Rattle.tile_model.specs.Validity.{IsValid};
ghost use Rattle.tile_model.specs.Walks.{type_of};
ghost use Rattle.tile_model.specs.Relation.{Changes, Lead};
ghost use Rattle.log_model.specs.Logs.{IsAllowed, IsFirstRefused, LeadsElsewhere};
ghost use Rattle.log_checker.specs.Footprints.{letters, AreTyped};
ghost use Rattle.log_checker.specs.Trails.{joined, walk_of, Begins, Covers};

use crate::footprints::{Footprint, after, with_types};
use crate::loops::loop_at;
use crate::piece::Piece;
use crate::seeking::{Start, seek};
use crate::trail::{pieces_of, put, take_out};
use log_model::Change;
use std::alloc::{AllocError, Global};
use thiserror::Error;
use tile_kinds::{DartType, Tessellation};
use tile_model::Letter;
use walk_words::Walk;

/// Why a log does not lead from a walk to another.
#[derive(Clone, Copy, Debug, PartialEq, Eq, Error)]
pub enum LogFault {
    /// The change of this number, counted from 1, is the first that is not allowed.
    #[error("change {0} is not allowed")]
    Change(u64),
    /// All changes are allowed, and lead to another walk.
    #[error("the changes lead to another walk")]
    End,
    /// There is no memory for the walk.
    #[error("out of memory")]
    Memory,
}

impl From<AllocError> for LogFault {
    ghost use Rattle.std.specs.Prelude.{◌≡◌};
    ghost use Rattle.log_checker.specs.declared.checking.LogFault.TheVariants.{Memory};

    ghost from_gives = { λ _ fault. fault ≡ Memory };

    fn from(_: AllocError) -> Self {
        LogFault::Memory
    }
}

/// Follows a log of changes from the walk `u`, and answers whether it leads to the walk `w`. Both
/// are walks from the type `from`.
/// A change takes time in proportion to the letters of its loop, to some thousands of letters that
/// are moved, and to the way from the place of the change before it, counted in thousands of letters.
///
/// # Errors
///
/// `Change` has the number, counted from 1, of the first change that is not allowed: its place is
/// past the end of the walk, its loop is not 1 to 5, or that loop is to be deleted and does not
/// follow. `End` comes exactly where all changes are allowed and lead to another walk.
pub fn verify(
    alloc: Global,
    t: &Tessellation,
    from: DartType,
    u: &Walk,
    log: &[Change],
    w: &Walk,
) -> Result<(), LogFault>
    requires { IsType t.now from }
    ensures leads { IsOk result → Lead t.now from log.now u.now w.now }
    ensures change { (n : ℕ) → IsErrOf result (LogFault.Change n)
        → IsFirstRefused t.now from u.now log.now n }
    ensures end { IsErrOf result LogFault.End → LeadsElsewhere t.now from log.now u.now w.now }
{
    // That its kinds are valid is told by this call: the type after a loop is that before it.
    let _valid = t.all_kinds();
    let mut trail = Trail::new(alloc, t, from, u.letters())?;
    for (done, change) in log.iter().enumerate() {
        if !trail.apply(alloc, t, from, *change)? {
            return Err(LogFault::Change(done as u64 + 1));
        }
    }
    if !is_walk(&trail.pieces, w.letters()) {
        return Err(LogFault::End);
    }
    Ok(())
}

/// The walk that the changes so far lead to, in pieces, and the piece of the last change.
#[derive(Drop)]
struct Trail {
    pieces: Vec<Piece>,
    near: Start,
}

impl Trail {
    /// The walk `u`, from a type.
    fn new(
        alloc: Global,
        t: &Tessellation,
        from: DartType,
        u: &[Letter],
    ) -> Result<Trail, AllocError>
        requires { IsType t.now from }
        ensures typed { IfOk result (λ trail. AreTyped t.now from (joined trail.pieces.items)) }
        ensures begins { IfOk result
            (λ trail. Begins trail.pieces.items trail.near.index trail.near.before) }
        ensures walk { IfOk result (λ trail. walk_of trail.pieces.items ≡ u.now) }
    {
        let footprints = with_types(alloc, t, from, u)?;
        let pieces = pieces_of(alloc, &footprints)?;
        let near = Start {
            index: 0,
            before: 0,
        };
        Ok(Trail { pieces, near })
    }

    /// Makes a change, where it is allowed. It answers whether it is.
    fn apply(
        &mut self,
        alloc: Global,
        t: &Tessellation,
        from: DartType,
        change: Change,
    ) -> Result<bool, AllocError>
        requires valid { IsValid t.now }
        requires is_type { IsType t.now from }
        requires typed { AreTyped t.now from (joined self.old.pieces.items) }
        requires begins { Begins self.old.pieces.items self.old.near.index self.old.near.before }
        ensures typed { IfOk result (λ done. IsTrue done
            → AreTyped t.now from (joined self.new.pieces.items)) }
        ensures begins { IfOk result (λ done. IsTrue done
            → Begins self.new.pieces.items self.new.near.index self.new.near.before) }
        ensures changed { IfOk result (λ done. IsTrue done
            → Changes t.now from change (walk_of self.old.pieces.items)
            (walk_of self.new.pieces.items)) }
        ensures refused { IfOk result (λ done. done ≡ false
            → ¬ (IsAllowed t.now from change (walk_of self.old.pieces.items))) }
    {
        let Some(near) = seek(&self.pieces, self.near, change.at) else {
            return Ok(false);
        };
        let at = type_at(t, from, &self.pieces, near, change.at);
        let Some(letters) = loop_at(alloc, t, at, change.which)? else {
            return Ok(false);
        };
        let middle = with_types(alloc, t, at, &letters)?;
        let offset = (change.at - near.before) as usize;
        self.near = near;
        if change.insert {
            put(alloc, &mut self.pieces, near.index, offset, &middle)?;
            return Ok(true);
        }
        let done = take_out(alloc, &mut self.pieces, near.index, offset, &middle)?;
        Ok(done)
    }
}

/// The type at a place of a walk from the type `from`. The place lies in the piece.
fn type_at(t: &Tessellation, from: DartType, pieces: &[Piece], near: Start, place: u64) -> DartType
    requires valid { IsValid t.now }
    requires is_type { IsType t.now from }
    requires typed { AreTyped t.now from (joined pieces.now) }
    requires covers { Covers pieces.now near.index near.before place }
    ensures value { result ≡ type_of t.now from (take place (walk_of pieces.now)) }
    ensures is_type { IsType t.now result }
{
    if place == 0 {
        return from;
    }
    let piece = &pieces[near.index];
    let last = piece.footprints()[(place - near.before - 1) as usize];
    after(t, last.at, last.letter)
}

/// Whether the letters are those of a walk.
fn is_walk(pieces: &[Piece], w: &[Letter]) -> bool
    ensures { IsTrue result ↔ (walk_of pieces.now ≡ w.now) }
{
    let mut rest = w;
    for piece in pieces {
        match without(rest, piece.footprints()) {
            Some(behind) => rest = behind,
            None => return false,
        }
    }
    rest.is_empty()
}

/// Whether two letters are the same.
fn are_same(x: Letter, y: Letter) -> bool
    ensures { IsTrue result ↔ (x ≡ y) }
{
    x == y
}

/// What follows the letters of a piece in a walk. None comes where the walk does not begin with
/// them.
fn without<'a>(w: &'a [Letter], footprints: &[Footprint]) -> Option<&'a [Letter]>
    ensures some { IfSome result (λ rest. w.now ≡ letters footprints.now ++ rest.now) }
    ensures none { IfNone result ((rest : List Letter) → w.now ≢ letters footprints.now ++ rest) }
{
    let mut rest = w;
    for footprint in footprints {
        let Some((first, behind)) = rest.split_first() else {
            return None;
        };
        if !are_same(*first, footprint.letter) {
            return None;
        }
        rest = behind;
    }
    Some(rest)
}
