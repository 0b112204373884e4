//! The piece in which a place lies.
ghost use Rattle.std.specs.Prelude.{◌+◌, ◌<◌, ◌≤◌, length, IfSome, IfNone};
ghost use Rattle.log_checker.specs.Trails.{joined, Begins, Covers};

use crate::piece::Piece;

/// Where a piece begins: its number, counted from 0, and how many letters stand before it.
#[derive(Clone, Copy, Debug)]
pub(crate) struct Start {
    pub(crate) index: usize,
    pub(crate) before: u64,
}

/// The piece in which a place lies, sought from the beginning of a piece, forth or back, or from the
/// first one. None comes where the place is past the end.
pub(crate) fn seek(pieces: &[Piece], near: Start, place: u64) -> Option<Start>
    requires { Begins pieces.now near.index near.before }
    ensures some { IfSome result (λ at. Covers pieces.now at.index at.before place) }
    ensures none { IfNone result (length (joined pieces.now) < place) }
{
    let mut at = back(pieces, near, place);
    while (pieces[at.index].len() as u64) < place - at.before {
        if at.index + 1 == pieces.len() {
            return None;
        }
        at.before += pieces[at.index].len() as u64;
        at.index += 1;
    }
    Some(at)
}

/// The beginning of a piece before a place, from which the way to the place is not far.
fn back(pieces: &[Piece], near: Start, place: u64) -> Start
    requires { Begins pieces.now near.index near.before }
    ensures begins { Begins pieces.now result.index result.before }
    ensures behind { result.before ≤ place }
    ensures not_first { 0 < place → result.before < place }
{
    if place < near.before / 2 {
        return Start {
            index: 0,
            before: 0,
        };
    }
    let mut at = near;
    while place <= at.before && at.before > 0 {
        at.index -= 1;
        at.before -= pieces[at.index].len() as u64;
    }
    at
}
