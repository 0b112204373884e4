//! A walk in pieces, in which loops are put and from which they are taken.
ghost use Rattle.std.specs.Prelude.{◌≡◌, ◌≢◌, ◌+◌, ◌<◌, ◌≤◌, ◌⊎◌, [], false, length, take, drop};
ghost use Rattle.std.specs.Prelude.{IsTrue, IfOk, OnOk};
ghost use Rattle.log_checker.specs.Trails.{joined, piece_at, IsWith, KeepsFront};

use crate::footprints::Footprint;
use crate::piece::Piece;
use std::alloc::{AllocError, Global};

/// So many letters a piece may have. It may have more where there are more pieces than that, so that
/// the way from piece to piece stays short.
const LIMIT: usize = 4_096;

/// A walk in pieces, of which there is one at least.
pub(crate) fn pieces_of(alloc: Global, footprints: &[Footprint]) -> Result<Vec<Piece>, AllocError>
    ensures joined { IfOk result (λ pieces. joined pieces.items ≡ footprints.now) }
    ensures some { IfOk result (λ pieces. 0 < length pieces.items) }
{
    let mut pieces = Vec::new(alloc);
    let mut rest = footprints;
    while rest.len() > LIMIT {
        let (front, behind) = rest.split_at(LIMIT);
        pieces.push(Piece::copied(alloc, front)?)?;
        rest = behind;
    }
    pieces.push(Piece::copied(alloc, rest)?)?;
    Ok(pieces)
}

/// Puts letters in behind so many of a piece, at most as many as it has.
pub(crate) fn put(
    alloc: Global,
    pieces: &mut Vec<Piece>,
    index: usize,
    offset: usize,
    middle: &[Footprint],
) -> Result<(), AllocError>
    requires inside { index < length pieces.old.items }
    requires within { offset ≤ length (piece_at pieces.old.items index) }
    ensures put { OnOk result
        (IsWith (length (joined (take index pieces.old.items)) + offset) middle.now
        (joined pieces.old.items) (joined pieces.new.items)) }
    ensures front { OnOk result (KeepsFront pieces.old.items pieces.new.items index) }
{
    let piece = &mut pieces[index];
    piece.put(alloc, offset, middle)?;
    halve(alloc, pieces, index)?;
    Ok(())
}

/// Takes letters out that stand behind so many of a piece, at most as many as it has. It answers
/// whether they stand there.
pub(crate) fn take_out(
    alloc: Global,
    pieces: &mut Vec<Piece>,
    index: usize,
    offset: usize,
    middle: &[Footprint],
) -> Result<bool, AllocError>
    requires inside { index < length pieces.old.items }
    requires within { offset ≤ length (piece_at pieces.old.items index) }
    ensures out { IfOk result (λ done. IsTrue done
        → IsWith (length (joined (take index pieces.old.items)) + offset) middle.now
        (joined pieces.new.items) (joined pieces.old.items)) }
    ensures front { IfOk result (λ done. KeepsFront pieces.old.items pieces.new.items index) }
    ensures not_there { IfOk result (λ done. done ≡ false
        → take (length middle.now)
        (drop (length (joined (take index pieces.old.items)) + offset)
        (joined pieces.old.items)) ≢ middle.now) }
{
    gather(pieces, index, offset, middle.len())?;
    let piece = &mut pieces[index];
    if !piece.take_out(alloc, offset, middle)? {
        return Ok(false);
    }
    halve(alloc, pieces, index)?;
    Ok(true)
}

/// Moves letters from the pieces behind to the end of a piece, until it has as many behind an offset
/// as are wanted or none are left behind it.
fn gather(
    pieces: &mut Vec<Piece>,
    index: usize,
    offset: usize,
    wanted: usize,
) -> Result<(), AllocError>
    requires inside { index < length pieces.old.items }
    requires within { offset ≤ length (piece_at pieces.old.items index) }
    ensures same { OnOk result (joined pieces.new.items ≡ joined pieces.old.items) }
    ensures front { OnOk result (KeepsFront pieces.old.items pieces.new.items index) }
    ensures within { OnOk result (offset ≤ length (piece_at pieces.new.items index)) }
    ensures enough { OnOk result (wanted + offset ≤ length (piece_at pieces.new.items index)
        ⊎ (drop (index + 1) pieces.new.items ≡ [])) }
{
    while pieces[index].len() - offset < wanted && index + 1 < pieces.len() {
        let next = pieces.remove(index + 1);
        let piece = &mut pieces[index];
        piece.extend(next.footprints())?;
    }
    Ok(())
}

/// Cuts a piece in two where it has too many letters.
fn halve(alloc: Global, pieces: &mut Vec<Piece>, index: usize) -> Result<(), AllocError>
    requires { index < length pieces.old.items }
    ensures same { OnOk result (joined pieces.new.items ≡ joined pieces.old.items) }
    ensures front { OnOk result (KeepsFront pieces.old.items pieces.new.items index) }
{
    let most = LIMIT.max(pieces.len());
    let piece = &mut pieces[index];
    let count = piece.len();
    if count > most {
        let rest = piece.cut(alloc, count / 2)?;
        pieces.insert(index + 1, rest)?;
    }
    Ok(())
}
