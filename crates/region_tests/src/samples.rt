//! Kinds of tile of tessellations whose tiles are counted elsewhere.
use std::alloc::{AllocError, Global};
use tile_kinds::Kind;

pub(crate) fn kind(
    alloc: Global,
    sides: u8,
    repeat: u8,
    partner: &[(u8, u8)],
    valence: &[u8],
) -> Result<Kind, AllocError> {
    Ok(Kind {
        sides,
        repeat,
        partner: Vec::from_slice(alloc, partner)?,
        valence: Vec::from_slice(alloc, valence)?,
    })
}

/// Tiles with p sides, q round each corner.
pub(crate) fn regular(alloc: Global, p: u8, q: u8) -> Result<Vec<Kind>, AllocError> {
    Ok(vec![in alloc; kind(alloc, p, 1, &[(0, 0)], &[q])?]?)
}

/// The corners of a regular tessellation cut off: tiles with q sides and with twice p sides, three
/// round each corner. Heptagons and hexagons are those of 3 and 7.
pub(crate) fn truncated(alloc: Global, p: u8, q: u8) -> Result<Vec<Kind>, AllocError> {
    let mut kinds = vec![in alloc; kind(alloc, q, 1, &[(1, 0)], &[3])?]?;
    kinds.push(kind(alloc, 2 * (p % 32), 2, &[(0, 0), (1, 1)], &[3, 3])?)?;
    Ok(kinds)
}
