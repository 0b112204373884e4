// Tessellations, by their kinds of tiles.
use std::alloc::{AllocError, Global};
use tile_kinds::{Kind, Tessellation};

/// A kind of tile, by its sides, and by what lies across its first sides and at their corners.
pub(crate) fn kind(
    alloc: Global,
    sides: u8,
    across: &[(u8, u8)],
    valences: &[u8],
) -> Result<Kind, AllocError> {
    Ok(Kind {
        sides,
        repeat: u8::try_from(across.len()).unwrap_or(0),
        partner: Vec::from_slice(alloc, across)?,
        valence: Vec::from_slice(alloc, valences)?,
    })
}

/// The tessellation of some kinds; None where the kinds are not valid.
pub(crate) fn tessellation(kinds: Vec<Kind>) -> Option<Tessellation> {
    match Tessellation::make(kinds) {
        Ok(tess) => Some(tess),
        Err((_kinds, _fault)) => None,
    }
}

/// Tiles with p sides, q round each corner.
pub(crate) fn regular(alloc: Global, p: u8, q: u8) -> Result<Vec<Kind>, AllocError> {
    Ok(vec![in alloc; kind(alloc, p, &[(0, 0)], &[q])?]?)
}

/// The corners of a regular tessellation cut off: tiles with q sides and with twice p sides, three
/// round each corner. For p = 3 and q = 7, heptagons and hexagons.
pub(crate) fn truncated(alloc: Global, p: u8, q: u8) -> Result<Vec<Kind>, AllocError> {
    let mut kinds = Vec::new(alloc);
    kinds.push(kind(alloc, q, &[(1, 0)], &[3])?)?;
    kinds.push(kind(alloc, p.saturating_mul(2), &[(0, 0), (1, 1)], &[3, 3])?)?;
    Ok(kinds)
}

/// A regular tessellation cut down to the middles of its edges: tiles with p and with q sides, four
/// round each corner.
pub(crate) fn rectified(alloc: Global, p: u8, q: u8) -> Result<Vec<Kind>, AllocError> {
    let mut kinds = Vec::new(alloc);
    kinds.push(kind(alloc, p, &[(1, 0)], &[4])?)?;
    kinds.push(kind(alloc, q, &[(0, 0)], &[4])?)?;
    Ok(kinds)
}

/// A ring of squares that must close after three and after four steps.
pub(crate) fn collapsing(alloc: Global) -> Result<Vec<Kind>, AllocError> {
    let mut kinds = Vec::new(alloc);
    kinds.push(kind(alloc, 3, &[(1, 0)], &[3])?)?;
    let ring = [(0, 0), (1, 3), (2, 0), (1, 1)];
    kinds.push(kind(alloc, 4, &ring, &[3, 3, 3, 3])?)?;
    kinds.push(kind(alloc, 4, &[(1, 2)], &[3])?)?;
    Ok(kinds)
}

/// Tiles of one kind, by their sides, and by the sides of a tile that lie across its first sides,
/// until these repeat, and by the valences of their corners.
pub(crate) fn alike(
    alloc: Global,
    sides: u8,
    across: &[u8],
    valences: &[u8],
) -> Result<Vec<Kind>, AllocError> {
    let mut partner = Vec::new(alloc);
    for side in across {
        partner.push((0, *side))?;
    }
    Ok(vec![in alloc; kind(alloc, sides, &partner, valences)?]?)
}
