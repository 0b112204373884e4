//! Kinds of tile.
use std::alloc::{AllocError, Global};
use tile_kinds::Kind;

pub(crate) fn kind(
    alloc: Global,
    sides: u8,
    repeat: u8,
    partner: &[(u8, u8)],
    valence: &[u8],
) -> Result<Kind, AllocError> {
    Ok(Kind {
        sides,
        repeat,
        partner: Vec::from_slice(alloc, partner)?,
        valence: Vec::from_slice(alloc, valence)?,
    })
}

/// Heptagons and hexagons, three tiles round each corner, with the hexagon given.
pub(crate) fn heptagons_and(alloc: Global, hexagon: Kind) -> Result<Vec<Kind>, AllocError> {
    let mut kinds = Vec::new(alloc);
    kinds.push(kind(alloc, 7, 1, &[(1, 0)], &[3])?)?;
    kinds.push(hexagon)?;
    Ok(kinds)
}
