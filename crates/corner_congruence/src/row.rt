// The corners of all cone types in one row.
use crate::failure::Failure;
use cone_types::ConeType;
use std::alloc::Global;
use tile_kinds::{DartType, Tessellation};

/// The most cone types, and so the most states.
pub(crate) const MOST_STATES: usize = 100_000;

/// The corners of a tile, which stand next to each other in the row. Corner `i` lies between sides
/// `i` and `i + 1`.
#[derive(Clone, Copy, Debug, PartialEq, Eq)]
pub(crate) struct TileCorners {
    first: u32,
    count: u32,
}

impl TileCorners {
    /// Corner `side`.
    pub(crate) fn behind(self, side: usize) -> Option<u32> {
        self.first.checked_add(u32::try_from(side).ok()?)
    }

    /// The corner before side `side`, between this side and the one before it.
    pub(crate) fn before(self, side: usize) -> Option<u32> {
        match side.checked_sub(1) {
            Some(previous) => self.behind(previous),
            None => self.last(),
        }
    }

    /// The last corner, between the last side and side 0.
    pub(crate) fn last(self) -> Option<u32> {
        self.first.checked_add(self.count)?.checked_sub(1)
    }

    /// Corner 0.
    pub(crate) fn first(self) -> u32 {
        self.first
    }
}

/// The corners of all cone types: those of the first cone type, then those of the next.
#[derive(Debug, Drop)]
pub(crate) struct CornerRow {
    /// The corners of the tiles of each cone type.
    pub(crate) tiles: Vec<TileCorners>,
    /// The valence of each corner.
    pub(crate) valences: Vec<u8>,
}

/// Appends the valences of the corners of a cone type to the row.
fn push_valences(
    tess: &Tessellation,
    cone: &ConeType,
    valences: &mut Vec<u8>,
) -> Result<(), Failure> {
    let mut at = DartType {
        kind: cone.kind,
        residue: cone.off,
    };
    if !tess.has(at) || cone.rules.len() != tess.sides(at) as usize {
        return Err(Failure::Contradiction);
    }
    for _ in 0..cone.rules.len() {
        valences.push(tess.valence(at))?;
        at = tess.left(at);
    }
    Ok(())
}

impl CornerRow {
    /// The corners of these cone types, of which each must have a type of the tessellation and a
    /// rule for each side.
    pub(crate) fn of(
        alloc: Global,
        tess: &Tessellation,
        types: &[ConeType],
    ) -> Result<CornerRow, Failure> {
        let mut tiles = Vec::with_capacity(alloc, types.len())?;
        let mut valences = Vec::new(alloc);
        for cone in types {
            let first = u32::try_from(valences.len())
                .ok()
                .ok_or(Failure::Contradiction)?;
            push_valences(tess, cone, &mut valences)?;
            tiles.push(TileCorners {
                first,
                count: u32::try_from(cone.rules.len())
                    .ok()
                    .ok_or(Failure::Contradiction)?,
            })?;
        }
        Ok(CornerRow { tiles, valences })
    }

    /// The number of corners.
    pub(crate) fn count(&self) -> Option<u32> {
        u32::try_from(self.valences.len()).ok()
    }
}
