// A slow program that knows no rules: it grows tiles round a first one, layer by layer, from the
// kinds, partners and valences alone, and joins two sides wherever all other tiles round a corner
// are there.
use std::alloc::{AllocError, Global};
use tile_kinds::{DartType, Tessellation};

// One side of a tile: its type, the number of its tile, the places in the list of the sides next to
// it and of the side across.
#[derive(Clone, Copy, Debug)]
struct Side {
    look: DartType,
    tile: u32,
    left: usize,
    right: usize,
    across: Option<usize>,
}

/// The sides of all tiles, tile by tile.
#[derive(Debug, Drop)]
pub(crate) struct Ball<'t> {
    tess: &'t Tessellation,
    sides: Vec<Side>,
    tiles: u32,
}

impl<'t> Ball<'t> {
    /// The tiles round one of kind 0: those that lie across the first so many sides.
    pub(crate) fn grow(
        alloc: Global,
        tess: &'t Tessellation,
        count: u32,
    ) -> Result<Ball<'t>, AllocError> {
        let mut ball = Ball {
            tess,
            sides: Vec::new(alloc),
            tiles: 0,
        };
        ball.add_tile(0)?;
        for side in 0..count {
            ball.make_across(side as usize)?;
        }
        Ok(ball)
    }

    /// Where a walk leads from a side, if it stays among the tiles.
    pub(crate) fn walk(&self, from: usize, letters: &str) -> Option<usize> {
        let mut at = from;
        for x in letters.as_bytes() {
            at = match *x {
                b'L' => self.sides.get(at)?.left,
                b'R' => self.sides.get(at)?.right,
                _ => self.sides.get(at)?.across?,
            };
        }
        Some(at)
    }

    /// The number of the tile that a side belongs to.
    pub(crate) fn tile(&self, side: usize) -> Option<u32> {
        Some(self.sides.get(side)?.tile)
    }

    /// How many crossings the tiles are away from one of them, by crossings of joined sides.
    pub(crate) fn distances(
        &self,
        alloc: Global,
        from: u32,
    ) -> Result<Vec<Option<u32>>, AllocError> {
        let mut found = Vec::new(alloc);
        for tile in 0..self.tiles {
            found.push(if tile == from { Some(0) } else { None })?;
        }
        for layer in 0..self.tiles {
            if !self.add_layer(&mut found, layer) {
                break;
            }
        }
        Ok(found)
    }

    // Finds the tiles next to those of a layer, and tells whether there was a new one.
    fn add_layer(&self, found: &mut Vec<Option<u32>>, layer: u32) -> bool {
        let mut more = false;
        for side in &self.sides {
            if found.get(side.tile as usize).copied() != Some(Some(layer)) {
                continue;
            }
            let Some(across) = side.across else {
                continue;
            };
            let Some(next) = self.tile(across) else {
                continue;
            };
            if let Some(entry) = found.get_mut(next as usize) {
                if entry.is_none() {
                    *entry = Some(layer.wrapping_add(1));
                    more = true;
                }
            }
        }
        more
    }

    fn add_tile(&mut self, kind: u8) -> Result<(), AllocError> {
        if u16::from(kind) >= self.tess.kinds() {
            return Ok(());
        }
        let first = self.sides.len();
        let mut look = self.tess.start(kind);
        let count = self.tess.kind(kind).sides as usize;
        for side in 0..count {
            self.sides.push(Side {
                look,
                tile: self.tiles,
                left: first.wrapping_add(if side + 1 == count { 0 } else { side + 1 }),
                right: first.wrapping_add(if side == 0 { count - 1 } else { side - 1 }),
                across: None,
            })?;
            if self.tess.has(look) {
                look = self.tess.left(look);
            }
        }
        self.tiles = self.tiles.wrapping_add(1);
        Ok(())
    }

    // Makes the tile across a side that is not joined, and closes corners until none is left.
    fn make_across(&mut self, at: usize) -> Result<(), AllocError> {
        let Some(side) = self.sides.get(at).copied() else {
            return Ok(());
        };
        if side.across.is_some() || !self.tess.has(side.look) {
            return Ok(());
        }
        let partner = self.tess.cross(side.look);
        let first = self.sides.len();
        self.add_tile(partner.kind)?;
        self.join(at, first.wrapping_add(partner.residue as usize));
        for pass in 0..first {
            if !self.close_corners() {
                break;
            }
        }
        Ok(())
    }

    // Joins each side to the one that the corner at its left end forces across, and tells whether
    // there was one.
    fn close_corners(&mut self) -> bool {
        let mut closed = false;
        for at in 0..self.sides.len() {
            if let Some(other) = self.forced(at) {
                self.join(at, other);
                closed = true;
            }
        }
        closed
    }

    // The side across one that is not joined, where all other sides round the corner at its left
    // end are joined.
    fn forced(&self, at: usize) -> Option<usize> {
        let side = self.sides.get(at)?;
        if side.across.is_some() || !self.tess.has(side.look) {
            return None;
        }
        let mut last = side.left;
        for tile in 1..self.tess.valence(side.look) {
            let across = self.sides.get(last)?.across?;
            last = self.sides.get(across)?.left;
        }
        Some(last)
    }

    fn join(&mut self, one: usize, other: usize) {
        if let Some(side) = self.sides.get_mut(one) {
            side.across = Some(other);
        }
        if let Some(side) = self.sides.get_mut(other) {
            side.across = Some(one);
        }
    }
}
