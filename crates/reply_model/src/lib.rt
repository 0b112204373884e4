//! What walkers are told to do and what they reply.
//! The definitions say which reply a command has after a history of commands, over walks and over the tree.
#![tactic(auto)]

mod bytes;
#[cfg(test)]
mod tests;

pub use bytes::Bytes;
use cell_names::Name;
use walk_words::Walk;

/// The number of walkers that there can be. Their numbers are those below it.
pub const WALKERS: u8 = 64;

/// The most bytes of a text on a tile.
pub const LONGEST_TEXT: usize = 64;

/// A command of the stream. Walkers are numbered from 0 to below [`WALKERS`].
#[derive(Debug, Drop)]
pub enum Command {
    /// A walker of this number appears at the root, facing side 0.
    New(u8),
    /// The walker goes along the walk.
    Go(u8, Walk),
    /// Where does the walker stand?
    At(u8),
    /// Do the two walkers stand on one tile?
    Same(u8, u8),
    /// How many crossings is the walker away from the root?
    Level(u8),
    /// How many crossings is the second walker away from the first?
    Dist(u8, u8),
    /// Which walk leads from the first walker to the tile of the second with the fewest crossings?
    Path(u8, u8),
    /// The text is written on the tile where the walker stands.
    Put(u8, Bytes),
    /// What was last written on the tile where the walker stands?
    Get(u8),
    /// Which tiles lie this many crossings away from the root?
    Ring(u32),
    /// How many tiles lie this many crossings away from the root?
    Count(u32),
}

/// The reply to a command.
#[derive(Debug, Drop)]
pub enum Reply {
    /// It is done.
    Done,
    /// The walker stands on the tile of this name and of this kind, facing the side of this number.
    At { name: Name, spin: u8, kind: u8 },
    /// They stand on one tile.
    Yes,
    /// They stand on two tiles.
    No,
    /// The least number of crossings from the root to the tile of the walker.
    Level(u32),
    /// The least number of crossings from the tile of the first walker to that of the second.
    Dist(u32),
    /// A walk from the first walker to the tile of the second with the fewest crossings.
    Path(Walk),
    /// The text that was last written on the tile of the walker.
    Text(Bytes),
    /// Nothing was ever written on the tile of the walker.
    NoText,
    /// So many tiles lie `d` crossings away from the root. Their names follow, one a line.
    Tiles { d: u32, size: u128 },
    /// So many tiles lie that many crossings away from the root.
    Count(u128),
    /// There is no walker of a number that the command names.
    NoWalker,
    /// There is a walker of this number already.
    Taken,
    /// The way leads to a tile that lies too deep, or too far from the walker from whom it is measured.
    Deep,
    /// The text has over [`LONGEST_TEXT`] bytes.
    Long,
    /// More than 4,000 crossings are asked for.
    Far,
    /// Over 2^128 - 1 tiles lie this many crossings away from the root, and at no smaller distance so many.
    TooBig(u32),
    /// So many tiles lie that many crossings away from the root, over 100,000: they are not listed.
    TooMany(u128),
}
