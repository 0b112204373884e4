//! Cells of a tessellation that are made only where they are asked for: a patch for each kind, with
//! the least known distance of each cell from the start cell, its parent side, and the order of
//! branches.
#![tactic(auto)]

mod branches;
mod closing;
mod dart;
mod distances;
mod limits;
mod note;
mod outness;
mod parents;
mod patch;
mod patches;
mod settling;
mod sides;

pub use dart::PatchDart;
pub use patches::Patches;
pub use settling::Settled;
pub use sides::Sides;
