// Bounds of what is done at one call, and what becomes of it at such a bound. None was met in
// tessellations that were learnt.

/// Cells that one table holds.
pub(crate) const MOST_CELLS: u32 = 1_000_000;

/// Steps of a contour. A longer one counts as one that does not come to its end.
pub(crate) const CONTOUR_STEPS: u32 = 500;

/// Steps up of two branches in search of the cell where they part. Cells that many steps up are as
/// if they had none in common.
pub(crate) const BRANCH_STEPS: u32 = 2_000_000;

/// Looks at cells whose parent sides are wanted for one parent side. After so many it is as if
/// there were none.
pub(crate) const PARENT_LOOKS: u32 = 100_000_000;

/// How often the corners from which a parent side is chosen are closed again, since closing them
/// changed something. Two or three times are usual.
pub(crate) const SETTLINGS: u32 = 1_000;

/// Parts of a branch that are walked up one after the other.
pub(crate) const BRANCH_PARTS: u32 = 2_000_000;

/// Cells that distances are passed on from at one time. The others wait for the next time.
pub(crate) const PASSED_ON: u32 = 1_000_000_000;

/// Passes over the corners of a new cell. What can be closed after so many is left open.
pub(crate) const CLOSING_PASSES: u32 = 1_000;

/// Cells that are made and closings of one corner, before it counts as one that can't be closed.
pub(crate) const CORNER_STEPS: u32 = 1_000;

/// The distance of a cell that is not there.
pub(crate) const FAR: u32 = 4_294_967_295;
