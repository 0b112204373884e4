//! Looks of corners in the tree that a base automaton generates, whose nodes are made where they
//! are looked at, and the splitting of the automaton's cone types by these looks.
//!
//! A base automaton says of each side of a tile whether it leads to the parent, to a child of some
//! cone type, or out of the tree to the left or to the right (J. W. Cannon, "The combinatorial
//! structure of cocompact discrete hyperbolic groups", 1984; D. Celinska-Kopczynska and E.
//! Kopczynski, "Generating tree structures for hyperbolic tessellations"). Such a side is crossed
//! by going along the contour of the tree to the side that matches it as a closing bracket does. So
//! corners can be looked at with no cell of the tessellation. A corner that does not close shows
//! that the automaton is wrong, or that one of the bounds was met.
//!
//! Nothing is promised of what is found: who uses it has the rules checked in the end.
#![tactic(auto)]

mod dart;
mod limits;
mod looks;
mod scout;
mod splitting;
mod stuck;
mod trail;
mod tree;
mod ways;

pub use dart::TreeDart;
pub use limits::Limits;
pub use splitting::{Split, split_by_looks};
pub use ways::way_of_look;
