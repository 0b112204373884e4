//! Laws of logs: which changes the walk along the contour of the tree writes, and that they lead from a walk across a
//! side outside the tree to the word of the side that lies across.
#![tactic(auto)]

pub mod laws;
