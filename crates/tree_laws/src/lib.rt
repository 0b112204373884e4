//! Laws of the tree of accepted rules, over plain lists: what lies across its sides, how the walk along its contour
//! runs, which walks its positions and names tell apart, and how far its tiles are from each other.
#![tactic(auto)]

pub mod laws;
