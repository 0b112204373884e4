//! Questions asked of cells, and the cone types that the answers tell apart.
//!
//! The cone types of a tessellation are learnt as the states of an automaton are by D. Angluin,
//! "Learning regular sets from queries and counterexamples", Information and Computation 75 (1987):
//! a name is asked for by its cell, which is made when it is needed. What tells two names apart is
//! kept in a discrimination tree of experiments, and where the automaton and the cells differ, the
//! way there is searched for one more experiment, after R. L. Rivest and R. E. Schapire,
//! "Inference of finite automata using homing sequences", Information and Computation 103 (1993).
//! That there are few cone types is due to J. W. Cannon, "The combinatorial structure of cocompact
//! discrete hyperbolic groups", Geometriae Dedicata 16 (1984); that the trees of tilings can be
//! learnt from distances, to D. Celińska-Kopczyńska and E. Kopczyński, "Generating tree structures
//! for hyperbolic tessellations" (2021).
//!
//! Nobody has to trust an answer: what comes of it is checked. So the contracts say only that a
//! call is safe, that it ends, and that no more cells are made than were allowed.
#![tactic(auto)]

mod answers;
mod codes;
mod comparing;
mod cones;
mod fault;
mod limits;
mod questions;
mod sides;
mod splits;
mod steps;

pub use codes::Level;
pub use comparing::{Comparison, Found};
pub use cones::Cones;
pub use fault::AskFault;
pub use questions::Questions;
