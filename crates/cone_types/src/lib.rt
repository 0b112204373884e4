//! Base automata: the cone types of the tiles of a tessellation, and the coarsest automaton with
//! the same tree.
#![tactic(auto)]

mod cone_type;
mod look;
mod minimisation;
mod partition;

pub use cone_type::{ConeType, Rule};
pub use look::{ConeLook, SeenRule};
pub use minimisation::{coarsest, renamed_rules};
pub use partition::{Table, class_number, coarsest_partition};
