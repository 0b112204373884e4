//! The learner: rules for tessellations that are not regular, found by growing regions of them and
//! handing candidates to the checker.
#![tactic(auto)]

mod attempts;
mod by_regions;
mod fault;
mod learner;
mod learning;
mod rounds;
mod teacher;

pub use by_regions::learn_by_regions;
pub use fault::LearnFault;
pub use learner::Learner;
pub use learning::learn;
pub use teacher::Teacher;
