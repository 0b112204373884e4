//! Tests of all that makes and learns rules, by public calls: the regular rules, corner types by
//! congruence, candidates over regions, and the learners by cone types and by both ways.
#![tactic(auto)]

#[cfg(test)]
mod candidates;
#[cfg(test)]
mod cones;
#[cfg(test)]
mod congruence;
#[cfg(test)]
mod learning;
#[cfg(test)]
mod made;
#[cfg(test)]
mod rings;
#[cfg(test)]
mod tables;
#[cfg(test)]
mod tilings;
