//! Merging the states of a tree automaton that nothing tells apart: faces of states, the paths that tell two states
//! apart, and the automaton in which the states that no path tells apart are one.
#![tactic(auto)]
