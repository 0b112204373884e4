//! Spots as plain lists: what a spot of some rules is, and the laws of its steps to a child and to the parent.
#![tactic(auto)]
