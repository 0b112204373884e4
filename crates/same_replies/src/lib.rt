//! Two rules of one tessellation whose trees have the same names give the same replies, and so do merged rules and
//! those that they were merged from.
#![tactic(auto)]

pub mod laws;
