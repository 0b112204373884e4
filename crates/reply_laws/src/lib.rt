//! What the replies to commands come to, as laws of histories and replies alone.
#![tactic(auto)]

pub mod laws;
