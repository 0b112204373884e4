//! Numbers of keys in order of first sight.
#![tactic(auto)]

mod numbering;

pub use numbering::Numbering;
