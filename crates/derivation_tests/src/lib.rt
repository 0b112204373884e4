//! Tests of the logs of walks, over pentagons, four round each corner.
#![tactic(auto)]

#[cfg(test)]
mod logs;
