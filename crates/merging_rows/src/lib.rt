//! Tests of merging: rules of which it is known by hand which states nothing tells apart.
#![tactic(auto)]

#[cfg(test)]
mod tests;
