// Which condition an automaton breaks first.
use thiserror::Error;

/// The least broken condition of an automaton, 1 to 12, and the least place at which it fails. For
/// condition 1 `second` is the part of it, 0 to 5, and `first` the kind, corner type or state that
/// fails it (0 for part 0); for 2 to 9 `first` is the state and `second` the side or claim; for 10
/// to 12 `first` is the corner type and `second` is 0.
#[derive(Clone, Copy, Debug, PartialEq, Eq, Error)]
#[error("condition {condition} is broken at {first} {second}")]
pub struct Broken {
    pub condition: u8,
    pub first: u32,
    pub second: u8,
}
