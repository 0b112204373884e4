//! `Resting`: what a session keeps while it has no rules.
use lazy_map::LazyMap;
use std::marker::Model;
use turn_rules::Spot;

/// A session that came to rest: the kind of its tree, its walkers and its texts. It borrows nothing.
/// [`Session::rest`](crate::Session::rest) makes it, and
/// [`Session::resume`](crate::Session::resume) goes on from there.
#[derive(Drop)]
pub struct Resting {
    pub(crate) kind: u8,
    pub(crate) walkers: Vec<Option<Spot>>,
    pub(crate) texts: LazyMap,
}

impl Model for Resting {
    ghost use Rattle.session_core.specs.Sessions.{RestingState};

    ghost Value = { RestingState };

    ghost view = { λ r. record {
      kind = r.kind;
      walkers = r.walkers.items;
      texts = r.texts;
    } };
}
