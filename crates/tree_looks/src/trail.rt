//! The darts that a look came by.
use crate::dart::NodeDart;
use indexmap::IndexSet;
use std::alloc::{AllocError, Global};

/// The darts that a look came by, in order, each once, as long as there is room.
#[derive(Drop)]
pub(crate) struct Trail {
    darts: IndexSet<NodeDart>,
    room: u32,
}

impl Trail {
    /// A trail that takes so many darts, counted each time that a look comes by one.
    pub(crate) fn of(alloc: Global, room: u32) -> Trail {
        Trail {
            darts: IndexSet::new(alloc),
            room,
        }
    }

    /// Notes a dart, if there is room.
    pub(crate) fn note(&mut self, d: NodeDart) -> Result<(), AllocError> {
        if self.room > 0 {
            self.room -= 1;
            self.darts.insert(d)?;
        }
        Ok(())
    }

    /// The darts that were noted.
    pub(crate) fn darts(&self) -> &[NodeDart] {
        self.darts.as_slice()
    }
}
