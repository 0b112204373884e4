// What is noted of a cell.

/// What is known of the parent side of a cell.
#[derive(Clone, Copy, Debug)]
pub(crate) enum Known {
    Nothing,
    /// The one side that it can be, if all was forgotten so many times by now. It stays so until a
    /// distance or a join next to the cell changes.
    Sole(u8, u64),
    /// The side that was chosen from several, if any, when so many changes had been made: with
    /// another change it may be another side.
    Chosen(Option<u8>, u64),
}

/// What is known of the parent side of a cell, whether that was found after the corners from which
/// it is chosen were closed, and whether the cell was found renamed. While parent sides are found,
/// `waiting` is the cell whose parent side waits for that of this one.
#[derive(Clone, Copy, Debug)]
pub(crate) struct CellNote {
    pub(crate) known: Known,
    pub(crate) settled: bool,
    pub(crate) gone: bool,
    pub(crate) waiting: u32,
}

impl CellNote {
    /// What is noted of a new cell.
    pub(crate) fn new() -> CellNote {
        CellNote {
            known: Known::Nothing,
            settled: false,
            gone: false,
            waiting: 0,
        }
    }
}
