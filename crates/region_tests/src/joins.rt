//! The first cell of the pentagons that lie four round each corner, and the cell across its side 0.
use crate::samples::regular;
use coincidence::{Dart, Joins};
use std::test::Fail;
use tile_kinds::Tessellation;

#[test]
fn makes_a_cell_across(rt: HostRuntime) -> Result<(), Fail> {
    let alloc = rt.alloc();
    let Ok(t) = Tessellation::make(regular(alloc, 5, 4)?) else {
        panic!(rt; "refused");
    };
    if t.kinds() == 0 {
        panic!(rt; "no kind");
    }
    let mut joins = Joins::first(alloc, &t, 0)?;
    let start = Dart { cell: 0, side: 0 };
    let first = (joins.live(), joins.turn(0), joins.kind(0), joins.alive(1));
    assert_eq!(rt; first, (1, 5, 0, false));
    assert!(rt; joins.joined(start).is_none());
    let made = joins.make_across(start)?;
    assert_eq!(rt; (made, joins.made(), joins.alive(1)), (1, 2, true));
    let over = Dart { cell: 1, side: 0 };
    assert_eq!(rt; joins.joined(over), Some(start));
    assert_eq!(rt; joins.joined(start), Some(over));
    assert_eq!(rt; joins.tessellation().kinds(), 1);
    Ok(())
}
