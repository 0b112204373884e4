//! Differences along a chain of elements, by hand.
use std::test::Fail;
use weighted_sets::{Found, Shift, TieFault, WeightedSets};

fn shift(place: i32, depth: i32) -> Shift {
    Shift { place, depth }
}

#[test]
fn adds_differences(rt: HostRuntime) -> Result<(), Fail> {
    let mut sets = WeightedSets::alone(rt.alloc(), 6)?;
    for (a, b, over) in [
        (4, 3, shift(1, 1)),
        (2, 4, shift(2, -1)),
        (5, 2, shift(-4, 7)),
    ] {
        assert_eq!(rt; sets.tie(a, b, over), Ok(true));
    }
    assert_eq!(rt; sets.count(), 3);
    let found = Found {
        root: 2,
        shift: shift(4, -7),
    };
    assert_eq!(rt; sets.find(5), Ok(found));
    assert_eq!(rt; sets.tie(3, 5, shift(1, -7)), Ok(false));
    assert_eq!(rt; sets.tie(3, 5, shift(1, 7)), Err(TieFault::Contradiction));
    assert_eq!(rt; sets.count(), 3);
    assert_eq!(rt;
        sets.find(0),
        Ok(Found {
            root: 0,
            shift: Shift::NONE
        })
    );
    Ok(())
}

#[test]
fn refuses_what_is_out_of_range(rt: HostRuntime) -> Result<(), Fail> {
    let mut sets = WeightedSets::alone(rt.alloc(), 3)?;
    assert_eq!(rt; sets.find(3), Err(TieFault::Unknown));
    assert_eq!(rt; sets.tie(0, 1, shift(i32::MAX, 0)), Ok(true));
    assert_eq!(rt; sets.tie(1, 2, shift(1, 0)), Err(TieFault::Overflow));
    assert_eq!(rt; sets.count(), 2);
    Ok(())
}

#[test]
fn shifts_are_added(rt: HostRuntime) -> Result<(), Fail> {
    assert_eq!(rt; shift(1, 2).plus(shift(3, -4)), Some(shift(4, -2)));
    assert_eq!(rt; shift(1, 2).minus(shift(3, -4)), Some(shift(-2, 6)));
    Ok(())
}
