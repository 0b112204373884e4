// Corner types of pentagons, four at each corner, and of heptagons and hexagons, three at each
// corner. Those of pentagons are those of the regular automaton.
use crate::tables::{claims_at, is_corner, sizes};
use crate::tilings::{regular, tessellation, truncated};
use cone_types::ConeType;
use cone_types::Rule::{Child, Left, Parent, Right};
use corner_congruence::{corner_types, merged};
use rules_data::{Automaton, Rule};
use std::alloc::{AllocError, Global};
use std::test::Fail;
use tile_kinds::Kind;

/// A cone type.
fn cone(alloc: Global, kind: u8, off: u8, rules: &[Rule]) -> Result<ConeType, AllocError> {
    Ok(ConeType {
        kind,
        off,
        rules: Vec::from_slice(alloc, rules)?,
    })
}

/// The automaton over cone types of some kinds, if it does not contradict itself.
fn over(
    alloc: Global,
    kinds: Vec<Kind>,
    types: &[ConeType],
) -> Result<Option<Automaton>, AllocError> {
    match tessellation(kinds) {
        Some(tess) => corner_types(alloc, &tess, types),
        None => Ok(None),
    }
}

#[test]
fn finds_the_corners_of_pentagons(rt: HostRuntime) -> Result<(), Fail> {
    let alloc = rt.alloc();
    let mut types = Vec::new(alloc);
    for rules in [
        [Child(1); 5],
        [Parent, Right, Child(1), Child(1), Child(2)],
        [Parent, Right, Child(1), Child(2), Left],
    ] {
        types.push(cone(alloc, 0, 0, &rules)?)?;
    }
    let Some(a) = over(alloc, regular(alloc, 5, 4)?, &types)? else {
        panic!(rt; "no corner types");
    };
    assert_eq!(rt; sizes(&a), (3, 1, 1));
    assert!(rt; is_corner(&a, 0, &[0, -1, -2, -1], (0, 1)));
    assert!(rt; claims_at(&a, 0, &[(0, 2), (0, 2), (0, 2), (0, 2), (0, 2)]));
    assert!(rt; claims_at(&a, 1, &[(0, 3), (0, 2), (0, 2), (0, 2), (0, 1)]));
    assert!(rt; claims_at(&a, 2, &[(0, 3), (0, 2), (0, 2), (0, 1), (0, 0)]));
    Ok(())
}

#[test]
fn contradicts_where_a_side_is_missed(rt: HostRuntime) -> Result<(), Fail> {
    let alloc = rt.alloc();
    let mut types = vec![in alloc; cone(alloc, 0, 0, &[Child(1); 5])?]?;
    types.push(cone(alloc, 0, 0, &[Parent, Right, Child(1), Child(1), Left])?)?;
    assert!(rt; over(alloc, regular(alloc, 5, 4)?, &types)?.is_none());
    Ok(())
}

/// The cone types of heptagons and hexagons.
fn football(alloc: Global) -> Result<Vec<ConeType>, AllocError> {
    let mut types = Vec::new(alloc);
    types.push(cone(alloc, 0, 0, &[Child(2); 7])?)?;
    let six = [Child(3), Child(4), Child(3), Child(4), Child(3), Child(4)];
    types.push(cone(alloc, 1, 0, &six)?)?;
    let early = [Parent, Right, Right, Child(4), Child(5), Left];
    types.push(cone(alloc, 1, 0, &early)?)?;
    let wide = [Parent, Right, Right, Child(2), Child(2), Child(6), Left];
    types.push(cone(alloc, 0, 0, &wide)?)?;
    let turned = [Parent, Right, Right, Child(3), Child(7), Left];
    types.push(cone(alloc, 1, 1, &turned)?)?;
    let narrow = [Parent, Right, Right, Child(2), Child(6), Left, Left];
    types.push(cone(alloc, 0, 0, &narrow)?)?;
    types.push(cone(alloc, 1, 0, &[Parent, Right, Right, Child(7), Left, Left])?)?;
    types.push(cone(alloc, 1, 1, &[Parent, Right, Right, Child(5), Left, Left])?)?;
    Ok(types)
}

#[test]
fn merges_the_corners_of_heptagons_and_hexagons(rt: HostRuntime) -> Result<(), Fail> {
    let alloc = rt.alloc();
    let types = football(alloc)?;
    let Some(a) = over(alloc, truncated(alloc, 3, 7)?, &types)? else {
        panic!(rt; "no corner types");
    };
    assert_eq!(rt; sizes(&a), (8, 6, 2));
    let m = merged(alloc, &a)?;
    assert_eq!(rt; sizes(&m), (8, 2, 2));
    assert!(rt; is_corner(&m, 0, &[0, -1, 0], (1, 1)));
    assert!(rt; is_corner(&m, 1, &[0, -1, -1], (0, 0)));
    assert!(rt; claims_at(&m, 2, &[(0, 2), (1, 2), (0, 1), (0, 1), (1, 1), (0, 0)]));
    assert_eq!(rt; m.roots.as_slice(), [0, 1].as_slice());
    Ok(())
}
