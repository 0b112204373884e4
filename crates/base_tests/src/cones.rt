//! The cone types of pentagons, four at each corner, of which the regular automaton has three.
use cone_types::Rule::{Child, Left, Parent, Right};
use cone_types::{ConeType, Rule, coarsest};
use std::alloc::{AllocError, Global};
use std::test::Fail;

/// Cone types of kind 0 with these rules.
fn cones(alloc: Global, rows: &[&[Rule]]) -> Result<Vec<ConeType>, AllocError> {
    let mut types = Vec::new(alloc);
    for rules in rows {
        types.push(ConeType {
            kind: 0,
            off: 0,
            rules: Vec::from_slice(alloc, rules)?,
        })?;
    }
    Ok(types)
}

fn is_cone(cone: &ConeType, rules: &[Rule]) -> bool {
    cone.kind == 0 && cone.off == 0 && cone.rules.as_slice() == rules
}

/// Whether these are cone types of kind 0 with these rules.
fn are_cones(types: &[ConeType], rows: &[&[Rule]]) -> bool {
    for (cone, rules) in types.iter().zip(rows) {
        if !is_cone(cone, rules) {
            return false;
        }
    }
    types.len() == rows.len()
}

#[test]
fn joins_equal_cone_types(rt: HostRuntime) -> Result<(), Fail> {
    let alloc = rt.alloc();
    let rows: [&[Rule]; 5] = [
        &[Child(1), Child(3), Child(1), Child(3), Child(1)],
        &[Parent, Right, Child(1), Child(3), Child(2)],
        &[Parent, Right, Child(3), Child(4), Left],
        &[Parent, Right, Child(3), Child(3), Child(4)],
        &[Parent, Right, Child(1), Child(2), Left],
    ];
    let coarse = coarsest(alloc, &cones(alloc, &rows)?, 1)?;
    let wanted: [&[Rule]; 3] = [
        &[Child(1), Child(1), Child(1), Child(1), Child(1)],
        &[Parent, Right, Child(1), Child(1), Child(2)],
        &[Parent, Right, Child(1), Child(2), Left],
    ];
    assert!(rt; are_cones(&coarse, &wanted));
    Ok(())
}

#[test]
fn keeps_roots_apart(rt: HostRuntime) -> Result<(), Fail> {
    let alloc = rt.alloc();
    let row = [Left, Child(9), Right];
    let types = cones(alloc, &[row.as_slice(); 4])?;
    for (roots, classes) in [(2, 3), (0, 1)] {
        let coarse = coarsest(alloc, &types, roots)?;
        assert_eq!(rt; coarse.len(), classes, "{roots}");
        assert!(rt; coarse.iter().all(|cone| is_cone(cone, &row)), "{roots}");
    }
    Ok(())
}

#[test]
fn copies_a_cone_type(rt: HostRuntime) -> Result<(), Fail> {
    let alloc = rt.alloc();
    let types = cones(alloc, &[[Left, Parent].as_slice()])?;
    let Some(cone) = types.first() else {
        panic!(rt; "no cone type");
    };
    assert!(rt; is_cone(&cone.copy(alloc)?, &[Left, Parent]));
    Ok(())
}
