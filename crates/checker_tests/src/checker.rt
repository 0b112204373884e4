// Automata of which it is known by hand whether they are accepted, and where not.
use rules_data::Rule::{Child, Left, Parent, Right};
use rules_data::{Automaton, Claim, Corner, Rule, State};
use std::alloc::{AllocError, Global};
use std::test::Fail;
use structure_check::{check, first_broken};
use tile_kinds::{Kind, Tessellation};

fn kind(
    alloc: Global,
    sides: u8,
    partner: &[(u8, u8)],
    valence: &[u8],
) -> Result<Kind, AllocError> {
    Ok(Kind {
        sides,
        repeat: if partner.len() == 2 { 2 } else { 1 },
        partner: Vec::from_slice(alloc, partner)?,
        valence: Vec::from_slice(alloc, valence)?,
    })
}

fn state(
    alloc: Global,
    (kind, off): (u8, u8),
    rules: &[Rule],
    claims: &[(u32, u8)],
) -> Result<State, AllocError> {
    let mut list = Vec::new(alloc);
    for (corner, place) in claims {
        list.push(Claim {
            corner: *corner,
            place: *place,
        })?;
    }
    Ok(State {
        kind,
        off,
        rules: Vec::from_slice(alloc, rules)?,
        claims: list,
    })
}

fn corner(alloc: Global, offsets: &[i8], (corner, place): (u32, u8)) -> Result<Corner, AllocError> {
    Ok(Corner {
        offsets: Vec::from_slice(alloc, offsets)?,
        outer: Claim { corner, place },
    })
}

// The states of pentagons, four at a corner, with this rule at side 2 of state 2, and the corner
// types handed in.
fn pentagons(alloc: Global, rule: Rule, corners: Vec<Corner>) -> Result<Automaton, AllocError> {
    let one = [Parent, Right, Child(1), Child(1), Child(2)];
    let two = [Parent, Right, rule, Child(2), Left];
    let mut states = Vec::new(alloc);
    states.push(state(alloc, (0, 0), &[Child(1); 5], &[(0, 2); 5])?)?;
    states.push(state(
        alloc,
        (0, 0),
        &one,
        &[(0, 3), (0, 2), (0, 2), (0, 2), (0, 1)],
    )?)?;
    states.push(state(
        alloc,
        (0, 0),
        &two,
        &[(0, 3), (0, 2), (0, 2), (0, 1), (0, 0)],
    )?)?;
    Ok(Automaton {
        states,
        corners,
        roots: vec![in alloc; 0]?,
    })
}

// Three tiles at each corner.
fn threes(alloc: Global) -> Result<Vec<Corner>, AllocError> {
    let mut corners = Vec::new(alloc);
    corners.push(corner(alloc, &[0, -1, 0], (1, 1))?)?;
    corners.push(corner(alloc, &[0, -1, -1], (0, 0))?)?;
    Ok(corners)
}

// The least broken condition and its place, if there is one, as `first_broken` finds it in the
// parts that `check` has accepted, or has given back.
fn found(tess: Tessellation, a: Automaton) -> Option<(u8, u32, u8)> {
    let (tess, a) = match check(tess, a) {
        Ok(rules) => rules.into_parts(),
        Err((tess, a, _)) => (tess, a),
    };
    let broken = first_broken(&tess, &a)?;
    Some((broken.condition, broken.first, broken.second))
}

#[test]
fn finds_the_first_broken_place(rt: HostRuntime) -> Result<(), Fail> {
    let alloc = rt.alloc();
    let cases = [
        (4, 1, Child(1), false, None),
        (4, 1, Child(1), true, None),
        (3, 1, Child(1), false, Some((4, 0, 0))),
        (4, 0, Child(1), false, Some((7, 2, 4))),
        (4, 1, Child(3), false, Some((1, 2, 5))),
        (4, 1, Parent, false, Some((2, 2, 2))),
    ];
    for (valence, place, rule, more, want) in cases {
        let mut corners = Vec::new(alloc);
        corners.push(corner(alloc, &[0, -1, -2, -1], (0, place))?)?;
        if more {
            corners.push(corner(alloc, &[0, 0, -1], (0, 1))?)?;
        }
        let a = pentagons(alloc, rule, corners)?;
        let kinds = vec![in alloc; kind(alloc, 5, &[(0, 0)], &[valence])?]?;
        let Ok(tess) = Tessellation::make(kinds) else {
            panic!(rt; "no tessellation");
        };
        assert_eq!(rt; found(tess, a), want);
    }
    Ok(())
}

// The states of heptagons, three at a corner.
fn heptagons(alloc: Global) -> Result<Vec<State>, AllocError> {
    let one = [Parent, Right, Right, Child(1), Child(1), Child(2), Left];
    let two = [Parent, Right, Right, Child(1), Child(2), Left, Left];
    let ones = [(0, 2), (1, 2), (0, 1), (0, 1), (0, 1), (1, 1), (0, 0)];
    let twos = [(0, 2), (1, 2), (0, 1), (0, 1), (1, 1), (0, 0), (1, 0)];
    let mut states = Vec::new(alloc);
    states.push(state(alloc, (0, 0), &[Child(1); 7], &[(0, 1); 7])?)?;
    states.push(state(alloc, (0, 0), &one, &ones)?)?;
    states.push(state(alloc, (0, 0), &two, &twos)?)?;
    Ok(states)
}

// The states of heptagons and hexagons, three at a corner.
fn heptagons_and_hexagons(alloc: Global) -> Result<Vec<State>, AllocError> {
    let four = [(0, 2), (1, 2), (0, 1), (0, 1), (1, 1), (0, 0)];
    let six = [(0, 2), (1, 2), (0, 1), (1, 1), (0, 0), (1, 0)];
    let wide = [(0, 2), (1, 2), (0, 1), (0, 1), (0, 1), (1, 1), (0, 0)];
    let narrow = [(0, 2), (1, 2), (0, 1), (0, 1), (1, 1), (0, 0), (1, 0)];
    let root = [Child(6), Child(3), Child(6), Child(3), Child(6), Child(3)];
    let mut states = Vec::new(alloc);
    states.push(state(alloc, (0, 0), &[Child(2); 7], &[(0, 1); 7])?)?;
    states.push(state(alloc, (1, 0), &root, &[(0, 1); 6])?)?;
    states.push(state(
        alloc,
        (1, 0),
        &[Parent, Right, Right, Child(3), Child(7), Left],
        &four,
    )?)?;
    states.push(state(
        alloc,
        (1, 1),
        &[Parent, Right, Right, Child(6), Child(5), Left],
        &four,
    )?)?;
    states.push(state(
        alloc,
        (1, 0),
        &[Parent, Right, Right, Child(5), Left, Left],
        &six,
    )?)?;
    states.push(state(
        alloc,
        (1, 1),
        &[Parent, Right, Right, Child(7), Left, Left],
        &six,
    )?)?;
    let seventh = [Parent, Right, Right, Child(2), Child(2), Child(4), Left];
    states.push(state(alloc, (0, 0), &seventh, &wide)?)?;
    let eighth = [Parent, Right, Right, Child(2), Child(4), Left, Left];
    states.push(state(alloc, (0, 0), &eighth, &narrow)?)?;
    Ok(states)
}

// Rules with three tiles at each corner.
fn three_at_a_corner(
    alloc: Global,
    states: Vec<State>,
    roots: &[u32],
) -> Result<Automaton, AllocError> {
    Ok(Automaton {
        states,
        corners: threes(alloc)?,
        roots: Vec::from_slice(alloc, roots)?,
    })
}

// Corner types that no claim names, beside the one of pentagons: three cycles of one or two links
// with sum 0, one of them behind a tail, and a cycle of two links with sum -1.
#[test]
fn finds_cycles_that_do_not_fall(rt: HostRuntime) -> Result<(), Fail> {
    let alloc = rt.alloc();
    let level: &[i8] = &[0, 0, 0];
    let up: &[i8] = &[0, 1, 1, 0];
    let down: &[i8] = &[0, -1, -1, 0];
    let cases = [
        (
            level,
            (1, 0),
            level,
            (1, 0),
            level,
            (1, 0),
            Some((12, 1, 0)),
        ),
        (
            level,
            (1, 1),
            level,
            (1, 0),
            level,
            (1, 0),
            Some((12, 1, 0)),
        ),
        (level, (3, 1), up, (3, 1), down, (2, 1), Some((12, 2, 0))),
        (level, (3, 1), level, (3, 1), down, (2, 1), None),
    ];
    for (first, first_outer, second, second_outer, third, third_outer, want) in cases {
        let mut corners = Vec::new(alloc);
        corners.push(corner(alloc, &[0, -1, -2, -1], (0, 1))?)?;
        corners.push(corner(alloc, first, first_outer)?)?;
        corners.push(corner(alloc, second, second_outer)?)?;
        corners.push(corner(alloc, third, third_outer)?)?;
        let a = pentagons(alloc, Child(1), corners)?;
        let kinds = vec![in alloc; kind(alloc, 5, &[(0, 0)], &[4])?]?;
        let Ok(tess) = Tessellation::make(kinds) else {
            panic!(rt; "no tessellation");
        };
        assert_eq!(rt; found(tess, a), want);
    }
    Ok(())
}

#[test]
fn accepts_three_at_a_corner(rt: HostRuntime) -> Result<(), Fail> {
    let alloc = rt.alloc();
    let a = three_at_a_corner(alloc, heptagons(alloc)?, &[0])?;
    let kinds = vec![in alloc; kind(alloc, 7, &[(0, 0)], &[3])?]?;
    let Ok(tess) = Tessellation::make(kinds) else {
        panic!(rt; "no tessellation");
    };
    assert_eq!(rt; found(tess, a), None);
    let a = three_at_a_corner(alloc, heptagons_and_hexagons(alloc)?, &[0, 1])?;
    let mut kinds = vec![in alloc; kind(alloc, 7, &[(1, 0)], &[3])?]?;
    kinds.push(kind(alloc, 6, &[(0, 0), (1, 1)], &[3, 3])?)?;
    let Ok(tess) = Tessellation::make(kinds) else {
        panic!(rt; "no tessellation");
    };
    let Ok(rules) = check(tess, a) else {
        panic!(rt; "refused");
    };
    assert_eq!(rt; rules.tessellation().kinds(), 2);
    assert_eq!(rt; rules.automaton().states.len(), 8);
    Ok(())
}
