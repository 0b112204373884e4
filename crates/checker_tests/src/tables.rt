// Automata whose tables are known by hand.
use rules_data::{Automaton, Claim, Corner, Rule, State, left_side, right_side};
use std::test::Fail;

#[test]
#[tactic(auto, unfolding(tree_model::specs::Automata::state_at, tree_model::specs::Automata::corner_at, tree_model::specs::Automata::corner_valence))]
fn copies_every_table(rt: HostRuntime) -> Result<(), Fail> {
    let alloc = rt.alloc();
    let claim = Claim {
        corner: 1,
        place: 2,
    };
    let state = State {
        kind: 3,
        off: 4,
        rules: Vec::from_slice(alloc, &[Rule::Parent, Rule::Child(5), Rule::Left])?,
        claims: Vec::from_slice(alloc, &[claim])?,
    };
    let corner = Corner {
        offsets: Vec::from_slice(alloc, &[0, -1, 7])?,
        outer: claim,
    };
    let automaton = Automaton {
        states: vec![in alloc; state]?,
        corners: vec![in alloc; corner]?,
        roots: Vec::from_slice(alloc, &[0, 0])?,
    };
    let copy = automaton.copy(alloc)?;
    assert_eq!(rt; copy.rule(0, 1), Rule::Child(5));
    assert_eq!(rt; copy.claim(0, 0), claim);
    assert_eq!(rt; copy.offset(0, 1), -1);
    assert_eq!(rt; copy.valence(0), 3);
    assert_eq!(rt; copy.corner(0).offsets[2], 7);
    assert_eq!(rt; copy.state(0).kind, 3);
    assert_eq!(rt; copy.state(0).off, 4);
    assert_eq!(rt; copy.outer(0), claim);
    assert_eq!(rt; copy.root(1), 0);
    Ok(())
}

#[test]
fn turns_from_side_to_side(rt: HostRuntime) -> Result<(), Fail> {
    assert_eq!(rt; left_side(5, 4), 0);
    assert_eq!(rt; left_side(5, 2), 3);
    assert_eq!(rt; right_side(5, 0), 4);
    assert_eq!(rt; right_side(5, 3), 2);
    Ok(())
}
