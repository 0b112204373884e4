// Tables of automata, compared with those that are known.
use rules_data::{Automaton, Claim, Rule};

/// Whether the claims are these, each a corner type and a place.
fn are_claims(claims: &[Claim], want: &[(u32, u8)]) -> bool {
    claims.len() == want.len()
        && claims
            .iter()
            .zip(want)
            .all(|(claim, want)| (claim.corner, claim.place) == *want)
}

/// Whether state `s` has these claims.
pub(crate) fn claims_at(a: &Automaton, s: usize, want: &[(u32, u8)]) -> bool {
    match a.states.get(s) {
        Some(state) => are_claims(&state.claims, want),
        None => false,
    }
}

/// Whether state `s` is one of kind 0 and residue 0 with these rules and claims.
pub(crate) fn is_state(a: &Automaton, s: usize, rules: &[Rule], claims: &[(u32, u8)]) -> bool {
    match a.states.get(s) {
        Some(state) => {
            state.kind == 0
                && state.off == 0
                && state.rules.as_slice() == rules
                && are_claims(&state.claims, claims)
        }
        None => false,
    }
}

/// Whether corner type `g` has these offsets and this outer corner.
pub(crate) fn is_corner(a: &Automaton, g: usize, offsets: &[i8], outer: (u32, u8)) -> bool {
    match a.corners.get(g) {
        Some(corner) => {
            corner.offsets.as_slice() == offsets
                && (corner.outer.corner, corner.outer.place) == outer
        }
        None => false,
    }
}

/// The numbers of states, corner types and roots.
pub(crate) fn sizes(a: &Automaton) -> (usize, usize, usize) {
    (a.states.len(), a.corners.len(), a.roots.len())
}
