// The twelve conditions once more, slowly and word by word as docs/FORMATS.md has them, so that the
// checker is compared with a second reading of them.
use rules_data::{Automaton, Corner, State};
use tile_kinds::Kind;
use tree_model::{Claim, Rule};

/// A condition, and the first and the second number of the place where it is broken.
pub(crate) type Place = (u8, usize, usize);

// The next number after i of n, which come round.
fn next(i: usize, n: usize) -> usize {
    let next = i.saturating_add(1);
    if next < n { next } else { 0 }
}

fn previous(i: usize, n: usize) -> usize {
    if i == 0 { n.saturating_sub(1) } else { i - 1 }
}

/// The first place that is broken.
pub(crate) fn first_broken(kinds: &[Kind], a: &Automaton) -> Option<Place> {
    for part in 0..6 {
        for index in 0..size(kinds, a, part) {
            if !holds_part(kinds, a, part, index).unwrap_or(false) {
                return Some((1, index, part as usize));
            }
        }
    }
    for condition in 2..10 {
        for (s, state) in a.states.iter().enumerate() {
            for i in 0..state.rules.len() {
                if !holds_at_side(kinds, a, condition, s, i).unwrap_or(false) {
                    return Some((condition, s, i));
                }
            }
        }
    }
    for condition in 10..13 {
        for (g, corner) in a.corners.iter().enumerate() {
            if !holds_at_corner(a, condition, g, corner).unwrap_or(false) {
                return Some((condition, g, 0));
            }
        }
    }
    None
}

// How many indices a part of the first condition has.
fn size(kinds: &[Kind], a: &Automaton, part: u8) -> usize {
    match part {
        0 => 1,
        1 => kinds.len(),
        2 | 3 => a.corners.len(),
        _ => a.states.len(),
    }
}

fn holds_part(kinds: &[Kind], a: &Automaton, part: u8, index: usize) -> Option<bool> {
    match part {
        0 => Some(
            (1..=100_000).contains(&a.states.len())
                && (1..=20_000).contains(&a.corners.len())
                && a.roots.len() == kinds.len(),
        ),
        1 => Some((*a.roots.get(index)? as usize) < a.states.len()),
        2 => {
            let h = a.corners.get(index)?.offsets.as_slice();
            let small = h.iter().all(|x| (-64..=64).contains(x));
            Some((3..=64).contains(&h.len()) && h.first() == Some(&0) && small)
        }
        3 => {
            let outer = a.corners.get(index)?.outer;
            let there = a.corners.get(usize::try_from(outer.corner).ok()?)?;
            Some(usize::from(outer.place).saturating_add(1) < there.offsets.len())
        }
        4 => {
            let state = a.states.get(index)?;
            let kind = kinds.get(state.kind as usize)?;
            let sides = kind.sides as usize;
            Some(
                state.off < kind.repeat
                    && state.rules.len() == sides
                    && state.claims.len() == sides,
            )
        }
        _ => names_what_is_there(a, a.states.get(index)?),
    }
}

// The last part of the first condition.
fn names_what_is_there(a: &Automaton, state: &State) -> Option<bool> {
    for rule in &state.rules {
        if let Rule::Child(c) = rule {
            a.states.get(*c as usize)?;
        }
    }
    for claim in &state.claims {
        let corner = a.corners.get(usize::try_from(claim.corner).ok()?)?;
        corner.offsets.get(usize::from(claim.place))?;
    }
    Some(true)
}

fn holds_at_side(kinds: &[Kind], a: &Automaton, condition: u8, s: usize, i: usize) -> Option<bool> {
    let state = a.states.get(s)?;
    let rule = *state.rules.get(i)?;
    match condition {
        2 => is_rooted(a, s, state, i, rule),
        3 => has_partner(kinds, a, state, i, rule),
        4 => has_valence(kinds, a, state, i),
        5 => Some((state.claims.get(i)?.place == 0) == (rule == Rule::Left)),
        6 => {
            let behind = *state.rules.get(next(i, state.rules.len()))?;
            let claim = *state.claims.get(i)?;
            Some(is_last(a, claim)? == (behind == Rule::Right))
        }
        7 => has_outer_before(a, state, i, rule),
        8 => has_outer_behind(a, state, i, rule),
        _ => has_child_claims(a, state, i, rule),
    }
}

fn is_root(a: &Automaton, s: usize) -> bool {
    a.roots.iter().any(|root| *root as usize == s)
}

// The second condition, of a state at a side.
fn is_rooted(a: &Automaton, s: usize, state: &State, i: usize, rule: Rule) -> Option<bool> {
    for (k, root) in a.roots.iter().enumerate() {
        if *root as usize == s && i == 0 && !(state.kind as usize == k && state.off == 0) {
            return Some(false);
        }
    }
    let parent = i == 0 && !is_root(a, s);
    let leads_to_root = match rule {
        Rule::Child(c) => is_root(a, c as usize),
        _ => false,
    };
    Some((rule == Rule::Parent) == parent && !leads_to_root)
}

// The residue of a side of a state, and its kind.
fn residue<'a>(kinds: &'a [Kind], state: &State, i: usize) -> Option<(&'a Kind, usize)> {
    let kind = kinds.get(state.kind as usize)?;
    let repeat = kind.repeat as usize;
    if repeat == 0 {
        return None;
    }
    Some((kind, i.saturating_add(state.off as usize) % repeat))
}

fn has_partner(kinds: &[Kind], a: &Automaton, state: &State, i: usize, rule: Rule) -> Option<bool> {
    let Rule::Child(c) = rule else {
        return Some(true);
    };
    let child = a.states.get(c as usize)?;
    let (kind, residue) = residue(kinds, state, i)?;
    Some(*kind.partner.get(residue)? == (child.kind, child.off))
}

fn has_valence(kinds: &[Kind], a: &Automaton, state: &State, i: usize) -> Option<bool> {
    let corner = corner_of(a, *state.claims.get(i)?)?;
    let (kind, residue) = residue(kinds, state, i)?;
    Some(corner.offsets.len() == *kind.valence.get(residue)? as usize)
}

fn corner_of(a: &Automaton, claim: Claim) -> Option<&Corner> {
    a.corners.get(usize::try_from(claim.corner).ok()?)
}

// Whether a claim is at the last place.
fn is_last(a: &Automaton, claim: Claim) -> Option<bool> {
    let valence = corner_of(a, claim)?.offsets.len();
    Some(usize::from(claim.place).saturating_add(1) == valence)
}

fn has_outer_before(a: &Automaton, state: &State, i: usize, rule: Rule) -> Option<bool> {
    let outer = corner_of(a, *state.claims.get(i)?)?.outer;
    let before = *state.claims.get(previous(i, state.claims.len()))?;
    Some(rule != Rule::Left || before == outer)
}

fn has_outer_behind(a: &Automaton, state: &State, i: usize, rule: Rule) -> Option<bool> {
    let before = *state.claims.get(previous(i, state.claims.len()))?;
    let outer = corner_of(a, before)?.outer;
    let claim = *state.claims.get(i)?;
    let behind = claim.corner == outer.corner
        && usize::from(claim.place) == usize::from(outer.place).saturating_add(1);
    Some(rule != Rule::Right || behind)
}

// The offset of a corner type at a place.
fn offset(a: &Automaton, g: u32, t: usize) -> Option<i64> {
    let corner = a.corners.get(g as usize)?;
    Some(i64::from(*corner.offsets.get(t)?))
}

// The ninth condition, of a side of a state.
fn has_child_claims(a: &Automaton, state: &State, i: usize, rule: Rule) -> Option<bool> {
    let Rule::Child(c) = rule else {
        return Some(true);
    };
    let claims = a.states.get(c as usize)?.claims.as_slice();
    let (first, last) = (*claims.first()?, *claims.last()?);
    let before = *state.claims.get(previous(i, state.claims.len()))?;
    let behind = *state.claims.get(i)?;
    let (g, t) = (before.corner, usize::from(before.place));
    let up = t.saturating_add(1);
    let (h, k) = (behind.corner, usize::from(behind.place));
    let down = k.checked_sub(1)?;
    Some(
        first.corner == g
            && usize::from(first.place) == up
            && offset(a, g, up)? == offset(a, g, t)?.saturating_add(1)
            && last.corner == h
            && usize::from(last.place) == down
            && offset(a, h, down)? == offset(a, h, k)?.saturating_add(1),
    )
}

fn holds_at_corner(a: &Automaton, condition: u8, at: usize, corner: &Corner) -> Option<bool> {
    let (g, t) = (corner.outer.corner, usize::from(corner.outer.place));
    let last = i64::from(*corner.offsets.last()?);
    let first = i64::from(*corner.offsets.first()?);
    match condition {
        10 => {
            let change = offset(a, g, t.saturating_add(1))?.saturating_sub(offset(a, g, t)?);
            Some(change == last.saturating_sub(first))
        }
        11 => Some((-1..=1).contains(&last)),
        _ => falls_round(a, at),
    }
}

// Whether the offsets that are entered sum below 0 along the links that lead from a corner type
// back to it, where any do.
fn falls_round(a: &Automaton, start: usize) -> Option<bool> {
    let mut g = start;
    let mut sum: i64 = 0;
    for _link in 0..a.corners.len() {
        let outer = a.corners.get(g)?.outer;
        sum = sum.saturating_add(offset(a, outer.corner, usize::from(outer.place))?);
        g = usize::try_from(outer.corner).ok()?;
        if g == start {
            return Some(sum < 0);
        }
    }
    Some(true)
}
