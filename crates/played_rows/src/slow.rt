// Walks in the tree of rules, and beside them a slow program that follows the definition of what
// lies across: it finds the side that is matched with another by recursion, and counts no brackets.
use crate::call::{call, sink, source};
use crate::stage::Stage;
use crate::told::{halves, tell};
use rules_data::{Automaton, Rule, State};
use rules_file::read_rules;
use std::alloc::{AllocError, Global};

/// Why the slow program does not go on.
#[derive(Clone, Copy, Debug)]
enum Missed {
    /// There is no such tile or side, or no match within the moves.
    Side,
    Memory,
}

impl From<AllocError> for Missed {
    fn from(_: AllocError) -> Self {
        Missed::Memory
    }
}

/// The slow program gives up at a way of more moves.
const MOVES: u32 = 10_000;

/// A tile of the tree by its name, and one of its sides.
#[derive(Drop)]
struct Slow<'r> {
    automaton: &'r Automaton,
    name: Vec<u8>,
    side: u8,
}

impl<'r> Slow<'r> {
    // Side 0 of the root of kind 0.
    fn root(alloc: Global, automaton: &'r Automaton) -> Slow<'r> {
        Slow {
            automaton,
            name: Vec::new(alloc),
            side: 0,
        }
    }

    // The state of the tile, which is found by its name from the root on.
    fn state(&self) -> Option<&'r State> {
        let automaton = self.automaton;
        let mut state = automaton.states.get(*automaton.roots.first()? as usize)?;
        for side in &self.name {
            let Rule::Child(child) = *state.rules.get(*side as usize)? else {
                return None;
            };
            state = automaton.states.get(child as usize)?;
        }
        Some(state)
    }

    // What the sides of the tile are in the tree.
    fn sides(&self) -> Option<&'r [Rule]> {
        Some(&self.state()?.rules)
    }

    fn rule(&self) -> Option<Rule> {
        self.sides()?.get(self.side as usize).copied()
    }

    fn turn(&mut self, leftwards: bool) -> Option<()> {
        let last = u8::try_from(self.sides()?.len()).ok()?.checked_sub(1)?;
        self.side = if leftwards {
            if self.side >= last { 0 } else { self.side + 1 }
        } else {
            self.side.checked_sub(1).unwrap_or(last)
        };
        Some(())
    }

    fn up(&mut self) -> Option<()> {
        self.side = self.name.pop()?;
        Some(())
    }

    fn down(&mut self) -> Result<(), AllocError> {
        self.name.push(self.side)?;
        self.side = 0;
        Ok(())
    }

    // From a Left side, leftwards, to the Right side that is matched with it, or the mirror image:
    // turn by turn, across each side of the tree, and over each pair of matched sides that opens on
    // the way.
    fn find_match(&mut self, leftwards: bool, moves: u32) -> Result<(), Missed> {
        for spent in 0..moves {
            self.turn(leftwards).ok_or(Missed::Side)?;
            match self.rule().ok_or(Missed::Side)? {
                Rule::Parent => self.up().ok_or(Missed::Side)?,
                Rule::Child(_) => self.down()?,
                Rule::Left if leftwards => self.find_match(true, moves - spent - 1)?,
                Rule::Right if !leftwards => self.find_match(false, moves - spent - 1)?,
                Rule::Left | Rule::Right => return Ok(()),
            }
        }
        Err(Missed::Side)
    }

    fn cross(&mut self) -> Result<(), Missed> {
        match self.rule().ok_or(Missed::Side)? {
            Rule::Parent => self.up().ok_or(Missed::Side)?,
            Rule::Child(_) => self.down()?,
            Rule::Left => self.find_match(true, MOVES)?,
            Rule::Right => self.find_match(false, MOVES)?,
        }
        Ok(())
    }

    fn step(&mut self, letter: u8) -> Result<(), Missed> {
        match letter {
            b'L' => self.turn(true).ok_or(Missed::Side)?,
            b'R' => self.turn(false).ok_or(Missed::Side)?,
            _ => self.cross()?,
        }
        Ok(())
    }

    // What a walker is told that stands there.
    fn told(&self, alloc: Global) -> Result<String, AllocError> {
        let mut name = String::new(alloc);
        for side in &self.name {
            if !name.is_empty() {
                name.push_str(".")?;
            }
            name.push_str(format!(in alloc; "{side}")?.as_str())?;
        }
        if name.is_empty() {
            name.push_str("-")?;
        }
        let side = self.side;
        let kind = self.state().map_or(u8::MAX, |state| state.kind);
        format!(in alloc; "at {name} {side} {kind}\n")
    }
}

// Letters of a fixed list that looks like chance.
fn letters(alloc: Global, seed: u32, count: u32) -> Result<Vec<u8>, AllocError> {
    let mut walk = Vec::new(alloc);
    let mut at = seed;
    for turn in 0..count {
        at = at.wrapping_mul(1_664_525).wrapping_add(1_013_904_223);
        walk.push(match (at >> 24) % 5 {
            0 | 1 => b'L',
            2 => b'R',
            _ => b'X',
        })?;
    }
    Ok(walk)
}

// The commands of a walker that goes letter by letter and is asked each time, and of one that goes
// all at once; and the replies that the slow program gives. None where it does not go on.
fn stream(
    alloc: Global,
    automaton: &Automaton,
    walk: &[u8],
) -> Result<Option<(Vec<u8>, Vec<u8>)>, AllocError> {
    let mut commands = Vec::from_slice(alloc, b"new 0\n")?;
    let mut replies = Vec::from_slice(alloc, b"ok\n")?;
    let mut slow = Slow::root(alloc, automaton);
    for letter in walk {
        if slow.step(*letter).is_err() {
            return Ok(None);
        }
        commands.extend_from_slice(b"go 0 ")?;
        commands.push(*letter)?;
        commands.extend_from_slice(b"\nat 0\n")?;
        replies.extend_from_slice(b"ok\n")?;
        replies.extend_from_slice(slow.told(alloc)?.as_bytes())?;
    }
    commands.extend_from_slice(b"new 1\ngo 1 ")?;
    commands.extend_from_slice(walk)?;
    commands.extend_from_slice(b"\nat 1\n")?;
    replies.extend_from_slice(b"ok\nok\n")?;
    replies.extend_from_slice(slow.told(alloc)?.as_bytes())?;
    Ok(Some((commands, replies)))
}

fn automaton(alloc: Global, bytes: &[u8]) -> Option<Automaton> {
    if bytes.len() > 100_000 {
        return None;
    }
    read_rules(alloc, bytes).ok()
}

/// Whether the program and the slow one agree on three long walks, after each letter and after the
/// whole at once.
pub(crate) fn tell_slow_walks(
    stage: &mut Stage,
    rest: &str,
    said: &mut Vec<u8>,
) -> Result<(), AllocError> {
    let alloc = stage.alloc;
    let (name, words) = halves(rest, " ");
    let Some(automaton) = automaton(alloc, &stage.content(name)?) else {
        return tell(said, "no rules\n");
    };
    for seed in 1..4u32 {
        let walk = letters(alloc, seed, 300)?;
        let Some((commands, replies)) = stream(alloc, &automaton, &walk)? else {
            return tell(said, "no way\n");
        };
        let mut input = source(alloc, &commands, 4_096, &[])?;
        let mut out = sink(alloc, 1_000_000, 9_973, &[])?;
        let code = call(alloc, words, &mut stage.files()?, &mut input, &mut out)?;
        let agree = code == 0 && out.taken() == replies.as_slice();
        tell(
            said,
            format!(in alloc; "walk {seed}: agree {agree}\n")?.as_str(),
        )?;
    }
    Ok(())
}
