//! The lines of commands, read.
ghost use Rattle.std.specs.Prelude.{◌≡◌, ◌≢◌, ℕ, ◌<◌, ◌↔◌, List, length, IfOk, IfErr, IsErrOf, IfSome, IfNone};
ghost use Rattle.tile_model.specs.declared.Letter.{Letter};
ghost use Rattle.tile_model.specs.WalkTexts.{walk_text};
ghost use Rattle.command_text.specs.CommandLines.{IsWalkerNumber, IsSpelling, SpellsNothing, one_walker, two_walkers, walker_and_walk, walker_and_text, one_distance, most_of_line, verb_text};
ghost use Rattle.command_text.specs.Words.{IsInFront, AreToldBy, TellNothing, walker_alone, walkers, walker_with_walk, walker_with_text, distance_alone, IsCommandOf, IsNoCommandOf};
ghost use Rattle.command_text.specs.declared.command.Verb.{Verb as VerbData};

use crate::cutting::cut_at;
use reply_model::{Bytes, Command, WALKERS};
use short_numbers::read_number;
use std::alloc::Global;
use thiserror::Error;
use walk_words::{Walk, WalkFault, read_walk};

/// The most bytes that a line may have.
pub const LONGEST_LINE: usize = 8_192;

/// Why a line was not read.
#[derive(Clone, Copy, Debug, PartialEq, Eq, Error)]
pub enum LineFault {
    /// The line has over 8,192 bytes.
    #[error("the line is too long")]
    TooLong,
    /// The line is not too long, and it is in no form.
    #[error("the line is in no form")]
    Bad,
    /// There is no memory for the command.
    #[error("out of memory")]
    Memory,
}

/// Why no command was read.
#[derive(Clone, Copy, Debug, PartialEq, Eq, Error)]
pub enum CommandFault {
    /// The bytes are in no form.
    #[error("in no form")]
    Bad,
    /// There is no memory for the command.
    #[error("out of memory")]
    Memory,
}

/// Reads the line of a command, without its line feed, as [`read_command`] does.
/// What is spelt is read unless memory runs out, and it is one command: that follows with
/// [`crate::laws::spelling`].
///
/// # Errors
///
/// `TooLong` exactly where the line has over 8,192 bytes. `Bad` where it has not and is in no form.
pub fn read_line(alloc: Global, line: &[u8]) -> Result<Command, LineFault>
    ensures spelt { IfOk result (IsSpelling line.now) }
    ensures too_long { IsErrOf result LineFault.TooLong ↔ (most_of_line < length line.now) }
    ensures bad { IsErrOf result LineFault.Bad → SpellsNothing line.now }
{
    if line.len() > LONGEST_LINE {
        return Err(LineFault::TooLong);
    }
    match read_command(alloc, line) {
        Ok(command) => Ok(command),
        Err(CommandFault::Bad) => Err(LineFault::Bad),
        Err(CommandFault::Memory) => Err(LineFault::Memory),
    }
}

/// Reads a command from bytes of any number, by its first word and then by the shape of what stands
/// behind it.
///
/// The forms are `new W`, `go W LETTERS`, `at W`, `same W V`, `level W`, `dist W V`, `path W V`,
/// `put W TEXT`, `get W`, `ring D` and `count D`, with exactly one space between two words.
/// W and V are numbers of walkers: one to nine digits, leading zeros allowed, of a value from 0 to
/// 63.
/// LETTERS is the text of a walk.
/// TEXT is all bytes behind the one space behind W, whatever they are, perhaps none.
/// D is a number of crossings: one to nine digits, leading zeros allowed.
/// Only the letters of a walk and the bytes of a text take memory.
///
/// # Errors
///
/// `Bad` where the bytes are in no form.
pub fn read_command(alloc: Global, line: &[u8]) -> Result<Command, CommandFault>
    ensures spelt { IfOk result (IsSpelling line.now) }
    ensures bad { IsErrOf result CommandFault.Bad → SpellsNothing line.now }
{
    let Some((word, rest)) = cut_at(line, b' ') else {
        return Err(CommandFault::Bad);
    };
    let Some(verb) = verb_of(word) else {
        return Err(CommandFault::Bad);
    };
    read_told(alloc, verb, rest)
}

/// What a command does: the first word of its line.
#[derive(Clone, Copy)]
enum Verb {
    New,
    Go,
    At,
    Same,
    Level,
    Dist,
    Path,
    Put,
    Get,
    Ring,
    Count,
}

/// The verb of a first word.
fn verb_of(word: &[u8]) -> Option<Verb>
    ensures some { IfSome result (λ verb. word.now ≡ verb_text verb) }
    ensures none { IfNone result ((verb : VerbData) → word.now ≢ verb_text verb) }
{
    if word == b"new".as_slice() {
        Some(Verb::New)
    } else if word == b"go".as_slice() {
        Some(Verb::Go)
    } else if word == b"at".as_slice() {
        Some(Verb::At)
    } else if word == b"same".as_slice() {
        Some(Verb::Same)
    } else if word == b"level".as_slice() {
        Some(Verb::Level)
    } else if word == b"dist".as_slice() {
        Some(Verb::Dist)
    } else if word == b"path".as_slice() {
        Some(Verb::Path)
    } else if word == b"put".as_slice() {
        Some(Verb::Put)
    } else if word == b"get".as_slice() {
        Some(Verb::Get)
    } else if word == b"ring".as_slice() {
        Some(Verb::Ring)
    } else if word == b"count".as_slice() {
        Some(Verb::Count)
    } else {
        None
    }
}

/// Reads the command of a verb, by what stands behind its word.
fn read_told(alloc: Global, verb: Verb, rest: &[u8]) -> Result<Command, CommandFault>
    ensures told { IfOk result (IsCommandOf verb rest.now) }
    ensures bad { IsErrOf result CommandFault.Bad → IsNoCommandOf verb rest.now }
{
    Ok(match verb {
        Verb::New => Command::New(read_walker(rest)?),
        Verb::Go => {
            let (w, walk) = read_walker_and_walk(alloc, rest)?;
            Command::Go(w, walk)
        }
        Verb::At => Command::At(read_walker(rest)?),
        Verb::Same => {
            let (w, v) = read_two_walkers(rest)?;
            Command::Same(w, v)
        }
        Verb::Level => Command::Level(read_walker(rest)?),
        Verb::Dist => {
            let (w, v) = read_two_walkers(rest)?;
            Command::Dist(w, v)
        }
        Verb::Path => {
            let (w, v) = read_two_walkers(rest)?;
            Command::Path(w, v)
        }
        Verb::Put => {
            let (w, text) = read_walker_and_text(alloc, rest)?;
            Command::Put(w, text)
        }
        Verb::Get => Command::Get(read_walker(rest)?),
        Verb::Ring => Command::Ring(read_distance(rest)?),
        Verb::Count => Command::Count(read_distance(rest)?),
    })
}

/// Reads what a command is told that names one walker.
fn read_walker(bytes: &[u8]) -> Result<u8, CommandFault>
    ensures ok { IfOk result (λ w. AreToldBy bytes.now (one_walker w)) }
    ensures bad { IfErr result (λ _. TellNothing bytes.now walker_alone) }
    ensures err { IfErr result (λ fault. fault ≡ CommandFault.Bad) }
{
    walker(bytes)
}

/// Reads what a command is told that names two walkers.
fn read_two_walkers(bytes: &[u8]) -> Result<(u8, u8), CommandFault>
    ensures ok { IfOk result (λ told. AreToldBy bytes.now (two_walkers told.0 told.1)) }
    ensures bad { IfErr result (λ _. TellNothing bytes.now walkers) }
    ensures err { IfErr result (λ fault. fault ≡ CommandFault.Bad) }
{
    let (w, second) = take_walker(bytes)?;
    let v = walker(second)?;
    Ok((w, v))
}

/// Reads what a command is told that names a walker and a walk.
fn read_walker_and_walk(alloc: Global, bytes: &[u8]) -> Result<(u8, Walk), CommandFault>
    ensures ok { IfOk result (λ told. AreToldBy bytes.now (walker_and_walk told.0 told.1)) }
    ensures bad { IsErrOf result CommandFault.Bad → TellNothing bytes.now walker_with_walk }
{
    let (w, text) = take_walker(bytes)?;
    let walk = letters(alloc, text)?;
    Ok((w, walk))
}

/// The walk of a text.
fn letters(alloc: Global, text: &[u8]) -> Result<Walk, CommandFault>
    ensures ok { IfOk result (λ walk. walk_text walk ≡ text.now) }
    ensures bad { IsErrOf result CommandFault.Bad → (walk : List Letter) → walk_text walk ≢ text.now }
{
    match read_walk(alloc, text) {
        Ok(walk) => Ok(walk),
        Err(WalkFault::Text) => Err(CommandFault::Bad),
        Err(WalkFault::Memory) => Err(CommandFault::Memory),
    }
}

/// Reads what a command is told that names a walker and a text: all bytes behind the one space
/// behind the walker, perhaps none.
fn read_walker_and_text(alloc: Global, bytes: &[u8]) -> Result<(u8, Bytes), CommandFault>
    ensures ok { IfOk result (λ told. AreToldBy bytes.now (walker_and_text told.0 told.1)) }
    ensures bad { IsErrOf result CommandFault.Bad → TellNothing bytes.now walker_with_text }
{
    let (w, text) = take_walker(bytes)?;
    match Bytes::copy_of(alloc, text) {
        Ok(copy) => Ok((w, copy)),
        Err(_) => Err(CommandFault::Memory),
    }
}

/// Reads what a command is told that names a distance from the root.
fn read_distance(bytes: &[u8]) -> Result<u32, CommandFault>
    ensures ok { IfOk result (λ d. AreToldBy bytes.now (one_distance d)) }
    ensures bad { IfErr result (λ _. TellNothing bytes.now distance_alone) }
    ensures err { IfErr result (λ fault. fault ≡ CommandFault.Bad) }
{
    read_number(bytes).ok_or(CommandFault::Bad)
}

/// The number of a walker in front of the first space, and what stands behind the space.
fn take_walker(bytes: &[u8]) -> Result<(u8, &[u8]), CommandFault>
    ensures ok { IfOk result (λ taken. IsInFront bytes.now taken.0 taken.1.now) }
    ensures err { IfErr result (λ fault. fault ≡ CommandFault.Bad) }
    ensures none { IfErr result (λ _. (w : ℕ) (rest : List ℕ) → ¬ (IsInFront bytes.now w rest)) }
{
    let Some((digits, rest)) = cut_at(bytes, b' ') else {
        return Err(CommandFault::Bad);
    };
    let w = walker(digits)?;
    Ok((w, rest))
}

/// The number of a walker that a word of digits writes.
fn walker(word: &[u8]) -> Result<u8, CommandFault>
    ensures ok { IfOk result (IsWalkerNumber word.now) }
    ensures err { IfErr result (λ fault. fault ≡ CommandFault.Bad) }
    ensures none { IfErr result (λ _. (w : ℕ) → ¬ (IsWalkerNumber word.now w)) }
{
    match read_number(word) {
        Some(w) if w < u32::from(WALKERS) => Ok(w as u8),
        _ => Err(CommandFault::Bad),
    }
}
