// The texts of walks, read and printed.
ghost use Rattle.std.specs.Prelude.{◌≡◌, ◌≢◌, List, IfOk, IfSome, IfNone, IsErrOf, MatchResult};
ghost use Rattle.tile_model.specs.declared.Letter.{Letter};
ghost use Rattle.tile_model.specs.WalkTexts.{letter_code, walk_text};

use crate::walk::Walk;
use std::alloc::{AllocError, Global};
use thiserror::Error;
use tile_model::Letter;

/// Why no walk was read.
#[derive(Clone, Copy, Debug, PartialEq, Eq, Error)]
pub enum WalkFault {
    /// The bytes are neither `-` nor one or more of the capital letters L, R, X.
    #[error("the text is neither `-` nor one or more of the letters L, R, X")]
    Text,
    /// There is no memory for the walk.
    #[error("out of memory")]
    Memory,
}

impl From<AllocError> for WalkFault {
    ghost use Rattle.std.specs.Prelude.{◌≡◌};
    ghost use Rattle.walk_words.specs.declared.text.WalkFault.TheVariants.{Memory};

    ghost from_gives = { λ _ fault. fault ≡ Memory };

    fn from(_: AllocError) -> Self {
        WalkFault::Memory
    }
}

/// The letter that a byte stands for.
fn letter_of(byte: u8) -> Option<Letter>
    ensures some { IfSome result (λ x. letter_code x ≡ byte) }
    ensures none { IfNone result ((x : Letter) → letter_code x ≢ byte) }
{
    match byte {
        b'L' => Some(Letter::L),
        b'R' => Some(Letter::R),
        b'X' => Some(Letter::X),
        _ => None,
    }
}

/// The byte of a letter.
fn byte_of(x: Letter) -> u8
    ensures { result ≡ letter_code x }
{
    match x {
        Letter::L => b'L',
        Letter::R => b'R',
        Letter::X => b'X',
    }
}

/// Reads the text of a walk: `-` for the empty walk, else its letters L, R, X. Other bytes, no
/// bytes at all among them, are answered by `WalkFault::Text`.
pub fn read_walk(alloc: Global, bytes: &[u8]) -> Result<Walk, WalkFault>
    ensures spelled { IfOk result (λ walk. walk_text walk ≡ bytes.now) }
    ensures complete { (walk : List Letter) → walk_text walk ≡ bytes.now
        → MatchResult result (λ w. w ≡ walk) (λ fault. fault ≡ WalkFault.Memory) }
    ensures text { IsErrOf result WalkFault.Text → (walk : List Letter)
        → walk_text walk ≢ bytes.now }
{
    if bytes == b"-".as_slice() {
        return Ok(Walk::new(alloc));
    }
    if bytes.is_empty() {
        return Err(WalkFault::Text);
    }
    let mut walk = Walk::with_capacity(alloc, bytes.len())?;
    for byte in bytes {
        let Some(x) = letter_of(*byte) else {
            return Err(WalkFault::Text);
        };
        walk.push(x)?;
    }
    Ok(walk)
}

/// Prints the text of a walk, which is that of no other walk.
pub fn print_walk(alloc: Global, w: &Walk) -> Result<Vec<u8>, AllocError>
    ensures value { IfOk result (λ text. text.items ≡ walk_text w.now) }
    ensures no_other { IfOk result
        (λ text. (walk : List Letter) → walk_text walk ≡ text.items → walk ≡ w.now) }
{
    if w.is_empty() {
        return Vec::from_slice(alloc, b"-");
    }
    let mut text = Vec::with_capacity(alloc, w.len())?;
    for x in w.letters() {
        text.push(byte_of(*x))?;
    }
    Ok(text)
}
