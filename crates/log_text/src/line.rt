// The lines of a log: the change that each tells.
ghost use Rattle.std.specs.Prelude.{◌≡◌, ◌≢◌, ◌≤◌, ◌+◌, ◌∷◌, [], ◌++◌, ℕ, Bool, List, IfSome, IfNone};
ghost use Rattle.tile_model.specs.Relation.{Change as Entry};
ghost use Rattle.log_model.specs.LogTexts.{HasText, IsOneLine, change_word, change_text};

use crate::place::read_place;
use log_model::Change;
use memchr::memchr;

/// The bytes in front of the first line feed, and those behind it.
pub fn next_line(bytes: &[u8]) -> Option<(&[u8], &[u8])>
    ensures split { IfSome result (λ parts. bytes.now ≡ parts.0.now ++ 10 ∷ parts.1.now) }
    ensures line { IfSome result (λ parts. IsOneLine parts.0.now) }
    ensures none { IfNone result (IsOneLine bytes.now) }
{
    let end = memchr(b'\n', bytes)?;
    Some((&bytes[..end], &bytes[end + 1..]))
}

/// Whether a line tells of an insertion, and what stands behind its word.
fn read_word(line: &[u8]) -> Option<(bool, &[u8])>
    ensures some { IfSome result (λ parts. line.now ≡ change_word parts.0 ++ parts.1.now) }
    ensures none { IfNone result ((insert : Bool) (numbers : List ℕ)
        → line.now ≢ change_word insert ++ numbers) }
{
    if let Some(numbers) = line.strip_prefix(b"ins ") {
        return Some((true, numbers));
    }
    let numbers = line.strip_prefix(b"del ")?;
    Some((false, numbers))
}

/// The digits of the place, and the number of the loop that stands last.
fn read_loop(numbers: &[u8]) -> Option<(&[u8], u8)>
    ensures split { IfSome result (λ parts.
        numbers.now ≡ parts.0.now ++ 32 ∷ (48 + parts.1) ∷ []) }
    ensures range { IfSome result (λ parts. (1 ≤ parts.1) × (parts.1 ≤ 5)) }
    ensures none { IfNone result ((place : List ℕ) (which : ℕ) → 1 ≤ which → which ≤ 5
        → numbers.now ≢ place ++ 32 ∷ (48 + which) ∷ []) }
{
    let (digit, front) = numbers.split_last()?;
    if !matches!(*digit, b'1'..=b'5') {
        return None;
    }
    let place = front.strip_suffix(b" ")?;
    Some((place, *digit - b'0'))
}

/// The change whose text a line is.
pub fn read_change(line: &[u8]) -> Option<Change>
    ensures text { IfSome result (λ change. change_text change ≡ line.now) }
    ensures has_text { IfSome result HasText }
    ensures none { IfNone result ((change : Entry) → HasText change
        → change_text change ≢ line.now) }
{
    let (insert, numbers) = read_word(line)?;
    let (place, which) = read_loop(numbers)?;
    let at = read_place(place)?;
    Some(Change { at, which, insert })
}
