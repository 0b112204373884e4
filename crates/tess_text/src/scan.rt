// Cutting a text into lines, and a line into words.
ghost use Rattle.std.specs.Prelude.{◌≡◌, ◌+◌, ◌<◌, ◌==◌, ◌∷◌, [], List, ℕ, length, drop, IfSome, MatchOption};
ghost use Rattle.std.specs.List.{position_or_len, before_first, after_first};
ghost use Rattle.tess_text.specs.FileLines.{lines, content, is_separator, words};

use memchr::{memchr, memchr3};

/// The place of the first such byte, or the number of bytes where there is none.
#[tactic(auto, using(crate::proofs::Places::first_place))]
fn place_of(bytes: &[u8], byte: u8) -> usize
    ensures { result ≡ position_or_len (λ b. b == byte) bytes.now }
{
    memchr(byte, bytes).unwrap_or(bytes.len())
}

/// The place of the first separator, or the number of bytes where there is none.
#[tactic(auto, using(crate::proofs::Places::first_place))]
fn word_end(bytes: &[u8]) -> usize
    ensures { result ≡ position_or_len is_separator bytes.now }
{
    memchr3(b' ', b'\t', b'\r', bytes).unwrap_or(bytes.len())
}

/// What stands behind the byte at this place.
fn behind(bytes: &[u8], place: usize) -> &[u8]
    ensures { result.now ≡ drop (place + 1) bytes.now }
{
    if place < bytes.len() {
        &bytes[place + 1..]
    } else {
        &[]
    }
}

/// The first line, and what stands behind its line feed.
pub fn next_line(bytes: &[u8]) -> Option<(&[u8], &[u8])>
    ensures lines { MatchOption result (lines bytes.now ≡ [])
        (λ p. lines bytes.now ≡ p.0.now ∷ lines p.1.now) }
    ensures shorter { IfSome result (λ p. length p.1.now < length bytes.now) }
{
    if bytes.is_empty() {
        return None;
    }
    let end = place_of(bytes, b'\n');
    Some((&bytes[..end], behind(bytes, end)))
}

/// What stands of a line before its comment.
pub fn content(line: &[u8]) -> &[u8]
    ensures { result.now ≡ content line.now }
{
    &line[..place_of(line, b'#')]
}

/// The first word of a text, and what stands behind it.
pub fn next_word(text: &[u8]) -> Option<(&[u8], &[u8])>
    ensures { MatchOption result (words text.now ≡ [])
        (λ p. words text.now ≡ p.0.now ∷ words p.1.now) }
{
    let mut rest = text;
    while !rest.is_empty() {
        let end = word_end(rest);
        let after = behind(rest, end);
        if end > 0 {
            return Some((&rest[..end], after));
        }
        rest = after;
    }
    None
}
