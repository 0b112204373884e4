// What the lines of a text say of a tessellation.
ghost use Rattle.std.specs.Prelude.{◌≡◌, ◌∷◌, [], List, ℕ, Option, map, IfSome, IfNone};
ghost use Rattle.std.specs.declared.option.Option.TheVariants.{Some};
ghost use Rattle.tess_text.specs.FileLines.{words};
ghost use Rattle.tess_text.specs.Grammar.{small_number, kind_entry, join_entry, corner_entry, entry};

use crate::scan::next_word;
use short_numbers::read_number;

/// What a line says of the tessellation.
#[derive(Clone, Copy, Debug, PartialEq, Eq)]
pub enum Entry {
    Kind {
        kind: u8,
        sides: u8,
        repeat: u8,
    },
    Join {
        kind: u8,
        residue: u8,
        other: u8,
        at: u8,
        mirrored: bool,
    },
    Corner {
        kind: u8,
        residue: u8,
        valence: u8,
    },
}

/// The number that a word is, if it is one of 0 to 255.
fn small_number(word: &[u8]) -> Option<u8>
    ensures { result ≡ small_number word.now }
{
    u8::try_from(read_number(word)?).ok()
}

/// The number that the first word of a text is, and what stands behind that word.
fn next_number(text: &[u8]) -> Option<(u8, &[u8])>
    ensures some { IfSome result
        (λ p. map small_number (words text.now) ≡ Some p.0 ∷ map small_number (words p.1.now)) }
    ensures none { IfNone result ((n : ℕ) (more : List (Option ℕ))
        → map small_number (words text.now) ≡ Some n ∷ more → ⊥) }
{
    let (word, rest) = next_word(text)?;
    Some((small_number(word)?, rest))
}

/// The numbers that the words of a text are, where it has three words and each is a number.
fn three_numbers(text: &[u8]) -> Option<(u8, u8, u8)>
    ensures some { IfSome result
        (λ p. map small_number (words text.now) ≡ Some p.0 ∷ Some p.1 ∷ Some p.2 ∷ []) }
    ensures none { IfNone result ((a b c : ℕ)
        → map small_number (words text.now) ≡ Some a ∷ Some b ∷ Some c ∷ [] → ⊥) }
{
    let (a, rest) = next_number(text)?;
    let (b, rest) = next_number(rest)?;
    let (c, rest) = next_number(rest)?;
    if next_word(rest).is_some() {
        return None;
    }
    Some((a, b, c))
}

/// The numbers that the words of a text are, where it has four words and each is a number.
fn four_numbers(text: &[u8]) -> Option<(u8, u8, u8, u8)>
    ensures some { IfSome result
        (λ p. map small_number (words text.now) ≡ Some p.0 ∷ Some p.1 ∷ Some p.2 ∷ Some p.3 ∷ []) }
    ensures none { IfNone result ((a b c d : ℕ)
        → map small_number (words text.now) ≡ Some a ∷ Some b ∷ Some c ∷ Some d ∷ [] → ⊥) }
{
    let (a, rest) = next_number(text)?;
    let (b, rest) = next_number(rest)?;
    let (c, rest) = next_number(rest)?;
    let (d, rest) = next_number(rest)?;
    if next_word(rest).is_some() {
        return None;
    }
    Some((a, b, c, d))
}

fn kind_entry(fields: &[u8]) -> Option<Entry>
    ensures { result ≡ kind_entry (map small_number (words fields.now)) }
{
    let (kind, sides, repeat) = three_numbers(fields)?;
    Some(Entry::Kind {
        kind,
        sides,
        repeat,
    })
}

fn join_entry(mirrored: bool, fields: &[u8]) -> Option<Entry>
    ensures { result ≡ join_entry mirrored (map small_number (words fields.now)) }
{
    let (kind, residue, other, at) = four_numbers(fields)?;
    Some(Entry::Join {
        kind,
        residue,
        other,
        at,
        mirrored,
    })
}

fn corner_entry(fields: &[u8]) -> Option<Entry>
    ensures { result ≡ corner_entry (map small_number (words fields.now)) }
{
    let (kind, residue, valence) = three_numbers(fields)?;
    Some(Entry::Corner {
        kind,
        residue,
        valence,
    })
}

/// What a line says of the tessellation by its first word and the fields behind it, if anything.
pub fn read_entry(word: &[u8], fields: &[u8]) -> Option<Entry>
    ensures { result ≡ entry (word.now ∷ words fields.now) }
{
    if word == b"kind".as_slice() {
        kind_entry(fields)
    } else if word == b"join".as_slice() {
        join_entry(false, fields)
    } else if word == b"mirror".as_slice() {
        join_entry(true, fields)
    } else if word == b"corner".as_slice() {
        corner_entry(fields)
    } else {
        None
    }
}
