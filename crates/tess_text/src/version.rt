// The two versions of the text.
ghost use Rattle.std.specs.Prelude.{◌≡◌, ◌∷◌, IsTrue, ◌↔◌, MatchOption};
ghost use Rattle.tess_text.specs.FileLines.{words};
ghost use Rattle.tess_text.specs.Grammar.{head, IsAllowed};
ghost use Rattle.tess_text.specs.declared.version.Version.{Version};

use crate::entry::Entry;
use crate::scan::next_word;

/// The version of a text. Joins may be mirrored in version 2 alone.
#[derive(Clone, Copy, Debug, PartialEq, Eq)]
pub enum Version {
    One,
    Two,
}

/// The version of which a word and the words behind it are the head, if they are a head.
pub fn read_head(word: &[u8], fields: &[u8]) -> Option<Version>
    ensures { MatchOption result
        ((v : Version) → word.now ∷ words fields.now ≡ head v → ⊥)
        (λ v. word.now ∷ words fields.now ≡ head v) }
{
    let (number, rest) = next_word(fields)?;
    if word != b"tess".as_slice() || next_word(rest).is_some() {
        None
    } else if number == b"1".as_slice() {
        Some(Version::One)
    } else if number == b"2".as_slice() {
        Some(Version::Two)
    } else {
        None
    }
}

/// Whether a text of a version may say an entry.
pub fn allows(version: Version, entry: Entry) -> bool
    ensures { IsTrue result ↔ IsAllowed version entry }
{
    match (version, entry) {
        (Version::One, Entry::Join { mirrored, .. }) => !mirrored,
        (Version::Two, Entry::Kind { kind, .. }) => kind <= 127,
        _ => true,
    }
}
