//! Options: words in pairs, a name and its value.
ghost use Rattle.std.specs.Prelude.{◌≡◌, ℕ, map, false, IfSome, IfNone, IsTrue};
ghost use Rattle.std.specs.String.{string_bytes};
ghost use Rattle.call_words.specs.Options.{value_of, IsNew, AreOptions};
ghost use Rattle.call_words.specs.Tasks.{AreCellsOf, IsOriginOf, RulesFrom};
ghost use Rattle.call_words.specs.Forms.{name_of, rules_from};

use short_numbers::read_number;

/// The most cells that a teacher may be allowed.
pub const MOST_CELLS: u32 = 1_000_000;

/// The cells that a teacher may make where the words name no number.
pub const DEFAULT_CELLS: u32 = 50_000;

/// The value of an option.
#[derive(Clone, Copy, Debug, PartialEq, Eq)]
pub enum Named<'a> {
    /// The option is there, with this value.
    Value(&'a str),
    /// It is not there.
    Nothing,
}

/// Where the rules of a session come from.
#[derive(Clone, Copy, Debug)]
pub enum Origin<'a> {
    /// From the file of this name.
    File(&'a str),
    /// From a teacher, that may make so many cells, 1 to 1,000,000.
    Teacher(u32),
}

/// The value of the first option of this name.
pub(crate) fn value_in<'a>(words: &'a [String], name: &str) -> Named<'a>
    ensures { name_of result ≡ value_of name.now (map string_bytes words.now) }
{
    let mut rest = words;
    while let [option, value, others @ ..] = rest {
        if option.as_str() == name {
            return Named::Value(value.as_str());
        }
        rest = others;
    }
    Named::Nothing
}

/// Whether a name is one of two, and no option of this name stands among the words.
fn is_new(name: &str, one: &str, other: &str, words: &[String]) -> bool
    ensures yes { IsTrue result → IsNew one.now other.now name.now (map string_bytes words.now) }
    ensures no { result ≡ false
        → IsNew one.now other.now name.now (map string_bytes words.now) → ⊥ }
{
    if name != one && name != other {
        return false;
    }
    match value_in(words, name) {
        Named::Nothing => true,
        Named::Value(_) => false,
    }
}

/// Whether the words are options of two names, each at most once.
pub(crate) fn are_options(words: &[String], one: &str, other: &str) -> bool
    ensures yes { IsTrue result → AreOptions one.now other.now (map string_bytes words.now) }
    ensures no { result ≡ false → AreOptions one.now other.now (map string_bytes words.now) → ⊥ }
{
    let mut rest = words;
    while let [option, _, others @ ..] = rest {
        if !is_new(option.as_str(), one, other, others) {
            return false;
        }
        rest = others;
    }
    rest.is_empty()
}

/// The cells that the value of `--cells` says: from 1 to 1,000,000, or 50,000 where there is none.
pub(crate) fn read_cells(value: Named) -> Option<u32>
    ensures some { IfSome result (λ cells. AreCellsOf (name_of value.entry) cells) }
    ensures none { IfNone result ((cells : ℕ) → AreCellsOf (name_of value.entry) cells → ⊥) }
{
    let Named::Value(digits) = value else {
        return Some(DEFAULT_CELLS);
    };
    let cells = read_number(digits.as_bytes())?;
    if cells < 1 || cells > MOST_CELLS {
        return None;
    }
    Some(cells)
}

/// Where the values of `--rules` and `--cells` say that the rules come from.
pub(crate) fn read_origin<'a>(rules: Named<'a>, cells: Named<'a>) -> Option<Origin<'a>>
    ensures some { IfSome result
        (λ origin. IsOriginOf (name_of rules.entry) (name_of cells.entry) (rules_from origin)) }
    ensures none { IfNone result ((origin : RulesFrom)
        → IsOriginOf (name_of rules.entry) (name_of cells.entry) origin → ⊥) }
{
    match (rules, cells) {
        (Named::Value(file), Named::Nothing) => Some(Origin::File(file)),
        (Named::Value(_), Named::Value(_)) => None,
        (Named::Nothing, cells) => Some(Origin::Teacher(read_cells(cells)?)),
    }
}
