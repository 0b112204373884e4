//! The text of a name: `-` for the root, else its sides joined by `.`.
ghost use Rattle.std.specs.Prelude.{◌≡◌, ◌≢◌, ℕ, ◌+◌, ◌<◌, ◌≤◌, List, ◌∷◌, ◌++◌, length, codes, decimal, Err, IfSome, IfNone, IfOk, OnOk, OnErr, IsSomeAnd, IsErrOf, MatchResult, ◌⊎◌, vec_len, vec_capacity};
ghost use Rattle.tree_model.specs.Limits.{deepest};
ghost use Rattle.cell_names.specs.Text.{name_text, IsSpelling, SpellsNoOther, NoDigit};

use crate::Name;
use std::alloc::{AllocError, Global};
use thiserror::Error;
use tree_model::DEEPEST;

/// Why bytes are not read as a name.
#[derive(Clone, Copy, Debug, PartialEq, Eq, Error)]
pub enum NameFault {
    /// The bytes spell no name.
    #[error("no name")]
    Text,
    /// The bytes spell a name of more than 4,000 sides.
    #[error("a name of more than 4000 sides")]
    Deep,
    /// There is no memory.
    #[error("out of memory")]
    Memory,
}

impl From<AllocError> for NameFault {
    ghost use Rattle.std.specs.Prelude.{◌≡◌};
    ghost use Rattle.cell_names.specs.declared.text.NameFault.TheVariants.{Memory};

    ghost from_gives = { λ _ fault. fault ≡ Memory };

    fn from(_: AllocError) -> NameFault {
        NameFault::Memory
    }
}

/// The text of a name of any length: `-` for the root, else its sides joined by `.`. It spells this
/// name and no other.
pub fn print_name(alloc: Global, name: &Name) -> Result<Vec<u8>, AllocError>
    ensures text { IfOk result (λ text. text.items ≡ name_text name.now) }
    ensures spelling { IfOk result (λ text. IsSpelling text.items name.now) }
    ensures of_no_other { IfOk result (λ text. SpellsNoOther text.items name.now) }
{
    let mut text = Vec::new(alloc);
    write_name(&mut text, name)?;
    Ok(text)
}

/// Appends the text of a name of any length, which spells this name and no other. Out of memory the
/// bytes are as they were.
#[tactic(auto, using(crate::proofs::Reading::spells_no_other))]
pub fn write_name(out: &mut Vec<u8>, name: &Name) -> Result<(), AllocError>
    ensures written { OnOk result (out.new.items ≡ out.old.items ++ name_text name.now) }
    ensures spelling { IsSpelling (name_text name.now) name.now }
    ensures of_no_other { SpellsNoOther (name_text name.now) name.now }
    ensures unchanged { OnErr result (out.new.items ≡ out.old.items) }
{
    let Some((first, others)) = name.sides().split_first() else {
        return out.extend_from_slice(b"-");
    };
    // Two digits and a dot a side. All the room is taken here, so that no byte below has to ask for
    // more.
    let Some(room) = name.len().checked_mul(3) else {
        return Err(AllocError);
    };
    out.reserve(room)?;
    put_side(out, *first);
    for side in others {
        out.push_reserved(b'.');
        put_side(out, *side);
    }
    Ok(())
}

/// Appends the digits of a side where there is room for two.
#[inline(always)]
fn put_side(out: &mut Vec<u8>, side: u8)
    requires below { side < 64 }
    requires room { vec_len out.old + 2 ≤ vec_capacity out.old }
    ensures written { out.new.items ≡ out.old.items ++ decimal side }
    ensures len { vec_len out.new ≤ vec_len out.old + 2 }
    ensures capacity { vec_capacity out.new ≡ vec_capacity out.old }
{
    if side < 10 {
        out.push_reserved(b'0' + side);
        return;
    }
    out.push_reserved(b'0' + side / 10);
    out.push_reserved(b'0' + side % 10);
}

/// Reads the text of a name of at most 4,000 sides, each from 0 to 63 in digits without leading
/// zeros.
///
/// The text of a longer name is `Deep`. What is the text of no name is `Text`, however long it is.
pub fn read_name(alloc: Global, bytes: &[u8]) -> Result<Name, NameFault>
    // What is read has this text, and what has this text is read.
    ensures spelt { IfOk result (λ name. IsSpelling bytes.now name) }
    ensures short { IfOk result (λ name. length name ≤ deepest) }
    ensures complete { (name : List ℕ) → IsSpelling bytes.now name → length name ≤ deepest
        → MatchResult result (λ read. read ≡ name) (λ fault. fault ≡ NameFault.Memory) }

    // Text and Deep come for these reasons alone, and come then unless memory runs out.
    ensures text { IsErrOf result NameFault.Text → (name : List ℕ) → ¬ (IsSpelling bytes.now name) }
    ensures unspelt { ((name : List ℕ) → ¬ (IsSpelling bytes.now name))
        → IsErrOf result NameFault.Text ⊎ IsErrOf result NameFault.Memory }
    ensures deep { IsErrOf result NameFault.Deep
        → (name : List ℕ) × IsSpelling bytes.now name × (deepest < length name) }
    ensures long { (name : List ℕ) → IsSpelling bytes.now name → deepest < length name
        → IsErrOf result NameFault.Deep ⊎ IsErrOf result NameFault.Memory }

    // No bytes spell two names.
    ensures unique { (name other : List ℕ) → IsSpelling bytes.now name → IsSpelling bytes.now other
        → name ≡ other }
{
    if bytes == b"-".as_slice() {
        return Ok(Name::root(alloc));
    }
    let name = read_sides(alloc, bytes)?;
    if name.len() > DEEPEST as usize {
        return Err(NameFault::Deep);
    }
    Ok(name)
}

/// Reads the text of a name that is not the root's, of any length.
fn read_sides(alloc: Global, bytes: &[u8]) -> Result<Name, NameFault>
    requires { bytes.now ≢ codes "-" }
    ensures spelt { IfOk result (λ name. IsSpelling bytes.now name) }
    ensures complete { (name : List ℕ) → IsSpelling bytes.now name
        → MatchResult result (λ read. read ≡ name) (λ fault. fault ≡ NameFault.Memory) }
    ensures not_deep { result ≢ Err NameFault.Deep }
{
    let Some((first, mut rest)) = take_side(bytes) else {
        return Err(NameFault::Text);
    };
    let mut name = Name::root(alloc);
    name.push(first)?;
    while let Some((separator, behind)) = rest.split_first() {
        if *separator != b'.' {
            return Err(NameFault::Text);
        }
        let Some((side, tail)) = take_side(behind) else {
            return Err(NameFault::Text);
        };
        name.push(side)?;
        rest = tail;
    }
    Ok(name)
}

/// The side that the bytes begin with, and what stands behind it.
fn take_side(bytes: &[u8]) -> Option<(u8, &[u8])>
    ensures below { IfSome result (λ taken. taken.0 < 64) }
    ensures split { IfSome result (λ taken. bytes.now ≡ decimal taken.0 ++ taken.1.now) }
    ensures shorter { IfSome result (λ taken. length taken.1.now < length bytes.now) }
    ensures complete { (side : ℕ) (tail : List ℕ) → side < 64 → bytes.now ≡ decimal side ++ tail
        → NoDigit tail
        → IsSomeAnd result (λ taken. (taken.0 ≡ side) × (taken.1.now ≡ tail)) }
{
    let (tens, behind_tens) = take_digit(bytes)?;
    if tens == 0 {
        return Some((0, behind_tens));
    }
    let Some((units, behind_units)) = take_digit(behind_tens) else {
        return Some((tens, behind_tens));
    };
    let side = 10 * tens + units;
    if side >= 64 {
        return None;
    }
    Some((side, behind_units))
}

/// The digit that the bytes begin with, and what stands behind it.
fn take_digit(bytes: &[u8]) -> Option<(u8, &[u8])>
    ensures below { IfSome result (λ taken. taken.0 < 10) }
    ensures split { IfSome result (λ taken. bytes.now ≡ (48 + taken.0) ∷ taken.1.now) }
    ensures none { IfNone result (NoDigit bytes.now) }
{
    let (first, rest) = bytes.split_first()?;
    if !first.is_ascii_digit() {
        return None;
    }
    Some((*first - b'0', rest))
}
