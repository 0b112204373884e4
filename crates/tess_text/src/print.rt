// Printing the canonical text of a tessellation.
ghost use Rattle.std.specs.Prelude.{◌≡◌, ◌++◌, ◌∷◌, ◌<◌, ◌≤◌, ℕ, List, length, decimal, IfOk, OnOk};
ghost use Rattle.tile_model.specs.Tessellations.{TileKind, kind_at};
ghost use Rattle.tess_text.specs.Spelling.{IsSpelling};
ghost use Rattle.tess_text.specs.Text.{tess_text, join_word, numbers_text, entry_text, entries_text, all_entries, kind_entries, partner_entries, join_entries, valence_entries, corner_entries};

use crate::entry::Entry;
use itoa::Buffer;
use std::alloc::{AllocError, Global};
use tile_kinds::{Kind, Tessellation};

fn push_number(out: &mut Vec<u8>, n: u8) -> Result<(), AllocError>
    ensures { OnOk result (out.new.items ≡ out.old.items ++ 32 ∷ decimal n) }
{
    let mut buffer = Buffer::new();
    out.push(b' ')?;
    out.extend_from_slice(buffer.format(n).as_bytes())
}

fn push_numbers(out: &mut Vec<u8>, numbers: &[u8]) -> Result<(), AllocError>
    ensures { OnOk result (out.new.items ≡ out.old.items ++ numbers_text numbers.now) }
{
    for n in numbers {
        push_number(out, *n)?;
    }
    out.push(b'\n')?;
    Ok(())
}

fn push_join_word(out: &mut Vec<u8>, mirrored: bool) -> Result<(), AllocError>
    ensures { OnOk result (out.new.items ≡ out.old.items ++ join_word mirrored) }
{
    if mirrored {
        out.extend_from_slice(b"mirror")
    } else {
        out.extend_from_slice(b"join")
    }
}

fn push_entry(out: &mut Vec<u8>, entry: Entry) -> Result<(), AllocError>
    ensures { OnOk result (out.new.items ≡ out.old.items ++ entry_text entry) }
{
    match entry {
        Entry::Kind {
            kind,
            sides,
            repeat,
        } => {
            out.extend_from_slice(b"kind")?;
            push_numbers(out, &[kind, sides, repeat])
        }
        Entry::Join {
            kind,
            residue,
            other,
            at,
            mirrored,
        } => {
            push_join_word(out, mirrored)?;
            push_numbers(out, &[kind, residue, other, at])
        }
        Entry::Corner {
            kind,
            residue,
            valence,
        } => {
            out.extend_from_slice(b"corner")?;
            push_numbers(out, &[kind, residue, valence])
        }
    }
}

fn push_kinds(out: &mut Vec<u8>, kinds: &[Kind]) -> Result<(), AllocError>
    requires { length kinds.now ≤ 256 }
    ensures { OnOk result (out.new.items
        ≡ out.old.items ++ entries_text (kind_entries 0 kinds.now)) }
{
    for k in 0..kinds.len() {
        let kind = &kinds[k];
        let entry = Entry::Kind {
            kind: k as u8,
            sides: kind.sides,
            repeat: kind.repeat,
        };
        push_entry(out, entry)?;
    }
    Ok(())
}

fn push_partners(out: &mut Vec<u8>, k: u8, partner: &[(u8, u8)]) -> Result<(), AllocError>
    requires { length partner.now ≤ 256 }
    ensures { OnOk result (out.new.items
        ≡ out.old.items ++ entries_text (partner_entries k 0 partner.now)) }
{
    for s in 0..partner.len() {
        let (other, at) = partner[s];
        let residue = s as u8;
        if other > k || (other == k && at >= residue) {
            let entry = Entry::Join {
                kind: k,
                residue,
                other,
                at,
                mirrored: false,
            };
            push_entry(out, entry)?;
        }
    }
    Ok(())
}

fn push_joins(out: &mut Vec<u8>, kinds: &[Kind]) -> Result<(), AllocError>
    requires few { length kinds.now ≤ 256 }
    requires lists { (k : ℕ) → k < length kinds.now → length (kind_at kinds.now k).partner ≤ 256 }
    ensures { OnOk result (out.new.items
        ≡ out.old.items ++ entries_text (join_entries 0 kinds.now)) }
{
    for k in 0..kinds.len() {
        let kind = &kinds[k];
        push_partners(out, k as u8, &kind.partner)?;
    }
    Ok(())
}

fn push_valences(out: &mut Vec<u8>, k: u8, valence: &[u8]) -> Result<(), AllocError>
    requires { length valence.now ≤ 256 }
    ensures { OnOk result (out.new.items
        ≡ out.old.items ++ entries_text (valence_entries k 0 valence.now)) }
{
    for s in 0..valence.len() {
        let entry = Entry::Corner {
            kind: k,
            residue: s as u8,
            valence: valence[s],
        };
        push_entry(out, entry)?;
    }
    Ok(())
}

fn push_corners(out: &mut Vec<u8>, kinds: &[Kind]) -> Result<(), AllocError>
    requires few { length kinds.now ≤ 256 }
    requires lists { (k : ℕ) → k < length kinds.now → length (kind_at kinds.now k).valence ≤ 256 }
    ensures { OnOk result (out.new.items
        ≡ out.old.items ++ entries_text (corner_entries 0 kinds.now)) }
{
    for k in 0..kinds.len() {
        let kind = &kinds[k];
        push_valences(out, k as u8, &kind.valence)?;
    }
    Ok(())
}

fn push_all(out: &mut Vec<u8>, kinds: &[Kind]) -> Result<(), AllocError>
    requires few { length kinds.now ≤ 256 }
    requires partners { (k : ℕ) → k < length kinds.now
        → length (kind_at kinds.now k).partner ≤ 256 }
    requires valences { (k : ℕ) → k < length kinds.now
        → length (kind_at kinds.now k).valence ≤ 256 }
    ensures { OnOk result (out.new.items ≡ out.old.items ++ entries_text (all_entries kinds.now)) }
{
    push_kinds(out, kinds)?;
    push_joins(out, kinds)?;
    push_corners(out, kinds)
}

/// The canonical text of a tessellation: `tess 1`, its kinds, its joins and its corners, a line
/// each. `read_tess` gives the tessellation back, since the text spells it and no other.
pub fn print_tess(alloc: Global, t: &Tessellation) -> Result<Vec<u8>, AllocError>
    ensures text { IfOk result (λ out. out.items ≡ tess_text t.now) }
    ensures spelling { IfOk result (λ out. IsSpelling out.items t.now) }
    ensures of_no_other { IfOk result
        (λ out. (kinds : List TileKind) → IsSpelling out.items kinds → kinds ≡ t.now) }
{
    let mut out = Vec::from_slice(alloc, b"tess 1\n")?;
    push_all(&mut out, t.all_kinds())?;
    Ok(out)
}
