// The reader's tables: of each kind what the lines so far have said of it.
ghost use Rattle.std.specs.Prelude.{◌≡◌, ◌<◌, ◌↔◌, ◌++◌, ◌∷◌, [], ℕ, List, length, map, IsTrue, IfOk, OnOk, MatchBool, MatchOption, All, IsSome};
ghost use Rattle.std.specs.declared.option.Option.TheVariants.{Some};
ghost use Rattle.tess_text.specs.Grammar.{IsGoodEntry};
ghost use Rattle.tess_text.specs.Tables.{Hold, IsFull, IsUnjoinedAt, IsUngivenAt, blank, put_partner, put_valence, table_at, table_of};
ghost use Rattle.tess_text.specs.declared.entry.Entry.{Entry};

use crate::entry::Entry;
use handed_kinds::HandKind;
use std::alloc::{AllocError, Global};
use std::marker::Model;

/// What has been said for each residue, if something has been for all.
fn all_said<T: Copy>(alloc: Global, said: &[Option<T>]) -> Result<Option<Vec<T>>, AllocError>
    ensures { IfOk result
        (λ all. MatchOption all (All (λ x. IsSome x) said.now → ⊥)
        (λ all. map (λ x. Some x) all.items ≡ said.now)) }
{
    let mut all = Vec::with_capacity(alloc, said.len())?;
    for x in said {
        let Some(x) = *x else {
            return Ok(None);
        };
        all.push(x)?;
    }
    Ok(Some(all))
}

/// A kind: its shape, and for each residue the partner and the valence where they have been said.
#[derive(Debug, Drop)]
struct Table {
    sides: u8,
    repeat: u8,
    partner: Vec<Option<(u8, u8, bool)>>,
    valence: Vec<Option<u8>>,
}

impl Model for Table {
    ghost use Rattle.tess_text.specs.Tables.{Table};

    ghost Value = { Table };

    ghost view = { λ t. record {
      sides = t.sides;
      repeat = t.repeat;
      partner = t.partner.items;
      valence = t.valence.items;
    } };
}

impl Table {
    /// The kind of this table, if nothing is missing.
    fn finish(&self, alloc: Global) -> Result<Option<HandKind>, AllocError>
        ensures { IfOk result
            (λ kind. MatchOption kind (IsFull self.now → ⊥) (λ kind. table_of kind ≡ self.now)) }
    {
        let Some(partner) = all_said(alloc, &self.partner)? else {
            return Ok(None);
        };
        let Some(valence) = all_said(alloc, &self.valence)? else {
            return Ok(None);
        };
        Ok(Some(HandKind {
            sides: self.sides,
            repeat: self.repeat,
            partner,
            valence,
        }))
    }
}

/// The tables of all kinds, in their order.
#[derive(Debug, Drop)]
pub struct Tables {
    kinds: Vec<Table>,
}

impl Model for Tables {
    ghost use Rattle.std.specs.Prelude.{List};
    ghost use Rattle.tess_text.specs.Tables.{Table};

    ghost Value = { List Table };

    ghost view = { λ t. t.kinds.items };
}

impl Tables {
    /// No kinds.
    pub fn new(alloc: Global) -> Tables
        ensures { result ≡ [] }
    {
        Tables {
            kinds: Vec::new(alloc),
        }
    }

    /// The number of kinds.
    fn len(&self) -> usize
        ensures { result ≡ length self.now }
    {
        self.kinds.len()
    }

    /// Whether there are no kinds.
    pub fn is_empty(&self) -> bool
        ensures { IsTrue result ↔ (length self.now ≡ 0) }
    {
        self.len() == 0
    }

    /// Adds a kind of which nothing more than its shape has been said.
    fn push(&mut self, alloc: Global, sides: u8, repeat: u8) -> Result<(), AllocError>
        ensures { OnOk result (self.new ≡ self.old ++ blank sides repeat ∷ []) }
    {
        let table = Table {
            sides,
            repeat,
            partner: vec![in alloc; None; repeat as usize]?,
            valence: vec![in alloc; None; repeat as usize]?,
        };
        self.kinds.push(table)?;
        Ok(())
    }

    /// Whether there is such a side, and its partner has not been said.
    fn is_unjoined(&self, side: (u8, u8)) -> bool
        ensures { IsTrue result ↔ IsUnjoinedAt self.now side }
    {
        match self.kinds.get(side.0 as usize) {
            Some(table) => matches!(table.partner.get(side.1 as usize), Some(None)),
            None => false,
        }
    }

    /// Whether there is such a side, and the valence of its corner has not been said.
    fn is_ungiven(&self, side: (u8, u8)) -> bool
        ensures { IsTrue result ↔ IsUngivenAt self.now side }
    {
        match self.kinds.get(side.0 as usize) {
            Some(table) => matches!(table.valence.get(side.1 as usize), Some(None)),
            None => false,
        }
    }

    fn set_partner(&mut self, side: (u8, u8), partner: (u8, u8, bool))
        requires kind { side.0 < length self.old }
        requires residue { side.1 < length (table_at self.old side.0).partner }
        ensures { self.new ≡ put_partner self.old side partner }
    {
        self.kinds[side.0 as usize].partner[side.1 as usize] = Some(partner);
    }

    fn set_valence(&mut self, side: (u8, u8), valence: u8)
        requires kind { side.0 < length self.old }
        requires residue { side.1 < length (table_at self.old side.0).valence }
        ensures { self.new ≡ put_valence self.old side valence }
    {
        self.kinds[side.0 as usize].valence[side.1 as usize] = Some(valence);
    }

    /// Joins two sides, with a mark. The answer is whether both are there and neither has been
    /// joined.
    fn join(&mut self, side: (u8, u8), other: (u8, u8), mark: bool) -> bool
        ensures good { IsTrue result ↔ (IsUnjoinedAt self.old side × IsUnjoinedAt self.old other) }
        ensures joined { IsTrue result
            → self.new ≡ put_partner (put_partner self.old side (other.0, other.1, mark))
            other (side.0, side.1, mark) }
    {
        if !self.is_unjoined(side) || !self.is_unjoined(other) {
            return false;
        }
        self.set_partner(side, (other.0, other.1, mark));
        self.set_partner(other, (side.0, side.1, mark));
        true
    }

    /// Gives a corner its valence. The answer is whether it is there and has not been given.
    fn give(&mut self, side: (u8, u8), valence: u8) -> bool
        ensures good { IsTrue result ↔ IsUngivenAt self.old side }
        ensures given { IsTrue result → self.new ≡ put_valence self.old side valence }
    {
        if !self.is_ungiven(side) {
            return false;
        }
        self.set_valence(side, valence);
        true
    }

    /// Enters what a line says. The answer is whether it is good after what the tables hold.
    pub fn enter(&mut self, alloc: Global, entry: Entry) -> Result<bool, AllocError>
        ensures { (es : List Entry) → Hold self.old es
            → IfOk result
            (λ good. MatchBool good (IsGoodEntry es entry
            × Hold self.new (es ++ entry ∷ [])) (IsGoodEntry es entry → ⊥)) }
    {
        match entry {
            Entry::Kind {
                kind,
                sides,
                repeat,
            } => {
                if kind as usize != self.len() {
                    return Ok(false);
                }
                self.push(alloc, sides, repeat)?;
                Ok(true)
            }
            Entry::Join {
                kind,
                residue,
                other,
                at,
                mirrored,
            } => Ok(self.join((kind, residue), (other, at), mirrored)),
            Entry::Corner {
                kind,
                residue,
                valence,
            } => Ok(self.give((kind, residue), valence)),
        }
    }

    /// The kinds of these tables, if nothing is missing.
    pub fn finish(&self, alloc: Global) -> Result<Option<Vec<HandKind>>, AllocError>
        ensures { IfOk result
            (λ kinds. MatchOption kinds (All IsFull self.now → ⊥)
            (λ kinds. map table_of kinds.items ≡ self.now)) }
    {
        let mut kinds = Vec::with_capacity(alloc, self.kinds.len())?;
        for table in &self.kinds {
            let Some(kind) = table.finish(alloc)? else {
                return Ok(None);
            };
            kinds.push(kind)?;
        }
        Ok(Some(kinds))
    }
}
