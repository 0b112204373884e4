//! `LazyMap`: the texts on tiles, by the names of the tiles.
ghost use Rattle.std.specs.Prelude.{◌≡◌, ◌≢◌, ℕ, ◌+◌, ◌<◌, ◌↔◌, List, [], length, is_some, if◌then◌else◌, None, Some, IfOk, OnOk, OnErr, IsErrOf};
ghost use Rattle.std.specs.Option.{option_copied};
ghost use Rattle.lazy_map.specs.Texts.{longest_text, most_texts, text_under, HasNoDoubles};

use crate::text::Text;
use cell_names::Name;
use indexmap::IndexMap;
use std::alloc::{AllocError, Global};
use std::marker::Model;
use thiserror::Error;

/// The most bytes of a text.
pub const LONGEST_TEXT: usize = 64;

/// Why a text is not put on a tile.
#[derive(Clone, Copy, Debug, PartialEq, Eq, Error)]
pub enum PutFault {
    /// The text has more than 64 bytes.
    #[error("a text of more than 64 bytes")]
    Long,
    /// There is no memory.
    #[error("out of memory")]
    Memory,
}

impl From<AllocError> for PutFault {
    ghost use Rattle.std.specs.Prelude.{◌≡◌};
    ghost use Rattle.lazy_map.specs.declared.map.PutFault.TheVariants.{Memory};

    ghost from_gives = { λ _ fault. fault ≡ Memory };

    fn from(_: AllocError) -> PutFault {
        PutFault::Memory
    }
}

/// Texts of at most 64 bytes, each under the name of a tile. A name has one text or none, and at
/// most 4,294,967,295 names have one.
#[derive(Drop)]
pub struct LazyMap {
    texts: IndexMap<Name, Text>,
}

impl Model for LazyMap {
    ghost use Rattle.std.specs.Prelude.{◌≤◌, length};
    ghost use Rattle.lazy_map.specs.Texts.{Texts, most_texts};

    ghost Value = { Texts };

    ghost view = { λ map. map.texts.entries };

    ghost invariant = { λ map. length map.texts.entries ≤ most_texts };
}

impl LazyMap {
    /// A map in which no name has a text.
    ///
    /// # Errors
    ///
    /// `AllocError` where there is no memory. The map takes none before its first text.
    pub fn new(alloc: Global) -> Result<LazyMap, AllocError>
        ensures empty { IfOk result (λ map. map ≡ []) }
        ensures no_text { IfOk result (λ map. (name : List ℕ) → text_under map name ≡ None) }
    {
        Ok(LazyMap {
            texts: IndexMap::new(alloc),
        })
    }

    /// Puts a text of at most 64 bytes under the name, in place of what the name had. All other
    /// names keep what they have. After an error all names do. Fewer than 4,294,967,295 names may
    /// have a text before the call.
    ///
    /// # Errors
    ///
    /// - `Long` where the text has over 64 bytes, and only there, also where memory is short.
    /// - `Memory` where there is no memory.
    pub fn put(&mut self, name: &Name, text: &[u8]) -> Result<(), PutFault>
        requires { length self.old < most_texts }
        ensures written { OnOk result (text_under self.new name.now ≡ Some text.now) }
        ensures others { OnOk result ((other : List ℕ) → other ≢ name.now
            → text_under self.new other ≡ text_under self.old other) }
        ensures count { OnOk result (length self.new
            ≡ length self.old + (if is_some (text_under self.old name.now) then 0 else 1)) }
        ensures long { IsErrOf result PutFault.Long ↔ (longest_text < length text.now) }
        ensures unchanged { OnErr result (self.new ≡ self.old) }
    {
        if text.len() > LONGEST_TEXT {
            return Err(PutFault::Long);
        }
        self.store(name, text)?;
        Ok(())
    }

    /// Puts a text under the name. The name is hashed once, and copied also where it has a text:
    /// the map takes names by value alone.
    fn store(&mut self, name: &Name, text: &[u8]) -> Result<(), AllocError>
        requires { length self.old < most_texts }
        ensures written { OnOk result (text_under self.new name.now ≡ Some text.now) }
        ensures others { OnOk result ((other : List ℕ) → other ≢ name.now
            → text_under self.new other ≡ text_under self.old other) }
        ensures count { OnOk result (length self.new
            ≡ length self.old + (if is_some (text_under self.old name.now) then 0 else 1)) }
        ensures unchanged { OnErr result (self.new ≡ self.old) }
    {
        let alloc = *self.texts.allocator();
        let text = Text::copy_of(alloc, text)?;
        self.texts.insert(name.copy(alloc)?, text)?;
        Ok(())
    }

    /// The text under the name, or None where nothing was put there. Takes no memory.
    pub fn get(&self, name: &Name) -> Option<&[u8]>
        ensures { option_copied result ≡ text_under self.now name.now }
    {
        let text = self.texts.get(name)?;
        Some(text.as_slice())
    }

    /// How many names have a text. Takes no memory.
    pub fn len(&self) -> u32
        ensures count { result ≡ length self.now }
        ensures no_doubles { HasNoDoubles self.now }
    {
        self.texts.len() as u32
    }
}
