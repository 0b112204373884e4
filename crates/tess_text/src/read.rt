// Reading the text of a tessellation, line by line.
ghost use Rattle.std.specs.Prelude.{◌≡◌, ◌≢◌, ◌<◌, ◌-◌, ◌^◌, ◌↔◌, ◌++◌, ◌∷◌, [], ℕ, List, length, map, IfOk, IfErr, MatchBool, MatchOption, MatchResult, ◌⊎◌};
ghost use Rattle.tile_model.specs.Tessellations.{TileKind};
ghost use Rattle.tile_model.specs.Validity.{IsValid};
ghost use Rattle.tile_model.specs.declared.fault.KindFault.{KindFault};
ghost use Rattle.tess_text.specs.FileLines.{content, words};
ghost use Rattle.tess_text.specs.Grammar.{entries, version_of, IsAllowed, IsGoodEntry, IsGoodLine, IsGoodEnd, IsFirstBadLine};
ghost use Rattle.tess_text.specs.declared.entry.Entry.{Entry};
ghost use Rattle.tess_text.specs.Spelling.{Spells, Says, IsSpelling, IsRefused, IsFaultOf, IsFaultFor, kinds_of, plain};
ghost use Rattle.tess_text.specs.Tables.{Hold, IsRead};

use crate::entry::{Entry, read_entry};
use crate::fault::TessFault;
use crate::laws::outcome_law;
use crate::scan::{content, next_line, next_word};
use crate::tables::Tables;
use crate::version::{Version, allows, read_head};
use handed_kinds::{HandKind, Handed};
use std::alloc::{AllocError, Global};
use tile_kinds::{Kind, Tessellation};

/// What the lines so far have said: the version, where one of them had words, and the tables of the
/// kinds.
#[derive(Debug, Drop)]
struct Reader {
    version: Option<Version>,
    tables: Tables,
}

impl Reader {
    /// Reads one line more. The answer is whether it is good after those before it.
    fn read_line(&mut self, alloc: Global, line: &[u8]) -> Result<bool, AllocError>
        ensures { (before : List (List (List ℕ))) → IsRead self.old.version self.old.tables before
            → IfOk result (λ good. MatchBool good
            (IsGoodLine before (words (content line.now))
            × IsRead self.new.version self.new.tables
            (before ++ words (content line.now) ∷ []))
            (¬ (IsGoodLine before (words (content line.now))))) }
    {
        let Some((word, fields)) = next_word(content(line)) else {
            return Ok(true);
        };
        let Some(version) = self.version else {
            self.version = read_head(word, fields);
            return Ok(self.version.is_some());
        };
        match read_entry(word, fields) {
            Some(entry) => self.enter(alloc, version, entry),
            None => Ok(false),
        }
    }

    /// Enters what a line says. The answer is whether the version allows it and it is good after
    /// what the tables hold.
    fn enter(&mut self, alloc: Global, version: Version, entry: Entry) -> Result<bool, AllocError>
        ensures kept { self.new.version ≡ self.old.version }
        ensures entered { (es : List Entry) → Hold self.old.tables es
            → IfOk result (λ good. MatchBool good
            (IsGoodEntry es entry × IsAllowed version entry
            × Hold self.new.tables (es ++ entry ∷ []))
            (IsGoodEntry es entry × IsAllowed version entry → ⊥)) }
    {
        if !allows(version, entry) {
            return Ok(false);
        }
        self.tables.enter(alloc, entry)
    }

    /// The version and the kinds, if the end of the text is good after these lines.
    fn finish(&self, alloc: Global) -> Result<Option<(Version, Vec<HandKind>)>, AllocError>
        ensures { (lines : List (List (List ℕ))) → IsRead self.now.version self.now.tables lines
            → IfOk result (λ said. MatchOption said
            (¬ (IsGoodEnd lines))
            (λ p. IsGoodEnd lines × (p.0 ≡ version_of lines) × Spells (entries lines) p.1.items)) }
    {
        let Some(version) = self.version else {
            return Ok(None);
        };
        if self.tables.is_empty() {
            return Ok(None);
        }
        match self.tables.finish(alloc)? {
            Some(kinds) => Ok(Some((version, kinds))),
            None => Ok(None),
        }
    }
}

/// What a text says of its kinds, if no line is bad, and its version.
fn read_kinds(alloc: Global, bytes: &[u8]) -> Result<(Version, Vec<HandKind>), TessFault>
    requires { length bytes.now < 2 ^ 32 - 1 }
    ensures { MatchResult result (λ p. Says bytes.now p.0 p.1.items) (IsFaultOf bytes.now) }
{
    let mut reader = Reader {
        version: None,
        tables: Tables::new(alloc),
    };
    let mut rest = bytes;
    let mut count = 0u32;
    while let Some((line, after)) = next_line(rest) {
        if !reader.read_line(alloc, line)? {
            return Err(TessFault::Line(count + 1));
        }
        count += 1;
        rest = after;
    }
    match reader.finish(alloc)? {
        Some(said) => Ok(said),
        None => Err(TessFault::Line(count + 1)),
    }
}

/// A kind without the marks of its joins, in memory of its own.
fn plain_kind(alloc: Global, kind: &HandKind) -> Result<Kind, AllocError>
    ensures { IfOk result (λ k. k ≡ plain kind.now) }
{
    let mut partner = Vec::with_capacity(alloc, kind.partner.len())?;
    for side in &kind.partner {
        partner.push((side.0, side.1))?;
    }
    Ok(Kind {
        sides: kind.sides,
        repeat: kind.repeat,
        partner,
        valence: Vec::from_slice(alloc, &kind.valence)?,
    })
}

/// The kinds without the marks of their joins, in memory of their own.
fn plain_kinds(alloc: Global, kinds: &[HandKind]) -> Result<Vec<Kind>, AllocError>
    ensures { IfOk result (λ all. all.items ≡ map plain kinds.now) }
{
    let mut all = Vec::with_capacity(alloc, kinds.len())?;
    for kind in kinds {
        all.push(plain_kind(alloc, kind)?)?;
    }
    Ok(all)
}

/// The tessellation of the kinds that a text of version 1 says.
fn plain_tess(alloc: Global, kinds: &[HandKind]) -> Result<Tessellation, TessFault>
    ensures made { IfOk result (λ t. t ≡ kinds_of Version.One kinds.now) }
    ensures valid { IfOk result IsValid }
    ensures cause { IfErr result (IsFaultFor Version.One kinds.now) }
{
    match Tessellation::make(plain_kinds(alloc, kinds)?) {
        Ok(t) => Ok(t),
        Err((_, fault)) => Err(TessFault::Kinds(fault)),
    }
}

/// The tessellation of the kinds that a text of version 2 says: their expansion.
fn handed_tess(alloc: Global, kinds: Vec<HandKind>) -> Result<Tessellation, TessFault>
    ensures made { IfOk result (λ t. t ≡ kinds_of Version.Two kinds.items) }
    ensures valid { IfOk result IsValid }
    ensures cause { IfErr result (IsFaultFor Version.Two kinds.items) }
{
    match Handed::make(kinds) {
        Ok(handed) => Ok(handed.expand(alloc)?),
        Err((_, fault)) => Err(TessFault::Kinds(fault)),
    }
}

/// The tessellation of the kinds that a text says.
fn tess_of(alloc: Global, version: Version, kinds: Vec<HandKind>) -> Result<Tessellation, TessFault>
    ensures made { IfOk result (λ t. t ≡ kinds_of version kinds.items) }
    ensures valid { IfOk result IsValid }
    ensures cause { IfErr result (IsFaultFor version kinds.items) }
{
    match version {
        Version::One => plain_tess(alloc, &kinds),
        Version::Two => handed_tess(alloc, kinds),
    }
}

/// Reads the text of a tessellation, of fewer than 2^32 - 1 bytes and of either version; the
/// tessellation of a text of version 2 is the expansion of what it says. `TessFault::Line` is the
/// first bad line, counted from 1, where the end of the text counts as a line. `TessFault::Kinds`
/// comes where no line is bad and the kinds are no tessellation, with the fault that
/// `Tessellation::make` gives, or `Handed::make` in version 2, at a kind and a residue of the text.
pub fn read_tess(alloc: Global, bytes: &[u8]) -> Result<Tessellation, TessFault>
    requires { length bytes.now < 2 ^ 32 - 1 }
    ensures spelling { IfOk result (λ t. IsSpelling bytes.now t) }
    ensures valid { IfOk result IsValid }
    ensures cause { IfErr result (IsFaultOf bytes.now) }

    // And each answer comes wherever its cause is there, unless memory runs out.
    ensures every_spelling { (kinds : List TileKind) → IsSpelling bytes.now kinds → IsValid kinds
        → MatchResult result (λ t. t ≡ kinds) (λ e. e ≡ TessFault.Memory) }
    ensures every_bad_line { (n : ℕ) → IsFirstBadLine bytes.now n
        → MatchResult result (λ _. ⊥) (λ e. (e ≡ TessFault.Line n) ⊎ (e ≡ TessFault.Memory)) }
    ensures every_refusal { (fault : KindFault) → IsRefused bytes.now fault
        → MatchResult result (λ _. ⊥) (λ e. (e ≡ TessFault.Kinds fault) ⊎ (e ≡ TessFault.Memory)) }

    // No text leads to the fault of the number of kinds.
    ensures no_count { ¬ (IsRefused bytes.now KindFault.Count) }
    ensures never_count { IfErr result (λ e. e ≢ TessFault.Kinds KindFault.Count) }
{
    // That a file comes to one outcome is a law, which each clause that says "wherever" cites.
    outcome_law();
    let (version, kinds) = read_kinds(alloc, bytes)?;
    tess_of(alloc, version, kinds)
}
