//! The coarsest partition of the entries of a table that their looks respect.
ghost use Rattle.std.specs.Prelude.{◌≡◌, ◌≤◌, ◌<◌, ◌+◌, ◌-◌, length, slice_index_or, IfOk, OnOk};
ghost use Rattle.indexmap.specs.IndexSet.{index_set_len};
ghost use Rattle.cone_types.specs.Partitions.{IsPartition, KeepsLow};

use indexmap::IndexSet;
use std::alloc::{AllocError, Global};
use std::hash::Hash;

/// A table whose entries name each other by their numbers.
pub trait Table {
    /// What an entry shows, where entries of one class look alike.
    type Look: Eq + Hash + Drop;

    /// What an entry shows, when all that is known of the entries that it names is their classes.
    fn look(
        &self,
        alloc: Global,
        entry: usize,
        classes: &[usize],
    ) -> Result<Self::Look, AllocError>;
}

/// The class of each entry, and the number of classes.
#[derive(Debug, Drop)]
struct Partition {
    classes: Vec<usize>,
    count: usize,
}

/// All entries in one class.
fn undivided(alloc: Global, entries: usize) -> Result<Partition, AllocError>
    ensures entries { IfOk result (λ p. length p.classes.items ≡ entries) }
    ensures count { IfOk result (λ p. p.count ≡ 0) }
{
    Ok(Partition {
        classes: vec![in alloc; 0; entries]?,
        count: 0,
    })
}

/// The number of the class of an entry by its look over another partition, where the entries before
/// it had these looks. The first `apart` entries look like no other.
fn class_by_look<T: Table>(
    alloc: Global,
    table: &T,
    apart: usize,
    classes: &[usize],
    looks: &mut IndexSet<T::Look>,
    entry: usize,
) -> Result<usize, AllocError>
    requires { index_set_len looks.old ≤ entry - apart }
    ensures below { IfOk result (λ class. class ≤ entry) }
    ensures alone { IfOk result (λ class. entry < apart → class ≡ entry) }
    ensures few { OnOk result (index_set_len looks.new ≤ entry + 1 - apart) }
{
    if entry < apart {
        return Ok(entry);
    }
    let look = table.look(alloc, entry, classes)?;
    let (class, _) = looks.insert_full(look)?;
    Ok(apart + class)
}

/// The partition by the looks that the entries have over another partition. The first `apart`
/// entries are in classes of their own. Classes are numbered by their first entries.
#[tactic(auto, using(crate::proofs::Growing::one_more, crate::proofs::Growing::no_entries))]
fn refined<T: Table>(
    alloc: Global,
    table: &T,
    apart: usize,
    classes: &[usize],
) -> Result<Partition, AllocError>
    ensures partition { IfOk result (λ p. IsPartition (length classes.now) apart p.classes.items) }
    ensures count { IfOk result (λ p. p.count ≤ length classes.now) }
{
    let mut looks = IndexSet::new(alloc);
    let mut next = Vec::with_capacity(alloc, classes.len())?;
    for entry in 0..classes.len() {
        next.push(class_by_look(alloc, table, apart, classes, &mut looks, entry)?)?;
    }
    Ok(Partition {
        classes: next,
        count: apart.min(classes.len()) + looks.len(),
    })
}

/// The class of each entry in the coarsest partition in which entries of one class look alike, and
/// the first `apart` entries are in classes of their own. Classes are numbered by their first
/// entries. After E. F. Moore, "Gedanken-experiments on sequential machines", Automata Studies,
/// 1956.
///
/// # Errors
///
/// `AllocError` where there is no memory, and only there.
pub fn coarsest_partition<T: Table>(
    alloc: Global,
    table: &T,
    entries: usize,
    apart: usize,
) -> Result<Vec<usize>, AllocError>
    ensures { IfOk result (λ classes. IsPartition entries apart classes.items) }
{
    let mut partition = undivided(alloc, entries)?;
    loop {
        let finer = refined(alloc, table, apart, &partition.classes)?;
        if finer.count <= partition.count {
            return Ok(finer.classes);
        }
        partition = finer;
    }
}

/// The class of an entry. A number that is out of range stays.
pub fn class_number(entry: u32, classes: &[usize]) -> u32
    requires { KeepsLow classes.now }
    ensures { result ≡ slice_index_or classes.now entry entry }
{
    if (entry as usize) < classes.len() {
        classes[entry as usize] as u32
    } else {
        entry
    }
}
