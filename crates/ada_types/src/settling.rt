// What the full type of a private type settles, and what may be added.
ghost use Rattle.std.specs.Prelude.{◌≡◌, ◌+◌, nat_eq, IfOk};
ghost use Rattle.std.specs.List.{list_any};
ghost use Rattle.term_core.specs.declared.sort.Sort.TheViews.{out-Sort};
ghost use Rattle.ada_types.specs.SortLists as lists;
ghost use Rattle.ada_types.specs.Declarations as decl;

use base_kit::{Copied, Memory, Names};
use static_values::{Entities, Entity};
use std::alloc::Global;
use term_core::{Sort, SortEntry, SortNames};

/// Whether each of these can be kept.
pub fn are_new(kept: &Entities, added: &Entities) -> bool
    ensures { result ≡ decl.are_new kept.now added.now }
{
    for (id, entity) in added.map.iter() {
        if !kept.is_new(*id, entity) {
            return false;
        }
    }
    true
}

// The entry that an entity has, where it is a subtype of the private type of this number.
fn waiting_entry(id: u32, entity: &Entity) -> Option<u32>
    ensures { result ≡ decl.waiting_entry id entity.now }
{
    match entity {
        Entity::PrivateSubtype(base, number) if *base == id => Some(*number),
        _ => None,
    }
}

// The entries of the subtypes of the private type of this number.
fn waiting(alloc: Global, id: u32, entities: &Entities) -> Result<Vec<u32>, Memory>
    ensures { IfOk result (λ made. made.items ≡ decl.waiting id entities.now) }
{
    let mut made = Vec::new(alloc);
    for (_, entity) in entities.map.iter() {
        if let Some(number) = waiting_entry(id, entity) {
            made.push(number)?;
        }
    }
    Ok(made)
}

/// Those that wait for the full type that is added, if one is.
pub fn waiting_for(
    alloc: Global,
    completes: Option<u32>,
    entities: &Entities,
) -> Result<Vec<u32>, Memory>
    ensures { IfOk result (λ made. made.items ≡ decl.waiting_for completes entities.now) }
{
    match completes {
        Some(id) => waiting(alloc, id, entities),
        None => Ok(Vec::new(alloc)),
    }
}

fn completed(alloc: Global, full: &SortEntry, entry: &SortEntry) -> Result<SortEntry, Memory>
    ensures { IfOk result (λ made. made ≡ decl.completed full.now entry.now) }
{
    Ok(SortEntry {
        name: entry.name.copy(alloc)?,
        sort: full.sort.copy(alloc)?,
        seen: false,
        parts: Names::new(alloc),
        base: full.base,
    })
}

fn has(waiting: &[u32], number: usize) -> bool
    ensures { result ≡ list_any (nat_eq number) waiting.now }
{
    waiting.iter().any(|entry| number == *entry as usize)
}

// The entry of this number, completed where it waits.
fn settled_entry(
    alloc: Global,
    full: &SortEntry,
    waits: bool,
    entry: &SortEntry,
) -> Result<SortEntry, Memory>
    ensures { IfOk result (λ made. made ≡ decl.settled_entry full.now waits entry.now) }
{
    if waits {
        completed(alloc, full, entry)
    } else {
        entry.copy(alloc)
    }
}

fn is_record(number: usize, count: usize, sort: &Sort) -> bool
    ensures { result ≡ lists.is_record number count (out-Sort sort.now) }
{
    match sort {
        Sort::Record(own, parts) => *own as usize == number && parts.as_slice().len() == count,
        _ => false,
    }
}

// Whether an entry may stand at a number: one with names of components is that of a record with this number.
fn may_stand(number: usize, entry: &SortEntry) -> bool
    ensures { result ≡ lists.may_stand number entry.now }
{
    let parts = entry.parts.as_slice().len();
    parts == 0 || is_record(number, parts, &entry.sort)
}

/// The list in which these entries are completed.
#[tactic(auto, using(crate::proofs::Waiting::fits_there))]
pub fn settled(
    alloc: Global,
    names: &SortNames,
    full: &SortEntry,
    waiting: &[u32],
) -> Result<SortNames, Memory>
    ensures { IfOk result (λ made. made ≡ decl.settled full.now waiting.now 0 names.now) }
{
    let mut made = SortNames::new(alloc);
    for (number, entry) in names.as_slice().iter().enumerate() {
        let entry = settled_entry(alloc, full, has(waiting, number), entry)?;
        // Each entry of a list may stand where it does, which the list alone knows.
        if !may_stand(number, &entry) {
            return Err(Memory);
        }
        made.push(entry)?;
    }
    Ok(made)
}
