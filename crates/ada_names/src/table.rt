// The table of entries: by name, by place, and the `use` clauses by region.
ghost use Rattle.std.specs.Prelude.{◌≡◌, [], ◌∷◌, ◌++◌, ◌+◌, filter_map, slice_get, IfOk, if◌then◌else◌};
ghost use Rattle.std.specs.Option.{option_copied};
ghost use Rattle.ada_names.specs.Entries.{first_of, entry_at, uses_in, next_number, is_at, is_use_in, is_own};
ghost use Rattle.ada_names.specs.Tables.{NotesFirst, NotesAll, AddsFirst, AddsAll, test_name};

use crate::entry::{Entry, Space};
use ada_tree::DeclId;
use base_kit::{Copied, Memory};
use indexmap::IndexMap;
use std::alloc::Global;
use std::hash::Hash;
use std::marker::Model;

/// What is looked up by name: a name in a region.
#[derive(Drop, PartialEq, Eq, Hash)]
pub struct Key {
    pub space: Space,
    pub region: Vec<u32>,
    pub name: Vec<u8>,
}

/// The entries of a document, in order. Each look-up is one probe of a hashed table.
#[derive(Drop)]
pub struct Table {
    entries: Vec<Entry>,
    // the first of each name in each region
    names: IndexMap<Key, usize>,
    places: IndexMap<Vec<u32>, usize>,
    uses: IndexMap<Vec<u32>, Vec<usize>>,
    // how many have numbers of their own
    numbers: usize,
}

impl Model for Table {
    ghost use Rattle.std.specs.Prelude.{List};
    ghost use Rattle.std.specs.Coded.{codes};
    ghost use Rattle.ada_names.specs.declared.entry.Entry.{Entry as Said};
    ghost use Rattle.ada_names.specs.contracts.entry.Entry as entry;
    ghost use Rattle.ada_names.specs.Tables.{Holds};

    ghost Value = { List Said };

    ghost coded = { Prim.hlevel (codes, entry.the_row.coded) };

    ghost view = { λ table. table.entries.items };

    ghost invariant = { λ table. Holds ⟦<Key as PartialEq>⟧.eq ⟦<Vec<u32> as PartialEq>⟧.eq table.names table.places table.uses table.numbers table.entries.items };
}

// Notes the number of a key that has none.
fn note_first<K: Eq + Hash + Drop>(
    mut numbers: IndexMap<K, usize>,
    key: K,
    number: usize,
) -> Result<IndexMap<K, usize>, Memory>
    ensures { IfOk result (λ noted. NotesFirst K.eq numbers noted key number) }
{
    if numbers.get(&key).is_some() {
        return Ok(numbers);
    }
    numbers.insert(key, number)?;
    Ok(numbers)
}

fn note_use(
    alloc: Global,
    mut uses: IndexMap<Vec<u32>, Vec<usize>>,
    region: Vec<u32>,
    number: usize,
) -> Result<IndexMap<Vec<u32>, Vec<usize>>, Memory>
    ensures { IfOk result (λ noted. NotesAll ⟦<Vec<u32> as PartialEq>⟧.eq uses noted region number) }
{
    let mut numbers = match uses.swap_remove(&region) {
        Some(numbers) => numbers,
        None => Vec::new(alloc),
    };
    numbers.push(number)?;
    uses.insert(region, numbers)?;
    Ok(uses)
}

// Notes the place of an entry that stands in the document.
fn with_place(
    alloc: Global,
    places: IndexMap<Vec<u32>, usize>,
    entry: &Entry,
    number: usize,
) -> Result<IndexMap<Vec<u32>, usize>, Memory>
    ensures { IfOk result (λ noted. AddsFirst ⟦<Vec<u32> as PartialEq>⟧.eq (λ place. is_at place.items) places noted entry.now number) }
{
    if entry.space == Space::Predefined {
        return Ok(places);
    }
    let place = Vec::from_slice(alloc, entry.place.0.as_slice())?;
    note_first(places, place, number)
}

fn with_name(
    alloc: Global,
    names: IndexMap<Key, usize>,
    entry: &Entry,
    number: usize,
) -> Result<IndexMap<Key, usize>, Memory>
    ensures { IfOk result (λ noted. AddsFirst ⟦<Key as PartialEq>⟧.eq test_name names noted entry.now number) }
{
    let key = Key {
        space: entry.space,
        region: Vec::from_slice(alloc, entry.region.0.as_slice())?,
        name: Vec::from_slice(alloc, entry.name.as_bytes())?,
    };
    note_first(names, key, number)
}

// Notes a `use` clause.
fn with_use(
    alloc: Global,
    uses: IndexMap<Vec<u32>, Vec<usize>>,
    entry: &Entry,
    number: usize,
) -> Result<IndexMap<Vec<u32>, Vec<usize>>, Memory>
    ensures { IfOk result (λ noted. AddsAll ⟦<Vec<u32> as PartialEq>⟧.eq (λ region. is_use_in region.items) uses noted entry.now number) }
{
    if entry.space != Space::Uses {
        return Ok(uses);
    }
    let region = Vec::from_slice(alloc, entry.region.0.as_slice())?;
    note_use(alloc, uses, region, number)
}

// How many have numbers of their own, with one entry more.
fn with_number(numbers: usize, entry: &Entry) -> Result<usize, Memory>
    ensures { IfOk result (λ more. more ≡ numbers + (if is_own entry.now then 1 else 0)) }
{
    if entry.number.is_none() || entry.space == Space::Completions {
        return Ok(numbers);
    }
    match numbers.checked_add(1) {
        Some(more) => Ok(more),
        None => Err(Memory),
    }
}

impl Table {
    /// The table without entries.
    pub fn new(alloc: Global) -> Table
        ensures { result ≡ [] }
    {
        Table {
            entries: Vec::new(alloc),
            names: IndexMap::new(alloc),
            places: IndexMap::new(alloc),
            uses: IndexMap::new(alloc),
            numbers: 0,
        }
    }

    /// The table with one entry more.
    pub fn with(self, alloc: Global, entry: Entry) -> Result<Table, Memory>
        ensures { IfOk result (λ table. table ≡ self ++ entry ∷ []) }
    {
        let number = self.entries.len();
        let names = with_name(alloc, self.names, &entry, number)?;
        let places = with_place(alloc, self.places, &entry, number)?;
        let uses = with_use(alloc, self.uses, &entry, number)?;
        let numbers = with_number(self.numbers, &entry)?;
        let mut entries = self.entries;
        entries.push(entry)?;
        Ok(Table {
            entries,
            names,
            places,
            uses,
            numbers,
        })
    }

    /// The first entry of a name in a region.
    pub fn first(&self, key: &Key) -> Option<&Entry>
        ensures { option_copied result ≡ first_of self.now key.now.space key.now.region.items key.now.name.items }
    {
        let number = self.names.get(key)?;
        self.entries.get(*number)
    }

    /// The entry of the node at a path.
    pub fn at(&self, place: &Vec<u32>) -> Option<&Entry>
        ensures { option_copied result ≡ entry_at self.now place.now.items }
    {
        let number = self.places.get(place)?;
        self.entries.get(*number)
    }

    /// The indexes of the `use` clauses of a region.
    pub fn uses_in(&self, region: &Vec<u32>) -> &[usize]
        ensures { filter_map (slice_get self.now) result.now ≡ uses_in self.now region.now.items }
    {
        match self.uses.get(region) {
            Some(numbers) => numbers.as_slice(),
            None => &[],
        }
    }

    /// The entries in order.
    pub fn entries(&self) -> &[Entry]
        ensures { result.now ≡ self.now }
    {
        self.entries.as_slice()
    }

    /// The number of the next declaration. Past 32 bits there is none.
    pub fn next_number(&self) -> Result<DeclId, Memory>
        ensures { IfOk result (λ id. id ≡ next_number self.now) }
    {
        match u32::try_from(self.numbers) {
            Ok(number) => Ok(DeclId(number)),
            Err(_) => Err(Memory),
        }
    }
}
