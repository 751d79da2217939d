// The names of types, of their components and of operators.
ghost use Rattle.std.specs.Prelude.{◌≡◌, ◌++◌, ◌∷◌, [], List, length, OnOk, OnErr};
ghost use Rattle.term_core.specs.Entries.{Fits};

use crate::Sort;
use base_kit::{Copied, Memory, Names, Text};
use std::alloc::Global;
use std::marker::Model;

/// A type or subtype in the list of type names.
#[derive(Drop)]
pub struct SortEntry {
    /// The expanded name.
    pub name: Text,
    pub sort: Sort,
    /// Traits see it.
    pub seen: bool,
    /// The names of a record type's components; empty for every other entry.
    pub parts: Names,
    /// The number of its type's entry: its own, for a type.
    pub base: u32,
}

impl Copied for SortEntry {
    fn copy(&self, alloc: Global) -> Result<Self, Memory> {
        Ok(SortEntry {
            name: self.name.copy(alloc)?,
            sort: self.sort.copy(alloc)?,
            seen: self.seen,
            parts: self.parts.copy(alloc)?,
            base: self.base,
        })
    }
}

/// The types and subtypes of a document, numbered from 0. An entry with names of components has
/// the sort of the record of its own number, with a part for each name.
#[derive(Drop)]
pub struct SortNames {
    entries: Vec<SortEntry>,
}

impl Model for SortNames {
    ghost use Rattle.std.specs.Prelude.{List};
    ghost use Rattle.std.specs.Coded.{coded_list};
    ghost use Rattle.term_core.specs.declared.names.SortEntry.{SortEntry};
    ghost use Rattle.term_core.specs.contracts.names.SortEntry as entry;
    ghost use Rattle.term_core.specs.Entries.{AllFit};

    ghost Value = { List SortEntry };

    ghost coded = { coded_list entry.the_row.coded };

    ghost view = { λ list. list.entries.items };

    ghost invariant = { λ list. AllFit list.entries.items };
}

impl SortNames {
    /// The list without entries. It takes no memory.
    pub fn new(alloc: Global) -> Self
        ensures { result ≡ [] }
    {
        SortNames {
            entries: Vec::new(alloc),
        }
    }

    /// Adds an entry at the end.
    pub fn push(&mut self, entry: SortEntry) -> Result<(), Memory>
        requires { Fits (length self.old) entry }
        ensures ok { OnOk result (self.new ≡ self.old ++ entry ∷ []) }
        ensures err { OnErr result (self.new ≡ self.old) }
    {
        self.entries.push(entry)?;
        Ok(())
    }

    pub fn as_slice(&self) -> &[SortEntry]
        ensures { result.now ≡ self.now }
    {
        self.entries.as_slice()
    }
}

impl Copied for SortNames {
    fn copy(&self, alloc: Global) -> Result<Self, Memory> {
        let mut entries = Vec::new(alloc);
        for entry in &self.entries {
            entries.push(entry.copy(alloc)?)?;
        }
        Ok(SortNames { entries })
    }
}

/// The names of operators, of types and of components, each by its number.
#[derive(Drop)]
pub struct OpNames {
    pub ops: Names,
    pub types: Names,
    pub parts: Names,
}

impl Copied for OpNames {
    fn copy(&self, alloc: Global) -> Result<Self, Memory> {
        Ok(OpNames {
            ops: self.ops.copy(alloc)?,
            types: self.types.copy(alloc)?,
            parts: self.parts.copy(alloc)?,
        })
    }
}
