// From numbers of declarations to their places.
ghost use Rattle.std.specs.Prelude.{◌≡◌, IfOk};
ghost use Rattle.ada_names.specs.Collecting.{entries_of};
ghost use Rattle.ada_names.specs.Entries.{has_number, exception_number};
ghost use Rattle.ada_names.specs.Repeats as spec;

use crate::entry::{Entry, Space};
use crate::table::Table;
use ada_tree::{DeclId, Doc, Kind};
use base_kit::{Copied, Memory, Path};
use std::alloc::Global;

fn is_declared_as(id: DeclId, entry: &Entry) -> bool
    ensures { result ≡ spec.is_declared_as id entry.now }
{
    entry.space != Space::Predefined && has_number(id, entry)
}

fn has_number(id: DeclId, entry: &Entry) -> bool
    ensures { result ≡ has_number id entry.now }
{
    match entry.number {
        Some(number) => number == id,
        None => false,
    }
}

impl Table {
    /// The number of an exception among the exceptions, from 0: `CONSTRAINT_ERROR` has 0. None where the
    /// declaration of this number is no exception. It goes over all entries.
    #[tactic(auto, using(crate::proofs::Exceptions::counted_from_zero))]
    pub fn exception_number(&self, id: DeclId) -> Option<usize>
        ensures { result ≡ exception_number self.now id }
    {
        let mut number = 0;
        for entry in self.entries() {
            if entry.kind == Kind::Exc {
                if has_number(id, entry) {
                    return Some(number);
                }
                number += 1;
            }
        }
        None
    }

    /// The place of the first declaration of this number that stands in the document.
    pub fn place_of(&self, alloc: Global, id: DeclId) -> Result<Option<Path>, Memory>
        ensures { IfOk result (λ path. path ≡ spec.place_of self.now id) }
    {
        for entry in self.entries() {
            if is_declared_as(id, entry) {
                return Ok(Some(entry.place.copy(alloc)?));
            }
        }
        Ok(None)
    }
}

/// The path of the node that holds the declared name of this number, its Id or else the node whose text
/// the name is; where a body or a full type has the number too, it is that of the earlier
/// declaration. None exactly where the document declares no name of this number. It goes over the whole
/// document.
pub fn place_of(alloc: Global, doc: &Doc, id: DeclId) -> Result<Option<Path>, Memory>
    ensures { IfOk result (λ path. path ≡ spec.place_of (entries_of doc.now) id) }
{
    Table::of(alloc, doc)?.place_of(alloc, id)
}
