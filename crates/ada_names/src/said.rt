// A name of the tree, and its entry after those that stand before it.
ghost use Rattle.std.specs.Prelude.{◌≡◌, Some, None, IfOk, if◌then◌else◌};
ghost use Rattle.std.specs.Option.{option_copied};
ghost use Rattle.ada_names.specs.Entries.{completed, entry as entry_after, entry_as, space_of, is_numbered, completes, next_number};

use crate::entry::{Entry, Space};
use crate::places::{is_in, kid};
use crate::table::{Key, Table};
use ada_tree::{DeclId, Kind};
use base_kit::{Copied, Memory, Path, Text};
use std::alloc::Global;

// The names of a kind of declaration.
fn space_of(kind: Kind) -> Space
    ensures { result ≡ space_of kind }
{
    match kind {
        Kind::Comp => Space::Components,
        Kind::Op => Space::Operators,
        Kind::Trait => Space::Traits,
        Kind::Lemma => Space::Lemmas,
        Kind::With => Space::Withs,
        Kind::Use => Space::Uses,
        Kind::Global => Space::Globals,
        Kind::Raise => Space::Raises,
        Kind::Body
        | Kind::In
        | Kind::Out
        | Kind::RaiseC
        | Kind::Invariant
        | Kind::Assert
        | Kind::Old
        | Kind::Eqn
        | Kind::Where
        | Kind::Name
        | Kind::Select => Space::Places,
        _ => Space::Names,
    }
}

// Whether the declarations of a kind have numbers.
fn is_numbered(kind: Kind) -> bool
    ensures { result ≡ is_numbered kind }
{
    match kind {
        Kind::Pack
        | Kind::SubDecl
        | Kind::SubBody
        | Kind::Formal
        | Kind::Obj
        | Kind::Const
        | Kind::Num
        | Kind::Enum
        | Kind::Exc
        | Kind::TypeDecl
        | Kind::Subtype
        | Kind::Private
        | Kind::For
        | Kind::Reverse
        | Kind::Op => true,
        _ => false,
    }
}

// Whether a declaration of the second kind, in this region, completes one of the first.
fn completes(
    alloc: Global,
    first: Kind,
    kind: Kind,
    region: &Path,
    place: &Path,
) -> Result<bool, Memory>
    ensures { IfOk result (λ b. b ≡ completes first kind region.now place.now) }
{
    match first {
        Kind::Pack => Ok(kind == Kind::Body),
        Kind::SubDecl => Ok(kind == Kind::SubBody),
        Kind::Private if kind == Kind::TypeDecl => {
            let private_part = kid(alloc, region, 1)?;
            Ok(is_in(private_part.0.as_slice(), place.0.as_slice()))
        }
        _ => Ok(false),
    }
}

/// A name of the tree, and what it is of.
#[derive(Clone, Copy)]
pub struct Said<'a> {
    pub kind: Kind,
    pub name: &'a Text,
    pub place: &'a Path,
    pub region: &'a Path,
    pub from: &'a Path,
    pub within: &'a Path,
}

impl<'a> Said<'a> {
    fn key(&self, alloc: Global) -> Result<Key, Memory>
        ensures { IfOk result (λ key. (key.space ≡ Space.Names) × (key.region.items ≡ self.now.region.now) × (key.name.items ≡ self.now.name.now)) }
    {
        let region = self.region;
        Ok(Key {
            space: Space::Names,
            region: Vec::from_slice(alloc, region.0.as_slice())?,
            name: Vec::from_slice(alloc, self.name.as_bytes())?,
        })
    }

    // The earlier declaration that this one completes.
    fn completed<'t>(&self, alloc: Global, table: &'t Table) -> Result<Option<&'t Entry>, Memory>
        ensures { IfOk result (λ e. option_copied e ≡ completed table.now self.now.kind self.now.name.now self.now.region.now self.now.place.now) }
    {
        let key = self.key(alloc)?;
        let Some(first) = table.first(&key) else {
            return Ok(None);
        };
        if completes(alloc, first.kind, self.kind, self.region, self.place)? {
            Ok(Some(first))
        } else {
            Ok(None)
        }
    }

    fn number(&self, table: &Table) -> Result<Option<DeclId>, Memory>
        ensures { IfOk result (λ n. n ≡ (if is_numbered self.now.kind then Some (next_number table.now) else None)) }
    {
        if is_numbered(self.kind) {
            Ok(Some(table.next_number()?))
        } else {
            Ok(None)
        }
    }

    // The entry with its space, its origin and its number.
    fn entry_as(
        &self,
        alloc: Global,
        space: Space,
        origin: &Path,
        number: Option<DeclId>,
    ) -> Result<Entry, Memory>
        ensures { IfOk result (λ e. e ≡ entry_as space self.now.kind self.now.name.now self.now.place.now origin.now self.now.region.now self.now.from.now self.now.within.now number) }
    {
        Ok(Entry {
            space,
            kind: self.kind,
            name: self.name.copy(alloc)?,
            place: self.place.copy(alloc)?,
            origin: origin.copy(alloc)?,
            region: self.region.copy(alloc)?,
            from: self.from.copy(alloc)?,
            within: self.within.copy(alloc)?,
            number,
        })
    }

    /// The entry after those of the table.
    pub fn entry(&self, alloc: Global, table: &Table) -> Result<Entry, Memory>
        ensures { IfOk result (λ e. e ≡ entry_after table.now self.now.kind self.now.name.now self.now.place.now self.now.region.now self.now.from.now self.now.within.now) }
    {
        match self.completed(alloc, table)? {
            Some(first) => { self.entry_as(alloc, Space::Completions, &first.origin, first.number) }
            None => {
                let number = self.number(table)?;
                self.entry_as(alloc, space_of(self.kind), self.place, number)
            }
        }
    }
}
