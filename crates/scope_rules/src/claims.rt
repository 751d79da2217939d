// Which declarations and clauses stand where what they say is taken, and which number a declaration has.
ghost use Rattle.std.specs.Prelude.{◌≡◌, take, length, IfOk};
ghost use Rattle.ada_names.specs.Entries.{entry_at, first_of};
ghost use Rattle.ada_names.specs.Repeats as spec;

use crate::scope::Scope;
use ada_names::{Entry, Space, has_ended};
use ada_tree::{DeclId, Kind};
use base_kit::{Code, Memory, Path, Stop};

fn stands_once(space: Space) -> bool
    ensures { result ≡ spec.stands_once space }
{
    match space {
        Space::Names
        | Space::Completions
        | Space::Components
        | Space::Operators
        | Space::Traits
        | Space::Lemmas => true,
        _ => false,
    }
}

fn is_object(kind: Kind) -> bool
    ensures { result ≡ spec.is_object kind }
{
    match kind {
        Kind::Obj | Kind::Const | Kind::Formal | Kind::For | Kind::Reverse => true,
        _ => false,
    }
}

impl Scope {
    fn is_repeated(&self, entry: &Entry) -> Result<bool, Memory>
        ensures { IfOk result (λ b. b ≡ spec.is_repeated self.now entry.now) }
    {
        if !stands_once(entry.space) {
            return Ok(false);
        }
        match self.first(entry.space, &entry.region, &entry.name)? {
            Some(first) => Ok(first.place.0.as_slice() != entry.place.0.as_slice()),
            None => Ok(false),
        }
    }

    // Whether the region at this depth has an object of the name that is visible at the declaration.
    fn is_object_at(&self, entry: &Entry, depth: usize) -> Result<bool, Memory>
        ensures { IfOk result (λ b. b ≡ spec.is_object_at entry.now.place (first_of self.now Space.Names (take depth entry.now.region) entry.now.name)) }
    {
        let mut region = Vec::from_slice(self.alloc, entry.region.0.as_slice())?;
        region.truncate(depth);
        match self.first(Space::Names, &Path(region), &entry.name)? {
            Some(object) => {
                Ok(
                    is_object(object.kind)
                        && has_ended(object.from.0.as_slice(), entry.place.0.as_slice()),
                )
            }
            None => Ok(false),
        }
    }

    #[tactic(auto, using(crate::proofs::Steps::hides_done, crate::proofs::Steps::hides_here, crate::proofs::Steps::hides_further))]
    fn hides_object(&self, entry: &Entry) -> Result<bool, Memory>
        ensures { IfOk result (λ b. b ≡ spec.hides_object self.now entry.now) }
    {
        if entry.number.is_none() || entry.within.0.is_empty() {
            return Ok(false);
        }
        for depth in (entry.within.0.len()..entry.region.0.len()).rev() {
            if self.is_object_at(entry, depth)? {
                return Ok(true);
            }
        }
        Ok(false)
    }

    fn is_taken(&self, entry: &Entry) -> Result<bool, Memory>
        ensures { IfOk result (λ b. b ≡ spec.is_taken self.now entry.now) }
    {
        Ok(
            self.is_repeated(entry)?
                || self.hides_object(entry)?
                || self.is_clause_again(entry)?
                || self.is_block_again(entry)?,
        )
    }
}

/// The number of the declaration whose name the node at this path holds. F06 at the path exactly where
/// its region has the name already, or where it hides an object of its subprogram; at a mark of a `global`
/// clause, a raise clause and a `where` block exactly where `distinct` has it. F05 where nothing with a
/// number is declared there: a package body without its package, a name that has no number, or no name.
pub fn declared(scope: &Scope, at: &Path) -> Result<DeclId, Stop>
    ensures { spec.Answers (spec.claim scope.now at.now) at.now result }
{
    let Some(entry) = scope.table.at(&at.0) else {
        return Err(scope.fault(Code::F05, at));
    };
    if scope.is_taken(entry)? {
        return Err(scope.fault(Code::F06, at));
    }
    match entry.number {
        Some(number) => Ok(number),
        None => Err(scope.fault(Code::F05, at)),
    }
}

/// F06 at the path exactly where the node there holds a name that its region has already, or that hides
/// an object of its subprogram: also a component, a lemma, a trait, or a variable of a trait, which have no
/// number; where it is a mark of a `global` clause, or a raise clause, whose package variable or exception
/// its `where` block lists already; and where it is the `where` block of a body whose declaration stands
/// earlier.
pub fn distinct(scope: &Scope, at: &Path) -> Result<(), Stop>
    ensures { spec.Distinct (spec.claim scope.now at.now) at.now result }
{
    let Some(entry) = scope.table.at(&at.0) else {
        return Ok(());
    };
    if scope.is_taken(entry)? {
        return Err(scope.fault(Code::F06, at));
    }
    Ok(())
}
