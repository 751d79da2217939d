// What the clauses of `where` blocks list, and which clauses repeat an earlier one.
ghost use Rattle.std.specs.Prelude.{◌≡◌, IfOk};
ghost use Rattle.std.specs.Option.{option_copied};
ghost use Rattle.ada_names.specs.Clauses as spec;
ghost use Rattle.ada_names.specs.Entries.{entry_at};
ghost use Rattle.ada_names.specs.Places.{◌▸◌};
ghost use Rattle.scope_rules.specs.Findings.{found_copied};

use crate::found::Found;
use crate::scope::Scope;
use ada_names::{Entry, Space, kid};
use ada_tree::{DeclId, Kind};
use base_kit::{Memory, Path};

// Whether clauses of these marks list a declaration: package variables, or exceptions.
fn is_listed(space: Space, entry: &Entry) -> bool
    ensures { result ≡ spec.is_listed space entry.now }
{
    match space {
        Space::Globals => entry.kind == Kind::Obj && entry.within.0.is_empty(),
        Space::Raises => entry.kind == Kind::Exc,
        _ => false,
    }
}

// The number of what is found, where it is listed.
fn listed_if(space: Space, found: Found<'_>) -> Option<DeclId>
    ensures { result ≡ spec.listed_if space (found_copied found.entry) }
{
    match found {
        Found::One(entry) if is_listed(space, entry) => entry.number,
        _ => None,
    }
}

fn is_number(number: Option<DeclId>, id: DeclId) -> bool
    ensures { result ≡ spec.is_number number id }
{
    match number {
        Some(number) => number == id,
        None => false,
    }
}

impl Scope {
    // The entry of the kid of this number.
    fn kid_at(&self, at: &Path, number: usize) -> Result<Option<&Entry>, Memory>
        ensures { IfOk result (λ e. option_copied e ≡ entry_at self.now (at.now ▸ number)) }
    {
        let below = kid(self.alloc, at, number)?;
        Ok(self.table.at(&below.0))
    }

    fn seen_by_mark(&self, mark: &Entry) -> Result<Found<'_>, Memory>
        ensures { IfOk result (λ f. found_copied f ≡ spec.seen_by_mark self.now mark.now) }
    {
        match self.kid_at(&mark.place, 0)? {
            Some(prefix) if prefix.kind == Kind::Name => {
                self.pair(&mark.place, &prefix.name, &mark.name)
            }
            Some(_) => Ok(Found::Unseen),
            None => self.named(&mark.place, &mark.name),
        }
    }

    // The number of what a mark lists.
    fn listed(&self, mark: &Entry) -> Result<Option<DeclId>, Memory>
        ensures { IfOk result (λ id. id ≡ spec.listed self.now mark.now) }
    {
        let found = self.seen_by_mark(mark)?;
        Ok(listed_if(mark.space, found))
    }

    // Whether another mark is of the same clauses and the same last name, and lists this.
    fn lists_there(&self, mark: &Entry, id: DeclId, other: &Entry) -> Result<bool, Memory>
        ensures { IfOk result (λ b. b ≡ spec.lists_there self.now mark.now id other.now) }
    {
        let is_such = other.space == mark.space
            && (other.region.0.as_slice() == mark.region.0.as_slice()
                && other.name.as_bytes() == mark.name.as_bytes());
        if !is_such {
            return Ok(false);
        }
        Ok(is_number(self.listed(other)?, id))
    }

    // The first mark that lists this. It goes over the entries only where the first mark of the name
    // lists something else.
    fn first_listed(&self, mark: &Entry, id: DeclId) -> Result<Option<&Entry>, Memory>
        ensures { IfOk result (λ e. option_copied e ≡ spec.first_listed self.now mark.now id) }
    {
        if let Some(first) = self.first(mark.space, &mark.region, &mark.name)? {
            if is_number(self.listed(first)?, id) {
                return Ok(Some(first));
            }
        }
        for other in self.table.entries() {
            if self.lists_there(mark, id, other)? {
                return Ok(Some(other));
            }
        }
        Ok(None)
    }

    // Whether an earlier mark lists what this one lists.
    fn lists_again(&self, mark: &Entry) -> Result<bool, Memory>
        ensures { IfOk result (λ b. b ≡ spec.lists_again self.now mark.now) }
    {
        let Some(id) = self.listed(mark)? else {
            return Ok(false);
        };
        match self.first_listed(mark, id)? {
            Some(first) => Ok(first.place.0.as_slice() != mark.place.0.as_slice()),
            None => Ok(false),
        }
    }

    /// Whether an entry is the mark of a `global` clause, or a raise clause, that lists what is listed
    /// already.
    pub(crate) fn is_clause_again(&self, entry: &Entry) -> Result<bool, Memory>
        ensures { IfOk result (λ b. b ≡ spec.is_clause_again self.now entry.now) }
    {
        if entry.space == Space::Globals && self.lists_again(entry)? {
            return Ok(true);
        }
        if entry.kind != Kind::RaiseC {
            return Ok(false);
        }
        match self.kid_at(&entry.place, 0)? {
            Some(mark) => self.lists_again(mark),
            None => Ok(false),
        }
    }

    /// Whether an entry is the `where` block of a body whose declaration stands earlier.
    pub(crate) fn is_block_again(&self, entry: &Entry) -> Result<bool, Memory>
        ensures { IfOk result (λ b. b ≡ spec.is_block_again self.now entry.now) }
    {
        if entry.kind != Kind::Where {
            return Ok(false);
        }
        match self.kid_at(&entry.within, 0)? {
            Some(specification) => Ok(specification.space == Space::Completions),
            None => Ok(false),
        }
    }
}
