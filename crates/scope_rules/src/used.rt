// What `use` clauses show.
ghost use Rattle.std.specs.Prelude.{◌≡◌, [], IfOk, slice_get};
ghost use Rattle.std.specs.List.{cons_option};
ghost use Rattle.std.specs.Option.{option_copied};
ghost use Rattle.ada_names.specs.Sees as spec;
ghost use Rattle.ada_names.specs.Entries.{uses_in};
ghost use Rattle.scope_rules.specs.Findings.{found_copied};

use crate::found::Found;
use crate::scope::Scope;
use ada_names::{Entry, Space, has_ended, is_in, kid};
use ada_tree::Kind;
use base_kit::{Memory, Path, Text};

impl Scope {
    /// What a package shows at a place.
    pub(crate) fn shown(
        &self,
        place: &Path,
        name: &Text,
        pack: &Entry,
    ) -> Result<Option<&Entry>, Memory>
        ensures { IfOk result (λ e. option_copied e ≡ spec.shown self.now place.now name.now pack.now) }
    {
        let visible_part = kid(self.alloc, &pack.place, 0)?;
        match self.first(Space::Names, &pack.place, name)? {
            Some(entry)
                if is_in(visible_part.0.as_slice(), entry.place.0.as_slice())
                    && has_ended(entry.from.0.as_slice(), place.0.as_slice()) => Ok(Some(entry)),
            _ => Ok(None),
        }
    }

    // The package that a `use` clause names.
    fn used_package(&self, clause: &Entry) -> Result<Option<&Entry>, Memory>
        ensures { IfOk result (λ e. option_copied e ≡ spec.used_package self.now clause.now) }
    {
        match self.directly(&clause.place, &clause.name)? {
            Some(entry) if entry.kind == Kind::Pack => Ok(Some(entry)),
            _ => Ok(None),
        }
    }

    fn shown_by(&self, place: &Path, name: &Text, clause: &Entry) -> Result<Option<&Entry>, Memory>
        ensures { IfOk result (λ e. option_copied e ≡ spec.shown_by self.now place.now name.now clause.now) }
    {
        if !has_ended(clause.from.0.as_slice(), place.0.as_slice()) {
            return Ok(None);
        }
        match self.used_package(clause)? {
            Some(pack) => self.shown(place, name, pack),
            None => Ok(None),
        }
    }

    // What was found, with what the clause of this index shows.
    fn shown_at<'a>(
        &'a self,
        place: &Path,
        name: &Text,
        number: usize,
        before: Found<'a>,
    ) -> Result<Found<'a>, Memory>
        ensures { IfOk result (λ f. found_copied f ≡ spec.shown_by_all self.now place.now name.now (found_copied before.entry) (cons_option (slice_get self.now number) [])) }
    {
        match self.table.entries().get(number) {
            Some(clause) => Ok(before.joined(self.shown_by(place, name, clause)?)),
            None => Ok(before),
        }
    }

    // What was found, with what the clauses of a region show.
    #[tactic(auto, using(crate::proofs::Steps::next_clause))]
    fn shown_in<'a>(
        &'a self,
        place: &Path,
        name: &Text,
        region: &Path,
        before: Found<'a>,
    ) -> Result<Found<'a>, Memory>
        ensures { IfOk result (λ f. found_copied f ≡ spec.shown_by_all self.now place.now name.now (found_copied before.entry) (uses_in self.now region.now)) }
    {
        let mut found = before;
        for number in self.table.uses_in(&region.0) {
            found = self.shown_at(place, name, *number, found)?;
        }
        Ok(found)
    }

    // What was found, with what the clauses of the unit of the declaration show.
    fn shown_in_context<'a>(
        &'a self,
        place: &Path,
        name: &Text,
        before: Found<'a>,
    ) -> Result<Found<'a>, Memory>
        ensures { IfOk result (λ f. found_copied f ≡ spec.shown_by_all self.now place.now name.now (found_copied before.entry) (spec.uses_from self.now place.now 0)) }
    {
        let declared = self.declaration_unit_at(place)?;
        self.shown_in(place, name, &declared, before)
    }

    /// What exactly one of the used packages shows.
    #[tactic(auto, using(crate::proofs::Steps::used_further))]
    pub(crate) fn by_use(&self, place: &Path, name: &Text) -> Result<Found<'_>, Memory>
        ensures { IfOk result (λ f. found_copied f ≡ spec.by_use self.now place.now name.now) }
    {
        let mut found = Found::Unseen;
        for depth in (0..place.0.len()).rev() {
            let region = self.region_at(place, depth)?;
            found = self.shown_in(place, name, &region, found)?;
        }
        self.shown_in_context(place, name, found)
    }
}
