// Places in terms of annotations, where objects come first and then operators.
ghost use Rattle.std.specs.Prelude.{◌≡◌, ◌+◌, ◌<◌, take, length, IfOk};
ghost use Rattle.std.specs.Option.{option_copied};
ghost use Rattle.ada_names.specs.Sees as spec;
ghost use Rattle.ada_names.specs.Entries.{entry_at};
ghost use Rattle.scope_rules.specs.Findings.{found_copied};

use crate::found::Found;
use crate::outward::front_at;
use crate::scope::Scope;
use ada_names::{Entry, Space, has_ended, is_in, kid};
use ada_tree::Kind;
use base_kit::{Memory, Path, Text};
use std::alloc::Global;

// Whether what stands inside a node, at the place, is in a term; None where the node doesn't tell.
fn begins_term(alloc: Global, place: &Path, entry: &Entry) -> Result<Option<bool>, Memory>
    ensures { IfOk result (λ b. b ≡ spec.begins_term place.now entry.now) }
{
    match entry.kind {
        Kind::In | Kind::Out | Kind::Invariant | Kind::Assert | Kind::Eqn | Kind::Lemma => Ok(Some(
            true,
        )),
        Kind::RaiseC | Kind::View => {
            let mark = kid(alloc, &entry.place, 0)?;
            Ok(Some(!is_in(mark.0.as_slice(), place.0.as_slice())))
        }
        Kind::Old => Ok(Some(false)),
        _ => Ok(None),
    }
}

impl Scope {
    fn term_at(&self, place: &Path, depth: usize) -> Result<Option<bool>, Memory>
        requires { depth < length place.now }
        ensures { IfOk result (λ b. b ≡ spec.term_at place.now (entry_at self.now (take (depth + 1) place.now))) }
    {
        let front = front_at(self.alloc, place, depth)?;
        match self.table.at(&front.0) {
            Some(entry) => begins_term(self.alloc, place, entry),
            None => Ok(None),
        }
    }

    #[tactic(auto, using(crate::proofs::Steps::term_further, crate::proofs::Steps::term_here))]
    fn is_in_term(&self, place: &Path) -> Result<bool, Memory>
        ensures { IfOk result (λ b. b ≡ spec.is_in_term self.now place.now) }
    {
        for depth in (0..place.0.len()).rev() {
            if let Some(term) = self.term_at(place, depth)? {
                return Ok(term);
            }
        }
        Ok(false)
    }

    fn operator_named(&self, place: &Path, name: &Text) -> Result<Option<&Entry>, Memory>
        ensures { IfOk result (λ e. option_copied e ≡ spec.operator_named self.now place.now name.now) }
    {
        let everywhere = Path(Vec::new(self.alloc));
        match self.first(Space::Operators, &everywhere, name)? {
            Some(entry) if has_ended(entry.from.0.as_slice(), place.0.as_slice()) => {
                Ok(Some(entry))
            }
            _ => Ok(None),
        }
    }

    // Whether the name at a place stands in a `with` clause.
    fn is_in_with(&self, place: &Path) -> bool
        ensures { result ≡ spec.is_entry_of Kind.With (entry_at self.now place.now) }
    {
        match self.table.at(&place.0) {
            Some(entry) => entry.kind == Kind::With,
            None => false,
        }
    }

    fn plainly(&self, place: &Path, name: &Text) -> Result<Found<'_>, Memory>
        ensures { IfOk result (λ f. found_copied f ≡ spec.plainly self.now place.now name.now) }
    {
        if self.is_in_with(place) {
            let unit = self.earlier_unit(place, name)?;
            return Ok(Found::Unseen.or_direct(unit));
        }
        match self.directly(place, name)? {
            Some(entry) => Ok(Found::One(entry)),
            None => self.by_use(place, name),
        }
    }

    /// What a name of one part is found to be.
    pub(crate) fn named(&self, place: &Path, name: &Text) -> Result<Found<'_>, Memory>
        ensures { IfOk result (λ f. found_copied f ≡ spec.named self.now place.now name.now) }
    {
        let found = self.plainly(place, name)?;
        if self.is_in_term(place)? {
            Ok(found.or_operator(self.operator_named(place, name)?))
        } else {
            Ok(found)
        }
    }
}
