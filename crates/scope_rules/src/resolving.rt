// What a name sees.
ghost use Rattle.std.specs.Prelude.{◌≡◌, [], ◌∷◌, IfOk};
ghost use Rattle.std.specs.Option.{option_copied};
ghost use Rattle.ada_tree.specs.Sights.{Answers, parts_of};
ghost use Rattle.ada_names.specs.Sees as spec;
ghost use Rattle.scope_rules.specs.Findings.{found_copied, IsFault};

use crate::found::Found;
use crate::scope::Scope;
use ada_names::Entry;
use ada_tree::{DeclId, Kind, Lookup, Node};
use base_kit::{Code, Copied, Fault, Memory, Path, Place, Stop, Text};

impl Scope {
    fn selected<'a>(
        &'a self,
        place: &Path,
        name: &Text,
        prefix: Found<'a>,
    ) -> Result<Found<'a>, Memory>
        ensures { IfOk result (λ f. found_copied f ≡ spec.selected self.now place.now name.now (found_copied prefix.entry)) }
    {
        match prefix {
            Found::One(pack) if pack.kind == Kind::Pack => {
                Ok(Found::Unseen.or_direct(self.shown(place, name, pack)?))
            }
            Found::One(_) => Ok(Found::Unseen),
            other => Ok(other),
        }
    }

    fn type_shown(
        &self,
        place: &Path,
        name: &Text,
        pack: Option<&Entry>,
    ) -> Result<Found<'_>, Memory>
        ensures { IfOk result (λ f. found_copied f ≡ spec.type_shown self.now place.now name.now (option_copied pack.entry)) }
    {
        let Some(pack) = pack else {
            return Ok(Found::Unseen);
        };
        if pack.kind != Kind::Pack {
            return Ok(Found::Unseen);
        }
        match self.shown(place, name, pack)? {
            Some(entry) if entry.kind == Kind::TypeDecl => Ok(Found::One(entry)),
            _ => Ok(Found::Unseen),
        }
    }

    fn selected_in_trait(
        &self,
        place: &Path,
        prefix: &Text,
        name: &Text,
    ) -> Result<Found<'_>, Memory>
        ensures { IfOk result (λ f. found_copied f ≡ spec.selected_in_trait self.now place.now prefix.now name.now (spec.named self.now place.now prefix.now)) }
    {
        match self.named(place, prefix)? {
            Found::Unseen => {
                let pack = self.earlier_unit(place, prefix)?;
                self.type_shown(place, name, pack)
            }
            _ => Ok(Found::Unseen),
        }
    }

    /// What a name of two parts is found to be.
    pub(crate) fn pair(&self, place: &Path, prefix: &Text, name: &Text) -> Result<Found<'_>, Memory>
        ensures { IfOk result (λ f. found_copied f ≡ spec.found self.now (prefix.now ∷ name.now ∷ []) place.now) }
    {
        if self.is_in_trait(place)? {
            return self.selected_in_trait(place, prefix, name);
        }
        let found = self.named(place, prefix)?;
        self.selected(place, name, found)
    }

    fn found(&self, name: &Node, place: &Path) -> Result<Found<'_>, Memory>
        ensures { IfOk result (λ f. found_copied f ≡ spec.found self.now (parts_of name.now) place.now) }
    {
        match name.kind {
            Kind::Name => self.named(place, &name.text),
            Kind::Select => match name.kids.as_slice() {
                [prefix] if prefix.kind == Kind::Name => {
                    self.pair(place, &prefix.text, &name.text)
                }
                _ => Ok(Found::Unseen),
            },
            _ => Ok(Found::Unseen),
        }
    }

    // The fault of this code at a path.
    pub(crate) fn fault(&self, code: Code, at: &Path) -> Stop
        ensures { IsFault code at.now result }
    {
        match at.copy(self.alloc) {
            Ok(path) => Stop::Fault(Fault {
                code,
                place: Place::At(path),
                count: 0,
            }),
            Err(Memory) => Stop::Memory,
        }
    }
}

/// What a name sees at a path: the number of the one declaration. F05 at the path where it sees none,
/// F07 where two used packages declare the name and nothing else does. A name is a `Name`, or a `Select`
/// whose prefix is one; any other node sees nothing.
pub fn resolve(scope: &Scope, name: &Node, at: &Path) -> Result<DeclId, Stop>
    ensures { Answers (spec.sees_among scope.now (parts_of name.now) at.now) at.now result }
{
    match scope.found(name, at)? {
        Found::One(entry) => match entry.number {
            Some(number) => Ok(number),
            None => Err(scope.fault(Code::F05, at)),
        },
        Found::Unseen => Err(scope.fault(Code::F05, at)),
        Found::Several => Err(scope.fault(Code::F07, at)),
    }
}

impl Lookup for Scope {
    ghost sight = { λ scope parts place. spec.sees_among scope parts place };

    fn find(&self, name: &Node, at: &Path) -> Result<DeclId, Stop> {
        resolve(self, name, at)
    }
}
