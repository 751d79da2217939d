// What a name is found to be.
ghost use Rattle.std.specs.Prelude.{◌≡◌};
ghost use Rattle.std.specs.Option.{option_copied};
ghost use Rattle.ada_names.specs.Sees as spec;
ghost use Rattle.scope_rules.specs.Findings.{found_copied};

use ada_names::Entry;
use ada_tree::Kind;

/// Nothing, one declaration, or those of several used packages.
#[derive(Clone, Copy)]
pub enum Found<'a> {
    Unseen,
    One(&'a Entry),
    Several,
}

// Variables, constants, numbers, enumeration literals, formals and loop parameters.
fn is_value(kind: Kind) -> bool
    ensures { result ≡ spec.is_value kind }
{
    match kind {
        Kind::Obj
        | Kind::Const
        | Kind::Num
        | Kind::Enum
        | Kind::Formal
        | Kind::For
        | Kind::Reverse => true,
        _ => false,
    }
}

impl<'a> Found<'a> {
    /// With what one more `use` clause shows.
    pub fn joined(self, shown: Option<&'a Entry>) -> Found<'a>
        ensures { found_copied result ≡ spec.joined (found_copied self.entry) (option_copied shown.entry) }
    {
        match (self, shown) {
            (found, None) => found,
            (Found::Unseen, Some(entry)) => Found::One(entry),
            (Found::One(first), Some(entry)) => {
                if first.place.0.as_slice() == entry.place.0.as_slice() {
                    Found::One(first)
                } else {
                    Found::Several
                }
            }
            (Found::Several, Some(_)) => Found::Several,
        }
    }

    /// A direct declaration hides it.
    pub fn or_direct(self, direct: Option<&'a Entry>) -> Found<'a>
        ensures { found_copied result ≡ spec.or_else (option_copied direct.entry) (found_copied self.entry) }
    {
        match direct {
            Some(entry) => Found::One(entry),
            None => self,
        }
    }

    /// An operator comes before it, where it is no object.
    pub fn or_operator(self, operator: Option<&'a Entry>) -> Found<'a>
        ensures { found_copied result ≡ spec.object_first (option_copied operator.entry) (found_copied self.entry) }
    {
        match (self, operator) {
            (Found::One(entry), _) if is_value(entry.kind) || entry.number.is_none() => self,
            (found, None) => found,
            (_, Some(operator)) => Found::One(operator),
        }
    }
}
