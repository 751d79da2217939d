// What attributes mean.
ghost use Rattle.std.specs.Prelude.{◌≡◌};
ghost use Rattle.static_values.specs.Rules as spec;

use crate::attribute::Attribute;
use crate::entity::{BaseType, Class, Named, Subtype};
use crate::meaning::Meaning;
use crate::rules::{fixed, unknown, whole};

/// The range that FIRST and LAST tell.
#[derive(Clone, Copy)]
pub enum Range {
    Bounds(BaseType, i64, i64),
    Without,
    Unjudged,
}

fn of_class(class: Class, subtype: Subtype) -> Range
    ensures { spec.bounds_in result ≡ spec.bounds_of_class class subtype }
{
    match class {
        Class::Integer => {
            Range::Bounds(BaseType::Integer(subtype.base), subtype.low, subtype.high)
        }
        Class::Enumeration => {
            Range::Bounds(
                BaseType::Enumeration(subtype.base),
                subtype.low,
                subtype.high,
            )
        }
        Class::Array(index) => Range::Bounds(index.base, index.low, index.high),
        Class::Truth | Class::Record | Class::Private => Range::Without,
        Class::Unknown => Range::Unjudged,
    }
}

fn of_object(class: Class) -> Range
    ensures { spec.bounds_in result ≡ spec.bounds_of_object class }
{
    match class {
        Class::Array(index) => Range::Bounds(index.base, index.low, index.high),
        Class::Unknown => Range::Unjudged,
        _ => Range::Without,
    }
}

impl Named {
    fn bounds(self) -> Range
        ensures { spec.bounds_in result ≡ spec.bounds_of self }
    {
        match self {
            Named::Mark(subtype, class) => of_class(class, subtype),
            Named::Object(_, class) => of_object(class),
            Named::Unkept => Range::Unjudged,
            _ => Range::Without,
        }
    }

    fn has_positions(self) -> bool
        ensures { result ≡ spec.has_positions self }
    {
        match self {
            Named::Mark(_, Class::Integer | Class::Enumeration | Class::Unknown) => true,
            Named::Unkept => true,
            _ => false,
        }
    }
}

fn is_without(range: Range) -> bool
    ensures { result ≡ spec.is_without (spec.bounds_in range) }
{
    match range {
        Range::Without => true,
        _ => false,
    }
}

/// Whether what stands before the tick hasn't this attribute.
pub fn lacks(attribute: Option<Attribute>, named: Named) -> bool
    ensures { result ≡ spec.lacks attribute (spec.bounds_of named) }
{
    match attribute {
        Some(Attribute::First | Attribute::Last) => is_without(named.bounds()),
        _ => true,
    }
}

fn bound(attribute: Option<Attribute>, range: Range) -> Meaning
    ensures { result ≡ spec.bound_meaning attribute (spec.bounds_in range) }
{
    match (attribute, range) {
        (Some(Attribute::First), Range::Bounds(base, low, _)) => fixed(base, low),
        (Some(Attribute::Last), Range::Bounds(base, _, high)) => fixed(base, high),
        _ => unknown(),
    }
}

/// What an attribute without an argument means.
pub fn attribute(attribute: Option<Attribute>, named: Named) -> Meaning
    ensures { result ≡ spec.bound_meaning attribute (spec.bounds_of named) }
{
    bound(attribute, named.bounds())
}

/// Whether what stands before the tick hasn't this attribute of an argument.
pub fn lacks_positions(attribute: Option<Attribute>, named: Named) -> bool
    ensures { result ≡ spec.lacks_positions attribute named }
{
    match attribute {
        Some(Attribute::Succ | Attribute::Pred | Attribute::Pos) => !named.has_positions(),
        Some(Attribute::First | Attribute::Last) => false,
        None => true,
    }
}

/// The type of the argument.
pub fn taken(attribute: Option<Attribute>, named: Named) -> BaseType
    ensures { result ≡ spec.taken attribute named }
{
    match (attribute, named) {
        (Some(Attribute::Succ | Attribute::Pred | Attribute::Pos), Named::Mark(subtype, class)) =>
            class.base_type(subtype.base),
        _ => BaseType::Unjudged,
    }
}

fn position(value: Option<i64>) -> Meaning
    ensures { result ≡ spec.position value }
{
    match value {
        Some(value) => fixed(BaseType::Integer(0), value),
        None => whole(BaseType::Integer(0)),
    }
}

/// What an attribute of an argument means.
pub fn applied(attribute: Option<Attribute>, named: Named, argument: &Meaning) -> Meaning
    ensures { result ≡ spec.applied_by attribute named argument.now }
{
    match attribute {
        Some(Attribute::Pos) => position(argument.value),
        _ => whole(taken(attribute, named)),
    }
}
