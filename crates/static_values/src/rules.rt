// The rules of expressions, one node at a time.
ghost use Rattle.std.specs.Prelude.{◌≡◌, ◌+ℤ◌, ◌-ℤ◌, ◌*ℤ◌, neg_ℤ, min, ◌^◌, ◌-◌};
ghost use Rattle.static_values.specs.Rules as spec;
ghost use Rattle.static_values.specs.Entities.{is_private, class_named};

use crate::dividing::arithmetic;
use crate::entity::{BaseType, Class, Named, Subtype};
use crate::limits::{BASE_HIGH, BASE_LOW};
use crate::meaning::{Family, Meaning, Use};
use ada_tree::Operator;

impl BaseType {
    pub fn is_universal(self) -> bool
        ensures { result ≡ spec.is_universal self }
    {
        match self {
            BaseType::Universal => true,
            _ => false,
        }
    }

    pub fn is_integer(self) -> bool
        ensures { result ≡ spec.is_integer self }
    {
        match self {
            BaseType::Universal | BaseType::Integer(_) | BaseType::Unjudged => true,
            _ => false,
        }
    }

    pub fn is_discrete(self) -> bool
        ensures { result ≡ spec.is_discrete self }
    {
        match self {
            BaseType::Enumeration(_) => true,
            _ => self.is_integer(),
        }
    }

    pub fn is_truth(self) -> bool
        ensures { result ≡ spec.is_truth self }
    {
        match self {
            BaseType::Truth | BaseType::Unjudged => true,
            _ => false,
        }
    }

    pub fn is_same(self, other: BaseType) -> bool
        ensures { result ≡ spec.is_same_type self other }
    {
        match (self, other) {
            (BaseType::Integer(a), BaseType::Integer(b)) => a == b,
            (BaseType::Enumeration(a), BaseType::Enumeration(b)) => a == b,
            (BaseType::Composite(a), BaseType::Composite(b)) => a == b,
            (BaseType::Truth, BaseType::Truth) => true,
            (_, BaseType::Unjudged) => true,
            (BaseType::Unjudged, _) => true,
            _ => false,
        }
    }

    /// Whether an expression of this type has the other too.
    pub fn fits(self, other: BaseType) -> bool
        ensures { result ≡ spec.fits self other }
    {
        if self.is_universal() {
            other.is_integer()
        } else {
            self.is_same(other)
        }
    }

    pub fn agrees(self, other: BaseType) -> bool
        ensures { result ≡ spec.agree self other }
    {
        self.fits(other) || other.fits(self)
    }

    pub fn joined(self, other: BaseType) -> BaseType
        ensures { result ≡ spec.joined self other }
    {
        if self.is_universal() { other } else { self }
    }
}

impl Class {
    pub fn is_private(self) -> bool
        ensures { result ≡ is_private self }
    {
        match self {
            Class::Private => true,
            _ => false,
        }
    }

    /// That of the type of this number.
    pub fn base_type(self, id: u32) -> BaseType
        ensures { result ≡ spec.base_type self id }
    {
        match self {
            Class::Integer => BaseType::Integer(id),
            Class::Enumeration => BaseType::Enumeration(id),
            Class::Truth => BaseType::Truth,
            Class::Array(_) | Class::Record | Class::Private => BaseType::Composite(id),
            Class::Unknown => BaseType::Unjudged,
        }
    }
}

impl Named {
    /// What its type is.
    pub fn class(self) -> Class
        ensures { result ≡ class_named self }
    {
        match self {
            Named::Mark(_, class) => class,
            _ => Class::Unknown,
        }
    }

    /// The subtype that a mark stands for.
    pub fn subtype(self) -> Subtype
        ensures { result ≡ spec.subtype_of self }
    {
        match self {
            Named::Mark(subtype, _) => subtype,
            _ => Subtype {
                base: 0,
                entry: 0,
                low: 0,
                high: 0,
            },
        }
    }

    /// Its type.
    pub fn base_type(self) -> BaseType
        ensures { result ≡ spec.type_of self }
    {
        match self {
            Named::Mark(subtype, class) => class.base_type(subtype.base),
            _ => BaseType::Unjudged,
        }
    }
}

fn is_within(low: i64, high: i64, value: i64) -> bool
    ensures { result ≡ spec.is_within low high value }
{
    low <= value && value <= high
}

fn in_base(value: i64) -> bool
    ensures { result ≡ spec.in_base value }
{
    is_within(BASE_LOW, BASE_HIGH, value)
}

/// That of an expression that isn't static.
pub fn whole(base: BaseType) -> Meaning
    ensures { result ≡ spec.whole base }
{
    Meaning {
        base,
        value: None,
        overflows: false,
    }
}

/// That of what isn't judged here, and of what has a fault.
pub fn unknown() -> Meaning
    ensures { result ≡ spec.unknown }
{
    whole(BaseType::Unjudged)
}

/// That of a static expression without a value.
pub(crate) fn overflow(base: BaseType) -> Meaning
    ensures { result ≡ spec.overflow base }
{
    Meaning {
        base,
        value: None,
        overflows: true,
    }
}

/// That of a static expression.
pub fn fixed(base: BaseType, value: i64) -> Meaning
    ensures { result ≡ spec.static base value }
{
    if in_base(value) {
        Meaning {
            base,
            value: Some(value),
            overflows: false,
        }
    } else {
        overflow(base)
    }
}

/// The value of what has one.
pub fn value_of(meaning: &Meaning) -> i64
    ensures { result ≡ spec.value_of meaning.now }
{
    match meaning.value {
        Some(value) => value,
        None => 0,
    }
}

/// What a name means as an expression.
pub fn meant(named: Named) -> Meaning
    ensures { result ≡ spec.meant named }
{
    match named {
        Named::Object(subtype, class) => whole(class.base_type(subtype.base)),
        Named::Static(subtype, class, value) => fixed(class.base_type(subtype.base), value),
        Named::Number(value) => fixed(BaseType::Universal, value),
        Named::Part(base) => whole(base),
        _ => unknown(),
    }
}

/// Whether what a name stands for is no expression.
pub fn has_no_value(named: Named) -> bool
    ensures { result ≡ spec.has_no_value named }
{
    match named {
        Named::Mark(_, _) | Named::Valueless => true,
        _ => false,
    }
}

/// Whether the operand of an operator has a type that it takes.
pub fn takes1(operator: Operator, base: BaseType) -> bool
    ensures { result ≡ spec.takes1 operator base }
{
    match operator {
        Operator::Not => base.is_truth(),
        _ => base.is_integer(),
    }
}

fn family(operator: Operator) -> Family
    ensures { result ≡ spec.family_of operator }
{
    match operator {
        Operator::Equal | Operator::NotEqual => Family::Equality,
        Operator::Less | Operator::LessEqual | Operator::Greater | Operator::GreaterEqual => {
            Family::Order
        }
        Operator::Add
        | Operator::Subtract
        | Operator::Multiply
        | Operator::Divide
        | Operator::Mod
        | Operator::Rem => Family::Arithmetic,
        _ => Family::Logical,
    }
}

fn family_takes(family: Family, left: BaseType, right: BaseType) -> bool
    ensures { result ≡ spec.takes2 family left right }
{
    match family {
        Family::Logical => left.is_truth() && right.is_truth(),
        Family::Equality => left.agrees(right),
        Family::Order => left.agrees(right) && left.is_discrete() && right.is_discrete(),
        Family::Arithmetic => left.agrees(right) && left.is_integer() && right.is_integer(),
    }
}

/// Whether the operands of an operator have a type in common that it takes.
pub fn takes2(operator: Operator, left: BaseType, right: BaseType) -> bool
    ensures { result ≡ spec.takes2 (spec.family_of operator) left right }
{
    family_takes(family(operator), left, right)
}

pub(crate) fn sum(base: BaseType, left: i64, right: i64) -> Meaning
    ensures { result ≡ spec.static base (left +ℤ right) }
{
    match left.checked_add(right) {
        Some(value) => fixed(base, value),
        None => overflow(base),
    }
}

pub(crate) fn difference(base: BaseType, left: i64, right: i64) -> Meaning
    ensures { result ≡ spec.static base (left -ℤ right) }
{
    match left.checked_sub(right) {
        Some(value) => fixed(base, value),
        None => overflow(base),
    }
}

pub(crate) fn product(base: BaseType, left: i64, right: i64) -> Meaning
    ensures { result ≡ spec.static base (left *ℤ right) }
{
    match left.checked_mul(right) {
        Some(value) => fixed(base, value),
        None => overflow(base),
    }
}

fn negation(base: BaseType, value: i64) -> Meaning
    ensures { result ≡ spec.static base (neg_ℤ value) }
{
    match value.checked_neg() {
        Some(value) => fixed(base, value),
        None => overflow(base),
    }
}

fn computed1(operator: Operator, base: BaseType, value: i64) -> Meaning
    ensures { result ≡ spec.static base (spec.computed1 operator value) }
{
    match operator {
        Operator::Minus => negation(base, value),
        Operator::Abs if value < 0 => negation(base, value),
        _ => fixed(base, value),
    }
}

/// What an operator with one operand means.
pub fn unary(operator: Operator, operand: &Meaning) -> Meaning
    ensures { result ≡ spec.unary_meaning operator operand.now }
{
    match operator {
        Operator::Not => whole(BaseType::Truth),
        _ => match operand.value {
            Some(value) => computed1(operator, operand.base, value),
            None => whole(operand.base),
        },
    }
}

/// What an operator with two operands means.
pub fn binary(operator: Operator, left: &Meaning, right: &Meaning) -> Meaning
    ensures { result ≡ spec.binary_meaning operator left.now right.now }
{
    match family(operator) {
        Family::Arithmetic => arithmetic(
            operator,
            left.base.joined(right.base),
            left.value,
            right.value,
        ),
        Family::Logical | Family::Equality | Family::Order => whole(BaseType::Truth),
    }
}

/// Whether a use asks for a static value.
pub fn must_be_static(usage: Use) -> bool
    ensures { result ≡ spec.must_be_static usage }
{
    match usage {
        Use::Static | Use::Stored(_, _) => true,
        _ => false,
    }
}

fn is_outside(subtype: Subtype, value: Option<i64>) -> bool
    ensures { result ≡ spec.is_outside subtype value }
{
    match value {
        Some(value) => !is_within(subtype.low, subtype.high, value),
        None => false,
    }
}

/// Whether its value lies outside what its use allows.
pub fn misses(usage: Use, meaning: &Meaning) -> bool
    ensures { result ≡ spec.misses usage meaning.now }
{
    match usage {
        Use::Initial(subtype, base) | Use::Stored(subtype, base) => {
            meaning.base.fits(base) && is_outside(subtype, meaning.value)
        }
        _ => false,
    }
}

/// Whether it must be static and isn't.
pub fn is_not_static(usage: Use, meaning: &Meaning) -> bool
    ensures { result ≡ spec.is_not_static usage meaning.now }
{
    must_be_static(usage) && meaning.value.is_none() && !meaning.overflows
}

/// Whether it has no value in the base range, or one outside what its use allows.
pub fn has_bad_value(usage: Use, meaning: &Meaning) -> bool
    ensures { result ≡ spec.has_bad_value usage meaning.now }
{
    meaning.overflows || misses(usage, meaning)
}

fn number(text: &[u8]) -> u64
    ensures { result ≡ min (spec.number_of 0 text.now) (2 ^ 64 - 1) }
{
    let mut value: u64 = 0;
    for digit in text {
        value = value
            .saturating_mul(10)
            .saturating_add(digit.saturating_sub(48) as u64);
    }
    value
}

/// What a literal means.
pub fn literal(text: &[u8]) -> Meaning
    ensures { result ≡ spec.literal text.now }
{
    match i64::try_from(number(text)) {
        Ok(value) => fixed(BaseType::Universal, value),
        Err(_) => overflow(BaseType::Universal),
    }
}
