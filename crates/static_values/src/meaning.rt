// What expressions mean, and how they are used.
use crate::entity::{BaseType, Subtype};

/// What an expression means.
#[derive(Clone, Copy)]
pub struct Meaning {
    pub base: BaseType,
    /// Of a static expression, within the base range.
    pub value: Option<i64>,
    /// It is static, but it has no value within the base range.
    pub overflows: bool,
}

/// How an expression is used.
#[derive(Clone, Copy)]
pub enum Use {
    Read,
    /// It must be static.
    Static,
    /// It is the value of a constant of this subtype, whose type has this base.
    Initial(Subtype, BaseType),
    /// It is the initial value of such a variable or constant of a package, and must be static.
    Stored(Subtype, BaseType),
}

/// The families of operators with two operands.
#[derive(Clone, Copy)]
pub enum Family {
    Logical,
    Equality,
    Order,
    Arithmetic,
}
