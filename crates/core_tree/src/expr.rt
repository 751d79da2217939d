// Expressions of the core.
ghost use Rattle.std.specs.Prelude.{◌≡◌, IfOk};

use ada_tree::DeclId;
use base_kit::{Copied, Memory};
use sqlite_items::{Boxed, Items};
use std::alloc::Global;
use term_core::{Oper, Sort};

/// An expression of a unit. A static one is a `Lit`; an enumeration value is its position.
#[derive(Drop)]
pub enum CoreExpr {
    /// A whole number or a position.
    Lit(i64),
    Truth(bool),
    /// The value of the object of this number among the unit's objects, from 0.
    Get(u32),
    /// An element of an array, at an index.
    Select(Boxed<CoreExpr>, Boxed<CoreExpr>),
    /// The component of this number, counted over the components of all types.
    Field(Boxed<CoreExpr>, u32),
    /// `Neg`, `Abs` or `Not`.
    Unary(Oper, Boxed<CoreExpr>),
    /// `Add`, `Sub`, `Mul`, `Div`, `Rem`, `Mod`, `Eq`, `Lt`, `Le`, `Gt`, `Ge`, `And`, `Or` or `Xor`. (`A /= B` is `Not` of `Eq`.)
    Binary(Oper, Boxed<CoreExpr>, Boxed<CoreExpr>),
    AndThen(Boxed<CoreExpr>, Boxed<CoreExpr>),
    OrElse(Boxed<CoreExpr>, Boxed<CoreExpr>),
    /// Whether the first lies from the second to the third.
    Within(Boxed<CoreExpr>, Boxed<CoreExpr>, Boxed<CoreExpr>),
    /// The next value of a type whose last one has this position.
    Succ(Boxed<CoreExpr>, i64),
    /// The value before, of a type whose first and last ones have these positions.
    Pred(Boxed<CoreExpr>, i64, i64),
    /// `T'POS` of a value, and a unary `+`: the value itself, which is no object.
    Pos(Boxed<CoreExpr>),
    /// A conversion: the sort of the subtype, and that of its whole base type.
    Convert(Boxed<CoreExpr>, Sort, Sort),
    /// A function's result. The call's number in text order of the body, from 1; the unit; an actual for each formal.
    Call(u32, DeclId, Exprs),
    /// One value at each index, of the array type with this entry.
    Fill(u32, Boxed<CoreExpr>),
    /// An array with the element at an index replaced: the array, the index, the value.
    Put(Boxed<CoreExpr>, i64, Boxed<CoreExpr>),
    /// The components in order, of the record type with this entry.
    Make(u32, Exprs),
    /// An aggregate: its values in text order, each evaluated once; and the `Fill`, `Put`s or `Make` over them.
    Aggregate(Exprs, Boxed<CoreExpr>),
    /// In the second part of an aggregate, its value of this number, from 0.
    Given(u32),
}

/// Expressions in order.
pub type Exprs = Items<CoreExpr>;

// The copy of an expression inside another.
#[cycle(copy_expr)]
fn copy_part(part: &Boxed<CoreExpr>, alloc: Global) -> Result<Boxed<CoreExpr>, Memory>
    ensures { IfOk result (λ same. same ≡ part.now) }
{
    Ok(Boxed::new(alloc, part.get().copy(alloc)?)?)
}

// The copy of a list inside an expression: the generic one can't be part of the recursion.
#[cycle(copy_expr)]
fn copy_parts(parts: &Exprs, alloc: Global) -> Result<Exprs, Memory>
    ensures { IfOk result (λ same. same ≡ parts.now) }
{
    let mut exprs = Items::new(alloc);
    for expr in parts.as_slice() {
        exprs.push(expr.copy(alloc)?)?;
    }
    Ok(exprs)
}

impl Copied for CoreExpr {
    #[cycle(copy_expr)]
    fn copy(&self, alloc: Global) -> Result<Self, Memory> {
        Ok(match self {
            CoreExpr::Lit(value) => CoreExpr::Lit(*value),
            CoreExpr::Truth(value) => CoreExpr::Truth(*value),
            CoreExpr::Get(object) => CoreExpr::Get(*object),
            CoreExpr::Select(array, index) => {
                CoreExpr::Select(copy_part(array, alloc)?, copy_part(index, alloc)?)
            }
            CoreExpr::Field(record, component) => {
                CoreExpr::Field(copy_part(record, alloc)?, *component)
            }
            CoreExpr::Unary(oper, operand) => CoreExpr::Unary(*oper, copy_part(operand, alloc)?),
            CoreExpr::Binary(oper, left, right) => {
                CoreExpr::Binary(*oper, copy_part(left, alloc)?, copy_part(right, alloc)?)
            }
            CoreExpr::AndThen(left, right) => {
                CoreExpr::AndThen(copy_part(left, alloc)?, copy_part(right, alloc)?)
            }
            CoreExpr::OrElse(left, right) => {
                CoreExpr::OrElse(copy_part(left, alloc)?, copy_part(right, alloc)?)
            }
            CoreExpr::Within(value, low, high) => CoreExpr::Within(
                copy_part(value, alloc)?,
                copy_part(low, alloc)?,
                copy_part(high, alloc)?,
            ),
            CoreExpr::Succ(value, last) => CoreExpr::Succ(copy_part(value, alloc)?, *last),
            CoreExpr::Pred(value, first, last) => {
                CoreExpr::Pred(copy_part(value, alloc)?, *first, *last)
            }
            CoreExpr::Pos(value) => CoreExpr::Pos(copy_part(value, alloc)?),
            CoreExpr::Convert(value, sort, whole) => CoreExpr::Convert(
                copy_part(value, alloc)?,
                sort.copy(alloc)?,
                whole.copy(alloc)?,
            ),
            CoreExpr::Call(number, unit, actuals) => {
                CoreExpr::Call(*number, *unit, copy_parts(actuals, alloc)?)
            }
            CoreExpr::Fill(entry, value) => CoreExpr::Fill(*entry, copy_part(value, alloc)?),
            CoreExpr::Put(array, index, value) => {
                CoreExpr::Put(copy_part(array, alloc)?, *index, copy_part(value, alloc)?)
            }
            CoreExpr::Make(entry, parts) => CoreExpr::Make(*entry, copy_parts(parts, alloc)?),
            CoreExpr::Aggregate(values, shape) => {
                CoreExpr::Aggregate(copy_parts(values, alloc)?, copy_part(shape, alloc)?)
            }
            CoreExpr::Given(value) => CoreExpr::Given(*value),
        })
    }
}
