// Terms.
ghost use Rattle.std.specs.Prelude.{◌≡◌, IfOk};

use base_kit::{Copied, Memory, Text};
use sqlite_items::{Boxed, Items};
use std::alloc::Global;

/// The operators of terms. There is none for `/=`, which is `not` of `=`.
#[derive(Clone, Copy, Debug)]
pub enum Oper {
    Add,
    Sub,
    Mul,
    Div,
    Rem,
    Mod,
    Neg,
    Abs,
    Eq,
    Lt,
    Le,
    Gt,
    Ge,
    And,
    Or,
    Xor,
    Not,
    Implies,
    Iff,
    If,
    /// An element of a list, at an index.
    Select,
    /// A list with the element at an index replaced.
    Store,
    /// The component of this number, counted over the components of all types.
    Field(u32),
    /// A record with the component of this number replaced.
    Update(u32),
    /// The list of one element at each index, of the array type with this entry.
    Fill(u32),
    /// The record of components, of the record type with this entry.
    Make(u32),
    /// The declared operator of this number.
    User(u32),
}

/// A formula or an expression of the logic.
#[derive(Drop)]
pub enum Term {
    Int(i128),
    Truth(bool),
    Var(Text),
    Op(Oper, Terms),
    /// The name, and the low bound, the high bound and the body of `for all`.
    All(Text, Boxed<Term>, Boxed<Term>, Boxed<Term>),
    /// The name, and the low bound, the high bound and the body of `exists`.
    Some(Text, Boxed<Term>, Boxed<Term>, Boxed<Term>),
}

/// Terms in order.
pub type Terms = Items<Term>;

impl Copied for Term {
    #[cycle(copy)]
    fn copy(&self, alloc: Global) -> Result<Self, Memory> {
        Ok(match self {
            Term::Int(value) => Term::Int(*value),
            Term::Truth(value) => Term::Truth(*value),
            Term::Var(name) => Term::Var(name.copy(alloc)?),
            Term::Op(oper, terms) => Term::Op(*oper, copy_operands(terms, alloc)?),
            Term::All(name, low, high, body) => Term::All(
                name.copy(alloc)?,
                Boxed::new(alloc, low.get().copy(alloc)?)?,
                Boxed::new(alloc, high.get().copy(alloc)?)?,
                Boxed::new(alloc, body.get().copy(alloc)?)?,
            ),
            Term::Some(name, low, high, body) => Term::Some(
                name.copy(alloc)?,
                Boxed::new(alloc, low.get().copy(alloc)?)?,
                Boxed::new(alloc, high.get().copy(alloc)?)?,
                Boxed::new(alloc, body.get().copy(alloc)?)?,
            ),
        })
    }
}

// The copy of a list inside a term: the generic one can't be part of the recursion.
#[cycle(copy)]
fn copy_operands(operands: &Terms, alloc: Global) -> Result<Terms, Memory>
    ensures { IfOk result (λ same. same ≡ operands.now) }
{
    let mut terms = Items::new(alloc);
    for term in operands.as_slice() {
        terms.push(term.copy(alloc)?)?;
    }
    Ok(terms)
}
