// Specifications of units.
ghost use Rattle.std.specs.Prelude.{◌≡◌, IfOk};

use ada_tree::DeclId;
use base_kit::{Copied, Listed, Memory, Text};
use std::alloc::Global;
use term_core::{Sort, Term, Terms};

/// How a formal or a global is used by its unit.
#[derive(Clone, Copy, Debug, PartialEq, Eq)]
pub enum Mode {
    In,
    InOut,
    Out,
}

/// A formal, a global, or the result of a function.
#[derive(Drop)]
pub struct Formal {
    /// A global has its expanded name, the result the name `return`.
    pub name: Text,
    /// That of a result is `Out`.
    pub mode: Mode,
    /// The subtype as it is printed.
    pub label: Text,
    /// The sort of the subtype.
    pub sort: Sort,
    /// The private type that it is of, where the specification sees it as private.
    pub hidden: Option<DeclId>,
}

impl Copied for Formal {
    fn copy(&self, alloc: Global) -> Result<Self, Memory> {
        Ok(Formal {
            name: self.name.copy(alloc)?,
            mode: self.mode,
            label: self.label.copy(alloc)?,
            sort: self.sort.copy(alloc)?,
            hidden: self.hidden,
        })
    }
}

/// Formals in order.
pub type Formals = Listed<Formal>;

/// An exception that a unit may raise, and what holds then.
#[derive(Drop)]
pub struct Raise {
    /// The number of the exception among all exceptions, from 0.
    pub exception: u32,
    /// In it a formal X is `in X`, a global X is its last value.
    pub clause: Term,
}

impl Copied for Raise {
    fn copy(&self, alloc: Global) -> Result<Self, Memory> {
        Ok(Raise {
            exception: self.exception,
            clause: self.clause.copy(alloc)?,
        })
    }
}

/// Exceptions in the order of the specification's clauses.
pub type Raises = Listed<Raise>;

/// What is promised of a unit.
#[derive(Drop)]
pub struct Spec {
    pub formals: Formals,
    /// Package variables, in the order of the `global` clauses.
    pub globals: Formals,
    /// Of a function.
    pub result: Option<Formal>,
    /// What holds at entry: the `in` clauses in order.
    pub pre: Terms,
    /// What holds at a return: the `out` clauses in order. In them X is the last value, `in X` that at entry.
    pub post: Terms,
    pub raises: Raises,
}

// The copy of a result, or of none.
fn copy_result(formal: &Option<Formal>, alloc: Global) -> Result<Option<Formal>, Memory>
    ensures { IfOk result (λ same. same ≡ formal.now) }
{
    Ok(match formal {
        Some(formal) => Some(formal.copy(alloc)?),
        None => None,
    })
}

impl Copied for Spec {
    fn copy(&self, alloc: Global) -> Result<Self, Memory> {
        Ok(Spec {
            formals: self.formals.copy(alloc)?,
            globals: self.globals.copy(alloc)?,
            result: copy_result(&self.result, alloc)?,
            pre: self.pre.copy(alloc)?,
            post: self.post.copy(alloc)?,
            raises: self.raises.copy(alloc)?,
        })
    }
}
