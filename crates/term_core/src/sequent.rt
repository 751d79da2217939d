// Sequents.
use crate::{Sort, Term, Terms};
use base_kit::{Copied, Listed, Memory, Text};
use std::alloc::Global;

/// A variable: its name, the subtype that is printed for it, and its sort.
#[derive(Drop)]
pub struct Var {
    pub name: Text,
    pub label: Text,
    pub sort: Sort,
}

impl Copied for Var {
    fn copy(&self, alloc: Global) -> Result<Self, Memory> {
        Ok(Var {
            name: self.name.copy(alloc)?,
            label: self.label.copy(alloc)?,
            sort: self.sort.copy(alloc)?,
        })
    }
}

/// Variables in order.
pub type Vars = Listed<Var>;

/// For all values of the variables, the hypotheses imply the goal.
#[derive(Drop)]
pub struct Sequent {
    pub vars: Vars,
    pub hyps: Terms,
    pub goal: Term,
}

impl Copied for Sequent {
    fn copy(&self, alloc: Global) -> Result<Self, Memory> {
        Ok(Sequent {
            vars: self.vars.copy(alloc)?,
            hyps: self.hyps.copy(alloc)?,
            goal: self.goal.copy(alloc)?,
        })
    }
}
