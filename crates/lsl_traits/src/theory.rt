// Theories.
ghost use Rattle.std.specs.Prelude.{◌≡◌};
ghost use Rattle.lsl_traits.specs.Theories.{no_theory};

use base_kit::{Copied, Listed, Memory, Names, Numbers, Text};
use std::alloc::Global;
use term_core::{SortNames, Term};
use term_sorts::OpSorts;

/// An operator of a trait.
#[derive(Drop)]
pub struct Operator {
    pub name: Text,
    /// The marks of its arguments' sorts, in canonical text.
    pub marks: Names,
}

impl Copied for Operator {
    fn copy(&self, alloc: Global) -> Result<Self, Memory> {
        Ok(Operator {
            name: self.name.copy(alloc)?,
            marks: self.marks.copy(alloc)?,
        })
    }
}

/// The operators of all traits in document order: their numbers are their places here, from 0.
pub type Operators = Listed<Operator>;

/// A sort whose values are the terms of its generators.
#[derive(Drop)]
pub struct GeneratedSort {
    pub name: Text,
    /// The numbers of its generators among all operators, in order.
    pub generators: Numbers,
}

impl Copied for GeneratedSort {
    fn copy(&self, alloc: Global) -> Result<Self, Memory> {
        Ok(GeneratedSort {
            name: self.name.copy(alloc)?,
            generators: self.generators.copy(alloc)?,
        })
    }
}

/// The generated sorts of all traits in document order: their numbers are their places here, from 0.
pub type GeneratedSorts = Listed<GeneratedSort>;

/// What an operator's application is equal to.
#[derive(Drop)]
pub struct Equation {
    /// The names of the operands; of an equation for a generator those of the generator's operands stand first,
    /// in the place of the first operand.
    pub params: Names,
    pub right: Term,
}

impl Copied for Equation {
    fn copy(&self, alloc: Global) -> Result<Self, Memory> {
        Ok(Equation {
            params: self.params.copy(alloc)?,
            right: self.right.copy(alloc)?,
        })
    }
}

/// For which operator an equation is, and for which generator at its first operand, if for one.
#[derive(Drop)]
pub struct Case {
    pub op: u32,
    pub generator: Option<u32>,
    pub equation: Equation,
}

impl Copied for Case {
    fn copy(&self, alloc: Global) -> Result<Self, Memory> {
        Ok(Case {
            op: self.op,
            generator: self.generator,
            equation: self.equation.copy(alloc)?,
        })
    }
}

/// Equations in document order.
pub type Cases = Listed<Case>;

/// What the traits so far make.
#[derive(Drop)]
pub struct Theory {
    pub operators: Operators,
    pub sorts: GeneratedSorts,
    pub equations: Cases,
    /// The sorts of the operators' operands and results, and of what the list of type names makes.
    pub op_sorts: OpSorts,
    /// The types and components that terms of proofs name.
    pub types: SortNames,
}

impl Theory {
    /// Where there is no trait. It takes no memory.
    pub fn new(alloc: Global) -> Theory
        ensures { result ≡ no_theory }
    {
        Theory {
            operators: Listed::new(alloc),
            sorts: Listed::new(alloc),
            equations: Listed::new(alloc),
            op_sorts: Listed::new(alloc),
            types: SortNames::new(alloc),
        }
    }
}

impl Copied for Theory {
    fn copy(&self, alloc: Global) -> Result<Self, Memory> {
        Ok(Theory {
            operators: self.operators.copy(alloc)?,
            sorts: self.sorts.copy(alloc)?,
            equations: self.equations.copy(alloc)?,
            op_sorts: self.op_sorts.copy(alloc)?,
            types: self.types.copy(alloc)?,
        })
    }
}
