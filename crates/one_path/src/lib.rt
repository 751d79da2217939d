//! The form of a procedure that is checked today: no branch, so one path from its entry to its end.
//!
//! Which items of a tree are of the form is defined in `specs/`: what the tree has to be (`Form`),
//! and the conditions on the names and numbers in it (`Conditions`).
#![tactic(auto)]

mod conditions;
mod form;
mod procedure;

pub use form::form_of;
pub use procedure::{Atom, Clause, Clauses, Operand, Procedure, Statement, Statements};
