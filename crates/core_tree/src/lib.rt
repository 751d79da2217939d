//! The typed core of units: what a checked unit means, without names, types and order of declarations.
//!
//! Objects, units, exceptions, entries and components are numbers here, sorts stand for subtypes, and a static
//! expression is its value. Assertions, invariants and specifications are terms.
#![tactic(auto)]

mod calls;
mod expr;
mod spec;
mod stmt;
mod unit;
mod units;

pub use calls::mentions;
pub use expr::{CoreExpr, Exprs};
pub use spec::{Formal, Formals, Mode, Raise, Raises, Spec};
pub use stmt::{Alt, Alts, Block, CoreStmt, Handler, Handlers, Init, Inits};
pub use unit::{CoreUnit, Paths};
pub use units::{UnitSpec, UnitSpecs, Units};
