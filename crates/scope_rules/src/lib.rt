//! What names see, and which declarations and clauses are duplicates.
#![tactic(auto)]

mod claims;
mod clauses;
mod context;
mod found;
mod outward;
mod resolving;
mod scope;
mod terms;
mod used;

pub use claims::{declared, distinct};
pub use resolving::resolve;
pub use scope::Scope;
