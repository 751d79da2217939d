//! What declarations of types, subtypes and objects add, and the list of type names.
#![tactic(auto)]

mod adding;
mod declarations;
mod limits;
mod settling;
mod sort_names;
mod types;

pub use static_values::in_range;
pub use types::{Types, static_value, type_of_decl, type_of_node};
