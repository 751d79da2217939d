//! What holds of all terms: their values, substitution and counts. Each law is the contract of a
//! function that does nothing.
#![tactic(auto)]

mod settled;
mod substitution;
mod values;

pub use settled::{
    settled_quantifiers, settled_terms_have_one_value, settled_values, terms_settle,
};
pub use substitution::{results_are_normal, substitution_keeps_values, substitutions_compose};
pub use values::{defaults_follow_from_shapes, values_depend_on_free_names, values_stay};
