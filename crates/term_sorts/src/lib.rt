//! The sorts of terms.
#![tactic(auto)]

mod sorting;

pub use sorting::{OpSort, OpSorts, sort_of};
