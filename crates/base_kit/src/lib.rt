//! Texts, names, paths, faults and counted steps: what every other crate speaks of.
#![tactic(auto)]

mod fault;
mod lists;
mod steps;

pub use fault::{Code, Fault, Memory, Place, Stop};
pub use lists::{Bounds, Copied, Listed, Names, Numbers, Path, Text};
pub use steps::{Ledger, Steps, Tally};
