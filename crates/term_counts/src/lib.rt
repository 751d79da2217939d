//! The counts of terms, from which the size and the depth after a substitution are found before it
//! is made.
#![tactic(auto)]

mod counting;

pub use counting::{
    Measure, Measures, NameCount, NameCounts, TermCounts, counts_of, put_depth, put_size,
};
