//! The theories that traits make: operators with their sorts, generated sorts, equations.
#![tactic(auto)]

mod theory;

pub use theory::{
    Case, Cases, Equation, GeneratedSort, GeneratedSorts, Operator, Operators, Theory,
};
