//! Linear certificates: whether a weighted sum of a sequent's facts is a contradiction.
#![tactic(auto)]

mod bounds;
mod closing;
mod facts;
mod lanes;
mod laws;
mod limits;
mod shapes;

pub use closing::closes;
pub use laws::closing_sequents_are_valid;
