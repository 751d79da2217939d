//! What is spelled is read by the reading table.
//!
//! It is a law alone, in a crate of its own: so a change of the code below proves it anew once, and no
//! wrong body of that code does.
#![tactic(auto)]

mod laws;

pub use laws::what_is_spelled_is_read;
