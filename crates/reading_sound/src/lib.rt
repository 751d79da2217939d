//! What the reading table reads is what the grammar spells.
//!
//! This is a law alone, in a crate of its own: so a change of the table's code proves it anew once,
//! and no wrong body of that code does.
#![tactic(auto)]

mod laws;

pub use laws::what_is_read_is_spelled;
