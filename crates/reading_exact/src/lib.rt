//! The reading table, read a token at a time, reads exactly the texts of the grammar.
//!
//! This is a law alone, in a crate of its own: so a change of the table's code proves it anew once,
//! and no wrong body of that code does.
#![tactic(auto)]

mod laws;

pub use laws::the_table_reads_the_grammar;
