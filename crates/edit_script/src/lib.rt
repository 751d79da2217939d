//! Scripts of edits and queries: one JSON object a line.
//!
//! What a script is stands in `specs/`: the table of lines (`Lines`), which `Table` computes, and what a
//! script gives (`Scripts`).
#![tactic(auto)]

mod command;
mod form;
mod laws;
mod line;
mod script;
mod values;

pub use command::{Command, Edit, Edits, Line, Query};
pub use laws::{commands_are_those_of_the_table, whole_numbers_are_digits};
pub use script::{ScriptError, read_script};
