//! The machine that reads by the table, one token at a time.
#![tactic(auto)]

mod choosing;
mod lexeme;
mod load;
mod machine;
mod masses;
mod measured;
mod pending;
mod sight;
mod stack;
mod values;
mod ways;

pub use lexeme::{Lexeme, Token};
pub use machine::{Fed, Machine};
pub use values::{Values, passes};
