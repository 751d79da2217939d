//! Reading the tokens of a source by the table: to their end, or as far as may be.
#![tactic(auto)]

mod front;
mod reading;
mod sign;

pub use front::{Ending, last_end};
pub use reading::{Counted, Reading, read_counted, read_text, read_tokens};
