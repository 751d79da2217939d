//! The reading table of the grammar.
#![tactic(auto)]

mod held;
mod laws;
mod need;
mod notation;
mod rows;
mod rule;
mod starts;
mod symbol;

pub use held::Held;
pub use laws::{reading_stops_where_no_tokens_go_on, the_next_token_tells_the_row};
pub use need::{Height, Mass, Need, Sort};
pub use rows::{Entry, Row, entry};
pub use rule::Rule;
pub use starts::STARTS;
pub use symbol::{Form, Symbol, Tokens};
