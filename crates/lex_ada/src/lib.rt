//! The tokens of Ada texts and their annotations.
#![tactic(auto)]

mod cut;
mod laws;
mod lex;
mod scan;
mod text;
mod token;
mod words;

pub use laws::{a_text_has_one_answer, lines_join, tokens_stand_in_order};
pub use lex::tokens;
pub use token::{Token, TokenKind, Tokens};
pub use words::is_spelled;
