//! The tree of a document, and the grammar as it is written.
#![tactic(auto)]

mod choice;
mod copying;
mod counting;
mod doc;
mod grammar;
mod kind;
mod limits;
mod lines;
mod lookup;
mod node;
mod operator;
mod part;
mod rule;
mod word;

pub use counting::{add_counts, counts};
pub use doc::{Counts, DeclId, Doc, at, is_same, same};
pub use grammar::{Argument, Choice, Comments, Own, Piece, Shape};
pub use kind::Kind;
pub use limits::{LONGEST_NAME, LONGEST_NUMBER, MOST_NESTED, MOST_NESTED_STEPS, MOST_OPEN};
pub use lines::{LINES, line};
pub use lookup::Lookup;
pub use node::{Kids, Node};
pub use operator::{Level, OPERATORS, Operator, OperatorEntry, Side};
pub use part::{Part, Rule};
pub use rule::{PROOF_RULES, ProofRule, arguments};
pub use word::{MARKS, Mark, RESERVED, WORDS, Word};
