//! Attributed trees: each node has an inherited attribute and a result, and an edit makes anew only what it
//! changes. `docs/attributes.md` says what is promised.
#![tactic(auto)]

mod edits;
mod engine;
mod from_end;
mod grammar;
mod node;
mod plan;
mod shape;
mod shared;
mod siblings;
mod tree;

pub use edits::{EngineError, attribute, reattribute, splice};
pub use grammar::Grammar;
pub use node::{Kids, Node, NodeOf};
pub use shape::{Shape, Shapes};
pub use shared::Shared;
pub use tree::Tree;
