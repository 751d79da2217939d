//! The canonical text of a document's files, and the lines of sequents.
#![tactic(auto)]

mod document;
mod own;
mod page;
mod sequent;
mod steps;
mod tree;
mod work;

pub use document::write_doc;
pub use sequent::write_sequent;
