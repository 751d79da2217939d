//! Texts of the parts of the grammar, and files: the node that a text is read as, or its fault.
#![tactic(auto)]

mod fault;
mod file;
mod fragment;
mod front;
mod laws;
mod limits;
mod parts;
mod reading;
mod start;
mod unsupported;

pub use file::read_file;
pub use fragment::has_texts;
pub use front::{read_note, read_proof, read_term, read_trait};
pub use laws::{a_file_has_one_answer, a_text_has_one_answer};
pub use limits::{MOST_NODES, MOST_STEPS};
pub use parts::{NOTES, PROOFS, TERM, TRAIT};
pub use reading::read_fragment;
pub use unsupported::{UNSUPPORTED_MARKS, UNSUPPORTED_WORDS};
