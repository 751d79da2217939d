//! What holds of files and documents as a whole: files that are read make a document, and what is written
//! is read back, so that printing again changes nothing.
//!
//! These are laws alone, in a crate of their own: so a change of the code below proves them anew once,
//! and no wrong body of that code does.
#![tactic(auto)]

mod laws;

pub use laws::{
    file_begins, printed_files_print_alike, read_files_make_a_document, written_files_are_read_back,
};
