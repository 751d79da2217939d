//! What holds of canonical texts: they have the tokens that they are written with, and are read as the
//! trees that they are of.
//!
//! These are laws alone, in a crate of their own: so a change of the code below proves them anew once,
//! and no wrong body of that code does.
#![tactic(auto)]

mod laws;

pub use laws::{canonical_text_is_read, rendered_text_has_the_tokens, written_files_are_read};
