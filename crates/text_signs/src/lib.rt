//! The tokens and comments of every text are ones that there are.
//!
//! This is a law alone, in a crate of its own: so a change of the code below proves it anew once,
//! and no wrong body of that code does.
#![tactic(auto)]

mod laws;

pub use laws::the_tokens_of_texts_fit;
