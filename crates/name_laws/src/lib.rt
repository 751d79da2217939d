//! What holds of names in all documents. Each law is the contract of a function that does nothing.
//!
//! These are laws alone, in a crate of their own: so a change of the code below proves them anew once,
//! and no wrong body of that code does.
#![tactic(auto)]

mod laws;

pub use laws::{
    a_name_sees_one_declaration, entries_dont_depend_on_what_follows,
    inner_declarations_hide_outer_ones, other_names_see_the_same, renamed_documents_say_the_same,
    renaming_changes_no_other_answer, renaming_what_a_name_passes_by_changes_no_answer,
    renaming_what_nothing_sees_changes_no_answer, what_is_found_has_the_last_name,
    what_is_found_is_visible, what_is_seen_is_visible,
};
