//! What type definitions define, and the sorts of what they define, with their sizes.
#![tactic(auto)]

mod definitions;
mod limits;
mod made_sorts;
mod sizes;

pub use definitions::{Components, Defined, Limits, bounds, definition, members};
pub use limits::{DEEPEST_SORT, LARGEST_SORT};
pub use made_sorts::{defined_sort, is_too_large};
pub use sizes::{sort_of, whole};
