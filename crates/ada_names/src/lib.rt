//! What a document says about names: its declarations with their regions and numbers.
#![tactic(auto)]

mod around;
mod collect;
mod entry;
mod naming;
mod places;
mod predefined;
mod said;
mod saying;
mod table;

pub use entry::{Entry, Space};
pub use naming::place_of;
pub use places::{has_ended, is_in, kid};
pub use predefined::PREDEFINED;
pub use table::{Key, Table};
