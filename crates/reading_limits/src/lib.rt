//! Reading by the table within the limits reads exactly the texts of the grammar within the limits, and
//! stops at the first token that no such text admits.
//!
//! These are laws alone, in a crate of their own: so a change of the table's code proves them anew once,
//! and no wrong body of that code does.
#![tactic(auto)]

mod laws;

pub use laws::{
    limits_need_no_look_at_trees, reading_ends_in_one_way, reading_stops_at_the_first_token,
    the_table_reads_within_limits,
};
