// How often an initial expression may be held.

/// The most nodes that the names of one declaration hold together, where its initial expression is held once
/// for each of several names.
pub const MOST_HELD: u64 = 20_000;
