// How large the sort of a declared type may be.

/// The most nodes of a declared type's sort.
pub const LARGEST_SORT: u64 = 1000;

/// How many nodes of a declared type's sort contain each other, at most.
pub const DEEPEST_SORT: u64 = 64;
