// The limits of numbers of nodes.

/// The most nodes of a file, and of a document, apart from proof steps.
pub const MOST_NODES: u64 = 100_000;

/// The most proof steps of a file, and of a document.
pub const MOST_STEPS: u64 = 50_000;
