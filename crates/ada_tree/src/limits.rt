// The limits of texts and trees.

/// How many expressions, terms and statements contain each other, at most.
pub const MOST_NESTED: usize = 64;

/// How many proof steps contain each other, at most.
pub const MOST_NESTED_STEPS: usize = 200;

/// How many parentheses are open at once, at most.
pub const MOST_OPEN: usize = 64;

/// The most bytes of an identifier; of a name joined by `@`, of each part.
pub const LONGEST_NAME: usize = 120;

/// The most digits of a number, as it is written.
pub const LONGEST_NUMBER: usize = 18;
