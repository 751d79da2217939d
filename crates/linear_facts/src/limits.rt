// The bounds on coefficients and numbers.

/// No coefficient may be above this one in size.
pub const MOST_COEFFICIENT: u64 = 1_000_000_000;

/// So many coefficients other than 0 are too many.
pub const TOO_MANY: usize = 4_294_967_296;

/// No number of a form may be above this one in size.
pub const MOST_NUMBER: u128 = 1_000_000_000_000_000_000;
