// The numbers that integer types compute in.

/// Every integer type computes from this number to the next one.
pub const BASE_LOW: i64 = -2147483648;

pub const BASE_HIGH: i64 = 2147483647;
