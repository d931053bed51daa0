//! The ranges of numbers, rates, times and counted steps.

/// The greatest number of a model, and the least without its sign, 10^18.
pub const NUMBER_LIMIT: i64 = 1_000_000_000_000_000_000;

/// The greatest rate of an accumulator, and the least without its sign, 10^12 units a second.
pub const RATE_LIMIT: i64 = 1_000_000_000_000;

/// The last time and the longest duration, 10^15 microseconds.
pub const TIME_LIMIT: i64 = 1_000_000_000_000_000;

/// The most steps that a run or a part of it may take, 10^8.
pub const STEP_LIMIT: u64 = 100_000_000;
