//! The limits on what a fork carries.

/// The greatest number of jobs of a site, and so of the meals that are due to an end of an edge: every `u32` is one.
/// The log of a fork may have four times as many entries, so a `u64` counts them. A text has fewer jobs, by a limit of
/// its own.
pub const MAX_JOBS: u32 = 4_294_967_295;

/// The greatest amount of an act, and the greatest value of an edge before the first meal.
pub const MAX_NUMBER: u64 = 1_000_000;
