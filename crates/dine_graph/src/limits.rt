//! The limits of a plan. Those on jobs and on values are in `dine_token`.

/// The greatest number of sites of a plan.
pub const MAX_SITES: u32 = 64;

/// The greatest number of edges of a plan.
pub const MAX_EDGES: u32 = 512;

/// The greatest number of jobs of a site in a text. A plan that a program builds may have far more: `MAX_JOBS` of
/// `dine_token`.
pub const MAX_TEXT_JOBS: u32 = 1_000;

/// The greatest number of turns of a job.
pub const MAX_TURNS: u32 = 1_000_000;

/// The greatest number of bytes of a name.
pub const MAX_NAME: usize = 32;
