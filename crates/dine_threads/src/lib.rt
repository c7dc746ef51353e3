//! All sites of a plan, each on its thread, until what they left is gathered. `dine_run` re-exports all of it.
#![tactic(auto)]

mod causes;
mod collecting;
mod gathered;
mod opening;
mod options;
mod slots;
mod starts;
mod tables;
mod threads;

pub use causes::RunCause;
pub use gathered::{Gathered, Joined, RunFault, SiteOut};
pub use options::{DEFAULT_PATIENCE, RunOptions};
pub use tables::{EdgeRow, SiteRow, edge_table, site_table};
pub use threads::{run, run_with, run_with_doorbells, run_within};
