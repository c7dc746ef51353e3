//! Plans that a program builds, site by site and edge by edge, in place of a text.
#![tactic(auto)]

mod absent;
mod by_id;
mod drafts;
mod explained;

pub use absent::Missing;
pub use drafts::{EPOCH_JOBS, PlanBuilder};
pub use explained::Explained;
