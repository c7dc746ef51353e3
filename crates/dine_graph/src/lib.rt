//! Plans: sites with their jobs, and edges between two sites, with the lists that a run reads most.
#![tactic(auto)]

mod dots;
mod ids;
mod job_name;
mod limits;
mod lookups;
mod places;
mod plans;

pub use ids::{EdgeId, EdgeIds, SiteId, SiteIds};
pub use job_name::{JobName, PlanJobName};
pub use limits::{MAX_EDGES, MAX_NAME, MAX_SITES, MAX_TEXT_JOBS, MAX_TURNS};
pub use plans::{Job, Plan, PlanJob, Site};
