//! Plans, under one name: `Plan` itself, the reader of plan texts with the causes to refuse one, the builder of plans
//! in a program, and a text of what was built.
#![tactic(auto)]

pub mod laws;
mod texts;

pub use dine_builder::{Explained, PlanBuilder};
pub use dine_graph::{EdgeId, EdgeIds, Job, JobName, Plan, PlanJob, PlanJobName, SiteId, SiteIds};
pub use dine_reader::{About, PlanFault, read_plan};
pub use texts::plan_text;
