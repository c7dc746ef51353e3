//! The plan of a TOML text. A text that is no plan is refused by the first of a fixed list of causes.
#![tactic(auto)]

mod acts;
mod documents;
mod drafts;
mod forms;
mod jobs;
pub mod laws;
mod reading;

pub use dine_draft::{About, PlanFault};
pub use reading::read_plan;
