//! A plan from a draft: its sites and edges, before anything of them is checked. A draft that is no plan is refused by
//! the first of a fixed list of causes.
#![tactic(auto)]

mod acts;
mod drafts;
mod edges;
mod plan_fault;
mod sites;

pub use drafts::{Draft, DraftEdge};
pub use plan_fault::{About, PlanFault};
