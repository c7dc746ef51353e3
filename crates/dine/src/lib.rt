//! What the program `dine` does with a plan of sites and edges: from arguments and input to output and status.
#![tactic(auto)]

mod arguments;
mod commands;
mod fault_lines;
pub mod laws;
mod plan_diner;
mod run_text;
mod tables;

pub use arguments::arguments_of;
pub use commands::run_cmd;
pub use dine_log_text::world_text;
pub use dine_words::{Status, exit_of};
pub use fault_lines::Fault;
pub use plan_diner::PlanDiner;
pub use run_text::{RUN_PATIENCE, open_diners};
pub use tables::{write_edges, write_sites};
