//! One site on its thread: its diner, its ends of links, its loop from its first event to its last, and what it leaves.
//! `dine_run` re-exports all of it.
#![tactic(auto)]

mod call_log;
mod diner;
pub mod laws;
mod manner;
mod port;
mod site_end;
mod site_loop;

pub use call_log::CallLog;
pub use diner::{Call, Diner, JobFault};
pub use manner::Manner;
pub use port::Port;
pub use site_end::{SiteEnd, SiteFault, Stray};
pub use site_loop::{run_site, run_site_with};
