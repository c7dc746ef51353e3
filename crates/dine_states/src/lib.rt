//! The states of a schedule, as JSON: what each site and each edge is, what is enabled, and why everything else is not.
//! docs/STATES.md has the keys.
#![tactic(auto)]

mod course;
mod ends;
mod events;
mod precedence;
mod readers;
mod roles;
mod schedule;
mod state;
mod waits;
mod why;

pub use course::course_text;
pub use events::{Enabled, name_of, push_event};
pub use precedence::{order_of_precedence, preferred_end};
pub use roles::role;
pub use schedule::Schedule;
pub use waits::{Cause, Wait, waits_of};
pub use why::{Reason, why_not};
