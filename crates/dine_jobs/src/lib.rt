//! Jobs, the values that they share, and whole runs of them: each edge of a plan has a value, which its two sites open
//! in their meals alone. `dine_run` re-exports all of it.
#![tactic(auto)]

mod begun;
mod done;
mod edge_value;
mod executor;
mod given;
mod job;
mod job_diner;
mod open_runs;
mod open_value;
mod places;
mod queue;
mod rounds;
mod runs;
mod table;
mod task;
mod ticket;
mod values;

pub use done::{JobsCause, JobsDone, JobsFault, SiteDone};
pub use edge_value::EdgeValue;
pub use executor::{Executor, Worker};
pub use job::{Failure, Job};
pub use open_runs::{EpochDone, OpenDone, run_open, run_open_with};
pub use open_value::OpenValue;
pub use places::Place;
pub use queue::{Served, SubmitError};
pub use rounds::run_rounds;
pub use runs::{no_values, on_channels, on_rings, run_jobs, run_jobs_at, run_jobs_with};
pub use table::{OpenFault, Table};
pub use task::Task;
pub use ticket::{Ticket, TicketError};
