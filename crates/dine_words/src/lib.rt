//! What depends on a plan alone: the arguments, the input, the plan of its bytes, the output of `check`, what is
//! written, and the statuses.
#![tactic(auto)]

mod check;
mod choices;
mod input;
mod output;
mod plan_bytes;
mod status;
mod words;

pub use check::check_text;
pub use input::{INPUT_LIMIT, InputFault, read_input};
pub use output::{WriteFault, write_line, write_out};
pub use plan_bytes::plan_of_bytes;
pub use status::{Status, exit_of};
pub use words::{Command, Links, Table, WordsFault, command_of};
