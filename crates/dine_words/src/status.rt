//! How the program ends.
ghost use Rattle.std.specs.Prelude.{◌≡◌};
ghost use Rattle.std.specs.Process.{exit_status};
ghost use Rattle.dine_words.specs.Status.{number_of};

use std::process::ExitCode;

/// How a command ended.
#[derive(Clone, Copy, Debug, PartialEq, Eq)]
pub enum Status {
    /// The output was written whole.
    Success,
    /// The arguments are refused, and nothing was read.
    Usage,
    /// The input is no plan.
    PlanRefused,
    /// The run of the threads failed.
    RunFailed,
    /// An allocation failed.
    OutOfMemory,
    /// Reading or writing failed, or the input is too long.
    InputOutput,
}

impl Status {
    /// Returns the exit status of the process: 0, or 2 to 6.
    pub fn number(self) -> u8
        ensures { result ≡ number_of self }
    {
        match self {
            Status::Success => 0,
            Status::Usage => 2,
            Status::PlanRefused => 3,
            Status::RunFailed => 4,
            Status::OutOfMemory => 5,
            Status::InputOutput => 6,
        }
    }
}

/// Returns the exit code of the process: the number of the status.
pub fn exit_of(status: Status) -> ExitCode
    ensures { exit_status result ≡ number_of status }
{
    ExitCode::from(status.number())
}
