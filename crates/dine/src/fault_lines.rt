//! The faults that end a command, and the line that reports each.
ghost use Rattle.std.specs.Prelude.{◌≡◌};

use crate::plan_diner::PlanDiner;
use dine_reader::PlanFault;
use dine_threads::{RunCause, RunFault};
use dine_words::{InputFault, Status, WordsFault, WriteFault, write_line};
use std::alloc::AllocError;
use std::fmt;
use std::fmt::InlineText;
use std::io::Write;

// The number of bytes that a line may have. The longest line, that of `Usage`, has 102.
const LINE: usize = 128;

/// A fault that ended a command.
#[derive(Clone, Copy, Debug, PartialEq, Eq)]
pub enum Fault {
    /// The arguments are refused.
    Usage,
    /// The input is not the text of a plan, for this cause.
    NoPlan(PlanFault),
    /// The run did not begin, or a site ended with a fault, for this cause.
    RunFailed(RunCause),
    /// An allocation failed.
    OutOfMemory,
    /// A read failed.
    ReadingFailed,
    /// The input has more bytes than it may have.
    InputTooLong,
    /// A write or a flush failed, or a write took no byte.
    WritingFailed,
}

/// Prints the text of the line, without the name of the program before it. The text of a refused plan ends in its
/// cause, as `PlanFault` prints it. The text of a run is its cause, as `RunCause` prints it.
impl fmt::Display for Fault {
    ghost use Rattle.std.specs.Prelude.{Some};
    ghost use Rattle.dine.specs.FaultLines.{fault_text};

    ghost output = { λ fault. Some (fault_text fault) };

    fn fmt<W: fmt::Write>(&self, f: &mut fmt::Formatter<W>) -> fmt::Result {
        match self {
            Fault::Usage => f.write_str(
                "usage: dine [run [--table edges|sites] [--links channel|ring] | replay [--choices LIST] | check]",
            ),
            Fault::NoPlan(cause) => write!(f, "plan refused: {cause}"),
            Fault::RunFailed(cause) => write!(f, "{cause}"),
            Fault::OutOfMemory => f.write_str("out of memory"),
            Fault::ReadingFailed => f.write_str("reading failed"),
            Fault::InputTooLong => f.write_str("input too long"),
            Fault::WritingFailed => f.write_str("writing failed"),
        }
    }
}

impl Fault {
    ghost use Rattle.std.specs.Prelude.{OnOk};
    ghost use Rattle.std.specs.Io.KnownBytes.{Appends};
    ghost use Rattle.dine.specs.FaultLines.{IsLineBegun, line_of, status_of, whole_line};

    /// Writes the line that reports the fault to `faults`, and returns the status that the program ends with.
    ///
    /// If the line cannot be written, or not all of it, that is not reported.
    pub fn end<F: Write>(self, faults: &mut F) -> Status
        ensures status { result ≡ status_of self }
        ensures reported { IsLineBegun (line_of self) (F.contents faults.old) (F.contents faults.new) }
    {
        let _ = self.report(faults);
        self.status()
    }

    // Returns the status that the program ends with.
    fn status(self) -> Status
        ensures { result ≡ status_of self }
    {
        match self {
            Fault::Usage => Status::Usage,
            Fault::NoPlan(_) => Status::PlanRefused,
            Fault::RunFailed(_) => Status::RunFailed,
            Fault::OutOfMemory => Status::OutOfMemory,
            Fault::ReadingFailed | Fault::InputTooLong | Fault::WritingFailed => {
                Status::InputOutput
            }
        }
    }

    // Writes the line, and flushes. The line is made in place, since an allocation may be what failed.
    fn report<F: Write>(self, faults: &mut F) -> Result<(), WriteFault>
        ensures whole { OnOk result
            (Appends (F.contents faults.old) (F.contents faults.new) (whole_line (line_of self))) }
        ensures begun { IsLineBegun (line_of self) (F.contents faults.old) (F.contents faults.new) }
    {
        let mut line = InlineText::<LINE>::new();
        fmt::Write::write_fmt(&mut line, format_args!("dine: {self}")).map_err(|_| WriteFault)?;
        write_line(faults, line.as_str())
    }
}

impl From<WordsFault> for Fault {
    ghost use Rattle.dine.specs.FaultLines.{fault_of_words};

    ghost from_gives = { λ fault made. made ≡ fault_of_words fault };

    fn from(fault: WordsFault) -> Fault {
        match fault {
            WordsFault::Usage => Fault::Usage,
            WordsFault::Memory => Fault::OutOfMemory,
        }
    }
}

impl From<InputFault> for Fault {
    ghost use Rattle.dine.specs.FaultLines.{fault_of_input};

    ghost from_gives = { λ fault made. made ≡ fault_of_input fault };

    fn from(fault: InputFault) -> Fault {
        match fault {
            InputFault::Failed => Fault::ReadingFailed,
            InputFault::TooLong => Fault::InputTooLong,
            InputFault::Memory => Fault::OutOfMemory,
        }
    }
}

impl From<RunFault<PlanDiner>> for Fault {
    ghost use Rattle.dine.specs.FaultLines.{fault_of_run};

    ghost from_gives = { λ fault made. made ≡ fault_of_run fault };

    fn from(fault: RunFault<PlanDiner>) -> Fault {
        let cause = RunCause::from(&fault);
        match cause {
            RunCause::Memory => Fault::OutOfMemory,
            _ => Fault::RunFailed(cause),
        }
    }
}

impl From<AllocError> for Fault {
    ghost use Rattle.dine.specs.declared.fault_lines.Fault.TheVariants as fault;

    ghost from_gives = { λ _ made. made ≡ fault.OutOfMemory };

    fn from(_error: AllocError) -> Fault {
        Fault::OutOfMemory
    }
}

impl From<WriteFault> for Fault {
    ghost use Rattle.dine.specs.declared.fault_lines.Fault.TheVariants as fault;

    ghost from_gives = { λ _ made. made ≡ fault.WritingFailed };

    fn from(_fault: WriteFault) -> Fault {
        Fault::WritingFailed
    }
}

impl From<PlanFault> for Fault {
    ghost use Rattle.dine.specs.FaultLines.{fault_of_text};

    ghost from_gives = { λ fault made. made ≡ fault_of_text fault };

    fn from(fault: PlanFault) -> Fault {
        match fault {
            PlanFault::Memory => Fault::OutOfMemory,
            _ => Fault::NoPlan(fault),
        }
    }
}
