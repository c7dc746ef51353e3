//! The faults that end the program.

use dine::PlanDiner;
use dine_plan::PlanFault;
use dine_run::RunFault;
use dine_words::{InputFault, Status, WordsFault, WriteFault, write_line};
use std::alloc::{AllocError, AllocFailed};
use std::io::Write;

const USAGE: &str =
    "dine_trace: usage: dine_trace [[--json | --events | --states PLACES] [LIST] | --run [--links channel|ring]] < PLAN";

const NO_LIST: &str = "dine_trace: the first line of the input is no LIST";

/// A fault that ended the program.
#[derive(Clone, Copy, Debug, PartialEq, Eq)]
pub enum Fault {
    /// The arguments are refused.
    Usage,
    /// The first line of the input should be a LIST, and is none.
    NoList,
    /// A fault that ends `dine` too, with its line.
    Dine(dine::Fault),
}

impl Fault {
    /// Prints the line of the fault to `faults`, and returns the status that the program ends with. If the line cannot
    /// be printed, that is not reported.
    pub fn end<F: Write>(self, faults: &mut F) -> Status {
        match self {
            Fault::Usage => {
                let _ = write_line(faults, USAGE);
                Status::Usage
            }
            Fault::NoList => {
                let _ = write_line(faults, NO_LIST);
                Status::Usage
            }
            Fault::Dine(fault) => fault.end(faults),
        }
    }
}

impl From<dine::Fault> for Fault {
    fn from(fault: dine::Fault) -> Fault {
        match fault {
            dine::Fault::Usage => Fault::Usage,
            _ => Fault::Dine(fault),
        }
    }
}

impl From<PlanFault> for Fault {
    fn from(fault: PlanFault) -> Fault {
        Fault::from(dine::Fault::from(fault))
    }
}

impl From<WordsFault> for Fault {
    fn from(fault: WordsFault) -> Fault {
        Fault::from(dine::Fault::from(fault))
    }
}

impl From<InputFault> for Fault {
    fn from(fault: InputFault) -> Fault {
        Fault::from(dine::Fault::from(fault))
    }
}

impl From<WriteFault> for Fault {
    fn from(fault: WriteFault) -> Fault {
        Fault::from(dine::Fault::from(fault))
    }
}

impl From<RunFault<PlanDiner>> for Fault {
    fn from(fault: RunFault<PlanDiner>) -> Fault {
        Fault::from(dine::Fault::from(fault))
    }
}

impl From<AllocError> for Fault {
    fn from(error: AllocError) -> Fault {
        Fault::from(dine::Fault::from(error))
    }
}

impl<T: Drop> From<AllocFailed<T>> for Fault {
    fn from(_error: AllocFailed<T>) -> Fault {
        Fault::Dine(dine::Fault::OutOfMemory)
    }
}
