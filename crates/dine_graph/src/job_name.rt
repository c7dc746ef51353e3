//! The name of a job.
ghost use Rattle.std.specs.Prelude.{Some};
ghost use Rattle.dine_graph.specs.Job.{name_bytes, plan_name_bytes};

use std::fmt;

/// The name of a job. `Display` writes it.
#[derive(Debug, PartialEq, Eq, Drop)]
pub enum JobName {
    /// A text of its own.
    Own(String),
    /// A number in decimal digits. Jobs of a plan that a program builds have such names, and so no text each.
    Number(u32),
}

impl fmt::Display for JobName {
    ghost output = { λ name. Some (name_bytes name) };

    fn fmt<W: fmt::Write>(&self, f: &mut fmt::Formatter<W>) -> fmt::Result {
        match self {
            JobName::Own(text) => f.write_str(text.as_str()),
            JobName::Number(number) => write!(f, "{number}"),
        }
    }
}

/// The name of a job of a plan, which has it or its number. `Display` writes it.
#[derive(Clone, Copy, Debug, PartialEq, Eq)]
pub enum PlanJobName<'p> {
    /// A text of its own.
    Own(&'p str),
    /// A number in decimal digits.
    Number(u32),
}

impl fmt::Display for PlanJobName<'_> {
    ghost output = { λ name. Some (plan_name_bytes name) };

    fn fmt<W: fmt::Write>(&self, f: &mut fmt::Formatter<W>) -> fmt::Result {
        match self {
            PlanJobName::Own(text) => f.write_str(text),
            PlanJobName::Number(number) => write!(f, "{number}"),
        }
    }
}
