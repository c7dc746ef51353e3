// What the calls answer. A number from 0 on is an answer, and a number below 0 says why there is none.
ghost use Rattle.std.specs.Prelude.{◌≡◌, pos};
ghost use Rattle.dine_ffi.specs.Answers.{IsRefused, Reports, breach_status, number_of, wire_status};
ghost use Rattle.dine_ffi.specs.Refusals.{plan_status};

use dine_reader::PlanFault;
use dine_rules::{Breach, Phase};
use dine_wire::WireFault;

pub(crate) const DONE: i64 = 0;

/// The handle is closed.
pub(crate) const CLOSED: i64 = -1;

/// The handle is of another kind.
pub(crate) const OTHER_KIND: i64 = -2;

/// The rules do not allow the event now.
pub(crate) const NOT_NOW: i64 = -3;

/// There is no such site, edge, place or kind.
pub(crate) const NO_SUCH: i64 = -4;

/// An allocation failed.
pub(crate) const MEMORY: i64 = -5;

/// The memory for the answer is too small.
pub(crate) const SMALL: i64 = -6;

/// The site eats, and does nothing else until its meal ends.
pub(crate) const EATING: i64 = -7;

/// The handle is open already.
pub(crate) const OPEN_ALREADY: i64 = -8;

/// No link of the site is of this edge.
pub(crate) const OTHER_EDGE: i64 = -14;

/// The site can do nothing before a letter arrives.
pub(crate) const WAITS: i64 = -16;

/// The site has done all, and put and taken all letters.
pub(crate) const FINISHED: i64 = -17;

/// -11 to -13, or -15: the bytes are no letter that may arrive. -15 is that of a letter of another run.
pub(crate) fn wire_status(fault: WireFault) -> i64
    ensures refused { IsRefused result }
    ensures nonzero { result ≡ pos 0 → ⊥ }
    ensures status { result ≡ wire_status fault }
{
    match fault {
        WireFault::Length => -11,
        WireFault::Kind => -12,
        WireFault::Unlawful => -13,
        WireFault::Memory => MEMORY,
        WireFault::OtherRun => -15,
    }
}

/// -21 to -26: the rules do not allow the letter.
pub(crate) fn breach_status(breach: Breach) -> i64
    ensures refused { IsRefused result }
    ensures nonzero { result ≡ pos 0 → ⊥ }
    ensures status { result ≡ breach_status breach }
{
    match breach {
        Breach::AfterClose => -21,
        Breach::RequestOutOfTurn => -22,
        Breach::ForkOutOfTurn => -23,
        Breach::StrangeFork => -24,
        Breach::DoneOutOfTurn => -25,
        Breach::ClosedEarly => -26,
    }
}

/// -101 to -120: the text is no plan.
pub(crate) fn plan_status(fault: PlanFault) -> i64
    ensures refused { IsRefused result }
    ensures status { result ≡ plan_status fault }
{
    match fault {
        PlanFault::Memory => MEMORY,
        other => -100 - i64::from(other.number()),
    }
}

/// Returns the number as an answer.
pub(crate) fn number(n: u64) -> i64
    ensures { Reports result n }
{
    match i64::try_from(n) {
        Ok(n) => n,
        Err(_) => i64::MAX,
    }
}

/// Returns the number of a phase.
pub(crate) fn phase_number(phase: Phase) -> u32
    ensures { result ≡ number_of phase }
{
    match phase {
        Phase::Thinking => 0,
        Phase::Hungry => 1,
        Phase::Eating => 2,
    }
}
