//! Refusals as JSON.
use dine_draft::About;
use dine_reader::PlanFault;
use std::alloc::AllocError;
use std::fmt;

// The texts of the refusals that have no parts.
pub(crate) const OUT_OF_MEMORY: &str = "{\"refused\":{\"line\":\"out of memory\"}}";

pub(crate) const CLOSED: &str = "{\"refused\":{\"line\":\"the handle is closed\"}}";

pub(crate) const OPEN_ALREADY: &str = "{\"refused\":{\"line\":\"the handle is open\"}}";

pub(crate) const NO_EVENT: &str = "{\"refused\":{\"line\":\"no such event\"}}";

/// Why a call has no other answer.
#[derive(Clone, Copy)]
pub(crate) enum Refusal {
    /// The bytes are not the text of a plan, for this cause.
    NoPlan(PlanFault),
    /// An allocation failed.
    OutOfMemory,
    /// The handle is closed.
    Closed,
    /// The handle is open already.
    OpenAlready,
    /// No enabled event has this number.
    NoEvent,
}

/// Writes the refusal as JSON. If a plan is refused, this has the line that the program prints after `dine: `, the
/// number of the cause, and the site or the edge that it names.
impl fmt::Display for Refusal {
    ghost use Rattle.std.specs.Prelude.{Some};
    ghost use Rattle.dine_web.specs.Refusals.{refusal_text};

    ghost output = { λ refusal. Some (refusal_text refusal) };

    fn fmt<W: fmt::Write>(&self, f: &mut fmt::Formatter<W>) -> fmt::Result {
        match self {
            Refusal::NoPlan(fault) => {
                let number = fault.number();
                let named = Named {
                    about: fault.about(),
                };
                write!(
                    f,
                    "{{\"refused\":{{\"line\":\"plan refused: {fault}\",\"fault\":{number},\"at\":{named}}}}}"
                )
            }
            Refusal::OutOfMemory => f.write_str(OUT_OF_MEMORY),
            Refusal::Closed => f.write_str(CLOSED),
            Refusal::OpenAlready => f.write_str(OPEN_ALREADY),
            Refusal::NoEvent => f.write_str(NO_EVENT),
        }
    }
}

// The site or the edge that a cause names, if it names one.
#[derive(Clone, Copy)]
struct Named {
    about: About,
}

impl fmt::Display for Named {
    ghost use Rattle.std.specs.Prelude.{Some};
    ghost use Rattle.dine_web.specs.Refusals.{named_text};

    ghost output = { λ named. Some (named_text named.about) };

    fn fmt<W: fmt::Write>(&self, f: &mut fmt::Formatter<W>) -> fmt::Result {
        match self.about {
            About::Site(site) => write!(f, "{{\"site\":{site}}}"),
            About::Edge(edge) => write!(f, "{{\"edge\":{edge}}}"),
            About::Counts | About::Text => f.write_str("{}"),
        }
    }
}

impl From<PlanFault> for Refusal {
    ghost use Rattle.std.specs.Prelude.{◌≡◌};
    ghost use Rattle.dine_web.specs.Refusals.{is_for};

    ghost from_gives = { λ fault refusal. refusal ≡ is_for fault };

    fn from(fault: PlanFault) -> Refusal {
        match fault {
            PlanFault::Memory => Refusal::OutOfMemory,
            _ => Refusal::NoPlan(fault),
        }
    }
}

impl From<AllocError> for Refusal {
    ghost use Rattle.std.specs.Prelude.{◌≡◌};
    ghost use Rattle.dine_web.specs.declared.refusals.Refusal.TheVariants.{OutOfMemory};

    ghost from_gives = { λ _ refusal. refusal ≡ OutOfMemory };

    fn from(_error: AllocError) -> Refusal {
        Refusal::OutOfMemory
    }
}
