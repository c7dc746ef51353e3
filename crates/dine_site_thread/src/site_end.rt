//! What a site leaves when it ends, and the words for its fault.
ghost use Rattle.std.specs.Prelude.{◌≡◌, Some};
ghost use Rattle.dine_site_thread.specs.FaultWords.{site_fault_words};

use crate::diner::Diner;
use crate::port::Port;
use dine_link::{Bell, Lane, ThreadLog};
use dine_rules::{Breach, Clock, EventKind, Letter};
use dine_token::{Fork, Token};
use std::error::Error;
use std::fmt;

/// A letter that was handed back, with its place: the one at which it arrived, or the one to which it was to go.
#[derive(Drop)]
pub struct Stray {
    pub link: u32,
    pub letter: Letter,
}

/// Why a site ended before it did all.
#[derive(Clone, Copy, Debug, PartialEq, Eq)]
pub enum SiteFault {
    /// The letter that arrived at this place was not allowed, for this reason.
    Breach(u32, Breach),
    /// The link of this place refused a put, a close or a take.
    Lost(u32),
    /// A bell refused: that of a neighbour a ring, or that of the site a wait. The degree is the number of the edges of
    /// the site.
    LostBell { degree: u32 },
    /// The site was not started, and did nothing.
    NotStarted,
    /// An allocation for the journal failed, before an event.
    Memory,
}

/// `Breach 6 on link 0`, `Lost on link 0`, `NotStarted` or `Memory`: a breach has its number, 1 to 6, and each link the
/// number of its place. A bell that refused is printed as the link behind the last place, whose number is the degree.
impl fmt::Display for SiteFault {
    ghost output = { λ fault. Some (site_fault_words fault) };

    fn fmt<W: fmt::Write>(&self, f: &mut fmt::Formatter<W>) -> fmt::Result {
        match *self {
            SiteFault::Breach(link, breach) => {
                let number = breach.number();
                write!(f, "Breach {number} on link {link}")
            }
            SiteFault::Lost(link) => write!(f, "Lost on link {link}"),
            SiteFault::LostBell { degree } => write!(f, "Lost on link {degree}"),
            SiteFault::NotStarted => f.write_str("NotStarted"),
            SiteFault::Memory => f.write_str("Memory"),
        }
    }
}

impl Error for SiteFault {}

/// What a site leaves when it ends: how many meals it began and how many of their jobs failed, its diner, the forks and
/// tokens in its hands in edge order, its journal, its link ends in order, and its bell. If it ended before it did all,
/// it also leaves the first cause, and the letter that was handed back.
///
/// The journal has each event that the site did, in its order. The bell is kept so that neighbours that are not done
/// can still ring it.
#[derive(Drop)]
pub struct SiteEnd<L: Lane, D: Diner> {
    pub site: u32,
    pub ate: u32,
    pub failed: u32,
    pub diner: D,
    pub forks: Vec<Fork>,
    pub tokens: Vec<Token>,
    pub journal: Vec<EventKind>,
    pub clock: Clock,
    pub log: ThreadLog,
    pub ports: Vec<Port<L>>,
    pub bell: Bell,
    pub stray: Option<Stray>,
    pub fault: Option<SiteFault>,
}
