//! What is gathered when all sites have joined, and why there may be nothing to gather.
use dine_link::{EmptyChecks, LinkEnd, ThreadLog};
use dine_rules::EventKind;
use dine_site_thread::{Diner, SiteFault, Stray};
use dine_token::{Fork, Token};
use std::convert::AsSlice;

/// What a site left: how many meals it began and how many of their jobs failed, its diner, the tokens in its hands in
/// edge order, its journal, which has each event that it did, in order, and, which only proofs read, the checks of its
/// bell that found no ring left, and the log of its thread. If it ended before it did all, it also left the first
/// cause, and the letter that was handed back.
#[derive(Drop)]
pub struct SiteOut<D: Diner> {
    pub site: u32,
    pub ate: u32,
    pub failed: u32,
    pub diner: D,
    pub tokens: Vec<Token>,
    pub journal: Vec<EventKind>,
    pub checks: EmptyChecks,
    pub log: ThreadLog,
    pub stray: Option<Stray>,
    pub fault: Option<SiteFault>,
}

/// The journal, for calls that read journals where they are.
impl<D: Diner> AsSlice<EventKind> for SiteOut<D> {
    ghost items = { λ out. out.journal.items };

    fn as_slice(&self) -> &[EventKind] {
        self.journal.as_slice()
    }
}

/// All that is gathered when all sites have joined: the forks that were found in their hands, by edge; what the sites
/// left, by number; and the links by edge, of which the one from the lower end is first. If every site did all, there
/// is one fork for each edge.
#[derive(Drop)]
pub struct Gathered<D: Diner> {
    pub forks: Vec<Fork>,
    pub sites: Vec<SiteOut<D>>,
    pub links: Vec<LinkEnd>,
}

/// What is gathered if some site ended with a fault.
pub type Joined<D> = Gathered<D>;

/// Why a run gathers nothing, or not all.
#[derive(Drop)]
pub enum RunFault<D: Diner> {
    /// There are not as many diners as sites. Nothing was started, and these are the diners.
    DinersDiffer { given: usize, diners: Vec<D> },
    /// An allocation failed before any thread started. The diners are dropped.
    Memory,
    /// The thread of this site could not be started: out of memory, or for another cause. The threads that were started
    /// before it have ended, no letter moved, and the diners are dropped.
    Thread(u32),
    /// All sites have joined, and this is the lowest one with a fault.
    Broken { site: u32, joined: Joined<D> },
}
