//! Why a text is no plan.
ghost use Rattle.std.specs.Prelude.{◌≡◌, Some};
ghost use Rattle.dine_draft.specs.Fault.{about_of, about_words, number_of_fault, plan_fault_words, row_of, sentence_of};
ghost use Rattle.dine_draft.specs.declared.plan_fault.PlanFault.TheVariants.{Memory};

use std::alloc::{AllocError, AllocFailed};
use std::error::Error;
use std::fmt;

/// Why a plan text was refused. Each check is of the whole document, and they are made in the order of this list,
/// except `Memory`. The number in a fault is the least position, from 0, in the list of sites or of edges at which it
/// holds.
#[derive(Clone, Copy, Debug, PartialEq, Eq)]
pub enum PlanFault {
    /// The text is no TOML, or no UTF-8.
    NotToml,
    /// The plan has no `version`, or one that is not the whole number 1 or 2.
    Version,
    /// A table has a key that plans do not have there, or not in this version.
    UnknownKey,
    /// A site or a job has no `name`, or an edge no `ends`.
    MissingKey,
    /// A value is of the wrong kind, such as a text for a number, or is a number below 0.
    WrongKind,
    /// The name of this site, or of one of its jobs, is not 1 to 32 ASCII letters, digits, `_` or `-`.
    BadName(u32),
    /// An earlier site has the name of this site.
    SiteTwice(u32),
    /// There is no site.
    NoSite,
    /// There are more than 64 sites.
    TooManySites,
    /// This site has more than 1,000 jobs.
    TooManyJobs(u32),
    /// A job of this site has `turns` above 1,000,000.
    TurnsTooLarge(u32),
    /// An end of this edge is no site's name.
    UnknownEnd(u32),
    /// Both ends of this edge are one site.
    Loop(u32),
    /// An earlier edge joins the two sites of this one.
    EdgeTwice(u32),
    /// There are more than 512 edges.
    TooManyEdges,
    /// A job of this site has both `add` and `set`.
    TwoActs(u32),
    /// A job of this site has `add` or `set` above 1,000,000.
    ActTooLarge(u32),
    /// The value of this edge is above 1,000,000.
    ValueTooLarge(u32),
    /// `on_fault` of this site is neither `go` nor `resign`.
    UnknownPolicy(u32),
    /// An allocation failed, or the text lists 2^32 sites or edges or more.
    Memory,
}

/// What a cause is about.
#[derive(Clone, Copy, Debug, PartialEq, Eq)]
pub enum About {
    /// The site at this position, from 0.
    Site(u32),
    /// The edge at this position, from 0.
    Edge(u32),
    /// How many sites or edges there are.
    Counts,
    /// The form of a text, or memory.
    Text,
}

/// Writes the site or the edge as it follows the name of a cause: ` at site 0`. Writes nothing for the others.
impl fmt::Display for About {
    ghost output = { λ about. Some (about_words about) };

    fn fmt<W: fmt::Write>(&self, f: &mut fmt::Formatter<W>) -> fmt::Result {
        match self {
            About::Site(site) => write!(f, " at site {site}"),
            About::Edge(edge) => write!(f, " at edge {edge}"),
            About::Counts | About::Text => Ok(()),
        }
    }
}

// The number of a cause, its name, and what it is about.
#[derive(Clone, Copy)]
struct CauseRow {
    number: u32,
    name: &'static str,
    about: About,
}

fn row(number: u32, name: &'static str, about: About) -> CauseRow
    ensures number { result.number ≡ number }
    ensures name { result.name.now ≡ name.now }
    ensures about { result.about ≡ about }
{
    CauseRow {
        number,
        name,
        about,
    }
}

impl PlanFault {
    fn row(&self) -> CauseRow
        ensures number { result.number ≡ (row_of self.now).number }
        ensures name { result.name.now ≡ (row_of self.now).name }
        ensures about { result.about ≡ (row_of self.now).about }
    {
        match *self {
            PlanFault::NotToml => row(1, "NotToml", About::Text),
            PlanFault::Version => row(2, "Version", About::Text),
            PlanFault::UnknownKey => row(3, "UnknownKey", About::Text),
            PlanFault::MissingKey => row(4, "MissingKey", About::Text),
            PlanFault::WrongKind => row(5, "WrongKind", About::Text),
            PlanFault::BadName(site) => row(6, "BadName", About::Site(site)),
            PlanFault::SiteTwice(site) => row(7, "SiteTwice", About::Site(site)),
            PlanFault::NoSite => row(8, "NoSite", About::Counts),
            PlanFault::TooManySites => row(9, "TooManySites", About::Counts),
            PlanFault::TooManyJobs(site) => row(10, "TooManyJobs", About::Site(site)),
            PlanFault::TurnsTooLarge(site) => row(11, "TurnsTooLarge", About::Site(site)),
            PlanFault::UnknownEnd(edge) => row(12, "UnknownEnd", About::Edge(edge)),
            PlanFault::Loop(edge) => row(13, "Loop", About::Edge(edge)),
            PlanFault::EdgeTwice(edge) => row(14, "EdgeTwice", About::Edge(edge)),
            PlanFault::TooManyEdges => row(15, "TooManyEdges", About::Counts),
            PlanFault::Memory => row(16, "Memory", About::Text),
            PlanFault::TwoActs(site) => row(17, "TwoActs", About::Site(site)),
            PlanFault::ActTooLarge(site) => row(18, "ActTooLarge", About::Site(site)),
            PlanFault::ValueTooLarge(edge) => row(19, "ValueTooLarge", About::Edge(edge)),
            PlanFault::UnknownPolicy(site) => row(20, "UnknownPolicy", About::Site(site)),
        }
    }

    /// Returns the number of the cause, 1 to 20, in the order in which the causes are checked. `Memory`, which may be
    /// returned at any point, is 16.
    pub fn number(&self) -> u32
        ensures { result ≡ number_of_fault self.now }
    {
        self.row().number
    }

    /// Returns what the cause is about.
    pub fn about(&self) -> About
        ensures { result ≡ about_of self.now }
    {
        self.row().about
    }

    /// Returns what is wrong, in words that may follow the site or the edge that the cause is about.
    pub fn sentence(&self) -> &'static str
        ensures { result.now ≡ sentence_of self.now }
    {
        match self {
            PlanFault::NotToml => "the text is not TOML",
            PlanFault::Version => "version must be 1 or 2",
            PlanFault::UnknownKey => "a table has a key that plans of its version do not have",
            PlanFault::MissingKey => "a site or a job has no name, or an edge has no ends",
            PlanFault::WrongKind => "a value is of the wrong kind, such as a text for a number",
            PlanFault::BadName(_) => "its name is not 1 to 32 ASCII letters, digits, _ or -",
            PlanFault::SiteTwice(_) => "an earlier site has the same name",
            PlanFault::NoSite => "a plan has at least 1 site",
            PlanFault::TooManySites => "a plan has at most 64 sites",
            PlanFault::TooManyJobs(_) => "it has more than 1,000 jobs",
            PlanFault::TurnsTooLarge(_) => "a job of it has more than 1,000,000 turns",
            PlanFault::UnknownEnd(_) => "an end is not the number of a site; the first site is 0",
            PlanFault::Loop(_) => "both ends are one site",
            PlanFault::EdgeTwice(_) => "an earlier edge joins the same two sites",
            PlanFault::TooManyEdges => "a plan has at most 512 edges",
            PlanFault::Memory => "an allocation failed",
            PlanFault::TwoActs(_) => "a job of it both adds and sets",
            PlanFault::ActTooLarge(_) => "a job of it adds or sets more than 1,000,000",
            PlanFault::ValueTooLarge(_) => "its value is above 1,000,000",
            PlanFault::UnknownPolicy(_) => "its on_fault is neither go nor resign",
        }
    }
}

/// Writes the number and the name of the cause and, if it has one, the position: `2 Version`, `6 BadName at site 0`.
impl fmt::Display for PlanFault {
    ghost output = { λ fault. Some (plan_fault_words fault) };

    fn fmt<W: fmt::Write>(&self, f: &mut fmt::Formatter<W>) -> fmt::Result {
        let CauseRow {
            number,
            name,
            about,
        } = self.row();
        write!(f, "{number} {name}{about}")
    }
}

impl Error for PlanFault {}

impl From<AllocError> for PlanFault {
    ghost from_gives = { λ _ f. f ≡ Memory };

    fn from(_error: AllocError) -> PlanFault {
        PlanFault::Memory
    }
}

impl<T: Drop> From<AllocFailed<T>> for PlanFault {
    ghost from_gives = { λ _ f. f ≡ Memory };

    fn from(_error: AllocFailed<T>) -> PlanFault {
        PlanFault::Memory
    }
}
