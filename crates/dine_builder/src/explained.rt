//! Why a builder's draft is refused, in words that say what to mend.
ghost use Rattle.std.specs.Prelude.{◌≡◌, Some};
ghost use Rattle.std.specs.Fmt.{WritesOnOk};
ghost use Rattle.dine_draft.specs.Fault.{about_of};
ghost use Rattle.dine_builder.specs.Explanation.{counts_words, edge_words, explanation, place_words, sentence_for};
ghost use Rattle.dine_builder.specs.Explanation.{site_words};

use crate::drafts::PlanBuilder;
use dine_draft::{About, PlanFault};
use std::fmt;

/// Why the draft of a builder is refused, in words that say what to mend. `Display` writes them, such as
/// `site 1, "b c": its name is not 1 to 32 ASCII letters, digits, _ or -`.
#[derive(Clone, Copy, Debug)]
pub struct Explained<'a> {
    /// The builder, whose draft has the site or the edge.
    pub plan: &'a PlanBuilder,
    /// The cause.
    pub fault: PlanFault,
}

impl PlanBuilder {
    /// Returns the cause in words that say what to mend: the site with its name, the edge with its ends as they were
    /// given and the number of sites, or the numbers of sites and edges; and then a sentence. The cause is one that
    /// `finish` returned. Of a site or an edge that the builder does not have, only the number is said.
    pub fn explain(&self, fault: PlanFault) -> Explained<'_>
        ensures plan { result.plan.now ≡ self.now }
        ensures fault { result.fault ≡ fault }
    {
        Explained { plan: self, fault }
    }
}

impl fmt::Display for Explained<'_> {
    ghost output = { λ explained. Some (explanation explained.plan.now explained.fault) };

    fn fmt<W: fmt::Write>(&self, f: &mut fmt::Formatter<W>) -> fmt::Result {
        let place = Place {
            plan: self.plan,
            fault: self.fault,
        };
        let sentence = sentence_for(self.fault);
        write!(f, "{place}{sentence}")
    }
}

// What is wrong, in words. A builder's site may have more jobs than one of a text.
fn sentence_for(fault: PlanFault) -> &'static str
    ensures { result.now ≡ sentence_for fault }
{
    match fault {
        PlanFault::TooManyJobs(_) => "it has more than 4,294,967,295 jobs",
        fault => fault.sentence(),
    }
}

// What a cause is about, in words that a sentence follows.
#[derive(Clone, Copy)]
struct Place<'a> {
    plan: &'a PlanBuilder,
    fault: PlanFault,
}

impl fmt::Display for Place<'_> {
    ghost output = { λ place. Some (place_words place.plan.now (about_of place.fault)) };

    fn fmt<W: fmt::Write>(&self, f: &mut fmt::Formatter<W>) -> fmt::Result {
        match self.fault.about() {
            About::Site(site) => write_site(f, self.plan, site),
            About::Edge(edge) => write_edge(f, self.plan, edge),
            About::Counts => write_counts(f, self.plan),
            About::Text => Ok(()),
        }
    }
}

// Writes the number and the name of a site.
fn write_site<W: fmt::Write>(
    f: &mut fmt::Formatter<W>,
    plan: &PlanBuilder,
    site: u32,
) -> fmt::Result
    ensures { WritesOnOk W.write_str_gives f.old result (site_words plan.now site) f.new }
{
    match plan.site_name(site) {
        Some(name) => write!(f, "site {site}, \"{name}\": "),
        None => write!(f, "site {site}: "),
    }
}

// Writes the number of an edge, its ends, and the number of sites.
fn write_edge<W: fmt::Write>(
    f: &mut fmt::Formatter<W>,
    plan: &PlanBuilder,
    edge: u32,
) -> fmt::Result
    ensures { WritesOnOk W.write_str_gives f.old result (edge_words plan.now edge) f.new }
{
    let sites = plan.site_count();
    match plan.edge_ends(edge) {
        Some((a, b)) => write!(
            f,
            "edge {edge}, between sites {a} and {b} (number of sites: {sites}): "
        ),
        None => write!(f, "edge {edge}: "),
    }
}

// Writes the numbers of sites and of edges.
fn write_counts<W: fmt::Write>(f: &mut fmt::Formatter<W>, plan: &PlanBuilder) -> fmt::Result
    ensures { WritesOnOk W.write_str_gives f.old result (counts_words plan.now) f.new }
{
    let sites = plan.site_count();
    let edges = plan.edge_count();
    write!(f, "number of sites: {sites}, number of edges: {edges}; ")
}
