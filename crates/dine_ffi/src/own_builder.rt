//! A builder of plans that refuses at once what no plan can have.
ghost use Rattle.std.specs.Prelude.{◌≡◌, ◌≢◌, ◌<◌, ◌||◌, IfErr, IfOk, None, OnErr, OnOk, Some, length, map};
ghost use Rattle.std.specs.Prelude.{is_ok, nat_le, string_bytes, true, if◌then◌else◌};
ghost use Rattle.std.specs.List.{list_any};
ghost use Rattle.std.specs.Str.{bytes_eq};
ghost use Rattle.dine_token.specs.declared.limits.TheConstants.{MAX_NUMBER};
ghost use Rattle.dine_graph.specs.declared.limits.TheConstants.{MAX_EDGES, MAX_SITES, MAX_TURNS};
ghost use Rattle.dine_graph.specs.Plan.{is_name, is_name_byte};
ghost use Rattle.dine_builder.specs.Draft.{empty_draft, has_edge, has_job, has_site, with_act, with_edge};
ghost use Rattle.dine_builder.specs.Draft.{with_failure, with_resigning, with_site, with_turns, with_value};
ghost use Rattle.dine_builder.specs.DraftPlan.{first_fault_of, plan_of_draft};
ghost use Rattle.dine_ffi.specs.Answers.{done, no_such};
ghost use Rattle.dine_ffi.specs.Builders.{AddsEdgeOrRefuses, AddsSiteOrRefuses, ChangesOrRefuses, act_of, are_ends};
ghost use Rattle.dine_ffi.specs.Builders.{ends_in, names_in, refusal_of_edge, refusal_of_site};

use crate::status::{DONE, MEMORY, NO_SUCH, plan_status};
use dine_builder::{Missing, PlanBuilder};
use dine_draft::PlanFault;
use dine_graph::{EdgeId, MAX_EDGES, MAX_NAME, MAX_SITES, MAX_TEXT_JOBS, MAX_TURNS, Plan, SiteId};
use dine_token::{Act, MAX_NUMBER};
use std::alloc::{AllocError, Global};
use std::marker::Model;

// `MAX_NUMBER`, with the type of an argument.
const MOST: u32 = MAX_NUMBER as u32;

/// A builder, with the names of its sites and the ends of its edges, which its calls check.
#[derive(Drop)]
pub struct OwnBuilder {
    builder: PlanBuilder,
    names: Vec<String>,
    ends: Vec<(u32, u32)>,
}

impl Model for OwnBuilder {
    ghost use Rattle.dine_builder.specs.Draft.{Draft};

    ghost Value = { Draft };

    ghost use Rattle.dine_ffi.specs.private.OwnBuilderFields.{HasNamesAndEnds, seen_own_builder};

    ghost view = { seen_own_builder };

    ghost invariant = { HasNamesAndEnds };
}

impl OwnBuilder {
    /// Opens a builder without sites and edges.
    pub(crate) fn open(alloc: Global) -> OwnBuilder
        ensures { result ≡ empty_draft }
    {
        OwnBuilder {
            builder: PlanBuilder::open(alloc),
            names: Vec::new(alloc),
            ends: Vec::new(alloc),
        }
    }

    /// Adds a site whose name the bytes are, and returns its number.
    pub(crate) fn site(&mut self, alloc: Global, name: &[u8], jobs: u32) -> i64
        ensures { AddsSiteOrRefuses name.now jobs result self.old self.new }
    {
        let Ok(name) = std::str::from_utf8(name) else {
            return plan_status(PlanFault::BadName(self.site_count()));
        };
        if let Some(fault) = self.refusal_of_site(name, jobs) {
            return plan_status(fault);
        }
        match self.add_site(alloc, name, jobs) {
            Ok(site) => i64::from(site.0),
            Err(_) => MEMORY,
        }
    }

    // The number of sites.
    fn site_count(&self) -> u32
        ensures { result ≡ length self.now.sites }
    {
        self.names.len() as u32
    }

    // The number of edges.
    fn edge_count(&self) -> u32
        ensures { result ≡ length self.now.edges }
    {
        self.ends.len() as u32
    }

    // Why a site is not added.
    fn refusal_of_site(&self, name: &str, jobs: u32) -> Option<PlanFault>
        ensures { result ≡ refusal_of_site name.now jobs self.now }
    {
        let number = self.site_count();
        if !is_name(name) {
            return Some(PlanFault::BadName(number));
        }
        if self.has_name(name) {
            return Some(PlanFault::SiteTwice(number));
        }
        if number >= MAX_SITES {
            return Some(PlanFault::TooManySites);
        }
        if jobs > MAX_TEXT_JOBS {
            return Some(PlanFault::TooManyJobs(number));
        }
        None
    }

    // Whether a site has this name.
    fn has_name(&self, name: &str) -> bool
        ensures { result ≡ list_any (bytes_eq name.now) (names_in self.now) }
    {
        has_text(self.names.as_slice(), name)
    }

    // Adds a site to the builder and its name to the names; or to neither.
    fn add_site(&mut self, alloc: Global, name: &str, jobs: u32) -> Result<SiteId, AllocError>
        requires { length self.old.sites < MAX_SITES }
        ensures number { IfOk result (λ site. site.0 ≡ length self.old.sites) }
        ensures changed { OnOk result (self.new ≡ with_site name.now jobs self.old) }
        ensures refused { OnErr result (self.new ≡ self.old) }
    {
        let own = String::from_str(alloc, name)?;
        self.names.push(own)?;
        match self.builder.site(name, jobs) {
            Ok(site) => Ok(site),
            Err(error) => {
                let _ = self.names.pop();
                Err(error)
            }
        }
    }

    /// Adds an edge between two sites that are there, and returns its number.
    pub(crate) fn edge(&mut self, a: u32, b: u32) -> i64
        ensures { AddsEdgeOrRefuses a b result self.old self.new }
    {
        if let Some(fault) = self.refusal_of_edge(a, b) {
            return plan_status(fault);
        }
        match self.add_edge(a, b) {
            Ok(edge) => i64::from(edge.0),
            Err(_) => MEMORY,
        }
    }

    // Why an edge is not added.
    fn refusal_of_edge(&self, a: u32, b: u32) -> Option<PlanFault>
        ensures { result ≡ refusal_of_edge a b self.now }
    {
        let number = self.edge_count();
        let sites = self.site_count();
        if is_unknown(sites, a, b) {
            return Some(PlanFault::UnknownEnd(number));
        }
        if a == b {
            return Some(PlanFault::Loop(number));
        }
        if self.joins(a, b) {
            return Some(PlanFault::EdgeTwice(number));
        }
        if number >= MAX_EDGES {
            return Some(PlanFault::TooManyEdges);
        }
        None
    }

    // Whether an edge joins the two sites.
    fn joins(&self, a: u32, b: u32) -> bool
        ensures { result ≡ list_any (are_ends a b) (ends_in self.now) }
    {
        has_ends(self.ends.as_slice(), a, b)
    }

    // Adds an edge to the builder and its ends to the ends; or to neither.
    fn add_edge(&mut self, a: u32, b: u32) -> Result<EdgeId, AllocError>
        requires { length self.old.edges < MAX_EDGES }
        ensures number { IfOk result (λ edge. edge.0 ≡ length self.old.edges) }
        ensures changed { OnOk result (self.new ≡ with_edge a b self.old) }
        ensures refused { OnErr result (self.new ≡ self.old) }
    {
        self.ends.push((a, b))?;
        match self.builder.edge(SiteId(a), SiteId(b)) {
            Ok(edge) => Ok(edge),
            Err(error) => {
                let _ = self.ends.pop();
                Err(error)
            }
        }
    }

    /// Sets the value of an edge before the first meal.
    pub(crate) fn value(&mut self, edge: u32, value: u32) -> i64
        ensures { ChangesOrRefuses (nat_le value MAX_NUMBER) (PlanFault.ValueTooLarge edge) (has_edge edge self.old)
            (with_value edge value self.old) result self.old self.new }
    {
        if value > MOST {
            return plan_status(PlanFault::ValueTooLarge(edge));
        }
        status_of(self.builder.value(EdgeId(edge), u64::from(value)))
    }

    /// Makes a site drop the jobs that it has left after one failed.
    pub(crate) fn resign(&mut self, site: u32) -> i64
        ensures { ChangesOrRefuses true PlanFault.Memory (has_site site self.old)
            (with_resigning site self.old) result self.old self.new }
    {
        status_of(self.builder.resign(SiteId(site)))
    }

    /// Sets the number of turns of job `k` of a site.
    pub(crate) fn turns(&mut self, site: u32, k: u32, turns: u32) -> i64
        ensures { ChangesOrRefuses (nat_le turns MAX_TURNS) (PlanFault.TurnsTooLarge site) (has_job site k self.old)
            (with_turns site k turns self.old) result self.old self.new }
    {
        if turns > MAX_TURNS {
            return plan_status(PlanFault::TurnsTooLarge(site));
        }
        status_of(self.builder.turns(SiteId(site), k, turns))
    }

    /// Makes job `k` of a site fail.
    pub(crate) fn fails(&mut self, site: u32, k: u32) -> i64
        ensures { ChangesOrRefuses true PlanFault.Memory (has_job site k self.old)
            (with_failure site k self.old) result self.old self.new }
    {
        status_of(self.builder.fails(SiteId(site), k))
    }

    /// Sets what the meal of job `k` of a site does to the value of each edge of the site.
    pub(crate) fn act(&mut self, site: u32, k: u32, sets: bool, amount: u32) -> i64
        ensures { ChangesOrRefuses (nat_le amount MAX_NUMBER) (PlanFault.ActTooLarge site) (has_job site k self.old)
            (with_act site k (act_of sets amount) self.old) result self.old self.new }
    {
        if amount > MOST {
            return plan_status(PlanFault::ActTooLarge(site));
        }
        status_of(self.builder.act(SiteId(site), k, act_of(sets, amount)))
    }

    /// Makes the plan.
    pub(crate) fn finish(&self) -> Result<Plan, PlanFault>
        ensures unrefused { OnOk result (first_fault_of self.now ≡ None) }
        ensures plan { IfOk result (λ plan. plan ≡ plan_of_draft self.now) }
        ensures refused { IfErr result (λ cause. cause ≢ PlanFault.Memory → first_fault_of self.now ≡ Some cause) }
    {
        self.builder.finish()
    }
}

// Whether one of the two is the number of no site, of this number of sites.
fn is_unknown(sites: u32, a: u32, b: u32) -> bool
    ensures { result ≡ (nat_le sites a || nat_le sites b) }
{
    sites <= a || sites <= b
}

// Whether one of the texts is this one.
fn has_text(texts: &[String], text: &str) -> bool
    ensures { result ≡ list_any (bytes_eq text.now) (map string_bytes texts.now) }
{
    texts.iter().any(|other| text == other.as_str())
}

// Whether one of the pairs is a and b, in either order.
fn has_ends(pairs: &[(u32, u32)], a: u32, b: u32) -> bool
    ensures { result ≡ list_any (are_ends a b) pairs.now }
{
    pairs.iter().any(|ends| (ends.0 == a && ends.1 == b) || (ends.0 == b && ends.1 == a))
}

// What is returned of a change: 0, or that what was to be changed is not there.
fn status_of(changed: Result<(), Missing>) -> i64
    ensures { result ≡ (if is_ok changed then done else no_such) }
{
    match changed {
        Ok(()) => DONE,
        Err(_) => NO_SUCH,
    }
}

// What a meal does to values.
fn act_of(sets: bool, amount: u32) -> Act
    ensures { result ≡ act_of sets amount }
{
    let amount = u64::from(amount);
    if sets {
        Act::Set(amount)
    } else {
        Act::Add(amount)
    }
}

// Whether a text is a name: 1 to 32 bytes, each an ASCII letter, an ASCII digit, '_' or '-'.
fn is_name(text: &str) -> bool
    ensures { result ≡ is_name text.now }
{
    let bytes = text.as_bytes();
    !bytes.is_empty() && bytes.len() <= MAX_NAME && bytes.iter().all(|byte| is_name_byte(*byte))
}

fn is_name_byte(byte: u8) -> bool
    ensures { result ≡ is_name_byte byte }
{
    byte.is_ascii_alphanumeric() || byte == b'_' || byte == b'-'
}
