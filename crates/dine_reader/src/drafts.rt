//! A draft of a plan from the tables of a document whose form is as the format says.
ghost use Rattle.std.specs.Prelude.{◌≡◌, ◌≤◌, ℕ, List, None, Some, if◌then◌else◌};
ghost use Rattle.std.specs.Prelude.{length, map, position, IfOk, IfSome, OnOk};
ghost use Rattle.std.specs.List.{list_any};
ghost use Rattle.std.specs.Option.{option_or};
ghost use Rattle.std.specs.Str.{bytes_eq};
ghost use Rattle.toml.specs.View.{view};
ghost use Rattle.dine_graph.specs.Site.{seen_site};
ghost use Rattle.dine_draft.specs.Draft.{seen_draft};
ghost use Rattle.dine_reader.specs.Document.{has_two_acts, is_second, name_in, sites_in};
ghost use Rattle.dine_reader.specs.PlanOf.{draft_of, edge_in, number_of, site_in};
ghost use Rattle.dine_reader.specs.RefusalTests.{site_is_wrong};
ghost use Rattle.dine_reader.specs.private.Forms.{flaws_in};
ghost use Rattle.dine_reader.specs.private.Index.{IsIndex, number_under};

use crate::acts::{first_other_policy, has_two_acts};
use crate::documents::{
    end_in, is_second, items_at, number_at, resigns_in, take_items, text_at, version_in,
};
use crate::forms::{Flaws, has_no_tables, has_no_text, site_has_other_key, site_lacks_key};
use crate::jobs::jobs_in;
use dine_draft::{Draft, DraftEdge};
use dine_graph::{MAX_TEXT_JOBS, Site};
use std::alloc::{AllocError, Global};
use std::collections::BTreeMap;
use toml::Value;

/// Makes the draft of a document, and says which flaws its sites have.
pub(crate) fn draft_in(alloc: Global, document: Value) -> Result<(Draft, Flaws), AllocError>
    requires { length (sites_in (view document)) ≤ u32.MAX }
    ensures draft { IfOk result (λ read. seen_draft read.0 ≡ draft_of (view document)) }
    ensures flaws { IfOk result (λ read.
        read.1 ≡ flaws_in (is_second (view document)) (sites_in (view document))) }
{
    let tables = items_at(&document, "site");
    let version = version_in(&document);
    let other_policy = first_other_policy(tables);
    let edges = edges_in(alloc, tables, items_at(&document, "edge"))?;
    // The sites are taken out of the document, so that the names of jobs need not be copied.
    let second = is_second(&document);
    let sites = sites_in(alloc, second, take_items(alloc, document, "site"))?;
    let draft = Draft {
        version,
        most_jobs: MAX_TEXT_JOBS,
        sites: sites.sites,
        edges,
        two_acts: narrow(sites.two_acts),
        other_policy,
    };
    Ok((draft, sites.flaws))
}

// A place that fits a `u32`.
fn narrow(place: Option<usize>) -> Option<u32>
    requires { IfSome place (λ i. i ≤ u32.MAX) }
    ensures { result ≡ place }
{
    match place {
        Some(place) => Some(place as u32),
        None => None,
    }
}

// The sites of some tables, the flaws of these, and the first of them with a job that both adds and sets.
#[derive(Drop)]
struct Sites {
    sites: Vec<Site>,
    flaws: Flaws,
    two_acts: Option<usize>,
}

fn sites_in(alloc: Global, second: bool, tables: Vec<Value>) -> Result<Sites, AllocError>
    ensures sites { IfOk result (λ read. map seen_site read.sites.items ≡ map site_in (map view tables.items)) }
    ensures flaws { IfOk result (λ read. read.flaws ≡ flaws_in second (map view tables.items)) }
    ensures two_acts { IfOk result (λ read. read.two_acts ≡ position has_two_acts (map view tables.items)) }
{
    let mut sites = Vec::new(alloc);
    let mut flaws = Flaws {
        other_key: false,
        missing_key: false,
        wrong_kind: false,
    };
    let mut two_acts = None;
    for table in tables {
        let other_key = site_has_other_key(second, &table);
        let missing_key = site_lacks_key(&table);
        two_acts = first_of(two_acts, has_two_acts(&table), sites.len());
        let (site, wrong_kind) = site_in(alloc, table)?;
        sites.push(site)?;
        flaws = Flaws {
            other_key: flaws.other_key | other_key,
            missing_key: flaws.missing_key | missing_key,
            wrong_kind: flaws.wrong_kind | wrong_kind,
        };
    }
    Ok(Sites {
        sites,
        flaws,
        two_acts,
    })
}

// What was found, or else this place, if it passes.
fn first_of(found: Option<usize>, passes: bool, place: usize) -> Option<usize>
    ensures { result ≡ option_or found (if passes then Some place else None) }
{
    match found {
        Some(first) => Some(first),
        None => if passes { Some(place) } else { None },
    }
}

#[tactic(auto, unfolding(crate::specs::PlanOf::site_in, crate::specs::RefusalTests::site_is_wrong))]
fn site_in(alloc: Global, site: Value) -> Result<(Site, bool), AllocError>
    ensures site { IfOk result (λ read. seen_site read.0 ≡ site_in (view site)) }
    ensures wrong { IfOk result (λ read. read.1 ≡ site_is_wrong (view site)) }
{
    let name = String::from_str(alloc, text_at(&site, "name"))?;
    let resigns = resigns_in(&site);
    let no_texts = has_no_text(&site, "name") || has_no_text(&site, "on_fault");
    let no_tables = has_no_tables(&site, "jobs");
    let (jobs, wrong_jobs) = jobs_in(alloc, take_items(alloc, site, "jobs"))?;
    let site = Site {
        name,
        jobs,
        plain: 0,
        resigns,
    };
    Ok((site, no_texts || no_tables || wrong_jobs))
}

// The edges of these tables, between the sites of those.
fn edges_in(alloc: Global, sites: &[Value], tables: &[Value]) -> Result<Vec<DraftEdge>, AllocError>
    requires { length sites.now ≤ u32.MAX }
    ensures { IfOk result (λ v. v.items ≡ map (edge_in (map name_in (map view sites.now))) (map view tables.now)) }
{
    let index = index_of(alloc, sites)?;
    let mut edges = Vec::new(alloc);
    for table in tables {
        edges.push(edge_in(&index, sites.len() as u32, table))?;
    }
    Ok(edges)
}

// The number of the first site of each name.
fn index_of(alloc: Global, sites: &[Value]) -> Result<BTreeMap<&str, u32>, AllocError>
    requires { length sites.now ≤ u32.MAX }
    ensures { IfOk result (λ index. IsIndex index (map name_in (map view sites.now))) }
{
    let mut index = BTreeMap::new(alloc);
    for (i, site) in sites.iter().enumerate() {
        add_name(&mut index, text_at(site, "name"), i as u32)?;
    }
    Ok(index)
}

// Gives a name a number, if it has none yet.
fn add_name<'a>(
    index: &mut BTreeMap<&'a str, u32>,
    name: &'a str,
    number: u32,
) -> Result<(), AllocError>
    ensures { OnOk result ((q : List ℕ) → number_under index.new q
        ≡ option_or (number_under index.old q) (if bytes_eq q name.now then Some number else None)) }
{
    if index.get(name).is_none() {
        index.insert(name, number)?;
    }
    Ok(())
}

// An edge between sites, by the index of their names and their number.
#[tactic(auto, unfolding(crate::specs::PlanOf::edge_in))]
fn edge_in(index: &BTreeMap<&str, u32>, sites: u32, edge: &Value) -> DraftEdge
    ensures { (names : List (List ℕ)) → IsIndex index.now names → length names ≡ sites
        → result ≡ edge_in names (view edge.now) }
{
    DraftEdge {
        a: number_of(index, sites, end_in(edge, 0)),
        b: number_of(index, sites, end_in(edge, 1)),
        value: number_at(edge, "value"),
    }
}

// The number of the first site of this name, or the number of sites if none has it.
fn number_of(index: &BTreeMap<&str, u32>, sites: u32, name: &str) -> u32
    ensures { (names : List (List ℕ)) → IsIndex index.now names → length names ≡ sites
        → result ≡ number_of names name.now }
{
    index.get(name).copied().unwrap_or(sites)
}
