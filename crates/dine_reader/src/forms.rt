//! The checks on the form of a document: its version, its keys, and the kinds of its values. A plan may have many jobs,
//! so what is in a site is checked where the site is read, while it is at hand.
ghost use Rattle.std.specs.Prelude.{◌≡◌, codes, map};
ghost use Rattle.std.specs.List.{list_any};
ghost use Rattle.std.specs.Str.{bytes_eq};
ghost use Rattle.toml.specs.View.{view};
ghost use Rattle.dine_reader.specs.Document.{edges_in};
ghost use Rattle.dine_reader.specs.RefusalTests.{document_keys, site_keys, job_keys, edge_keys, has_other_key};
ghost use Rattle.dine_reader.specs.RefusalTests.{lacks_key, is_wrong, is_version, is_text, is_whole};
ghost use Rattle.dine_reader.specs.RefusalTests.{is_tables, is_two_texts, refuses_version, site_has_other_key};
ghost use Rattle.dine_reader.specs.RefusalTests.{site_lacks_key, edge_is_wrong};
ghost use Rattle.dine_draft.specs.Refusals.{first_some};
ghost use Rattle.dine_reader.specs.private.Forms.{flaw_refusals, has_other_key_outside, has_wrong_kind_outside};

use crate::documents::{is_second, items_at, items_in};
use dine_draft::PlanFault;
use toml::Value;

/// What the form of a part of a document has that the format does not allow.
#[derive(Clone, Copy)]
pub(crate) struct Flaws {
    /// A table has a key that the format does not name for it.
    pub(crate) other_key: bool,
    /// A table has no name, or no ends.
    pub(crate) missing_key: bool,
    /// A value is of another kind than the format names for its key.
    pub(crate) wrong_kind: bool,
}

/// Returns the first fault in the form of a document of a known version, by its flaws outside of its sites and in them.
pub(crate) fn first_flaw(outside: Flaws, inside: Flaws) -> Option<PlanFault>
    ensures { result ≡ first_some (flaw_refusals outside inside) }
{
    if outside.other_key | inside.other_key {
        return Some(PlanFault::UnknownKey);
    }
    if outside.missing_key | inside.missing_key {
        return Some(PlanFault::MissingKey);
    }
    if outside.wrong_kind | inside.wrong_kind {
        return Some(PlanFault::WrongKind);
    }
    None
}

/// Returns the flaws of a document outside of its sites.
pub(crate) fn flaws_outside(document: &Value) -> Flaws
    ensures other_key { result.other_key ≡ has_other_key_outside (view document.now) }
    ensures missing_key { result.missing_key ≡ list_any (lacks_key (codes "ends")) (edges_in (view document.now)) }
    ensures wrong_kind { result.wrong_kind ≡ has_wrong_kind_outside (view document.now) }
{
    Flaws {
        other_key: has_other_key_outside(document),
        missing_key: lacks_ends(document),
        wrong_kind: has_wrong_kind(document),
    }
}

/// Returns whether `version` is absent or is not the whole number 1 or 2.
#[tactic(auto, unfolding(crate::specs::RefusalTests::refuses_version))]
pub(crate) fn has_other_version(document: &Value) -> bool
    ensures { result ≡ refuses_version (view document.now) }
{
    match document.get("version") {
        Some(version) => !is_version(version),
        None => true,
    }
}

fn is_version(value: &Value) -> bool
    ensures { result ≡ is_version (view value.now) }
{
    match value.as_integer() {
        Some(number) => number == 1 || number == 2,
        None => false,
    }
}

// Whether the document or an edge has a key that the format does not name for it.
fn has_other_key_outside(document: &Value) -> bool
    ensures { result ≡ has_other_key_outside (view document.now) }
{
    let second = is_second(document);
    let edges = items_at(document, "edge");
    if has_other_key(document, &["version", "site", "edge"]) {
        return true;
    }
    edges.iter().any(|edge| has_other_edge_key(second, edge))
}

/// Returns whether a site or one of its jobs has a key that the format does not name for it, in version 2 or in
/// version 1.
pub(crate) fn site_has_other_key(second: bool, site: &Value) -> bool
    ensures { result ≡ site_has_other_key second (view site.now) }
{
    let jobs = items_at(site, "jobs");
    if has_other_site_key(second, site) {
        return true;
    }
    jobs.iter().any(|job| has_other_job_key(second, job))
}

// The keys of a site by the version of the format.
fn has_other_site_key(second: bool, site: &Value) -> bool
    ensures { result ≡ has_other_key (site_keys second) (view site.now) }
{
    if second {
        has_other_key(site, &["name", "jobs", "on_fault"])
    } else {
        has_other_key(site, &["name", "jobs"])
    }
}

// The keys of a job by the version of the format.
fn has_other_job_key(second: bool, job: &Value) -> bool
    ensures { result ≡ has_other_key (job_keys second) (view job.now) }
{
    if second {
        has_other_key(job, &["name", "turns", "fails", "add", "set"])
    } else {
        has_other_key(job, &["name", "turns", "fails"])
    }
}

// The keys of an edge by the version of the format.
fn has_other_edge_key(second: bool, edge: &Value) -> bool
    ensures { result ≡ has_other_key (edge_keys second) (view edge.now) }
{
    if second {
        has_other_key(edge, &["ends", "value"])
    } else {
        has_other_key(edge, &["ends"])
    }
}

// Whether a table has a key that is none of these.
fn has_other_key(table: &Value, known: &[&str]) -> bool
    ensures { result ≡ has_other_key (map (λ k. k.now) known.now) (view table.now) }
{
    match table.as_table() {
        Some(members) => members.keys().any(|key| !is_among(key.as_str(), known)),
        None => false,
    }
}

fn is_among(key: &str, known: &[&str]) -> bool
    ensures { result ≡ list_any (bytes_eq key.now) (map (λ k. k.now) known.now) }
{
    known.iter().any(|name| key == *name)
}

// Whether an edge has no ends.
fn lacks_ends(document: &Value) -> bool
    ensures { result ≡ list_any (lacks_key (codes "ends")) (edges_in (view document.now)) }
{
    let edges = items_at(document, "edge");
    edges.iter().any(|edge| lacks_key(edge, "ends"))
}

/// Returns whether a site or one of its jobs has no name.
pub(crate) fn site_lacks_key(site: &Value) -> bool
    ensures { result ≡ site_lacks_key (view site.now) }
{
    let jobs = items_at(site, "jobs");
    if lacks_key(site, "name") {
        return true;
    }
    jobs.iter().any(|job| lacks_key(job, "name"))
}

// Whether a table has no such key.
#[tactic(auto, unfolding(crate::specs::RefusalTests::lacks_key))]
fn lacks_key(table: &Value, key: &str) -> bool
    ensures { result ≡ lacks_key key.now (view table.now) }
{
    table.is_table() && table.get(key).is_none()
}

// Whether a value that is not of a site is of another kind than the format names for its key.
fn has_wrong_kind(document: &Value) -> bool
    ensures { result ≡ has_wrong_kind_outside (view document.now) }
{
    let edges = items_at(document, "edge");
    if has_no_tables(document, "site") {
        return true;
    }
    if has_no_tables(document, "edge") {
        return true;
    }
    edges.iter().any(edge_is_wrong)
}

#[tactic(auto, unfolding(crate::specs::RefusalTests::edge_is_wrong))]
fn edge_is_wrong(edge: &Value) -> bool
    ensures { result ≡ edge_is_wrong (view edge.now) }
{
    has_no_two_texts(edge) || has_no_whole_number(edge, "value")
}

// Whether there are ends that are not two texts.
#[tactic(auto, unfolding(crate::specs::RefusalTests::is_wrong))]
fn has_no_two_texts(edge: &Value) -> bool
    ensures { result ≡ is_wrong is_two_texts (codes "ends") (view edge.now) }
{
    match edge.get("ends") {
        Some(value) => !is_two_texts(value),
        None => false,
    }
}

/// Returns whether the value at the key is no text.
#[tactic(auto, unfolding(crate::specs::RefusalTests::is_wrong))]
pub(crate) fn has_no_text(table: &Value, key: &str) -> bool
    ensures { result ≡ is_wrong is_text key.now (view table.now) }
{
    table.get(key).is_some_and(|value| !value.is_str())
}

/// Returns whether the value at the key is no array of tables.
#[tactic(auto, unfolding(crate::specs::RefusalTests::is_wrong))]
pub(crate) fn has_no_tables(table: &Value, key: &str) -> bool
    ensures { result ≡ is_wrong is_tables key.now (view table.now) }
{
    table.get(key).is_some_and(|value| !is_tables(value))
}

// Whether the value at the key is no whole number, or one below 0.
#[tactic(auto, unfolding(crate::specs::RefusalTests::is_wrong))]
fn has_no_whole_number(table: &Value, key: &str) -> bool
    ensures { result ≡ is_wrong is_whole key.now (view table.now) }
{
    table.get(key).is_some_and(|value| !is_whole(value))
}

/// Returns whether a value is a whole number that is not below 0.
pub(crate) fn is_whole(value: &Value) -> bool
    ensures { result ≡ is_whole (view value.now) }
{
    value.as_integer().is_some_and(|number| number >= 0)
}

// Whether a value is an array of tables.
fn is_tables(value: &Value) -> bool
    ensures { result ≡ is_tables (view value.now) }
{
    let items = items_in(value);
    value.is_array() && items.iter().all(Value::is_table)
}

// Whether a value is an array of exactly two texts.
fn is_two_texts(value: &Value) -> bool
    ensures { result ≡ is_two_texts (view value.now) }
{
    let items = items_in(value);
    items.len() == 2 && items.iter().all(Value::is_str)
}
