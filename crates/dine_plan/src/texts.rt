//! A text of a draft that a program built.
ghost use Rattle.std.specs.Prelude.{◌≡◌, IfOk, OnOk, map, string_bytes};
ghost use Rattle.toml.specs.View.{view, table_view};
ghost use Rattle.dine_graph.specs.Job.{seen_job};
ghost use Rattle.dine_draft.specs.Draft.{names_of};
ghost use Rattle.dine_builder.specs.DraftPlan.{listed_draft, listed_site};
ghost use Rattle.dine_plan.specs.DraftDocument.{Says, document_of, edge_table, end_name, job_table, site_table};
ghost use Rattle.dine_plan.specs.DraftDocument.{policy_word, whole};
ghost use Rattle.dine_plan.specs.private.Tables.{with_member, with_act_member};

use dine_builder::PlanBuilder;
use dine_draft::{Draft, DraftEdge};
use dine_graph::{Job, Site};
use dine_token::Act;
use std::alloc::{AllocError, Global};
use toml::{Table, Value};

/// Returns a text of what a builder describes, in version 2 of the format. `read_plan` returns of it what `finish` of
/// the builder returns, if no site has more than 1,000 jobs. Of a site with more the text has 1,001 jobs, and
/// `read_plan` refuses it.
///
/// # Errors
///
/// Returns `AllocError` if an allocation fails.
pub fn plan_text(alloc: Global, builder: &PlanBuilder) -> Result<String, AllocError>
    ensures { IfOk result (λ s. Says (string_bytes s) builder.now) }
{
    let draft = builder.draft()?;
    let document = document(alloc, &draft)?;
    match toml::table_to_string_pretty(alloc, &document) {
        Ok(text) => Ok(text),
        Err(_) => Err(AllocError),
    }
}

// The document of a draft.
fn document(alloc: Global, draft: &Draft) -> Result<Table, AllocError>
    ensures { IfOk result (λ t. table_view t ≡ document_of (listed_draft draft.now)) }
{
    let edges = edge_tables(alloc, draft.sites.as_slice(), draft.edges.as_slice())?;
    let sites = site_tables(alloc, draft.sites.as_slice())?;
    let mut document = Table::new(alloc);
    put(alloc, &mut document, "version", Value::Integer(2))?;
    put(alloc, &mut document, "site", Value::Array(sites))?;
    put(alloc, &mut document, "edge", Value::Array(edges))?;
    Ok(document)
}

fn site_tables(alloc: Global, sites: &[Site]) -> Result<Vec<Value>, AllocError>
    ensures { IfOk result (λ v. map view v.items ≡ map site_table (map listed_site sites.now)) }
{
    let mut tables = Vec::new(alloc);
    for site in sites {
        tables.push(site_table(alloc, site)?)?;
    }
    Ok(tables)
}

fn site_table(alloc: Global, site: &Site) -> Result<Value, AllocError>
    ensures { IfOk result (λ v. view v ≡ site_table (listed_site site.now)) }
{
    let jobs = job_tables(alloc, site.jobs.as_slice())?;
    let mut table = Table::new(alloc);
    put(alloc, &mut table, "jobs", Value::Array(jobs))?;
    put(
        alloc,
        &mut table,
        "name",
        Value::string(alloc, site.name.as_str())?,
    )?;
    put(
        alloc,
        &mut table,
        "on_fault",
        Value::string(alloc, policy_word(site.resigns))?,
    )?;
    Ok(Value::Table(table))
}

fn job_tables(alloc: Global, jobs: &[Job]) -> Result<Vec<Value>, AllocError>
    ensures { IfOk result (λ v. map view v.items ≡ map job_table (map seen_job jobs.now)) }
{
    let mut tables = Vec::new(alloc);
    for job in jobs {
        tables.push(job_table(alloc, job)?)?;
    }
    Ok(tables)
}

fn job_table(alloc: Global, job: &Job) -> Result<Value, AllocError>
    ensures { IfOk result (λ v. view v ≡ job_table (seen_job job.now)) }
{
    let name = format!(in alloc; "{}", job.name)?;
    let mut table = Table::new(alloc);
    put(alloc, &mut table, "name", Value::String(name))?;
    put(alloc, &mut table, "turns", whole(job.turns as u64))?;
    put(alloc, &mut table, "fails", Value::Boolean(job.fails))?;
    put_act(alloc, &mut table, job.act)?;
    Ok(Value::Table(table))
}

// The `on_fault` of a site.
fn policy_word(resigns: bool) -> &'static str
    ensures { result.now ≡ policy_word resigns }
{
    if resigns { "resign" } else { "go" }
}

// Puts what a job does to values into its table.
fn put_act(alloc: Global, table: &mut Table, act: Act) -> Result<(), AllocError>
    ensures { OnOk result (table_view table.new ≡ with_act_member act (table_view table.old)) }
{
    match act {
        Act::Add(amount) => put(alloc, table, "add", whole(amount)),
        Act::Set(amount) => put(alloc, table, "set", whole(amount)),
    }
}

fn edge_tables(alloc: Global, sites: &[Site], edges: &[DraftEdge]) -> Result<Vec<Value>, AllocError>
    ensures { IfOk result
        (λ v. map view v.items ≡ map (edge_table (names_of (map listed_site sites.now))) edges.now) }
{
    let mut tables = Vec::new(alloc);
    for edge in edges {
        tables.push(edge_table(alloc, sites, edge)?)?;
    }
    Ok(tables)
}

fn edge_table(alloc: Global, sites: &[Site], edge: &DraftEdge) -> Result<Value, AllocError>
    ensures { IfOk result (λ v. view v ≡ edge_table (names_of (map listed_site sites.now)) edge.now) }
{
    let mut ends = Vec::new(alloc);
    ends.push(Value::string(alloc, end_name(sites, edge.a))?)?;
    ends.push(Value::string(alloc, end_name(sites, edge.b))?)?;
    let mut table = Table::new(alloc);
    put(alloc, &mut table, "ends", Value::Array(ends))?;
    put(alloc, &mut table, "value", whole(edge.value))?;
    Ok(Value::Table(table))
}

// The name of a site, or the empty text if there is no site of this number.
fn end_name(sites: &[Site], site: u32) -> &str
    ensures { result.now ≡ end_name (names_of (map listed_site sites.now)) site }
{
    if site as usize >= sites.len() {
        return "";
    }
    sites[site as usize].name.as_str()
}

// A whole number as a value. One above the greatest that TOML has is written as that one.
fn whole(number: u64) -> Value
    ensures { view result ≡ whole number }
{
    Value::Integer(number.min(i64::MAX as u64) as i64)
}

// Puts a value into a table at a key.
fn put(alloc: Global, table: &mut Table, key: &str, value: Value) -> Result<(), AllocError>
    ensures { OnOk result (table_view table.new ≡ with_member key.now (view value) (table_view table.old)) }
{
    let key = String::from_str(alloc, key)?;
    table.insert(key, value)?;
    Ok(())
}
