//! The tables of a run.
ghost use Rattle.std.specs.Prelude.{◌≡◌, ◌≤◌, ◌++◌, [], All, IfOk, IsTrue, OnOk, length, map};
ghost use Rattle.std.specs.List.{list_all};
ghost use Rattle.dine.specs.private.Records.{IsBetweenRecords, is_plain, text_so_far};
ghost use Rattle.dine.specs.Tables.{IsEdgeRowOf, IsSiteRowOf, edge_record, edges_header, edges_table, record_text};
ghost use Rattle.dine.specs.Tables.{site_record, sites_header, sites_table};

use csv::Writer;
use dine_graph::Plan;
use dine_threads::{EdgeRow, SiteRow};
use std::alloc::{AllocError, Global};

/// Returns the table of edges: the header `edge,lo,hi,lo_meals,hi_meals`, and for each row a record of the edge's
/// number, the names of its two ends and their numbers of meals. A plan of version 2 has one column more, `value`. Each
/// record ends with one line feed.
///
/// The numbers in the rows are numbers of edges and sites of the plan.
///
/// # Errors
///
/// `AllocError` if an allocation failed.
pub fn write_edges(alloc: Global, plan: &Plan, rows: &[EdgeRow]) -> Result<Vec<u8>, AllocError>
    requires { All (IsEdgeRowOf plan.now) rows.now }
    ensures { IfOk result (λ table. table.items ≡ edges_table plan.now rows.now) }
{
    let mut table = Writer::from_writer(Vec::new(alloc));
    push_edges_header(&mut table, plan)?;
    for row in rows {
        push_edge(alloc, &mut table, plan, row)?;
    }
    bytes_of(table)
}

/// Returns the table of sites: the header `site,meals,failed`, and for each row a record of the site's name, the number
/// of its meals, and in how many of them its job failed. Each record ends with one line feed.
///
/// The numbers in the rows are numbers of sites of the plan.
///
/// # Errors
///
/// `AllocError` if an allocation failed.
pub fn write_sites(alloc: Global, plan: &Plan, rows: &[SiteRow]) -> Result<Vec<u8>, AllocError>
    requires { All (IsSiteRowOf plan.now) rows.now }
    ensures { IfOk result (λ table. table.items ≡ sites_table plan.now rows.now) }
{
    let mut table = Writer::from_writer(Vec::new(alloc));
    push_sites_header(&mut table)?;
    for row in rows {
        push_site(alloc, &mut table, plan, row)?;
    }
    bytes_of(table)
}

// Adds a record of these fields, two or more. The table is written into memory, so it fails only without memory.
fn push_record(table: &mut Writer<Vec<u8>>, fields: &[&[u8]]) -> Result<(), AllocError>
    requires between { IsBetweenRecords table.old }
    requires some { 2 ≤ length fields.now }
    requires plain { IsTrue (list_all is_plain (map (λ field. field.now) fields.now)) }
    ensures between { OnOk result (IsBetweenRecords table.new) }
    ensures text { OnOk result
        (text_so_far table.new ≡ text_so_far table.old ++ record_text (map (λ field. field.now) fields.now)) }
{
    let Ok(()) = table.write_fields(fields) else {
        return Err(AllocError);
    };
    Ok(())
}

// Adds the first record of the table of edges.
fn push_edges_header(table: &mut Writer<Vec<u8>>, plan: &Plan) -> Result<(), AllocError>
    requires { IsBetweenRecords table.old }
    ensures between { OnOk result (IsBetweenRecords table.new) }
    ensures text { OnOk result (text_so_far table.new ≡ text_so_far table.old ++ edges_header plan.now) }
{
    if plan.version() == 2 {
        return push_record(
            table,
            &[b"edge", b"lo", b"hi", b"lo_meals", b"hi_meals", b"value"],
        );
    }
    push_record(table, &[b"edge", b"lo", b"hi", b"lo_meals", b"hi_meals"])
}

// Adds the first record of the table of sites.
fn push_sites_header(table: &mut Writer<Vec<u8>>) -> Result<(), AllocError>
    requires { IsBetweenRecords table.old }
    ensures between { OnOk result (IsBetweenRecords table.new) }
    ensures text { OnOk result (text_so_far table.new ≡ text_so_far table.old ++ sites_header) }
{
    push_record(table, &[b"site", b"meals", b"failed"])
}

// Adds the record of an edge.
fn push_edge(
    alloc: Global,
    table: &mut Writer<Vec<u8>>,
    plan: &Plan,
    row: &EdgeRow,
) -> Result<(), AllocError>
    requires between { IsBetweenRecords table.old }
    requires row { IsEdgeRowOf plan.now row.now }
    ensures between { OnOk result (IsBetweenRecords table.new) }
    ensures text { OnOk result (text_so_far table.new ≡ text_so_far table.old ++ edge_record plan.now row.now) }
{
    let EdgeRow {
        edge,
        lo,
        hi,
        lo_meals,
        hi_meals,
        value,
    } = *row;
    let edge = edge.to_string(alloc)?;
    let lo_meals = lo_meals.to_string(alloc)?;
    let hi_meals = hi_meals.to_string(alloc)?;
    let value = value.to_string(alloc)?;
    let fields = [
        edge.as_bytes(),
        plan.name(lo).as_bytes(),
        plan.name(hi).as_bytes(),
        lo_meals.as_bytes(),
        hi_meals.as_bytes(),
        value.as_bytes(),
    ];
    if plan.version() == 2 {
        return push_record(table, &fields);
    }
    push_record(table, &fields[..5])
}

// Adds the record of a site.
fn push_site(
    alloc: Global,
    table: &mut Writer<Vec<u8>>,
    plan: &Plan,
    row: &SiteRow,
) -> Result<(), AllocError>
    requires between { IsBetweenRecords table.old }
    requires row { IsSiteRowOf plan.now row.now }
    ensures between { OnOk result (IsBetweenRecords table.new) }
    ensures text { OnOk result (text_so_far table.new ≡ text_so_far table.old ++ site_record plan.now row.now) }
{
    let SiteRow {
        site,
        meals,
        failed,
    } = *row;
    let meals = meals.to_string(alloc)?;
    let failed = failed.to_string(alloc)?;
    let fields = [
        plan.name(site).as_bytes(),
        meals.as_bytes(),
        failed.as_bytes(),
    ];
    push_record(table, &fields)
}

// Returns the text of the table.
fn bytes_of(table: Writer<Vec<u8>>) -> Result<Vec<u8>, AllocError>
    ensures { IfOk result (λ bytes. bytes.items ≡ text_so_far table) }
{
    table.into_inner().map_err(|_| AllocError)
}
