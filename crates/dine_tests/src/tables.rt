// The tables of edges and of sites.
ghost use Rattle.std.specs.Prelude.{◌≡◌, IfOk};
ghost use Rattle.dine_graph.specs.Plan.{edge_count, site_count};

use crate::asserts::same;
use dine::{write_edges, write_sites};
use dine_plan::{Plan, read_plan};
use dine_threads::{EdgeRow, SiteRow};
use std::alloc::Global;
use std::process::Abort;

// A path of three sites. The name of the middle one has each kind of byte that a name may have.
const PATH: &str = "[[site]]
name = \"a\"
[[site]]
name = \"B-2_\"
[[site]]
name = \"c\"
[[edge]]
ends = [\"a\", \"B-2_\"]
[[edge]]
ends = [\"B-2_\", \"c\"]
";

fn path<R: Abort>(rt: &R, alloc: Global, version: u32) -> Plan
    ensures sites { site_count result ≡ 3 }
    ensures edges { edge_count result ≡ 2 }
{
    let text = format!(in alloc; "version = {version}\n{PATH}").expect(rt, "memory");
    let plan = read_plan(alloc, text.as_str()).expect(rt, "a plan");
    assert!(rt; plan.sites() == 3);
    assert!(rt; plan.edges() == 2);
    plan
}

// A row of each edge.
const ROWS: [EdgeRow; 2] = [
    EdgeRow {
        edge: 0,
        lo: 0,
        hi: 1,
        lo_meals: 0,
        hi_meals: 1000,
        value: 0,
    },
    EdgeRow {
        edge: 1,
        lo: 1,
        hi: 2,
        lo_meals: 12,
        hi_meals: 4_294_967_295,
        value: u64::MAX,
    },
];

// What the rows of the edges are in a plan of that version.
fn edges_are<R: Abort>(rt: &R, alloc: Global, version: u32, wanted: &str) {
    let plan = path(rt, alloc, version);
    let table = write_edges(alloc, &plan, &ROWS).expect(rt, "memory");
    same(rt, &table.as_slice(), &wanted.as_bytes());
}

#[test]
fn edges_have_the_names_of_their_ends(rt: HostRuntime) {
    let wanted = "edge,lo,hi,lo_meals,hi_meals\n0,a,B-2_,0,1000\n1,B-2_,c,12,4294967295\n";
    edges_are(&rt, rt.alloc(), 1, wanted);
}

#[test]
fn edges_of_version_two_have_a_value(rt: HostRuntime) {
    let wanted =
        "edge,lo,hi,lo_meals,hi_meals,value\n0,a,B-2_,0,1000,0\n1,B-2_,c,12,4294967295,18446744073709551615\n";
    edges_are(&rt, rt.alloc(), 2, wanted);
}

#[test]
fn sites_have_their_names(rt: HostRuntime) {
    let plan = path(&rt, rt.alloc(), 1);
    let rows = [
        SiteRow {
            site: 0,
            meals: 3,
            failed: 1,
        },
        SiteRow {
            site: 1,
            meals: 1000,
            failed: 0,
        },
        SiteRow {
            site: 2,
            meals: 0,
            failed: 0,
        },
    ];
    let table = write_sites(rt.alloc(), &plan, &rows).expect(&rt, "memory");
    same(
        &rt,
        &table.as_slice(),
        &b"site,meals,failed\na,3,1\nB-2_,1000,0\nc,0,0\n".as_slice(),
    );
}

#[test]
fn tables_without_rows_are_their_headers(rt: HostRuntime) {
    let plan = path(&rt, rt.alloc(), 1);
    let edges = write_edges(rt.alloc(), &plan, &[]).expect(&rt, "memory");
    same(
        &rt,
        &edges.as_slice(),
        &b"edge,lo,hi,lo_meals,hi_meals\n".as_slice(),
    );
    let sites = write_sites(rt.alloc(), &plan, &[]).expect(&rt, "memory");
    same(&rt, &sites.as_slice(), &b"site,meals,failed\n".as_slice());
}
