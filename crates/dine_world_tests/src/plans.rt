// The reader of plan texts, and the calls of a plan. The texts that it refuses are in tests/texts/.
ghost use Rattle.std.specs.Prelude.{◌<◌};
ghost use Rattle.dine_graph.specs.Plan.{site_count};

use crate::asserts::{holds, same};
use dine_plan::{Plan, PlanFault, read_plan};
use dine_token::Act;
use std::alloc::Global;
use std::fmt::Write;
use std::process::Abort;

// What is read of a text: its plan in short, or its fault as it is printed.
fn read_in_short(rt: &impl Abort, alloc: Global, text: &str) -> String {
    match read_plan(alloc, text) {
        Ok(plan) => in_short(rt, alloc, &plan),
        Err(fault) => printed(rt, alloc, fault),
    }
}

pub(crate) fn printed(rt: &impl Abort, alloc: Global, fault: PlanFault) -> String {
    format!(in alloc; "{fault}").expect(rt, "memory")
}

// Each site with its jobs, and then the ends of each edge.
pub(crate) fn in_short(rt: &impl Abort, alloc: Global, plan: &Plan) -> String {
    let mut out = String::new(alloc);
    for site in 0..plan.sites() {
        out.push_str(plan.name(site)).expect(rt, "memory");
        push_jobs(rt, &mut out, plan, site);
        out.push(';').expect(rt, "memory");
    }
    for edge in 0..plan.edges() {
        let (lo, hi) = plan.ends(edge);
        write!(out, " {lo}-{hi}").expect(rt, "memory");
    }
    out
}

fn push_jobs(rt: &impl Abort, out: &mut String, plan: &Plan, site: u32)
    requires { site < site_count plan.now }
{
    for k in 0..plan.jobs(site) {
        let job = plan.job(site, k + 1);
        let name = &job.name;
        let turns = job.turns;
        let fails = job.fails;
        write!(out, " {name}/{turns}/{fails}").expect(rt, "memory");
    }
}

const BOTH_FORMS: [&str; 2] = [
    "version = 1\n\
    [[site]]\nname = \"a\"\njobs = [{ name = \"x\" }, { name = \"y\", turns = 5, fails = true }]\n\
    [[site]]\nname = \"b\"\n\
    [[site]]\nname = \"c\"\n[[site.jobs]]\nname = \"z\"\n\
    [[edge]]\nends = [\"a\", \"b\"]\n[[edge]]\nends = [\"b\", \"c\"]\n",
    "edge = [{ ends = [\"b\", \"a\"] }, { ends = [\"c\", \"b\"] }]\n\
    site = [{ jobs = [{ name = \"x\", fails = false }, { fails = true, turns = 5, name = \"y\" }], name = \"a\" }, \
    { name = \"b\", jobs = [] }, { name = \"c\", jobs = [{ name = \"z\", turns = 0 }] }]\n\
    version = 1\n",
];

#[test]
fn reads_both_forms_of_a_plan(rt: HostRuntime) {
    let want = "a x/0/false y/5/true;b;c z/0/false; 0-1 1-2";
    for text in BOTH_FORMS {
        let short = read_in_short(&rt, rt.alloc(), text);
        same(&rt, &short.as_str(), &want);
    }
}

const WHOLE: &str = "version = 1\n\
    [[site]]\nname = \"a\"\njobs = [{ name = \"x\" }, { name = \"y\", turns = 5, fails = true }]\n\
    [[site]]\nname = \"b\"\n\
    [[site]]\nname = \"c\"\njobs = [{ name = \"z\", turns = 1000000 }]\n\
    [[edge]]\nends = [\"c\", \"b\"]\n[[edge]]\nends = [\"a\", \"c\"]\n";

// The plan of a text. What `read_plan` promises of the text is not said here: of a whole text it is long.
pub(crate) fn read(rt: &impl Abort, alloc: Global, text: &str) -> Plan {
    read_plan(alloc, text).expect(rt, "a plan")
}

fn has_its_sites(rt: &impl Abort, plan: &Plan) {
    holds(rt, plan.sites() == 3);
    let names = (plan.name(0), plan.name(1), plan.name(2));
    same(rt, &names, &("a", "b", "c"));
    same(rt, &(plan.jobs(0), plan.jobs(1), plan.jobs(2)), &(2, 0, 1));
    let all: [&[u32]; 3] = [&[1], &[0], &[0, 1]];
    for site in 0..plan.sites() {
        let edges = all.get(site as usize).copied();
        same(rt, &Some(plan.edges_of(site)), &edges);
    }
}

fn has_its_edges(rt: &impl Abort, plan: &Plan) {
    same(rt, &plan.edges(), &2);
    for edge in 0..plan.edges() {
        let (lo, hi) = plan.ends(edge);
        same(rt, &(lo, hi), &(if edge == 0 { (1, 2) } else { (0, 2) }));
        let others = (plan.other(edge, lo), plan.other(edge, hi));
        same(rt, &others, &(hi, lo));
        let places = (plan.place(edge, lo), plan.place(edge, hi));
        same(rt, &places, &(0, edge));
    }
}

// Every reader of the plan of a text.
#[test]
fn reads_the_whole_plan(rt: HostRuntime) {
    let plan = read(&rt, rt.alloc(), WHOLE);
    let short = in_short(&rt, rt.alloc(), &plan);
    let want = "a x/0/false y/5/true;b;c z/1000000/false; 1-2 0-2";
    same(&rt, &short.as_str(), &want);
    has_its_sites(&rt, &plan);
    has_its_edges(&rt, &plan);
}

const FAULTS: [(PlanFault, u32, &str); 3] = [
    (PlanFault::Version, 2, "2 Version"),
    (PlanFault::BadName(3), 6, "6 BadName at site 3"),
    (PlanFault::UnknownEnd(3), 12, "12 UnknownEnd at edge 3"),
];

#[test]
fn prints_a_fault_by_its_number(rt: HostRuntime) {
    for (fault, number, text) in FAULTS {
        let found = printed(&rt, rt.alloc(), fault);
        same(&rt, &found.as_str(), &text);
        same(&rt, &fault.number(), &number);
    }
}

const SECOND: &str = r#"
version = 2
[[site]]
name = "a"
on_fault = "resign"
jobs = [{ name = "x", add = 10 }, { name = "y", set = 0 }, { name = "z" }]
[[site]]
name = "b"
on_fault = "go"
[[edge]]
ends = ["a", "b"]
value = 1000000
"#;

// What version 2 of the format adds to version 1: each site that resigns is marked, and + or = is before the amount of
// an act.
pub(crate) fn second_in_short(rt: &impl Abort, alloc: Global, plan: &Plan) -> String {
    let mut out = format!(in alloc; "{}:", plan.version()).expect(rt, "memory");
    for site in 0..plan.sites() {
        let mark = if plan.resigns(site) { "!" } else { "" };
        write!(out, " {}{mark}", plan.name(site)).expect(rt, "memory");
        push_acts(rt, &mut out, plan, site);
    }
    for edge in 0..plan.edges() {
        write!(out, " {}", plan.value(edge)).expect(rt, "memory");
    }
    out
}

fn push_acts(rt: &impl Abort, out: &mut String, plan: &Plan, site: u32)
    requires { site < site_count plan.now }
{
    for k in 0..plan.jobs(site) {
        let (sign, amount) = match plan.job(site, k + 1).act {
            Act::Add(amount) => ('+', amount),
            Act::Set(amount) => ('=', amount),
        };
        write!(out, " {sign}{amount}").expect(rt, "memory");
    }
}

#[test]
fn reads_values_acts_and_policies(rt: HostRuntime) {
    let plan = read(&rt, rt.alloc(), SECOND);
    let found = second_in_short(&rt, rt.alloc(), &plan);
    same(&rt, &found.as_str(), &"2: a! +10 =0 +0 b 1000000");
}
