// Plans made by a program, beside what is read of the text that says the same.
use crate::asserts::same;
use crate::plans::{in_short, printed, second_in_short};
use dine_builder::Missing;
use dine_plan::{EdgeId, Plan, PlanBuilder, PlanFault, SiteId, plan_text, read_plan};
use dine_token::Act;
use std::alloc::Global;
use std::process::Abort;

const THREE: &str = r#"
version = 2
edge = [{ ends = ["b", "a"], value = 5 }, { ends = ["b", "c"] }]
site = [
    { name = "a", on_fault = "resign", jobs = [
        { name = "1" }, { name = "2", add = 10, fails = true }, { name = "3", turns = 100 }
    ] },
    { name = "b", jobs = [{ name = "1", set = 7 }] },
    { name = "c" },
]
"#;

fn add_site(rt: &impl Abort, plan: &mut PlanBuilder, name: &str, jobs: u32) -> u32 {
    plan.site(name, jobs).expect(rt, "memory").0
}

fn add_edge(rt: &impl Abort, plan: &mut PlanBuilder, one: u32, other: u32) -> u32 {
    plan.edge(SiteId(one), SiteId(other)).expect(rt, "memory").0
}

// What is set for a job, by its site and its number from 1; for a site; or for an edge.
#[derive(Clone, Copy)]
enum Part {
    Fails(u32, u32),
    Turns(u32, u32, u32),
    Does(u32, u32, Act),
    Resigns(u32),
    Value(u32, u64),
}

// Sets it, and returns what is missing if there is no such job, site or edge.
fn set_part(plan: &mut PlanBuilder, part: Part) -> Result<(), Missing> {
    match part {
        Part::Fails(site, k) => plan.fails(SiteId(site), k),
        Part::Turns(site, k, turns) => plan.turns(SiteId(site), k, turns),
        Part::Does(site, k, act) => plan.act(SiteId(site), k, act),
        Part::Resigns(site) => plan.resign(SiteId(site)),
        Part::Value(edge, value) => plan.value(EdgeId(edge), value),
    }
}

// Sets all of these, and checks whether there is each such job, site or edge.
fn set_all(rt: &impl Abort, plan: &mut PlanBuilder, parts: &[(Part, bool)]) {
    for (part, is_there) in parts {
        same(rt, &set_part(plan, *part).is_ok(), is_there);
    }
}

// Builds the plan of the text `THREE`.
fn three(rt: &impl Abort, alloc: Global) -> PlanBuilder {
    let mut plan = PlanBuilder::open(alloc);
    let a = add_site(rt, &mut plan, "a", 3);
    let b = add_site(rt, &mut plan, "b", 1);
    let first = add_edge(rt, &mut plan, b, a);
    let _second = add_edge(rt, &mut plan, b, 2);
    let _c = add_site(rt, &mut plan, "c", 0);
    let parts = [
        (Part::Does(a, 2, Act::Add(10)), true),
        (Part::Fails(a, 2), true),
        (Part::Turns(a, 3, 100), true),
        (Part::Resigns(a), true),
        (Part::Does(b, 1, Act::Set(7)), true),
        (Part::Value(first, 5), true),
    ];
    set_all(rt, &mut plan, &parts);
    plan
}

// Returns all that a plan has, in short, or its fault as it is printed.
fn plan_in_short(rt: &impl Abort, alloc: Global, plan: Result<Plan, PlanFault>) -> String {
    match plan {
        Ok(plan) => whole_in_short(rt, alloc, &plan),
        Err(fault) => printed(rt, alloc, fault),
    }
}

fn whole_in_short(rt: &impl Abort, alloc: Global, plan: &Plan) -> String {
    let form = in_short(rt, alloc, plan);
    let values = second_in_short(rt, alloc, plan);
    format!(in alloc; "{form} {values}").expect(rt, "memory")
}

// Checks what a plan has, or its fault as it is printed.
fn plan_is(rt: &impl Abort, alloc: Global, plan: Result<Plan, PlanFault>, want: &str) {
    let short = plan_in_short(rt, alloc, plan);
    same(rt, &short.as_str(), &want);
}

fn is_read(rt: &impl Abort, alloc: Global, text: &str, want: &str) {
    plan_is(rt, alloc, read_plan(alloc, text), want);
}

// Checks the result of the builder, and that the text that says the same has this result too.
fn builds(rt: &impl Abort, alloc: Global, plan: &PlanBuilder, want: &str) {
    let text = plan_text(alloc, plan).expect(rt, "memory");
    is_read(rt, alloc, text.as_str(), want);
    plan_is(rt, alloc, plan.finish(), want);
}

const THREE_IN_SHORT: &str =
    "a 1/0/false 2/0/true 3/100/false;b 1/0/false;c; 0-1 1-2 2: a! +0 +10 +0 b =7 c 5 0";

#[test]
fn builds_what_is_read(rt: HostRuntime) {
    builds(&rt, rt.alloc(), &three(&rt, rt.alloc()), THREE_IN_SHORT);
    is_read(&rt, rt.alloc(), THREE, THREE_IN_SHORT);
}

const THREE_AS_GRAPH: &str =
    "graph {\n  \"a\";\n  \"b\";\n  \"c\";\n  \"a\" -- \"b\";\n  \"b\" -- \"c\";\n}\n";

#[test]
fn prints_a_graph(rt: HostRuntime) {
    let plan = three(&rt, rt.alloc()).finish().expect(&rt, "a plan");
    let printed = format!(in rt.alloc(); "{plan}").expect(&rt, "memory");
    same(&rt, &printed.as_str(), &THREE_AS_GRAPH);
    let dot = plan.to_dot(rt.alloc()).expect(&rt, "memory");
    same(&rt, &dot.as_str(), &THREE_AS_GRAPH);
}

#[test]
fn numbers_sites_and_edges_in_order(rt: HostRuntime) {
    let mut plan = PlanBuilder::open(rt.alloc());
    for (name, jobs, number) in [("a", 2, 0), ("b", 0, 1), ("c", 1, 2)] {
        same(&rt, &add_site(&rt, &mut plan, name, jobs), &number);
    }
    for (one, other, number) in [(0, 1, 0), (1, 2, 1)] {
        same(&rt, &add_edge(&rt, &mut plan, one, other), &number);
    }
    let parts = [
        (Part::Fails(0, 0), false),
        (Part::Fails(0, 1), true),
        (Part::Fails(0, 2), true),
        (Part::Fails(0, 3), false),
        (Part::Turns(1, 1, 5), false),
        (Part::Does(3, 1, Act::Set(1)), false),
        (Part::Does(2, 1, Act::Set(1)), true),
        (Part::Resigns(2), true),
        (Part::Resigns(3), false),
        (Part::Value(1, 9), true),
        (Part::Value(2, 9), false),
    ];
    set_all(&rt, &mut plan, &parts);
}

// Builds a plan of a number of sites with a job each, and with all their edges or none.
fn wide(rt: &impl Abort, alloc: Global, sites: u32, has_edges: bool) -> PlanBuilder {
    let mut plan = PlanBuilder::open(alloc);
    for site in 0..sites {
        let name = format!(in alloc; "s{site}").expect(rt, "memory");
        add_site(rt, &mut plan, name.as_str(), 1);
        for lower in 0..if has_edges { site } else { 0 } {
            add_edge(rt, &mut plan, lower, site);
        }
    }
    plan
}

// What the fault of a builder says has to be mended; nothing if it has none.
fn explained(rt: &impl Abort, alloc: Global, plan: &PlanBuilder) -> String {
    match plan.finish() {
        Ok(_plan) => String::new(alloc),
        Err(fault) => in_words(rt, alloc, plan, fault),
    }
}

fn in_words(rt: &impl Abort, alloc: Global, plan: &PlanBuilder, fault: PlanFault) -> String {
    let words = plan.explain(fault);
    words.to_string(alloc).expect(rt, "memory")
}

fn explains(rt: &impl Abort, alloc: Global, plan: &PlanBuilder, want: &str) {
    let words = explained(rt, alloc, plan);
    same(rt, &words.as_str(), &want);
}

#[test]
fn explains_what_to_mend(rt: HostRuntime) {
    let mut plan = PlanBuilder::open(rt.alloc());
    let no_site = "number of sites: 0, number of edges: 0; a plan has at least 1 site";
    explains(&rt, rt.alloc(), &plan, no_site);
    add_site(&rt, &mut plan, "a", 1);
    explains(&rt, rt.alloc(), &plan, "");
    add_edge(&rt, &mut plan, 4, 0);
    let unknown = "edge 0, between sites 4 and 0 (number of sites: 1): \
        an end is not the number of a site; the first site is 0";
    explains(&rt, rt.alloc(), &plan, unknown);
    add_site(&rt, &mut plan, "b c", 1);
    let bad_name = "site 1, \"b c\": its name is not 1 to 32 ASCII letters, digits, _ or -";
    explains(&rt, rt.alloc(), &plan, bad_name);
}

// Faults that no builder has, or not this one, are explained as far as they can be.
#[test]
fn explains_faults_of_others(rt: HostRuntime) {
    let plan = three(&rt, rt.alloc());
    for (fault, want) in [
        (PlanFault::NotToml, "the text is not TOML"),
        (PlanFault::Memory, "an allocation failed"),
        (
            PlanFault::SiteTwice(3),
            "site 3: an earlier site has the same name",
        ),
        (PlanFault::Loop(2), "edge 2: both ends are one site"),
    ] {
        let words = in_words(&rt, rt.alloc(), &plan, fault);
        same(&rt, &words.as_str(), &want);
    }
}

// No site can have a name like these.
fn refuses_names(rt: &impl Abort, alloc: Global) {
    for name in ["", "a b", "\" }]\nversion = 1 #", "\u{e9}"] {
        let mut plan = three(rt, alloc);
        add_site(rt, &mut plan, name, 0);
        builds(rt, alloc, &plan, "6 BadName at site 3");
    }
}

#[test]
fn refuses_names_and_sites(rt: HostRuntime) {
    let mut plan = PlanBuilder::open(rt.alloc());
    builds(&rt, rt.alloc(), &plan, "8 NoSite");
    add_site(&rt, &mut plan, "a", 1_000);
    add_site(&rt, &mut plan, "a", u32::MAX);
    builds(&rt, rt.alloc(), &plan, "7 SiteTwice at site 1");
    refuses_names(&rt, rt.alloc());
    let many = wide(&rt, rt.alloc(), 65, false);
    builds(&rt, rt.alloc(), &many, "9 TooManySites");
}

#[test]
fn refuses_edges(rt: HostRuntime) {
    let mut plan = three(&rt, rt.alloc());
    for (one, other, want) in [
        (0, 1, "14 EdgeTwice at edge 2"),
        (2, 2, "13 Loop at edge 3"),
        (3, 0, "12 UnknownEnd at edge 4"),
    ] {
        add_edge(&rt, &mut plan, one, other);
        builds(&rt, rt.alloc(), &plan, want);
    }
    add_site(&rt, &mut plan, "d", 0);
    builds(&rt, rt.alloc(), &plan, "13 Loop at edge 3");
    let many = wide(&rt, rt.alloc(), 33, true);
    builds(&rt, rt.alloc(), &many, "15 TooManyEdges");
}

// The largest numbers of all.
const LARGEST: [(Part, bool); 4] = [
    (Part::Turns(1, 1, 1_000_000), true),
    (Part::Does(0, 1, Act::Add(1_000_000)), true),
    (Part::Does(1, 1, Act::Set(1_000_000)), true),
    (Part::Value(1, 1_000_000), true),
];

#[test]
fn refuses_numbers(rt: HostRuntime) {
    let mut plan = three(&rt, rt.alloc());
    for (part, want) in [
        (Part::Value(1, u64::MAX), "19 ValueTooLarge at edge 1"),
        (
            Part::Does(1, 1, Act::Set(1_000_001)),
            "18 ActTooLarge at site 1",
        ),
        (
            Part::Does(0, 1, Act::Add(u64::MAX)),
            "18 ActTooLarge at site 0",
        ),
        (Part::Turns(1, 1, u32::MAX), "11 TurnsTooLarge at site 1"),
    ] {
        set_all(&rt, &mut plan, &[(part, true)]);
        builds(&rt, rt.alloc(), &plan, want);
    }
    set_all(&rt, &mut plan, &LARGEST);
    let want =
        "a 1/0/false 2/0/true 3/100/false;b 1/1000000/false;c; 0-1 1-2 2: a! +1000000 +10 +0 b =1000000 c 5 1000000";
    builds(&rt, rt.alloc(), &plan, want);
}
