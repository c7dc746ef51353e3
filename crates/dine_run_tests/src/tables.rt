// The tables of what was gathered of a path of three sites.
ghost use Rattle.std.specs.Prelude.{◌≡◌, IfOk};
ghost use Rattle.dine_run.specs.Tables.{IsGatheredOf};

use crate::asserts::same;
use crate::faults::no_checks;
use dine_link::ThreadLog;
use dine_plan::{Plan, read_plan};
use dine_run::{EdgeRow, Gathered, SiteOut, SiteRow, edge_table, site_table};
use dine_test_diners::Taster;
use dine_token::{Act, Fork, Held, Meal};
use std::alloc::{AllocError, Global};
use std::process::Abort;
use std::test::Fail;

// The sites a, b and c with three, one and no jobs, and the edges a-b and b-c.
const PATH: &str = "version = 1\n\
    [[site]]\nname = \"a\"\njobs = [{ name = \"x\" }, { name = \"y\" }, { name = \"z\" }]\n\
    [[site]]\nname = \"b\"\njobs = [{ name = \"x\" }]\n[[site]]\nname = \"c\"\njobs = []\n\
    [[edge]]\nends = [\"a\", \"b\"]\n[[edge]]\nends = [\"b\", \"c\"]\n";

// The fork of a-b: a ate twice of three times, and then b once.
fn fork_of_both(alloc: Global) -> Result<Fork, AllocError>
    ensures edge { IfOk result (λ fork. fork.edge ≡ 0) }
    ensures ends { IfOk result (λ fork. fork.ends ≡ (0, 1)) }
    ensures due { IfOk result (λ fork. fork.due ≡ (3, 1)) }
{
    let fork = Fork::open(alloc, 0, 0, 1, 3, 1, 5)?;
    let mut hands = Vec::with_capacity(alloc, 1)?;
    hands.push_reserved(Held::take(fork));
    let hands = Meal::begin(0, 1, Act::Set(20), hands).end();
    let mut hands = Meal::begin(0, 2, Act::Add(3), hands).end();
    let Some(held) = hands.pop() else {
        unreachable!();
    };
    hands.push_reserved(Held::take(held.give(1)));
    let mut hands = Meal::begin(1, 1, Act::Add(0), hands).end();
    let Some(held) = hands.pop() else {
        unreachable!();
    };
    hands.destroy_empty();
    Ok(held.keep())
}

// The fork of b-c: b ate, and c has nothing due.
fn fork_of_one(alloc: Global) -> Result<Fork, AllocError>
    ensures edge { IfOk result (λ fork. fork.edge ≡ 1) }
    ensures ends { IfOk result (λ fork. fork.ends ≡ (1, 2)) }
    ensures due { IfOk result (λ fork. fork.due ≡ (1, 0)) }
{
    let fork = Fork::open(alloc, 1, 1, 2, 1, 0, 1_000_000)?;
    let mut hands = Vec::with_capacity(alloc, 1)?;
    hands.push_reserved(Held::take(fork));
    let mut hands = Meal::begin(1, 1, Act::Add(0), hands).end();
    let Some(held) = hands.pop() else {
        unreachable!();
    };
    hands.destroy_empty();
    Ok(held.keep())
}

fn out_of(alloc: Global, site: u32, ate: u32, failed: u32) -> Result<SiteOut<Taster>, AllocError>
    ensures { IfOk result (λ out. out.site ≡ site) }
{
    Ok(SiteOut {
        site,
        ate,
        failed,
        diner: Taster::open(alloc, 0, 0)?,
        tokens: Vec::new(alloc),
        journal: Vec::new(alloc),
        checks: no_checks(alloc)?,
        log: ThreadLog::start(),
        stray: None,
        fault: None,
    })
}

// Returns what is gathered of the path if one of the two jobs of a failed. The tables read no links.
fn gathered_of_path<R: Abort>(
    rt: &R,
    alloc: Global,
    plan: &Plan,
) -> Result<Gathered<Taster>, AllocError>
    ensures { IfOk result (λ gathered. IsGatheredOf plan.now gathered.forks.items gathered.sites.items) }
{
    assert!(rt; plan.sites() == 3);
    assert!(rt; plan.edges() == 2);
    let (a, b) = plan.ends(0);
    assert!(rt; a == 0);
    assert!(rt; b == 1);
    let (b, c) = plan.ends(1);
    assert!(rt; b == 1);
    assert!(rt; c == 2);
    assert!(rt; plan.jobs(0) == 3);
    assert!(rt; plan.jobs(1) == 1);
    assert!(rt; plan.jobs(2) == 0);
    let mut forks = Vec::with_capacity(alloc, 2)?;
    forks.push_reserved(fork_of_both(alloc)?);
    forks.push_reserved(fork_of_one(alloc)?);
    let mut sites = Vec::with_capacity(alloc, 3)?;
    sites.push_reserved(out_of(alloc, 0, 2, 1)?);
    sites.push_reserved(out_of(alloc, 1, 1, 0)?);
    sites.push_reserved(out_of(alloc, 2, 0, 0)?);
    Ok(Gathered {
        forks,
        sites,
        links: Vec::new(alloc),
    })
}

#[test]
fn row_of_an_edge_has_the_meals_in_its_log(rt: HostRuntime) -> Result<(), Fail> {
    let alloc = rt.alloc();
    let plan = read_plan(alloc, PATH).expect(&rt, "a plan");
    let gathered = gathered_of_path(&rt, alloc, &plan)?;
    let rows = edge_table(alloc, &plan, &gathered)?;
    let first = EdgeRow {
        edge: 0,
        lo: 0,
        hi: 1,
        lo_meals: 2,
        hi_meals: 1,
        value: 23,
    };
    let second = EdgeRow {
        edge: 1,
        lo: 1,
        hi: 2,
        lo_meals: 1,
        hi_meals: 0,
        value: 1_000_000,
    };
    same(&rt, &rows.as_slice(), &[first, second].as_slice());
    Ok(())
}

#[test]
fn row_of_a_site_has_its_meals_and_failed_jobs(rt: HostRuntime) -> Result<(), Fail> {
    let alloc = rt.alloc();
    let plan = read_plan(alloc, PATH).expect(&rt, "a plan");
    let gathered = gathered_of_path(&rt, alloc, &plan)?;
    let rows = site_table(alloc, &plan, &gathered)?;
    let row = |site, meals, failed| SiteRow {
        site,
        meals,
        failed,
    };
    let wanted = [row(0, 2, 1), row(1, 1, 0), row(2, 0, 0)];
    same(&rt, &rows.as_slice(), &wanted.as_slice());
    Ok(())
}
