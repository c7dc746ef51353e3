// Plans for the tests.
use dine_run::{Plan, PlanBuilder, PlanFault, SiteId};
use std::alloc::Global;
use std::process::Abort;

// Returns a plan of sites in a ring, with an edge from each to the next and to the one after it, and a number of jobs
// for each. The first sites resign, as many as `resigning`.
fn band(
    rt: &impl Abort,
    alloc: Global,
    sites: u32,
    jobs: u32,
    resigning: u32,
) -> Result<Plan, PlanFault> {
    let mut plan = PlanBuilder::open(alloc);
    for n in 0..sites {
        let name = format!(in alloc; "s{n}")?;
        plan.site(name.as_str(), jobs)?;
    }
    for n in 0..resigning {
        plan.resign(SiteId(n)).expect(rt, "a site");
    }
    for n in 0..sites {
        let (next, second) = (n.saturating_add(1), n.saturating_add(2));
        if next < sites {
            plan.edge(SiteId(n), SiteId(next))?;
        }
        if second < sites {
            plan.edge(SiteId(n), SiteId(second))?;
        }
    }
    plan.finish()
}

// The band, with the edges 0-1, 0-2, 1-2, 1-3, .. in this order.
pub fn band_of(rt: &impl Abort, alloc: Global, sites: u32, jobs: u32) -> Plan {
    band(rt, alloc, sites, jobs, 0).expect(rt, "a plan")
}

// The same, and site 0 resigns.
pub fn resigning(rt: &impl Abort, alloc: Global, sites: u32, jobs: u32) -> Plan {
    band(rt, alloc, sites, jobs, 1).expect(rt, "a plan")
}

// The same, and all sites resign.
pub fn all_resigning(rt: &impl Abort, alloc: Global, sites: u32, jobs: u32) -> Plan {
    band(rt, alloc, sites, jobs, sites).expect(rt, "a plan")
}
