// What a job sees in its meal, and what it can open.
use crate::asserts::same;
use crate::plans::band_of;
use crate::runs::{Links, all_did, ran};
use dine_run::{EdgeId, EdgeValue, Job, JobFault, OpenFault, Place, SiteId, Table};
use std::alloc::Global;
use std::process::Abort;

// A job that checks each place of its table, and opens each value in every way, and twice.
#[derive(Drop)]
struct Looker;

// Whether a value was not opened for this cause.
fn is_refused<G>(opened: Result<G, OpenFault>, why: OpenFault) -> bool
where
    G: Drop,
{
    match opened {
        Ok(_guard) => false,
        Err(fault) => fault == why,
    }
}

// The edges of a site of the band of four sites, each with the neighbour, in order.
fn edges_of(site: SiteId) -> &'static [(u32, u32)] {
    match site.0 {
        0 => &[(0, 1), (1, 2)],
        1 => &[(0, 0), (2, 2), (3, 3)],
        2 => &[(1, 0), (2, 1), (4, 3)],
        _ => &[(3, 1), (4, 2)],
    }
}

// A place of a site, with its edge and its neighbour.
#[derive(Clone, Copy)]
struct Seat {
    place: Place,
    edge: EdgeId,
    neighbour: SiteId,
}

// The value at a place, opened in each way, one after the other.
fn values_at(table: &Table<'_, u32>, seat: Seat) -> Result<(u32, u32, u32), OpenFault> {
    let by_place = *table.open(seat.place)?;
    let by_edge = *table.open_edge(seat.edge)?;
    let by_neighbour = *table.open_with(seat.neighbour)?;
    Ok((by_place, by_edge, by_neighbour))
}

// Whether the value at a place is refused in each way, for this cause.
fn all_refused(table: &Table<'_, u32>, seat: Seat, why: OpenFault) -> bool {
    is_refused(table.open(seat.place), why)
        && is_refused(table.open_edge(seat.edge), why)
        && is_refused(table.open_with(seat.neighbour), why)
}

// Whether a value that is open can't be opened again.
fn is_kept(table: &Table<'_, u32>, seat: Seat) -> Result<bool, OpenFault> {
    let held = table.open(seat.place)?;
    Ok(held.edge() == seat.edge && all_refused(table, seat, OpenFault::Open))
}

// Opens the value at a place in each way, and twice. The value is the number of its edge.
fn opens(table: &Table<'_, u32>, seat: Seat) -> Result<bool, OpenFault> {
    let edge = seat.edge.0;
    let found = values_at(table, seat)?;
    let is_kept = is_kept(table, seat)?;
    Ok(found == (edge, edge, edge) && is_kept)
}

fn sees(table: &Table<'_, u32>, seat: Seat) -> bool {
    table.edge(seat.place) == Some(seat.edge) && table.neighbour(seat.place) == Some(seat.neighbour)
}

// Whether there is no place behind the last, and no value of another site can be opened.
fn has_no_more(table: &Table<'_, u32>) -> bool {
    let past = Seat {
        place: Place(table.places()),
        edge: EdgeId(9),
        neighbour: table.site(),
    };
    all_refused(table, past, OpenFault::NoEdge)
        && table.edge(past.place).is_none()
        && table.neighbour(past.place).is_none()
}

impl Job<u32> for Looker {
    type Fault = JobFault;

    fn run(&mut self, table: &Table<'_, u32>) -> Result<(), JobFault> {
        let edges = edges_of(table.site());
        if table.places() as usize != edges.len() {
            return Err(JobFault);
        }
        let mut place = 0u32;
        for (edge, neighbour) in edges {
            let seat = Seat {
                place: Place(place),
                edge: EdgeId(*edge),
                neighbour: SiteId(*neighbour),
            };
            if !sees(table, seat) || !opens(table, seat)? {
                return Err(JobFault);
            }
            place = place.saturating_add(1);
        }
        if has_no_more(table) {
            Ok(())
        } else {
            Err(JobFault)
        }
    }
}

// The number of its edge for each edge.
fn own_numbers(rt: &impl Abort, alloc: Global, edges: u32) -> Vec<u32> {
    let mut values = Vec::new(alloc);
    for edge in 0..edges {
        values.push(edge).expect(rt, "memory");
    }
    values
}

fn have_own_numbers(rt: &impl Abort, values: &[EdgeValue<u32>]) {
    same(rt, &values.len(), &5);
    let mut edge = 0u32;
    for it in values {
        same(rt, &(it.edge(), it.value), &(EdgeId(edge), edge));
        edge = edge.saturating_add(1);
    }
}

#[test]
fn a_job_sees_its_own_edges_and_opens_no_other(rt: HostRuntime) {
    let alloc = rt.alloc();
    let plan = band_of(&rt, alloc, 4, 3);
    let values = own_numbers(&rt, alloc, plan.edges());
    let jobs = vec![in alloc; Looker, Looker, Looker, Looker].expect(&rt, "memory");
    let done = ran(&rt, alloc, &plan, Links::Rings, values, jobs);
    all_did(&rt, done.sites.as_slice(), 3, 0);
    // Each of ten places was opened thrice while it was open, in three meals.
    same(&rt, &done.found_open, &90);
    have_own_numbers(&rt, done.values.as_slice());
}
