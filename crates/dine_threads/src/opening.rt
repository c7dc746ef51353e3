// The links and bells of a run, before any thread starts.
ghost use Rattle.std.specs.Prelude.{◌≡◌, ℕ, ◌<◌, ◌≤◌, ◌+◌, ◌++◌, [], ◌∷◌, All, IfOk, None, OnOk, Some};
ghost use Rattle.std.specs.Prelude.{length, map, set, slice_get, slice_index_or, vec_len, vec_capacity};
ghost use Rattle.dine_graph.specs.declared.limits.TheConstants.{MAX_EDGES};
ghost use Rattle.dine_graph.specs.Plan.{IsPlan, edge_count, edges_of, site_count};
ghost use Rattle.dine_threads.specs.private.Openings.{AreNewPorts, ArePlaced, AreRingersOf, HasNoPort};
ghost use Rattle.dine_threads.specs.private.Openings.{HaveNoPort, HavePorts, bells_of, rows_of};
ghost use Rattle.std.specs.List.{range_with_len};
ghost use Rattle.dine_link.specs.Bells.{new_bell, new_ringer};
ghost use Rattle.dine_site_thread.specs.Ports.{seen_port};
ghost use Rattle.dine_threads.specs.private.Spots.{AreFull, IsFullRow};
ghost use Rattle.dine_threads.specs.private.Wirings.{AreRingersAt, AreRung, AreWired};

use crate::slots::{EdgePair, fill_row, pair_up};
use dine_graph::Plan;
use dine_link::{Bell, Lane, Ringer, TxEnd};
use dine_site_thread::Port;
use std::alloc::{AllocError, Global};

// The ports and the bell of a site, before it gets its core.
#[derive(Drop)]
pub struct SitePorts<L: Lane> {
    pub ports: Vec<Port<L>>,
    pub bell: Bell,
    // One more ringer of the bell, for somebody outside.
    pub outside: Ringer,
}

// Returns lists with capacity for the ports of a site and for the ringers of its bell. Split for the checker: see
// CONTRIBUTING, cost of proofs.
fn place_lists<P: Drop, Q: Drop>(
    alloc: Global,
    degree: usize,
) -> Result<(Vec<P>, Vec<Q>), AllocError>
    ensures no_port { IfOk result (λ lists. lists.0.items ≡ []) }
    ensures room { IfOk result (λ lists. degree ≤ vec_capacity lists.1) }
    ensures none { IfOk result (λ lists. vec_len lists.1 ≡ 0) }
{
    let ports = Vec::with_capacity(alloc, degree)?;
    let row = Vec::with_capacity(alloc, degree)?;
    Ok((ports, row))
}

// Opens a bell with a ringer for each place of a site, in order, and one more.
fn open_bell(alloc: Global, degree: u32) -> Result<(Vec<Ringer>, Ringer, Bell), AllocError>
    requires { degree ≤ MAX_EDGES }
    ensures ringers { IfOk result
        (λ opened. opened.0.items ≡ map (new_ringer opened.2.identity) (range_with_len 0 degree)) }
    ensures bell { IfOk result (λ opened. opened.2 ≡ new_bell opened.2.identity (degree + 1)) }
{
    let Ok((mut ringers, bell)) = Bell::open(alloc, degree + 1) else {
        return Err(AllocError);
    };
    let outside = ringers.take_last();
    Ok((ringers, outside, bell))
}

// Opens the bell of a site, with a list that has capacity for its ports. The ringers are in a row, by place, and there
// is one more.
fn open_site<L: Lane>(
    alloc: Global,
    plan: &Plan,
    site: u32,
) -> Result<(SitePorts<L>, Vec<Option<Ringer>>), AllocError>
    requires { site < site_count plan.now }
    ensures site_ports { IfOk result (λ opened. HasNoPort plan.now site opened.0) }
    ensures full { IfOk result (λ opened. IsFullRow (length (edges_of plan.now site)) opened.1.items) }
    ensures ringers { IfOk result (λ opened. (i : ℕ)
        → i < length (edges_of plan.now site)
        → slice_index_or opened.1.items i None ≡ Some (new_ringer opened.0.bell.identity i)) }
{
    let degree = plan.edges_of(site).len();
    let (ports, mut row) = place_lists(alloc, degree)?;
    let (ringers, outside, bell) = open_bell(alloc, degree as u32)?;
    fill_row(ringers, &mut row);
    let site_ports = SitePorts {
        ports,
        bell,
        outside,
    };
    Ok((site_ports, row))
}

// The same for all sites.
fn open_sites<L: Lane>(
    alloc: Global,
    plan: &Plan,
    all_ports: &mut Vec<SitePorts<L>>,
    ringers: &mut Vec<Vec<Option<Ringer>>>,
) -> Result<(), AllocError>
    requires all_ports { site_count plan.now ≤ vec_capacity all_ports.old }
    requires ringers { site_count plan.now ≤ vec_capacity ringers.old }
    requires no_ports { vec_len all_ports.old ≡ 0 }
    requires no_ringers { vec_len ringers.old ≡ 0 }
    ensures count { OnOk result (vec_len all_ports.new ≡ site_count plan.now) }
    ensures bare { OnOk result (HaveNoPort plan.now all_ports.new.items) }
    ensures full { OnOk result (AreFull plan.now ringers.new.items) }
    ensures ringers { OnOk result (AreRingersOf plan.now (bells_of all_ports.new.items) ringers.new.items) }
{
    for site in 0..plan.sites() {
        let (site_ports, row) = open_site::<L>(alloc, plan, site)?;
        all_ports.push_reserved(site_ports);
        ringers.push_reserved(row);
    }
    Ok(())
}

// Adds a port at a site.
fn add_port<L: Lane>(
    all_ports: &mut Vec<SitePorts<L>>,
    site: u32,
    port: Port<L>,
) -> Result<(), AllocError>
    requires { site < vec_len all_ports.old }
    ensures bells { OnOk result (bells_of all_ports.new.items ≡ bells_of all_ports.old.items) }
    ensures rows { OnOk result (rows_of L.Lane all_ports.new.items
        ≡ set (rows_of L.Lane all_ports.old.items) site
        (slice_index_or (rows_of L.Lane all_ports.old.items) site [] ++ seen_port L.Lane port ∷ [])) }
{
    Ok(all_ports[site as usize].ports.push(port)?)
}

// Opens the two links of an edge: the port of each end takes what the other end puts, and rings the bell of the other
// end.
fn new_ports<L: Lane>(
    alloc: Global,
    plan: &Plan,
    edge: u32,
    ringers: EdgePair<Ringer>,
) -> Result<EdgePair<Port<L>>, AllocError>
    requires { edge < edge_count plan.now }
    ensures { IfOk result (λ ports. (bells : _)
        → AreRingersAt plan.now bells edge ringers
        → AreNewPorts plan.now bells edge (seen_port L.Lane ports.low) (seen_port L.Lane ports.high)) }
{
    let (lower, higher) = plan.ends(edge);
    let Ok((low_tx, high_rx)) = L::pair(alloc, edge, lower) else {
        return Err(AllocError);
    };
    let Ok((high_tx, low_rx)) = L::pair(alloc, edge, higher) else {
        return Err(AllocError);
    };
    let low = Port {
        tx: TxEnd::Live(low_tx),
        rx: low_rx,
        ringer: ringers.high,
    };
    let high = Port {
        tx: TxEnd::Live(high_tx),
        rx: high_rx,
        ringer: ringers.low,
    };
    Ok(EdgePair { low, high })
}

// Opens the two links of an edge, and adds their ends at the two sites.
fn open_edge<L: Lane>(
    alloc: Global,
    plan: &Plan,
    edge: u32,
    ringers: EdgePair<Ringer>,
    all_ports: &mut Vec<SitePorts<L>>,
) -> Result<(), AllocError>
    requires edge { edge < edge_count plan.now }
    requires ringers { AreRingersAt plan.now (bells_of all_ports.old.items) edge ringers }
    requires placed { ArePlaced plan.now (bells_of all_ports.old.items) edge (rows_of L.Lane all_ports.old.items) }
    ensures bells { OnOk result (bells_of all_ports.new.items ≡ bells_of all_ports.old.items) }
    ensures placed { OnOk result
        (ArePlaced plan.now (bells_of all_ports.old.items) (edge + 1) (rows_of L.Lane all_ports.new.items)) }
{
    let EdgePair { low, high } = new_ports(alloc, plan, edge, ringers)?;
    let (lower, higher) = plan.ends(edge);
    add_port(all_ports, lower, low)?;
    add_port(all_ports, higher, high)
}

// The same for all edges.
fn open_edges<L: Lane>(
    alloc: Global,
    plan: &Plan,
    ringers: Vec<EdgePair<Ringer>>,
    all_ports: &mut Vec<SitePorts<L>>,
) -> Result<(), AllocError>
    requires plan { IsPlan plan.now }
    requires ringers { vec_len ringers ≡ edge_count plan.now }
    requires each { (edge : ℕ) (pair : _)
        → slice_get ringers.items edge ≡ Some pair → AreRingersAt plan.now (bells_of all_ports.old.items) edge pair }
    requires count { vec_len all_ports.old ≡ site_count plan.now }
    requires bare { HaveNoPort plan.now all_ports.old.items }
    ensures bells { OnOk result (bells_of all_ports.new.items ≡ bells_of all_ports.old.items) }
    ensures placed { OnOk result
        (ArePlaced plan.now (bells_of all_ports.old.items) (edge_count plan.now) (rows_of L.Lane all_ports.new.items)) }
{
    let mut edge = 0u32;
    for pair in ringers {
        open_edge(alloc, plan, edge, pair, all_ports)?;
        edge += 1;
    }
    Ok(())
}

// Returns lists with capacity for the ports of all sites, and for the ringers by site and by edge. Split for the
// checker: see CONTRIBUTING, cost of proofs.
fn open_lists<S: Drop, P: Drop>(
    alloc: Global,
    plan: &Plan,
) -> Result<(Vec<S>, Vec<Vec<Option<P>>>, Vec<EdgePair<P>>), AllocError>
    ensures plan { IfOk result (λ _. IsPlan plan.now) }
    ensures all_ports { IfOk result (λ lists. site_count plan.now ≤ vec_capacity lists.0) }
    ensures no_ports { IfOk result (λ lists. vec_len lists.0 ≡ 0) }
    ensures rows { IfOk result (λ lists. site_count plan.now ≤ vec_capacity lists.1) }
    ensures no_row { IfOk result (λ lists. vec_len lists.1 ≡ 0) }
    ensures pairs { IfOk result (λ lists. edge_count plan.now ≤ vec_capacity lists.2) }
    ensures no_pair { IfOk result (λ lists. vec_len lists.2 ≡ 0) }
{
    let sites = plan.sites() as usize;
    let all_ports = Vec::with_capacity(alloc, sites)?;
    let rows = Vec::with_capacity(alloc, sites)?;
    let pairs = Vec::with_capacity(alloc, plan.edges() as usize)?;
    Ok((all_ports, rows, pairs))
}

/// Opens the links and the bells of a run, and returns the ports and the bell of each site, by number.
pub fn open_all<L: Lane>(alloc: Global, plan: &Plan) -> Result<Vec<SitePorts<L>>, AllocError>
    ensures len { IfOk result (λ all_ports. vec_len all_ports ≡ site_count plan.now) }
    ensures each { IfOk result (λ all_ports. HavePorts L.Lane plan.now all_ports.items) }
    ensures wired { IfOk result (λ all_ports. AreWired plan.now (rows_of L.Lane all_ports.items)) }
    ensures rung { IfOk result
        (λ all_ports. AreRung plan.now (bells_of all_ports.items) (rows_of L.Lane all_ports.items)) }
{
    let (mut all_ports, mut rows, mut ringers) = open_lists(alloc, plan)?;
    open_sites(alloc, plan, &mut all_ports, &mut rows)?;
    pair_up(plan, &mut rows, &mut ringers);
    open_edges(alloc, plan, ringers, &mut all_ports)?;
    Ok(all_ports)
}
