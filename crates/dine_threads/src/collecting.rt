// Gathers what the sites left: their link ends by edge, their forks by edge, and the rest by site.
ghost use Rattle.std.specs.Prelude.{◌≡◌, ◌<◌, ◌≤◌, ◌*◌, ◌^◌, All, IfOk, Some, None, is_some, length, map, position};
ghost use Rattle.std.specs.Prelude.{replicate, slice_get, vec_len, vec_capacity};
ghost use Rattle.dine_graph.specs.declared.limits.TheConstants.{MAX_SITES};
ghost use Rattle.dine_graph.specs.Plan.{edge_count, edges_of, site_count};
ghost use Rattle.dine_threads.specs.private.Collecting.{AreForksOf, AreJoined, AreLinksLeft, AreWholeEnds, IsRoomFor};
ghost use Rattle.dine_threads.specs.private.Collecting.{IsTakenToClose, forks_left, forks_found, in_slots, links_left};
ghost use Rattle.dine_threads.specs.private.Collecting.{out_of, rows_left};
ghost use Rattle.dine_threads.specs.Gathered.{IsTakenInOrder};
ghost use Rattle.dine_threads.specs.private.Wirings.{AreWired};

use crate::gathered::SiteOut;
use crate::slots::{EdgePair, fill_row, pair_up};
use dine_graph::Plan;
use dine_link::{Lane, LinkEnd};
use dine_site_thread::{Diner, Port, SiteEnd};
use dine_token::Fork;
use std::alloc::{AllocError, Global};

/// The lists for all that is gathered, allocated before any thread starts: an `S` is what a site left, and a `P` is a
/// port.
#[derive(Drop)]
pub struct Room<S, P> {
    pub sites: Vec<S>,
    // An empty row for the ports of each site, and a list for the rows that are filled.
    pub empty: Vec<Vec<Option<P>>>,
    pub rows: Vec<Vec<Option<P>>>,
    pub pairs: Vec<EdgePair<P>>,
    pub links: Vec<LinkEnd>,
    pub slots: Vec<Option<Fork>>,
    pub forks: Vec<Fork>,
}

pub type RoomOf<L, D> = Room<SiteOut<D>, Port<L>>;

// Returns an empty row for the ports of each site.
fn empty_rows<P: Drop>(alloc: Global, plan: &Plan) -> Result<Vec<Vec<Option<P>>>, AllocError>
    ensures count { IfOk result (λ rows. vec_len rows ≡ site_count plan.now) }
    ensures room { IfOk result (λ rows. (s : _) (row : _)
        → slice_get rows.items s ≡ Some row → length (edges_of plan.now s) ≤ vec_capacity row) }
    ensures none { IfOk result (λ rows. (s : _) (row : _) → slice_get rows.items s ≡ Some row → vec_len row ≡ 0) }
{
    let mut rows = Vec::with_capacity(alloc, plan.sites() as usize)?;
    for site in 0..plan.sites() {
        rows.push_reserved(Vec::with_capacity(alloc, plan.edges_of(site).len())?);
    }
    Ok(rows)
}

// Returns an empty slot for each edge.
fn empty_slots<P: Drop>(alloc: Global, plan: &Plan) -> Result<Vec<Option<P>>, AllocError>
    ensures { IfOk result (λ slots. slots.items ≡ replicate (edge_count plan.now) None) }
{
    let mut slots = Vec::with_capacity(alloc, plan.edges() as usize)?;
    for _ in 0..plan.edges() {
        slots.push_reserved(None);
    }
    Ok(slots)
}

// Returns lists with capacity for the ports, the links and the forks of each edge. Split for the checker: see
// CONTRIBUTING, cost of proofs.
fn edge_lists<P: Drop>(
    alloc: Global,
    edges: usize,
) -> Result<(Vec<EdgePair<P>>, Vec<LinkEnd>, Vec<Fork>), AllocError>
    requires { edges < 2 ^ 16 }
    ensures pairs { IfOk result (λ lists. edges ≤ vec_capacity lists.0) }
    ensures no_pair { IfOk result (λ lists. vec_len lists.0 ≡ 0) }
    ensures links { IfOk result (λ lists. 2 * edges ≤ vec_capacity lists.1) }
    ensures no_link { IfOk result (λ lists. vec_len lists.1 ≡ 0) }
    ensures forks { IfOk result (λ lists. edges ≤ vec_capacity lists.2) }
    ensures no_fork { IfOk result (λ lists. vec_len lists.2 ≡ 0) }
{
    let pairs = Vec::with_capacity(alloc, edges)?;
    let links = Vec::with_capacity(alloc, 2 * edges)?;
    let forks = Vec::with_capacity(alloc, edges)?;
    Ok((pairs, links, forks))
}

// Returns lists with capacity for what each site left and for the rows that are filled, and an empty row for the ports
// of each site. Split for the checker: see CONTRIBUTING, cost of proofs.
fn site_lists<S: Drop, P: Drop>(
    alloc: Global,
    plan: &Plan,
) -> Result<(Vec<S>, Vec<Vec<Option<P>>>, Vec<Vec<Option<P>>>), AllocError>
    ensures sites { IfOk result (λ lists. site_count plan.now ≤ vec_capacity lists.0) }
    ensures no_site { IfOk result (λ lists. vec_len lists.0 ≡ 0) }
    ensures empty_rows { IfOk result (λ lists. vec_len lists.1 ≡ site_count plan.now) }
    ensures empty_room { IfOk result (λ lists. (s : _) (row : _)
        → slice_get lists.1.items s ≡ Some row → length (edges_of plan.now s) ≤ vec_capacity row) }
    ensures no_thing { IfOk result (λ lists. (s : _) (row : _)
        → slice_get lists.1.items s ≡ Some row → vec_len row ≡ 0) }
    ensures rows { IfOk result (λ lists. site_count plan.now ≤ vec_capacity lists.2) }
    ensures no_row { IfOk result (λ lists. vec_len lists.2 ≡ 0) }
{
    let sites = Vec::with_capacity(alloc, plan.sites() as usize)?;
    let rows = Vec::with_capacity(alloc, plan.sites() as usize)?;
    let empty = empty_rows(alloc, plan)?;
    Ok((sites, empty, rows))
}

/// Returns the lists for all that is gathered, empty and with the capacity that they need.
pub fn make_room<S: Drop, P: Drop>(alloc: Global, plan: &Plan) -> Result<Room<S, P>, AllocError>
    ensures { IfOk result (IsRoomFor plan.now) }
{
    let (pairs, links, forks) = edge_lists(alloc, plan.edges() as usize)?;
    let (sites, empty, rows) = site_lists(alloc, plan)?;
    Ok(Room {
        sites,
        empty,
        rows,
        pairs,
        links,
        slots: empty_slots(alloc, plan)?,
        forks,
    })
}

/// Returns the lowest site with a fault.
pub fn first_fault<L: Lane, D: Diner>(ends: &[SiteEnd<L, D>]) -> Option<u32>
    requires few { length ends.now ≤ MAX_SITES }
    ensures { result ≡ position (λ end. is_some end.fault) ends.now }
{
    match ends.iter().position(|end| end.fault.is_some()) {
        Some(site) => Some(site as u32),
        None => None,
    }
}

// Moves the forks into the slots of their edges.
fn place_forks(forks: Vec<Fork>, slots: &mut Vec<Option<Fork>>)
    requires { All (λ fork. fork.edge < vec_len slots.old) forks.items }
    ensures { slots.new.items ≡ in_slots forks.items slots.old.items }
{
    for fork in forks {
        let edge = fork.edge() as usize;
        slots[edge] = Some(fork);
    }
}

// Splits what a site left: its ports go into an empty row, its forks into the slots of their edges, and the rest
// is returned.
fn split_end<L: Lane, D: Diner>(
    end: SiteEnd<L, D>,
    row: &mut Vec<Option<Port<L>>>,
    slots: &mut Vec<Option<Fork>>,
) -> SiteOut<D>
    requires room { vec_len end.ports ≤ vec_capacity row.old }
    requires none { vec_len row.old ≡ 0 }
    requires forks { All (λ fork. fork.edge < vec_len slots.old) end.forks.items }
    ensures out { result ≡ out_of end }
    ensures row { row.new.items ≡ map Some end.ports.items }
    ensures slots { slots.new.items ≡ in_slots end.forks.items slots.old.items }
{
    let SiteEnd {
        site,
        ate,
        failed,
        diner,
        forks,
        tokens,
        journal,
        clock: _,
        log,
        ports,
        bell,
        stray,
        fault,
    } = end;
    fill_row(ports, row);
    place_forks(forks, slots);
    SiteOut {
        site,
        ate,
        failed,
        diner,
        tokens,
        journal,
        checks: bell.into_empty_checks(),
        log,
        stray,
        fault,
    }
}

/// Splits what the sites left: the ports go into rows by site, the forks into slots by edge, and the rest into a
/// list by site.
fn split_ends<L: Lane, D: Diner>(
    plan: &Plan,
    ends: Vec<SiteEnd<L, D>>,
    empty: Vec<Vec<Option<Port<L>>>>,
    sites: &mut Vec<SiteOut<D>>,
    rows: &mut Vec<Vec<Option<Port<L>>>>,
    slots: &mut Vec<Option<Fork>>,
)
    requires whole { AreWholeEnds plan.now ends.items }
    requires empty_rows { vec_len empty ≡ site_count plan.now }
    requires empty_room { (s : _) (row : _)
        → slice_get empty.items s ≡ Some row → length (edges_of plan.now s) ≤ vec_capacity row }
    requires no_thing { (s : _) (row : _) → slice_get empty.items s ≡ Some row → vec_len row ≡ 0 }
    requires site_room { site_count plan.now ≤ vec_capacity sites.old }
    requires no_site { vec_len sites.old ≡ 0 }
    requires row_room { site_count plan.now ≤ vec_capacity rows.old }
    requires no_row { vec_len rows.old ≡ 0 }
    requires slots { vec_len slots.old ≡ edge_count plan.now }
    ensures sites { sites.new.items ≡ map out_of ends.items }
    ensures rows { map (λ row. row.items) rows.new.items ≡ map (λ end. map Some end.ports.items) ends.items }
    ensures slots { slots.new.items ≡ in_slots (forks_left ends.items) slots.old.items }
{
    let mut empty = empty.into_iter();
    for end in ends {
        let mut row = empty.next().unwrap();
        sites.push_reserved(split_end(end, &mut row, slots));
        rows.push_reserved(row);
    }
}

// Joins the ends of each link. The link from the lower end of an edge comes first.
fn reconcile_all<L: Lane>(pairs: Vec<EdgePair<Port<L>>>, links: &mut Vec<LinkEnd>)
    requires joined { All (AreJoined L.Lane) pairs.items }
    requires room { 2 * vec_len pairs ≤ vec_capacity links.old }
    requires none { vec_len links.old ≡ 0 }
    ensures lists { links.new.items ≡ links_left L.Lane pairs.items }
    ensures in_order { All IsTakenInOrder links.new.items }
    ensures whole { All IsTakenToClose links.new.items }
{
    for pair in pairs {
        let EdgePair { low, high } = pair;
        links.push_reserved(L::reconcile(low.tx, high.rx));
        links.push_reserved(L::reconcile(high.tx, low.rx));
    }
}

// Moves the forks that were found into a list, by edge.
fn pick_forks(slots: Vec<Option<Fork>>, forks: &mut Vec<Fork>)
    requires room { vec_len slots ≤ vec_capacity forks.old }
    requires none { vec_len forks.old ≡ 0 }
    ensures { forks.new.items ≡ forks_found slots.items }
{
    for slot in slots {
        if let Some(fork) = slot {
            forks.push_reserved(fork);
        }
    }
}

/// Gathers what the sites left: the forks by edge, the rest by site, and the links by edge.
pub fn collect<L: Lane, D: Diner>(
    plan: &Plan,
    ends: Vec<SiteEnd<L, D>>,
    room: RoomOf<L, D>,
) -> (Vec<Fork>, Vec<SiteOut<D>>, Vec<LinkEnd>)
    requires room { IsRoomFor plan.now room }
    requires whole { AreWholeEnds plan.now ends.items }
    requires wired { AreWired plan.now (rows_left L.Lane ends.items) }
    ensures forks { result.0.items
        ≡ forks_found (in_slots (forks_left ends.items) (replicate (edge_count plan.now) None)) }
    ensures sites { result.1.items ≡ map out_of ends.items }
    ensures links { AreLinksLeft plan.now (rows_left L.Lane ends.items) result.2.items }
    ensures in_order { All IsTakenInOrder result.2.items }
    ensures whole { All IsTakenToClose result.2.items }
{
    let Room {
        mut sites,
        empty,
        mut rows,
        mut pairs,
        mut links,
        mut slots,
        mut forks,
    } = room;
    split_ends(plan, ends, empty, &mut sites, &mut rows, &mut slots);
    pair_up(plan, &mut rows, &mut pairs);
    reconcile_all(pairs, &mut links);
    pick_forks(slots, &mut forks);
    (forks, sites, links)
}
