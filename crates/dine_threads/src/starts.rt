// The threads of the sites: what moves into each, and what each leaves.
ghost use Rattle.std.specs.Prelude.{[], ◌≡◌, ◌≢◌, ◌<◌, ◌≤◌, All, IfNone, IfOk, IfSome, OnOk, Some};
ghost use Rattle.std.specs.Prelude.{length, map, slice_get, vec_len, vec_capacity};
ghost use Rattle.std.specs.List.{AllZip};
ghost use Rattle.dine_graph.specs.declared.limits.TheConstants.{MAX_SITES};
ghost use Rattle.dine_graph.specs.Plan.{SeenPlan, job_count, site_count};
ghost use Rattle.dine_site.specs.Standing.{IsFresh, IsFreshFor};
ghost use Rattle.dine_site_thread.specs.Diners.{HasEaten, ObeysFailures};
ghost use Rattle.dine_site_thread.specs.Ports.{IsFreshPort, seen_ports};
ghost use Rattle.dine_threads.specs.private.Openings.{HavePorts};
ghost use Rattle.dine_threads.specs.private.SiteStarts.{AreStartsOf, IsReady, IsEndOf, given_to};
ghost use Rattle.dine_site_thread.specs.SiteEnds.{IsLeft, seen_site_end};

use crate::opening::SitePorts;
use dine_graph::Plan;
use dine_link::{Bell, Doorbell, Gate, Lane, Ringer, ThreadLog};
use dine_rules::{Clock, laws};
use dine_site::{Packed, SiteCore, site};
use dine_site_thread::{Diner, Manner, Port, SiteEnd, SiteFault, run_site_with};
use std::alloc::{AllocError, Global};
use std::snapshot::Snapshot;
use std::sync::{Arc, Wait};
use std::thread;
use std::thread::{Promise, PromisedHandle, Threads};

// What moves into the thread of a site.
#[derive(Drop)]
pub struct SiteStart<L: Lane, D: Diner> {
    pub manner: Manner,
    pub packed: Packed,
    pub ports: Vec<Port<L>>,
    pub bell: Bell,
    pub diner: D,
    pub alloc: Global,
    pub gate: Arc<Gate, Global>,
}

// The promise of a thread: what it leaves is an end of the site that it was given.
#[derive(Drop)]
pub struct EndOf<L: Lane, D: Diner> {
    pub start: Snapshot<SiteStart<L, D>>,
}

impl<L: Lane, D: Diner> Promise<SiteEnd<L, D>> for EndOf<L, D> {
    ghost kept_by = { λ p r. IsEndOf L.Lane D.Diner p.start.value r };
}

pub type Child<L, D> = PromisedHandle<SiteEnd<L, D>, EndOf<L, D>>;

// Returns what a site leaves that was not started.
fn not_started<L: Lane, D: Diner>(
    alloc: Global,
    core: SiteCore,
    ports: Vec<Port<L>>,
    bell: Bell,
    diner: D,
) -> SiteEnd<L, D>
    requires fresh { IsFresh core }
    requires unused { All IsFreshPort (seen_ports L.Lane ports.items) }
    ensures left { (plan : SeenPlan) → IsFreshFor plan core
        → (manner : Manner)
        → IsLeft manner plan core.site (seen_ports L.Lane ports.items) (seen_site_end L.Lane result) }
    ensures eaten { HasEaten D.calls D.marks D.fits result.ate result.failed diner result.diner }
    ensures obeys { ObeysFailures core.resigns result.journal.items (D.calls diner) (D.calls result.diner) }
    ensures fault { result.fault ≡ Some SiteFault.NotStarted }
    ensures journal { result.journal.items ≡ [] }
    ensures bell { result.bell ≡ bell }
{
    laws::streams_are_kept();
    laws::letters_cut_short_are_in_order();
    let site = core.site();
    let parts = core.into_parts();
    SiteEnd {
        site,
        ate: 0,
        failed: 0,
        diner,
        forks: parts.forks,
        tokens: parts.tokens,
        journal: Vec::new(alloc),
        clock: Clock::start(),
        log: ThreadLog::start(),
        ports,
        bell,
        stray: None,
        fault: Some(SiteFault::NotStarted),
    }
}

// Runs the site once the start barrier is open. If the run is called off, the site is not started.
fn run_start<R: Wait, L: Lane, D: Diner>(rt: &R, start: SiteStart<L, D>) -> SiteEnd<L, D>
    requires { IsReady L.Lane D.Diner start }
    ensures { IsEndOf L.Lane D.Diner start result }
{
    let SiteStart {
        manner,
        packed,
        ports,
        bell,
        diner,
        alloc,
        gate,
    } = start;
    let core = packed.unpack();
    if gate.pass(rt) {
        run_site_with(rt, alloc, manner, core, ports, bell, diner)
    } else {
        not_started(alloc, core, ports, bell, diner)
    }
}

// Starts a thread with what it promises. Split for the checker: see CONTRIBUTING, cost of proofs.
fn spawn_some<
    R: Threads,
    P: Promise<T> + Drop,
    F: FnOnce() -> T + Send + Drop + 'static,
    T: Send + Drop + 'static,
>(rt: &R, promise: P, run: F) -> Option<PromisedHandle<T, P>>
    requires runs { F.pre run }
    requires keeps { (r : T) → F.post run r → P.kept_by promise r }
    ensures { IfSome result (λ child. child.promise ≡ promise) }
{
    thread::spawn_with(rt, promise, run).ok()
}

// Starts the thread of a site.
fn start_thread<R: Threads + Wait + Copy + Send + 'static, L: Lane + 'static, D: Diner + 'static>(
    rt: &R,
    start: SiteStart<L, D>,
) -> Option<Child<L, D>>
where
    L::Tx: 'static,
    L::ClosedTx: 'static,
    L::Rx: 'static,
    requires { IsReady L.Lane D.Diner start }
    ensures { IfSome result (λ child. given_to child ≡ start) }
{
    let promise = EndOf {
        start: Snapshot::of(&start),
    };
    let theirs = *rt;
    let run = move || -> SiteEnd<L, D>
        requires { IsReady L.Lane D.Diner start }
        ensures { IsEndOf L.Lane D.Diner start result }
    { run_start(&theirs, start) };
    spawn_some(rt, promise, run)
}

// Starts the thread of a site, unless `threads` have started.
fn start_within<R: Threads + Wait + Copy + Send + 'static, L: Lane + 'static, D: Diner + 'static>(
    rt: &R,
    start: SiteStart<L, D>,
    started: u32,
    threads: u32,
) -> Option<Child<L, D>>
where
    L::Tx: 'static,
    L::ClosedTx: 'static,
    L::Rx: 'static,
    requires { IsReady L.Lane D.Diner start }
    ensures child { IfSome result (λ child. given_to child ≡ start) }
    ensures left { IfSome result (λ _. started ≢ threads) }
{
    if started == threads {
        return None;
    }
    start_thread(rt, start)
}

/// Starts a thread for each site, at most `threads` of them. Returns the first site that has none.
pub fn start_all<R: Threads + Wait + Copy + Send + 'static, L: Lane + 'static, D: Diner + 'static>(
    rt: &R,
    starts: Vec<SiteStart<L, D>>,
    children: &mut Vec<Child<L, D>>,
    threads: u32,
) -> Option<u32>
where
    L::Tx: 'static,
    L::ClosedTx: 'static,
    L::Rx: 'static,
    requires ready { All (IsReady L.Lane D.Diner) starts.items }
    requires room { vec_len starts ≤ vec_capacity children.old }
    requires few { vec_len starts ≤ MAX_SITES }
    requires none { vec_len children.old ≡ 0 }
    ensures few { vec_len children.new ≤ vec_len starts }
    ensures all { IfNone result (map given_to children.new.items ≡ starts.items) }
    ensures some { IfSome result (λ site. site < vec_len starts) }
    ensures first { IfSome result (λ site. site ≡ vec_len children.new) }
    ensures all_within { IfNone result (vec_len starts ≤ threads) }
    ensures some_within { IfSome result (λ site. site ≤ threads) }
{
    let mut started = 0u32;
    for start in starts {
        let Some(child) = start_within(rt, start, started, threads) else {
            return Some(started);
        };
        children.push_reserved(child);
        started += 1;
    }
    None
}

// Joins each of some threads, and adds what it leaves, in order.
fn join_each<R: Threads, T: Drop, P: Promise<T>>(
    rt: &R,
    children: Vec<PromisedHandle<T, P>>,
    ends: &mut Vec<T>,
)
    requires room { vec_len children ≤ vec_capacity ends.old }
    requires none { vec_len ends.old ≡ 0 }
    ensures len { vec_len ends.new ≡ vec_len children }
    ensures kept { AllZip (λ child end. P.kept_by child.promise end) children.items ends.new.items }
{
    for child in children {
        ends.push_reserved(child.join(rt));
    }
}

/// Joins each thread, and adds what it leaves, in order.
pub fn join_all<R: Threads, L: Lane, D: Diner>(
    rt: &R,
    children: Vec<Child<L, D>>,
    ends: &mut Vec<SiteEnd<L, D>>,
)
    requires room { vec_len children ≤ vec_capacity ends.old }
    requires none { vec_len ends.old ≡ 0 }
    ensures len { vec_len ends.new ≡ vec_len children }
    ensures left { AllZip (IsEndOf L.Lane D.Diner) (map given_to children.items) ends.new.items }
{
    join_each(rt, children, ends)
}

// Opens the core of a site, and packs it, so that it can move into a thread.
fn pack_site(alloc: Global, plan: &Plan, number: u32) -> Result<Packed, AllocError>
    requires { number < site_count plan.now }
    ensures fresh { IfOk result (IsFreshFor plan.now) }
    ensures site { IfOk result (λ packed. packed.site ≡ number) }
{
    let forks = site::fresh_forks(alloc, plan, number)?;
    let tokens = site::fresh_tokens(alloc, plan, number)?;
    let core = SiteCore::open(alloc, plan, number, forks, tokens)?;
    Ok(core.pack())
}

// Wires the doorbell of a site, if it has one, to this ringer. If not, the ringer is dropped.
fn wire<R: Wait>(rt: &R, doorbells: &[Doorbell], number: u32, outside: Ringer) {
    if let Some(doorbell) = doorbells.get(number as usize) {
        doorbell.wire(rt, outside);
    }
}

// Returns what moves into the thread of a site, and wires its doorbell, if it has one.
fn prepare<R: Wait, L: Lane, D: Diner>(
    rt: &R,
    alloc: Global,
    manner: Manner,
    plan: &Plan,
    number: u32,
    site_ports: SitePorts<L>,
    diner: D,
    gate: &Arc<Gate, Global>,
    doorbells: &[Doorbell],
) -> Result<SiteStart<L, D>, AllocError>
    requires { number < site_count plan.now }
    ensures fresh { IfOk result (λ start. IsFreshFor plan.now start.packed) }
    ensures site { IfOk result (λ start. start.packed.site ≡ number) }
    ensures ports { IfOk result (λ start. start.ports ≡ site_ports.ports) }
    ensures bell { IfOk result (λ start. start.bell ≡ site_ports.bell) }
    ensures diner { IfOk result (λ start. start.diner ≡ diner) }
    ensures manner { IfOk result (λ start. start.manner ≡ manner) }
{
    let gate = Arc::try_clone(gate)?;
    let packed = pack_site(alloc, plan, number)?;
    let SitePorts {
        ports,
        bell,
        outside,
    } = site_ports;
    wire(rt, doorbells, number, outside);
    Ok(SiteStart {
        manner,
        packed,
        ports,
        bell,
        diner,
        alloc,
        gate,
    })
}

/// Adds what moves into the thread of each site, in order. Wires the doorbell of each site that has one.
pub fn prepare_all<R: Wait, L: Lane, D: Diner>(
    rt: &R,
    alloc: Global,
    manner: Manner,
    plan: &Plan,
    all_ports: Vec<SitePorts<L>>,
    diners: Vec<D>,
    gate: &Arc<Gate, Global>,
    doorbells: &[Doorbell],
    starts: &mut Vec<SiteStart<L, D>>,
) -> Result<(), AllocError>
    requires all_ports { vec_len all_ports ≡ site_count plan.now }
    requires diners { vec_len diners ≡ site_count plan.now }
    requires each { HavePorts L.Lane plan.now all_ports.items }
    requires rooms { (s : _) (diner : _)
        → slice_get diners.items s ≡ Some diner → job_count plan.now s ≤ D.room_left diner }
    requires expected { (s : _) (diner : _) → slice_get diners.items s ≡ Some diner → D.expects diner plan.now s }
    requires capacity { site_count plan.now ≤ vec_capacity starts.old }
    requires none { vec_len starts.old ≡ 0 }
    ensures len { OnOk result (vec_len starts.new ≡ site_count plan.now) }
    ensures ready { OnOk result (All (IsReady L.Lane D.Diner) starts.new.items) }
    ensures fresh { OnOk result (AreStartsOf manner plan.now starts.new.items) }
    ensures diners { OnOk result (map (λ start. start.diner) starts.new.items ≡ diners.items) }
    ensures ports { OnOk result
        (map (λ start. start.ports) starts.new.items ≡ map (λ site_ports. site_ports.ports) all_ports.items) }
    ensures bells { OnOk result
        (map (λ start. start.bell) starts.new.items ≡ map (λ site_ports. site_ports.bell) all_ports.items) }
{
    let mut number = 0u32;
    let mut waiting = diners.into_iter();
    for site_ports in all_ports {
        let diner = waiting.next().unwrap();
        let start = prepare(
            rt, alloc, manner, plan, number, site_ports, diner, gate, doorbells,
        )?;
        starts.push_reserved(start);
        number += 1;
    }
    Ok(())
}
