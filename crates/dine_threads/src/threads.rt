//! A run of all sites of a plan, each on its thread, from their start to what is gathered.
ghost use Rattle.std.specs.Prelude.{◌≡◌, ◌<◌, ◌≤◌, IfErr, IfOk, Some, slice_get, vec_capacity, vec_len};
ghost use Rattle.dine_graph.specs.Plan.{job_count, site_count};
ghost use Rattle.dine_threads.specs.private.Collecting.{IsRoomFor};
ghost use Rattle.dine_threads.specs.private.Setups.{IsSetUp};
ghost use Rattle.dine_threads.specs.Headline.{FallsShort, FaultIs};
ghost use Rattle.dine_threads.specs.Runs.{HaveRoom, HaveSites, IsRun};

use crate::collecting::{Room, RoomOf, collect, first_fault, make_room};
use crate::gathered::{Gathered, RunFault};
use crate::opening::open_all;
use crate::options::RunOptions;
use crate::starts::{Child, SiteStart, join_all, prepare_all, start_all};
use dine_graph::Plan;
use dine_link::{Doorbell, Gate, Lane, Signal};
use dine_rules::laws;
use dine_site_thread::{Diner, Manner, SiteEnd};
use std::alloc::{AllocError, Global};
use std::sync::{Arc, Wait};
use std::thread::Threads;

// All that a run needs before its threads start: the start barrier, what moves into each thread, and lists with
// capacity for the threads and for what they leave.
#[derive(Drop)]
struct Setup<L: Lane, D: Diner> {
    gate: Arc<Gate, Global>,
    starts: Vec<SiteStart<L, D>>,
    children: Vec<Child<L, D>>,
    ends: Vec<SiteEnd<L, D>>,
    room: RoomOf<L, D>,
}

// Returns lists with capacity for the threads, for what each of them leaves, and for what is gathered. Split for the
// checker: see CONTRIBUTING, cost of proofs.
fn make_lists<C: Drop, E: Drop, S: Drop, P: Drop>(
    alloc: Global,
    plan: &Plan,
) -> Result<(Vec<C>, Vec<E>, Room<S, P>), AllocError>
    ensures children { IfOk result (λ lists. site_count plan.now ≤ vec_capacity lists.0) }
    ensures no_child { IfOk result (λ lists. vec_len lists.0 ≡ 0) }
    ensures ends { IfOk result (λ lists. site_count plan.now ≤ vec_capacity lists.1) }
    ensures no_end { IfOk result (λ lists. vec_len lists.1 ≡ 0) }
    ensures room { IfOk result (λ lists. IsRoomFor plan.now lists.2) }
{
    let children = Vec::with_capacity(alloc, plan.sites() as usize)?;
    let ends = Vec::with_capacity(alloc, plan.sites() as usize)?;
    let room = make_room(alloc, plan)?;
    Ok((children, ends, room))
}

// Allocates and opens all that a run needs before its threads start, and wires the doorbells.
fn set_up<R: Wait, L: Lane, D: Diner>(
    rt: &R,
    alloc: Global,
    manner: Manner,
    plan: &Plan,
    diners: Vec<D>,
    doorbells: &[Doorbell],
) -> Result<Setup<L, D>, AllocError>
    requires diners { vec_len diners ≡ site_count plan.now }
    requires rooms { (s : _) (diner : _)
        → slice_get diners.items s ≡ Some diner → job_count plan.now s ≤ D.room_left diner }
    requires expected { (s : _) (diner : _) → slice_get diners.items s ≡ Some diner → D.expects diner plan.now s }
    ensures { IfOk result (IsSetUp L.Lane D.Diner manner plan.now diners.items) }
{
    let gate = Arc::new(alloc, Gate::new())?;
    let mut starts = Vec::with_capacity(alloc, plan.sites() as usize)?;
    let all_ports = open_all::<L>(alloc, plan)?;
    prepare_all(
        rt,
        alloc,
        manner,
        plan,
        all_ports,
        diners,
        &gate,
        doorbells,
        &mut starts,
    )?;
    let (children, ends, room) = make_lists(alloc, plan)?;
    Ok(Setup {
        gate,
        starts,
        children,
        ends,
        room,
    })
}

/// Runs every site of the plan in the eager manner, each on a thread of its own, with the diner of its number, and
/// gathers what they leave: [`run_with`] with [`RunOptions::eager`].
///
/// If there is a diner for each site, each diner has capacity for all meals of its site, and expects to eat there. The
/// results are those of [`run_with`].
pub fn run<L: Lane + 'static, D: Diner + 'static>(
    rt: &(impl Threads + Wait + Copy + Send + 'static),
    alloc: Global,
    plan: &Plan,
    diners: Vec<D>,
) -> Result<Gathered<D>, RunFault<D>>
where
    L::Tx: 'static,
    L::ClosedTx: 'static,
    L::Rx: 'static,
    requires room { HaveRoom D.Diner plan.now diners }
    requires expected { HaveSites D.Diner plan.now diners }
    ensures ok { IfOk result (IsRun D.Diner Manner.Eager plan.now diners) }
    ensures fault { IfErr result (FaultIs D.Diner Manner.Eager plan.now diners) }
{
    run_with::<L, D>(rt, alloc, plan, diners, RunOptions::eager())
}

/// Runs every site of the plan in the eager manner, as [`run`] does, with at most `threads` threads: [`run_with`] with
/// [`RunOptions::within`].
pub fn run_within<L: Lane + 'static, D: Diner + 'static>(
    rt: &(impl Threads + Wait + Copy + Send + 'static),
    alloc: Global,
    plan: &Plan,
    diners: Vec<D>,
    threads: u32,
) -> Result<Gathered<D>, RunFault<D>>
where
    L::Tx: 'static,
    L::ClosedTx: 'static,
    L::Rx: 'static,
    requires room { HaveRoom D.Diner plan.now diners }
    requires expected { HaveSites D.Diner plan.now diners }
    ensures ok { IfOk result (IsRun D.Diner Manner.Eager plan.now diners) }
    ensures fault { IfErr result (FaultIs D.Diner Manner.Eager plan.now diners) }
    ensures limit { threads < site_count plan.now → FallsShort threads result }
{
    let options = RunOptions::eager().within(threads);
    run_with::<L, D>(rt, alloc, plan, diners, options)
}

/// Runs every site of the plan, each on a thread of its own, with the diner of its number, in the manner and with at
/// most as many threads as the options say, and gathers what they leave.
///
/// All memory is allocated before the first thread starts, except for the journals. The threads are held at a start
/// barrier until all have started. It may wait.
///
/// If there is a diner for each site, each diner has capacity for all meals of its site, and expects to eat there.
///
/// If it returns Ok, every site has done all its meals, or resigns and has dropped those after one that failed; there
/// is one fork for each edge, with every meal of both ends in its log; and the journals can be merged into one list
/// that a world of the plan accepts. In this world the jobs fail as the journals show.
///
/// If the plan has more sites than there may be threads, it returns an error, and not `Broken`. If this is `Thread`,
/// the number of the site that it names is at most the number of threads. No clause says more; the source says that it
/// is the first site that would need one thread more, or one before it whose thread could not be started, and that no
/// site runs.
///
/// # Errors
///
/// `DinersDiffer` if there are not as many diners as sites; it has the diners. `Memory` if an allocation fails.
/// `Thread` if a thread cannot be started: those that were started have ended and no letter moved, though no clause
/// says so. `Broken` if a site ended with a fault: all sites have joined, and this is the lowest site with a fault. It
/// has all that was found: at most one fork of each edge, and each breach that a site reports is a Close that arrived
/// early.
pub fn run_with<L: Lane + 'static, D: Diner + 'static>(
    rt: &(impl Threads + Wait + Copy + Send + 'static),
    alloc: Global,
    plan: &Plan,
    diners: Vec<D>,
    options: RunOptions,
) -> Result<Gathered<D>, RunFault<D>>
where
    L::Tx: 'static,
    L::ClosedTx: 'static,
    L::Rx: 'static,
    requires room { HaveRoom D.Diner plan.now diners }
    requires expected { HaveSites D.Diner plan.now diners }
    ensures ok { IfOk result (IsRun D.Diner options.manner plan.now diners) }
    ensures fault { IfErr result (FaultIs D.Diner options.manner plan.now diners) }
    ensures limit { options.threads < site_count plan.now → FallsShort options.threads result }
{
    run_with_doorbells::<L, D>(rt, alloc, plan, diners, &[], options)
}

/// Runs every site of the plan, as [`run_with`] does, and wires the doorbell of each site, by number, to its bell
/// before the first thread starts. So the sites may be on call ([`Manner::OnCall`]), and be rung when their diners are
/// called. A doorbell beyond the last site is left as it is, and a site may have none.
///
/// # Errors
///
/// Those of [`run_with`].
pub fn run_with_doorbells<L: Lane + 'static, D: Diner + 'static>(
    rt: &(impl Threads + Wait + Copy + Send + 'static),
    alloc: Global,
    plan: &Plan,
    diners: Vec<D>,
    doorbells: &[Doorbell],
    options: RunOptions,
) -> Result<Gathered<D>, RunFault<D>>
where
    L::Tx: 'static,
    L::ClosedTx: 'static,
    L::Rx: 'static,
    requires room { HaveRoom D.Diner plan.now diners }
    requires expected { HaveSites D.Diner plan.now diners }
    ensures ok { IfOk result (IsRun D.Diner options.manner plan.now diners) }
    ensures fault { IfErr result (FaultIs D.Diner options.manner plan.now diners) }
    ensures limit { options.threads < site_count plan.now → FallsShort options.threads result }
{
    laws::kept_streams_account_for_fork_and_token();
    laws::joined_ends_have_one_whole_fork_and_one_token();
    laws::values_are_those_of_the_logs();
    laws::refused_letters_are_closes();
    if diners.len() != plan.sites() as usize {
        return Err(RunFault::DinersDiffer {
            given: diners.len(),
            diners,
        });
    }
    let Ok(setup) = set_up::<_, L, D>(rt, alloc, options.manner, plan, diners, doorbells) else {
        return Err(RunFault::Memory);
    };
    let Setup {
        gate,
        starts,
        mut children,
        mut ends,
        room,
    } = setup;
    let refused = start_all(rt, starts, &mut children, options.threads);
    let signal = if refused.is_some() {
        Signal::CalledOff
    } else {
        Signal::Open
    };
    gate.send(rt, signal);
    join_all(rt, children, &mut ends);
    if let Some(site) = refused {
        return Err(RunFault::Thread(site));
    }
    let fault = first_fault(ends.as_slice());
    let (forks, sites, links) = collect(plan, ends, room);
    match fault {
        None => Ok(Gathered {
            forks,
            sites,
            links,
        }),
        Some(site) => Err(RunFault::Broken {
            site,
            joined: Gathered {
                forks,
                sites,
                links,
            },
        }),
    }
}
