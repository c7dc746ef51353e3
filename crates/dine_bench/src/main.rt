//! Measures `run` alone: reads a plan, runs it RUNS times over links of one kind, and writes the median, the least
//! and the greatest wall time of `run`, in microseconds, to standard error. Standard output has the kind of links
//! and the number of runs, and the manner of the sites if it was given. With `world` it measures a world of one thread,
//! from its opening to the forks after its last event. With `--overtakes` it finds an order of each run, and writes
//! how many meals a neighbour began while a site waited for its own, since it grew hungry and since it asked, and how
//! many meals a site ate while a fork stayed at it. With `--waits` there is a run of `run_jobs` after each, by a clock,
//! and the middle one of the longest waits of these runs is written, in microseconds.
//!
//! With `open` there is an open run over the sites and edges of the plan, of which each site may eat JOBS meals in an
//! epoch. A number of SUBMITTERS threads submit TASKS tasks each, to sites that look random, among the first SITES. A
//! task takes TURNS turns. Between two tasks of a submitter there are GAP nanoseconds, it has WINDOW tickets at most,
//! and BOUND tasks at most wait for a site: if there are as many, the submitter waits a little and tries again. 0 is
//! for none of these, and for all sites. What is written are the nanoseconds from the first task to the end of the last
//! one, and how many epochs there were. With `--waits` there are also the nanoseconds from the submission of a task to
//! its begin: in the middle, of the 99th of a hundred, and the most. If there was more than one epoch, there are those
//! from when an epoch was over to the first task of the next: in the middle, the most, and together.
//!
//! usage: dine_bench channel|ring|world RUNS [--manner eager|greedy|PATIENCE] [--overtakes|--waits] < PLAN
//!        dine_bench open SUBMITTERS TASKS TURNS GAP WINDOW BOUND SITES JOBS [--waits] < PLAN
#![tactic(auto)]

mod arrivals;
mod epochs;
mod overtakes;
mod waits;

use anyhow::{Context, Result, bail};
use arrivals::measure_arrivals;
use dine::{PlanDiner, open_diners};
use dine_link::{ChannelLane, Lane, RingLane};
use dine_plan::{Plan, read_plan};
use dine_run::{Manner, RunOptions, order_of, run_with};
use dine_world::World;
use overtakes::Overtakes;
use std::alloc::Global;
use std::env;
use std::io::Read;
use std::rt::Clock;
use std::sync::Wait;
use std::thread::Threads;
use std::time::Instant;
use waits::longest_wait;

// The number of bytes that are allocated and freed before the clock runs, so that memory that an earlier run freed is
// brought together then.
const SETTLING: usize = 1 << 22;

// What is noted of each run besides its time.
#[derive(Clone, Copy, PartialEq)]
enum Noted {
    Nothing,
    Overtakes,
    Waits,
}

// What was found of one run: its microseconds, and its overtakes or its longest wait if they are noted.
#[derive(Drop)]
struct Found {
    micros: u128,
    overtakes: Option<Overtakes>,
    wait: Option<u128>,
}

// Measures one run over links of a lane.
fn time<L: Lane + 'static, R: Threads + Wait + Clock + Copy + Send + 'static>(
    rt: &R,
    alloc: Global,
    plan: &Plan,
    options: RunOptions,
    noted: Noted,
) -> Result<Found>
where
    L::Tx: 'static,
    L::ClosedTx: 'static,
    L::Rx: 'static,
{
    let diners = open_diners(alloc, plan)?;
    let large: Vec<u8> = Vec::with_capacity(alloc, SETTLING)?;
    drop(large);
    let start = Instant::now(rt)?;
    let Ok(gathered) = run_with::<L, PlanDiner>(rt, alloc, plan, diners, options) else {
        bail!("the run did not end in order");
    };
    let taken = start.elapsed(rt)?;
    let overtakes = if noted == Noted::Overtakes {
        let order = order_of(alloc, plan, &gathered)?;
        let mut overtakes = Overtakes::of(alloc, plan, order.as_slice())?;
        overtakes.add_stays(gathered.forks.as_slice());
        Some(overtakes)
    } else {
        None
    };
    let wait = if noted == Noted::Waits {
        Some(longest_wait::<L, R>(rt, alloc, plan, options)?)
    } else {
        None
    };
    Ok(Found {
        micros: taken.as_micros(),
        overtakes,
        wait,
    })
}

// Returns the microseconds of all events of a world, each the first that is enabled.
fn time_world<R: Clock>(rt: &R, alloc: Global, plan: &Plan) -> Result<Found> {
    let start = Instant::now(rt)?;
    let mut world = World::open(alloc, plan)?;
    let _ = world.finish();
    let forks = world.into_forks();
    let taken = start.elapsed(rt)?;
    drop(forks);
    Ok(Found {
        micros: taken.as_micros(),
        overtakes: None,
        wait: None,
    })
}

// Returns the manner of this name, which may be a patience.
fn manner_of(name: &str) -> Result<Manner> {
    match name {
        "eager" => Ok(Manner::Eager),
        "greedy" => Ok(Manner::Greedy),
        _ => Ok(Manner::Patient(
            name.parse()
                .context("manners are eager, greedy or a patience")?,
        )),
    }
}

// Returns what this word asks for.
fn noted_of(word: &str) -> Result<Noted> {
    match word {
        "--overtakes" => Ok(Noted::Overtakes),
        "--waits" => Ok(Noted::Waits),
        _ => bail!("unknown argument"),
    }
}

// Returns the manner, if it was given, and what is to be noted, by the arguments behind the number of runs.
fn options_of(
    first: Option<String>,
    second: Option<String>,
    third: Option<String>,
) -> Result<(Option<Manner>, Noted)> {
    match (first, second, third) {
        (None, None, None) => Ok((None, Noted::Nothing)),
        (Some(word), None, None) => Ok((None, noted_of(word.as_str())?)),
        (Some(word), Some(name), third) => {
            if word.as_str() != "--manner" {
                bail!("unknown argument");
            }
            let noted = match third {
                Some(word) => noted_of(word.as_str())?,
                None => Noted::Nothing,
            };
            Ok((Some(manner_of(name.as_str())?), noted))
        }
        _ => bail!("unknown argument"),
    }
}

// What is measured: over links of which kind, how many runs, and how they are done.
#[derive(Drop)]
struct Measure {
    lane: String,
    runs: u32,
    options: RunOptions,
    noted: Noted,
}

// What was found of all runs: their microseconds and longest waits, in rising order, and their overtakes together.
#[derive(Drop)]
struct All {
    times: Vec<u128>,
    waits: Vec<u128>,
    overtakes: Overtakes,
}

// Measures each run of the plan.
fn measured<R: Threads + Wait + Clock + Copy + Send + 'static>(
    rt: &R,
    alloc: Global,
    plan: &Plan,
    measure: &Measure,
) -> Result<All> {
    let (options, noted) = (measure.options, measure.noted);
    let mut all = All {
        times: Vec::new(alloc),
        waits: Vec::new(alloc),
        overtakes: Overtakes::none(),
    };
    for _ in 0..measure.runs {
        let found = match measure.lane.as_str() {
            "channel" => time::<ChannelLane, _>(rt, alloc, plan, options, noted)?,
            "ring" => time::<RingLane, _>(rt, alloc, plan, options, noted)?,
            "world" => time_world(rt, alloc, plan)?,
            _ => bail!("links are channel or ring"),
        };
        all.times.push(found.micros)?;
        if let Some(overtakes) = found.overtakes {
            all.overtakes.join(&overtakes);
        }
        if let Some(wait) = found.wait {
            all.waits.push(wait)?;
        }
    }
    all.times.sort()?;
    all.waits.sort()?;
    Ok(all)
}

// Writes what was run, and the times.
fn write_times(
    rt: HostRuntime,
    measure: &Measure,
    manner: Option<Manner>,
    times: &[u128],
) -> Result<()> {
    let (lane, runs) = (measure.lane.as_str(), measure.runs);
    match manner {
        Some(Manner::Eager) => println!(rt; "{lane} runs={runs} manner=eager")?,
        Some(Manner::Greedy) => println!(rt; "{lane} runs={runs} manner=greedy")?,
        Some(Manner::Patient(meals) | Manner::OnCall(meals)) => {
            println!(rt; "{lane} runs={runs} manner={meals}")?
        }
        None => println!(rt; "{lane} runs={runs}")?,
    }
    if let (Some(least), Some(median), Some(most)) = (
        times.first(),
        times.get(times.len() / 2),
        times.last(),
    ) {
        eprintln!(rt; "median={median} least={least} most={most}")?;
    }
    Ok(())
}

// Writes how often sites were overtaken: the means are in thousandths.
fn write_overtakes(rt: HostRuntime, all: &Overtakes) -> Result<()> {
    let (hungry, asked) = (all.hungry, all.asked);
    let (whole, part) = (hungry.mean() / 1000, hungry.mean() % 1000);
    let most = hungry.most;
    eprintln!(rt; "hunger_most={most} hunger_mean={whole}.{part:03}")?;
    let (whole, part) = (asked.mean() / 1000, asked.mean() % 1000);
    let (most, asks) = (asked.most, asked.count);
    eprintln!(rt; "ask_most={most} ask_mean={whole}.{part:03} asks={asks}")?;
    let (stays, mean) = (all.stays, all.stays.mean());
    let (most, whole, part, count) = (stays.most, mean / 1000, mean % 1000, stays.count);
    eprintln!(rt; "stay_most={most} stay_mean={whole}.{part:03} stays={count}")?;
    Ok(())
}

// Returns the plan on the standard input.
fn plan_given(rt: HostRuntime) -> Result<Plan> {
    let mut text = String::new(rt.alloc());
    rt.stdin().read_to_string(&mut text)?;
    Ok(read_plan(rt.alloc(), text.as_str())?)
}

fn main(rt: HostRuntime) -> Result<()> {
    let mut arguments = env::args(&rt)?;
    let _program = arguments.next();
    let lane = arguments.next().context("no kind of links")?;
    if lane.as_str() == "open" {
        return measure_arrivals(rt, rt.alloc(), &plan_given(rt)?, arguments);
    }
    let runs: u32 = arguments.next().context("no number of runs")?.parse()?;
    let (first, second) = (arguments.next(), arguments.next());
    let (manner, noted) = options_of(first, second, arguments.next())?;
    let options = match manner {
        Some(Manner::Eager) | None => RunOptions::eager(),
        Some(Manner::Greedy) => RunOptions::greedy(),
        Some(Manner::Patient(meals) | Manner::OnCall(meals)) => RunOptions::patience(meals),
    };
    let measure = Measure {
        lane,
        runs,
        options,
        noted,
    };
    let plan = plan_given(rt)?;
    let all = measured(&rt, rt.alloc(), &plan, &measure)?;
    write_times(rt, &measure, manner, all.times.as_slice())?;
    if noted == Noted::Overtakes {
        write_overtakes(rt, &all.overtakes)?;
    }
    if let Some(wait) = all.waits.get(all.waits.len() / 2) {
        eprintln!(rt; "wait={wait}")?;
    }
    Ok(())
}
