//! The jobs of a site table. A plan may have many, so each key of a job is looked up once, for its value and its kind,
//! and its name is not copied.
ghost use Rattle.std.specs.Prelude.{◌≡◌, ◌||◌, codes, map, string_bytes, IfOk};
ghost use Rattle.std.specs.List.{list_any};
ghost use Rattle.toml.specs.View.{view};
ghost use Rattle.dine_graph.specs.Job.{seen_job};
ghost use Rattle.dine_reader.specs.Document.{act_in, fails_in, name_in, number_at, turns_in};
ghost use Rattle.dine_reader.specs.PlanOf.{job_in};
ghost use Rattle.dine_reader.specs.RefusalTests.{is_text, is_truth, is_whole, is_wrong, job_is_wrong};

use crate::documents::{natural_in, take};
use crate::forms::is_whole;
use dine_graph::{Job, JobName};
use dine_token::Act;
use std::alloc::{AllocError, Global};
use toml::Value;

/// Makes the jobs of these tables, and says whether a value of one is of another kind than the format names for its
/// key.
pub(crate) fn jobs_in(alloc: Global, tables: Vec<Value>) -> Result<(Vec<Job>, bool), AllocError>
    ensures jobs { IfOk result (λ read. map seen_job read.0.items ≡ map job_in (map view tables.items)) }
    ensures wrong { IfOk result (λ read. read.1 ≡ list_any job_is_wrong (map view tables.items)) }
{
    let mut jobs = Vec::with_capacity(alloc, tables.len())?;
    let mut wrong = false;
    for table in tables {
        let (job, is_wrong) = job_in(alloc, table);
        jobs.push(job)?;
        wrong = wrong | is_wrong;
    }
    Ok((jobs, wrong))
}

// The job of a table, and whether a value of it is of another kind than the format names for its key.
#[tactic(auto, unfolding(crate::specs::PlanOf::job_in, crate::specs::RefusalTests::job_is_wrong))]
fn job_in(alloc: Global, job: Value) -> (Job, bool)
    ensures job { seen_job result.0 ≡ job_in (view job) }
    ensures wrong { result.1 ≡ job_is_wrong (view job) }
{
    let (turns, no_turns) = turns_in(&job);
    let (fails, no_truth) = fails_in(&job);
    let (act, no_act) = act_in(&job);
    let (name, no_text) = take_name(alloc, job);
    let job = Job {
        name: JobName::Own(name),
        turns,
        fails,
        act,
    };
    (job, no_text || no_turns || no_truth || no_act)
}

// Takes the name out of a job, empty if there is no text, and says whether there is a value that is no text.
#[tactic(auto, unfolding(crate::specs::Document::text_at, crate::specs::RefusalTests::is_wrong))]
fn take_name(alloc: Global, job: Value) -> (String, bool)
    ensures name { string_bytes result.0 ≡ name_in (view job) }
    ensures wrong { result.1 ≡ is_wrong is_text (codes "name") (view job) }
{
    match take(job, "name") {
        Some(value) => match value {
            Value::String(name) => (name, false),
            _ => (String::new(alloc), true),
        },
        None => (String::new(alloc), false),
    }
}

// The turns of a job, and whether there is a value that is no whole number, or one below 0. A number that no `u32` has
// is read as the greatest.
#[tactic(auto, unfolding(crate::specs::Document::turns_in))]
fn turns_in(job: &Value) -> (u32, bool)
    ensures turns { result.0 ≡ turns_in (view job.now) }
    ensures wrong { result.1 ≡ is_wrong is_whole (codes "turns") (view job.now) }
{
    let (turns, is_wrong) = number_in(job, "turns");
    (turns.min(u32::MAX as u64) as u32, is_wrong)
}

// The whole number at a key, 0 if there is none or one below 0, and whether there is a value that is none.
#[tactic(auto, unfolding(crate::specs::Document::number_at, crate::specs::RefusalTests::is_wrong))]
fn number_in(job: &Value, key: &str) -> (u64, bool)
    ensures number { result.0 ≡ number_at key.now (view job.now) }
    ensures wrong { result.1 ≡ is_wrong is_whole key.now (view job.now) }
{
    match job.get(key) {
        Some(value) => (natural_in(value), !is_whole(value)),
        None => (0, false),
    }
}

// Whether a job fails, false if it has no `fails`, and whether there is a value that is no truth value.
#[tactic(auto, unfolding(crate::specs::Document::fails_in, crate::specs::RefusalTests::is_wrong))]
fn fails_in(job: &Value) -> (bool, bool)
    ensures fails { result.0 ≡ fails_in (view job.now) }
    ensures wrong { result.1 ≡ is_wrong is_truth (codes "fails") (view job.now) }
{
    match job.get("fails") {
        Some(value) => match value.as_bool() {
            Some(fails) => (fails, false),
            None => (false, true),
        },
        None => (false, false),
    }
}

// What a meal of a job does to a value: it sets, or else adds, and it adds 0 if the job names neither. And whether
// there is an amount that is no whole number, or one below 0.
fn act_in(job: &Value) -> (Act, bool)
    ensures act { result.0 ≡ act_in (view job.now) }
    ensures wrong { result.1 ≡ (is_wrong is_whole (codes "add") (view job.now)
        || is_wrong is_whole (codes "set") (view job.now)) }
{
    let (added, no_add) = number_in(job, "add");
    match job.get("set") {
        Some(value) => (Act::Set(natural_in(value)), no_add || !is_whole(value)),
        None => (Act::Add(added), no_add),
    }
}
