//! The text of a world.
ghost use Rattle.std.specs.Prelude.{◌≡◌, ◌+◌, ◌≤◌, ◌∷◌, ◌++◌, Bool, List, codes, string_bytes, IfOk, OnOk};
ghost use Rattle.dine_token.specs.declared.limits.TheConstants.{MAX_JOBS};
ghost use Rattle.dine_token.specs.declared.log_entry.Entry.TheVariants.{Move};
ghost use Rattle.dine_token.specs.Periods.{meals_in};
ghost use Rattle.std.specs.Fmt.{decimal};
ghost use Rattle.dine_graph.specs.Plan.{name_of};
ghost use Rattle.dine_world.specs.Outcomes.{with_outcomes};
ghost use Rattle.dine_world.specs.World.{WorldState};
ghost use Rattle.dine_world.specs.Worlds.{IsWorldOf};
ghost use Rattle.dine_log_text.specs.Logs.{edge_line, edge_lines, entries_text, events_line};
ghost use Rattle.dine_log_text.specs.Logs.{separator, value_text, world_text};
ghost use Rattle.dine_log_text.specs.private.MealTexts.{texts_of};

use crate::logs::meal_texts::{MealTexts, push_meal, separator};
use dine_graph::Plan;
use dine_token::{Fork, Period};
use dine_world::World;
use std::alloc::{AllocError, Global};

mod meal_texts;

/// Returns the text of the world after `events` events: the log of each edge, in version 2 with its value, and the last
/// line. The world was opened for the plan, with the plan's outcomes of jobs or with others.
///
/// # Errors
///
/// Fails if an allocation fails.
pub fn world_text(
    alloc: Global,
    plan: &Plan,
    world: &World,
    events: u64,
) -> Result<Vec<u8>, AllocError>
    ensures { IfOk result (λ text. (fails : List (List Bool)) (state : WorldState)
        → IsWorldOf (with_outcomes plan.now fails) state world.now
        → text.items ≡ world_text plan.now (with_outcomes plan.now fails) state events) }
{
    let mut text = edges_text(alloc, plan, world)?;
    push_events_line(&mut text, events, world.bound())?;
    Ok(text.into_bytes())
}

/// Returns the lines of the edges of the world: the log of each edge, in version 2 with its value.
///
/// # Errors
///
/// Fails if an allocation fails.
pub fn edges_text(alloc: Global, plan: &Plan, world: &World) -> Result<String, AllocError>
    ensures { IfOk result (λ text. (fails : List (List Bool)) (state : WorldState)
        → IsWorldOf (with_outcomes plan.now fails) state world.now
        → string_bytes text ≡ edge_lines plan.now (with_outcomes plan.now fails) state) }
{
    let mut text = String::new(alloc);
    push_lines(&mut text, plan, &texts_of(alloc, plan)?, world)?;
    Ok(text)
}

// Adds the lines of all edges to the text.
fn push_lines(
    text: &mut String,
    plan: &Plan,
    texts: &[MealTexts<'_>],
    world: &World,
) -> Result<(), AllocError>
    requires { texts.now ≡ texts_of plan.now }
    ensures { OnOk result ((fails : List (List Bool)) (state : WorldState)
        → IsWorldOf (with_outcomes plan.now fails) state world.now
        → string_bytes text.new
        ≡ string_bytes text.old ++ edge_lines plan.now (with_outcomes plan.now fails) state) }
{
    for edge in 0..plan.edges() {
        // A world that was opened for the plan has the fork of each edge.
        if let Some(fork) = world.fork(edge) {
            push_edge_line(text, plan, texts, fork)?;
        }
    }
    Ok(())
}

// Returns for each site of the plan, in order, the text of the meals that are due.
fn texts_of(alloc: Global, plan: &Plan) -> Result<Vec<MealTexts<'_>>, AllocError>
    ensures { IfOk result (λ texts. texts.items ≡ texts_of plan.now) }
{
    let mut texts = Vec::new(alloc);
    for site in 0..plan.sites() {
        texts.push(MealTexts::make(alloc, plan.name(site), plan.jobs(site))?)?;
    }
    Ok(texts)
}

// Returns the name of the site, or the empty text if there is no such site.
fn name_of(plan: &Plan, site: u32) -> &str
    ensures { result.now ≡ name_of plan.now site }
{
    if site < plan.sites() {
        plan.name(site)
    } else {
        ""
    }
}

// Adds a Move to the site with this name. `is_first` says whether it is the first entry of its line.
fn push_move(text: &mut String, is_first: bool, name: &str) -> Result<(), AllocError>
    ensures { OnOk result (string_bytes text.new
        ≡ string_bytes text.old ++ (separator is_first ++ (codes "to " ++ name.now))) }
{
    text.push_str(separator(is_first))?;
    text.push_str("to ")?;
    text.push_str(name)
}

// Adds the meals of the period to the text, one after the other.
fn push_each_meal(
    text: &mut String,
    plan: &Plan,
    is_first: bool,
    period: Period,
) -> Result<(), AllocError>
    requires { period.first + period.count ≤ MAX_JOBS + 1 }
    ensures { OnOk result (string_bytes text.new
        ≡ string_bytes text.old ++ entries_text (name_of plan.now) (separator is_first) (meals_in period)) }
{
    let name = name_of(plan, period.site);
    let mut is_first = is_first;
    for i in 0..period.count {
        push_meal(text, is_first, name, period.first + i)?;
        is_first = false;
    }
    Ok(())
}

// Adds the meals of the period to the text, as one part of its site's text. A log has only meals that are due, so that
// text has them. Nothing proves this here, so the meals are added one after the other if it does not.
fn push_meals(
    text: &mut String,
    plan: &Plan,
    texts: &[MealTexts<'_>],
    is_first: bool,
    period: Period,
) -> Result<(), AllocError>
    requires bound { period.first + period.count ≤ MAX_JOBS + 1 }
    requires texts { texts.now ≡ texts_of plan.now }
    ensures { OnOk result (string_bytes text.new
        ≡ string_bytes text.old ++ entries_text (name_of plan.now) (separator is_first) (meals_in period)) }
{
    if let Some(site) = texts.get(period.site as usize) {
        if let Some(part) = site.of_period(is_first, period) {
            return text.push_str(part);
        }
    }
    push_each_meal(text, plan, is_first, period)
}

// Adds a period that begins with a Move to the text: the Move, and the meals.
fn push_moved(
    text: &mut String,
    plan: &Plan,
    texts: &[MealTexts<'_>],
    is_first: bool,
    period: Period,
) -> Result<(), AllocError>
    requires bound { period.first + period.count ≤ MAX_JOBS + 1 }
    requires texts { texts.now ≡ texts_of plan.now }
    ensures { OnOk result (string_bytes text.new
        ≡ string_bytes text.old
        ++ entries_text (name_of plan.now) (separator is_first) (Move period.site ∷ meals_in period)) }
{
    push_move(text, is_first, name_of(plan, period.site))?;
    push_meals(text, plan, texts, false, period)
}

// Adds the entries of the fork's log to the text, period by period.
fn push_entries(
    text: &mut String,
    plan: &Plan,
    texts: &[MealTexts<'_>],
    fork: &Fork,
) -> Result<(), AllocError>
    requires { texts.now ≡ texts_of plan.now }
    ensures { OnOk result (string_bytes text.new
        ≡ string_bytes text.old ++ entries_text (name_of plan.now) (codes " ") fork.now.log) }
{
    let periods = fork.periods();
    let first = fork.period(0);
    push_meals(text, plan, texts, true, first)?;
    let mut is_first = first.count == 0;
    for i in 1..periods {
        push_moved(text, plan, texts, is_first, fork.period(i))?;
        is_first = false;
    }
    Ok(())
}

// Adds the line of the fork's edge to the text.
fn push_edge_line(
    text: &mut String,
    plan: &Plan,
    texts: &[MealTexts<'_>],
    fork: &Fork,
) -> Result<(), AllocError>
    requires { texts.now ≡ texts_of plan.now }
    ensures { OnOk result (string_bytes text.new
        ≡ string_bytes text.old
        ++ edge_line (name_of plan.now) fork.now.edge fork.now.ends fork.now.log
        (value_text plan.now fork.now.value)) }
{
    let edge = fork.edge();
    let (lower, higher) = fork.ends();
    let lower = name_of(plan, lower);
    let higher = name_of(plan, higher);
    write!(text, "edge {edge} {lower} {higher}:")?;
    push_entries(text, plan, texts, fork)?;
    push_value(text, plan, fork)?;
    text.push_str("\n")
}

// Adds the value of the fork to the text, if the plan is of version 2.
fn push_value(text: &mut String, plan: &Plan, fork: &Fork) -> Result<(), AllocError>
    ensures { OnOk result (string_bytes text.new ≡ string_bytes text.old ++ value_text plan.now fork.now.value) }
{
    if plan.version() != 2 {
        return Ok(());
    }
    let value = fork.value();
    write!(text, " = {value}")
}

// Adds the last line to the text.
fn push_events_line(text: &mut String, events: u64, bound: u64) -> Result<(), AllocError>
    ensures { OnOk result (string_bytes text.new ≡ string_bytes text.old ++ events_line events bound) }
{
    writeln!(text, "events {events} of {bound}")
}
