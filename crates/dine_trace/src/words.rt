//! The arguments of the program.

use crate::fault_lines::Fault;
use dine_words::{Command, Links, Table, command_of};
use std::alloc::Global;

// The argument for a LIST that is the first line of the input.
const IN_INPUT: &str = "-";

/// Where the choices are.
#[derive(Drop)]
pub enum Choices {
    /// These are the choices.
    Given(Vec<u32>),
    /// The first line of the input is their LIST, and the plan follows it.
    InInput,
}

/// What the program is asked to print of a plan and choices.
#[derive(Drop)]
pub enum Form {
    /// The steps of the choices, and those after them.
    Steps,
    /// The state after the choices, as JSON.
    State,
    /// All events of the choices, as JSON.
    Events,
    /// The states after these numbers of events of the choices, as a line of JSON each.
    States(Vec<u32>),
}

/// What the program is asked to print.
#[derive(Drop)]
pub enum Asked {
    /// Something of choices.
    Of(Form, Choices),
    /// Choices that lead through the events of a run on threads, over links of this kind.
    Run(Links),
}

/// Returns what the arguments ask for. The first of them is the program's own name.
pub fn asked_of(alloc: Global, words: &[String]) -> Result<Asked, Fault> {
    match words.get(1) {
        None => of(alloc, Form::Steps, &[]),
        Some(word) => match word.as_str() {
            "--json" => of(alloc, Form::State, &words[2..]),
            "--events" => of(alloc, Form::Events, &words[2..]),
            "--states" => states_in(alloc, &words[2..]),
            "--run" => Ok(Asked::Run(links_in(alloc, &words[2..])?)),
            _ => of(alloc, Form::Steps, &words[1..]),
        },
    }
}

// This form of the choices of the arguments.
fn of(alloc: Global, form: Form, words: &[String]) -> Result<Asked, Fault> {
    Ok(Asked::Of(form, choices_in(alloc, words)?))
}

// The states at the places that the first of the arguments lists.
fn states_in(alloc: Global, words: &[String]) -> Result<Asked, Fault> {
    match words.get(0) {
        Some(places) => of(
            alloc,
            Form::States(choices_of(alloc, places.as_str())?),
            &words[1..],
        ),
        None => Err(Fault::Usage),
    }
}

// The choices of the arguments: of one that is a LIST as for `dine replay --choices`, or that says that the input has
// it; none if there is no argument.
fn choices_in(alloc: Global, words: &[String]) -> Result<Choices, Fault> {
    match words.len() {
        0 => Ok(Choices::Given(Vec::new(alloc))),
        1 if words[0].as_str() == IN_INPUT => Ok(Choices::InInput),
        1 => Ok(Choices::Given(choices_of(alloc, words[0].as_str())?)),
        _ => Err(Fault::Usage),
    }
}

/// Returns the choices of a LIST as for `dine replay --choices`.
pub fn choices_of(alloc: Global, list: &str) -> Result<Vec<u32>, Fault> {
    match said_to_dine(alloc, ["replay", "--choices", list].as_slice())? {
        Command::Replay(choices) => Ok(choices),
        Command::Run(..) | Command::Check => Err(Fault::Usage),
    }
}

// The links of the arguments, as for `dine run --links`. If there is no argument, those that `dine` takes.
fn links_in(alloc: Global, words: &[String]) -> Result<Links, Fault> {
    let command = match words.len() {
        0 => said_to_dine(alloc, ["run"].as_slice())?,
        2 if words[0].as_str() == "--links" => {
            said_to_dine(alloc, ["run", "--links", words[1].as_str()].as_slice())?
        }
        _ => return Err(Fault::Usage),
    };
    match command {
        Command::Run(Table::Edges, links) => Ok(links),
        Command::Run(..) | Command::Replay(_) | Command::Check => Err(Fault::Usage),
    }
}

// What these arguments ask `dine` for.
fn said_to_dine(alloc: Global, said: &[&str]) -> Result<Command, Fault> {
    let mut words = Vec::new(alloc);
    words.push(String::from_str(alloc, "dine")?)?;
    for word in said {
        words.push(String::from_str(alloc, word)?)?;
    }
    Ok(command_of(alloc, words.as_slice())?)
}
