//! The arguments of the command line, read by `clap`.
ghost use Rattle.std.specs.Prelude.{◌≡◌, IfOk, IfSome, IsErrOf, None, OnOk, Some, false, is_some, map, string_bytes};
ghost use Rattle.clap.specs.Words.{app_of, found_of, kind_of, rows_of, rule_of, subcommand_rows_of};
ghost use Rattle.dine_words.specs.Words.{AreRight, HasNoFault, IsCommandName, are_taken, asked_by};
ghost use Rattle.dine_words.specs.Words.{asked_of, choices_in, command_found, command_in, dine_app, fault_of_kind};
ghost use Rattle.dine_words.specs.Words.{links_in, links_of, option_rule, program_alone, replay_app, run_app, run_in};
ghost use Rattle.dine_words.specs.Words.{table_in, table_of};
ghost use Rattle.dine_words.specs.private.Subcommands.{IsSubcommand};
ghost use Rattle.dine_words.specs.declared.words.WordsFault.TheVariants.{Memory};

use crate::choices::choices_of;
use std::alloc::{AllocError, Global};

const RUN: &str = "run";

const REPLAY: &str = "replay";

const CHECK: &str = "check";

const TABLE: &str = "table";

const CHOICES: &str = "choices";

const EDGES: &str = "edges";

const SITES: &str = "sites";

const LINKS: &str = "links";

const CHANNEL: &str = "channel";

const RING: &str = "ring";

/// Which table of a run is printed.
#[derive(Clone, Copy)]
pub enum Table {
    /// A row for each edge, with the meals of its two ends.
    Edges,
    /// A row for each site, with its meals and how many of their jobs failed.
    Sites,
}

/// What carries the letters of a run from site to site. The table is the same with either.
#[derive(Clone, Copy)]
pub enum Links {
    /// A channel for each link.
    Channel,
    /// A ring for each link.
    Ring,
}

/// What the program is asked to do.
#[derive(Drop)]
pub enum Command {
    /// Run every site of the plan on a thread of its own, over links of this kind, and print this table.
    Run(Table, Links),
    /// Go through the plan's events one by one, those of the choices first, and print the logs.
    Replay(Vec<u32>),
    /// Read the plan, and print how large it is.
    Check,
}

/// Why the arguments name no command.
#[derive(Clone, Copy)]
pub enum WordsFault {
    /// `clap` refuses the arguments, LIST is no list of choices, or no table or no kind of links has the name. A
    /// question for help or for the version is refused too.
    Usage,
    /// An allocation failed.
    Memory,
}

impl From<clap::Error> for WordsFault {
    ghost from_gives = { λ error fault. fault ≡ fault_of_kind (kind_of error) };

    fn from(error: clap::Error) -> WordsFault {
        match error.kind() {
            clap::error::ErrorKind::OutOfMemory => WordsFault::Memory,
            _ => WordsFault::Usage,
        }
    }
}

impl From<AllocError> for WordsFault {
    ghost from_gives = { λ _ fault. fault ≡ Memory };

    fn from(_error: AllocError) -> WordsFault {
        WordsFault::Memory
    }
}

/// Returns the command that the arguments name, the first of which is the program's own name. If they name none, it is
/// `run` with the table of edges, over rings.
///
/// # Errors
///
/// Returns `Usage` if the arguments are refused, and `Memory` if an allocation fails.
pub fn command_of(alloc: Global, words: &[String]) -> Result<Command, WordsFault>
    ensures ok { IfOk result (λ command. command_in dine_app (map string_bytes words.now) ≡ Some (asked_of command)) }
    ensures taken { OnOk result (AreRight dine_app (map string_bytes words.now)) }
    ensures usage { IsErrOf result WordsFault.Usage → are_taken dine_app (map string_bytes words.now) ≡ false }
    ensures fault { IsErrOf result WordsFault.Usage → HasNoFault dine_app (map string_bytes words.now)
        → command_in dine_app (map string_bytes words.now) ≡ None }
{
    let matches = program(alloc)?.try_get_matches_from(words)?;
    command_met(alloc, &matches)
}

// The command that `clap` found.
fn command_met(alloc: Global, matches: &clap::ArgMatches<'_>) -> Result<Command, WordsFault>
    requires known { IfSome (subcommand_rows_of matches.now) (λ found. IsCommandName found.0) }
    ensures ok { IfOk result (λ command. command_found (subcommand_rows_of matches.now) ≡ Some (asked_of command)) }
    ensures refused { IsErrOf result WordsFault.Usage → command_found (subcommand_rows_of matches.now) ≡ None }
{
    match matches.subcommand() {
        Some((name, found)) => command_named(alloc, name, found),
        None => Ok(Command::Run(Table::Edges, Links::Ring)),
    }
}

// The command of this name, with the options that `clap` found behind it.
fn command_named(
    alloc: Global,
    name: &str,
    found: &clap::ArgMatches<'_>,
) -> Result<Command, WordsFault>
    requires known { IsCommandName name.now }
    ensures ok { IfOk result (λ command. asked_by (name.now, rows_of (found_of found.now)) ≡ Some (asked_of command)) }
    ensures refused { IsErrOf result WordsFault.Usage → asked_by (name.now, rows_of (found_of found.now)) ≡ None }
{
    match name {
        RUN => run_met(found),
        REPLAY => Ok(Command::Replay(choices_met(alloc, found)?)),
        CHECK => Ok(Command::Check),
        _ => unreachable!(),
    }
}

// `dine` and its subcommands.
fn program<'a>(alloc: Global) -> Result<clap::Command<'a>, AllocError>
    ensures { IfOk result (λ program. app_of program ≡ dine_app) }
{
    program_alone(alloc)
        .subcommand(run_command(alloc)?)?
        .subcommand(replay_command(alloc)?)?
        .subcommand(clap::Command::new(alloc, CHECK))
}

// `dine` without its subcommands. The program prints its own usage line, so `clap` offers no help.
fn program_alone<'a>(alloc: Global) -> clap::Command<'a>
    ensures { app_of result ≡ program_alone }
{
    clap::Command::new(alloc, "dine")
        .disable_help_flag(true)
        .disable_help_subcommand(true)
}

// The command `run`, with its two options.
fn run_command<'a>(alloc: Global) -> Result<clap::Command<'a>, AllocError>
    ensures { IfOk result (λ run. IsSubcommand run_app run) }
{
    clap::Command::new(alloc, RUN)
        .arg(text_option(alloc, TABLE))?
        .arg(text_option(alloc, LINKS))
}

// The command `replay`, with its option.
fn replay_command<'a>(alloc: Global) -> Result<clap::Command<'a>, AllocError>
    ensures { IfOk result (λ replay. IsSubcommand replay_app replay) }
{
    clap::Command::new(alloc, REPLAY).arg(text_option(alloc, CHOICES))
}

// The option of this name, which takes a text.
fn text_option<'a>(alloc: Global, name: &'a str) -> clap::Arg<'a>
    ensures rule { rule_of result ≡ option_rule name.now }
    ensures optional { (result.required ≡ false) × (result.global ≡ false) }
{
    clap::Arg::new(alloc, name)
        .long(name)
        .action(clap::ArgAction::Set)
}

// The run with the options that `clap` found.
fn run_met(matches: &clap::ArgMatches<'_>) -> Result<Command, WordsFault>
    ensures run { IfOk result (λ command. run_in (rows_of (found_of matches.now)) ≡ Some (asked_of command)) }
    ensures refused { IsErrOf result WordsFault.Usage → run_in (rows_of (found_of matches.now)) ≡ None }
{
    match (table_met(matches), links_met(matches)) {
        (Some(table), Some(links)) => Ok(Command::Run(table, links)),
        _ => Err(WordsFault::Usage),
    }
}

// The table of the option `--table`. Without that option it is the table of edges.
fn table_met(matches: &clap::ArgMatches<'_>) -> Option<Table>
    ensures { result ≡ table_in (rows_of (found_of matches.now)) }
{
    match matches.get_str(TABLE) {
        Some(name) => table_of(name),
        None => Some(Table::Edges),
    }
}

// The table of the name.
fn table_of(name: &str) -> Option<Table>
    ensures { result ≡ table_of name.now }
{
    match name {
        EDGES => Some(Table::Edges),
        SITES => Some(Table::Sites),
        _ => None,
    }
}

// The kind of links of the option `--links`. Without that option they are rings.
fn links_met(matches: &clap::ArgMatches<'_>) -> Option<Links>
    ensures { result ≡ links_in (rows_of (found_of matches.now)) }
{
    match matches.get_str(LINKS) {
        Some(name) => links_of(name),
        None => Some(Links::Ring),
    }
}

// The kind of links of the name.
fn links_of(name: &str) -> Option<Links>
    ensures { result ≡ links_of name.now }
{
    match name {
        CHANNEL => Some(Links::Channel),
        RING => Some(Links::Ring),
        _ => None,
    }
}

// The choices of the option `--choices`. Without that option there are none.
fn choices_met(alloc: Global, matches: &clap::ArgMatches<'_>) -> Result<Vec<u32>, WordsFault>
    ensures choices { IfOk result (λ choices. choices_in (rows_of (found_of matches.now)) ≡ Some choices.items) }
    ensures refused { IsErrOf result WordsFault.Usage → choices_in (rows_of (found_of matches.now)) ≡ None }
{
    match matches.get_str(CHOICES) {
        Some(list) => choices_of(alloc, list),
        None => Ok(Vec::new(alloc)),
    }
}
