//! What the bytes of a letter report.
ghost use Rattle.std.specs.Prelude.{◌≡◌};
ghost use Rattle.dine_token.specs.Fork.{SeenFork, other_end};
ghost use Rattle.dine_wire.specs.Notes.{fork_note, moves_noted, report_of};

use dine_rules::Letter;
use dine_token::Fork;

/// What a letter of an edge reports.
#[derive(Clone, Copy, Debug, PartialEq, Eq)]
pub struct Note {
    /// The number of the edge.
    pub edge: u32,
    /// The letter, without what its receiver knows.
    pub report: Report,
}

/// A letter, without what its receiver knows.
#[derive(Clone, Copy, Debug, PartialEq, Eq)]
pub enum Report {
    /// The fork of the edge, and what its sender did with it.
    Fork(ForkNote),
    /// The token of the edge.
    Request,
    /// The sender will ask no more.
    Done,
    /// The sender will send nothing more.
    Close,
}

/// What its sender did with a fork.
#[derive(Clone, Copy, Debug, PartialEq, Eq)]
pub struct ForkNote {
    /// The number of Moves in its log, the one to the receiver included, modulo 2^32.
    pub moves: u32,
    /// The number of meals of the sender in its log.
    pub ate: u32,
    /// Its value.
    pub value: u64,
}

/// Returns the note of a letter of this edge.
pub fn note_of(letter: &Letter, edge: u32) -> Note
    ensures edge { result.edge ≡ edge }
    ensures report { result.report ≡ report_of letter.now }
{
    let report = match letter {
        Letter::Fork(fork) => Report::Fork(fork_note(fork)),
        Letter::Request(_) => Report::Request,
        Letter::Done => Report::Done,
        Letter::Close => Report::Close,
    };
    Note { edge, report }
}

fn fork_note(fork: &Fork) -> ForkNote
    ensures { result ≡ fork_note fork.now }
{
    let sender = other_end(fork, fork.at());
    ForkNote {
        moves: moves_noted(fork.moves()),
        ate: fork.meals_of(sender),
        value: fork.value(),
    }
}

/// Returns a number of Moves as a note has it, in four bytes: modulo 2^32.
pub(crate) fn moves_noted(moves: u64) -> u32
    ensures { result ≡ moves_noted moves }
{
    (moves % 4_294_967_296) as u32
}

/// Returns the end of the fork that is not this one.
pub(crate) fn other_end(fork: &Fork, end: u32) -> u32
    ensures { result ≡ other_end fork.now end }
{
    let (lower, higher) = fork.ends();
    if end == lower { higher } else { lower }
}
