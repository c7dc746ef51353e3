// What the ends of a link do, one step after another, whatever lane the link is of.
ghost use Rattle.std.specs.Prelude.{◌≡◌, ◌+◌, ◌<◌, ◌^◌, [], false, length};
ghost use Rattle.dine_rules.specs.declared.letters.Letter.TheVariants.{Close};
ghost use Rattle.dine_link.specs.Closing.{is_close};
ghost use Rattle.dine_link.specs.Lanes.{seen_end};
ghost use Rattle.dine_link.specs.Links.{with_letter, after_refusal};

use crate::asserts::same;
use dine_link::{Lane, LinkEnd, Lost, TxEnd};
use dine_rules::{Letter, LetterKind};
use std::alloc::Global;
use std::process::Abort;
use std::sync::Wait;

// The two ends of a new link of an edge, in which the site `from` puts.
pub fn opened<L: Lane>(rt: &impl Abort, alloc: Global, edge: u32, from: u32) -> (L::Tx, L::Rx)
    ensures pair { (L.seen_rx result.1).link ≡ (L.seen_tx result.0).link }
    ensures empty { ((L.seen_tx result.0).letters ≡ []) × ((L.seen_rx result.1).letters ≡ []) }
{
    L::pair(alloc, edge, from).expect(rt, "memory")
}

// The kind of a letter, and the edge of a Request.
pub fn kind_and_edge(letter: &Letter) -> (LetterKind, Option<u32>) {
    match letter {
        Letter::Request(token) => (LetterKind::Request, Some(token.edge())),
        _ => (letter.kind(), None),
    }
}

// Puts a letter.
pub fn puts<L: Lane, R: Wait + Abort>(rt: &R, tx: &mut L::Tx, letter: Letter)
    requires letter { is_close letter ≡ false }
    requires few_letters { length (L.seen_tx tx.old).letters < 2 ^ 61 }
    ensures { L.seen_tx tx.new ≡ with_letter letter (L.seen_tx tx.old) }
{
    assert!(rt; L::put(rt, tx, letter).is_ok());
}

// Checks that the link refuses a put, and returns the letter.
pub fn refuses_put<L: Lane, R: Wait + Abort>(rt: &R, tx: &mut L::Tx, letter: Letter) -> Letter
    requires letter { is_close letter ≡ false }
    requires few_letters { length (L.seen_tx tx.old).letters < 2 ^ 61 }
    ensures back { result ≡ letter }
    ensures end { L.seen_tx tx.new ≡ after_refusal (L.seen_tx tx.old) }
{
    let Err((letter, Lost)) = L::put(rt, tx, letter) else {
        panic!(rt; "a put too many");
    };
    letter
}

// Puts Close.
pub fn closes<L: Lane, R: Wait + Abort>(rt: &R, tx: L::Tx) -> TxEnd<L>
    requires few_letters { length (L.seen_tx tx).letters < 2 ^ 61 }
    ensures { seen_end L.seen_tx L.seen_closed result ≡ with_letter Close (L.seen_tx tx) }
{
    let Ok(closed) = L::close(rt, tx) else {
        panic!(rt; "close was refused");
    };
    TxEnd::Shut(closed)
}

// Checks that the link refuses Close, and returns its end.
pub fn refuses_close<L: Lane, R: Wait + Abort>(rt: &R, tx: L::Tx) -> L::Tx
    requires few_letters { length (L.seen_tx tx).letters < 2 ^ 61 }
    ensures { L.seen_tx result ≡ after_refusal (L.seen_tx tx) }
{
    let Err((tx, Lost)) = L::close(rt, tx) else {
        panic!(rt; "a close too many");
    };
    tx
}

// Takes a letter, and checks it.
pub fn takes<L: Lane, R: Wait + Abort>(rt: &R, rx: &mut L::Rx, wanted: (LetterKind, Option<u32>))
    requires few_letters { length (L.seen_rx rx.old).letters < 2 ^ 61 }
    ensures link { (L.seen_rx rx.new).link ≡ (L.seen_rx rx.old).link }
    ensures count { length (L.seen_rx rx.new).letters ≡ length (L.seen_rx rx.old).letters + 1 }
{
    assert!(rt; !L::is_closed(rx));
    let Ok(letter) = L::take(rt, rx) else {
        panic!(rt; "a take was refused");
    };
    same(rt, &kind_and_edge(&letter), &wanted);
}

// The link refuses a take, before Close was taken.
pub fn refuses_take<L: Lane, R: Wait + Abort>(rt: &R, rx: &mut L::Rx)
    requires few_letters { length (L.seen_rx rx.old).letters < 2 ^ 61 }
    ensures { L.seen_rx rx.new ≡ after_refusal (L.seen_rx rx.old) }
{
    assert!(rt; !L::is_closed(rx));
    assert!(rt; L::take(rt, rx).is_err());
}

// What a link reports after its use.
#[derive(Clone, Copy, Debug, PartialEq, Eq)]
pub struct Report {
    // Its edge, and the site that put.
    pub name: (u32, u32),
    // How many letters were put and taken, and whether Close was put.
    pub count: (u64, u64, bool),
    // Whether a put was refused, and whether a take was.
    pub refused: (bool, bool),
}

// Checks what the link reports.
pub fn reports(rt: &impl Abort, end: &LinkEnd, wanted: Report) {
    let report = Report {
        name: (end.edge(), end.from()),
        count: (end.put(), end.taken(), end.shut()),
        refused: (end.put_refused(), end.take_refused()),
    };
    same(rt, &report, &wanted);
}
