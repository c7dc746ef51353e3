// The ends of an edge between two sites, and the letters in its links.
ghost use Rattle.std.specs.Prelude.{◌≡◌, ◌≤◌, ◌<◌, ◌+◌, ◌^◌, false, length};
ghost use Rattle.dine_link.specs.Closing.{is_close};
ghost use Rattle.dine_link.specs.Links.{IsUnused};

use super::left::has_log;
use crate::asserts::same;
use dine_link::{Bell, Lane, Ringer, TxEnd};
use dine_rules::{Letter, LetterKind};
use dine_token::{Entry, Fork, Held, Token};
use std::alloc::Global;
use std::process::Abort;
use std::sync::Wait;

// What a site has of an edge: the end that it puts in, the end that it takes from, the ringer of its neighbour's bell,
// and its own bell.
#[derive(Drop)]
pub struct Ends<L: Lane> {
    pub tx: L::Tx,
    pub rx: L::Rx,
    pub ringer: Ringer,
    pub bell: Bell,
}

// A ringer that never rang, and its bell.
pub fn one_ringer(rt: &impl Abort, alloc: Global) -> (Ringer, Bell)
    ensures silent { (result.0.rings ≡ 0) × (result.0.refused ≡ false) }
    ensures degree { result.1.degree ≡ 1 }
    ensures unrefused { result.1.refused ≡ false }
{
    let Ok((mut ringers, bell)) = Bell::open(alloc, 1) else {
        panic!(rt; "no memory for a bell");
    };
    match ringers.pop() {
        Some(ringer) => (ringer, bell),
        None => panic!(rt; "no ringer"),
    }
}

// Returns an empty link of an edge from that end.
pub fn link_from<L: Lane>(rt: &impl Abort, alloc: Global, edge: u32, from: u32) -> (L::Tx, L::Rx)
    ensures put { IsUnused (L.seen_tx result.0) }
    ensures taken { IsUnused (L.seen_rx result.1) }
{
    let Ok(ends) = L::pair(alloc, edge, from) else {
        panic!(rt; "no memory for a link");
    };
    ends
}

// What a site has of the one edge of a pair, and what its neighbour has.
pub fn ends_of<L: Lane>(rt: &impl Abort, alloc: Global, site: u32) -> (Ends<L>, Ends<L>)
    ensures puts { IsUnused (L.seen_tx result.0.tx) × IsUnused (L.seen_tx result.1.tx) }
    ensures takes { IsUnused (L.seen_rx result.0.rx) × IsUnused (L.seen_rx result.1.rx) }
    ensures silent { (result.0.ringer.rings ≡ 0) × (result.0.ringer.refused ≡ false) }
    ensures bell { (result.0.bell.degree ≡ 1) × (result.0.bell.refused ≡ false) }
    ensures far_bell { (result.1.bell.degree ≡ 1) × (result.1.bell.refused ≡ false) }
{
    let (tx, far_rx) = link_from::<L>(rt, alloc, 0, site);
    let (far_tx, rx) = link_from::<L>(rt, alloc, 0, 1 - site % 2);
    let (ringer, far_bell) = one_ringer(rt, alloc);
    let (far_ringer, bell) = one_ringer(rt, alloc);
    let near = Ends::<L> {
        tx,
        rx,
        ringer,
        bell,
    };
    let far = Ends::<L> {
        tx: far_tx,
        rx: far_rx,
        ringer: far_ringer,
        bell: far_bell,
    };
    (near, far)
}

// A letter other than Close, of an edge.
#[derive(Clone, Copy)]
pub enum Put {
    Request(u32),
    Done,
    // A fork of the pair, as it is opened.
    Fork(u32),
    // The fork that the fourth site of the star is sent.
    Sent(u32),
    // The fork of a pair that the higher site is sent, with this number of jobs.
    SentUp(u32),
}

// Up to two letters, and whether Close follows them.
#[derive(Clone, Copy)]
pub struct Letters {
    pub first: Option<Put>,
    pub second: Option<Put>,
    pub closes: bool,
}

fn fork_between(rt: &impl Abort, alloc: Global, edge: u32) -> Fork {
    Fork::open(alloc, edge, 0, 1, 1, 1, 0).expect(rt, "memory")
}

fn sent_fork(rt: &impl Abort, alloc: Global, edge: u32) -> Fork {
    assert!(rt; edge < 3);
    let fork = Fork::open(alloc, edge, edge, 3, 0, 1, 0).expect(rt, "memory");
    Held::take(fork).give(3)
}

fn fork_sent_up(rt: &impl Abort, alloc: Global, jobs: u32) -> Fork {
    assert!(rt; 1 <= jobs && jobs <= 130);
    let fork = Fork::open(alloc, 0, 0, 1, 1, jobs, 0).expect(rt, "memory");
    Held::take(fork).give(1)
}

fn letter_of(rt: &impl Abort, alloc: Global, put: Put) -> Letter
    ensures { is_close result ≡ false }
{
    match put {
        Put::Request(edge) => Letter::Request(Token::open(edge)),
        Put::Done => Letter::Done,
        Put::Fork(edge) => Letter::Fork(fork_between(rt, alloc, edge)),
        Put::Sent(edge) => Letter::Fork(sent_fork(rt, alloc, edge)),
        Put::SentUp(jobs) => Letter::Fork(fork_sent_up(rt, alloc, jobs)),
    }
}

fn puts<L: Lane, R: Wait + Abort>(rt: &R, alloc: Global, tx: &mut L::Tx, letter: Put)
    requires few_letters { length (L.seen_tx tx.old).letters < 2 ^ 61 }
    ensures more { length (L.seen_tx tx.new).letters ≤ length (L.seen_tx tx.old).letters + 1 }
{
    let letter = letter_of(rt, alloc, letter);
    assert!(rt; L::put(rt, tx, letter).is_ok());
}

// Puts the letters in a link.
pub fn fill<L: Lane, R: Wait + Abort>(
    rt: &R,
    alloc: Global,
    tx: L::Tx,
    letters: Letters,
) -> TxEnd<L>
    requires { IsUnused (L.seen_tx tx) }
{
    let mut tx = tx;
    if let Some(first) = letters.first {
        puts::<L, R>(rt, alloc, &mut tx, first);
    }
    if let Some(second) = letters.second {
        puts::<L, R>(rt, alloc, &mut tx, second);
    }
    if !letters.closes {
        return TxEnd::Live(tx);
    }
    match L::close(rt, tx) {
        Ok(closed) => TxEnd::Shut(closed),
        Err(_) => panic!(rt; "no Close"),
    }
}

// Rings once for each of the letters.
pub fn ring_for<R: Wait + Abort>(rt: &R, ringer: Ringer, letters: Letters) -> Ringer {
    let mut ringer = ringer;
    for is_put in [
        letters.first.is_some(),
        letters.second.is_some(),
        letters.closes,
    ] {
        if is_put {
            same(rt, &ringer.ring(rt), &Ok(()));
        }
    }
    ringer
}

// The next letter in the link.
fn next<L: Lane, R: Wait + Abort>(rt: &R, rx: &mut L::Rx) -> Letter
    requires few_letters { length (L.seen_rx rx.old).letters < 2 ^ 61 }
    ensures more { length (L.seen_rx rx.new).letters ≤ length (L.seen_rx rx.old).letters + 1 }
{
    assert!(rt; !L::is_closed(rx));
    match L::take(rt, rx) {
        Ok(letter) => letter,
        Err(_) => panic!(rt; "no letter"),
    }
}

fn next_is<L: Lane, R: Wait + Abort>(rt: &R, rx: &mut L::Rx, kind: LetterKind)
    requires few_letters { length (L.seen_rx rx.old).letters < 2 ^ 61 }
    ensures more { length (L.seen_rx rx.new).letters ≤ length (L.seen_rx rx.old).letters + 1 }
{
    let letter = next::<L, R>(rt, rx);
    same(rt, &letter.kind(), &kind);
}

// Checks that the link has this letter, then the second one if there is one, and then Close.
pub fn finds<L: Lane, R: Wait + Abort>(
    rt: &R,
    rx: L::Rx,
    first: LetterKind,
    second: Option<LetterKind>,
)
    requires { IsUnused (L.seen_rx rx) }
{
    let mut rx = rx;
    next_is::<L, R>(rt, &mut rx, first);
    if let Some(second) = second {
        next_is::<L, R>(rt, &mut rx, second);
    }
    next_is::<L, R>(rt, &mut rx, LetterKind::Close);
}

// In the link there are these three letters, and Close.
pub fn finds_three<L: Lane, R: Wait + Abort>(rt: &R, rx: L::Rx, kinds: [LetterKind; 3])
    requires { IsUnused (L.seen_rx rx) }
{
    let mut rx = rx;
    let [first, second, third] = kinds;
    next_is::<L, R>(rt, &mut rx, first);
    next_is::<L, R>(rt, &mut rx, second);
    next_is::<L, R>(rt, &mut rx, third);
    next_is::<L, R>(rt, &mut rx, LetterKind::Close);
}

// In the link there are Done, a fork with this log, and Close.
pub fn finds_fork<L: Lane, R: Wait + Abort>(rt: &R, rx: L::Rx, log: &[Entry])
    requires { IsUnused (L.seen_rx rx) }
{
    let mut rx = rx;
    next_is::<L, R>(rt, &mut rx, LetterKind::Done);
    match next::<L, R>(rt, &mut rx) {
        Letter::Fork(fork) => has_log(rt, &fork, log),
        _ => panic!(rt; "no fork"),
    }
    next_is::<L, R>(rt, &mut rx, LetterKind::Close);
}
