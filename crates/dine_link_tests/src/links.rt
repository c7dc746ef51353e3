// Letters over links, in one thread and between two.
ghost use Rattle.std.specs.Prelude.{◌≡◌, vec_len};

mod exchange;
mod refusals;
mod slowly;
mod steps;
mod waits;

use crate::asserts::same;
use dine_link::{ChannelLane, FaultLane, Lane, LinkFault, Lost, RingLane, TxEnd};
use dine_rules::{Letter, LetterKind};
use dine_token::{Act, Fork, Held, Meal, Token};
use exchange::exchange;
use std::alloc::Global;
use std::process::Abort;
use std::sync::Wait;
use std::thread::Threads;
use steps::{Report, closes, opened, puts, reports, takes};

// Done and Close go over a link in this order, and then its ends are brought together.
fn done_and_close<L: Lane, R: Wait + Abort>(rt: &R, alloc: Global) {
    let (mut tx, mut rx) = opened::<L>(rt, alloc, 5, 2);
    puts::<L, R>(rt, &mut tx, Letter::Done);
    let tx = closes::<L, R>(rt, tx);
    takes::<L, R>(rt, &mut rx, (LetterKind::Done, None));
    takes::<L, R>(rt, &mut rx, (LetterKind::Close, None));
    assert!(rt; L::is_closed(&rx));
    let wanted = Report {
        name: (5, 2),
        count: (2, 2, true),
        refused: (false, false),
    };
    reports(rt, &L::reconcile(tx, rx), wanted);
}

#[test]
fn done_and_close_go_over_a_link(rt: HostRuntime) {
    done_and_close::<ChannelLane, HostRuntime>(&rt, rt.alloc());
    done_and_close::<RingLane, HostRuntime>(&rt, rt.alloc());
    done_and_close::<FaultLane, HostRuntime>(&rt, rt.alloc());
}

// A link keeps its name, however high the numbers in it are.
fn keeps_its_name<L: Lane, R: Wait + Abort>(rt: &R, alloc: Global, edge: u32, from: u32) {
    let (mut tx, mut rx) = opened::<L>(rt, alloc, edge, from);
    puts::<L, R>(rt, &mut tx, Letter::Request(Token::open(edge)));
    takes::<L, R>(rt, &mut rx, (LetterKind::Request, Some(edge)));
    let wanted = Report {
        name: (edge, from),
        count: (1, 1, false),
        refused: (false, false),
    };
    reports(rt, &L::reconcile(TxEnd::Live(tx), rx), wanted);
}

#[test]
fn links_keep_high_names(rt: HostRuntime) {
    for (edge, from) in [(63, 64), (64, 65), (300, 70), (u32::MAX, u32::MAX - 1)] {
        keeps_its_name::<ChannelLane, HostRuntime>(&rt, rt.alloc(), edge, from);
        keeps_its_name::<RingLane, HostRuntime>(&rt, rt.alloc(), edge, from);
    }
}

// Letters that one thread puts and another takes: the Requests or the forks of the edges from 0 on, and then Close if
// `closes`.
#[derive(Clone, Copy)]
struct Sending {
    kind: LetterKind,
    letters: u32,
    closes: bool,
    // How many of them are taken.
    taken: u32,
}

// The fork of an edge, sent to its higher end after one meal at the lower, or after none.
fn sent_fork(rt: &impl Abort, alloc: Global, edge: u32, is_eaten: bool) -> Letter {
    let fork = Fork::open(alloc, edge, 0, 1, 1, 1, 0).expect(rt, "memory");
    if !is_eaten {
        return Letter::Fork(Held::take(fork).give(1));
    }
    let mut hands = Vec::with_capacity(alloc, 1).expect(rt, "memory");
    hands.push_reserved(Held::take(fork));
    let mut hands = Meal::begin(0, 1, Act::Add(0), hands).end();
    let Some(held) = hands.pop() else {
        unreachable!();
    };
    hands.destroy_empty();
    Letter::Fork(held.give(1))
}

// The letter of an edge. The forks of even edges were eaten with.
fn sent(rt: &impl Abort, alloc: Global, kind: LetterKind, edge: u32) -> Letter {
    if kind == LetterKind::Fork {
        sent_fork(rt, alloc, edge, edge % 2 == 0)
    } else {
        Letter::Request(Token::open(edge))
    }
}

// The letters of the edges 0 to count - 1.
fn all_sent(rt: &impl Abort, alloc: Global, kind: LetterKind, count: u32) -> Vec<Letter>
    ensures { vec_len result ≡ count }
{
    let mut letters = Vec::with_capacity(alloc, count as usize).expect(rt, "memory");
    for edge in 0..count {
        letters.push_reserved(sent(rt, alloc, kind, edge));
    }
    letters
}

// Checks that the letter is that of the edge, a fork with its log, or Close after all of them.
fn came(rt: &impl Abort, letter: &Letter, sending: Sending, edge: u32) {
    let is_last = edge == sending.letters;
    let kind = if is_last {
        LetterKind::Close
    } else {
        sending.kind
    };
    same(rt, &letter.kind(), &kind);
    match letter {
        Letter::Request(token) => same(rt, &token.edge(), &edge),
        Letter::Fork(fork) => {
            let report = (fork.edge(), fork.at(), fork.is_dirty(), fork.len());
            same(rt, &report, &(edge, 1, false, u64::from(2 - edge % 2)));
        }
        _ => {}
    }
}

// Checks that they arrive as they were put, over links of a lane, and the numbers put and taken, and whether Close was.
fn goes_over<L, R>(rt: R, alloc: Global, sending: Sending, count: (u64, u64, bool))
where
    R: Threads + Wait + Abort + Copy + Send + 'static,
    L: Lane + 'static,
    L::Tx: 'static,
    L::ClosedTx: 'static,
    L::Rx: 'static,
{
    let letters = all_sent(&rt, alloc, sending.kind, sending.letters);
    let (end, taken) = exchange::<L, R>(rt, alloc, letters, sending.closes, sending.taken as usize);
    same(&rt, &taken.len(), &(sending.taken as usize));
    for (edge, letter) in (0..sending.taken).zip(&taken) {
        came(&rt, letter, sending, edge);
    }
    same(&rt, &(end.put(), end.taken(), end.shut()), &count);
}

// The same over a channel and over a ring.
fn goes_over_both<R>(rt: R, alloc: Global, sending: Sending, count: (u64, u64, bool))
where
    R: Threads + Wait + Abort + Copy + Send + 'static,
{
    goes_over::<ChannelLane, R>(rt, alloc, sending, count);
    goes_over::<RingLane, R>(rt, alloc, sending, count);
}

#[test]
fn two_threads_pass_requests_in_order(rt: HostRuntime) {
    let sending = Sending {
        kind: LetterKind::Request,
        letters: 2000,
        closes: false,
        taken: 2000,
    };
    goes_over_both(rt, rt.alloc(), sending, (2000, 2000, false));
}

#[test]
fn two_threads_pass_forks_with_their_logs(rt: HostRuntime) {
    let sending = Sending {
        kind: LetterKind::Fork,
        letters: 200,
        closes: false,
        taken: 200,
    };
    goes_over_both(rt, rt.alloc(), sending, (200, 200, false));
}

// 20 Requests and Close, all taken, also over a FaultLane's link as it is opened; and three Requests, of which one is
// taken. What is left in a link is dropped with its LinkEnd, and counts as put alone.
#[test]
fn two_threads_close_a_link_or_leave_letters(rt: HostRuntime) {
    let all = Sending {
        kind: LetterKind::Request,
        letters: 20,
        closes: true,
        taken: 21,
    };
    goes_over_both(rt, rt.alloc(), all, (21, 21, true));
    goes_over::<FaultLane, HostRuntime>(rt, rt.alloc(), all, (21, 21, true));
    let one = Sending {
        kind: LetterKind::Request,
        letters: 3,
        closes: false,
        taken: 1,
    };
    goes_over_both(rt, rt.alloc(), one, (3, 1, false));
}

#[test]
fn faults_of_links_have_their_texts(rt: HostRuntime) {
    let (memory, lost) = (LinkFault::Memory, Lost);
    let words = format!(in rt.alloc(); "{memory}; {lost}").expect(&rt, "memory");
    let wanted = "1 Memory; the other end of the link is gone";
    same(&rt, &words.as_str(), &wanted);
}
