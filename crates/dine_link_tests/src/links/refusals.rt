// Steps after the other end is gone, and what a link reports of refusals.
use super::steps::{
    Report, kind_and_edge, opened, puts, refuses_close, refuses_put, refuses_take, reports, takes,
};
use crate::asserts::same;
use dine_link::{ChannelLane, FaultLane, Lane, RingLane, TxEnd, fault_rx, fault_tx};
use dine_rules::{Letter, LetterKind};
use dine_token::Token;
use std::alloc::Global;
use std::process::Abort;
use std::sync::Wait;

// A refused put returns its letter, and a refused close its end, which is unchanged: it refuses again.
fn nobody_takes<L: Lane, R: Wait + Abort>(rt: &R, alloc: Global) {
    let (mut tx, rx) = opened::<L>(rt, alloc, 0, 0);
    drop(rx);
    let letter = refuses_put::<L, R>(rt, &mut tx, Letter::Request(Token::open(9)));
    same(rt, &kind_and_edge(&letter), &(LetterKind::Request, Some(9)));
    let mut tx = refuses_close::<L, R>(rt, tx);
    let letter = refuses_put::<L, R>(rt, &mut tx, letter);
    same(rt, &kind_and_edge(&letter), &(LetterKind::Request, Some(9)));
    let _tx = refuses_close::<L, R>(rt, tx);
}

// What was put before its end was gone is still taken. Then a take is refused, and leaves the end as it was.
fn nobody_puts<L: Lane, R: Wait + Abort>(rt: &R, alloc: Global) {
    let (mut tx, mut rx) = opened::<L>(rt, alloc, 0, 0);
    puts::<L, R>(rt, &mut tx, Letter::Done);
    drop(tx);
    takes::<L, R>(rt, &mut rx, (LetterKind::Done, None));
    refuses_take::<L, R>(rt, &mut rx);
    refuses_take::<L, R>(rt, &mut rx);
    assert!(rt; !L::is_closed(&rx));
}

#[test]
fn channel_refuses_steps_where_the_other_end_is_gone(rt: HostRuntime) {
    nobody_takes::<ChannelLane, HostRuntime>(&rt, rt.alloc());
    nobody_puts::<ChannelLane, HostRuntime>(&rt, rt.alloc());
}

// Ends that refuse after one step return what they were given. Then they refuse each step, though the other end lives.
#[test]
fn fault_lane_refuses_after_its_steps(rt: HostRuntime) {
    let (tx, rx) = opened::<ChannelLane>(&rt, rt.alloc(), 4, 2);
    let (mut tx, mut rx) = (fault_tx(tx, Some(1)), fault_rx(rx, Some(1)));
    puts::<FaultLane, HostRuntime>(&rt, &mut tx, Letter::Done);
    let letter = refuses_put::<FaultLane, HostRuntime>(
        &rt,
        &mut tx,
        Letter::Request(Token::open(4)),
    );
    same(&rt, &letter.kind(), &LetterKind::Request);
    let tx = refuses_close::<FaultLane, HostRuntime>(&rt, tx);
    let tx = refuses_close::<FaultLane, HostRuntime>(&rt, tx);
    takes::<FaultLane, HostRuntime>(&rt, &mut rx, (LetterKind::Done, None));
    refuses_take::<FaultLane, HostRuntime>(&rt, &mut rx);
    let wanted = Report {
        name: (4, 2),
        count: (1, 1, false),
        refused: (true, true),
    };
    reports(&rt, &FaultLane::reconcile(TxEnd::Live(tx), rx), wanted);
}

// Returns the report of a link with these refusals. One letter was put, and none taken.
fn report_of(refused: (bool, bool)) -> Report {
    Report {
        name: (3, 1),
        count: (1, 0, false),
        refused,
    }
}

// A link of which no step was refused notes no refusal.
fn notes_no_refusal<L: Lane, R: Wait + Abort>(rt: &R, alloc: Global) {
    let (mut tx, rx) = opened::<L>(rt, alloc, 3, 1);
    puts::<L, R>(rt, &mut tx, Letter::Done);
    reports(
        rt,
        &L::reconcile(TxEnd::Live(tx), rx),
        report_of((false, false)),
    );
}

#[test]
fn link_without_a_refusal_notes_none(rt: HostRuntime) {
    notes_no_refusal::<ChannelLane, HostRuntime>(&rt, rt.alloc());
    notes_no_refusal::<RingLane, HostRuntime>(&rt, rt.alloc());
    notes_no_refusal::<FaultLane, HostRuntime>(&rt, rt.alloc());
}

// The second step of the putting end is refused.
#[test]
fn link_notes_a_refused_put(rt: HostRuntime) {
    let (tx, rx) = opened::<ChannelLane>(&rt, rt.alloc(), 3, 1);
    let (mut tx, rx) = (fault_tx(tx, Some(1)), fault_rx(rx, None));
    puts::<FaultLane, HostRuntime>(&rt, &mut tx, Letter::Done);
    let tx = refuses_close::<FaultLane, HostRuntime>(&rt, tx);
    let end = FaultLane::reconcile(TxEnd::Live(tx), rx);
    reports(&rt, &end, report_of((true, false)));
}

// The first step of the taking end is refused.
#[test]
fn link_notes_a_refused_take(rt: HostRuntime) {
    let (tx, rx) = opened::<ChannelLane>(&rt, rt.alloc(), 3, 1);
    let (mut tx, mut rx) = (fault_tx(tx, None), fault_rx(rx, Some(0)));
    puts::<FaultLane, HostRuntime>(&rt, &mut tx, Letter::Done);
    refuses_take::<FaultLane, HostRuntime>(&rt, &mut rx);
    let end = FaultLane::reconcile(TxEnd::Live(tx), rx);
    reports(&rt, &end, report_of((false, true)));
}
