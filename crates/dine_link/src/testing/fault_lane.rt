//! Links whose ends refuse after a number of steps, so that a test can see what their user does then.
ghost use Rattle.std.specs.Prelude.{◌≡◌, true, false, [], None, IfOk};
ghost use Rattle.dine_rules.specs.Letters.{has_close};
ghost use Rattle.dine_rules.specs.Streams.{is_close_last};
ghost use Rattle.dine_link.specs.private.Refusals.{lets_through, steps_left_after_one};
ghost use mathlib.Core.List.{IsPrefix};

use crate::channel::{ChannelClosedTx, ChannelLane, ChannelRx, ChannelTx};
use crate::faults::{LinkFault, Lost};
use crate::lane::{Lane, TxEnd};
use crate::link_end::LinkEnd;
use dine_rules::{Letter, Stamp};
use std::alloc::Global;
use std::sync::Wait;

/// The end of a [`FaultLane`]'s link that letters are put in: the end of a channel, and the number of puts and closes
/// that it still lets through.
#[derive(Drop)]
pub struct FaultTx {
    tx: ChannelTx,
    left: Option<u32>,
}

/// The end of a [`FaultLane`]'s link that letters are taken from: the end of a channel, and the number of takes that it
/// still lets through.
#[derive(Drop)]
pub struct FaultRx {
    rx: ChannelRx,
    left: Option<u32>,
}

// Counts a step if there is a limit, and returns whether it is let through.
fn spend(left: &mut Option<u32>) -> bool
    ensures counted { left.new ≡ steps_left_after_one left.old }
    ensures reported { result ≡ lets_through left.old }
{
    match *left {
        None => true,
        Some(0) => false,
        Some(steps) => {
            *left = Some(steps - 1);
            true
        }
    }
}

/// Returns the end as one that lets `left` puts and closes through and then refuses each. With `None` it refuses none
/// by itself. A step that the channel refuses counts too. It is for tests.
pub fn fault_tx(tx: ChannelTx, left: Option<u32>) -> FaultTx
    ensures end { result.tx ≡ tx }
    ensures left { result.left ≡ left }
{
    FaultTx { tx, left }
}

/// Returns the end as one that lets `left` takes through and then refuses each. With `None` it refuses none by itself.
/// A step that the channel refuses counts too. It is for tests.
pub fn fault_rx(rx: ChannelRx, left: Option<u32>) -> FaultRx
    ensures end { result.rx ≡ rx }
    ensures left { result.left ≡ left }
{
    FaultRx { rx, left }
}

/// Links over channels whose ends may refuse a step though the other end is there, for tests of what is done after a
/// refusal. The ends that [`Lane::pair`] returns refuse no step by themselves. [`fault_tx`] and [`fault_rx`] turn an
/// end of a channel into one that does. An end notes its refusals as a channel's end does.
pub struct FaultLane;

impl Lane for FaultLane {
    type Tx = FaultTx;

    type ClosedTx = ChannelClosedTx;

    type Rx = FaultRx;

    ghost use Rattle.dine_link.specs.Channels as channels;
    ghost use Rattle.dine_link.specs.FaultLanes as faults;
    ghost use Rattle.dine_link.specs.Lanes.{seen_end};
    ghost use Rattle.dine_link.specs.Links.{link_of};

    ghost Identity = { channels.Channel };

    ghost seen_tx = { faults.seen_tx };

    ghost seen_closed = { channels.seen_closed };

    ghost seen_rx = { faults.seen_rx };

    fn pair(alloc: Global, edge: u32, from: u32) -> Result<(FaultTx, FaultRx), LinkFault>
        ensures pair { IfOk result (λ ends. (faults.seen_rx ends.1).link ≡ (faults.seen_tx ends.0).link) }
        ensures name { IfOk result (λ ends.
            ((faults.seen_tx ends.0).link.edge ≡ edge) × ((faults.seen_tx ends.0).link.from ≡ from)) }
        ensures empty { IfOk result (λ ends.
            ((faults.seen_tx ends.0).letters ≡ []) × ((faults.seen_rx ends.1).letters ≡ [])) }
        ensures untimed { IfOk result (λ ends.
            ((faults.seen_tx ends.0).moments ≡ []) × ((faults.seen_rx ends.1).moments ≡ [])) }
        ensures unrefused { IfOk result (λ ends.
            ((faults.seen_tx ends.0).refused ≡ false) × ((faults.seen_rx ends.1).refused ≡ false)) }
        ensures unlimited { IfOk result (λ ends. (ends.0.left ≡ None) × (ends.1.left ≡ None)) }
    {
        match ChannelLane::pair(alloc, edge, from) {
            Ok((tx, rx)) => Ok((fault_tx(tx, None), fault_rx(rx, None))),
            Err(fault) => Err(fault),
        }
    }

    fn put<R: Wait>(rt: &R, tx: &mut FaultTx, letter: Letter) -> Result<(), (Letter, Lost)> {
        FaultLane::put_at(rt, tx, letter, Stamp::first())
    }

    fn close<R: Wait>(rt: &R, tx: FaultTx) -> Result<ChannelClosedTx, (FaultTx, Lost)> {
        FaultLane::close_at(rt, tx, Stamp::first())
    }

    fn take<R: Wait>(rt: &R, rx: &mut FaultRx) -> Result<Letter, Lost> {
        match FaultLane::take_at(rt, rx) {
            Ok((letter, _)) => Ok(letter),
            Err(lost) => Err(lost),
        }
    }

    fn put_at<R: Wait>(
        rt: &R,
        tx: &mut FaultTx,
        letter: Letter,
        stamp: Stamp,
    ) -> Result<(), (Letter, Lost)> {
        if !spend(&mut tx.left) {
            tx.tx.refuse();
            return Err((letter, Lost));
        }
        ChannelLane::put_at(rt, &mut tx.tx, letter, stamp)
    }

    fn close_at<R: Wait>(
        rt: &R,
        tx: FaultTx,
        stamp: Stamp,
    ) -> Result<ChannelClosedTx, (FaultTx, Lost)> {
        let FaultTx { mut tx, mut left } = tx;
        if !spend(&mut left) {
            tx.refuse();
            return Err((FaultTx { tx, left }, Lost));
        }
        match ChannelLane::close_at(rt, tx, stamp) {
            Ok(closed) => Ok(closed),
            Err((tx, lost)) => Err((FaultTx { tx, left }, lost)),
        }
    }

    fn take_at<R: Wait>(rt: &R, rx: &mut FaultRx) -> Result<(Letter, Stamp), Lost> {
        if !spend(&mut rx.left) {
            rx.rx.refuse();
            return Err(Lost);
        }
        ChannelLane::take_at(rt, &mut rx.rx)
    }

    fn is_closed(rx: &FaultRx) -> bool {
        ChannelLane::is_closed(&rx.rx)
    }

    fn reconcile(tx: TxEnd<FaultLane>, rx: FaultRx) -> LinkEnd
        requires pair { (faults.seen_rx rx).link ≡ (seen_end faults.seen_tx channels.seen_closed tx).link }
        ensures lists { result ≡ link_of (seen_end faults.seen_tx channels.seen_closed tx) (faults.seen_rx rx) }
        ensures prefix { IsPrefix result.taken result.put }
        ensures moments { IsPrefix result.taken_at result.put_at }
        ensures whole { has_close (faults.seen_rx rx).letters ≡ true → result.taken ≡ result.put }
        ensures close_last { is_close_last result.put ≡ true }
    {
        match tx {
            TxEnd::Live(FaultTx { tx, left: _ }) => {
                ChannelLane::reconcile(TxEnd::Live(tx), rx.rx)
            }
            TxEnd::Shut(closed) => ChannelLane::reconcile(TxEnd::Shut(closed), rx.rx),
        }
    }
}
