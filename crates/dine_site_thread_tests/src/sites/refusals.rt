// A site whose links or whose neighbour's bell refuse a step.
ghost use Rattle.std.specs.Prelude.{◌≡◌, false};
ghost use Rattle.dine_link.specs.Channels as channels;
ghost use Rattle.dine_link.specs.Links.{IsUnused};

use super::*;
use dine_link::{ChannelRx, ChannelTx};
use dine_rules::Letter;
use std::thread;

// Two sites, the lower one with one job, and an edge between them.
const ONE_SIDED: &str = "version = 1\n\
    [[site]]\nname = \"a\"\njobs = [{ name = \"x\" }]\n[[site]]\nname = \"b\"\njobs = []\n\
    [[edge]]\nends = [\"a\", \"b\"]\n";

// The journal of the lower site with one job up to its Close, which is refused.
const DONE_AND_CLOSE: [EventKind; 6] = [
    EventKind::Hungry,
    EventKind::Begin,
    EventKind::End,
    EventKind::Done(0),
    EventKind::Take(0),
    EventKind::Close(0),
];

#[test]
fn refused_take_is_a_fault(rt: HostRuntime) {
    let (near, far) = ends_of::<ChannelLane>(&rt, rt.alloc(), 0);
    let Ends {
        tx,
        rx,
        mut ringer,
        bell: _bell,
    } = far;
    drop(tx);
    same(&rt, &ringer.ring(&rt), &Ok(()));
    let left = Left {
        fault: Some(SiteFault::Lost(0)),
        ..LOWER_ATE
    };
    runs::<ChannelLane, HostRuntime>(&rt, rt.alloc(), PAIR, near, &left);
    finds::<ChannelLane, HostRuntime>(&rt, rx, LetterKind::Done, None)
}

#[test]
fn refused_ring_is_a_fault(rt: HostRuntime) {
    let (near, far) = ends_of::<ChannelLane>(&rt, rt.alloc(), 0);
    let Ends {
        tx: _tx,
        rx,
        ringer: _ringer,
        bell,
    } = far;
    drop(bell);
    let left = Left {
        fault: Some(SiteFault::LostBell { degree: 1 }),
        ..LOWER_ATE
    };
    runs::<ChannelLane, HostRuntime>(&rt, rt.alloc(), PAIR, near, &left);
    finds::<ChannelLane, HostRuntime>(&rt, rx, LetterKind::Done, None)
}

// Takes the Done of the lower site, lets that link go, and says Done.
fn lets_go_and_says_done<R: Wait>(
    rt: &R,
    mut tx: ChannelTx,
    mut rx: ChannelRx,
    mut ringer: Ringer,
) -> Option<ChannelTx>
    requires nothing_put { IsUnused (channels.seen_tx tx) }
    requires nothing_taken { IsUnused (channels.seen_rx rx) }
{
    ChannelLane::take(rt, &mut rx).ok()?;
    drop(rx);
    ChannelLane::put(rt, &mut tx, Letter::Done).ok()?;
    ringer.ring(rt).ok()?;
    Some(tx)
}

#[test]
fn refused_close_is_a_fault(rt: HostRuntime) {
    let (near, far) = ends_of::<ChannelLane>(&rt, rt.alloc(), 0);
    let Ends {
        tx,
        rx,
        ringer,
        bell: _bell,
    } = far;
    let Ok(neighbour) = thread::spawn(
        &rt,
        move || -> Option<ChannelTx>
            requires nothing_put { IsUnused (channels.seen_tx tx) }
            requires nothing_taken { IsUnused (channels.seen_rx rx) }
        { lets_go_and_says_done(&rt, tx, rx, ringer) },
    ) else {
        panic!(rt; "no thread");
    };
    let left = Left {
        ports: (1, 0),
        journal: DONE_AND_CLOSE.as_slice(),
        fault: Some(SiteFault::Lost(0)),
        ..LOWER_ATE
    };
    runs::<ChannelLane, HostRuntime>(&rt, rt.alloc(), ONE_SIDED, near, &left);
    assert!(rt; neighbour.join(&rt).is_some());
}
