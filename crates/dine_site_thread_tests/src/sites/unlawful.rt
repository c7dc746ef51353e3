// A site that is put a letter out of turn, or whose link refuses a step though the other end is there.
ghost use Rattle.std.specs.Prelude.{◌≡◌};
ghost use Rattle.dine_link.specs.Channels as channels;
ghost use Rattle.dine_link.specs.FaultLanes as faults;
ghost use Rattle.dine_link.specs.Links.{IsUnused};

use super::*;
use dine_link::{FaultLane, fault_rx, fault_tx};

// Over links of a lane a site of the pair meets these letters and leaves this, and its neighbour finds these and Close.
fn breaks_over<L: Lane, R: Wait + Abort>(
    rt: &R,
    alloc: Global,
    letters: Letters,
    left: &Left,
    found: (LetterKind, Option<LetterKind>),
) {
    let (rx, _bell) = meets::<L, R>(rt, alloc, letters, left);
    finds::<L, R>(rt, rx, found.0, found.1)
}

// The same over channels and over rings, for a site that reports this breach by a letter of this kind.
fn breaks<R: Wait + Abort>(
    rt: &R,
    alloc: Global,
    letters: (Option<Put>, Option<Put>),
    reported: (Breach, LetterKind),
    left: Left,
    found: (LetterKind, Option<LetterKind>),
) {
    let left = Left {
        stray: Some((0, reported.1)),
        fault: Some(SiteFault::Breach(0, reported.0)),
        ..left
    };
    let letters = Letters {
        first: letters.0,
        second: letters.1,
        closes: letters.0.is_none(),
    };
    breaks_over::<ChannelLane, R>(rt, alloc, letters, &left, found);
    breaks_over::<RingLane, R>(rt, alloc, letters, &left, found)
}

const REQUEST: Option<Put> = Some(Put::Request(0));

const DONE_AND_FORK: (LetterKind, Option<LetterKind>) = (LetterKind::Done, Some(LetterKind::Fork));

const DONE: (LetterKind, Option<LetterKind>) = (LetterKind::Done, None);

#[test]
fn second_request_is_out_of_turn(rt: HostRuntime) {
    let reported = (Breach::RequestOutOfTurn, LetterKind::Request);
    breaks(
        &rt,
        rt.alloc(),
        (REQUEST, REQUEST),
        reported,
        LOWER_GAVE,
        DONE_AND_FORK,
    )
}

#[test]
fn second_fork_is_out_of_turn(rt: HostRuntime) {
    let reported = (Breach::ForkOutOfTurn, LetterKind::Fork);
    breaks(
        &rt,
        rt.alloc(),
        (Some(Put::Fork(0)), None),
        reported,
        LOWER_ATE,
        DONE,
    )
}

#[test]
fn fork_of_another_edge_is_strange(rt: HostRuntime) {
    let reported = (Breach::StrangeFork, LetterKind::Fork);
    let found = (LetterKind::Request, None);
    breaks(
        &rt,
        rt.alloc(),
        (Some(Put::Fork(7)), None),
        reported,
        HIGHER_ASKED,
        found,
    )
}

#[test]
fn done_before_its_meals_is_out_of_turn(rt: HostRuntime) {
    let reported = (Breach::DoneOutOfTurn, LetterKind::Done);
    breaks(
        &rt,
        rt.alloc(),
        (Some(Put::Done), None),
        reported,
        LOWER_ATE,
        DONE,
    )
}

#[test]
fn close_at_once_is_early(rt: HostRuntime) {
    let reported = (Breach::ClosedEarly, LetterKind::Close);
    breaks(&rt, rt.alloc(), (None, None), reported, LOWER_ATE, DONE)
}

// The same ends of a channel, which refuse as many puts and takes as these say.
fn faulty(ends: Ends<ChannelLane>, puts: Option<u32>, takes: Option<u32>) -> Ends<FaultLane>
    requires nothing_put { IsUnused (channels.seen_tx ends.tx) }
    requires nothing_taken { IsUnused (channels.seen_rx ends.rx) }
    ensures put { IsUnused (faults.seen_tx result.tx) }
    ensures taken { IsUnused (faults.seen_rx result.rx) }
    ensures ringer { result.ringer ≡ ends.ringer }
    ensures bell { result.bell ≡ ends.bell }
{
    let Ends {
        tx,
        rx,
        ringer,
        bell,
    } = ends;
    Ends::<FaultLane> {
        tx: fault_tx(tx, puts),
        rx: fault_rx(rx, takes),
        ringer,
        bell,
    }
}

#[test]
fn take_that_its_end_refuses_is_a_fault(rt: HostRuntime) {
    let alloc = rt.alloc();
    let (near, far) = ends_of::<ChannelLane>(&rt, alloc, 0);
    let letters = Letters {
        first: REQUEST,
        second: None,
        closes: false,
    };
    let Ends {
        tx,
        rx,
        ringer,
        bell: _bell,
    } = far;
    let _tx = fill::<ChannelLane, HostRuntime>(&rt, alloc, tx, letters);
    let _ringer = ring_for(&rt, ringer, letters);
    let left = Left {
        fault: Some(SiteFault::Lost(0)),
        ..LOWER_ATE
    };
    runs::<FaultLane, HostRuntime>(&rt, alloc, PAIR, faulty(near, None, Some(0)), &left);
    finds::<FaultLane, HostRuntime>(&rt, fault_rx(rx, None), LetterKind::Done, None)
}

#[test]
fn put_that_its_end_refuses_is_a_fault(rt: HostRuntime) {
    let alloc = rt.alloc();
    let (near, mut far) = ends_of::<ChannelLane>(&rt, alloc, 0);
    let left = Left {
        ports: (1, 0),
        stray: Some((0, LetterKind::Done)),
        fault: Some(SiteFault::Lost(0)),
        ..LOWER_ATE
    };
    runs::<FaultLane, HostRuntime>(&rt, alloc, PAIR, faulty(near, Some(0), None), &left);
    // Nothing was put: with the site's end gone, the link has no letter to take.
    assert!(rt; ChannelLane::take(&rt, &mut far.rx).is_err());
}
