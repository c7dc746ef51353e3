// A site with three edges, whose letters are all in its links before it starts.
ghost use Rattle.std.specs.Prelude.{◌≡◌, false, All, vec_len};
ghost use Rattle.dine_link.specs.Links.{IsUnused};
ghost use Rattle.dine_link.specs.Channels as channels;
ghost use Rattle.dine_site_thread.specs.Ports.{IsFreshPort, seen_port, seen_ports};

use super::*;
use dine_link::ChannelRx;

// Three sites without jobs, and a fourth that has one job and an edge with each of them.
const STAR: &str = "version = 1\n\
    [[site]]\nname = \"a\"\njobs = []\n[[site]]\nname = \"b\"\njobs = []\n[[site]]\nname = \"c\"\njobs = []\n\
    [[site]]\nname = \"d\"\njobs = [{ name = \"x\" }]\n\
    [[edge]]\nends = [\"a\", \"d\"]\n[[edge]]\nends = [\"b\", \"d\"]\n[[edge]]\nends = [\"c\", \"d\"]\n";

// What the fourth site has of an edge, with this link to it; and what its neighbour has of the link from it and of the
// bell that is rung.
fn port_of(
    rt: &impl Abort,
    alloc: Global,
    edge: u32,
    rx: ChannelRx,
) -> (Port<ChannelLane>, (ChannelRx, Bell))
    requires { IsUnused (channels.seen_rx rx) }
    ensures { IsFreshPort (seen_port ⟦<ChannelLane as Lane>⟧ result.0) }
{
    let (ringer, bell) = one_ringer(rt, alloc);
    let (tx, far_rx) = link_from::<ChannelLane>(rt, alloc, edge, 3);
    let port = Port::<ChannelLane> {
        tx: TxEnd::Live(tx),
        rx,
        ringer,
    };
    (port, (far_rx, bell))
}

fn three(
    rt: &impl Abort,
    alloc: Global,
    a: Port<ChannelLane>,
    b: Port<ChannelLane>,
    c: Port<ChannelLane>,
) -> Vec<Port<ChannelLane>>
    requires a { IsFreshPort (seen_port ⟦<ChannelLane as Lane>⟧ a) }
    requires b { IsFreshPort (seen_port ⟦<ChannelLane as Lane>⟧ b) }
    requires c { IsFreshPort (seen_port ⟦<ChannelLane as Lane>⟧ c) }
    ensures count { vec_len result ≡ 3 }
    ensures unused { All IsFreshPort (seen_ports ⟦<ChannelLane as Lane>⟧ result.items) }
{
    let mut ports = Vec::with_capacity(alloc, 3).expect(rt, "memory");
    ports.push_reserved(a);
    ports.push_reserved(b);
    ports.push_reserved(c);
    ports
}

// The bell of the fourth site, rung in this order, and its ringers.
fn rung<R: Wait + Abort>(rt: &R, alloc: Global, order: &[u32]) -> (Vec<Ringer>, Bell)
    ensures bell { (result.1.degree ≡ 3) × (result.1.refused ≡ false) }
{
    let (mut ringers, bell) = bell_of(rt, alloc, 3);
    for i in order {
        let Some(ringer) = ringers.get_mut(*i as usize) else {
            panic!(rt; "no ringer");
        };
        same(rt, &ringer.ring(rt), &Ok(()));
    }
    (ringers, bell)
}

// Runs the fourth site over these links to it, with its bell rung in this order. It leaves this.
fn meets_three<R: Wait + Abort>(
    rt: &R,
    alloc: Global,
    ins: (ChannelRx, ChannelRx, ChannelRx),
    order: &[u32],
    left: &Left,
)
    requires a { IsUnused (channels.seen_rx ins.0) }
    requires b { IsUnused (channels.seen_rx ins.1) }
    requires c { IsUnused (channels.seen_rx ins.2) }
{
    let plan = read_plan(alloc, STAR).expect(rt, "a plan");
    let (_ringers, bell) = rung(rt, alloc, order);
    let (a, b, c) = ins;
    let (a, _at_a) = port_of(rt, alloc, 0, a);
    let (b, _at_b) = port_of(rt, alloc, 1, b);
    let (c, _at_c) = port_of(rt, alloc, 2, c);
    let ports = three(rt, alloc, a, b, c);
    runs_in::<ChannelLane, R>(rt, alloc, &plan, ports, bell, 0, left)
}

// A link of an edge to the fourth site, with these letters.
fn link_with<R: Wait + Abort>(rt: &R, alloc: Global, edge: u32, letters: Letters) -> ChannelRx
    ensures { IsUnused (channels.seen_rx result) }
{
    let (tx, rx) = link_from::<ChannelLane>(rt, alloc, edge, edge);
    let _tx = fill::<ChannelLane, R>(rt, alloc, tx, letters);
    rx
}

// A link with Done, the fork and Close.
fn whole<R: Wait + Abort>(rt: &R, alloc: Global, edge: u32) -> ChannelRx
    ensures { IsUnused (channels.seen_rx result) }
{
    let letters = Letters {
        first: Some(Put::Done),
        second: Some(Put::Sent(edge)),
        closes: true,
    };
    link_with(rt, alloc, edge, letters)
}

// The journal of the fourth site if there is no breach.
const ALL: [EventKind; 21] = [
    EventKind::Hungry,
    EventKind::Ask(0),
    EventKind::Ask(1),
    EventKind::Ask(2),
    EventKind::Take(2),
    EventKind::Take(2),
    EventKind::Take(0),
    EventKind::Take(1),
    EventKind::Take(0),
    EventKind::Take(1),
    EventKind::Begin,
    EventKind::End,
    EventKind::Done(0),
    EventKind::Done(1),
    EventKind::Done(2),
    EventKind::Close(0),
    EventKind::Close(1),
    EventKind::Close(2),
    EventKind::Take(2),
    EventKind::Take(0),
    EventKind::Take(1),
];

#[test]
fn letters_of_three_links_are_taken_as_the_bell_rang(rt: HostRuntime) {
    let alloc = rt.alloc();
    let ins = (
        whole(&rt, alloc, 0),
        whole(&rt, alloc, 1),
        whole(&rt, alloc, 2),
    );
    let left = Left {
        site: 3,
        meals: (1, 0),
        calls: &[Call { k: 1, ok: true }],
        forks: &[0, 1, 2],
        log: &[Entry::Move { to: 3 }, Entry::Meal { site: 3, k: 1 }],
        tokens: &[],
        ports: (0, 3),
        journal: ALL.as_slice(),
        stray: None,
        fault: None,
    };
    meets_three(&rt, alloc, ins, &[2, 2, 0, 1, 0, 1, 2, 0, 1], &left)
}

// The journal of the fourth site up to its first letter, and after one at its second place.
const ASKED: [EventKind; 4] = [
    EventKind::Hungry,
    EventKind::Ask(0),
    EventKind::Ask(1),
    EventKind::Ask(2),
];

const ASKED_AND_TOOK: [EventKind; 5] = [
    EventKind::Hungry,
    EventKind::Ask(0),
    EventKind::Ask(1),
    EventKind::Ask(2),
    EventKind::Take(1),
];

// The fourth site finds this breach in the last of these letters of its second place, which rang for each. It has these
// forks then, if any.
fn breaks<R: Wait + Abort>(
    rt: &R,
    alloc: Global,
    letters: Letters,
    order: &[u32],
    journal: &[EventKind],
    forks: &[u32],
    reported: (Breach, LetterKind),
) {
    let left = Left {
        site: 3,
        meals: (0, 0),
        calls: &[],
        forks,
        log: &[Entry::Move { to: 3 }],
        tokens: &[],
        ports: (0, 3),
        journal,
        stray: Some((1, reported.1)),
        fault: Some(SiteFault::Breach(1, reported.0)),
    };
    let b = link_with(rt, alloc, 1, letters);
    let (_tx_a, a) = link_from::<ChannelLane>(rt, alloc, 0, 0);
    let (_tx_c, c) = link_from::<ChannelLane>(rt, alloc, 2, 2);
    meets_three(rt, alloc, (a, b, c), order, &left)
}

// The same in the second of two letters.
fn second_breaks<R: Wait + Abort>(
    rt: &R,
    alloc: Global,
    puts: (Put, Put),
    forks: &[u32],
    reported: (Breach, LetterKind),
) {
    let letters = Letters {
        first: Some(puts.0),
        second: Some(puts.1),
        closes: false,
    };
    breaks(
        rt,
        alloc,
        letters,
        &[1, 1],
        ASKED_AND_TOOK.as_slice(),
        forks,
        reported,
    )
}

// Each breach, except that of a letter after Close: a place at which Close was taken is skipped.
#[test]
fn breaches_are_reported_with_their_place(rt: HostRuntime) {
    let alloc = rt.alloc();
    let early = (Put::Done, Put::Request(1));
    second_breaks(
        &rt,
        alloc,
        early,
        &[],
        (Breach::RequestOutOfTurn, LetterKind::Request),
    );
    let forks = (Put::Sent(1), Put::Sent(1));
    second_breaks(
        &rt,
        alloc,
        forks,
        &[1],
        (Breach::ForkOutOfTurn, LetterKind::Fork),
    );
    let strange = (Put::Done, Put::Sent(0));
    second_breaks(
        &rt,
        alloc,
        strange,
        &[],
        (Breach::StrangeFork, LetterKind::Fork),
    );
    let twice = (Put::Done, Put::Done);
    second_breaks(
        &rt,
        alloc,
        twice,
        &[],
        (Breach::DoneOutOfTurn, LetterKind::Done),
    );
    let close = Letters {
        first: None,
        second: None,
        closes: true,
    };
    let reported = (Breach::ClosedEarly, LetterKind::Close);
    breaks(&rt, alloc, close, &[1], ASKED.as_slice(), &[], reported)
}
