// The order of the journals of two sites.
use crate::asserts::same;
use dine_order::{OrderFault, order};
use dine_plan::{Plan, read_plan};
use dine_test_plans::{HIGHER_JOURNAL, LOWER_JOURNAL, PAIR};
use dine_world::{Event, EventKind, World};
use std::alloc::Global;
use std::process::Abort;

// The pair, except that the lower site has two jobs more and resigns. By the plan no job fails.
const RESIGNING: &str = "version = 2\n\
    [[site]]\nname = \"a\"\non_fault = \"resign\"\njobs = [{ name = \"x\" }, { name = \"y\" }, { name = \"z\" }]\n\
    [[site]]\nname = \"b\"\njobs = [{ name = \"y\" }]\n\
    [[edge]]\nends = [\"a\", \"b\"]\n";

// The journal of the lower site if it ate twice, quit and put Done.
const QUITTING: [EventKind; 13] = [
    EventKind::Hungry,
    EventKind::Begin,
    EventKind::End,
    EventKind::Hungry,
    EventKind::Begin,
    EventKind::End,
    EventKind::Quit,
    EventKind::Done(0),
    EventKind::Take(0),
    EventKind::Give(0),
    EventKind::Take(0),
    EventKind::Close(0),
    EventKind::Take(0),
];

fn pair(rt: &impl Abort, alloc: Global) -> Plan {
    read_plan(alloc, PAIR).expect(rt, "a plan")
}

// Returns the order of the journals of two sites with these events.
fn order_of(
    rt: &impl Abort,
    alloc: Global,
    plan: &Plan,
    lower: &[EventKind],
    higher: &[EventKind],
) -> Result<Vec<Event>, OrderFault> {
    let mut journals = Vec::new(alloc);
    for events in [lower, higher] {
        let journal = events.to_vec(alloc).expect(rt, "memory");
        journals.push(journal).expect(rt, "memory");
    }
    order(alloc, plan, journals.as_slice())
}

// Checks the events, each by its site and its kind.
fn are(rt: &impl Abort, events: &[Event], wanted: &[(u32, EventKind)]) {
    same(rt, &events.len(), &wanted.len());
    for (event, one) in events.iter().zip(wanted) {
        same(rt, &(event.site, event.kind), one);
    }
}

// The order of both journals of the pair.
const LOWEST_FIRST: [(u32, EventKind); 18] = [
    (0, EventKind::Hungry),
    (0, EventKind::Begin),
    (0, EventKind::End),
    (0, EventKind::Done(0)),
    (1, EventKind::Hungry),
    (1, EventKind::Ask(0)),
    (0, EventKind::Take(0)),
    (0, EventKind::Give(0)),
    (1, EventKind::Take(0)),
    (1, EventKind::Take(0)),
    (1, EventKind::Begin),
    (1, EventKind::End),
    (1, EventKind::Done(0)),
    (0, EventKind::Take(0)),
    (0, EventKind::Close(0)),
    (1, EventKind::Close(0)),
    (0, EventKind::Take(0)),
    (1, EventKind::Take(0)),
];

// Checks that a world of the plan goes through all events to its end.
fn goes_through(rt: &impl Abort, alloc: Global, plan: &Plan, events: &[Event]) {
    let mut world = World::open(alloc, plan).expect(rt, "memory");
    for event in events {
        same(rt, &world.step(*event), &Ok(()));
    }
    same(rt, &world.count(), &0);
    same(rt, &world.into_forks().len(), &1);
}

#[test]
fn each_event_is_that_of_the_lowest_site_that_was_ready(rt: HostRuntime) {
    let alloc = rt.alloc();
    let plan = pair(&rt, alloc);
    let events = order_of(
        &rt,
        alloc,
        &plan,
        LOWER_JOURNAL.as_slice(),
        HIGHER_JOURNAL.as_slice(),
    );
    let events = events.expect(&rt, "an order");
    are(&rt, events.as_slice(), LOWEST_FIRST.as_slice());
    goes_through(&rt, alloc, &plan, events.as_slice());
}

#[test]
fn events_that_wait_for_ever_are_stuck(rt: HostRuntime) {
    let alloc = rt.alloc();
    let plan = pair(&rt, alloc);
    let higher = [EventKind::Take(0), EventKind::Take(0)];
    let lower = LOWER_JOURNAL.as_slice();
    let stuck = order_of(&rt, alloc, &plan, &lower[..4], higher.as_slice());
    same(
        &rt,
        &stuck.err(),
        &Some(OrderFault::Stuck { site: 1, placed: 1 }),
    );
}

#[test]
fn faults_of_orders_have_their_texts(rt: HostRuntime) {
    let faults = [
        (OrderFault::CountDiffers, "1 CountDiffers"),
        (
            OrderFault::Stuck { site: 3, placed: 7 },
            "2 Stuck at site 3, 7 placed",
        ),
        (OrderFault::NotClosed, "3 NotClosed"),
        (OrderFault::Memory, "4 Memory"),
    ];
    for (fault, text) in faults {
        let line = format!(in rt.alloc(); "{fault}").expect(&rt, "memory");
        same(&rt, &line.as_str(), &text);
    }
}

#[test]
fn journals_of_nothing_are_not_closed(rt: HostRuntime) {
    let alloc = rt.alloc();
    let plan = pair(&rt, alloc);
    let none: [EventKind; 0] = [];
    let open = order_of(&rt, alloc, &plan, none.as_slice(), none.as_slice());
    same(&rt, &open.err(), &Some(OrderFault::NotClosed));
}

#[test]
fn one_journal_for_two_sites_is_refused(rt: HostRuntime) {
    let alloc = rt.alloc();
    let plan = pair(&rt, alloc);
    let journal = LOWER_JOURNAL.as_slice().to_vec(alloc).expect(&rt, "memory");
    let mut journals = Vec::new(alloc);
    journals.push(journal).expect(&rt, "memory");
    let one = order(alloc, &plan, journals.as_slice());
    same(&rt, &one.err(), &Some(OrderFault::CountDiffers));
}

// By the plan no job fails, so the failed meal is the one that the journal has a Quit after.
#[test]
fn journals_show_which_meal_failed(rt: HostRuntime) {
    let alloc = rt.alloc();
    let plan = read_plan(alloc, RESIGNING).expect(&rt, "a plan");
    let (lower, higher) = (QUITTING.as_slice(), HIGHER_JOURNAL.as_slice());
    let events = order_of(&rt, alloc, &plan, lower, higher).expect(&rt, "an order");
    same(&rt, &events.len(), &22);
    let quits = events.iter().filter(|event| event.kind == EventKind::Quit);
    same(&rt, &quits.count(), &1);
}

// Checks how many events are placed if the lower site has this number of meals and of Quits, and the other has no
// event.
fn stuck_after(rt: &impl Abort, alloc: Global, plan: &Plan, meals: u32, quits: u32, placed: u64) {
    let mut lower = Vec::new(alloc);
    for _ in 0..meals {
        for kind in [EventKind::Hungry, EventKind::Begin, EventKind::End] {
            lower.push(kind).expect(rt, "memory");
        }
    }
    for _ in 0..quits {
        lower.push(EventKind::Quit).expect(rt, "memory");
    }
    let none: [EventKind; 0] = [];
    let stuck = order_of(rt, alloc, plan, lower.as_slice(), none.as_slice());
    same(
        rt,
        &stuck.err(),
        &Some(OrderFault::Stuck { site: 0, placed }),
    );
}

#[test]
fn quit_out_of_turn_is_stuck(rt: HostRuntime) {
    let alloc = rt.alloc();
    let resigning = read_plan(alloc, RESIGNING).expect(&rt, "a plan");
    stuck_after(&rt, alloc, &resigning, 0, 1, 0);
    stuck_after(&rt, alloc, &resigning, 1, 2, 4);
    stuck_after(&rt, alloc, &resigning, 3, 1, 9);
    stuck_after(&rt, alloc, &resigning, 4, 1, 9);
    let pair = pair(&rt, alloc);
    stuck_after(&rt, alloc, &pair, 1, 1, 3);
}
