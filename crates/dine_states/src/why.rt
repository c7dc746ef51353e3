//! Why an event is not enabled.
ghost use Rattle.std.specs.Prelude.{◌≡◌, ◌<◌, not, is_some, false, true, MatchOption};
ghost use Rattle.std.specs.List.{find, list_any};
ghost use Rattle.dine_graph.specs.Plan.{site_count};
ghost use Rattle.dine_rules.specs.World.{WorldState, is_enabled};
ghost use Rattle.dine_world.specs.Worlds.{IsWorldOf};
ghost use Rattle.dine_states.specs.Ends.{IsEnd};
ghost use Rattle.dine_states.specs.Reasons.{is_event, reasons_of, why_not};
ghost use Rattle.dine_states.specs.private.ReasonsAtEnds.{IsEndFor, holds_at, is_of_place};

use crate::ends::End;
use crate::events::place_of;
use crate::readers::{
    has_no_job_left, has_no_letter, has_quit, holds_dirty_fork, holds_fork, holds_token, is_eating,
    is_hungry, is_waiting, must_quit, said_at,
};
use Reason::*;
use dine_graph::Plan;
use dine_world::{Event, EventKind, World};

/// Why an event is not enabled. Each kind of events has some of these reasons, in the order of docs/STATES.md.
#[derive(Clone, Copy, Debug, PartialEq, Eq)]
pub enum Reason {
    /// The plan has no such site, or the site no such place.
    NoEvent,
    /// No letter is in the link.
    NoLetter,
    /// The site has put Close.
    Closed,
    /// The site does not hold the fork.
    NoFork,
    /// The site holds the fork.
    HasFork,
    /// The site does not hold the token, so it was not asked.
    NotAsked,
    /// The site does not hold the token, so it has asked.
    Asked,
    /// The fork is clean.
    Clean,
    /// The site has put Done.
    Said,
    /// The site has not put Done.
    NotSaid,
    /// The site has not taken Done.
    NotHeard,
    /// The site has jobs left.
    JobsLeft,
    /// The site has no job left.
    NoJobs,
    /// The site is hungry.
    Hungry,
    /// The site is not hungry.
    NotHungry,
    /// The site eats.
    Eating,
    /// The site does not eat.
    NotEating,
    /// The site is hungry, and some fork is not there or has to be given first.
    Waits,
    /// The plan says that the site does not resign.
    NeverResigns,
    /// The site has quit.
    HasQuit,
    /// The site has to quit: its last meal failed.
    MustQuit,
    /// The site does not have to quit: no meal of it failed with jobs left.
    NoFault,
}

impl Reason {
    /// Returns the name that docs/STATES.md has.
    pub fn name(self) -> &'static str {
        match self {
            NoEvent => "no_event",
            NoLetter => "no_letter",
            Closed => "closed",
            NoFork => "no_fork",
            HasFork => "has_fork",
            NotAsked => "not_asked",
            Asked => "asked",
            Clean => "clean",
            Said => "said",
            NotSaid => "not_said",
            NotHeard => "not_heard",
            JobsLeft => "jobs_left",
            NoJobs => "no_jobs",
            Hungry => "hungry",
            NotHungry => "not_hungry",
            Eating => "eating",
            NotEating => "not_eating",
            Waits => "waits",
            NeverResigns => "never_resigns",
            HasQuit => "has_quit",
            MustQuit => "must_quit",
            NoFault => "no_fault",
        }
    }
}

/// Returns why the event is not enabled in the world of the plan, by the first of its reasons that holds; or `None` if
/// it is enabled.
pub fn why_not(plan: &Plan, world: &World, event: Event) -> Option<Reason>
    ensures first { (state : WorldState) → IsWorldOf plan.now state world.now
        → result ≡ why_not plan.now state event }
    ensures enabled { (state : WorldState) → IsWorldOf plan.now state world.now
        → is_some result ≡ not (is_enabled plan.now state event) }
{
    match end_of(plan, event) {
        Some(end) => first_that_holds(plan, world, end, reasons_of(event.kind)),
        None => Some(NoEvent),
    }
}

/// Returns the name of the reason why the site may not do that, or `None` if it may.
pub(crate) fn name_of_why_not(
    plan: &Plan,
    world: &World,
    site: u32,
    kind: EventKind,
) -> Option<&'static str> {
    match why_not(plan, world, Event { site, kind }) {
        Some(reason) => Some(reason.name()),
        None => None,
    }
}

// The end that the event is at. None if the plan has no such event. An event without a place is at no end. Then only
// the site of the result counts, since no reason of the event is about a place.
fn end_of(plan: &Plan, event: Event) -> Option<End>
    ensures { MatchOption result (is_event plan.now event ≡ false) (IsEndFor plan.now event) }
{
    if event.site >= plan.sites() {
        return None;
    }
    match place_of(event.kind) {
        Some(place) => End::at(plan, event.site, place),
        None => Some(End {
            edge: 0,
            site: event.site,
            place: 0,
            neighbour: 0,
        }),
    }
}

// The reasons of each kind of events, in the order in which they are looked for.
fn reasons_of(kind: EventKind) -> &'static [Reason]
    ensures { result.now ≡ reasons_of kind }
{
    match kind {
        // words reasons of kinds, by tools/words
        EventKind::Take(_) => &[NoEvent, NoLetter],
        EventKind::Give(_) => &[NoEvent, Closed, NoFork, NotAsked, Eating, Clean],
        EventKind::End => &[NoEvent, NotEating],
        EventKind::Begin => &[NoEvent, Waits, Eating, NotHungry],
        EventKind::Quit => &[NoEvent, NeverResigns, HasQuit, Eating, NoFault],
        EventKind::Hungry => &[NoEvent, Hungry, Eating, HasQuit, MustQuit, NoJobs],
        EventKind::Ask(_) => &[NoEvent, Closed, HasFork, Asked, NotHungry],
        EventKind::Done(_) => &[NoEvent, Said, JobsLeft, Eating],
        EventKind::Close(_) => &[NoEvent, Closed, NotSaid, NotHeard],
        // end
    }
}

// The first of the reasons that holds at the end.
fn first_that_holds(plan: &Plan, world: &World, end: End, reasons: &[Reason]) -> Option<Reason>
    requires site { end.site < site_count plan.now }
    requires place { list_any is_of_place reasons.now ≡ true → IsEnd plan.now end }
    ensures { (state : WorldState) → IsWorldOf plan.now state world.now
        → result ≡ find (holds_at plan.now state end.site end.place) reasons.now }
{
    for reason in reasons {
        if holds(plan, world, end, *reason) {
            return Some(*reason);
        }
    }
    None
}

// Whether the reason holds at the end of an event, which is there. A fork that the site does not hold counts as clean.
fn holds(plan: &Plan, world: &World, end: End, reason: Reason) -> bool
    requires site { end.site < site_count plan.now }
    requires place { is_of_place reason ≡ true → IsEnd plan.now end }
    ensures { (state : WorldState) → IsWorldOf plan.now state world.now
        → result ≡ holds_at plan.now state end.site end.place reason }
{
    match reason {
        NoEvent => false,
        NoLetter => has_no_letter(plan, world, end),
        Closed => said_at(plan, world, end).close_put,
        NoFork => !holds_fork(plan, world, end),
        HasFork => holds_fork(plan, world, end),
        NotAsked | Asked => !holds_token(plan, world, end),
        Clean => !holds_dirty_fork(plan, world, end),
        Said => said_at(plan, world, end).done_put,
        NotSaid => !said_at(plan, world, end).done_put,
        NotHeard => !said_at(plan, world, end).done_taken,
        JobsLeft => !has_no_job_left(plan, world, end.site),
        NoJobs => has_no_job_left(plan, world, end.site),
        Hungry => is_hungry(world, end.site),
        NotHungry => !is_hungry(world, end.site),
        Eating => is_eating(world, end.site),
        NotEating => !is_eating(world, end.site),
        Waits => is_waiting(plan, world, end.site),
        NeverResigns => !plan.resigns(end.site),
        HasQuit => has_quit(plan, world, end.site),
        MustQuit => must_quit(plan, world, end.site),
        NoFault => !must_quit(plan, world, end.site),
    }
}
