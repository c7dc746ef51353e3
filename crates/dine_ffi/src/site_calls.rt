//! The calls of one site, whose letters are bytes.
ghost use Rattle.std.specs.Prelude.{◌≡◌, ◌≢◌, ◌<◌, MatchOption, None, is_some, length, pos, if◌then◌else◌};
ghost use Rattle.dine_graph.specs.Plan.{site_count};
ghost use Rattle.dine_rules.specs.Local.{edge_at};
ghost use Rattle.dine_rules.specs.Steps as step;
ghost use Rattle.dine_site.specs.NextEvent.{next_of};
ghost use Rattle.dine_site.specs.Places.{hand_of, has_all_said, is_held, neighbour_of, place_at};
ghost use Rattle.dine_ffi.specs.Answers.{IsDoneOr, IsOkOr, IsWithin, Reports, done, memory, no_such};
ghost use Rattle.dine_ffi.specs.Answers.{number_of, open_already};
ghost use Rattle.dine_ffi.specs.Events.{seen_event};
ghost use Rattle.dine_ffi.specs.OwnSites.{ActsOrRefuses, BeginsOrRefuses, EndsOrRefuses, IsNoPlace, IsOpened};
ghost use Rattle.dine_ffi.specs.OwnSites.{PutsOrRefuses, StepsOrRefuses, TakesOrRefuses, TurnsOrRefuses, is_used};
ghost use Rattle.dine_ffi.specs.Contents.{HoldsPlan, HoldsSite, OfHeld, OfPlan, OfSite, OnPlan, SiteCall};
ghost use Rattle.dine_ffi.specs.Written.{ArePeriods};

use crate::acts::PutKind;
use crate::contents::{Contents, Object};
use crate::event::DineEvent;
use crate::handle::Handle;
use crate::on_held::on_held;
use crate::own_plan::OwnPlan;
use crate::own_site::{DinePlace, DineSiteState, OwnSite};
use crate::plan_calls::open;
use crate::status::{CLOSED, MEMORY, NO_SUCH, OPEN_ALREADY, OTHER_KIND};
use std::alloc::Global;

/// Opens the site of the plan that the handle `plan` holds, in the run 0. The handle `site`, which is closed, holds it
/// then.
#[unsafe(no_mangle)]
pub extern "C" fn dine_raw_site_open(
    alloc: Global,
    plan: &mut Handle,
    number: u32,
    site: &mut Handle,
) -> i64
    ensures plan { plan.new.slot.held ≡ plan.old.slot.held }
    ensures site { IsOkOr result
        (HoldsPlan (λ p. HoldsSite (IsOpened p 0 number) site.new.slot.held) plan.old.slot.held)
        (site.new.slot.held ≡ site.old.slot.held) }
    ensures open { site.old.slot.held ≢ None → result ≡ open_already }
    ensures refused { site.old.slot.held ≡ None → IsDoneOr result Unit (OfHeld plan.old.slot.held result
        (λ object. OfPlan object result (λ p. IsWithin number (site_count p) result (result ≡ memory)))) }
{
    dine_raw_site_open_in(alloc, plan, number, 0, site)
}

/// Opens the site of the plan that the handle `plan` holds, in the run with this number. The handle `site`, which is
/// closed, holds it then.
#[unsafe(no_mangle)]
pub extern "C" fn dine_raw_site_open_in(
    alloc: Global,
    plan: &mut Handle,
    number: u32,
    run: u64,
    site: &mut Handle,
) -> i64
    ensures plan { plan.new.slot.held ≡ plan.old.slot.held }
    ensures site { IsOkOr result
        (HoldsPlan (λ p. HoldsSite (IsOpened p run number) site.new.slot.held) plan.old.slot.held)
        (site.new.slot.held ≡ site.old.slot.held) }
    ensures open { site.old.slot.held ≢ None → result ≡ open_already }
    ensures refused { site.old.slot.held ≡ None → IsDoneOr result Unit (OfHeld plan.old.slot.held result
        (λ object. OfPlan object result (λ p. IsWithin number (site_count p) result (result ≡ memory)))) }
{
    if site.is_open() {
        return OPEN_ALREADY;
    }
    let Some(contents) = plan.take(alloc) else {
        return CLOSED;
    };
    let answer = open_site(alloc, &contents, number, run, site);
    plan.put(contents);
    answer
}

fn open_site(alloc: Global, contents: &Contents, number: u32, run: u64, handle: &mut Handle) -> i64
    requires { handle.old.slot.held ≡ None }
    ensures site { IsOkOr result
        (OnPlan (λ p. HoldsSite (IsOpened p run number) handle.new.slot.held) contents.now.object)
        (handle.new.slot.held ≡ handle.old.slot.held) }
    ensures refused { IsDoneOr result Unit (OfPlan contents.now.object result
        (λ p. IsWithin number (site_count p) result (result ≡ memory))) }
{
    match &contents.object {
        Object::Plan(plan) => open_site_of(alloc, plan, number, run, handle),
        Object::World(_) | Object::Site(_) | Object::Builder(_) => OTHER_KIND,
    }
}

fn open_site_of(alloc: Global, plan: &OwnPlan, number: u32, run: u64, handle: &mut Handle) -> i64
    requires { handle.old.slot.held ≡ None }
    ensures site { IsOkOr result
        (HoldsSite (IsOpened plan.now run number) handle.new.slot.held)
        (handle.new.slot.held ≡ handle.old.slot.held) }
    ensures refused { IsDoneOr result Unit (IsWithin number (site_count plan.now) result (result ≡ memory)) }
{
    if plan.plan().sites() <= number {
        return NO_SUCH;
    }
    let Ok(plan) = plan.share() else {
        return MEMORY;
    };
    match OwnSite::open(alloc, plan, run, number) {
        Ok(site) => open(alloc, Object::Site(site), handle),
        Err(_) => MEMORY,
    }
}

/// Writes how far the site is.
#[unsafe(no_mangle)]
pub extern "C" fn dine_raw_site_state(
    alloc: Global,
    handle: &mut Handle,
    out: &mut DineSiteState,
) -> i64
    ensures same { handle.new.slot.held ≡ handle.old.slot.held }
    ensures answer { OfHeld handle.old.slot.held result (λ object. OfSite object result
        (λ own. (result ≡ done) × (out.new ≡ record {
          phase = number_of own.core.phase;
          ate = own.core.ate;
          degree = length own.core.places;
          finished = if has_all_said own.core then 1 else 0;
        }))) }
    ensures unwritten { IsDoneOr result Unit (out.new ≡ out.old) }
{
    on_held!(alloc, handle, Site(site) => site.state(out))
}

/// Writes what the site has at place `i`.
#[unsafe(no_mangle)]
pub extern "C" fn dine_raw_site_place(
    alloc: Global,
    handle: &mut Handle,
    i: u32,
    out: &mut DinePlace,
) -> i64
    ensures same { handle.new.slot.held ≡ handle.old.slot.held }
    ensures answer { OfHeld handle.old.slot.held result (λ object. OfSite object result
        (λ own. IsDoneOr result ((i < length own.core.places)
        × (out.new ≡ record {
          edge = edge_at own.plan own.core.site i;
          neighbour = neighbour_of own.core.site
              (place_at own.core i);
          has_fork = if is_held (place_at own.core i).fork then 1 else 0;
          has_token = if is_some (place_at own.core i).token then 1 else 0;
          is_dirty = if is_used (place_at own.core i).fork then 1 else 0;
          is_closed = if (place_at own.core i).close_taken then 1 else 0;
        })) ((result ≡ no_such)
        × (out.new ≡ out.old) × IsNoPlace i own))) }
    ensures unwritten { IsDoneOr result Unit (out.new ≡ out.old) }
{
    on_held!(alloc, handle, Site(site) => site.place_state(i, out))
}

/// Writes the first event that the site may do without a letter. Returns 1, or 0 if there is none.
#[unsafe(no_mangle)]
pub extern "C" fn dine_raw_site_next(alloc: Global, handle: &mut Handle, out: &mut DineEvent) -> i64
    ensures same { handle.new.slot.held ≡ handle.old.slot.held }
    ensures answer { OfHeld handle.old.slot.held result (λ object. OfSite object result
        (λ own. MatchOption (next_of own.core) ((result ≡ pos 0) × (out.new ≡ out.old)) (λ kind. (result ≡ pos 1)
        × (out.new ≡ seen_event own.core.site kind)))) }
    ensures unwritten { IsDoneOr result Unit (out.new ≡ out.old) }
{
    on_held!(alloc, handle, Site(site) => site.next(out))
}

/// The site grows hungry.
#[unsafe(no_mangle)]
pub extern "C" fn dine_raw_site_hungry(alloc: Global, handle: &mut Handle) -> i64
    ensures becomes { SiteCall (StepsOrRefuses step.Hungry) result handle.old.slot.held handle.new.slot.held }
{
    on_held!(alloc, handle, mut Site(site) => site.hungry())
}

/// The site drops the jobs that it has left.
#[unsafe(no_mangle)]
pub extern "C" fn dine_raw_site_quit(alloc: Global, handle: &mut Handle) -> i64
    ensures becomes { SiteCall (StepsOrRefuses step.Quit) result handle.old.slot.held handle.new.slot.held }
{
    on_held!(alloc, handle, mut Site(site) => site.quit())
}

/// Gives the fork of place `i`, and writes the letter. Returns the number of its bytes.
#[unsafe(no_mangle)]
pub extern "C" fn dine_raw_site_give(
    alloc: Global,
    handle: &mut Handle,
    i: u32,
    out: &mut [u8],
) -> i64
    ensures becomes { SiteCall (PutsOrRefuses i (step.Give i) out.old out.new) result
        handle.old.slot.held handle.new.slot.held }
    ensures unwritten { IsDoneOr result Unit (out.new ≡ out.old) }
{
    on_held!(alloc, handle, mut Site(site) => site.put(PutKind::Give, i, out))
}

/// Asks for the fork of place `i`, and writes the letter. Returns the number of its bytes.
#[unsafe(no_mangle)]
pub extern "C" fn dine_raw_site_ask(
    alloc: Global,
    handle: &mut Handle,
    i: u32,
    out: &mut [u8],
) -> i64
    ensures becomes { SiteCall (PutsOrRefuses i (step.Ask i) out.old out.new) result
        handle.old.slot.held handle.new.slot.held }
    ensures unwritten { IsDoneOr result Unit (out.new ≡ out.old) }
{
    on_held!(alloc, handle, mut Site(site) => site.put(PutKind::Ask, i, out))
}

/// Says Done at place `i`, and writes the letter. Returns the number of its bytes.
#[unsafe(no_mangle)]
pub extern "C" fn dine_raw_site_done(
    alloc: Global,
    handle: &mut Handle,
    i: u32,
    out: &mut [u8],
) -> i64
    ensures becomes { SiteCall (PutsOrRefuses i (step.Done i) out.old out.new) result
        handle.old.slot.held handle.new.slot.held }
    ensures unwritten { IsDoneOr result Unit (out.new ≡ out.old) }
{
    on_held!(alloc, handle, mut Site(site) => site.put(PutKind::Done, i, out))
}

/// Closes place `i` in order, and writes the letter. Returns the number of its bytes.
#[unsafe(no_mangle)]
pub extern "C" fn dine_raw_site_shut(
    alloc: Global,
    handle: &mut Handle,
    i: u32,
    out: &mut [u8],
) -> i64
    ensures becomes { SiteCall (PutsOrRefuses i (step.Close i) out.old out.new) result
        handle.old.slot.held handle.new.slot.held }
    ensures unwritten { IsDoneOr result Unit (out.new ≡ out.old) }
{
    on_held!(alloc, handle, mut Site(site) => site.put(PutKind::Close, i, out))
}

/// Closes place `i` out of order, as after the loss of its link, and writes the letter. Returns the number of its
/// bytes.
#[unsafe(no_mangle)]
pub extern "C" fn dine_raw_site_break(
    alloc: Global,
    handle: &mut Handle,
    i: u32,
    out: &mut [u8],
) -> i64
    ensures becomes { SiteCall (PutsOrRefuses i (step.Break i) out.old out.new) result
        handle.old.slot.held handle.new.slot.held }
    ensures unwritten { IsDoneOr result Unit (out.new ≡ out.old) }
{
    on_held!(alloc, handle, mut Site(site) => site.put(PutKind::Break, i, out))
}

/// Does the event, if it is one of this site and no Take. Writes the letter that it puts, and returns the number of its
/// bytes, or 0 if it puts none. An End is that of a job that went well.
#[unsafe(no_mangle)]
pub extern "C" fn dine_raw_site_act(
    alloc: Global,
    handle: &mut Handle,
    event: &DineEvent,
    out: &mut [u8],
) -> i64
    ensures becomes { SiteCall (ActsOrRefuses event.now out.old out.new) result
        handle.old.slot.held handle.new.slot.held }
    ensures unwritten { IsDoneOr result Unit (out.new ≡ out.old) }
{
    on_held!(alloc, handle, mut Site(site) => site.act(*event, out))
}

/// Does the first event that the site may do by itself, and writes it. Writes the letter that it puts, and returns the
/// number of its bytes, or 0 if it puts none. After a Begin the caller does the job, and ends the meal; until then
/// there is no other turn. If there is no event, it returns that the site waits for a letter, or has finished.
#[unsafe(no_mangle)]
pub extern "C" fn dine_raw_site_turn(
    alloc: Global,
    handle: &mut Handle,
    event: &mut DineEvent,
    out: &mut [u8],
) -> i64
    ensures becomes { SiteCall (TurnsOrRefuses event.old event.new out.old out.new) result
        handle.old.slot.held handle.new.slot.held }
    ensures unwritten { IsDoneOr result Unit ((event.new ≡ event.old) × (out.new ≡ out.old)) }
{
    on_held!(alloc, handle, mut Site(site) => site.turn(event, out))
}

/// Takes the letter whose bytes these are, and returns the place at which it arrived. One of another run is refused
/// before anything else.
#[unsafe(no_mangle)]
pub extern "C" fn dine_raw_site_take(alloc: Global, handle: &mut Handle, letter: &[u8]) -> i64
    ensures becomes { SiteCall (TakesOrRefuses letter.now) result handle.old.slot.held handle.new.slot.held }
{
    on_held!(alloc, handle, mut Site(site) => site.take(alloc, letter))
}

/// Begins a meal.
#[unsafe(no_mangle)]
pub extern "C" fn dine_raw_site_begin(alloc: Global, handle: &mut Handle) -> i64
    ensures becomes { SiteCall BeginsOrRefuses result handle.old.slot.held handle.new.slot.held }
{
    on_held!(alloc, handle, mut Site(site) => site.begin())
}

/// Ends the meal. `failed` says whether its job failed.
#[unsafe(no_mangle)]
pub extern "C" fn dine_raw_site_end(alloc: Global, handle: &mut Handle, failed: bool) -> i64
    ensures becomes { SiteCall (EndsOrRefuses failed) result handle.old.slot.held handle.new.slot.held }
{
    on_held!(alloc, handle, mut Site(site) => site.end(failed))
}

/// Writes the periods of the log of the fork in hand at place `i`, three numbers for each, and returns how many
/// periods there are.
#[unsafe(no_mangle)]
pub extern "C" fn dine_raw_site_fork(
    alloc: Global,
    handle: &mut Handle,
    i: u32,
    out: &mut [u32],
) -> i64
    ensures same { handle.new.slot.held ≡ handle.old.slot.held }
    ensures answer { OfHeld handle.old.slot.held result (λ object. OfSite object result
        (λ own. MatchOption (hand_of (place_at own.core i).fork) ((result ≡ no_such) × (out.new ≡ out.old))
        (λ fork. ArePeriods fork out.old out.new result))) }
    ensures unwritten { IsDoneOr result Unit (out.new ≡ out.old) }
{
    on_held!(alloc, handle, Site(site) => site.periods(i, out))
}

/// Returns the value of the fork in hand at place `i`.
#[unsafe(no_mangle)]
pub extern "C" fn dine_raw_site_value(alloc: Global, handle: &mut Handle, i: u32) -> i64
    ensures same { handle.new.slot.held ≡ handle.old.slot.held }
    ensures answer { OfHeld handle.old.slot.held result (λ object. OfSite object result
        (λ own. MatchOption (hand_of (place_at own.core i).fork) (result ≡ no_such)
        (λ fork. Reports result fork.value))) }
{
    on_held!(alloc, handle, Site(site) => site.value(i))
}
