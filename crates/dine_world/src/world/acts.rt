// What a site of the world may do, and how it does it.
ghost use Rattle.std.specs.Prelude.{◌≡◌, ℕ, ◌<◌, ◌+◌, ◌-◌, Bool, IfSome, List, MatchOption, None, Some, count_by};
ghost use Rattle.std.specs.Prelude.{length, position, is_some, option_and_then, option_map, slice_get, false, true};
ghost use Rattle.std.specs.Option.{option_or};
ghost use Rattle.dine_rules.specs.declared.letters.Letter.{Letter};
ghost use Rattle.dine_rules.specs.Local.{is_eating};
ghost use Rattle.dine_world.specs.private.EnabledSites.{HasReceiver, receiver_of};
ghost use Rattle.dine_site.specs.LinkNumbers.{link_to};
ghost use Rattle.dine_site.specs.NextEvent.{can_by_itself, next_of};
ghost use Rattle.dine_world.specs.private.Counts.{own_kinds_now};
ghost use Rattle.dine_set.specs.Marks.{nth_position};
ghost use Rattle.dine_rules.specs.declared.events.Shape.TheVariants.{Alone, Puts};
ghost use Rattle.dine_rules.specs.Steps.{Begin, End, Take, after, shape_of};
ghost use Rattle.dine_site.specs.Core.{forks_in_hand};
ghost use Rattle.dine_site.specs.Places.{after_begin, can_begin, after_end, place_at, after_take};
ghost use Rattle.dine_world.specs.WorldSites.{can_do};
ghost use Rattle.dine_world.specs.private.StepsOfSites.{SiteSteps, HasOwnMeal, HasRoomAt, HasRoomFor, TakesAllowed};
ghost use Rattle.dine_world.specs.WorldSites.{next_in};
ghost use Rattle.dine_world.specs.private.StepsOfSites.{has_failed, meets_no_breach, without_next};
ghost use Rattle.dine_site.specs.Standing.{ForEachState, CoreStep, CoreSteps, all_places};

use super::queue::Queue;
use super::sites::WorldSite;
use dine_rules::{EventKind, Letter, Shape};
use dine_set::BitSet64;
use dine_site::SiteCore;
use std::mem;

/// Does an event that the site may do.
pub(crate) fn act(world_site: &mut WorldSite, links: &mut [Queue], kind: EventKind)
    requires can { can_do links.old world_site.old.core kind ≡ true }
    requires allowed { TakesAllowed links.old world_site.old.core (shape_of kind) }
    requires meal { HasOwnMeal world_site.old }
    requires room { HasRoomFor links.old world_site.old.core (shape_of kind) }
    ensures count { length links.new ≡ length links.old }
    ensures does { SiteSteps kind world_site.old world_site.new links.old links.new }
{
    match kind.shape() {
        Shape::Takes(i) => take(world_site, links, i),
        Shape::Puts(i) => put(world_site, links, kind, i),
        Shape::Alone => act_alone(world_site, kind),
    }
}

// Puts the letter of the event at place i, last in the link that leads away.
fn put(world_site: &mut WorldSite, links: &mut [Queue], kind: EventKind, i: u32)
    requires puts { shape_of kind ≡ Puts i }
    requires can { can_by_itself world_site.old.core kind ≡ true }
    requires room { HasRoomAt links.old world_site.old.core i }
    ensures count { length links.new ≡ length links.old }
    ensures does { SiteSteps kind world_site.old world_site.new links.old links.new }
{
    let link = world_site.core.link_from(i);
    let letter = world_site.core.put(kind);
    links[link].put(letter);
}

// Does an event without a place.
fn act_alone(world_site: &mut WorldSite, kind: EventKind)
    requires alone { shape_of kind ≡ Alone }
    requires can { can_by_itself world_site.old.core kind ≡ true }
    requires meal { HasOwnMeal world_site.old }
    ensures { (links : List (List Letter)) → SiteSteps kind world_site.old world_site.new links links }
{
    match kind {
        EventKind::End => end(world_site),
        EventKind::Begin => begin(world_site),
        EventKind::Quit => world_site.core.quit(),
        EventKind::Hungry => world_site.core.hungry(),
        _ => unreachable!(),
    }
}

// Takes the next letter at place i, which the rules allow.
fn take(world_site: &mut WorldSite, links: &mut [Queue], i: u32)
    requires within { i < length world_site.old.core.places }
    requires allowed { meets_no_breach world_site.old.core i (next_in links.old world_site.old.core i) ≡ true }
    ensures meal { world_site.new.meal ≡ world_site.old.meal }
    ensures outcomes { world_site.new.outcomes ≡ world_site.old.outcomes }
    ensures links { links.new
        ≡ without_next links.old (link_to world_site.old.core.site (place_at world_site.old.core i)) }
    ensures core { MatchOption (next_in links.old world_site.old.core i) ⊥
        (λ letter. (world_site.new.core ≡ after_take i letter world_site.old.core)
        × CoreSteps (Take i letter) world_site.old.core world_site.new.core) }
{
    let link = world_site.core.link_to(i);
    let letter = links[link].take().unwrap();
    world_site.core.take_in_turn(i, letter);
}

// Begins a meal, and keeps it.
fn begin(world_site: &mut WorldSite)
    requires can { can_begin world_site.old.core ≡ true }
    requires none { world_site.old.meal ≡ None }
    ensures outcomes { world_site.new.outcomes ≡ world_site.old.outcomes }
    ensures core { world_site.new.core ≡ after_begin world_site.old.core }
    ensures step { CoreSteps Begin world_site.old.core world_site.new.core }
    ensures meal { MatchOption world_site.new.meal ⊥
        (λ meal. (meal.site ≡ world_site.old.core.site) × (meal.k ≡ world_site.old.core.ate + 1)
        × ForEachState world_site.old.core
        (λ plan state. meal.forks
        ≡ forks_in_hand plan world_site.old.core.site (after plan world_site.old.core.site state Begin)
        (all_places state))) }
{
    let meal = world_site.core.begin();
    if let Some(_) = mem::replace(&mut world_site.meal, Some(meal)) {
        unreachable!();
    }
}

// Ends the meal.
fn end(world_site: &mut WorldSite)
    requires eating { is_eating world_site.old.core.phase ≡ true }
    requires meal { HasOwnMeal world_site.old }
    ensures none { world_site.new.meal ≡ None }
    ensures outcomes { world_site.new.outcomes ≡ world_site.old.outcomes }
    ensures core { let failed = has_failed world_site.old.outcomes world_site.old.core.ate in
        IfSome world_site.old.meal (λ meal. world_site.new.core ≡ after_end failed meal.forks world_site.old.core) }
    ensures step { let failed = has_failed world_site.old.outcomes world_site.old.core.ate in
        IfSome world_site.old.meal
        (λ meal. ForEachState world_site.old.core
        (λ plan state. meal.forks ≡ forks_in_hand plan world_site.old.core.site state (all_places state)
        → CoreStep plan state (End failed) world_site.old.core world_site.new.core)) }
{
    let failed = world_site.outcomes.has_failed(world_site.core.ate());
    let meal = world_site.meal.take().unwrap();
    world_site.core.end(meal, failed);
}

/// Returns the site that gets the letter of the event, or `None` if the event puts none.
pub(crate) fn receiver(core: &SiteCore, kind: EventKind) -> Option<u32>
    requires { HasReceiver core.now (shape_of kind) }
    ensures { result ≡ receiver_of core.now (shape_of kind) }
{
    match kind.shape() {
        Shape::Puts(i) => Some(core.neighbour(i)),
        Shape::Takes(_) | Shape::Alone => None,
    }
}

/// Returns the first event that the site may do now, in the fixed order. `nonempty_inboxes` has exactly the places with
/// a letter in the link to the site.
pub(crate) fn first_kind(nonempty_inboxes: BitSet64, core: &SiteCore) -> Option<EventKind>
    ensures { result
        ≡ option_or (option_map EventKind.Take (position (λ is_in. is_in) nonempty_inboxes)) (next_of core.now) }
{
    if let Some(i) = nonempty_inboxes.first() {
        return Some(EventKind::Take(i));
    }
    core.next_event()
}

/// Returns the `n`-th event that the site may do now, in the fixed order, from 0. `nonempty_inboxes` has exactly the
/// places with a letter in the link to the site.
pub(crate) fn nth_kind(nonempty_inboxes: BitSet64, core: &SiteCore, n: u32) -> Option<EventKind>
    ensures { result
        ≡ option_or (option_map EventKind.Take (nth_position (λ is_in. is_in) n nonempty_inboxes))
        (slice_get (own_kinds_now core.now) (n - count_by (λ is_in. is_in) nonempty_inboxes)) }
{
    if let Some(i) = nonempty_inboxes.nth(n) {
        return Some(EventKind::Take(i));
    }
    core.own_event(n - nonempty_inboxes.len())
}

/// Returns whether the site may do the event now, with these letters in the links.
pub(crate) fn can_do(links: &[Queue], core: &SiteCore, kind: EventKind) -> bool
    ensures { result ≡ can_do links.now core.now kind }
{
    match kind {
        EventKind::Take(i) => i < core.degree() && can_take(links, core, i),
        _ => core.may(kind),
    }
}

// Whether a letter is in the link to the site at place i.
fn can_take(links: &[Queue], core: &SiteCore, i: u32) -> bool
    requires { i < length core.now.places }
    ensures { result ≡ is_some (next_in links.now core.now i) }
{
    next_letter(links, core.link_to(i)).is_some()
}

// The next letter of a link.
fn next_letter(links: &[Queue], link: usize) -> Option<&Letter>
    ensures { option_map (λ letter. letter.now) result
        ≡ option_and_then (λ (letters : List Letter). slice_get letters 0) (slice_get links.now link) }
{
    links.get(link)?.next()
}
