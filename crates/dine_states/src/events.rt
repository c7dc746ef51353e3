//! The events of a world in words.
ghost use Rattle.std.specs.Prelude.{◌≡◌, IfSome, option_map, slice_get};
ghost use Rattle.dine_rules.specs.Steps.{shape_of};
ghost use Rattle.dine_rules.specs.World.{enabled_events};
ghost use Rattle.dine_world.specs.Worlds.{ForEachWorld};
ghost use Rattle.dine_states.specs.private.ReasonsAtEnds.{event_place};

use dine_graph::Plan;
use dine_rules::Shape;
use dine_world::{Event, EventKind, LetterKind, World};
use std::alloc::AllocError;

/// An event that is enabled in a world, with what is reported of it, also after it was done.
#[derive(Clone, Copy)]
pub struct Enabled {
    /// Its number among the enabled events.
    pub number: u32,
    pub event: Event,
    /// The letter that it takes or puts.
    pub letter: Option<LetterKind>,
    /// The number of the meal that it begins or ends.
    pub meal: Option<u32>,
    /// Whether it ends a meal that failed.
    pub failed: bool,
}

impl Enabled {
    /// Returns the enabled event with this number, from 0, or `None` if there are fewer.
    pub fn find(plan: &Plan, world: &World, number: u32) -> Option<Enabled>
        ensures event { ForEachWorld world.now (λ p state. option_map (λ enabled. enabled.event) result
            ≡ slice_get (enabled_events p state) number) }
        ensures number { IfSome result (λ enabled. enabled.number ≡ number) }
    {
        let event = world.enabled(number)?;
        let meal = meal_of(world, event);
        Some(Enabled {
            number,
            event,
            letter: letter_of(world, event),
            meal,
            failed: event.kind == EventKind::End && has_failed(plan, event.site, meal),
        })
    }

    /// Returns the edge of the event, or `None` if it has none.
    pub fn edge(self, plan: &Plan) -> Option<u32> {
        edge_at(plan, self.event.site, place_of(self.event.kind)?)
    }

    /// Returns the site at the other end of the edge of the event, or `None` if it has no edge.
    pub fn neighbour(self, plan: &Plan) -> Option<u32> {
        let (lower, higher) = ends_of(plan, self.edge(plan)?)?;
        if self.event.site == lower {
            Some(higher)
        } else {
            Some(lower)
        }
    }
}

// The letter that the event takes or puts.
fn letter_of(world: &World, event: Event) -> Option<LetterKind> {
    match event.kind {
        EventKind::Take(i) => world.letter_to(event.site, i, 0),
        kind => kind.puts(),
    }
}

// The number of the meal that the event begins or ends.
fn meal_of(world: &World, event: Event) -> Option<u32> {
    match event.kind {
        EventKind::Begin => Some(ate(world, event.site).saturating_add(1)),
        EventKind::End => Some(ate(world, event.site)),
        _ => None,
    }
}

// Whether the job of the meal fails. A meal without a job does not.
fn has_failed(plan: &Plan, site: u32, meal: Option<u32>) -> bool {
    match meal {
        Some(k) if site < plan.sites() && 1 <= k && k <= plan.jobs(site) => {
            plan.job(site, k).fails
        }
        _ => false,
    }
}

/// Returns the number of meals that the site began, or 0 if there is no such site.
pub fn ate(world: &World, site: u32) -> u32 {
    world.ate(site).unwrap_or(0)
}

/// Returns the name of the site, which is empty if there is no such site.
pub fn name_of(plan: &Plan, site: u32) -> &str {
    if site < plan.sites() {
        plan.name(site)
    } else {
        ""
    }
}

/// Returns the place of an event of this kind among the edges of its site, or `None` if it has none.
pub fn place_of(kind: EventKind) -> Option<u32>
    ensures { result ≡ event_place (shape_of kind) }
{
    match kind.shape() {
        Shape::Takes(i) | Shape::Puts(i) => Some(i),
        Shape::Alone => None,
    }
}

/// Returns the edge at the place of the site, or `None` if there is no such site or place.
pub fn edge_at(plan: &Plan, site: u32, place: u32) -> Option<u32> {
    if site < plan.sites() {
        plan.edges_of(site).get(place as usize).copied()
    } else {
        None
    }
}

// The ends of the edge, the lower first. None if there is no such edge.
fn ends_of(plan: &Plan, edge: u32) -> Option<(u32, u32)> {
    if edge < plan.edges() {
        Some(plan.ends(edge))
    } else {
        None
    }
}

/// Returns the name of the kind.
pub fn name_of_kind(kind: EventKind) -> &'static str {
    match kind {
        EventKind::Take(_) => "take",
        EventKind::Give(_) => "give",
        EventKind::End => "end",
        EventKind::Begin => "begin",
        EventKind::Quit => "quit",
        EventKind::Hungry => "hungry",
        EventKind::Ask(_) => "ask",
        EventKind::Done(_) => "done",
        EventKind::Close(_) => "close",
    }
}

/// Returns the name of a kind of letters.
pub fn name_of_letter(kind: LetterKind) -> &'static str {
    match kind {
        LetterKind::Fork => "fork",
        LetterKind::Request => "request",
        LetterKind::Done => "done",
        LetterKind::Close => "close",
    }
}

/// Returns the letter for the event in a column. That of a Take is the capital of the one for the event that put what
/// it takes.
pub fn letter_for(enabled: Enabled) -> char {
    match enabled.event.kind {
        EventKind::Hungry => 'h',
        EventKind::Ask(_) => 'a',
        EventKind::Give(_) => 'g',
        EventKind::Begin => 'b',
        EventKind::End if enabled.failed => 'x',
        EventKind::End => 'e',
        EventKind::Quit => 'q',
        EventKind::Done(_) => 'd',
        EventKind::Close(_) => 'c',
        EventKind::Take(_) => match enabled.letter {
            Some(LetterKind::Fork) => 'G',
            Some(LetterKind::Request) => 'A',
            Some(LetterKind::Done) => 'D',
            Some(LetterKind::Close) | None => 'C',
        },
    }
}

/// Returns the rule that the event follows, in a line.
pub fn rule_of(enabled: Enabled) -> &'static str {
    match enabled.event.kind {
        EventKind::Take(_) => rule_of_take(enabled.letter),
        EventKind::Give(_) => {
            "release rule: a site that does not eat and holds the token gives a dirty fork, clean"
        }
        EventKind::End =>
            "a site that eats ends its meal; its forks stay dirty until they are sent",
        EventKind::Begin => {
            "a hungry site that holds all its forks, each clean or not asked for, eats"
        }
        EventKind::Quit => "a site that resigns drops the jobs that it has left after one failed",
        EventKind::Hungry => "a site that thinks and has jobs left may grow hungry",
        EventKind::Ask(_) => {
            "request rule: a hungry site that holds the token and not the fork sends the token"
        }
        EventKind::Done(_) => "a site without jobs left says over each edge that it asks no more",
        EventKind::Close(_) => "a site that said done over an edge, and took done there, closes it",
    }
}

// The rule of a Take of this letter.
fn rule_of_take(letter: Option<LetterKind>) -> &'static str {
    match letter {
        Some(LetterKind::Fork) => "a fork that arrives is held, clean",
        Some(LetterKind::Request) => "a token that arrives is held",
        Some(LetterKind::Done) => "a neighbour that says done asks no more",
        Some(LetterKind::Close) => "a neighbour that closes sends nothing more",
        None => "no letter is there",
    }
}

/// Adds the event to the text in words: its site, what it does, and with which neighbour.
///
/// # Errors
///
/// `AllocError` if an allocation fails.
pub fn push_event(text: &mut String, plan: &Plan, enabled: Enabled) -> Result<(), AllocError> {
    text.push_str(name_of(plan, enabled.event.site))?;
    match enabled.event.kind {
        EventKind::Take(_) => push_with(text, plan, enabled, words_of_take(enabled.letter), ""),
        EventKind::Give(_) => push_with(text, plan, enabled, " gives ", " their fork"),
        EventKind::End if enabled.failed => push_meal(
            text,
            " ends meal ",
            enabled,
            ", which failed",
        ),
        EventKind::End => push_meal(text, " ends meal ", enabled, ""),
        EventKind::Begin => push_meal(text, " begins meal ", enabled, ""),
        EventKind::Quit => text.push_str(" quits"),
        EventKind::Hungry => text.push_str(" grows hungry"),
        EventKind::Ask(_) => push_with(text, plan, enabled, " asks ", " for their fork"),
        EventKind::Done(_) => push_with(text, plan, enabled, " says done to ", ""),
        EventKind::Close(_) => push_with(text, plan, enabled, " closes to ", ""),
    }
}

// Adds the words to the text, with the name of the neighbour between them.
fn push_with(
    text: &mut String,
    plan: &Plan,
    enabled: Enabled,
    before: &str,
    behind: &str,
) -> Result<(), AllocError> {
    text.push_str(before)?;
    if let Some(neighbour) = enabled.neighbour(plan) {
        text.push_str(name_of(plan, neighbour))?;
    }
    text.push_str(behind)
}

// Adds the words to the text, with the number of the meal between them.
fn push_meal(
    text: &mut String,
    before: &str,
    enabled: Enabled,
    behind: &str,
) -> Result<(), AllocError> {
    match enabled.meal {
        Some(k) => write!(text, "{before}{k}{behind}"),
        None => Ok(()),
    }
}

// The words of a Take of this letter. The name of its sender follows them.
fn words_of_take(letter: Option<LetterKind>) -> &'static str {
    match letter {
        Some(LetterKind::Fork) => " takes the fork of ",
        Some(LetterKind::Request) => " takes the request of ",
        Some(LetterKind::Done) => " takes done of ",
        Some(LetterKind::Close) => " takes close of ",
        None => " takes nothing of ",
    }
}
