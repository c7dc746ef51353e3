//! The events of journals and schedules.
ghost use Rattle.std.specs.Prelude.{◌≡◌};

use crate::letters::LetterKind;

/// An event of a world: a site, and what it does.
#[derive(Clone, Copy, Debug, PartialEq, Eq)]
pub struct Event {
    pub site: u32,
    pub kind: EventKind,
}

/// What a site does in an event. A number is a place: a position in the list of the site's edges, from 0.
#[derive(Clone, Copy, Debug, PartialEq, Eq)]
pub enum EventKind {
    /// Takes the next letter in the link to the site.
    Take(u32),
    /// Sends a dirty fork that the neighbour asked for: the release rule.
    Give(u32),
    /// Ends a meal.
    End,
    /// Begins a meal.
    Begin,
    /// Drops the jobs that it has left, after a meal that failed.
    Quit,
    /// Grows hungry.
    Hungry,
    /// Sends the token to ask for the fork: the request rule.
    Ask(u32),
    /// Says that it will ask no more.
    Done(u32),
    /// Says that it will send nothing more.
    Close(u32),
}

/// What an event does with the links of its site. A number is a place.
#[derive(Clone, Copy, Debug, PartialEq, Eq)]
pub enum Shape {
    /// Takes a letter at this place.
    Takes(u32),
    /// Puts a letter at this place.
    Puts(u32),
    /// Does neither, and has no place.
    Alone,
}

impl EventKind {
    ghost use Rattle.dine_rules.specs.Steps.{kind_put, shape_of};

    /// Returns what the event does with the links of its site.
    pub fn shape(self) -> Shape
        ensures { result ≡ shape_of self }
    {
        match self {
            EventKind::Take(i) => Shape::Takes(i),
            EventKind::Give(i) => Shape::Puts(i),
            EventKind::End => Shape::Alone,
            EventKind::Begin => Shape::Alone,
            EventKind::Quit => Shape::Alone,
            EventKind::Hungry => Shape::Alone,
            EventKind::Ask(i) => Shape::Puts(i),
            EventKind::Done(i) => Shape::Puts(i),
            EventKind::Close(i) => Shape::Puts(i),
        }
    }

    /// Returns the kind of the letter that the event puts, or `None` if it puts none.
    pub fn puts(self) -> Option<LetterKind>
        ensures { result ≡ kind_put self }
    {
        match self {
            EventKind::Give(_) => Some(LetterKind::Fork),
            EventKind::Ask(_) => Some(LetterKind::Request),
            EventKind::Done(_) => Some(LetterKind::Done),
            EventKind::Close(_) => Some(LetterKind::Close),
            EventKind::Take(_) => None,
            EventKind::End => None,
            EventKind::Begin => None,
            EventKind::Quit => None,
            EventKind::Hungry => None,
        }
    }
}
