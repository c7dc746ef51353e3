//! What a site keeps at each of its places, and what it may do at one.
ghost use Rattle.std.specs.Prelude.{◌≡◌, ◌⊎◌, ℕ, ◌+◌, ◌<◌, ◌++◌, ◌==◌, ◌||◌, not, true, Some, None, is_some};
ghost use Rattle.std.specs.Prelude.{option_to_list, vec_len, vec_capacity};
ghost use Rattle.dine_token.specs.Fork.{SeenFork, IsEnd, IsFork, MayMove, after_move};
ghost use Rattle.dine_rules.specs.Steps.{Take};
ghost use Rattle.dine_rules.specs.Streams.{IsProper};

use super::Parts;
use dine_rules::{Breach, Letter};
use dine_token::{Fork, Held, Token};
use std::mem;

/// Where the fork of a place is, as the site of the place knows it.
#[derive(Drop)]
pub enum ForkSlot {
    /// At the other end, or in a link.
    Away,
    /// In hand.
    Here(Fork),
    /// In the meal of the site. The number is that of the meals of the other end in its log.
    InMeal(u32),
}

/// What a site keeps at a place: the edge with its ends, the lower first, and the meals due to each; whether the other
/// end resigns; the fork and the token; and which of Done and Close were put and taken.
#[derive(Drop)]
pub(crate) struct Place {
    pub(crate) edge: u32,
    pub(crate) ends: (u32, u32),
    pub(crate) due: (u32, u32),
    pub(crate) neighbour_resigns: bool,
    pub(crate) fork: ForkSlot,
    pub(crate) token: Option<Token>,
    pub(crate) done_put: bool,
    pub(crate) done_taken: bool,
    pub(crate) close_put: bool,
    pub(crate) close_taken: bool,
}

impl ForkSlot {
    ghost use Rattle.dine_site.specs.Places.{is_held, is_clean_in_hand, is_dirty_in_hand, meals_in};
    ghost use Rattle.dine_site.specs.private.PlaceSteps.{EndsOf};

    /// Whether the site has the fork, in hand or in its meal.
    pub(crate) fn is_held(&self) -> bool
        ensures { result ≡ is_held self.now }
    {
        !matches!(self, ForkSlot::Away)
    }

    /// Whether the fork is in hand and dirty.
    pub(crate) fn is_dirty_in_hand(&self) -> bool
        ensures { result ≡ is_dirty_in_hand self.now }
    {
        match self {
            ForkSlot::Here(fork) => fork.is_dirty(),
            ForkSlot::Away | ForkSlot::InMeal(_) => false,
        }
    }

    /// Whether the fork is in hand and clean.
    pub(crate) fn is_clean_in_hand(&self) -> bool
        ensures { result ≡ is_clean_in_hand self.now }
    {
        match self {
            ForkSlot::Here(fork) => !fork.is_dirty(),
            ForkSlot::Away | ForkSlot::InMeal(_) => false,
        }
    }

    /// How many meals of an end the fork has. For a fork in the meal, `end` is the other end than the site.
    pub(crate) fn meals_of(&self, end: u32) -> u32
        requires { EndsOf self.now end }
        ensures { result ≡ meals_in end self.now }
    {
        match self {
            ForkSlot::Away => 0,
            ForkSlot::Here(fork) => fork.meals_of(end),
            ForkSlot::InMeal(meals) => *meals,
        }
    }
}

impl Place {
    ghost use Rattle.dine_site.specs.Places.{neighbour_of, due_of_neighbour, is_held, is_dirty_in_hand, meals_in};
    ghost use Rattle.dine_site.specs.Places.{has_all, can_ask_at, can_give_at, is_own_fork, breach_of_request};
    ghost use Rattle.dine_site.specs.Places.{breach_of_fork, breach_of_done, breach_of_close, breach_at};
    ghost use Rattle.dine_site.specs.Places.{can_put_off_at, place_in_meal};
    ghost use Rattle.dine_site.specs.Places.{is_over_at, hand_of, fork_in_hand, OnHere, with_fork};
    ghost use Rattle.dine_site.specs.private.PlaceSteps.{fresh_place, EndsOf};

    /// The site at the other end.
    pub(crate) fn neighbour(&self, site: u32) -> u32
        ensures { result ≡ neighbour_of site self.now }
    {
        let (lower, higher) = self.ends;
        if lower == site { higher } else { lower }
    }

    /// How many meals are due to the other end.
    pub(crate) fn due_of_neighbour(&self, site: u32) -> u32
        ensures { result ≡ due_of_neighbour site self.now }
    {
        let (lower, _) = self.ends;
        let (lower_due, higher_due) = self.due;
        if self.neighbour(site) == lower {
            lower_due
        } else {
            higher_due
        }
    }

    /// How many meals of the other end the fork has.
    pub(crate) fn neighbour_meals(&self, site: u32) -> u32
        requires { EndsOf self.now.fork (neighbour_of site self.now) }
        ensures { result ≡ meals_in (neighbour_of site self.now) self.now.fork }
    {
        self.fork.meals_of(self.neighbour(site))
    }

    /// Whether the fork is due to be sent, by the release rule.
    pub(crate) fn may_give(&self) -> bool
        ensures { result ≡ can_give_at self.now }
    {
        self.fork.is_dirty_in_hand() && self.token.is_some() && !self.close_put
    }

    /// Whether the fork may be asked for, by the request rule.
    pub(crate) fn may_ask(&self) -> bool
        ensures { result ≡ can_ask_at self.now }
    {
        self.token.is_some() && !self.fork.is_held() && !self.close_put
    }

    /// Why the rules do not allow the letter here: the first cause that applies. `ate` is the number of meals of the
    /// site.
    pub(crate) fn breach_of(&self, site: u32, ate: u32, letter: &Letter) -> Option<Breach>
        requires ends { EndsOf self.now.fork (neighbour_of site self.now) }
        requires site { (site ≡ self.now.ends.0) ⊎ (site ≡ self.now.ends.1) }
        ensures breach { result ≡ breach_at site ate self.now letter.now }
        ensures proper { result ≡ None → (i : ℕ) → IsProper (Take i letter.now) }
    {
        if self.close_taken {
            return Some(Breach::AfterClose);
        }
        match letter {
            Letter::Fork(fork) => self.breach_of_fork(site, ate, fork),
            Letter::Request(token) => self.breach_of_request(site, token),
            Letter::Done => self.breach_of_done(site),
            Letter::Close => self.breach_of_close(),
        }
    }

    /// Whether the letter that comes next here can be put off until the next meal. `ate` is the number of meals of the
    /// site.
    pub(crate) fn may_put_off(&self, site: u32, ate: u32) -> bool
        requires ends { EndsOf self.now.fork (neighbour_of site self.now) }
        requires site { (site ≡ self.now.ends.0) ⊎ (site ≡ self.now.ends.1) }
        ensures { result ≡ can_put_off_at site ate self.now }
    {
        let no_done = self.breach_of(site, ate, &Letter::Done).is_some();
        let no_close = self.breach_of(site, ate, &Letter::Close).is_some();
        self.fork.is_clean_in_hand() && no_done && no_close
    }

    fn breach_of_request(&self, site: u32, token: &Token) -> Option<Breach>
        requires ends { EndsOf self.now.fork (neighbour_of site self.now) }
        ensures { result ≡ breach_of_request site self.now token.now }
    {
        let is_out_of_turn = self.token.is_some() || !self.fork.is_held() || self.done_taken;
        if is_out_of_turn
            || token.edge() != self.edge
            || self.due_of_neighbour(site) <= self.neighbour_meals(site)
        {
            return Some(Breach::RequestOutOfTurn);
        }
        None
    }

    fn breach_of_fork(&self, site: u32, ate: u32, fork: &Fork) -> Option<Breach>
        requires site { (site ≡ self.now.ends.0) ⊎ (site ≡ self.now.ends.1) }
        ensures breach { result ≡ breach_of_fork site ate self.now fork.now }
        ensures proper { result ≡ None → IsFork fork.now }
    {
        if self.fork.is_held() || self.token.is_some() {
            return Some(Breach::ForkOutOfTurn);
        }
        if !self.is_own_fork(fork)
            || fork.is_dirty()
            || fork.at() != site
            || fork.meals_of(site) != ate
            || (self.done_taken && !self.has_all_due(site, fork.meals_of(self.neighbour(site))))
        {
            return Some(Breach::StrangeFork);
        }
        None
    }

    // Whether `meals` are all meals that are due to the other end, or the other end resigns and need not eat them all.
    fn has_all_due(&self, site: u32, meals: u32) -> bool
        ensures { result ≡ (self.now.neighbour_resigns || meals == due_of_neighbour site self.now) }
    {
        self.neighbour_resigns || meals == self.due_of_neighbour(site)
    }

    // Whether the fork is the fork of the edge, with its ends and the meals due to them.
    fn is_own_fork(&self, fork: &Fork) -> bool
        ensures own { result ≡ is_own_fork self.now fork.now }
        ensures proper { IsFork fork.now }
    {
        let (lower, higher) = self.ends;
        let (lower_due, higher_due) = self.due;
        let ends = fork.ends();
        fork.edge() == self.edge
            && ends.0 == lower
            && ends.1 == higher
            && fork.due_of(lower) == lower_due
            && fork.due_of(higher) == higher_due
    }

    fn breach_of_done(&self, site: u32) -> Option<Breach>
        requires ends { EndsOf self.now.fork (neighbour_of site self.now) }
        ensures { result ≡ breach_of_done site self.now }
    {
        let is_short = self.fork.is_held() && !self.has_all_due(site, self.neighbour_meals(site));
        if self.done_taken || is_short {
            return Some(Breach::DoneOutOfTurn);
        }
        None
    }

    fn breach_of_close(&self) -> Option<Breach>
        ensures { result ≡ breach_of_close self.now }
    {
        if !self.done_taken || !self.done_put {
            return Some(Breach::ClosedEarly);
        }
        None
    }

    /// Sends the fork to the other end.
    pub(crate) fn give(&mut self, site: u32) -> Letter
        requires { OnHere (MayMove (neighbour_of site self.old)) self.old.fork }
        ensures letter { OnHere
            (λ fork. result ≡ Letter.Fork (after_move (neighbour_of site self.old) fork)) self.old.fork }
        ensures away { self.new ≡ with_fork ForkSlot.Away self.old }
    {
        let to = self.neighbour(site);
        match mem::replace(&mut self.fork, ForkSlot::Away) {
            ForkSlot::Here(fork) => Letter::Fork(Held::take(fork).give(to)),
            _ => unreachable!(),
        }
    }

    /// A place before the first step of its site.
    pub(crate) fn new(
        edge: u32,
        ends: (u32, u32),
        due: (u32, u32),
        neighbour_resigns: bool,
        fork: Option<Fork>,
        token: Option<Token>,
    ) -> Place
        ensures { result ≡ fresh_place edge ends due neighbour_resigns fork token }
    {
        let fork = fork.map_or(ForkSlot::Away, ForkSlot::Here);
        Place {
            edge,
            ends,
            due,
            neighbour_resigns,
            fork,
            token,
            done_put: false,
            done_taken: false,
            close_put: false,
            close_taken: false,
        }
    }

    /// Takes the fork in hand for a meal. The place keeps how many meals of the other end the fork has.
    pub(crate) fn lift(&mut self, site: u32) -> Held
        requires { OnHere (λ fork. IsEnd fork (neighbour_of site self.old)) self.old.fork }
        ensures held { OnHere (λ fork. result ≡ fork) self.old.fork }
        ensures lifted { self.new ≡ place_in_meal site self.old }
    {
        let meals = self.neighbour_meals(site);
        match mem::replace(&mut self.fork, ForkSlot::InMeal(meals)) {
            ForkSlot::Here(fork) => Held::take(fork),
            _ => unreachable!(),
        }
    }

    /// Puts a fork back.
    pub(crate) fn put_back(&mut self, held: Held)
        ensures { self.new ≡ with_fork (ForkSlot.Here held) self.old }
    {
        self.fork = ForkSlot::Here(held.keep());
    }

    /// Removes the fork and returns it, if it is in hand.
    pub(crate) fn remove_fork(&mut self) -> Option<Fork>
        ensures fork { result ≡ hand_of self.old.fork }
        ensures away { self.new ≡ with_fork ForkSlot.Away self.old }
    {
        match mem::replace(&mut self.fork, ForkSlot::Away) {
            ForkSlot::Here(fork) => Some(fork),
            ForkSlot::Away | ForkSlot::InMeal(_) => None,
        }
    }

    /// Moves the fork, if it is in hand, and the token to the parts.
    pub(crate) fn empty(&mut self, parts: &mut Parts)
        requires room_for_forks { vec_len parts.old.forks < vec_capacity parts.old.forks }
        requires room_for_tokens { vec_len parts.old.tokens < vec_capacity parts.old.tokens }
        ensures forks { parts.new.forks.items ≡ parts.old.forks.items ++ fork_in_hand self.old.fork }
        ensures tokens { parts.new.tokens.items ≡ parts.old.tokens.items ++ option_to_list self.old.token }
        ensures fork_room { vec_capacity parts.new.forks ≡ vec_capacity parts.old.forks }
        ensures token_room { vec_capacity parts.new.tokens ≡ vec_capacity parts.old.tokens }
    {
        match mem::replace(&mut self.fork, ForkSlot::Away) {
            ForkSlot::Here(fork) => parts.forks.push_reserved(fork),
            ForkSlot::Away | ForkSlot::InMeal(_) => {}
        }
        if let Some(token) = self.token.take() {
            parts.tokens.push_reserved(token);
        }
    }

    /// Whether Done and Close were put and taken at this place.
    pub(crate) fn is_over(&self) -> bool
        ensures { result ≡ is_over_at self.now }
    {
        self.done_put && self.done_taken && self.close_put && self.close_taken
    }
}
