// The next event that a site does without a letter.
ghost use Rattle.std.specs.Prelude.{◌≡◌, ◌≤◌, ℕ, Bool, None, Some, filter, find, length, slice_get, true};
ghost use Rattle.dine_rules.specs.declared.events.Shape.TheVariants.{Puts};
ghost use Rattle.dine_rules.specs.Steps.{Step, shape_of, step_by};
ghost use Rattle.std.specs.List.{range_with_len};
ghost use Rattle.dine_rules.specs.World.{placeless_kinds};
ghost use Rattle.dine_site.specs.NextEvent.{can_by_itself, next_event};
ghost use Rattle.dine_site.specs.private.OwnEvents.{may_ask_at, may_give_at, may_say_done_at};
ghost use Rattle.dine_site.specs.NextEvent.{next_of, own_kinds};
ghost use Rattle.dine_site.specs.private.OwnEvents.{next_word_of, own_words};
ghost use Rattle.dine_set.specs.Marks.{marks_of};
ghost use Rattle.dine_site.specs.Places.{can_ask, can_close, can_give, can_say_done};
ghost use Rattle.dine_site.specs.Standing.{CorePuts, ForEachState};

use super::SiteCore;
use dine_rules::{EventKind, Letter, Phase};
use dine_set::BitSet64;

impl SiteCore {
    /// Returns whether the site may do the event now without a letter. It never may do a Take.
    pub fn may(&self, kind: EventKind) -> bool
        ensures { result ≡ can_by_itself self.now kind }
    {
        match kind {
            EventKind::Take(_) => false,
            EventKind::Give(i) => i < self.degree() && self.may_give(i),
            EventKind::End => self.may_end(),
            EventKind::Begin => self.may_begin(),
            EventKind::Quit => self.may_quit(),
            EventKind::Hungry => self.may_hungry(),
            EventKind::Ask(i) => i < self.degree() && self.may_ask(i),
            EventKind::Done(i) => i < self.degree() && self.may_done(i),
            EventKind::Close(i) => i < self.degree() && self.may_close(i),
        }
    }

    /// Does an event that puts a letter, and returns the letter.
    pub fn put(&mut self, kind: EventKind) -> Letter
        requires puts { (i : ℕ) × (shape_of kind ≡ Puts i) }
        requires may { can_by_itself self.old kind ≡ true }
        ensures site { self.new.site ≡ self.old.site }
        ensures step { (failed : Bool) (i : ℕ) (one : Step) → shape_of kind ≡ Puts i
            → step_by failed (λ place. None) kind ≡ Some one → CorePuts i one self.old self.new result }
    {
        match kind {
            EventKind::Give(i) => self.give(i),
            EventKind::Ask(i) => self.ask(i),
            EventKind::Done(i) => self.done(i),
            EventKind::Close(i) => self.close(i),
            EventKind::Take(_)
            | EventKind::End
            | EventKind::Begin
            | EventKind::Quit
            | EventKind::Hungry => { unreachable!() }
        }
    }

    /// Returns the first event other than Take that the site may do now, in the fixed order: Give by place, End, Begin,
    /// Quit, Hungry, Ask by place, Done by place, Close by place. Returns `None` if it may do none of these until a
    /// letter arrives.
    pub fn next_event(&self) -> Option<EventKind>
        ensures next { result ≡ next_of self.now }
        ensures by_lists { ForEachState self.now (λ plan state. result ≡ next_event plan self.now.site state) }
    {
        if let Some(i) = self.first_give() {
            return Some(EventKind::Give(i));
        }
        if let Some(kind) = self.next_phase() {
            return Some(kind);
        }
        self.next_announcement()
    }

    // The first event without a place that the site may do.
    fn next_phase(&self) -> Option<EventKind>
        ensures { result ≡ find (can_by_itself self.now) placeless_kinds }
    {
        if self.may_end() {
            return Some(EventKind::End);
        }
        if self.may_begin() {
            return Some(EventKind::Begin);
        }
        if self.may_quit() {
            return Some(EventKind::Quit);
        }
        if self.may_hungry() {
            return Some(EventKind::Hungry);
        }
        None
    }

    // The first of Ask, Done and Close that the site may do.
    fn next_announcement(&self) -> Option<EventKind>
        ensures { result ≡ next_word_of self.now }
    {
        if let Some(i) = self.first_ask() {
            return Some(EventKind::Ask(i));
        }
        if let Some(i) = self.first_done() {
            return Some(EventKind::Done(i));
        }
        let i = self.first_close()?;
        Some(EventKind::Close(i))
    }

    // The first place at which the site may give the fork.
    fn first_give(&self) -> Option<u32>
        ensures { result ≡ find (can_give self.now) (range_with_len 0 (length self.now.places)) }
    {
        self.gives_now().first()
    }

    // The first place at which it may ask for the fork.
    fn first_ask(&self) -> Option<u32>
        ensures { result ≡ find (can_ask self.now) (range_with_len 0 (length self.now.places)) }
    {
        self.asks_now().first()
    }

    // The first place at which it may say Done.
    fn first_done(&self) -> Option<u32>
        ensures { result ≡ find (can_say_done self.now) (range_with_len 0 (length self.now.places)) }
    {
        self.dones_now().first()
    }

    // The first place that it may close.
    fn first_close(&self) -> Option<u32>
        ensures { result ≡ find (can_close self.now) (range_with_len 0 (length self.now.places)) }
    {
        self.places.closes().first()
    }

    // The places at which the site may give the fork now.
    fn gives_now(&self) -> BitSet64
        ensures { result ≡ marks_of (may_give_at self.now) self.now.places }
    {
        let gives = self.places.gives();
        if self.phase == Phase::Eating {
            return BitSet64::empty();
        }
        gives
    }

    // The places at which it may ask for the fork now.
    fn asks_now(&self) -> BitSet64
        ensures { result ≡ marks_of (may_ask_at self.now) self.now.places }
    {
        let asks = self.places.asks();
        if self.phase != Phase::Hungry {
            return BitSet64::empty();
        }
        asks
    }

    // The places at which it may say Done now.
    fn dones_now(&self) -> BitSet64
        ensures { result ≡ marks_of (may_say_done_at self.now) self.now.places }
    {
        let dones = self.places.dones();
        if self.phase != Phase::Thinking || !self.has_nothing_due() {
            return BitSet64::empty();
        }
        dones
    }

    /// Returns the number of events other than Take that the site may do now.
    pub fn count_own(&self) -> u32
        ensures count { result
            ≡ length (filter (can_by_itself self.now) (own_kinds (range_with_len 0 (length self.now.places)))) }
        ensures few { result ≤ 2051 }
    {
        let of_phase = u32::from(self.next_phase().is_some());
        let asks = self.asks_now().len();
        let dones = self.dones_now().len();
        self.gives_now().len() + of_phase + asks + dones + self.places.closes().len()
    }

    /// Returns the `n`-th of these events in the fixed order, from 0, or `None` if there are fewer.
    pub fn own_event(&self, n: u32) -> Option<EventKind>
        ensures { result
            ≡ slice_get (filter (can_by_itself self.now) (own_kinds (range_with_len 0 (length self.now.places)))) n }
    {
        let gives = self.gives_now();
        if let Some(i) = gives.nth(n) {
            return Some(EventKind::Give(i));
        }
        let behind = n - gives.len();
        match self.next_phase() {
            Some(kind) if behind == 0 => Some(kind),
            Some(_) => self.own_word(behind - 1),
            None => self.own_word(behind),
        }
    }

    // The `n`-th Ask, Done or Close that the site may do, from 0.
    fn own_word(&self, n: u32) -> Option<EventKind>
        ensures { result
            ≡ slice_get (filter (can_by_itself self.now) (own_words (range_with_len 0 (length self.now.places)))) n }
    {
        let asks = self.asks_now();
        if let Some(i) = asks.nth(n) {
            return Some(EventKind::Ask(i));
        }
        let behind = n - asks.len();
        let dones = self.dones_now();
        if let Some(i) = dones.nth(behind) {
            return Some(EventKind::Done(i));
        }
        let i = self.places.closes().nth(behind - dones.len())?;
        Some(EventKind::Close(i))
    }
}
