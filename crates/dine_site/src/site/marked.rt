// The places of a site, with a set for each test of a place.

ghost use Rattle.std.specs.Prelude.{◌≡◌, ℕ, ◌<◌, ◌≤◌, [], ◌∷◌, ◌++◌, All, IfOk, OnErr, OnOk, is_some, true, length};
ghost use Rattle.std.specs.Prelude.{map, slice_index_or, slice_set, vec_capacity, count_by};
ghost use Rattle.std.specs.List.{list_all};
ghost use Rattle.dine_token.specs.Fork.{IsDirty, MayMove, after_move};
ghost use Rattle.dine_set.specs.Marks.{marks_of};
ghost use Rattle.dine_rules.specs.Steps.{Take};
ghost use Rattle.dine_rules.specs.Streams.{IsProper};
ghost use Rattle.dine_site.specs.Places.{no_place, neighbour_of, hand_of, place_after_take, with_fork};
ghost use Rattle.dine_site.specs.Places.{place_in_meal, places_with_forks};
ghost use Rattle.dine_site.specs.Places.{forks_of, tokens_of, is_away_at, is_dirty_at, is_ready_at, is_over_at};
ghost use Rattle.dine_site.specs.Places.{is_closed_at, can_give_at, can_ask_at, can_say_done_at, can_close_at};
ghost use Rattle.dine_site.specs.Places.{OnHere};
ghost use Rattle.dine_site.specs.private.PlaceSteps.{IsLiftable};

use super::places::{ForkSlot, Place};
use super::{Parts, meals};
use dine_rules::Letter;
use dine_set::BitSet64;
use dine_token::{Fork, Held, Token};
use std::alloc::{AllocError, Global};
use std::marker::Model;

/// The places of a site, at most 64, in edge order. Beside the list there are six sets, so that no test goes through
/// the places: those whose fork is away, those whose fork is in hand and dirty, those with the token, those without
/// Close put, those with Done put, and those with Done taken. Contracts see the list.
#[derive(Drop)]
pub(crate) struct MarkedPlaces {
    items: Vec<Place>,
    away: BitSet64,
    dirty: BitSet64,
    tokens: BitSet64,
    unclosed: BitSet64,
    done_put: BitSet64,
    done_taken: BitSet64,
}

impl Model for MarkedPlaces {
    ghost use Rattle.std.specs.Prelude.{List};
    ghost use Rattle.dine_site.specs.declared.site.places.Place.{Place};

    ghost Value = { List Place };

    ghost use Rattle.dine_site.specs.private.MarkedFields.{places_in, IsMarked};

    ghost view = { places_in };

    ghost invariant = { IsMarked };
}

#[tactic(auto, using(dine_set::proofs::shared::MarksOf::marks_laws))]
impl MarkedPlaces {
    /// Opens a list without places, with capacity for this number.
    pub(crate) fn with_capacity(alloc: Global, places: usize) -> Result<MarkedPlaces, AllocError>
        ensures { IfOk result (λ places. places ≡ []) }
    {
        Ok(MarkedPlaces {
            items: Vec::with_capacity(alloc, places)?,
            away: BitSet64::empty(),
            dirty: BitSet64::empty(),
            tokens: BitSet64::empty(),
            unclosed: BitSet64::empty(),
            done_put: BitSet64::empty(),
            done_taken: BitSet64::empty(),
        })
    }

    /// Adds a place at the end.
    pub(crate) fn push(&mut self, place: Place) -> Result<(), AllocError>
        requires { length self.old < 64 }
        ensures ok { OnOk result (self.new ≡ self.old ++ place ∷ []) }
        ensures err { OnErr result (self.new ≡ self.old) }
    {
        let i = self.items.len() as u32;
        let (is_away, is_dirty) = (!place.fork.is_held(), place.fork.is_dirty_in_hand());
        let (has_token, is_open) = (place.token.is_some(), !place.close_put);
        let (has_put_done, has_taken_done) = (place.done_put, place.done_taken);
        self.items.push(place)?;
        self.away.set(i, is_away);
        self.dirty.set(i, is_dirty);
        self.tokens.set(i, has_token);
        self.unclosed.set(i, is_open);
        self.done_put.set(i, has_put_done);
        self.done_taken.set(i, has_taken_done);
        Ok(())
    }

    /// Returns the number of places.
    pub(crate) fn len(&self) -> u32
        ensures { result ≡ length self.now }
    {
        self.items.len() as u32
    }

    /// Returns place `i`.
    pub(crate) fn at(&self, i: u32) -> &Place
        requires { i < length self.now }
        ensures { result.now ≡ slice_index_or self.now i no_place }
    {
        &self.items[i as usize]
    }

    /// Whether Close was put at every place.
    pub(crate) fn are_all_closed(&self) -> bool
        ensures { result ≡ list_all is_closed_at self.now }
    {
        self.items.iter().all(|place| place.close_put)
    }

    /// Whether Done and Close were put and taken at every place.
    pub(crate) fn are_all_over(&self) -> bool
        ensures { result ≡ list_all is_over_at self.now }
    {
        self.items.iter().all(|place| place.is_over())
    }

    /// Whether a meal may begin, as far as it depends on the places.
    pub(crate) fn are_all_ready(&self) -> bool
        ensures { result ≡ list_all is_ready_at self.now }
    {
        self.away.is_empty() && self.dirty.intersection(self.tokens).is_empty()
    }

    /// The places whose fork a site that does not eat may give, by the release rule.
    pub(crate) fn gives(&self) -> BitSet64
        ensures marks { result ≡ marks_of can_give_at self.now }
        ensures few { length self.now ≤ 64 }
    {
        self.dirty
            .intersection(self.tokens)
            .intersection(self.unclosed)
    }

    /// The places whose fork a hungry site may ask for.
    pub(crate) fn asks(&self) -> BitSet64
        ensures marks { result ≡ marks_of can_ask_at self.now }
        ensures few { length self.now ≤ 64 }
    {
        self.tokens
            .intersection(self.away)
            .intersection(self.unclosed)
    }

    /// The places at which a site with no job left may say Done.
    pub(crate) fn dones(&self) -> BitSet64
        ensures marks { result ≡ marks_of can_say_done_at self.now }
        ensures few { length self.now ≤ 64 }
    {
        self.unclosed.difference(self.done_put)
    }

    /// The places that may be closed in order.
    pub(crate) fn closes(&self) -> BitSet64
        ensures marks { result ≡ marks_of can_close_at self.now }
        ensures few { length self.now ≤ 64 }
    {
        self.done_put
            .intersection(self.done_taken)
            .intersection(self.unclosed)
    }

    /// The places whose fork is in hand and dirty.
    pub(crate) fn dirty_places(&self) -> BitSet64
        ensures { result ≡ marks_of is_dirty_at self.now }
    {
        self.dirty
    }

    /// The number of places whose fork is away.
    pub(crate) fn count_away(&self) -> u32
        ensures { result ≡ count_by is_away_at self.now }
    {
        self.away.len()
    }

    /// Removes the token of place `i` and returns it.
    pub(crate) fn remove_token(&mut self, i: u32) -> Token
        requires place { i < length self.old }
        requires token { is_some (slice_index_or self.old i no_place).token ≡ true }
        ensures token { (slice_index_or self.old i no_place).token ≡ Some result }
        ensures away { let place = slice_index_or self.old i no_place in
            self.new ≡ slice_set self.old i (record place { token = None }) }
    {
        self.tokens.remove(i);
        self.items[i as usize].token.take().unwrap()
    }

    /// Gives the fork of place `i` to the other end.
    pub(crate) fn give(&mut self, i: u32, site: u32) -> Letter
        requires place { i < length self.old }
        requires may { OnHere (MayMove (neighbour_of site (slice_index_or self.old i no_place)))
            (slice_index_or self.old i no_place).fork }
        ensures letter { OnHere
            (λ fork. result ≡ Letter.Fork (after_move (neighbour_of site (slice_index_or self.old i no_place)) fork))
            (slice_index_or self.old i no_place).fork }
        ensures away { self.new ≡ slice_set self.old i (with_fork ForkSlot.Away (slice_index_or self.old i no_place)) }
    {
        self.away.insert(i);
        self.dirty.remove(i); // A fork that is given is clean.
        self.items[i as usize].give(site)
    }

    /// Removes the fork of place `i` and returns it, if it is in hand.
    pub(crate) fn remove_fork(&mut self, i: u32) -> Option<Fork>
        requires { i < length self.old }
        ensures fork { result ≡ hand_of (slice_index_or self.old i no_place).fork }
        ensures away { self.new ≡ slice_set self.old i (with_fork ForkSlot.Away (slice_index_or self.old i no_place)) }
    {
        self.away.insert(i);
        self.dirty.remove(i);
        self.items[i as usize].remove_fork()
    }

    /// Notes at place `i` that Done was put.
    pub(crate) fn put_done(&mut self, i: u32)
        requires { i < length self.old }
        ensures { let place = slice_index_or self.old i no_place in
            self.new ≡ slice_set self.old i (record place { done_put = true }) }
    {
        self.items[i as usize].done_put = true;
        self.done_put.insert(i);
    }

    /// Notes at place `i` that Close was put.
    pub(crate) fn put_close(&mut self, i: u32)
        requires { i < length self.old }
        ensures { let place = slice_index_or self.old i no_place in
            self.new ≡ slice_set self.old i (record place { close_put = true }) }
    {
        self.items[i as usize].close_put = true;
        self.unclosed.remove(i);
    }

    /// Notes at place `i` a letter that was taken.
    pub(crate) fn note(&mut self, i: u32, letter: Letter)
        requires { i < length self.old }
        ensures noted { self.new ≡ slice_set self.old i (place_after_take letter (slice_index_or self.old i no_place)) }
        ensures proper { IsProper (Take i letter) }
    {
        let place = &mut self.items[i as usize];
        match letter {
            Letter::Fork(fork) => {
                self.away.remove(i);
                self.dirty.set(i, fork.is_dirty());
                place.fork = ForkSlot::Here(fork);
            }
            Letter::Request(token) => {
                self.tokens.insert(i);
                place.token = Some(token);
            }
            Letter::Done => {
                self.done_taken.insert(i);
                place.done_taken = true;
            }
            Letter::Close => place.close_taken = true,
        }
    }

    /// Takes the forks of all places, which are in hand, in order. Each place keeps how many meals of the other end its
    /// fork has.
    pub(crate) fn lift(&mut self, site: u32, hands: &mut Vec<Held>)
        requires here { All (IsLiftable site) self.old }
        requires none { hands.old.items ≡ [] }
        requires room { length self.old ≤ vec_capacity hands.old }
        ensures places { self.new ≡ map (place_in_meal site) self.old }
        ensures hands { hands.new.items ≡ forks_of self.old }
    {
        meals::lift(site, self.items.as_mut_slice(), hands);
        self.dirty = BitSet64::empty();
    }

    /// Puts the forks of a meal, which are dirty, back at their places, in order.
    pub(crate) fn put_back(&mut self, hands: &mut Vec<Held>)
        requires all { length hands.old.items ≡ length self.old }
        requires dirty { All IsDirty hands.old.items }
        ensures places { self.new ≡ places_with_forks self.old hands.old.items }
        ensures none { hands.new.items ≡ [] }
        ensures room { vec_capacity hands.new ≡ vec_capacity hands.old }
    {
        meals::put_back(self.items.as_mut_slice(), hands);
        self.away = BitSet64::empty();
        self.dirty = BitSet64::below(self.items.len() as u32);
    }

    /// Takes the forks in hand and the tokens of the places, in order.
    pub(crate) fn collect(self, parts: &mut Parts)
        requires no_forks { parts.old.forks.items ≡ [] }
        requires no_tokens { parts.old.tokens.items ≡ [] }
        requires room_for_forks { length self ≤ vec_capacity parts.old.forks }
        requires room_for_tokens { length self ≤ vec_capacity parts.old.tokens }
        ensures forks { parts.new.forks.items ≡ forks_of self }
        ensures tokens { parts.new.tokens.items ≡ tokens_of self }
    {
        let MarkedPlaces {
            mut items,
            away: _,
            dirty: _,
            tokens: _,
            unclosed: _,
            done_put: _,
            done_taken: _,
        } = self;
        meals::collect(items.as_mut_slice(), parts);
    }
}
