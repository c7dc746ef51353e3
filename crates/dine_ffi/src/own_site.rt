//! One site with its plan and its meal, which may be dropped.
ghost use Rattle.std.specs.Prelude.{◌≡◌, ◌<◌, ◌≤◌, ◌∷◌, [], IfOk, MatchOption, MatchResult, Some, false, is_some};
ghost use Rattle.std.specs.Prelude.{length, option_map, pos, true, if◌then◌else◌};
ghost use Rattle.dine_token.specs.Fork.{SeenFork};
ghost use Rattle.dine_graph.specs.Plan.{edges_of, site_count};
ghost use Rattle.dine_rules.specs.declared.breach.Breach.{Breach as SeenBreach};
ghost use Rattle.dine_rules.specs.Letters.{forks_in};
ghost use Rattle.dine_rules.specs.Local.{LocalState, edge_at, is_eating};
ghost use Rattle.dine_rules.specs.Steps as step;
ghost use Rattle.dine_site.specs.NextEvent.{next_of};
ghost use Rattle.dine_site.specs.Places.{IsMealOf, hand_of, has_all_said, is_held, neighbour_of, place_at};
ghost use Rattle.dine_site.specs.Standing.{ReportsBreach};
ghost use Rattle.dine_ffi.specs.Acts.{put_step};
ghost use Rattle.dine_ffi.specs.Answers.{IsDoneOr, IsRefused, Reports, breach_status, done, no_such, number_of};
ghost use Rattle.dine_ffi.specs.Events.{seen_event};
ghost use Rattle.dine_ffi.specs.OwnSites.{ActsAs, ActsOrRefuses, BeginsOrRefuses, EndsOrRefuses, ForkRefuses};
ghost use Rattle.dine_ffi.specs.OwnSites.{IsEdgeOfNone, IsNoPlace, IsOpened, PutsOrRefuses, SiteSteps, is_used};
ghost use Rattle.dine_ffi.specs.OwnSites.{SiteTakesFork, StandsFor, StepsOrRefuses, TakesOrRefuses, TurnsOrRefuses};
ghost use Rattle.dine_ffi.specs.Written.{ArePeriods};

use crate::acts::{PutKind, put, take};
use crate::event::{DineEvent, event_of, kind_of};
use crate::own_plan::OwnPlan;
use crate::periods::write_periods;
use crate::shelf::{first_shelf, put_away, refusal_of, take_back};
use crate::status::{
    DONE, EATING, FINISHED, NO_SUCH, NOT_NOW, OTHER_EDGE, SMALL, WAITS, breach_status, number,
    phase_number, wire_status,
};
use dine_rules::{Breach, EventKind, Letter};
use dine_site::SiteCore;
use dine_site::site::{ForkSlot, fresh_forks, fresh_tokens};
use dine_token::{Fork, Meal, Token};
use dine_wire::{ForkNote, LETTER_MAX, Report, note_of, put_letter, read_letter};
use std::alloc::{AllocError, Global};
use std::marker::Model;
use std::mem;

/// How far a site is.
#[repr(C)]
#[derive(Clone, Copy)]
pub struct DineSiteState {
    /// 0 thinking, 1 hungry, 2 eating.
    pub phase: u32,
    /// How many meals it began.
    pub ate: u32,
    /// How many places it has.
    pub degree: u32,
    /// 1 if it has done all, and put and taken all letters; else 0.
    pub finished: u32,
}

/// What a site has at a place.
#[repr(C)]
#[derive(Clone, Copy)]
pub struct DinePlace {
    /// The number of the edge.
    pub edge: u32,
    /// The site at its other end.
    pub neighbour: u32,
    /// 1 if the fork is here, else 0.
    pub has_fork: u32,
    /// 1 if the token is here, else 0.
    pub has_token: u32,
    /// 1 if the fork is here and dirty: in the meal, or eaten with since it came. Else 0.
    pub is_dirty: u32,
    /// 1 if Close was taken there, else 0.
    pub is_closed: u32,
}

/// A site, its plan, the number of its run, its meal if it eats, and the forks that it gave away, as they were then.
pub struct OwnSite {
    plan: OwnPlan,
    run: u64,
    core: SiteCore,
    meal: Option<Meal>,
    shelf: Vec<Option<Fork>>,
}

impl Model for OwnSite {
    ghost use Rattle.dine_ffi.specs.OwnSites.{SeenOwnSite};

    ghost Value = { SeenOwnSite };

    ghost use Rattle.dine_ffi.specs.private.OwnSiteFields.{seen_own_site, HasOwnMeal};

    ghost view = { seen_own_site };

    ghost invariant = { HasOwnMeal };
}

impl Drop for OwnSite {
    fn drop(self) {
        let OwnSite {
            plan: _,
            run: _,
            core,
            meal,
            shelf: _,
        } = self;
        let core = at_rest(core, meal);
        let _ = core.into_parts();
    }
}

// What is returned of a letter: that it was taken, or why it was not.
fn status_of(taken: Result<(), (Letter, i64)>) -> i64
    ensures { MatchResult taken (λ _. result ≡ done) (λ e. result ≡ e.1) }
{
    match taken {
        Ok(()) => DONE,
        Err((_, status)) => status,
    }
}

// The place, if a letter was taken there; else why it was not.
fn at_place(i: u32, taken: i64) -> i64
    ensures done { taken ≡ pos 0 → result ≡ pos i }
    ensures refused { (taken ≡ pos 0 → ⊥) → result ≡ taken }
{
    if taken == DONE { i64::from(i) } else { taken }
}

// The core after its meal, if it eats.
fn at_rest(core: SiteCore, meal: Option<Meal>) -> SiteCore
    requires { MatchOption meal (is_eating core.phase ≡ false)
        (λ m. (is_eating core.phase ≡ true) × IsMealOf core m) }
    ensures { is_eating result.phase ≡ false }
{
    let mut core = core;
    match meal {
        Some(meal) => {
            core.end(meal, false);
            core
        }
        None => core,
    }
}

impl OwnSite {
    /// Opens the site of the plan in the run, before its first event.
    pub(crate) fn open(
        alloc: Global,
        plan: OwnPlan,
        run: u64,
        site: u32,
    ) -> Result<OwnSite, AllocError>
        requires { site < site_count plan }
        ensures { IfOk result (IsOpened plan run site) }
    {
        let shelf = first_shelf(alloc, plan.plan(), site)?;
        let forks = fresh_forks(alloc, plan.plan(), site)?;
        let tokens = fresh_tokens(alloc, plan.plan(), site)?;
        let core = SiteCore::open(alloc, plan.plan(), site, forks, tokens)?;
        Ok(OwnSite {
            plan,
            run,
            core,
            meal: None,
            shelf,
        })
    }

    /// Writes the first event that the site may do without a letter. Returns 1, or 0 if there is none.
    pub(crate) fn next(&self, out: &mut DineEvent) -> i64
        ensures event { MatchOption (next_of self.now.core) ((result ≡ pos 0) × (out.new ≡ out.old))
            (λ kind. (result ≡ pos 1) × (out.new ≡ seen_event self.now.core.site kind)) }
        ensures unwritten { IsDoneOr result Unit (out.new ≡ out.old) }
    {
        match self.core.next_event() {
            Some(kind) => {
                *out = event_of(self.core.site(), kind);
                1
            }
            None => 0,
        }
    }

    /// Grows hungry.
    pub(crate) fn hungry(&mut self) -> i64
        ensures { StepsOrRefuses step.Hungry result self.old self.new }
    {
        if self.meal.is_some() {
            return EATING;
        }
        if !self.core.may_hungry() {
            return NOT_NOW;
        }
        self.core.hungry();
        DONE
    }

    /// Drops the jobs that are left.
    pub(crate) fn quit(&mut self) -> i64
        ensures { StepsOrRefuses step.Quit result self.old self.new }
    {
        if self.meal.is_some() {
            return EATING;
        }
        if !self.core.may_quit() {
            return NOT_NOW;
        }
        self.core.quit();
        DONE
    }

    /// Puts a letter at place `i`, and writes its bytes. Returns how many there are.
    pub(crate) fn put(&mut self, what: PutKind, i: u32, out: &mut [u8]) -> i64
        ensures puts { PutsOrRefuses i (put_step what i) out.old out.new result self.old self.new }
        ensures unwritten { IsDoneOr result Unit (out.new ≡ out.old) }
    {
        if self.meal.is_some() {
            return EATING;
        }
        if out.len() < LETTER_MAX {
            return SMALL;
        }
        let Some(edge) = self.edge(i) else {
            return NO_SUCH;
        };
        if self.shelf.len() <= i as usize {
            return NO_SUCH;
        }
        let run = self.run();
        match put(&mut self.core, what, i) {
            Some(letter) => {
                let len = put_letter(run, note_of(&letter, edge), out);
                put_away(&mut self.shelf, i, letter);
                len as i64
            }
            None => NOT_NOW,
        }
    }

    /// Begins a meal.
    pub(crate) fn begin(&mut self) -> i64
        ensures { BeginsOrRefuses result self.old self.new }
    {
        if self.meal.is_some() {
            return EATING;
        }
        if !self.core.may_begin() {
            return NOT_NOW;
        }
        let meal = self.core.begin();
        if let Some(_) = mem::replace(&mut self.meal, Some(meal)) {
            unreachable!();
        }
        DONE
    }

    /// Ends the meal. `failed` says whether its job failed.
    pub(crate) fn end(&mut self, failed: bool) -> i64
        ensures { EndsOrRefuses failed result self.old self.new }
    {
        match self.meal.take() {
            Some(meal) => {
                self.core.end(meal, failed);
                DONE
            }
            None => NOT_NOW,
        }
    }

    /// Does the event, if it is one of this site and no Take. Writes the letter that it puts, and returns the number of
    /// its bytes, or 0 if it puts none.
    pub(crate) fn act(&mut self, event: DineEvent, out: &mut [u8]) -> i64
        ensures acts { ActsOrRefuses event out.old out.new result self.old self.new }
        ensures unwritten { IsDoneOr result Unit (out.new ≡ out.old) }
    {
        if event.site != self.core.site() {
            return NO_SUCH;
        }
        match kind_of(event.kind, event.place) {
            Some(EventKind::Hungry) => self.hungry(),
            Some(EventKind::Begin) => self.begin(),
            Some(EventKind::End) => self.end(false),
            Some(EventKind::Quit) => self.quit(),
            Some(EventKind::Give(i)) => self.put(PutKind::Give, i, out),
            Some(EventKind::Ask(i)) => self.put(PutKind::Ask, i, out),
            Some(EventKind::Done(i)) => self.put(PutKind::Done, i, out),
            Some(EventKind::Close(i)) => self.put(PutKind::Close, i, out),
            Some(EventKind::Take(_)) | None => NO_SUCH,
        }
    }

    /// Does the first event that the site may do by itself, and writes it. Writes the letter that it puts, and returns
    /// the number of its bytes, or 0 if it puts none. To end a meal is left to the caller.
    pub(crate) fn turn(&mut self, event: &mut DineEvent, out: &mut [u8]) -> i64
        ensures turns { TurnsOrRefuses event.old event.new out.old out.new result self.old self.new }
        ensures unwritten { IsDoneOr result Unit ((event.new ≡ event.old) × (out.new ≡ out.old)) }
    {
        if self.meal.is_some() {
            return EATING;
        }
        match self.core.next_event() {
            Some(kind) => self.turn_to(kind, event, out),
            None if self.core.is_finished() => FINISHED,
            None => WAITS,
        }
    }

    // Does the event of this kind, and writes it.
    fn turn_to(&mut self, kind: EventKind, event: &mut DineEvent, out: &mut [u8]) -> i64
        ensures acts { ActsAs (Some kind) out.old out.new result self.old self.new }
        ensures event { IsDoneOr result (event.new ≡ seen_event self.old.core.site kind) (event.new ≡ event.old) }
        ensures unwritten { IsDoneOr result Unit (out.new ≡ out.old) }
    {
        let next = event_of(self.core.site(), kind);
        let answer = self.act(next, out);
        if 0 <= answer {
            *event = next;
        }
        answer
    }

    /// Takes the letter whose bytes these are, and returns the place at which it arrived. One of another run is refused
    /// before anything else.
    pub(crate) fn take(&mut self, alloc: Global, bytes: &[u8]) -> i64
        ensures { TakesOrRefuses bytes.now result self.old self.new }
    {
        let note = match read_letter(self.run(), bytes) {
            Ok(note) => note,
            Err(fault) => return wire_status(fault),
        };
        let Some(i) = self.place(note.edge) else {
            return OTHER_EDGE;
        };
        match note.report {
            Report::Fork(fork) => at_place(i, self.take_fork(alloc, i, fork)),
            Report::Request => {
                at_place(
                    i,
                    self.take_word(i, Letter::Request(Token::open(note.edge))),
                )
            }
            Report::Done => at_place(i, self.take_word(i, Letter::Done)),
            Report::Close => at_place(i, self.take_word(i, Letter::Close)),
        }
    }

    // The number of the run.
    fn run(&self) -> u64
        ensures { result ≡ self.now.run }
    {
        self.run
    }

    // Takes a letter other than a Fork.
    fn take_word(&mut self, i: u32, letter: Letter) -> i64
        requires { forks_in (letter ∷ []) ≡ 0 }
        ensures done { result ≡ pos 0 → SiteSteps (step.Take i letter) self.old self.new }
        ensures refused { (result ≡ pos 0 → ⊥) → self.new ≡ self.old }
        ensures negative { (result ≡ pos 0 → ⊥) → IsRefused result }
        ensures why { (result ≡ pos 0 → ⊥) → i < length self.old.core.places
            → (b : SeenBreach) × ReportsBreach self.old.core i letter (Some b) × (result ≡ breach_status b) }
    {
        status_of(take(&mut self.core, i, letter))
    }

    // Takes the fork that arrives at place `i` with this note. If the site represents a state, a fork that arrives is
    // taken: what the rules ask of it was checked before, or holds since it goes on from the fork that was kept.
    fn take_fork(&mut self, alloc: Global, i: u32, note: ForkNote) -> i64
        ensures done { result ≡ pos 0 → (fork : SeenFork) × SiteTakesFork i note fork self.old self.new }
        ensures refused { (result ≡ pos 0 → ⊥)
            → (state : LocalState) → StandsFor state self.old → self.new ≡ self.old }
        ensures negative { (result ≡ pos 0 → ⊥) → IsRefused result }
        ensures why { (result ≡ pos 0 → ⊥) → (state : LocalState) → StandsFor state self.old
            → i < length self.old.core.places → ForkRefuses i note result state self.old }
    {
        if let Some(status) = refusal_of(self.plan.plan(), &self.core, i, note) {
            return status;
        }
        // A site that eats has all its forks.
        if self.meal.is_some() {
            return breach_status(Breach::ForkOutOfTurn);
        }
        let fork = match take_back(alloc, self.plan.plan(), &mut self.shelf, i, note) {
            Ok(fork) => fork,
            Err(status) => return status,
        };
        match take(&mut self.core, i, Letter::Fork(fork)) {
            Ok(()) => DONE,
            Err((letter, status)) => {
                put_away(&mut self.shelf, i, letter);
                status
            }
        }
    }

    // The edge of the place.
    pub(crate) fn edge(&self, i: u32) -> Option<u32>
        ensures { MatchOption result
            (self.now.core.site < site_count self.now.plan → length (edges_of self.now.plan self.now.core.site) ≤ i)
            (λ edge. edge ≡ edge_at self.now.plan self.now.core.site i) }
    {
        let (plan, site) = (self.plan.plan(), self.core.site());
        if plan.sites() <= site {
            return None;
        }
        Some(*plan.edges_of(site).get(i as usize)?)
    }

    // The place of the edge.
    fn place(&self, edge: u32) -> Option<u32>
        ensures { MatchOption result (IsEdgeOfNone edge self.now)
            (λ i. (edge_at self.now.plan self.now.core.site i ≡ edge)
            × (i < length (edges_of self.now.plan self.now.core.site))) }
    {
        let (plan, site) = (self.plan.plan(), self.core.site());
        if plan.sites() <= site {
            return None;
        }
        let edges = plan.edges_of(site);
        for i in 0..edges.len() {
            if edges[i] == edge {
                return u32::try_from(i).ok();
            }
        }
        None
    }

    /// Writes how far the site is.
    pub(crate) fn state(&self, out: &mut DineSiteState) -> i64
        ensures state { (result ≡ done) × (out.new ≡ record {
          phase = number_of self.now.core.phase;
          ate = self.now.core.ate;
          degree = length self.now.core.places;
          finished = if has_all_said self.now.core then 1 else 0;
        }) }
        ensures unwritten { IsDoneOr result Unit (out.new ≡ out.old) }
    {
        *out = DineSiteState {
            phase: phase_number(self.core.phase()),
            ate: self.core.ate(),
            degree: self.core.degree(),
            finished: u32::from(self.core.is_finished()),
        };
        DONE
    }

    /// Writes what the site has at place `i`.
    pub(crate) fn place_state(&self, i: u32, out: &mut DinePlace) -> i64
        ensures place { IsDoneOr result ((i < length self.now.core.places) × (out.new ≡ record {
          edge = edge_at self.now.plan self.now.core.site i;
          neighbour = neighbour_of self.now.core.site (place_at self.now.core i);
          has_fork = if is_held (place_at self.now.core i).fork then 1 else 0;
          has_token = if is_some (place_at self.now.core i).token then 1 else 0;
          is_dirty = if is_used (place_at self.now.core i).fork then 1 else 0;
          is_closed = if (place_at self.now.core i).close_taken then 1 else 0;
        })) ((result ≡ no_such) × (out.new ≡ out.old) × IsNoPlace i self.now) }
        ensures unwritten { IsDoneOr result Unit (out.new ≡ out.old) }
    {
        if self.core.degree() <= i {
            return NO_SUCH;
        }
        let Some(edge) = self.edge(i) else {
            return NO_SUCH;
        };
        *out = DinePlace {
            edge,
            neighbour: self.core.neighbour(i),
            has_fork: u32::from(self.core.has_fork(i)),
            has_token: u32::from(self.core.has_token(i)),
            is_dirty: u32::from(is_used(self.core.slot(i))),
            is_closed: u32::from(self.core.has_taken_close(i)),
        };
        DONE
    }

    /// Writes the periods of the log of the fork in hand at the place, and returns how many there are.
    pub(crate) fn periods(&self, i: u32, out: &mut [u32]) -> i64
        ensures periods { MatchOption (hand_of (place_at self.now.core i).fork)
            ((result ≡ no_such) × (out.new ≡ out.old))
            (λ fork. ArePeriods fork out.old out.new result) }
        ensures unwritten { IsDoneOr result Unit (out.new ≡ out.old) }
    {
        match fork_at(&self.core, i) {
            Some(fork) => write_periods(fork, out),
            None => NO_SUCH,
        }
    }

    /// Returns the value of the fork in hand at the place.
    pub(crate) fn value(&self, i: u32) -> i64
        ensures { MatchOption (hand_of (place_at self.now.core i).fork) (result ≡ no_such)
            (λ fork. Reports result fork.value) }
    {
        match fork_at(&self.core, i) {
            Some(fork) => number(fork.value()),
            None => NO_SUCH,
        }
    }
}

// Whether the fork is here and dirty. In a meal it is.
fn is_used(slot: &ForkSlot) -> bool
    ensures { result ≡ is_used slot.now }
{
    match slot {
        ForkSlot::Here(fork) => fork.is_dirty(),
        ForkSlot::InMeal(_) => true,
        ForkSlot::Away => false,
    }
}

// The fork in hand at the place.
fn fork_at(core: &SiteCore, i: u32) -> Option<&Fork>
    ensures { option_map (λ fork. fork.now) result ≡ hand_of (place_at core.now i).fork }
{
    if core.degree() <= i {
        return None;
    }
    match core.slot(i) {
        ForkSlot::Here(fork) => Some(fork),
        ForkSlot::Away | ForkSlot::InMeal(_) => None,
    }
}
