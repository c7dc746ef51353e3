//! One site: its state, the tests and the steps of the rules.

ghost use Rattle.std.specs.Prelude.{◌≡◌, ◌≢◌, ℕ, ◌<◌, ◌==◌, Bool, Some, None, is_some, true, false, length, map};
ghost use Rattle.std.specs.Prelude.{count_by, IfOk, MatchOption, MatchResult};
ghost use Rattle.std.specs.List.{list_all};
ghost use Rattle.dine_token.specs.Fork.{after_meal, after_move};
ghost use Rattle.dine_set.specs.Marks.{marks_of};
ghost use Rattle.dine_graph.specs.Plan.{SeenPlan, site_count, edges_of};
ghost use Rattle.dine_rules.specs.Breach.{first_breach};
ghost use Rattle.dine_rules.specs.Letters.{has_close};
ghost use Rattle.dine_rules.specs.Streams.{IsProper};
ghost use Rattle.dine_rules.specs.Local.{LocalState, start_of, traffic_at, is_eating};
ghost use Rattle.dine_rules.specs.Holdings.{fork_at, token_at};
ghost use Rattle.dine_rules.specs.Steps as step;
ghost use Rattle.dine_rules.specs.Steps.{after};
ghost use Rattle.dine_site.specs.Core.{SeenCore, Refines, forks_in_hand, fresh_forks, fresh_tokens};
ghost use Rattle.dine_site.specs.Places.{place_at, hand_of, is_held, is_away_at, is_dirty_at, can_give, can_ask};
ghost use Rattle.dine_site.specs.Places.{can_hunger, can_put_off, can_quit, can_begin, next_act, can_say_done};
ghost use Rattle.dine_site.specs.Places.{can_close, drops_jobs, is_ready_at, is_over_at, is_closed_at, OnHere};
ghost use Rattle.dine_site.specs.Places.{has_all_said, has_nothing_due, has_all_closed, breach_at, after_hungry};
ghost use Rattle.dine_site.specs.Places.{after_ask, after_give, after_begin, after_end, after_quit, after_done};
ghost use Rattle.dine_site.specs.Places.{after_close, after_take, forks_of};
ghost use Rattle.dine_site.specs.Places.{tokens_of, neighbour_of, IsMealOf};
ghost use Rattle.dine_site.specs.LinkNumbers.{link_to, link_from};
ghost use Rattle.dine_site.specs.Standing.{ForEachState, IsFreshFor, ReportsMay, CoreStep, CoreSteps, CorePuts};
ghost use Rattle.dine_site.specs.Standing.{ReportsBreach, AreForksInHand, AreTokensInHand, all_places};
ghost use Rattle.dine_site.specs.Standing.{has_finished, has_closed};
ghost use Rattle.dine_site.specs.CoreWants.{can_put_off_by_lists, wants_by_lists};
ghost use Rattle.dine_site.specs.DoneAndClose.{said_at};

mod done_and_close;
mod hands;
mod marked;
mod meals;
mod next;
mod opening;
mod packed;
pub(crate) mod places;

use dine_graph::Plan;
pub use dine_rules::{Breach, Letter, LetterKind, Phase};
use dine_set::BitSet64;
use dine_token::{Act, Fork, Held, Meal, Token};
pub use done_and_close::DoneAndClose;
pub use hands::Hands;
use marked::MarkedPlaces;
pub use opening::{fresh_forks, fresh_tokens};
pub use packed::Packed;
pub use places::ForkSlot;
use std::alloc::{AllocError, Global};
use std::marker::Model;
use std::mem;

/// A site: its phase, the number of its meals, and for each of its edges the fork, the token and which of Done and
/// Close were put and taken. It does one local step at a time, and each step puts or takes at most one letter. It
/// cannot be dropped: it ends by [`SiteCore::into_parts`] or [`SiteCore::into_hands`].
///
/// The rules are those of Chandy and Misra's hygienic solution (ACM TOPLAS 6(4), 1984).
pub struct SiteCore {
    site: u32,
    due: u32,
    // What each meal does to the values of the forks, from the first meal on.
    acts: Vec<Act>,
    resigns: bool,
    phase: Phase,
    ate: u32,
    // The last meal failed, the site resigns, and it has meals left.
    must_quit: bool,
    has_quit: bool,
    places: MarkedPlaces,
    alloc: Global,
    // Empty. It goes to a meal with the forks, and comes back.
    hands: Vec<Held>,
    // Empty, with capacity for the forks and the tokens of all places.
    parts: Parts,
}

/// The forks and the tokens that a site holds, in edge order.
#[derive(Drop)]
pub struct Parts {
    pub forks: Vec<Fork>,
    pub tokens: Vec<Token>,
}

impl Model for SiteCore {
    ghost use Rattle.dine_site.specs.Core.{SeenCore};

    ghost Value = { SeenCore };

    ghost use Rattle.dine_site.specs.private.SiteFields.{seen_core, IsKept};

    ghost view = { seen_core };

    ghost invariant = { IsKept };
}

impl SiteCore {
    /// Opens the site with number `site` of the plan, before its first step: it thinks. All memory that it needs is
    /// allocated here.
    ///
    /// `forks` are newly opened forks, of the edges whose lower end the site is. `tokens` are newly opened tokens, of
    /// the edges whose higher end it is. Both are in edge order.
    ///
    /// # Errors
    ///
    /// `AllocError` if an allocation fails. The forks and tokens are dropped then.
    pub fn open(
        alloc: Global,
        plan: &Plan,
        site: u32,
        forks: Vec<Fork>,
        tokens: Vec<Token>,
    ) -> Result<SiteCore, AllocError>
        requires site { site < site_count plan.now }
        requires forks { forks.items ≡ fresh_forks plan.now site (edges_of plan.now site) }
        requires tokens { tokens.items ≡ fresh_tokens plan.now site (edges_of plan.now site) }
        ensures site { IfOk result (λ core. core.site ≡ site) }
        ensures start { IfOk result (λ core. Refines plan.now (start_of plan.now site) core) }
        ensures fresh { IfOk result (IsFreshFor plan.now) }
    {
        let places = opening::places_of(alloc, plan, site, forks, tokens)?;
        let acts = opening::acts_of(alloc, plan, site)?;
        let (hands, parts) = opening::lists_for(alloc, places.len())?;
        Ok(SiteCore {
            site,
            due: plan.jobs(site),
            acts,
            resigns: plan.resigns(site),
            phase: Phase::Thinking,
            ate: 0,
            must_quit: false,
            has_quit: false,
            places,
            alloc,
            hands,
            parts,
        })
    }

    /// Returns the number of the site.
    pub fn site(&self) -> u32
        ensures { result ≡ self.now.site }
    {
        self.site
    }

    /// Returns the number of edges of the site. Its places are the numbers below it.
    pub fn degree(&self) -> u32
        ensures { result ≡ length self.now.places }
    {
        self.places.len()
    }

    /// Returns the phase of the site.
    pub fn phase(&self) -> Phase
        ensures { result ≡ self.now.phase }
    {
        self.phase
    }

    /// Returns the number of meals that the site began.
    pub fn ate(&self) -> u32
        ensures { result ≡ self.now.ate }
    {
        self.ate
    }

    /// Returns whether the site has the fork of place `i`, in hand or in its meal.
    pub fn has_fork(&self, i: u32) -> bool
        requires { i < length self.now.places }
        ensures fork { result ≡ is_held (place_at self.now i).fork }
        ensures by_lists { ForEachState self.now (λ plan state. result ≡ (fork_at plan self.now.site state i == 1)) }
    {
        self.places.at(i).fork.is_held()
    }

    /// Returns whether the site has the token of place `i`.
    pub fn has_token(&self, i: u32) -> bool
        requires { i < length self.now.places }
        ensures token { result ≡ is_some (place_at self.now i).token }
        ensures by_lists { ForEachState self.now (λ plan state. result ≡ (token_at plan self.now.site state i == 1)) }
    {
        self.places.at(i).token.is_some()
    }

    /// Returns whether Close was taken at place `i`.
    pub fn has_taken_close(&self, i: u32) -> bool
        requires { i < length self.now.places }
        ensures close { result ≡ (place_at self.now i).close_taken }
        ensures by_lists { ForEachState self.now (λ plan state. result ≡ has_close (traffic_at state i).taken) }
    {
        self.places.at(i).close_taken
    }

    /// Returns which of Done and Close the site has put and taken at place `i`.
    pub fn said(&self, i: u32) -> DoneAndClose
        requires { i < length self.now.places }
        ensures { result ≡ said_at (place_at self.now i) }
    {
        let place = self.places.at(i);
        DoneAndClose {
            done_put: place.done_put,
            done_taken: place.done_taken,
            close_put: place.close_put,
            close_taken: place.close_taken,
        }
    }

    /// Returns whether Close was put at every place.
    pub fn is_closed(&self) -> bool
        ensures closed { result ≡ has_all_closed self.now }
        ensures by_lists { ForEachState self.now (λ plan state. result ≡ has_closed state) }
    {
        self.places.are_all_closed()
    }

    // Whether no meal is due to the site any more: it ate all its meals, or it has quit.
    fn has_nothing_due(&self) -> bool
        ensures { result ≡ has_nothing_due self.now }
    {
        self.ate == self.due || self.has_quit
    }

    // Whether the site drops the meals that it has left, after a meal that failed or did not.
    fn drops_jobs(&self, failed: bool) -> bool
        ensures { result ≡ drops_jobs failed self.now }
    {
        failed && self.resigns && self.ate < self.due
    }

    /// Returns whether the site is done: it thinks, it ate all its meals or has quit, and Done and Close were put and
    /// taken at every place.
    pub fn is_finished(&self) -> bool
        ensures finished { result ≡ has_all_said self.now }
        ensures by_lists { ForEachState self.now (λ plan state. result ≡ has_finished plan self.now.site state) }
    {
        self.phase == Phase::Thinking && self.has_nothing_due() && self.places.are_all_over()
    }

    /// Returns the places whose fork is in hand and dirty. At these the site may give the fork once it has taken a
    /// Request.
    pub fn dirty_places(&self) -> BitSet64
        ensures marks { result ≡ marks_of is_dirty_at self.now.places }
        ensures by_lists { ForEachState self.now
            (λ plan state. result ≡ (wants_by_lists plan self.now.site state).requests) }
    {
        self.places.dirty_places()
    }

    /// Returns the number of forks that the site does not hold.
    pub fn missing_forks(&self) -> u32
        ensures count { result ≡ count_by is_away_at self.now.places }
        ensures by_lists { ForEachState self.now
            (λ plan state. result ≡ (wants_by_lists plan self.now.site state).forks) }
    {
        self.places.count_away()
    }

    /// Returns whether the letter that comes next at place `i` can be put off until the next meal: the fork there is in
    /// hand and clean, and the rules allow neither Done nor Close. So it is a Request, if they allow it.
    pub fn may_put_off(&self, i: u32) -> bool
        requires { i < length self.now.places }
        ensures test { result ≡ can_put_off self.now i }
        ensures by_lists { ForEachState self.now
            (λ plan state. result ≡ can_put_off_by_lists plan self.now.site state i) }
    {
        self.places.at(i).may_put_off(self.site, self.ate)
    }

    /// Returns the number of the link of the world that leads to the site at place `i`.
    pub fn link_to(&self, i: u32) -> usize
        requires { i < length self.now.places }
        ensures { result ≡ link_to self.now.site (place_at self.now i) }
    {
        let place = self.places.at(i);
        2 * (place.edge as usize) + usize::from(place.ends.0 == self.site)
    }

    /// Returns the number of the link of the world that leads away from the site at place `i`.
    pub fn link_from(&self, i: u32) -> usize
        requires { i < length self.now.places }
        ensures { result ≡ link_from self.now.site (place_at self.now i) }
    {
        let place = self.places.at(i);
        2 * (place.edge as usize) + usize::from(place.ends.0 != self.site)
    }

    /// Returns the site at the other end of place `i`.
    pub fn neighbour(&self, i: u32) -> u32
        requires { i < length self.now.places }
        ensures { result ≡ neighbour_of self.now.site (place_at self.now i) }
    {
        self.places.at(i).neighbour(self.site)
    }

    /// Returns where the fork of place `i` is.
    pub fn slot(&self, i: u32) -> &ForkSlot
        requires { i < length self.now.places }
        ensures { result.now ≡ (place_at self.now i).fork }
    {
        &self.places.at(i).fork
    }

    // Removes the fork of place `i`, by no step of the rules. None if it is not in hand. Only `Hands` calls it.
    fn remove_fork(&mut self, i: u32) -> Option<Fork>
        requires place { i < length self.old.places }
        requires not_eating { is_eating self.old.phase ≡ false }
        ensures fork { result ≡ hand_of (place_at self.old i).fork }
        ensures away { self.new ≡ after_give i self.old }
    {
        self.places.remove_fork(i)
    }

    /// Returns whether the site may quit: it thinks, and it has to quit.
    pub fn may_quit(&self) -> bool
        ensures needs { result ≡ can_quit self.now }
        ensures may { ReportsMay self.now step.Quit result }
    {
        self.phase == Phase::Thinking && self.must_quit
    }

    /// Returns whether the site may grow hungry: it thinks, it has meals left, it does not have to quit, and it has not
    /// quit.
    pub fn may_hungry(&self) -> bool
        ensures needs { result ≡ can_hunger self.now }
        ensures may { ReportsMay self.now step.Hungry result }
    {
        self.phase == Phase::Thinking && self.ate < self.due && !self.must_quit && !self.has_quit
    }

    /// Returns whether the site may ask for the fork of place `i`, by the request rule.
    pub fn may_ask(&self, i: u32) -> bool
        requires { i < length self.now.places }
        ensures needs { result ≡ can_ask self.now i }
        ensures may { ReportsMay self.now (step.Ask i) result }
    {
        self.phase == Phase::Hungry && self.places.at(i).may_ask()
    }

    /// Returns whether the site may send the fork of place `i`, by the release rule.
    pub fn may_give(&self, i: u32) -> bool
        requires { i < length self.now.places }
        ensures needs { result ≡ can_give self.now i }
        ensures may { ReportsMay self.now (step.Give i) result }
    {
        self.phase != Phase::Eating && self.places.at(i).may_give()
    }

    /// Returns whether a meal may begin: the site is hungry and has all its forks, each of them clean or not asked for.
    pub fn may_begin(&self) -> bool
        ensures needs { result ≡ can_begin self.now }
        ensures may { ReportsMay self.now step.Begin result }
    {
        self.phase == Phase::Hungry && self.places.are_all_ready()
    }

    /// Returns whether a meal may end: the site eats.
    pub fn may_end(&self) -> bool
        ensures needs { result ≡ is_eating self.now.phase }
        ensures may { (failed : Bool) → ReportsMay self.now (step.End failed) result }
    {
        self.phase == Phase::Eating
    }

    /// Returns whether the site may say Done at place `i`.
    pub fn may_done(&self, i: u32) -> bool
        requires { i < length self.now.places }
        ensures needs { result ≡ can_say_done self.now i }
        ensures may { ReportsMay self.now (step.Done i) result }
    {
        let place = self.places.at(i);
        self.phase == Phase::Thinking
            && self.has_nothing_due()
            && !place.done_put
            && !place.close_put
    }

    /// Returns whether the site may close place `i` in order: both ends have said Done.
    pub fn may_close(&self, i: u32) -> bool
        requires { i < length self.now.places }
        ensures needs { result ≡ can_close self.now i }
        ensures may { ReportsMay self.now (step.Close i) result }
    {
        let place = self.places.at(i);
        place.done_put && place.done_taken && !place.close_put
    }

    /// Quits: the site drops the meals that it has left.
    pub fn quit(&mut self)
        requires { can_quit self.old ≡ true }
        ensures quit { self.new ≡ after_quit self.old }
        ensures step { CoreSteps step.Quit self.old self.new }
    {
        self.must_quit = false;
        self.has_quit = true;
    }

    /// Grows hungry.
    pub fn hungry(&mut self)
        requires { can_hunger self.old ≡ true }
        ensures hungry { self.new ≡ after_hungry self.old }
        ensures step { CoreSteps step.Hungry self.old self.new }
    {
        self.phase = Phase::Hungry;
    }

    /// Asks for the fork of place `i`, and returns the letter, which has the token.
    pub fn ask(&mut self, i: u32) -> Letter
        requires place { i < length self.old.places }
        requires may { can_ask self.old i ≡ true }
        ensures core { self.new ≡ after_ask i self.old }
        ensures letter { result ≡ Letter.Request (place_at self.old i).edge }
        ensures step { CorePuts i (step.Ask i) self.old self.new result }
    {
        Letter::Request(self.places.remove_token(i))
    }

    /// Gives the fork of place `i`, clean, and returns the letter. The token stays.
    pub fn give(&mut self, i: u32) -> Letter
        requires place { i < length self.old.places }
        requires may { can_give self.old i ≡ true }
        ensures core { self.new ≡ after_give i self.old }
        ensures letter { OnHere
            (λ fork. result ≡ Letter.Fork (after_move (neighbour_of self.old.site (place_at self.old i)) fork))
            (place_at self.old i).fork }
        ensures step { CorePuts i (step.Give i) self.old self.new result }
    {
        let site = self.site;
        self.places.give(i, site)
    }

    /// Begins a meal with all forks. The meal is written into the log of each fork, and the act of its job changes the
    /// value of each.
    pub fn begin(&mut self) -> Meal
        requires { can_begin self.old ≡ true }
        ensures core { self.new ≡ after_begin self.old }
        ensures meal { IsMealOf self.new result }
        ensures forks { result.forks
            ≡ map (after_meal self.new.site self.new.ate (next_act self.old)) (forks_of self.old.places) }
        ensures step { CoreSteps step.Begin self.old self.new }
        ensures in_hand { ForEachState self.old
            (λ plan state. result.forks
            ≡ forks_in_hand plan self.old.site (after plan self.old.site state step.Begin) (all_places state)) }
    {
        let act = self.acts[self.ate as usize];
        self.phase = Phase::Eating;
        self.ate += 1;
        let mut hands = mem::replace(&mut self.hands, Vec::new(self.alloc));
        self.places.lift(self.site, &mut hands);
        Meal::begin(self.site, self.ate, act, hands)
    }

    /// Ends the meal that [`SiteCore::begin`] returned. `failed` says whether its job failed. The forks are back in
    /// hand. If the meal failed, and the site resigns and has meals left, it has to quit.
    pub fn end(&mut self, meal: Meal, failed: bool)
        requires eating { is_eating self.old.phase ≡ true }
        requires meal { IsMealOf self.old meal }
        ensures core { self.new ≡ after_end failed meal.forks self.old }
        ensures step { ForEachState self.old
            (λ plan state. meal.forks ≡ forks_in_hand plan self.old.site state (all_places state)
            → CoreStep plan state (step.End failed) self.old self.new) }
    {
        let must_quit = self.drops_jobs(failed);
        let mut hands = meal.end();
        self.places.put_back(&mut hands);
        self.phase = Phase::Thinking;
        self.must_quit = must_quit;
        mem::replace(&mut self.hands, hands).destroy_empty();
    }

    /// Says Done at place `i`, that the site will ask no more, and returns the letter.
    pub fn done(&mut self, i: u32) -> Letter
        requires place { i < length self.old.places }
        requires may { can_say_done self.old i ≡ true }
        ensures core { self.new ≡ after_done i self.old }
        ensures letter { result ≡ Letter.Done }
        ensures step { CorePuts i (step.Done i) self.old self.new result }
    {
        self.places.put_done(i);
        Letter::Done
    }

    /// Closes place `i`, where the site will send nothing more, and returns the letter.
    pub fn close(&mut self, i: u32) -> Letter
        requires place { i < length self.old.places }
        requires may { can_close self.old i ≡ true }
        ensures core { self.new ≡ after_close i self.old }
        ensures letter { result ≡ Letter.Close }
        ensures step { CorePuts i (step.Close i) self.old self.new result }
    {
        self.places.put_close(i);
        Letter::Close
    }

    /// Closes place `i` out of order, to give the link up, and returns the letter. Returns `None` if Close was put
    /// there before, and then nothing changes.
    pub fn break_off(&mut self, i: u32) -> Option<Letter>
        requires place { i < length self.old.places }
        requires not_eating { is_eating self.old.phase ≡ false }
        ensures may { ReportsMay self.old (step.Break i) (is_some result) }
        ensures none { MatchOption result ((place_at self.old i).close_put ≡ true)
            (λ _. (place_at self.old i).close_put ≡ false) }
        ensures core { self.new ≡ after_close i self.old }
        ensures letter { MatchOption result (self.new ≡ self.old) (λ l. l ≡ Letter.Close) }
        ensures step { MatchOption result
            (ForEachState self.old (λ plan state. has_close (traffic_at state i).put ≡ true))
            (CorePuts i (step.Break i) self.old self.new) }
    {
        if self.places.at(i).close_put {
            return None;
        }
        self.places.put_close(i);
        Some(Letter::Close)
    }

    /// Takes a letter that arrived at place `i`.
    ///
    /// # Errors
    ///
    /// If the rules do not allow the letter, it is returned with the first cause that applies, and nothing changes.
    pub fn take(&mut self, i: u32, letter: Letter) -> Result<(), (Letter, Breach)>
        requires { i < length self.old.places }
        ensures breach { MatchResult result
            (λ _. breach_at self.old.site self.old.ate (place_at self.old i) letter ≡ None)
            (λ e. breach_at self.old.site self.old.ate (place_at self.old i) letter ≡ Some e.1) }
        ensures agrees { ForEachState self.old
            (λ plan state. breach_at self.old.site self.old.ate (place_at self.old i) letter
            ≡ first_breach plan self.old.site state i letter) }
        ensures proper { MatchResult result (λ _. IsProper (step.Take i letter)) (λ _. Unit {0}) }
        ensures core { MatchResult result (λ _. self.new ≡ after_take i letter self.old)
            (λ e. (self.new ≡ self.old) × (e.0 ≡ letter)) }
        ensures taken { MatchResult result
            (λ _. ForEachState self.old (λ plan state. step.may plan self.old.site state (step.Take i letter) ≡ true))
            (λ e. ReportsBreach self.old i letter (Some e.1)) }
        ensures step { MatchResult result (λ _. CoreSteps (step.Take i letter) self.old self.new) (λ _. Unit {0}) }
    {
        let (site, ate) = (self.site, self.ate);
        let place = self.places.at(i);
        if let Some(breach) = place.breach_of(site, ate, &letter) {
            return Err((letter, breach));
        }
        self.take_in_turn(i, letter);
        Ok(())
    }

    /// Takes a letter that the rules allow at place `i`.
    pub fn take_in_turn(&mut self, i: u32, letter: Letter)
        requires place { i < length self.old.places }
        requires in_turn { breach_at self.old.site self.old.ate (place_at self.old i) letter ≡ None }
        ensures core { self.new ≡ after_take i letter self.old }
        ensures proper { IsProper (step.Take i letter) }
        ensures taken { ForEachState self.old
            (λ plan state. step.may plan self.old.site state (step.Take i letter) ≡ true) }
        ensures step { CoreSteps (step.Take i letter) self.old self.new }
    {
        self.places.note(i, letter);
    }

    /// Ends the site, and returns the forks and tokens that it holds, in edge order.
    pub fn into_parts(self) -> Parts
        requires { is_eating self.phase ≡ false }
        ensures forks { result.forks.items ≡ forks_of self.places }
        ensures tokens { result.tokens.items ≡ tokens_of self.places }
        ensures forks_by_lists { AreForksInHand self result.forks.items }
        ensures tokens_by_lists { AreTokensInHand self result.tokens.items }
    {
        let SiteCore {
            site: _,
            due: _,
            acts: _,
            resigns: _,
            phase: _,
            ate: _,
            must_quit: _,
            has_quit: _,
            places,
            alloc: _,
            hands,
            mut parts,
        } = self;
        hands.destroy_empty();
        places.collect(&mut parts);
        parts
    }
}
