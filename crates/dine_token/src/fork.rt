//! The fork of an edge, with the log of its meals and its moves.
ghost use Rattle.std.specs.Prelude.{◌≡◌, ◌<◌, ◌≤◌, ◌+◌, [], length, take, Some, slice_get, IfOk};
ghost use Rattle.dine_token.specs.declared.limits.TheConstants.{MAX_JOBS, MAX_NUMBER};
ghost use Rattle.dine_token.specs.Log.{is_dirty, meals_of, moves_of};
ghost use Rattle.dine_token.specs.Lawful.{due_at};
ghost use Rattle.dine_token.specs.Periods.{periods_of, entries_of};
ghost use Rattle.dine_token.specs.Fork.{SeenFork, IsFork, IsEnd, MayMove, MayEat, location, after_move, after_meal};
ghost use Rattle.dine_token.specs.Values.{IsAct};

use crate::act::Act;
use crate::log_entry::Entry;
use crate::log_period::Period;
use std::alloc::{AllocError, Global};
use std::marker::Model;

/// The fork of an edge, with the log of its meals and moves. Each edge has one fork, so `Fork` has no `Clone`.
///
/// The log obeys the rules of Chandy and Misra's hygienic solution (ACM TOPLAS 6(4), 1984).
#[derive(Drop)]
pub struct Fork {
    // In a box, so that to move a fork copies a pointer: a fork is moved four times a meal, and with each letter.
    contents: Box<Contents>,
}

// The contents of a fork: its edge, the two ends and their due meals, and the periods of its log with their totals.
#[derive(Drop)]
pub(crate) struct Contents {
    pub(crate) edge: u32,
    pub(crate) lower: u32,
    pub(crate) higher: u32,
    pub(crate) lower_due: u32,
    pub(crate) higher_due: u32,
    pub(crate) location: u32,
    pub(crate) dirty: bool,
    pub(crate) lower_meals: u32,
    pub(crate) higher_meals: u32,
    pub(crate) value: u64,
    pub(crate) periods: Vec<Period>,
}

impl Model for Fork {
    ghost use Rattle.dine_token.specs.Fork.{SeenFork};

    ghost Value = { SeenFork };

    ghost use Rattle.dine_token.specs.private.Fields.{seen_fork, IsSound};

    ghost view = { seen_fork };

    ghost invariant = { IsSound };
}

impl Fork {
    /// Makes the fork of edge `edge` between the sites `lower` and `higher`, which have `lower_due` and `higher_due`
    /// meals due, each at most 4,294,967,295. The fork is at the lower end and dirty, its log is empty, and it carries
    /// the value `value`, at most 1,000,000. All its memory is allocated here, for each period that the log may get
    /// too: 12 bytes for each meal that is due.
    ///
    /// # Errors
    ///
    /// Returns `AllocError` if an allocation fails.
    pub fn open(
        alloc: Global,
        edge: u32,
        lower: u32,
        higher: u32,
        lower_due: u32,
        higher_due: u32,
        value: u64,
    ) -> Result<Fork, AllocError>
        requires ordered { lower < higher }
        requires lower_due { lower_due ≤ MAX_JOBS }
        requires higher_due { higher_due ≤ MAX_JOBS }
        requires value { value ≤ MAX_NUMBER }
        ensures { IfOk result
            (λ fork. fork
            ≡ record { edge = edge; ends = (lower, higher); due = (lower_due, higher_due); log = []; value = value }) }
    {
        let capacity = lower_due as usize + higher_due as usize + 1;
        let mut periods = Vec::with_capacity(alloc, capacity)?;
        periods.push_reserved(Period {
            site: lower,
            first: 1,
            count: 0,
        });
        let contents = Contents {
            edge,
            lower,
            higher,
            lower_due,
            higher_due,
            location: lower,
            dirty: true,
            lower_meals: 0,
            higher_meals: 0,
            value,
            periods,
        };
        let contents = Box::new(alloc, contents)?;
        Ok(Fork { contents })
    }

    /// Returns the number of its edge.
    pub fn edge(&self) -> u32
        ensures { result ≡ self.now.edge }
    {
        self.contents.edge
    }

    /// Returns its two ends, the lower site first.
    pub fn ends(&self) -> (u32, u32)
        ensures ends { result ≡ self.now.ends }
        ensures proper { IsFork self.now }
    {
        (self.contents.lower, self.contents.higher)
    }

    /// Returns the number of meals that an end has due in all, at most 4,294,967,295.
    pub fn due_of(&self, end: u32) -> u32
        requires { IsEnd self.now end }
        ensures due { result ≡ due_at self.now.ends self.now.due end }
        ensures bound { result ≤ MAX_JOBS }
    {
        if end == self.contents.lower {
            self.contents.lower_due
        } else {
            self.contents.higher_due
        }
    }

    /// Returns the number of meals of an end in the log.
    pub fn meals_of(&self, end: u32) -> u32
        requires { IsEnd self.now end }
        ensures meals { result ≡ meals_of end self.now.log }
        ensures bound { result ≤ due_at self.now.ends self.now.due end }
    {
        if end == self.contents.lower {
            self.contents.lower_meals
        } else {
            self.contents.higher_meals
        }
    }

    /// Returns the value that it carries: the one that it was opened with, after the acts of all its meals. It is at
    /// most 1,000,000 times one more than the number of its meals.
    pub fn value(&self) -> u64
        ensures value { result ≡ self.now.value }
        ensures proper { IsFork self.now }
    {
        self.contents.value
    }

    /// Returns whether the fork was eaten with since it arrived, or has not moved yet.
    pub fn is_dirty(&self) -> bool
        ensures dirty { result ≡ is_dirty self.now.log }
        ensures proper { IsFork self.now }
    {
        self.contents.dirty
    }

    /// Returns the end where the fork is, or to which it is on its way.
    pub fn at(&self) -> u32
        ensures at { result ≡ location self.now }
        ensures end { IsEnd self.now result }
    {
        self.contents.location
    }

    /// Returns the number of entries of the log, at most twice the meals that are due to both ends.
    pub fn len(&self) -> u64
        ensures len { result ≡ length self.now.log }
        ensures proper { IsFork self.now }
    {
        let contents = &*self.contents;
        contents.lower_meals as u64 + contents.higher_meals as u64 + self.moves()
    }

    /// Returns entry `i` of the log, from 0.
    pub fn entry(&self, i: u64) -> Entry
        requires { i < length self.now.log }
        ensures { slice_get self.now.log i ≡ Some result }
    {
        let place = self.period_with(i);
        let period = self.period(place);
        let inside = (i - self.entries_before(place)) as u32;
        if place == 0 {
            Entry::Meal {
                site: period.site,
                k: period.first + inside,
            }
        } else if inside == 0 {
            Entry::Move { to: period.site }
        } else {
            Entry::Meal {
                site: period.site,
                k: period.first + (inside - 1),
            }
        }
    }

    // The place of the period that has entry `i`, by binary search.
    fn period_with(&self, i: u64) -> u64
        requires { i < length self.now.log }
        ensures within { result < length (periods_of self.now.ends.0 self.now.log) }
        ensures start { length (entries_of (take result (periods_of self.now.ends.0 self.now.log))) ≤ i }
        ensures end { i < length (entries_of (take (result + 1) (periods_of self.now.ends.0 self.now.log))) }
        ensures proper { IsFork self.now }
    {
        let mut low = 0;
        let mut high = self.periods();
        while low + 1 < high {
            let middle = low + (high - low) / 2;
            if self.entries_before(middle) <= i {
                low = middle;
            } else {
                high = middle;
            }
        }
        low
    }

    // The number of entries of the log before those of the period at this place: the Moves before its own, and the
    // meals of both ends so far, which are one less than the numbers of their next meals.
    fn entries_before(&self, place: u64) -> u64
        requires place { place < length (periods_of self.now.ends.0 self.now.log) }
        requires proper { IsFork self.now }
        ensures { result ≡ length (entries_of (take place (periods_of self.now.ends.0 self.now.log))) }
    {
        if place == 0 {
            return 0;
        }
        let former = self.period(place - 1);
        let period = self.period(place);
        place + period.first as u64 + former.first as u64 + former.count as u64 - 3
    }

    /// Returns the number of periods of the log, at least 1: one more than its Moves. The periods give the whole log.
    pub fn periods(&self) -> u64
        ensures count { result ≡ length (periods_of self.now.ends.0 self.now.log) }
        ensures some { 1 ≤ result }
        ensures whole { entries_of (periods_of self.now.ends.0 self.now.log) ≡ self.now.log }
        ensures proper { IsFork self.now }
    {
        self.contents.periods.len() as u64
    }

    /// Returns period `i` of the log, from 0. Only the first and the last may have no meal.
    pub fn period(&self, i: u64) -> Period
        requires { i < length (periods_of self.now.ends.0 self.now.log) }
        ensures period { slice_get (periods_of self.now.ends.0 self.now.log) i ≡ Some result }
        ensures bound { result.first + result.count ≤ MAX_JOBS + 1 }
        ensures used { 0 < i → i + 1 < length (periods_of self.now.ends.0 self.now.log) → 1 ≤ result.count }
    {
        self.contents.periods[i as usize]
    }

    /// Returns the number of Moves in the log.
    pub fn moves(&self) -> u64
        ensures moves { result ≡ moves_of self.now.log }
        ensures proper { IsFork self.now }
    {
        self.contents.periods.len() as u64 - 1
    }

    // Writes a Move to the other end, which opens a period there. It allocates nothing.
    pub(crate) fn move_to(&mut self, to: u32)
        requires { MayMove to self.old }
        ensures moved { self.new ≡ after_move to self.old }
        ensures proper { IsFork self.new }
    {
        let first = self.meals_of(to) + 1;
        let contents = &mut *self.contents;
        contents.location = to;
        contents.dirty = false;
        contents.periods.push_reserved(Period {
            site: to,
            first,
            count: 0,
        });
    }

    // Writes meal `k` of the site where the fork is, as one more of the last period, and does the act. It allocates
    // nothing.
    pub(crate) fn eat(&mut self, site: u32, k: u32, act: Act)
        requires may_eat { MayEat site k self.old }
        requires act { IsAct act }
        ensures eaten { self.new ≡ after_meal site k act self.old }
        ensures proper { IsFork self.new }
    {
        let value = act.apply(self.contents.value);
        let contents = &mut *self.contents;
        contents.dirty = true;
        contents.value = value;
        if site == contents.lower {
            contents.lower_meals = k;
        } else {
            contents.higher_meals = k;
        }
        let last = contents.periods.len() - 1;
        contents.periods[last].count += 1;
    }
}
