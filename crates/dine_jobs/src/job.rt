//! Jobs that share values with their neighbours.
ghost use Rattle.std.specs.Prelude.{ℕ, Bool, is_ok};
ghost use Rattle.dine_graph.specs.Plan.{SeenPlan};
ghost use Rattle.dine_site_thread.specs.WholeMeals.{IsOwnMeal, IsWhole};

use crate::table::Table;
use std::sync::Wait;

/// Does the jobs of a site, which shares a `T` with each neighbour. It may be dropped, and moves into the thread of its
/// site.
pub trait Job<T: Drop>: Drop + Send {
    /// Why a job failed: a type of the caller's own, or `JobFault` if there is nothing to say.
    type Fault: Drop + Send + 'static;

    // What one call of `run` may do, by the job before it, the number of the meal, whether the call returned Ok, and
    // the job after it. A job of which nothing is to be proved leaves it out.
    ghost after: { Self → ℕ → Bool → Self → Type 0 } = { λ old k ok new. Unit {0} };

    // That it expects to run in this plan, at this site. If a job does not define it, it holds of each plan and site.
    ghost expects: { Self → SeenPlan → ℕ → Type 0 } = { λ _ _ _. Unit {0} };

    /// Returns whether the site is called to its next job now. Only a site that is on call asks, while it thinks
    /// (`Diner::is_called`). A job that does not define it always is.
    fn is_called<R: Wait>(&self, _rt: &R) -> bool {
        true
    }

    /// Does job `table.k()` of site `table.site()`, while the site holds the forks of all its edges.
    ///
    /// The table has a place for each edge of the site, in the order of the edges, in a plan in which the job expects
    /// to run at that site. Each fork is at the site, and its log has `table.k()` meals of the site, this one included.
    ///
    /// Each plan and site that the job expected before, it expects afterwards.
    ///
    /// # Errors
    ///
    /// The job failed, for this reason. The meal counts all the same. At a site that resigns it is the last one.
    fn run(&mut self, table: &Table<'_, T>) -> Result<(), Self::Fault>
        requires own { IsOwnMeal table.now }
        requires whole { IsWhole expects self.old table.now }
        ensures did { after self.old table.now.k (is_ok result) self.new }
        ensures stays { (plan : SeenPlan) (site : ℕ) → expects self.old plan site → expects self.new plan site };
}

/// A job that failed: its number, from 1, and why.
#[derive(Drop)]
pub struct Failure<F: Drop> {
    pub k: u32,
    pub fault: F,
}
