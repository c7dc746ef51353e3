//! Diners: what a site does in its meals.
ghost use Rattle.std.specs.Prelude.{◌≡◌, ◌+◌, ◌<◌, ◌∷◌, ◌++◌, ℕ, Bool, List, Some, [], codes, is_ok, true};
ghost use Rattle.dine_graph.specs.Plan.{SeenPlan};
ghost use Rattle.dine_site_thread.specs.WholeMeals.{IsOwnMeal, IsWhole};
ghost use Rattle.dine_site_thread.specs.declared.diner.Call.{Call};

use dine_token::Meal;
use std::error::Error;
use std::fmt;
use std::sync::Wait;

/// The job of a meal failed.
#[derive(Clone, Copy, Debug, PartialEq, Eq)]
pub struct JobFault;

/// `the job failed`.
impl fmt::Display for JobFault {
    ghost output = { λ _. Some (codes "the job failed") };

    fn fmt<W: fmt::Write>(&self, f: &mut fmt::Formatter<W>) -> fmt::Result {
        f.write_str("the job failed")
    }
}

impl Error for JobFault {}

/// One call of [`Diner::eat`]: the number of the meal, from 1, and whether its job went well.
#[derive(Clone, Copy, Debug, PartialEq, Eq)]
pub struct Call {
    pub k: u32,
    pub ok: bool,
}

/// Does the jobs of a site. A diner may be dropped, and moves into the thread of its site.
pub trait Diner: Drop + Send {
    // All calls of `eat` so far, in order.
    ghost calls: { Self → List Call };

    // Truth values that the author of the diner chooses, and that no call changes; `fits` alone gives them a meaning. A
    // diner of the program has one for each job: whether the job fails.
    ghost marks: { Self → List Bool };

    // Whether the result of a meal fits the marks, by the marks, the number of the meal, and whether its job went well.
    // It is always true for a diner that promises nothing of its results.
    ghost fits: { List Bool → ℕ → Bool → Bool };

    // For how many more calls of `eat` the diner has capacity.
    ghost room_left: { Self → ℕ };

    // That it expects to eat in this plan, at this site. If a diner does not define it, it holds of each plan and site.
    ghost expects: { Self → SeenPlan → ℕ → Type 0 } = { λ _ _ _. Unit {0} };

    /// Returns for how many more calls of `eat` the diner has capacity.
    fn room(&self) -> u32
        ensures { result ≡ room_left self.now };

    /// Returns whether the site is called to its next job now. Only a site that is on call asks
    /// ([`crate::Manner::OnCall`]): while it thinks, and has meals left. It grows hungry if the answer is true. If not,
    /// it goes on to think: it gives forks that are asked for, sleeps at its bell, and asks again after each ring of
    /// it. So whoever makes the answer true has to ring that bell afterwards.
    ///
    /// A diner that does not define it is always called.
    fn is_called<R: Wait>(&self, _rt: &R) -> bool {
        true
    }

    /// Does the job of meal `k`, while the site holds the forks of all its edges.
    ///
    /// The diner has capacity for this call, and `meal` is meal `k`. Each fork of the meal is at the site that eats,
    /// and its log has `k` meals of that site, this one included. The forks are those of all edges of the site, in the
    /// order of the edges, in a plan in which the diner expects to eat at that site.
    ///
    /// The call is added to the calls of the diner, with its result, which fits the marks. The marks stay the same. The
    /// call uses the capacity for one call. Each plan and site that the diner expected before, it expects afterwards.
    ///
    /// # Errors
    ///
    /// `JobFault` if the job failed. The meal counts all the same; at a site that resigns it is the last.
    fn eat(&mut self, k: u32, meal: &Meal) -> Result<(), JobFault>
        requires room { 0 < room_left self.old }
        requires meal { meal.now.k ≡ k }
        requires own { IsOwnMeal meal.now }
        requires whole { IsWhole expects self.old meal.now }
        ensures calls { calls self.new ≡ calls self.old ++ record { k = k; ok = is_ok result } ∷ [] }
        ensures fits { fits (marks self.old) k (is_ok result) ≡ true }
        ensures marks { marks self.new ≡ marks self.old }
        ensures room { room_left self.new + 1 ≡ room_left self.old }
        ensures stays { (plan : SeenPlan) (site : ℕ) → expects self.old plan site → expects self.new plan site };
}
