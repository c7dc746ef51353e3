//! Tasks, each of which a site does once.
ghost use Rattle.dine_token.specs.Meal.{SeenMeal};

use crate::table::Table;

/// What a site is to do once, while it holds the forks of all its edges, over values of `T`. It moves into the thread
/// of its site, and what it returns goes to its [`Ticket`](crate::Ticket).
pub trait Task<T: Drop, O: Drop>: Drop + Send {
    // What it may return, by the task, the meal in which it is done, and what it returns. A task of which nothing is to
    // be proved leaves it out.
    ghost gives: { Self → SeenMeal → O → Type 0 } = { λ task meal output. Unit {0} };

    /// Does the task at the site of the table.
    fn run(self, table: &Table<'_, T>) -> O
        ensures gives { gives self table.now result };
}
