//! Jobs that are watched while they run, and jobs that can be cancelled: each is a `Job` around another one. Three
//! watches come with it: one counts meals, one keeps how long a site waited, and one prints who eats.
#![tactic(auto)]

mod cancel;
mod count;
mod print;
mod waits;
mod watch;

pub use cancel::{Cancel, Cancellable, Stopped};
pub use count::MealCount;
pub use print::MealPrinter;
pub use waits::{WaitClock, Waits};
pub use watch::{Watch, Watched};
