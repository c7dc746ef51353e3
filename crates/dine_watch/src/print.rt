//! A watch that prints who eats.

use crate::watch::Watch;
use dine_graph::SiteId;

/// Prints a line to standard error when its site begins a job and when it ends one, such as `t3 begins 5` and
/// `t3 ends 5`, or `t3 fails 5`. Lines of two threads may be torn into one another. A line that cannot be printed is
/// left out.
#[derive(Drop)]
pub struct MealPrinter<R: Drop> {
    rt: R,
    name: String,
}

impl<R: Eprint + Drop + Send> MealPrinter<R> {
    /// Makes a watch that prints by `rt`, and calls its site by this name.
    pub fn new(rt: R, name: String) -> MealPrinter<R> {
        MealPrinter { rt, name }
    }
}

impl<R: Eprint + Drop + Send> Watch for MealPrinter<R> {
    fn begin(&mut self, _site: SiteId, k: u32) {
        let name = self.name.as_str();
        let _ = eprintln!(self.rt; "{name} begins {k}");
    }

    fn end(&mut self, _site: SiteId, k: u32, ok: bool) {
        let name = self.name.as_str();
        let what = if ok { "ends" } else { "fails" };
        let _ = eprintln!(self.rt; "{name} {what} {k}");
    }
}
