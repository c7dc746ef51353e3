//! A watch that counts meals.

use crate::watch::Watch;
use dine_graph::SiteId;
use std::alloc::{AllocError, Global};
use std::sync::Arc;
use std::sync::atomic::{AtomicU64, Ordering};

/// Counts the jobs that were done, at all sites whose watch is a share of it. Any thread may read the number while the
/// run goes on. A wrong number would be found by tests alone: of an atomic no contract says what is in it.
#[derive(Drop)]
pub struct MealCount {
    meals: Arc<AtomicU64, Global>,
}

impl MealCount {
    /// Makes a count of 0.
    ///
    /// # Errors
    ///
    /// Fails if an allocation fails.
    pub fn open(alloc: Global) -> Result<MealCount, AllocError> {
        let meals = Arc::new(alloc, AtomicU64::new(0))?;
        Ok(MealCount { meals })
    }

    /// Returns another share of the same count.
    ///
    /// # Errors
    ///
    /// Fails if there are too many shares.
    pub fn share(&self) -> Result<MealCount, AllocError> {
        let meals = Arc::try_clone(&self.meals)?;
        Ok(MealCount { meals })
    }

    /// Returns how many jobs have ended so far.
    pub fn meals(&self) -> u64 {
        self.meals.load(Ordering::SeqCst)
    }
}

impl Watch for MealCount {
    fn end(&mut self, _site: SiteId, _k: u32, _ok: bool) {
        self.meals.fetch_add(1, Ordering::SeqCst);
    }
}
