//! A value that a job has open.
ghost use Rattle.std.specs.Prelude.{◌≡◌};
ghost use Rattle.std.specs.Sync.Mutex.{mutex_guard_value};
ghost use Rattle.dine_jobs.specs.EdgeValues.{edge_open, value_open};

use crate::edge_value::EdgeValue;
use dine_graph::EdgeId;
use std::mem;
use std::ops::{Deref, DerefMut};
use std::sync::MutexGuard;

/// The value of an edge, which the job has open until this is dropped. It lends the value alone, so the number of the
/// edge stays as it is.
#[derive(Drop)]
pub struct OpenValue<'a, T: Drop> {
    guard: MutexGuard<'a, EdgeValue<T>>,
}

impl<'a, T: Drop> OpenValue<'a, T> {
    // Returns the value that the guard lends.
    pub(crate) fn new(guard: MutexGuard<'a, EdgeValue<T>>) -> OpenValue<'a, T>
        ensures { edge_open result ≡ (mutex_guard_value guard.entry).edge }
    {
        OpenValue { guard }
    }

    /// Returns the edge that the value belongs to.
    pub fn edge(&self) -> EdgeId
        ensures { result.0 ≡ edge_open self.now }
    {
        self.guard.edge()
    }

    /// Puts a value in the place of the one that is open, and returns that one.
    pub fn replace(&mut self, value: T) -> T
        ensures back { result ≡ value_open self.old }
        ensures put { value_open self.new ≡ value }
        ensures edge { edge_open self.new ≡ edge_open self.old }
    {
        mem::replace(&mut self.guard.value, value)
    }
}

impl<T: Drop> Deref for OpenValue<'_, T> {
    type Target = T;

    ghost deref_gives = { λ lent value. value ≡ value_open lent };

    fn deref(&self) -> &T
        ensures { result.now ≡ value_open self.now }
    {
        &self.guard.value
    }
}

impl<T: Drop> DerefMut for OpenValue<'_, T> {
    ghost deref_mut_gives = { λ lent value. value ≡ value_open lent };

    fn deref_mut(&mut self) -> &mut T
        ensures value { result.now ≡ value_open self.old }
    {
        &mut self.guard.value
    }
}
