//! The values that the sites of a run share, one for each edge.
ghost use Rattle.std.specs.Prelude.{◌≡◌, ◌<◌, ◌≤◌, IfErr, IfOk, IfSome, vec_capacity, vec_len};
ghost use Rattle.dine_jobs.specs.EdgeValues.{BelongInOrder, HasRoom, edge_open};

use crate::edge_value::EdgeValue;
use crate::open_value::OpenValue;
use crate::table::OpenFault;
use std::alloc::{AllocError, Global};
use std::sync::Mutex;
use std::sync::atomic::{AtomicU64, Ordering};

/// A value for each edge, by number, which the sites of a run share. Only a site that eats with the fork of an edge
/// opens its value. So the lock of a value is free when it is asked for, unless the same job has it. No clause says
/// that; tests check it.
///
/// Of what is in a lock, clauses know only what holds of every value of its type. So each value has the number of its
/// edge beside it, and whoever takes it out of its lock compares.
#[derive(Drop)]
pub struct Values<T: Drop> {
    cells: Vec<Mutex<EdgeValue<T>>>,
    found_open: AtomicU64,
}

/// Empty lists with capacity for the values of a run: with their edges, and without.
#[derive(Drop)]
pub struct Spare<T: Drop> {
    pub(crate) numbered: Vec<EdgeValue<T>>,
    pub(crate) plain: Vec<T>,
}

impl<T: Drop> Spare<T> {
    // Opens the lists.
    pub(crate) fn open(alloc: Global, count: usize) -> Result<Spare<T>, AllocError>
        ensures { IfOk result (λ spare. HasRoom spare count) }
    {
        let numbered = Vec::with_capacity(alloc, count)?;
        let plain = Vec::with_capacity(alloc, count)?;
        Ok(Spare { numbered, plain })
    }
}

impl<T: Drop> Values<T> {
    // Returns the values by edge, each in its lock, with empty lists that have capacity for all of them. If an
    // allocation fails, it returns the values.
    pub(crate) fn lock(
        alloc: Global,
        count: u32,
        values: Vec<T>,
    ) -> Result<(Values<T>, Spare<T>), Vec<T>>
        requires { count ≡ vec_len values }
        ensures cells { IfOk result (λ locked. vec_len locked.0.cells ≡ vec_len values) }
        ensures room { IfOk result (λ locked. HasRoom locked.1 (vec_len values)) }
        ensures back { IfErr result (λ back. back ≡ values) }
    {
        let (Ok(mut cells), Ok(numbered), Ok(spare)) = (
            Vec::with_capacity(alloc, values.len()),
            Vec::with_capacity(alloc, values.len()),
            Spare::open(alloc, values.len()),
        ) else {
            return Err(values);
        };
        for value in EdgeValue::number(count, values, numbered) {
            cells.push_reserved(Mutex::new(value));
        }
        let found_open = AtomicU64::new(0);
        Ok((Values { cells, found_open }, spare))
    }

    // Opens the value of an edge. It never waits.
    pub(crate) fn open(&self, edge: u32) -> Result<OpenValue<'_, T>, OpenFault>
        requires { edge < vec_len self.now.cells }
        ensures edge { IfOk result (λ lent. edge_open lent ≡ edge) }
        ensures fault { IfErr result (λ fault. fault ≡ OpenFault.Open) }
    {
        match self.cells[edge as usize].try_lock() {
            Some(guard) if guard.is_of(edge as usize) => Ok(OpenValue::new(guard)),
            _ => {
                self.found_open.fetch_add(1, Ordering::SeqCst);
                Err(OpenFault::Open)
            }
        }
    }

    // Returns how often a lock was not free.
    pub(crate) fn found_open(&self) -> u64 {
        self.found_open.load(Ordering::SeqCst)
    }

    // Takes all values out, by edge, each with its edge. It is None only if a lock has the value of another edge, which
    // no run does.
    pub(crate) fn unlock(self, mut numbered: Vec<EdgeValue<T>>) -> Option<Vec<EdgeValue<T>>>
        requires empty { vec_len numbered ≡ 0 }
        requires room { vec_len self.cells ≤ vec_capacity numbered }
        ensures count { IfSome result (λ values. vec_len values ≡ vec_len self.cells) }
        ensures edges { IfSome result (λ values. BelongInOrder values.items) }
    {
        let Values { cells, .. } = self;
        for cell in cells {
            let value = cell.into_inner();
            if !value.is_of(numbered.len()) {
                return None;
            }
            numbered.push_reserved(value);
        }
        Some(numbered)
    }
}
