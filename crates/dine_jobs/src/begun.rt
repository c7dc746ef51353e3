//! Tasks that were taken out of a queue, each of which is run once, in its turn.
ghost use Rattle.std.specs.Prelude.{◌≡◌, ◌+◌, ◌<◌, ◌^◌};
ghost use Rattle.dine_token.specs.Meal.{SeenMeal};

use crate::table::Table;
use crate::task::Task;
use crossbeam_channel::Sender;
use std::alloc::Global;
use std::snapshot::Snapshot;
use std::sync::Wait;

// A task, and where what it returns is to go, if somebody asked for it.
#[derive(Drop)]
pub(crate) struct Submitted<K: Drop, O: Drop> {
    pub(crate) task: K,
    pub(crate) reply: Option<Sender<O, Global>>,
}

// What a task does. It is apart from `Task`, which may go to another thread: the borrow checker does not cover a call
// of a function that takes such a value, in a method of a bound.
pub(crate) trait Run<T: Drop, O: Drop>: Drop {
    ghost gives: { Self → SeenMeal → O → Type 0 };

    fn run_at(self, table: &Table<'_, T>) -> O
        ensures gives { gives self table.now result };
}

impl<T: Drop, O: Drop, K: Task<T, O>> Run<T, O> for K {
    ghost gives = { K.gives };

    fn run_at(self, table: &Table<'_, T>) -> O {
        self.run(table)
    }
}

// A task that was taken out of its queue, with its turn: how many tasks were begun there before it. Proofs alone read
// the turn. It has no `Drop`, so whoever has taken it out has to run it.
pub(crate) struct Begun<K: Drop> {
    task: K,
    turn: Snapshot<u64>,
    ghost few: { turn.value + 1 < 2 ^ 64 },
}

impl<K: Drop> Begun<K> {
    pub(crate) fn new(task: K, turn: u64) -> Begun<K>
        requires few { turn + 1 < 2 ^ 64 }
        ensures task { result.task ≡ task }
        ensures turn { result.turn.value ≡ turn }
    {
        Begun {
            task,
            turn: Snapshot::of(&turn),
        }
    }
}

impl<K: Drop, O: Drop> Begun<Submitted<K, O>> {
    // Runs the task, whose turn it is, and counts it. What it returns goes to whoever asked for it.
    pub(crate) fn run<T: Drop, R: Wait>(self, rt: &R, table: &Table<'_, T>, done: &mut DoneTasks)
    where
        K: Run<T, O>,
        requires turn { self.turn.value ≡ done.old.count }
        ensures counted { done.new.count ≡ done.old.count + 1 }
        ensures gives { (output : _) × K.gives self.task.task table.now output }
    {
        let Begun {
            task: Submitted { task, reply },
            turn: _,
        } = self;
        let output = task.run_at(table);
        done.count += 1;
        if let Some(reply) = reply {
            // Whoever asked for it may have dropped the ticket.
            let _ = reply.try_send(rt, output);
        }
    }
}

// How many tasks of a queue were done, all of those before the next one. Only `Begun::run` counts, so each of them was
// run once, in its turn.
#[derive(Drop)]
pub struct DoneTasks {
    count: u64,
}

impl DoneTasks {
    // Returns the count of a queue of which `count` tasks were begun, and have ended.
    pub(crate) fn before(count: u64) -> DoneTasks
        ensures { result.count ≡ count }
    {
        DoneTasks { count }
    }

    pub(crate) fn count(&self) -> u64
        ensures { result ≡ self.now.count }
    {
        self.count
    }
}
