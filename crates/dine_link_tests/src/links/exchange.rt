// One thread puts letters in a link, and another takes them, whatever lane the link is of.
ghost use Rattle.std.specs.Prelude.{◌≡◌, ◌+◌, ◌<◌, ◌≤◌, ◌^◌, ◌++◌, ◌∷◌, [], if◌then◌else◌};
ghost use Rattle.std.specs.Prelude.{length, vec_len, vec_capacity};
ghost use Rattle.dine_rules.specs.declared.letters.Letter.TheVariants.{Close};
ghost use Rattle.dine_link.specs.Closing as closing;
ghost use Rattle.dine_link.specs.Lanes.{seen_end};
ghost use Rattle.dine_link.specs.Links.{IsLink, with_letters};

use dine_link::{Lane, LinkEnd, TxEnd};
use dine_rules::Letter;
use std::alloc::Global;
use std::process::Abort;
use std::snapshot::Snapshot;
use std::sync::Wait;
use std::thread;
use std::thread::{Promise, PromisedHandle, Threads};

// What one thread is to do: to put the letters in their order, and then Close if `closes`.
#[derive(Drop)]
pub struct Task<L: Lane> {
    tx: L::Tx,
    letters: Vec<Letter>,
    closes: bool,
}

// Whether the letter is Close.
fn is_close(letter: &Letter) -> bool
    ensures { result ≡ closing.is_close letter.now }
{
    matches!(letter, Letter::Close)
}

// Puts the letters in their order. Close is not among them.
fn put_each<L: Lane, R: Wait + Abort>(rt: &R, tx: &mut L::Tx, letters: Vec<Letter>)
    requires few_letters { length (L.seen_tx tx.old).letters + vec_len letters < 2 ^ 61 }
    ensures { L.seen_tx tx.new ≡ with_letters letters.items (L.seen_tx tx.old) }
{
    for letter in letters {
        assert!(rt; !is_close(&letter));
        assert!(rt; L::put(rt, tx, letter).is_ok());
    }
}

// Does the task. Close is not among its letters.
fn put_all<L: Lane, R: Wait + Abort>(rt: &R, task: Task<L>) -> TxEnd<L>
    requires few_letters { length (L.seen_tx task.tx).letters + vec_len task.letters < 2 ^ 61 }
    ensures { seen_end L.seen_tx L.seen_closed result ≡ with_letters
        (if task.closes then task.letters.items ++ Close ∷ [] else task.letters.items) (L.seen_tx task.tx) }
{
    let Task {
        mut tx,
        letters,
        closes,
    } = task;
    put_each::<L, R>(rt, &mut tx, letters);
    if !closes {
        return TxEnd::Live(tx);
    }
    let Ok(closed) = L::close(rt, tx) else {
        panic!(rt; "close was refused");
    };
    TxEnd::Shut(closed)
}

// Takes a number of letters, in the order in which they arrive.
fn take_many<L: Lane, R: Wait + Abort>(
    rt: &R,
    rx: &mut L::Rx,
    count: usize,
    taken: &mut Vec<Letter>,
)
    requires none { ((L.seen_rx rx.old).letters ≡ []) × (taken.old.items ≡ []) }
    requires room { (count ≤ vec_capacity taken.old) × (count < 2 ^ 61) }
    ensures link { (L.seen_rx rx.new).link ≡ (L.seen_rx rx.old).link }
    ensures letters { (L.seen_rx rx.new).letters ≡ taken.new.items }
    ensures count { vec_len taken.new ≡ count }
{
    for _ in 0..count {
        assert!(rt; !L::is_closed(rx));
        let Ok(letter) = L::take(rt, rx) else {
            panic!(rt; "a take was refused");
        };
        taken.push_reserved(letter);
    }
}

// The task was done, and this is its end.
#[derive(Drop)]
struct AllPut<L: Lane> {
    task: Snapshot<Task<L>>,
}

impl<L: Lane> Promise<TxEnd<L>> for AllPut<L> {
    ghost use Rattle.std.specs.Prelude.{◌≡◌, ◌++◌, ◌∷◌, [], if◌then◌else◌};
    ghost use Rattle.dine_rules.specs.declared.letters.Letter.TheVariants.{Close};
    ghost use Rattle.dine_link.specs.Lanes.{seen_end};
    ghost use Rattle.dine_link.specs.Links.{with_letters};

    ghost kept_by = { λ promise after. let task = promise.task.value
        in seen_end L.seen_tx L.seen_closed after ≡ with_letters
        (if task.closes then task.letters.items ++ Close ∷ [] else task.letters.items) (L.seen_tx task.tx) };
}

// Has a thread of its own do the task.
fn set_apart<L, R>(rt: R, task: Task<L>) -> PromisedHandle<TxEnd<L>, AllPut<L>>
where
    R: Threads + Wait + Abort + Copy + Send + 'static,
    L: Lane + 'static,
    L::Tx: 'static,
    L::ClosedTx: 'static,
    L::Rx: 'static,
    requires few_letters { length (L.seen_tx task.tx).letters + vec_len task.letters < 2 ^ 61 }
    ensures { result.promise.task.value ≡ task }
{
    let promise = AllPut::<L> {
        task: Snapshot::of(&task),
    };
    let started = thread::spawn_with(
        &rt,
        promise,
        move || -> TxEnd<L>
            requires { length (L.seen_tx task.tx).letters + vec_len task.letters < 2 ^ 61 }
            ensures { seen_end L.seen_tx L.seen_closed result ≡ with_letters
                (if task.closes then task.letters.items ++ Close ∷ [] else task.letters.items) (L.seen_tx task.tx) }
        { put_all::<L, R>(&rt, task) },
    );
    let Ok(child) = started else {
        panic!(rt; "no thread");
    };
    child
}

// Puts the letters in one thread and takes `count` of them in this one. Returns the link, and the letters taken.
pub fn exchange<L, R>(
    rt: R,
    alloc: Global,
    letters: Vec<Letter>,
    closes: bool,
    count: usize,
) -> (LinkEnd, Vec<Letter>)
where
    R: Threads + Wait + Abort + Copy + Send + 'static,
    L: Lane + 'static,
    L::Tx: 'static,
    L::ClosedTx: 'static,
    L::Rx: 'static,
    requires few { (vec_len letters < 2 ^ 60) × (count < 2 ^ 60) }
    ensures put { result.0.put ≡ (if closes then letters.items ++ Close ∷ [] else letters.items) }
    ensures taken { (result.0.taken ≡ result.1.items) × (vec_len result.1 ≡ count) }
    ensures prefix { IsLink result.0 }
{
    let mut taken = Vec::with_capacity(alloc, count).expect(&rt, "memory");
    let (tx, mut rx) = L::pair(alloc, 7, 1).expect(&rt, "memory");
    let child = set_apart::<L, R>(
        rt,
        Task {
            tx,
            letters,
            closes,
        },
    );
    take_many::<L, R>(&rt, &mut rx, count, &mut taken);
    let tx = child.join(&rt);
    (L::reconcile(tx, rx), taken)
}
