// What a bell shares with its ringers: whether it sleeps, what wakes it, and how it is woken.
ghost use Rattle.std.specs.Prelude.{◌≡◌, ◌-◌, nat_le, ◌&&◌, ◌||◌, ◌++◌, ◌∷◌, [], not, true};
ghost use Rattle.std.specs.Prelude.{IfOk, MatchOption, false, if◌then◌else◌};
ghost use Rattle.crossbeam_channel.specs.Claims.{view, IsSeatAt};
ghost use Rattle.crossbeam_channel.specs.Ends.{receives_on};
ghost use Rattle.crossbeam_channel.specs.Fifo.{Held, Learns, Pops};
ghost use Rattle.dine_link.specs.Deeds.{waking};
ghost use Rattle.dine_link.specs.private.Parkers.{once_more};
ghost use Rattle.dine_link.specs.Waking.{seen_wants, wakes, still_wants};
ghost use Rattle.dine_link.specs.declared.deed.Deed.TheVariants.{Woke};

use crate::counted_parker::{CountedParker, CountedUnparker};
use crate::deed::Deed;
use crate::thread_log::ThreadLog;
use crate::wants::Wants;
use crossbeam_channel::protocol::{Lesson, Outcome, Protocol};
use crossbeam_channel::{Pass, RuledReceiver};
use dine_rules::LetterKind;
use std::alloc::{AllocError, Global};
use std::sync::atomic::{AtomicU64, Ordering};
use std::sync::{Arc, Mutex, Wait};

// Whether the bell sleeps, what it wants while it sleeps, and for how many more rings it has capacity.
#[derive(Drop)]
pub struct SleepState {
    asleep: bool,
    wants: Wants,
    room: usize,
}

// The bell parks, and a ringer that finds it asleep unparks it.
#[derive(Drop)]
pub struct Sleeper {
    pub state: Mutex<SleepState>,
    ringers: AtomicU64,
}

// What a ringer has of it. When the last one is dropped, the bell is woken.
pub struct Waker {
    pub sleeper: Arc<Sleeper, Global>,
    unparker: CountedUnparker,
}

impl SleepState {
    pub fn new() -> SleepState {
        SleepState {
            asleep: false,
            wants: Wants::anything(),
            room: 0,
        }
    }

    // Returns the next message of the bell's channel, if one is left. Only if none is left, notes that the bell falls
    // asleep, with capacity for `room` rings. What a channel's rule tells of an empty channel is known then: so the
    // channel was asked, whatever its rule is.
    pub fn next_or_sleep<V, P: Protocol<u32, V>, M: Outcome<u32, V> + Lesson<u32, V>, R: Wait>(
        &mut self,
        rt: &R,
        receiver: &RuledReceiver<u32, V, P>,
        pass: &mut Pass<u32, V>,
        wants: Wants,
        room: usize,
    ) -> Option<u32>
        requires seated { IsSeatAt (receives_on receiver.now) pass.old }
        requires pops { Pops P.holds pass.old.id (view pass.old) (M.then (view pass.old)) }
        requires learns { Learns P.holds pass.old.id (view pass.old) (M.fact (view pass.old)) }
        ensures seated { IsSeatAt (receives_on receiver.now) pass.new }
        ensures asked { MatchOption result
            ((view pass.new ≡ view pass.old) × Held 0 (M.fact (view pass.old)))
            (λ number. M.then (view pass.old) number (view pass.new)) }
        ensures noted { MatchOption result
            (self.new ≡ record { asleep = true; wants = wants; room = room })
            (λ _. self.new ≡ self.old) }
    {
        match receiver.try_recv_as::<M, R>(rt, pass) {
            Ok(number) => Some(number),
            Err(_) => {
                self.fall_asleep(wants, room);
                None
            }
        }
    }

    // Notes that the bell falls asleep, with capacity for `room` rings.
    fn fall_asleep(&mut self, wants: Wants, room: usize)
        ensures asleep { self.new.asleep ≡ true }
        ensures wants { self.new.wants ≡ wants }
        ensures room { self.new.room ≡ room }
    {
        self.asleep = true;
        self.wants = wants;
        self.room = room;
    }

    // Returns whether the bell sleeps.
    pub fn is_asleep(&self) -> bool
        ensures { result ≡ self.now.asleep }
    {
        self.asleep
    }

    // Wakes the bell, and returns whether it slept.
    pub fn wake(&mut self) -> bool
        ensures slept { result ≡ self.old.asleep }
        ensures awake { self.new.asleep ≡ false }
    {
        let slept = self.asleep;
        self.asleep = false;
        slept
    }

    // Notes a ring for a letter of that kind, and returns whether it wakes the bell. A ring that the bell wants does,
    // and so does the last one for which it has capacity: else a ringer could wait for capacity while the bell sleeps.
    pub fn note(&mut self, number: u32, kind: LetterKind) -> bool
        ensures woken { result
            ≡ (self.old.asleep && (wakes (seen_wants self.old.wants) number kind || nat_le self.old.room 1)) }
        ensures asleep { self.new.asleep ≡ (self.old.asleep && not result) }
        ensures wants { self.new.asleep ≡ true
            → seen_wants self.new.wants ≡ still_wants (seen_wants self.old.wants) kind }
        ensures room { self.new.asleep ≡ true → self.new.room ≡ self.old.room - 1 }
    {
        if !self.asleep {
            return false;
        }
        if self.wants.has(number, kind) || self.room <= 1 {
            self.asleep = false;
            return true;
        }
        self.wants.note(kind);
        self.room -= 1;
        false
    }
}

impl Sleeper {
    // Returns that of a bell that is awake and has no ringer yet.
    pub fn new() -> Sleeper {
        Sleeper {
            state: Mutex::new(SleepState::new()),
            ringers: AtomicU64::new(0),
        }
    }

    // Waits until a ringer has woken the bell, or no ringer is left.
    pub fn sleep<R: Wait>(&self, rt: &R, parker: &mut CountedParker) {
        if self.ringers.load(Ordering::SeqCst) > 0 {
            parker.park(rt);
        }
    }
}

impl Waker {
    // Returns the waker of one further ringer.
    pub fn of(sleeper: &Arc<Sleeper, Global>, parker: &CountedParker) -> Result<Waker, AllocError>
        ensures { IfOk result (λ waker. waker.unparker ≡ record { parker = parker.now.parker; times = 0 }) }
    {
        let sleeper = Arc::try_clone(sleeper)?;
        let unparker = parker.unparker()?;
        sleeper.ringers.fetch_add(1, Ordering::SeqCst);
        Ok(Waker { sleeper, unparker })
    }

    // If a ring has to wake the bell, lets its thread go on, and the log notes that, as done at this place.
    pub fn wake_if(&mut self, woken: bool, place: u32, log: &mut ThreadLog)
        ensures noted { log.new.deeds ≡ log.old.deeds ++ waking place woken }
        ensures unparked { self.new.unparker
            ≡ (if woken then once_more self.old.unparker else self.old.unparker) }
    {
        if woken {
            self.unpark(place, log);
        }
    }

    // Lets the thread of a bell go on that was asleep, and the log notes it.
    fn unpark(&mut self, place: u32, log: &mut ThreadLog)
        ensures noted { log.new.deeds ≡ log.old.deeds ++ Woke place ∷ [] }
        ensures unparked { self.new.unparker ≡ once_more self.old.unparker }
    {
        self.unparker.unpark();
        *log = log.after(&Deed::Woke(place));
    }
}

impl Drop for Waker {
    fn drop(self) {
        let Self {
            sleeper,
            mut unparker,
        } = self;
        if sleeper.ringers.fetch_sub(1, Ordering::SeqCst) == 1 {
            unparker.unpark();
        }
    }
}
