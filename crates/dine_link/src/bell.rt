// A bell: its owner waits for rings, and each of its ringers rings with a number of its own.
ghost use Rattle.std.specs.Prelude.{◌≡◌, ◌<◌, ◌*◌, ◌++◌, ◌∷◌, [], IfOk, IfSome, length, map, max};
ghost use Rattle.std.specs.Prelude.{MatchOption, MatchResult};
ghost use Rattle.std.specs.Prelude.{false, true};
ghost use Rattle.std.specs.List.{range_with_len};
ghost use Rattle.crossbeam_channel.specs.Claims.{view, IsSeatAt};
ghost use Rattle.crossbeam_channel.specs.Ends.{receives_on, sends_on};
ghost use Rattle.dine_link.specs.private.BellRule.{HasHeard, IsOfRinger, after_sound, no_ringers};
ghost use Rattle.dine_link.specs.Waking.{NotesRing};
ghost use Rattle.dine_link.specs.Bells.{BellId, new_ringer, after_ring, after_refused_ring, new_bell, after_report};
ghost use Rattle.dine_link.specs.Bells.{after_empty_check, after_refused_wait};
ghost use Rattle.dine_link.specs.declared.bell_rule.Part.TheVariants.{Waits};
ghost use Rattle.dine_link.specs.declared.deed.Deed.TheVariants.{FoundNone, Heard, Rang, Slept};
ghost use Rattle.dine_link.specs.Deeds.{HasRungFor, HasWaited};

use crate::bell_rule::{Hears, NextRinger, OfRingers, Part, Sounds};
use crate::counted_parker::CountedParker;
use crate::deed::Deed;
use crate::empty_checks::EmptyChecks;
use crate::faults::{LinkFault, Lost};
use crate::sleeper::{SleepState, Sleeper, Waker};
use crate::thread_log::ThreadLog;
use crate::wants::Wants;
use crossbeam_channel::{Pass, RuledReceiver, RuledSender, TrySendError, bounded_with};
use dine_rules::{Clock, LetterKind};
use std::alloc::{AllocError, Global};
use std::marker::Model;
use std::sync::{Arc, Wait};

// For each of its ringers a bell has capacity for this number of rings that it has not reported yet.
const RINGS_EACH: usize = 4;

/// A ringer of one bell, with a number of its own. Contracts see its bell, its number, how often it rang, and whether a
/// ring was ever refused.
#[derive(Drop)]
pub struct Ringer {
    number: u32,
    sender: RuledSender<u32, Part, OfRingers>,
    pass: Pass<u32, Part>,
    waker: Waker,
    refused: bool,
}

impl Model for Ringer {
    ghost use Rattle.dine_link.specs.Bells.{SeenRinger};

    ghost Value = { SeenRinger };

    ghost use Rattle.dine_link.specs.private.BellFields.{seen_ringer, IsRinger};

    ghost view = { seen_ringer };

    ghost invariant = { IsRinger };
}

/// Reports the numbers of the ringers that rang. Contracts see what distinguishes it from every other bell, its degree,
/// which is how many ringers it was opened with, the numbers that it reported, the checks that found no ring left, and
/// whether a wait was ever refused.
#[derive(Drop)]
pub struct Bell {
    degree: u32,
    receiver: RuledReceiver<u32, Part, OfRingers>,
    pass: Pass<u32, Part>,
    sleeper: Arc<Sleeper, Global>,
    parker: CountedParker,
    refused: bool,
    empty_checks: EmptyChecks,
}

impl Model for Bell {
    ghost use Rattle.dine_link.specs.Bells.{SeenBell};

    ghost Value = { SeenBell };

    ghost use Rattle.dine_link.specs.private.BellFields.{seen_bell, IsBell};

    ghost view = { seen_bell };

    ghost invariant = { IsBell };
}

impl Bell {
    /// Opens a bell with `degree` ringers, and returns it with them, in the order of their numbers from 0. They ring
    /// this bell, and none of them has rung.
    ///
    /// The bell has capacity for four rings for each ringer, and for at least one. If there are no ringers, nobody can
    /// ring it.
    ///
    /// # Errors
    ///
    /// `Memory` if an allocation fails.
    pub fn open(alloc: Global, degree: u32) -> Result<(Vec<Ringer>, Bell), LinkFault>
        ensures ringers { IfOk result
            (λ opened. opened.0.items ≡ map (new_ringer opened.1.identity) (range_with_len 0 degree)) }
        ensures bell { IfOk result (λ opened. opened.1 ≡ new_bell opened.1.identity degree) }
    {
        let Ok((sender, receiver, mut pass)) = bounded_with::<u32, Part, OfRingers, Global>(
            alloc,
            room_of(degree),
        ) else {
            return Err(LinkFault::Memory);
        };
        let Ok(sleeper) = Arc::new(alloc, Sleeper::new()) else {
            return Err(LinkFault::Memory);
        };
        let Ok(parker) = CountedParker::open(alloc) else {
            return Err(LinkFault::Memory);
        };
        let Ok(ringers) = make_ringers(alloc, degree, &sender, &sleeper, &parker, &mut pass) else {
            return Err(LinkFault::Memory);
        };
        let bell = Bell {
            degree,
            receiver,
            pass,
            sleeper,
            parker,
            refused: false,
            empty_checks: EmptyChecks::none(),
        };
        Ok((ringers, bell))
    }

    /// Returns the number of a ringer that rang, which is below the degree. Each ring is reported once. It may wait: if
    /// no ring is left to report, it sleeps until any ring wakes it.
    ///
    /// # Errors
    ///
    /// `Lost` if the channel of the bell refuses. Then no ring was taken from the bell, and the bell keeps that a wait
    /// was refused.
    pub fn wait<R: Wait>(&mut self, rt: &R) -> Result<u32, Lost>
        ensures below { IfOk result (λ number. number < self.new.degree) }
        ensures reported { MatchResult result
            (λ number. self.new ≡ after_report number self.old)
            (λ _. self.new ≡ after_refused_wait self.old) }
    {
        let mut unread = ThreadLog::start();
        self.wait_for(rt, Wants::anything(), &mut unread)
    }

    /// Returns the number of a ringer that rang, as [`Bell::wait`] does, except that fewer rings wake it. While it
    /// sleeps it is woken by a ring that it wants, by a ring that is for no letter ([`Ringer::ring`]), and by the ring
    /// that fills its capacity. It keeps any other ring until then, and reports it in its turn.
    ///
    /// The log notes the ring that it reports, and before that whether it fell asleep.
    ///
    /// # Errors
    ///
    /// `Lost`, as [`Bell::wait`].
    pub fn wait_for<R: Wait>(
        &mut self,
        rt: &R,
        wants: Wants,
        log: &mut ThreadLog,
    ) -> Result<u32, Lost>
        ensures below { IfOk result (λ number. number < self.new.degree) }
        ensures reported { MatchResult result
            (λ number. self.new ≡ after_report number self.old)
            (λ _. self.new ≡ after_refused_wait self.old) }
        ensures noted { MatchResult result
            (λ number. HasWaited wants number log.old.deeds log.new.deeds)
            (λ _. log.new.deeds ≡ log.old.deeds ++ Slept wants ∷ []) }
    {
        if let Some(number) = self.next_ring(rt) {
            *log = log.after(&Deed::Heard(number));
            return Ok(number);
        }
        if let Some(number) = self.fall_asleep(rt, wants, log) {
            *log = log.after(&Deed::Heard(number));
            return Ok(number);
        }
        self.sleeper.sleep(rt, &mut self.parker);
        let Ok(number) = self.receiver.recv_as::<Hears, R>(rt, &mut self.pass) else {
            self.refused = true;
            return Err(Lost);
        };
        *log = log.after(&Deed::Heard(number));
        Ok(number)
    }

    /// Returns the number of a ringer that rang if a ring is left to report, and else `None`, at once. It never sleeps.
    pub fn try_wait<R: Wait>(&mut self, rt: &R) -> Option<u32>
        ensures below { IfSome result (λ number. number < self.new.degree) }
        ensures reported { MatchOption result
            (self.new ≡ self.old)
            (λ number. self.new ≡ after_report number self.old) }
    {
        self.next_ring(rt)
    }

    /// The same, by the site of the bell, which has a clock. Contracts then see of each check that found no ring left
    /// how many events the site had done. The log notes the ring that it reports, or that there was none. It costs no
    /// more than [`Bell::try_wait`].
    pub fn check<R: Wait>(&mut self, rt: &R, clock: &Clock, log: &mut ThreadLog) -> Option<u32>
        ensures below { IfSome result (λ number. number < self.new.degree) }
        ensures reported { MatchOption result
            (self.new ≡ after_empty_check (length clock.now.events) self.old)
            (λ number. self.new ≡ after_report number self.old) }
        ensures noted { MatchOption result
            (log.new.deeds ≡ log.old.deeds ++ FoundNone ∷ [])
            (λ number. log.new.deeds ≡ log.old.deeds ++ Heard number ∷ []) }
    {
        let found = self
            .empty_checks
            .next_or_add::<Part, OfRingers, Hears, R>(rt, &self.receiver, &mut self.pass, clock);
        match found {
            None => {
                *log = log.after(&Deed::FoundNone);
                None
            }
            Some(number) => {
                *log = log.after(&Deed::Heard(number));
                Some(number)
            }
        }
    }

    /// Returns the checks that found no ring left, which proofs alone read.
    pub fn into_empty_checks(self) -> EmptyChecks
        ensures { result.at ≡ self.found_empty }
    {
        self.empty_checks
    }

    // Returns the number of a ringer that rang, if a ring is left to report.
    fn next_ring<R: Wait>(&mut self, rt: &R) -> Option<u32>
        ensures below { IfSome result (λ number. number < self.new.degree) }
        ensures reported { MatchOption result
            (self.new ≡ self.old)
            (λ number. self.new ≡ after_report number self.old) }
    {
        self.receiver
            .try_recv_as::<Hears, R>(rt, &mut self.pass)
            .ok()
    }

    // The same, and if no ring is left, the bell is noted as asleep. A ringer sends its number and notes it under the
    // same lock, so each ring is either reported here or finds the bell asleep.
    fn fall_asleep<R: Wait>(&mut self, rt: &R, wants: Wants, log: &mut ThreadLog) -> Option<u32>
        ensures below { IfSome result (λ number. number < self.new.degree) }
        ensures reported { MatchOption result
            (self.new ≡ self.old)
            (λ number. self.new ≡ after_report number self.old) }
        ensures slept { MatchOption result
            (log.new.deeds ≡ log.old.deeds ++ Slept wants ∷ [])
            (λ _. log.new.deeds ≡ log.old.deeds) }
    {
        let room = room_of(self.degree);
        let mut state = self.sleeper.state.lock(rt);
        next_ring_or_sleep(
            rt,
            &self.receiver,
            &mut self.pass,
            &mut state,
            wants,
            room,
            log,
        )
    }
}

// Returns the number of a ringer that rang, if a ring is left to report. Only if none is left, the state notes that the
// bell falls asleep, with these wants and with capacity for `room` rings, and the log notes it.
fn next_ring_or_sleep<R: Wait>(
    rt: &R,
    receiver: &RuledReceiver<u32, Part, OfRingers>,
    pass: &mut Pass<u32, Part>,
    state: &mut SleepState,
    wants: Wants,
    room: usize,
    log: &mut ThreadLog,
) -> Option<u32>
    requires seated { IsSeatAt (receives_on receiver.now) pass.old }
    ensures seated { IsSeatAt (receives_on receiver.now) pass.new }
    ensures heard { HasHeard result (view pass.old) (view pass.new) }
    ensures noted { MatchOption result
        (state.new ≡ record { asleep = true; wants = wants; room = room })
        (λ _. state.new ≡ state.old) }
    ensures slept { MatchOption result
        (log.new.deeds ≡ log.old.deeds ++ Slept wants ∷ [])
        (λ _. log.new.deeds ≡ log.old.deeds) }
{
    let heard = state.next_or_sleep::<Part, OfRingers, Hears, R>(rt, receiver, pass, wants, room);
    if heard.is_none() {
        *log = log.after_sleep(&wants);
    }
    heard
}

// Returns for how many rings that it has not reported yet a bell of that degree has capacity.
fn room_of(degree: u32) -> usize
    ensures { result ≡ max (4 * degree) 1 }
{
    (RINGS_EACH * degree as usize).max(1)
}

// Makes the ringers of a new bell, in the order of their numbers.
fn make_ringers(
    alloc: Global,
    degree: u32,
    sender: &RuledSender<u32, Part, OfRingers>,
    sleeper: &Arc<Sleeper, Global>,
    parker: &CountedParker,
    pass: &mut Pass<u32, Part>,
) -> Result<Vec<Ringer>, AllocError>
    requires seated { IsSeatAt (sends_on sender.now) pass.old }
    requires first { view pass.old ≡ no_ringers }
    ensures seated { IsSeatAt (sends_on sender.now) pass.new }
    ensures knows { IfOk result (λ _. view pass.new ≡ Waits degree []) }
    ensures ringers { IfOk result
        (λ ringers. ringers.items ≡ map (new_ringer (sends_on sender.now)) (range_with_len 0 degree)) }
{
    let mut ringers = Vec::with_capacity(alloc, degree as usize)?;
    for number in 0..degree {
        let sender_too = sender.try_clone()?;
        let waker = Waker::of(sleeper, parker)?;
        let own = sender.another::<NextRinger>(pass);
        ringers.push_reserved(Ringer {
            number,
            sender: sender_too,
            pass: own,
            waker,
            refused: false,
        });
    }
    Ok(ringers)
}

impl Ringer {
    /// Rings the bell with the ringer's number, and wakes it, whatever it waits for. It may wait, if the bell has no
    /// capacity left.
    ///
    /// # Errors
    ///
    /// `Lost` if the channel of the bell refuses. Then the bell was not rung, and the ringer keeps that a ring was
    /// refused.
    pub fn ring<R: Wait>(&mut self, rt: &R) -> Result<(), Lost>
        ensures { MatchResult result
            (λ _. self.new ≡ after_ring self.old)
            (λ _. self.new ≡ after_refused_ring self.old) }
    {
        self.send(rt)?;
        let slept = self.waker.sleeper.state.lock(rt).wake();
        // No log notes this ring: who rings for no letter does no step of a site.
        let mut unread = ThreadLog::start();
        self.waker.wake_if(slept, self.number, &mut unread);
        Ok(())
    }

    // Sends the number. It may wait, if the bell has no capacity left.
    fn send<R: Wait>(&mut self, rt: &R) -> Result<(), Lost>
        ensures { MatchResult result
            (λ _. self.new ≡ after_ring self.old)
            (λ _. self.new ≡ after_refused_ring self.old) }
    {
        let rung = self
            .sender
            .send_as::<Sounds, R>(rt, &mut self.pass, self.number);
        if rung.is_err() {
            self.refused = true;
            return Err(Lost);
        }
        Ok(())
    }

    /// Rings the bell for a letter of that kind, as [`Ringer::ring`] does, except that a bell that sleeps is woken only
    /// if it wants that letter, or if the ring fills its capacity. If the bell has no capacity left, the ringer waits,
    /// and then the bell is woken. The log notes the ring, as one at this place of the site that rings, and behind it
    /// that the bell's thread was woken, if it was.
    ///
    /// # Errors
    ///
    /// `Lost`, as [`Ringer::ring`].
    pub fn ring_for<R: Wait>(
        &mut self,
        rt: &R,
        kind: LetterKind,
        place: u32,
        log: &mut ThreadLog,
    ) -> Result<(), Lost>
        ensures rung { MatchResult result
            (λ _. self.new ≡ after_ring self.old)
            (λ _. self.new ≡ after_refused_ring self.old) }
        ensures noted { MatchResult result
            (λ _. HasRungFor place kind log.old.deeds log.new.deeds)
            (λ _. log.new.deeds ≡ log.old.deeds) }
    {
        let woken = self.sound_or_wait(rt, kind, place, log)?;
        self.waker.wake_if(woken, place, log);
        Ok(())
    }

    // Sends the number, and returns whether the bell has to be woken. The log notes the ring. If the bell has no
    // capacity left, it waits, and then the bell has to be woken if it sleeps.
    fn sound_or_wait<R: Wait>(
        &mut self,
        rt: &R,
        kind: LetterKind,
        place: u32,
        log: &mut ThreadLog,
    ) -> Result<bool, Lost>
        ensures rung { MatchResult result
            (λ _. self.new ≡ after_ring self.old)
            (λ _. self.new ≡ after_refused_ring self.old) }
        ensures noted { MatchResult result
            (λ woken. log.new.deeds ≡ log.old.deeds ++ Rang place kind woken ∷ [])
            (λ _. log.new.deeds ≡ log.old.deeds) }
    {
        match self.sound(rt, kind, place, log) {
            Ok(woken) => Ok(woken),
            Err(TrySendError::Full(_)) => {
                self.send(rt)?;
                let mut state = self.waker.sleeper.state.lock(rt);
                Ok(wake_and_note(&mut state, kind, place, log))
            }
            Err(_) => {
                self.refused = true;
                Err(Lost)
            }
        }
    }

    /// Returns whether the bell sleeps, for tests and measurements. That may have changed when the call returns.
    pub(crate) fn finds_asleep<R: Wait>(&self, rt: &R) -> bool {
        self.waker.sleeper.state.lock(rt).is_asleep()
    }

    // Sends the number if there is capacity, and returns whether the bell has to be woken. The log notes the ring. All
    // is done under one lock: a bell that falls asleep finds the ring, or the ring finds the bell asleep.
    fn sound<R: Wait>(
        &mut self,
        rt: &R,
        kind: LetterKind,
        place: u32,
        log: &mut ThreadLog,
    ) -> Result<bool, TrySendError<u32>>
        ensures rung { MatchResult result (λ _. self.new ≡ after_ring self.old) (λ _. self.new ≡ self.old) }
        ensures noted { MatchResult result
            (λ woken. log.new.deeds ≡ log.old.deeds ++ Rang place kind woken ∷ [])
            (λ _. log.new.deeds ≡ log.old.deeds) }
    {
        let number = self.number;
        let mut state = self.waker.sleeper.state.lock(rt);
        send_and_note(
            rt,
            &self.sender,
            &mut self.pass,
            &mut state,
            number,
            kind,
            place,
            log,
        )
    }
}

// Sends the ringer's number if there is capacity, notes the ring, and returns whether it wakes the bell. The log notes
// the ring, with what is returned. If nothing is sent, nothing is noted.
fn send_and_note<R: Wait>(
    rt: &R,
    sender: &RuledSender<u32, Part, OfRingers>,
    pass: &mut Pass<u32, Part>,
    state: &mut SleepState,
    number: u32,
    kind: LetterKind,
    place: u32,
    log: &mut ThreadLog,
) -> Result<bool, TrySendError<u32>>
    requires seated { IsSeatAt (sends_on sender.now) pass.old }
    requires own { IsOfRinger number (view pass.old) }
    ensures seated { IsSeatAt (sends_on sender.now) pass.new }
    ensures sent { MatchResult result
        (λ _. view pass.new ≡ after_sound (view pass.old))
        (λ _. view pass.new ≡ view pass.old) }
    ensures noted { MatchResult result
        (λ woken. NotesRing number kind state.old state.new woken)
        (λ _. state.new ≡ state.old) }
    ensures rang { MatchResult result
        (λ woken. log.new.deeds ≡ log.old.deeds ++ Rang place kind woken ∷ [])
        (λ _. log.new.deeds ≡ log.old.deeds) }
{
    sender.try_send_as::<Sounds, R>(rt, pass, number)?;
    let woken = state.note(number, kind);
    *log = log.after(&Deed::Rang(place, kind, woken));
    Ok(woken)
}

// Ends the sleep of a bell whose ringer had to wait, whatever it wants, and returns whether it slept. The log notes the
// ring, with what is returned.
fn wake_and_note(state: &mut SleepState, kind: LetterKind, place: u32, log: &mut ThreadLog) -> bool
    ensures slept { result ≡ state.old.asleep }
    ensures awake { state.new.asleep ≡ false }
    ensures rang { log.new.deeds ≡ log.old.deeds ++ Rang place kind result ∷ [] }
{
    let slept = state.wake();
    *log = log.after(&Deed::Rang(place, kind, slept));
    slept
}
