// A site while it runs: what it does from event to event.
ghost use Rattle.std.specs.Prelude.{◌≡◌, ◌<◌, ◌≤◌, ◌+◌, ◌++◌, ◌∷◌, [], ◌^◌, List, OnOk, length, true, false};
ghost use Rattle.std.specs.Prelude.{IfSome, MatchOption, MatchResult, None, Ok, Some, if◌then◌else◌};
ghost use Rattle.std.specs.Prelude.{replicate, slice_get, slice_set, vec_capacity, vec_len};
ghost use Rattle.dine_graph.specs.Plan.{SeenPlan};
ghost use Rattle.dine_rules.specs.Letters.{has_close};
ghost use Rattle.dine_rules.specs.Local.{traffic_at};
ghost use Rattle.dine_rules.specs.Moments.{last_moment};
ghost use Rattle.dine_site.specs.NextEvent.{can_by_itself};
ghost use Rattle.dine_site.specs.Standing.{ForEachState, has_finished};
ghost use Rattle.dine_site.specs.CoreWants.{can_put_off_by_lists, wants_by_lists, wants_of};
ghost use Rattle.dine_link.specs.Closing.{is_close};
ghost use Rattle.dine_link.specs.Bells.{after_report};
ghost use Rattle.dine_link.specs.Waking.{seen_wants};
ghost use Rattle.dine_site_thread.specs.Doings.{is_checking, is_on_call, puts_letters_off, tally_then};
ghost use Rattle.dine_site_thread.specs.Ports.{SeenPort, seen_ports};
ghost use Rattle.dine_site_thread.specs.private.PortSteps.{ChangesAt, LogsClose, SendsClose};
ghost use Rattle.dine_site_thread.specs.SiteEnds.{IsSiteEnd, seen_site_end};
ghost use Rattle.dine_site_thread.specs.private.Running.{ChecksOn, ClosedBelow, ForSomePlan, GoesOn, GoesToEnd};
ghost use Rattle.dine_site_thread.specs.private.Running.{HasStopped, IsNext};
ghost use Rattle.dine_site_thread.specs.private.Running.{IsPutting, IsReady, IsRunning, IsTimedBut, IsTimedRun, Leads};
ghost use Rattle.dine_site_thread.specs.private.Running.{MayEnd, MayProceed, MayTakeNow, Proceeds, SameMeals};
ghost use Rattle.dine_site_thread.specs.private.Running.{StaysStopped};
ghost use Rattle.dine_site_thread.specs.private.Running.{HasHeardAt, HasRecalled, IsIdle, IsToEat, IsToRing, IsToTake};
ghost use Rattle.dine_site_thread.specs.private.Running.{IsWorking, MattersFirst, WorksOn, checked_by, memo_of};
ghost use Rattle.dine_site_thread.specs.private.Running.{seen_run};
ghost use Rattle.dine_site_thread.specs.Threads.{checking};
ghost use Rattle.dine_link.specs.declared.deed.Deed.TheVariants.{Did, Heard};

use crate::diner::Diner;
use crate::manner::{FIRST_CHECK, Manner};
use crate::port::{Closed, Port, Sent};
use crate::site_end::{SiteEnd, SiteFault, Stray};
use dine_link::{Bell, Lane, Lost, ThreadLog, Wants};
use dine_rules::{Clock, EventKind, Letter, Stamp, laws};
use dine_set::BitSet64;
use dine_site::SiteCore;
use std::sync::Wait;

// The first fault, with the letter that was handed back.
#[derive(Drop)]
pub struct Stop {
    pub fault: SiteFault,
    pub stray: Option<Stray>,
}

// A site with its manner, its link ends, its bell, its diner, how many jobs of its meals failed, what it did, the log
// of its thread, the places that rang and whose letter it has put off, and its tally: how many meals it is to begin
// without a check of its bell or, if it is greedy, how many it has begun.
pub struct Running<L: Lane, D: Diner> {
    manner: Manner,
    core: SiteCore,
    ports: Vec<Port<L>>,
    bell: Bell,
    diner: D,
    failed: u32,
    journal: Vec<EventKind>,
    clock: Clock,
    log: ThreadLog,
    put_off: BitSet64,
    tally: u32,
}

impl<L: Lane, D: Diner> Running<L, D> {
    pub fn new(
        manner: Manner,
        core: SiteCore,
        ports: Vec<Port<L>>,
        bell: Bell,
        diner: D,
        journal: Vec<EventKind>,
        clock: Clock,
        log: ThreadLog,
    ) -> Running<L, D>
        ensures { result ≡ record {
          manner = manner;
          core = core;
          ports = ports;
          bell = bell;
          diner = diner;
          failed = 0;
          journal = journal;
          clock = clock;
          log = log;
          put_off = replicate 64 false;
          tally = 0;
        } }
    {
        Running {
            manner,
            core,
            ports,
            bell,
            diner,
            failed: 0,
            journal,
            clock,
            log,
            put_off: BitSet64::empty(),
            tally: 0,
        }
    }

    // Goes on until the site is finished, or until a fault.
    pub fn work<R: Wait>(&mut self, rt: &R) -> Result<(), Stop>
        requires ready { MayProceed L.Lane D.Diner self.old }
        ensures proceeds { Proceeds L.Lane D.Diner (GoesToEnd result) self.old self.new }
        ensures timed { OnOk result (IsTimedRun L.Lane self.old → IsTimedRun L.Lane self.new) }
        ensures checks { ChecksOn self.old self.new }
        ensures works { WorksOn L.Lane IsWorking result self.old self.new }
    {
        for _ in rt.forever() {
            self.do_events(rt)?;
            if self.core.is_finished() {
                return Ok(());
            }
            self.wait_and_take(rt)?;
        }
        unreachable!()
    }

    // Does events other than Take until there is none, or until the site is to think on.
    fn do_events<R: Wait>(&mut self, rt: &R) -> Result<(), Stop>
        requires ready { MayProceed L.Lane D.Diner self.old }
        ensures proceeds { Proceeds L.Lane D.Diner (GoesOn result) self.old self.new }
        ensures idle { OnOk result (IsIdle self.new.manner self.new.core) }
        ensures timed { OnOk result (IsTimedRun L.Lane self.old → IsTimedRun L.Lane self.new) }
        ensures checks { ChecksOn self.old self.new }
        ensures works { WorksOn L.Lane IsWorking result self.old self.new }
    {
        for _ in rt.forever() {
            match self.core.next_event() {
                Some(kind) => {
                    if self.thinks_on(rt, kind) {
                        return Ok(());
                    }
                    self.act(rt, kind)?;
                }
                None => return Ok(()),
            }
        }
        unreachable!()
    }

    // Returns whether the site thinks on, although it may grow hungry: it is on call, and its diner is not called.
    fn thinks_on<R: Wait>(&self, rt: &R, kind: EventKind) -> bool
        ensures on_call { result ≡ true → (kind ≡ EventKind.Hungry) × (is_on_call self.now.manner ≡ true) }
    {
        kind == EventKind::Hungry && is_on_call(self.manner) && !self.diner.is_called(rt)
    }

    // Does an event other than Take.
    fn act<R: Wait>(&mut self, rt: &R, kind: EventKind) -> Result<(), Stop>
        requires ready { MayProceed L.Lane D.Diner self.old }
        requires may { can_by_itself self.old.core kind ≡ true }
        requires next { IsNext (Some kind) self.old.core }
        ensures proceeds { Proceeds L.Lane D.Diner (GoesOn result) self.old self.new }
        ensures timed { OnOk result (IsTimedRun L.Lane self.old → IsTimedRun L.Lane self.new) }
        ensures checks { ChecksOn self.old self.new }
        ensures works { WorksOn L.Lane IsWorking result self.old self.new }
    {
        self.make_room(if kind == EventKind::Begin { 2 } else { 1 })?;
        self.perform(rt, kind)
    }

    // Allocates capacity for this number of further entries of the journal.
    fn make_room(&mut self, entries: usize) -> Result<(), Stop>
        ensures way { Leads L.Lane IsRunning (GoesOn result) self.old self.new }
        ensures running { OnOk result (seen_run L.Lane self.new ≡ seen_run L.Lane self.old) }
        ensures room { OnOk result (vec_len self.new.journal + entries ≤ vec_capacity self.new.journal) }
        ensures ready { IsReady D.Diner self.old → IsReady D.Diner self.new }
        ensures core { self.new.core ≡ self.old.core }
        ensures bell { self.new.bell ≡ self.old.bell }
        ensures same { SameMeals self.old self.new }
        ensures timed { IsTimedRun L.Lane self.old → IsTimedRun L.Lane self.new }
        ensures checks { ChecksOn self.old self.new }
        ensures log { self.new.log ≡ self.old.log }
        ensures memo { memo_of self.new ≡ memo_of self.old }
    {
        match self.journal.reserve(entries) {
            Ok(()) => Ok(()),
            Err(_) => Err(Stop {
                fault: SiteFault::Memory,
                stray: None,
            }),
        }
    }

    // Does an event other than Take, for which the journal has capacity.
    fn perform<R: Wait>(&mut self, rt: &R, kind: EventKind) -> Result<(), Stop>
        requires ready { MayProceed L.Lane D.Diner self.old }
        requires may { can_by_itself self.old.core kind ≡ true }
        requires next { IsNext (Some kind) self.old.core }
        requires room { vec_len self.old.journal < vec_capacity self.old.journal }
        requires room_for_end { kind ≡ EventKind.Begin
            → vec_len self.old.journal + 2 ≤ vec_capacity self.old.journal }
        ensures proceeds { Proceeds L.Lane D.Diner (GoesOn result) self.old self.new }
        ensures timed { OnOk result (IsTimedRun L.Lane self.old → IsTimedRun L.Lane self.new) }
        ensures checks { ChecksOn self.old self.new }
        ensures works { WorksOn L.Lane IsWorking result self.old self.new }
    {
        laws::journals_grow_by_each_event();
        match kind {
            EventKind::Give(i) => {
                let letter = self.core.give(i);
                note(
                    &mut self.journal,
                    &mut self.clock,
                    &mut self.log,
                    EventKind::Give(i),
                );
                self.put(rt, i, letter)
            }
            EventKind::Ask(i) => {
                let letter = self.core.ask(i);
                note(
                    &mut self.journal,
                    &mut self.clock,
                    &mut self.log,
                    EventKind::Ask(i),
                );
                self.put(rt, i, letter)
            }
            EventKind::Done(i) => {
                let letter = self.core.done(i);
                note(
                    &mut self.journal,
                    &mut self.clock,
                    &mut self.log,
                    EventKind::Done(i),
                );
                self.put(rt, i, letter)
            }
            EventKind::Close(i) => {
                let _ = self.core.close(i);
                note(
                    &mut self.journal,
                    &mut self.clock,
                    &mut self.log,
                    EventKind::Close(i),
                );
                self.close(rt, i)
            }
            EventKind::Begin => self.begin(rt),
            EventKind::Hungry => {
                self.core.hungry();
                note(
                    &mut self.journal,
                    &mut self.clock,
                    &mut self.log,
                    EventKind::Hungry,
                );
                Ok(())
            }
            EventKind::Quit => {
                self.core.quit();
                note(
                    &mut self.journal,
                    &mut self.clock,
                    &mut self.log,
                    EventKind::Quit,
                );
                Ok(())
            }
            EventKind::End | EventKind::Take(_) => unreachable!(),
        }
    }

    // Takes a letter that was put off and matters now, if the site checks before this meal and there is one. Else it
    // eats one meal, for whose begin and end the journal has capacity, or takes a letter whose ring is left.
    fn begin<R: Wait>(&mut self, rt: &R) -> Result<(), Stop>
        requires ready { MayProceed L.Lane D.Diner self.old }
        requires may { can_by_itself self.old.core EventKind.Begin ≡ true }
        requires next { IsNext (Some EventKind.Begin) self.old.core }
        requires room { vec_len self.old.journal + 2 ≤ vec_capacity self.old.journal }
        ensures proceeds { Proceeds L.Lane D.Diner (GoesOn result) self.old self.new }
        ensures timed { OnOk result (IsTimedRun L.Lane self.old → IsTimedRun L.Lane self.new) }
        ensures checks { ChecksOn self.old self.new }
        ensures works { WorksOn L.Lane IsWorking result self.old self.new }
    {
        match recall_before_meal(self.manner, self.tally, &self.core, &mut self.put_off) {
            Some(place) => self.take_recalled(rt, place),
            None => self.begin_meal(rt),
        }
    }

    // Eats one meal, for whose begin and end the journal has capacity. If the site checks its bell before this meal and
    // a ring is left, it takes a letter instead.
    fn begin_meal<R: Wait>(&mut self, rt: &R) -> Result<(), Stop>
        requires ready { MayProceed L.Lane D.Diner self.old }
        requires may { can_by_itself self.old.core EventKind.Begin ≡ true }
        requires next { IsNext (Some EventKind.Begin) self.old.core }
        requires room { vec_len self.old.journal + 2 ≤ vec_capacity self.old.journal }
        requires recalled { is_checking self.old.manner self.old.tally ≡ true
            → MattersFirst self.old.core (memo_of self.old) None }
        ensures proceeds { Proceeds L.Lane D.Diner (GoesOn result) self.old self.new }
        ensures timed { OnOk result (IsTimedRun L.Lane self.old → IsTimedRun L.Lane self.new) }
        ensures checks { ChecksOn self.old self.new }
        ensures works { WorksOn L.Lane IsWorking result self.old self.new }
    {
        match self.check_bell(rt) {
            Some(i) => self.take_where_rung(rt, i),
            None => {
                self.eat();
                Ok(())
            }
        }
    }

    // Returns the place of a ring that is left, if the site checks its bell before this meal and there is one. If it
    // returns none, it has counted the meal.
    fn check_bell<R: Wait>(&mut self, rt: &R) -> Option<u32>
        ensures rest { self.new
            ≡ record self.old { bell = self.new.bell; tally = self.new.tally; log = self.new.log } }
        ensures checking { IfSome result (λ _. is_checking self.old.manner self.old.tally ≡ true) }
        ensures bell { MatchOption result
            (self.new.bell ≡ checked_by self.old.manner self.old.tally (length self.old.clock.events) self.old.bell)
            (λ i. self.new.bell ≡ after_report i self.old.bell) }
        ensures tally { MatchOption result
            (self.new.tally ≡ tally_then self.old.manner self.old.tally)
            (λ _. self.new.tally ≡ self.old.tally) }
        ensures log { MatchOption result
            (self.new.log.deeds ≡ self.old.log.deeds ++ checking self.old.manner self.old.tally)
            (λ i. self.new.log.deeds ≡ self.old.log.deeds ++ Heard i ∷ []) }
    {
        let mut place = None;
        if is_checking(self.manner, self.tally) {
            place = self.bell.check(rt, &self.clock, &mut self.log);
        }
        if place.is_none() {
            self.tally = tally_then(self.manner, self.tally);
        }
        place
    }

    // Eats one meal, for whose begin and end the journal has capacity. The core learns whether its job failed.
    fn eat(&mut self)
        requires ready { MayProceed L.Lane D.Diner self.old }
        requires may { can_by_itself self.old.core EventKind.Begin ≡ true }
        requires next { IsNext (Some EventKind.Begin) self.old.core }
        requires room { vec_len self.old.journal + 2 ≤ vec_capacity self.old.journal }
        ensures proceeds { Proceeds L.Lane D.Diner IsRunning self.old self.new }
        ensures timed { IsTimedRun L.Lane self.old → IsTimedRun L.Lane self.new }
        ensures bell { self.new.bell ≡ self.old.bell }
        ensures journal { self.new.journal.items ≡ self.old.journal.items ++ EventKind.Begin ∷ EventKind.End ∷ [] }
        ensures noted { length self.new.clock.events ≡ length self.old.clock.events + 2 }
        ensures tally { self.new.tally ≡ self.old.tally }
        ensures works { WorksOn L.Lane IsToEat (Ok tt) self.old self.new }
    {
        laws::journals_grow_by_each_event();
        let meal = self.core.begin();
        note(
            &mut self.journal,
            &mut self.clock,
            &mut self.log,
            EventKind::Begin,
        );
        let ok = self.diner.eat(meal.k(), &meal).is_ok();
        self.failed += u32::from(!ok);
        self.core.end(meal, !ok);
        note(
            &mut self.journal,
            &mut self.clock,
            &mut self.log,
            EventKind::End,
        );
    }

    // Puts a letter other than Close, and rings.
    fn put<R: Wait>(&mut self, rt: &R, i: u32, letter: Letter) -> Result<(), Stop>
        requires putting { ForSomePlan L.Lane (IsPutting i letter) self.old }
        requires letter { is_close letter ≡ false }
        ensures way { Leads L.Lane (IsPutting i letter) (GoesOn result) self.old self.new }
        ensures same { SameMeals self.old self.new }
        ensures timed { OnOk result (IsTimedBut L.Lane i self.old → IsTimedRun L.Lane self.new) }
        ensures checks { ChecksOn self.old self.new }
        ensures works { WorksOn L.Lane (IsToRing i letter) result self.old self.new }
    {
        laws::few_letters_are_put();
        let stamp = self.clock.last();
        match self.ports[i as usize].put(rt, letter, stamp, i, &mut self.log) {
            Sent::Heard => Ok(()),
            Sent::Unheard => Err(self.lost_bell()),
            Sent::Refused(letter) => Err(Stop {
                fault: SiteFault::Lost(i),
                stray: Some(Stray { link: i, letter }),
            }),
        }
    }

    // Puts Close, and rings.
    fn close<R: Wait>(&mut self, rt: &R, i: u32) -> Result<(), Stop>
        requires putting { ForSomePlan L.Lane (IsPutting i Letter.Close) self.old }
        ensures way { Leads L.Lane (IsPutting i Letter.Close) (GoesOn result) self.old self.new }
        ensures same { SameMeals self.old self.new }
        ensures timed { OnOk result (IsTimedBut L.Lane i self.old → IsTimedRun L.Lane self.new) }
        ensures checks { ChecksOn self.old self.new }
        ensures works { WorksOn L.Lane (IsToRing i Letter.Close) result self.old self.new }
    {
        laws::few_letters_are_put();
        let stamp = self.clock.last();
        match close_at(rt, &mut self.ports, i, stamp, &mut self.log) {
            Closed::Heard => Ok(()),
            Closed::Unheard => Err(self.lost_bell()),
            Closed::Refused => Err(Stop {
                fault: SiteFault::Lost(i),
                stray: None,
            }),
        }
    }

    // Returns the fault of a ring or a wait that was refused.
    fn lost_bell(&self) -> Stop
        ensures { result ≡ record { fault = SiteFault.LostBell (length self.now.core.places); stray = None } }
    {
        Stop {
            fault: SiteFault::LostBell {
                degree: self.core.degree(),
            },
            stray: None,
        }
    }

    // Returns the letters that the site waits for: no other allows it an event of its own (`dine_site::waking`).
    fn wants(&self) -> Wants
        ensures wants { seen_wants result ≡ Some (wants_of self.now.core) }
        ensures by_lists { ForEachState self.now.core
            (λ plan state. seen_wants result ≡ Some (wants_by_lists plan self.now.core.site state)) }
    {
        Wants::of(self.core.dirty_places(), self.core.missing_forks())
    }

    // Takes a letter that was put off and matters now. If there is none, it waits for one that could matter.
    fn wait_and_take<R: Wait>(&mut self, rt: &R) -> Result<(), Stop>
        requires running { ForSomePlan L.Lane IsRunning self.old }
        requires idle { IsIdle self.old.manner self.old.core }
        requires unfinished { ForEachState self.old.core
            (λ plan state. has_finished plan self.old.core.site state ≡ false) }
        ensures way { Leads L.Lane IsRunning (GoesOn result) self.old self.new }
        ensures same { SameMeals self.old self.new }
        ensures timed { OnOk result (IsTimedRun L.Lane self.old → IsTimedRun L.Lane self.new) }
        ensures checks { ChecksOn self.old self.new }
        ensures works { WorksOn L.Lane IsWorking result self.old self.new }
    {
        match recall(&self.core, &mut self.put_off) {
            Some(place) => self.take_recalled(rt, place),
            None => self.hear_and_take(rt),
        }
    }

    // Waits for the bell until the site could do something, and takes a letter at the place that rang.
    fn hear_and_take<R: Wait>(&mut self, rt: &R) -> Result<(), Stop>
        requires running { ForSomePlan L.Lane IsRunning self.old }
        requires idle { IsIdle self.old.manner self.old.core }
        requires unfinished { ForEachState self.old.core
            (λ plan state. has_finished plan self.old.core.site state ≡ false) }
        requires none_matters { MattersFirst self.old.core (memo_of self.old) None }
        ensures way { Leads L.Lane IsRunning (GoesOn result) self.old self.new }
        ensures same { SameMeals self.old self.new }
        ensures timed { OnOk result (IsTimedRun L.Lane self.old → IsTimedRun L.Lane self.new) }
        ensures checks { ChecksOn self.old self.new }
        ensures works { WorksOn L.Lane IsWorking result self.old self.new }
    {
        let wants = self.wants();
        match self.bell.wait_for(rt, wants, &mut self.log) {
            Ok(i) => self.take_where_rung(rt, i),
            Err(Lost) => Err(self.lost_bell()),
        }
    }

    // Takes a letter at the place that rang, and none if Close was taken there, if the letter is put off, or if it was
    // no place that rang.
    fn take_where_rung<R: Wait>(&mut self, rt: &R, i: u32) -> Result<(), Stop>
        requires running { ForSomePlan L.Lane IsRunning self.old }
        requires turn { MayTakeNow self.old.manner self.old.core }
        ensures way { Leads L.Lane IsRunning (GoesOn result) self.old self.new }
        ensures same { SameMeals self.old self.new }
        ensures timed { OnOk result (IsTimedRun L.Lane self.old → IsTimedRun L.Lane self.new) }
        ensures checks { ChecksOn self.old self.new }
        ensures works { WorksOn L.Lane (HasHeardAt i) result self.old self.new }
    {
        if i >= self.core.degree() {
            return Ok(());
        }
        if self.core.has_taken_close(i) {
            return Ok(());
        }
        if puts_off(self.manner, &self.core, &mut self.put_off, i) {
            return Ok(());
        }
        self.take(rt, i)
    }

    // Takes the letter at this place that was put off and matters now, and none if Close was taken there, or if it is
    // no place.
    fn take_recalled<R: Wait>(&mut self, rt: &R, place: u32) -> Result<(), Stop>
        requires running { ForSomePlan L.Lane IsRunning self.old }
        requires turn { MayTakeNow self.old.manner self.old.core }
        ensures way { Leads L.Lane IsRunning (GoesOn result) self.old self.new }
        ensures same { SameMeals self.old self.new }
        ensures timed { OnOk result (IsTimedRun L.Lane self.old → IsTimedRun L.Lane self.new) }
        ensures checks { ChecksOn self.old self.new }
        ensures works { WorksOn L.Lane (HasRecalled place) result self.old self.new }
    {
        if place >= self.core.degree() {
            return Ok(());
        }
        if self.core.has_taken_close(place) {
            return Ok(());
        }
        self.take(rt, place)
    }

    // Takes a letter at a place where Close was not taken.
    fn take<R: Wait>(&mut self, rt: &R, i: u32) -> Result<(), Stop>
        requires running { ForSomePlan L.Lane IsRunning self.old }
        requires place { i < length self.old.core.places }
        requires not_closed { ForEachState self.old.core (λ plan state. has_close (traffic_at state i).taken ≡ false) }
        requires turn { MayTakeNow self.old.manner self.old.core }
        ensures way { Leads L.Lane IsRunning (GoesOn result) self.old self.new }
        ensures same { SameMeals self.old self.new }
        ensures timed { OnOk result (IsTimedRun L.Lane self.old → IsTimedRun L.Lane self.new) }
        ensures checks { ChecksOn self.old self.new }
        ensures works { WorksOn L.Lane (IsToTake i) result self.old self.new }
    {
        self.make_room(1)?;
        self.take_and_note(rt, i)
    }

    // Takes a letter there and notes the Take in the journal, which has capacity for it.
    fn take_and_note<R: Wait>(&mut self, rt: &R, i: u32) -> Result<(), Stop>
        requires running { ForSomePlan L.Lane IsRunning self.old }
        requires place { i < length self.old.core.places }
        requires not_closed { ForEachState self.old.core (λ plan state. has_close (traffic_at state i).taken ≡ false) }
        requires turn { MayTakeNow self.old.manner self.old.core }
        requires room { vec_len self.old.journal < vec_capacity self.old.journal }
        ensures way { Leads L.Lane IsRunning (GoesOn result) self.old self.new }
        ensures same { SameMeals self.old self.new }
        ensures timed { OnOk result (IsTimedRun L.Lane self.old → IsTimedRun L.Lane self.new) }
        ensures checks { ChecksOn self.old self.new }
        ensures works { WorksOn L.Lane (IsToTake i) result self.old self.new }
    {
        laws::few_letters_are_taken();
        laws::journals_grow_by_each_event();
        match self.ports[i as usize].take(rt) {
            Ok((letter, stamp)) => match self.core.take(i, letter) {
                Ok(()) => {
                    self.journal.push_reserved(EventKind::Take(i));
                    self.clock = self.clock.after(&EventKind::Take(i), &stamp);
                    self.log = self.log.after_event(EventKind::Take(i));
                    Ok(())
                }
                Err((letter, breach)) => Err(Stop {
                    fault: SiteFault::Breach(i, breach),
                    stray: Some(Stray { link: i, letter }),
                }),
            },
            Err(Lost) => Err(Stop {
                fault: SiteFault::Lost(i),
                stray: None,
            }),
        }
    }

    // Puts Close at each place where the site has put none, in order. Faults that it meets are not reported.
    pub fn break_off<R: Wait>(&mut self, rt: &R)
        requires stopped { HasStopped L.Lane self.old }
        ensures way { StaysStopped L.Lane self.old self.new }
        ensures closed { ClosedBelow (length self.new.core.places) self.new.core }
        ensures same { SameMeals self.old self.new }
        ensures checks { ChecksOn self.old self.new }
    {
        for i in 0..self.core.degree() {
            self.break_at(rt, i);
        }
    }

    // Puts Close at a place, if the site has put none there, and rings.
    fn break_at<R: Wait>(&mut self, rt: &R, i: u32)
        requires stopped { HasStopped L.Lane self.old }
        requires place { i < length self.old.core.places }
        requires before { ClosedBelow i self.old.core }
        ensures way { StaysStopped L.Lane self.old self.new }
        ensures closed { ClosedBelow (i + 1) self.new.core }
        ensures places { length self.new.core.places ≡ length self.old.core.places }
        ensures same { SameMeals self.old self.new }
        ensures checks { ChecksOn self.old self.new }
    {
        laws::few_letters_are_put();
        let Some(_) = self.core.break_off(i) else {
            return;
        };
        let _ = close_at(rt, &mut self.ports, i, Stamp::first(), &mut self.log);
    }

    // Returns what the site leaves.
    pub fn end(self, stray: Option<Stray>, fault: Option<SiteFault>) -> SiteEnd<L, D>
        requires may_end { ForSomePlan L.Lane (MayEnd stray fault) self }
        ensures end { (plan : SeenPlan) (given : List (SeenPort L.Identity))
            → MayEnd stray fault plan given (seen_run L.Lane self)
            → IsSiteEnd self.manner plan self.core.site given (seen_site_end L.Lane result) }
        ensures ate { result.ate ≡ self.core.ate }
        ensures failed { result.failed ≡ self.failed }
        ensures journal { result.journal.items ≡ self.journal.items }
        ensures clock { result.clock.events ≡ self.clock.events }
        ensures log { result.log.deeds ≡ self.log.deeds }
        ensures left { result.ports.items ≡ self.ports.items }
        ensures bell { result.bell ≡ self.bell }
        ensures diner { result.diner ≡ self.diner }
        ensures reported { result.fault ≡ fault }
    {
        laws::letters_cut_short_are_in_order();
        let Running {
            manner: _,
            core,
            ports,
            bell,
            diner,
            failed,
            journal,
            clock,
            log,
            put_off: _,
            tally: _,
        } = self;
        let site = core.site();
        let ate = core.ate();
        let parts = core.into_parts();
        SiteEnd {
            site,
            ate,
            failed,
            diner,
            forks: parts.forks,
            tokens: parts.tokens,
            journal,
            clock,
            log,
            ports,
            bell,
            stray,
            fault,
        }
    }
}

// Notes an event that takes no letter: in the journal, which has capacity for it, on the clock, and in the log.
fn note(journal: &mut Vec<EventKind>, clock: &mut Clock, log: &mut ThreadLog, kind: EventKind)
    requires room { vec_len journal.old < vec_capacity journal.old }
    ensures journal { journal.new.items ≡ journal.old.items ++ kind ∷ [] }
    ensures capacity { vec_capacity journal.new ≡ vec_capacity journal.old }
    ensures clock { clock.new.events ≡ clock.old.events ++ (kind, last_moment clock.old.events + 1) ∷ [] }
    ensures log { log.new.deeds ≡ log.old.deeds ++ Did kind ∷ [] }
{
    journal.push_reserved(kind);
    *clock = clock.after(&kind, &Stamp::first());
    *log = log.after_event(kind);
}

// Returns the first place whose letter was put off and matters now: the fork there has become dirty. It is put off no
// longer.
fn recall(core: &SiteCore, put_off: &mut BitSet64) -> Option<u32>
    ensures first { MattersFirst core.now (record { put_off = put_off.old; tally = 0 }) result }
    ensures recalled { MatchOption result
        (put_off.new ≡ put_off.old) (λ i. put_off.new ≡ slice_set put_off.old i false) }
{
    let i = put_off.intersection(core.dirty_places()).first()?;
    put_off.remove(i);
    Some(i)
}

// The same before a meal, if the site checks its bell before it.
fn recall_before_meal(
    manner: Manner,
    tally: u32,
    core: &SiteCore,
    put_off: &mut BitSet64,
) -> Option<u32>
    ensures none { result ≡ None → is_checking manner tally ≡ true
        → MattersFirst core.now (record { put_off = put_off.old; tally = 0 }) None }
    ensures some { IfSome result (λ i. (is_checking manner tally ≡ true)
        × MattersFirst core.now (record { put_off = put_off.old; tally = 0 }) (Some i)) }
    ensures recalled { MatchOption result
        (put_off.new ≡ put_off.old) (λ i. put_off.new ≡ slice_set put_off.old i false) }
{
    if !is_checking(manner, tally) {
        return None;
    }
    recall(core, put_off)
}

// Returns whether a site of this manner checks its bell before its next meal, by its tally.
fn is_checking(manner: Manner, tally: u32) -> bool
    ensures { result ≡ is_checking manner tally }
{
    match manner {
        Manner::Eager => false,
        Manner::Greedy => tally >= FIRST_CHECK && tally.is_power_of_two(),
        Manner::Patient(_) | Manner::OnCall(_) => tally == 0,
    }
}

// Returns whether a site of this manner may think on although it has jobs left.
fn is_on_call(manner: Manner) -> bool
    ensures { result ≡ is_on_call manner }
{
    matches!(manner, Manner::OnCall(_))
}

// Returns the tally of a site of this manner after its next meal.
fn tally_then(manner: Manner, tally: u32) -> u32
    ensures { result ≡ tally_then manner tally }
{
    match manner {
        Manner::Eager => 0,
        Manner::Greedy => tally.saturating_add(1),
        Manner::Patient(k) | Manner::OnCall(k) if tally == 0 => k.saturating_sub(1),
        Manner::Patient(_) | Manner::OnCall(_) => tally - 1,
    }
}

// Returns whether a site of this manner puts letters off.
fn puts_letters_off(manner: Manner) -> bool
    ensures { result ≡ puts_letters_off manner }
{
    !matches!(manner, Manner::Eager)
}

// Puts off the letter at a place that rang, and returns true, if sites of this manner do so, it can be put off until
// the next meal, and none there is put off yet. The letter stays in its link.
fn puts_off(manner: Manner, core: &SiteCore, put_off: &mut BitSet64, i: u32) -> bool
    requires { i < length core.now.places }
    ensures manner { result ≡ true → puts_letters_off manner ≡ true }
    ensures first { result ≡ true → slice_get put_off.old i ≡ Some false }
    ensures may { result ≡ true
        → ForEachState core.now (λ plan state. can_put_off_by_lists plan core.now.site state i ≡ true) }
    ensures marks { put_off.new ≡ (if result then slice_set put_off.old i true else put_off.old) }
{
    if !puts_letters_off(manner) || i >= 64 || put_off.has(i) || !core.may_put_off(i) {
        return false;
    }
    put_off.insert(i);
    true
}

// Puts Close at place i, whose end is live, and rings. If the link refuses it, the end stays live.
fn close_at<R: Wait, L: Lane>(
    rt: &R,
    ports: &mut Vec<Port<L>>,
    i: u32,
    stamp: Stamp,
    log: &mut ThreadLog,
) -> Closed
    requires place { i < vec_len ports.old }
    requires live { IfSome (slice_get (seen_ports L.Lane ports.old.items) i) (λ port. port.is_live ≡ true) }
    requires few_letters { IfSome (slice_get (seen_ports L.Lane ports.old.items) i)
        (λ port. length port.tx.letters < 2 ^ 61) }
    ensures count { vec_len ports.new ≡ vec_len ports.old }
    ensures closed { ChangesAt i (λ old new. SendsClose stamp.at old new result)
        (seen_ports L.Lane ports.old.items) (seen_ports L.Lane ports.new.items) }
    ensures noted { LogsClose i log.old.deeds log.new.deeds result }
{
    // The last port stands in for this one until it comes back: an end has to be owned to be closed.
    let (port, closed) = ports.swap_remove(i as usize).close(rt, stamp, i, log);
    let last = ports.len();
    ports.push_reserved(port);
    ports.swap(i as usize, last);
    closed
}
