//! Links over rings.
ghost use Rattle.std.specs.Prelude.{◌≡◌, ◌<◌, ◌^◌, true, false, length, IfOk, IsOk};
ghost use Rattle.rtrb.specs.Ring.{sent, received};
ghost use Rattle.dine_rules.specs.declared.letters.Letter.TheVariants.{Close};
ghost use Rattle.dine_rules.specs.Letters.{has_close};
ghost use Rattle.dine_rules.specs.Streams.{is_close_last};
ghost use Rattle.dine_link.specs.Closing.{is_close, ends_in_close};
ghost use Rattle.dine_link.specs.Stamps.{letters_in};
ghost use mathlib.Core.List.{IsPrefix};

use crate::backoff::Backoff;
use crate::closing::is_close;
use crate::faults::{LinkFault, Lost};
use crate::lane::{Lane, TxEnd};
use crate::link_end::{EndPair, LinkEnd};
use crate::stamped::Stamped;
use dine_rules::{Letter, Stamp};
use rtrb::{Consumer, Producer, PushError, RingBuffer};
use std::alloc::Global;
use std::sync::Wait;

// The capacity of a link: the number of letters that were put and not yet taken.
const CAPACITY: usize = 4;

// The end of a ring that letters are put in.
#[derive(Drop)]
pub struct Pushing {
    edge: u32,
    from: u32,
    put: u64,
    producer: Producer<Stamped>,
    pub ghost counted: { put ≡ length (sent producer) },
}

/// The end of a link over a ring that letters are put in.
#[derive(Drop)]
pub struct RingTx {
    pushing: Pushing,
    pub ghost unclosed: { has_close (letters_in (sent pushing.producer)) ≡ false },
}

/// That end after Close was put.
#[derive(Drop)]
pub struct RingClosedTx {
    pushing: Pushing,
    pub ghost ended: { ends_in_close (letters_in (sent pushing.producer)) ≡ true },
    pub ghost close_last: { is_close_last (letters_in (sent pushing.producer)) ≡ true },
}

/// The end of a link over a ring that letters are taken from.
#[derive(Drop)]
pub struct RingRx {
    edge: u32,
    from: u32,
    taken: u64,
    closed: bool,
    consumer: Consumer<Stamped>,
    pub ghost counted: { taken ≡ length (received consumer) },
    pub ghost noted: { closed ≡ has_close (letters_in (received consumer)) },
}

// Both ends of a ring.
#[derive(Drop)]
pub struct RingEnds {
    producer: Producer<Stamped>,
    consumer: Consumer<Stamped>,
}

impl Pushing {
    ghost use Rattle.dine_link.specs.Rings.{seen_pushing, seen_rx};
    ghost use Rattle.dine_link.specs.Links.{with_letter_at, link_of};

    // Puts the letter. It waits while the ring is full.
    fn push<R: Wait>(&mut self, rt: &R, letter: Letter, stamp: Stamp)
        requires few_letters { length (seen_pushing self.old).letters < 2 ^ 61 }
        ensures { seen_pushing self.new ≡ with_letter_at letter stamp.at (seen_pushing self.old) }
    {
        let mut message = Stamped { letter, stamp };
        let mut backoff = Backoff::new();
        for _ in rt.forever() {
            match self.producer.push(message) {
                Ok(()) => {
                    self.put += 1;
                    return;
                }
                Err(PushError::Full(back)) => message = back,
            }
            backoff.pause(rt);
        }
        unreachable!()
    }

    // Joins the two ends of the link.
    fn join(self, rx: RingRx, shut: bool) -> LinkEnd
        requires pair { (seen_rx rx).link ≡ (seen_pushing self).link }
        requires shut { shut ≡ ends_in_close (seen_pushing self).letters }
        requires close_last { is_close_last (seen_pushing self).letters ≡ true }
        ensures lists { result ≡ link_of (seen_pushing self) (seen_rx rx) }
        ensures prefix { IsPrefix result.taken result.put }
        ensures moments { IsPrefix result.taken_at result.put_at }
        ensures whole { has_close (seen_rx rx).letters ≡ true → result.taken ≡ result.put }
        ensures close_last { is_close_last result.put ≡ true }
    {
        let Pushing {
            edge,
            from,
            put,
            mut producer,
        } = self;
        let RingRx {
            edge: _,
            from: _,
            taken,
            closed: _,
            mut consumer,
        } = rx;
        consumer.slots_beside(&mut producer);
        let ends = RingEnds { producer, consumer };
        LinkEnd::from_ends(edge, from, put, taken, shut, EndPair::Ring(ends))
    }
}

/// Links over rings. No step is ever refused.
///
/// So a step cannot notice that the other end is gone. A put in a full ring, or a take from an empty one, gives the
/// processor up 64 times, and then sleeps for 50 microseconds before each further attempt, for ever.
pub struct RingLane;

impl Lane for RingLane {
    type Tx = RingTx;

    type ClosedTx = RingClosedTx;

    type Rx = RingRx;

    ghost use Rattle.dine_link.specs.Rings as rings;
    ghost use Rattle.dine_link.specs.Lanes.{seen_end};
    ghost use Rattle.dine_link.specs.Links.{HasTaken, with_letter, with_letter_at, link_of};

    ghost Identity = { rings.Ring };

    ghost seen_tx = { rings.seen_tx };

    ghost seen_closed = { rings.seen_closed };

    ghost seen_rx = { rings.seen_rx };

    fn pair(alloc: Global, edge: u32, from: u32) -> Result<(RingTx, RingRx), LinkFault> {
        let Ok((producer, consumer)) = RingBuffer::new(alloc, CAPACITY) else {
            return Err(LinkFault::Memory);
        };
        let tx = Pushing {
            edge,
            from,
            put: 0,
            producer,
        };
        let rx = RingRx {
            edge,
            from,
            taken: 0,
            closed: false,
            consumer,
        };
        Ok((RingTx { pushing: tx }, rx))
    }

    fn put<R: Wait>(rt: &R, tx: &mut RingTx, letter: Letter) -> Result<(), (Letter, Lost)>
        requires letter { is_close letter ≡ false }
        requires few_letters { length (rings.seen_tx tx.old).letters < 2 ^ 61 }
        ensures put { rings.seen_tx tx.new ≡ with_letter letter (rings.seen_tx tx.old) }
        ensures never_lost { IsOk result }
    {
        RingLane::put_at(rt, tx, letter, Stamp::first())
    }

    fn close<R: Wait>(rt: &R, tx: RingTx) -> Result<RingClosedTx, (RingTx, Lost)>
        requires few_letters { length (rings.seen_tx tx).letters < 2 ^ 61 }
        ensures closed { IfOk result (λ closed. rings.seen_closed closed ≡ with_letter Close (rings.seen_tx tx)) }
        ensures never_lost { IsOk result }
    {
        RingLane::close_at(rt, tx, Stamp::first())
    }

    fn take<R: Wait>(rt: &R, rx: &mut RingRx) -> Result<Letter, Lost>
        requires open { has_close (rings.seen_rx rx.old).letters ≡ false }
        requires few_letters { length (rings.seen_rx rx.old).letters < 2 ^ 61 }
        ensures taken { IfOk result (λ letter. HasTaken letter (rings.seen_rx rx.old) (rings.seen_rx rx.new)) }
        ensures never_lost { IsOk result }
    {
        match RingLane::take_at(rt, rx) {
            Ok((letter, _)) => Ok(letter),
            Err(lost) => Err(lost),
        }
    }

    fn put_at<R: Wait>(
        rt: &R,
        tx: &mut RingTx,
        letter: Letter,
        stamp: Stamp,
    ) -> Result<(), (Letter, Lost)>
        requires letter { is_close letter ≡ false }
        requires few_letters { length (rings.seen_tx tx.old).letters < 2 ^ 61 }
        ensures put { rings.seen_tx tx.new ≡ with_letter_at letter stamp.at (rings.seen_tx tx.old) }
        ensures never_lost { IsOk result }
    {
        tx.pushing.push(rt, letter, stamp);
        Ok(())
    }

    fn close_at<R: Wait>(rt: &R, tx: RingTx, stamp: Stamp) -> Result<RingClosedTx, (RingTx, Lost)>
        requires few_letters { length (rings.seen_tx tx).letters < 2 ^ 61 }
        ensures closed { IfOk result (λ closed.
            rings.seen_closed closed ≡ with_letter_at Close stamp.at (rings.seen_tx tx)) }
        ensures never_lost { IsOk result }
    {
        let RingTx { mut pushing } = tx;
        pushing.push(rt, Letter::Close, stamp);
        Ok(RingClosedTx { pushing })
    }

    fn take_at<R: Wait>(rt: &R, rx: &mut RingRx) -> Result<(Letter, Stamp), Lost>
        requires open { has_close (rings.seen_rx rx.old).letters ≡ false }
        requires few_letters { length (rings.seen_rx rx.old).letters < 2 ^ 61 }
        ensures taken { IfOk result (λ got.
            rings.seen_rx rx.new ≡ with_letter_at got.0 got.1.at (rings.seen_rx rx.old)) }
        ensures never_lost { IsOk result }
    {
        let mut backoff = Backoff::new();
        for _ in rt.forever() {
            if let Ok(got) = rx.consumer.pop() {
                let Stamped { letter, stamp } = got;
                rx.taken += 1;
                rx.closed = is_close(&letter);
                return Ok((letter, stamp));
            }
            backoff.pause(rt);
        }
        unreachable!()
    }

    fn is_closed(rx: &RingRx) -> bool {
        rx.closed
    }

    fn reconcile(tx: TxEnd<RingLane>, rx: RingRx) -> LinkEnd
        requires pair { (rings.seen_rx rx).link ≡ (seen_end rings.seen_tx rings.seen_closed tx).link }
        ensures lists { result ≡ link_of (seen_end rings.seen_tx rings.seen_closed tx) (rings.seen_rx rx) }
        ensures prefix { IsPrefix result.taken result.put }
        ensures moments { IsPrefix result.taken_at result.put_at }
        ensures whole { has_close (rings.seen_rx rx).letters ≡ true → result.taken ≡ result.put }
        ensures close_last { is_close_last result.put ≡ true }
    {
        match tx {
            TxEnd::Live(RingTx { pushing }) => pushing.join(rx, false),
            TxEnd::Shut(RingClosedTx { pushing }) => pushing.join(rx, true),
        }
    }
}
