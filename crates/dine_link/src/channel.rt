//! Links over channels whose letters obey a rule.
ghost use Rattle.std.specs.Prelude.{◌≡◌, ◌<◌, ◌^◌, true, false, length, IfErr, IfOk};
ghost use Rattle.crossbeam_channel.specs.Claims.{view, IsSeatAt};
ghost use Rattle.crossbeam_channel.specs.Ends.{sends_on, receives_on};
ghost use Rattle.dine_rules.specs.Letters.{has_close};
ghost use Rattle.dine_rules.specs.Streams.{is_close_last};
ghost use Rattle.dine_link.specs.Closing.{is_close, ends_in_close};
ghost use Rattle.dine_link.specs.Stamps.{letters_in};
ghost use mathlib.Core.List.{IsPrefix};

use crate::backoff;
use crate::closing::is_close;
use crate::faults::{LinkFault, Lost};
use crate::lane::{Lane, TxEnd};
use crate::link_end::{EndPair, LinkEnd};
use crate::rule::{Ends, InOrder, Known, Puts, Reconciles, Takes};
use crate::stamped::Stamped;
use crossbeam_channel::{Pass, RuledReceiver, RuledSender, bounded_with};
use dine_rules::{Letter, Stamp};
use std::alloc::Global;
use std::sync::Wait;

// The capacity of a link: the number of letters that were put and not yet taken.
const CAPACITY: usize = 4;

type LetterSender = RuledSender<Stamped, Known, InOrder>;

type LetterReceiver = RuledReceiver<Stamped, Known, InOrder>;

type LetterPass = Pass<Stamped, Known>;

// The end of a channel that letters are put in.
#[derive(Drop)]
pub struct Putting {
    edge: u32,
    from: u32,
    put: u64,
    sender: LetterSender,
    pass: LetterPass,
    refused: bool,
    pub ghost seated: { IsSeatAt (sends_on sender) pass },
    pub ghost puts: { (view pass).puts ≡ true },
    pub ghost counted: { put ≡ length (view pass).put },
}

/// The end of a link over a channel that letters are put in.
#[derive(Drop)]
pub struct ChannelTx {
    putting: Putting,
    pub ghost unclosed: { has_close (letters_in (view putting.pass).put) ≡ false },
}

/// That end after Close was put.
#[derive(Drop)]
pub struct ChannelClosedTx {
    putting: Putting,
    pub ghost ended: { ends_in_close (letters_in (view putting.pass).put) ≡ true },
    pub ghost close_last: { is_close_last (letters_in (view putting.pass).put) ≡ true },
}

/// The end of a link over a channel that letters are taken from.
#[derive(Drop)]
pub struct ChannelRx {
    edge: u32,
    from: u32,
    taken: u64,
    closed: bool,
    receiver: LetterReceiver,
    pass: LetterPass,
    refused: bool,
    pub ghost seated: { IsSeatAt (receives_on receiver) pass },
    pub ghost takes: { (view pass).takes ≡ true },
    pub ghost counted: { taken ≡ length (view pass).taken },
    pub ghost noted: { closed ≡ has_close (letters_in (view pass).taken) },
}

impl ChannelTx {
    ghost use Rattle.dine_link.specs.Channels.{seen_tx};
    ghost use Rattle.dine_link.specs.Links.{after_refusal};

    // Notes that a step was refused, for a lane that wraps this one.
    pub(crate) fn refuse(&mut self)
        ensures { seen_tx self.new ≡ after_refusal (seen_tx self.old) }
    {
        self.putting.refused = true;
    }
}

impl ChannelRx {
    ghost use Rattle.dine_link.specs.Channels.{seen_rx};
    ghost use Rattle.dine_link.specs.Links.{after_refusal};

    // Notes that a step was refused, for a lane that wraps this one.
    pub(crate) fn refuse(&mut self)
        ensures { seen_rx self.new ≡ after_refusal (seen_rx self.old) }
    {
        self.refused = true;
    }
}

// Both ends of a channel, and their passes joined into one.
#[derive(Drop)]
pub struct ChannelEnds {
    sender: LetterSender,
    receiver: LetterReceiver,
    pass: LetterPass,
}

impl Putting {
    ghost use Rattle.dine_link.specs.Channels.{seen_putting, seen_rx};
    ghost use Rattle.dine_link.specs.Links.{with_letter_at, after_refusal, link_of};

    // Puts the letter, or hands it back and notes the refusal.
    fn send<R: Wait>(&mut self, rt: &R, letter: Letter, stamp: Stamp) -> Result<(), Letter>
        requires few_letters { length (seen_putting self.old).letters < 2 ^ 61 }
        ensures put { IfOk result (λ _.
            seen_putting self.new ≡ with_letter_at letter stamp.at (seen_putting self.old)) }
        ensures handed_back { IfErr result (λ back. back ≡ letter) }
        ensures refused { IfErr result (λ _. seen_putting self.new ≡ after_refusal (seen_putting self.old)) }
    {
        match backoff::send::<Stamped, Known, InOrder, Puts, R>(
            rt,
            &self.sender,
            &mut self.pass,
            Stamped { letter, stamp },
        ) {
            Ok(()) => {
                self.put += 1;
                Ok(())
            }
            Err(back) => {
                self.refused = true;
                Err(back.letter)
            }
        }
    }

    // Joins the two ends of the link.
    fn join(self, rx: ChannelRx, shut: bool) -> LinkEnd
        requires pair { (seen_rx rx).link ≡ (seen_putting self).link }
        requires shut { shut ≡ ends_in_close (seen_putting self).letters }
        requires close_last { is_close_last (seen_putting self).letters ≡ true }
        ensures lists { result ≡ link_of (seen_putting self) (seen_rx rx) }
        ensures prefix { IsPrefix result.taken result.put }
        ensures moments { IsPrefix result.taken_at result.put_at }
        ensures whole { has_close (seen_rx rx).letters ≡ true → result.taken ≡ result.put }
        ensures close_last { is_close_last result.put ≡ true }
    {
        let Putting {
            edge,
            from,
            put,
            sender,
            mut pass,
            refused: put_refused,
        } = self;
        let ChannelRx {
            edge: _,
            from: _,
            taken,
            closed: _,
            receiver,
            pass: taking,
            refused: take_refused,
        } = rx;
        sender.absorb::<Ends>(&mut pass, taking);
        sender.learn_as::<Reconciles>(&mut pass);
        let ends = ChannelEnds {
            sender,
            receiver,
            pass,
        };
        let end = LinkEnd::from_ends(edge, from, put, taken, shut, EndPair::Channel(ends));
        end.and_refused(put_refused, take_refused)
    }
}

/// Links over channels. If the other end is gone, a put is refused, and so is a take once no letter is left. The end
/// notes the refusal.
pub struct ChannelLane;

impl Lane for ChannelLane {
    type Tx = ChannelTx;

    type ClosedTx = ChannelClosedTx;

    type Rx = ChannelRx;

    ghost use Rattle.dine_link.specs.Channels as channels;
    ghost use Rattle.dine_link.specs.Lanes.{seen_end};
    ghost use Rattle.dine_link.specs.Links.{link_of};

    ghost Identity = { channels.Channel };

    ghost seen_tx = { channels.seen_tx };

    ghost seen_closed = { channels.seen_closed };

    ghost seen_rx = { channels.seen_rx };

    fn pair(alloc: Global, edge: u32, from: u32) -> Result<(ChannelTx, ChannelRx), LinkFault> {
        let Ok((sender, receiver, mut putting)) = bounded_with::<Stamped, Known, InOrder, Global>(
            alloc, CAPACITY,
        ) else {
            return Err(LinkFault::Memory);
        };
        let taking = sender.another::<Ends>(&mut putting);
        let tx = Putting {
            edge,
            from,
            put: 0,
            sender,
            pass: putting,
            refused: false,
        };
        let rx = ChannelRx {
            edge,
            from,
            taken: 0,
            closed: false,
            receiver,
            pass: taking,
            refused: false,
        };
        Ok((ChannelTx { putting: tx }, rx))
    }

    fn put<R: Wait>(rt: &R, tx: &mut ChannelTx, letter: Letter) -> Result<(), (Letter, Lost)> {
        ChannelLane::put_at(rt, tx, letter, Stamp::first())
    }

    fn close<R: Wait>(rt: &R, tx: ChannelTx) -> Result<ChannelClosedTx, (ChannelTx, Lost)> {
        ChannelLane::close_at(rt, tx, Stamp::first())
    }

    fn take<R: Wait>(rt: &R, rx: &mut ChannelRx) -> Result<Letter, Lost> {
        match ChannelLane::take_at(rt, rx) {
            Ok((letter, _)) => Ok(letter),
            Err(lost) => Err(lost),
        }
    }

    fn put_at<R: Wait>(
        rt: &R,
        tx: &mut ChannelTx,
        letter: Letter,
        stamp: Stamp,
    ) -> Result<(), (Letter, Lost)> {
        match tx.putting.send(rt, letter, stamp) {
            Ok(()) => Ok(()),
            Err(letter) => Err((letter, Lost)),
        }
    }

    fn close_at<R: Wait>(
        rt: &R,
        tx: ChannelTx,
        stamp: Stamp,
    ) -> Result<ChannelClosedTx, (ChannelTx, Lost)> {
        let ChannelTx { mut putting } = tx;
        match putting.send(rt, Letter::Close, stamp) {
            Ok(()) => Ok(ChannelClosedTx { putting }),
            Err(_close) => Err((ChannelTx { putting }, Lost)),
        }
    }

    fn take_at<R: Wait>(rt: &R, rx: &mut ChannelRx) -> Result<(Letter, Stamp), Lost> {
        let Some(got) = backoff::receive::<Stamped, Known, InOrder, Takes, R>(
            rt,
            &rx.receiver,
            &mut rx.pass,
        ) else {
            rx.refused = true;
            return Err(Lost);
        };
        let Stamped { letter, stamp } = got;
        rx.taken += 1;
        rx.closed = is_close(&letter);
        Ok((letter, stamp))
    }

    fn is_closed(rx: &ChannelRx) -> bool {
        rx.closed
    }

    fn reconcile(tx: TxEnd<ChannelLane>, rx: ChannelRx) -> LinkEnd
        requires pair { (channels.seen_rx rx).link ≡ (seen_end channels.seen_tx channels.seen_closed tx).link }
        ensures lists { result ≡ link_of (seen_end channels.seen_tx channels.seen_closed tx) (channels.seen_rx rx) }
        ensures prefix { IsPrefix result.taken result.put }
        ensures moments { IsPrefix result.taken_at result.put_at }
        ensures whole { has_close (channels.seen_rx rx).letters ≡ true → result.taken ≡ result.put }
        ensures close_last { is_close_last result.put ≡ true }
    {
        match tx {
            TxEnd::Live(ChannelTx { putting }) => putting.join(rx, false),
            TxEnd::Shut(ChannelClosedTx { putting }) => putting.join(rx, true),
        }
    }
}
