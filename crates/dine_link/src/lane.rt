//! What a link is, whatever carries its letters.
ghost use Rattle.std.specs.Prelude.{◌≡◌, ◌<◌, ◌^◌, true, false, [], length, IfErr, IfOk};
ghost use Rattle.dine_rules.specs.declared.letters.Letter.TheVariants.{Close};
ghost use Rattle.dine_rules.specs.Letters.{has_close};
ghost use Rattle.dine_rules.specs.Streams.{is_close_last};
ghost use Rattle.dine_link.specs.Closing.{is_close};
ghost use Rattle.dine_link.specs.Links.{HasTaken, SeenEnd, with_letter, with_letter_at, after_refusal, link_of};
ghost use Rattle.dine_link.specs.Lanes.{seen_end};
ghost use mathlib.Core.List.{IsPrefix};

use crate::faults::{LinkFault, Lost};
use crate::link_end::LinkEnd;
use dine_rules::{Letter, Stamp};
use std::alloc::Global;
use std::sync::Wait;

/// The end of a link that letters are put in, before or after Close was put.
#[derive(Drop)]
pub enum TxEnd<L: Lane> {
    /// Close was not put yet, so more letters may be put.
    Live(L::Tx),
    /// Close was put, and nothing more can be.
    Shut(L::ClosedTx),
}

/// A kind of links. A link has two ends, which may be in two threads. Letters are put in one end and taken from the
/// other, in the same order and each once. A link has capacity for four letters that were put and not yet taken. An end
/// may be dropped.
///
/// If the other end was dropped, a channel refuses a put, and a take once no letter is left. A ring refuses no step:
/// one that has to wait for the other end waits for ever ([`crate::RingLane`]). Each end notes whether a step of it was
/// ever refused.
pub trait Lane: Send {
    /// The end that letters are put in.
    type Tx: Drop + Send;

    /// The end that letters were put in, after Close was put.
    type ClosedTx: Drop + Send;

    /// The end that letters are taken from.
    type Rx: Drop + Send;

    // What tells one link from every other.
    ghost Identity: { Type 0 };

    // What contracts see of an end: the name of its link, all letters that were put in it or taken from it so far, and
    // whether a step of it was ever refused.
    ghost seen_tx: { Self.Tx → SeenEnd Identity };

    ghost seen_closed: { Self.ClosedTx → SeenEnd Identity };

    ghost seen_rx: { Self.Rx → SeenEnd Identity };

    /// Returns the two ends of a new link of edge `edge`, in which site `from` puts. No letter was put or taken yet,
    /// and no step was refused.
    ///
    /// # Errors
    ///
    /// Fails if an allocation fails.
    fn pair(alloc: Global, edge: u32, from: u32) -> Result<(Self::Tx, Self::Rx), LinkFault>
        ensures pair { IfOk result (λ ends. (seen_rx ends.1).link ≡ (seen_tx ends.0).link) }
        ensures name { IfOk result (λ ends. ((seen_tx ends.0).link.edge ≡ edge) × ((seen_tx ends.0).link.from ≡ from)) }
        ensures empty { IfOk result (λ ends. ((seen_tx ends.0).letters ≡ []) × ((seen_rx ends.1).letters ≡ [])) }
        ensures untimed { IfOk result (λ ends. ((seen_tx ends.0).moments ≡ []) × ((seen_rx ends.1).moments ≡ [])) }
        ensures unrefused { IfOk result (λ ends.
            ((seen_tx ends.0).refused ≡ false) × ((seen_rx ends.1).refused ≡ false)) };

    /// Puts a letter other than Close. If the link is full, it waits. Fewer than 2^61 letters were put before.
    ///
    /// # Errors
    ///
    /// If the link refuses the step, the letter is handed back. Nothing was put, and the end notes the refusal.
    fn put<R: Wait>(rt: &R, tx: &mut Self::Tx, letter: Letter) -> Result<(), (Letter, Lost)>
        requires letter { is_close letter ≡ false }
        requires few_letters { length (seen_tx tx.old).letters < 2 ^ 61 }
        ensures put { IfOk result (λ _. seen_tx tx.new ≡ with_letter letter (seen_tx tx.old)) }
        ensures handed_back { IfErr result (λ refused. refused.0 ≡ letter) }
        ensures refused { IfErr result (λ _. seen_tx tx.new ≡ after_refusal (seen_tx tx.old)) };

    /// Puts Close, the last letter of the link. If the link is full, it waits. Fewer than 2^61 letters were put before.
    ///
    /// # Errors
    ///
    /// If the link refuses the step, the end is handed back. Nothing was put, and the end notes the refusal.
    fn close<R: Wait>(rt: &R, tx: Self::Tx) -> Result<Self::ClosedTx, (Self::Tx, Lost)>
        requires few_letters { length (seen_tx tx).letters < 2 ^ 61 }
        ensures closed { IfOk result (λ closed. seen_closed closed ≡ with_letter Close (seen_tx tx)) }
        ensures refused { IfErr result (λ refused. seen_tx refused.0 ≡ after_refusal (seen_tx tx)) };

    /// Takes the next letter. If the link is empty, it waits. Close was not taken before, and fewer than 2^61 letters
    /// were.
    ///
    /// # Errors
    ///
    /// If the link refuses the step, nothing was taken, and the end notes the refusal.
    fn take<R: Wait>(rt: &R, rx: &mut Self::Rx) -> Result<Letter, Lost>
        requires open { has_close (seen_rx rx.old).letters ≡ false }
        requires few_letters { length (seen_rx rx.old).letters < 2 ^ 61 }
        ensures taken { IfOk result (λ letter. HasTaken letter (seen_rx rx.old) (seen_rx rx.new)) }
        ensures refused { IfErr result (λ _. seen_rx rx.new ≡ after_refusal (seen_rx rx.old)) };

    /// Puts a letter as [`Lane::put`] does, with its moment. A moment is for proofs alone, and costs nothing.
    fn put_at<R: Wait>(
        rt: &R,
        tx: &mut Self::Tx,
        letter: Letter,
        stamp: Stamp,
    ) -> Result<(), (Letter, Lost)>
        requires letter { is_close letter ≡ false }
        requires few_letters { length (seen_tx tx.old).letters < 2 ^ 61 }
        ensures put { IfOk result (λ _. seen_tx tx.new ≡ with_letter_at letter stamp.at (seen_tx tx.old)) }
        ensures handed_back { IfErr result (λ refused. refused.0 ≡ letter) }
        ensures refused { IfErr result (λ _. seen_tx tx.new ≡ after_refusal (seen_tx tx.old)) };

    /// Puts Close as [`Lane::close`] does, with its moment.
    fn close_at<R: Wait>(
        rt: &R,
        tx: Self::Tx,
        stamp: Stamp,
    ) -> Result<Self::ClosedTx, (Self::Tx, Lost)>
        requires few_letters { length (seen_tx tx).letters < 2 ^ 61 }
        ensures closed { IfOk result (λ closed. seen_closed closed ≡ with_letter_at Close stamp.at (seen_tx tx)) }
        ensures refused { IfErr result (λ refused. seen_tx refused.0 ≡ after_refusal (seen_tx tx)) };

    /// Takes the next letter as [`Lane::take`] does, with the moment that was put with it.
    fn take_at<R: Wait>(rt: &R, rx: &mut Self::Rx) -> Result<(Letter, Stamp), Lost>
        requires open { has_close (seen_rx rx.old).letters ≡ false }
        requires few_letters { length (seen_rx rx.old).letters < 2 ^ 61 }
        ensures taken { IfOk result (λ got. seen_rx rx.new ≡ with_letter_at got.0 got.1.at (seen_rx rx.old)) }
        ensures refused { IfErr result (λ _. seen_rx rx.new ≡ after_refusal (seen_rx rx.old)) };

    /// Returns whether Close was taken.
    fn is_closed(rx: &Self::Rx) -> bool
        ensures { result ≡ has_close (seen_rx rx.now).letters };

    /// Joins the two ends of one link into what the link carried. The letters that were taken are the first of those
    /// that were put, with their moments. If Close was taken, all letters were taken. Nothing was put after Close.
    fn reconcile(tx: TxEnd<Self>, rx: Self::Rx) -> LinkEnd
        requires pair { (seen_rx rx).link ≡ (seen_end seen_tx seen_closed tx).link }
        ensures lists { result ≡ link_of (seen_end seen_tx seen_closed tx) (seen_rx rx) }
        ensures prefix { IsPrefix result.taken result.put }
        ensures moments { IsPrefix result.taken_at result.put_at }
        ensures whole { has_close (seen_rx rx).letters ≡ true → result.taken ≡ result.put }
        ensures close_last { is_close_last result.put ≡ true };
}
