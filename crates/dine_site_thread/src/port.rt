//! The ends of a site at one place.
ghost use Rattle.std.specs.Prelude.{◌≡◌, ◌<◌, ◌^◌, true, false, length, MatchResult};
ghost use Rattle.dine_rules.specs.Letters.{has_close};
ghost use Rattle.dine_link.specs.Closing.{is_close};
ghost use Rattle.dine_site_thread.specs.Ports.{is_live_end, seen_port};
ghost use Rattle.dine_site_thread.specs.private.PortSteps.{EndsIn, Sends, SendsClose, port_after_ring, port_after_take};
ghost use Rattle.dine_site_thread.specs.private.PortSteps.{port_after_refused_ring, port_after_refused_take};
ghost use Rattle.dine_site_thread.specs.private.PortSteps.{LogsClose, LogsRing};
ghost use Rattle.dine_rules.specs.Letters.{kind_of};
ghost use Rattle.dine_rules.specs.declared.letters.LetterKind.TheVariants as kind;
ghost use Rattle.dine_link.specs.Deeds.{HasRungFor};

use dine_link::{Lane, Lost, Ringer, ThreadLog, TxEnd};
use dine_rules::{Letter, LetterKind, Stamp};
use std::sync::Wait;

/// What a site has at a place: the end of the link that leads to its neighbour, the end of the link that comes from it,
/// and the ringer of the neighbour's bell.
#[derive(Drop)]
pub struct Port<L: Lane> {
    pub tx: TxEnd<L>,
    pub rx: L::Rx,
    pub ringer: Ringer,
}

// What happened to a letter that was to be sent.
#[derive(Drop)]
pub enum Sent {
    // It was put, and the bell was rung.
    Heard,
    // It was put, and the bell refused the ring.
    Unheard,
    // The link refused it, and it is handed back.
    Refused(Letter),
}

// What happened to a Close that was to be sent.
#[derive(Clone, Copy)]
pub enum Closed {
    Heard,
    Unheard,
    Refused,
}

impl<L: Lane> Port<L> {
    // Puts a letter other than Close in an end that is live, and rings. The log notes the ring, as one at this place,
    // and behind it that the neighbour was woken, if it was.
    pub(crate) fn put<R: Wait>(
        &mut self,
        rt: &R,
        letter: Letter,
        stamp: Stamp,
        place: u32,
        log: &mut ThreadLog,
    ) -> Sent
        requires live { is_live_end self.old.tx ≡ true }
        requires letter { is_close letter ≡ false }
        requires few_letters { length (seen_port L.Lane self.old).tx.letters < 2 ^ 61 }
        ensures sends { Sends stamp.at letter (seen_port L.Lane self.old) (seen_port L.Lane self.new) result }
        ensures noted { LogsRing place (kind_of letter) log.old.deeds log.new.deeds result }
    {
        let kind = letter.kind();
        let put = match &mut self.tx {
            TxEnd::Live(tx) => L::put_at(rt, tx, letter, stamp),
            TxEnd::Shut(_) => unreachable!(),
        };
        match put {
            Ok(()) => match self.ring(rt, kind, place, log) {
                Ok(()) => Sent::Heard,
                Err(Lost) => Sent::Unheard,
            },
            Err((letter, Lost)) => Sent::Refused(letter),
        }
    }

    // Puts Close in an end that is live, and rings. If the link refuses it, the end stays live.
    pub(crate) fn close<R: Wait>(
        self,
        rt: &R,
        stamp: Stamp,
        place: u32,
        log: &mut ThreadLog,
    ) -> (Port<L>, Closed)
        requires live { is_live_end self.tx ≡ true }
        requires few_letters { length (seen_port L.Lane self).tx.letters < 2 ^ 61 }
        ensures sends { SendsClose stamp.at (seen_port L.Lane self) (seen_port L.Lane result.0) result.1 }
        ensures noted { LogsClose place log.old.deeds log.new.deeds result.1 }
    {
        let Port { tx, rx, ringer } = self;
        let TxEnd::Live(tx) = tx else { unreachable!() };
        match L::close_at(rt, tx, stamp) {
            Ok(tx) => {
                let tx = TxEnd::Shut(tx);
                let mut port = Port { tx, rx, ringer };
                match port.ring(rt, LetterKind::Close, place, log) {
                    Ok(()) => (port, Closed::Heard),
                    Err(Lost) => (port, Closed::Unheard),
                }
            }
            Err((tx, Lost)) => {
                let tx = TxEnd::Live(tx);
                (Port { tx, rx, ringer }, Closed::Refused)
            }
        }
    }

    // Takes the next letter, at a place where Close was not taken.
    pub(crate) fn take<R: Wait>(&mut self, rt: &R) -> Result<(Letter, Stamp), Lost>
        requires open { has_close (seen_port L.Lane self.old).rx.letters ≡ false }
        requires few_letters { length (seen_port L.Lane self.old).rx.letters < 2 ^ 61 }
        ensures { MatchResult result
            (λ got. seen_port L.Lane self.new ≡ port_after_take got.1.at got.0 (seen_port L.Lane self.old))
            (λ _. seen_port L.Lane self.new ≡ port_after_refused_take (seen_port L.Lane self.old)) }
    {
        L::take_at(rt, &mut self.rx)
    }

    // Rings the neighbour's bell for the letter of that kind which was put last.
    fn ring<R: Wait>(
        &mut self,
        rt: &R,
        kind: LetterKind,
        place: u32,
        log: &mut ThreadLog,
    ) -> Result<(), Lost>
        requires put { EndsIn kind (seen_port L.Lane self.old).tx.letters }
        ensures rung { MatchResult result
            (λ _. seen_port L.Lane self.new ≡ port_after_ring (seen_port L.Lane self.old))
            (λ _. seen_port L.Lane self.new ≡ port_after_refused_ring (seen_port L.Lane self.old)) }
        ensures noted { MatchResult result
            (λ _. HasRungFor place kind log.old.deeds log.new.deeds)
            (λ _. log.new.deeds ≡ log.old.deeds) }
    {
        self.ringer.ring_for(rt, kind, place, log)
    }
}
