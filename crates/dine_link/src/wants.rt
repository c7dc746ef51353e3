// The rings that wake a bell.
ghost use Rattle.std.specs.Prelude.{◌≡◌, ◌<◌, None, Some};
ghost use Rattle.dine_rules.specs.Wants.{is_wanted, still_wanted};
ghost use Rattle.dine_link.specs.Waking.{seen_awaited, seen_wants, wakes, still_wants};

use dine_rules::LetterKind;
use dine_set::BitSet64;

/// The rings that wake a bell: any ring, or those for the letters that a site waits for.
#[derive(Clone, Copy)]
pub struct Wants {
    only: Option<Awaited>,
}

// A Request at one of these places, the last of this number of Forks, each Done and each Close.
#[derive(Clone, Copy)]
pub struct Awaited {
    requests: BitSet64,
    forks: u32,
}

impl Wants {
    /// Returns the wants of a bell that any ring wakes.
    pub fn anything() -> Wants
        ensures { seen_wants result ≡ None }
    {
        Wants { only: None }
    }

    /// Returns the wants of a bell that is woken by a ring for a Request, if one of these ringers rings; for the last
    /// of this number of Forks; for each Done; and for each Close. If the number of Forks is 0, each Fork wakes it. A
    /// ringer whose number is 64 or more always wakes it.
    pub fn of(requests: BitSet64, forks: u32) -> Wants
        ensures { seen_wants result ≡ Some (record { requests = requests; forks = forks }) }
    {
        Wants {
            only: Some(Awaited { requests, forks }),
        }
    }

    // Returns whether a ring by that ringer for a letter of that kind wakes the bell.
    pub fn has(&self, number: u32, kind: LetterKind) -> bool
        ensures { result ≡ wakes (seen_wants self.now) number kind }
    {
        match &self.only {
            None => true,
            Some(awaited) => number >= 64 || awaited.has(number, kind),
        }
    }

    // Notes a letter of that kind that has arrived and does not wake the bell.
    pub fn note(&mut self, kind: LetterKind)
        ensures { seen_wants self.new ≡ still_wants (seen_wants self.old) kind }
    {
        if let Some(awaited) = &mut self.only {
            awaited.note(kind);
        }
    }
}

impl Awaited {
    // Returns whether a letter of that kind at the place is waited for.
    fn has(&self, place: u32, kind: LetterKind) -> bool
        requires { place < 64 }
        ensures { result ≡ is_wanted (seen_awaited self.now) place kind }
    {
        match kind {
            LetterKind::Request => self.requests.has(place),
            LetterKind::Fork => self.forks <= 1,
            LetterKind::Done | LetterKind::Close => true,
        }
    }

    // Notes a letter of that kind that has arrived and is not waited for.
    fn note(&mut self, kind: LetterKind)
        ensures { seen_awaited self.new ≡ still_wanted (seen_awaited self.old) kind }
    {
        if kind == LetterKind::Fork {
            self.forks = self.forks.saturating_sub(1);
        }
    }
}
