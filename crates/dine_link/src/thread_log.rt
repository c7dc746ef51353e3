//! What the thread of a site did, deed by deed.
ghost use Rattle.std.specs.Prelude.{◌≡◌, List, [], ◌∷◌, ◌++◌};
ghost use Rattle.std.specs.Borrow.{ftrue};
ghost use Rattle.dine_link.specs.declared.deed.Deed.{Deed};
ghost use Rattle.dine_link.specs.declared.deed.Deed.TheVariants.{Did, Slept};

use crate::deed::Deed;
use crate::wants::Wants;
use dine_rules::EventKind;
use std::marker::Model;

/// What the thread of a site did, in order, which proofs alone read. Bells and ringers add to it, and the site adds its
/// events.
#[derive(Drop)]
pub struct ThreadLog {
    pub ghost deeds: { List Deed },
    // Keeps other crates from making a log by its fields.
    sealed: (),
}

impl Model for ThreadLog {
    ghost also_owns = { λ _. ftrue };
}

impl ThreadLog {
    /// Returns the log of a thread that did nothing.
    pub fn start() -> ThreadLog
        ensures { result.deeds ≡ [] }
    {
        ThreadLog { sealed: () }
    }

    /// Returns the log after one further event of the site.
    pub fn after_event(&self, kind: EventKind) -> ThreadLog
        ensures { result.deeds ≡ self.now.deeds ++ Did kind ∷ [] }
    {
        self.after(&Deed::Did(kind))
    }

    // Returns the log after the thread fell asleep with these wants.
    pub(crate) fn after_sleep(&self, wants: &Wants) -> ThreadLog
        ensures { result.deeds ≡ self.now.deeds ++ Slept wants.now ∷ [] }
    {
        ThreadLog { sealed: () }
    }

    // Returns the log with one deed more.
    pub(crate) fn after(&self, deed: &Deed) -> ThreadLog
        ensures { result.deeds ≡ self.now.deeds ++ deed.now ∷ [] }
    {
        ThreadLog { sealed: () }
    }
}

// It owns nothing.
unsafe impl Send for ThreadLog {}
