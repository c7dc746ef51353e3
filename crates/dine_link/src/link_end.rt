//! What went over a link, after its two ends were joined.
ghost use Rattle.std.specs.Prelude.{◌≡◌, true, false, length};
ghost use Rattle.dine_rules.specs.Streams.{is_close_last};
ghost use Rattle.dine_link.specs.Closing.{ends_in_close};
ghost use Rattle.dine_link.specs.private.Refusals.{also_refused};
ghost use mathlib.Core.List.{IsPrefix};

use crate::channel::ChannelEnds;
use crate::ring::RingEnds;
use std::marker::Model;

// The two ends of a link, of any lane, with their passes and all letters that were not taken.
#[derive(Drop)]
pub enum EndPair {
    Channel(ChannelEnds),
    Ring(RingEnds),
}

/// A link after its use, of any lane. Only [`crate::Lane::reconcile`] makes one. It owns both ends of the link, so
/// letters that were put and not taken are dropped with it.
///
/// Contracts see its edge, the site that put, the list of all letters put and that of all letters taken, and for each
/// end whether a step of it was refused.
#[derive(Drop)]
pub struct LinkEnd {
    edge: u32,
    from: u32,
    put: u64,
    taken: u64,
    shut: bool,
    put_refused: bool,
    take_refused: bool,
    ends: EndPair,
}

impl Model for LinkEnd {
    ghost use Rattle.dine_link.specs.Links.{SeenLink};

    ghost Value = { SeenLink };

    ghost use Rattle.dine_link.specs.Ends.{seen_link, IsLinkEnd};

    ghost view = { seen_link };

    ghost invariant = { IsLinkEnd };
}

impl LinkEnd {
    ghost use Rattle.dine_link.specs.Ends.{put_in, taken_from, put_at, taken_at};

    // Returns the link of these ends, given the numbers of letters put and taken, and whether Close was put. It notes
    // no refusal.
    pub(crate) fn from_ends(
        edge: u32,
        from: u32,
        put: u64,
        taken: u64,
        shut: bool,
        ends: EndPair,
    ) -> LinkEnd
        requires put { put ≡ length (put_in ends) }
        requires taken { taken ≡ length (taken_from ends) }
        requires shut { shut ≡ ends_in_close (put_in ends) }
        requires prefix { IsPrefix (taken_from ends) (put_in ends) }
        requires close_last { is_close_last (put_in ends) ≡ true }
        ensures { result ≡ record {
          edge = edge;
          from = from;
          put = put_in ends;
          taken = taken_from ends;
          put_at = put_at ends;
          taken_at = taken_at ends;
          put_refused = false;
          take_refused = false;
        } }
    {
        LinkEnd {
            edge,
            from,
            put,
            taken,
            shut,
            put_refused: false,
            take_refused: false,
            ends,
        }
    }

    // Notes on the link whether a put and a take was refused. Only a lane that joins the ends may do so.
    pub(crate) fn and_refused(self, put: bool, take: bool) -> LinkEnd
        ensures { result ≡ also_refused put take self }
    {
        LinkEnd {
            put_refused: self.put_refused || put,
            take_refused: self.take_refused || take,
            ..self
        }
    }

    /// Returns the number of its edge.
    pub fn edge(&self) -> u32
        ensures { result ≡ self.now.edge }
    {
        self.edge
    }

    /// Returns the site that put letters in it.
    pub fn from(&self) -> u32
        ensures { result ≡ self.now.from }
    {
        self.from
    }

    /// Returns the number of letters that were put.
    pub fn put(&self) -> u64
        ensures put { result ≡ length self.now.put }
        ensures close_last { is_close_last self.now.put ≡ true }
    {
        self.put
    }

    /// Returns the number of letters that were taken. These are the first ones that were put.
    pub fn taken(&self) -> u64
        ensures taken { result ≡ length self.now.taken }
        ensures prefix { IsPrefix self.now.taken self.now.put }
    {
        self.taken
    }

    /// Returns whether Close was put. Then it is the last letter that was put.
    pub fn shut(&self) -> bool
        ensures { result ≡ ends_in_close self.now.put }
    {
        self.shut
    }

    /// Returns whether a put or a close was ever refused.
    pub fn put_refused(&self) -> bool
        ensures { result ≡ self.now.put_refused }
    {
        self.put_refused
    }

    /// Returns whether a take was ever refused.
    pub fn take_refused(&self) -> bool
        ensures { result ≡ self.now.take_refused }
    {
        self.take_refused
    }
}
