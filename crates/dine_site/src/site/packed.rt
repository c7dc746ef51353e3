//! A site before its first step, which moves to its thread.
ghost use Rattle.std.specs.Prelude.{◌≡◌};
ghost use Rattle.dine_site.specs.Standing.{IsFresh};

use super::SiteCore;
use std::marker::Model;

/// A core that has done no step. It may be dropped, unlike a `SiteCore`, so it can be moved into a thread whose start
/// may fail. Contracts see the core.
pub struct Packed {
    core: SiteCore,
}

impl Model for Packed {
    ghost use Rattle.dine_site.specs.Core.{SeenCore};

    ghost Value = { SeenCore };

    ghost use Rattle.dine_site.specs.private.PackedFields.{core_in, IsAtRest};

    ghost view = { core_in };

    ghost invariant = { IsAtRest };
}

impl Drop for Packed {
    fn drop(self) {
        let Packed { core: unused } = self;
        let _ = unused.into_parts();
    }
}

impl SiteCore {
    /// Packs a core that has done no step.
    pub fn pack(self) -> Packed
        requires { IsFresh self }
        ensures { result ≡ self }
    {
        Packed { core: self }
    }
}

impl Packed {
    /// Returns the core that was packed.
    pub fn unpack(self) -> SiteCore
        ensures { result ≡ self }
    {
        let Packed { core } = self;
        core
    }
}
