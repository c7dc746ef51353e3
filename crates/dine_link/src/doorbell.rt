//! A ringer of a bell that stands outside, for any thread.
use crate::bell::Ringer;
use std::alloc::{AllocError, Global};
use std::sync::{Arc, Mutex, Wait};

/// Rings the bell of a site from outside the run, by any thread that has a share of it. At first it is wired to no
/// bell: the run that it is passed to wires it. It never wakes a site for a letter, since it has no link.
#[derive(Drop)]
pub struct Doorbell {
    wire: Arc<Mutex<Option<Ringer>>, Global>,
}

impl Doorbell {
    /// Opens a doorbell that is wired to no bell.
    ///
    /// # Errors
    ///
    /// `AllocError` if an allocation fails.
    pub fn open(alloc: Global) -> Result<Doorbell, AllocError> {
        let wire = Arc::new(alloc, Mutex::new(None))?;
        Ok(Doorbell { wire })
    }

    /// Returns the same doorbell, for another thread.
    ///
    /// # Errors
    ///
    /// `AllocError` if an allocation fails.
    pub fn share(&self) -> Result<Doorbell, AllocError> {
        let wire = Arc::try_clone(&self.wire)?;
        Ok(Doorbell { wire })
    }

    /// Wires it to the bell of this ringer, and to no other from then on. It may wait.
    pub fn wire<R: Wait>(&self, rt: &R, ringer: Ringer) {
        *self.wire.lock(rt) = Some(ringer);
    }

    /// Rings the bell that it is wired to, and wakes it, whatever it waits for. If it is wired to none, or if the bell
    /// is gone, nothing happens. It may wait.
    pub fn ring<R: Wait>(&self, rt: &R) {
        if let Some(ringer) = &mut *self.wire.lock(rt) {
            let _ = ringer.ring(rt);
        }
    }
}
