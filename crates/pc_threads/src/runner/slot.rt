//! Where what one leaves for another waits.

use std::sync::{Mutex, Wait};

/// Where one agent leaves for another what that one has not taken yet. What is put there takes the place of what waits.
#[derive(Drop)]
pub(crate) struct Slot<T: Drop> {
    waiting: Mutex<Option<T>>,
}

impl<T: Drop> Slot<T> {
    /// An empty slot.
    pub(crate) fn new() -> Slot<T> {
        Slot {
            waiting: Mutex::new(None),
        }
    }

    /// Puts this there, and gives what waited.
    pub(crate) fn put<R: Wait>(&self, rt: &R, thing: T) -> Option<T> {
        self.waiting.lock(rt).replace(thing)
    }

    /// Takes what waits.
    pub(crate) fn take<R: Wait>(&self, rt: &R) -> Option<T> {
        self.waiting.lock(rt).take()
    }
}
