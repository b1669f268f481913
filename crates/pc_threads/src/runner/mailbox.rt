//! Where what several leave for one waits.

use std::alloc::{AllocError, Global};
use std::mem;
use std::sync::{Mutex, Wait};

/// So many things wait in a mailbox at most before its owner is told.
const MOST_UNTOLD: usize = 256;

/// A full list gets room for so many things more at least: where one is left, others follow.
const ROOM: usize = 16;

/// Where several leave things for one, who takes all of them at once.
#[derive(Drop)]
pub(crate) struct Mailbox<T: Drop> {
    alloc: Global,
    waiting: Mutex<Mail<T>>,
}

/// What waits in a mailbox, and whether its owner was told since it last took what waited.
#[derive(Drop)]
struct Mail<T: Drop> {
    things: Vec<T>,
    is_told: bool,
}

/// Puts a thing behind the others.
fn add<T: Drop>(things: &mut Vec<T>, thing: T) -> Result<(), AllocError> {
    if things.len() == things.capacity() {
        things.reserve(ROOM)?;
    }
    things.push_reserved(thing);
    Ok(())
}

impl<T: Drop> Mailbox<T> {
    /// An empty mailbox.
    pub(crate) fn new(alloc: Global) -> Mailbox<T> {
        Mailbox {
            alloc,
            waiting: Mutex::new(Mail {
                things: Vec::new(alloc),
                is_told: false,
            }),
        }
    }

    /// Puts this behind what waits, and answers whether the owner is to be told: where this is `urgent` or much waits,
    /// and it was not told yet.
    pub(crate) fn put<R: Wait>(&self, rt: &R, thing: T, urgent: bool) -> Result<bool, AllocError> {
        let mut mail = self.waiting.lock(rt);
        add(&mut mail.things, thing)?;
        let tells = !mail.is_told && (urgent || mail.things.len() >= MOST_UNTOLD);
        mail.is_told = mail.is_told || tells;
        Ok(tells)
    }

    /// Takes all that waits, the first one first.
    pub(crate) fn take<R: Wait>(&self, rt: &R) -> Vec<T> {
        let mut mail = self.waiting.lock(rt);
        mail.is_told = false;
        mem::replace(&mut mail.things, Vec::new(self.alloc))
    }
}
