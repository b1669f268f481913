//! One agent's inbox, as what another agent answers by.

ghost use Rattle.std.specs.Prelude.{◌≡◌, ◌+◌, Result, Ok, Err};

use crate::runner::faults::Quit;
use crate::runner::inbox::Inbox;
use pc_agent::{SendFault, Wire};
use pc_delta::Delta;
use pc_messages::Cpu;
use std::alloc::Global;
use std::sync::{Arc, Wait};

/// The inbox of the one that asks, and the CPU of the one that answers. A send is refused where the channel is
/// disconnected.
#[derive(Drop)]
pub(crate) struct InboxWire<'a, R: Wait> {
    rt: &'a R,
    alloc: Global,
    inbox: &'a Inbox,
    cpu: Cpu,
    faults: u64,
}

impl<'a, R: Wait> InboxWire<'a, R> {
    pub(crate) fn new(rt: &'a R, alloc: Global, inbox: &'a Inbox, cpu: Cpu) -> InboxWire<'a, R>
        ensures { result.faults ≡ 0 }
    {
        InboxWire {
            rt,
            alloc,
            inbox,
            cpu,
            faults: 0,
        }
    }
}

impl<'a, R: Wait> Wire for InboxWire<'a, R> {
    ghost Sends = { λ old delta result new. Unit {0} };

    ghost faults = { λ wire. wire.faults };

    fn send(&mut self, delta: Delta) -> Result<(), SendFault> {
        let Ok(delta) = Arc::new(self.alloc, delta) else {
            return Err(SendFault::OutOfMemory);
        };
        match self.inbox.answer(self.rt, self.cpu, delta) {
            Ok(()) => Ok(()),
            Err(Quit::OutOfMemory) => Err(SendFault::OutOfMemory),
            Err(Quit::GaveUp) => {
                self.faults += 1;
                Err(SendFault::WireFault)
            }
        }
    }
}
