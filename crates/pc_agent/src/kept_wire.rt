//! A wire in memory.

ghost use Rattle.std.specs.Prelude.{◌≡◌, ◌≤◌, List, length, sum_by};
ghost use Rattle.pc_delta.specs.declared.part.Part.{Part};
ghost use Rattle.pc_agent.specs.declared.kept_wire.TheConstants.{MOST_KEPT};

use crate::wire::{SendFault, Wire};
use pc_delta::Delta;
use std::alloc::Global;

/// The most parts that the deltas of a wire in memory have together: a send that would pass this wants memory. A part
/// takes 40 bytes, so a wire keeps 2.5 GiB of them at the most, whatever is sent.
pub const MOST_KEPT: u64 = 1 << 26;

/// A wire that keeps what it took, in order, so that each delta can be delivered late, again or never (own). While it
/// is told to, it refuses every send.
#[derive(Drop)]
pub struct KeptWire {
    sent: Vec<Delta>,
    refuses: bool,
    faults: u64,
    /// How many parts the deltas have together.
    kept: u64,
    ghost counted: { kept ≡ sum_by length sent.items },
    ghost few: { kept ≤ MOST_KEPT },
}

impl KeptWire {
    ghost use Rattle.std.specs.Prelude.{[], false};
    ghost use Rattle.pc_agent.specs.Wires.{sent_by};

    /// A wire that took nothing yet, and refuses nothing. It takes no memory.
    pub fn new(alloc: Global) -> KeptWire
        ensures sent { sent_by result ≡ [] }
        ensures refuses { result.refuses ≡ false }
        ensures faults { result.faults ≡ 0 }
    {
        KeptWire {
            sent: Vec::new(alloc),
            refuses: false,
            faults: 0,
            kept: 0,
        }
    }

    /// From now on it refuses every send, or none; the count of refused sends begins anew.
    pub fn set_refuses(&mut self, refuses: bool)
        ensures sent { sent_by self.new ≡ sent_by self.old }
        ensures refuses { self.new.refuses ≡ refuses }
        ensures faults { self.new.faults ≡ 0 }
    {
        self.refuses = refuses;
        self.faults = 0;
    }

    /// What it took, in order.
    pub fn sent(&self) -> &[Delta]
        ensures same { result.now ≡ sent_by self.now }
        ensures few { sum_by length result.now ≤ MOST_KEPT }
    {
        self.sent.as_slice()
    }

    /// How many sends it refused since it was last told whether to refuse.
    pub fn faults(&self) -> u64
        ensures { result ≡ self.now.faults }
    {
        self.faults
    }
}

impl Wire for KeptWire {
    ghost use Rattle.pc_agent.specs.Wires.{Keeps};

    ghost Sends = { Keeps };

    ghost faults = { λ wire. wire.faults };

    fn send(&mut self, delta: Delta) -> Result<(), SendFault> {
        if self.refuses {
            self.faults += 1;
            return Err(SendFault::WireFault);
        }
        let parts = delta.parts().len() as u64;
        if MOST_KEPT - self.kept < parts {
            return Err(SendFault::OutOfMemory);
        }
        match self.sent.push(delta) {
            Ok(()) => {
                self.kept += parts;
                Ok(())
            }
            Err(_) => Err(SendFault::OutOfMemory),
        }
    }
}
