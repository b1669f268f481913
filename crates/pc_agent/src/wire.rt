//! What an agent sends its deltas by.

ghost use Rattle.std.specs.Prelude.{ℕ, ◌≡◌, ◌<◌, List, Result, Err};
ghost use Rattle.pc_delta.specs.declared.part.Part.{Part};
ghost use Rattle.pc_agent.specs.declared.counts.TheConstants.{MOST_COUNTED};
ghost use Rattle.pc_agent.specs.declared.wire.SendFault.{SendFault};

use pc_delta::Delta;
use thiserror::Error;

/// Why a delta was not sent. After either nothing was.
#[derive(Clone, Copy, Debug, PartialEq, Eq, Error)]
pub enum SendFault {
    #[error("out of memory")]
    OutOfMemory,
    /// The wire does not take it.
    #[error("the wire did not send the delta")]
    WireFault,
}

/// What takes deltas for other agents: a list in memory, a channel, a socket (own). Whether what it took arrives is
/// never said.
pub trait Wire {
    /// What the wire says of a send: the wire before, the delta, the answer, and the wire after.
    ghost Sends: { Self → List Part → Result (Unit {0}) SendFault → Self → Type 0 };

    /// How many sends the wire refused.
    ghost faults: { Self → ℕ };

    /// Sends a delta. The wire refuses it only where its count of faults then is higher.
    fn send(&mut self, delta: Delta) -> Result<(), SendFault>
        requires room { faults self.old < MOST_COUNTED }
        ensures says { Sends self.old delta result self.new }
        ensures fault { result ≡ Err SendFault.WireFault → faults self.old < faults self.new };
}
