//! What agents tell each other.

ghost use Rattle.std.specs.Prelude.{◌≡◌, ◌<◌, Err};
ghost use Rattle.pc_view.specs.Views.{pairs_of};
ghost use Rattle.pc_delta.specs.Digests.{set_of_digest};
ghost use Rattle.pc_agent.specs.declared.counts.TheConstants.{MOST_COUNTED};
ghost use Rattle.pc_agent.specs.Calls.{DoesDeliver};
ghost use Rattle.pc_agent.specs.Exchanging.{IsAnswered};

use crate::agent::Agent;
use crate::wire::{SendFault, Wire};
use pc_delta::{Delta, Digest, delta_beyond, delta_since, take_in};
use pc_join::OutOfMemory;
use pc_view::View;

impl Agent {
    /// Takes in what a delta tells. The run list stays as it is. Where memory runs out, a part of it may have been
    /// taken in; delivering it again completes it.
    pub fn deliver(&mut self, delta: &Delta) -> Result<(), OutOfMemory>
        ensures { DoesDeliver delta.now result self.old self.new }
    {
        let parts = delta.parts();
        self.shortcuts.note(parts, &self.list, &self.policy.order, &self.view, self.cpu);
        match take_in(&mut self.view, delta) {
            Ok(()) => {
                self.shortcuts
                    .look_anew(parts, &self.policy.order, &self.view, self.cpu);
                Ok(())
            }
            Err(fault) => {
                self.shortcuts.forget();
                Err(fault)
            }
        }
    }

    /// Sends what the digest lacks of all that the agent knows.
    pub fn answer<W: Wire>(&self, digest: &Digest, wire: &mut W) -> Result<(), SendFault>
        requires room { W.faults wire.old < MOST_COUNTED }
        ensures answers { IsAnswered W.Sends self.now.view (set_of_digest digest.now) result wire.old wire.new }
        ensures fault { result ≡ Err SendFault.WireFault → W.faults wire.old < W.faults wire.new }
    {
        match delta_since(self.alloc, &self.view, digest) {
            Ok(delta) => wire.send(delta),
            Err(OutOfMemory) => Err(SendFault::OutOfMemory),
        }
    }

    /// Sends what another view lacks: what an answer to its digest of this moment would tell, with no need to make the
    /// digest.
    pub fn answer_beyond<W: Wire>(&self, asker: &View, wire: &mut W) -> Result<(), SendFault>
        requires room { W.faults wire.old < MOST_COUNTED }
        ensures answers { IsAnswered W.Sends self.now.view (pairs_of asker.now) result wire.old wire.new }
        ensures fault { result ≡ Err SendFault.WireFault → W.faults wire.old < W.faults wire.new }
    {
        match delta_beyond(self.alloc, &self.view, asker) {
            Ok(delta) => wire.send(delta),
            Err(OutOfMemory) => Err(SendFault::OutOfMemory),
        }
    }
}
