//! What an agent does with its own queue.

ghost use Rattle.std.specs.Prelude.{◌≡◌, ◌<◌, ◌^◌, length, Err, IsTrue};
ghost use Rattle.pc_messages.specs.Items.{AreTellable};
ghost use Rattle.pc_kernel.specs.Reads.{seen, is_cpu};
ghost use Rattle.pc_agent.specs.declared.counts.TheConstants.{MOST_COUNTED};
ghost use Rattle.pc_agent.specs.Calls.{CountsAsSent, DoesConsume, DoesCopy, DoesPublish};
ghost use Rattle.pc_agent.specs.Own.{Publishes};
ghost use Rattle.pc_agent.specs.Shows.{cpu_of, rules_in};

use crate::agent::Agent;
use crate::wire::{SendFault, Wire};
use pc_calls::{CallFault, Refusal};
use pc_delta::Delta;
use pc_delta::laws::{parts_of_items_are_of_the_run, parts_stay_as_the_run_goes_on};
use pc_join::OutOfMemory;
use pc_kernel::Kernel;
use pc_kernel::laws::reads_are_plain;
use pc_messages::Item;
use pc_view::views_tell_what_their_sets_tell;

impl Agent {
    /// Takes the messages of items into its view, refreshes its run list with their threads, and gives the delta that
    /// tells them. Where memory runs out, the view has a part of them, and the run list is the old one.
    pub fn copied(&mut self, items: &[Item]) -> Result<Delta, OutOfMemory>
        requires tellable { AreTellable items.now }
        ensures { DoesCopy items.now result self.old self.new }
    {
        views_tell_what_their_sets_tell();
        parts_of_items_are_of_the_run();
        let delta = Delta::of_items(self.alloc, items)?;
        self.deliver(&delta)?;
        self.shortcuts.refresh(
            &mut self.list,
            &self.policy.order,
            &self.view,
            self.cpu,
            items,
        )?;
        Ok(delta)
    }

    /// Counts so many items at the front of its queue as sent.
    pub fn sent(&mut self, items: u32)
        ensures { CountsAsSent items self.old self.new }
    {
        self.sent_items = items;
    }

    /// Takes in all that its queue holds and sends it, and answers how many items that were. The items stay in the
    /// queue until [`Agent::consume`].
    ///
    /// Where the wire refuses, or has no memory for the send, the view and the run list have changed all the same.
    pub fn publish<W: Wire>(&mut self, kernel: &Kernel, wire: &mut W) -> Result<u32, SendFault>
        requires there { IsTrue (is_cpu (seen kernel.now) self.old.cpu) }
        requires room { W.faults wire.old < MOST_COUNTED }
        ensures { DoesPublish W.Sends W.faults kernel.now result self.old self.new wire.old wire.new }
    {
        reads_are_plain();
        views_tell_what_their_sets_tell();
        parts_of_items_are_of_the_run();
        parts_stay_as_the_run_goes_on();
        // Items that stand side by side, as they most often do, need no copy.
        if let Some((items, [])) = kernel.queued(self.cpu) {
            return self.publish_items(items, wire);
        }
        match kernel.peek(self.cpu) {
            Ok((_, items)) => self.publish_items(items.as_slice(), wire),
            Err(CallFault::OutOfMemory) => Err(SendFault::OutOfMemory),
            Err(CallFault::Refused(_)) => unreachable!(),
        }
    }

    /// Takes in the items, which are all that its queue holds, and sends them.
    fn publish_items<W: Wire>(&mut self, items: &[Item], wire: &mut W) -> Result<u32, SendFault>
        requires few { length items.now < 2 ^ 32 }
        requires tellable { AreTellable items.now }
        requires room { W.faults wire.old < MOST_COUNTED }
        ensures own { Publishes W.Sends items.now result self.old self.new wire.old wire.new }
        ensures fault { result ≡ Err SendFault.WireFault → W.faults wire.old < W.faults wire.new }
        ensures cpu { cpu_of self.new ≡ cpu_of self.old }
        ensures rules { rules_in self.new ≡ rules_in self.old }
        ensures counts { self.new.counts ≡ self.old.counts }
    {
        let delta = match self.copied(items) {
            Ok(delta) => delta,
            Err(OutOfMemory) => return Err(SendFault::OutOfMemory),
        };
        match wire.send(delta) {
            Ok(()) => {
                let count = items.len() as u32;
                self.sent(count);
                Ok(count)
            }
            Err(fault) => Err(fault),
        }
    }

    /// Removes from its queue the items that it has sent, and answers how many. It takes no memory. `TooMany` comes
    /// where more items count as sent than the queue holds.
    pub fn consume(&mut self, kernel: &mut Kernel) -> Result<u32, Refusal>
        ensures { DoesConsume result self.old self.new kernel.old kernel.new }
    {
        let items = self.sent_items;
        match kernel.consume(self.cpu, items) {
            Ok(()) => {
                self.sent_items = 0;
                let answered = Ok(items);
                self.counts.count_consume(&answered);
                answered
            }
            Err(refusal) => Err(refusal),
        }
    }
}
