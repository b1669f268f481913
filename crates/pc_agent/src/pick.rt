//! How an agent has a thread of its run list run.

ghost use Rattle.std.specs.Prelude.{◌≡◌};
ghost use Rattle.pc_kernel.specs.Reads.{seen};
ghost use Rattle.pc_agent.specs.Calls.{DoesPick, GoesOn};
ghost use Rattle.pc_agent.specs.Inner.Picks.{CommitsFirst, Picks, unready_for};
ghost use Rattle.pc_agent.specs.Inner.Shortcuts.{StayTrue};

use crate::agent::Agent;
use crate::shortcuts::Shortcuts;
use pc_calls::Refusal;
use pc_kernel::Kernel;
use pc_messages::{Cpu, Tid};
use pc_run_queue::RunQueue;

/// Commits the first name that the kernel commits; what stood before it is dropped, and it leaves the list too.
fn commit_first(
    list: &mut RunQueue,
    shortcuts: &mut Shortcuts,
    kernel: &mut Kernel,
    cpu: Cpu,
    aseq: u32,
) -> Result<Tid, Refusal>
    ensures first { CommitsFirst cpu aseq result list.old list.new kernel.old kernel.new }
    ensures goes_on { GoesOn result kernel.old kernel.new }
    ensures kept { StayTrue shortcuts.old list.old shortcuts.new list.new }
{
    while let Some(name) = shortcuts.take_first(list) {
        match kernel.commit(cpu, name, aseq) {
            Ok(()) => return Ok(name),
            // The name is dropped: it comes back when a further message of it is copied, or by a steal.
            Err(_) => {}
        }
    }
    Err(Refusal::NothingReady)
}

/// Why an agent does not even look at its run list.
fn unready(kernel: &Kernel, cpu: Cpu, aseq: u32) -> Option<Refusal>
    ensures { result ≡ unready_for (seen kernel.now) cpu aseq }
{
    let now = kernel.aseq(cpu).unwrap_or(0);
    if now != aseq {
        return Some(Refusal::Stale(now));
    }
    match kernel.running(cpu) {
        Some(_) => Some(Refusal::Busy),
        None => None,
    }
}

/// A pick from a run list, for a CPU.
fn pick_from(
    list: &mut RunQueue,
    shortcuts: &mut Shortcuts,
    kernel: &mut Kernel,
    cpu: Cpu,
    aseq: u32,
) -> Result<Tid, Refusal>
    ensures picks { Picks cpu aseq result list.old list.new kernel.old kernel.new }
    ensures goes_on { GoesOn result kernel.old kernel.new }
    ensures kept { StayTrue shortcuts.old list.old shortcuts.new list.new }
{
    if let Some(refusal) = unready(kernel, cpu, aseq) {
        return Err(refusal);
    }
    commit_first(list, shortcuts, kernel, cpu, aseq)
}

impl Agent {
    /// Commits the first thread of its run list that the kernel accepts, under the count of posts that it read. It
    /// takes no memory.
    ///
    /// `Stale` with the count of now; `Busy` where a thread runs on its CPU; `NothingReady` where the kernel accepts
    /// none, and the run list then is empty.
    pub fn pick(&mut self, kernel: &mut Kernel, aseq: u32) -> Result<Tid, Refusal>
        ensures { DoesPick aseq result self.old self.new kernel.old kernel.new }
    {
        let answered = pick_from(&mut self.list, &mut self.shortcuts, kernel, self.cpu, aseq);
        self.counts.count_pick(&answered);
        answered
    }
}
