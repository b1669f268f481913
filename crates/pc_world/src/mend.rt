//! Mending: an idle CPU comes to run a thread that waits for it, whatever was lost before.

ghost use Rattle.std.specs.Prelude.{IfOk, OnErr, OnOk, false, ◌++◌, ◌∷◌, []};
ghost use Rattle.pc_world.specs.Counting.{CountsMending, CountsMendingInPart};
ghost use Rattle.pc_world.specs.Inner.Mends.{CountsAll, CountsAmong, CountsPicks, DoesAll, PicksOrSteals};
ghost use Rattle.pc_world.specs.Mending.{clearing, hearing};
ghost use Rattle.pc_world.specs.Mends.{IsMended, MendsInPart, RunsTheSame, ShowsIdle};
ghost use Rattle.pc_world.specs.Shows.{Does, KeepsSent, RunsOutAmong};

use crate::laws::{a_waiting_thread_can_be_run, kernel_laws};
use crate::world::World;
use pc_calls::{Event, Posted, Refusal, Reply};
use pc_join::OutOfMemory;
use pc_messages::{Cpu, Tid};

impl World {
    /// Makes an idle CPU run a thread that waits for it, whatever was lost, crashed or came late before. Every queue is
    /// cleared, and the CPU's agent takes in all that was sent and picks; where it has nothing ready then, it steals
    /// and picks again. The answer is that of the last pick.
    ///
    /// Refused with `BadCpu`, or with `Busy` where a thread runs on the CPU, it does nothing; `NothingReady` says that
    /// no thread waits that the agent may take. Want of memory is told at an event that found none: the CPU is idle
    /// still, every other one runs what it ran, and mending can be begun anew.
    pub fn mend(&mut self, cpu: Cpu) -> Result<Reply, OutOfMemory>
        ensures mended { IfOk result (Does (IsMended cpu) self.old self.new) }
        ensures no_memory { OnErr result (MendsInPart cpu self.old self.new) }
        ensures counts { IfOk result (λ told. CountsMending cpu self.old self.new told) }
        ensures counts_in_part { OnErr result (CountsMendingInPart cpu self.old self.new) }
        ensures idle { OnErr result (ShowsIdle cpu self.new) }
        ensures running { OnErr result (RunsTheSame self.old self.new) }
        ensures kept { KeepsSent self.old self.new }
    {
        kernel_laws();
        a_waiting_thread_can_be_run();
        self.is_reached();
        let kernel = self.kernel();
        let cpus = kernel.cpus();
        let Some(posts) = kernel.aseq(cpu) else {
            return Ok(Reply::Refused(Refusal::BadCpu));
        };
        if kernel.running(cpu).is_some() {
            return Ok(Reply::Refused(Refusal::Busy));
        }
        let deltas = self.sent().len() as u64 + u64::from(cpus);
        self.learn(cpu, cpus, deltas)?;
        let answer = self.pick_or_steal(cpu, posts)?;
        Ok(answer)
    }

    /// The queues of the first so many CPUs are cleared, and the agent takes in the first so many deltas.
    fn learn(&mut self, cpu: Cpu, cpus: u8, deltas: u64) -> Result<(), OutOfMemory>
        ensures done { OnOk result (DoesAll (clearing cpus ++ hearing cpu deltas) self.old self.new) }
        ensures no_memory { OnErr result (RunsOutAmong (clearing cpus ++ hearing cpu deltas) self.old self.new) }
        ensures counts { OnOk result (CountsAll (clearing cpus ++ hearing cpu deltas) self.old self.new) }
        ensures counts_in_part { OnErr result (CountsAmong (clearing cpus ++ hearing cpu deltas) self.old self.new) }
        ensures kept { KeepsSent self.old self.new }
    {
        self.clear_queues(cpus)?;
        self.hear(cpu, deltas)?;
        Ok(())
    }

    /// The agent of each of the first so many CPUs sends what its queue holds, and removes it there.
    fn clear_queues(&mut self, cpus: u8) -> Result<(), OutOfMemory>
        ensures done { OnOk result (DoesAll (clearing cpus) self.old self.new) }
        ensures no_memory { OnErr result (RunsOutAmong (clearing cpus) self.old self.new) }
        ensures counts { OnOk result (CountsAll (clearing cpus) self.old self.new) }
        ensures counts_in_part { OnErr result (CountsAmong (clearing cpus) self.old self.new) }
        ensures kept { KeepsSent self.old self.new }
    {
        for index in 0..cpus {
            self.clear(Cpu(index))?;
        }
        Ok(())
    }

    /// The agent sends what its queue holds, and removes it there.
    fn clear(&mut self, cpu: Cpu) -> Result<(), OutOfMemory>
        ensures done { OnOk result
            (DoesAll (Event.Publish cpu false ∷ Event.Consume cpu ∷ []) self.old self.new) }
        ensures no_memory { OnErr result
            (RunsOutAmong (Event.Publish cpu false ∷ Event.Consume cpu ∷ []) self.old self.new) }
        ensures counts { OnOk result
            (CountsAll (Event.Publish cpu false ∷ Event.Consume cpu ∷ []) self.old self.new) }
        ensures counts_in_part { OnErr result
            (CountsAmong (Event.Publish cpu false ∷ Event.Consume cpu ∷ []) self.old self.new) }
        ensures kept { KeepsSent self.old self.new }
    {
        self.take(Event::Publish { cpu, fails: false })?;
        self.take(Event::Consume { cpu })?;
        Ok(())
    }

    /// The agent takes in the first so many deltas.
    fn hear(&mut self, cpu: Cpu, deltas: u64) -> Result<(), OutOfMemory>
        ensures done { OnOk result (DoesAll (hearing cpu deltas) self.old self.new) }
        ensures no_memory { OnErr result (RunsOutAmong (hearing cpu deltas) self.old self.new) }
        ensures counts { OnOk result (CountsAll (hearing cpu deltas) self.old self.new) }
        ensures counts_in_part { OnErr result (CountsAmong (hearing cpu deltas) self.old self.new) }
        ensures kept { KeepsSent self.old self.new }
    {
        for delta in 0..deltas {
            self.take(Event::Deliver { cpu, delta })?;
        }
        Ok(())
    }

    /// The agent picks, under this count of posts; where it commits no thread, it steals and picks again.
    fn pick_or_steal(&mut self, cpu: Cpu, posts: u32) -> Result<Reply, OutOfMemory>
        ensures done { IfOk result (Does (PicksOrSteals cpu posts) self.old self.new) }
        ensures no_memory { OnErr result (RunsOutAmong
            (Event.Pick cpu posts ∷ Event.Steal cpu ∷ Event.Pick cpu posts ∷ []) self.old self.new) }
        ensures counts { IfOk result (λ told. CountsPicks cpu posts self.old self.new told) }
        ensures counts_in_part { OnErr result (CountsAmong
            (Event.Pick cpu posts ∷ Event.Steal cpu ∷ Event.Pick cpu posts ∷ []) self.old self.new) }
        ensures kept { KeepsSent self.old self.new }
    {
        match self.step(Event::Pick { cpu, aseq: posts })? {
            Reply::Committed { cpu, thread } => Ok(Reply::Committed { cpu, thread }),
            _ => {
                self.take(Event::Steal { cpu })?;
                let again = self.step(Event::Pick { cpu, aseq: posts })?;
                Ok(again)
            }
        }
    }

    /// Takes an event, whatever is replied.
    fn take(&mut self, event: Event) -> Result<(), OutOfMemory>
        ensures done { OnOk result (DoesAll (event ∷ []) self.old self.new) }
        ensures no_memory { OnErr result (RunsOutAmong (event ∷ []) self.old self.new) }
        ensures counts { OnOk result (CountsAll (event ∷ []) self.old self.new) }
        ensures counts_in_part { OnErr result (CountsAmong (event ∷ []) self.old self.new) }
        ensures kept { KeepsSent self.old self.new }
    {
        // The checker finds the types that a reply nests only where the function names them.
        let _: (Option<Posted>, Option<Tid>, Option<Cpu>, Option<Refusal>) = (
            None, None, None, None,
        );
        match self.step(event) {
            Ok(_) => Ok(()),
            Err(fault) => Err(fault),
        }
    }
}
