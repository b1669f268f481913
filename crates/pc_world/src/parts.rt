//! What a world keeps, and what each event does to it.

ghost use Rattle.std.specs.Prelude.{◌≡◌, false, IfOk, MatchOption, OnErr, Some, length, slice_get, option_copied};
ghost use Rattle.pc_kernel.specs.Reads.{seen, is_cpu};
ghost use Rattle.pc_world.specs.Inner.Agents.{AreOwn};
ghost use Rattle.pc_world.specs.Inner.Laws.{RunsGoOn};

use crate::laws::kernel_laws;
use pc_agent::{Agent, KeptWire, SendFault, agents_stay_as_the_run_goes_on};
use pc_calls::{AgentCall, Call, CallFault, EnvCall, Event, Refusal, Reply};
use pc_delta::laws::{parts_stay_as_the_run_goes_on, sets_are_pairs};
use pc_delta::{Delta, Digest};
use pc_join::OutOfMemory;
use pc_kernel::Kernel;
use pc_kernel::laws::calls_extend_the_run;
use pc_messages::Cpu;
use std::alloc::Global;

/// A kernel, an agent for each of its CPUs, and every delta that an agent ever sent.
#[derive(Drop)]
pub(crate) struct Parts {
    pub(crate) alloc: Global,
    pub(crate) kernel: Kernel,
    /// The agents of CPUs 0, 1, ..
    pub(crate) agents: Vec<Agent>,
    /// The deltas that were sent, in order.
    pub(crate) wire: KeptWire,
    ghost as_many: { length agents.items ≡ kernel.limits.cpus },
    ghost own: { AreOwn agents.items },
}

/// What holds of a run holds of each run that goes on from it.
pub(crate) fn runs_go_on()
    ensures { RunsGoOn }
{
    calls_extend_the_run();
    agents_stay_as_the_run_goes_on();
    parts_stay_as_the_run_goes_on();
}

/// The delta with this index.
fn delta_at(sent: &[Delta], index: u64) -> Option<&Delta>
    ensures { option_copied result ≡ slice_get sent.now index }
{
    sent.get(usize::try_from(index).ok()?)
}

impl Parts {
    ghost use Rattle.pc_world.specs.Counting.{CountsNothing};
    ghost use Rattle.pc_world.specs.Inner.Handling.{CountsOutcome, Handles, outcome_of};
    ghost use Rattle.pc_world.specs.Inner.Places.{IsPlace};
    ghost use Rattle.pc_world.specs.Shows.{AnswersDigest, IsReached, KeepsSent, ShowsTheSame};
    ghost use Rattle.pc_delta.specs.Digests.{set_of_digest};

    /// The CPU's agent; none of a CPU that is not there.
    pub(crate) fn agent(&self, cpu: Cpu) -> Option<&Agent>
        ensures { option_copied result ≡ slice_get self.now.agents.items cpu }
    {
        self.agents.get(cpu.index() as usize)
    }

    /// Takes an event, and puts what it is replied into the place, which keeps what it held where memory runs out.
    ///
    /// It only hands on: a call of the environment is done in a few steps, and where an event of an agent stood in the
    /// same function, each would save the registers and clear the room that such an event wants.
    pub(crate) fn handle(&mut self, event: &Event, reply: &mut Reply) -> Result<(), OutOfMemory>
        ensures handles { Handles event.now (outcome_of result reply.new) self.old self.new }
        ensures counts { CountsOutcome event.now (outcome_of result reply.new) self.old self.new }
        ensures kept { OnErr result (reply.new ≡ reply.old) }
    {
        match event {
            Event::Publish { cpu, fails } => self.publish(*cpu, *fails, reply),
            Event::Consume { cpu } => self.consume(*cpu, reply),
            Event::Deliver { cpu, delta } => self.deliver(*cpu, *delta, reply),
            Event::Answer { cpu, asker } => self.answer(*cpu, *asker, reply),
            Event::Pick { cpu, aseq } => self.pick(*cpu, *aseq, reply),
            Event::Steal { cpu } => self.steal(*cpu, reply),
            Event::Crash { cpu } => self.crash(*cpu, reply),
            Event::Env(call) => self.post(call, reply),
            Event::Agent(call) => self.call(call, reply),
        }
    }

    /// Where the CPU's agent stands.
    fn place(&self, cpu: Cpu) -> Option<usize>
        ensures { MatchOption result (is_cpu (seen self.now.kernel) cpu ≡ false) (IsPlace self.now cpu) }
    {
        if cpu.index() < self.kernel.cpus() {
            Some(cpu.index() as usize)
        } else {
            None
        }
    }

    /// The environment makes this call.
    #[inline(always)]
    fn post(&mut self, call: &EnvCall, reply: &mut Reply) -> Result<(), OutOfMemory>
        ensures handles { Handles (Event.Env call.now) (outcome_of result reply.new) self.old self.new }
        ensures counts { CountsNothing self.old self.new }
        ensures kept { OnErr result (reply.new ≡ reply.old) }
    {
        match call {
            EnvCall::Create { queue, mask, ready } => self.create(*queue, *mask, *ready, reply),
            EnvCall::Wake { thread } => self.wake(*thread, reply),
            EnvCall::Block { cpu, ran } => self.block(*cpu, *ran, reply),
            EnvCall::YieldNow { cpu, ran } => self.yield_now(*cpu, *ran, reply),
            EnvCall::Preempt { cpu, ran } => self.preempt(*cpu, *ran, reply),
            EnvCall::Die { cpu, ran } => self.die(*cpu, *ran, reply),
            EnvCall::SetAffinity { thread, mask } => self.set_affinity(*thread, *mask, reply),
            EnvCall::SetPriority { thread, level } => self.set_priority(*thread, *level, reply),
            EnvCall::Tick { cpu } => self.tick(*cpu, reply),
        }
    }

    /// An agent makes this call.
    #[inline(never)]
    fn call(&mut self, call: &AgentCall, reply: &mut Reply) -> Result<(), OutOfMemory>
        ensures handles { Handles (Event.Agent call.now) (outcome_of result reply.new) self.old self.new }
        ensures counts { CountsNothing self.old self.new }
        ensures kept { OnErr result (reply.new ≡ reply.old) }
    {
        runs_go_on();
        let call = Call::Agent(*call);
        match self.kernel.apply(call) {
            Ok(answer) => {
                *reply = call.reply(answer);
                Ok(())
            }
            Err(CallFault::Refused(refusal)) => {
                *reply = Reply::Refused(refusal);
                Ok(())
            }
            Err(CallFault::OutOfMemory) => Err(OutOfMemory),
        }
    }

    /// The agent removes from its queue what it has sent.
    #[inline(never)]
    fn consume(&mut self, cpu: Cpu, reply: &mut Reply) -> Result<(), OutOfMemory>
        ensures handles { Handles (Event.Consume cpu) (outcome_of result reply.new) self.old self.new }
        ensures counts { CountsOutcome (Event.Consume cpu) (outcome_of result reply.new) self.old self.new }
        ensures kept { OnErr result (reply.new ≡ reply.old) }
    {
        runs_go_on();
        let Some(place) = self.place(cpu) else {
            *reply = Reply::Refused(Refusal::BadCpu);
            return Ok(());
        };
        match self.agents[place].consume(&mut self.kernel) {
            Ok(items) => {
                *reply = Reply::Consumed { items };
                Ok(())
            }
            Err(refusal) => {
                *reply = Reply::Refused(refusal);
                Ok(())
            }
        }
    }

    /// The agent takes in what its queue holds, and sends it, by a wire that may refuse it.
    #[inline(never)]
    fn publish(&mut self, cpu: Cpu, fails: bool, reply: &mut Reply) -> Result<(), OutOfMemory>
        ensures handles { Handles (Event.Publish cpu fails) (outcome_of result reply.new) self.old self.new }
        ensures counts { CountsNothing self.old self.new }
        ensures kept { OnErr result (reply.new ≡ reply.old) }
    {
        runs_go_on();
        let Some(place) = self.place(cpu) else {
            *reply = Reply::Refused(Refusal::BadCpu);
            return Ok(());
        };
        let index = self.wire.sent().len() as u64;
        self.wire.set_refuses(fails);
        match self.agents[place].publish(&self.kernel, &mut self.wire) {
            Ok(items) => {
                *reply = Reply::Published {
                    delta: index,
                    items,
                };
                Ok(())
            }
            Err(SendFault::WireFault) => {
                *reply = Reply::Refused(Refusal::WireFault);
                Ok(())
            }
            Err(SendFault::OutOfMemory) => Err(OutOfMemory),
        }
    }

    /// The agent takes in the delta with this index.
    #[inline(never)]
    fn deliver(&mut self, cpu: Cpu, index: u64, reply: &mut Reply) -> Result<(), OutOfMemory>
        ensures handles { Handles (Event.Deliver cpu index) (outcome_of result reply.new) self.old self.new }
        ensures counts { CountsNothing self.old self.new }
        ensures kept { OnErr result (reply.new ≡ reply.old) }
    {
        runs_go_on();
        let Some(place) = self.place(cpu) else {
            *reply = Reply::Refused(Refusal::BadCpu);
            return Ok(());
        };
        match delta_at(self.wire.sent(), index) {
            None => {
                *reply = Reply::Refused(Refusal::NoDelta);
                Ok(())
            }
            Some(delta) => match self.agents[place].deliver(delta) {
                Ok(()) => {
                    *reply = Reply::Done;
                    Ok(())
                }
                Err(fault) => Err(fault),
            },
        }
    }

    /// The agent sends what the asker's digest lacks.
    #[inline(never)]
    fn answer(&mut self, cpu: Cpu, asker: Cpu, reply: &mut Reply) -> Result<(), OutOfMemory>
        ensures handles { Handles (Event.Answer cpu asker) (outcome_of result reply.new) self.old self.new }
        ensures counts { CountsNothing self.old self.new }
        ensures kept { OnErr result (reply.new ≡ reply.old) }
    {
        sets_are_pairs();
        let Some(place) = self.place(cpu) else {
            *reply = Reply::Refused(Refusal::BadCpu);
            return Ok(());
        };
        let Some(other) = self.place(asker) else {
            *reply = Reply::Refused(Refusal::BadCpu);
            return Ok(());
        };
        let index = self.wire.sent().len() as u64;
        self.wire.set_refuses(false);
        // What the asker's digest would have, its view has: the digest need not be made.
        match self.agents[place].answer_beyond(self.agents[other].view(), &mut self.wire) {
            Ok(()) => {
                *reply = Reply::Answered { delta: index };
                Ok(())
            }
            Err(SendFault::OutOfMemory) => Err(OutOfMemory),
            Err(SendFault::WireFault) => unreachable!(),
        }
    }

    /// The agent sends what a digest lacks, whenever that was made.
    pub(crate) fn answer_digest(&mut self, cpu: Cpu, digest: &Digest) -> Result<Reply, OutOfMemory>
        ensures answers { IfOk result (AnswersDigest (set_of_digest digest.now) cpu self.old self.new) }
        ensures reached { IsReached self.old → IsReached self.new }
        ensures no_memory { OnErr result (ShowsTheSame self.old self.new) }
        ensures counts { CountsNothing self.old self.new }
        ensures kept { KeepsSent self.old self.new }
    {
        kernel_laws();
        sets_are_pairs();
        let Some(place) = self.place(cpu) else {
            return Ok(Reply::Refused(Refusal::BadCpu));
        };
        let index = self.wire.sent().len() as u64;
        self.wire.set_refuses(false);
        match self.agents[place].answer(digest, &mut self.wire) {
            Ok(()) => Ok(Reply::Answered { delta: index }),
            Err(SendFault::OutOfMemory) => Err(OutOfMemory),
            Err(SendFault::WireFault) => unreachable!(),
        }
    }

    /// The agent commits the first thread of its run list that the kernel accepts.
    #[inline(never)]
    fn pick(&mut self, cpu: Cpu, aseq: u32, reply: &mut Reply) -> Result<(), OutOfMemory>
        ensures handles { Handles (Event.Pick cpu aseq) (outcome_of result reply.new) self.old self.new }
        ensures counts { CountsOutcome (Event.Pick cpu aseq) (outcome_of result reply.new) self.old self.new }
        ensures kept { OnErr result (reply.new ≡ reply.old) }
    {
        runs_go_on();
        let Some(place) = self.place(cpu) else {
            *reply = Reply::Refused(Refusal::BadCpu);
            return Ok(());
        };
        match self.agents[place].pick(&mut self.kernel, aseq) {
            Ok(thread) => {
                *reply = Reply::Committed { thread, cpu };
                Ok(())
            }
            Err(refusal) => {
                *reply = Reply::Refused(refusal);
                Ok(())
            }
        }
    }

    /// The agent takes a thread over that it may.
    #[inline(never)]
    fn steal(&mut self, cpu: Cpu, reply: &mut Reply) -> Result<(), OutOfMemory>
        ensures handles { Handles (Event.Steal cpu) (outcome_of result reply.new) self.old self.new }
        ensures counts { CountsOutcome (Event.Steal cpu) (outcome_of result reply.new) self.old self.new }
        ensures kept { OnErr result (reply.new ≡ reply.old) }
    {
        runs_go_on();
        let Some(place) = self.place(cpu) else {
            *reply = Reply::Refused(Refusal::BadCpu);
            return Ok(());
        };
        match self.agents[place].steal(&mut self.kernel) {
            Ok(thread) => {
                *reply = Reply::Associated { thread, queue: cpu };
                Ok(())
            }
            Err(fault) => match fault {
                CallFault::Refused(refusal) => {
                    *reply = Reply::Refused(refusal);
                    Ok(())
                }
                CallFault::OutOfMemory => Err(OutOfMemory),
            },
        }
    }

    /// The agent starts again with nothing, and is awake.
    #[inline(never)]
    fn crash(&mut self, cpu: Cpu, reply: &mut Reply) -> Result<(), OutOfMemory>
        ensures handles { Handles (Event.Crash cpu) (outcome_of result reply.new) self.old self.new }
        ensures counts { CountsNothing self.old self.new }
        ensures kept { OnErr result (reply.new ≡ reply.old) }
    {
        runs_go_on();
        let Some(place) = self.place(cpu) else {
            *reply = Reply::Refused(Refusal::BadCpu);
            return Ok(());
        };
        match self.kernel.rouse(cpu) {
            Ok(()) => {
                self.agents[place].restart();
                *reply = Reply::Done;
                Ok(())
            }
            Err(refusal) => {
                *reply = Reply::Refused(refusal);
                Ok(())
            }
        }
    }
}
