//! What each call of the environment does to the parts of a world.
//!
//! Each has a function of its own. In one for all of them room would be cleared for what each is answered, whichever it
//! is, and an outcome that were handed on from where they meet would be put together from the fields of all.

ghost use Rattle.std.specs.Prelude.{◌≡◌, OnErr};
ghost use Rattle.pc_world.specs.Inner.Putting.{IsPut};

use crate::parts::{Parts, runs_go_on};
use pc_calls::{CallFault, EnvCall, Event, Posted, Reply};
use pc_join::OutOfMemory;
use pc_messages::{Cpu, Tid};

/// Puts what a call of the environment is answered into the place, which keeps what it held where memory ran out.
#[inline(always)]
fn put_posted(outcome: Result<Posted, CallFault>, reply: &mut Reply) -> Result<(), OutOfMemory>
    ensures put { IsPut outcome result reply.new }
    ensures kept { OnErr result (reply.new ≡ reply.old) }
{
    match outcome {
        Ok(posted) => {
            *reply = Reply::Posted(posted);
            Ok(())
        }
        Err(CallFault::Refused(refusal)) => {
            *reply = Reply::Refused(refusal);
            Ok(())
        }
        Err(CallFault::OutOfMemory) => Err(OutOfMemory),
    }
}

impl Parts {
    ghost use Rattle.pc_world.specs.Counting.{CountsNothing};
    ghost use Rattle.pc_world.specs.Inner.Handling.{Handles, outcome_of};

    /// A new thread, whose home is the queue.
    #[inline(never)]
    pub(crate) fn create(
        &mut self,
        queue: Cpu,
        mask: u64,
        ready: bool,
        reply: &mut Reply,
    ) -> Result<(), OutOfMemory>
        ensures handles { Handles (Event.Env (EnvCall.Create queue ready mask)) (outcome_of result reply.new)
            self.old self.new }
        ensures counts { CountsNothing self.old self.new }
        ensures kept { OnErr result (reply.new ≡ reply.old) }
    {
        runs_go_on();
        put_posted(self.kernel.create(queue, mask, ready), reply)
    }

    /// The blocked thread is ready.
    #[inline(never)]
    pub(crate) fn wake(&mut self, thread: Tid, reply: &mut Reply) -> Result<(), OutOfMemory>
        ensures handles { Handles (Event.Env (EnvCall.Wake thread)) (outcome_of result reply.new)
            self.old self.new }
        ensures counts { CountsNothing self.old self.new }
        ensures kept { OnErr result (reply.new ≡ reply.old) }
    {
        runs_go_on();
        put_posted(self.kernel.wake(thread), reply)
    }

    /// The thread on the CPU leaves it and is blocked.
    #[inline(never)]
    pub(crate) fn block(&mut self, cpu: Cpu, ran: u32, reply: &mut Reply) -> Result<(), OutOfMemory>
        ensures handles { Handles (Event.Env (EnvCall.Block cpu ran)) (outcome_of result reply.new)
            self.old self.new }
        ensures counts { CountsNothing self.old self.new }
        ensures kept { OnErr result (reply.new ≡ reply.old) }
    {
        runs_go_on();
        put_posted(self.kernel.block(cpu, ran), reply)
    }

    /// The thread on the CPU leaves it of its own accord and stays ready.
    #[inline(never)]
    pub(crate) fn yield_now(
        &mut self,
        cpu: Cpu,
        ran: u32,
        reply: &mut Reply,
    ) -> Result<(), OutOfMemory>
        ensures handles { Handles (Event.Env (EnvCall.YieldNow cpu ran)) (outcome_of result reply.new)
            self.old self.new }
        ensures counts { CountsNothing self.old self.new }
        ensures kept { OnErr result (reply.new ≡ reply.old) }
    {
        runs_go_on();
        put_posted(self.kernel.yield_now(cpu, ran), reply)
    }

    /// The thread on the CPU is taken off it and stays ready.
    #[inline(never)]
    pub(crate) fn preempt(
        &mut self,
        cpu: Cpu,
        ran: u32,
        reply: &mut Reply,
    ) -> Result<(), OutOfMemory>
        ensures handles { Handles (Event.Env (EnvCall.Preempt cpu ran)) (outcome_of result reply.new)
            self.old self.new }
        ensures counts { CountsNothing self.old self.new }
        ensures kept { OnErr result (reply.new ≡ reply.old) }
    {
        runs_go_on();
        put_posted(self.kernel.preempt(cpu, ran), reply)
    }

    /// The thread on the CPU leaves it and is dead.
    #[inline(never)]
    pub(crate) fn die(&mut self, cpu: Cpu, ran: u32, reply: &mut Reply) -> Result<(), OutOfMemory>
        ensures handles { Handles (Event.Env (EnvCall.Die cpu ran)) (outcome_of result reply.new)
            self.old self.new }
        ensures counts { CountsNothing self.old self.new }
        ensures kept { OnErr result (reply.new ≡ reply.old) }
    {
        runs_go_on();
        put_posted(self.kernel.die(cpu, ran), reply)
    }

    /// The thread may run on the CPUs of this mask, and on no others.
    #[inline(never)]
    pub(crate) fn set_affinity(
        &mut self,
        thread: Tid,
        mask: u64,
        reply: &mut Reply,
    ) -> Result<(), OutOfMemory>
        ensures handles { Handles (Event.Env (EnvCall.SetAffinity thread mask)) (outcome_of result reply.new)
            self.old self.new }
        ensures counts { CountsNothing self.old self.new }
        ensures kept { OnErr result (reply.new ≡ reply.old) }
    {
        runs_go_on();
        put_posted(self.kernel.set_affinity(thread, mask), reply)
    }

    /// The thread has this level.
    #[inline(never)]
    pub(crate) fn set_priority(
        &mut self,
        thread: Tid,
        level: u8,
        reply: &mut Reply,
    ) -> Result<(), OutOfMemory>
        ensures handles { Handles (Event.Env (EnvCall.SetPriority thread level)) (outcome_of result reply.new)
            self.old self.new }
        ensures counts { CountsNothing self.old self.new }
        ensures kept { OnErr result (reply.new ≡ reply.old) }
    {
        runs_go_on();
        put_posted(self.kernel.set_priority(thread, level), reply)
    }

    /// A tick of the CPU, to its queue.
    #[inline(never)]
    pub(crate) fn tick(&mut self, cpu: Cpu, reply: &mut Reply) -> Result<(), OutOfMemory>
        ensures handles { Handles (Event.Env (EnvCall.Tick cpu)) (outcome_of result reply.new)
            self.old self.new }
        ensures counts { CountsNothing self.old self.new }
        ensures kept { OnErr result (reply.new ≡ reply.old) }
    {
        runs_go_on();
        put_posted(self.kernel.tick(cpu), reply)
    }
}
