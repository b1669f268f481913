//! The environment's calls: each posts one item.

ghost use Rattle.std.specs.Prelude.{◌≡◌};
ghost use Rattle.std.specs.Result.{result_map_both};

use crate::kernel::Kernel;
use pc_calls::{Answer, Call, CallFault, EnvCall, Posted};
use pc_messages::{Cpu, Kind, Tid};
use std::alloc::AllocError;

impl Kernel {
    ghost use Rattle.pc_kernel.specs.Answers.{AnsweredInMemory};

    /// Creates a thread, whose name is the next one and whose home is the queue.
    pub fn create(&mut self, queue: Cpu, mask: u64, ready: bool) -> Result<Posted, CallFault>
        ensures { AnsweredInMemory Answer.Posted (Call.Env (EnvCall.Create queue ready mask))
            result self.old self.new }
    {
        match self.tables.first_kind(queue, mask, ready) {
            Err(refusal) => Err(refusal.into()),
            Ok(kind) => in_memory(self.tables.add(queue, kind)),
        }
    }

    /// Wakes a blocked thread.
    pub fn wake(&mut self, thread: Tid) -> Result<Posted, CallFault>
        ensures { AnsweredInMemory Answer.Posted (Call.Env (EnvCall.Wake thread)) result self.old self.new }
    {
        match self.tables.wake_fault(thread) {
            Some(refusal) => Err(refusal.into()),
            None => in_memory(self.tables.tell(thread, Kind::Wakeup)),
        }
    }

    /// Blocks the thread on the CPU, which it leaves after so many ticks.
    pub fn block(&mut self, cpu: Cpu, ran: u32) -> Result<Posted, CallFault>
        ensures { AnsweredInMemory Answer.Posted (Call.Env (EnvCall.Block cpu ran)) result self.old self.new }
    {
        self.tables.leave(cpu, Kind::Blocked { ran })
    }

    /// Takes the thread off the CPU by its own will; it is ready to run.
    pub fn yield_now(&mut self, cpu: Cpu, ran: u32) -> Result<Posted, CallFault>
        ensures { AnsweredInMemory Answer.Posted (Call.Env (EnvCall.YieldNow cpu ran)) result self.old self.new }
    {
        self.tables.leave(cpu, Kind::Yield { ran })
    }

    /// Takes the thread off the CPU against its will; it is ready to run.
    pub fn preempt(&mut self, cpu: Cpu, ran: u32) -> Result<Posted, CallFault>
        ensures { AnsweredInMemory Answer.Posted (Call.Env (EnvCall.Preempt cpu ran)) result self.old self.new }
    {
        self.tables.leave(cpu, Kind::Preempted { ran })
    }

    /// Ends the thread on the CPU.
    pub fn die(&mut self, cpu: Cpu, ran: u32) -> Result<Posted, CallFault>
        ensures { AnsweredInMemory Answer.Posted (Call.Env (EnvCall.Die cpu ran)) result self.old self.new }
    {
        self.tables.leave(cpu, Kind::Dead { ran })
    }

    /// Changes the CPUs on which a thread may run; a running thread keeps the CPU that it runs on.
    pub fn set_affinity(&mut self, thread: Tid, mask: u64) -> Result<Posted, CallFault>
        ensures { AnsweredInMemory Answer.Posted (Call.Env (EnvCall.SetAffinity thread mask))
            result self.old self.new }
    {
        match self.tables.affinity(thread, mask) {
            Err(refusal) => Err(refusal.into()),
            Ok(kind) => in_memory(self.tables.tell(thread, kind)),
        }
    }

    /// Changes a thread's level.
    pub fn set_priority(&mut self, thread: Tid, level: u8) -> Result<Posted, CallFault>
        ensures { AnsweredInMemory Answer.Posted (Call.Env (EnvCall.SetPriority thread level))
            result self.old self.new }
    {
        match self.tables.priority(thread, level) {
            Err(refusal) => Err(refusal.into()),
            Ok(kind) => in_memory(self.tables.tell(thread, kind)),
        }
    }

    /// Posts a tick of the CPU to its own queue.
    pub fn tick(&mut self, cpu: Cpu) -> Result<Posted, CallFault>
        ensures { AnsweredInMemory Answer.Posted (Call.Env (EnvCall.Tick cpu)) result self.old self.new }
    {
        match self.tables.tick_fault(cpu) {
            Some(refusal) => Err(refusal.into()),
            None => in_memory(self.tables.post_tick(cpu)),
        }
    }
}

/// What a post answers that was not refused.
fn in_memory(outcome: Result<Posted, AllocError>) -> Result<Posted, CallFault>
    ensures { result ≡ result_map_both (λ posted. posted) (λ _. CallFault.OutOfMemory) outcome }
{
    match outcome {
        Ok(posted) => Ok(posted),
        Err(_) => Err(CallFault::OutOfMemory),
    }
}
