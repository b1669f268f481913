//! The agents' calls. None takes memory, and each costs a few look-ups, however many threads, CPUs, items and messages
//! there are; only `consume` costs more, by the items that it removes.

use crate::kernel::Kernel;
use pc_calls::{Answer, Call, Refusal};
use pc_messages::{Cpu, Tid};

impl Kernel {
    ghost use Rattle.pc_calls.specs.AgentCalls.{associates, commits, sleeps, rouses, configures};
    ghost use Rattle.pc_kernel.specs.Answers.{Answered, done};

    /// Removes the first items of the CPU's queue.
    pub fn consume(&mut self, cpu: Cpu, count: u32) -> Result<(), Refusal>
        ensures { Answered done (Call.Consume cpu count) result self.old self.new }
    {
        match self.tables.consume_fault(cpu, count) {
            Some(refusal) => Err(refusal),
            None => {
                self.tables.cut(cpu, count);
                Ok(())
            }
        }
    }

    /// Gives a thread another home queue (the ghOSt paper's ASSOCIATE_QUEUE). The caller names the thread's last number
    /// as it knows it.
    pub fn associate(&mut self, thread: Tid, queue: Cpu, number: u32) -> Result<(), Refusal>
        ensures { Answered done (associates thread queue number) result self.old self.new }
    {
        match self.tables.associate_fault(thread, queue, number) {
            Some(refusal) => Err(refusal),
            None => {
                self.tables.move_home(thread, queue);
                Ok(())
            }
        }
    }

    /// Puts a thread on the CPU, where the CPU's agent has read all posts to its queue (the ghOSt paper's transaction
    /// under an Aseq).
    pub fn commit(&mut self, cpu: Cpu, thread: Tid, aseq: u32) -> Result<(), Refusal>
        ensures { Answered done (commits cpu thread aseq) result self.old self.new }
    {
        match self.tables.commit_fault(cpu, thread, aseq) {
            Some(refusal) => Err(refusal),
            None => {
                self.tables.put_on(cpu, thread);
                Ok(())
            }
        }
    }

    /// Puts the CPU's agent to sleep, where it has read all posts to its queue.
    pub fn sleep(&mut self, cpu: Cpu, aseq: u32) -> Result<(), Refusal>
        ensures { Answered done (sleeps cpu aseq) result self.old self.new }
    {
        match self.tables.sleep_fault(cpu, aseq) {
            Some(refusal) => Err(refusal),
            None => {
                self.tables.doze(cpu);
                Ok(())
            }
        }
    }

    /// Wakes the CPU's agent.
    pub fn rouse(&mut self, cpu: Cpu) -> Result<(), Refusal>
        ensures { Answered done (rouses cpu) result self.old self.new }
    {
        match self.tables.rouse_fault(cpu) {
            Some(refusal) => Err(refusal),
            None => {
                self.tables.awaken(cpu);
                Ok(())
            }
        }
    }

    /// Sets which agent the queue wakes, if any (the ghOSt paper's CONFIG_QUEUE_WAKEUP). That agent is awake at once.
    pub fn config_wakeup(&mut self, queue: Cpu, target: Option<Cpu>) -> Result<(), Refusal>
        ensures { Answered done (configures queue target) result self.old self.new }
    {
        match self.tables.config_fault(queue, &target) {
            Some(refusal) => Err(refusal),
            None => match target {
                Some(cpu) => {
                    self.tables.aim(queue, Some(cpu));
                    self.tables.awaken(cpu);
                    Ok(())
                }
                None => {
                    self.tables.aim(queue, None);
                    Ok(())
                }
            },
        }
    }
}
