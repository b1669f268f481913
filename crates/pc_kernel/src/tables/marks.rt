//! Changes of single rows, which take no memory.

ghost use Rattle.std.specs.Prelude.{◌≡◌, ◌≤◌, ◌<◌, ◌+◌, ℕ, Some, None, length, slice_get, IsFalse};
ghost use Rattle.std.specs.Option.{ForSome};

use crate::tables::Tables;
use pc_messages::{Cpu, Tid};

impl Tables {
    ghost use Rattle.pc_kernel.specs.Reads.{seen, kinds_read, on, place, content_read, is_pending};
    ghost use Rattle.pc_kernel.specs.Inner.Sends.{Becomes};
    ghost use Rattle.pc_kernel.specs.Steps.{at};

    /// Takes the thread off the CPU that it runs on.
    pub(super) fn take_off(&mut self, cpu: Cpu, thread: Tid)
        requires runs { on (seen self.old) cpu ≡ Some thread }
        requires there { cpu < self.old.limits.cpus }
        requires known { thread < length self.old.threads }
        ensures shown { Becomes (λ P. record P { on = at P.on cpu None }) self.old self.new }
        ensures kinds { (t : ℕ) → kinds_read (seen self.new) t ≡ kinds_read (seen self.old) t }
        ensures limits { self.new.limits ≡ self.old.limits }
    {
        self.cpus[cpu.index() as usize].running = None;
        self.threads[thread.index() as usize].set_on(None);
    }

    /// Puts a thread that runs nowhere on a CPU that is free.
    pub(crate) fn put_on(&mut self, cpu: Cpu, thread: Tid)
        requires there { cpu < self.old.limits.cpus }
        requires known { thread < length self.old.threads }
        requires nowhere { place (seen self.old) thread ≡ None }
        requires idle { on (seen self.old) cpu ≡ None }
        ensures shown { Becomes (λ P. record P { on = at P.on cpu (Some thread) }) self.old self.new }
        ensures kinds { (t : ℕ) → kinds_read (seen self.new) t ≡ kinds_read (seen self.old) t }
        ensures limits { self.new.limits ≡ self.old.limits }
    {
        self.threads[thread.index() as usize].set_on(Some(cpu));
        self.cpus[cpu.index() as usize].running = Some(thread);
    }

    /// Gives a thread another home queue, where the one that it has holds no message of it.
    pub(crate) fn move_home(&mut self, thread: Tid, queue: Cpu)
        requires known { thread < length self.old.threads }
        requires there { queue < self.old.limits.cpus }
        requires nothing_waits { IsFalse (is_pending (seen self.old) thread) }
        ensures shown { Becomes (λ P. record P { home = at P.home thread queue }) self.old self.new }
        ensures kinds { (t : ℕ) → kinds_read (seen self.new) t ≡ kinds_read (seen self.old) t }
        ensures limits { self.new.limits ≡ self.old.limits }
    {
        self.threads[thread.index() as usize].set_home(queue);
    }

    /// Removes the first items of the CPU's queue.
    pub(crate) fn cut(&mut self, cpu: Cpu, count: u32)
        requires there { cpu < self.old.limits.cpus }
        requires few { count ≤ length (content_read (seen self.old) cpu) }
        ensures shown { Becomes (λ P. record P { eaten = at P.eaten cpu (P.eaten cpu + count) }) self.old self.new }
        ensures threads { self.new.threads ≡ self.old.threads }
        ensures limits { self.new.limits ≡ self.old.limits }
    {
        let entry = &mut self.cpus[cpu.index() as usize];
        let _ = entry.queue.consume(count);
    }

    /// Puts the CPU's agent to sleep, under a count of posts to its queue.
    pub(crate) fn doze(&mut self, cpu: Cpu)
        requires there { cpu < self.old.limits.cpus }
        ensures shown { (n : ℕ) → Becomes (λ P. record P { slept = at P.slept cpu (Some n) }) self.old self.new }
        ensures threads { self.new.threads ≡ self.old.threads }
        ensures limits { self.new.limits ≡ self.old.limits }
    {
        self.cpus[cpu.index() as usize].asleep = true;
    }

    /// Wakes the CPU's agent.
    pub(crate) fn awaken(&mut self, cpu: Cpu)
        requires there { cpu < self.old.limits.cpus }
        ensures shown { Becomes (λ P. record P { slept = at P.slept cpu None }) self.old self.new }
        ensures threads { self.new.threads ≡ self.old.threads }
        ensures limits { self.new.limits ≡ self.old.limits }
    {
        self.cpus[cpu.index() as usize].asleep = false;
    }

    /// Sets which agent the queue wakes.
    pub(crate) fn aim(&mut self, queue: Cpu, target: Option<Cpu>)
        requires there { queue < self.old.limits.cpus }
        requires target_there { ForSome target (λ cpu. cpu < self.old.limits.cpus) }
        ensures shown { Becomes (λ P. record P { target = at P.target queue target }) self.old self.new }
        ensures threads { self.new.threads ≡ self.old.threads }
        ensures limits { self.new.limits ≡ self.old.limits }
    {
        self.cpus[queue.index() as usize].target = target;
    }
}
