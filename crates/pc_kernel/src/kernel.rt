//! The kernel model.

ghost use Rattle.std.specs.Prelude.{◌≡◌, ◌<◌, ◌≤◌, ◌↔◌, ℕ, nat_lt, Some, None, ◌++◌, is_some, length, IfOk, IfSome};
ghost use Rattle.std.specs.Prelude.{IfErr, IsFalse, ◌⊎◌};
ghost use Rattle.std.specs.Option.{option_copied};
ghost use Rattle.pc_calls.specs.Limits.{bad_field};
ghost use Rattle.pc_calls.specs.declared.limits.TheConstants.{MOST_CPUS};
ghost use Rattle.pc_kernel.specs.PlainKernel.{start};

mod agents;
mod apply;
mod environment;

use crate::cpus::fresh;
use crate::tables::Tables;
use pc_calls::{CallFault, LimitField, Limits, LimitsFault, Profile, Refusal, Status};
use pc_messages::{Cpu, Item, Kind, Reported, Tid};
use std::alloc::Global;
use std::marker::Model;

/// The kernel of one enclave: its threads, and its CPUs with a queue each.
#[derive(Drop)]
pub struct Kernel {
    tables: Tables,
}

impl Model for Kernel {
    ghost use Rattle.pc_kernel.specs.Rows.{KernelRows};
    ghost use Rattle.pc_kernel.specs.Answers.{IsReached};

    ghost Value = { KernelRows };

    ghost view = { λ k. k.tables };

    ghost invariant = { λ k. IsReached k.tables };
}

impl Kernel {
    ghost use Rattle.pc_kernel.specs.Answers.{Shows, IsReached};
    ghost use Rattle.pc_kernel.specs.Sound.{IsSound};
    ghost use Rattle.pc_calls.specs.declared.limits.LimitField.{LimitField};
    ghost use Rattle.pc_kernel.specs.Queued.{AreQueued};
    ghost use Rattle.pc_kernel.specs.Reads.{seen, status_of, reported_of, history_of, queue_of, aseq_of, aseq_read};
    ghost use Rattle.pc_kernel.specs.Reads.{content_read, is_known, is_cpu, is_waiting, on, is_asleep};
    ghost use Rattle.pc_kernel.specs.Steps.{refused};
    ghost use Rattle.pc_calls.specs.AgentCalls.{commits};

    /// The kernel at the start, with limits of profile One.
    pub fn new(alloc: Global, limits: Limits) -> Result<Self, LimitsFault>
        ensures ok { IfOk result (λ kernel. Shows kernel (start limits)) }
        ensures within { IfOk result (λ _. bad_field Profile.One limits ≡ None) }
        ensures refused { (field : LimitField) →
            (result ≡ Err (LimitsFault.BadLimits field)) ↔ (bad_field Profile.One limits ≡ Some field) }
        ensures memory_last { result ≡ Err LimitsFault.OutOfMemory → bad_field Profile.One limits ≡ None }
    {
        Self::new_in(alloc, Profile::One, limits)
    }

    /// The kernel at the start, with limits of the profile.
    pub fn new_in(alloc: Global, profile: Profile, limits: Limits) -> Result<Self, LimitsFault>
        ensures ok { IfOk result (λ kernel. Shows kernel (start limits)) }
        ensures within { IfOk result (λ _. bad_field profile limits ≡ None) }
        ensures refused { (field : LimitField) →
            (result ≡ Err (LimitsFault.BadLimits field)) ↔ (bad_field profile limits ≡ Some field) }
        ensures memory_last { result ≡ Err LimitsFault.OutOfMemory → bad_field profile limits ≡ None }
    {
        match limits.bad_field(profile) {
            Some(field) => return Err(LimitsFault::BadLimits(field)),
            None => {}
        }
        match fresh(alloc, limits) {
            Ok(cpus) => Ok(Kernel {
                tables: Tables {
                    limits,
                    threads: Vec::new(alloc),
                    cpus,
                },
            }),
            Err(_) => Err(LimitsFault::OutOfMemory),
        }
    }

    /// What holds of every kernel, for its callers. It does nothing.
    pub fn is_sound(&self)
        ensures { IsSound self.now }
    {
        self.tables.is_sound();
    }

    /// A list of calls leads from the start to what the kernel shows. It does nothing.
    pub fn is_reached(&self)
        ensures { IsReached self.now }
    {
        let _ = &self.tables;
    }

    /// The limits.
    pub fn limits(&self) -> Limits
        ensures { result ≡ self.now.limits }
    {
        self.tables.limits()
    }

    /// How many CPUs there are.
    pub fn cpus(&self) -> u8
        ensures count { result ≡ self.now.limits.cpus }
        ensures some { 1 ≤ result }
        ensures few { result ≤ MOST_CPUS }
    {
        self.tables.cpus()
    }

    /// How many threads are known, which is the next name.
    pub fn threads(&self) -> u32
        ensures count { result ≡ length self.now.threads }
        ensures known { (t : ℕ) → is_known (seen self.now) t ≡ nat_lt t result }
    {
        self.tables.threads()
    }

    /// The thread's status word; none of a thread that is not known.
    pub fn status(&self, thread: Tid) -> Option<Status>
        ensures { result ≡ status_of (seen self.now) thread }
    {
        let entry = self.tables.thread(thread)?;
        Some(Status {
            number: entry.number(),
            running_on: entry.on(),
        })
    }

    /// The state that the thread's messages report; none of a thread that is not known.
    pub fn reported(&self, thread: Tid) -> Option<Reported>
        ensures { result ≡ reported_of (seen self.now) thread }
    {
        self.state(thread).copied()
    }

    /// The same, lent.
    pub fn state(&self, thread: Tid) -> Option<&Reported>
        ensures { option_copied result ≡ reported_of (seen self.now) thread }
    {
        let entry = self.tables.thread(thread)?;
        Some(entry.state())
    }

    /// Whether the thread is ready, and on no CPU; never one that is not known. It takes no memory.
    pub fn is_waiting(&self, thread: Tid) -> bool
        ensures { result ≡ is_waiting (seen self.now) thread }
    {
        let is_ready = match self.reported(thread) {
            Some(state) => state.phase.is_ready(),
            None => false,
        };
        let runs = match self.status(thread) {
            Some(status) => status.running_on.is_some(),
            None => false,
        };
        is_ready && !runs
    }

    /// The thread's home queue; none of a thread that is not known.
    pub fn queue_of(&self, thread: Tid) -> Option<Cpu>
        ensures { result ≡ queue_of (seen self.now) thread }
    {
        let entry = self.tables.thread(thread)?;
        Some(entry.home())
    }

    /// The kinds of the thread's messages, in order; none of a thread that is not known.
    pub fn history(&self, thread: Tid) -> Option<&[Kind]>
        ensures { option_copied result ≡ history_of (seen self.now) thread }
    {
        let entry = self.tables.thread(thread)?;
        Some(entry.kinds())
    }

    /// The count of posts to the CPU's queue, its agent's sequence number (the ghOSt paper's Aseq); none of a CPU
    /// that is not there.
    pub fn aseq(&self, cpu: Cpu) -> Option<u32>
        ensures { result ≡ aseq_of (seen self.now) cpu }
    {
        let entry = self.tables.cpu(cpu)?;
        Some(entry.queue.aseq())
    }

    /// The count of posts to the CPU's queue, and all that the queue holds, the oldest first. The items stay.
    pub fn peek(&self, cpu: Cpu) -> Result<(u32, Vec<Item>), CallFault>
        ensures posts { IfOk result (λ read. read.0 ≡ aseq_read (seen self.now) cpu) }
        ensures queued { IfOk result (λ read. AreQueued self.now cpu read.1.items) }
        ensures bad_cpu { (result ≡ Err (CallFault.Refused Refusal.BadCpu)) ↔ IsFalse (is_cpu (seen self.now) cpu) }
        ensures memory { IfErr result
            (λ fault. (fault ≡ CallFault.Refused Refusal.BadCpu) ⊎ (fault ≡ CallFault.OutOfMemory)) }
    {
        self.tables.is_sound();
        let entry = match self.tables.cpu(cpu) {
            Some(entry) => entry,
            None => return Err(CallFault::Refused(Refusal::BadCpu)),
        };
        match entry.queue.peek(entry.queue.len()) {
            Ok(items) => Ok((entry.queue.aseq(), items)),
            Err(_) => Err(CallFault::OutOfMemory),
        }
    }

    /// All that the CPU's queue holds, the oldest first, where it stands: the items of the first slice, then those of
    /// the second; none of a CPU that is not there. It takes no memory.
    pub fn queued(&self, cpu: Cpu) -> Option<(&[Item], &[Item])>
        ensures queued { IfSome result (λ held. AreQueued self.now cpu (held.0.now ++ held.1.now)) }
        ensures front { IfSome result
            (λ held. (0 < length held.0.now) ↔ (0 < length (content_read (seen self.now) cpu))) }
        ensures there { is_some result ≡ is_cpu (seen self.now) cpu }
    {
        self.tables.is_sound();
        let entry = self.tables.cpu(cpu)?;
        Some(entry.queue.as_slices())
    }

    /// Why a commit of the thread on the CPU would be refused now; none where it would be accepted. It takes no memory.
    pub fn commit_refusal(&self, cpu: Cpu, thread: Tid, aseq: u32) -> Option<Refusal>
        ensures { result ≡ refused (seen self.now) (commits cpu thread aseq) }
    {
        self.tables.commit_fault(cpu, thread, aseq)
    }

    /// The thread that runs on the CPU.
    pub fn running(&self, cpu: Cpu) -> Option<Tid>
        ensures { result ≡ on (seen self.now) cpu }
    {
        let entry = self.tables.cpu(cpu)?;
        entry.running
    }

    /// Whether the CPU's agent sleeps; never one of a CPU that is not there.
    pub fn is_asleep(&self, cpu: Cpu) -> bool
        ensures { result ≡ is_asleep (seen self.now) cpu }
    {
        match self.tables.cpu(cpu) {
            Some(entry) => entry.asleep,
            None => false,
        }
    }
}
