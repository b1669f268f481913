//! What a kernel keeps: its limits, and a row of each thread and CPU.

ghost use Rattle.std.specs.Prelude.{◌≡◌, ◌≤◌, ℕ, nat_lt, length, is_some, slice_get};
ghost use Rattle.std.specs.Option.{option_map, option_copied};
ghost use Rattle.pc_calls.specs.declared.limits.TheConstants.{MOST_CPUS};

mod marks;
mod posts;
mod refusals;

use crate::cpus::CpuEntry;
use crate::threads::ThreadEntry;
use pc_calls::Limits;
use pc_messages::{Cpu, Tid};
use std::marker::Model;

/// The threads, and the CPUs with a queue each.
#[derive(Drop)]
pub(crate) struct Tables {
    pub(crate) limits: Limits,
    pub(crate) threads: Vec<ThreadEntry>,
    pub(crate) cpus: Vec<CpuEntry>,
}

impl Model for Tables {
    ghost use Rattle.pc_kernel.specs.Rows.{KernelRows};
    ghost use Rattle.pc_kernel.specs.Inner.Entries.{rows};
    ghost use Rattle.pc_kernel.specs.Inner.LastPosts.{thread_rows, AreTables};

    ghost Value = { KernelRows };

    ghost view = { λ k. rows k.limits (thread_rows k.threads.items) k.cpus.items };

    ghost invariant = { λ k. AreTables k.limits k.threads.items k.cpus.items };
}

impl Tables {
    ghost use Rattle.pc_kernel.specs.Inner.Entries.{row_of};
    ghost use Rattle.pc_kernel.specs.Inner.LastPosts.{thread_row_of};
    ghost use Rattle.pc_kernel.specs.Sound.{IsSound};
    ghost use Rattle.pc_kernel.specs.Reads.{seen, is_known, is_cpu};

    /// What holds of every kernel, for its callers. It does nothing.
    pub(crate) fn is_sound(&self)
        ensures { IsSound self.now }
    {
        let _ = &self.limits;
    }

    /// The limits.
    pub(crate) fn limits(&self) -> Limits
        ensures { result ≡ self.now.limits }
    {
        self.limits
    }

    /// How many CPUs there are.
    pub(crate) fn cpus(&self) -> u8
        ensures count { result ≡ self.now.limits.cpus }
        ensures some { 1 ≤ result }
        ensures few { result ≤ MOST_CPUS }
    {
        let Limits { cpus, .. } = self.limits;
        cpus
    }

    /// How many threads are known, which is the next name.
    pub(crate) fn threads(&self) -> u32
        ensures count { result ≡ length self.now.threads }
        ensures known { (t : ℕ) → is_known (seen self.now) t ≡ nat_lt t result }
    {
        self.threads.len() as u32
    }

    /// The thread's row.
    pub(crate) fn thread(&self, thread: Tid) -> Option<&ThreadEntry>
        ensures { option_map thread_row_of (option_copied result) ≡ slice_get self.now.threads thread }
    {
        self.threads.get(thread.index() as usize)
    }

    /// The CPU's row.
    pub(crate) fn cpu(&self, cpu: Cpu) -> Option<&CpuEntry>
        ensures row { option_map row_of (option_copied result) ≡ slice_get self.now.cpus cpu }
        ensures there { is_some result ≡ is_cpu (seen self.now) cpu }
    {
        self.cpus.get(cpu.index() as usize)
    }
}
