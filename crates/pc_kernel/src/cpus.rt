//! What the kernel keeps of each CPU, and a post to its queue.

ghost use Rattle.std.specs.Prelude.{◌≡◌, ◌<◌, ◌≤◌, ℕ, Some, length, slice_get, IfOk, OnErr};
ghost use Rattle.std.specs.Option.{option_map, ForSome};
ghost use Rattle.pc_kernel.specs.Inner.Entries.{fresh_cpu, AreTargets, roused_entry, sleeps_in, IsPosted};
ghost use Rattle.pc_kernel.specs.Steps.{woken_of};

use pc_calls::Limits;
use pc_messages::{Cpu, Item, Tid};
use pc_queue::ItemQueue;
use std::alloc::{AllocError, Global};

/// A CPU: its queue, the agent that the queue wakes, the thread that runs here, and whether the CPU's own agent
/// sleeps.
#[derive(Drop)]
pub(crate) struct CpuEntry {
    pub(crate) queue: ItemQueue,
    pub(crate) target: Option<Cpu>,
    pub(crate) running: Option<Tid>,
    pub(crate) asleep: bool,
}

/// Where a post came to stand: the queue's count of posts after it, and the agent that it woke.
#[derive(Clone, Copy)]
pub(crate) struct Landing {
    pub(crate) aseq: u32,
    pub(crate) woken: Option<Cpu>,
}

/// The CPUs at the start.
pub(crate) fn fresh(alloc: Global, limits: Limits) -> Result<Vec<CpuEntry>, AllocError>
    requires some_room { 1 ≤ limits.room }
    requires some_posts { 1 ≤ limits.posts }
    ensures count { IfOk result (λ cpus. length cpus.items ≡ limits.cpus) }
    ensures each { IfOk result
        (λ cpus. (c : ℕ) → c < limits.cpus → slice_get cpus.items c ≡ Some (fresh_cpu limits c)) }
{
    let mut cpus = Vec::with_capacity(alloc, limits.cpus as usize)?;
    for cpu in 0..limits.cpus {
        cpus.push(CpuEntry {
            queue: ItemQueue::new(alloc, limits.room, limits.posts),
            target: Some(Cpu(cpu)),
            running: None,
            asleep: false,
        })?;
    }
    Ok(cpus)
}

/// Wakes an agent. Answers it where it slept.
#[inline(always)]
pub(crate) fn rouse(cpus: &mut Vec<CpuEntry>, agent: Option<Cpu>) -> Option<Cpu>
    requires { ForSome agent (λ c. c < length cpus.old.items) }
    ensures each { (c : ℕ)
        → slice_get cpus.new.items c ≡ option_map (roused_entry agent c) (slice_get cpus.old.items c) }
    ensures count { length cpus.new.items ≡ length cpus.old.items }
    ensures woken { result ≡ woken_of (sleeps_in cpus.old.items) agent }
{
    match agent {
        Some(cpu) => {
            let entry = &mut cpus[cpu.index() as usize];
            if entry.asleep {
                entry.asleep = false;
                Some(cpu)
            } else {
                None
            }
        }
        None => None,
    }
}

/// Puts an item at the end of a queue, and wakes the agent that the queue wakes. Its one growth comes first.
#[inline(always)]
pub(crate) fn post(cpus: &mut Vec<CpuEntry>, queue: Cpu, item: Item) -> Result<Landing, AllocError>
    requires there { queue < length cpus.old.items }
    requires targets { AreTargets cpus.old.items }
    ensures ok { IfOk result (λ landing. IsPosted cpus.old.items cpus.new.items queue item landing) }
    ensures err { OnErr result (cpus.new.items ≡ cpus.old.items) }
{
    let entry = &mut cpus[queue.index() as usize];
    match entry.queue.post(item) {
        Ok(()) => {}
        Err(_) => return Err(AllocError),
    }
    let aseq = entry.queue.aseq();
    let target = entry.target;
    let woken = rouse(cpus, target);
    Ok(Landing { aseq, woken })
}
