//! Threads of a load.

ghost use Rattle.std.specs.Prelude.{ℕ, ℤ, pos, nat_abs, ◌≡◌, ◌⊎◌, ◌≤◌, ◌^◌, ◌-◌, Some, None, IfOk, IfErr, map, true};
ghost use Rattle.std.specs.Prelude.{false};
ghost use Rattle.std.specs.List.{list_all};
ghost use Rattle.pc_messages.specs.Mask.{allows};
ghost use Rattle.pc_calls.specs.Conditions.{first_of};
ghost use Rattle.pc_calls.specs.declared.limits.TheConstants.{MOST_CPUS};
ghost use Rattle.pc_load.specs.Loads.{drafted, is_load, is_thread, is_u32, need_of, thread_faults};
ghost use Rattle.pc_load.specs.declared.load.LoadFault.TheVariants.{BadThread, BadLoad, OutOfMemory};

use crate::load::lives::{are_sleeps, is_life};
use crate::load::numbers::{
    bits_of, cpu_of, is_between, is_cpu, is_mask, is_u32, level_of, u32_of,
};
use crate::load::{LoadFault, MOST_LEVEL, ThreadDraft, ThreadLoad};
use std::alloc::{AllocError, Global};

/// Whether a thread can be created so on so many CPUs, and lives.
fn is_thread(cpus: u8, draft: &ThreadDraft) -> bool
    requires some { 1 ≤ cpus }
    requires few { cpus ≤ MOST_CPUS }
    ensures { result ≡ is_thread cpus (drafted draft.now) }
{
    is_cpu(cpus, draft.queue) && is_mask(cpus, draft.mask) && is_life(draft.steps.as_slice())
}

/// Whether the mask has the bit of the queue.
fn is_at_home(cpus: u8, draft: &ThreadDraft) -> bool
    requires few { cpus ≤ MOST_CPUS }
    requires there { is_thread cpus (drafted draft.now) ≡ true }
    ensures { result ≡ allows (nat_abs draft.now.mask) (nat_abs draft.now.queue) }
{
    (draft.mask as u64 >> draft.queue) % 2 == 1
}

/// Whether a thread of so many CPUs may run at home, does not come before the one in front of it, and has a level and
/// sleeps.
fn is_load(cpus: u8, before: u32, draft: &ThreadDraft) -> bool
    requires few { cpus ≤ MOST_CPUS }
    requires there { is_thread cpus (drafted draft.now) ≡ true }
    ensures { result ≡ is_load (pos before) (drafted draft.now) }
{
    is_at_home(cpus, draft)
        && (before as i64 <= draft.start && is_u32(draft.start))
        && is_between(0, MOST_LEVEL as u32, draft.level)
        && are_sleeps(draft.steps.as_slice(), draft.sleeps.as_slice())
}

/// The sleeps as u32s.
fn sleeps_of(alloc: Global, sleeps: &[i64]) -> Result<Vec<u32>, AllocError>
    requires { list_all is_u32 sleeps.now ≡ true }
    ensures { IfOk result (λ ticks. map pos ticks.items ≡ sleeps.now) }
{
    let mut ticks = Vec::new(alloc);
    for sleep in sleeps {
        ticks.push(u32_of(*sleep))?;
    }
    Ok(ticks)
}

/// The thread with this place on so many CPUs, behind one that comes at this tick.
fn thread_of(
    alloc: Global,
    cpus: u8,
    before: u32,
    place: usize,
    draft: ThreadDraft,
) -> Result<ThreadLoad, LoadFault>
    requires some { 1 ≤ cpus }
    requires few { cpus ≤ MOST_CPUS }
    ensures there { IfOk result (λ _. is_thread cpus (drafted draft) ≡ true) }
    ensures loaded { IfOk result (λ _. is_load (pos before) (drafted draft) ≡ true) }
    ensures keeps { IfOk result (λ load. need_of load ≡ drafted draft) }
    ensures answers { IfErr result (λ fault.
        ((is_thread cpus (drafted draft) ≡ false) × (fault ≡ BadThread place))
        ⊎ ((is_thread cpus (drafted draft) ≡ true) × (is_load (pos before) (drafted draft) ≡ false)
        × (fault ≡ BadLoad place))
        ⊎ (fault ≡ OutOfMemory)) }
{
    if !is_thread(cpus, &draft) {
        return Err(LoadFault::BadThread(place));
    }
    if !is_load(cpus, before, &draft) {
        return Err(LoadFault::BadLoad(place));
    }
    let sleeps = sleeps_of(alloc, draft.sleeps.as_slice())?;
    Ok(ThreadLoad {
        queue: cpu_of(cpus, draft.queue),
        mask: bits_of(cpus, draft.mask),
        steps: draft.steps,
        start: u32_of(draft.start),
        level: level_of(draft.level),
        sleeps,
    })
}

/// The threads of a load on so many CPUs.
pub(crate) fn threads_of(
    alloc: Global,
    cpus: u8,
    drafts: Vec<ThreadDraft>,
) -> Result<Vec<ThreadLoad>, LoadFault>
    requires some { 1 ≤ cpus }
    requires few { cpus ≤ MOST_CPUS }
    ensures ok { IfOk result (λ _. first_of (thread_faults cpus (pos 0) 0 (map drafted drafts.items)) ≡ None) }
    ensures keeps { IfOk result (λ threads. map need_of threads.items ≡ map drafted drafts.items) }
    ensures answers { IfErr result (λ fault.
        (first_of (thread_faults cpus (pos 0) 0 (map drafted drafts.items)) ≡ Some fault) ⊎ (fault ≡ OutOfMemory)) }
{
    let mut threads = Vec::new(alloc);
    let mut before = 0;
    for draft in drafts {
        let thread = thread_of(alloc, cpus, before, threads.len(), draft)?;
        before = thread.start;
        threads.push(thread)?;
    }
    Ok(threads)
}
