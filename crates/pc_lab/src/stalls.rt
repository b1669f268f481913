//! Whether a run has stalled.

ghost use Rattle.std.specs.Prelude.{◌≡◌, ℕ, ◌<◌, ◌⊎◌, true, IfSome};
ghost use Rattle.pc_kernel.specs.Reads.{is_asleep, is_waiting, seen};
ghost use Rattle.pc_lab.specs.Stalling.{HasDied, HasStalled, IsFirstWaiting};

use crate::account::is_dead;
use pc_kernel::Kernel;
use pc_load::Load;
use pc_messages::{Cpu, Tid};

/// Whether the thread is dead.
fn has_died(kernel: &Kernel, thread: Tid) -> bool
    ensures { result ≡ true → HasDied (seen kernel.now) thread }
{
    match kernel.reported(thread) {
        Some(state) => is_dead(state.phase),
        None => false,
    }
}

/// Whether each thread is dead, or waits.
fn each_is_dead_or_waits(kernel: &Kernel) -> bool
    ensures { result ≡ true → (t : ℕ) → t < (seen kernel.now).threads
        → HasDied (seen kernel.now) t ⊎ (is_waiting (seen kernel.now) t ≡ true) }
{
    for name in 0..kernel.threads() {
        let thread = Tid(name);
        if !has_died(kernel, thread) && !kernel.is_waiting(thread) {
            return false;
        }
    }
    true
}

/// Whether all agents sleep.
fn all_agents_sleep(kernel: &Kernel) -> bool
    ensures { result ≡ true → (c : ℕ) → c < (seen kernel.now).limits.cpus → is_asleep (seen kernel.now) c ≡ true }
{
    for cpu in 0..kernel.cpus() {
        if !kernel.is_asleep(Cpu(cpu)) {
            return false;
        }
    }
    true
}

/// The first thread that waits.
pub(crate) fn first_waiting(kernel: &Kernel) -> Option<Tid>
    ensures { IfSome result (IsFirstWaiting (seen kernel.now)) }
{
    for name in 0..kernel.threads() {
        let thread = Tid(name);
        if kernel.is_waiting(thread) {
            return Some(thread);
        }
    }
    None
}

/// Whether the thread is the first that waits.
fn is_first_waiting(kernel: &Kernel, thread: Tid) -> bool
    ensures { result ≡ true → IsFirstWaiting (seen kernel.now) thread }
{
    match first_waiting(kernel) {
        Some(first) => first == thread,
        None => false,
    }
}

/// Whether a run of the load has stalled at this thread.
pub(crate) fn has_stalled(kernel: &Kernel, load: &Load, thread: Tid) -> bool
    ensures { result ≡ true → HasStalled load.now (seen kernel.now) thread }
{
    kernel.threads() as usize == load.threads().len()
        && each_is_dead_or_waits(kernel)
        && all_agents_sleep(kernel)
        && is_first_waiting(kernel, thread)
}
