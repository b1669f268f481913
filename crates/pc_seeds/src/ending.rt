//! What a run by a seed comes to.

ghost use Rattle.std.specs.Prelude.{◌↔◌, IsTrue, MatchOption};
ghost use Rattle.pc_seeds.specs.Ending.{IsFirstToWait, IsHeldUp, IsLeastIdle, NoneIdlesFor, NoneWaits};

use pc_kernel::Kernel;
use pc_messages::{Cpu, Tid};
use pc_threads::{Book, Config, LoadReport};

/// What agents do while a thread waits that none of them takes (own).
#[derive(Clone, Copy, Debug, PartialEq, Eq)]
pub enum Manner {
    /// None has a step left.
    AtRest,
    /// They ask each other again and again, and nobody knows more.
    Asking,
}

/// A thread for which a CPU idles, and that no agent takes (own). It comes of agents that restarted, or of exact steals
/// where a policy gives a thread no rank.
#[derive(Clone, Copy, Debug, PartialEq, Eq)]
pub struct Stall {
    /// The least thread that waits so.
    pub thread: Tid,
    /// The least CPU that idles, and that it may run on.
    pub cpu: Cpu,
    pub manner: Manner,
}

/// How a run by a seed ended (own).
#[derive(Drop)]
pub enum Ended {
    /// Every thread is dead.
    Reported(LoadReport),
    /// A thread is stalled, behind these calls.
    Stalled(Stall, Book),
}

/// A thread that waits, and a CPU that idles.
#[derive(Clone, Copy)]
pub(crate) struct HeldUp {
    pub(crate) thread: Tid,
    pub(crate) cpu: Cpu,
}

/// Whether the thread waits, and the CPU, on which it may run, idles.
pub(crate) fn is_held_up(kernel: &Kernel, thread: Tid, cpu: Cpu) -> bool
    ensures { IsTrue result ↔ IsHeldUp kernel.now thread cpu }
{
    let Some(state) = kernel.state(thread) else {
        return false;
    };
    let Some(status) = kernel.status(thread) else {
        return false;
    };
    state.may_run_on(cpu) && status.running_on.is_none() && kernel.running(cpu).is_none()
}

/// The least CPU that idles while the thread waits, and that it may run on.
fn idle_for(kernel: &Kernel, thread: Tid, cpus: u8) -> Option<Cpu>
    ensures { MatchOption result (NoneIdlesFor kernel.now thread cpus) (IsLeastIdle kernel.now thread cpus) }
{
    for cpu in 0..cpus {
        let cpu = Cpu(cpu);
        if is_held_up(kernel, thread, cpu) {
            return Some(cpu);
        }
    }
    None
}

/// The least of the settings' threads that waits for a CPU that idles, and the least such CPU.
pub(crate) fn held_up(kernel: &Kernel, config: &Config) -> Option<HeldUp>
    ensures { MatchOption result (NoneWaits config.now kernel.now)
        (λ held. IsFirstToWait config.now kernel.now held.thread held.cpu) }
{
    config.is_sound();
    let cpus = config.cpus();
    for name in 0..config.threads().len() as u32 {
        let thread = Tid(name);
        if let Some(cpu) = idle_for(kernel, thread, cpus) {
            return Some(HeldUp { thread, cpu });
        }
    }
    None
}
