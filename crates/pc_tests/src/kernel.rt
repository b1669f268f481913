//! What no script can say: calls by their own names, and what is read of a kernel, with ample memory.

mod caller;

use crate::rows::is_so;
use pc_kernel::{Call, CallFault, EnvCall, Kernel, Limits, Profile};
use pc_messages::{Cpu, Kind, Phase, Tid};
use std::alloc::Global;

/// Two CPUs, and room for all that the tests do.
const SMALL: Limits = Limits {
    cpus: 2,
    threads: 8,
    numbers: 100,
    room: 16,
    posts: 1_000,
};

/// How a call of the environment is made.
#[derive(Clone, Copy)]
enum Way {
    ByName,
    AsValue,
    AsCall,
}

// Without contracts, as the functions below, so that a test's proof does not carry those of the kernel.
fn posts_by_name(kernel: &mut Kernel, call: EnvCall) -> bool {
    let posted = match call {
        EnvCall::Create { queue, mask, ready } => kernel.create(queue, mask, ready),
        EnvCall::Wake { thread } => kernel.wake(thread),
        EnvCall::Block { cpu, ran } => kernel.block(cpu, ran),
        EnvCall::YieldNow { cpu, ran } => kernel.yield_now(cpu, ran),
        EnvCall::Preempt { cpu, ran } => kernel.preempt(cpu, ran),
        EnvCall::Die { cpu, ran } => kernel.die(cpu, ran),
        EnvCall::SetAffinity { thread, mask } => kernel.set_affinity(thread, mask),
        EnvCall::SetPriority { thread, level } => kernel.set_priority(thread, level),
        EnvCall::Tick { cpu } => kernel.tick(cpu),
    };
    posted.is_ok()
}

fn posts(kernel: &mut Kernel, way: Way, call: EnvCall) -> bool {
    match way {
        Way::ByName => posts_by_name(kernel, call),
        Way::AsValue => kernel.apply_env(call).is_ok(),
        Way::AsCall => kernel.apply(Call::Env(call)).is_ok(),
    }
}

/// t0 is put on the CPU after so many posts.
fn commits(kernel: &mut Kernel, aseq: u32) -> bool {
    kernel.commit(CPU, THREAD, aseq) == Ok(())
}

const CPU: Cpu = Cpu(0);

const THREAD: Tid = Tid(0);

const WAKE: EnvCall = EnvCall::Wake { thread: THREAD };

/// How many posts there were before t0 is put on its CPU, where it is, a post, and whether t0 waits behind it.
type Step = (Option<u32>, EnvCall, bool);

/// Each call of the environment.
const LIFE: [Step; 10] = [
    (
        None,
        EnvCall::Create {
            queue: CPU,
            mask: 3,
            ready: false,
        },
        false,
    ),
    (None, WAKE, true),
    (
        None,
        EnvCall::SetAffinity {
            thread: THREAD,
            mask: 1,
        },
        true,
    ),
    (
        None,
        EnvCall::SetPriority {
            thread: THREAD,
            level: 7,
        },
        true,
    ),
    (None, EnvCall::Tick { cpu: CPU }, true),
    (Some(5), EnvCall::YieldNow { cpu: CPU, ran: 2 }, true),
    (Some(6), EnvCall::Preempt { cpu: CPU, ran: 4 }, true),
    (Some(7), EnvCall::Block { cpu: CPU, ran: 8 }, false),
    (None, WAKE, true),
    (Some(9), EnvCall::Die { cpu: CPU, ran: 5 }, false),
];

fn does(kernel: &mut Kernel, way: Way, step: &Step) -> bool {
    let is_ready = match step.0 {
        Some(aseq) => commits(kernel, aseq) && !kernel.is_waiting(THREAD),
        None => true,
    };
    is_ready && posts(kernel, way, step.1) && kernel.is_waiting(THREAD) == step.2
}

fn lives(kernel: &mut Kernel, way: Way) -> bool {
    for step in &LIFE {
        if !does(kernel, way, step) {
            return false;
        }
    }
    true
}

/// Whether all that is reported of the thread is what it came to.
fn is_reported(kernel: &Kernel) -> bool {
    match (kernel.reported(THREAD), kernel.state(THREAD)) {
        (Some(told), Some(state)) => told == *state
            && told.phase == Phase::Dead
            && told.mask.bits() == 1
            && told.ran == 19
            && told.level.get() == 7,
        _ => false,
    }
}

/// Whether the thread's messages are nine, the second and the last of which are these.
fn has_history(kernel: &Kernel) -> bool {
    match kernel.history(THREAD) {
        Some([_, second, .., last]) => *second == Kind::Wakeup && *last == Kind::Dead { ran: 5 },
        _ => false,
    }
}

fn is_unknown(kernel: &Kernel) -> bool {
    kernel.reported(Tid(1)).is_none()
        && kernel.state(Tid(1)).is_none()
        && kernel.history(Tid(1)).is_none()
        && !kernel.is_waiting(Tid(1))
}

fn content(kernel: &Kernel) -> Result<(u32, usize), CallFault> {
    let (posts, items) = kernel.peek(CPU)?;
    Ok((posts, items.len()))
}

fn is_read(kernel: &Kernel) -> bool {
    is_reported(kernel)
        && has_history(kernel)
        && is_unknown(kernel)
        && content(kernel) == Ok((10, 10))
}

/// Whether each call is done in this way, and all is read that came of them.
fn is_lived(alloc: Global, way: Way) -> bool {
    match Kernel::new(alloc, SMALL) {
        Ok(mut kernel) => lives(&mut kernel, way) && is_read(&kernel),
        Err(_) => false,
    }
}

#[test]
fn each_call_of_the_environment_is_made(rt: HostRuntime) {
    is_so(&rt, is_lived(rt.alloc(), Way::ByName));
    is_so(&rt, is_lived(rt.alloc(), Way::AsValue));
    is_so(&rt, is_lived(rt.alloc(), Way::AsCall));
}

/// Whether there is a kernel with threads that only profile Two may have.
fn has_many(alloc: Global) -> bool {
    let limits = Limits {
        threads: 65_535,
        ..SMALL
    };
    Kernel::new_in(alloc, Profile::Two, limits).is_ok()
}

#[test]
fn a_kernel_of_profile_two_is_made(rt: HostRuntime) {
    is_so(&rt, has_many(rt.alloc()));
}
