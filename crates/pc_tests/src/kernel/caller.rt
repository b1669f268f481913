//! Callers of the kernel, by the public words alone.

ghost use Rattle.std.specs.Prelude.{[], ◌∷◌, IfOk, true};
ghost use Rattle.pc_calls.specs.AgentCalls.{associates, commits};
ghost use Rattle.pc_kernel.specs.Answers.{Replays};

use super::SMALL;
use crate::rows::is_found_so;
use pc_kernel::{AgentCall, Answer, Call, CallFault, EnvCall, Kernel, LimitsFault};
use pc_messages::{Cpu, Tid};
use std::alloc::Global;

/// Makes three calls, each where the one before was accepted. Answers what the last one answers.
fn three(kernel: &mut Kernel, first: Call, second: Call, third: Call) -> Result<Answer, CallFault>
    ensures { IfOk result (λ _. Replays (first ∷ second ∷ third ∷ []) kernel.old kernel.new) }
{
    match kernel.apply(first) {
        Err(fault) => Err(fault),
        Ok(_) => match kernel.apply(second) {
            Err(fault) => Err(fault),
            Ok(_) => kernel.apply(third),
        },
    }
}

/// Creates a ready thread for the queue, puts a thread on the queue's CPU, and asks for another home for a thread.
/// Answers whether that one has moved: the last call may be refused.
fn run_and_move(
    kernel: &mut Kernel,
    queue: Cpu,
    runs: Tid,
    aseq: u32,
    moves: Tid,
    home: Cpu,
    number: u32,
) -> Result<bool, CallFault>
    ensures { let calls = Call.Env (EnvCall.Create queue true 3) ∷ commits queue runs aseq
        ∷ associates moves home number ∷ [] in
        IfOk result (λ _. Replays calls kernel.old kernel.new) }
{
    match kernel.create(queue, 3, true) {
        Err(fault) => Err(fault),
        Ok(_) => match kernel.commit(queue, runs, aseq) {
            Err(refusal) => Err(refusal.into()),
            Ok(()) => match kernel.associate(moves, home, number) {
                Ok(()) => Ok(true),
                Err(_) => Ok(false),
            },
        },
    }
}

// Without contracts, as the functions below, so that a test's proof does not carry those of the kernel.
fn moves(kernel: &mut Kernel, runs: u32, aseq: u32) -> Result<bool, CallFault> {
    run_and_move(kernel, Cpu(0), Tid(runs), aseq, Tid(0), Cpu(1), 1)
}

/// Whether t0, which runs, is not moved.
fn runs_and_stays(alloc: Global) -> Result<bool, LimitsFault> {
    let mut kernel = Kernel::new(alloc, SMALL)?;
    Ok(moves(&mut kernel, 0, 1) == Ok(false) && kernel.running(Cpu(0)) == Some(Tid(0)))
}

/// A thread is created, and its first message removed.
fn creates(kernel: &mut Kernel) -> bool {
    kernel.create(Cpu(0), 3, true).is_ok() && kernel.consume(Cpu(0), 1) == Ok(())
}

/// Whether t0 is moved beside t1, which runs.
fn is_moved(alloc: Global) -> Result<bool, LimitsFault> {
    let mut kernel = Kernel::new(alloc, SMALL)?;
    Ok(
        creates(&mut kernel)
            && moves(&mut kernel, 1, 2) == Ok(true)
            && kernel.running(Cpu(0)) == Some(Tid(1))
            && kernel.queue_of(Tid(0)) == Some(Cpu(1)),
    )
}

#[test]
fn a_thread_moves_beside_one_that_runs(rt: HostRuntime) {
    is_found_so(&rt, runs_and_stays(rt.alloc()));
    is_found_so(&rt, is_moved(rt.alloc()));
}

const CREATE: Call = Call::Env(EnvCall::Create {
    queue: Cpu(0),
    mask: 3,
    ready: true,
});

const TICK: Call = Call::Env(EnvCall::Tick { cpu: Cpu(0) });

const COMMIT: Call = Call::Agent(AgentCall::Commit {
    cpu: Cpu(0),
    thread: Tid(0),
    aseq: 2,
});

/// Whether the last of three calls is done.
fn third_is_done(alloc: Global) -> Result<bool, LimitsFault> {
    let mut kernel = Kernel::new(alloc, SMALL)?;
    Ok(three(&mut kernel, CREATE, TICK, COMMIT) == Ok(Answer::Done))
}

#[test]
fn three_calls_in_a_row(rt: HostRuntime) {
    is_found_so(&rt, third_is_done(rt.alloc()));
}
