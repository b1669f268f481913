//! What a script's reads of a world are answered.

ghost use Rattle.std.specs.Prelude.{◌≡◌, IfOk, OnErr};
ghost use Rattle.pc_kernel.specs.Reads.{seen};
ghost use Rattle.pc_world.specs.PlainWorld.{PlainWorld};
ghost use Rattle.pc_world.specs.Shows.{ShowsWorld};
ghost use Rattle.pc_session.specs.Reads.{IsAsleep, IsComparing, IsCompleting, IsRead, IsShowing, IsStatus};
ghost use Rattle.pc_session.specs.Session.{TakesMemoryToRead};

use crate::show::shown_threads;
use pc_calls::{Refusal, Status};
use pc_kernel::Kernel;
use pc_messages::{Cpu, Phase, Tid};
use pc_script::{Read, Response};
use pc_view::{
    complete, equality_is_exact, reads_are_those_of_the_run, views_of_the_same_messages_are_equal,
};
use pc_world::World;
use std::alloc::{AllocError, Global};

/// What the read is answered.
pub fn answer_of(alloc: Global, world: &World, read: Read) -> Result<Response, AllocError>
    ensures read { IfOk result (λ told. (w : PlainWorld) → ShowsWorld world.now w → IsRead w read told) }
    ensures no_memory { OnErr result ((w : PlainWorld) → ShowsWorld world.now w → TakesMemoryToRead w read) }
{
    match read {
        Read::Status { thread } => Ok(status(world.kernel(), thread)),
        Read::Asleep { cpu } => Ok(asleep(world, cpu)),
        Read::Show { cpu } => show(alloc, world, cpu),
        Read::Same { cpu, other } => Ok(same(world, cpu, other)),
        Read::Complete { cpu, thread } => Ok(is_complete(world, cpu, thread)),
    }
}

/// Puts why a question has no answer into a place.
#[inline(never)]
fn put_refusal(refusal: Refusal, response: &mut Response)
    ensures { response.new ≡ Response.Refused refusal }
{
    *response = Response::Refused(refusal);
}

/// Puts a status word into the place of a response of any kind.
#[inline(never)]
fn put_word_anew(phase: Phase, thread: Tid, status: Status, response: &mut Response)
    ensures { response.new ≡ Response.Status phase thread status }
{
    *response = Response::Status {
        phase,
        thread,
        status,
    };
}

/// Puts a status word into the place of a response. Most stand where another stood, and a whole response is longer.
#[inline(always)]
fn put_word(phase: Phase, thread: Tid, status: Status, response: &mut Response)
    ensures { response.new ≡ Response.Status phase thread status }
{
    match response {
        Response::Status {
            phase: old_phase,
            thread: old_thread,
            status: old_status,
        } => {
            *old_phase = phase;
            *old_thread = thread;
            *old_status = status;
        }
        _ => put_word_anew(phase, thread, status, response),
    }
}

/// Puts the thread's status word, with its phase, into the place of a response.
pub(crate) fn put_status(kernel: &Kernel, thread: Tid, response: &mut Response)
    ensures { IsStatus thread ((seen kernel.now).thread thread) response.new }
{
    kernel.is_sound();
    match (kernel.status(thread), kernel.state(thread)) {
        (Some(status), Some(state)) => put_word(state.phase, thread, status, response),
        _ => put_refusal(Refusal::UnknownThread, response),
    }
}

/// The thread's status word, with its phase.
fn status(kernel: &Kernel, thread: Tid) -> Response
    ensures { IsStatus thread ((seen kernel.now).thread thread) result }
{
    let mut told = Response::Opened;
    put_status(kernel, thread, &mut told);
    told
}

/// Puts whether something is so into the place of a response of any kind.
#[inline(never)]
fn put_truth_anew(truth: bool, response: &mut Response)
    ensures { response.new ≡ Response.Truth truth }
{
    *response = Response::Truth(truth);
}

/// Puts whether something is so into the place of a response. Most stand where another such stood.
#[inline(always)]
fn put_truth(truth: bool, response: &mut Response)
    ensures { response.new ≡ Response.Truth truth }
{
    match response {
        Response::Truth(place) => *place = truth,
        _ => put_truth_anew(truth, response),
    }
}

/// Puts whether the CPU's agent sleeps into the place of a response.
pub(crate) fn put_asleep(world: &World, cpu: Cpu, response: &mut Response)
    ensures { (w : PlainWorld) → ShowsWorld world.now w → IsAsleep w cpu response.new }
{
    let kernel = world.kernel();
    if cpu.index() < kernel.cpus() {
        put_truth(kernel.is_asleep(cpu), response);
    } else {
        put_refusal(Refusal::BadCpu, response);
    }
}

/// Whether the CPU's agent sleeps.
fn asleep(world: &World, cpu: Cpu) -> Response
    ensures { (w : PlainWorld) → ShowsWorld world.now w → IsAsleep w cpu result }
{
    let mut told = Response::Opened;
    put_asleep(world, cpu, &mut told);
    told
}

/// What the agent knows.
fn show(alloc: Global, world: &World, cpu: Cpu) -> Result<Response, AllocError>
    ensures shows { IfOk result (λ told. (w : PlainWorld) → ShowsWorld world.now w → IsShowing w cpu told) }
    ensures no_memory { OnErr result ((w : PlainWorld) → ShowsWorld world.now w → TakesMemoryToRead w (Read.Show cpu)) }
{
    reads_are_those_of_the_run();
    match world.view(cpu) {
        None => Ok(Response::Refused(Refusal::BadCpu)),
        Some(view) => Ok(Response::View(shown_threads(alloc, view)?)),
    }
}

/// Whether two agents have taken in the same messages.
fn same(world: &World, cpu: Cpu, other: Cpu) -> Response
    ensures { (w : PlainWorld) → ShowsWorld world.now w → IsComparing w cpu other result }
{
    views_of_the_same_messages_are_equal();
    equality_is_exact();
    match world.view(cpu) {
        None => Response::Refused(Refusal::BadCpu),
        Some(mine) => match world.view(other) {
            None => Response::Refused(Refusal::BadCpu),
            Some(theirs) => Response::Sameness(*mine == *theirs),
        },
    }
}

/// Whether the agent has taken in all messages of the thread.
fn is_complete(world: &World, cpu: Cpu, thread: Tid) -> Response
    ensures { (w : PlainWorld) → ShowsWorld world.now w → IsCompleting w cpu thread result }
{
    reads_are_those_of_the_run();
    match world.view(cpu) {
        Some(view) => Response::Truth(complete(view, world.kernel(), thread)),
        None => Response::Refused(Refusal::BadCpu),
    }
}
