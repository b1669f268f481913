//! A kernel that is called by many, and the list of what it was called.

ghost use Rattle.std.specs.Prelude.{ℕ, ◌≡◌, ◌+◌, ◌<◌, ◌↔◌, ◌⊎◌, ◌∷◌, ◌++◌, [], Some, None, Err, IfOk, IfErr, IfSome};
ghost use Rattle.std.specs.Prelude.{OnErr, OnOk, IsFalse, vec_len, vec_capacity};
ghost use Rattle.pc_calls.specs.AgentCalls.{rouses, sleeps};
ghost use Rattle.pc_calls.specs.Conditions.{refusal_in};
ghost use Rattle.pc_calls.specs.Limits.{bad_field};
ghost use Rattle.pc_calls.specs.declared.limits.Profile.TheVariants as profile;
ghost use Rattle.pc_messages.specs.Run.{Extends};

mod agents;
mod opened;
mod settling;

pub(crate) use opened::limits_of;
use pc_calls::{
    AgentCall, Answer, Call, CallFault, EnvCall, LimitField, Limits, LimitsFault, Posted, Refusal,
};
use pc_kernel::Kernel;
use pc_kernel::laws::{messages_stay_home, sleepers_had_no_post, threads_are_placed};
use pc_messages::{Cpu, Item};
pub use settling::{RunFault, settle};
use std::alloc::{AllocError, Global};
use std::marker::Model;

/// A full list gets room for so many calls more at least.
const ROOM: usize = 64;

/// A kernel, with every call that it accepted and what it answered, in their order (own). So whoever holds a book knows
/// how its kernel came about.
///
/// A refused call is not listed. Each call takes memory for the list before all else; where there is none, nothing
/// changes.
#[derive(Drop)]
pub struct Book {
    kernel: Kernel,
    calls: Vec<(Call, Answer)>,
}

impl Model for Book {
    ghost use Rattle.pc_threads.specs.Pages.{Pages, IsReplay};

    ghost Value = { Pages };

    ghost view = { λ b. record { kernel = b.kernel; calls = b.calls.items } };

    ghost invariant = { λ b. IsReplay record { kernel = b.kernel; calls = b.calls.items } };
}

impl Book {
    ghost use Rattle.pc_kernel.specs.Answers.{Shows};
    ghost use Rattle.pc_kernel.specs.Facts.{HadNoPost, IsAtHome, IsPlaced};
    ghost use Rattle.pc_kernel.specs.PlainKernel.{start};
    ghost use Rattle.pc_kernel.specs.Queued.{AreQueued};
    ghost use Rattle.pc_kernel.specs.Reads.{seen, aseq_read, is_cpu};
    ghost use Rattle.pc_kernel.specs.Steps.{refused};
    ghost use Rattle.pc_threads.specs.Pages.{IsReplay, Lists, answered, replayed, run_of};
    ghost use Rattle.pc_threads.specs.Totals.{committed_by, in_all, left_by, running_on};

    /// The book of a kernel at the start, with limits of profile One.
    pub fn new(alloc: Global, limits: Limits) -> Result<Book, LimitsFault>
        ensures ok { IfOk result (λ book. Shows book.kernel (start limits)) }
        ensures nothing { IfOk result (λ book. book.calls ≡ []) }
        ensures within { IfOk result (λ _. bad_field profile.One limits ≡ None) }
        ensures refused { (field : LimitField) →
            (result ≡ Err (LimitsFault.BadLimits field)) ↔ (bad_field profile.One limits ≡ Some field) }
        ensures memory_last { result ≡ Err LimitsFault.OutOfMemory → bad_field profile.One limits ≡ None }
    {
        match Kernel::new(alloc, limits) {
            Ok(kernel) => Ok(Book {
                kernel,
                calls: Vec::new(alloc),
            }),
            Err(fault) => Err(fault),
        }
    }

    /// The kernel is where the listed calls lead from the start of its limits, each accepted as listed. It does
    /// nothing.
    pub fn is_replay(&self)
        ensures { IsReplay self.now }
    {
        let _ = &self.kernel;
    }

    /// What holds after every list of calls holds of the replay of the listed ones, which the kernel shows: messages
    /// that were not consumed stay home, threads are placed, and sleepers that their own queue wakes had no post since
    /// they slept. As often as a thread was committed, one left its CPU or runs there still. It does nothing.
    pub fn facts_hold(&self)
        ensures shown { Shows self.now.kernel (replayed self.now) }
        ensures home { (t : ℕ) → IsAtHome (replayed self.now) t }
        ensures placed { (c t : ℕ) → IsPlaced (replayed self.now) c t }
        ensures rested { (c : ℕ) → HadNoPost (replayed self.now) c }
        ensures balanced { in_all committed_by self.now.calls
            ≡ in_all left_by self.now.calls + running_on (replayed self.now) }
    {
        messages_stay_home();
        threads_are_placed();
        sleepers_had_no_post();
        self.is_replay();
    }

    /// The kernel.
    pub fn kernel(&self) -> &Kernel
        ensures { result.now ≡ self.now.kernel }
    {
        &self.kernel
    }

    /// The calls that were accepted, each with its answer, the first one first.
    pub fn calls(&self) -> &[(Call, Answer)]
        ensures { result.now ≡ self.now.calls }
    {
        self.calls.as_slice()
    }

    /// The count of posts to the CPU's queue, and all that the queue holds, the oldest first. The items stay, and
    /// nothing is listed.
    pub fn peek(&self, cpu: Cpu) -> Result<(u32, Vec<Item>), CallFault>
        ensures posts { IfOk result (λ read. read.0 ≡ aseq_read (seen self.now.kernel) cpu) }
        ensures queued { IfOk result (λ read. AreQueued self.now.kernel cpu read.1.items) }
        ensures bad_cpu { (result ≡ Err (CallFault.Refused Refusal.BadCpu))
            ↔ IsFalse (is_cpu (seen self.now.kernel) cpu) }
        ensures memory { IfErr result
            (λ fault. (fault ≡ CallFault.Refused Refusal.BadCpu) ⊎ (fault ≡ CallFault.OutOfMemory)) }
    {
        self.kernel.peek(cpu)
    }

    /// Makes the call, whoever's it is, and lists it with its answer.
    ///
    /// What the kernel refuses is told as `Refused`, want of memory as `OutOfMemory`; either leaves the book as it was.
    pub fn apply(&mut self, call: Call) -> Result<Answer, CallFault>
        ensures listed { IfOk result (λ answer. Lists call answer self.old self.new) }
        ensures fault { IfSome (answered result)
            (λ answer. refusal_in answer ≡ refused (seen self.old.kernel) call) }
        ensures extends { IfOk result (λ _. Extends (run_of self.new) (run_of self.old)) }
        ensures limits { self.new.kernel.limits ≡ self.old.kernel.limits }
        ensures err { OnErr result (self.new ≡ self.old) }
    {
        if make_room(&mut self.calls).is_err() {
            return Err(CallFault::OutOfMemory);
        }
        match self.kernel.apply(call) {
            Ok(answer) => {
                list(&mut self.calls, &call, &answer);
                Ok(answer)
            }
            Err(fault) => Err(fault),
        }
    }

    /// Makes the call of the environment.
    pub fn post(&mut self, call: EnvCall) -> Result<Posted, CallFault>
        ensures listed { IfOk result (λ posted. Lists (Call.Env call) (Answer.Posted posted) self.old self.new) }
        ensures fault { IfSome (answered result)
            (λ answer. refusal_in answer ≡ refused (seen self.old.kernel) (Call.Env call)) }
        ensures extends { IfOk result (λ _. Extends (run_of self.new) (run_of self.old)) }
        ensures limits { self.new.kernel.limits ≡ self.old.kernel.limits }
        ensures err { OnErr result (self.new ≡ self.old) }
    {
        self.is_replay();
        match self.apply(Call::Env(call)) {
            Ok(Answer::Posted(posted)) => Ok(posted),
            Ok(Answer::Done) => unreachable!(),
            Err(fault) => Err(fault),
        }
    }

    /// Puts the CPU's agent to sleep, where it has read all posts to its queue.
    pub fn sleep(&mut self, cpu: Cpu, aseq: u32) -> Result<(), CallFault>
        ensures listed { OnOk result (Lists (sleeps cpu aseq) Answer.Done self.old self.new) }
        ensures fault { IfSome (answered result)
            (λ answer. refusal_in answer ≡ refused (seen self.old.kernel) (sleeps cpu aseq)) }
        ensures extends { OnOk result (Extends (run_of self.new) (run_of self.old)) }
        ensures limits { self.new.kernel.limits ≡ self.old.kernel.limits }
        ensures err { OnErr result (self.new ≡ self.old) }
    {
        self.is_replay();
        match self.apply(Call::Agent(AgentCall::Sleep { cpu, aseq })) {
            Ok(Answer::Done) => Ok(()),
            Ok(Answer::Posted(_)) => unreachable!(),
            Err(fault) => Err(fault),
        }
    }

    /// Wakes the CPU's agent.
    pub fn rouse(&mut self, cpu: Cpu) -> Result<(), CallFault>
        ensures listed { OnOk result (Lists (rouses cpu) Answer.Done self.old self.new) }
        ensures fault { IfSome (answered result)
            (λ answer. refusal_in answer ≡ refused (seen self.old.kernel) (rouses cpu)) }
        ensures extends { OnOk result (Extends (run_of self.new) (run_of self.old)) }
        ensures limits { self.new.kernel.limits ≡ self.old.kernel.limits }
        ensures err { OnErr result (self.new ≡ self.old) }
    {
        self.is_replay();
        match self.apply(Call::Agent(AgentCall::Rouse { cpu })) {
            Ok(Answer::Done) => Ok(()),
            Ok(Answer::Posted(_)) => unreachable!(),
            Err(fault) => Err(fault),
        }
    }
}

/// Makes room for at least one more call.
fn make_room(calls: &mut Vec<(Call, Answer)>) -> Result<(), AllocError>
    ensures items { calls.new.items ≡ calls.old.items }
    ensures room { OnOk result (vec_len calls.new < vec_capacity calls.new) }
{
    if calls.len() == calls.capacity() {
        calls.reserve(ROOM)?;
    }
    Ok(())
}

/// Puts an accepted call with its answer at the end of the list, which has room for it.
fn list(calls: &mut Vec<(Call, Answer)>, call: &Call, answer: &Answer)
    requires { vec_len calls.old < vec_capacity calls.old }
    ensures { calls.new.items ≡ calls.old.items ++ (call.now, answer.now) ∷ [] }
{
    calls.push_reserved((*call, *answer));
}
