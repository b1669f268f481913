//! A caller's crate, to copy: functions of the caller's own, with contracts that those of the libraries carry.
//!
//! Kernel, views, run lists, policies, worlds and laws are called by their public names. What is proved of them is all
//! that is known of them here.
#![tactic(auto)]

ghost use Rattle.std.specs.Prelude.{ℕ, ◌≡◌, ◌∷◌, [], IfOk, IfSome, IsTrue, OnErr, OnOk, slice_get, true};
ghost use Rattle.pc_calls.specs.declared.event.Reply.TheVariants.{Associated};
ghost use Rattle.pc_kernel.specs.Answers.{Replays};
ghost use Rattle.pc_kernel.specs.Reads.{is_cpu, is_known, reported_of, seen, shown};
ghost use Rattle.pc_example.specs.Policies.{least_ran_but_on_kept};
ghost use Rattle.pc_messages.specs.Run.{Run};
ghost use Rattle.pc_run_queue.specs.Runs.{refreshed};
ghost use Rattle.pc_view.specs.Views.{IsOfRun};
ghost use Rattle.pc_world.specs.Facts.{HasAll};
ghost use Rattle.pc_world.specs.PlainWorld.{PlainWorld};
ghost use Rattle.pc_world.specs.Reached.{Reached};
ghost use Rattle.pc_world.specs.Shows.{ShowsWorld};

use pc_join::{Join, OutOfMemory};
use pc_kernel::{Call, CallFault, EnvCall, Kernel, Limits, Posted, Refusal};
use pc_messages::{Cpu, Reported, Tid};
use pc_policy::Policy;
use pc_run_queue::RunQueue;
use pc_view::{View, complete, views_of_the_same_messages_are_equal};
use pc_world::laws::{what_a_steal_took_is_reported, who_has_all_is_complete};
use pc_world::{Event, Reply, World};

/// Creates a ready thread at the CPU's queue, which may run on the CPUs of the mask, and answers its name.
///
/// A kernel refuses it as `Kernel::create` does; the fault tells why, and nothing was done then.
pub fn start(kernel: &mut Kernel, cpu: Cpu, mask: u64) -> Result<Option<Tid>, CallFault>
    ensures replays { IfOk result (λ _. Replays (Call.Env (EnvCall.Create cpu true mask) ∷ []) kernel.old kernel.new) }
{
    match kernel.create(cpu, mask, true) {
        Ok(posted) => Ok(posted.thread),
        Err(fault) => Err(fault),
    }
}

/// Two agents tell each other all that they know: where their views are of one run they are equal then.
///
/// Where memory runs out a part was told; telling again completes it.
pub fn meet(first: &mut View, second: &mut View) -> Result<(), OutOfMemory>
    ensures equal { (run : Run) → IsOfRun run first.old → IsOfRun run second.old
        → OnOk result (first.new ≡ second.new) }
{
    views_of_the_same_messages_are_equal();
    match first.merge(second) {
        Ok(()) => second.merge(first),
        Err(fault) => Err(fault),
    }
}

/// Whether the CPU's agent knows all messages of the thread so far; of a CPU that is not there, no.
///
/// Where it has taken in all that was sent and all that waits in queues, it knows them of each thread.
pub fn knows_all(world: &World, cpu: Cpu, thread: Tid) -> bool
    ensures complete { (limits : Limits) (w : PlainWorld) → Reached limits w → ShowsWorld world.now w
        → IsTrue (is_cpu (shown w.kernel) cpu) → HasAll w (w.agents cpu).known
        → IsTrue (is_known (shown w.kernel) thread) → IsTrue result }
{
    who_has_all_is_complete();
    match world.view(cpu) {
        Some(view) => complete(view, world.kernel(), thread),
        None => false,
    }
}

/// The thread that a reply tells to have another queue from now on.
fn taken_by(reply: &Reply) -> Option<Tid>
    ensures { IfSome result (λ thread. (queue : ℕ) × (reply.now ≡ Associated queue thread)) }
{
    match reply {
        Reply::Associated { thread, .. } => Some(*thread),
        _ => None,
    }
}

/// The CPU's agent takes a thread over. Answers which, and the state that the agent's view reported of it, which is
/// what the kernel reported; none where the steal was refused.
///
/// Where memory runs out, nothing was done.
pub fn take_over(
    world: &mut World,
    cpu: Cpu,
) -> Result<Option<(Tid, Option<Reported>)>, OutOfMemory>
    ensures reported { IfOk result (λ taken. IfSome taken (λ told.
        told.1 ≡ reported_of (seen world.old.kernel) told.0)) }
{
    what_a_steal_took_is_reported();
    world.is_reached();
    // The checker finds the types that a reply nests only where the function names them.
    let _: (Option<Posted>, Option<Tid>, Option<Cpu>, Option<Refusal>) = (None, None, None, None);
    let before = match world.view(cpu) {
        Some(view) => view.try_copy()?,
        None => return Ok(None),
    };
    let reply = world.step(Event::Steal { cpu })?;
    match taken_by(&reply) {
        Some(thread) => Ok(Some((thread, before.reported(thread)))),
        None => Ok(None),
    }
}

/// A policy of the caller's own: the first so many CPUs are kept free of threads of the lowest level, and elsewhere and
/// of all others the one of the fewest ticks comes first.
#[derive(Clone, Copy, Debug, Drop)]
pub struct KeptFree {
    pub cpus: u8,
}

impl Policy for KeptFree {
    ghost ranking = { λ policy. least_ran_but_on_kept policy.cpus };

    fn rank(&self, cpu: Cpu, _thread: Tid, reported: &Reported) -> Option<u64> {
        if cpu.index() < self.cpus && reported.level.get() == 0 {
            None
        } else {
            Some(reported.ran)
        }
    }
}

/// Refreshes a CPU's run list by that policy, behind messages of the touched threads, and answers who is first then.
///
/// Where memory runs out, the run list is as it was.
pub fn first_by(
    policy: &KeptFree,
    list: &mut RunQueue,
    view: &View,
    cpu: Cpu,
    touched: &[Tid],
) -> Result<Option<Tid>, OutOfMemory>
    ensures refreshed { OnOk result
        (list.new ≡ refreshed (least_ran_but_on_kept policy.now.cpus) view.now cpu list.old touched.now) }
    ensures first { IfOk result (λ first. first ≡ slice_get list.new 0) }
    ensures no_memory { OnErr result (list.new ≡ list.old) }
{
    list.refresh(policy, view, touched, cpu)?;
    Ok(list.first())
}
