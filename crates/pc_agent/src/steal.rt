//! How an agent takes a thread over.

ghost use Rattle.std.specs.Option.{option_map};
ghost use Rattle.std.specs.Prelude.{◌≡◌, OnErr, Some, None, if◌then◌else◌};
ghost use Rattle.pc_kernel.specs.Reads.{number_read, seen};
ghost use Rattle.pc_policy.specs.Rankings.{ranks_of};
ghost use Rattle.pc_policy.specs.Rules.{rules_of};
ghost use Rattle.pc_run_queue.specs.Runs.{runs_in};
ghost use Rattle.pc_agent.specs.Calls.{DoesSteal, GoesOn};
ghost use Rattle.pc_agent.specs.Own.{StealsAsSeen};
ghost use Rattle.pc_agent.specs.PlainAgent.{candidates, is_idle, is_wanted, known_in, may_take};
ghost use Rattle.pc_agent.specs.Running.{Finds, FindsFirst};
ghost use Rattle.pc_agent.specs.Shows.{cpu_of, rules_in};
ghost use Rattle.pc_agent.specs.Inner.Exactly.{earlier, exact_by, place_if_idle};
ghost use Rattle.pc_agent.specs.Inner.Shortcuts.{AreTrue};
ghost use Rattle.pc_agent.specs.Inner.Wanted.{AreShort, HoldsAll};

use crate::agent::Agent;
use crate::shortcuts::Shortcuts;
use pc_calls::{CallFault, Refusal};
use pc_kernel::Kernel;
use pc_kernel::laws::accepted_associates_are_exact;
use pc_messages::{Cpu, Tid};
use pc_policy::{AgentPolicy, Order, Stealing};
use pc_run_queue::{RunQueue, rank_on};
use pc_view::{View, views_tell_what_their_sets_tell};

/// Whether the kernel knows the thread and has it on no CPU.
fn idles(kernel: &Kernel, thread: Tid) -> bool
    ensures { result ≡ is_idle (seen kernel.now) thread }
{
    match kernel.status(thread) {
        Some(status) => status.running_on.is_none(),
        None => false,
    }
}

/// The least thread that may be taken over: of those that are wanted, from the least on, the first that the kernel
/// knows and has on no CPU. Each is looked at once.
fn candidate(
    view: &View,
    shortcuts: &Shortcuts,
    list: &RunQueue,
    cpu: Cpu,
    kernel: &Kernel,
    least: Option<Tid>,
) -> Option<Tid>
    requires runnable { HoldsAll (runs_in view.now cpu) shortcuts.now.runnable }
    requires least { Finds (is_wanted (runs_in view.now cpu) list.now) least }
    requires short { AreShort (is_wanted (runs_in view.now cpu) list.now) }
    ensures { Finds (may_take (seen kernel.now) (runs_in view.now cpu) list.now) result }
{
    let mut wanted = least;
    while let Some(thread) = wanted {
        if idles(kernel, thread) {
            return Some(thread);
        }
        wanted = shortcuts.wanted_after(view, list, cpu, thread);
    }
    None
}

/// How many messages a thread had that the kernel knows and has on no CPU.
fn number_of_idle(kernel: &Kernel, thread: Tid) -> Option<u32>
    ensures { result ≡ if is_idle (seen kernel.now) thread then Some (number_read (seen kernel.now) thread) else None }
{
    match kernel.status(thread) {
        Some(status) => {
            if status.running_on.is_some() {
                None
            } else {
                Some(status.number)
            }
        }
        None => None,
    }
}

/// Where a thread stands among those that an exact steal tries; nowhere, where it may not.
fn exact_place(order: &Order, view: &View, cpu: Cpu, kernel: &Kernel, thread: Tid) -> Option<u64>
    ensures { result ≡ place_if_idle (ranks_of order.now) (seen kernel.now) (known_in view.now) cpu thread }
{
    match number_of_idle(kernel, thread) {
        Some(number) => {
            if view.upto(thread) == number {
                rank_on(order, view, cpu, thread)
            } else {
                None
            }
        }
        None => None,
    }
}

/// The earlier of the first so far and of a thread with a greater name, which may stand nowhere.
fn earlier(first: Option<(u64, Tid)>, place: Option<u64>, thread: Tid) -> Option<(u64, Tid)>
    ensures { result ≡ earlier first place thread }
{
    match (first, place) {
        (_, None) => first,
        (None, Some(place)) => Some((place, thread)),
        (Some((least, _)), Some(place)) => {
            if place < least {
                Some((place, thread))
            } else {
                first
            }
        }
    }
}

/// The thread that is first.
fn name_in(first: Option<(u64, Tid)>) -> Option<Tid>
    ensures { result ≡ option_map (λ row. row.1) first }
{
    match first {
        Some((_, thread)) => Some(thread),
        None => None,
    }
}

/// The first thread that an exact steal may take over. Each that is wanted is looked at once, from the least on.
fn exact_candidate(
    order: &Order,
    view: &View,
    shortcuts: &Shortcuts,
    list: &RunQueue,
    cpu: Cpu,
    kernel: &Kernel,
    least: Option<Tid>,
) -> Option<Tid>
    requires runnable { HoldsAll (runs_in view.now cpu) shortcuts.now.runnable }
    requires least { Finds (is_wanted (runs_in view.now cpu) list.now) least }
    requires short { AreShort (is_wanted (runs_in view.now cpu) list.now) }
    ensures { FindsFirst
        (candidates (exact_by (ranks_of order.now)) (seen kernel.now) (known_in view.now) cpu list.now) result }
{
    let mut first: Option<(u64, Tid)> = None;
    let mut wanted = least;
    while let Some(thread) = wanted {
        let place = exact_place(order, view, cpu, kernel, thread);
        first = earlier(first, place, thread);
        wanted = shortcuts.wanted_after(view, list, cpu, thread);
    }
    name_in(first)
}

/// The first thread that may be taken over by the policy.
fn first_candidate(
    policy: &AgentPolicy,
    view: &View,
    shortcuts: &Shortcuts,
    list: &RunQueue,
    cpu: Cpu,
    kernel: &Kernel,
    least: Option<Tid>,
) -> Option<Tid>
    requires runnable { HoldsAll (runs_in view.now cpu) shortcuts.now.runnable }
    requires least { Finds (is_wanted (runs_in view.now cpu) list.now) least }
    requires short { AreShort (is_wanted (runs_in view.now cpu) list.now) }
    ensures { FindsFirst
        (candidates (rules_of policy.now) (seen kernel.now) (known_in view.now) cpu list.now) result }
{
    match policy.stealing {
        Stealing::Least => candidate(view, shortcuts, list, cpu, kernel, least),
        Stealing::Exact => {
            exact_candidate(&policy.order, view, shortcuts, list, cpu, kernel, least)
        }
    }
}

/// A steal for a CPU, by what a view tells, into a run list, at whose end the thread then stands.
fn take_first(
    policy: &AgentPolicy,
    view: &View,
    shortcuts: &mut Shortcuts,
    list: &mut RunQueue,
    kernel: &mut Kernel,
    cpu: Cpu,
) -> Result<Tid, CallFault>
    requires { AreTrue (ranks_of policy.now.order) shortcuts.old view.now cpu list.old }
    ensures takes { StealsAsSeen (rules_of policy.now) view.now cpu result list.old list.new kernel.old kernel.new }
    ensures goes_on { GoesOn result kernel.old kernel.new }
    ensures left { OnErr result (list.new ≡ list.old) }
    ensures kept { AreTrue (ranks_of policy.now.order) shortcuts.new view.now cpu list.new }
{
    if kernel.running(cpu).is_some() {
        return Err(CallFault::Refused(Refusal::Busy));
    }
    let least = shortcuts.pass_over(view, list, cpu);
    let Some(thread) = first_candidate(policy, view, shortcuts, list, cpu, kernel, least) else {
        return Err(CallFault::Refused(Refusal::NothingToSteal));
    };
    // The name is pushed before the kernel is asked: once it has accepted, nothing may fail.
    let Ok(in_order) = list.push_in_order(&policy.order, view, cpu, thread) else {
        return Err(CallFault::OutOfMemory);
    };
    match kernel.associate(thread, cpu, view.upto(thread)) {
        Ok(()) => {
            shortcuts.put_last(list, in_order, thread);
            Ok(thread)
        }
        Err(refusal) => {
            list.take_last();
            Err(CallFault::Refused(refusal))
        }
    }
}

impl Agent {
    /// The thread that a steal takes over, and that it has tried where the kernel refuses it; none where there is no
    /// such thread. It does not look whether a thread runs on its CPU. It takes no memory.
    pub fn candidate(&self, kernel: &Kernel) -> Option<Tid>
        ensures { FindsFirst
            (candidates (rules_in self.now) (seen kernel.now) (known_in self.now.view) (cpu_of self.now) self.now.list)
            result }
    {
        let least = self
            .shortcuts
            .first_wanted(&self.view, &self.list, self.cpu);
        first_candidate(
            &self.policy,
            &self.view,
            &self.shortcuts,
            &self.list,
            self.cpu,
            kernel,
            least,
        )
    }

    /// Takes a thread over: one that its view reports ready and allowed on its CPU, that is not in its run list, and
    /// that the kernel knows and has on no CPU; a thread of its own queue too, which is how a restarted agent takes its
    /// threads back. Of these, the one with the least name; where steals are exact, of those of which it knows every
    /// message and that have a rank, the one of the least rank, and of equals the one with the least name. The thread
    /// then belongs to the agent's queue and stands at the end of its run list.
    ///
    /// `Busy` where a thread runs on its CPU; `NothingToSteal` where there is no such thread; then want of memory; then
    /// what the kernel refuses: `Dead`, `Stale` with the number of now, `Pending`. Only that one thread is tried.
    pub fn steal(&mut self, kernel: &mut Kernel) -> Result<Tid, CallFault>
        ensures { DoesSteal result self.old self.new kernel.old kernel.new }
    {
        accepted_associates_are_exact();
        views_tell_what_their_sets_tell();
        let answered = take_first(
            &self.policy,
            &self.view,
            &mut self.shortcuts,
            &mut self.list,
            kernel,
            self.cpu,
        );
        self.counts.count_steal(&answered);
        answered
    }
}
