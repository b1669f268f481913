//! What an agent keeps so that its calls need not look for it.

ghost use Rattle.std.specs.Prelude.{ℕ, Bool, ◌≡◌, ◌==◌, ◌+◌, ◌&&◌, ◌∷◌, [], List, MatchOption, OnOk, OnErr, IsTrue};
ghost use Rattle.std.specs.Prelude.{false, not};
ghost use Rattle.pc_delta.specs.Exchange.{KeepsOthers};
ghost use Rattle.pc_delta.specs.Parts.{tells_of};
ghost use Rattle.pc_join.specs.NameSets.{FindsFrom};
ghost use Rattle.pc_policy.specs.Rankings.{Ranking, ranks_of};
ghost use Rattle.pc_run_queue.specs.declared.run_queue.TheConstants.{GREATEST_RANK};
ghost use Rattle.pc_run_queue.specs.Runs.{AreUpTo, IsSettled, StandsAsNoted, refreshed, runs_in};
ghost use Rattle.pc_agent.specs.PlainAgent.{is_wanted, threads_in};
ghost use Rattle.pc_agent.specs.Running.{Finds};
ghost use Rattle.pc_agent.specs.Inner.Shortcuts.{AreNoted, AreTrue, AreTrueOfAll, AreTrueOfNothing, IsPutLast};
ghost use Rattle.pc_agent.specs.Inner.Shortcuts.{StayTrue};
ghost use Rattle.pc_agent.specs.Inner.Wanted.{AreShort, HasAllBut, HoldsAll, HoldsAllBut, IsNoneBefore};
ghost use Rattle.pc_agent.specs.Inner.Wanted.{IsNoneWantedBelow};

use crate::watch::{drop_as_noted, is_worth_noting, note_told};
use pc_delta::Part;
use pc_join::{NameSet, OutOfMemory};
use pc_messages::{Cpu, Item, Tid};
use pc_policy::Order;
use pc_run_queue::{GREATEST_RANK, RunQueue, runs_on};
use pc_view::View;
use std::alloc::Global;

/// What could be found out from an agent's policy, view, CPU and run list, and is kept to be quick. No call answers or
/// does anything by it that it would not do without.
///
/// Policy, view and run list stand beside it, in the agent, which lends them to each call. What is true of it then is
/// `AreTrue` (`specs/Inner/Shortcuts.antt`), a part of the agent's own invariant.
#[derive(Drop)]
pub(crate) struct Shortcuts {
    /// Below this name no thread is wanted: each that the view reports ready and allowed here is in the run list.
    /// A steal begins to look here. What the kernel says plays no part in it.
    passed: u32,
    /// The names of the threads that the view reports ready and allowed on the CPU: a steal looks at these alone, and
    /// not at the view. None where memory ran out while they were kept; a steal then looks at all threads that the
    /// view knows.
    runnable: Option<NameSet>,
    /// Whether it is known that the run list stands by the noted ranks, and where none is noted by those of the view:
    /// then a refresh looks at the noted and the touched threads alone.
    settled: bool,
    /// Threads of the run list, each with the rank by which it stands there: of which parts have told since the last
    /// refresh, with the rank from before; or put at the end since, with the greatest.
    noted: Vec<(Tid, u64)>,
    /// The threads that the refresh under way touches. Like those that are noted, they stand here so that no call
    /// takes memory for them anew.
    touched: Vec<Tid>,
}

/// Lists the threads of the items, in their order, in place of what the list had; a tick has none.
fn list_threads(threads: &mut Vec<Tid>, items: &[Item]) -> Result<(), OutOfMemory>
    ensures { OnOk result (threads.new.items ≡ threads_in items.now) }
{
    threads.clear();
    for item in items {
        match item {
            Item::Thread(message) => threads.push(message.thread)?,
            Item::Tick(_) => {}
        }
    }
    Ok(())
}

/// Whether no note has a rank above the greatest. By its type none has, so an optimizing compiler drops the loop.
fn are_up_to_greatest(noted: &[(Tid, u64)]) -> bool
    ensures { IsTrue result → AreUpTo GREATEST_RANK noted.now }
{
    for row in noted {
        if row.1 > GREATEST_RANK {
            return false;
        }
    }
    true
}

/// Notes a thread that was put at the end of the run list, with the greatest rank, before all other notes: of more than
/// one of a thread the first counts. Answers false where memory runs out, or where so many are noted that a sort of the
/// list takes no more than they do.
fn note_last(noted: &mut Vec<(Tid, u64)>, list: &RunQueue, thread: Tid) -> bool
    ensures noted { IsTrue result → noted.new.items ≡ (thread, GREATEST_RANK) ∷ noted.old.items }
    ensures up_to { IsTrue result → AreUpTo GREATEST_RANK noted.old.items }
{
    is_worth_noting(noted.as_slice(), list)
        && are_up_to_greatest(noted.as_slice())
        && noted.insert(0, (thread, GREATEST_RANK)).is_ok()
}

/// Refreshes a run list, of which it may be known that only the noted and the touched threads can change it.
fn refresh_list(
    list: &mut RunQueue,
    settled: bool,
    policy: &Order,
    view: &View,
    noted: &[(Tid, u64)],
    touched: &[Tid],
    cpu: Cpu,
) -> Result<(), OutOfMemory>
    requires { IsTrue settled → StandsAsNoted (ranks_of policy.now) view.now cpu noted.now list.old }
    ensures ok { OnOk result (list.new ≡ refreshed (ranks_of policy.now) view.now cpu list.old touched.now) }
    ensures err { OnErr result (list.new ≡ list.old) }
    ensures settled { OnOk result (IsSettled (ranks_of policy.now) view.now cpu list.new) }
{
    if settled {
        list.refresh_noted(policy, view, noted, touched, cpu)
    } else {
        list.refresh(policy, view, touched, cpu)
    }
}

/// The least thread from one on that the view knows: none before it is wanted. The run list and the CPU stand in the
/// clauses alone.
fn next_in_view(view: &View, list: &RunQueue, cpu: Cpu, from: u32) -> Option<Tid>
    ensures passed { IsNoneBefore (is_wanted (runs_in view.now cpu) list.now) from result }
    ensures short { AreShort (is_wanted (runs_in view.now cpu) list.now) }
{
    view.next(Tid(from))
}

/// Whether the view reports the thread ready and allowed on the CPU, and it is not in the run list.
fn wants(view: &View, list: &RunQueue, cpu: Cpu, thread: Tid) -> bool
    ensures { result ≡ is_wanted (runs_in view.now cpu) list.now thread }
{
    runs_on(view, cpu, thread) && !list.has(thread)
}

/// The least thread from one on that is wanted, of all that the view knows.
fn next_known(view: &View, list: &RunQueue, cpu: Cpu, from: u32) -> Option<Tid>
    ensures finds { FindsFrom (is_wanted (runs_in view.now cpu) list.now) from result }
    ensures short { AreShort (is_wanted (runs_in view.now cpu) list.now) }
{
    let mut start = from;
    while let Some(name) = next_in_view(view, list, cpu, start) {
        if wants(view, list, cpu, name) {
            return Some(name);
        }
        match name.index().checked_add(1) {
            Some(following) => start = following,
            None => return None,
        }
    }
    None
}

/// The least thread from one on that is wanted: of the names that are kept it is the least that is not in the run list,
/// with no look at the view.
fn next_wanted(
    view: &View,
    runnable: &Option<NameSet>,
    list: &RunQueue,
    cpu: Cpu,
    from: u32,
) -> Option<Tid>
    requires { HoldsAll (runs_in view.now cpu) runnable.now }
    ensures finds { FindsFrom (is_wanted (runs_in view.now cpu) list.now) from result }
    ensures short { AreShort (is_wanted (runs_in view.now cpu) list.now) }
{
    match runnable {
        Some(names) => list.next_outside(names, Tid(from)),
        None => next_known(view, list, cpu, from),
    }
}

/// Keeps the thread's name, or drops it, as the view now reports the thread.
fn keep_thread(names: &mut NameSet, view: &View, cpu: Cpu, thread: Tid) -> Result<(), OutOfMemory>
    ensures { OnOk result ((but : ℕ → Bool) → HasAllBut but (runs_in view.now cpu) names.old
        → HasAllBut (λ t. but t && not (thread == t)) (runs_in view.now cpu) names.new) }
{
    if runs_on(view, cpu, thread) {
        return names.insert(thread);
    }
    names.remove(thread);
    Ok(())
}

/// Looks anew at the threads of which the parts tell, once the view has taken them in.
fn keep_told(names: &mut NameSet, view: &View, cpu: Cpu, parts: &[Part]) -> Result<(), OutOfMemory>
    ensures { OnOk result (HasAllBut (tells_of parts.now) (runs_in view.now cpu) names.old
        → HasAllBut (λ t. false) (runs_in view.now cpu) names.new) }
{
    for part in parts {
        keep_thread(names, view, cpu, part.thread())?;
    }
    Ok(())
}

/// The names that are kept, once the view has taken parts in: the threads that they tell of are looked at anew. None
/// are kept where none were, or where memory runs out.
fn keep_runnable(runnable: &mut Option<NameSet>, view: &View, cpu: Cpu, parts: &[Part])
    ensures { HoldsAllBut (tells_of parts.now) (runs_in view.now cpu) runnable.old
        → HoldsAll (runs_in view.now cpu) runnable.new }
{
    let kept = match runnable {
        Some(names) => keep_told(names, view, cpu, parts).is_ok(),
        None => true,
    };
    if !kept {
        *runnable = None;
    }
}

impl Shortcuts {
    /// Those of an agent who knows nothing. It takes no memory.
    pub(crate) fn new(alloc: Global) -> Shortcuts
        ensures { AreTrueOfNothing result }
    {
        Shortcuts {
            passed: 0,
            runnable: Some(NameSet::new(alloc)),
            settled: true,
            noted: Vec::new(alloc),
            touched: Vec::new(alloc),
        }
    }

    /// Makes them those of an agent who knows nothing. It takes no memory.
    pub(crate) fn restart(&mut self, alloc: Global)
        ensures { AreTrueOfNothing self.new }
    {
        self.passed = 0;
        self.runnable = Some(NameSet::new(alloc));
        self.settled = true;
        self.noted.clear();
    }

    /// Keeps nothing: the next refresh and the next steals look for all.
    pub(crate) fn forget(&mut self)
        ensures { AreTrueOfAll self.new }
    {
        self.passed = 0;
        self.runnable = None;
        self.settled = false;
    }

    /// Notes what the view reports now of the threads of which the parts tell, before it takes the parts in.
    pub(crate) fn note(
        &mut self,
        parts: &[Part],
        list: &RunQueue,
        policy: &Order,
        view: &View,
        cpu: Cpu,
    )
        requires { AreTrue (ranks_of policy.now) self.old view.now cpu list.now }
        ensures { AreNoted (ranks_of policy.now) parts.now self.new view.now cpu list.now }
    {
        self.passed = 0;
        self.settled = note_told(
            &mut self.noted,
            self.settled,
            list,
            policy,
            view,
            cpu,
            parts,
        );
    }

    /// Looks at the threads anew of which the parts tell, which were noted, once the view has taken the parts in.
    pub(crate) fn look_anew(&mut self, parts: &[Part], policy: &Order, view: &View, cpu: Cpu)
        ensures { (before : View) (list : List ℕ) → KeepsOthers parts.now before view.now
            → AreNoted (ranks_of policy.now) parts.now self.old before cpu list
            → AreTrue (ranks_of policy.now) self.new view.now cpu list }
    {
        keep_runnable(&mut self.runnable, view, cpu, parts);
        drop_as_noted(&mut self.noted, policy, view, cpu);
    }

    /// Refreshes the run list with the threads of the items. Where memory runs out, it is the old one.
    pub(crate) fn refresh(
        &mut self,
        list: &mut RunQueue,
        policy: &Order,
        view: &View,
        cpu: Cpu,
        items: &[Item],
    ) -> Result<(), OutOfMemory>
        requires { AreTrue (ranks_of policy.now) self.old view.now cpu list.old }
        ensures ok { OnOk result
            (list.new ≡ refreshed (ranks_of policy.now) view.now cpu list.old (threads_in items.now)) }
        ensures err { OnErr result (list.new ≡ list.old) }
        ensures kept { AreTrue (ranks_of policy.now) self.new view.now cpu list.new }
    {
        list_threads(&mut self.touched, items)?;
        self.passed = 0;
        let settled = self.settled;
        self.settled = false;
        let (noted, touched) = (self.noted.as_slice(), self.touched.as_slice());
        refresh_list(list, settled, policy, view, noted, touched, cpu)?;
        self.noted.clear();
        self.settled = true;
        Ok(())
    }

    /// Takes the first name out of the run list, which may be wanted again.
    pub(crate) fn take_first(&mut self, list: &mut RunQueue) -> Option<Tid>
        ensures first { MatchOption result ((list.old ≡ []) × (list.new ≡ [])) (λ name. list.old ≡ name ∷ list.new) }
        ensures kept { StayTrue self.old list.old self.new list.new }
    {
        match list.take_first() {
            None => None,
            Some(name) => {
                self.passed = name.index().min(self.passed);
                Some(name)
            }
        }
    }

    /// Goes on where a thread was put at the end of the run list. If it belongs there by the view, and the others stand
    /// by it, the list stays settled; else the thread is noted with the greatest rank, by which it stands there, and
    /// the next refresh puts it in its place.
    pub(crate) fn put_last(&mut self, list: &RunQueue, in_order: bool, thread: Tid)
        ensures { (ranks : Ranking) (view : View) (cpu : ℕ) (before : List ℕ)
            → IsPutLast ranks view cpu in_order thread before list.now → AreTrue ranks self.old view cpu before
            → AreTrue ranks self.new view cpu list.now }
    {
        if self.settled && !(in_order && self.noted.is_empty()) {
            self.settled = note_last(&mut self.noted, list, thread);
        }
    }

    /// The least thread that is wanted.
    pub(crate) fn first_wanted(&self, view: &View, list: &RunQueue, cpu: Cpu) -> Option<Tid>
        requires runnable { HoldsAll (runs_in view.now cpu) self.now.runnable }
        requires passed { IsNoneWantedBelow self.now.passed (runs_in view.now cpu) list.now }
        ensures finds { Finds (is_wanted (runs_in view.now cpu) list.now) result }
        ensures short { AreShort (is_wanted (runs_in view.now cpu) list.now) }
    {
        next_wanted(view, &self.runnable, list, cpu, self.passed)
    }

    /// The least thread that is wanted, to which all before are passed.
    pub(crate) fn pass_over(&mut self, view: &View, list: &RunQueue, cpu: Cpu) -> Option<Tid>
        requires runnable { HoldsAll (runs_in view.now cpu) self.old.runnable }
        requires passed { IsNoneWantedBelow self.old.passed (runs_in view.now cpu) list.now }
        ensures finds { Finds (is_wanted (runs_in view.now cpu) list.now) result }
        ensures short { AreShort (is_wanted (runs_in view.now cpu) list.now) }
        ensures kept { (ranks : Ranking) → AreTrue ranks self.old view.now cpu list.now
            → AreTrue ranks self.new view.now cpu list.now }
    {
        let found = next_wanted(view, &self.runnable, list, cpu, self.passed);
        self.passed = match found {
            Some(name) => name.index(),
            None => u32::MAX,
        };
        found
    }

    /// The least thread after this one that is wanted.
    pub(crate) fn wanted_after(
        &self,
        view: &View,
        list: &RunQueue,
        cpu: Cpu,
        thread: Tid,
    ) -> Option<Tid>
        requires runnable { HoldsAll (runs_in view.now cpu) self.now.runnable }
        requires short { AreShort (is_wanted (runs_in view.now cpu) list.now) }
        ensures { FindsFrom (is_wanted (runs_in view.now cpu) list.now) (thread + 1) result }
    {
        match thread.index().checked_add(1) {
            Some(from) => next_wanted(view, &self.runnable, list, cpu, from),
            None => None,
        }
    }
}
