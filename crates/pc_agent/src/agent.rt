//! One agent.

ghost use Rattle.std.specs.Prelude.{ℕ, ◌≡◌};
ghost use Rattle.pc_messages.specs.Run.{Run};
ghost use Rattle.pc_policy.specs.Rankings.{ranks_of};
ghost use Rattle.pc_policy.specs.Rules.{rules_of, usual};
ghost use Rattle.pc_agent.specs.Inner.Shortcuts.{AreTrue};

use crate::counts::Counts;
use crate::shortcuts::Shortcuts;
use pc_messages::{Cpu, Tid};
use pc_policy::AgentPolicy;
use pc_run_queue::RunQueue;
use pc_view::{View, views_tell_what_their_sets_tell};
use std::alloc::Global;

/// The agent of one CPU: what it knows, which threads it would run, by which policy, and how much of its queue it has
/// sent to others.
///
/// It commits for its own CPU alone (the ghOSt paper's per-CPU model). Deltas, stealing by what a view tells, and a
/// restart from what others know are own.
#[derive(Drop)]
pub struct Agent {
    pub(crate) alloc: Global,
    pub(crate) cpu: Cpu,
    pub(crate) policy: AgentPolicy,
    pub(crate) view: View,
    pub(crate) list: RunQueue,
    pub(crate) sent_items: u32,
    pub(crate) counts: Counts,
    /// What makes its calls quick. Nothing that they do or answer depends on it.
    pub(crate) shortcuts: Shortcuts,
    ghost shortcuts_hold: { AreTrue (ranks_of policy.order) shortcuts view cpu list },
}

impl Agent {
    ghost use Rattle.pc_run_queue.specs.Names.{AreDistinct};
    ghost use Rattle.pc_agent.specs.Counts.{none_counted};
    ghost use Rattle.pc_agent.specs.PlainAgent.{PlainAgent, fresh};
    ghost use Rattle.pc_agent.specs.Shows.{ShowsAgent, ShowsView, cpu_of, rules_in};

    /// The CPU's agent, who knows nothing, runs the thread of the highest level first, and steals the least name. It
    /// takes no memory.
    pub fn new(alloc: Global, cpu: Cpu) -> Agent
        ensures fresh { (run : Run) → ShowsAgent run (fresh usual) result }
        ensures cpu { cpu_of result ≡ cpu }
        ensures counts { result.counts ≡ none_counted }
    {
        Agent::with_policy(alloc, cpu, AgentPolicy::usual())
    }

    /// The CPU's agent, who knows nothing, and runs and steals threads by this policy. It takes no memory.
    pub fn with_policy(alloc: Global, cpu: Cpu, policy: AgentPolicy) -> Agent
        ensures fresh { (run : Run) → ShowsAgent run (fresh (rules_of policy)) result }
        ensures cpu { cpu_of result ≡ cpu }
        ensures counts { result.counts ≡ none_counted }
    {
        views_tell_what_their_sets_tell();
        Agent {
            alloc,
            cpu,
            policy,
            view: View::new(alloc),
            list: RunQueue::new(alloc),
            sent_items: 0,
            counts: Counts::new(),
            shortcuts: Shortcuts::new(alloc),
        }
    }

    /// Starts again, as after a crash: it knows nothing, has an empty run list, and has sent nothing. Its policy and
    /// the counts stay. It takes no memory.
    pub fn restart(&mut self)
        ensures fresh { (run : Run) → ShowsAgent run (fresh (rules_in self.old)) self.new }
        ensures cpu { cpu_of self.new ≡ cpu_of self.old }
        ensures rules { rules_in self.new ≡ rules_in self.old }
        ensures counts { self.new.counts ≡ self.old.counts }
    {
        views_tell_what_their_sets_tell();
        self.view.clear();
        self.list = RunQueue::new(self.alloc);
        self.sent_items = 0;
        self.shortcuts.restart(self.alloc);
    }

    /// The agent's CPU.
    pub fn cpu(&self) -> Cpu
        ensures { result ≡ cpu_of self.now }
    {
        self.cpu
    }

    /// What it knows.
    pub fn view(&self) -> &View
        ensures same { result.now ≡ self.now.view }
        ensures shows { (run : Run) (p : PlainAgent) → ShowsAgent run p self.now → ShowsView run p.known result.now }
    {
        &self.view
    }

    /// The names of the threads that it would run, the first one first.
    pub fn run_list(&self) -> &[Tid]
        ensures same { result.now ≡ self.now.list }
        ensures distinct { AreDistinct result.now }
        ensures shows { (run : Run) (p : PlainAgent) → ShowsAgent run p self.now → result.now ≡ p.list }
    {
        self.list.names()
    }

    /// How many items at the front of its queue it has sent.
    pub fn sent_items(&self) -> u32
        ensures same { result ≡ self.now.sent_items }
        ensures shows { (run : Run) (p : PlainAgent) → ShowsAgent run p self.now → result ≡ p.sent_items }
    {
        self.sent_items
    }

    /// Gives what it knows, and ends. It takes no memory.
    pub fn into_view(self) -> View
        ensures { result ≡ self.view }
    {
        let Agent { view, .. } = self;
        view
    }

    /// What it has counted since it was made.
    pub fn counts(&self) -> Counts
        ensures { result ≡ self.now.counts }
    {
        self.counts
    }
}
