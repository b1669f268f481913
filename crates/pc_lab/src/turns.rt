//! Steps, quanta and turns.

ghost use Rattle.std.specs.Prelude.{◌≡◌};
ghost use Rattle.pc_lab.specs.Creations.{CreatesNone};
ghost use Rattle.pc_lab.specs.Moments.{IsPlayable};

use crate::due::first_of;
use crate::fault::LabFault;
use crate::lane::{Life, News, SentDelta};
use crate::run::{Run, Stop};
use crate::stage::Setting;
use crate::standing::{gives_way, rises_slowly, ticks_before};
use crate::times::word_of;
use pc_calls::{AgentCall, EnvCall, Event, Leaving, Left, Posted, Refusal, Reply};
use pc_load::Load;
use pc_messages::{Cpu, Tid};
use pc_policy::Policy;

/// The ticks of a run, as a call of the environment takes them: no step has more.
fn ticks_of(ran: u64) -> u32 {
    match u32::try_from(ran) {
        Ok(ran) => ran,
        Err(_) => u32::MAX,
    }
}

/// How a thread that has run for so many ticks leaves its CPU.
fn leaving_by(leaving: Leaving, cpu: Cpu, ran: u32) -> EnvCall
    ensures { CreatesNone (Event.Env result) × IsPlayable (Event.Env result) }
{
    Left { cpu, leaving, ran }.call()
}

impl<K: Setting> Run<K> {
    /// Counts what the thread that runs on the CPU has run.
    pub(crate) fn settle(&mut self, cpu: Cpu) {
        let now = self.stage.tick();
        let running = self.running(cpu);
        let stands_still = self.is_in_turn(cpu);
        let lane = self.lane_mut(cpu);
        let ticks = now.saturating_sub(lane.since);
        lane.since = now;
        let Some(thread) = running else {
            return;
        };
        if stands_still {
            return;
        }
        lane.ran = lane.ran.saturating_add(ticks);
        lane.quantum = lane.quantum.saturating_sub(ticks);
        if let Some(life) = self.lives.get_mut(thread.index() as usize) {
            life.left = life.left.saturating_sub(ticks);
        }
    }

    /// What is left of the step of a thread.
    fn left_of(&self, thread: Tid) -> u64 {
        match self.lives.get(thread.index() as usize) {
            Some(life) => life.left,
            None => 0,
        }
    }

    /// The step or the quantum of the thread that runs on the CPU is due to end.
    fn plan_end(&mut self, cpu: Cpu) {
        let Some(thread) = self.running(cpu) else {
            return;
        };
        let left = self.left_of(thread);
        let ticks = if self.numbers.quantum > 0 {
            left.min(self.lane(cpu).quantum)
        } else {
            left
        };
        let tick = self.tick_in(ticks);
        self.agenda.put_step_end(cpu, tick);
    }

    /// A thread was put on the CPU.
    fn committed(&mut self, cpu: Cpu, thread: Tid) {
        let now = self.stage.tick();
        let quantum = self.numbers.quantum as u64;
        let lane = self.lane_mut(cpu);
        let is_switch = lane.last != Some(thread);
        lane.last = Some(thread);
        lane.ran = 0;
        lane.since = now;
        lane.quantum = quantum;
        if is_switch {
            self.switches = self.switches.saturating_add(1);
        }
        self.plan_end(cpu);
    }

    /// The agent picks.
    pub(crate) fn pick(&mut self, cpu: Cpu) -> Result<Reply, LabFault> {
        let _: (Option<Posted>, Option<Tid>, Option<Cpu>, Option<Refusal>) = (
            None, None, None, None,
        );
        let aseq = self.lane(cpu).aseq;
        let reply = self.stage.do_event(Event::Pick { cpu, aseq })?;
        if let Reply::Committed { thread, .. } = reply {
            self.committed(cpu, thread);
        }
        Ok(reply)
    }

    /// Whether the kernel would accept a commit of the thread on the CPU, were it idle.
    fn can_be_committed(&self, cpu: Cpu, thread: Tid) -> bool {
        let kernel = self.kernel();
        let aseq = kernel.aseq(cpu).unwrap_or(0);
        matches!(
            kernel.commit_refusal(cpu, thread, aseq),
            None | Some(Refusal::Busy)
        )
    }

    /// The first of the CPU's run list that can be committed.
    fn first(&self, cpu: Cpu) -> Option<Tid> {
        let agent = self.stage.world().agent(cpu)?;
        for thread in agent.run_list() {
            if self.can_be_committed(cpu, *thread) {
                return Some(*thread);
            }
        }
        None
    }

    /// The rank on a CPU of a thread that ran for so many ticks more than the kernel knows.
    fn rank(&self, cpu: Cpu, thread: Tid, more: u64) -> Option<u64> {
        let mut reported = self.kernel().reported(thread)?;
        reported.ran = reported.ran.saturating_add(more);
        self.numbers.order.rank(cpu, thread, &reported)
    }

    /// Preempts the thread that runs on the CPU, unless it stands before the first that could run; or only where that
    /// one stands before it. Says whether it did.
    fn preempt(&mut self, cpu: Cpu, only_before: bool) -> Result<bool, Stop> {
        let Some(first) = self.first(cpu) else {
            return Ok(false);
        };
        let Some(thread) = self.running(cpu) else {
            return Ok(false);
        };
        let ran = self.lane(cpu).ran;
        let its = self.rank(cpu, thread, ran);
        let other = self.rank(cpu, first, 0);
        if !gives_way(its, other, only_before) {
            return Ok(false);
        }
        self.preempts = self.preempts.saturating_add(1);
        self.post(Event::Env(EnvCall::Preempt {
            cpu,
            ran: ticks_of(ran),
        }))?;
        Ok(true)
    }

    /// The thread goes on to its next step.
    fn go_on(&mut self, load: &Load, thread: Tid) {
        let place = thread.index() as usize;
        let keep = self.numbers.keep;
        let (Some(plan), Some(life)) = (load.threads().get(place), self.lives.get_mut(place)) else {
            return;
        };
        if let Some((step, next)) = plan.step_at(life.next, keep) {
            life.next = next;
            life.leaving = step.leaving;
            life.left = step.ticks as u64;
        }
    }

    /// A blocked thread is to be woken when its sleep is over.
    fn put_waking(&mut self, load: &Load, thread: Tid) -> Result<(), LabFault> {
        let place = thread.index() as usize;
        let (Some(plan), Some(life)) = (load.threads().get(place), self.lives.get_mut(place)) else {
            return Ok(());
        };
        let ticks = match plan.sleeps.get(life.blocks) {
            Some(ticks) => *ticks as u64,
            None => 0,
        };
        life.blocks = life.blocks.saturating_add(1);
        let tick = self.tick_in(ticks);
        self.agenda.put_waking(thread, tick)
    }

    /// The thread that runs on the CPU leaves it, as its step says.
    fn leave(&mut self, load: &Load, cpu: Cpu, thread: Tid, leaving: Leaving) -> Result<(), Stop> {
        let ran = ticks_of(self.lane(cpu).ran);
        self.go_on(load, thread);
        self.post(Event::Env(leaving_by(leaving, cpu, ran)))?;
        match leaving {
            Leaving::Block => self.put_waking(load, thread)?,
            Leaving::Die => self.dead = self.dead.saturating_add(1),
            Leaving::Yield | Leaving::Preempt => {}
        }
        Ok(())
    }

    /// The least whole quanta that are so many ticks or more.
    fn whole_quanta(&self, ticks: u64) -> u64 {
        let quantum = self.numbers.quantum as u64;
        match ticks.saturating_sub(1).checked_div(quantum) {
            Some(quanta) => quanta.saturating_add(1).saturating_mul(quantum),
            None => u64::MAX,
        }
    }

    /// For how many ticks at least the thread that runs on the CPU stands before the first that could run, if nothing
    /// changes.
    fn ticks_before(&self, cpu: Cpu, thread: Tid) -> u64 {
        // Another one could run only behind a turn of the agent, which is a change.
        let Some(first) = self.first(cpu) else {
            return u64::MAX;
        };
        // Ranks of other orders may fall, jump and vanish with any tick: the end of each whole quantum is looked at.
        // The rank of the first stays as it is, since it does not run.
        if !rises_slowly(&self.numbers.order) {
            return 0;
        }
        let ran = self.lane(cpu).ran;
        ticks_before(
            self.rank(cpu, thread, ran),
            self.rank(cpu, thread, ran.saturating_add(1)),
            self.rank(cpu, first, 0),
        )
    }

    /// The first tick at which anything may change.
    fn first_change(&self, load: &Load) -> u64 {
        let first = self.agenda.first_change(self.stage.tick());
        match first_of(self.next_creation(load), self.next_delta()) {
            Some(due) => first.min(due.tick),
            None => first,
        }
    }

    /// A quantum of the thread that runs on the CPU ended without a preempt, and begins anew. As many as nothing can
    /// come of are one, so that a run takes no longer than its events.
    fn begin_quanta(&mut self, load: &Load, cpu: Cpu, thread: Tid) {
        let left = self.left_of(thread);
        let until_preempt = self.whole_quanta(self.ticks_before(cpu, thread));
        let still = self.first_change(load).saturating_sub(self.stage.tick());
        let quanta = until_preempt.min(self.whole_quanta(still));
        self.lane_mut(cpu).quantum = quanta;
        let tick = self.tick_in(left.min(quanta));
        let change = self.tick_in(left.min(until_preempt));
        self.agenda.put_quantum_end(cpu, tick, change);
    }

    /// A step or a quantum ends on the CPU.
    pub(crate) fn end_step(&mut self, load: &Load, cpu: Cpu) -> Result<(), Stop> {
        self.settle(cpu);
        let Some(thread) = self.running(cpu) else {
            return Ok(());
        };
        let Some(life) = self.lives.get(thread.index() as usize) else {
            return Ok(());
        };
        let (left, leaving) = (life.left, life.leaving);
        if left == 0 {
            return self.leave(load, cpu, thread, leaving);
        }
        if !self.preempt(cpu, false)? {
            self.begin_quanta(load, cpu, thread);
        }
        Ok(())
    }

    /// A thread comes.
    pub(crate) fn create(&mut self, load: &Load, place: usize) -> Result<(), Stop>
        requires { load.now ≡ K.load }
    {
        let Some(plan) = load.threads().get(place) else {
            return Ok(());
        };
        let Some((step, next)) = plan.step_at(0, self.numbers.keep) else {
            return Ok(());
        };
        self.lives.push(Life {
            next,
            leaving: step.leaving,
            left: step.ticks as u64,
            blocks: 0,
        })?;
        self.refused_at.push(0)?;
        self.stage.add_waiter(load)?;
        let reply = self.stage.create(load)?;
        self.note_post(&reply)?;
        match reply {
            Reply::Posted(
                Posted {
                    thread: Some(thread),
                    ..
                },
            ) if plan.level != 0 => {
                let level = plan.level;
                self.post(Event::Env(EnvCall::SetPriority { thread, level }))
            }
            _ => Ok(()),
        }
    }

    /// A thread wakes.
    pub(crate) fn wake(&mut self, thread: Tid) -> Result<(), Stop> {
        self.post(Event::Env(EnvCall::Wake { thread }))
    }

    /// The CPUs on which a thread may run of which the delta with this place tells.
    fn mask_of(&self, place: usize) -> u64 {
        let Some(delta) = self.stage.world().sent().get(place) else {
            return 0;
        };
        let mut mask = 0;
        for part in delta.parts() {
            if let Some(state) = self.kernel().reported(part.thread()) {
                mask |= state.mask.bits();
            }
        }
        mask
    }

    /// The group of a CPU.
    pub(crate) fn group_of(&self, cpu: Cpu) -> usize {
        self.numbers.group_of(cpu)
    }

    /// The agents of the CPU's group are to take in what its agent has sent.
    fn announce(&mut self, cpu: Cpu) -> Result<(), LabFault> {
        let place = self.deltas.len();
        let mask = self.mask_of(place);
        let due = self.tick_in(self.numbers.delay as u64);
        self.deltas.push(SentDelta { sender: cpu, due })?;
        let group = self.group_of(cpu);
        let Ok(delta) = u32::try_from(place) else {
            return Err(LabFault::TooLong);
        };
        if let Some(news) = self.groups.get_mut(group) {
            news.push(News {
                mask,
                delta,
                sender: cpu,
            })?;
        }
        Ok(())
    }

    /// The agent publishes and consumes.
    fn publish(&mut self, cpu: Cpu) -> Result<(), LabFault> {
        let _: (Option<Posted>, Option<Tid>, Option<Cpu>, Option<Refusal>) = (
            None, None, None, None,
        );
        self.stage.do_event(Event::Publish { cpu, fails: false })?;
        self.stage.do_event(Event::Consume { cpu })?;
        if self.numbers.steals {
            self.announce(cpu)?;
        }
        Ok(())
    }

    /// Whether the CPU's queue holds anything.
    fn holds_news(&self, cpu: Cpu) -> bool {
        match self.kernel().queued(cpu) {
            Some((first, second)) => !first.is_empty() || !second.is_empty(),
            None => false,
        }
    }

    /// A turn of the CPU's agent begins.
    pub(crate) fn turn_begins(&mut self, cpu: Cpu) -> Result<(), LabFault> {
        let _: (Option<Posted>, Option<Tid>, Option<Cpu>, Option<Refusal>) = (
            None, None, None, None,
        );
        self.settle(cpu);
        self.lane_mut(cpu).is_due = false;
        self.stage.enter_turn(cpu);
        if self.kernel().is_asleep(cpu) {
            self.stage.do_event(Event::Agent(AgentCall::Rouse { cpu }))?;
        }
        if self.holds_news(cpu) {
            self.publish(cpu)?;
        }
        let aseq = self.kernel().aseq(cpu);
        self.lane_mut(cpu).aseq = aseq.unwrap_or(0);
        let tick = self.tick_in(self.numbers.cost as u64);
        self.agenda.put_turn_end(cpu, tick);
        Ok(())
    }

    /// A turn ends on a CPU on which a thread runs.
    fn go_on_running(&mut self, cpu: Cpu) -> Result<(), Stop> {
        if self.numbers.urgent && self.preempt(cpu, true)? {
            self.begin_turn(cpu);
            return Ok(());
        }
        self.plan_end(cpu);
        self.sleep(cpu)?;
        Ok(())
    }

    /// A turn of the CPU's agent ends.
    pub(crate) fn turn_ends(&mut self, cpu: Cpu) -> Result<(), Stop> {
        let _: (Option<Posted>, Option<Tid>, Option<Cpu>, Option<Refusal>) = (
            None, None, None, None,
        );
        self.stage.leave_turn(cpu);
        let now = self.stage.tick();
        self.lane_mut(cpu).since = now;
        if self.running(cpu).is_some() {
            return self.go_on_running(cpu);
        }
        match self.pick(cpu)? {
            Reply::Refused(Refusal::Stale(_)) => self.begin_turn(cpu),
            Reply::Refused(Refusal::NothingReady) if self.numbers.steals => {
                self.agenda.put_steal(cpu);
            }
            _ => self.sleep(cpu)?,
        }
        Ok(())
    }

    /// The agent goes to sleep; then the deltas are reported that waited for it.
    pub(crate) fn sleep(&mut self, cpu: Cpu) -> Result<(), LabFault> {
        let _: (Option<Posted>, Option<Tid>, Option<Cpu>, Option<Refusal>) = (
            None, None, None, None,
        );
        let lane = self.lane_mut(cpu);
        lane.called_for = None;
        let (aseq, is_due) = (lane.aseq, lane.is_due);
        match self
            .stage
            .do_event(Event::Agent(AgentCall::Sleep { cpu, aseq }))?
        {
            Reply::Done => {
                if self.running(cpu).is_none() && !is_due {
                    self.sleepers |= word_of(cpu);
                }
            }
            _ => self.begin_turn(cpu),
        }
        self.report_held_back(cpu);
        Ok(())
    }
}
