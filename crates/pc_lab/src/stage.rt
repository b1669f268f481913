//! A world on which a load is played: each event is told and counted, and the time of each CPU is accounted for.

ghost use Rattle.std.specs.Prelude.{◌≡◌, ◌+◌, ℕ, None, [], All, IfOk, is_some, if◌then◌else◌};
ghost use Rattle.pc_lab.specs.Creations.{CreatesNone, creation_at, creation_in};
ghost use Rattle.pc_lab.specs.Moments.{IsPlayable};
ghost use Rattle.pc_lab.specs.Playing.{IsPlayedBy};
ghost use Rattle.pc_lab.specs.Stages.{Holds, MayCome};
ghost use Rattle.pc_lab.specs.Times.{IsWhole};

use crate::account::check_account;
use crate::chronicle::Chronicle;
use crate::counted::{Tally, one_more};
use crate::fault::LabFault;
use crate::player::limits_of;
use crate::ranges::is_in_range;
use crate::summary::{Played, RunEnding, Summary};
use crate::times::Times;
use crate::waits::Waits;
use pc_calls::{EnvCall, Event, Posted, Profile, Refusal, Reply};
use pc_load::Load;
use pc_messages::{Cpu, Tid};
use pc_policy::{AgentPolicy, PolicyName};
use pc_world::World;
use std::alloc::Global;
use std::marker::{Brand, Model, PhantomData};

/// What a run is played by: the load, the policy, whether recorded preempts are kept, and the text that stands before
/// its events. Each call of a run picks it.
pub(crate) trait Setting {
    ghost use Rattle.std.specs.Prelude.{ℕ, Bool, List};
    ghost use Rattle.pc_load.specs.Loads.{Demand};
    ghost use Rattle.pc_policy.specs.declared.named.PolicyName.{PolicyName};

    ghost load: { Demand };

    ghost policy: { PolicyName };

    ghost keep: { Bool };

    ghost before: { List ℕ };
}

impl Setting for Brand {
    ghost use Rattle.std.specs.Prelude.{pos, false, []};
    ghost use Rattle.pc_load.specs.Loads.{demand};
    ghost use Rattle.pc_policy.specs.declared.named.OrderName.TheVariants.{Levels};

    ghost load = { demand (pos 1) (pos 0) [] };

    ghost policy = { record { order = Levels; exact = false } };

    ghost keep = { false };

    ghost before = { [] };
}

/// A world, what was kept of its events, the tick of now, and how many threads have come. Contracts see it as the last
/// two.
#[derive(Drop)]
pub(crate) struct Stage<K: Setting> {
    alloc: Global,
    world: World,
    chronicle: Chronicle,
    /// The tick at which the last event was taken.
    told: Option<u64>,
    tick: u64,
    came: usize,
    events: u64,
    tally: Tally,
    waits: Waits,
    times: Times,
    /// An event was begun that did not come to its end: nothing is said of the world then.
    is_cut: bool,
    of: PhantomData<K>,
}

impl<K: Setting> Model for Stage<K> {
    ghost use Rattle.std.specs.Prelude.{◌≡◌, ◌≤◌, false, length, All, IfSome};
    ghost use Rattle.pc_lab.specs.Limits.{limits_for};
    ghost use Rattle.pc_lab.specs.Stages.{IsRun, Now};
    ghost use Rattle.pc_lab.specs.Times.{IsKept};

    ghost Value = { Now };

    ghost view = { λ s. record { tick = s.tick; came = s.came } };

    ghost invariant = { λ s. (s.is_cut ≡ false → IsRun K.load K.policy K.before s.world s.chronicle s.told s.events
        s.tally s.waits.ended.items s.waits.waiters.items s.came) × IfSome s.told (λ tick. tick ≤ s.tick)
        × All (IsKept s.tick) s.times.accounts.items
        × (length s.times.accounts.items ≡ (limits_for K.load).cpus) };
}

/// Whether an event asks for a creation.
const fn creates(event: &Event) -> bool
    ensures { (tick : ℕ) → result ≡ is_some (creation_at tick event.now) }
{
    match *event {
        Event::Env(EnvCall::Create { .. }) => true,
        _ => false,
    }
}

/// Whether a thread came by an event with its reply.
const fn has_come(event: &Event, reply: &Reply) -> bool
    ensures { (tick : ℕ) → result
        ≡ is_some (creation_in (record { tick = tick; event = event.now; reply = reply.now })) }
{
    match *reply {
        Reply::Posted(_) => creates(event),
        _ => false,
    }
}

/// So many, and one more if it is so.
fn with_one(count: usize, is_more: bool) -> Result<usize, LabFault>
    ensures { IfOk result (λ more. more ≡ count + (if is_more then 1 else 0)) }
{
    if !is_more {
        return Ok(count);
    }
    match count.checked_add(1) {
        Some(more) => Ok(more),
        None => Err(LabFault::TooLong),
    }
}

impl<K: Setting> Stage<K> {
    /// The world at its start, at tick 0.
    pub(crate) fn open(
        alloc: Global,
        load: &Load,
        policy: PolicyName,
        chronicle: Chronicle,
    ) -> Result<Stage<K>, LabFault>
        requires load { load.now ≡ K.load }
        requires policy { policy ≡ K.policy }
        requires before { Holds K.before chronicle [] }
    {
        let limits = limits_of(load);
        let policies = AgentPolicy::for_each(alloc, policy, limits.cpus)?;
        let times = Times::new(alloc, limits.cpus)?;
        let world = match World::new_by(alloc, Profile::One, limits, policies.as_slice()) {
            Ok(world) => world,
            // The limits of a load are within their ranges.
            Err(_) => return Err(LabFault::OutOfMemory),
        };
        Ok(Stage {
            alloc,
            world,
            chronicle,
            told: None,
            tick: 0,
            came: 0,
            events: 0,
            tally: Tally::new(),
            waits: Waits::new(alloc),
            times,
            is_cut: false,
            of: PhantomData,
        })
    }

    /// The world.
    pub(crate) fn world(&self) -> &World {
        &self.world
    }

    /// The tick of now.
    pub(crate) fn tick(&self) -> u64
        ensures { result ≡ self.now.tick }
    {
        self.tick
    }

    /// The load's next thread is one whose waits are to be told.
    pub(crate) fn add_waiter(&mut self, load: &Load) -> Result<(), LabFault>
        requires { load.now ≡ K.load }
    {
        let threads = load.threads();
        let place = self.waits.threads();
        if place >= threads.len() {
            return Err(LabFault::Unaccounted);
        }
        let plan = &threads[place];
        self.waits.add(plan.mask, plan.level)
    }

    /// Takes an event. Where it is a creation, it is that of the load's next thread.
    fn take_event(&mut self, event: Event) -> Result<Reply, LabFault>
        requires { MayCome K.load self.old event × IsPlayable event }
    {
        // The checker finds the types that a reply nests only where the function names them.
        let _: (Option<Posted>, Option<Tid>, Option<Cpu>, Option<Refusal>) = (
            None, None, None, None,
        );
        if self.is_cut {
            return Err(LabFault::OutOfMemory);
        }
        self.is_cut = true;
        self.times
            .settle_for(self.world.kernel(), &event, self.tick);
        let Ok(reply) = self.world.step(event) else {
            return Err(LabFault::OutOfMemory);
        };
        is_in_range(event);
        self.chronicle.add(self.told, self.tick, &event)?;
        self.told = Some(self.tick);
        self.events = one_more(self.events)?;
        self.tally.add(&event, &reply)?;
        self.waits.note(&event, &reply, self.tick)?;
        self.came = with_one(self.came, has_come(&event, &reply))?;
        self.times
            .want(self.world.kernel(), self.waits.wanted.word, self.tick);
        self.is_cut = false;
        Ok(reply)
    }

    /// Takes an event that is no creation.
    pub(crate) fn do_event(&mut self, event: Event) -> Result<Reply, LabFault>
        requires { CreatesNone event × IsPlayable event }
    {
        self.take_event(event)
    }

    /// Creates the load's next thread, at its start.
    pub(crate) fn create(&mut self, load: &Load) -> Result<Reply, LabFault>
        requires { load.now ≡ K.load }
    {
        let threads = load.threads();
        if self.came >= threads.len() {
            return Err(LabFault::Unaccounted);
        }
        let plan = &threads[self.came];
        if plan.start as u64 != self.tick {
            return Err(LabFault::Unaccounted);
        }
        self.take_event(Event::Env(EnvCall::Create {
            queue: plan.queue,
            mask: plan.mask,
            ready: true,
        }))
    }

    /// Goes on to a tick, unless it is gone by.
    pub(crate) fn advance(&mut self, now: u64) {
        if now <= self.tick {
            return;
        }
        self.tick = now;
    }

    /// Whether the CPU's agent is in a turn.
    pub(crate) fn is_in_turn(&self, cpu: Cpu) -> bool {
        self.times.is_in_turn(cpu)
    }

    /// The CPU's agent is in a turn from now on.
    pub(crate) fn enter_turn(&mut self, cpu: Cpu) {
        self.times.enter_turn(self.world.kernel(), cpu, self.tick);
    }

    /// The CPU's agent is in no turn from now on.
    pub(crate) fn leave_turn(&mut self, cpu: Cpu) {
        self.times.leave_turn(self.world.kernel(), cpu, self.tick);
    }

    /// The run ends; none of a world of which nothing is said, and none that is done and does not add up to the load.
    pub(crate) fn end(
        self,
        alloc: Global,
        load: &Load,
        keep: bool,
        ending: RunEnding,
        switches: u64,
        preempts: u64,
    ) -> Result<Played, LabFault>
        requires load { load.now ≡ K.load }
        requires keep { keep ≡ K.keep }
        ensures { IfOk result (IsPlayedBy K.load K.policy K.keep K.before) }
    {
        if self.is_cut {
            return Err(LabFault::OutOfMemory);
        }
        let unended = self.waits.unended(self.world.kernel(), self.tick)?;
        let times = self
            .times
            .up_to(self.alloc, self.world.kernel(), self.tick)?;
        let Stage {
            world,
            chronicle,
            tick,
            events,
            tally,
            waits,
            ..
        } = self;
        let Waits { ended, .. } = waits;
        let summary = Summary {
            ending,
            makespan: tick,
            events,
            tally,
            switches,
            preempts,
            waits: ended,
            unended,
            times,
        };
        check_account(alloc, load, keep, world.kernel(), &summary)?;
        Ok(Played { chronicle, summary })
    }
}
