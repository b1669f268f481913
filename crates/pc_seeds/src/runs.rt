//! A run by a seed, from settings to its end.

ghost use Rattle.std.specs.Prelude.{◌≡◌, ◌≢◌, [], false, Ok, Err, IfOk, IfSome, length, pos, vec_len};
ghost use Rattle.pc_policy.specs.Names.{AreAll};
ghost use Rattle.pc_policy.specs.Rules.{rules_of};
ghost use Rattle.pc_threads.specs.Reports.{AddsUp, DoesAll, TellsItsBook};
ghost use Rattle.pc_threads.specs.Settings.{plan_of};
ghost use Rattle.pc_seeds.specs.Driving.{Creates, DrivesOn, HasNothingToDo, IsIdle, IsOpened, StaysInRun};
ghost use Rattle.pc_seeds.specs.Driving.{created_by, deeds_of};
ghost use Rattle.pc_seeds.specs.Ending.{IfReported, IfStalledBookTells, IsUndisturbed, NoneWaits, RestsAs};
ghost use Rattle.pc_seeds.specs.Ending.{RestsOnlyWhenDone};

use crate::draws::{Draws, Turn};
use crate::driver::{Driver, accepted};
use crate::ending::{Ended, HeldUp, Manner, Stall, held_up, is_held_up};
use crate::listed::list_all;
use pc_calls::{
    EnvCall, Limits, LimitsFault, MOST_NUMBERS, MOST_POSTS, MOST_ROOM, MOST_THREADS, Refusal,
};
use pc_delta::take_in;
use pc_join::OutOfMemory;
use pc_messages::Cpu;
use pc_policy::AgentPolicy;
use pc_protocol::{Protocol, StepFault, Told, rest_is_done};
use pc_threads::{Book, Config, LoadReport, Row, RunFault, ThreadPlan, report_on};
use pc_view::View;
use pc_world::World;
use std::alloc::{AllocError, Global};
use std::time::{Clock, Instant};

/// A run of a seed is given up behind so many steps, whatever its deadline.
const MOST_DRAWN: u64 = 1 << 40;

/// The clock is asked once in so many steps.
const STEPS_BETWEEN: u64 = 256;

/// How many turns each agent has, at least by the odds, before a run in which no thread came to run is told as stalled.
const TURNS_OF_NONE: u64 = 64;

/// The heaviest agent has so many steps for one of the lightest.
const STEPS_OF_THE_HEAVIEST: u64 = 64;

/// What creates the thread; none where its queue or its mask is no number of a CPU or of a mask.
fn creation(plan: &ThreadPlan) -> Option<EnvCall>
    ensures { IfSome result (λ call. call ≡ created_by (deeds_of (plan_of plan.now))) }
{
    Some(EnvCall::Create {
        queue: Cpu(u8::try_from(plan.queue).ok()?),
        mask: u64::try_from(plan.mask).ok()?,
        ready: true,
    })
}

/// What a step of an agent came to.
fn stepped(done: Result<Protocol, StepFault>, cpu: Cpu) -> Result<Protocol, RunFault>
    ensures done { IfOk result (λ machine. done ≡ Ok machine) }
    ensures starts { result ≢ Err RunFault.StartFailed }
{
    match done {
        Ok(machine) => Ok(machine),
        Err(StepFault::NoStep) => Err(RunFault::GaveUp(cpu)),
        Err(StepFault::OutOfMemory) => Err(RunFault::OutOfMemory),
    }
}

/// In so many steps the slowest of the agents has [`TURNS_OF_NONE`] turns by the odds: a turn is a look, a put to each
/// other agent, an act and a note.
fn most_of_none(cpus: u8) -> u64 {
    let agents = cpus as u64;
    TURNS_OF_NONE * STEPS_OF_THE_HEAVIEST * (agents + 1) * (agents + 2)
}

/// The state of a run by a seed.
#[derive(Drop)]
struct Seeded<'a> {
    config: &'a Config,
    driver: Driver,
    book: Book,
    /// How many turns each agent has begun, by CPUs.
    turns: Vec<u32>,
    told: Vec<Told>,
}

impl<'a> Seeded<'a> {
    /// A run of which nothing was done.
    fn new(alloc: Global, config: &'a Config) -> Result<Seeded<'a>, RunFault>
        ensures config { IfOk result (λ run. run.config.now ≡ config.now) }
        ensures idle { IfOk result (λ run. IsIdle config.now.threads run.driver) }
        ensures starts { result ≢ Err RunFault.StartFailed }
    {
        let book = Book::of_run(alloc, config)?;
        let mut turns = Vec::new(alloc);
        let Ok(()) = turns.resize(config.cpus() as usize, 0) else {
            return Err(RunFault::OutOfMemory);
        };
        let Ok(driver) = Driver::new(alloc, config.threads()) else {
            return Err(RunFault::OutOfMemory);
        };
        Ok(Seeded {
            config,
            driver,
            book,
            turns,
            told: Vec::new(alloc),
        })
    }

    /// Lists what was told since the last time.
    fn list(&mut self, world: &World) -> Result<(), RunFault>
        ensures config { self.new.config ≡ self.old.config }
        ensures driver { self.new.driver ≡ self.old.driver }
        ensures starts { result ≢ Err RunFault.StartFailed }
    {
        list_all(&mut self.book, world, &mut self.told)
    }

    /// Creates the threads, in order.
    fn create_all(&mut self, machine: Protocol) -> Result<Protocol, RunFault>
        ensures config { self.new.config ≡ self.old.config }
        ensures driver { self.new.driver ≡ self.old.driver }
        ensures creates { IfOk result (Creates self.old.config.now.threads machine) }
        ensures starts { result ≢ Err RunFault.StartFailed }
    {
        let mut machine = machine;
        for plan in self.config.threads() {
            let Some(call) = creation(plan) else {
                return Err(RunFault::Driver(Refusal::BadCpu));
            };
            machine = accepted(machine, call, &mut self.told)?;
        }
        self.list(machine.world())?;
        Ok(machine)
    }

    /// Another turn of the CPU's agent begins; answers whether it restarts before that.
    fn begins_turn(&mut self, cpu: Cpu) -> bool
        ensures config { self.new.config ≡ self.old.config }
        ensures driver { self.new.driver ≡ self.old.driver }
        ensures none { self.old.config.now.restarts ≡ [] → result ≡ false }
    {
        let place = cpu.index() as usize;
        if place >= self.turns.len() {
            return false;
        }
        let turn = self.turns[place].saturating_add(1);
        self.turns[place] = turn;
        self.config.restarts().iter().any(|restart| restart.cpu == cpu.index() as i64
            && restart.turn == turn as i64)
    }

    /// The CPU's agent does a step, ahead of it what its restart is.
    fn step(&mut self, machine: Protocol, cpu: Cpu, choice: usize) -> Result<Protocol, RunFault>
        ensures config { self.new.config ≡ self.old.config }
        ensures drives { self.old.config.now.restarts ≡ [] →
            IfOk result (λ new. DrivesOn self.old.config.now.threads machine self.old.driver new self.new.driver) }
        ensures starts { result ≢ Err RunFault.StartFailed }
    {
        let mut machine = machine;
        if machine.begins(cpu) && self.begins_turn(cpu) {
            machine = stepped(machine.restart(cpu, &mut self.told), cpu)?;
        }
        self.serve(machine, cpu, choice)
    }

    /// The CPU's agent does a step, and the driver is told where a thread comes to run by it.
    fn serve(&mut self, machine: Protocol, cpu: Cpu, choice: usize) -> Result<Protocol, RunFault>
        ensures config { self.new.config ≡ self.old.config }
        ensures drives { IfOk result (λ new.
            DrivesOn self.old.config.now.threads machine self.old.driver new self.new.driver) }
        ensures starts { result ≢ Err RunFault.StartFailed }
    {
        let ran = machine.world().kernel().running(cpu);
        let machine = stepped(machine.step(cpu, choice, &mut self.told), cpu)?;
        let kernel = machine.world().kernel();
        // An agent that has done a step is there: that is asked, so as not to be proved.
        if cpu.index() >= kernel.cpus() {
            return Err(RunFault::GaveUp(cpu));
        }
        let Ok(()) = self.driver.notice(cpu, ran, kernel.running(cpu)) else {
            return Err(RunFault::OutOfMemory);
        };
        Ok(machine)
    }

    /// The driver does what is next.
    fn drive(&mut self, machine: Protocol, choice: usize) -> Result<Protocol, RunFault>
        ensures config { self.new.config ≡ self.old.config }
        ensures drives { IfOk result (λ new.
            DrivesOn self.old.config.now.threads machine self.old.driver new self.new.driver) }
        ensures starts { result ≢ Err RunFault.StartFailed }
    {
        let machine = self
            .driver
            .go(machine, self.config.threads(), choice, &mut self.told)?;
        Ok(machine)
    }

    /// Does this step.
    fn take(&mut self, machine: Protocol, turn: Turn) -> Result<Protocol, RunFault>
        ensures config { self.new.config ≡ self.old.config }
        ensures drives { self.old.config.now.restarts ≡ [] →
            IfOk result (λ new. DrivesOn self.old.config.now.threads machine self.old.driver new self.new.driver) }
        ensures starts { result ≢ Err RunFault.StartFailed }
    {
        match turn {
            Turn::Driver(choice) => self.drive(machine, choice),
            Turn::Agent(cpu, choice) => self.step(machine, cpu, choice),
        }
    }

    /// Step after step, until nobody has one, or for so long no thread has come to run that none will.
    fn play<R: Clock>(
        &mut self,
        rt: &R,
        machine: Protocol,
        draws: &mut Draws,
        deadline: Option<Instant>,
    ) -> Result<Protocol, RunFault>
        ensures config { self.new.config ≡ self.old.config }
        ensures stays { self.old.config.now.restarts ≡ [] →
            IfOk result (λ new. StaysInRun self.old.config.now.threads machine self.old.driver new self.new.driver) }
        ensures nothing { IfOk result (λ _. HasNothingToDo self.new.driver) }
        ensures starts { result ≢ Err RunFault.StartFailed }
    {
        let mut machine = machine;
        let most = most_of_none(self.config.cpus());
        let mut of_none: u64 = 0;
        for number in 0..MOST_DRAWN {
            let choices = self.driver.choices();
            of_none = if choices > 0 {
                0
            } else {
                of_none.saturating_add(1)
            };
            if of_none > most {
                return Ok(machine);
            }
            let Some(turn) = draws.next(&machine, choices) else {
                return Ok(machine);
            };
            if number % STEPS_BETWEEN == 0 && is_past(rt, deadline) {
                return Err(RunFault::TimeUp);
            }
            machine = self.take(machine, turn)?;
            self.list(machine.world())?;
        }
        Err(RunFault::TimeUp)
    }
}

/// Whether the deadline is gone by. Where the clock cannot be read it is not.
fn is_past<R: Clock>(rt: &R, deadline: Option<Instant>) -> bool {
    let Some(deadline) = deadline else {
        return false;
    };
    match Instant::now(rt) {
        Ok(now) => now >= deadline,
        Err(_) => false,
    }
}

/// What the CPU's agent knows, and has in its mailbox.
fn view_of(alloc: Global, machine: &Protocol, cpu: Cpu) -> Result<View, OutOfMemory> {
    let world = machine.world();
    let mut view = View::new(alloc);
    if let Some(known) = world.view(cpu) {
        view.merge(known)?;
    }
    for index in machine.mail(cpu) {
        if let Some(delta) = world.sent().get(*index as usize) {
            take_in(&mut view, delta)?;
        }
    }
    Ok(view)
}

/// The same of the agents of CPUs 0, 1, ..
fn views_of(alloc: Global, machine: &Protocol, cpus: u8) -> Result<Vec<View>, OutOfMemory>
    ensures { IfOk result (λ views. length views.items ≡ cpus) }
{
    let mut views = Vec::new(alloc);
    for cpu in 0..cpus {
        let view = view_of(alloc, machine, Cpu(cpu))?;
        views.push(view)?;
    }
    Ok(views)
}

/// What the agents of CPUs 0, 1, .. counted.
fn rows_of(alloc: Global, world: &World, cpus: u8) -> Result<Vec<Row>, OutOfMemory> {
    let mut rows = Vec::new(alloc);
    for cpu in 0..cpus {
        if let Some(agent) = world.agent(Cpu(cpu)) {
            rows.push(Row::of(agent))?;
        }
    }
    Ok(rows)
}

/// So many copies of a policy.
fn copies_of(alloc: Global, policy: &AgentPolicy, many: u8) -> Result<Vec<AgentPolicy>, AllocError>
    ensures { IfOk result (λ copies. AreAll (rules_of policy.now) many copies.items) }
{
    let mut copies = Vec::new(alloc);
    for _ in 0..many {
        let copy = policy.try_copy()?;
        copies.push(copy)?;
    }
    Ok(copies)
}

/// The machine of a run at its start, whose agents all go by a copy of the policy.
fn machine_of(alloc: Global, config: &Config, policy: &AgentPolicy) -> Result<Protocol, RunFault>
    ensures opened { IfOk result (IsOpened (rules_of policy.now)) }
    ensures starts { result ≢ Err RunFault.StartFailed }
{
    let cpus = config.cpus();
    let limits = Limits {
        cpus,
        threads: MOST_THREADS,
        numbers: MOST_NUMBERS,
        room: MOST_ROOM,
        posts: MOST_POSTS,
    };
    let Ok(policies) = copies_of(alloc, policy, cpus) else {
        return Err(RunFault::OutOfMemory);
    };
    match Protocol::new(alloc, limits, &policies) {
        Ok(machine) => Ok(machine),
        Err(LimitsFault::OutOfMemory) => Err(RunFault::OutOfMemory),
        Err(LimitsFault::BadLimits(_)) => Err(RunFault::Unaccounted),
    }
}

/// The stall of a run in which this thread is held up.
fn stall_of(machine: &Protocol, driver: &Driver, held: HeldUp) -> Stall
    ensures thread { result.thread ≡ held.thread }
    ensures cpu { result.cpu ≡ held.cpu }
    ensures rests { RestsAs machine.now driver.now result }
{
    let HeldUp { thread, cpu } = held;
    let manner = if machine.is_at_rest() && driver.is_idle() {
        Manner::AtRest
    } else {
        Manner::Asking
    };
    Stall {
        thread,
        cpu,
        manner,
    }
}

/// The report of a run in which no thread is held up.
fn reported(
    alloc: Global,
    config: &Config,
    book: Book,
    machine: &Protocol,
) -> Result<LoadReport, RunFault>
    ensures tells { IfOk result TellsItsBook }
    ensures adds_up { IfOk result AddsUp }
    ensures all { IfOk result (DoesAll config.now) }
    ensures rows { IfOk result (λ report. pos (vec_len report.rows) ≡ config.now.cpus) }
    ensures book { IfOk result (λ report. report.book ≡ book) }
    ensures starts { result ≢ Err RunFault.StartFailed }
{
    config.is_sound();
    let cpus = config.cpus();
    let Ok(views) = views_of(alloc, machine, cpus) else {
        return Err(RunFault::OutOfMemory);
    };
    let Ok(rows) = rows_of(alloc, machine.world(), cpus) else {
        return Err(RunFault::OutOfMemory);
    };
    report_on(alloc, config, book, views.as_slice(), rows)
}

/// Runs the agents of these settings in one thread, where whose step is next is drawn by a seed: some agents are slow,
/// and notes overtake each other (own). The same seed gives the same run, and its book, on every machine.
///
/// It stalls where a thread waits for a CPU that idles, and nobody has a step left, or agents ask each other for so
/// long that no thread will come to run by it. Nobody has a step left then only where an agent restarted, or steals are
/// exact and the policy gives a thread no rank. Faults are those of a run in threads, but `StartFailed`; it is given up
/// (`TimeUp`) at its deadline.
pub fn run_by_seed<R: Clock>(
    rt: &R,
    alloc: Global,
    config: &Config,
    policy: &AgentPolicy,
    seed: u64,
    deadline: Option<Instant>,
) -> Result<Ended, RunFault>
    ensures tells { IfOk result (IfReported TellsItsBook) }
    ensures adds_up { IfOk result (IfReported AddsUp) }
    ensures all { IfOk result (IfReported (DoesAll config.now)) }
    ensures rows { IfOk result (IfReported (λ report. pos (vec_len report.rows) ≡ config.now.cpus)) }
    ensures none_waits { IfOk result (IfReported (λ report. NoneWaits config.now report.book.kernel)) }
    ensures stalled { IfOk result (IfStalledBookTells config.now) }
    ensures rests { IsUndisturbed config.now (rules_of policy.now) → IfOk result RestsOnlyWhenDone }
    ensures starts { result ≢ Err RunFault.StartFailed }
{
    rest_is_done();
    config.is_sound();
    let mut run = Seeded::new(alloc, config)?;
    let Ok(mut draws) = Draws::new(alloc, seed, config.cpus()) else {
        return Err(RunFault::OutOfMemory);
    };
    let machine = machine_of(alloc, config, policy)?;
    let machine = run.create_all(machine)?;
    let machine = run.play(rt, machine, &mut draws, deadline)?;
    let Seeded { driver, book, .. } = run;
    if let Some(held) = held_up(book.kernel(), config) {
        // The machine's kernel is as the book's: that is asked, so as not to be proved.
        if !is_held_up(machine.world().kernel(), held.thread, held.cpu) {
            return Err(RunFault::Unaccounted);
        }
        book.is_replay();
        let stall = stall_of(&machine, &driver, held);
        return Ok(Ended::Stalled(stall, book));
    }
    let report = reported(alloc, config, book, &machine)?;
    Ok(Ended::Reported(report))
}
