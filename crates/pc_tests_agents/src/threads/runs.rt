//! Runs of agents in threads, whatever the schedule.

use pc_messages::{Cpu, Tid};
use pc_threads::{
    AgentCall, Answer, Call, Config, Gate, LoadReport, OpenGate, Point, Restart, Row, RunFault,
    Step, ThreadPlan, run_agents,
};
use std::alloc::Global;
use std::process::Abort;
use std::sync::Wait;
use std::sync::atomic::{AtomicU64, Ordering};
use std::thread;
use std::thread::Threads;
use std::time::{Clock, Duration, Instant};

/// A thread by its queue, its mask and its steps.
pub(crate) type Plan<'a> = (i64, i64, &'a [Step]);

fn add_plan(alloc: Global, threads: &mut Vec<ThreadPlan>, plan: &Plan<'_>) -> bool {
    match Vec::from_slice(alloc, plan.2) {
        Ok(steps) => {
            let thread = ThreadPlan {
                queue: plan.0,
                mask: plan.1,
                steps,
            };
            threads.push(thread).is_ok()
        }
        Err(_) => false,
    }
}

fn add_plans(alloc: Global, threads: &mut Vec<ThreadPlan>, plans: &[Plan<'_>]) -> bool {
    for plan in plans {
        if !add_plan(alloc, threads, plan) {
            return false;
        }
    }
    true
}

fn add_restarts(restarts: &mut Vec<Restart>, turns: &[(i64, i64)]) -> bool {
    for (cpu, turn) in turns {
        let restart = Restart {
            cpu: *cpu,
            turn: *turn,
        };
        if restarts.push(restart).is_err() {
            return false;
        }
    }
    true
}

/// Settings of these CPUs, threads and restarts (their CPU and turn), where they are accepted.
pub(crate) fn config(
    alloc: Global,
    cpus: i64,
    plans: &[Plan<'_>],
    turns: &[(i64, i64)],
) -> Option<Config> {
    let mut threads = Vec::new(alloc);
    let mut restarts = Vec::new(alloc);
    if add_plans(alloc, &mut threads, plans) && add_restarts(&mut restarts, turns) {
        Config::new(cpus, threads, restarts).ok()
    } else {
        None
    }
}

/// A thread that may run on two CPUs: it yields, blocks and dies.
pub(crate) const LIFE: Plan<'static> = (0, 3, &[Step::Yield(2), Step::Block(3), Step::Die(1)]);

/// Threads, messages, commits and ticks.
pub(crate) fn totals(report: &LoadReport) -> [u64; 4] {
    [report.threads, report.messages, report.commits, report.ran]
}

/// Items consumed, threads committed and taken over, and refusals: stale, pending, others.
fn counts(row: &Row) -> [u64; 6] {
    [
        row.taken,
        row.commits,
        row.steals,
        row.stale,
        row.pending,
        row.other,
    ]
}

/// What is so after a run.
#[derive(Clone, Copy)]
pub(crate) enum Fact<'a> {
    /// Threads, messages, commits and ticks.
    Totals([u64; 4]),
    /// How many threads the book's kernel has.
    Threads(u32),
    /// The thread's message of this number is known.
    Knows(u32, u32),
    /// How many agents counted.
    Rows(usize),
    FirstCpu(u8),
    LastCpu(u8),
    /// Items consumed, threads committed and taken over, and refusals: stale, pending, others.
    FirstCounts([u64; 6]),
    /// The same, of each agent.
    EachCounts([u64; 6]),
    /// Some agent took a thread over.
    SomeSteal,
    /// So many picks and steals of the second agent were refused as stale.
    SecondStale(u64),
    /// So many steals were refused as messages were pending.
    Pending(u64),
    /// What the first agent was refused by name: busy, nothing ready, nothing to steal, dead.
    FirstRefused([u64; 4]),
    /// The same, of the last agent: dead alone.
    LastDead(u64),
    /// How many calls woke the second agent, which started again.
    Rouses(usize),
    /// Fewer calls than that are listed.
    FewerCalls(usize),
    /// The calls that the book lists.
    Calls(&'a [(Call, Answer)]),
    /// The first calls that the book lists.
    FirstCalls(&'a [(Call, Answer)]),
}

/// Refusals by name: busy, nothing ready, nothing to steal, dead.
fn refused(row: &Row) -> [u64; 4] {
    [row.busy, row.nothing_ready, row.nothing_to_steal, row.dead]
}

/// How many steals were refused as messages were pending.
fn pending(rows: &[Row]) -> u64 {
    let mut all: u64 = 0;
    for row in rows {
        all = all.saturating_add(row.pending);
    }
    all
}

fn is_of(row: Option<&Row>, cpu: u8) -> bool {
    match row {
        Some(row) => row.cpu == Cpu(cpu),
        None => false,
    }
}

fn has_counted(row: Option<&Row>, wanted: [u64; 6]) -> bool {
    match row {
        Some(row) => counts(row) == wanted,
        None => false,
    }
}

fn each_counted(rows: &[Row], wanted: [u64; 6]) -> bool {
    for row in rows {
        if counts(row) != wanted {
            return false;
        }
    }
    true
}

fn is_so_of(rows: &[Row], fact: &Fact<'_>) -> bool {
    match *fact {
        Fact::Rows(wanted) => rows.len() == wanted,
        Fact::FirstCpu(cpu) => is_of(rows.first(), cpu),
        Fact::LastCpu(cpu) => is_of(rows.last(), cpu),
        Fact::FirstCounts(wanted) => has_counted(rows.first(), wanted),
        Fact::EachCounts(wanted) => each_counted(rows, wanted),
        Fact::SomeSteal => rows.iter().any(|row| row.steals >= 1),
        Fact::SecondStale(wanted) => rows.get(1).map(|row| row.stale) == Some(wanted),
        Fact::Pending(wanted) => pending(rows) == wanted,
        Fact::FirstRefused(wanted) => rows.first().map(refused) == Some(wanted),
        Fact::LastDead(wanted) => rows.last().map(|row| row.dead) == Some(wanted),
        _ => false,
    }
}

/// How many of the calls wake the second agent, which started again.
fn rouses(calls: &[(Call, Answer)]) -> usize {
    calls
        .iter()
        .filter(|entry| matches!(entry.0, Call::Agent(AgentCall::Rouse { cpu: Cpu(1) })))
        .count()
}

fn begins_with(calls: &[(Call, Answer)], wanted: &[(Call, Answer)]) -> bool {
    calls.get(..wanted.len()) == Some(wanted)
}

fn is_so(report: &LoadReport, fact: &Fact<'_>) -> bool {
    match *fact {
        Fact::Totals(wanted) => totals(report) == wanted,
        Fact::Threads(wanted) => report.book.kernel().threads() == wanted,
        Fact::Knows(thread, number) => report.view.knows(Tid(thread), number),
        Fact::Calls(wanted) => report.book.calls() == wanted,
        Fact::FirstCalls(wanted) => begins_with(report.book.calls(), wanted),
        Fact::Rouses(wanted) => rouses(report.book.calls()) == wanted,
        Fact::FewerCalls(most) => report.book.calls().len() < most,
        _ => is_so_of(report.rows.as_slice(), fact),
    }
}

/// The place of the first fact that is not so after the run. Nothing where there is no report.
pub(crate) fn first_wrong(report: Option<LoadReport>, facts: &[Fact<'_>]) -> Option<Option<usize>> {
    match report {
        Some(report) => Some(first_wrong_of(&report, facts)),
        None => None,
    }
}

fn first_wrong_of(report: &LoadReport, facts: &[Fact<'_>]) -> Option<usize> {
    for (place, fact) in facts.iter().enumerate() {
        if !is_so(report, fact) {
            return Some(place);
        }
    }
    None
}

/// What a run of these settings comes to, behind a gate. Nothing where the settings are refused.
pub(crate) fn gated_run<R: Threads + Wait + Clock + Sync, G: Gate + Sync>(
    rt: &R,
    alloc: Global,
    cpus: i64,
    plans: &[Plan<'_>],
    turns: &[(i64, i64)],
    gate: &G,
) -> Option<Result<LoadReport, RunFault>> {
    match config(alloc, cpus, plans, turns) {
        Some(config) => Some(run_agents(rt, alloc, &config, gate)),
        None => None,
    }
}

/// What a run of these settings comes to.
pub(crate) fn run<R: Threads + Wait + Clock + Sync>(
    rt: &R,
    alloc: Global,
    cpus: i64,
    plans: &[Plan<'_>],
    turns: &[(i64, i64)],
) -> Option<LoadReport> {
    gated_run(rt, alloc, cpus, plans, turns, &OpenGate)?.ok()
}

/// The facts are so after a run of these settings.
pub(crate) fn comes_to<R: Abort + Threads + Wait + Clock + Sync>(
    rt: &R,
    alloc: Global,
    cpus: i64,
    plans: &[Plan<'_>],
    turns: &[(i64, i64)],
    facts: &[Fact<'_>],
) {
    let wrong = first_wrong(run(rt, alloc, cpus, plans, turns), facts);
    assert_eq!(rt; wrong, Some(None));
}

#[test]
fn a_thread_that_yields_blocks_and_dies(rt: HostRuntime) {
    const FACTS: [Fact<'static>; 4] = [
        Fact::Totals([1, 5, 3, 6]),
        Fact::Rows(2),
        Fact::Threads(1),
        Fact::Knows(0, 5),
    ];
    comes_to(&rt, rt.alloc(), 2, &[LIFE], &[], &FACTS);
}

#[test]
fn without_threads_each_agent_looks_once(rt: HostRuntime) {
    const FACTS: [Fact<'static>; 6] = [
        Fact::Totals([0, 0, 0, 0]),
        Fact::Rows(2),
        Fact::FirstCpu(0),
        Fact::LastCpu(1),
        Fact::EachCounts([0, 0, 0, 0, 0, 2]),
        Fact::FirstRefused([0, 1, 1, 0]),
    ];
    comes_to(&rt, rt.alloc(), 2, &[], &[], &FACTS);
}

#[test]
fn one_thread_on_one_cpu(rt: HostRuntime) {
    const PLANS: [Plan<'static>; 1] = [(0, 1, &[Step::Yield(1), Step::Die(2)])];
    const FACTS: [Fact<'static>; 3] = [
        Fact::Totals([1, 3, 2, 3]),
        Fact::Rows(1),
        Fact::FirstCounts([3, 2, 0, 0, 0, 2]),
    ];
    comes_to(&rt, rt.alloc(), 1, &PLANS, &[], &FACTS);
}

#[test]
fn three_threads_on_two_cpus(rt: HostRuntime) {
    const PLANS: [Plan<'static>; 3] = [
        (0, 1, &[Step::Yield(1), Step::Die(1)]),
        (1, 2, &[Step::Block(2), Step::Die(2)]),
        (0, 3, &[Step::Preempt(4), Step::Die(5)]),
    ];
    const FACTS: [Fact<'static>; 1] = [Fact::Totals([3, 10, 6, 15])];
    comes_to(&rt, rt.alloc(), 2, &PLANS, &[], &FACTS);
}

// Each agent whose steal is refused asks 63 others, and each of these answers. Where all of that waited, one thread of
// three steps was not done after 20 seconds.
#[test]
fn a_thread_that_sixty_four_agents_would_have(rt: HostRuntime) {
    const FACTS: [Fact<'static>; 2] = [Fact::Totals([1, 5, 3, 6]), Fact::Rows(64)];
    comes_to(&rt, rt.alloc(), 64, &[(0, i64::MAX, LIFE.2)], &[], &FACTS);
}

#[test]
fn agents_that_restart(rt: HostRuntime) {
    const FACTS: [Fact<'static>; 1] = [Fact::Totals([1, 5, 3, 6])];
    comes_to(&rt, rt.alloc(), 2, &[LIFE], &[(0, 2)], &FACTS);
    comes_to(&rt, rt.alloc(), 2, &[LIFE], &[(1, 1)], &FACTS);
}

#[test]
fn a_restarted_agent_takes_its_thread_back(rt: HostRuntime) {
    const PLANS: [Plan<'static>; 2] = [
        (0, 1, &[Step::Yield(2), Step::Die(1)]),
        (0, 1, &[Step::Yield(2), Step::Die(1)]),
    ];
    const FACTS: [Fact<'static>; 2] = [Fact::Totals([2, 6, 4, 6]), Fact::SomeSteal];
    comes_to(&rt, rt.alloc(), 2, &PLANS, &[(0, 2)], &FACTS);
}

/// Gives every run up, where this agent comes.
#[derive(Drop)]
struct ShutGate {
    cpu: Cpu,
}

impl Gate for ShutGate {
    fn pass(&self, cpu: Cpu, _point: Point) -> bool {
        cpu != self.cpu
    }
}

/// How a run of so many agents is given up by this one.
fn given_up<R: Threads + Wait + Clock + Sync>(
    rt: &R,
    alloc: Global,
    cpus: i64,
    plans: &[Plan<'_>],
    cpu: Cpu,
) -> Option<RunFault> {
    gated_run(rt, alloc, cpus, plans, &[], &ShutGate { cpu })?.err()
}

#[test]
fn a_gate_gives_the_run_up(rt: HostRuntime) {
    const PLANS: [Plan<'static>; 1] = [(0, 1, &[Step::Yield(1), Step::Die(2)])];
    assert_eq!(rt;
        given_up(&rt, rt.alloc(), 1, &PLANS, Cpu(0)),
        Some(RunFault::GaveUp(Cpu(0)))
    );
}

// The driver is told by the agent where there is something to do, and by its thread's end where there is nothing.
#[test]
fn who_gave_the_run_up_is_told(rt: HostRuntime) {
    const PLANS: [Plan<'static>; 1] = [(2, 4, &[Step::Yield(1), Step::Die(2)])];
    assert_eq!(rt;
        given_up(&rt, rt.alloc(), 3, &PLANS, Cpu(2)),
        Some(RunFault::GaveUp(Cpu(2)))
    );
    assert_eq!(rt;
        given_up(&rt, rt.alloc(), 3, &[], Cpu(1)),
        Some(RunFault::GaveUp(Cpu(1)))
    );
}

/// A gate that gives every run up at this time.
#[derive(Drop)]
struct TimedGate {
    deadline: Option<Instant>,
}

impl Gate for TimedGate {
    fn pass(&self, _cpu: Cpu, _point: Point) -> bool {
        true
    }

    fn deadline(&self) -> Option<Instant> {
        self.deadline
    }
}

/// How the run of one thread is given up that has so much time.
fn timed_out<R: Threads + Wait + Clock + Sync>(
    rt: &R,
    alloc: Global,
    time: Duration,
) -> Option<RunFault> {
    let deadline = Instant::now(rt).ok()?.checked_add(time);
    gated_run(rt, alloc, 2, &[LIFE], &[], &TimedGate { deadline })?.err()
}

#[test]
fn a_run_is_given_up_at_its_deadline(rt: HostRuntime) {
    let (none, an_hour) = (Duration::from_millis(0), Duration::from_secs(3_600));
    assert_eq!(rt; timed_out(&rt, rt.alloc(), none), Some(RunFault::TimeUp));
    assert_eq!(rt; timed_out(&rt, rt.alloc(), an_hour), None);
}

/// Holds one agent at a point until the other one has decided, and the other one where its turns begin until this one
/// has come to that point: each for 10,000 turns of a millisecond.
#[derive(Drop)]
struct Holding<'a, R: Clock> {
    rt: &'a R,
    held: Cpu,
    at: Point,
    /// 1 where the held agent has come to the point.
    come: AtomicU64,
    /// 1 where the other agent has decided.
    decided: AtomicU64,
}

impl<'a, R: Clock> Holding<'a, R> {
    /// Whether that is so in time.
    fn waits(&self, is_so: &AtomicU64) -> bool {
        for _ in 0..10_000 {
            if is_so.load(Ordering::SeqCst) == 1 {
                return true;
            }
            thread::sleep(self.rt, Duration::from_millis(1));
        }
        false
    }
}

impl<'a, R: Clock> Gate for Holding<'a, R> {
    fn pass(&self, cpu: Cpu, point: Point) -> bool {
        if cpu == self.held {
            if point != self.at {
                return true;
            }
            self.come.store(1, Ordering::SeqCst);
            return self.waits(&self.decided);
        }
        match point {
            Point::Turn => self.waits(&self.come),
            Point::Copied | Point::Sent => true,
            Point::Answered => {
                self.decided.store(1, Ordering::SeqCst);
                true
            }
        }
    }
}

/// A run in which one agent waits at a point for the other one.
fn held_run<R: Threads + Wait + Clock + Sync>(
    rt: &R,
    alloc: Global,
    held: Cpu,
    at: Point,
) -> Option<LoadReport> {
    let gate = Holding {
        rt,
        held,
        at,
        come: AtomicU64::new(0),
        decided: AtomicU64::new(0),
    };
    gated_run(rt, alloc, 2, &[LIFE], &[], &gate)?.ok()
}

/// The run comes to its end, in which one agent waits at a point for the other one.
fn comes_through<R: Abort + Threads + Wait + Clock + Sync>(
    rt: &R,
    alloc: Global,
    held: Cpu,
    at: Point,
) {
    const FACTS: [Fact<'static>; 1] = [Fact::Totals([1, 5, 3, 6])];
    let wrong = first_wrong(held_run(rt, alloc, held, at), &FACTS);
    assert_eq!(rt; wrong, Some(None));
}

#[test]
fn agents_have_threads_of_their_own(rt: HostRuntime) {
    comes_through(&rt, rt.alloc(), Cpu(0), Point::Turn);
    comes_through(&rt, rt.alloc(), Cpu(1), Point::Turn);
}

#[test]
fn no_lock_is_held_between_copying_and_deciding(rt: HostRuntime) {
    comes_through(&rt, rt.alloc(), Cpu(0), Point::Copied);
    comes_through(&rt, rt.alloc(), Cpu(1), Point::Copied);
}
