//! The agents' threads, from their start to their end.

ghost use Rattle.std.specs.Prelude.{pos, ◌≡◌, ◌+◌, ◌<◌, [], ◌∷◌, IfOk, OnOk, length, vec_len};
ghost use Rattle.pc_agent.specs.Shows.{cpu_of, rules_in};
ghost use Rattle.pc_policy.specs.Rules.{rules_of};
ghost use Rattle.pc_threads.specs.Inner.Shares.{HasDone, idle};

use crate::book::RunFault;
use crate::report::Row;
use crate::runner::channels::Channels;
use crate::runner::desk::Desk;
use crate::runner::faults::fault_of;
use crate::runner::gate::Gate;
use crate::runner::ledgers::{Names, Pool};
use crate::runner::turns::{Served, serve};
use crate::runner::worker::Worker;
use crate::settings::Config;
use pc_agent::Agent;
use pc_messages::Cpu;
use pc_policy::AgentPolicy;
use pc_view::View;
use std::alloc::Global;
use std::collections::VecDeque;
use std::sync::Wait;
use std::thread::{JoinHandle, Scope, Threads};

/// An agent for the CPU that goes by this policy, with its shares.
fn lend<N: Names>(pool: &mut Pool<N>, alloc: Global, cpu: Cpu, policy: AgentPolicy) -> Worker<N>
    requires some { 0 < pool.old.agents }
    requires nothing { pool.old ≡ idle pool.old.agents }
    ensures cpu { cpu_of result.agent ≡ cpu }
    ensures rules { rules_in result.agent ≡ rules_of policy }
    ensures fewer { pool.new.agents + 1 ≡ pool.old.agents }
    ensures nothing { pool.new ≡ idle pool.new.agents }
{
    let committed = pool.committed.split_off(1, 0);
    let taken_over = pool.taken_over.split_off(1, 0);
    let consumed = pool.consumed.split_off(1, 0);
    let agent = Agent::with_policy(alloc, cpu, policy);
    Worker::new(agent, committed, taken_over, consumed)
}

/// Takes an agent's shares back, and gives what it counted and what it knows.
fn take_back<N: Names>(pool: &mut Pool<N>, worker: Worker<N>) -> (Row, View)
    ensures { HasDone (result.0 ∷ []) pool.old pool.new }
{
    let Worker {
        agent,
        committed,
        taken_over,
        consumed,
        ..
    } = worker;
    pool.committed.merge(committed);
    pool.taken_over.merge(taken_over);
    pool.consumed.merge(consumed);
    (Row::of(&agent), agent.into_view())
}

/// Starts an agent's thread.
fn start<'s, 'e, N: Names + Send + Sync + 's, R: Wait + Sync, G: Gate + Sync>(
    scope: &'s Scope<'s, &'e ()>,
    rt: &'s R,
    gate: &'s G,
    config: &'s Config,
    desk: &'s Desk<N>,
    worker: Worker<N>,
) -> Result<JoinHandle<Served<N>>, RunFault>
where
    N::Cpus: Send + Sync,
    N::Created: Send + Sync,
    N::Told: Send + Sync,
    N::Ran: Send + Sync,
    N::Left: Send + Sync,
    N::Died: Send + Sync,
    N::Committed: Send + Sync,
    N::TakenOver: Send + Sync,
    N::Consumed: Send + Sync,
{
    match scope.spawn(move || serve(rt, gate, config, desk, worker)) {
        Ok(handle) => Ok(handle),
        Err(_) => Err(RunFault::StartFailed),
    }
}

/// An agent for the CPU that goes by the run's policy, with its shares.
fn hire<N: Names>(desk: &Desk<N>, pool: &mut Pool<N>, cpu: Cpu) -> Result<Worker<N>, RunFault>
    requires some { 0 < pool.old.agents }
    requires nothing { pool.old ≡ idle pool.old.agents }
    ensures fewer { OnOk result (pool.new.agents + 1 ≡ pool.old.agents) }
    ensures nothing { OnOk result (pool.new ≡ idle pool.new.agents) }
{
    let policy = desk.policy.try_copy()?;
    Ok(lend(pool, desk.alloc, cpu, policy))
}

/// Starts a thread for each CPU's agent.
pub(crate) fn start_all<'s, 'e, N: Names + Send + Sync + 's, R: Wait + Sync, G: Gate + Sync>(
    scope: &'s Scope<'s, &'e ()>,
    rt: &'s R,
    gate: &'s G,
    config: &'s Config,
    desk: &'s Desk<N>,
    pool: &mut Pool<N>,
    handles: &mut VecDeque<JoinHandle<Served<N>>>,
) -> Result<(), RunFault>
where
    N::Cpus: Send + Sync,
    N::Created: Send + Sync,
    N::Told: Send + Sync,
    N::Ran: Send + Sync,
    N::Left: Send + Sync,
    N::Died: Send + Sync,
    N::Committed: Send + Sync,
    N::TakenOver: Send + Sync,
    N::Consumed: Send + Sync,
    requires agents { pos pool.old.agents ≡ config.now.cpus }
    requires nothing { pool.old ≡ idle pool.old.agents }
    ensures nothing { OnOk result (pool.new ≡ idle 0) }
    ensures started { OnOk result (length handles.new.items ≡ length handles.old.items + pool.old.agents) }
{
    for cpu in 0..config.cpus() {
        let worker = hire(desk, pool, Cpu(cpu))?;
        let handle = start(scope, rt, gate, config, desk, worker)?;
        handles.push_back(handle)?;
    }
    Ok(())
}

/// What the agents counted and what they know, by CPUs.
#[derive(Drop)]
pub(crate) struct Joined {
    pub(crate) rows: Vec<Row>,
    pub(crate) views: Vec<View>,
}

/// Waits for every thread to end. The first agent by CPUs that ended before it was told to, or that met a fault in the
/// end, has its fault told.
pub(crate) fn join_all<N: Names, R: Threads>(
    rt: &R,
    alloc: Global,
    handles: &mut VecDeque<JoinHandle<Served<N>>>,
    pool: &mut Pool<N>,
) -> Result<Joined, RunFault>
    ensures done { IfOk result (λ joined. HasDone joined.rows.items pool.old pool.new) }
    ensures all { IfOk result (λ joined. vec_len joined.rows ≡ length handles.old.items) }
    ensures views { IfOk result (λ joined. vec_len joined.views ≡ length handles.old.items) }
{
    let mut rows = Vec::new(alloc);
    let mut views = Vec::new(alloc);
    let mut fault = None;
    while let Some(handle) = handles.pop_front() {
        let Served { worker, quit } = handle.join(rt);
        let (row, view) = take_back(pool, worker);
        if fault.is_none() {
            fault = fault_of(quit, row.cpu);
        }
        rows.push(row)?;
        views.push(view)?;
    }
    match fault {
        Some(fault) => Err(fault),
        None => Ok(Joined { rows, views }),
    }
}

/// The same, where each agent has taken in what it was told by its end. One that ends while another reads its last
/// items is told of them behind its end, and that other one may restart, and forget them, before it ends itself.
pub(crate) fn with_last_news<R: Wait>(
    rt: &R,
    channels: &Channels,
    joined: Joined,
) -> Result<Joined, RunFault>
    ensures rows { IfOk result (λ all. all.rows ≡ joined.rows) }
    ensures views { IfOk result (λ all. vec_len all.views ≡ vec_len joined.views) }
{
    let Joined { rows, mut views } = joined;
    match channels.take_last_news(rt, views.as_mut_slice()) {
        Ok(()) => Ok(Joined { rows, views }),
        Err(_) => Err(RunFault::OutOfMemory),
    }
}
