//! All threads of a run: the agents' and the driver's.

ghost use Rattle.std.specs.Prelude.{pos, ◌≡◌, ◌+◌, IfOk, OnOk, length, vec_len};
ghost use Rattle.pc_threads.specs.Inner.Driving.{died_in, one, sum_in, told_in};
ghost use Rattle.pc_threads.specs.Inner.Ends.{HasEnded};
ghost use Rattle.pc_threads.specs.Inner.Shares.{HasDone, HasPosted, idle};
ghost use Rattle.pc_threads.specs.Settings.{ticks};

use crate::book::RunFault;
use crate::runner::desk::Desk;
use crate::runner::driver::drive_all;
use crate::runner::gate::Gate;
use crate::runner::ledgers::{Names, Pool, Purse};
use crate::runner::threads::{Joined, join_all, start_all, with_last_news};
use crate::runner::turns::Served;
use crate::settings::Config;
use std::collections::VecDeque;
use std::sync::Wait;
use std::thread;
use std::thread::{JoinHandle, Scope, Threads};
use std::time::Clock;

/// Starts the agents and does all steps of all threads.
fn start_and_drive<
    's,
    'e,
    N: Names + Send + Sync + 's,
    R: Threads + Wait + Clock + Sync,
    G: Gate + Sync,
>(
    scope: &'s Scope<'s, &'e ()>,
    rt: &'s R,
    gate: &'s G,
    config: &'s Config,
    desk: &'s Desk<N>,
    purse: &mut Purse<N>,
    pool: &mut Pool<N>,
    handles: &mut VecDeque<JoinHandle<Served<N>>>,
) -> Result<(), RunFault>
where
    N::Cpus: Send + Sync,
    N::Created: Send + Sync,
    N::Told: Send + Sync,
    N::Ran: Send + Sync,
    N::Left: Send + Sync,
    N::Died: Send + Sync,
    N::Committed: Send + Sync,
    N::TakenOver: Send + Sync,
    N::Consumed: Send + Sync,
    requires agents { pos pool.old.agents ≡ config.now.cpus }
    requires nothing { pool.old ≡ idle pool.old.agents }
    ensures nothing { OnOk result (pool.new ≡ idle 0) }
    ensures started { OnOk result (length handles.new.items ≡ length handles.old.items + pool.old.agents) }
    ensures posted { OnOk result (HasPosted 0 (sum_in told_in config.now.threads) (sum_in ticks config.now.threads)
        (sum_in one config.now.threads) (sum_in died_in config.now.threads) purse.old purse.new) }
{
    start_all(scope, rt, gate, config, desk, pool, handles)?;
    drive_all(rt, gate, config, desk, purse)
}

/// Has all agents end, at once where the run is given up, and waits for them.
fn end_all<N: Names, R: Threads + Wait>(
    rt: &R,
    desk: &Desk<N>,
    gives_up: bool,
    handles: &mut VecDeque<JoinHandle<Served<N>>>,
    pool: &mut Pool<N>,
) -> Result<Joined, RunFault>
    ensures done { IfOk result (λ joined. HasDone joined.rows.items pool.old pool.new) }
    ensures all { IfOk result (λ joined. vec_len joined.rows ≡ length handles.old.items) }
    ensures views { IfOk result (λ joined. vec_len joined.views ≡ length handles.old.items) }
{
    if gives_up {
        desk.channels.give_up();
    }
    desk.channels.stop_all(rt);
    join_all(rt, desk.alloc, handles, pool)
}

/// Starts the agents, drives the run to its end, stops the agents and waits for them.
fn run_all<'s, 'e, N: Names + Send + Sync + 's, R: Threads + Wait + Clock + Sync, G: Gate + Sync>(
    scope: &'s Scope<'s, &'e ()>,
    rt: &'s R,
    gate: &'s G,
    config: &'s Config,
    desk: &'s Desk<N>,
    purse: &mut Purse<N>,
    pool: &mut Pool<N>,
) -> Result<Joined, RunFault>
where
    N::Cpus: Send + Sync,
    N::Created: Send + Sync,
    N::Told: Send + Sync,
    N::Ran: Send + Sync,
    N::Left: Send + Sync,
    N::Died: Send + Sync,
    N::Committed: Send + Sync,
    N::TakenOver: Send + Sync,
    N::Consumed: Send + Sync,
    requires agents { pos pool.old.agents ≡ config.now.cpus }
    requires nothing { pool.old ≡ idle pool.old.agents }
    ensures ends { IfOk result (λ joined. HasEnded config.now purse.old pool.old purse.new pool.new joined) }
{
    let mut handles = VecDeque::new(desk.alloc);
    let driven = start_and_drive(scope, rt, gate, config, desk, purse, pool, &mut handles);
    let joined = end_all(rt, desk, driven.is_err(), &mut handles, pool);
    driven?;
    with_last_news(rt, &desk.channels, joined?)
}

/// What the driver and the agents of a run have done when no agent runs: nothing was done by agents.
#[derive(Drop)]
pub(crate) struct Begun<'a, N: Names> {
    pub(crate) config: &'a Config,
    pub(crate) purse: Purse<N>,
    pub(crate) pool: Pool<N>,
    ghost agents: { pos pool.agents ≡ config.now.cpus },
    ghost nothing: { pool ≡ idle pool.agents },
}

/// What the threads leave when all have ended.
#[derive(Drop)]
pub(crate) struct Ended<N: Names> {
    pub(crate) purse: Purse<N>,
    pub(crate) pool: Pool<N>,
    pub(crate) joined: Joined,
}

/// All threads of a run, by what was done before them; answers what they leave.
fn in_scope<'s, 'e, N: Names + Send + Sync + 's, R: Threads + Wait + Clock + Sync, G: Gate + Sync>(
    scope: &'s Scope<'s, &'e ()>,
    rt: &'s R,
    gate: &'s G,
    desk: &'s Desk<N>,
    begun: Begun<'s, N>,
) -> Result<Ended<N>, RunFault>
where
    N::Cpus: Send + Sync,
    N::Created: Send + Sync,
    N::Told: Send + Sync,
    N::Ran: Send + Sync,
    N::Left: Send + Sync,
    N::Died: Send + Sync,
    N::Committed: Send + Sync,
    N::TakenOver: Send + Sync,
    N::Consumed: Send + Sync,
    ensures ends { IfOk result (λ ended. HasEnded begun.entry.config.now begun.entry.purse begun.entry.pool
        ended.purse ended.pool ended.joined) }
{
    let Begun {
        config,
        mut purse,
        mut pool,
        ..
    } = begun;
    let joined = run_all(scope, rt, gate, config, desk, &mut purse, &mut pool)?;
    Ok(Ended {
        purse,
        pool,
        joined,
    })
}

/// The threads of a run, from their start to their end.
pub(crate) fn scoped<N: Names + Send + Sync, R: Threads + Wait + Clock + Sync, G: Gate + Sync>(
    rt: &R,
    gate: &G,
    desk: &Desk<N>,
    begun: Begun<'_, N>,
) -> Result<Ended<N>, RunFault>
where
    N::Cpus: Send + Sync,
    N::Created: Send + Sync,
    N::Told: Send + Sync,
    N::Ran: Send + Sync,
    N::Left: Send + Sync,
    N::Died: Send + Sync,
    N::Committed: Send + Sync,
    N::TakenOver: Send + Sync,
    N::Consumed: Send + Sync,
    ensures ends { IfOk result (λ ended. HasEnded begun.entry.config.now begun.entry.purse begun.entry.pool
        ended.purse ended.pool ended.joined) }
{
    thread::scope(
        thread::scope_env(),
        rt,
        |scope| -> Result<Ended<N>, RunFault>
            ensures ends { IfOk result (λ ended. HasEnded begun.entry.config.now begun.entry.purse begun.entry.pool
                ended.purse ended.pool ended.joined) }
        { in_scope(scope, rt, gate, desk, begun) },
    )
}
