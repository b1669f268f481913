//! A run of agents in threads.

ghost use Rattle.std.specs.Prelude.{pos, ◌≡◌, IfOk, vec_len};
ghost use Rattle.pc_kernel.specs.Reads.{seen};
ghost use Rattle.pc_threads.specs.Inner.Blanks.{AreBlanksOf};
ghost use Rattle.pc_threads.specs.Reports.{AddsUp, DoesAll, TellsItsBook};
ghost use Rattle.pc_threads.specs.Totals.{committed_by, created_by, died_by, in_all, left_by};

mod channels;
mod desk;
mod driver;
mod faults;
mod gate;
mod inbox;
mod inbox_wire;
mod ledgers;
mod mailbox;
mod opening;
mod restarts;
mod scope;
mod slot;
mod tallied;
mod threads;
mod turns;
mod worker;

use crate::book::{Book, RunFault};
use crate::report::{LoadReport, report_of};
use crate::settings::Config;
use channels::Channels;
use desk::Desk;
pub use gate::{Driven, Gate, OpenGate, Point};
use ledgers::{Names, Nine};
use opening::{Blanks, Opened, begin};
use pc_policy::AgentPolicy;
use scope::{Begun, Ended, scoped};
use std::alloc::Global;
use std::marker::Brand;
use std::sync::ledger::{Blank, Ledger};
use std::sync::{Mutex, Wait};
use std::thread::Threads;
use std::time::Clock;
use threads::Joined;

/// The known threads are those that the book's calls created.
fn known_are_created(book: &Book)
    ensures { (seen book.now.kernel).threads ≡ in_all created_by book.now.calls }
{
    book.is_replay();
}

/// Where as many threads died as were created, each was committed as often as it left its CPU.
fn none_runs_in_the_end(book: &Book)
    ensures { in_all created_by book.now.calls ≡ in_all died_by book.now.calls →
        in_all committed_by book.now.calls ≡ in_all left_by book.now.calls }
{
    book.is_replay();
}

/// A run by these ledgers.
fn run_named<N: Names + Send + Sync, R: Threads + Wait + Clock + Sync, G: Gate + Sync>(
    rt: &R,
    alloc: Global,
    config: &Config,
    policy: AgentPolicy,
    gate: &G,
    blanks: Blanks,
) -> Result<LoadReport, RunFault>
where
    N::Cpus: Send + Sync,
    N::Created: Send + Sync,
    N::Told: Send + Sync,
    N::Ran: Send + Sync,
    N::Left: Send + Sync,
    N::Died: Send + Sync,
    N::Committed: Send + Sync,
    N::TakenOver: Send + Sync,
    N::Consumed: Send + Sync,
    requires named { AreBlanksOf N.Cpus.Ledger N.Created.Ledger N.Told.Ledger N.Ran.Ledger N.Left.Ledger
        N.Died.Ledger N.Committed.Ledger N.TakenOver.Ledger N.Consumed.Ledger blanks }
    requires all { pos blanks.committed.parts ≡ config.now.cpus }
    ensures tells { IfOk result TellsItsBook }
    ensures adds_up { IfOk result AddsUp }
    ensures all { IfOk result (DoesAll config.now) }
    ensures rows { IfOk result (λ report. pos (vec_len report.rows) ≡ config.now.cpus) }
{
    config.is_sound();
    let channels = Channels::new(alloc, config)?;
    let Opened {
        tallied,
        purse,
        pool,
    } = begin::<N>(alloc, config, blanks)?;
    let desk = Desk {
        alloc,
        tallied: Mutex::new(tallied),
        channels,
        policy,
    };
    let begun = Begun {
        config,
        purse,
        pool,
    };
    let Ended {
        purse,
        pool,
        joined,
    } = scoped(rt, gate, &desk, begun)?;
    let Desk { tallied, .. } = desk;
    let book = tallied.into_inner().close(purse, pool);
    known_are_created(&book);
    none_runs_in_the_end(&book);
    // The proof speaks of the report by its name.
    let Joined { rows, views } = joined;
    let report = report_of(alloc, book, views.as_slice(), rows)?;
    Ok(report)
}

/// A run by ledgers that this call picks.
fn run_with<
    A: Ledger + Send + Sync,
    B: Ledger + Send + Sync,
    C: Ledger + Send + Sync,
    D: Ledger + Send + Sync,
    E: Ledger + Send + Sync,
    F: Ledger + Send + Sync,
    H: Ledger + Send + Sync,
    I: Ledger + Send + Sync,
    J: Ledger + Send + Sync,
    R: Threads + Wait + Clock + Sync,
    G: Gate + Sync,
>(
    rt: &R,
    alloc: Global,
    config: &Config,
    policy: AgentPolicy,
    gate: &G,
    blanks: Blanks,
) -> Result<LoadReport, RunFault>
    requires named { AreBlanksOf A.Ledger B.Ledger C.Ledger D.Ledger E.Ledger F.Ledger H.Ledger I.Ledger J.Ledger
        blanks }
    requires all { pos blanks.committed.parts ≡ config.now.cpus }
    ensures tells { IfOk result TellsItsBook }
    ensures adds_up { IfOk result AddsUp }
    ensures all { IfOk result (DoesAll config.now) }
    ensures rows { IfOk result (λ report. pos (vec_len report.rows) ≡ config.now.cpus) }
{
    run_named::<Nine<A, B, C, D, E, F, H, I, J>, R, G>(rt, alloc, config, policy, gate, blanks)
}

/// Runs an agent for each CPU in a thread of its own, over one kernel behind one lock, until all threads are dead; then
/// puts together what the agents know (own).
///
/// The caller's thread is the driver: it creates the threads, does each thread's next step when an agent has committed
/// it, and wakes it behind a block. Agents send what they read before they remove it, pick and take over where nothing
/// is ready, each by a copy of the policy, and restart where the settings say so. `StartFailed`, `GaveUp`, `TimeUp`,
/// `Driver` and want of memory end the run early; then what `settle` tells. What ends it wants no memory. A policy that
/// gives a thread no rank leaves it out, and then the run does not end before its deadline.
pub fn run_agents_by<R: Threads + Wait + Clock + Sync, G: Gate + Sync>(
    rt: &R,
    alloc: Global,
    config: &Config,
    policy: AgentPolicy,
    gate: &G,
) -> Result<LoadReport, RunFault>
    ensures tells { IfOk result TellsItsBook }
    ensures adds_up { IfOk result AddsUp }
    ensures all { IfOk result (DoesAll config.now) }
    ensures rows { IfOk result (λ report. pos (vec_len report.rows) ≡ config.now.cpus) }
{
    let agents = config.cpus() as u64;
    let blanks = Blanks {
        cpus: Blank::new(1),
        created: Blank::new(1),
        told: Blank::new(1),
        ran: Blank::new(1),
        left: Blank::new(1),
        died: Blank::new(1),
        committed: Blank::new(agents),
        taken_over: Blank::new(agents),
        consumed: Blank::new(agents),
    };
    run_with::<Brand, Brand, Brand, Brand, Brand, Brand, Brand, Brand, Brand, R, G>(
        rt, alloc, config, policy, gate, blanks,
    )
}

/// The same, where the agents go by the usual policy: the highest level first, and the least name is stolen.
pub fn run_agents<R: Threads + Wait + Clock + Sync, G: Gate + Sync>(
    rt: &R,
    alloc: Global,
    config: &Config,
    gate: &G,
) -> Result<LoadReport, RunFault>
    ensures tells { IfOk result TellsItsBook }
    ensures adds_up { IfOk result AddsUp }
    ensures all { IfOk result (DoesAll config.now) }
    ensures rows { IfOk result (λ report. pos (vec_len report.rows) ≡ config.now.cpus) }
{
    run_agents_by(rt, alloc, config, AgentPolicy::usual(), gate)
}
