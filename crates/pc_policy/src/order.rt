//! The policies that are built in.

ghost use Rattle.std.specs.Prelude.{◌≡◌, ◌+◌, ◌-◌, ◌*◌, ◌^◌, ◌≤◌, min, IfOk};
ghost use Rattle.pc_policy.specs.Rankings.{facts_of, rank_named, ranks_named, ranks_of};

use crate::named::OrderName;
use crate::policy::Policy;
use pc_messages::{Cpu, Level, Reported, Tid};
use pc_rank::Facts;
use std::alloc::AllocError;

/// The highest level.
const HIGHEST: u8 = 7;

/// So many ranks stand between two levels, where ticks count within a level.
const RANKS_A_LEVEL: u64 = 1 << 60;

/// An order that is built in: by a name, or by ranks that are given.
#[derive(Debug, Drop)]
pub enum Order {
    /// The order of this name.
    Named(OrderName),
    /// The ranks that these rows give to names; the first row of a name counts. A thread that is not named has no rank,
    /// so it is left out: who wants it last names it, with a rank above all others. The rows are passed for each look.
    Table(Vec<(Tid, u64)>),
}

/// How far the level is below the highest.
fn below_highest(level: Level) -> u64
    ensures below { result ≡ 7 - level }
    ensures low { level ≤ 7 }
    ensures few { result ≤ 7 }
{
    (HIGHEST - level.get()) as u64
}

/// The rank by level, and within a level by ticks.
fn level_then_ran(level: Level, ran: u64) -> u64
    ensures rank { result ≡ (7 - level) * 2 ^ 60 + min ran (2 ^ 60 - 1) }
    ensures low { level ≤ 7 }
{
    below_highest(level) * RANKS_A_LEVEL + ran.min(RANKS_A_LEVEL - 1)
}

/// The rank that the first row of the name gives.
fn named_rank(rows: &[(Tid, u64)], thread: Tid) -> Option<u64>
    ensures { result ≡ rank_named rows.now thread }
{
    for row in rows {
        if row.0 == thread {
            return Some(row.1);
        }
    }
    None
}

/// What an expression sees of a thread.
fn facts_of(cpu: Cpu, thread: Tid, reported: &Reported) -> Facts
    ensures { result ≡ facts_of cpu thread reported.now }
{
    Facts {
        level: u64::from(reported.level.get()),
        ran: reported.ran,
        thread: u64::from(thread.0),
        cpu: u64::from(cpu.0),
        allowed: u64::from(reported.mask.bits().count_ones()),
    }
}

impl Order {
    /// The same policy.
    pub fn try_copy(&self) -> Result<Order, AllocError>
        ensures { IfOk result (λ copy. ranks_of copy ≡ ranks_of self.now) }
    {
        Ok(match self {
            Order::Named(name) => Order::Named(*name),
            Order::Table(rows) => Order::Table(rows.as_slice().to_vec(*rows.allocator())?),
        })
    }
}

impl Policy for OrderName {
    ghost ranking = { ranks_named };

    fn rank(&self, cpu: Cpu, thread: Tid, reported: &Reported) -> Option<u64> {
        match self {
            OrderName::Levels => Some(below_highest(reported.level)),
            OrderName::Fifo => Some(0),
            OrderName::LeastRan => Some(reported.ran),
            OrderName::LevelsThenLeastRan => Some(level_then_ran(reported.level, reported.ran)),
            OrderName::Rank(expression) => expression.rank(&facts_of(cpu, thread, reported)),
        }
    }
}

impl Policy for Order {
    ghost ranking = { ranks_of };

    fn rank(&self, cpu: Cpu, thread: Tid, reported: &Reported) -> Option<u64> {
        match self {
            Order::Named(name) => name.rank(cpu, thread, reported),
            Order::Table(rows) => named_rank(rows.as_slice(), thread),
        }
    }
}
