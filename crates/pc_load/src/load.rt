//! What threads need.

ghost use Rattle.std.specs.Prelude.{pos, ◌≡◌, ◌⊎◌, Some, IfOk, IfErr, None, map};
ghost use Rattle.pc_load.specs.Loads.{demand, drafted, end_of, fault_of, need_of};
ghost use Rattle.pc_load.specs.declared.load.LoadFault.TheVariants.{OutOfMemory};

mod lives;
pub(crate) mod numbers;
mod threads;

pub use lives::dies_last;
use numbers::tick_of;
pub use numbers::{count_of_cpus, is_cpu, is_mask};
use pc_calls::{Leaving, MOST_THREADS};
use pc_messages::Cpu;
use std::alloc::{AllocError, Global};
use std::marker::Model;
use thiserror::Error;
use threads::threads_of;

/// The most steps of a thread.
pub const MOST_STEPS: usize = 100_000;

/// The highest level.
pub const MOST_LEVEL: u8 = 7;

/// The last tick in front of whose things a run can stop.
pub const LAST_TICK: u64 = 9_223_372_036_854_775_807;

/// A step of a thread: it runs for so many ticks, and leaves its CPU so.
#[derive(Clone, Copy, Debug, PartialEq, Eq)]
pub struct LoadStep {
    pub leaving: Leaving,
    pub ticks: u32,
}

/// What a thread is said to need, in the numbers of a text (own).
#[derive(Debug, Drop)]
pub struct ThreadDraft {
    /// The queue of its messages at first: a CPU.
    pub queue: i64,
    /// The CPUs that it may run on: bit `c` stands for CPU `c`. A mask with bit 63 cannot be written so.
    pub mask: i64,
    /// Its steps, the first one first.
    pub steps: Vec<LoadStep>,
    /// The tick of its creation.
    pub start: i64,
    /// Its level.
    pub level: i64,
    /// For how many ticks it is blocked behind its first block, its second, ..
    pub sleeps: Vec<i64>,
}

/// What a thread needs (own).
#[derive(Debug, Drop)]
pub struct ThreadLoad {
    /// The queue of its messages at first: a CPU.
    pub queue: Cpu,
    /// The CPUs that it may run on: bit `c` stands for CPU `c`.
    pub mask: u64,
    /// Its steps, the first one first: the last is a die, and no other is.
    pub steps: Vec<LoadStep>,
    /// The tick of its creation.
    pub start: u32,
    /// Its level, 0 to 7.
    pub level: u8,
    /// For how many ticks it is blocked behind its first block, its second, ..: none where fewer are told.
    pub sleeps: Vec<u32>,
}

/// Why what is asked for is no load.
#[derive(Clone, Copy, Debug, PartialEq, Eq, Error)]
pub enum LoadFault {
    /// There are 1 to 64 CPUs.
    #[error("there are 1 to 64 CPUs")]
    BadCpus,
    /// A run ends at a tick of at most 2^63 - 1.
    #[error("a run ends at a tick below 2^63")]
    BadUntil,
    /// There are at most 4,096 threads.
    #[error("there are at most 4,096 threads")]
    TooManyThreads,
    /// The thread with this place has no queue, mask or steps as they have to be.
    #[error("thread {0} is none")]
    BadThread(usize),
    /// The thread with this place may not run at home, comes before the one in front of it, or has no level or sleeps
    /// as they have to be.
    #[error("thread {0} is no load")]
    BadLoad(usize),
    /// A growth was refused.
    #[error("out of memory")]
    OutOfMemory,
}

/// Want of memory comes in by this alone: std has two types for it.
impl<E: Into<AllocError> + Drop> From<E> for LoadFault {
    ghost use Rattle.std.specs.Prelude.{◌≡◌};
    ghost use Rattle.pc_load.specs.declared.load.LoadFault.TheVariants.{OutOfMemory};

    ghost from_gives = { λ _ fault. fault ≡ OutOfMemory };

    fn from(_error: E) -> LoadFault {
        LoadFault::OutOfMemory
    }
}

/// What all threads need, on so many CPUs (own).
#[derive(Debug, Drop)]
pub struct Load {
    cpus: u8,
    until: u64,
    threads: Vec<ThreadLoad>,
}

impl Model for Load {
    ghost use Rattle.std.specs.Prelude.{pos, ◌≡◌, None, map};
    ghost use Rattle.pc_load.specs.Loads.{Demand, demand, fault_of, need_of};

    ghost Value = { Demand };

    ghost view = { λ l. demand (pos l.cpus) (pos l.until) (map need_of l.threads.items) };

    ghost invariant = { λ l. fault_of (demand (pos l.cpus) (pos l.until) (map need_of l.threads.items)) ≡ None };
}

impl Load {
    /// The load of so many CPUs and these threads, whose run stops in front of the things of that tick; 0 stands for
    /// the last one.
    pub fn new(
        alloc: Global,
        cpus: i64,
        until: i64,
        threads: Vec<ThreadDraft>,
    ) -> Result<Load, LoadFault>
        ensures ok { IfOk result (λ _. fault_of (demand cpus until (map drafted threads.items)) ≡ None) }
        ensures keeps { IfOk result (λ load. load ≡ demand cpus (end_of until) (map drafted threads.items)) }
        ensures answers { IfErr result (λ fault.
            (fault_of (demand cpus until (map drafted threads.items)) ≡ Some fault) ⊎ (fault ≡ OutOfMemory)) }
    {
        let Some(cpus) = count_of_cpus(cpus) else {
            return Err(LoadFault::BadCpus);
        };
        let Some(until) = tick_of(until) else {
            return Err(LoadFault::BadUntil);
        };
        if threads.len() > MOST_THREADS as usize {
            return Err(LoadFault::TooManyThreads);
        }
        let threads = threads_of(alloc, cpus, threads)?;
        Ok(Load {
            cpus,
            until,
            threads,
        })
    }

    /// The count of CPUs, 1 to 64.
    pub fn cpus(&self) -> u8
        ensures { pos result ≡ self.now.cpus }
    {
        self.cpus
    }

    /// The tick in front of whose things a run stops.
    pub fn until(&self) -> u64
        ensures { pos result ≡ self.now.until }
    {
        self.until
    }

    /// The threads in the order in which they are created.
    pub fn threads(&self) -> &[ThreadLoad]
        ensures { map need_of result.now ≡ self.now.threads }
    {
        self.threads.as_slice()
    }
}
