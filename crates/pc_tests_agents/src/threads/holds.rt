//! A gate that forces the order of a run: it holds agents and the driver at points until others have come to theirs.

use crate::threads::runs::{Fact, Plan, first_wrong, gated_run};
use pc_messages::{Cpu, Tid};
use pc_threads::{Driven, Gate, LoadReport, Point, RunFault};
use std::alloc::Global;
use std::process::Abort;
use std::sync::Wait;
use std::sync::atomic::{AtomicU64, Ordering};
use std::thread;
use std::thread::Threads;
use std::time::{Clock, Duration, Instant};

/// Who is held at which point of its own, until who has come to which. The agents are 0, 1, .., and their points count
/// from 1, three a turn: 4 is where the second turn begins. Where they have sent they are somebody else.
pub(crate) type Hold = (usize, u64, usize, u64);

/// The driver among those who come to points: its own are the steps that it has done.
pub(crate) const DRIVER: usize = 3;

/// The agents where they have sent what they read: 4, 5, 6, one point a turn.
pub(crate) const SENDERS: usize = 4;

/// The driver where it asks when the run is given up, before its first step: one point.
pub(crate) const ASKER: usize = 7;

/// The driver where a thread is blocked that it wakes next: a point for each block.
pub(crate) const WAKER: usize = 8;

/// A run in an order that takes more seconds has gone wrong.
const LONGEST: u64 = 40;

/// Holds agents and the driver at points, each for 10,000 turns of a millisecond.
#[derive(Drop)]
struct Forced<'a, R: Clock> {
    rt: &'a R,
    holds: &'a [Hold],
    /// Who is held at which point for a while, in which who comes no further than to which.
    rests: &'a [Hold],
    /// How many points the agents and the driver have come to.
    points: [AtomicU64; 9],
    /// 1 where somebody did not come in time, or came too far.
    failed: AtomicU64,
    /// How long after the driver has asked the run is given up.
    limit: Duration,
}

impl<'a, R: Clock> Forced<'a, R> {
    /// Somebody comes to the next point, which this is.
    fn comes(&self, who: usize) -> u64 {
        match self.points.get(who) {
            Some(points) => points.fetch_add(1, Ordering::SeqCst).wrapping_add(1),
            None => 0,
        }
    }

    fn has_come(&self, who: usize, point: u64) -> bool {
        match self.points.get(who) {
            Some(points) => points.load(Ordering::SeqCst) >= point,
            None => false,
        }
    }

    fn has_failed(&self) -> bool {
        self.failed.load(Ordering::SeqCst) == 1
    }

    /// Whether the other comes to its point in time.
    fn waits(&self, other: usize, point: u64) -> bool {
        for _ in 0..10_000 {
            if self.has_come(other, point) {
                return true;
            }
            thread::sleep(self.rt, Duration::from_millis(1));
        }
        false
    }

    /// Whether the other comes no further for a while.
    fn rests(&self, other: usize, point: u64) -> bool {
        thread::sleep(self.rt, Duration::from_millis(100));
        !self.has_come(other, point.saturating_add(1))
    }

    /// Whether all is as it has to be where somebody has come to this point.
    fn is_held(&self, who: usize, place: u64) -> bool {
        for hold in self.holds {
            if hold.0 == who && hold.1 == place && !self.waits(hold.2, hold.3) {
                return false;
            }
        }
        for rest in self.rests {
            if rest.0 == who && rest.1 == place && !self.rests(rest.2, rest.3) {
                return false;
            }
        }
        true
    }

    /// Somebody comes to the next point, and is held there.
    fn comes_and_is_held(&self, who: usize) {
        let place = self.comes(who);
        if !self.is_held(who, place) {
            self.failed.store(1, Ordering::SeqCst);
        }
    }
}

impl<'a, R: Clock> Gate for Forced<'a, R> {
    fn pass(&self, cpu: Cpu, point: Point) -> bool {
        let agent = cpu.index() as usize;
        match point {
            Point::Sent => self.comes_and_is_held(SENDERS.saturating_add(agent)),
            Point::Turn | Point::Copied | Point::Answered => self.comes_and_is_held(agent),
        }
        !self.has_failed()
    }

    fn driven(&self, _so_far: Driven) {
        self.comes_and_is_held(DRIVER);
    }

    fn blocked(&self, _thread: Tid) {
        self.comes_and_is_held(WAKER);
    }

    fn deadline(&self) -> Option<Instant> {
        self.comes_and_is_held(ASKER);
        Instant::now(self.rt).ok()?.checked_add(self.limit)
    }
}

/// What is asked of a run, and in which order it is forced.
#[derive(Clone, Copy)]
pub(crate) struct Order<'a> {
    pub(crate) cpus: i64,
    pub(crate) plans: &'a [Plan<'a>],
    /// The restarts: their CPU and turn.
    pub(crate) turns: &'a [(i64, i64)],
    pub(crate) holds: &'a [Hold],
    /// Who is held at which point for a while, in which who comes no further than to which.
    pub(crate) rests: &'a [Hold],
}

/// A run in which agents are held so, for so long at most; nothing where they did not come to their points.
fn ended_in_order<R: Threads + Wait + Clock + Sync>(
    rt: &R,
    alloc: Global,
    order: &Order<'_>,
    limit: Duration,
) -> Option<Result<LoadReport, RunFault>> {
    let gate = Forced {
        rt,
        holds: order.holds,
        rests: order.rests,
        points: [
            AtomicU64::new(0),
            AtomicU64::new(0),
            AtomicU64::new(0),
            AtomicU64::new(0),
            AtomicU64::new(0),
            AtomicU64::new(0),
            AtomicU64::new(0),
            AtomicU64::new(0),
            AtomicU64::new(0),
        ],
        failed: AtomicU64::new(0),
        limit,
    };
    let ended = gated_run(rt, alloc, order.cpus, order.plans, order.turns, &gate)?;
    if gate.has_failed() { None } else { Some(ended) }
}

/// How a run in which agents are held so is given up, so long after the driver has asked when.
pub(crate) fn given_up_after<R: Threads + Wait + Clock + Sync>(
    rt: &R,
    alloc: Global,
    order: &Order<'_>,
    time: Duration,
) -> Option<RunFault> {
    ended_in_order(rt, alloc, order, time)?.err()
}

/// A run in which agents are held so.
fn forced_run<R: Threads + Wait + Clock + Sync>(
    rt: &R,
    alloc: Global,
    order: &Order<'_>,
) -> Option<LoadReport> {
    ended_in_order(rt, alloc, order, Duration::from_secs(LONGEST))?.ok()
}

/// The facts are so after a run in this order.
pub(crate) fn comes_to_ordered<R: Abort + Threads + Wait + Clock + Sync>(
    rt: &R,
    alloc: Global,
    order: &Order<'_>,
    facts: &[Fact<'_>],
) {
    let wrong = first_wrong(forced_run(rt, alloc, order), facts);
    assert_eq!(rt; wrong, Some(None));
}

/// The facts are so after a run of these settings in which agents are held so.
pub(crate) fn comes_to_held<R: Abort + Threads + Wait + Clock + Sync>(
    rt: &R,
    alloc: Global,
    cpus: i64,
    plans: &[Plan<'_>],
    turns: &[(i64, i64)],
    holds: &[Hold],
    facts: &[Fact<'_>],
) {
    let order = Order {
        cpus,
        plans,
        turns,
        holds,
        rests: &[],
    };
    comes_to_ordered(rt, alloc, &order, facts);
}
