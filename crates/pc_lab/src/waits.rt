//! How long threads wait.

ghost use Rattle.std.specs.Prelude.{◌≡◌, ◌+◌, ◌++◌, ◌∷◌, [], ◌<◌, ◌==◌, ℕ, length, IfOk, OnOk, OnErr, Some, true};
ghost use Rattle.std.specs.Prelude.{false, if◌then◌else◌, unwrap_or};
ghost use Rattle.pc_kernel.specs.Reads.{is_waiting, seen};
ghost use Rattle.pc_lab.specs.Counting.{counted_as, is_counted};
ghost use Rattle.pc_lab.specs.Waiters.{AreNext, since_in, wait_in};
ghost use Rattle.pc_lab.specs.Waiting.{ended_by, made_ready_by, ready_in, waits_below};
ghost use Rattle.pc_lab.specs.declared.counted.Counted.TheVariants.{Commit};

use crate::awaited::AwaitedCpus;
use crate::fault::LabFault;
use pc_calls::{Effect, Event, Posted, Reply};
use pc_kernel::Kernel;
use pc_messages::Tid;
use std::alloc::Global;

/// How long a thread was ready before it ran, in ticks (own).
#[derive(Clone, Copy, Debug, PartialEq, Eq)]
pub struct Wait {
    pub ticks: u64,
    /// The thread's level, of the load.
    pub level: u8,
    /// Whether its creation or a waking had made it ready.
    pub is_woken: bool,
}

/// A thread, as far as it waits.
#[derive(Clone, Copy)]
pub(crate) struct Waiter {
    pub mask: u64,
    pub level: u8,
    pub is_ready: bool,
    /// Whether its creation or a waking made it ready last.
    pub is_woken: bool,
    /// The tick at which it was made ready last.
    pub since: u64,
}

/// The waits of all threads.
#[derive(Drop)]
pub(crate) struct Waits {
    alloc: Global,
    /// The threads, by their names.
    pub waiters: Vec<Waiter>,
    /// The waits that ended by a commit, in that order.
    pub ended: Vec<Wait>,
    /// For which CPUs threads wait.
    pub wanted: AwaitedCpus,
}

/// Whether what an event does makes its thread ready, and then whether by a creation or a waking.
fn made_ready_by(effect: &Effect) -> Option<bool>
    ensures { result ≡ made_ready_by effect.now }
{
    match effect.phase {
        Some(phase) if phase.is_ready() => Some(effect.left.is_none()),
        Some(_) | None => None,
    }
}

impl Waits {
    /// No thread waits, and none is there.
    pub(crate) fn new(alloc: Global) -> Waits
        ensures ended { result.ended.items ≡ [] }
        ensures waiters { result.waiters.items ≡ [] }
    {
        Waits {
            alloc,
            waiters: Vec::new(alloc),
            ended: Vec::new(alloc),
            wanted: AwaitedCpus::NONE,
        }
    }

    /// How many threads are there.
    pub(crate) fn threads(&self) -> usize
        ensures { result ≡ length self.now.waiters.items }
    {
        self.waiters.len()
    }

    /// A thread more, which does not wait yet.
    pub(crate) fn add(&mut self, mask: u64, level: u8) -> Result<(), LabFault>
        ensures ended { self.new.ended ≡ self.old.ended }
        ensures more { OnOk result (self.new.waiters.items ≡ self.old.waiters.items ++ record {
          mask = mask;
          level = level;
          is_ready = false;
          is_woken = false;
          since = 0;
        } ∷ []) }
        ensures same { OnErr result (self.new.waiters.items ≡ self.old.waiters.items) }
    {
        self.waiters.push(Waiter {
            mask,
            level,
            is_ready: false,
            is_woken: false,
            since: 0,
        })?;
        Ok(())
    }

    /// The thread waits from this tick on.
    fn begin(&mut self, thread: Tid, tick: u64, is_woken: bool) -> Result<(), LabFault>
        ensures ended { self.new.ended ≡ self.old.ended }
        ensures begun { OnOk result (AreNext (λ t. if thread == t then record { tick = tick; is_woken = is_woken }
            else since_in self.old.waiters.items t) self.old.waiters.items self.new.waiters.items) }
    {
        let place = thread.index() as usize;
        if place >= self.waiters.len() {
            return Err(LabFault::Unaccounted);
        }
        let waiter = self.waiters[place];
        self.waiters[place] = Waiter {
            is_ready: true,
            is_woken,
            since: tick,
            ..waiter
        };
        if !waiter.is_ready {
            self.wanted.add(waiter.mask);
        }
        Ok(())
    }

    /// The wait of a thread, up to this tick.
    fn wait_of(&self, thread: Tid, tick: u64) -> Result<Wait, LabFault>
        ensures same { IfOk result (λ wait. wait ≡ wait_in self.now.waiters.items tick thread) }
        ensures known { OnOk result (thread < length self.now.waiters.items) }
    {
        let place = thread.index() as usize;
        if place >= self.waiters.len() {
            return Err(LabFault::Unaccounted);
        }
        let waiter = &self.waiters[place];
        Ok(Wait {
            ticks: tick.saturating_sub(waiter.since),
            level: waiter.level,
            is_woken: waiter.is_woken,
        })
    }

    /// The thread, which is there, waits no more.
    fn end(&mut self, thread: Tid)
        ensures ended { self.new.ended ≡ self.old.ended }
        ensures same { AreNext (since_in self.old.waiters.items) self.old.waiters.items self.new.waiters.items }
    {
        let place = thread.index() as usize;
        if place >= self.waiters.len() {
            return;
        }
        let waiter = self.waiters[place];
        self.waiters[place] = Waiter {
            is_ready: false,
            ..waiter
        };
        if waiter.is_ready {
            self.wanted.remove(waiter.mask);
        }
    }

    /// A message was posted.
    fn note_post(&mut self, event: &Event, posted: Posted, tick: u64) -> Result<(), LabFault>
        ensures ended { self.new.ended ≡ self.old.ended }
        ensures next { OnOk result (AreNext (λ t. unwrap_or (ready_in t (record {
          tick = tick;
          event = event.now;
          reply = Reply.Posted posted;
        })) (since_in self.old.waiters.items t)) self.old.waiters.items
            self.new.waiters.items) }
    {
        match (posted.thread, made_ready_by(&event.effect())) {
            (Some(thread), Some(is_woken)) => self.begin(thread, tick, is_woken),
            _ => Ok(()),
        }
    }

    /// A thread was put on a CPU.
    fn note_commit(&mut self, thread: Tid, tick: u64) -> Result<(), LabFault>
        ensures ended { OnOk result (self.new.ended.items
            ≡ self.old.ended.items ++ wait_in self.old.waiters.items tick thread ∷ []) }
        ensures known { OnOk result (thread < length self.old.waiters.items) }
        ensures same { OnOk result
            (AreNext (since_in self.old.waiters.items) self.old.waiters.items self.new.waiters.items) }
    {
        let wait = self.wait_of(thread, tick)?;
        self.end(thread);
        self.ended.push(wait)?;
        Ok(())
    }

    /// Notes an event with its reply, at this tick.
    pub(crate) fn note(&mut self, event: &Event, reply: &Reply, tick: u64) -> Result<(), LabFault>
        ensures many { OnOk result (length self.new.ended.items ≡ length self.old.ended.items
            + (if is_counted Commit (counted_as event.now reply.now) then 1 else 0)) }
        ensures ended { OnOk result (self.new.ended.items
            ≡ self.old.ended.items ++ ended_by (wait_in self.old.waiters.items tick) reply.now) }
        ensures known { OnOk result ((cpu thread : ℕ) → reply.now ≡ Reply.Committed cpu thread
            → thread < length self.old.waiters.items) }
        ensures next { OnOk result (AreNext (λ t. unwrap_or (ready_in t (record {
          tick = tick;
          event = event.now;
          reply = reply.now;
        })) (since_in self.old.waiters.items t)) self.old.waiters.items
            self.new.waiters.items) }
    {
        match *reply {
            Reply::Posted(posted) => self.note_post(event, posted, tick),
            Reply::Committed { thread, .. } => self.note_commit(thread, tick),
            _ => Ok(()),
        }
    }

    /// The waits that have not ended at this tick, by the threads' names.
    pub(crate) fn unended(&self, kernel: &Kernel, tick: u64) -> Result<Vec<Wait>, LabFault>
        ensures waits { IfOk result (λ waits. waits.items
            ≡ waits_below (wait_in self.now.waiters.items tick) (seen kernel.now) (seen kernel.now).threads) }
        ensures known { OnOk result ((t : ℕ) → t < (seen kernel.now).threads → is_waiting (seen kernel.now) t ≡ true
            → t < length self.now.waiters.items) }
    {
        let mut waits = Vec::new(self.alloc);
        for name in 0..kernel.threads() {
            let thread = Tid(name);
            if kernel.is_waiting(thread) {
                waits.push(self.wait_of(thread, tick)?)?;
            }
        }
        Ok(waits)
    }
}
