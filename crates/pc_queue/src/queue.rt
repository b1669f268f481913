//! One CPU's queue, with counts of its threads.

ghost use Rattle.std.specs.Prelude.{◌≡◌, ℕ, ◌+◌, ◌<◌, ◌≤◌, ◌↔◌, [], ◌∷◌, ◌++◌, length, take, drop, OnOk, OnErr, IfOk};
ghost use Rattle.std.specs.Prelude.{IsErr, IsTrue};
ghost use Rattle.std.specs.BTreeMap.{get};
ghost use Rattle.std.specs.Ordering.{nat_cmp};
ghost use Rattle.pc_queue.specs.Queue.{refusal_of, is_pending, held_of};

use crate::counts::{count, discount};
use crate::fault::{QueueFault, TooMany};
use crate::items::ItemQueue;
use pc_messages::{Item, Tid};
use std::alloc::{AllocError, Global};
use std::collections::BTreeMap;
use std::marker::Model;

/// One CPU's queue: the items held, the oldest first, and how many posts it has had.
///
/// Beside the items stands how many of them each thread has, so that [`CpuQueue::pending`] is one look-up.
#[derive(Drop)]
pub struct CpuQueue {
    queue: ItemQueue,
    held: BTreeMap<Tid, u32>,
}

impl Model for CpuQueue {
    ghost use Rattle.pc_queue.specs.Queue.{Queue};
    ghost use Rattle.pc_queue.specs.Inner.Counts.{IsCounted};

    ghost Value = { Queue };

    ghost view = { λ q. q.queue };

    ghost invariant = { λ q. IsCounted q.queue q.held };
}

impl CpuQueue {
    /// The empty queue with room for this many items, which may have this many posts. It takes no memory.
    pub fn new(alloc: Global, room: u32, posts: u32) -> Self
        requires some_room { 1 ≤ room }
        requires some_posts { 1 ≤ posts }
        ensures { result ≡ record { room = room; most = posts; posts = 0; items = [] } }
    {
        CpuQueue {
            queue: ItemQueue::new(alloc, room, posts),
            held: BTreeMap::new(alloc),
        }
    }

    /// The first refusal that a post would meet; none where only memory can be wanting.
    pub fn refusal(&self) -> Option<QueueFault>
        ensures { result ≡ refusal_of self.now }
    {
        self.queue.refusal()
    }

    /// Puts an item at the end of the queue, and counts the post.
    pub fn post(&mut self, item: Item) -> Result<(), QueueFault>
        ensures full { (result ≡ Err QueueFault.QueueFull) ↔ (self.old.room ≤ length self.old.items) }
        ensures spent { (result ≡ Err QueueFault.PostsSpent) ↔
            ((length self.old.items < self.old.room) × (self.old.most ≤ self.old.posts)) }
        ensures memory_last { result ≡ Err QueueFault.OutOfMemory →
            (length self.old.items < self.old.room) × (self.old.posts < self.old.most) }
        ensures ok { OnOk result
            (self.new ≡ record self.old { posts = self.old.posts + 1; items = self.old.items ++ item ∷ [] }) }
        ensures err { OnErr result (self.new ≡ self.old) }
    {
        self.queue.post(item)?;
        match count(&mut self.held, &item) {
            Ok(()) => Ok(()),
            Err(_) => {
                self.queue.take_back();
                Err(QueueFault::OutOfMemory)
            }
        }
    }

    /// The first `n` items, or all where there are fewer. They stay in the queue.
    pub fn peek(&self, n: u32) -> Result<Vec<Item>, AllocError>
        ensures { IfOk result (λ items. items.items ≡ take n self.now.items) }
    {
        self.queue.peek(n)
    }

    /// Removes the first `n` items. It takes no memory, so it succeeds where the queue holds as many.
    pub fn consume(&mut self, n: u32) -> Result<(), TooMany>
        ensures too_many { IsErr result ↔ (length self.old.items < n) }
        ensures ok { OnOk result (self.new ≡ record self.old { items = drop n self.old.items }) }
        ensures err { OnErr result (self.new ≡ self.old) }
    {
        if self.queue.len() < n {
            return Err(TooMany);
        }
        for place in 0..n {
            discount(&mut self.held, self.queue.item(place));
        }
        self.queue.consume(n)
    }

    /// How many posts the queue has had: the sequence number of its CPU's agent (the ghOSt paper's Aseq).
    pub fn aseq(&self) -> u32
        ensures posts { result ≡ self.now.posts }
        ensures within_posts { result ≤ self.now.most }
    {
        self.queue.aseq()
    }

    /// How many items the queue holds.
    pub fn len(&self) -> u32
        ensures items { result ≡ length self.now.items }
        ensures within_room { result ≤ self.now.room }
    {
        self.queue.len()
    }

    /// Whether the queue holds no item.
    pub fn is_empty(&self) -> bool
        ensures { IsTrue result ↔ (self.now.items ≡ []) }
    {
        self.queue.is_empty()
    }

    /// Whether an item of the thread is held.
    pub fn pending(&self, thread: Tid) -> bool
        ensures { result ≡ is_pending thread self.now.items }
    {
        self.held.contains_key(&thread)
    }

    /// The threads with a held item, each with how many.
    pub fn held(&self) -> &BTreeMap<Tid, u32>
        ensures { (t : ℕ) → get nat_cmp result.now t ≡ held_of t self.now.items }
    {
        &self.held
    }
}
