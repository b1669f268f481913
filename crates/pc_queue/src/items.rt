//! One CPU's queue, without counts of its threads.

ghost use Rattle.std.specs.Prelude.{◌≡◌, ℕ, ◌+◌, ◌<◌, ◌≤◌, ◌↔◌, [], ◌∷◌, ◌++◌, length, take, drop, slice_get, Some};
ghost use Rattle.std.specs.Prelude.{OnOk, OnErr, IfOk, IsErr, IsTrue};
ghost use Rattle.std.specs.VecDeque.{deque_len, deque_capacity};
ghost use Rattle.pc_messages.specs.declared.message.Item.{Item};
ghost use Rattle.pc_queue.specs.Queue.{Queue, refusal_of};
ghost use Rattle.pc_queue.specs.Inner.Counts.{given};

use crate::fault::{QueueFault, TooMany};
use pc_messages::Item;
use std::alloc::{AllocError, Global};
use std::collections::VecDeque;
use std::marker::Model;

/// One CPU's queue: the items held, the oldest first, and how many posts it has had. It counts no thread's items.
#[derive(Drop)]
pub struct ItemQueue {
    items: VecDeque<Item>,
    room: u32,
    most: u32,
    posts: u32,
}

impl Model for ItemQueue {
    ghost use Rattle.pc_queue.specs.Queue.{Queue};
    ghost use Rattle.pc_queue.specs.Inner.Counts.{IsQueue};

    ghost Value = { Queue };

    ghost view = { λ q. record { room = q.room; most = q.most; posts = q.posts; items = q.items.items } };

    ghost invariant = { λ q. IsQueue
        (record { room = q.room; most = q.most; posts = q.posts; items = q.items.items }) };
}

/// Puts an element at the end, where a place is reserved for it.
fn push<T: Copy>(items: &mut VecDeque<T>, item: T)
    requires { deque_len items.old < deque_capacity items.old }
    ensures { items.new.items ≡ items.old.items ++ item ∷ [] }
{
    let _ = items.push_back(item);
}

/// Removes the first `n` elements; where these are all, as most often, at once.
fn cut<T: Copy + Drop>(items: &mut VecDeque<T>, n: usize)
    requires { n ≤ length items.old.items }
    ensures { items.new.items ≡ drop n items.old.items }
{
    if n < items.len() {
        drop(items.drain(..n));
    } else {
        items.clear();
    }
}

/// The first `n` elements, from both parts of the ring.
fn first<T: Copy>(alloc: Global, items: &VecDeque<T>, n: usize) -> Result<Vec<T>, AllocError>
    requires { n ≤ length items.now.items }
    ensures { IfOk result (λ first. first.items ≡ take n items.now.items) }
{
    let (front, back) = items.as_slices();
    let of_front = n.min(front.len());
    let mut first = Vec::with_capacity(alloc, n)?;
    first.extend_from_slice(&front[..of_front])?;
    first.extend_from_slice(&back[..n - of_front])?;
    Ok(first)
}

impl ItemQueue {
    /// The empty queue with room for this many items, which may have this many posts. It takes no memory.
    pub fn new(alloc: Global, room: u32, posts: u32) -> Self
        requires some_room { 1 ≤ room }
        requires some_posts { 1 ≤ posts }
        ensures { result ≡ record { room = room; most = posts; posts = 0; items = [] } }
    {
        ItemQueue {
            items: VecDeque::new(alloc),
            room,
            most: posts,
            posts: 0,
        }
    }

    /// The first refusal that a post would meet; none where only memory can be wanting.
    pub fn refusal(&self) -> Option<QueueFault>
        ensures { result ≡ refusal_of self.now }
    {
        if self.items.len() >= self.room as usize {
            Some(QueueFault::QueueFull)
        } else if self.posts >= self.most {
            Some(QueueFault::PostsSpent)
        } else {
            None
        }
    }

    /// Puts an item at the end of the queue, and counts the post.
    pub fn post(&mut self, item: Item) -> Result<(), QueueFault>
        ensures full { (result ≡ Err QueueFault.QueueFull) ↔ (self.old.room ≤ length self.old.items) }
        ensures spent { (result ≡ Err QueueFault.PostsSpent) ↔
            ((length self.old.items < self.old.room) × (self.old.most ≤ self.old.posts)) }
        ensures memory_last { result ≡ Err QueueFault.OutOfMemory →
            (length self.old.items < self.old.room) × (self.old.posts < self.old.most) }
        ensures ok { OnOk result
            (self.new ≡ record self.old { posts = self.old.posts + 1; items = self.old.items ++ item ∷ [] }) }
        ensures err { OnErr result (self.new ≡ self.old) }
    {
        match self.refusal() {
            Some(fault) => Err(fault),
            None => self.append(item).map_err(|_| QueueFault::OutOfMemory),
        }
    }

    /// Puts an item at the end, where neither room nor posts are wanting. Its growth comes before any change.
    fn append(&mut self, item: Item) -> Result<(), AllocError>
        requires room { length self.old.items < self.old.room }
        requires posts { self.old.posts < self.old.most }
        ensures ok { OnOk result
            (self.new ≡ record self.old { posts = self.old.posts + 1; items = self.old.items ++ item ∷ [] }) }
        ensures err { OnErr result (self.new ≡ self.old) }
    {
        self.items.reserve(1)?;
        push(&mut self.items, item);
        self.posts += 1;
        Ok(())
    }

    /// Takes the last post back.
    pub(crate) fn take_back(&mut self)
        ensures { (queue : Queue) (item : Item) → self.old ≡ given queue item → self.new ≡ queue }
    {
        let _ = self.items.pop_back();
        self.posts = self.posts.saturating_sub(1);
    }

    /// The item at a place.
    pub(crate) fn item(&self, place: u32) -> &Item
        requires { place < length self.now.items }
        ensures { slice_get self.now.items place ≡ Some result.now }
    {
        &self.items[place as usize]
    }

    /// The first `n` items, or all where there are fewer. They stay in the queue.
    pub fn peek(&self, n: u32) -> Result<Vec<Item>, AllocError>
        ensures { IfOk result (λ items. items.items ≡ take n self.now.items) }
    {
        let alloc = *self.items.allocator();
        first(alloc, &self.items, self.items.len().min(n as usize))
    }

    /// The items where they stand: those of the first slice, then those of the second. They stay in the queue. It takes
    /// no memory.
    pub fn as_slices(&self) -> (&[Item], &[Item])
        ensures items { result.0.now ++ result.1.now ≡ self.now.items }
        ensures front { (0 < length result.0.now) ↔ (0 < length self.now.items) }
    {
        self.items.as_slices()
    }

    /// Removes the first `n` items. It takes no memory, so it succeeds where the queue holds as many.
    pub fn consume(&mut self, n: u32) -> Result<(), TooMany>
        ensures too_many { IsErr result ↔ (length self.old.items < n) }
        ensures ok { OnOk result (self.new ≡ record self.old { items = drop n self.old.items }) }
        ensures err { OnErr result (self.new ≡ self.old) }
    {
        if self.items.len() < n as usize {
            return Err(TooMany);
        }
        cut(&mut self.items, n as usize);
        Ok(())
    }

    /// How many posts the queue has had: the sequence number of its CPU's agent (the ghOSt paper's Aseq).
    pub fn aseq(&self) -> u32
        ensures posts { result ≡ self.now.posts }
        ensures within_posts { result ≤ self.now.most }
    {
        self.posts
    }

    /// How many items the queue holds.
    pub fn len(&self) -> u32
        ensures items { result ≡ length self.now.items }
        ensures within_room { result ≤ self.now.room }
    {
        self.items.len() as u32
    }

    /// Whether the queue holds no item.
    pub fn is_empty(&self) -> bool
        ensures { IsTrue result ↔ (self.now.items ≡ []) }
    {
        self.items.is_empty()
    }
}
