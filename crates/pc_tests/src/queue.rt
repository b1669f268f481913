//! Queues take items and hand them out, with ample memory.

use crate::rows::is_so;
use pc_messages::{Cpu, Item, Kind, Message, Tid};
use pc_queue::{CpuQueue, ItemQueue};
use std::alloc::Global;

/// The second message of t0, and a tick.
const ITEMS: [Item; 2] = [
    Item::Thread(Message {
        thread: Tid(0),
        number: 2,
        kind: Kind::Wakeup,
    }),
    Item::Tick(Cpu(0)),
];

// Without contracts, as the functions below, so that a test's proof does not carry those of queues.
fn peeks(queue: &CpuQueue) -> bool {
    match queue.peek(5) {
        Ok(items) => items.as_slice() == ITEMS.as_slice(),
        Err(_) => false,
    }
}

fn is_kept(alloc: Global) -> bool {
    let mut queue = CpuQueue::new(alloc, 2, 3);
    for item in ITEMS {
        if queue.post(item).is_err() {
            return false;
        }
    }
    peeks(&queue)
}

fn peeks_without_counts(queue: &ItemQueue) -> bool {
    match queue.peek(5) {
        Ok(items) => items.as_slice() == ITEMS.as_slice(),
        Err(_) => false,
    }
}

fn is_kept_without_counts(alloc: Global) -> bool {
    let mut queue = ItemQueue::new(alloc, 2, 3);
    for item in ITEMS {
        if queue.post(item).is_err() {
            return false;
        }
    }
    peeks_without_counts(&queue)
}

#[test]
fn what_is_posted_is_kept(rt: HostRuntime) {
    is_so(&rt, is_kept(rt.alloc()));
    is_so(&rt, is_kept_without_counts(rt.alloc()));
}
