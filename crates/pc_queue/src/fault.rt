//! Why a queue refuses.

use thiserror::Error;

/// Why an item was not posted. The queue is then as it was.
#[derive(Clone, Copy, Debug, PartialEq, Eq, Error)]
pub enum QueueFault {
    /// The queue holds as many items as it has room for.
    #[error("the queue is full")]
    QueueFull,
    /// The queue has had as many posts as it may have.
    #[error("the queue's posts are spent")]
    PostsSpent,
    /// There was no memory for one more item.
    #[error("out of memory")]
    OutOfMemory,
}

/// More items were to be removed than the queue holds.
#[derive(Clone, Copy, Debug, PartialEq, Eq, Error)]
#[error("the queue holds fewer items")]
pub struct TooMany;
