//! Who is told how many runs were played, and which stalled.

use pc_messages::Tid;

/// How far the runs of a load are (own).
#[derive(Clone, Copy, Debug, PartialEq, Eq)]
pub struct SoFar {
    /// All runs, one for each variant.
    pub all: usize,
    /// Those that were played.
    pub played: usize,
    /// The events of these.
    pub events: u64,
}

/// Who watches runs of a load: behind each of them it is told how far they are.
pub trait Watcher {
    /// One run more was played.
    fn played(&mut self, so_far: SoFar);

    /// The run under the variant with this place, which was played last, stalled at this thread.
    fn stalled(&mut self, variant: usize, thread: Tid);
}

/// A watcher whom it does not matter.
#[derive(Clone, Copy, Debug)]
pub(crate) struct Nobody;

impl Watcher for Nobody {
    fn played(&mut self, _so_far: SoFar) {}

    fn stalled(&mut self, _variant: usize, _thread: Tid) {}
}
