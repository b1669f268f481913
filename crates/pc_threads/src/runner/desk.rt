//! What the threads of a run share.

use crate::runner::channels::Channels;
use crate::runner::ledgers::Names;
use crate::runner::tallied::Tallied;
use pc_policy::AgentPolicy;
use std::alloc::Global;
use std::sync::Mutex;

/// What all threads of a run share.
#[derive(Drop)]
pub(crate) struct Desk<N: Names> {
    pub(crate) alloc: Global,
    pub(crate) tallied: Mutex<Tallied<N>>,
    pub(crate) channels: Channels,
    /// What every agent goes by.
    pub(crate) policy: AgentPolicy,
}
