//! An agent with its shares of what it did.

ghost use Rattle.std.specs.Prelude.{◌≡◌};
ghost use Rattle.pc_messages.specs.Items.{AreTellable};
ghost use Rattle.pc_agent.specs.Counts.{none_counted};
ghost use Rattle.pc_agent.specs.Shows.{counts_of, cpu_of};

use crate::runner::ledgers::Names;
use pc_agent::Agent;
use pc_delta::{Delta, Digest};
use pc_join::OutOfMemory;
use pc_messages::Item;
use std::alloc::Global;
use std::sync::Arc;
use std::sync::ledger::Share;

/// An agent with its shares of what it did.
#[derive(Drop)]
pub(crate) struct Worker<N: Names> {
    pub(crate) agent: Agent,
    pub(crate) committed: Share<N::Committed>,
    pub(crate) taken_over: Share<N::TakenOver>,
    pub(crate) consumed: Share<N::Consumed>,
    /// The digest of what it knows, where nothing was learnt since it was made.
    digest: Option<Arc<Digest, Global>>,
    ghost committed_is: { committed.amount ≡ (counts_of agent).commits },
    ghost taken_over_is: { taken_over.amount ≡ (counts_of agent).steals },
    ghost consumed_is: { consumed.amount ≡ (counts_of agent).taken },
    ghost committed_part: { committed.parts ≡ 1 },
    ghost taken_over_part: { taken_over.parts ≡ 1 },
    ghost consumed_part: { consumed.parts ≡ 1 },
}

impl<N: Names> Worker<N> {
    /// An agent that has done nothing, with a share of each.
    pub(crate) fn new(
        agent: Agent,
        committed: Share<N::Committed>,
        taken_over: Share<N::TakenOver>,
        consumed: Share<N::Consumed>,
    ) -> Worker<N>
        requires fresh { counts_of agent ≡ none_counted }
        requires committed { (committed.parts ≡ 1) × (committed.amount ≡ 0) }
        requires taken_over { (taken_over.parts ≡ 1) × (taken_over.amount ≡ 0) }
        requires consumed { (consumed.parts ≡ 1) × (consumed.amount ≡ 0) }
        ensures agent { result.agent ≡ agent }
    {
        Worker {
            agent,
            committed,
            taken_over,
            consumed,
            digest: None,
        }
    }

    /// Takes in the messages of items, and gives the delta that tells them.
    pub(crate) fn copied(&mut self, items: &[Item]) -> Result<Delta, OutOfMemory>
        requires { AreTellable items.now }
    {
        if !items.is_empty() {
            self.digest = None;
        }
        self.agent.copied(items)
    }

    /// Counts so many items as sent.
    pub(crate) fn sent(&mut self, items: u32) {
        self.agent.sent(items);
    }

    /// Takes in what a delta tells.
    pub(crate) fn deliver(&mut self, delta: &Delta) -> Result<(), OutOfMemory> {
        if !delta.parts().is_empty() {
            self.digest = None;
        }
        self.agent.deliver(delta)
    }

    /// Starts again.
    pub(crate) fn restart(&mut self) {
        self.digest = None;
        self.agent.restart();
    }

    /// The digest of what it knows.
    pub(crate) fn digest(&mut self, alloc: Global) -> Result<Arc<Digest, Global>, OutOfMemory> {
        if let Some(digest) = &self.digest {
            return Ok(Arc::try_clone(digest)?);
        }
        let digest = Arc::new(alloc, Digest::of(alloc, self.agent.view())?)?;
        self.digest = Some(Arc::try_clone(&digest)?);
        Ok(digest)
    }
}
