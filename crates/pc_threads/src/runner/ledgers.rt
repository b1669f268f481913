//! Who counts what in a run: shares of ledgers, which exist in the proofs alone.
//!
//! Nothing is known of a value under a lock but what its type says. So each thread has a share of what it did itself,
//! and a share moves in the same section of the lock as the call: who has all shares knows what the book's calls come
//! to.

use std::marker::{Model, PhantomData};
use std::sync::ledger::{Ledger, Share};

/// The ledgers of a run.
pub(crate) trait Names {
    /// Its CPUs.
    type Cpus: Ledger;
    /// Threads created.
    type Created: Ledger;
    /// Messages of threads.
    type Told: Ledger;
    /// Ticks that they tell.
    type Ran: Ledger;
    /// How often a thread left its CPU.
    type Left: Ledger;
    /// Threads that died.
    type Died: Ledger;
    /// Threads committed.
    type Committed: Ledger;
    /// Threads given another queue.
    type TakenOver: Ledger;
    /// Items consumed.
    type Consumed: Ledger;
}

/// Nine ledgers.
pub(crate) struct Nine<A, B, C, D, E, F, G, H, I>(PhantomData<(A, B, C, D, E, F, G, H, I)>);

impl<
    A: Ledger,
    B: Ledger,
    C: Ledger,
    D: Ledger,
    E: Ledger,
    F: Ledger,
    G: Ledger,
    H: Ledger,
    I: Ledger,
> Names for Nine<A, B, C, D, E, F, G, H, I> {
    type Cpus = A;

    type Created = B;

    type Told = C;

    type Ran = D;

    type Left = E;

    type Died = F;

    type Committed = G;

    type TakenOver = H;

    type Consumed = I;
}

/// What the driver has posted, and on how many CPUs.
#[derive(Drop)]
pub(crate) struct Purse<N: Names> {
    pub(crate) cpus: Share<N::Cpus>,
    pub(crate) created: Share<N::Created>,
    pub(crate) told: Share<N::Told>,
    pub(crate) ran: Share<N::Ran>,
    pub(crate) left: Share<N::Left>,
    pub(crate) died: Share<N::Died>,
}

impl<N: Names> Model for Purse<N> {
    ghost use Rattle.std.specs.Prelude.{◌≡◌};
    ghost use Rattle.pc_threads.specs.Inner.Shares.{Spent};

    ghost Value = { Spent };

    ghost view = { λ p. record {
      cpus = p.cpus.amount;
      created = p.created.amount;
      told = p.told.amount;
      ran = p.ran.amount;
      left = p.left.amount;
      died = p.died.amount;
    } };

    ghost invariant = { λ p. (p.cpus.parts ≡ 1) × (p.created.parts ≡ 1) × (p.told.parts ≡ 1) × (p.ran.parts ≡ 1)
        × (p.left.parts ≡ 1) × (p.died.parts ≡ 1) };
}

/// What the agents that do not run have done: a part of each ledger stands for each agent.
#[derive(Drop)]
pub(crate) struct Pool<N: Names> {
    pub(crate) committed: Share<N::Committed>,
    pub(crate) taken_over: Share<N::TakenOver>,
    pub(crate) consumed: Share<N::Consumed>,
}

impl<N: Names> Model for Pool<N> {
    ghost use Rattle.std.specs.Prelude.{◌≡◌};
    ghost use Rattle.pc_threads.specs.Inner.Shares.{Done};

    ghost Value = { Done };

    ghost view = { λ p. record {
      agents = p.committed.parts;
      committed = p.committed.amount;
      taken_over = p.taken_over.amount;
      consumed = p.consumed.amount;
    } };

    ghost invariant = { λ p. (p.taken_over.parts ≡ p.committed.parts) × (p.consumed.parts ≡ p.committed.parts) };
}
