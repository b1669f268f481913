//! The trait of all policies.

ghost use Rattle.std.specs.Prelude.{◌≡◌};
ghost use Rattle.pc_policy.specs.Rankings.{Ranking};

use pc_messages::{Cpu, Reported, Tid};

/// A policy: it ranks a thread by the CPU on which it would run, its name and what is reported of it. The least rank
/// runs first, first come first served within a rank; a thread without a rank is left out of the run list.
///
/// A rank may depend on nothing else: not on the time, on other threads, or on the order in which threads are asked
/// for.
pub trait Policy: Drop {
    /// The ranks that it gives.
    ghost ranking: { Self → Ranking };

    /// The rank of a thread of which this is reported, on this CPU; none, where it is left out there.
    fn rank(&self, cpu: Cpu, thread: Tid, reported: &Reported) -> Option<u64>
        ensures { result ≡ ranking self.now cpu thread reported.now };
}
