//! Who stands before whom, and for how long.

ghost use Rattle.std.specs.Prelude.{◌≡◌, ℕ, true, not, if◌then◌else◌};
ghost use Rattle.pc_lab.specs.Standing.{RisesSlowly, StandsFor, ran_on, stands_before};
ghost use Rattle.pc_messages.specs.declared.reported.Reported.{Reported};
ghost use Rattle.pc_policy.specs.Rankings.{Ranking, ranks_named};

use pc_policy::OrderName;

/// Whether a thread of this rank stands before one of the other.
const fn stands_before(rank: Option<u64>, other: Option<u64>) -> bool
    ensures { result ≡ stands_before rank other }
{
    match (rank, other) {
        (Some(rank), Some(other)) => rank < other,
        (Some(_), None) => true,
        (None, _) => false,
    }
}

/// Whether a thread that runs, of this rank, is preempted for one of the other: unless it stands before that one, or
/// only where that one stands before it.
pub(crate) const fn gives_way(rank: Option<u64>, other: Option<u64>, only_before: bool) -> bool
    ensures { result ≡ (if only_before then stands_before other rank else not (stands_before rank other)) }
{
    if only_before {
        stands_before(other, rank)
    } else {
        !stands_before(rank, other)
    }
}

/// Whether ranks rise slowly by this order.
pub(crate) const fn rises_slowly(order: &OrderName) -> bool
    ensures { result ≡ true → RisesSlowly (ranks_named order.now) }
{
    match order {
        OrderName::Levels | OrderName::Fifo | OrderName::LeastRan | OrderName::LevelsThenLeastRan =>
            true,
        OrderName::Rank(_) => false,
    }
}

/// For how many ticks, at least, a thread stands before another whose rank is `other`, where its own is `rank`, and
/// `later` when it has run for a tick, and ranks rise slowly.
pub(crate) const fn ticks_before(rank: Option<u64>, later: Option<u64>, other: Option<u64>) -> u64
    ensures { (ranks : Ranking) (c t : ℕ) (r : Reported) → RisesSlowly ranks → ranks c t r ≡ rank
        → ranks c t (ran_on 1 r) ≡ later → StandsFor ranks c t r other result }
{
    let (Some(rank), Some(later), Some(other)) = (rank, later, other) else {
        return 0;
    };
    if rank < other && later == rank {
        return u64::MAX;
    }
    other.saturating_sub(rank)
}
