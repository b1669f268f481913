//! What is told of all waits of a run in a few numbers.

ghost use Rattle.std.specs.Prelude.{◌≡◌, ℕ, List, IfOk};
ghost use Rattle.std.specs.List.Sorted.{IsNonDecreasing, IsPermutation};
ghost use Rattle.pc_table.specs.Percentiles.{every_wait, figures_in, figures_of};

use crate::percentiles::percentile;
use crate::rows::Which;
use crate::waits::ticks_of;
use pc_lab::Summary;
use std::alloc::{AllocError, Global};

/// How many waits a run had, and the percentiles of how long they lasted, in ticks of the load (own). A wait that had
/// not ended counts as long as it had lasted. Without waits there are no percentiles.
#[derive(Clone, Copy, Debug, PartialEq, Eq)]
pub struct Figures {
    pub waits: usize,
    pub p50: Option<u64>,
    pub p90: Option<u64>,
    pub p99: Option<u64>,
}

/// Every wait.
const fn every_wait() -> Which
    ensures { result ≡ every_wait }
{
    Which {
        is_woken: false,
        level: None,
    }
}

/// The figures of waits, of which these are all in ascending order.
fn figures_in(ascending: &[u64]) -> Figures
    requires { IsNonDecreasing ascending.now }
    ensures { (ticks : List ℕ) → IsPermutation ticks ascending.now → result ≡ figures_in ticks }
{
    Figures {
        waits: ascending.len(),
        p50: percentile(50, ascending),
        p90: percentile(90, ascending),
        p99: percentile(99, ascending),
    }
}

/// The figures of waits that lasted so long.
fn figures_among(mut ticks: Vec<u64>) -> Figures
    ensures { result ≡ figures_in ticks.items }
{
    ticks.sort_unstable();
    figures_in(ticks.as_slice())
}

/// The figures of all waits of a run (own).
///
/// # Errors
/// A growth was refused: then nothing was made.
pub fn figures_of(alloc: Global, summary: &Summary) -> Result<Figures, AllocError>
    ensures { IfOk result (λ figures. figures ≡ figures_of summary.now) }
{
    let ticks = ticks_of(alloc, every_wait(), summary)?;
    Ok(figures_among(ticks))
}
