//! Percentiles of waits, and their sum.

ghost use Rattle.std.specs.Prelude.{◌≡◌, ◌≤◌, ℕ, List, sum};
ghost use Rattle.std.specs.List.Sorted.{IsNonDecreasing, IsPermutation};
ghost use Rattle.pc_table.specs.Percentiles.{percentile, rank_in};

/// The rank of a percentile of so many numbers.
fn rank_in(percent: u8, count: usize) -> usize
    requires { percent ≤ 100 }
    ensures { result ≡ rank_in percent count }
{
    (percent as u128 * count as u128).div_ceil(100) as usize
}

/// The percentile of numbers, of which these are all in ascending order.
pub(crate) fn percentile(percent: u8, ascending: &[u64]) -> Option<u64>
    requires low { 1 ≤ percent }
    requires high { percent ≤ 100 }
    requires ascending { IsNonDecreasing ascending.now }
    ensures { (numbers : List ℕ) → IsPermutation numbers ascending.now → result ≡ percentile percent numbers }
{
    let rank = rank_in(percent, ascending.len());
    ascending.get(rank.saturating_sub(1)).copied()
}

/// The sum of numbers.
pub(crate) fn sum_of(numbers: &[u64]) -> u128
    ensures { result ≡ sum numbers.now }
{
    let mut sum = 0;
    for number in numbers {
        sum += *number as u128;
    }
    sum
}
