//! What threads do.

ghost use Rattle.std.specs.Prelude.{◌≡◌, ◌≤◌, length, position, count_by};
ghost use Rattle.std.specs.List.{list_all};
ghost use Rattle.pc_load.specs.Loads.{are_sleeps, blocks, dies, dies_last, is_life, is_u32};

use crate::load::numbers::is_u32;
use crate::load::{LoadStep, MOST_STEPS};
use pc_calls::Leaving;

impl LoadStep {
    const fn dies(&self) -> bool
        ensures { result ≡ dies self.now.leaving }
    {
        matches!(self.leaving, Leaving::Die)
    }

    const fn blocks(&self) -> bool
        ensures { result ≡ blocks self.now.leaving }
    {
        matches!(self.leaving, Leaving::Block)
    }
}

/// The place of the first step that is a die.
fn first_die(steps: &[LoadStep]) -> Option<usize>
    ensures { result ≡ position (λ step. dies step.leaving) steps.now }
{
    steps.iter().position(|step| step.dies())
}

/// Whether a thread of so many steps, the first die of which has this place, dies in the last one: no other may be a
/// die, and there are no more than `most`. It takes no memory.
pub const fn dies_last(most: usize, steps: usize, first_die: Option<usize>) -> bool
    ensures { result ≡ dies_last most steps first_die }
{
    steps <= most
        && match first_die {
            Some(first) => first < steps && first + 1 == steps,
            None => false,
        }
}

/// Whether there are 1 to [`MOST_STEPS`] steps, of which the last is a die and no other is.
pub(crate) fn is_life(steps: &[LoadStep]) -> bool
    ensures { result ≡ is_life steps.now }
{
    dies_last(MOST_STEPS, steps.len(), first_die(steps))
}

/// How many steps are blocks.
fn count_of_blocks(steps: &[LoadStep]) -> usize
    ensures { result ≡ count_by (λ step. blocks step.leaving) steps.now }
{
    steps.iter().filter(|step| step.blocks()).count()
}

/// Whether each number is a u32.
fn are_u32s(numbers: &[i64]) -> bool
    ensures { result ≡ list_all is_u32 numbers.now }
{
    numbers.iter().all(|number| is_u32(*number))
}

/// Whether no more sleeps are told than there are blocks, a u32 each.
pub(crate) fn are_sleeps(steps: &[LoadStep], sleeps: &[i64]) -> bool
    ensures { result ≡ are_sleeps steps.now sleeps.now }
{
    sleeps.len() <= count_of_blocks(steps) && are_u32s(sleeps)
}
