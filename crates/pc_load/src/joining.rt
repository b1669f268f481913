//! The steps of a thread's own doing.

ghost use Rattle.std.specs.Prelude.{◌≡◌, ◌⊎◌, ◌+◌, ◌<◌, ◌≤◌, ◌^◌, [], ◌∷◌, drop, length, IfOk, IfSome, MatchOption};
ghost use Rattle.pc_load.specs.Joining.{is_joined, joined_with, preempts, steps_under, with_more};

use crate::load::{LoadStep, ThreadLoad};
use pc_calls::Leaving;
use std::alloc::{AllocError, Global};

impl LoadStep {
    const fn preempts(&self) -> bool
        ensures { result ≡ preempts self.now.leaving }
    {
        matches!(self.leaving, Leaving::Preempt)
    }
}

/// Whether a step that got more ticks goes with the first of those behind it.
fn is_joined(more: u32, step: &LoadStep, behind: &[LoadStep]) -> bool
    ensures { result ≡ is_joined more step.now behind.now }
{
    match behind.first() {
        Some(next) => {
            let sum = more as u64 + step.ticks as u64 + next.ticks as u64;
            step.preempts() && sum <= u32::MAX as u64
        }
        None => false,
    }
}

/// The step with more ticks in front.
fn with_more(more: u32, step: &LoadStep) -> LoadStep
    requires { (more ≡ 0) ⊎ (more + step.now.ticks < 2 ^ 32) }
    ensures { result ≡ with_more more step.now }
{
    LoadStep {
        leaving: step.leaving,
        ticks: more + step.ticks,
    }
}

/// The step that the steps from a place on begin with, joined, and the place behind it; none where no step is left.
fn joined_at(steps: &[LoadStep], from: usize) -> Option<(LoadStep, usize)>
    ensures steps { MatchOption result (joined_with 0 (drop from steps.now) ≡ [])
        (λ met. joined_with 0 (drop from steps.now) ≡ met.0 ∷ joined_with 0 (drop met.1 steps.now)) }
    ensures further { IfSome result (λ met. (from < met.1) × (met.1 ≤ length steps.now)) }
{
    let mut more = 0;
    for place in from..steps.len() {
        let step = steps[place];
        if is_joined(more, &step, &steps[place + 1..]) {
            more += step.ticks;
            continue;
        }
        return Some((with_more(more, &step), place + 1));
    }
    None
}

impl ThreadLoad {
    /// The step that the lab runs from a place of the steps on, and the place behind it: as it is where recorded
    /// preempts are kept, else joined; none where no step is left. It takes no memory.
    pub fn step_at(&self, from: usize, keep: bool) -> Option<(LoadStep, usize)>
        ensures steps { MatchOption result (steps_under keep (drop from self.now.steps.items) ≡ [])
            (λ met. steps_under keep (drop from self.now.steps.items)
            ≡ met.0 ∷ steps_under keep (drop met.1 self.now.steps.items)) }
        ensures further { IfSome result (λ met. (from < met.1) × (met.1 ≤ length self.now.steps.items)) }
    {
        let steps = self.steps.as_slice();
        if !keep {
            return joined_at(steps, from);
        }
        if from < steps.len() {
            Some((steps[from], from + 1))
        } else {
            None
        }
    }

    /// The steps that the lab runs: all as they are where recorded preempts are kept, else joined.
    pub fn joined_steps(&self, alloc: Global, keep: bool) -> Result<Vec<LoadStep>, AllocError>
        ensures { IfOk result (λ steps. steps.items ≡ steps_under keep self.now.steps.items) }
    {
        let mut all = Vec::new(alloc);
        let mut from = 0;
        while let Some((step, next)) = self.step_at(from, keep) {
            all.push(step)?;
            from = next;
        }
        Ok(all)
    }
}
