//! The axis of a script's picture: by what its steps stand from left to right.
//!
//! A comment `# at TICK` in front of a command tells when it happens. The ticks of steps are kept where they are asked
//! for alone.

use crate::step::Step;
use pc_script::{lines_of, number};
use std::alloc::{AllocError, Global};

/// By what the steps of a picture stand from left to right.
#[derive(Clone, Copy, Debug, PartialEq, Eq)]
pub enum Axis {
    /// One behind another, as their lines do.
    Lines,
    /// By their ticks, which lines `# at TICK` tell. Where no command has such a line above it, as [`Axis::Lines`].
    Ticks,
}

/// By what the steps that are drawn stand.
#[derive(Clone, Copy)]
pub(crate) enum Scale<'t> {
    /// By their lines, since that was asked for.
    Lines,
    /// By their lines, since no line above a step tells a tick.
    NoTick,
    /// By these ticks, a tick for each step, which never descend.
    Ticks(&'t [u64]),
}

impl<'t> Scale<'t> {
    /// By what steps of these ticks stand along an axis. There are none where none is told.
    pub(crate) fn of(axis: Axis, ticks: &'t [u64]) -> Scale<'t> {
        match axis {
            Axis::Lines => Scale::Lines,
            Axis::Ticks => {
                if ticks.is_empty() {
                    Scale::NoTick
                } else {
                    Scale::Ticks(ticks)
                }
            }
        }
    }

    /// The same of the steps from one place to before another.
    pub(crate) fn of_steps(self, first: usize, end: usize) -> Scale<'t> {
        match self {
            Scale::Ticks(ticks) => Scale::Ticks(ticks.get(first..end).unwrap_or(&[])),
            Scale::Lines | Scale::NoTick => self,
        }
    }
}

/// The tick that a line tells: `# at `, a number as commands have it, and nothing else.
fn told_tick(line: &[u8]) -> Option<u64> {
    match line {
        [b'#', b' ', b'a', b't', b' ', word @ ..] => number(word),
        _ => None,
    }
}

/// The ticks of the steps of a text, of each that of the last line above it that tells one; one that is below the one
/// before is passed over. No ticks where no such line is above a step, or where the axis is of lines.
pub(crate) fn ticks_along(
    alloc: Global,
    axis: Axis,
    text: &[u8],
    steps: &[Step],
) -> Result<Vec<u64>, AllocError> {
    match axis {
        Axis::Lines => Ok(Vec::new(alloc)),
        Axis::Ticks => ticks_of(alloc, text, steps),
    }
}

/// The ticks of the steps of a text.
fn ticks_of(alloc: Global, text: &[u8], steps: &[Step]) -> Result<Vec<u64>, AllocError> {
    let mut ticks = Vec::new(alloc);
    let mut tick = 0u64;
    let mut is_told = false;
    let mut place = 0u32;
    for line in lines_of(Some(text)) {
        let Some(step) = steps.get(ticks.len()) else {
            break;
        };
        place = place.saturating_add(1);
        if step.number == place {
            ticks.push(tick)?;
        } else if let Some(told) = told_tick(line) {
            tick = tick.max(told);
            is_told = true;
        }
    }
    if is_told {
        Ok(ticks)
    } else {
        Ok(Vec::new(alloc))
    }
}
