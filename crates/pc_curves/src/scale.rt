//! Where ticks and shares stand in a picture of waits.
//!
//! Ticks stand by their logarithm, but for waits of no tick, which have none: they stand at the left edge. Shares stand
//! evenly, four pixels for each hundredth.

use pc_lab::Wait;
use pc_table::Column;

/// The left edge, at which waits of no tick stand.
pub(crate) const LEFT: u32 = 56;

/// Where waits of one tick stand.
pub(crate) const FIRST: u32 = 92;

/// The right edge.
pub(crate) const RIGHT: u32 = 780;

/// The top edge: all waits.
pub(crate) const TOP: u32 = 56;

/// The bottom edge: none.
pub(crate) const BOTTOM: u32 = 456;

/// How wide all decades are together, in pixels.
const WIDE: u32 = RIGHT - FIRST;

/// How high all shares are together, in pixels.
const HIGH: u32 = BOTTOM - TOP;

/// The parts of a decade, where an octave has 4,096.
const DECADE: u64 = 13_607;

/// The most decades that a wait can want.
const MOST_DECADES: u8 = 20;

/// The logarithm of a number from 1 on to the base 2, in parts of 4,096 and rounded down. It never falls where the
/// number grows.
fn log2(number: u64) -> u64 {
    let zeros = number.leading_zeros();
    let mut parts = 63u64.saturating_sub(zeros as u64);
    // The leading 32 bits, of which the first is set: the number without its octaves. A square has twice the
    // logarithm, so each turn tells one more bit of it.
    let mut lead = number.wrapping_shl(zeros) >> 32;
    for _ in 0..12u8 {
        let square = lead.saturating_mul(lead);
        let (bit, rest) = if square < 1 << 63 {
            (0, square >> 31)
        } else {
            (1, square >> 32)
        };
        parts = parts.saturating_mul(2).saturating_add(bit);
        lead = rest;
    }
    parts
}

/// The longest of waits.
fn longest_of(waits: &[Wait]) -> u64 {
    let mut longest = 0;
    for wait in waits {
        longest = wait.ticks.max(longest);
    }
    longest
}

/// How many decades reach up to so many ticks, at least one.
fn decades_to(ticks: u64) -> u32 {
    let mut decades = 1u32;
    let mut reach = 10u64;
    for _ in 1..MOST_DECADES {
        if reach < ticks {
            reach = reach.saturating_mul(10);
            decades = decades.saturating_add(1);
        }
    }
    decades
}

/// How many decades the axis of ticks has.
#[derive(Clone, Copy)]
pub(crate) struct DecadeScale {
    pub decades: u32,
}

impl DecadeScale {
    /// The scale on which all waits of these runs stand.
    pub(crate) fn of(columns: &[Column<'_>]) -> DecadeScale {
        let mut longest = 0;
        for column in columns {
            longest = longest_of(column.summary.waits.as_slice()).max(longest);
            longest = longest_of(column.summary.unended.as_slice()).max(longest);
        }
        DecadeScale {
            decades: decades_to(longest),
        }
    }

    /// Where a decade begins: the first at one tick.
    pub(crate) fn x_of_decade(self, decade: u32) -> u32 {
        let along = WIDE.saturating_mul(decade).checked_div(self.decades);
        FIRST.saturating_add(along.unwrap_or(0))
    }

    /// Where a wait of so many ticks stands.
    pub(crate) fn x_of(self, ticks: u64) -> u32 {
        if ticks == 0 {
            return LEFT;
        }
        let all = DECADE.saturating_mul(self.decades as u64);
        let scaled = log2(ticks).saturating_mul(WIDE as u64);
        let along = scaled.saturating_add(all / 2).checked_div(all);
        let along = u32::try_from(along.unwrap_or(0)).unwrap_or(WIDE);
        FIRST.saturating_add(along.min(WIDE))
    }
}

/// Where the share of so many waits of all stands.
pub(crate) fn y_of(count: u64, all: u64) -> u32 {
    let up = count.saturating_mul(HIGH as u64).checked_div(all);
    let up = u32::try_from(up.unwrap_or(0)).unwrap_or(HIGH);
    BOTTOM.saturating_sub(up)
}

/// Where so many hundredths of all waits stand.
pub(crate) fn y_of_percent(percent: u32) -> u32 {
    y_of(percent as u64, 100)
}
