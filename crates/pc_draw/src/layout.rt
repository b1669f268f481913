//! Where things stand in the picture of a script, in pixels.
//!
//! Steps go from left to right, each in a column of its own up to [`MOST_SINGLE`] of them; beyond, a column is of
//! several steps. On an axis of ticks they stand in the column of their tick, and a column is of several ticks where
//! there are more ticks than columns. CPUs have lanes, one under another.

use crate::legend::legend_height;
use crate::part::{DrawnPart, Interval};
use crate::ticks::Scale;

/// The most steps, or ticks, that have a column each.
const MOST_SINGLE: u32 = 1_000;

/// The most steps of which no column is made wider to keep the picture small.
const MOST_FINE: u32 = 12_000;

/// The width of a picture's steps that is aimed at.
const STEPS_WIDTH: u32 = 1_200;

/// How many places of a column in a lane there are, at most, in a picture of very many steps.
const MOST_PLACES: u32 = 8_000;

/// Where the steps begin.
pub(crate) const LEFT: u32 = 72;

/// What stands right of the steps.
const RIGHT: u32 = 120;

/// Where the lanes of a whole picture begin.
const TOP: u32 = 64;

/// The height of the words that tell which part is drawn.
const PART_WORDS: u32 = 16;

/// The height of a lane.
pub(crate) const LANE: u32 = 64;

/// The least width of a picture, which the legend needs.
const LEAST_WIDTH: u32 = 720;

/// The sizes of a script's picture.
#[derive(Clone, Copy)]
pub(crate) struct PictureLayout<'t> {
    pub(crate) part: DrawnPart,
    pub(crate) scale: Scale<'t>,
    /// On an axis of ticks the first tick that is drawn, and how many ticks the last is behind it.
    pub(crate) first_tick: u64,
    pub(crate) span: u64,
    /// How many CPUs there are.
    pub(crate) cpus: u32,
    /// The CPU of the first lane.
    pub(crate) first_cpu: u32,
    /// How many CPUs have lanes.
    pub(crate) lanes: u32,
    /// How many steps come before those that are drawn.
    pub(crate) first_step: u32,
    /// How many steps are drawn. They are counted from 0.
    pub(crate) steps: u32,
    pub(crate) columns: u32,
    /// The width of a column.
    pub(crate) column_width: u32,
    /// Whether there are so many steps that they are counted column by column.
    pub(crate) is_dense: bool,
}

impl<'t> PictureLayout<'t> {
    /// The sizes for a part that has so many steps, behind so many others, where there are so many CPUs. They stand by
    /// this.
    pub(crate) fn of(
        part: DrawnPart,
        scale: Scale<'t>,
        first_step: u32,
        steps: u32,
        cpus: u32,
    ) -> PictureLayout<'t> {
        let first_cpu = part.cpus.map_or(0, |numbers| numbers.first);
        let lanes = lanes_of(part.cpus, cpus);
        let (first_tick, span) = ticks_drawn(scale);
        let units = match scale {
            Scale::Ticks(_) => count_of_ticks(steps, span),
            Scale::Lines | Scale::NoTick => steps,
        };
        let columns = match scale {
            Scale::Ticks(_) => units.min(most_columns(steps, lanes)),
            Scale::Lines | Scale::NoTick => columns_of(steps, lanes),
        };
        PictureLayout {
            part,
            scale,
            first_tick,
            span,
            cpus,
            first_cpu,
            lanes,
            first_step,
            steps,
            columns,
            column_width: width_of(units, columns),
            is_dense: steps > MOST_SINGLE,
        }
    }

    /// The column of a step.
    pub(crate) fn column_of(&self, step: u32) -> u32 {
        if let Scale::Ticks(_) = self.scale {
            return self.column_behind(self.behind(step));
        }
        if !self.is_dense {
            return step;
        }
        let scaled = u64::from(step).saturating_mul(u64::from(self.columns));
        let column = scaled.checked_div(u64::from(self.steps)).unwrap_or(0);
        u32::try_from(column).unwrap_or(self.columns)
    }

    /// How many ticks a step is behind the first one; on an axis of lines 0.
    pub(crate) fn behind(&self, step: u32) -> u64 {
        match self.scale {
            Scale::Ticks(ticks) => {
                let tick = ticks.get(step as usize).copied().unwrap_or(0);
                tick.saturating_sub(self.first_tick)
            }
            Scale::Lines | Scale::NoTick => 0,
        }
    }

    /// How many ticks there are from the first that is drawn to the last, with both.
    fn ticks(&self) -> u128 {
        u128::from(self.span).saturating_add(1)
    }

    /// The column of the tick that is so many behind the first.
    pub(crate) fn column_behind(&self, behind: u64) -> u32 {
        let scaled = u128::from(behind).saturating_mul(u128::from(self.columns));
        let column = scaled.checked_div(self.ticks()).unwrap_or(0);
        u32::try_from(column).unwrap_or(u32::MAX)
    }

    /// How many ticks are before those of a column, from the first that is drawn.
    pub(crate) fn ticks_before(&self, column: u32) -> u64 {
        let columns = u128::from(self.columns);
        let scaled = self
            .ticks()
            .saturating_mul(u128::from(column))
            .saturating_add(columns.saturating_sub(1));
        let before = scaled.checked_div(columns).unwrap_or(0);
        u64::try_from(before).unwrap_or(u64::MAX)
    }

    /// How many steps, or ticks, a column is of at most, where it may be of several.
    pub(crate) fn most_in_column(&self) -> Option<u64> {
        let (count, is_single) = match self.scale {
            Scale::Ticks(_) => (self.ticks(), self.ticks() <= u128::from(self.columns)),
            Scale::Lines | Scale::NoTick => (u128::from(self.steps), !self.is_dense),
        };
        if is_single || self.steps == 0 {
            return None;
        }
        let columns = u128::from(self.columns);
        let most = count
            .saturating_add(columns.saturating_sub(1))
            .checked_div(columns)
            .unwrap_or(1);
        Some(u64::try_from(most).unwrap_or(u64::MAX))
    }

    /// Whether what goes on is counted tick by tick in each column.
    pub(crate) fn counts_ticks(&self) -> bool {
        self.is_dense && matches!(self.scale, Scale::Ticks(_))
    }

    /// Where a column begins.
    pub(crate) fn x(&self, column: u32) -> u32 {
        LEFT.saturating_add(column.saturating_mul(self.column_width))
    }

    /// The middle of a column.
    pub(crate) fn middle_at(&self, column: u32) -> u32 {
        self.x(column).saturating_add(self.column_width / 2)
    }

    /// The middle of a step's column.
    pub(crate) fn middle(&self, step: u32) -> u32 {
        self.middle_at(self.column_of(step))
    }

    /// The middle of the column of a step that is counted among all of the script; of one that comes before those that
    /// are drawn, where these begin.
    pub(crate) fn middle_of(&self, step: u32) -> u32 {
        match step.checked_sub(self.first_step) {
            Some(step) => self.middle(step),
            None => LEFT,
        }
    }

    /// Where the lanes begin.
    pub(crate) fn top(&self) -> u32 {
        if self.part.is_all() {
            TOP
        } else {
            TOP + PART_WORDS
        }
    }

    /// Where a lane begins.
    fn y(&self, lane: u32) -> u32 {
        self.top().saturating_add(lane.saturating_mul(LANE))
    }

    /// Where the lanes end.
    pub(crate) fn bottom(&self) -> u32 {
        self.y(self.lanes)
    }

    /// Whether a CPU has a lane.
    pub(crate) fn has_lane(&self, cpu: u32) -> bool {
        match cpu.checked_sub(self.first_cpu) {
            Some(lane) => lane < self.lanes,
            None => false,
        }
    }

    /// Where a CPU's lane begins; of a CPU that has none, where the lanes begin or end, whichever is nearer to it.
    pub(crate) fn lane_top(&self, cpu: u32) -> u32 {
        self.y(cpu.saturating_sub(self.first_cpu).min(self.lanes))
    }

    /// A height in a CPU's lane; of a CPU that has none, where the lanes begin or end.
    pub(crate) fn height_in(&self, cpu: u32, height: u32) -> u32 {
        let top = self.lane_top(cpu);
        if self.has_lane(cpu) {
            top.saturating_add(height)
        } else {
            top
        }
    }

    /// Where the legend begins.
    pub(crate) fn legend(&self) -> u32 {
        self.bottom().saturating_add(24)
    }

    /// The width of the picture.
    pub(crate) fn width(&self) -> u32 {
        self.x(self.columns).saturating_add(RIGHT).max(LEAST_WIDTH)
    }

    /// The height of the picture.
    pub(crate) fn height(&self) -> u32 {
        self.legend().saturating_add(legend_height())
    }
}

/// How many of so many CPUs have these numbers; all where none are given.
fn lanes_of(numbers: Option<Interval>, cpus: u32) -> u32 {
    match numbers {
        Some(numbers) => {
            let end = numbers.last.saturating_add(1).min(cpus);
            end.saturating_sub(numbers.first)
        }
        None => cpus,
    }
}

/// How many columns there are on an axis of lines.
fn columns_of(steps: u32, lanes: u32) -> u32 {
    if steps <= MOST_SINGLE {
        steps
    } else {
        most_columns(steps, lanes)
    }
}

/// The width of a column, where so many steps or ticks stand in so many columns.
fn width_of(units: u32, columns: u32) -> u32 {
    let fitting = STEPS_WIDTH.checked_div(columns).unwrap_or(1);
    if units <= MOST_SINGLE {
        fitting.clamp(4, 24)
    } else {
        fitting.clamp(1, 24)
    }
}

/// The first tick that is drawn, and how many ticks the last is behind it.
fn ticks_drawn(scale: Scale<'_>) -> (u64, u64) {
    match scale {
        Scale::Ticks([first, .., last]) => (*first, last.saturating_sub(*first)),
        Scale::Ticks([only]) => (*only, 0),
        Scale::Ticks([]) | Scale::Lines | Scale::NoTick => (0, 0),
    }
}

/// How many ticks there are where so many steps are drawn, and the last tick is so many behind the first.
fn count_of_ticks(steps: u32, span: u64) -> u32 {
    if steps == 0 {
        return 0;
    }
    u32::try_from(span.saturating_add(1)).unwrap_or(u32::MAX)
}

/// How many columns there are at most of so many steps, where each may be of several.
fn most_columns(steps: u32, lanes: u32) -> u32 {
    if steps <= MOST_FINE {
        STEPS_WIDTH
    } else {
        MOST_PLACES
            .checked_div(lanes)
            .unwrap_or(STEPS_WIDTH)
            .clamp(100, STEPS_WIDTH)
    }
}
