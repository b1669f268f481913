//! What a report's picture shows: the totals in words, and a group of bars for each agent.

use crate::totals::Totals;
use pc_pen::{Canvas, HEADING, LANE_EDGE, LANE_NAME, SMALL, background, bar, stroke, words};
use pc_threads::{LoadReport, Row};
use std::fmt::Write;

/// Where the bars begin.
const LEFT: u32 = 150;

/// The width of the longest bar.
const LONGEST: u32 = 480;

/// The width of the picture: there is room for the number beside the longest bar.
const WIDTH: u32 = 820;

/// Where the first group begins.
const TOP: u32 = 52;

/// The height of a bar with what is between it and the next one.
const BAR: u32 = 13;

/// The height of a group.
const GROUP: u32 = 92;

/// The sizes of a report's picture, and its scale.
#[derive(Clone, Copy)]
pub(crate) struct Chart {
    groups: u32,
    /// The largest count.
    largest: u64,
}

/// A count of a row: its place among the bars, its name, and what it counts.
#[derive(Clone, Copy)]
enum Measure {
    Taken,
    Commits,
    Steals,
    Stale,
    Pending,
    Other,
}

/// All counts of a row, from top to bottom.
const MEASURES: [Measure; 6] = [
    Measure::Taken,
    Measure::Commits,
    Measure::Steals,
    Measure::Stale,
    Measure::Pending,
    Measure::Other,
];

impl Measure {
    /// How much a row has of it.
    fn of(self, row: &Row) -> u64 {
        match self {
            Measure::Taken => row.taken,
            Measure::Commits => row.commits,
            Measure::Steals => row.steals,
            Measure::Stale => row.stale,
            Measure::Pending => row.pending,
            Measure::Other => row.other,
        }
    }

    /// Its name.
    fn name(self) -> &'static str {
        match self {
            Measure::Taken => "taken",
            Measure::Commits => "commits",
            Measure::Steals => "steals",
            Measure::Stale => "stale",
            Measure::Pending => "pending",
            Measure::Other => "other",
        }
    }

    /// What it counts.
    fn meaning(self) -> &'static str {
        match self {
            Measure::Taken => "items consumed",
            Measure::Commits => "threads committed",
            Measure::Steals => "threads taken over",
            Measure::Stale => "picks and steals refused as stale",
            Measure::Pending => "steals refused as messages were pending",
            Measure::Other => "picks and steals refused otherwise",
        }
    }

    /// The style of its bars.
    fn style(self) -> &'static str {
        match self {
            Measure::Taken => "fill=\"#999\" stroke=\"#000\"",
            Measure::Commits => "fill=\"#009E73\" stroke=\"#000\"",
            Measure::Steals => "fill=\"#56B4E9\" stroke=\"#000\"",
            Measure::Stale => "fill=\"#E69F00\" stroke=\"#000\"",
            Measure::Pending => "fill=\"#F0E442\" stroke=\"#000\"",
            Measure::Other => "fill=\"#fff\" stroke=\"#000\" stroke-dasharray=\"3 2\"",
        }
    }
}

impl Chart {
    /// The sizes and the scale of a report's picture.
    pub(crate) fn of(report: &LoadReport) -> Chart {
        let mut largest = 0u64;
        for row in report.rows.as_slice() {
            for measure in MEASURES {
                largest = largest.max(measure.of(row));
            }
        }
        Chart {
            groups: u32::try_from(report.rows.len()).unwrap_or(u32::MAX),
            largest,
        }
    }

    /// The width of the picture.
    pub(crate) fn width(&self) -> u32 {
        WIDTH
    }

    /// The height of the picture.
    pub(crate) fn height(&self) -> u32 {
        TOP.saturating_add(self.groups.saturating_mul(GROUP))
            .saturating_add(16)
    }

    /// The width of a bar.
    fn width_of(&self, count: u64) -> u32 {
        let scaled = count.saturating_mul(u64::from(LONGEST));
        let width = scaled.checked_div(self.largest).unwrap_or(0);
        u32::try_from(width).unwrap_or(LONGEST)
    }

    /// Draws the ground of the picture, and the totals.
    pub(crate) fn draw_ground(&self, canvas: &mut Canvas, report: &LoadReport) {
        background(canvas, self.width(), self.height());
        canvas.done();
        words(canvas, 8, 20, HEADING);
        let totals = Totals(report);
        let _ = write!(canvas, "{totals}");
        canvas.done();
        words(canvas, 8, 38, SMALL);
        let _ = write!(
            canvas,
            "What each agent counted; all bars have one scale. Where the pointer rests on a bar, its count is told."
        );
        canvas.done();
    }

    /// Draws the bars of an agent's group, which are counted from 0.
    pub(crate) fn draw_group(&self, canvas: &mut Canvas, index: u32, row: &Row) {
        let y = TOP.saturating_add(index.saturating_mul(GROUP));
        let cpu = row.cpu.index();
        stroke(canvas, 4, y, WIDTH - 4, y, LANE_EDGE);
        let _ = write!(canvas, "CPU {cpu}");
        canvas.done();
        words(canvas, 8, y.saturating_add(18), LANE_NAME);
        let _ = write!(canvas, "CPU {cpu}");
        canvas.done();
        let mut top = y.saturating_add(7);
        for measure in MEASURES {
            self.draw_measure(canvas, top, cpu, measure, measure.of(row));
            top = top.saturating_add(BAR);
        }
    }

    /// Draws the bar of a count.
    fn draw_measure(&self, canvas: &mut Canvas, top: u32, cpu: u8, measure: Measure, count: u64) {
        let base = top.saturating_add(10);
        let width = self.width_of(count);
        let name = measure.name();
        let meaning = measure.meaning();
        words(
            canvas,
            LEFT - 8,
            base,
            "font-size=\"11\" fill=\"#222\" text-anchor=\"end\"",
        );
        let _ = write!(canvas, "{name}");
        canvas.done();
        bar(canvas, LEFT, top, width, 10, measure.style());
        let _ = write!(canvas, "CPU {cpu}: {count} {meaning}");
        canvas.done();
        words(
            canvas,
            LEFT.saturating_add(width).saturating_add(6),
            base,
            "font-size=\"11\" fill=\"#000\"",
        );
        let _ = write!(canvas, "{count}");
        canvas.done();
    }
}
