//! The picture of a run's report.

ghost use Rattle.std.specs.Prelude.{ℕ, List, OnOk};
ghost use Rattle.std.specs.Io.KnownBytes.{Appends};
ghost use Rattle.pc_pen.specs.Drawn.{Marks, Pictures};
ghost use Rattle.pc_report.specs.Reports.{IsPictureOfReport, report_title};

use crate::chart::Chart;
use crate::totals::Totals;
use pc_pen::{Canvas, write_end, write_opening};
use pc_threads::LoadReport;
use std::io::{self, Write};

/// Writes the ground, and each agent's group of bars.
fn write_marks<W: Write>(chart: &Chart, report: &LoadReport, writer: &mut W) -> io::Result<()>
    ensures { OnOk result (Marks (W.contents writer.old) (W.contents writer.new)) }
{
    let mut canvas = Canvas::new();
    chart.draw_ground(&mut canvas, report);
    canvas.write_to(writer)?;
    write_groups(chart, report, &mut canvas, writer)
}

/// Writes each agent's group of bars.
fn write_groups<W: Write>(
    chart: &Chart,
    report: &LoadReport,
    canvas: &mut Canvas,
    writer: &mut W,
) -> io::Result<()>
    ensures { OnOk result (Marks (W.contents writer.old) (W.contents writer.new)) }
{
    let mut index = 0u32;
    for row in report.rows.as_slice() {
        canvas.clear();
        chart.draw_group(canvas, index, row);
        canvas.write_to(writer)?;
        index = index.saturating_add(1);
    }
    Ok(())
}

/// Writes the picture of a report.
fn write_picture<W: Write>(report: &LoadReport, writer: &mut W) -> io::Result<()>
    ensures { OnOk result (Pictures (report_title report.now) (W.contents writer.old) (W.contents writer.new)) }
{
    let chart = Chart::of(report);
    write_opening(chart.width(), chart.height(), &Totals(report), writer)?;
    write_marks(&chart, report, writer)?;
    write_end(writer)
}

/// Writes a picture of a run's report: a bar for each count of each agent.
///
/// It takes no memory. The picture is written piece by piece, so a writer without a buffer is slow; nothing is flushed.
pub fn draw_report<W: Write>(report: &LoadReport, writer: &mut W) -> io::Result<()>
    ensures { OnOk result
        ((written : List ℕ) × IsPictureOfReport report.now written
        × Appends (W.contents writer.old) (W.contents writer.new) written) }
{
    write_picture(report, writer)
}
