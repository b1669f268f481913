//! A run's report, as text or as a picture.

ghost use Rattle.std.specs.Prelude.{Some, OnOk};
ghost use Rattle.pc_program.specs.ReportText.{IsReport, row_text, rows_text, totals_text};
ghost use Rattle.pc_program.specs.ReportText.{refusals_row_text, refusals_rows_text};

use pc_report::draw_report;
use pc_threads::{LoadReport, Row};
use std::fmt;
use std::io::{self, Write};

/// How a report is told.
#[derive(Clone, Copy, Debug, PartialEq, Eq)]
pub enum ReportForm {
    /// What the whole run came to, in four lines.
    Totals,
    /// That, and a line for each CPU.
    EachCpu,
    /// The same, and at the end of each line refusals by name.
    EachRefusal,
    /// A picture of both.
    Picture,
}

/// What a whole run came to, a line for each number.
#[derive(Clone, Copy)]
struct TotalLines<'a>(&'a LoadReport);

impl fmt::Display for TotalLines<'_> {
    ghost output = { λ totals. Some (totals_text totals.0.now) };

    fn fmt<W: fmt::Write>(&self, f: &mut fmt::Formatter<W>) -> fmt::Result {
        let threads = self.0.threads;
        let messages = self.0.messages;
        let commits = self.0.commits;
        let ran = self.0.ran;
        writeln!(f, "threads {threads}")?;
        writeln!(f, "messages {messages}")?;
        writeln!(f, "commits {commits}")?;
        writeln!(f, "ran {ran}")
    }
}

/// What one CPU's agent counted.
#[derive(Clone, Copy)]
struct CpuRow<'a>(&'a Row);

impl fmt::Display for CpuRow<'_> {
    ghost output = { λ row. Some (row_text row.0.now) };

    fn fmt<W: fmt::Write>(&self, f: &mut fmt::Formatter<W>) -> fmt::Result {
        let cpu = self.0.cpu.index();
        let taken = self.0.taken;
        let commits = self.0.commits;
        let steals = self.0.steals;
        let stale = self.0.stale;
        let pending = self.0.pending;
        let other = self.0.other;
        write!(
            f,
            "cpu {cpu} taken {taken} commits {commits} steals {steals}"
        )?;
        write!(f, " stale {stale} pending {pending} other {other}")
    }
}

/// What one CPU's agent counted, and what it was refused by name.
#[derive(Clone, Copy)]
struct RefusalsRow<'a>(&'a Row);

impl fmt::Display for RefusalsRow<'_> {
    ghost output = { λ row. Some (refusals_row_text row.0.now) };

    #[tactic(auto, unfolding(crate::specs::ReportText::refusals_row_text))]
    fn fmt<W: fmt::Write>(&self, f: &mut fmt::Formatter<W>) -> fmt::Result {
        let row = CpuRow(self.0);
        let busy = self.0.busy;
        let nothing_ready = self.0.nothing_ready;
        let nothing_to_steal = self.0.nothing_to_steal;
        let dead = self.0.dead;
        write!(f, "{row} Busy {busy} NothingReady {nothing_ready}")?;
        write!(f, " NothingToSteal {nothing_to_steal} Dead {dead}")
    }
}

/// The same, a line for each CPU.
#[derive(Clone, Copy)]
struct RefusalsRows<'a>(&'a [Row]);

impl fmt::Display for RefusalsRows<'_> {
    ghost output = { λ rows. Some (refusals_rows_text rows.0.now) };

    fn fmt<W: fmt::Write>(&self, f: &mut fmt::Formatter<W>) -> fmt::Result {
        for row in self.0 {
            let line = RefusalsRow(row);
            writeln!(f, "{line}")?;
        }
        Ok(())
    }
}

/// What the agents counted, a line for each CPU.
#[derive(Clone, Copy)]
struct CpuRows<'a>(&'a [Row]);

impl fmt::Display for CpuRows<'_> {
    ghost output = { λ rows. Some (rows_text rows.0.now) };

    fn fmt<W: fmt::Write>(&self, f: &mut fmt::Formatter<W>) -> fmt::Result {
        for row in self.0 {
            let line = CpuRow(row);
            writeln!(f, "{line}")?;
        }
        Ok(())
    }
}

/// Writes the report in its form.
pub(crate) fn write_report<W: Write>(
    writer: &mut W,
    report: &LoadReport,
    form: ReportForm,
) -> io::Result<()>
    ensures { OnOk result (IsReport form report.now (W.contents writer.old) (W.contents writer.new)) }
{
    let totals = TotalLines(report);
    let rows = CpuRows(report.rows.as_slice());
    let refusals = RefusalsRows(report.rows.as_slice());
    match form {
        ReportForm::Totals => write!(writer, "{totals}"),
        ReportForm::EachCpu => write!(writer, "{totals}{rows}"),
        ReportForm::EachRefusal => write!(writer, "{totals}{refusals}"),
        ReportForm::Picture => draw_report(report, writer),
    }
}
