//! How runs by seeds ended: how many with a report, and how many otherwise, by name.

ghost use Rattle.std.specs.Prelude.{ℕ, ◌≡◌, ◌+◌, ◌<◌, ◌^◌, ◌++◌, ◌∷◌, [], List, Result, Some, OnOk, codes, length};
ghost use Rattle.std.specs.Io.KnownBytes.{Appends};
ghost use Rattle.pc_program.specs.Inner.Tallying.{counted, first_counted, one_more};
ghost use Rattle.pc_program.specs.Tallies.{CountsAddUp, IsTallyOf, ending_of_tally, many, row_text, rows_text};
ghost use Rattle.pc_program.specs.Tallies.{tally_text};

use crate::ending::{Ending, Unsettled};
use pc_threads::LoadReport;
use std::fmt;
use std::io::{self, Write};

/// A run by a seed that has no report (own).
#[derive(Clone, Copy, Debug, PartialEq, Eq)]
pub struct Unreported {
    pub seed: u64,
    pub why: Unsettled,
}

/// Runs that have no report for reasons of one name (own).
#[derive(Clone, Copy, Debug, PartialEq, Eq)]
pub struct TallyRow {
    /// How many they are.
    pub runs: u64,
    /// The one of the least seed.
    pub first: Unreported,
}

/// How runs by seeds ended (own).
#[derive(Clone, Copy, Debug, PartialEq, Eq)]
pub struct Tally {
    /// All that ended.
    pub runs: u64,
    /// Those with a report.
    pub reported: u64,
    pub audit: Option<TallyRow>,
    pub incomplete: Option<TallyRow>,
    pub driver: Option<TallyRow>,
    pub gave_up: Option<TallyRow>,
    pub unaccounted: Option<TallyRow>,
    pub stalled: Option<TallyRow>,
    /// The one of the least seed of all that have no report.
    pub first: Option<Unreported>,
}

/// The row behind one more run.
fn with_one(row: Option<TallyRow>, it: Unreported) -> TallyRow
    requires few { many row + 1 < 2 ^ 64 }
    ensures row { result ≡ one_more row it }
    ensures counts { result.runs ≡ many row + 1 }
{
    match row {
        Some(row) => TallyRow {
            runs: row.runs + 1,
            ..row
        },
        None => TallyRow { runs: 1, first: it },
    }
}

impl Tally {
    /// No run ended yet.
    pub(crate) fn new() -> Tally
        ensures tallies { (seed : ℕ) → IsTallyOf seed [] result }
        ensures adds_up { CountsAddUp result }
        ensures runs { result.runs ≡ 0 }
    {
        Tally {
            runs: 0,
            reported: 0,
            audit: None,
            incomplete: None,
            driver: None,
            gave_up: None,
            unaccounted: None,
            stalled: None,
            first: None,
        }
    }

    /// Behind one more run, of the next seed.
    pub(crate) fn with(self, seed: u64, ended: &Result<LoadReport, Unsettled>) -> Tally
        requires adds_up { CountsAddUp self }
        requires few { self.runs + 1 < 2 ^ 64 }
        ensures tallies { (first : ℕ) (endings : List (Result LoadReport Unsettled)) → IsTallyOf first endings self →
            seed ≡ first + length endings → IsTallyOf first (endings ++ ended.now ∷ []) result }
        ensures adds_up { CountsAddUp result }
        ensures runs { result.runs ≡ self.runs + 1 }
    {
        match ended {
            Ok(_) => Tally {
                runs: self.runs + 1,
                reported: self.reported + 1,
                ..self
            },
            Err(why) => {
                let it = Unreported { seed, why: *why };
                self.with_unreported(&it)
            }
        }
    }

    /// Behind one more run, which has no report.
    fn with_unreported(&self, it: &Unreported) -> Tally
        requires adds_up { CountsAddUp self.now }
        requires few { self.now.runs + 1 < 2 ^ 64 }
        ensures runs { result.runs ≡ self.now.runs + 1 }
        ensures reported { result.reported ≡ self.now.reported }
        ensures audit { result.audit ≡ counted (codes "Audit") self.now.audit it.now }
        ensures incomplete { result.incomplete ≡ counted (codes "Incomplete") self.now.incomplete it.now }
        ensures driver { result.driver ≡ counted (codes "Driver") self.now.driver it.now }
        ensures gave_up { result.gave_up ≡ counted (codes "GaveUp") self.now.gave_up it.now }
        ensures unaccounted { result.unaccounted ≡ counted (codes "Unaccounted") self.now.unaccounted it.now }
        ensures stalled { result.stalled ≡ counted (codes "Stalled") self.now.stalled it.now }
        ensures first { result.first ≡ first_counted self.now.first it.now }
        ensures adds_up { CountsAddUp result }
    {
        let tally = Tally {
            runs: self.runs + 1,
            first: Some(self.first.unwrap_or(*it)),
            ..*self
        };
        match it.why {
            Unsettled::Audit => Tally {
                audit: Some(with_one(self.audit, *it)),
                ..tally
            },
            Unsettled::Incomplete => Tally {
                incomplete: Some(with_one(self.incomplete, *it)),
                ..tally
            },
            Unsettled::Driver => Tally {
                driver: Some(with_one(self.driver, *it)),
                ..tally
            },
            Unsettled::GaveUp => Tally {
                gave_up: Some(with_one(self.gave_up, *it)),
                ..tally
            },
            Unsettled::Unaccounted => Tally {
                unaccounted: Some(with_one(self.unaccounted, *it)),
                ..tally
            },
            Unsettled::Stalled(_) => Tally {
                stalled: Some(with_one(self.stalled, *it)),
                ..tally
            },
        }
    }

    /// How the program ends where so many of these runs were to be tried.
    pub(crate) fn ending(&self, many: u32) -> Ending
        ensures { result ≡ ending_of_tally many self.now }
    {
        if self.runs < many as u64 {
            return Ending::Run(Unsettled::GaveUp);
        }
        match self.first {
            Some(first) => Ending::Run(first.why),
            None => Ending::Finished,
        }
    }
}

/// A line of a tally: none where no run ended so.
#[derive(Clone, Copy)]
struct RowLine(Option<TallyRow>);

impl fmt::Display for RowLine {
    ghost output = { λ line. Some (row_text line.0) };

    fn fmt<W: fmt::Write>(&self, f: &mut fmt::Formatter<W>) -> fmt::Result {
        let Some(row) = self.0 else { return Ok(()) };
        let TallyRow { runs, first } = row;
        let Unreported { seed, why } = first;
        let name = why.name();
        writeln!(f, "{name} {runs} first {seed}")
    }
}

/// The lines of a tally of runs without a report.
#[derive(Clone, Copy)]
struct RowLines<'a>(&'a Tally);

impl fmt::Display for RowLines<'_> {
    ghost output = { λ lines. Some (rows_text lines.0.now) };

    fn fmt<W: fmt::Write>(&self, f: &mut fmt::Formatter<W>) -> fmt::Result {
        let audit = RowLine(self.0.audit);
        let incomplete = RowLine(self.0.incomplete);
        let driver = RowLine(self.0.driver);
        let gave_up = RowLine(self.0.gave_up);
        let unaccounted = RowLine(self.0.unaccounted);
        let stalled = RowLine(self.0.stalled);
        write!(f, "{audit}{incomplete}{driver}")?;
        write!(f, "{gave_up}{unaccounted}{stalled}")
    }
}

/// Writes the tally, a line for each count.
pub(crate) fn write_tally<W: Write>(writer: &mut W, tally: &Tally) -> io::Result<()>
    ensures { OnOk result (Appends (W.contents writer.old) (W.contents writer.new) (tally_text tally.now)) }
{
    let runs = tally.runs;
    let reported = tally.reported;
    let rows = RowLines(tally);
    write!(writer, "runs {runs}\nreported {reported}\n{rows}")
}
