//! The report of a run, and whether it did what its settings ask for.

ghost use Rattle.std.specs.Prelude.{◌≡◌, ◌≢◌, ◌<◌, ◌≤◌, ◌↔◌, ◌^◌, pos, true, Err, IfOk, length, sum_by, vec_len};
ghost use Rattle.pc_calls.specs.declared.limits.TheConstants.{MOST_CPUS};
ghost use Rattle.pc_kernel.specs.Reads.{seen};
ghost use Rattle.pc_threads.specs.Pages.{run_of};
ghost use Rattle.pc_threads.specs.Reports.{AddsUp, DoesAll, IsAccountedFor, TellsItsBook, view_in};
ghost use Rattle.pc_threads.specs.Settling.{Settles};
ghost use Rattle.pc_threads.specs.Totals.{in_all, told_by};

use crate::book::{Book, RunFault, limits_of, settle};
use crate::report::LoadReport;
use crate::report::counted::{Counted, count};
use crate::report::row::Row;
use crate::settings::{Amounts, Config, amounts_of};
use pc_view::View;
use std::alloc::Global;

/// The report of a run that ended with this book, of agents that knew this and counted that.
pub(crate) fn report_of(
    alloc: Global,
    book: Book,
    views: &[View],
    rows: Vec<Row>,
) -> Result<LoadReport, RunFault>
    requires few { length views.now ≤ MOST_CPUS }
    requires counted { in_all told_by book.calls < 2 ^ 32 }
    ensures tells { IfOk result TellsItsBook }
    ensures settles { Settles (run_of book) views.now (view_in result) }
    ensures book { IfOk result (λ report. report.book ≡ book) }
    ensures rows { IfOk result (λ report. report.rows ≡ rows) }
{
    let view = settle(alloc, &book, views)?;
    Ok(LoadReport::new(book, view, rows))
}

/// What rows of agents come to. Sums of counts are wider than the counts.
#[derive(Clone, Copy, Debug, PartialEq, Eq)]
struct Summed {
    commits: u128,
    steals: u128,
    taken: u128,
}

/// What the rows come to.
fn sum(rows: &[Row]) -> Summed
    ensures commits { result.commits ≡ sum_by (λ row. row.commits) rows.now }
    ensures steals { result.steals ≡ sum_by (λ row. row.steals) rows.now }
    ensures taken { result.taken ≡ sum_by (λ row. row.taken) rows.now }
{
    let mut all = Summed {
        commits: 0,
        steals: 0,
        taken: 0,
    };
    for row in rows {
        all = Summed {
            commits: all.commits + row.commits as u128,
            steals: all.steals + row.steals as u128,
            taken: all.taken + row.taken as u128,
        };
    }
    all
}

/// What the rows have to come to, of a book whose calls come to this.
fn to_count(counted: &Counted) -> Summed
    ensures commits { result.commits ≡ counted.now.commits }
    ensures steals { result.steals ≡ counted.now.taken_over }
    ensures taken { result.taken ≡ counted.now.consumed }
{
    Summed {
        commits: counted.commits as u128,
        steals: counted.taken_over as u128,
        taken: counted.consumed,
    }
}

/// What the threads of the book came to, whose calls come to this.
fn done_in(book: &Book, counted: &Counted) -> Amounts
    ensures threads { result.threads ≡ (seen book.now.kernel).threads }
    ensures messages { result.messages ≡ counted.now.messages }
    ensures steps { result.steps ≡ counted.now.commits }
    ensures ran { result.ran ≡ counted.now.ran }
{
    Amounts {
        threads: book.kernel().threads() as u64,
        messages: counted.messages,
        steps: counted.commits,
        ran: counted.ran,
    }
}

/// Whether the book and the rows come to what the settings ask for.
fn is_accounted_for(config: &Config, book: &Book, rows: &[Row]) -> bool
    ensures { (result ≡ true) ↔ IsAccountedFor config.now book.now rows.now }
{
    let counted = count(book.calls());
    book.kernel().limits() == limits_of(config.cpus())
        && done_in(book, &counted) == amounts_of(config)
        && sum(rows) == to_count(&counted)
        && rows.len() == config.cpus() as usize
}

/// The report of a run by these settings that ended with this book, whose agents, on CPUs 0, 1, .., knew this and
/// counted that (own). What `run_agents_by` promises of its report holds of it.
///
/// `Unaccounted` exactly where the book, or the rows, do not come to what the settings ask for; then `Audit`,
/// `OutOfMemory` and `Incomplete`, as `settle` tells them.
pub fn report_on(
    alloc: Global,
    config: &Config,
    book: Book,
    views: &[View],
    rows: Vec<Row>,
) -> Result<LoadReport, RunFault>
    requires few { length views.now ≤ MOST_CPUS }
    ensures tells { IfOk result TellsItsBook }
    ensures adds_up { IfOk result AddsUp }
    ensures all { IfOk result (DoesAll config.now) }
    ensures rows { IfOk result (λ report. pos (vec_len report.rows) ≡ config.now.cpus) }
    ensures book { IfOk result (λ report. report.book ≡ book) }
    ensures keeps { IfOk result (λ report. report.rows ≡ rows) }
    ensures unaccounted { (result ≡ Err RunFault.Unaccounted) ↔ ¬ IsAccountedFor config.now book rows.items }
    ensures settles { result ≢ Err RunFault.Unaccounted → Settles (run_of book) views.now (view_in result) }
{
    if !is_accounted_for(config, &book, rows.as_slice()) {
        return Err(RunFault::Unaccounted);
    }
    config.is_sound();
    // The proof speaks of the report by its name.
    let report = report_of(alloc, book, views, rows)?;
    Ok(report)
}
