//! What a picture says of its report.

ghost use Rattle.std.specs.Prelude.{Some};
ghost use Rattle.pc_report.specs.Reports.{report_title};

use pc_threads::LoadReport;
use std::fmt;

/// The totals of a report: `threads 2, messages 8, commits 3, ran 5`.
#[derive(Clone, Copy)]
pub(crate) struct Totals<'a>(pub(crate) &'a LoadReport);

impl fmt::Display for Totals<'_> {
    ghost output = { λ totals. Some (report_title totals.0.now) };

    fn fmt<W: fmt::Write>(&self, f: &mut fmt::Formatter<W>) -> fmt::Result {
        let threads = self.0.threads;
        let messages = self.0.messages;
        let commits = self.0.commits;
        let ran = self.0.ran;
        write!(
            f,
            "threads {threads}, messages {messages}, commits {commits}, ran {ran}"
        )
    }
}
