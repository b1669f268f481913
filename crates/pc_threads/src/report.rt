//! What a run came to.

ghost use Rattle.std.specs.Prelude.{◌≡◌, ◌<◌, ◌^◌};
ghost use Rattle.pc_kernel.specs.Reads.{seen};
ghost use Rattle.pc_threads.specs.Totals.{committed_by, in_all, ran_by, told_by};

mod accounted;
mod counted;
mod row;
mod weights;

use crate::book::Book;
pub(crate) use accounted::report_of;
pub use accounted::report_on;
use counted::count;
use pc_view::View;
pub use row::Row;
pub(crate) use weights::weights_of;

/// What a run came to (own).
#[derive(Drop)]
pub struct LoadReport {
    /// Known threads.
    pub threads: u64,
    /// Messages of threads.
    pub messages: u64,
    /// Threads committed.
    pub commits: u64,
    /// Ticks that the messages tell.
    pub ran: u64,
    /// What each agent counted, by CPUs.
    pub rows: Vec<Row>,
    /// The book as it was when all threads had ended.
    pub book: Book,
    /// What all agents knew together.
    pub view: View,
}

impl LoadReport {
    /// The report of a run that ended with this book, of agents that knew this together and counted that.
    pub(crate) fn new(book: Book, view: View, rows: Vec<Row>) -> LoadReport
        requires { in_all told_by book.calls < 2 ^ 32 }
        ensures threads { result.threads ≡ (seen book.kernel).threads }
        ensures messages { result.messages ≡ in_all told_by book.calls }
        ensures commits { result.commits ≡ in_all committed_by book.calls }
        ensures ran { result.ran ≡ in_all ran_by book.calls }
        ensures rows { result.rows ≡ rows }
        ensures book { result.book ≡ book }
        ensures view { result.view ≡ view }
    {
        let counted = count(book.calls());
        LoadReport {
            threads: book.kernel().threads() as u64,
            messages: counted.messages,
            commits: counted.commits,
            ran: counted.ran as u64,
            rows,
            book,
            view,
        }
    }
}
