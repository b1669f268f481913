//! The ledgers of a new run.

ghost use Rattle.std.specs.Prelude.{◌≡◌, [], IfOk, length, nat_abs};
ghost use Rattle.pc_threads.specs.Inner.Blanks.{AreBlanksOf};
ghost use Rattle.pc_threads.specs.Inner.Shares.{HasPosted, idle, unspent};
ghost use Rattle.pc_threads.specs.Totals.{limits_on};

use crate::book::{Book, RunFault};
use crate::runner::driver::create_all;
use crate::runner::ledgers::{Names, Pool, Purse};
use crate::runner::tallied::Tallied;
use crate::settings::Config;
use std::alloc::Global;
use std::sync::ledger::Blank;

/// Nine ledgers that no type stands for yet.
#[derive(Drop)]
pub(crate) struct Blanks {
    pub(crate) cpus: Blank,
    pub(crate) created: Blank,
    pub(crate) told: Blank,
    pub(crate) ran: Blank,
    pub(crate) left: Blank,
    pub(crate) died: Blank,
    pub(crate) committed: Blank,
    pub(crate) taken_over: Blank,
    pub(crate) consumed: Blank,
}

/// The book of a run that has not begun, with the shares of all that may happen.
#[derive(Drop)]
pub(crate) struct Opened<N: Names> {
    pub(crate) tallied: Tallied<N>,
    pub(crate) purse: Purse<N>,
    pub(crate) pool: Pool<N>,
}

/// Opens the ledgers over a new book.
fn open<N: Names>(book: Book, cpus: u8, blanks: Blanks) -> Opened<N>
    requires new { (book.calls ≡ []) × (book.kernel.limits ≡ limits_on cpus) }
    requires named { AreBlanksOf N.Cpus.Ledger N.Created.Ledger N.Told.Ledger N.Ran.Ledger N.Left.Ledger
        N.Died.Ledger N.Committed.Ledger N.TakenOver.Ledger N.Consumed.Ledger blanks }
    ensures nothing { result.pool ≡ idle blanks.committed.parts }
    ensures none { result.purse ≡ unspent cpus }
{
    let (mut all_cpus, mut cpus_share) = blanks.cpus.open::<N::Cpus>();
    let (created, created_share) = blanks.created.open::<N::Created>();
    let (told, told_share) = blanks.told.open::<N::Told>();
    let (ran, ran_share) = blanks.ran.open::<N::Ran>();
    let (left, left_share) = blanks.left.open::<N::Left>();
    let (died, died_share) = blanks.died.open::<N::Died>();
    let (committed, committed_share) = blanks.committed.open::<N::Committed>();
    let (taken_over, taken_over_share) = blanks.taken_over.open::<N::TakenOver>();
    let (consumed, consumed_share) = blanks.consumed.open::<N::Consumed>();
    all_cpus.add(&mut cpus_share, cpus as u64);
    Opened {
        tallied: Tallied {
            book,
            cpus: all_cpus,
            created,
            told,
            ran,
            left,
            died,
            committed,
            taken_over,
            consumed,
        },
        purse: Purse {
            cpus: cpus_share,
            created: created_share,
            told: told_share,
            ran: ran_share,
            left: left_share,
            died: died_share,
        },
        pool: Pool {
            committed: committed_share,
            taken_over: taken_over_share,
            consumed: consumed_share,
        },
    }
}

/// Opens the ledgers over the book of a run, and creates its threads.
pub(crate) fn begin<N: Names>(
    alloc: Global,
    config: &Config,
    blanks: Blanks,
) -> Result<Opened<N>, RunFault>
    requires named { AreBlanksOf N.Cpus.Ledger N.Created.Ledger N.Told.Ledger N.Ran.Ledger N.Left.Ledger
        N.Died.Ledger N.Committed.Ledger N.TakenOver.Ledger N.Consumed.Ledger blanks }
    ensures nothing { IfOk result (λ opened. opened.pool ≡ idle blanks.committed.parts) }
    ensures created { IfOk result (λ opened. HasPosted (length config.now.threads) (length config.now.threads) 0 0 0
        (unspent (nat_abs config.now.cpus)) opened.purse) }
{
    config.is_sound();
    let cpus = config.cpus();
    let book = Book::of_run(alloc, config)?;
    let Opened {
        mut tallied,
        mut purse,
        pool,
    } = open::<N>(book, cpus, blanks);
    create_all(config.threads(), &mut tallied, &mut purse)?;
    Ok(Opened {
        tallied,
        purse,
        pool,
    })
}
