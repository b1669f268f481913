//! The book of a run that has not begun.

ghost use Rattle.std.specs.Prelude.{◌≡◌, [], IfErr, IfOk, nat_abs};
ghost use Rattle.pc_threads.specs.Totals.{limits_on};

use crate::book::{Book, RunFault};
use crate::settings::Config;
use pc_calls::{Limits, LimitsFault, MOST_NUMBERS, MOST_POSTS, MOST_ROOM, MOST_THREADS};
use std::alloc::Global;

/// The limits of a run on so many CPUs.
pub(crate) fn limits_of(cpus: u8) -> Limits
    ensures { result ≡ limits_on cpus }
{
    Limits {
        cpus,
        threads: MOST_THREADS,
        numbers: MOST_NUMBERS,
        room: MOST_ROOM,
        posts: MOST_POSTS,
    }
}

impl Book {
    /// The book of a run that has not begun, on as many CPUs as the settings say (own). `OutOfMemory` is its only
    /// fault.
    pub fn of_run(alloc: Global, config: &Config) -> Result<Book, RunFault>
        ensures nothing { IfOk result (λ book. book.calls ≡ []) }
        ensures limits { IfOk result (λ book. book.kernel.limits ≡ limits_on (nat_abs config.now.cpus)) }
        ensures memory { IfErr result (λ fault. fault ≡ RunFault.OutOfMemory) }
    {
        config.is_sound();
        match Book::new(alloc, limits_of(config.cpus())) {
            Ok(book) => Ok(book),
            Err(LimitsFault::OutOfMemory) => Err(RunFault::OutOfMemory),
            Err(LimitsFault::BadLimits(_)) => unreachable!(),
        }
    }
}
