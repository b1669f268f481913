//! What lies under the lock of a run: the book, with ledgers of what its calls come to.

ghost use Rattle.std.specs.Prelude.{ℕ, ◌≡◌, ◌<◌, ◌≤◌, ◌+◌, ◌-◌, ◌*◌, ◌^◌, IfOk, OnErr, OnOk, if◌then◌else◌};
ghost use Rattle.pc_calls.specs.declared.call.Call.TheVariants.{Env};
ghost use Rattle.pc_threads.specs.Pages.{Pages};
ghost use Rattle.pc_agent.specs.Shows.{cpu_of};
ghost use Rattle.pc_threads.specs.Inner.Shares.{HasPosted};
ghost use Rattle.pc_threads.specs.Inner.Turns.{ListsUnder, commits_of};
ghost use Rattle.pc_threads.specs.Totals.{committed_by, consumed_by, created_by, died_by, in_all, left_by, limits_on};
ghost use Rattle.pc_threads.specs.Totals.{ran_by, taken_over_by, told_by};

use crate::book::Book;
use crate::report::weights_of;
use crate::runner::ledgers::{Names, Pool, Purse};
use crate::runner::worker::Worker;
use pc_calls::{CallFault, EnvCall, Posted, Refusal};
use pc_messages::{Cpu, Tid};
use std::sync::ledger;

/// The book, and the ledgers of what its listed calls come to.
#[derive(Drop)]
pub(crate) struct Tallied<N: Names> {
    pub(crate) book: Book,
    pub(crate) cpus: ledger::Book<N::Cpus>,
    pub(crate) created: ledger::Book<N::Created>,
    pub(crate) told: ledger::Book<N::Told>,
    pub(crate) ran: ledger::Book<N::Ran>,
    pub(crate) left: ledger::Book<N::Left>,
    pub(crate) died: ledger::Book<N::Died>,
    pub(crate) committed: ledger::Book<N::Committed>,
    pub(crate) taken_over: ledger::Book<N::TakenOver>,
    pub(crate) consumed: ledger::Book<N::Consumed>,
    ghost limits_are: { book.kernel.limits ≡ limits_on cpus.total },
    ghost created_is: { created.total ≡ in_all created_by book.calls },
    ghost told_is: { told.total ≡ in_all told_by book.calls },
    ghost ran_is: { ran.total ≡ in_all ran_by book.calls },
    ghost left_is: { left.total ≡ in_all left_by book.calls },
    ghost died_is: { died.total ≡ in_all died_by book.calls },
    ghost committed_is: { committed.total ≡ in_all committed_by book.calls },
    ghost taken_over_is: { taken_over.total ≡ in_all taken_over_by book.calls },
    ghost consumed_is: { consumed.total ≡ in_all consumed_by book.calls },
}

/// How an agent's answer came out.
#[derive(Clone, Copy, Debug, PartialEq, Eq)]
pub(crate) struct Acted {
    /// A thread was committed.
    pub(crate) committed: bool,
    /// A steal was refused for what the agent does not know yet.
    pub(crate) lacks: bool,
    /// The agent sleeps.
    pub(crate) asleep: bool,
}

/// Whether a thread was committed, and whether a steal was refused for what the agent does not know yet.
#[derive(Clone, Copy, Debug, PartialEq, Eq)]
enum Tried {
    Committed,
    Lacks,
    Nothing,
}

impl Tried {
    /// Whether a thread was committed.
    fn has_committed(&self) -> bool
        ensures { commits_of self.now ≡ (if result then 1 else 0) }
    {
        match self {
            Tried::Committed => true,
            Tried::Lacks | Tried::Nothing => false,
        }
    }
}

/// No count of a book's calls reaches the greatest value of an agent's.
fn are_bounded(book: &Book)
    ensures committed { in_all committed_by book.now.calls < 2 ^ 64 }
    ensures taken_over { in_all taken_over_by book.now.calls < 2 ^ 64 }
    ensures consumed { in_all consumed_by book.now.calls < 2 ^ 64 }
{
    book.is_replay();
    book.kernel().is_sound();
    let _listed = book.calls().len();
}

impl<N: Names> Tallied<N> {
    /// Makes the call of the environment, by the driver.
    pub(crate) fn post(&mut self, purse: &mut Purse<N>, call: EnvCall) -> Result<Posted, CallFault>
        ensures { OnOk result (HasPosted (created_by (Env call)) (told_by (Env call)) (ran_by (Env call))
            (left_by (Env call)) (died_by (Env call)) purse.old purse.new) }
    {
        let weights = weights_of(&call);
        let posted = self.book.post(call)?;
        self.created.add(&mut purse.created, weights.created);
        self.told.add(&mut purse.told, weights.told);
        self.ran.add(&mut purse.ran, weights.ran);
        self.left.add(&mut purse.left, weights.left);
        self.died.add(&mut purse.died, weights.died);
        Ok(posted)
    }

    /// The agent removes what it has sent.
    pub(crate) fn consume(&mut self, worker: &mut Worker<N>) -> Result<u32, CallFault>
        ensures cpu { cpu_of worker.new.agent ≡ cpu_of worker.old.agent }
        ensures under { OnOk result ((aseq : ℕ) →
            ListsUnder (cpu_of worker.old.agent) aseq 0 0 self.old.book.calls self.new.book.calls) }
    {
        match self.book.consume(&mut worker.agent) {
            Ok(count) => {
                are_bounded(&self.book);
                self.consumed.add(&mut worker.consumed, count as u64);
                self.consumed.audit(&mut worker.consumed);
                Ok(count)
            }
            Err(fault) => Err(fault),
        }
    }

    /// The agent commits a thread of its run list.
    fn pick(&mut self, worker: &mut Worker<N>, aseq: u32) -> Result<Tid, CallFault>
        ensures cpu { cpu_of worker.new.agent ≡ cpu_of worker.old.agent }
        ensures under { OnOk result
            (ListsUnder (cpu_of worker.old.agent) aseq 1 0 self.old.book.calls self.new.book.calls) }
        ensures err { OnErr result (self.new.book ≡ self.old.book) }
    {
        match self.book.pick(&mut worker.agent, aseq) {
            Ok(thread) => {
                are_bounded(&self.book);
                self.committed.add(&mut worker.committed, 1);
                self.committed.audit(&mut worker.committed);
                Ok(thread)
            }
            Err(fault) => Err(fault),
        }
    }

    /// The agent takes a thread over.
    fn steal(&mut self, worker: &mut Worker<N>) -> Result<Tid, CallFault>
        ensures cpu { cpu_of worker.new.agent ≡ cpu_of worker.old.agent }
        ensures under { OnOk result ((aseq : ℕ) →
            ListsUnder (cpu_of worker.old.agent) aseq 0 0 self.old.book.calls self.new.book.calls) }
        ensures err { OnErr result (self.new.book ≡ self.old.book) }
    {
        match self.book.steal(&mut worker.agent) {
            Ok(thread) => {
                are_bounded(&self.book);
                self.taken_over.add(&mut worker.taken_over, 1);
                self.taken_over.audit(&mut worker.taken_over);
                Ok(thread)
            }
            Err(fault) => Err(fault),
        }
    }

    /// The agent takes a thread over and picks again.
    fn steal_and_pick(&mut self, worker: &mut Worker<N>, aseq: u32) -> Result<Tried, CallFault>
        ensures cpu { cpu_of worker.new.agent ≡ cpu_of worker.old.agent }
        ensures under { IfOk result (λ tried. ListsUnder (cpu_of worker.old.agent) aseq (commits_of tried) 0
            self.old.book.calls self.new.book.calls) }
    {
        match self.steal(worker) {
            Ok(_) => {}
            Err(CallFault::Refused(Refusal::Stale(_) | Refusal::Pending | Refusal::Dead)) => {
                return Ok(Tried::Lacks);
            }
            Err(CallFault::Refused(_)) => return Ok(Tried::Nothing),
            Err(CallFault::OutOfMemory) => return Err(CallFault::OutOfMemory),
        }
        match self.pick(worker, aseq) {
            Ok(_) => Ok(Tried::Committed),
            Err(CallFault::Refused(_)) => Ok(Tried::Nothing),
            Err(CallFault::OutOfMemory) => Err(CallFault::OutOfMemory),
        }
    }

    /// The agent picks, and where nothing is ready takes a thread over and picks again.
    fn commit(&mut self, worker: &mut Worker<N>, aseq: u32) -> Result<Tried, CallFault>
        ensures cpu { cpu_of worker.new.agent ≡ cpu_of worker.old.agent }
        ensures under { IfOk result (λ tried. ListsUnder (cpu_of worker.old.agent) aseq (commits_of tried) 0
            self.old.book.calls self.new.book.calls) }
    {
        match self.pick(worker, aseq) {
            Ok(_) => Ok(Tried::Committed),
            Err(CallFault::Refused(Refusal::NothingReady)) => self.steal_and_pick(worker, aseq),
            Err(CallFault::Refused(_)) => Ok(Tried::Nothing),
            Err(CallFault::OutOfMemory) => Err(CallFault::OutOfMemory),
        }
    }

    /// Puts the CPU's agent to sleep, where it has read all posts to its queue.
    fn sleep(&mut self, cpu: Cpu, aseq: u32) -> Result<bool, CallFault>
        ensures { IfOk result (λ asleep. ListsUnder cpu aseq 0 (if asleep then 1 else 0)
            self.old.book.calls self.new.book.calls) }
    {
        match self.book.sleep(cpu, aseq) {
            Ok(()) => Ok(true),
            Err(CallFault::Refused(Refusal::Stale(_))) => Ok(false),
            Err(fault) => Err(fault),
        }
    }

    /// All that an agent does in one section of the lock after it read its queue under this count of posts: whatever
    /// was posted since, its commit and its sleep are under that count.
    pub(crate) fn act(&mut self, worker: &mut Worker<N>, aseq: u32) -> Result<Acted, CallFault>
        ensures under { IfOk result (λ acted. ListsUnder (cpu_of worker.old.agent) aseq
            (if acted.committed then 1 else 0) (if acted.asleep then 1 else 0)
            self.old.book.calls self.new.book.calls) }
    {
        self.consume(worker)?;
        let tried = self.commit(worker, aseq)?;
        let asleep = self.sleep(worker.agent.cpu(), aseq)?;
        Ok(Acted {
            committed: tried.has_committed(),
            lacks: tried == Tried::Lacks,
            asleep,
        })
    }

    /// Wakes the CPU's agent.
    pub(crate) fn rouse(&mut self, cpu: Cpu) -> Result<(), CallFault> {
        self.book.rouse(cpu)
    }

    /// The book, when all shares have come back.
    pub(crate) fn close(self, purse: Purse<N>, pool: Pool<N>) -> Book
        requires cpus { N.Cpus.parts ≡ 1 }
        requires created { N.Created.parts ≡ 1 }
        requires told { N.Told.parts ≡ 1 }
        requires ran { N.Ran.parts ≡ 1 }
        requires left { N.Left.parts ≡ 1 }
        requires died { N.Died.parts ≡ 1 }
        requires committed { N.Committed.parts ≡ pool.agents }
        requires taken_over { N.TakenOver.parts ≡ pool.agents }
        requires consumed { N.Consumed.parts ≡ pool.agents }
        ensures limits { result.kernel.limits ≡ limits_on purse.cpus }
        ensures created { in_all created_by result.calls ≡ purse.created }
        ensures told { in_all told_by result.calls ≡ purse.told }
        ensures ran { in_all ran_by result.calls ≡ purse.ran }
        ensures left { in_all left_by result.calls ≡ purse.left }
        ensures died { in_all died_by result.calls ≡ purse.died }
        ensures committed { in_all committed_by result.calls ≡ pool.committed }
        ensures taken_over { in_all taken_over_by result.calls ≡ pool.taken_over }
        ensures consumed { in_all consumed_by result.calls ≡ pool.consumed }
    {
        let mut all = self;
        let mut purse = purse;
        let mut pool = pool;
        all.cpus.audit(&mut purse.cpus);
        all.created.audit(&mut purse.created);
        all.told.audit(&mut purse.told);
        all.ran.audit(&mut purse.ran);
        all.left.audit(&mut purse.left);
        all.died.audit(&mut purse.died);
        all.committed.audit(&mut pool.committed);
        all.taken_over.audit(&mut pool.taken_over);
        all.consumed.audit(&mut pool.consumed);
        let Tallied { book, .. } = all;
        book
    }
}
