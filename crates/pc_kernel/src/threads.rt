//! What the kernel keeps of each thread.

ghost use Rattle.std.specs.Prelude.{◌≡◌, ◌+◌, ◌<◌, ◌≤◌, ◌^◌, ℕ, Some, [], ◌∷◌, ◌++◌, length, IfOk, OnErr, IsTrue};
ghost use Rattle.pc_messages.specs.State.{ran_given, state_of};
ghost use Rattle.pc_messages.specs.declared.kind.TheConstants.{MOST_TICKS};
ghost use Rattle.pc_messages.specs.declared.message.TheConstants.{GREATEST_NUMBER};
ghost use Rattle.pc_messages.specs.Run.{is_created};
ghost use Rattle.std.specs.Vec.{vec_len, vec_capacity};
ghost use Rattle.pc_kernel.specs.Inner.Entries.{AreTargets};

use crate::cpus::{CpuEntry, post};
use pc_calls::Posted;
use pc_messages::{Cpu, Item, Kind, Message, Reported, Tid};
use std::alloc::{AllocError, Global};
use std::marker::Model;

/// A thread: its home queue, the kinds of its messages, the state that they report, and the CPU that it runs on.
///
/// Beside them stands the home queue's count of posts after its last one of the thread, so that whether a message of
/// the thread is pending there takes no search; 0 where no post was, since the thread came there.
#[derive(Drop)]
pub(crate) struct ThreadEntry {
    home: Cpu,
    kinds: Vec<Kind>,
    state: Reported,
    on: Option<Cpu>,
    last_post: u32,
}

impl Model for ThreadEntry {
    ghost use Rattle.pc_kernel.specs.Inner.LastPosts.{KeptThread};
    ghost use Rattle.pc_kernel.specs.Inner.ThreadEntry.{IsEntry};

    ghost Value = { KeptThread };

    ghost view = { λ e. record { home = e.home; kinds = e.kinds.items; on = e.on; last_post = e.last_post } };

    ghost invariant = { λ e. IsEntry e.kinds.items e.state };
}

impl ThreadEntry {
    ghost use Rattle.pc_kernel.specs.Inner.LastPosts.{thread_row_of};
    ghost use Rattle.pc_kernel.specs.Inner.ThreadEntry.{IsTold};

    /// A thread with its first message, which is yet to be posted, on no CPU.
    pub(crate) fn first(alloc: Global, home: Cpu, kind: &Kind) -> Result<Self, AllocError>
        requires { IsTrue (is_created kind.now) }
        ensures { IfOk result (λ e. e ≡ record { home = home; kinds = kind.now ∷ []; on = None; last_post = 0 }) }
    {
        let state = match Reported::first(*kind) {
            Some(state) => state,
            None => unreachable!(),
        };
        let mut kinds = Vec::with_capacity(alloc, 1)?;
        append(&mut kinds, kind);
        Ok(ThreadEntry {
            home,
            kinds,
            state,
            on: None,
            last_post: 0,
        })
    }

    /// The home queue.
    pub(crate) fn home(&self) -> Cpu
        ensures { result ≡ self.now.home }
    {
        self.home
    }

    /// The number of the last message.
    pub(crate) fn number(&self) -> u32
        ensures number { result ≡ length self.now.kinds }
        ensures greatest { result ≤ GREATEST_NUMBER }
    {
        self.kinds.len() as u32
    }

    /// The kinds of the messages, in order.
    pub(crate) fn kinds(&self) -> &[Kind]
        ensures { result.now ≡ self.now.kinds }
    {
        &self.kinds
    }

    /// The state that the messages report.
    pub(crate) fn state(&self) -> &Reported
        ensures { state_of self.now.kinds ≡ Some result.now }
    {
        &self.state
    }

    /// The CPU that the thread runs on.
    pub(crate) fn on(&self) -> Option<Cpu>
        ensures { result ≡ self.now.on }
    {
        self.on
    }

    /// The home queue's count of posts after its last one of the thread; 0 where none was, since the thread came there.
    pub(crate) fn last_post(&self) -> u32
        ensures { result ≡ self.now.last_post }
    {
        self.last_post
    }

    /// Notes the home queue's count of posts, right after one of the thread.
    pub(crate) fn set_last_post(&mut self, last_post: u32)
        ensures { self.new ≡ record self.old { last_post = last_post } }
    {
        self.last_post = last_post;
    }

    /// Puts the thread on a CPU, or on none.
    pub(crate) fn set_on(&mut self, on: Option<Cpu>)
        ensures { self.new ≡ record self.old { on = on } }
    {
        self.on = on;
    }

    /// Gives the thread another home queue, which has had no post of it since.
    pub(crate) fn set_home(&mut self, home: Cpu)
        ensures { self.new ≡ record self.old { home = home; last_post = 0 } }
    {
        self.home = home;
        self.last_post = 0;
    }

    /// Tells of one more message: posts it to the home queue, and adds it to the history. Both growths come before
    /// any change.
    #[inline(always)]
    pub(crate) fn tell(
        &mut self,
        thread: Tid,
        kind: Kind,
        cpus: &mut Vec<CpuEntry>,
    ) -> Result<Posted, AllocError>
        requires home { self.old.home < length cpus.old.items }
        requires targets { AreTargets cpus.old.items }
        requires number { length self.old.kinds < GREATEST_NUMBER }
        requires ran { ran_given kind ≤ MOST_TICKS }
        ensures row { IfOk result
            (λ posted. self.new ≡ record self.old { kinds = self.old.kinds ++ kind ∷ []; last_post = posted.aseq }) }
        ensures ok { IfOk result
            (λ posted. IsTold cpus.old.items cpus.new.items (thread_row_of self.old) thread kind posted) }
        ensures err { OnErr result (self.new ≡ self.old) }
        ensures err_cpus { OnErr result (cpus.new.items ≡ cpus.old.items) }
    {
        self.kinds.reserve(1)?;
        let number = self.kinds.len() as u32 + 1;
        let home = self.home;
        let landing = post(
            cpus,
            home,
            Item::Thread(Message {
                thread,
                number,
                kind,
            }),
        )?;
        append(&mut self.kinds, &kind);
        self.state = self.state.apply(kind);
        self.last_post = landing.aseq;
        Ok(Posted {
            thread: Some(thread),
            number: Some(number),
            queue: home,
            aseq: landing.aseq,
            woken: landing.woken,
        })
    }
}

/// Puts an element at the end, where a place is reserved for it.
fn append<T: Copy>(items: &mut Vec<T>, item: &T)
    requires { vec_len items.old < vec_capacity items.old }
    ensures { items.new.items ≡ items.old.items ++ item.now ∷ [] }
{
    let _ = items.push(*item);
}
