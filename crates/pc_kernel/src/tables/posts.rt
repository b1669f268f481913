//! Posts, and what they change beside the queue.

ghost use Rattle.std.specs.Prelude.{◌≡◌, ◌↔◌, ◌<◌, ◌≤◌, ℕ, Some, [], ◌∷◌, ◌++◌, length, IfOk, OnErr, IsTrue, IsFalse};
ghost use Rattle.std.specs.Vec.{vec_len, vec_capacity};
ghost use Rattle.pc_messages.specs.State.{ran_given};
ghost use Rattle.pc_messages.specs.declared.kind.TheConstants.{MOST_TICKS};
ghost use Rattle.pc_messages.specs.Run.{is_created, Extends};
ghost use Rattle.pc_calls.specs.Conditions.{first_of};

use crate::cpus::post;
use crate::tables::Tables;
use crate::threads::ThreadEntry;
use pc_calls::{CallFault, Posted, Refusal};
use pc_messages::{Cpu, Item, Kind, Message, Tid};
use std::alloc::AllocError;

impl Tables {
    ghost use Rattle.pc_kernel.specs.Reads.{seen, kinds_read, number_read, on};
    ghost use Rattle.pc_kernel.specs.Inner.Sends.{Sends, Leaves, adding, ticking};
    ghost use Rattle.pc_kernel.specs.Steps.{leave_refusals, telling};

    /// Takes the thread on the CPU off it, with a message of this kind. The message comes first, since only it can
    /// fail.
    #[inline(always)]
    pub(crate) fn leave(&mut self, cpu: Cpu, kind: Kind) -> Result<Posted, CallFault>
        requires not_first { IsFalse (is_created kind) }
        requires ran { ran_given kind ≤ MOST_TICKS }
        ensures step { Leaves cpu kind result self.old self.new }
        ensures fault { (refusal : Refusal) → (result ≡ Err (CallFault.Refused refusal))
            ↔ (first_of (leave_refusals (seen self.old) cpu) ≡ Some refusal) }
        ensures limits { self.new.limits ≡ self.old.limits }
        ensures extends { Extends (kinds_read (seen self.new)) (kinds_read (seen self.old)) }
        ensures err { OnErr result (self.new ≡ self.old) }
    {
        let thread = self.leaver(cpu)?;
        match self.tell(thread, kind) {
            Ok(posted) => {
                self.take_off(cpu, thread);
                Ok(posted)
            }
            Err(_) => Err(CallFault::OutOfMemory),
        }
    }

    /// Posts the first message of a new thread. All growths come before any change.
    pub(crate) fn add(&mut self, queue: Cpu, kind: Kind) -> Result<Posted, AllocError>
        requires there { queue < self.old.limits.cpus }
        requires names { length self.old.threads < self.old.limits.threads }
        requires first { IsTrue (is_created kind) }
        ensures ok { IfOk result (λ posted. Sends (λ P. adding P queue kind) posted self.old self.new) }
        ensures limits { self.new.limits ≡ self.old.limits }
        ensures extends { Extends (kinds_read (seen self.new)) (kinds_read (seen self.old)) }
        ensures err { OnErr result (self.new ≡ self.old) }
    {
        let alloc = *self.threads.allocator();
        self.threads.reserve(1)?;
        let thread = Tid(self.threads.len() as u32);
        let mut entry = ThreadEntry::first(alloc, queue, &kind)?;
        let landing = post(
            &mut self.cpus,
            queue,
            Item::Thread(Message {
                thread,
                number: 1,
                kind,
            }),
        )?;
        entry.set_last_post(landing.aseq);
        push(&mut self.threads, entry);
        Ok(Posted {
            thread: Some(thread),
            number: Some(1),
            queue,
            aseq: landing.aseq,
            woken: landing.woken,
        })
    }

    /// Posts a thread's next message to its home queue, and adds it to the thread's history.
    #[inline(always)]
    pub(crate) fn tell(&mut self, thread: Tid, kind: Kind) -> Result<Posted, AllocError>
        requires known { thread < length self.old.threads }
        requires numbers { number_read (seen self.old) thread < self.old.limits.numbers }
        requires not_first { IsFalse (is_created kind) }
        requires ran { ran_given kind ≤ MOST_TICKS }
        ensures ok { IfOk result (λ posted. Sends (λ P. telling P thread kind) posted self.old self.new) }
        ensures stay { (c : ℕ) → on (seen self.new) c ≡ on (seen self.old) c }
        ensures threads { length self.new.threads ≡ length self.old.threads }
        ensures limits { self.new.limits ≡ self.old.limits }
        ensures extends { Extends (kinds_read (seen self.new)) (kinds_read (seen self.old)) }
        ensures err { OnErr result (self.new ≡ self.old) }
    {
        self.threads[thread.index() as usize].tell(thread, kind, &mut self.cpus)
    }

    /// Posts a CPU's tick to its own queue.
    pub(crate) fn post_tick(&mut self, cpu: Cpu) -> Result<Posted, AllocError>
        requires there { cpu < self.old.limits.cpus }
        ensures ok { IfOk result (λ posted. Sends (λ P. ticking P cpu) posted self.old self.new) }
        ensures limits { self.new.limits ≡ self.old.limits }
        ensures extends { Extends (kinds_read (seen self.new)) (kinds_read (seen self.old)) }
        ensures err { OnErr result (self.new ≡ self.old) }
    {
        let landing = post(&mut self.cpus, cpu, Item::Tick(cpu))?;
        Ok(Posted {
            thread: None,
            number: None,
            queue: cpu,
            aseq: landing.aseq,
            woken: landing.woken,
        })
    }
}

/// Puts a row at the end, where a place is reserved for it.
fn push<T: Drop>(rows: &mut Vec<T>, row: T)
    requires { vec_len rows.old < vec_capacity rows.old }
    ensures { rows.new.items ≡ rows.old.items ++ row ∷ [] }
{
    let _ = rows.push(row);
}
