//! The examples that the roots of crates show, line for line: `tests/check_documents.py` holds them against these.

ghost use Rattle.std.specs.Prelude.{Some};

use crate::rows::is_so;
use pc_delta::{Delta, Digest, delta_since, take_in};
use pc_kernel::{Kernel, Limits};
use pc_messages::{Cpu, Kind, Mask, MaskFault, Message, Reported, Tid};
use pc_policy::{OrderName, Policy};
use pc_run_queue::RunQueue;
use pc_view::View;
use std::alloc::Global;
use std::test::Fail;

/// A thread's first message: it is created, ready, and may run on CPUs 0 and 1.
fn first_message() -> Result<Message, MaskFault> {
    let mask = Mask::new(3, 2)?;
    Ok(Message {
        thread: Tid(0),
        number: 1,
        kind: Kind::Created { mask, ready: true },
    })
}

/// What it says.
fn created() -> Result<Kind, MaskFault> {
    let mask = Mask::new(3, 2)?;
    Ok(Kind::Created { mask, ready: true })
}

/// Takes in a message of t0.
fn learns(view: &mut View, number: u32, kind: Kind) -> Result<(), Fail> {
    let message = Message {
        thread: Tid(0),
        number,
        kind,
    };
    if !message.is_well_formed() {
        return Err("not well formed".into());
    }
    view.insert(message)?;
    Ok(())
}

/// Who runs on CPU 0 when a thread was created and committed there.
fn committed(alloc: Global) -> Result<Option<Tid>, Fail> {
    let limits = Limits {
        cpus: 2,
        threads: 8,
        numbers: 100,
        room: 16,
        posts: 1_000,
    };
    let mut kernel = Kernel::new(alloc, limits)?;
    // A new thread is ready. Its messages go to queue 0, and it may run on CPUs 0 and 1.
    let posted = kernel.create(Cpu(0), 3, true)?;
    // The agent of CPU 0 commits it, by the count of posts that it has seen.
    kernel.commit(Cpu(0), Tid(0), posted.aseq)?;
    Ok(kernel.running(Cpu(0)))
}

/// Takes in what the other view knows, and answers how many messages of t0 are known from the first on.
fn merged(view: &mut View, other: &View) -> Result<u32, Fail> {
    // In either order, and again, the same comes of it.
    view.merge(other)?;
    Ok(view.upto(Tid(0)))
}

/// How many of two messages are known where a view of the second takes in one of the first.
fn known_by_both(alloc: Global) -> Result<u32, Fail> {
    let mut view = View::new(alloc);
    let mut other = View::new(alloc);
    learns(&mut view, 2, Kind::Wakeup)?;
    learns(&mut other, 1, created()?)?;
    merged(&mut view, &other)
}

#[test]
fn a_kernel_commits_a_thread(rt: HostRuntime) -> Result<(), Fail> {
    is_so(&rt, committed(rt.alloc())? == Some(Tid(0)));
    Ok(())
}

#[test]
fn two_views_are_merged(rt: HostRuntime) -> Result<(), Fail> {
    is_so(&rt, known_by_both(rt.alloc())? == 2);
    Ok(())
}

/// What the one who knows this answers to the other, which then knows it too.
fn answered(alloc: Global, knows: &View, asks: &mut View) -> Result<Delta, Fail> {
    let digest = Digest::of(alloc, asks)?;
    let answer = delta_since(alloc, knows, &digest)?;
    take_in(asks, &answer)?;
    Ok(answer)
}

/// How many parts an answer has that tells a view of no messages all that another one knows, and then another answer.
fn parts_of_answers(alloc: Global) -> Result<(usize, usize), Fail> {
    let mut knows = View::new(alloc);
    let first = first_message()?;
    if first.is_well_formed() {
        knows.insert(first)?;
    }
    let mut asks = View::new(alloc);
    let once = answered(alloc, &knows, &mut asks)?;
    let again = answered(alloc, &knows, &mut asks)?;
    Ok((once.parts().len(), again.parts().len()))
}

#[test]
fn a_digest_is_answered(rt: HostRuntime) -> Result<(), Fail> {
    is_so(&rt, parts_of_answers(rt.alloc())? == (1, 0));
    Ok(())
}

/// The first thread of the list of CPU 1, by what the view reports.
fn listed(alloc: Global, view: &View) -> Result<Option<Tid>, Fail> {
    let mut list = RunQueue::new(alloc);
    // Of the touched threads those that are ready and allowed on CPU 1 enter, the highest level first.
    list.refresh(&OrderName::Levels, view, &[Tid(0)], Cpu(1))?;
    Ok(list.first())
}

/// The thread with the least name first.
#[derive(Drop)]
struct LeastName;

impl Policy for LeastName {
    ghost ranking = { λ policy cpu t r. Some t };

    fn rank(&self, _cpu: Cpu, thread: Tid, _reported: &Reported) -> Option<u64> {
        Some(thread.index() as u64)
    }
}

/// The first thread of the list of CPU 1 by that policy.
fn least_listed(alloc: Global, view: &View) -> Result<Option<Tid>, Fail> {
    let mut list = RunQueue::new(alloc);
    list.refresh(&LeastName, view, &[Tid(1), Tid(0)], Cpu(1))?;
    Ok(list.first())
}

/// The same by a view of t0's first message.
fn listed_first(alloc: Global) -> Result<Option<Tid>, Fail> {
    let mut view = View::new(alloc);
    learns(&mut view, 1, created()?)?;
    listed(alloc, &view)
}

/// The same by the policy of one's own.
fn least_first(alloc: Global) -> Result<Option<Tid>, Fail> {
    let mut view = View::new(alloc);
    learns(&mut view, 1, created()?)?;
    least_listed(alloc, &view)
}

#[test]
fn a_policy_of_ones_own_is_taken(rt: HostRuntime) -> Result<(), Fail> {
    is_so(&rt, least_first(rt.alloc())? == Some(Tid(0)));
    Ok(())
}

#[test]
fn a_ready_thread_is_listed(rt: HostRuntime) -> Result<(), Fail> {
    is_so(&rt, listed_first(rt.alloc())? == Some(Tid(0)));
    Ok(())
}
