//! Views of one thread and of several, with ample memory.

ghost use Rattle.std.specs.Prelude.{◌≡◌};

use crate::joins::{are_equal, are_joined, joined};
use crate::rows::{Failed, is_found_so, is_so};
use pc_join::{ByName, OutOfMemory};
use pc_messages::{Kind, Level, Mask, Message, Phase, Reported, Tid};
use pc_thread_view::{FoldedPrefix, OneMessage, ThreadView};
use pc_view::View;
use std::alloc::Global;

/// What the first message of a ready thread reports.
const fn reported(mask: Mask) -> Reported
    ensures { result.ran ≡ 0 }
{
    Reported {
        phase: Phase::Ready,
        mask,
        ran: 0,
        level: Level::LOWEST,
    }
}

/// A view of the second and the third message.
fn late(alloc: Global) -> Result<ThreadView, OutOfMemory> {
    let mut view = ThreadView::of(alloc, 3, Kind::Wakeup);
    view.insert(2, Kind::Blocked { ran: 1 })?;
    Ok(view)
}

fn first(alloc: Global) -> Result<ThreadView, Failed> {
    let mask = Mask::new(3, 2)?;
    Ok(ThreadView::folded(alloc, 1, reported(mask)))
}

/// Whether the gap is closed, wherever one looks first.
fn is_whole(view: &ThreadView) -> bool {
    view.upto() == 3 && view.early().is_empty() && view.has_from(3, 5_000).0
}

/// Whether a view of the first message and one of the others have one of all three.
fn is_joined_whole(alloc: Global) -> Result<bool, Failed> {
    let joined = joined(first(alloc)?, late(alloc))?;
    Ok(is_whole(&joined))
}

fn threads_are_joined(alloc: Global) -> Result<bool, Failed> {
    Ok(are_joined(first(alloc)?, late(alloc))?)
}

fn puts_one(threads: &mut ByName<ThreadView>, name: u32) -> Result<(), OutOfMemory> {
    let one = OneMessage {
        number: 2,
        kind: Kind::Wakeup,
    };
    threads.put_piece(Tid(name), one)
}

fn puts_first(threads: &mut ByName<ThreadView>, name: u32) -> Result<(), Failed> {
    let reported = reported(Mask::new(3, 2)?);
    threads.put_piece(Tid(name), FoldedPrefix { upto: 1, reported })?;
    Ok(())
}

fn upto(threads: &ByName<ThreadView>, name: u32) -> Option<u32> {
    Some(threads.get(Tid(name))?.upto())
}

/// Whether pieces are joined under this name.
fn are_pieces_joined(alloc: Global, name: u32) -> Result<bool, Failed> {
    let mut threads = ByName::new(alloc);
    puts_one(&mut threads, name)?;
    puts_first(&mut threads, name)?;
    Ok(upto(&threads, name) == Some(2))
}

#[test]
fn what_is_known_of_a_thread_is_joined(rt: HostRuntime) {
    is_found_so(&rt, is_joined_whole(rt.alloc()));
    is_found_so(&rt, threads_are_joined(rt.alloc()));
    is_found_so(&rt, are_pieces_joined(rt.alloc(), 2));
    is_found_so(&rt, are_pieces_joined(rt.alloc(), 70_000));
}

fn woken(alloc: Global, thread: u32) -> Result<View, OutOfMemory> {
    let mut view = View::new(alloc);
    view.insert(Message {
        thread: Tid(thread),
        number: 2,
        kind: Kind::Wakeup,
    })?;
    Ok(view)
}

fn folds(view: &mut View) -> Result<(), Failed> {
    let mask = Mask::new(3, 2)?;
    view.fold(Tid(0), 1, reported(mask))?;
    Ok(())
}

fn folded(alloc: Global) -> Result<View, Failed> {
    let mut view = woken(alloc, 0)?;
    folds(&mut view)?;
    Ok(view)
}

fn merges(view: &mut View, other: &View) -> Result<(), OutOfMemory> {
    view.merge(other)
}

fn merged(alloc: Global) -> Result<View, Failed> {
    let mut view = folded(alloc)?;
    merges(&mut view, &woken(alloc, 9)?)?;
    Ok(view)
}

fn are_known(alloc: Global) -> Result<bool, Failed> {
    Ok(merged(alloc)?.knows(Tid(9), 2))
}

fn views_are_joined(alloc: Global) -> Result<bool, Failed> {
    Ok(are_joined(folded(alloc)?, woken(alloc, 9))?)
}

fn joined_views(alloc: Global) -> Result<View, Failed> {
    Ok(joined(folded(alloc)?, woken(alloc, 9))?)
}

/// How many threads are walked, and how many on each of the two walks.
fn walked(view: &View) -> (u32, [u32; 2]) {
    let (mut all, mut near, mut far): (u32, u32, u32) = (0, 0, 0);
    for _ in view.iter() {
        all = all.saturating_add(1);
    }
    let walks = view.walks();
    for _ in walks.near {
        near = near.saturating_add(1);
    }
    for _ in walks.far {
        far = far.saturating_add(1);
    }
    (all, [near, far])
}

/// The same, where this thread alone is known.
fn walked_of(alloc: Global, thread: u32) -> Result<(u32, [u32; 2]), OutOfMemory> {
    let view = woken(alloc, thread)?;
    Ok(walked(&view))
}

// Which threads are walked near, and which far, no clause says.
fn are_walked(alloc: Global) -> Result<bool, OutOfMemory> {
    Ok(walked_of(alloc, 65_534)? == (1, [1, 0]) && walked_of(alloc, 65_535)? == (1, [0, 1]))
}

#[test]
fn what_is_known_of_threads_is_merged(rt: HostRuntime) {
    is_found_so(&rt, are_known(rt.alloc()));
    is_found_so(&rt, views_are_joined(rt.alloc()));
    is_so(&rt, are_equal(merged(rt.alloc()), joined_views(rt.alloc())));
    is_found_so(&rt, are_walked(rt.alloc()));
}
