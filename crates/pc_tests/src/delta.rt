//! Deltas and digests, with ample memory; and what no clause says of deltas: how few parts an answer has, and what is
//! known where parts contradict each other.

use crate::joins::is_joined_with_nothing;
use crate::rows::{Failed, Row, each_holds, is_found_so};
use pc_delta::{Delta, DeltaFault, Digest, Part, delta_beyond, delta_since, take_all, take_in};
use pc_join::OutOfMemory;
use pc_kernel::{Kernel, Limits};
use pc_messages::{Cpu, Item, Kind, Level, Mask, MaskFault, Message, Phase, Reported, Tid};
use pc_view::View;
use std::alloc::{AllocError, Global};

/// What t0 is told of.
#[derive(Clone, Copy)]
enum Shape {
    /// The message of this number is a wakeup.
    Wakeup(u32),
    /// The thread dies after so many ticks.
    Dead(u32, u32),
    /// All messages up to a number, in which it ran for so many ticks.
    Folded(u32, u64),
}

/// All messages of t0 up to a number.
fn folded(upto: u32, ran: u64) -> Result<Part, MaskFault> {
    let mask = Mask::new(3, 2)?;
    Ok(Part::Folded {
        thread: Tid(0),
        upto,
        reported: Reported {
            phase: Phase::Blocked,
            mask,
            ran,
            level: Level::LOWEST,
        },
    })
}

fn add<T: Copy>(items: &mut Vec<T>, item: T) -> Result<(), AllocError> {
    items.push(item)?;
    Ok(())
}

fn adds(parts: &mut Vec<Part>, shape: &Shape) -> Result<(), Failed> {
    // Messages stand here by their type's name, without which the checker has a bug at this function.
    let told = match *shape {
        Shape::Wakeup(number) => Part::One(Message {
            thread: Tid(0),
            number,
            kind: Kind::Wakeup,
        }),
        Shape::Dead(number, ran) => Part::One(Message {
            thread: Tid(0),
            number,
            kind: Kind::Dead { ran },
        }),
        Shape::Folded(upto, ran) => folded(upto, ran)?,
    };
    add(parts, told)?;
    Ok(())
}

fn parts(alloc: Global, shapes: &[Shape]) -> Result<Vec<Part>, Failed> {
    let mut parts = Vec::new(alloc);
    for shape in shapes {
        adds(&mut parts, shape)?;
    }
    Ok(parts)
}

// Without contracts, as the functions below, so that a test's proof does not carry those of deltas.
fn delta(alloc: Global, shapes: &[Shape]) -> Result<Delta, Failed> {
    Ok(Delta::from_parts(parts(alloc, shapes)?)?)
}

fn takes(alloc: Global, view: &mut View, shapes: &[Shape]) -> Result<(), Failed> {
    let told = delta(alloc, shapes)?;
    take_in(view, &told)?;
    Ok(())
}

fn takes_each(alloc: Global, view: &mut View, deltas: &[&'static [Shape]]) -> Result<(), Failed> {
    for shapes in deltas {
        takes(alloc, view, shapes)?;
    }
    Ok(())
}

fn held(view: &View) -> Option<(u32, usize)> {
    let thread = view.thread(Tid(0))?;
    Some((thread.upto(), thread.early().len()))
}

/// The deltas that a view takes in, how far it then knows t0 without a gap, and how many messages past one.
type Taken = (&'static [&'static [Shape]], u32, usize);

fn held_after(alloc: Global, deltas: &[&'static [Shape]]) -> Result<Option<(u32, usize)>, Failed> {
    let mut view = View::new(alloc);
    takes_each(alloc, &mut view, deltas)?;
    Ok(held(&view))
}

impl Row for Taken {
    fn holds(&self, alloc: Global) -> bool {
        match held_after(alloc, self.0) {
            Ok(held) => held == Some((self.1, self.2)),
            Err(_) => false,
        }
    }
}

/// A message that contradicts a folded part.
const LATE_DEATH: &[Shape] = &[Shape::Folded(3, 7), Shape::Dead(2, 1), Shape::Wakeup(5)];

/// A folded part that contradicts early messages.
const LATE_PREFIX: &[Shape] = &[Shape::Wakeup(5), Shape::Dead(3, 1), Shape::Folded(2, 7)];

// Nothing grows past the parts.
#[test]
fn contradicting_parts_are_safe(rt: HostRuntime) {
    const ROWS: &[Taken] = &[
        (&[LATE_DEATH, LATE_DEATH], 3, 1),
        (&[LATE_PREFIX, LATE_PREFIX], 3, 1),
        (
            &[
                &[Shape::Wakeup(2)],
                &[Shape::Folded(1, 0)],
                &[Shape::Dead(2, 9)],
                &[Shape::Folded(2, 9)],
            ],
            2,
            0,
        ),
    ];
    each_holds(&rt, rt.alloc(), ROWS);
}

fn since(alloc: Global, view: &View, asker: &View) -> Result<Delta, OutOfMemory> {
    let digest = Digest::of(alloc, asker)?;
    delta_since(alloc, view, &digest)
}

fn beyond(alloc: Global, view: &View, asker: &View) -> Result<Delta, OutOfMemory> {
    delta_beyond(alloc, view, asker)
}

fn has_parts(delta: &Delta, wanted: &[Part]) -> bool {
    delta.parts() == wanted
}

/// Whether the view answers one that knows nothing by a prefix and an early message, either way.
fn is_answered(alloc: Global, view: &View) -> Result<bool, Failed> {
    let wanted = parts(alloc, KNOWN)?;
    let nobody = View::new(alloc);
    let first = since(alloc, view, &nobody)?;
    let other = beyond(alloc, view, &nobody)?;
    Ok(has_parts(&first, wanted.as_slice()) && has_parts(&other, wanted.as_slice()))
}

/// A prefix of the most messages, of which it takes one part to tell, and one early message.
const KNOWN: &[Shape] = &[Shape::Folded(15_999_998, 5), Shape::Wakeup(16_000_000)];

fn a_prefix_is_one_part(alloc: Global) -> Result<bool, Failed> {
    let mut view = View::new(alloc);
    takes(alloc, &mut view, KNOWN)?;
    is_answered(alloc, &view)
}

#[test]
fn an_answer_tells_a_prefix_by_its_state(rt: HostRuntime) {
    is_found_so(&rt, a_prefix_is_one_part(rt.alloc()));
}

/// Whether a digest is joined with one of nothing.
fn digests_are_joined(alloc: Global, view: &View) -> Result<bool, OutOfMemory> {
    is_joined_with_nothing(Digest::of(alloc, view), Digest::new(alloc))
}

fn takes_copies(view: &mut View, told: Delta) -> Result<(), OutOfMemory> {
    let copy = told.try_copy()?;
    take_all(view, &[told, copy])
}

/// Whether a view takes in a delta twice, and its digest is joined.
fn is_known(alloc: Global) -> Result<bool, Failed> {
    let mut view = View::new(alloc);
    takes_copies(&mut view, delta(alloc, LATE_DEATH)?)?;
    Ok(held(&view) == Some((3, 1)) && digests_are_joined(alloc, &view)?)
}

/// Whether two messages of one number make no delta, and are told.
fn is_conflict(alloc: Global) -> Result<bool, Failed> {
    const CONFLICT: DeltaFault = DeltaFault::Conflict {
        thread: Tid(0),
        number: 2,
    };
    let parts = parts(alloc, &[Shape::Wakeup(2), Shape::Dead(2, 1)])?;
    Ok(Delta::from_parts(parts).err() == Some(CONFLICT))
}

#[test]
fn deltas_are_taken_in_and_digests_joined(rt: HostRuntime) {
    is_found_so(&rt, is_known(rt.alloc()));
    is_found_so(&rt, is_conflict(rt.alloc()));
}

/// A kernel in whose first queue a thread's first message stands.
fn kernel_of_one(alloc: Global) -> Result<Kernel, Failed> {
    let limits = Limits {
        cpus: 1,
        threads: 1,
        numbers: 1,
        room: 1,
        posts: 1,
    };
    let mut kernel = Kernel::new(alloc, limits)?;
    if kernel.create(Cpu(0), 1, true).is_ok() {
        Ok(kernel)
    } else {
        Err("no thread was created".into())
    }
}

/// Whether the delta has one part that tells what the queue holds.
fn is_told(alloc: Global) -> Result<bool, Failed> {
    let kernel = kernel_of_one(alloc)?;
    let (_, items): (u32, Vec<Item>) = kernel.peek(Cpu(0))?;
    let delta = Delta::of_items(alloc, items.as_slice())?;
    Ok(delta.parts().len() == 1)
}

#[test]
fn a_delta_tells_what_a_queue_holds(rt: HostRuntime) {
    is_found_so(&rt, is_told(rt.alloc()));
}
