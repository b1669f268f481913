//! Run lists, with ample memory; and where a name at the end is told to be in order, which no clause says.

use crate::rows::{Row, each_holds, is_found_so, is_so};
use pc_join::OutOfMemory;
use pc_messages::{Cpu, Kind, Level, Mask, Message, Tid};
use pc_policy::{AgentPolicy, Order, OrderName, PolicyName, Stealing};
use pc_run_queue::{GREATEST_RANK, RunQueue};
use pc_view::View;
use std::alloc::{AllocError, Global};

// Without contracts, as the functions below, so that a test's proof does not carry those of views and run lists.
fn insert_first(view: &mut View, thread: u32, mask: Mask) -> bool {
    let message = Message {
        thread: Tid(thread),
        number: 1,
        kind: Kind::Created { mask, ready: true },
    };
    view.insert(message) == Ok(())
}

fn create(view: &mut View, thread: u32) -> bool {
    match Mask::new(3, 2) {
        Ok(mask) => insert_first(view, thread, mask),
        Err(_) => false,
    }
}

fn insert_level(view: &mut View, thread: u32, level: Level) -> bool {
    let message = Message {
        thread: Tid(thread),
        number: 2,
        kind: Kind::Priority { level },
    };
    view.insert(message) == Ok(())
}

fn raise(view: &mut View, thread: u32, level: u8) -> bool {
    match Level::new(level) {
        Ok(level) => insert_level(view, thread, level),
        Err(_) => false,
    }
}

/// A view of three threads that are ready on CPU 0, of which the second has level 5.
fn one_raised(alloc: Global) -> Option<View> {
    let mut view = View::new(alloc);
    let is_made = create(&mut view, 0)
        && create(&mut view, 1)
        && create(&mut view, 2)
        && raise(&mut view, 1, 5);
    if is_made { Some(view) } else { None }
}

/// A refresh, and then one of the settled list.
fn refresh_twice(list: &mut RunQueue, view: &View) -> Result<(), OutOfMemory> {
    list.refresh(&OrderName::Levels, view, &[Tid(0)], Cpu(0))?;
    list.refresh_settled(&OrderName::Levels, view, &[Tid(1)], Cpu(0))
}

/// A name is put at the end, and the list is put in order by a note of it. Whether it was in order before.
fn refresh_pushed(list: &mut RunQueue, view: &View) -> Result<bool, OutOfMemory> {
    list.refresh(&OrderName::Levels, view, &[Tid(0)], Cpu(0))?;
    if list.has(Tid(1)) {
        return Ok(true);
    }
    let in_order = list.push_in_order(&OrderName::Levels, view, Cpu(0), Tid(1))?;
    list.refresh_noted(
        &OrderName::Levels,
        view,
        &[(Tid(1), GREATEST_RANK)],
        &[],
        Cpu(0),
    )?;
    Ok(in_order)
}

fn pushes(list: &mut RunQueue) -> bool {
    !list.has(Tid(7)) && list.push(Tid(7)) == Ok(())
}

fn has_raised_first(list: &RunQueue) -> bool {
    list.names() == [Tid(1), Tid(0)].as_slice()
}

fn is_refreshed_twice(alloc: Global, view: &View) -> Result<bool, OutOfMemory> {
    let mut list = RunQueue::new(alloc);
    refresh_twice(&mut list, view)?;
    Ok(has_raised_first(&list) && pushes(&mut list))
}

fn is_refreshed_by_a_note(alloc: Global, view: &View) -> Result<bool, OutOfMemory> {
    let mut list = RunQueue::new(alloc);
    let in_order = refresh_pushed(&mut list, view)?;
    Ok(!in_order && has_raised_first(&list))
}

fn each_refreshes(alloc: Global, view: &View) -> Result<bool, OutOfMemory> {
    Ok(is_refreshed_twice(alloc, view)? && is_refreshed_by_a_note(alloc, view)?)
}

/// Whether each way puts the raised thread first, and a name can be put behind both.
// A function has one value of its own: each further one costs a proof at each early exit.
fn are_refreshed(alloc: Global) -> bool {
    match one_raised(alloc) {
        Some(view) => each_refreshes(alloc, &view) == Ok(true),
        None => false,
    }
}

fn notes(list: &RunQueue, view: &View) -> Result<usize, OutOfMemory> {
    Ok(list.notes(&OrderName::LeastRan, view, Cpu(0))?.len())
}

fn noted(alloc: Global, view: &View) -> Result<usize, OutOfMemory> {
    let mut list = RunQueue::new(alloc);
    refresh_twice(&mut list, view)?;
    notes(&list, view)
}

fn are_noted(alloc: Global) -> bool {
    match one_raised(alloc) {
        Some(view) => noted(alloc, &view) == Ok(2),
        None => false,
    }
}

#[test]
fn lists_are_refreshed_and_noted(rt: HostRuntime) {
    is_so(&rt, are_refreshed(rt.alloc()));
    is_so(&rt, are_noted(rt.alloc()));
}

/// The names that are touched first, the one that is put at the end then, and whether it is in order there.
type Pushed = (&'static [u32], u32, bool);

fn names(alloc: Global, numbers: &[u32]) -> Result<Vec<Tid>, AllocError> {
    let mut names = Vec::new(alloc);
    for number in numbers {
        names.push(Tid(*number))?;
    }
    Ok(names)
}

fn refreshes(alloc: Global, list: &mut RunQueue, view: &View, touched: &[u32]) -> bool {
    match names(alloc, touched) {
        Ok(names) => list.refresh(&OrderName::Levels, view, names.as_slice(), Cpu(0)) == Ok(()),
        Err(_) => false,
    }
}

fn pushes_in_order(list: &mut RunQueue, view: &View, name: u32, wanted: bool) -> bool {
    if list.has(Tid(name)) {
        return false;
    }
    list.push_in_order(&OrderName::Levels, view, Cpu(0), Tid(name)) == Ok(wanted)
}

impl Row for Pushed {
    fn holds(&self, alloc: Global) -> bool {
        let mut list = RunQueue::new(alloc);
        match one_raised(alloc) {
            Some(view) => {
                refreshes(alloc, &mut list, &view, self.0)
                    && pushes_in_order(&mut list, &view, self.1, self.2)
            }
            None => false,
        }
    }
}

// Behind nobody each is in order, behind its equals, and behind a higher level.
#[test]
fn a_name_put_at_the_end_is_in_order_behind_no_lower_level(rt: HostRuntime) {
    static ROWS: [Pushed; 5] = [
        (&[], 1, true),
        (&[0], 2, true),
        (&[1], 0, true),
        (&[1, 0], 2, true),
        (&[0], 1, false),
    ];
    each_holds(&rt, rt.alloc(), &ROWS);
}

fn table(alloc: Global) -> Result<AgentPolicy, AllocError> {
    Ok(AgentPolicy {
        order: Order::Table(Vec::from_array(alloc, [(Tid(0), 5), (Tid(1), 2)])?),
        stealing: Stealing::Exact,
    })
}

/// Whether a copy of a policy by a table has its rows.
fn is_copied(alloc: Global) -> Result<bool, AllocError> {
    let copy = table(alloc)?.try_copy()?;
    Ok(match copy.order.try_copy()? {
        Order::Table(rows) => rows.len() == 2 && copy.stealing == Stealing::Exact,
        _ => false,
    })
}

#[test]
fn a_policy_by_a_table_is_copied(rt: HostRuntime) {
    is_found_so(&rt, is_copied(rt.alloc()));
}

/// How many agents get a policy by its name.
fn named_for_two(alloc: Global) -> Result<bool, AllocError> {
    Ok(AgentPolicy::for_each(alloc, PolicyName::USUAL, 2)?.len() == 2)
}

#[test]
fn each_agent_gets_a_named_policy(rt: HostRuntime) {
    is_found_so(&rt, named_for_two(rt.alloc()));
}
