//! Each join, through the bound, with ample memory.

use crate::joins::{are_equal, are_joined, join_both};
use crate::rows::{is_found_so, is_so};
use pc_join::{ByName, Join, NameSet, Numbers, OutOfMemory, Upto, next_turn};
use pc_messages::Tid;
use std::alloc::Global;

/// Whether the join of 2 and 5 is 5.
fn takes_the_greater() -> Result<bool, OutOfMemory> {
    let joined = join_both(&Upto::new(2), &Upto::new(5))?;
    Ok(joined.get() == 5)
}

fn one_number(alloc: Global) -> Result<Numbers, OutOfMemory> {
    let mut set = Numbers::new(alloc);
    set.insert(7)?;
    Ok(set)
}

fn many_numbers(alloc: Global) -> Result<Numbers, OutOfMemory> {
    let mut set = Numbers::new(alloc);
    set.add_range(1, 16_000_000)?;
    set.add_range(16_000_002, 16_000_003)?;
    Ok(set)
}

fn one_name(alloc: Global) -> Result<ByName<Upto>, OutOfMemory> {
    let mut names = ByName::new(alloc);
    names.put(Tid(70_000), Upto::new(6))?;
    Ok(names)
}

/// Names in ascending order.
fn ascending(alloc: Global) -> Result<ByName<Upto>, OutOfMemory> {
    let entries = Vec::from_array(alloc, [(2, Upto::new(4)), (5, Upto::new(3))])?;
    ByName::of_ascending(alloc, entries)
}

fn has_all(first: &Numbers, other: &Numbers) -> Result<bool, OutOfMemory> {
    let joined = join_both(first, other)?;
    Ok(joined.ranges() == other.ranges())
}

fn are_all(alloc: Global, other: &Numbers) -> Result<bool, OutOfMemory> {
    let first = one_number(alloc)?;
    has_all(&first, other)
}

// A function has one value of its own: each further one costs a proof at each early exit.
fn numbers_are_joined(alloc: Global) -> Result<bool, OutOfMemory> {
    let other = many_numbers(alloc)?;
    are_all(alloc, &other)
}

fn names_are_joined(alloc: Global) -> Result<bool, OutOfMemory> {
    are_joined(one_name(alloc)?, ascending(alloc))
}

/// How far all names are known together.
fn walked(names: &ByName<Upto>) -> u32 {
    let mut all: u32 = 0;
    for (_, value) in names.iter() {
        all = all.saturating_add(value.get());
    }
    all
}

/// The same of the names of the near walk, and of the far one.
fn walked_in_two(names: &ByName<Upto>) -> (u32, u32) {
    let walks = names.walks();
    let (mut near, mut far): (u32, u32) = (0, 0);
    for (_, value) in walks.near {
        near = near.saturating_add(value.get());
    }
    for (_, value) in walks.far {
        far = far.saturating_add(value.get());
    }
    (near, far)
}

/// The last name that is near, and the first one that is far.
fn edge(alloc: Global) -> Result<ByName<Upto>, OutOfMemory> {
    let mut names = ByName::new(alloc);
    names.put(Tid(65_535), Upto::new(20))?;
    names.put(Tid(65_534), Upto::new(10))?;
    Ok(names)
}

/// These are joined with names of the same allocator.
fn adds_edge(names: &mut ByName<Upto>) -> Result<(), OutOfMemory> {
    let more = edge(names.allocator())?;
    names.join_from(&more)
}

// Which names are walked near, and which far, no clause says.
fn are_walked(alloc: Global) -> Result<bool, OutOfMemory> {
    let mut names = ascending(alloc)?;
    adds_edge(&mut names)?;
    Ok(walked(&names) == 37 && walked_in_two(&names) == (17, 20))
}

#[test]
fn joins_are_made(rt: HostRuntime) {
    is_found_so(&rt, takes_the_greater());
    is_found_so(&rt, numbers_are_joined(rt.alloc()));
    is_found_so(&rt, names_are_joined(rt.alloc()));
    is_found_so(&rt, are_walked(rt.alloc()));
}

/// Whether a name is found of a set that another one lacks.
fn is_found(alloc: Global) -> Result<bool, OutOfMemory> {
    let mut set = NameSet::new(alloc);
    set.insert(Tid(4_294_967_295))?;
    Ok(set.next_outside(&NameSet::new(alloc), Tid(0)) == Some(Tid(4_294_967_295)))
}

fn takes_turns() -> bool {
    match next_turn(&[(2, 'b')], &[(1, 'a'), (3, 'c')]) {
        Some(turn) => turn.entry == (1, 'a'),
        None => false,
    }
}

#[test]
fn names_are_compared_found_and_taken_in_turn(rt: HostRuntime) {
    is_so(&rt, are_equal(ascending(rt.alloc()), ascending(rt.alloc())));
    is_found_so(&rt, is_found(rt.alloc()));
    is_so(&rt, takes_turns());
}
