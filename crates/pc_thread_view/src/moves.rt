//! Moves of messages within a list, many at once.
//!
//! A loop over messages takes a load and a store for each. A run of them as an array is one move of memory.

ghost use Rattle.std.specs.Prelude.{◌+◌, ◌≡◌, ◌≤◌, length};
ghost use Rattle.std.specs.List.{copy_within};

/// So many messages, 1,024 bytes, are moved at once.
const RUN: usize = 64;

/// Writes a run.
fn write_run<T: Copy>(slots: &mut [T], run: [T; RUN])
    requires { length slots.old ≡ RUN }
    ensures { slots.new ≡ run }
{
    if let Some(place) = slots.first_chunk_mut::<RUN>() {
        *place = run;
    }
}

/// Moves a run.
fn move_run<T: Copy>(slots: &mut [T], from: usize, to: usize)
    requires from { from + RUN ≤ length slots.old }
    requires to { to + RUN ≤ length slots.old }
    ensures { slots.new ≡ copy_within slots.old from (from + RUN) to }
{
    if let Ok(run) = <[T; RUN]>::try_from(&slots[from..from + RUN]) {
        write_run(&mut slots[to..to + RUN], run);
    }
}

/// Moves so many messages to a later place, the last ones first.
pub(crate) fn move_up<T: Copy>(slots: &mut [T], from: usize, to: usize, count: usize)
    requires up { from ≤ to }
    requires fits { to + count ≤ length slots.old }
    ensures { slots.new ≡ copy_within slots.old from (from + count) to }
{
    let mut left = count;
    while left >= RUN {
        left -= RUN;
        move_run(slots, from + left, to + left);
    }
    slots.copy_within(from..from + left, to);
}

/// Moves so many messages to an earlier place, the first ones first.
pub(crate) fn move_down<T: Copy>(slots: &mut [T], from: usize, to: usize, count: usize)
    requires down { to ≤ from }
    requires fits { from + count ≤ length slots.old }
    ensures { slots.new ≡ copy_within slots.old from (from + count) to }
{
    let mut done = 0;
    while count - done >= RUN {
        move_run(slots, from + done, to + done);
        done += RUN;
    }
    slots.copy_within(from + done..from + count, to + done);
}
