//! The calls of a book as a script: texts written down by hand.

use super::runs::{Plan, run};
use super::{CREATE, PREEMPT, Step, new_scene};
use pc_report::write_transcript;
use pc_threads::Book;
use std::alloc::Global;
use std::sync::Wait;
use std::thread::Threads;
use std::time::Clock;

/// The script of a book, as text.
fn script_of(alloc: Global, book: &Book) -> Option<Vec<u8>> {
    let mut text = Vec::new(alloc);
    match write_transcript(alloc, book, &mut text) {
        Ok(()) => Some(text),
        Err(_) => None,
    }
}

/// Whether this is the script of the book.
fn has_script(alloc: Global, book: &Book, wanted: &[u8]) -> bool {
    match script_of(alloc, book) {
        Some(text) => text.as_slice() == wanted,
        None => false,
    }
}

/// Whether the steps are accepted, and this is then the script of the book.
fn is_written(alloc: Global, steps: &[Step], wanted: &[u8]) -> bool {
    match new_scene(alloc) {
        Some(mut scene) => scene.does_all(steps) && has_script(alloc, &scene.book, wanted),
        None => false,
    }
}

#[test]
fn of_a_book_without_calls(rt: HostRuntime) {
    assert!(rt; is_written(rt.alloc(), &[], b"enclave 2 8 100 16 1000\n"));
}

#[test]
fn of_a_thread_that_moves(rt: HostRuntime) {
    const STEPS: [Step; 5] = [
        Step::RunsOne,
        Step::Sleeps(0, 1),
        Step::Rouses(0),
        Step::MovesOne,
        Step::Sleeps(1, 0),
    ];
    const WANTED: &[u8] = b"enclave 2 8 100 16 1000
create 0 3 ready
publish 0
consume 0
commit 0 t0 1
sleep 0 1
rouse 0
preempt 0 1
publish 0
consume 0
associate t0 1 2
sleep 1 0
";
    assert!(rt; is_written(rt.alloc(), &STEPS, WANTED));
}

// The agent looks behind the first of two posts, and removes that one behind the second. What is left it removes later,
// and then nothing.
#[test]
fn an_agent_has_looked_before_what_it_left_was_posted(rt: HostRuntime) {
    let steps = [
        Step::Posts(CREATE),
        Step::Copies,
        Step::Posts(CREATE),
        Step::Consumes,
        Step::Copies,
        Step::Consumes,
        Step::Consumes,
        Step::Picks(2),
    ];
    const WANTED: &[u8] = b"enclave 2 8 100 16 1000
create 0 3 ready
publish 0
create 0 3 ready
consume 0
publish 0
consume 0
consume 0
commit 0 t0 2
";
    assert!(rt; is_written(rt.alloc(), &steps, WANTED));
}

#[test]
fn what_is_left_in_the_end_is_not_looked_at(rt: HostRuntime) {
    const STEPS: [Step; 2] = [Step::RunsOne, Step::Posts(PREEMPT)];
    const WANTED: &[u8] = b"enclave 2 8 100 16 1000
create 0 3 ready
publish 0
consume 0
commit 0 t0 1
preempt 0 1
";
    assert!(rt; is_written(rt.alloc(), &STEPS, WANTED));
}

/// Whether this is the script of a run of these threads on one CPU.
fn is_script_of_run<R: Threads + Wait + Clock + Sync>(
    rt: &R,
    alloc: Global,
    plans: &[Plan<'_>],
    wanted: &[u8],
) -> bool {
    match run(rt, alloc, 1, plans, &[]) {
        Some(report) => has_script(alloc, &report.book, wanted),
        None => false,
    }
}

#[test]
fn of_a_run_of_one_thread(rt: HostRuntime) {
    const STEPS: [pc_threads::Step; 2] = [pc_threads::Step::Yield(3), pc_threads::Step::Die(1)];
    const WANTED: &[u8] = b"enclave 1 4096 1000000 65536 4294967295
create 0 1 ready
publish 0
consume 0
commit 0 t0 1
sleep 0 1
yield 0 3
publish 0
consume 0
commit 0 t0 2
sleep 0 2
die 0 1
publish 0
consume 0
sleep 0 3
consume 0
";
    assert!(rt; is_script_of_run(&rt, rt.alloc(), &[(0, 1, &STEPS)], WANTED));
}
