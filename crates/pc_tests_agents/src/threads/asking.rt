//! Runs in an order that a gate forces: who is told, asked and answered what, and when.

use crate::threads::holds::{
    ASKER, DRIVER, Order, SENDERS, WAKER, comes_to_ordered, given_up_after,
};
use crate::threads::runs::{Fact, Plan, comes_to};
use pc_threads::{RunFault, Step};
use std::time::Duration;

/// A thread of the first queue that may run on the first two CPUs, and does two steps.
const TWO_STEPS: [Plan<'static>; 1] = [(0, 3, &[Step::Yield(1), Step::Die(1)])];

/// The same with one step.
const ONE_STEP: [Plan<'static>; 1] = [(0, 3, &[Step::Die(1)])];

/// In these orders the first agent has told of the thread and committed it before the second one begins. That one, in
/// its second turn, would have the thread once it has left the CPU, before the first one has read that.
const STALE: Order<'static> = Order {
    cpus: 3,
    plans: &TWO_STEPS,
    turns: &[],
    // The third agent knows no more than the second one, and answers nothing. It is the only one that can wake the
    // second one for its third turn, in which the thread is dead.
    holds: &[
        (1, 1, 0, 3),
        (1, 4, DRIVER, 1),
        (0, 4, 1, 7),
        (1, 7, DRIVER, 2),
    ],
    rests: &[],
};

#[test]
fn a_stale_steal_is_counted_and_all_are_asked(rt: HostRuntime) {
    const FACTS: [Fact<'static>; 2] = [Fact::Totals([1, 3, 2, 2]), Fact::SecondStale(1)];
    comes_to_ordered(&rt, rt.alloc(), &STALE, &FACTS);
}

// The second agent has asked in its second turn, has learnt nothing since, and starts again before its third one. Only
// where it then asks as one who knows nothing is it told of the thread again, and has something to ask in its fourth.
#[test]
fn an_agent_that_starts_again_asks_anew(rt: HostRuntime) {
    const ORDER: Order<'static> = Order {
        turns: &[(1, 3)],
        holds: &[(1, 1, 0, 3), (1, 4, DRIVER, 1), (0, 4, 1, 13)],
        ..STALE
    };
    const FACTS: [Fact<'static>; 2] = [Fact::Totals([1, 3, 2, 2]), Fact::Rouses(1)];
    comes_to_ordered(&rt, rt.alloc(), &ORDER, &FACTS);
}

// All steps are done, and the end is not told yet: only what was asked wakes the second agent for its third turn.
#[test]
fn a_steal_of_a_dead_thread_asks(rt: HostRuntime) {
    const ORDER: Order<'static> = Order {
        cpus: 2,
        plans: &ONE_STEP,
        turns: &[],
        holds: &[
            (1, 1, 0, 3),
            (1, 4, DRIVER, 1),
            (0, 4, 1, 6),
            (DRIVER, 1, 1, 7),
        ],
        rests: &[],
    };
    const FACTS: [Fact<'static>; 2] = [Fact::Totals([1, 2, 1, 1]), Fact::LastDead(1)];
    comes_to_ordered(&rt, rt.alloc(), &ORDER, &FACTS);
}

// The first agent is held where it has decided: the thread runs, and nothing of it waits. The second one looks then.
#[test]
fn what_is_decided_is_done_by_then(rt: HostRuntime) {
    const ORDER: Order<'static> = Order {
        cpus: 2,
        plans: &ONE_STEP,
        turns: &[],
        holds: &[(1, 1, 0, 3), (0, 3, 1, 6)],
        rests: &[],
    };
    const FACTS: [Fact<'static>; 2] = [Fact::Totals([1, 2, 1, 1]), Fact::Pending(0)];
    comes_to_ordered(&rt, rt.alloc(), &ORDER, &FACTS);
}

/// In these orders the first agent is held where it has told of the thread and not removed that yet. The second one
/// would have it then, and asks: nothing else gives the first one a second turn before the first step.
const PENDING: Order<'static> = Order {
    cpus: 2,
    plans: &ONE_STEP,
    turns: &[],
    holds: &[(1, 1, SENDERS, 1), (SENDERS, 1, 1, 6), (ASKER, 1, 0, 4)],
    rests: &[],
};

// In the second turn of the first agent the thread runs, and in its third one it is dead. The second agent does its own
// third one when the first one is told the end.
#[test]
fn a_pending_steal_is_counted_and_all_are_asked(rt: HostRuntime) {
    const ORDER: Order<'static> = Order {
        holds: &[
            (1, 1, SENDERS, 1),
            (SENDERS, 1, 1, 6),
            (ASKER, 1, 0, 6),
            (1, 7, 0, 10),
        ],
        ..PENDING
    };
    const FACTS: [Fact<'static>; 4] = [
        Fact::Totals([1, 2, 1, 1]),
        Fact::Pending(1),
        Fact::FirstCounts([2, 1, 0, 0, 0, 3]),
        Fact::FirstRefused([1, 1, 1, 0]),
    ];
    comes_to_ordered(&rt, rt.alloc(), &ORDER, &FACTS);
}

// Both agents start again after the first one alone has removed its thread's first message, so nobody knows it. Each
// has done so, and the driver was told of a commit, before it asks: the run waits, however late that is.
#[test]
fn a_run_that_waits_is_given_up(rt: HostRuntime) {
    const ORDER: Order<'static> = Order {
        cpus: 2,
        // News of the second thread gives the first agent its second turn.
        plans: &[
            (0, 1, &[Step::Yield(1), Step::Die(1)]),
            (1, 2, &[Step::Die(1)]),
        ],
        turns: &[(0, 2), (1, 2)],
        // The second agent takes the message in behind its first turn, and forgets it before its second one.
        holds: &[(1, 1, 0, 3), (0, 4, 1, 6), (ASKER, 1, 0, 5)],
        rests: &[],
    };
    let given_up = given_up_after(&rt, rt.alloc(), &ORDER, Duration::from_secs(1));
    assert_eq!(rt; given_up, Some(RunFault::TimeUp));
}

// When the second turn of the first agent begins, the driver was told of its commit.
#[test]
fn what_is_told_by_the_deadline_is_late(rt: HostRuntime) {
    let given_up = given_up_after(&rt, rt.alloc(), &PENDING, Duration::from_secs(0));
    assert_eq!(rt; given_up, Some(RunFault::TimeUp));
}

// The second agent, for which news of the thread wait, is held until the first one, for which nothing waits, is told
// the end: its fourth point is where it copies then. A second turn of the second one would wait for what never comes.
#[test]
fn agents_end_before_what_waits_for_them(rt: HostRuntime) {
    const ORDER: Order<'static> = Order {
        cpus: 2,
        plans: &ONE_STEP,
        turns: &[],
        holds: &[
            (ASKER, 1, 0, 3),
            (ASKER, 1, 1, 3),
            (1, 3, 0, 4),
            (1, 4, 0, 1_000),
        ],
        rests: &[],
    };
    let given_up = given_up_after(&rt, rt.alloc(), &ORDER, Duration::from_secs(0));
    assert_eq!(rt; given_up, Some(RunFault::TimeUp));
}

// The first agent is held where it has copied, and the second one, which waits for news then, does no second turn.
#[test]
fn nothing_is_sent_before_it_is_told_to_be_copied(rt: HostRuntime) {
    const ORDER: Order<'static> = Order {
        cpus: 2,
        plans: &ONE_STEP,
        turns: &[],
        holds: &[(1, 1, 0, 2), (0, 2, 1, 3)],
        rests: &[(0, 2, 1, 3)],
    };
    comes_to_ordered(&rt, rt.alloc(), &ORDER, &[Fact::Totals([1, 2, 1, 1])]);
}

// The driver is held behind its first step, until the agent that it woke begins its second turn.
#[test]
fn a_wake_is_told_with_its_step(rt: HostRuntime) {
    const ORDER: Order<'static> = Order {
        cpus: 1,
        plans: &[(0, 1, &[Step::Yield(1), Step::Die(1)])],
        turns: &[],
        holds: &[(DRIVER, 1, 0, 4)],
        rests: &[],
    };
    comes_to_ordered(&rt, rt.alloc(), &ORDER, &[Fact::Totals([1, 3, 2, 2])]);
}

// The agent has read the block and sleeps before the thread is woken, and begins its third turn before the next step.
#[test]
fn a_block_and_its_wake_are_both_told(rt: HostRuntime) {
    const ORDER: Order<'static> = Order {
        cpus: 1,
        plans: &[(0, 1, &[Step::Block(1), Step::Die(1)])],
        turns: &[],
        holds: &[(WAKER, 1, 0, 6), (DRIVER, 1, 0, 7)],
        rests: &[],
    };
    comes_to_ordered(&rt, rt.alloc(), &ORDER, &[Fact::Totals([1, 4, 2, 2])]);
}

// The agent has read the block, and is held where it has told of that until the thread is woken. So its pick is stale,
// and it may not sleep: nothing would tell it of the wake.
#[test]
fn a_pick_and_a_sleep_are_under_the_count_that_was_read(rt: HostRuntime) {
    const ORDER: Order<'static> = Order {
        cpus: 1,
        plans: &[(0, 1, &[Step::Block(1), Step::Die(1)])],
        turns: &[],
        holds: &[(WAKER, 1, SENDERS, 2), (SENDERS, 2, DRIVER, 1)],
        rests: &[],
    };
    const FACTS: [Fact<'static>; 3] = [
        Fact::Totals([1, 4, 2, 2]),
        Fact::FirstCounts([4, 2, 0, 1, 0, 2]),
        Fact::FirstRefused([0, 1, 1, 0]),
    ];
    comes_to_ordered(&rt, rt.alloc(), &ORDER, &FACTS);
}

// The second agent begins its second turn when the first one has ended, and reads the end of its thread there. What
// wakes it for that gives it a third turn, before which it forgets it: the first one was told behind its end.
#[test]
fn what_is_told_behind_an_end_is_taken_in(rt: HostRuntime) {
    const ORDER: Order<'static> = Order {
        cpus: 2,
        plans: &[(1, 2, &[Step::Die(1)])],
        turns: &[(1, 1), (1, 3)],
        // The first agent has answered, which gives the second one its second turn, when its own second one begins. Its
        // seventh point is where it copies at the end.
        holds: &[(1, 3, 0, 4), (1, 4, 0, 7)],
        rests: &[],
    };
    const FACTS: [Fact<'static>; 2] = [Fact::Totals([1, 2, 1, 1]), Fact::Rouses(2)];
    comes_to_ordered(&rt, rt.alloc(), &ORDER, &FACTS);
}

// Each agent has a restart to come that does not, so what the other one publishes wakes it. Each publishes four times.
// The driver stops a while behind its first step: where empty deltas were sent, agents would wake each other meanwhile.
#[test]
fn nothing_is_sent_where_nothing_was_read(rt: HostRuntime) {
    const ORDER: Order<'static> = Order {
        cpus: 2,
        plans: &[
            (0, 1, &[Step::Yield(1), Step::Die(1)]),
            (1, 2, &[Step::Yield(1), Step::Die(1)]),
        ],
        turns: &[(0, 1_000_000), (1, 1_000_000)],
        holds: &[],
        rests: &[(DRIVER, 1, 0, 60), (DRIVER, 1, 1, 60)],
    };
    const FACTS: [Fact<'static>; 2] = [Fact::Totals([2, 6, 4, 4]), Fact::FewerCalls(100)];
    comes_to_ordered(&rt, rt.alloc(), &ORDER, &FACTS);
}

// The second agent restarts before its first turn and then no more: what it asked gives it a second one, and what the
// first one tells, of a thread that may not run on its CPU, none. Its seventh point is where it copies at the end.
#[test]
fn an_agent_that_restarts_no_more_is_not_woken_for_each_message(rt: HostRuntime) {
    const ORDER: Order<'static> = Order {
        cpus: 2,
        plans: &[(0, 1, &[Step::Yield(1), Step::Die(1)])],
        turns: &[(1, 1)],
        holds: &[(0, 1, 1, 3), (1, 8, 0, 1_000)],
        rests: &[],
    };
    const FACTS: [Fact<'static>; 2] = [Fact::Totals([1, 3, 2, 2]), Fact::Rouses(1)];
    comes_to_ordered(&rt, rt.alloc(), &ORDER, &FACTS);
}

// The thread runs on the first CPU alone, so nothing else gives the second agent turns.
#[test]
fn restarts_come_where_there_is_nothing_to_do(rt: HostRuntime) {
    const STEPS: [Step; 21] = [
        Step::Yield(1),
        Step::Yield(1),
        Step::Yield(1),
        Step::Yield(1),
        Step::Yield(1),
        Step::Yield(1),
        Step::Yield(1),
        Step::Yield(1),
        Step::Yield(1),
        Step::Yield(1),
        Step::Yield(1),
        Step::Yield(1),
        Step::Yield(1),
        Step::Yield(1),
        Step::Yield(1),
        Step::Yield(1),
        Step::Yield(1),
        Step::Yield(1),
        Step::Yield(1),
        Step::Yield(1),
        Step::Die(1),
    ];
    const FACTS: [Fact<'static>; 1] = [Fact::Rouses(4)];
    const TURNS: [(i64, i64); 4] = [(1, 2), (1, 3), (1, 5), (1, 20)];
    comes_to(&rt, rt.alloc(), 2, &[(0, 1, &STEPS)], &TURNS, &FACTS);
}
