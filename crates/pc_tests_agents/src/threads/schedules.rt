//! Runs in an order that a gate forces: what is listed, and what is asked and answered around restarts.

use crate::threads::holds::{DRIVER, Hold, comes_to_held};
use crate::threads::posted;
use crate::threads::runs::{Fact, Plan, comes_to};
use pc_messages::{Cpu, Tid};
use pc_threads::{AgentCall, Answer, Call, EnvCall, Posted, Step};

const fn consume(count: u32) -> (Call, Answer) {
    let cpu = Cpu(0);
    (Call::Consume { cpu, count }, Answer::Done)
}

const fn commit(aseq: u32) -> (Call, Answer) {
    let (cpu, thread) = (Cpu(0), Tid(0));
    (
        Call::Agent(AgentCall::Commit { cpu, thread, aseq }),
        Answer::Done,
    )
}

const fn sleep(aseq: u32) -> (Call, Answer) {
    let cpu = Cpu(0);
    (Call::Agent(AgentCall::Sleep { cpu, aseq }), Answer::Done)
}

/// A step whose message wakes the agent.
const fn leaves(call: EnvCall, number: u32) -> (Call, Answer) {
    let posted = Posted {
        woken: Some(Cpu(0)),
        ..posted(number, number)
    };
    (Call::Env(call), Answer::Posted(posted))
}

/// A thread is created ready, and is the first of its queue.
const fn creates(thread: u32, queue: Cpu, mask: u64) -> (Call, Answer) {
    let ready = true;
    let posted = Posted {
        thread: Some(Tid(thread)),
        number: Some(1),
        queue,
        aseq: 1,
        woken: None,
    };
    (
        Call::Env(EnvCall::Create { queue, mask, ready }),
        Answer::Posted(posted),
    )
}

#[test]
fn one_thread_on_one_cpu_is_listed_so(rt: HostRuntime) {
    const PLANS: [Plan<'static>; 1] = [(0, 1, &[Step::Yield(1), Step::Preempt(2), Step::Die(4)])];
    let cpu = Cpu(0);
    let listed = [
        creates(0, cpu, 1),
        consume(1),
        commit(1),
        sleep(1),
        leaves(EnvCall::YieldNow { cpu, ran: 1 }, 2),
        consume(1),
        commit(2),
        sleep(2),
        leaves(EnvCall::Preempt { cpu, ran: 2 }, 3),
        consume(1),
        commit(3),
        sleep(3),
        leaves(EnvCall::Die { cpu, ran: 4 }, 4),
        consume(1),
        sleep(4),
        consume(0),
    ];
    comes_to(&rt, rt.alloc(), 1, &PLANS, &[], &[Fact::Calls(&listed)]);
}

#[test]
fn threads_are_created_as_planned(rt: HostRuntime) {
    const PLANS: [Plan<'static>; 2] = [(1, 2, &[Step::Die(1)]), (0, 3, &[Step::Die(1)])];
    let created = [creates(0, Cpu(1), 2), creates(1, Cpu(0), 3)];
    comes_to(
        &rt,
        rt.alloc(),
        2,
        &PLANS,
        &[],
        &[Fact::FirstCalls(&created)],
    );
}

/// A thread of the first queue and one of the other, which run on the first CPU alone.
const TWO: [Plan<'static>; 2] = [
    (0, 1, &[Step::Yield(1), Step::Die(1)]),
    (1, 1, &[Step::Die(1)]),
];

/// The first agent has a delta to take when its first turn ends, and a wake when its second one does; what it asked in
/// that one was answered before it is told the wake.
const ASKED: [Hold; 3] = [(0, 1, 1, 3), (0, 4, DRIVER, 1), (0, 5, 1, 4)];

/// Where its third turn ends it was answered again: in between, the other agent was woken by the yield that this one
/// told of, since one that has started again does not know whether the thread is ready.
const ASKED_AGAIN: Hold = (0, 9, 1, 10);

#[test]
fn an_answer_takes_the_place_of_what_waits(rt: HostRuntime) {
    const FACTS: [Fact<'static>; 2] = [
        Fact::Totals([2, 5, 3, 3]),
        // Nothing stale: the first agent takes its thread back by the later answer, which tells the yield.
        Fact::FirstCounts([4, 3, 2, 0, 0, 8]),
    ];
    let holds = [ASKED[0], ASKED[1], ASKED[2], ASKED_AGAIN];
    let turns = [(0, 2), (0, 3)];
    comes_to_held(&rt, rt.alloc(), 2, &TWO, &turns, &holds, &FACTS);
}

#[test]
fn what_was_answered_before_a_restart_is_kept(rt: HostRuntime) {
    // The other agent, which is told all while it is still to restart, does so behind its answer, and before it is told
    // of the yield, which no agent would know if both forgot it.
    const FACTS: [Fact<'static>; 1] = [Fact::Totals([2, 5, 3, 3])];
    let holds = [ASKED[0], ASKED[1], (0, 5, 1, 8), (0, 9, 1, 13)];
    let turns = [(0, 2), (0, 3), (1, 3)];
    comes_to_held(&rt, rt.alloc(), 2, &TWO, &turns, &holds, &FACTS);
}

#[test]
fn all_others_are_asked(rt: HostRuntime) {
    // Two agents forget the thread, before either asks; the third one knows it. The second one is woken by the first,
    // since the thread may run on its CPU too.
    const PLANS: [Plan<'static>; 1] = [(0, 3, &[Step::Yield(1), Step::Die(1)])];
    const FACTS: [Fact<'static>; 1] = [Fact::Totals([1, 3, 2, 2])];
    let turns = [(0, 2), (1, 2)];
    comes_to_held(&rt, rt.alloc(), 3, &PLANS, &turns, &[(0, 4, 1, 4)], &FACTS);
}

#[test]
fn an_agent_that_starts_again_asks_behind_what_it_told(rt: HostRuntime) {
    // The other agent takes nothing before this one has told of its thread, forgotten it, and asked a second time.
    const PLANS: [Plan<'static>; 1] = [(1, 2, &[Step::Yield(1), Step::Die(1)])];
    const FACTS: [Fact<'static>; 1] = [Fact::Totals([1, 3, 2, 2])];
    let turns = [(1, 1), (1, 2)];
    comes_to_held(&rt, rt.alloc(), 2, &PLANS, &turns, &[(0, 1, 1, 5)], &FACTS);
}
