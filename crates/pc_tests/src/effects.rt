//! What events say of themselves.

use crate::rows::{Row, each_holds};
use pc_calls::{AgentCall, Effect, EnvCall, Event, Leaving, Left};
use pc_messages::{Cpu, Level, Mask, Phase, Reported, Tid};
use std::alloc::Global;

const CPU: Cpu = Cpu(1);

const OTHER: Cpu = Cpu(2);

const THREAD: Tid = Tid(3);

/// An event of CPU 1 that changes nothing.
const OWN: Effect = Effect {
    cpu: Some(CPU),
    thread: None,
    posts: false,
    phase: None,
    left: None,
    comes: false,
};

/// A message of thread 3.
const OF_THREAD: Effect = Effect {
    cpu: None,
    thread: Some(THREAD),
    posts: true,
    phase: None,
    left: None,
    comes: false,
};

/// An event, its effect, and the CPU on which another thread, or none, may run behind it.
struct Doing {
    event: Event,
    effect: Effect,
    changed: Option<Cpu>,
}

impl Row for Doing {
    fn holds(&self, _alloc: Global) -> bool {
        let effect = self.event.effect();
        effect == self.effect && effect.changed_cpu() == self.changed
    }
}

const BLOCKS: EnvCall = EnvCall::Block { cpu: CPU, ran: 4 };

const BLOCKED: Left = Left {
    cpu: CPU,
    leaving: Leaving::Block,
    ran: 4,
};

const DOINGS: [Doing; 9] = [
    Doing {
        event: Event::Env(EnvCall::Create {
            queue: CPU,
            ready: false,
            mask: 2,
        }),
        effect: Effect {
            posts: true,
            phase: Some(Phase::Blocked),
            ..OWN
        },
        changed: None,
    },
    Doing {
        event: Event::Env(EnvCall::Wake { thread: THREAD }),
        effect: Effect {
            phase: Some(Phase::Ready),
            ..OF_THREAD
        },
        changed: None,
    },
    Doing {
        event: Event::Env(EnvCall::SetAffinity {
            thread: THREAD,
            mask: 2,
        }),
        effect: OF_THREAD,
        changed: None,
    },
    Doing {
        event: Event::Env(EnvCall::Tick { cpu: CPU }),
        effect: Effect { posts: true, ..OWN },
        changed: None,
    },
    Doing {
        event: Event::Env(BLOCKS),
        effect: Effect {
            posts: true,
            phase: Some(Phase::Blocked),
            left: Some(BLOCKED),
            ..OWN
        },
        changed: Some(CPU),
    },
    Doing {
        event: Event::Agent(AgentCall::Commit {
            cpu: CPU,
            thread: THREAD,
            aseq: 5,
        }),
        effect: Effect {
            thread: Some(THREAD),
            comes: true,
            ..OWN
        },
        changed: Some(CPU),
    },
    Doing {
        event: Event::Agent(AgentCall::Config {
            queue: CPU,
            target: Some(OTHER),
        }),
        effect: OWN,
        changed: None,
    },
    Doing {
        event: Event::Pick { cpu: CPU, aseq: 5 },
        effect: Effect { comes: true, ..OWN },
        changed: Some(CPU),
    },
    Doing {
        event: Event::Answer {
            cpu: CPU,
            asker: OTHER,
        },
        effect: OWN,
        changed: None,
    },
];

#[test]
fn an_event_tells_what_it_is_about(rt: HostRuntime) {
    each_holds(&rt, rt.alloc(), &DOINGS);
}

/// How a thread leaves its CPU, and the phase in which it is then.
#[derive(Drop)]
struct Behind(Leaving, Phase);

impl Row for Behind {
    fn holds(&self, _alloc: Global) -> bool {
        self.0.phase() == self.1
    }
}

#[test]
fn a_thread_that_left_is_in_a_phase(rt: HostRuntime) {
    let rows = [
        Behind(Leaving::Yield, Phase::Ready),
        Behind(Leaving::Block, Phase::Blocked),
        Behind(Leaving::Preempt, Phase::Ready),
        Behind(Leaving::Die, Phase::Dead),
    ];
    each_holds(&rt, rt.alloc(), &rows);
}

/// A phase, and the word for it.
#[derive(Drop)]
struct Told(Phase, &'static str);

impl Row for Told {
    fn holds(&self, _alloc: Global) -> bool {
        self.0.word() == self.1
    }
}

#[test]
fn phases_have_words(rt: HostRuntime) {
    let rows = [
        Told(Phase::Ready, "ready"),
        Told(Phase::Blocked, "blocked"),
        Told(Phase::Dead, "dead"),
    ];
    each_holds(&rt, rt.alloc(), &rows);
}

/// A phase, the bits of a mask for four CPUs, and whether the thread may run on CPU 1.
#[derive(Drop)]
struct Allowed(Phase, u64, bool);

impl Row for Allowed {
    fn holds(&self, _alloc: Global) -> bool {
        let Ok(mask) = Mask::new(self.1, 4) else {
            return false;
        };
        let reported = Reported {
            mask,
            ran: 0,
            phase: self.0,
            level: Level::LOWEST,
        };
        reported.may_run_on(CPU) == self.2
    }
}

#[test]
fn a_ready_thread_may_run_where_its_mask_allows(rt: HostRuntime) {
    let rows = [
        Allowed(Phase::Ready, 2, true),
        Allowed(Phase::Ready, 5, false),
        Allowed(Phase::Blocked, 2, false),
        Allowed(Phase::Dead, 2, false),
    ];
    each_holds(&rt, rt.alloc(), &rows);
}
