//! Agents that work by the protocol, step by step, with ample memory.

use crate::world::{FIRST, OTHER, SMALL};
use pc_calls::{AgentCall, EnvCall, Event, Posted, Refusal, Reply};
use pc_messages::{Cpu, Tid};
use pc_protocol::{Protocol, StepFault, Told};
use std::alloc::Global;

/// A ready thread of queue 0 that may run on both CPUs.
const CREATE: EnvCall = EnvCall::Create {
    queue: FIRST,
    mask: 3,
    ready: true,
};

/// What is so of a machine.
#[derive(Clone, Copy)]
enum Fact<'a> {
    /// How many choices the agents of CPUs 0, 1 and 2 have; there is no CPU 2.
    Choices([usize; 3]),
    /// Whether these agents begin a turn.
    Begin([bool; 3]),
    /// What is in the mailbox of the second agent.
    Mail(&'a [u64]),
    /// Whether no agent has a step.
    Rests(bool),
    /// What runs on the first CPU.
    Runs(Option<Tid>),
    /// Up to which of thread 0's messages the second agent knows all.
    Knows(u32),
    /// How many events were told.
    Told(usize),
    /// The last event that was told, and that it was accepted.
    Last(Event),
}

/// A machine, and what was told of it.
#[derive(Drop)]
struct Played {
    machine: Protocol,
    told: Vec<Told>,
}

// Without contracts, as the functions below, so that a test's proof does not carry those of the machine.
fn is_last(told: &[Told], event: &Event) -> bool {
    match told.last() {
        Some(last) => last.event == *event && !matches!(last.reply, Reply::Refused(_)),
        None => false,
    }
}

impl Played {
    fn new(alloc: Global) -> Option<Played> {
        let machine = Protocol::new(alloc, SMALL, &[]).ok()?;
        Some(Played {
            machine,
            told: Vec::new(alloc),
        })
    }

    fn choices(&self) -> [usize; 3] {
        [
            self.machine.choices(FIRST),
            self.machine.choices(OTHER),
            self.machine.choices(Cpu(2)),
        ]
    }

    fn begin(&self) -> [bool; 3] {
        [
            self.machine.begins(FIRST),
            self.machine.begins(OTHER),
            self.machine.begins(Cpu(2)),
        ]
    }

    fn knows(&self, number: u32) -> bool {
        match self.machine.world().view(OTHER) {
            Some(view) => view.upto(Tid(0)) == number,
            None => false,
        }
    }

    fn is_so(&self, fact: &Fact<'_>) -> bool {
        match fact {
            Fact::Choices(choices) => self.choices() == *choices,
            Fact::Begin(begin) => self.begin() == *begin,
            Fact::Mail(indices) => self.machine.mail(OTHER) == *indices,
            Fact::Rests(rests) => self.machine.is_at_rest() == *rests,
            Fact::Runs(thread) => self.machine.world().kernel().running(FIRST) == *thread,
            Fact::Knows(number) => self.knows(*number),
            Fact::Told(many) => self.told.len() == *many,
            Fact::Last(event) => is_last(self.told.as_slice(), event),
        }
    }

    /// The number of the first fact that is not so.
    fn first_wrong(&self, facts: &[Fact<'_>]) -> Option<usize> {
        for (number, fact) in facts.iter().enumerate() {
            if !self.is_so(fact) {
                return Some(number);
            }
        }
        None
    }

    /// Behind a call of the environment that was accepted.
    fn called(self, call: EnvCall) -> Option<Played> {
        // The checker finds the types that a reply nests only where the function names them.
        let _: (Option<Posted>, Option<Tid>, Option<Cpu>, Option<Refusal>) = (
            None, None, None, None,
        );
        let Played { machine, mut told } = self;
        let (machine, reply) = machine.call(call, &mut told).ok()?;
        if let Reply::Refused(_) = reply {
            return None;
        }
        Some(Played { machine, told })
    }

    /// Behind so many steps of the CPU's agent, each the first of its choices.
    fn stepped(self, cpu: Cpu, steps: usize) -> Option<Played> {
        let Played {
            mut machine,
            mut told,
        } = self;
        for _ in 0..steps {
            machine = machine.step(cpu, 0, &mut told).ok()?;
        }
        Some(Played { machine, told })
    }

    /// Behind a restart of the CPU's agent.
    fn restarted(self, cpu: Cpu) -> Option<Played> {
        let Played { machine, mut told } = self;
        let machine = machine.restart(cpu, &mut told).ok()?;
        Some(Played { machine, told })
    }

    /// Why a step is not done.
    fn fault(self, cpu: Cpu, choice: usize) -> Option<StepFault> {
        let Played { machine, mut told } = self;
        machine.step(cpu, choice, &mut told).err()
    }

    /// Why a restart is not done.
    fn restart_fault(self, cpu: Cpu) -> Option<StepFault> {
        let Played { machine, mut told } = self;
        machine.restart(cpu, &mut told).err()
    }
}

/// The number of the first fact that is not so; as many as there are where what leads there was refused.
fn first_wrong(played: Option<Played>, facts: &[Fact<'_>]) -> Option<usize> {
    match played {
        Some(played) => played.first_wrong(facts),
        None => Some(facts.len()),
    }
}

#[test]
fn each_agent_begins_a_turn(rt: HostRuntime) {
    const FACTS: [Fact<'static>; 5] = [
        Fact::Choices([1, 1, 0]),
        Fact::Begin([true, true, false]),
        Fact::Mail(&[]),
        Fact::Rests(false),
        Fact::Told(0),
    ];
    assert_eq!(rt; first_wrong(Played::new(rt.alloc()), &FACTS), None);
}

fn created(alloc: Global) -> Option<Played> {
    Played::new(alloc)?.called(CREATE)
}

#[test]
fn a_call_is_done_and_told(rt: HostRuntime) {
    const FACTS: [Fact<'static>; 3] = [
        Fact::Told(1),
        Fact::Last(Event::Env(CREATE)),
        Fact::Begin([true, true, false]),
    ];
    assert_eq!(rt; first_wrong(created(rt.alloc()), &FACTS), None);
}

/// The first agent has done so many steps behind the creation.
fn worked(alloc: Global, steps: usize) -> Option<Played> {
    created(alloc)?.stepped(FIRST, steps)
}

#[test]
fn a_look_takes_the_messages_in(rt: HostRuntime) {
    const PUBLISH: Event = Event::Publish {
        cpu: FIRST,
        fails: false,
    };
    const FACTS: [Fact<'static>; 4] = [
        Fact::Last(PUBLISH),
        Fact::Begin([false, true, false]),
        Fact::Choices([1, 1, 0]),
        Fact::Mail(&[]),
    ];
    assert_eq!(rt; first_wrong(worked(rt.alloc(), 1), &FACTS), None);
}

#[test]
fn a_put_leaves_them_in_a_mailbox(rt: HostRuntime) {
    const FACTS: [Fact<'static>; 3] = [Fact::Mail(&[0]), Fact::Knows(0), Fact::Runs(None)];
    assert_eq!(rt; first_wrong(worked(rt.alloc(), 2), &FACTS), None);
}

// The agent of the CPU that the thread runs on has slept under the count of posts, and waits for a note.
#[test]
fn an_act_has_the_thread_run(rt: HostRuntime) {
    const SLEEP: Event = Event::Agent(AgentCall::Sleep {
        cpu: FIRST,
        aseq: 1,
    });
    const FACTS: [Fact<'static>; 4] = [
        Fact::Runs(Some(Tid(0))),
        Fact::Last(SLEEP),
        Fact::Choices([0, 1, 0]),
        Fact::Rests(false),
    ];
    assert_eq!(rt; first_wrong(worked(rt.alloc(), 3), &FACTS), None);
}

/// The second agent goes on behind that, so many steps.
fn followed(alloc: Global, steps: usize) -> Option<Played> {
    worked(alloc, 3)?.stepped(OTHER, steps)
}

// It found nothing at its look, so nothing is to be put, and it acts at once. What it was told by the put is a note,
// which it takes behind its sleep, with the mail.
#[test]
fn a_note_has_the_mail_taken_in(rt: HostRuntime) {
    const SLEPT: [Fact<'static>; 3] = [
        Fact::Knows(0),
        Fact::Choices([0, 1, 0]),
        Fact::Begin([false, false, false]),
    ];
    assert_eq!(rt; first_wrong(followed(rt.alloc(), 2), &SLEPT), None);
    const TAKEN: [Fact<'static>; 3] = [
        Fact::Knows(1),
        Fact::Mail(&[]),
        Fact::Begin([false, true, false]),
    ];
    assert_eq!(rt; first_wrong(followed(rt.alloc(), 3), &TAKEN), None);
}

// The thread runs, so its second look and act find nothing to do.
#[test]
fn nobody_has_a_step_at_rest(rt: HostRuntime) {
    const FACTS: [Fact<'static>; 3] = [
        Fact::Rests(true),
        Fact::Choices([0, 0, 0]),
        Fact::Runs(Some(Tid(0))),
    ];
    assert_eq!(rt; first_wrong(followed(rt.alloc(), 5), &FACTS), None);
}

// It forgets, is no longer at any count, and has asked the other agent: whose turn it does not disturb.
#[test]
fn a_restart_asks_the_others(rt: HostRuntime) {
    let restarted = match Played::new(rt.alloc()) {
        Some(played) => played.restarted(FIRST),
        None => None,
    };
    const FACTS: [Fact<'static>; 3] = [
        Fact::Last(Event::Crash { cpu: FIRST }),
        Fact::Begin([true, true, false]),
        Fact::Choices([1, 1, 0]),
    ];
    assert_eq!(rt; first_wrong(restarted, &FACTS), None);
}

/// Why what agents have no step for is not done: a second choice at a begin, a step at rest, a CPU that is not there,
/// and a restart amid a turn.
fn faults(alloc: Global) -> Option<[Option<StepFault>; 4]> {
    Some([
        created(alloc)?.fault(FIRST, 1),
        followed(alloc, 5)?.fault(FIRST, 0),
        created(alloc)?.fault(Cpu(2), 0),
        worked(alloc, 1)?.restart_fault(FIRST),
    ])
}

#[test]
fn what_is_no_step_is_refused(rt: HostRuntime) {
    const NO_STEP: Option<StepFault> = Some(StepFault::NoStep);
    assert_eq!(rt;
        faults(rt.alloc()),
        Some([NO_STEP, NO_STEP, NO_STEP, NO_STEP])
    );
}
