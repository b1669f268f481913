//! A book of two CPUs with an agent for each, runs of agents in threads, and their scripts, with ample memory.

mod asking;
mod holds;
pub(crate) mod runs;
mod schedules;
mod transcripts;

use crate::world::SMALL;
use pc_agent::Agent;
use pc_delta::Delta;
use pc_join::Join;
use pc_messages::{Cpu, Tid};
use pc_threads::{Book, EnvCall, Posted, settle};
use pc_view::View;
use std::alloc::Global;

/// A ready thread of queue 0 that may run on both CPUs.
const CREATE: EnvCall = EnvCall::Create {
    queue: Cpu(0),
    mask: 3,
    ready: true,
};

/// The thread on CPU 0 is taken off it.
const PREEMPT: EnvCall = EnvCall::Preempt {
    cpu: Cpu(0),
    ran: 1,
};

/// What a message of thread 0 to queue 0 answers where no agent is woken.
const fn posted(number: u32, aseq: u32) -> Posted {
    Posted {
        thread: Some(Tid(0)),
        number: Some(number),
        queue: Cpu(0),
        aseq,
        woken: None,
    }
}

/// A book, and an agent of each CPU.
#[derive(Drop)]
struct Scene {
    book: Book,
    first: Agent,
    other: Agent,
}

/// Nothing has happened, and nothing is known.
fn new_scene(alloc: Global) -> Option<Scene> {
    match Book::new(alloc, SMALL) {
        Ok(book) => Some(Scene {
            book,
            first: Agent::new(alloc, Cpu(0)),
            other: Agent::new(alloc, Cpu(1)),
        }),
        Err(_) => None,
    }
}

/// The agent copies all that its queue holds, and counts it as sent.
fn copies(book: &Book, agent: &mut Agent) -> Option<Delta> {
    match book.peek(agent.cpu()) {
        Ok((_, items)) => match agent.copied(items.as_slice()) {
            Ok(delta) => {
                agent.sent(items.len() as u32);
                Some(delta)
            }
            Err(_) => None,
        },
        Err(_) => None,
    }
}

/// What is done, and accepted.
#[derive(Clone, Copy)]
enum Step {
    Posts(EnvCall),
    /// The first agent copies what its queue holds.
    Copies,
    /// The first agent removes what it counts as sent.
    Consumes,
    /// The first agent picks by so many posts.
    Picks(u32),
    /// The CPU's agent sleeps by so many posts.
    Sleeps(u8, u32),
    Rouses(u8),
    /// A thread is created, the first agent copies that, removes it, and has the thread run.
    RunsOne,
    /// The thread leaves the CPU, the first agent copies and removes that, and the other takes it in and the
    /// thread over.
    MovesOne,
}

// Without contracts, so that a test's proof does not carry those of the book.
impl Scene {
    fn posts(&mut self, call: EnvCall) -> bool {
        self.book.post(call).is_ok()
    }

    fn consumes(&mut self) -> bool {
        self.book.consume(&mut self.first).is_ok()
    }

    fn picks(&mut self, aseq: u32) -> bool {
        self.book.pick(&mut self.first, aseq).is_ok()
    }

    fn steals(&mut self) -> bool {
        self.book.steal(&mut self.other).is_ok()
    }

    fn sleeps(&mut self, cpu: u8, aseq: u32) -> bool {
        self.book.sleep(Cpu(cpu), aseq).is_ok()
    }

    fn rouses(&mut self, cpu: u8) -> bool {
        self.book.rouse(Cpu(cpu)).is_ok()
    }

    fn copies(&mut self) -> bool {
        copies(&self.book, &mut self.first).is_some()
    }

    fn tells(&mut self) -> bool {
        match copies(&self.book, &mut self.first) {
            Some(delta) => self.other.deliver(&delta).is_ok(),
            None => false,
        }
    }

    fn runs_one(&mut self) -> bool {
        self.posts(CREATE) && self.tells() && self.consumes() && self.picks(1)
    }

    fn moves_one(&mut self) -> bool {
        self.posts(PREEMPT) && self.tells() && self.consumes() && self.steals()
    }

    fn does(&mut self, step: &Step) -> bool {
        match *step {
            Step::Posts(call) => self.posts(call),
            Step::Copies => self.copies(),
            Step::Consumes => self.consumes(),
            Step::Picks(aseq) => self.picks(aseq),
            Step::Sleeps(cpu, aseq) => self.sleeps(cpu, aseq),
            Step::Rouses(cpu) => self.rouses(cpu),
            Step::RunsOne => self.runs_one(),
            Step::MovesOne => self.moves_one(),
        }
    }

    /// Whether all is accepted.
    fn does_all(&mut self, steps: &[Step]) -> bool {
        for step in steps {
            if !self.does(step) {
                return false;
            }
        }
        true
    }
}

fn settled(alloc: Global, book: &Book, first: View, other: View) -> Option<View> {
    settle(alloc, book, &[first, other]).ok()
}

/// Whether the agents' views settle to all that the other agent knows, behind a thread that moved to it.
fn is_settled(alloc: Global) -> Option<bool> {
    let mut scene = new_scene(alloc)?;
    if !scene.runs_one() || !scene.moves_one() {
        return None;
    }
    let first = scene.first.view().try_copy().ok()?;
    let other = scene.other.view().try_copy().ok()?;
    let view = settled(alloc, &scene.book, first, other)?;
    Some(view == *scene.other.view())
}

#[test]
fn views_of_a_book_are_settled(rt: HostRuntime) {
    assert_eq!(rt; is_settled(rt.alloc()), Some(true));
}
