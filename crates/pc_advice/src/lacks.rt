//! What a deed lacks to be accepted, and what both the environment's calls and agents may lack.

ghost use Rattle.std.specs.Prelude.{◌≡◌};

use crate::ahead::{Ahead, Queued, bit_of};
use crate::deed::Deed;
use pc_calls::EnvCall;
use pc_messages::{Cpu, Tid};
use pc_script::{MOST_BYTES, Read};

/// No deed is advised to be done more often: no script has room for so many lines.
const MOST_TIMES: u64 = MOST_BYTES as u64;

/// A deed that is to be done so often.
#[derive(Clone, Copy)]
pub(crate) struct Goal {
    pub(crate) deed: Deed,
    pub(crate) times: u64,
}

impl Goal {
    /// A deed that is done once.
    pub(crate) fn once(deed: Deed) -> Goal
        ensures { (result.deed ≡ deed) × (result.times ≡ 1) }
    {
        Goal { deed, times: 1 }
    }
}

/// What a deed lacks to be accepted.
#[derive(Drop)]
pub(crate) enum Lack {
    Nothing,
    /// This deed has to come first, or one that does the same.
    Needs(Goal),
    /// A deed of the environment has to come first, as this one is.
    Chooses(Goal),
    /// A deed of the environment has to come first, and none is told.
    NoAgent,
    /// Nothing makes it accepted.
    Never,
    /// It was not looked for.
    Unsought,
}

impl Lack {
    /// This deed has to come first.
    pub(crate) fn needs(deed: Deed) -> Lack {
        Lack::Needs(Goal::once(deed))
    }

    /// This deed has to come first, or another one of the environment.
    pub(crate) fn chooses(deed: Deed) -> Lack {
        Lack::Chooses(Goal::once(deed))
    }

    /// Nothing, or nothing makes it accepted.
    fn never_unless(is_accepted: bool) -> Lack {
        if is_accepted {
            Lack::Nothing
        } else {
            Lack::Never
        }
    }
}

/// The CPU's agent publishes.
pub(crate) fn publish(cpu: Cpu) -> Deed {
    Deed::Publish { cpu, fails: false }
}

/// The thread on the CPU is taken off it.
pub(crate) fn preempt(cpu: Cpu) -> Deed {
    Deed::Env(EnvCall::Preempt { cpu, ran: 0 })
}

impl Ahead<'_> {
    /// What the deed lacks.
    pub(crate) fn lack(&self, goal: &Goal) -> Lack {
        match goal.deed {
            Deed::Env(call) => self.lack_of_call(&call, goal.times),
            Deed::Associate { thread, queue } => self.lack_of_associate(thread, queue),
            Deed::Commit { cpu, thread } => self.lack_of_commit(cpu, thread),
            Deed::Sleep { cpu } | Deed::Rouse { cpu } | Deed::Crash { cpu } => {
                Lack::never_unless(self.is_cpu(cpu))
            }
            Deed::Config { queue, target } => self.lack_of_config(queue, target),
            Deed::Publish { cpu, fails } => Lack::never_unless(self.is_cpu(cpu) && !fails),
            Deed::Consume { cpu } => self.lack_of_consume(cpu),
            Deed::Deliver { cpu, delta } => self.lack_of_deliver(cpu, delta),
            Deed::Answer { cpu, asker } => {
                Lack::never_unless(self.is_cpu(cpu) && self.is_cpu(asker))
            }
            Deed::Pick { cpu } => self.lack_of_pick(cpu),
            Deed::Steal { cpu } => self.lack_of_steal(cpu),
            Deed::Ask(question) => self.lack_of_question(&question),
        }
    }

    fn lack_of_config(&self, queue: Cpu, target: Option<Cpu>) -> Lack {
        let is_target = match target {
            Some(cpu) => self.is_cpu(cpu),
            None => true,
        };
        Lack::never_unless(self.is_cpu(queue) && is_target)
    }

    fn lack_of_consume(&self, cpu: Cpu) -> Lack {
        let held = self.held(cpu);
        if held.all < held.sent {
            return Lack::needs(publish(cpu));
        }
        Lack::never_unless(self.is_cpu(cpu))
    }

    fn lack_of_deliver(&self, cpu: Cpu, delta: u64) -> Lack {
        if !self.is_cpu(cpu) {
            return Lack::Never;
        }
        match delta.checked_sub(self.deltas()) {
            None => Lack::Nothing,
            Some(missing) if missing >= MOST_TIMES => Lack::NoAgent,
            Some(missing) => Lack::Needs(Goal {
                deed: publish(cpu),
                times: missing.saturating_add(1),
            }),
        }
    }

    fn lack_of_question(&self, question: &Read) -> Lack {
        match *question {
            Read::Status { thread } => match self.standing(thread) {
                Some(_) => Lack::Nothing,
                None => self.lack_of_name(thread, true, Cpu(0)),
            },
            Read::Asleep { cpu } | Read::Show { cpu } | Read::Complete { cpu, .. } => {
                Lack::never_unless(self.is_cpu(cpu))
            }
            Read::Same { cpu, other } => {
                Lack::never_unless(self.is_cpu(cpu) && self.is_cpu(other))
            }
        }
    }

    /// How many posts a queue may still have.
    pub(crate) fn posts_left(&self, queue: Cpu) -> u64 {
        let limit = self.world.kernel().limits().posts;
        u64::from(limit.saturating_sub(self.posts(queue)))
    }

    /// What a queue lacks for so many posts.
    pub(crate) fn lack_of_posts(&self, queue: Cpu, posts: u64) -> Lack {
        if self.posts_left(queue) < posts {
            return Lack::Never;
        }
        let held = self.held(queue);
        let room = u64::from(self.world.kernel().limits().room);
        if held.all.saturating_add(posts) <= room {
            return Lack::Nothing;
        }
        Lack::needs(emptying(queue, held.sent > 0))
    }

    /// The first queue that may have so many posts at a time; the given one comes first.
    pub(crate) fn queue_for(&self, first: Cpu, posts: u64) -> Option<Cpu> {
        if self.is_cpu(first) && posts <= self.posts_left(first) {
            return Some(first);
        }
        for index in 0..self.world.kernel().cpus() {
            if posts <= self.posts_left(Cpu(index)) {
                return Some(Cpu(index));
            }
        }
        None
    }

    /// What removes the thread's last message from its home queue; none where it does not stand there.
    pub(crate) fn removal(&self, thread: Tid, home: Cpu) -> Option<Deed> {
        match self.last_message(thread) {
            Queued::Gone => None,
            Queued::Sent => Some(emptying(home, true)),
            Queued::Unsent => Some(emptying(home, false)),
        }
    }

    /// What there is to do where no thread has the name: creating threads up to it, by which the last one waits for the
    /// CPU, or is blocked.
    pub(crate) fn lack_of_name(&self, thread: Tid, ready: bool, cpu: Cpu) -> Lack {
        let limits = self.world.kernel().limits();
        let Some(missing) = thread.index().checked_sub(self.threads()) else {
            return Lack::Nothing;
        };
        if thread.index() >= limits.threads {
            return Lack::Never;
        }
        let times = u64::from(missing).saturating_add(1);
        if u64::from(limits.room) < times {
            return Lack::NoAgent;
        }
        match self.queue_for(cpu, times) {
            Some(queue) => Lack::Chooses(Goal {
                deed: created(queue, ready, cpu),
                times,
            }),
            None => Lack::NoAgent,
        }
    }
}

/// A new thread, which may run on this CPU alone.
pub(crate) fn created(queue: Cpu, ready: bool, cpu: Cpu) -> Deed {
    Deed::Env(EnvCall::Create {
        queue,
        ready,
        mask: bit_of(cpu),
    })
}

/// What makes a queue emptier: its agent removes what it has sent, or sends it first.
fn emptying(queue: Cpu, has_sent: bool) -> Deed {
    if has_sent {
        Deed::Consume { cpu: queue }
    } else {
        publish(queue)
    }
}
