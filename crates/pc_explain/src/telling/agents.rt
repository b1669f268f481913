//! The sentences on what agents do.

use crate::before::Before;
use crate::news::News;
use crate::sentences::Sentences;
use crate::words::Count;
use pc_calls::{AgentCall, Event};
use pc_delta::Delta;
use pc_messages::{Cpu, Tid};
use pc_world::World;
use std::fmt::{self, Write};

/// The delta with this index.
fn delta_at(world: Option<&World>, index: u64) -> Option<&Delta> {
    let place = usize::try_from(index).ok()?;
    world?.sent().get(place)
}

/// An agent took in what its queue holds, and sent it.
pub(super) fn published(
    text: &mut Sentences,
    cpu: Cpu,
    delta: u64,
    items: u32,
    world: Option<&World>,
) -> fmt::Result {
    let agent = cpu.index();
    let held = Count(u64::from(items), "item");
    writeln!(
        text,
        "Agent {agent} takes in what queue {agent} holds: {held}, which a consume may remove now."
    )?;
    tells(text, delta, world)
}

/// What a delta that was sent tells.
fn tells(text: &mut Sentences, delta: u64, world: Option<&World>) -> fmt::Result {
    let Some(sent) = delta_at(world, delta) else {
        return writeln!(text, "Delta {delta} is sent.");
    };
    let news = News::all(sent);
    if news.is_empty() {
        writeln!(text, "Delta {delta} is sent, and tells no message.")
    } else {
        writeln!(text, "Delta {delta} is sent, and tells {news}.")
    }
}

/// An agent answered another.
pub(super) fn sent_answer(
    text: &mut Sentences,
    cpu: Cpu,
    asker: Cpu,
    delta: u64,
    world: Option<&World>,
) -> fmt::Result {
    let agent = cpu.index();
    let other = asker.index();
    writeln!(
        text,
        "Agent {agent} answers agent {other} with all that it knows and agent {other} does not."
    )?;
    tells(text, delta, world)
}

/// An agent took in a delta.
pub(super) fn delivered(
    text: &mut Sentences,
    cpu: Cpu,
    delta: u64,
    before: &Before,
) -> fmt::Result {
    let agent = cpu.index();
    match before {
        Before::News(news) if !news.is_empty() => {
            writeln!(text, "Agent {agent} now knows {news}.")
        }
        Before::News(_) => writeln!(text, "Delta {delta} tells agent {agent} nothing new."),
        _ => writeln!(text, "Agent {agent} takes in delta {delta}."),
    }
}

/// An agent started again.
pub(super) fn crashed(text: &mut Sentences, cpu: Cpu, before: &Before) -> fmt::Result {
    let agent = cpu.index();
    match before {
        Before::Known(threads) => {
            let threads = Count(*threads, "thread");
            writeln!(
                text,
                "Agent {agent} starts again, awake: it forgets what it knew of {threads}, and its run list."
            )?;
        }
        _ => writeln!(text, "Agent {agent} starts again, awake, with nothing.")?,
    }
    writeln!(
        text,
        "Queue {agent}, and what the agent sent to others, stay."
    )
}

/// A thread's messages go to another queue.
pub(super) fn associated(
    text: &mut Sentences,
    event: &Event,
    thread: Tid,
    queue: Cpu,
    before: &Before,
) -> fmt::Result {
    let thread = thread.index();
    let queue = queue.index();
    match (event, before) {
        (Event::Steal { .. }, _) => writeln!(
            text,
            "Agent {queue} takes thread t{thread} over: its messages go to queue {queue} from now on."
        ),
        (_, Before::Home(Some(home))) => {
            let home = home.index();
            writeln!(
                text,
                "Messages of thread t{thread} go to queue {queue} from now on, and went to queue {home}."
            )
        }
        _ => writeln!(
            text,
            "Messages of thread t{thread} go to queue {queue} from now on."
        ),
    }
}

/// A thread runs.
pub(super) fn committed(text: &mut Sentences, event: &Event, thread: Tid, cpu: Cpu) -> fmt::Result {
    let thread = thread.index();
    let cpu = cpu.index();
    match event {
        Event::Pick { .. } => writeln!(
            text,
            "Thread t{thread} is the first of agent {cpu}'s run list that may run here: it runs on CPU {cpu} now."
        ),
        _ => writeln!(text, "Thread t{thread} runs on CPU {cpu} now."),
    }
}

/// An agent removed what it has sent.
pub(super) fn consumed(text: &mut Sentences, cpu: Cpu, items: u32) -> fmt::Result {
    let agent = cpu.index();
    if items == 0 {
        return writeln!(
            text,
            "Agent {agent} counts no item of queue {agent} as sent, so all stays there."
        );
    }
    let removed = Count(u64::from(items), "item");
    writeln!(
        text,
        "Agent {agent} removes from queue {agent} the {removed} that it has sent."
    )
}

/// An agent sleeps, is awake, or is chosen for a queue.
pub(super) fn marked(text: &mut Sentences, event: &Event) -> fmt::Result {
    match event {
        Event::Agent(AgentCall::Sleep { cpu, .. }) => {
            let agent = cpu.index();
            write!(text, "Agent {agent} sleeps until it is woken: ")?;
            writeln!(
                text,
                "by a post to a queue that wakes it, or by a rouse, a config or a crash."
            )
        }
        Event::Agent(AgentCall::Rouse { cpu }) => {
            let agent = cpu.index();
            writeln!(text, "Agent {agent} is awake.")
        }
        Event::Agent(AgentCall::Config { queue, target }) => configured(text, *queue, *target),
        Event::Env(_)
        | Event::Agent(AgentCall::Associate { .. } | AgentCall::Commit { .. })
        | Event::Publish { .. }
        | Event::Consume { .. }
        | Event::Deliver { .. }
        | Event::Answer { .. }
        | Event::Pick { .. }
        | Event::Steal { .. }
        | Event::Crash { .. } => writeln!(text, "It is done."),
    }
}

/// An agent is chosen for a queue, or none is.
fn configured(text: &mut Sentences, queue: Cpu, target: Option<Cpu>) -> fmt::Result {
    let queue = queue.index();
    match target {
        Some(cpu) => {
            let agent = cpu.index();
            writeln!(
                text,
                "Posts to queue {queue} wake agent {agent} from now on, which is awake."
            )
        }
        None => writeln!(text, "Posts to queue {queue} wake nobody from now on."),
    }
}
