//! The events of worked scripts, disturbed: a crash after any of them, a send that is refused. Once each CPU was mended
//! none idles while a thread waits for it.

use pc_calls::Limits;
use pc_kernel::Kernel;
use pc_messages::{Cpu, Phase, Tid};
use pc_script::{Command, Version, Wish, asked};
use pc_world::{Event, World};
use std::alloc::Global;
use std::process::Abort;

/// Takes what a line asks for. Its reads change nothing. Whether it is a command.
fn add_line(line: &[u8], limits: &mut Option<Limits>, events: &mut Vec<Event>) -> bool {
    match asked(Version::One, line) {
        Wish::Answer(Command::Enclave(all)) => *limits = Some(all),
        Wish::Answer(Command::Event(event)) => return events.push(event).is_ok(),
        Wish::Answer(Command::Read(_)) | Wish::Nothing => {}
        Wish::Answer(Command::Policy(_) | Command::Mend { .. }) | Wish::Stop => return false,
    }
    true
}

/// Takes the limits and the events that a script asks for, whose lines are parted by semicolons. Whether each is
/// a command.
fn add_lines(script: &[u8], limits: &mut Option<Limits>, events: &mut Vec<Event>) -> bool {
    for line in script.split(|byte| *byte == b';') {
        if !add_line(line, limits, events) {
            return false;
        }
    }
    true
}

fn add_all(all: &mut Vec<Event>, events: &[Event]) -> bool {
    for event in events {
        if all.push(*event).is_err() {
            return false;
        }
    }
    true
}

/// Lists the events with others in the place of one.
fn add_with(all: &mut Vec<Event>, events: &[Event], place: usize, others: &[Event]) -> bool {
    for (at, event) in events.iter().enumerate() {
        let is_added = if at == place {
            add_all(all, others)
        } else {
            all.push(*event).is_ok()
        };
        if !is_added {
            return false;
        }
    }
    true
}

/// Whether the world replies to each of the events.
fn replies_to(world: &mut World, events: &[Event]) -> bool {
    match world.run(events) {
        Ok(replies) => replies.len() == events.len(),
        Err(_) => false,
    }
}

/// Whether each CPU was mended, or was refused.
fn mends(world: &mut World) -> bool {
    for cpu in 0..world.kernel().cpus() {
        if world.mend(Cpu(cpu)).is_err() {
            return false;
        }
    }
    true
}

/// Whether the thread is ready, may run on the CPU, and runs nowhere.
fn waits_for(kernel: &Kernel, cpu: Cpu, thread: Tid) -> bool {
    match (kernel.reported(thread), kernel.status(thread)) {
        (Some(reported), Some(status)) => reported.phase == Phase::Ready
            && reported.mask.allows(cpu)
            && status.running_on.is_none(),
        _ => false,
    }
}

/// Whether the CPU idles while a thread waits for it.
fn idles(kernel: &Kernel, cpu: Cpu) -> bool {
    if kernel.running(cpu).is_some() {
        return false;
    }
    for thread in 0..kernel.threads() {
        if waits_for(kernel, cpu, Tid(thread)) {
            return true;
        }
    }
    false
}

/// Whether no CPU idles while a thread waits for it.
fn none_idles(kernel: &Kernel) -> bool {
    for cpu in 0..kernel.cpus() {
        if idles(kernel, Cpu(cpu)) {
            return false;
        }
    }
    true
}

/// Whether a new world is mended behind these events.
fn is_mended(alloc: Global, limits: Limits, events: &[Event]) -> bool {
    match World::new(alloc, limits) {
        Ok(mut world) => {
            replies_to(&mut world, events) && mends(&mut world) && none_idles(world.kernel())
        }
        Err(_) => false,
    }
}

/// What is disturbed.
#[derive(Drop)]
struct Script {
    alloc: Global,
    limits: Limits,
    events: Vec<Event>,
}

impl Script {
    /// Whether a new world is mended behind the events, with others in the place of one.
    fn is_mended_with(&self, place: usize, others: &[Event]) -> bool {
        let mut all = Vec::new(self.alloc);
        add_with(&mut all, self.events.as_slice(), place, others)
            && is_mended(self.alloc, self.limits, all.as_slice())
    }

    /// How many runs disturb this event: one for each CPU, whose agent crashes after it, and one for a send, which is
    /// refused. Nothing where one of them is not mended.
    fn runs_at(&self, place: usize, event: &Event) -> Option<usize> {
        let mut runs = 0_usize;
        for cpu in 0..self.limits.cpus {
            if !self.is_mended_with(place, &[*event, Event::Crash { cpu: Cpu(cpu) }]) {
                return None;
            }
            runs = runs.saturating_add(1);
        }
        match *event {
            Event::Publish { cpu, .. } => {
                if !self.is_mended_with(place, &[Event::Publish { cpu, fails: true }]) {
                    return None;
                }
                Some(runs.saturating_add(1))
            }
            _ => Some(runs),
        }
    }

    /// How many runs disturb the events, each of which is mended.
    fn runs(&self) -> Option<usize> {
        let mut runs = 0_usize;
        for (place, event) in self.events.iter().enumerate() {
            runs = runs.saturating_add(self.runs_at(place, event)?);
        }
        Some(runs)
    }
}

/// What the script asks for.
fn read(alloc: Global, script: &[u8]) -> Option<Script> {
    let mut limits = None;
    let mut events = Vec::new(alloc);
    if !add_lines(script, &mut limits, &mut events) {
        return None;
    }
    match limits {
        Some(limits) => Some(Script {
            alloc,
            limits,
            events,
        }),
        None => None,
    }
}

/// How many runs disturb a script, each of which is mended.
fn runs_of(alloc: Global, script: &[u8]) -> Option<usize> {
    match read(alloc, script) {
        Some(script) => script.runs(),
        None => None,
    }
}

/// The place of the first script that is not disturbed by so many runs, each of which is mended.
fn first_wrong(alloc: Global, scripts: &[(&[u8], usize)]) -> Option<usize> {
    for (place, (script, runs)) in scripts.iter().enumerate() {
        if runs_of(alloc, script) != Some(*runs) {
            return Some(place);
        }
    }
    None
}

/// So many runs of each script, and each of them is mended.
fn each_is_mended(rt: &impl Abort, alloc: Global, scripts: &[(&[u8], usize)]) {
    assert_eq!(rt; first_wrong(alloc, scripts), None);
}

#[test]
fn what_was_sent_is_looked_at_and_delivered(rt: HostRuntime) {
    const SCRIPTS: [(&[u8], usize); 5] = [
        (
            b"enclave 2 8 100 16 1000; create 0 3 ready; publish 0; show 0",
            5,
        ),
        (
            b"enclave 2 8 100 16 1000; create 0 3 blocked; publish 0; consume 0; wake t0; publish 0; \
              deliver 1 1; show 1; deliver 1 0; deliver 1 1; same 0 1; show 1",
            18,
        ),
        (
            b"enclave 2 8 100 16 1000; create 0 3 blocked; wake t0; publish 0; answer 0 1; deliver 1 1; \
              same 0 1; complete 1 t0; crash 0; answer 1 0; deliver 0 2; same 0 1",
            17,
        ),
        (
            b"enclave 2 8 100 16 1000; create 0 3 ready; publish 0 fail; consume 0; show 0; deliver 1 0; \
              publish 0",
            12,
        ),
        (b"enclave 2 8 100 16 1000; deliver 0 0; consume 0", 4),
    ];
    each_is_mended(&rt, rt.alloc(), &SCRIPTS);
}

#[test]
fn a_thread_that_is_moved(rt: HostRuntime) {
    const SCRIPTS: [(&[u8], usize); 3] = [
        (
            b"enclave 2 8 100 16 1000; create 0 3 ready; associate t0 1 2",
            4,
        ),
        (
            b"enclave 2 8 100 16 1000; create 0 3 ready; publish 0; show 0; deliver 1 0; associate t0 1 1; \
              consume 0; associate t0 1 1; commit 0 t0 1; commit 1 t0 0",
            17,
        ),
        (
            b"enclave 2 8 100 16 1000; create 0 3 ready; tick 0; commit 0 t0 1; commit 0 t0 2",
            8,
        ),
    ];
    each_is_mended(&rt, rt.alloc(), &SCRIPTS);
}

#[test]
fn what_a_crash_left_is_taken_up_again(rt: HostRuntime) {
    const SCRIPTS: [(&[u8], usize); 2] = [
        (
            b"enclave 2 8 100 16 1000; create 0 3 ready; publish 0; show 0; crash 0; show 0; consume 0; \
              publish 0; consume 0",
            14,
        ),
        (
            b"enclave 2 8 100 16 1000; create 0 3 ready; publish 0; show 0; consume 0; crash 0; deliver 0 0; \
              show 0; pick 0 1; steal 0; steal 0; pick 0 1",
            19,
        ),
    ];
    each_is_mended(&rt, rt.alloc(), &SCRIPTS);
}

#[test]
fn a_thread_that_runs_and_one_that_is_stolen(rt: HostRuntime) {
    const SCRIPTS: [(&[u8], usize); 3] = [
        (
            b"enclave 2 8 100 16 1000; create 0 3 ready; publish 0; consume 0; pick 0 1; yield 0 2; \
              publish 0; pick 0 1; pick 0 2; block 0 3; status t0; publish 0; pick 0 3; show 0",
            25,
        ),
        (
            b"enclave 2 8 100 16 1000; create 0 3 ready; commit 0 t0 1; affinity t0 2; preempt 0 4; \
              affinity t0 2; commit 0 t0 3; publish 0; show 0",
            15,
        ),
        (
            b"enclave 2 8 100 16 1000; create 0 3 ready; create 0 3 ready; publish 0; steal 1; deliver 1 0; \
              steal 1; consume 0; steal 1; pick 0 2; pick 1 0; steal 1",
            23,
        ),
    ];
    each_is_mended(&rt, rt.alloc(), &SCRIPTS);
}

#[test]
fn limits_that_are_reached_and_agents_that_sleep(rt: HostRuntime) {
    const SCRIPTS: [(&[u8], usize); 5] = [
        (
            b"enclave 1 1 2 4 10; create 0 1 blocked; wake t0; affinity t0 1; create 0 1 ready",
            4,
        ),
        (
            b"enclave 1 2 9 1 10; create 0 1 blocked; wake t0; status t0",
            2,
        ),
        (
            b"enclave 2 8 100 16 1000; create 0 3 blocked; sleep 0 0; sleep 0 1; wake t0",
            8,
        ),
        (
            b"enclave 2 8 100 16 1000; create 0 3 ready; commit 0 t0 1; die 0 5; wake t0; status t0",
            8,
        ),
        (
            b"enclave 2 8 100 16 1000; sleep 1 0; config 0 1; asleep 1; sleep 1 0; create 0 3 ready; \
              config 0 -; sleep 1 0; tick 0; asleep 1; crash 1; asleep 1",
            16,
        ),
    ];
    each_is_mended(&rt, rt.alloc(), &SCRIPTS);
}
