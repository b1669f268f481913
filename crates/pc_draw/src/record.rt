//! Recording a script: the observer that keeps what is drawn of each command, and what the world says after it.

ghost use Rattle.std.specs.Prelude.{◌≡◌, ◌+◌, [], None, vec_len, if◌then◌else◌, OnOk, IfOk, Err, refl};
ghost use Rattle.std.specs.Io.KnownBytes.{Keeps};
ghost use Rattle.pc_draw.specs.Inner.Recorded.{Records, kept};
ghost use Rattle.pc_draw.specs.Inner.Told.{told_kept, told_more, told_nothing};
ghost use Rattle.pc_draw.specs.Pictures.{policy_by, refuses};
ghost use Rattle.pc_script.specs.declared.outcome.Outcome.{Outcome};
ghost use Rattle.pc_script.specs.declared.outcome.ScriptFault.{ScriptFault};

use crate::lanes::{Change, Lane, MOST_LANES, QUIET, lane_of};
use crate::step::{Sent, Story, Traces, is_refused, other_cpus};
use pc_calls::{Event, Reply};
use pc_messages::{Cpu, Tid};
use pc_script::{Command, Line, Observer, Outcome, Response, ScriptFault, Version};
use pc_session::{Session, let_view_go};
use pc_world::World;
use std::alloc::{AllocError, Global};
use std::io::Write;

/// What the world said last of a thread.
#[derive(Clone, Copy)]
struct Thread {
    home: Cpu,
    /// Whether it is ready and runs nowhere.
    waits: bool,
}

/// What was recorded last of the world. An event changes only the CPUs and the thread that it and its reply name, and
/// the home that the thread had before: the world is asked of these alone. Of a CPU that is mended, each CPU is asked.
#[derive(Drop)]
struct Last {
    threads: Vec<Thread>,
    lanes: [Lane; MOST_LANES],
    /// How many threads wait at home at each CPU.
    waits: [u32; MOST_LANES],
}

/// Keeps the commands of a script, what they were answered, and what goes on after each.
#[derive(Drop)]
pub(crate) struct Recorder {
    pub(crate) story: Story,
    pub(crate) traces: Traces,
    last: Last,
    /// The home that the thread of the command under way had before it.
    home: Option<Cpu>,
}

/// The thread whose message was posted, or that was moved or committed.
fn thread_of(reply: &Reply) -> Option<Tid> {
    match reply {
        Reply::Posted(posted) => posted.thread,
        Reply::Associated { thread, .. } | Reply::Committed { thread, .. } => Some(*thread),
        _ => None,
    }
}

/// Keeps that the agent of each CPU sent a delta at the step.
fn send_all(sent: &mut Vec<Sent>, cpus: u8, step: u32) -> Result<(), AllocError> {
    for cpu in 0..cpus {
        sent.push(Sent {
            cpu: Cpu(cpu),
            step,
        })?;
    }
    Ok(())
}

impl Last {
    fn new(alloc: Global) -> Last {
        Last {
            threads: Vec::new(alloc),
            lanes: [QUIET; MOST_LANES],
            waits: [0; MOST_LANES],
        }
    }

    /// The home of a thread when the world was last asked.
    fn home(&self, thread: Tid) -> Option<Cpu> {
        match self.threads.get(thread.index() as usize) {
            Some(thread) => Some(thread.home),
            None => None,
        }
    }

    /// Counts a thread among those that wait at its home, or no longer.
    fn count(&mut self, thread: &Thread, is_there: bool) {
        if !thread.waits {
            return;
        }
        if let Some(waits) = self.waits.get_mut(thread.home.index() as usize) {
            *waits = if is_there {
                waits.saturating_add(1)
            } else {
                waits.saturating_sub(1)
            };
        }
    }

    /// Asks the world of a thread.
    fn ask_thread(&mut self, thread: Tid, world: &World) -> Result<(), AllocError> {
        let Some(home) = world.kernel().queue_of(thread) else {
            return Ok(());
        };
        let now = Thread {
            home,
            waits: world.kernel().is_waiting(thread),
        };
        let place = thread.index() as usize;
        if let Some(known) = self.threads.get(place).copied() {
            self.count(&known, false);
        }
        match self.threads.get_mut(place) {
            Some(known) => *known = now,
            None => self.threads.push(now)?,
        }
        self.count(&now, true);
        Ok(())
    }

    /// Asks the world of a CPU, and keeps what goes on there where that is something else.
    fn ask_cpu(
        &mut self,
        cpu: Cpu,
        world: &World,
        changes: &mut Vec<Change>,
    ) -> Result<(), AllocError> {
        let place = cpu.index() as usize;
        let Some(waits) = self.waits.get(place) else {
            return Ok(());
        };
        let lane = lane_of(world, cpu, *waits);
        if let Some(known) = self.lanes.get_mut(place) {
            if *known != lane {
                *known = lane;
                changes.push(Change {
                    cpu: cpu.index(),
                    lane,
                })?;
            }
        }
        Ok(())
    }

    /// Asks the world of all that an event and its reply name, and of the home that the thread had before.
    fn ask(
        &mut self,
        event: &Event,
        reply: &Reply,
        before: Option<Cpu>,
        world: &World,
        changes: &mut Vec<Change>,
    ) -> Result<(), AllocError> {
        if let Some(thread) = thread_of(reply) {
            self.ask_thread(thread, world)?;
        }
        if let Some(cpu) = event.effect().cpu {
            self.ask_cpu(cpu, world, changes)?;
        }
        if let Some(cpu) = before {
            self.ask_cpu(cpu, world, changes)?;
        }
        for cpu in &other_cpus(event, reply) {
            if let Some(cpu) = cpu {
                self.ask_cpu(*cpu, world, changes)?;
            }
        }
        Ok(())
    }
}

impl Last {
    /// Asks the world of each CPU, and of the thread that came to run.
    fn ask_all(
        &mut self,
        reply: &Reply,
        world: &World,
        changes: &mut Vec<Change>,
    ) -> Result<(), AllocError> {
        if let Some(thread) = thread_of(reply) {
            self.ask_thread(thread, world)?;
        }
        for cpu in 0..world.kernel().cpus() {
            self.ask_cpu(Cpu(cpu), world, changes)?;
        }
        Ok(())
    }
}

impl Recorder {
    /// Before the first line.
    pub(crate) fn new(alloc: Global) -> Recorder
        ensures { (vec_len result.story.steps ≡ 0) × (result.story.refused ≡ 0) × (result.story.policy ≡ None)
            × (result.story.outcome ≡ Outcome.Finished) }
    {
        Recorder {
            story: Story::new(alloc),
            traces: Traces::new(alloc),
            last: Last::new(alloc),
            home: None,
        }
    }

    /// Keeps who sent the next delta.
    fn send(&mut self, event: &Event) -> Result<(), AllocError>
        ensures { self.new.story ≡ self.old.story }
    {
        let Some(cpu) = event.effect().cpu else {
            return Ok(());
        };
        let step = u32::try_from(self.story.steps.len()).unwrap_or(u32::MAX);
        self.traces.sent.push(Sent { cpu, step })?;
        Ok(())
    }

    /// Keeps what an event did that was accepted.
    fn follow(&mut self, event: &Event, reply: &Reply, world: &World) -> Result<(), AllocError>
        ensures { self.new.story ≡ self.old.story }
    {
        if let Some(thread) = thread_of(reply) {
            self.home = self.last.home(thread);
        }
        self.last
            .ask(event, reply, self.home, world, &mut self.traces.changes)?;
        if let Reply::Published { .. } | Reply::Answered { .. } = reply {
            self.send(event)?;
        }
        Ok(())
    }

    /// Keeps what mending did, also where nothing was ready: it clears each queue, from CPU 0 on.
    fn mended(&mut self, reply: &Reply, world: &World) -> Result<(), AllocError>
        ensures { self.new.story ≡ self.old.story }
    {
        if let Some(thread) = thread_of(reply) {
            self.home = self.last.home(thread);
        }
        self.last.ask_all(reply, world, &mut self.traces.changes)?;
        if world.sent().len() > self.traces.sent.len() {
            let step = u32::try_from(self.story.steps.len()).unwrap_or(u32::MAX);
            send_all(&mut self.traces.sent, world.kernel().cpus(), step)?;
        }
        Ok(())
    }

    /// Keeps a command and its response.
    fn keep(
        &mut self,
        number: u32,
        command: &Command,
        response: &Response,
        session: &Session,
    ) -> Result<(), AllocError>
        ensures ok { OnOk result ((vec_len self.new.story.steps ≡ vec_len self.old.story.steps + 1)
            × (self.new.story.refused ≡ self.old.story.refused + (if refuses response.now then 1 else 0))
            × (self.new.story.policy ≡ policy_by self.old.story.policy response.now)
            × (self.new.story.outcome ≡ self.old.story.outcome)) }
    {
        if let (Command::Event(event), Response::Event(reply), Some(world)) = (
            command,
            response,
            session.world(),
        )
            && !is_refused(response)
        {
            self.follow(event, reply, world)?;
        }
        if let (Command::Mend { .. }, Response::Event(reply), Some(world)) = (
            command,
            response,
            session.world(),
        ) {
            self.mended(reply, world)?;
        }
        self.story.add(
            number,
            command,
            response,
            self.home,
            self.traces.changes.len(),
        )
    }
}

/// The home of the thread that a command names, where it names no CPU.
fn home_before(command: &Command, session: &Session) -> Option<Cpu> {
    let Command::Event(event) = command else {
        return None;
    };
    let effect = event.effect();
    match (effect.cpu, effect.thread) {
        (None, Some(thread)) => session.world()?.kernel().queue_of(thread),
        (Some(_), _) | (None, None) => None,
    }
}

impl<W: Write> Observer<Session, W> for Recorder {
    ghost Tells = { λ old before notices new after. (Keeps before after)
        × Records notices (kept (vec_len old.story.steps) old.story.refused old.story.policy old.story.outcome)
        (kept (vec_len new.story.steps) new.story.refused new.story.policy new.story.outcome) };

    ghost MayFail = { λ fault. fault ≡ ScriptFault.OutOfMemory };

    ghost HoldsNothing = { λ _. Unit };

    fn version_named(
        &mut self,
        line: Line<'_>,
        version: Version,
        writer: &mut W,
    ) -> Result<(), ScriptFault> {
        Ok(())
    }

    fn expect(&mut self, command: &Command, machine: &Session) {
        self.home = home_before(command, machine);
    }

    fn answered(
        &mut self,
        line: Line<'_>,
        command: &Command,
        response: &mut Response,
        machine: &Session,
        writer: &mut W,
    ) -> Result<(), ScriptFault> {
        // A script that is drawn has fewer lines.
        let number = u32::try_from(line.number).unwrap_or(u32::MAX);
        let kept = self.keep(number, command, response, machine);
        let_view_go(response);
        match kept {
            Ok(()) => Ok(()),
            Err(_) => Err(ScriptFault::OutOfMemory),
        }
    }

    fn faulted(&mut self, line: Line<'_>, writer: &mut W) -> Result<(), ScriptFault> {
        self.story.outcome = Outcome::FaultLine(line.number);
        Ok(())
    }

    fn passed_over(&mut self, number: u64, writer: &mut W) -> Result<(), ScriptFault> {
        self.story.outcome = Outcome::FaultLine(number);
        Ok(())
    }

    fn settle(&mut self, writer: &mut W) -> Result<(), ScriptFault> {
        Ok(())
    }

    ghost tells_nothing = { λ observer known. told_nothing known
        (kept (vec_len observer.story.steps) observer.story.refused observer.story.policy observer.story.outcome) };

    ghost tells_more = { λ old now new before here after notices further. told_more before here after notices further };

    ghost tells_kept = { λ old new before here after notices. told_kept before here after notices };
}
