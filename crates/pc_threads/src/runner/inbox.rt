//! What an agent is told by the other threads of a run.

use crate::runner::faults::Quit;
use crate::runner::mailbox::Mailbox;
use crate::runner::slot::Slot;
use crossbeam_channel::{Receiver, SendError, Sender};
use pc_delta::{Delta, Digest};
use pc_messages::Cpu;
use std::alloc::{AllocError, Global};
use std::sync::atomic::{AtomicBool, Ordering};
use std::sync::{Arc, Mutex, Wait};

/// What an agent is told. What several are told is shared by them.
#[derive(Drop)]
pub(crate) enum Note {
    /// Its queue was posted to while it slept.
    Wake,
    /// What others have learnt waits in the mailbox.
    News,
    /// What another agent answered to one that has started again since.
    Delta(Arc<Delta, Global>),
    /// What the agent of the CPU with this index answers waits in its slot.
    Answered(u8),
    /// What the agent of the CPU with this index knows, which asks for the rest, waits in its slot.
    Asked(u8),
    /// The same of an agent that has started again: what it told before stands in front of this, and so is answered.
    Digest(u8, Arc<Digest, Global>),
}

/// What one agent has for another that has not taken it yet.
#[derive(Drop)]
struct Waiting {
    /// What it last answered.
    answer: Slot<Arc<Delta, Global>>,
    /// What it knew when it last asked.
    digest: Slot<Arc<Digest, Global>>,
}

/// What an agent is told, in the order in which it takes it. Of what another agent asks or answers only the last waits:
/// a later digest has all that an earlier one had, and since an agent knows no less than before, a later answer tells
/// all that an earlier one told but for what the asker knew by then. So what waits stays below a bound, however often
/// agents ask. An agent that starts again knows less, so what it then asks waits behind all that it told, and what it
/// answered before is kept.
///
/// What others have learnt waits in a mailbox, and all of it is taken at once, ahead of each note. It wakes the owner
/// only where it may tell of a thread to take, or where much waits: a note for each would have each agent do a turn for
/// each message of the run. An agent that is still to restart does that: its turns have to come.
///
/// Where all threads are dead, or the run is given up, the inbox is closed: its owner takes what waits, and ends. That
/// is no note, for which there may be no memory: then its owner would wait on.
#[derive(Drop)]
pub(crate) struct Inbox {
    /// None: the inbox is closed.
    to: Mutex<Option<Sender<Note>>>,
    at: Receiver<Note>,
    /// What others have learnt.
    news: Mailbox<Arc<Delta, Global>>,
    /// Whether the owner is still to restart.
    restarts: AtomicBool,
    /// By the CPUs of those that ask and answer.
    waiting: Vec<Waiting>,
}

impl Inbox {
    /// The inbox of one of so many agents, which may be still to restart.
    pub(crate) fn new(alloc: Global, cpus: u8, restarts: bool) -> Result<Inbox, AllocError> {
        let (to, at) = crossbeam_channel::unbounded(alloc)?;
        let mut waiting = Vec::with_capacity(alloc, cpus as usize)?;
        for _ in 0..cpus {
            waiting.push(Waiting {
                answer: Slot::new(),
                digest: Slot::new(),
            })?;
        }
        Ok(Inbox {
            to: Mutex::new(Some(to)),
            at,
            news: Mailbox::new(alloc),
            restarts: AtomicBool::new(restarts),
            waiting,
        })
    }

    /// What the agent of this CPU has for the owner.
    fn from(&self, cpu: Cpu) -> Result<&Waiting, Quit> {
        self.waiting.get(cpu.index() as usize).ok_or(Quit::GaveUp)
    }

    /// Closes the inbox, which wants no memory: nothing comes in behind what waits.
    pub(crate) fn close<R: Wait>(&self, rt: &R) {
        drop(self.to.lock(rt).take());
    }

    /// Tells the owner, unless the inbox is closed.
    pub(crate) fn tell<R: Wait>(&self, rt: &R, note: Note) -> Result<(), Quit> {
        let to = self.to.lock(rt);
        let Some(to) = &*to else {
            return Ok(());
        };
        match to.send(rt, note) {
            Ok(()) => Ok(()),
            Err(SendError::OutOfMemory(_)) => Err(Quit::OutOfMemory),
            Err(SendError::Disconnected(_)) => Err(Quit::GaveUp),
        }
    }

    /// Leaves what another agent has learnt, and wakes the owner where that is urgent or much waits. One that is still
    /// to restart is woken for each.
    pub(crate) fn inform<R: Wait>(
        &self,
        rt: &R,
        delta: Arc<Delta, Global>,
        urgent: bool,
    ) -> Result<(), Quit> {
        let wakes = self.news.put(rt, delta, urgent)?;
        if wakes || self.restarts.load(Ordering::SeqCst) {
            return self.tell(rt, Note::News);
        }
        Ok(())
    }

    /// The owner restarts no more.
    pub(crate) fn restarts_no_more(&self) {
        self.restarts.store(false, Ordering::SeqCst);
    }

    /// Asks the owner for what the agent of this CPU lacks.
    pub(crate) fn ask<R: Wait>(
        &self,
        rt: &R,
        cpu: Cpu,
        digest: Arc<Digest, Global>,
    ) -> Result<(), Quit> {
        match self.from(cpu)?.digest.put(rt, digest) {
            Some(_) => Ok(()),
            None => self.tell(rt, Note::Asked(cpu.index())),
        }
    }

    /// Answers the owner what the agent of this CPU knows.
    pub(crate) fn answer<R: Wait>(
        &self,
        rt: &R,
        cpu: Cpu,
        delta: Arc<Delta, Global>,
    ) -> Result<(), Quit> {
        match self.from(cpu)?.answer.put(rt, delta) {
            Some(_) => Ok(()),
            None => self.tell(rt, Note::Answered(cpu.index())),
        }
    }

    /// Has what the agent of this CPU answered last wait in the channel, where no later answer takes its place.
    pub(crate) fn keep_answer<R: Wait>(&self, rt: &R, cpu: Cpu) -> Result<(), Quit> {
        match self.from(cpu)?.answer.take(rt) {
            Some(delta) => self.tell(rt, Note::Delta(delta)),
            None => Ok(()),
        }
    }

    /// Asks the owner for what the agent of this CPU lacks, which has started again.
    pub(crate) fn ask_anew<R: Wait>(
        &self,
        rt: &R,
        cpu: Cpu,
        digest: Arc<Digest, Global>,
    ) -> Result<(), Quit> {
        self.tell(rt, Note::Digest(cpu.index(), digest))
    }

    /// What others have learnt and the owner has not taken yet. It is taken ahead of each thing that the owner is told,
    /// so that one who has started again is answered all that it told before.
    pub(crate) fn take_news<R: Wait>(&self, rt: &R) -> Vec<Arc<Delta, Global>> {
        self.news.take(rt)
    }

    /// Waits for the next thing that the owner is told.
    pub(crate) fn take<R: Wait>(&self, rt: &R) -> Result<Received, Quit> {
        let Ok(note) = self.at.recv(rt) else {
            return Ok(Received::End);
        };
        Ok(match note {
            Note::Wake | Note::News => Received::Nothing,
            Note::Delta(delta) => Received::Delta(delta),
            Note::Answered(cpu) => match self.from(Cpu(cpu))?.answer.take(rt) {
                Some(delta) => Received::Delta(delta),
                None => Received::Nothing,
            },
            Note::Asked(cpu) => match self.from(Cpu(cpu))?.digest.take(rt) {
                Some(digest) => Received::Digest(Cpu(cpu), digest),
                None => Received::Nothing,
            },
            Note::Digest(cpu, digest) => Received::Digest(Cpu(cpu), digest),
        })
    }
}

/// What an agent takes from its inbox.
#[derive(Drop)]
pub(crate) enum Received {
    /// Nothing but that something happened.
    Nothing,
    /// What another agent answers.
    Delta(Arc<Delta, Global>),
    /// What the CPU's agent knows, which asks for the rest.
    Digest(Cpu, Arc<Digest, Global>),
    /// That the run ends.
    End,
}
