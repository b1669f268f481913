//! What the threads of a run tell each other.

use crate::runner::faults::Quit;
use crate::runner::inbox::{Inbox, Note};
use crate::runner::restarts::restarts_later;
use crate::settings::Config;
use crossbeam_channel::{Receiver, Sender, TrySendError};
use pc_delta::{Delta, Digest, take_in};
use pc_join::OutOfMemory;
use pc_messages::Cpu;
use pc_view::View;
use std::alloc::{AllocError, Global};
use std::sync::atomic::{AtomicBool, Ordering};
use std::sync::{Arc, Wait};

/// What the driver is told.
#[derive(Clone, Copy, Debug, PartialEq, Eq)]
pub(crate) enum Notice {
    /// A thread was committed on the CPU with this index.
    Committed(u8),
    /// The agent of the CPU with this index has ended before it was told to.
    Quitted(u8, Quit),
}

/// Whether a thread that the delta tells of may be one for the CPU to take: the view reports it ready and allowed
/// there, or does not know.
fn offers(delta: &Delta, view: &View, cpu: Cpu) -> bool {
    delta.parts().iter().any(|part| match view.thread(part.thread()) {
        Some(known) => match known.reported() {
            Some(state) => state.may_run_on(cpu),
            None => true,
        },
        None => true,
    })
}

/// The channels of a run. All their ends are kept until every thread has ended.
#[derive(Drop)]
pub(crate) struct Channels {
    /// By CPUs.
    inboxes: Vec<Inbox>,
    to_driver: Sender<Notice>,
    pub(crate) at_driver: Receiver<Notice>,
    /// Whether the agents are to end whatever waits for them.
    given_up: AtomicBool,
}

impl Channels {
    /// The channels of the agents of a run.
    pub(crate) fn new(alloc: Global, config: &Config) -> Result<Channels, AllocError> {
        let cpus = config.cpus();
        let mut inboxes = Vec::with_capacity(alloc, cpus as usize)?;
        for cpu in 0..cpus {
            let restarts = restarts_later(config, Cpu(cpu), 0);
            inboxes.push(Inbox::new(alloc, cpus, restarts)?)?;
        }
        // Of each agent one commit at most waits, since its thread has not left the CPU yet, and that it has ended.
        let (to_driver, at_driver) = crossbeam_channel::bounded(alloc, 2 * cpus as usize)?;
        Ok(Channels {
            inboxes,
            to_driver,
            at_driver,
            given_up: AtomicBool::new(false),
        })
    }

    /// The inbox of the CPU's agent.
    pub(crate) fn of(&self, cpu: Cpu) -> Result<&Inbox, Quit> {
        self.inboxes.get(cpu.index() as usize).ok_or(Quit::GaveUp)
    }

    /// Tells the CPU's agent that its queue was posted to.
    pub(crate) fn wake<R: Wait>(&self, rt: &R, cpu: Cpu) -> Result<(), Quit> {
        self.of(cpu)?.tell(rt, Note::Wake)
    }

    /// Leaves every agent but the CPU's what that one has learnt, by which its view is this, and wakes those that may
    /// have a thread to take.
    pub(crate) fn tell_peers<R: Wait>(
        &self,
        rt: &R,
        cpu: Cpu,
        delta: &Arc<Delta, Global>,
        view: &View,
    ) -> Result<(), Quit> {
        for place in 0..self.inboxes.len() {
            if place != cpu.index() as usize {
                let urgent = match u8::try_from(place) {
                    Ok(index) => offers(delta, view, Cpu(index)),
                    Err(_) => true,
                };
                self.inboxes[place].inform(rt, Arc::try_clone(delta)?, urgent)?;
            }
        }
        Ok(())
    }

    /// Asks every agent but the CPU's for what that one lacks.
    pub(crate) fn ask_peers<R: Wait>(
        &self,
        rt: &R,
        cpu: Cpu,
        digest: &Arc<Digest, Global>,
    ) -> Result<(), Quit> {
        for place in 0..self.inboxes.len() {
            if place != cpu.index() as usize {
                self.inboxes[place].ask(rt, cpu, Arc::try_clone(digest)?)?;
            }
        }
        Ok(())
    }

    /// Asks every agent but the CPU's for what that one lacks, which has started again.
    pub(crate) fn ask_peers_anew<R: Wait>(
        &self,
        rt: &R,
        cpu: Cpu,
        digest: &Arc<Digest, Global>,
    ) -> Result<(), Quit> {
        for place in 0..self.inboxes.len() {
            if place != cpu.index() as usize {
                self.inboxes[place].ask_anew(rt, cpu, Arc::try_clone(digest)?)?;
            }
        }
        Ok(())
    }

    /// Has all that the CPU's agent answered and that waits stay, before that agent forgets what it knows.
    pub(crate) fn keep_answers<R: Wait>(&self, rt: &R, cpu: Cpu) -> Result<(), Quit> {
        for place in 0..self.inboxes.len() {
            self.inboxes[place].keep_answer(rt, cpu)?;
        }
        Ok(())
    }

    /// Tells the driver, which wants no memory: there is room for each notice.
    pub(crate) fn report<R: Wait>(&self, rt: &R, notice: Notice) -> Result<(), Quit> {
        match self.to_driver.try_send(rt, notice) {
            Ok(()) => Ok(()),
            Err(TrySendError::OutOfMemory(_)) => Err(Quit::OutOfMemory),
            Err(TrySendError::Full(_) | TrySendError::Disconnected(_)) => Err(Quit::GaveUp),
        }
    }

    /// All agents are to end, each before its next turn, whatever waits for them.
    pub(crate) fn give_up(&self) {
        self.given_up.store(true, Ordering::SeqCst);
    }

    /// Whether the run is given up.
    pub(crate) fn is_given_up(&self) -> bool {
        self.given_up.load(Ordering::SeqCst)
    }

    /// Takes into the views of the agents, by CPUs, what each was told and had not taken when it ended. All have ended.
    pub(crate) fn take_last_news<R: Wait>(
        &self,
        rt: &R,
        views: &mut [View],
    ) -> Result<(), OutOfMemory> {
        for (inbox, view) in self.inboxes.iter().zip(views.iter_mut()) {
            for delta in inbox.take_news(rt) {
                take_in(view, &delta)?;
            }
        }
        Ok(())
    }

    /// Has all agents end, each behind what waits for it.
    pub(crate) fn stop_all<R: Wait>(&self, rt: &R) {
        for inbox in self.inboxes.iter() {
            inbox.close(rt);
        }
    }
}
