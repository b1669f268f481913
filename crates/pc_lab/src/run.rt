//! A run, as far as it has come.

ghost use Rattle.std.specs.Prelude.{◌<◌};
ghost use Rattle.pc_lab.specs.Creations.{CreatesNone};
ghost use Rattle.pc_lab.specs.Moments.{IsPlayable};

use crate::due::Agenda;
use crate::fault::LabFault;
use crate::lane::{Lane, Life, News, SentDelta};
use crate::stage::{Setting, Stage};
use crate::times::word_of;
use pc_calls::{Event, Posted, Refusal, Reply};
use pc_kernel::Kernel;
use pc_load::Variant;
use pc_messages::{Cpu, Tid};
use pc_policy::OrderName;
use std::alloc::{AllocError, AllocFailed, Global};

/// Why a run goes no further.
pub(crate) enum Stop {
    Fault(LabFault),
    /// A thread has as many messages as it may have.
    NumbersSpent,
}

impl From<LabFault> for Stop {
    fn from(fault: LabFault) -> Stop {
        Stop::Fault(fault)
    }
}

impl From<AllocError> for Stop {
    fn from(_error: AllocError) -> Stop {
        Stop::Fault(LabFault::OutOfMemory)
    }
}

impl<T: Drop> From<AllocFailed<T>> for Stop {
    fn from(_error: AllocFailed<T>) -> Stop {
        Stop::Fault(LabFault::OutOfMemory)
    }
}

/// The numbers of a variant.
#[derive(Clone, Copy)]
pub(crate) struct Numbers {
    pub order: OrderName,
    pub exact: bool,
    pub quantum: u32,
    pub group: u8,
    pub delay: u32,
    pub cost: u32,
    pub urgent: bool,
    pub keep: bool,
    /// Whether agents steal.
    pub steals: bool,
}

impl Numbers {
    /// Those of a variant, on so many CPUs.
    pub(crate) fn of(variant: &Variant, cpus: u8) -> Numbers {
        Numbers {
            order: variant.policy.order,
            exact: variant.policy.exact,
            quantum: variant.quantum,
            group: variant.group.max(1),
            delay: variant.delay,
            cost: variant.cost,
            urgent: variant.urgent,
            keep: variant.keep,
            steals: variant.group > 1 && cpus > 1,
        }
    }

    /// The group of a CPU.
    pub(crate) fn group_of(&self, cpu: Cpu) -> usize {
        match cpu.index().checked_div(self.group) {
            Some(group) => group as usize,
            None => 0,
        }
    }
}

/// A load that is played.
#[derive(Drop)]
pub(crate) struct Run<K: Setting> {
    pub stage: Stage<K>,
    pub numbers: Numbers,
    pub lanes: [Lane; 64],
    pub lives: Vec<Life>,
    pub agenda: Agenda,
    /// So many threads have died.
    pub dead: usize,
    /// What was sent, where agents steal.
    pub deltas: Vec<SentDelta>,
    /// So many deltas were due.
    pub told: usize,
    /// So many deltas can be taken in.
    pub ripe: usize,
    /// Of each group its deltas.
    pub groups: Vec<Vec<News>>,
    /// Of each group the CPUs.
    pub kin: [u64; 64],
    /// By thread, the CPUs whose agents were refused a steal of it as late.
    pub refused_at: Vec<u64>,
    /// Deltas whose reports wait until their senders sleep.
    pub held_back: Vec<(Cpu, usize)>,
    /// The idle CPUs whose agents sleep, and have no turn due.
    pub sleepers: u64,
    pub switches: u64,
    pub preempts: u64,
}

/// Where a CPU stands among the lanes.
pub(crate) fn place_of(cpu: Cpu) -> usize
    ensures { result < 64 }
{
    (cpu.index() % 64) as usize
}

impl<K: Setting> Run<K> {
    /// A run before its first event.
    pub(crate) fn new(
        alloc: Global,
        stage: Stage<K>,
        numbers: Numbers,
    ) -> Result<Run<K>, LabFault> {
        let mut groups = Vec::new(alloc);
        let mut kin = [0; 64];
        for cpu in 0..64u8 {
            groups.push(Vec::new(alloc))?;
            kin[numbers.group_of(Cpu(cpu)) % 64] |= word_of(Cpu(cpu));
        }
        Ok(Run {
            stage,
            numbers,
            lanes: [Lane::NEW; 64],
            lives: Vec::new(alloc),
            agenda: Agenda::new(alloc),
            dead: 0,
            deltas: Vec::new(alloc),
            told: 0,
            ripe: 0,
            groups,
            kin,
            refused_at: Vec::new(alloc),
            held_back: Vec::new(alloc),
            sleepers: 0,
            switches: 0,
            preempts: 0,
        })
    }

    /// The kernel.
    pub(crate) fn kernel(&self) -> &Kernel {
        self.stage.world().kernel()
    }

    /// The thread that runs on a CPU.
    pub(crate) fn running(&self, cpu: Cpu) -> Option<Tid> {
        self.kernel().running(cpu)
    }

    /// How far a CPU is.
    pub(crate) fn lane(&self, cpu: Cpu) -> &Lane {
        &self.lanes[place_of(cpu)]
    }

    /// The same, to be changed.
    pub(crate) fn lane_mut(&mut self, cpu: Cpu) -> &mut Lane {
        &mut self.lanes[place_of(cpu)]
    }

    /// The tick of so many ticks from now.
    pub(crate) fn tick_in(&self, ticks: u64) -> u64 {
        self.stage.tick().saturating_add(ticks)
    }

    /// A turn of the CPU's agent is due at once; what is left of the old one is left out.
    pub(crate) fn begin_turn(&mut self, cpu: Cpu) {
        self.lane_mut(cpu).is_due = true;
        self.sleepers &= !word_of(cpu);
        self.agenda.put_turn(cpu);
    }

    /// Posts a message, which may wake an agent.
    pub(crate) fn post(&mut self, event: Event) -> Result<(), Stop>
        requires { CreatesNone event × IsPlayable event }
    {
        let reply = self.stage.do_event(event)?;
        self.note_post(&reply)
    }

    /// Notes what was replied to a post: which agent it woke.
    pub(crate) fn note_post(&mut self, reply: &Reply) -> Result<(), Stop> {
        let _: (Option<Posted>, Option<Tid>, Option<Cpu>, Option<Refusal>) = (
            None, None, None, None,
        );
        match *reply {
            Reply::Posted(posted) => {
                if let Some(cpu) = posted.woken {
                    self.begin_turn(cpu);
                }
                Ok(())
            }
            Reply::Refused(Refusal::NumbersSpent) => Err(Stop::NumbersSpent),
            _ => Ok(()),
        }
    }

    /// Whether the CPU's agent is in a turn.
    pub(crate) fn is_in_turn(&self, cpu: Cpu) -> bool {
        self.stage.is_in_turn(cpu)
    }
}
