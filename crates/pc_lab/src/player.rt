//! A load is played under a variant of the policy.

ghost use Rattle.std.specs.Prelude.{◌≡◌, [], IfOk};
ghost use Rattle.pc_lab.specs.Limits.{limits_for};
ghost use Rattle.pc_lab.specs.Playing.{IsPlayedBy};
ghost use Rattle.pc_lab.specs.Stages.{Holds, text_in};

use crate::chronicle::Chronicle;
use crate::due::{Due, What, first_of};
use crate::fault::LabFault;
use crate::run::{Numbers, Run, Stop};
use crate::stage::{Setting, Stage};
use crate::stalls::first_waiting;
use crate::summary::{Played, RunEnding};
use pc_calls::{Limits, MOST_NUMBERS, MOST_POSTS, MOST_ROOM};
use pc_load::{Load, Variant};
use pc_messages::Cpu;
use std::alloc::Global;
use std::marker::Brand;

/// The limits of the kernel on which a load is played.
pub fn limits_of(load: &Load) -> Limits
    ensures { result ≡ limits_for load.now }
{
    let threads = load.threads().len().min(u32::MAX as usize) as u32;
    Limits {
        cpus: load.cpus(),
        threads: threads.max(1),
        numbers: MOST_NUMBERS,
        room: MOST_ROOM,
        posts: MOST_POSTS,
    }
}

impl<K: Setting> Run<K> {
    /// The next creation.
    pub(crate) fn next_creation(&self, load: &Load) -> Option<Due> {
        let place = self.lives.len();
        let plan = load.threads().get(place)?;
        Some(Due {
            tick: plan.start as u64,
            what: What::Creation(place),
        })
    }

    /// The next delta that is due.
    pub(crate) fn next_delta(&self) -> Option<Due> {
        let delta = self.deltas.get(self.told)?;
        Some(Due {
            tick: delta.due,
            what: What::Delta(self.told),
        })
    }

    /// Takes the next thing out.
    fn take_next(&mut self, load: &Load) -> Option<Due> {
        let others = first_of(self.next_creation(load), self.next_delta());
        let due = first_of(self.agenda.first(self.stage.tick()), others)?;
        match due.what {
            What::Delta(_) => self.told = self.told.saturating_add(1),
            what => self.agenda.take_first(what),
        }
        Some(due)
    }

    /// Does a thing.
    fn do_due(&mut self, load: &Load, due: &Due) -> Result<(), Stop>
        requires { load.now ≡ K.load }
    {
        match due.what {
            What::StepEnds(cpu) => self.end_step(load, cpu)?,
            What::Waking(thread) => self.wake(thread)?,
            What::Creation(place) => self.create(load, place)?,
            What::TurnBegins(cpu) => self.turn_begins(cpu)?,
            What::TurnEnds(cpu) => self.turn_ends(cpu)?,
            What::Steal(cpu) => self.steal(cpu)?,
            What::Delta(place) => self.report(place)?,
        }
        Ok(())
    }

    /// All agents sleep at first.
    fn begin(&mut self, cpus: u8) -> Result<(), LabFault> {
        for cpu in 0..cpus {
            self.sleep(Cpu(cpu))?;
        }
        Ok(())
    }

    /// The run stops at the tick at which it is to stop.
    fn stop(&mut self, load: &Load) -> RunEnding {
        self.stage.advance(load.until());
        RunEnding::Until
    }

    /// Nothing is due, though threads live: no agent runs one of them from now on.
    fn stall(&self) -> Result<RunEnding, Stop> {
        match first_waiting(self.kernel()) {
            Some(thread) => Ok(RunEnding::Stalled(thread)),
            None => Err(Stop::Fault(LabFault::Unaccounted)),
        }
    }

    /// Does the next thing, unless the run ends in front of it. There are threads that live.
    fn do_next(&mut self, load: &Load) -> Result<Option<RunEnding>, Stop>
        requires { load.now ≡ K.load }
    {
        let Some(due) = self.take_next(load) else {
            return Ok(Some(self.stall()?));
        };
        if due.tick >= load.until() {
            return Ok(Some(self.stop(load)));
        }
        self.stage.advance(due.tick);
        self.do_due(load, &due)?;
        Ok(None)
    }

    /// Does all that is due.
    fn do_all(&mut self, load: &Load) -> Result<RunEnding, Stop>
        requires { load.now ≡ K.load }
    {
        self.begin(load.cpus())?;
        for _ in 0..u64::MAX {
            if self.dead >= load.threads().len() {
                return Ok(RunEnding::Done);
            }
            if let Some(ending) = self.do_next(load)? {
                return Ok(ending);
            }
        }
        Err(Stop::Fault(LabFault::TooLong))
    }
}

/// A load is played on a stage of this setting.
fn play_as<K: Setting>(
    alloc: Global,
    load: &Load,
    variant: &Variant,
    chronicle: Chronicle,
) -> Result<Played, LabFault>
    requires load { load.now ≡ K.load }
    requires policy { variant.now.policy ≡ K.policy }
    requires keep { variant.now.keep ≡ K.keep }
    requires before { Holds K.before chronicle [] }
    ensures { IfOk result (IsPlayedBy K.load K.policy K.keep K.before) }
{
    let stage: Stage<K> = Stage::open(alloc, load, variant.policy, chronicle)?;
    let mut run = Run::new(alloc, stage, Numbers::of(variant, load.cpus()))?;
    let ending = match run.do_all(load) {
        Ok(ending) => ending,
        Err(Stop::NumbersSpent) => RunEnding::NumbersSpent,
        Err(Stop::Fault(fault)) => return Err(fault),
    };
    let Run {
        stage,
        switches,
        preempts,
        ..
    } = run;
    stage.end(alloc, load, variant.keep, ending, switches, preempts)
}

/// Plays a load under a variant of the policy, on a world of its own, from tick 0 on (own).
///
/// Each event is added to the chronicle, behind what it has. A run ends when all threads are dead, in front of a thing
/// of the tick at which it stops or of a later one, where nothing is due, or where a post is refused as `NumbersSpent`.
///
/// # Errors
/// [`LabFault::OutOfMemory`], [`LabFault::ScriptTooLong`], [`LabFault::TooLong`] and [`LabFault::Unaccounted`]: then
/// nothing is told of the run.
pub fn play(
    alloc: Global,
    load: &Load,
    variant: &Variant,
    chronicle: Chronicle,
) -> Result<Played, LabFault>
    ensures { IfOk result (IsPlayedBy load.now variant.now.policy variant.now.keep (text_in chronicle)) }
{
    play_as::<Brand>(alloc, load, variant, chronicle)
}
