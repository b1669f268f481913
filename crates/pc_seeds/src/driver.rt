//! What drives a run: it does what each thread does on its CPU, and wakes whom it blocked.

ghost use Rattle.std.specs.Prelude.{◌≡◌, ◌≢◌, ◌↔◌, ◌++◌, ◌∷◌, [], map, Err, IfOk, IfSome, IsTrue, OnOk};
ghost use Rattle.pc_calls.specs.Leavings.{call_for};
ghost use Rattle.pc_protocol.specs.Running.{blocked_by, noticing};
ghost use Rattle.pc_threads.specs.Settings.{plan_of};
ghost use Rattle.pc_seeds.specs.Driving.{Accepts, DoesDeed, DrivesOn, HasNothingToDo, IsIdle, TakesStep, choices_of};
ghost use Rattle.pc_seeds.specs.Driving.{deed_of};

use pc_calls::{EnvCall, Posted, Refusal, Reply};
use pc_messages::{Cpu, Tid};
use pc_protocol::{Protocol, Told};
use pc_threads::{RunFault, Step, ThreadPlan};
use std::alloc::{AllocError, Global};

/// How far a run's driver is.
#[derive(Drop)]
pub(crate) struct Driver {
    /// How many steps each thread has done.
    done: Vec<usize>,
    /// The CPUs of which it was told that a thread came to run there.
    told: Vec<Cpu>,
    /// The thread that it blocked, and wakes next.
    blocked: Option<Tid>,
}

/// The thread that is woken next, where this one does the step.
fn blocked_by(thread: Tid, step: &Step) -> Option<Tid>
    ensures { result ≡ blocked_by (deed_of step.now).leaving thread }
{
    match step {
        Step::Block(_) => Some(thread),
        Step::Yield(_) | Step::Preempt(_) | Step::Die(_) => None,
    }
}

/// What a thread's step is to the kernel.
fn call_of(cpu: Cpu, step: &Step) -> EnvCall
    ensures { result ≡ call_for (deed_of step.now).leaving cpu (deed_of step.now).ran }
{
    match *step {
        Step::Yield(ran) => EnvCall::YieldNow { cpu, ran },
        Step::Block(ran) => EnvCall::Block { cpu, ran },
        Step::Preempt(ran) => EnvCall::Preempt { cpu, ran },
        Step::Die(ran) => EnvCall::Die { cpu, ran },
    }
}

/// The machine behind a call of the driver, which the kernel accepted.
pub(crate) fn accepted(
    machine: Protocol,
    call: EnvCall,
    told: &mut Vec<Told>,
) -> Result<Protocol, RunFault>
    ensures accepts { IfOk result (Accepts call machine) }
    ensures starts { result ≢ Err RunFault.StartFailed }
{
    // The checker finds the types that a reply nests only where the function names them.
    let _: (Option<Posted>, Option<Tid>, Option<Cpu>, Option<Refusal>) = (None, None, None, None);
    let Ok((machine, reply)) = machine.call(call, told) else {
        return Err(RunFault::OutOfMemory);
    };
    match &reply {
        Reply::Posted(_) => Ok(machine),
        Reply::Refused(refusal) => Err(RunFault::Driver(*refusal)),
        Reply::Done
        | Reply::Associated { .. }
        | Reply::Committed { .. }
        | Reply::Published { .. }
        | Reply::Consumed { .. }
        | Reply::Answered { .. } => Err(RunFault::Unaccounted),
    }
}

impl Driver {
    /// No thread has done a step.
    pub(crate) fn new(alloc: Global, plans: &[ThreadPlan]) -> Result<Driver, AllocError>
        ensures { IfOk result (IsIdle (map plan_of plans.now)) }
    {
        let mut done = Vec::new(alloc);
        done.resize(plans.len(), 0)?;
        Ok(Driver {
            done,
            told: Vec::new(alloc),
            blocked: None,
        })
    }

    /// How many choices it has: to wake whom it blocked, or one of the CPUs of which it was told.
    pub(crate) fn choices(&self) -> usize
        ensures { result ≡ choices_of self.now }
    {
        match self.blocked {
            Some(_) => 1,
            None => self.told.len(),
        }
    }

    /// Whether it has none.
    pub(crate) fn is_idle(&self) -> bool
        ensures { IsTrue result ↔ HasNothingToDo self.now }
    {
        self.blocked.is_none() && self.told.is_empty()
    }

    /// It is told of the CPU, where a thread came to run there and none ran before.
    pub(crate) fn notice(
        &mut self,
        cpu: Cpu,
        ran: Option<Tid>,
        runs: Option<Tid>,
    ) -> Result<(), AllocError>
        ensures told { OnOk result (self.new.told.items ≡ noticing cpu ran runs self.old.told.items) }
        ensures done { self.new.done ≡ self.old.done }
        ensures blocked { self.new.blocked ≡ self.old.blocked }
    {
        match (ran, runs) {
            (None, Some(_)) => self.told.push(cpu)?,
            (Some(_), _) | (None, None) => {}
        }
        Ok(())
    }

    /// The thread's next step, which then is done, if it has one left.
    fn next_of(&mut self, plans: &[ThreadPlan], thread: Tid) -> Option<Step>
        ensures { IfSome result (λ step. TakesStep (map plan_of plans.now) thread step self.old self.new) }
    {
        let place = thread.index() as usize;
        if place >= self.done.len() {
            return None;
        }
        let done = self.done[place];
        let step = *plans.get(place)?.steps.get(done)?;
        self.done[place] = done + 1;
        Some(step)
    }

    /// The thread on the CPU does its next step.
    fn go_on(
        &mut self,
        machine: Protocol,
        plans: &[ThreadPlan],
        cpu: Cpu,
        told: &mut Vec<Told>,
    ) -> Result<Protocol, RunFault>
        ensures does { IfOk result (λ new. DoesDeed (map plan_of plans.now) cpu machine self.old new self.new) }
        ensures starts { result ≢ Err RunFault.StartFailed }
    {
        let Some(thread) = machine.world().kernel().running(cpu) else {
            return Err(RunFault::Driver(Refusal::IdleCpu));
        };
        let Some(step) = self.next_of(plans, thread) else {
            return Err(RunFault::Driver(Refusal::IdleCpu));
        };
        self.blocked = blocked_by(thread, &step);
        let machine = accepted(machine, call_of(cpu, &step), told)?;
        Ok(machine)
    }

    /// Does what is next.
    pub(crate) fn go(
        &mut self,
        machine: Protocol,
        plans: &[ThreadPlan],
        choice: usize,
        told: &mut Vec<Told>,
    ) -> Result<Protocol, RunFault>
        ensures drives { IfOk result (λ new. DrivesOn (map plan_of plans.now) machine self.old new self.new) }
        ensures starts { result ≢ Err RunFault.StartFailed }
    {
        if let Some(thread) = self.blocked {
            self.blocked = None;
            let machine = accepted(machine, EnvCall::Wake { thread }, told)?;
            return Ok(machine);
        }
        if choice >= self.told.len() {
            return Err(RunFault::Driver(Refusal::IdleCpu));
        }
        let cpu = self.told.remove(choice);
        let machine = self.go_on(machine, plans, cpu, told)?;
        Ok(machine)
    }
}
