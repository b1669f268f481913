//! The ranges of an event's numbers: its types keep them. Nothing here does anything.

ghost use Rattle.std.specs.Prelude.{◌<◌, ◌^◌, IfSome};
ghost use Rattle.pc_script.specs.Grammar.{AreInRange, agent_row, call_row, event_row};

use pc_calls::{AgentCall, EnvCall, Event};
use pc_messages::{Cpu, Tid};

fn cpu_fits(cpu: Cpu)
    ensures { cpu < 2 ^ 8 }
{
    let _ = cpu.index();
}

fn target_fits(target: Option<Cpu>)
    ensures { IfSome target (λ cpu. cpu < 2 ^ 8) }
{
    if let Some(cpu) = target {
        cpu_fits(cpu);
    }
}

fn thread_fits(thread: Tid)
    ensures { thread < 2 ^ 32 }
{
    let _ = thread.index();
}

const fn level_fits(level: u8)
    ensures { level < 2 ^ 8 }
{
    let _ = level;
}

const fn count_fits(count: u32)
    ensures { count < 2 ^ 32 }
{
    let _ = count;
}

const fn word_fits(word: u64)
    ensures { word < 2 ^ 64 }
{
    let _ = word;
}

/// A CPU and a count fit.
fn both_fit(cpu: Cpu, count: u32)
    ensures cpu { cpu < 2 ^ 8 }
    ensures count { count < 2 ^ 32 }
{
    cpu_fits(cpu);
    count_fits(count);
}

/// The numbers of a call of the environment are in the ranges of a script's fields.
fn env_fits(call: EnvCall)
    ensures { AreInRange (call_row call).fields }
{
    match call {
        EnvCall::Create { queue, mask, .. } => {
            cpu_fits(queue);
            word_fits(mask);
        }
        EnvCall::Wake { thread } => thread_fits(thread),
        EnvCall::Block { cpu, ran } => both_fit(cpu, ran),
        EnvCall::YieldNow { cpu, ran } => both_fit(cpu, ran),
        EnvCall::Preempt { cpu, ran } => both_fit(cpu, ran),
        EnvCall::Die { cpu, ran } => both_fit(cpu, ran),
        EnvCall::SetAffinity { thread, mask } => {
            thread_fits(thread);
            word_fits(mask);
        }
        EnvCall::SetPriority { thread, level } => {
            thread_fits(thread);
            level_fits(level);
        }
        EnvCall::Tick { cpu } => cpu_fits(cpu),
    }
}

/// Those of a call of an agent are.
fn agent_fits(call: AgentCall)
    ensures { AreInRange (agent_row call).fields }
{
    match call {
        AgentCall::Associate {
            thread,
            queue,
            number,
        } => {
            thread_fits(thread);
            both_fit(queue, number);
        }
        AgentCall::Commit { cpu, thread, aseq } => {
            thread_fits(thread);
            both_fit(cpu, aseq);
        }
        AgentCall::Sleep { cpu, aseq } => both_fit(cpu, aseq),
        AgentCall::Rouse { cpu } => cpu_fits(cpu),
        AgentCall::Config { queue, target } => {
            cpu_fits(queue);
            target_fits(target);
        }
    }
}

/// Those of an event are.
pub(crate) fn is_in_range(event: Event)
    ensures { AreInRange (event_row event).fields }
{
    match event {
        Event::Env(call) => env_fits(call),
        Event::Agent(call) => agent_fits(call),
        Event::Publish { cpu, .. } => cpu_fits(cpu),
        Event::Consume { cpu } => cpu_fits(cpu),
        Event::Deliver { cpu, delta } => {
            cpu_fits(cpu);
            word_fits(delta);
        }
        Event::Answer { cpu, asker } => {
            cpu_fits(cpu);
            cpu_fits(asker);
        }
        Event::Pick { cpu, aseq } => both_fit(cpu, aseq),
        Event::Steal { cpu } => cpu_fits(cpu),
        Event::Crash { cpu } => cpu_fits(cpu),
    }
}
