//! The line that asks for a command, as a script has it.

ghost use Rattle.std.specs.Prelude.{Some};
ghost use Rattle.pc_script.specs.Grammar.{agent_row, call_row, command_text, event_row, read_row, row_text};
ghost use Rattle.pc_script.specs.Grammar.{state_word, target_word};

use crate::command::{Command, Read};
use pc_calls::{AgentCall, EnvCall, Event, Limits};
use pc_messages::{Cpu, Phase};
use std::fmt;

/// How a new thread starts.
#[derive(Clone, Copy)]
struct State(bool);

impl fmt::Display for State {
    ghost output = { λ state. Some (state_word state.0) };

    fn fmt<W: fmt::Write>(&self, f: &mut fmt::Formatter<W>) -> fmt::Result {
        let phase = if self.0 { Phase::Ready } else { Phase::Blocked };
        f.write_str(phase.word())
    }
}

/// Whom a queue wakes.
#[derive(Clone, Copy)]
struct Target(Option<Cpu>);

impl fmt::Display for Target {
    ghost output = { λ target. Some (target_word target.0) };

    fn fmt<W: fmt::Write>(&self, f: &mut fmt::Formatter<W>) -> fmt::Result {
        match self.0 {
            Some(cpu) => {
                let cpu = cpu.index();
                write!(f, "{cpu}")
            }
            None => write!(f, "-"),
        }
    }
}

/// A call of the environment.
#[derive(Clone, Copy)]
struct SpelledCall(EnvCall);

impl fmt::Display for SpelledCall {
    ghost output = { λ call. Some (row_text (call_row call.0)) };

    fn fmt<W: fmt::Write>(&self, f: &mut fmt::Formatter<W>) -> fmt::Result {
        match self.0 {
            EnvCall::Create { queue, ready, mask } => {
                let (queue, state) = (queue.index(), State(ready));
                write!(f, "create {queue} {mask} {state}")
            }
            EnvCall::Wake { thread } => write!(f, "wake t{}", thread.index()),
            EnvCall::Block { cpu, ran } => write!(f, "block {} {ran}", cpu.index()),
            EnvCall::YieldNow { cpu, ran } => write!(f, "yield {} {ran}", cpu.index()),
            EnvCall::Preempt { cpu, ran } => write!(f, "preempt {} {ran}", cpu.index()),
            EnvCall::Die { cpu, ran } => write!(f, "die {} {ran}", cpu.index()),
            EnvCall::SetAffinity { thread, mask } => {
                write!(f, "affinity t{} {mask}", thread.index())
            }
            EnvCall::SetPriority { thread, level } => {
                write!(f, "priority t{} {level}", thread.index())
            }
            EnvCall::Tick { cpu } => write!(f, "tick {}", cpu.index()),
        }
    }
}

/// A call of an agent.
#[derive(Clone, Copy)]
struct SpelledAgentCall(AgentCall);

impl fmt::Display for SpelledAgentCall {
    ghost output = { λ call. Some (row_text (agent_row call.0)) };

    fn fmt<W: fmt::Write>(&self, f: &mut fmt::Formatter<W>) -> fmt::Result {
        match self.0 {
            AgentCall::Associate {
                thread,
                queue,
                number,
            } => write!(
                f,
                "associate t{} {} {number}",
                thread.index(),
                queue.index()
            ),
            AgentCall::Commit { cpu, thread, aseq } => {
                write!(f, "commit {} t{} {aseq}", cpu.index(), thread.index())
            }
            AgentCall::Sleep { cpu, aseq } => write!(f, "sleep {} {aseq}", cpu.index()),
            AgentCall::Rouse { cpu } => write!(f, "rouse {}", cpu.index()),
            AgentCall::Config { queue, target } => {
                let (queue, target) = (queue.index(), Target(target));
                write!(f, "config {queue} {target}")
            }
        }
    }
}

/// An event.
#[derive(Clone, Copy)]
struct SpelledEvent(Event);

impl fmt::Display for SpelledEvent {
    ghost output = { λ event. Some (row_text (event_row event.0)) };

    fn fmt<W: fmt::Write>(&self, f: &mut fmt::Formatter<W>) -> fmt::Result {
        match self.0 {
            Event::Env(call) => {
                let call = SpelledCall(call);
                write!(f, "{call}")
            }
            Event::Agent(call) => {
                let call = SpelledAgentCall(call);
                write!(f, "{call}")
            }
            Event::Publish { cpu, fails: false } => write!(f, "publish {}", cpu.index()),
            Event::Publish { cpu, fails: true } => write!(f, "publish {} fail", cpu.index()),
            Event::Consume { cpu } => write!(f, "consume {}", cpu.index()),
            Event::Deliver { cpu, delta } => write!(f, "deliver {} {delta}", cpu.index()),
            Event::Answer { cpu, asker } => write!(f, "answer {} {}", cpu.index(), asker.index()),
            Event::Pick { cpu, aseq } => write!(f, "pick {} {aseq}", cpu.index()),
            Event::Steal { cpu } => write!(f, "steal {}", cpu.index()),
            Event::Crash { cpu } => write!(f, "crash {}", cpu.index()),
        }
    }
}

impl fmt::Display for Read {
    ghost output = { λ question. Some (row_text (read_row question)) };

    fn fmt<W: fmt::Write>(&self, f: &mut fmt::Formatter<W>) -> fmt::Result {
        match *self {
            Read::Status { thread } => write!(f, "status t{}", thread.index()),
            Read::Asleep { cpu } => write!(f, "asleep {}", cpu.index()),
            Read::Show { cpu } => write!(f, "show {}", cpu.index()),
            Read::Same { cpu, other } => write!(f, "same {} {}", cpu.index(), other.index()),
            Read::Complete { cpu, thread } => {
                write!(f, "complete {} t{}", cpu.index(), thread.index())
            }
        }
    }
}

/// The words of the limits of a kernel.
#[derive(Clone, Copy)]
struct SpelledLimits(Limits);

impl fmt::Display for SpelledLimits {
    ghost use Rattle.pc_script.specs.declared.command.Command.TheVariants.{Enclave};

    ghost output = { λ limits. Some (command_text (Enclave limits.0)) };

    fn fmt<W: fmt::Write>(&self, f: &mut fmt::Formatter<W>) -> fmt::Result {
        let Limits {
            cpus,
            threads,
            numbers,
            room,
            posts,
        } = self.0;
        write!(f, "enclave {cpus} {threads} {numbers} {room} {posts}")
    }
}

/// The line of a script that asks for the command: its words with one space between.
impl fmt::Display for Command {
    ghost output = { λ command. Some (command_text command) };

    fn fmt<W: fmt::Write>(&self, f: &mut fmt::Formatter<W>) -> fmt::Result {
        match *self {
            Command::Enclave(limits) => {
                let limits = SpelledLimits(limits);
                write!(f, "{limits}")
            }
            Command::Event(event) => {
                let event = SpelledEvent(event);
                write!(f, "{event}")
            }
            Command::Read(question) => write!(f, "{question}"),
            Command::Policy(policy) => {
                policy.is_read_again();
                write!(f, "policy {policy}")
            }
            Command::Mend { cpu } => write!(f, "mend {}", cpu.index()),
        }
    }
}
