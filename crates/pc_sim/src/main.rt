//! `pc-sim`: replays scripts of events on the kernel model and its agents, explains or draws them, answers commands as
//! they come, runs agents in threads or by seeds, or tries loads of the lab. What it does is the libraries',
//! `pc_program` and `pc_trial`; here are the words, files and streams of the machine that it runs on.
#![tactic(auto)]

mod lab;
mod met;
mod quitting;
mod run;
mod streams;
mod tally;
mod words;

use lab::try_on_machine;
use met::{Met, Source, say_failure, say_missing};
use pc_program::{
    AgentPolicy, CommandFault, Ending, Failure, Manual, ProgramCommand, Scheduling, ScriptForm,
    converse_flushed, make_flushed, read_command, replay_flushed, write_command_trouble,
};
use pc_script::MOST_BYTES;
use pc_trial::LabOutput;
use quitting::Quitting;
use run::run_on_machine;
use std::alloc::Global;
use std::fs::File;
use std::io::{BufWriter, IsTerminal, Read, Write};
use std::process::ExitCode;
use std::sync::Wait;
use std::thread::Threads;
use std::time::Clock;
use streams::{Noted, fill_closed};
use tally::tally_on_machine;
use words::{WordsFault, words_of};

/// How it ended, and what the system said of the stream that failed, where one did.
fn met_of<R: Drop, W: Drop>(ending: Ending, reader: &Noted<R>, writer: &Noted<W>) -> Met {
    let said = match ending {
        Ending::CannotRead(Failure::Write) => writer.fault(),
        _ => reader.fault(),
    };
    Met::of(ending, said)
}

/// Answers the script that a stream gives. Replies are gathered until there are enough of them for a write, and pass no
/// other buffer.
fn replay<R: Read + Drop, W: Write + Drop>(alloc: Global, reader: R, writer: W) -> Met {
    let mut reader = Noted::new(reader);
    let mut writer = Noted::new(writer);
    let ending = replay_flushed(alloc, &mut reader, &mut writer);
    met_of(ending, &reader, &writer)
}

/// Makes what is asked for of the text that a stream gives, through a buffer of its own.
fn make_buffered<R: Read + Drop, W: Write + Drop>(
    alloc: Global,
    form: ScriptForm,
    reader: R,
    writer: W,
) -> Met {
    let mut reader = Noted::new(reader);
    let Ok(mut writer) = BufWriter::new(alloc, Noted::new(writer)) else {
        return Met::ended(Ending::OutOfMemory);
    };
    let ending = make_flushed(alloc, form, &mut reader, &mut writer);
    met_of(ending, &reader, writer.get_ref())
}

/// Makes what is asked for of the text that a stream gives.
fn make_of<R: Read + Drop>(rt: &HostRuntime, form: ScriptForm, reader: R) -> Met {
    match form {
        ScriptForm::Replies => replay(rt.alloc(), reader, rt.stdout()),
        _ => make_buffered(rt.alloc(), form, reader, rt.stdout()),
    }
}

/// Says how the program ends that read no text.
fn end_untold(rt: &HostRuntime, met: &Met) -> ExitCode {
    end(rt, met, &Source(None), MOST_BYTES)
}

/// Prints the help of the program on standard error.
fn say_help(rt: &HostRuntime) {
    if let Err(CommandFault::Clap(help)) = read_command(rt.alloc(), &["pc-sim", "--help"]) {
        // Nothing can be said of an error on standard error itself.
        let _ = eprint!(rt; "{help}");
    }
}

/// Says what is wrong with the words of the command line, or prints the help or the version that they ask for.
fn refuse(rt: &HostRuntime, words: &[String], fault: CommandFault) -> ExitCode {
    match &fault {
        CommandFault::OutOfMemory => return end_untold(rt, &Met::ended(Ending::OutOfMemory)),
        CommandFault::Clap(help) if !help.use_stderr() => {
            return match help.print(rt) {
                Ok(()) => end_untold(rt, &Met::ended(Ending::Finished)),
                Err(error) => end_untold(rt, &Met::unwritten(error)),
            };
        }
        _ => {}
    }
    let status = end_untold(rt, &Met::ended(Ending::BadCommandLine));
    if words.len() > 1 {
        // Nothing can be said of an error on standard error itself.
        let _ = write_command_trouble(rt.alloc(), words, &fault, &mut rt.stderr());
    } else {
        say_help(rt);
    }
    status
}

/// Says why the words of the command line cannot be had.
fn refuse_words(rt: &HostRuntime, fault: WordsFault) -> ExitCode {
    match fault {
        WordsFault::OutOfMemory => end_untold(rt, &Met::ended(Ending::OutOfMemory)),
        WordsFault::NotUtf8(place) => {
            let status = end_untold(rt, &Met::ended(Ending::BadCommandLine));
            // Nothing can be said of an error on standard error itself.
            let _ = eprintln!(rt; "pc-sim: word {place} is no UTF-8; pc-sim --help tells more");
            status
        }
    }
}

/// Makes what is asked for of the text of the file, or else of the standard input, and says how that ended.
fn make_of_file(rt: &HostRuntime, form: ScriptForm, source: &Source) -> Met {
    match &source.0 {
        Some(name) => match File::open(rt, name.as_str()) {
            Ok(file) => make_of(rt, form, file),
            Err(error) => Met::unopened(error),
        },
        None => make_of(rt, form, rt.stdin()),
    }
}

/// Answers the lines that a stream gives as they come, through a buffer of its own. Help goes to standard error.
fn talk_buffered<R: Read + Drop, W: Write + Drop>(
    rt: &HostRuntime,
    explains: bool,
    reader: R,
    writer: W,
) -> Met {
    let mut reader = Noted::new(reader);
    let Ok(mut writer) = BufWriter::new(rt.alloc(), Noted::new(writer)) else {
        return Met::ended(Ending::OutOfMemory);
    };
    let mut manual = Manual::new(rt.stderr());
    let mut lines = Quitting::new(&mut reader);
    let ending = converse_flushed(rt.alloc(), explains, &mut lines, &mut manual, &mut writer);
    met_of(ending, &reader, writer.get_ref())
}

/// Says what a session is, where a person writes it at a terminal.
fn greet(rt: &HostRuntime) {
    if rt.stdin().is_terminal() && rt.stderr().is_terminal() {
        // Nothing can be said of an error on standard error itself.
        let _ = eprintln!(rt; "{GREETING}");
    }
}

/// Answers the lines of the file, or else of the standard input, as they come, and says how that ended. It stands
/// apart, so that no other command has the room on its stack that a session reads into.
#[inline(never)]
fn talk(rt: &HostRuntime, explains: bool, file: Option<String>) -> ExitCode {
    let source = Source(file);
    let met = match &source.0 {
        Some(name) => match File::open(rt, name.as_str()) {
            Ok(file) => talk_buffered(rt, explains, file, rt.stdout()),
            Err(error) => Met::unopened(error),
        },
        None => {
            greet(rt);
            talk_buffered(rt, explains, rt.stdin(), rt.stdout())
        }
    };
    end(rt, &met, &source, MOST_BYTES)
}

/// Says on standard error how the program ends, unless whoever read its output has gone. It stands apart, so that of a
/// script that ends well none of it is read in.
#[inline(never)]
fn say_end(rt: &HostRuntime, met: &Met, source: &Source, most: usize) {
    if met.is_unheard() {
        return;
    }
    if let Some(message) = met.ending.message() {
        // Nothing can be said of an error on standard error itself.
        let _ = eprintln!(rt; "{message}");
    }
    match met.ending {
        Ending::CannotRead(failure) => say_failure(rt, failure, met, source, most),
        Ending::DrawnToFault(line) => {
            let _ = eprintln!(rt; "pc-sim: line {line} of {source} is no command");
        }
        Ending::NothingToDraw(missing) => say_missing(rt, missing),
        _ => {}
    }
}

/// Says on standard error how the program ends, where its output does not, and answers its exit status.
pub(crate) fn end(rt: &HostRuntime, met: &Met, source: &Source, most: usize) -> ExitCode {
    match met.ending {
        Ending::Finished | Ending::FaultLine => {}
        _ => say_end(rt, met, source, most),
    }
    ExitCode::from(met.ending.status())
}

/// Makes what is asked for of a script.
fn make_script(rt: &HostRuntime, form: ScriptForm, file: Option<String>) -> ExitCode {
    let source = Source(file);
    let met = make_of_file(rt, form, &source);
    if let (ScriptForm::Replies, Ending::FaultLine) = (form, met.ending) {
        say_who_explains(rt, &source);
    }
    end(rt, &met, &source, MOST_BYTES)
}

/// Says at a terminal what tells why a line is no command.
fn say_who_explains(rt: &HostRuntime, source: &Source) {
    if rt.stderr().is_terminal() {
        // Nothing can be said of an error on standard error itself.
        let _ = match &source.0 {
            Some(name) => eprintln!(rt; "pc-sim: pc-sim explain {name:?} tells why"),
            None => eprintln!(rt; "pc-sim: pc-sim explain tells why"),
        };
    }
}

/// What a session says first at a terminal.
const GREETING: &str = "pc-sim: each command is answered as it comes; ? lists them, and quit ends";

/// The size in bytes of a block that is large.
const LARGE: usize = 1 << 18;

/// Takes a large block and gives it back. The heap of the C library gives each large block pages of its own until one
/// was given back: from then on blocks up to that size stand side by side, as the deltas do that a wire keeps. Where
/// there is no memory for it nothing is lost.
fn settle_heap(alloc: Global) {
    let _ = Vec::<u8>::with_capacity(alloc, LARGE);
}

/// Does what the command asks for. Threads come of a handle of their own: `rt` lends none outside `main`.
fn do_command<R: Threads + Wait + Clock + Sync>(
    rt: &HostRuntime,
    threads: &R,
    command: ProgramCommand,
) -> ExitCode {
    match command {
        ProgramCommand::Replay { file } => make_script(rt, ScriptForm::Replies, file),
        ProgramCommand::Explain { file } => make_script(rt, ScriptForm::Explained, file),
        ProgramCommand::Draw { file, part, axis } => make_script(
            rt,
            ScriptForm::Picture(part, axis),
            file,
        ),
        ProgramCommand::Session { file, explains } => talk(rt, explains, file),
        ProgramCommand::Lab {
            file,
            variants,
            per_cpu,
            csv,
            picture,
            script,
        } => {
            let wanted = LabOutput::of(per_cpu, csv, picture, script);
            try_on_machine(rt, file, variants, &wanted)
        }
        ProgramCommand::Run {
            file,
            form,
            limit,
            policy,
            script,
            seed,
        } => {
            let policy = AgentPolicy::named(policy);
            let scheduling = Scheduling { policy, seed };
            run_on_machine(rt, threads, file, form, limit, scheduling, script)
        }
        ProgramCommand::Tally {
            file,
            limit,
            policy,
            seeds,
        } => tally_on_machine(rt, file, limit, &AgentPolicy::named(policy), seeds),
    }
}

fn main(rt: HostRuntime) -> ExitCode {
    fill_closed(&rt);
    settle_heap(rt.alloc());
    let words = match words_of(&rt) {
        Ok(words) => words,
        Err(fault) => return refuse_words(&rt, fault),
    };
    match read_command(rt.alloc(), words.as_slice()) {
        Ok(command) => do_command(&rt, &rt, command),
        Err(fault) => refuse(&rt, words.as_slice(), fault),
    }
}
