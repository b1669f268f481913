//! The command that runs agents, in threads or by a seed: its settings, its screen, its limit, and the file of its
//! calls.

use crate::end;
use crate::met::{Met, Source};
use crate::streams::{Noted, screen_of};
use pc_program::{
    Ending, MOST_SETTINGS, Manner, Progress, ReportForm, Scheduling, SoFar, Unsettled,
    read_settings, run_flushed, run_scripted, write_trouble,
};
use pc_settings::write_unknown_keys;
use std::alloc::Global;
use std::fs::{self, File};
use std::io::{self, BufWriter, Read, Stderr, Write};
use std::os::unix::fs::MetadataExt;
use std::process::ExitCode;
use std::sync::Wait;
use std::thread::Threads;
use std::time::{Clock, Duration, Instant};

/// The settings text that a stream gives.
fn settings_in<R: Read + Drop>(alloc: Global, reader: R) -> Result<String, Met> {
    let mut reader = Noted::new(reader);
    match read_settings(alloc, &mut reader) {
        Ok(text) => Ok(text),
        Err(ending) => Err(Met::of(ending, reader.fault())),
    }
}

/// The settings text of the file, or else of the standard input.
pub(crate) fn settings_of(rt: &HostRuntime, source: &Source) -> Result<String, Met> {
    match &source.0 {
        None => settings_in(rt.alloc(), rt.stdin()),
        Some(name) => match File::open(rt, name.as_str()) {
            Ok(file) => settings_in(rt.alloc(), file),
            Err(error) => Err(Met::unopened(error)),
        },
    }
}

/// When a run that begins now is given up. Where the clock cannot be read it is not.
pub(crate) fn deadline_of(rt: &HostRuntime, limit: Option<u32>) -> Option<Instant> {
    let seconds = limit? as u64;
    Instant::now(rt)
        .ok()?
        .checked_add(Duration::from_secs(seconds))
}

/// Runs agents by a settings text, and reports through a buffer of its own.
fn run_settings<R: Threads + Wait + Clock + Sync, S: Write + Copy + Sync, W: Write + Drop>(
    rt: &R,
    alloc: Global,
    text: &str,
    scheduling: Scheduling,
    form: ReportForm,
    progress: &Progress<S>,
    writer: W,
) -> Met {
    let Ok(mut writer) = BufWriter::new(alloc, Noted::new(writer)) else {
        return Met::ended(Ending::OutOfMemory);
    };
    let ending = run_flushed(rt, alloc, text, scheduling, form, progress, &mut writer);
    Met::of(ending, writer.get_ref().fault())
}

/// A file into which the calls of a run are written.
#[derive(Drop)]
struct ScriptFile {
    name: String,
    file: File,
}

/// Whether both name one file on a disk.
fn are_one(rt: &HostRuntime, one: &str, other: &str) -> bool {
    match (fs::metadata(rt, one), fs::metadata(rt, other)) {
        (Ok(one), Ok(other)) => {
            one.is_file() && one.dev() == other.dev() && one.ino() == other.ino()
        }
        (_, _) => false,
    }
}

/// The file of this name, made or emptied, where there is a name. One that the settings were read from stays.
fn script_file(
    rt: &HostRuntime,
    name: Option<String>,
    source: &Source,
) -> Result<Option<ScriptFile>, Met> {
    let Some(name) = name else { return Ok(None) };
    let read = match &source.0 {
        Some(read) => read.as_str(),
        None => "/dev/stdin",
    };
    if are_one(rt, name.as_str(), read) {
        let error = io::Error::other("the settings were read from it");
        return Err(Met::unmade(error, name));
    }
    match File::create(rt, name.as_str()) {
        Ok(file) => Ok(Some(ScriptFile { name, file })),
        Err(error) => Err(Met::unmade(error, name)),
    }
}

/// The same, and writes the calls as a script into the file, through another buffer.
fn run_with_script<R: Threads + Wait + Clock + Sync, S: Write + Copy + Sync, W: Write + Drop>(
    rt: &R,
    alloc: Global,
    text: &str,
    scheduling: Scheduling,
    form: ReportForm,
    progress: &Progress<S>,
    script: ScriptFile,
    writer: W,
) -> Met {
    let ScriptFile { name, file } = script;
    let Ok(mut script) = BufWriter::new(alloc, Noted::new(file)) else {
        return Met::ended(Ending::OutOfMemory);
    };
    let Ok(mut writer) = BufWriter::new(alloc, Noted::new(writer)) else {
        return Met::ended(Ending::OutOfMemory);
    };
    let ending = run_scripted(
        rt,
        alloc,
        text,
        scheduling,
        form,
        progress,
        &mut script,
        &mut writer,
    );
    match script.get_ref().fault() {
        Some(said) => Met::of_file(ending, said, name),
        None => Met::of(ending, writer.get_ref().fault()),
    }
}

/// What agents do while a thread waits that none of them takes.
fn deed(manner: Manner) -> &'static str {
    match manner {
        Manner::AtRest => "no agent will look at it",
        Manner::Asking => "agents ask each other without end",
    }
}

/// Says of a run by a seed that did not settle who waits in it, and how it can be had again.
pub(crate) fn say_seed(rt: &HostRuntime, why: Unsettled, seed: u64) {
    // Nothing can be said of an error on standard error itself.
    let _ = match why {
        Unsettled::Stalled(stall) => {
            let (thread, cpu, deed) = (stall.thread.0, stall.cpu.0, deed(stall.manner));
            eprintln!(rt;
                "pc-sim: t{thread} waits for CPU {cpu}, and {deed}; --seed {seed} has it again"
            )
        }
        Unsettled::GaveUp => {
            eprintln!(rt; "pc-sim: it was not done in time; --seed {seed} has the same run")
        }
        _ => eprintln!(rt; "pc-sim: --seed {seed} has it again"),
    };
}

/// Says how far a run came that did not settle; or what [`say_seed`] says.
fn say_unsettled(rt: &HostRuntime, why: Unsettled, seed: Option<u64>, so_far: SoFar) {
    match seed {
        Some(seed) => say_seed(rt, why, seed),
        None => {
            // Nothing can be said of an error on standard error itself.
            let _ = eprintln!(rt; "pc-sim: {so_far}");
        }
    }
}

/// Warns of each key of a settings text that is not known.
pub(crate) fn say_unknown(rt: &HostRuntime, text: &str) {
    // Nothing can be said of an error on standard error itself.
    let _ = write_unknown_keys(rt.alloc(), text, &mut rt.stderr());
}

/// Says how what was to be done by a settings text ended. Of settings that have a fault it says which.
pub(crate) fn end_settings(rt: &HostRuntime, met: &Met, source: &Source, text: &str) -> ExitCode {
    let status = end(rt, met, source, MOST_SETTINGS);
    if let Ending::Settings(_) = met.ending {
        // Nothing can be said of an error on standard error itself.
        let _ = write_trouble(rt.alloc(), text, &mut rt.stderr());
    }
    status
}

/// Says how a run by a settings text ended.
fn end_run(
    rt: &HostRuntime,
    met: &Met,
    source: &Source,
    text: &str,
    seed: Option<u64>,
    so_far: SoFar,
) -> ExitCode {
    let status = end_settings(rt, met, source, text);
    if let Ending::Run(why) = met.ending {
        say_unsettled(rt, why, seed, so_far);
    }
    say_unknown(rt, text);
    status
}

/// Runs agents by a settings text, and where a file is named writes their calls as a script, too. That file is made
/// before the run begins, which may take long. Threads come of a handle of their own: `rt` lends none outside `main`.
fn run_told<R: Threads + Wait + Clock + Sync>(
    rt: &HostRuntime,
    threads: &R,
    text: &str,
    scheduling: Scheduling,
    form: ReportForm,
    script: Result<Option<ScriptFile>, Met>,
    progress: &Progress<Stderr>,
) -> Met {
    let (alloc, out) = (rt.alloc(), rt.stdout());
    match script {
        Ok(None) => run_settings(threads, alloc, text, scheduling, form, progress, out),
        Ok(Some(script)) => {
            run_with_script(
                threads, alloc, text, scheduling, form, progress, script, out,
            )
        }
        Err(met) => met,
    }
}

/// Runs agents by the settings of the file, or else of the standard input, and says how that ended.
pub(crate) fn run_on_machine<R: Threads + Wait + Clock + Sync>(
    rt: &HostRuntime,
    threads: &R,
    file: Option<String>,
    form: ReportForm,
    limit: Option<u32>,
    scheduling: Scheduling,
    script: Option<String>,
) -> ExitCode {
    let source = Source(file);
    let seed = scheduling.seed;
    match settings_of(rt, &source) {
        Ok(text) => {
            let text = text.as_str();
            let progress = Progress::new(screen_of(rt), deadline_of(rt, limit));
            let script = script_file(rt, script, &source);
            let met = run_told(rt, threads, text, scheduling, form, script, &progress);
            end_run(rt, &met, &source, text, seed, progress.so_far())
        }
        Err(met) => end(rt, &met, &source, MOST_SETTINGS),
    }
}
