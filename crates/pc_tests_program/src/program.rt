//! What no script of tests/cases can say: a script over memory, the words of a command line, and how the program ends.

use pc_program::{
    Axis, CommandFault, DrawnPart, Ending, Failure, Helper, Interval, Missing, ProgramCommand,
    ReportForm, ScriptForm, Seeds, VariantsFrom, converse_flushed, make, read_command,
    replay_flushed, run_script,
};
use pc_script::Outcome;
use std::alloc::Global;
use std::io::{self, BufWriter, Error, ErrorKind, Write};
use std::test::Fail;

#[test]
fn a_script_is_run_over_memory(rt: HostRuntime) {
    let alloc = rt.alloc();
    let mut reader = b"enclave 2 8 100 16 1000\ntick 0 0\nstatus t0\n".as_slice();
    let mut writer = Vec::new(alloc);
    let ended = run_script(alloc, &mut reader, &mut writer);
    assert_eq!(rt; ended, Ok(Outcome::FaultLine(2)));
    assert_eq!(rt; writer.as_slice(), b"ok\nfault line 2\n".as_slice());
}

/// Keeps what is written, and how much of it there was at the last flush. Its flushes may fail.
#[derive(Drop)]
struct Kept {
    text: Vec<u8>,
    flushed: usize,
    is_shut: bool,
}

impl Write for Kept {
    fn write(&mut self, buf: &[u8]) -> io::Result<usize> {
        self.text.extend_from_slice(buf)?;
        Ok(buf.len())
    }

    fn flush(&mut self) -> io::Result<()> {
        if self.is_shut {
            return Err(Error::from(ErrorKind::BrokenPipe));
        }
        self.flushed = self.text.len();
        Ok(())
    }
}

/// How the replay of a script with a fault ended, whether the replies up to there were written, and how many bytes were
/// flushed.
fn replayed(alloc: Global, is_shut: bool) -> (Ending, bool, usize) {
    let mut reader = b"enclave 2 8 100 16 1000\nstatus t0\nwalk\n".as_slice();
    let mut writer = Kept {
        text: Vec::new(alloc),
        flushed: 0,
        is_shut,
    };
    let ending = replay_flushed(alloc, &mut reader, &mut writer);
    let replies = b"ok\nrefused UnknownThread\nfault line 3\n".as_slice();
    (ending, writer.text.as_slice() == replies, writer.flushed)
}

#[test]
fn a_replay_is_flushed(rt: HostRuntime) {
    assert_eq!(rt; replayed(rt.alloc(), false), (Ending::FaultLine, true, 38));
    let unwritten = Ending::CannotRead(Failure::Write);
    assert_eq!(rt; replayed(rt.alloc(), true), (unwritten, true, 0));
}

/// The lane of CPU 1, at the third line.
const ONE: DrawnPart = DrawnPart {
    cpus: Some(Interval { first: 1, last: 1 }),
    lines: Some(Interval { first: 3, last: 3 }),
};

/// What follows the last CPU and the last line of that script.
const PAST: Interval = Interval { first: 5, last: 9 };

/// How the drawing of this part of a script by this axis ended, and whether a whole picture, or nothing, was written.
fn drawn(alloc: Global, part: DrawnPart, axis: Axis) -> (Ending, bool) {
    let mut reader = b"enclave 2 8 100 16 1000\n# at 7\ntick 1\ntick 0\n".as_slice();
    let mut writer = Vec::new(alloc);
    let ending = make(
        alloc,
        ScriptForm::Picture(part, axis),
        &mut reader,
        &mut writer,
    );
    let is_whole = match ending {
        Ending::NothingToDraw(_) => writer.is_empty(),
        _ => writer.as_slice().ends_with(b"</svg>\n"),
    };
    (ending, is_whole)
}

#[test]
fn a_script_is_drawn_over_memory(rt: HostRuntime) {
    let finished = (Ending::Finished, true);
    assert_eq!(rt; drawn(rt.alloc(), DrawnPart::ALL, Axis::Lines), finished);
    assert_eq!(rt; drawn(rt.alloc(), ONE, Axis::Ticks), finished);
}

/// Whether nothing is drawn of this part, since this is missing.
fn is_missed(alloc: Global, part: DrawnPart, missing: Missing) -> bool {
    let (ending, is_nothing) = drawn(alloc, part, Axis::Lines);
    ending == Ending::NothingToDraw(missing) && is_nothing && ending.status() == 2
}

#[test]
fn nothing_is_drawn_of_what_is_not_there(rt: HostRuntime) {
    let lines = DrawnPart {
        cpus: None,
        lines: Some(PAST),
    };
    let cpus = DrawnPart {
        cpus: Some(PAST),
        lines: None,
    };
    let four = Missing::Lines {
        asked: PAST,
        count: 4,
    };
    let two = Missing::Cpus {
        asked: PAST,
        count: 2,
    };
    assert!(rt; is_missed(rt.alloc(), lines, four));
    assert!(rt; is_missed(rt.alloc(), cpus, two));
}

/// What a command line asks for: which command, of which part by which axis, how a report is told, and how long a run
/// may take.
#[derive(Clone, Copy, Debug, PartialEq, Eq)]
enum Asked {
    Replay,
    Explain,
    Draw(DrawnPart, Axis),
    Run(ReportForm, Option<u32>),
    Tally(Seeds),
    Session(bool),
    /// Whether other variants are tried, whether the time of each CPU is told, whether for other tools, and whether the
    /// waits are drawn.
    Lab(bool, bool, bool, bool),
}

fn read_off(
    alloc: Global,
    words: &'static [&'static str],
) -> Result<(Asked, Option<String>), CommandFault> {
    match read_command(alloc, words)? {
        ProgramCommand::Replay { file } => Ok((Asked::Replay, file)),
        ProgramCommand::Explain { file } => Ok((Asked::Explain, file)),
        ProgramCommand::Draw { file, part, axis } => Ok((Asked::Draw(part, axis), file)),
        ProgramCommand::Run {
            file,
            form,
            limit,
            ..
        } => Ok((Asked::Run(form, limit), file)),
        ProgramCommand::Tally { file, seeds, .. } => Ok((Asked::Tally(seeds), file)),
        ProgramCommand::Session { file, explains } => Ok((Asked::Session(explains), file)),
        ProgramCommand::Lab {
            file,
            variants,
            per_cpu,
            csv,
            picture,
            ..
        } => Ok((
            Asked::Lab(are_others(&variants), per_cpu, csv, picture),
            file,
        )),
    }
}

/// Whether variants are those of another text.
fn are_others(variants: &VariantsFrom) -> bool {
    !matches!(variants, VariantsFrom::Load)
}

fn is_named(file: &Option<String>, wanted: Option<&'static str>) -> bool {
    match (file, wanted) {
        (None, None) => true,
        (Some(file), Some(wanted)) => file.as_str() == wanted,
        _ => false,
    }
}

/// Whether the words ask for this, of this file (`-` is the standard input, as no file is).
fn asks_for(
    alloc: Global,
    words: &'static [&'static str],
    wanted: Asked,
    named: Option<&'static str>,
) -> Result<bool, CommandFault> {
    let (asked, file) = read_off(alloc, words)?;
    Ok(asked == wanted && is_named(&file, named))
}

/// The place of the first words that ask for something else.
fn first_other(
    alloc: Global,
    rows: &[(&'static [&'static str], Asked, Option<&'static str>)],
) -> Result<Option<usize>, CommandFault> {
    for (place, (words, asked, file)) in rows.iter().enumerate() {
        if !asks_for(alloc, words, *asked, *file)? {
            return Ok(Some(place));
        }
    }
    Ok(None)
}

const WHOLE: Asked = Asked::Draw(DrawnPart::ALL, Axis::Lines);

const BY_TICKS: Asked = Asked::Draw(DrawnPart::ALL, Axis::Ticks);

const FIVE_CPUS: Asked = Asked::Draw(
    DrawnPart {
        cpus: Some(Interval { first: 3, last: 7 }),
        lines: None,
    },
    Axis::Lines,
);

const ONE_LINE: Asked = Asked::Draw(
    DrawnPart {
        cpus: None,
        lines: Some(Interval { first: 9, last: 9 }),
    },
    Axis::Lines,
);

const CPUS_AND_LINES: Asked = Asked::Draw(
    DrawnPart {
        cpus: Some(Interval { first: 0, last: 0 }),
        lines: Some(Interval {
            first: 1_000,
            last: u32::MAX,
        }),
    },
    Axis::Lines,
);

const TOTALS: Asked = Asked::Run(ReportForm::Totals, None);

const NINETY_SECONDS: Asked = Asked::Run(ReportForm::Totals, Some(90));

const AT_ONCE: Asked = Asked::Run(ReportForm::EachRefusal, Some(0));

const EACH_CPU: Asked = Asked::Run(ReportForm::EachCpu, None);

const EACH_REFUSAL: Asked = Asked::Run(ReportForm::EachRefusal, None);

const PICTURE: Asked = Asked::Run(ReportForm::Picture, None);

/// Up to the last seed.
const LAST_SEEDS: Asked = Asked::Tally(Seeds {
    first: u64::MAX - 2,
    many: 3,
});

/// Words, and what they ask for, of which file.
static COMMANDS: [(&[&str], Asked, Option<&str>); 27] = [
    (&["pc-sim", "replay"], Asked::Replay, None),
    (
        &["pc-sim", "replay", "a.script"],
        Asked::Replay,
        Some("a.script"),
    ),
    (
        &["pc-sim", "explain", "a.script"],
        Asked::Explain,
        Some("a.script"),
    ),
    (&["pc-sim", "explain", "-"], Asked::Explain, None),
    (&["pc-sim", "draw", "a.script"], WHOLE, Some("a.script")),
    (&["pc-sim", "draw", "-"], WHOLE, None),
    (&["pc-sim", "draw", "--time"], BY_TICKS, None),
    (
        &["pc-sim", "draw", "--cpus", "3-7", "a.script"],
        FIVE_CPUS,
        Some("a.script"),
    ),
    (&["pc-sim", "draw", "--lines=9"], ONE_LINE, None),
    (
        &[
            "pc-sim",
            "draw",
            "--lines",
            "1000-4294967295",
            "-",
            "--cpus",
            "0-0",
        ],
        CPUS_AND_LINES,
        None,
    ),
    (&["pc-sim", "run"], TOTALS, None),
    (&["pc-sim", "run", "-"], TOTALS, None),
    (&["pc-sim", "run", "--per-cpu", "--draw"], PICTURE, None),
    (
        &["pc-sim", "run", "s.toml", "--per-cpu"],
        EACH_CPU,
        Some("s.toml"),
    ),
    (
        &["pc-sim", "run", "--per-cpu", "s.toml"],
        EACH_CPU,
        Some("s.toml"),
    ),
    (
        &["pc-sim", "run", "--draw", "s.toml"],
        PICTURE,
        Some("s.toml"),
    ),
    (
        &["pc-sim", "run", "--per-cpu", "--per-cpu"],
        EACH_REFUSAL,
        None,
    ),
    (
        &["pc-sim", "run", "--limit", "90", "s.toml"],
        NINETY_SECONDS,
        Some("s.toml"),
    ),
    (
        &[
            "pc-sim",
            "run",
            "--per-cpu",
            "--limit=0",
            "--per-cpu",
            "--per-cpu",
        ],
        AT_ONCE,
        None,
    ),
    (
        &[
            "pc-sim",
            "run",
            "--runs",
            "3",
            "s.toml",
            "--seed",
            "18446744073709551613",
        ],
        LAST_SEEDS,
        Some("s.toml"),
    ),
    (&["pc-sim", "session"], Asked::Session(false), None),
    (&["pc-sim", "session", "-"], Asked::Session(false), None),
    (
        &["pc-sim", "session", "--explain", "a.script"],
        Asked::Session(true),
        Some("a.script"),
    ),
    (
        &["pc-sim", "lab", "-"],
        Asked::Lab(false, false, false, false),
        None,
    ),
    (
        &["pc-sim", "lab", "l.toml", "--per-cpu", "--variants", "-"],
        Asked::Lab(true, true, false, false),
        Some("l.toml"),
    ),
    (
        &["pc-sim", "lab", "--variants=v.toml", "--csv", "l.toml"],
        Asked::Lab(true, false, true, false),
        Some("l.toml"),
    ),
    (
        &["pc-sim", "lab", "--picture", "l.toml"],
        Asked::Lab(false, false, false, true),
        Some("l.toml"),
    ),
];

#[test]
fn commands_are_read_off_the_command_line(rt: HostRuntime) -> Result<(), Fail> {
    assert_eq!(rt; first_other(rt.alloc(), &COMMANDS)?, None);
    Ok(())
}

/// Nobody is helped.
#[derive(Drop)]
struct Nobody;

impl Helper for Nobody {
    fn help(&mut self) {}

    fn first_fault(&mut self, _number: u64, _line: &[u8]) {}
}

/// Whether a session over memory ends well, and begins by these answers.
fn talks(alloc: Global, explains: bool) -> bool {
    let mut reader = b"wake t0\nenclave 1 1 1 1 1".as_slice();
    let Ok(mut writer) = BufWriter::new(alloc, Vec::new(alloc)) else {
        return false;
    };
    let ended = converse_flushed(alloc, explains, &mut reader, &mut Nobody, &mut writer);
    let front = if explains {
        b"# 1: wake t0\nrefused NoEnclave\n".as_slice()
    } else {
        b"refused NoEnclave\nok\n".as_slice()
    };
    ended == Ending::Finished && writer.get_ref().as_slice().starts_with(front)
}

#[test]
fn a_session_is_held_over_memory(rt: HostRuntime) {
    assert!(rt; talks(rt.alloc(), false));
    assert!(rt; talks(rt.alloc(), true));
}
