//! Scripts over memory, with ample memory and a machine whose responses are fixed by the command; and what no clause
//! says of them: when is read, written and flushed, and who asks for help.

mod walking;

use crate::rows::{Row, each_holds, is_found_so, is_so};
use pc_calls::{EnvCall, Event, Profile, Refusal, Reply};
use pc_messages::Tid;
use pc_script::{
    Command, Conversed, EarlyNumbers, Helper, Machine, Outcome, Read as Question, Response,
    ScriptFault, ShownThread, ShownThreads, read_bytes, read_text, run_script, run_session,
};
use std::alloc::{AllocError, Global};
use std::io::{self, BufWriter, Error, ErrorKind, Read, Write};

/// Answers a wake by a refusal of 16 bytes with their line feed, and all else by `ok`. Of one CPU it finds no memory to
/// tell whether its agent sleeps.
#[derive(Drop)]
struct Echo;

impl Machine for Echo {
    ghost use Rattle.std.specs.Prelude.{◌≡◌, length};

    ghost IsRun = { λ _ commands responses. length commands ≡ length responses };

    ghost StandsAfter = { λ _ _ commands responses. length commands ≡ length responses };

    ghost RanOut = { λ _ commands responses _. length commands ≡ length responses };

    fn start(_alloc: Global, _profile: Profile) -> Self {
        Echo
    }

    fn answer(&mut self, command: &Command, response: &mut Response) -> Result<(), AllocError> {
        *response = match *command {
            Command::Event(Event::Env(EnvCall::Wake { thread })) => {
                Response::Event(Reply::Refused(Refusal::Stale(thread.index())))
            }
            Command::Read(Question::Asleep { cpu }) if cpu.index() == 63 => return Err(AllocError),
            _ => Response::Opened,
        };
        Ok(())
    }

    ghost is_run_after = { λ _ _ _ _ h. h };
}

// Without contracts, as the functions below, so that a test's proof does not carry those of scripts.
fn runs<R: Read, W: Write>(
    alloc: Global,
    reader: &mut R,
    writer: &mut W,
) -> Result<Outcome, ScriptFault> {
    run_script::<Echo, _, _>(alloc, reader, writer)
}

const FINISHED: Result<Outcome, ScriptFault> = Ok(Outcome::Finished);

const UNREAD: Result<Outcome, ScriptFault> = Err(ScriptFault::Read);

const TOO_LONG: Result<Outcome, ScriptFault> = Err(ScriptFault::TooLong);

const UNWRITTEN: Result<Outcome, ScriptFault> = Err(ScriptFault::Write);

const NO_MEMORY: Result<Outcome, ScriptFault> = Err(ScriptFault::OutOfMemory);

/// Gives so many line feeds, and then ends or fails. Counts the reads that gave none or failed, and those that came
/// after one of these.
#[derive(Drop)]
struct Feeds {
    left: usize,
    fails: bool,
    ended: u32,
    late: u32,
}

impl Read for Feeds {
    fn read(&mut self, buf: &mut [u8]) -> io::Result<usize> {
        if self.ended > 0 {
            self.late = self.late.saturating_add(1);
        }
        let count = buf.len().min(self.left);
        if count == 0 {
            self.ended = self.ended.saturating_add(1);
            if self.fails {
                return Err(Error::from(ErrorKind::Interrupted));
            }
        }
        for place in buf[..count].iter_mut() {
            *place = b'\n';
        }
        self.left -= count;
        Ok(count)
    }
}

const fn feeding(left: usize, fails: bool) -> Feeds {
    Feeds {
        left,
        fails,
        ended: 0,
        late: 0,
    }
}

/// How many line feeds a reader gives before it ends, or fails; how the script ends; how many reads gave none or
/// failed, and came after one of these; and how many line feeds the reader would give still.
type Fed = (usize, bool, Result<Outcome, ScriptFault>, (u32, u32), usize);

impl Row for Fed {
    fn holds(&self, alloc: Global) -> bool {
        let mut reader = feeding(self.0, self.1);
        let mut writer: Vec<u8> = Vec::new(alloc);
        let ended = runs(alloc, &mut reader, &mut writer);
        (ended, (reader.ended, reader.late), reader.left) == (self.2, self.3, self.4)
    }
}

// Of a text that is too long one byte past the greatest length is read.
#[test]
fn nothing_is_read_after_the_end_a_failed_read_or_the_greatest_length(rt: HostRuntime) {
    static ROWS: [Fed; 6] = [
        (0, false, FINISHED, (1, 0), 0),
        (0, true, UNREAD, (1, 0), 0),
        (200_000, false, FINISHED, (1, 0), 0),
        (200_000, true, UNREAD, (1, 0), 0),
        (16_777_216, false, FINISHED, (1, 0), 0),
        (16_777_300, true, TOO_LONG, (0, 0), 83),
    ];
    each_holds(&rt, rt.alloc(), &ROWS);
}

fn length_up_to(alloc: Global, reader: &mut Feeds, most: usize) -> Result<usize, ScriptFault> {
    Ok(read_bytes(alloc, reader, most)?.len())
}

fn length_of(alloc: Global, reader: &mut Feeds) -> Result<usize, ScriptFault> {
    Ok(read_text(alloc, reader)?.len())
}

fn are_read(alloc: Global) -> bool {
    length_up_to(alloc, &mut feeding(20_000, false), 20_000) == Ok(20_000)
        && length_up_to(alloc, &mut feeding(5, true), 5) == Err(ScriptFault::Read)
        && length_of(alloc, &mut feeding(20_000, false)) == Ok(20_000)
}

#[test]
fn texts_are_read(rt: HostRuntime) {
    is_so(&rt, are_read(rt.alloc()));
}

/// Takes all that it is given, and counts how often; fails at one of the writes.
#[derive(Drop)]
struct Writes {
    count: u32,
    fails_at: u32,
    taken: usize,
}

impl Write for Writes {
    fn write(&mut self, buf: &[u8]) -> io::Result<usize> {
        self.count = self.count.saturating_add(1);
        if self.count == self.fails_at {
            return Err(Error::from(ErrorKind::BrokenPipe));
        }
        self.taken = self.taken.saturating_add(buf.len());
        Ok(buf.len())
    }

    fn flush(&mut self) -> io::Result<()> {
        Ok(())
    }
}

/// So many wakes, and this line.
fn wakes(alloc: Global, times: u32, last: &[u8]) -> Result<Vec<u8>, AllocError> {
    let mut whole = Vec::new(alloc);
    for _ in 0..times {
        whole.extend_from_slice(b"wake t1\n")?;
    }
    whole.extend_from_slice(last)?;
    Ok(whole)
}

/// How many wakes there are, the line behind them, the write that fails, how the script ends, how many writes there
/// are, and the bytes that are taken.
type Written = (
    u32,
    &'static [u8],
    u32,
    Result<Outcome, ScriptFault>,
    u32,
    usize,
);

fn written(
    alloc: Global,
    script: &[u8],
    fails_at: u32,
) -> (Result<Outcome, ScriptFault>, u32, usize) {
    let mut reader = script;
    let mut writer = Writes {
        count: 0,
        fails_at,
        taken: 0,
    };
    let ended = runs(alloc, &mut reader, &mut writer);
    (ended, writer.count, writer.taken)
}

impl Row for Written {
    fn holds(&self, alloc: Global) -> bool {
        match wakes(alloc, self.0, self.1) {
            Ok(script) => written(alloc, script.as_slice(), self.2) == (self.3, self.4, self.5),
            Err(_) => false,
        }
    }
}

/// The line at which no memory is found.
const LACKING: &[u8] = b"asleep 63\nwake t1\n";

// Replies wait until there are 16,384 bytes of them, or memory runs out.
#[test]
fn many_replies_are_one_write_and_none_follows_one_that_failed(rt: HostRuntime) {
    static ROWS: [Written; 12] = [
        (0, b"", 0, FINISHED, 0, 0),
        (1, b"", 0, FINISHED, 1, 16),
        (1024, b"", 0, FINISHED, 1, 16_384),
        (1025, b"", 0, FINISHED, 2, 16_400),
        (1024, b"x", 0, Ok(Outcome::FaultLine(1025)), 2, 16_400),
        (3072, b"", 0, FINISHED, 3, 49_152),
        (3072, b"", 1, UNWRITTEN, 1, 0),
        (3072, b"", 2, UNWRITTEN, 2, 16_384),
        (3072, b"", 3, UNWRITTEN, 3, 32_768),
        (0, LACKING, 0, NO_MEMORY, 0, 0),
        (1, LACKING, 0, NO_MEMORY, 1, 16),
        (1025, LACKING, 0, NO_MEMORY, 2, 16_400),
    ];
    each_holds(&rt, rt.alloc(), &ROWS);
}

/// A thread of which the second message alone is known.
fn shown(alloc: Global) -> Result<ShownThreads, AllocError> {
    let mut early = EarlyNumbers::new(alloc);
    early.push(2)?;
    let mut threads = ShownThreads::new(alloc);
    threads.push(ShownThread {
        thread: Tid(12),
        upto: 0,
        reported: None,
        early,
    })?;
    Ok(threads)
}

fn is_written(alloc: Global, response: Response, text: &[u8]) -> bool {
    let mut writer: Vec<u8> = Vec::new(alloc);
    response.write_to(&mut writer).is_ok() && writer.as_slice() == text
}

fn are_written(alloc: Global) -> Result<bool, AllocError> {
    let view = Response::View(shown(alloc)?);
    Ok(
        is_written(alloc, view, b"t12 upto 0 - early 2\nend\n")
            && is_written(alloc, Response::Opened, b"ok\n"),
    )
}

#[test]
fn responses_are_written(rt: HostRuntime) {
    is_found_so(&rt, are_written(rt.alloc()));
}

/// Gives a text in pieces of so many bytes; at the end it fails, if it is to.
#[derive(Drop)]
struct Pieces {
    text: &'static [u8],
    size: usize,
    fails: bool,
}

impl Read for Pieces {
    fn read(&mut self, buf: &mut [u8]) -> io::Result<usize> {
        if self.text.is_empty() && self.fails {
            return Err(Error::from(ErrorKind::Interrupted));
        }
        let count = buf.len().min(self.text.len()).min(self.size);
        buf[..count].copy_from_slice(&self.text[..count]);
        self.text = &self.text[count..];
        Ok(count)
    }
}

/// Keeps how much was written, and how much of it there was at each flush.
#[derive(Drop)]
struct Flushes {
    count: usize,
    at: Vec<usize>,
}

impl Write for Flushes {
    fn write(&mut self, buf: &[u8]) -> io::Result<usize> {
        self.count = self.count.saturating_add(buf.len());
        Ok(buf.len())
    }

    fn flush(&mut self) -> io::Result<()> {
        self.at.push(self.count)?;
        Ok(())
    }
}

/// Counts how often help is asked for, and how often a first fault is told.
#[derive(Drop)]
struct Counts {
    asked: u32,
    faults: u32,
}

impl Helper for Counts {
    fn help(&mut self) {
        self.asked = self.asked.saturating_add(1);
    }

    fn first_fault(&mut self, _number: u64, _line: &[u8]) {
        self.faults = self.faults.saturating_add(1);
    }
}

/// A text, the size of its pieces, and whether a read fails behind it; whether there is a fault in it and it is read to
/// its end, how often help is asked for, and how much is written at each flush.
type Talk = (
    &'static [u8],
    usize,
    bool,
    (bool, bool),
    u32,
    &'static [usize],
);

fn talks(alloc: Global, talk: &Talk) -> io::Result<bool> {
    let (text, size, fails, (had_fault, is_whole), asked, at) = *talk;
    let mut reader = Pieces { text, size, fails };
    let mut helper = Counts {
        asked: 0,
        faults: 0,
    };
    let sink = Flushes {
        count: 0,
        at: Vec::new(alloc),
    };
    let mut writer = BufWriter::new(alloc, sink)?;
    let ended = run_session::<Echo, _, _, _>(alloc, &mut reader, &mut helper, &mut writer);
    let wanted = Conversed {
        had_fault,
        is_whole,
    };
    let is_helped = helper.asked == asked && helper.faults == u32::from(had_fault);
    Ok(ended == Ok(wanted) && is_helped && writer.get_ref().at.as_slice() == at)
}

impl Row for Talk {
    fn holds(&self, alloc: Global) -> bool {
        matches!(talks(alloc, self), Ok(true))
    }
}

const THREE: &[u8] = b"wake t1\nwake t2\nwake t3\n";

// A line is answered as soon as its line feed was read. What is left before a read that fails is the last line.
#[test]
fn answers_are_flushed_before_each_read_and_at_no_other_time(rt: HostRuntime) {
    static ROWS: [Talk; 9] = [
        (THREE, 1_000, false, (false, true), 0, &[0, 48, 48]),
        (THREE, 8, false, (false, true), 0, &[0, 16, 32, 48, 48]),
        (THREE, 12, false, (false, true), 0, &[0, 16, 48, 48]),
        (b"wake t1", 4, false, (false, true), 0, &[0, 0, 0, 16]),
        (b"", 5, true, (false, false), 0, &[0, 0]),
        (
            b"wake t1\nwake t2",
            9,
            true,
            (false, false),
            0,
            &[0, 16, 16, 32],
        ),
        (b"walk\nwa", 5, true, (true, false), 0, &[0, 13, 13, 26]),
        (b"?", 4, false, (false, true), 1, &[0, 0, 0]),
        (
            b"?\nhelp\r\n??\n? \n",
            99,
            false,
            (true, true),
            2,
            &[0, 26, 26],
        ),
    ];
    each_holds(&rt, rt.alloc(), &ROWS);
}
