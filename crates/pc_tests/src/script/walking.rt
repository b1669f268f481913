//! What an observer is told of the lines of a script, in which order, and what ends the walk over them.

use super::{FINISHED, NO_MEMORY, TOO_LONG, UNREAD, UNWRITTEN};
use crate::rows::{Row, each_holds};
use pc_calls::{Event, Profile, Reply};
use pc_messages::Cpu;
use pc_script::{
    Command, Line, MOST_BYTES, Machine, Observer, Outcome, Response, ScriptFault, Version, walk,
};
use std::alloc::{AllocError, Global};
use std::io::Write;

/// Answers how many commands it took so far; for `crash 9` it finds no memory.
#[derive(Drop)]
struct Counting {
    profile: Profile,
    taken: u32,
}

/// The command for which no memory is found.
const LACKING: Command = Command::Event(Event::Crash { cpu: Cpu(9) });

impl Machine for Counting {
    ghost use Rattle.std.specs.Prelude.{◌≡◌, length, refl};

    ghost IsRun = { λ _ commands responses. length commands ≡ length responses };

    ghost StandsAfter = { λ _ _ commands responses. length commands ≡ length responses };

    ghost RanOut = { λ _ commands responses _. length commands ≡ length responses };

    fn start(alloc: Global, profile: Profile) -> Self {
        Counting { profile, taken: 0 }
    }

    fn answer(&mut self, command: &Command, response: &mut Response) -> Result<(), AllocError> {
        if *command == LACKING {
            return Err(AllocError);
        }
        self.taken = self.taken.saturating_add(1);
        *response = Response::Event(Reply::Consumed { items: self.taken });
        Ok(())
    }

    ghost is_run_after = { λ _ _ _ _ h. h };
}

/// Notes what it is told, a line for each notice, and gives up at one of them.
#[derive(Drop)]
struct Notes {
    text: Vec<u8>,
    /// The command that it was told last to expect.
    expected: Option<Command>,
    /// How many lines it is told of before the one at which it gives up, and by which fault.
    left: u32,
    fault: ScriptFault,
}

/// A word, two numbers and what follows them, as a line.
fn add_line(
    text: &mut Vec<u8>,
    word: &[u8],
    number: u64,
    count: u32,
    rest: &[u8],
) -> Result<(), AllocError> {
    text.extend_from_slice(word)?;
    for value in [number, count as u64] {
        text.push(b' ')?;
        text.push(digit(value))?;
    }
    text.push(b' ')?;
    text.extend_from_slice(rest)?;
    text.push(b'\n')?;
    Ok(())
}

/// The digit of a number below 10.
fn digit(value: u64) -> u8 {
    match u8::try_from(value) {
        Ok(small) if small < 10 => b'0' + small,
        _ => b'?',
    }
}

/// What was answered, if it is a count.
fn count_in(response: &Response) -> u32 {
    match response {
        Response::Event(Reply::Consumed { items }) => *items,
        _ => u32::MAX,
    }
}

fn name_of(profile: Profile) -> &'static [u8] {
    match profile {
        Profile::One => b"one",
        Profile::Two => b"two",
    }
}

fn number_of(version: Version) -> u32 {
    match version {
        Version::One => 1,
        Version::Two => 2,
        Version::Three => 3,
    }
}

impl Notes {
    /// Notes a line, and gives up where none are left.
    fn note(&mut self, word: &[u8], line: Line<'_>, count: u32) -> Result<(), ScriptFault> {
        let _ = add_line(&mut self.text, word, line.number, count, line.text);
        match self.left.checked_sub(1) {
            Some(left) => {
                self.left = left;
                Ok(())
            }
            None => Err(self.fault),
        }
    }

    /// The word for a command that was answered, by whether it is the one that was told last.
    fn word_for(&self, command: &Command) -> &'static [u8] {
        if self.expected == Some(*command) {
            b"answered"
        } else {
            b"unexpected"
        }
    }
}

impl<W: Write> Observer<Counting, W> for Notes {
    ghost use Rattle.std.specs.Prelude.{◌≡◌, refl, true};

    ghost Tells = { λ _ _ _ _ _. true ≡ true };

    ghost MayFail = { λ _. true ≡ true };

    ghost HoldsNothing = { λ _. true ≡ true };

    fn version_named(
        &mut self,
        line: Line<'_>,
        version: Version,
        writer: &mut W,
    ) -> Result<(), ScriptFault> {
        self.note(b"version", line, number_of(version))
    }

    fn expect(&mut self, command: &Command, machine: &Counting) {
        self.expected = Some(*command);
        let _ = add_line(
            &mut self.text,
            b"expect",
            0,
            machine.taken,
            name_of(machine.profile),
        );
    }

    fn answered(
        &mut self,
        line: Line<'_>,
        command: &Command,
        response: &mut Response,
        machine: &Counting,
        writer: &mut W,
    ) -> Result<(), ScriptFault> {
        let word = self.word_for(command);
        self.expected = None;
        self.note(word, line, count_in(response))
    }

    fn faulted(&mut self, line: Line<'_>, writer: &mut W) -> Result<(), ScriptFault> {
        self.note(b"fault", line, 0)
    }

    fn passed_over(&mut self, number: u64, writer: &mut W) -> Result<(), ScriptFault> {
        self.note(b"long", Line { number, text: b"" }, 0)
    }

    fn settle(&mut self, writer: &mut W) -> Result<(), ScriptFault> {
        Ok(())
    }

    ghost tells_nothing = { λ _ _. refl };

    ghost tells_more = { λ _ _ _ _ _ _ _ _ _ _. refl };

    ghost tells_kept = { λ _ _ _ _ _ _ _ _. refl };
}

// Without contracts, as the functions below, so that a test's proof does not carry those of scripts.
fn walked(
    alloc: Global,
    script: &[u8],
    notes: &mut Notes,
    writer: &mut Vec<u8>,
) -> Result<Outcome, ScriptFault> {
    if script.len() > MOST_BYTES {
        return Err(ScriptFault::TooLong);
    }
    walk::<Counting, Notes, Vec<u8>>(alloc, script, notes, writer)
}

/// A script, what the observer notes of it, and how the walk ends.
type Walked = (&'static [u8], &'static [u8], Result<Outcome, ScriptFault>);

/// How many lines an observer is told of before the one at which it gives up, by which fault, and the walk.
type GivenUp = (u32, ScriptFault, Walked);

/// Whether an observer with this patience notes that, the walk ends so, and nothing is written.
fn is_walked(alloc: Global, left: u32, fault: ScriptFault, row: &Walked) -> bool {
    let mut notes = Notes {
        text: Vec::new(alloc),
        expected: None,
        left,
        fault,
    };
    let mut writer: Vec<u8> = Vec::new(alloc);
    walked(alloc, row.0, &mut notes, &mut writer) == row.2
        && notes.text.as_slice() == row.1
        && writer.is_empty()
}

impl Row for Walked {
    fn holds(&self, alloc: Global) -> bool {
        is_walked(alloc, u32::MAX, ScriptFault::Write, self)
    }
}

impl Row for GivenUp {
    fn holds(&self, alloc: Global) -> bool {
        is_walked(alloc, self.0, self.1, &self.2)
    }
}

const FAULT_AT_1: Result<Outcome, ScriptFault> = Ok(Outcome::FaultLine(1));

const FAULT_AT_3: Result<Outcome, ScriptFault> = Ok(Outcome::FaultLine(3));

// A line is told of after its command was expected and answered, with its number and its text as it stands. Nothing is
// told after a fault, or want of memory.
static IN_ORDER: [Walked; 9] = [
    (b"\n# none\n  \n#tick 0\n\r\n", b"", FINISHED),
    (
        b"# a\ntick 0\n\n  tick   1 \r\n#\nstatus t0",
        b"expect 0 0 one\nanswered 2 1 tick 0\nexpect 0 1 one\n\
answered 4 2   tick   1 \nexpect 0 2 one\nanswered 6 3 status t0\n",
        FINISHED,
    ),
    (
        b"# one\n\n tick 18446744073709551615\r\n",
        b"fault 3 0  tick 18446744073709551615\n",
        FAULT_AT_3,
    ),
    (
        b"tick 0\n\nwalk\ntick 1\nwalk\n",
        b"expect 0 0 one\nanswered 1 1 tick 0\nfault 3 0 walk\n",
        FAULT_AT_3,
    ),
    (
        b"tick 0\ncrash 9\ntick 1",
        b"expect 0 0 one\nanswered 1 1 tick 0\nexpect 0 1 one\n",
        NO_MEMORY,
    ),
    (
        b"version 2\ncrash 9\nwalk",
        b"version 1 2 version 2\nexpect 0 0 two\n",
        NO_MEMORY,
    ),
    (
        b"#x\n\n version  3 \r\npolicy fifo",
        b"version 3 3  version  3 \nexpect 0 0 two\nanswered 4 1 policy fifo\n",
        FINISHED,
    ),
    (
        b"version 2\n\nversion 2\ntick 0",
        b"version 1 2 version 2\nfault 3 0 version 2\n",
        FAULT_AT_3,
    ),
    (
        b"version 2 2\ntick 0",
        b"fault 1 0 version 2 2\n",
        FAULT_AT_1,
    ),
];

#[test]
fn each_line_that_has_a_reply_is_told_of_in_its_order(rt: HostRuntime) {
    each_holds(&rt, rt.alloc(), &IN_ORDER);
}

#[test]
fn an_observer_that_gives_up_ends_the_walk(rt: HostRuntime) {
    static ROWS: [GivenUp; 6] = [
        (0, ScriptFault::Write, (b"# x\n\n", b"", FINISHED)),
        (
            1,
            ScriptFault::TooLong,
            (
                b"tick 0\n\ntick 1\ntick 2",
                b"expect 0 0 one\nanswered 1 1 tick 0\nexpect 0 1 one\nanswered 3 2 tick 1\n",
                TOO_LONG,
            ),
        ),
        (
            2,
            ScriptFault::TooLong,
            (
                b"tick 0\ntick 1",
                b"expect 0 0 one\nanswered 1 1 tick 0\nexpect 0 1 one\nanswered 2 2 tick 1\n",
                FINISHED,
            ),
        ),
        (
            0,
            ScriptFault::Read,
            (b"version 2\ntick 0", b"version 1 2 version 2\n", UNREAD),
        ),
        (
            0,
            ScriptFault::Write,
            (b"walk\ntick 0", b"fault 1 0 walk\n", UNWRITTEN),
        ),
        (
            0,
            ScriptFault::Write,
            (b"crash 9\ntick 0", b"expect 0 0 one\n", NO_MEMORY),
        ),
    ];
    each_holds(&rt, rt.alloc(), &ROWS);
}
