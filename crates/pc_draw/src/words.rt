//! What is said in the picture of a script.

ghost use Rattle.std.specs.Prelude.{◌≡◌, ◌++◌, IfOk, Some, codes, decimal};
ghost use Rattle.pc_draw.specs.Pictures.{fault_text, given_text, script_title, xml_text};

use crate::part::DrawnPart;
use pc_pen::Count;
use pc_policy::PolicyName;
use pc_script::Outcome;
use std::alloc::{AllocError, Global};
use std::fmt;
use std::fmt::Write;

/// The line that is a fault: `fault line 12`.
#[derive(Clone, Copy)]
pub(crate) struct FaultLine(pub(crate) u64);

impl fmt::Display for FaultLine {
    ghost output = { λ fault. Some (codes "fault line " ++ decimal fault.0) };

    fn fmt<W: fmt::Write>(&self, f: &mut fmt::Formatter<W>) -> fmt::Result {
        let number = self.0;
        write!(f, "fault line {number}")
    }
}

/// What is said of how a script ended, behind the counts: nothing, or the line that is a fault.
#[derive(Clone, Copy)]
struct EndingWords(Outcome);

impl fmt::Display for EndingWords {
    ghost output = { λ ending. Some (fault_text ending.0) };

    fn fmt<W: fmt::Write>(&self, f: &mut fmt::Formatter<W>) -> fmt::Result {
        match self.0 {
            Outcome::Finished => f.write_str(""),
            Outcome::FaultLine(number) => {
                let fault = FaultLine(number);
                write!(f, ", {fault}")
            }
        }
    }
}

/// What is said of the policy, behind the counts: nothing, or which one was given.
#[derive(Clone, Copy)]
struct Given(Option<PolicyName>);

impl fmt::Display for Given {
    ghost output = { λ given. Some (given_text given.0) };

    fn fmt<W: fmt::Write>(&self, f: &mut fmt::Formatter<W>) -> fmt::Result {
        match self.0 {
            None => f.write_str(""),
            Some(policy) => write!(f, ", policy {policy}"),
        }
    }
}

/// What a picture says of its script: how many commands there are, how many were refused, the policy, and the fault.
#[derive(Clone, Copy)]
pub(crate) struct Summary {
    pub(crate) commands: usize,
    pub(crate) refused: usize,
    pub(crate) policy: Option<PolicyName>,
    pub(crate) outcome: Outcome,
}

impl fmt::Display for Summary {
    ghost output = { λ summary. Some (script_title summary.commands summary.refused summary.policy summary.outcome) };

    fn fmt<W: fmt::Write>(&self, f: &mut fmt::Formatter<W>) -> fmt::Result {
        let commands = self.commands;
        let refused = self.refused;
        let given = Given(self.policy);
        let ending = EndingWords(self.outcome);
        write!(f, "commands {commands}, refused {refused}{given}{ending}")
    }
}

/// A text as XML has it: what would be markup is told by its name.
fn xml_of(alloc: Global, text: &[u8]) -> Result<Vec<u8>, AllocError>
    ensures { IfOk result (λ made. made.items ≡ xml_text text.now) }
{
    let mut made = Vec::new(alloc);
    for byte in text {
        match *byte {
            b'&' => made.extend_from_slice(b"&amp;")?,
            b'<' => made.extend_from_slice(b"&lt;")?,
            b'>' => made.extend_from_slice(b"&gt;")?,
            other => made.push(other)?,
        }
    }
    Ok(made)
}

/// A summary, as a picture has it.
#[derive(Drop)]
pub(crate) struct Title {
    title: Vec<u8>,
    words: String,
}

impl Title {
    /// Of this summary. It stands apart, so that what writes the picture has no room for a policy on its stack.
    #[inline(never)]
    pub(crate) fn of(alloc: Global, summary: &Summary) -> Result<Title, AllocError>
        ensures { IfOk result (λ made. made.title.items ≡ xml_text
            (script_title summary.now.commands summary.now.refused summary.now.policy summary.now.outcome)) }
    {
        let words = summary.to_string(alloc)?;
        Ok(Title {
            title: xml_of(alloc, words.as_bytes())?,
            words,
        })
    }

    /// The title, as XML has it.
    pub(crate) fn title(&self) -> &[u8]
        ensures { result.now ≡ self.now.title.items }
    {
        self.title.as_slice()
    }

    /// The same in words.
    pub(crate) fn words(&self) -> &[u8] {
        self.words.as_bytes()
    }
}

/// Words of a mark: in the place of what would be markup stands what looks like it.
#[derive(Clone, Copy)]
pub(crate) struct Unmarked<'a>(pub(crate) &'a [u8]);

impl fmt::Display for Unmarked<'_> {
    fn fmt<W: fmt::Write>(&self, f: &mut fmt::Formatter<W>) -> fmt::Result {
        for byte in self.0 {
            match *byte {
                b'<' => f.write_str("\u{2039}")?,
                b'>' => f.write_str("\u{203a}")?,
                other => f.write_char(char::from(other))?,
            }
        }
        Ok(())
    }
}

/// The numbers from one to another of what has this unit: `line 12`, `ticks 100 to 300`, `CPUs 3 to 7`.
#[derive(Clone, Copy)]
pub(crate) struct Stretch {
    unit: &'static str,
    pub(crate) first: u64,
    last: u64,
}

impl Stretch {
    /// Lines of the script.
    pub(crate) fn lines(first: u32, last: u32) -> Stretch {
        Stretch {
            unit: "line",
            first: u64::from(first),
            last: u64::from(last),
        }
    }

    /// Ticks.
    pub(crate) fn ticks(first: u64, last: u64) -> Stretch {
        Stretch {
            unit: "tick",
            first,
            last,
        }
    }

    /// CPUs.
    fn cpus(first: u32, last: u32) -> Stretch {
        Stretch {
            unit: "CPU",
            first: u64::from(first),
            last: u64::from(last),
        }
    }

    /// A CPU alone.
    pub(crate) fn of_cpu(cpu: u32) -> Stretch {
        Stretch::cpus(cpu, cpu)
    }
}

impl fmt::Display for Stretch {
    fn fmt<W: fmt::Write>(&self, f: &mut fmt::Formatter<W>) -> fmt::Result {
        let unit = self.unit;
        let first = self.first;
        let last = self.last;
        if first == last {
            write!(f, "{unit} {first}")
        } else {
            write!(f, "{unit}s {first} to {last}")
        }
    }
}

/// Over what a bar goes: lines, and on an axis of ticks these too, as `lines 12 to 20, ticks 100 to 300`.
#[derive(Clone, Copy)]
pub(crate) struct Extent {
    pub(crate) lines: Stretch,
    pub(crate) ticks: Option<Stretch>,
}

impl fmt::Display for Extent {
    fn fmt<W: fmt::Write>(&self, f: &mut fmt::Formatter<W>) -> fmt::Result {
        let lines = self.lines;
        match self.ticks {
            None => write!(f, "{lines}"),
            Some(ticks) => write!(f, "{lines}, {ticks}"),
        }
    }
}

/// Which part is drawn, where it is not all: `CPUs 3 to 7, lines 12 to 20`.
#[derive(Clone, Copy)]
pub(crate) struct Of(pub(crate) DrawnPart);

impl fmt::Display for Of {
    fn fmt<W: fmt::Write>(&self, f: &mut fmt::Formatter<W>) -> fmt::Result {
        let mut before = "";
        if let Some(numbers) = self.0.cpus {
            let cpus = Stretch::cpus(numbers.first, numbers.last);
            write!(f, "{cpus}")?;
            before = ", ";
        }
        if let Some(numbers) = self.0.lines {
            let lines = Stretch::lines(numbers.first, numbers.last);
            write!(f, "{before}{lines}")?;
        }
        Ok(())
    }
}

/// So many threads that wait: `1 ready thread waits`, `2 ready threads wait`.
#[derive(Clone, Copy)]
pub(crate) struct Waiting(pub(crate) u32);

impl fmt::Display for Waiting {
    fn fmt<W: fmt::Write>(&self, f: &mut fmt::Formatter<W>) -> fmt::Result {
        let threads = Count(u64::from(self.0), "ready thread");
        let verb = if self.0 == 1 { "waits" } else { "wait" };
        write!(f, "{threads} {verb}")
    }
}
