//! What the program met, and what it says of it beside the line that names it.

use pc_program::{Ending, Failure, Interval, Missing};
use std::fmt::{self, Display, Formatter, Write};
use std::io::{self, ErrorKind};

/// How the program ends, and what the system said of the file or stream that failed.
#[derive(Drop)]
pub(crate) struct Met {
    pub(crate) ending: Ending,
    pub(crate) said: Said,
    /// Where a write failed, if one did.
    sink: Sink,
}

/// What the system said of a file or a stream that failed, if anything.
#[derive(Clone, Copy)]
pub(crate) struct Said(pub(crate) Option<io::Error>);

/// Where the text comes from that the program reads: a file of this name, or the standard input.
#[derive(Drop)]
pub(crate) struct Source(pub(crate) Option<String>);

/// Where what was made is written: a file of this name, or the standard output.
#[derive(Drop)]
struct Sink(Option<String>);

impl Display for Said {
    fn fmt<W: Write>(&self, f: &mut Formatter<W>) -> fmt::Result {
        match &self.0 {
            Some(error) => write!(f, "{error}"),
            None => f.write_str("it failed"),
        }
    }
}

/// Numbers, as the words of the command line have them.
#[derive(Clone, Copy)]
struct Numbers(Interval);

/// What a script has where it has nothing of what is asked for.
#[derive(Clone, Copy)]
struct There(Missing);

impl Display for Numbers {
    fn fmt<W: Write>(&self, f: &mut Formatter<W>) -> fmt::Result {
        let Interval { first, last } = self.0;
        if first == last {
            write!(f, "{first}")
        } else {
            write!(f, "{first}-{last}")
        }
    }
}

impl Display for There {
    fn fmt<W: Write>(&self, f: &mut Formatter<W>) -> fmt::Result {
        match self.0 {
            Missing::Cpus { count: 0, .. } => f.write_str("no CPUs"),
            Missing::Cpus { count: 1, .. } => f.write_str("CPU 0 alone"),
            Missing::Cpus { count, .. } => write!(f, "CPUs 0 to {}", count.saturating_sub(1)),
            Missing::Lines { count: 0, .. } => f.write_str("no lines"),
            Missing::Lines { count: 1, .. } => f.write_str("line 1 alone"),
            Missing::Lines { count, .. } => write!(f, "lines 1 to {count}"),
        }
    }
}

/// Says on standard error what the script has where it has nothing of what is asked for.
pub(crate) fn say_missing(rt: &HostRuntime, missing: Missing) {
    let (flag, asked) = match missing {
        Missing::Cpus { asked, .. } => ("--cpus", Numbers(asked)),
        Missing::Lines { asked, .. } => ("--lines", Numbers(asked)),
    };
    let there = There(missing);
    // Nothing can be said of an error on standard error itself.
    let _ = eprintln!(rt;
        "pc-sim: {flag} {asked}: the script has {there}; pc-sim draw --help tells more"
    );
}

/// Tells the file of this name, or else the stream.
fn tell<W: Write>(name: &Option<String>, stream: &str, f: &mut Formatter<W>) -> fmt::Result {
    match name {
        // In quotes, so that the name of a file makes no second line and moves no cursor.
        Some(name) => write!(f, "{name:?}"),
        None => f.write_str(stream),
    }
}

impl Display for Source {
    fn fmt<W: Write>(&self, f: &mut Formatter<W>) -> fmt::Result {
        tell(&self.0, "the standard input", f)
    }
}

impl Display for Sink {
    fn fmt<W: Write>(&self, f: &mut Formatter<W>) -> fmt::Result {
        tell(&self.0, "the standard output", f)?;
        match self.0 {
            Some(_) => f.write_str(", which was to be written"),
            None => Ok(()),
        }
    }
}

impl Met {
    /// It ends so, and the system said nothing.
    pub(crate) fn ended(ending: Ending) -> Met {
        Met::of(ending, None)
    }

    /// It ends so, and the system said that of the text or of the standard output.
    pub(crate) fn of(ending: Ending, said: Option<io::Error>) -> Met {
        Met {
            ending,
            said: Said(said),
            sink: Sink(None),
        }
    }

    /// It ends so, and the system said that of the file of this name, into which it was to write.
    pub(crate) fn of_file(ending: Ending, said: io::Error, name: String) -> Met {
        Met {
            ending,
            said: Said(Some(said)),
            sink: Sink(Some(name)),
        }
    }

    /// The file of this name could not be made, since of this.
    pub(crate) fn unmade(error: io::Error, name: String) -> Met {
        Met::of_file(Ending::CannotRead(Failure::Write), error, name)
    }

    /// A file could not be opened, since of this.
    pub(crate) fn unopened(error: io::Error) -> Met {
        Met::of(Ending::CannotRead(Failure::Read), Some(error))
    }

    /// Whether nothing reads any more what goes to the standard output.
    pub(crate) fn is_unheard(&self) -> bool {
        match (self.ending, self.said.0, &self.sink.0) {
            (Ending::CannotRead(Failure::Write), Some(error), None) => {
                error.kind() == ErrorKind::BrokenPipe
            }
            _ => false,
        }
    }

    /// What was asked for could not be written, since of this.
    pub(crate) fn unwritten(error: io::Error) -> Met {
        Met::of(Ending::CannotRead(Failure::Write), Some(error))
    }
}

/// Says on standard error of what file or stream it was that reading or writing failed, and why. Nothing can be said of
/// an error on standard error itself.
pub(crate) fn say_failure(
    rt: &HostRuntime,
    failure: Failure,
    met: &Met,
    source: &Source,
    most: usize,
) {
    let said = met.said;
    let sink = &met.sink;
    let _ = match failure {
        Failure::Read => eprintln!(rt; "pc-sim: {source}: {said}"),
        Failure::TooLong => eprintln!(rt; "pc-sim: {source}: it has more than {most} bytes"),
        Failure::NotUtf8 => eprintln!(rt; "pc-sim: {source}: it is no UTF-8"),
        Failure::Write => eprintln!(rt; "pc-sim: {sink}: {said}"),
    };
}
