//! Streams of the machine: those that keep why they failed, and the screen that a person reads.

ghost use Rattle.std.specs.Prelude.{◌≡◌, None};

use crate::met::Source;
use std::fs::File;
use std::io::{self, IsTerminal, Read, Stderr, Write};
use std::os::fd::{AsRawFd, IntoRawFd, RawFd};

/// What stands in the place of a standard stream that is closed.
const NOTHING: &str = "/dev/null";

/// Leaves a file open for good whose number is at most so much, and closes any other.
fn keep_up_to(most: RawFd, file: File) {
    if file.as_raw_fd() <= most {
        let _ = file.into_raw_fd();
    }
}

/// Puts the null device in the place of each standard stream that is closed. A file takes the least number that is
/// free, and what goes to that stream would be written into it. The device is opened for the other use alone, so that
/// the stream fails as a closed one does; where it cannot be opened, the streams stay as they are.
pub(crate) fn fill_closed(rt: &HostRuntime) {
    let Ok(file) = File::options().write(true).open(rt, NOTHING) else {
        return;
    };
    let errors = rt.stderr().as_raw_fd();
    if file.as_raw_fd() <= errors {
        keep_up_to(rt.stdin().as_raw_fd(), file);
        for _ in 0..errors {
            if let Ok(file) = File::open(rt, NOTHING) {
                keep_up_to(errors, file);
            }
        }
    }
}

/// Standard error, where a person reads it at a terminal.
pub(crate) fn screen_of(rt: &HostRuntime) -> Option<Stderr> {
    let stderr = rt.stderr();
    if stderr.is_terminal() {
        Some(stderr)
    } else {
        None
    }
}

/// A stream, and the last error that it met.
#[derive(Drop)]
pub(crate) struct Noted<S: Drop> {
    stream: S,
    fault: Option<io::Error>,
}

impl<S: Drop> Noted<S> {
    /// The stream, which has met none yet.
    pub(crate) fn new(stream: S) -> Noted<S> {
        Noted {
            stream,
            fault: None,
        }
    }

    /// The last error that the stream met.
    pub(crate) fn fault(&self) -> Option<io::Error> {
        self.fault
    }
}

/// The text of a file that is opened at its first read, or else of the standard input.
#[derive(Drop)]
pub(crate) struct Opening<'a> {
    rt: &'a HostRuntime,
    source: &'a Source,
    file: Option<File>,
}

impl<'a> Opening<'a> {
    /// The text that comes from there; nothing is opened yet.
    pub(crate) fn new(rt: &'a HostRuntime, source: &'a Source) -> Opening<'a> {
        Opening {
            rt,
            source,
            file: None,
        }
    }
}

impl Read for Opening<'_> {
    fn read(&mut self, buf: &mut [u8]) -> io::Result<usize> {
        let Some(name) = &self.source.0 else {
            return self.rt.stdin().read(buf);
        };
        if self.file.is_none() {
            self.file = Some(File::open(self.rt, name.as_str())?);
        }
        match &mut self.file {
            Some(file) => file.read(buf),
            None => Ok(0),
        }
    }
}

impl<S: Read + Drop> Read for Noted<S> {
    ghost remaining = { λ noted. S.remaining noted.stream };

    fn read(&mut self, buf: &mut [u8]) -> io::Result<usize> {
        match self.stream.read(buf) {
            Ok(count) => Ok(count),
            Err(error) => {
                self.fault = Some(error);
                Err(error)
            }
        }
    }
}

impl<S: Write + Drop> Write for Noted<S> {
    ghost contents = { λ noted. S.contents noted.stream };

    fn write(&mut self, buf: &[u8]) -> io::Result<usize> {
        match self.stream.write(buf) {
            Ok(count) => Ok(count),
            Err(error) => {
                self.fault = Some(error);
                Err(error)
            }
        }
    }

    fn flush(&mut self) -> io::Result<()> {
        match self.stream.flush() {
            Ok(()) => Ok(()),
            Err(error) => {
                self.fault = Some(error);
                Err(error)
            }
        }
    }
}
