//! Lines that end where one of them says so.

ghost use Rattle.std.specs.Prelude.{◌≤◌};

use std::io::{self, ErrorKind, Read};

/// The line behind which nothing is read, with its carriage return, if it has one.
const QUIT: &[u8] = b"quit\r";

/// How many bytes of it a line without a carriage return has.
const WITHOUT_RETURN: usize = 4;

/// A line that may yet become [`QUIT`] is tried again at most so often: each time it has more bytes.
const MOST_TRIES: usize = 8;

/// What a reader gives up to a line `quit`, which is its end, too.
///
/// What may be the front of such a line is held back until more of it is there: nobody is answered in the midst of a
/// line. Pieces are else as the reader gives them. It has to be asked for more than five bytes at once.
#[derive(Drop)]
pub(crate) struct Quitting<R: Read + Drop> {
    reader: R,
    /// How many bytes of [`QUIT`] are held back.
    held: usize,
    /// Whether a line begins with what comes next, or with what is held back.
    is_new_line: bool,
    has_quit: bool,
    /// A read that failed while something was held back, which is told behind that.
    failed: Option<io::Error>,
}

/// Whether a line says that nothing is read behind it.
fn quits(line: &[u8]) -> bool {
    line == &QUIT[..WITHOUT_RETURN] || line == QUIT
}

impl<R: Read + Drop> Quitting<R> {
    /// A reader of which nothing was read.
    pub(crate) fn new(reader: R) -> Quitting<R> {
        Quitting {
            reader,
            held: 0,
            is_new_line: true,
            has_quit: false,
            failed: None,
        }
    }

    /// How many bytes of a piece go on: those up to a line that quits, or that may.
    fn passed(&mut self, piece: &[u8]) -> usize {
        let mut start = 0;
        if !self.is_new_line {
            match piece.iter().position(|byte| *byte == b'\n') {
                Some(end) => start = end + 1,
                None => return piece.len(),
            }
        }
        self.is_new_line = true;
        for line in piece[start..].split(|byte| *byte == b'\n') {
            let end = start.saturating_add(line.len());
            if end >= piece.len() {
                // The last line is not whole.
                if QUIT.starts_with(line) {
                    self.held = line.len();
                    return start;
                }
                break;
            }
            if quits(line) {
                self.has_quit = true;
                return start;
            }
            start = end + 1;
        }
        self.is_new_line = false;
        piece.len()
    }

    /// So much is held back, and goes on, since no more comes now.
    fn let_go(&mut self, held: usize) {
        self.held = 0;
        if held > 0 {
            self.is_new_line = false;
        }
    }

    /// What is held back goes on at the reader's end, unless it quits.
    fn passed_at_end(&mut self, held: usize) -> usize
        ensures { result ≤ held }
    {
        if quits(&QUIT[..held.min(QUIT.len())]) {
            self.has_quit = true;
            return 0;
        }
        self.let_go(held);
        held
    }
}

impl<R: Read + Drop> Read for Quitting<R> {
    fn read(&mut self, buf: &mut [u8]) -> io::Result<usize> {
        for _ in 0..MOST_TRIES {
            let held = self.held.min(QUIT.len());
            if self.has_quit || buf.is_empty() {
                return Ok(0);
            }
            if buf.len() <= held {
                return Err(io::Error::from(ErrorKind::InvalidInput));
            }
            if let Some(error) = self.failed.take() {
                return Err(error);
            }
            buf[..held].copy_from_slice(&QUIT[..held]);
            let count = match self.reader.read(&mut buf[held..]) {
                Ok(count) => count,
                Err(error) if held == 0 => return Err(error),
                Err(error) => {
                    self.failed = Some(error);
                    self.let_go(held);
                    return Ok(held);
                }
            };
            if count == 0 {
                return Ok(self.passed_at_end(held));
            }
            self.held = 0;
            let filled = held + count;
            // That it is no more than the piece is asked, so as not to be proved.
            let passed = self.passed(&buf[..filled]).min(filled);
            if passed > 0 {
                return Ok(passed);
            }
        }
        Ok(0)
    }
}
