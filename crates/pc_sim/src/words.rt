//! The words of the command line.
//!
//! They are read one by one, and not by `env::args`: what that calls stands in the program among the code that reads
//! settings, which no other command would have read in.

use std::alloc::{AllocError, Global};
use std::env::{Env, FillError};
use std::io::{self, ErrorKind};
use std::str;

/// The word in front that asks for help.
const HELP: &str = "help";

/// Few command lines have more words.
const USUAL_WORDS: usize = 16;

/// Few words have more bytes.
const USUAL_BYTES: usize = 256;

/// Why the words of the command line cannot be had.
#[derive(Clone, Copy, Debug)]
pub(crate) enum WordsFault {
    OutOfMemory,
    /// The word at this place behind the program's name is no UTF-8.
    NotUtf8(usize),
}

impl From<AllocError> for WordsFault {
    fn from(_error: AllocError) -> WordsFault {
        WordsFault::OutOfMemory
    }
}

/// The word of these bytes.
fn word_of(alloc: Global, bytes: &[u8]) -> io::Result<Option<String>> {
    match str::from_utf8(bytes) {
        Ok(word) => Ok(Some(String::from_str(alloc, word)?)),
        Err(_) => Err(io::Error::from(ErrorKind::InvalidData)),
    }
}

/// The word at this place, which is longer than most; none behind the last one.
fn long_word_at(rt: &HostRuntime, place: usize) -> io::Result<Option<String>> {
    let mut bytes = Vec::new(rt.alloc());
    let mut room = USUAL_BYTES;
    for _ in 0..usize::BITS {
        room = room.saturating_mul(2);
        bytes.resize(room, 0)?;
        match rt.arg(place, bytes.as_mut_slice()) {
            Ok(length) => {
                bytes.truncate(length);
                return word_of(rt.alloc(), bytes.as_slice());
            }
            Err(FillError::NotPresent) => return Ok(None),
            Err(FillError::TooLong) => {}
        }
    }
    Err(io::Error::from(ErrorKind::OutOfMemory))
}

/// The word at this place; none behind the last one.
fn word_at(rt: &HostRuntime, place: usize) -> io::Result<Option<String>> {
    let mut bytes = [0; USUAL_BYTES];
    match rt.arg(place, &mut bytes) {
        Ok(length) => word_of(rt.alloc(), &bytes[..length]),
        Err(FillError::NotPresent) => Ok(None),
        Err(FillError::TooLong) => long_word_at(rt, place),
    }
}

/// `help` in front asks for the help of the command behind it, as `--help` does behind that.
fn put_help_behind(alloc: Global, words: &mut Vec<String>) -> Result<(), AllocError> {
    if words.len() > 1 && words[1].as_str() == HELP {
        words[1] = String::from_str(alloc, "--help")?;
        if words.len() > 2 && words[2].as_str() != HELP {
            words.swap(1, 2);
        }
    }
    Ok(())
}

/// Puts a word behind the others.
fn put(words: &mut Vec<String>, word: String) -> Result<(), WordsFault> {
    match words.push(word) {
        Ok(()) => Ok(()),
        Err(_) => Err(WordsFault::OutOfMemory),
    }
}

/// The words of the command line, with the program's own name in front in place of its file's.
pub(crate) fn words_of(rt: &HostRuntime) -> Result<Vec<String>, WordsFault> {
    let mut words = Vec::with_capacity(rt.alloc(), USUAL_WORDS)?;
    put(&mut words, String::from_str(rt.alloc(), "pc-sim")?)?;
    for place in 1..usize::MAX {
        match word_at(rt, place) {
            Ok(Some(word)) => put(&mut words, word)?,
            Ok(None) => break,
            Err(error) if error.kind() == ErrorKind::OutOfMemory => {
                return Err(WordsFault::OutOfMemory);
            }
            Err(_) => return Err(WordsFault::NotUtf8(place)),
        }
    }
    put_help_behind(rt.alloc(), &mut words)?;
    Ok(words)
}
