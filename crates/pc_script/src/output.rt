//! The output of a script: replies wait here until there are enough of them for a write.
//!
//! A script has a reply for most of its lines, and what is done for each of them counts. So a reply is put behind those
//! that wait, in room that is made once for all, and what the writer answers is looked at once for many of them.

ghost use Rattle.std.specs.Prelude.{◌≡◌, ◌≤◌, ◌+◌, ◌++◌, [], ◌∷◌, IsTrue, decimal, length};
ghost use Rattle.pc_script.specs.declared.output.TheConstants.{MOST_WAITING};
ghost use Rattle.std.specs.Io.KnownBytes.{Appends};
ghost use Rattle.pc_script.specs.Responses.{numbers_text, response_text, shown_text, text_line};
ghost use Rattle.pc_script.specs.Scripts.{outcome_text};
ghost use Rattle.pc_script.specs.declared.outcome.Outcome.{Outcome};
ghost use Rattle.pc_script.specs.declared.response.Response.{Response};

use crate::lists::{ShownThread, ShownThreads};
use crate::response::Response;
use crate::short::{write_line, write_row};
use crate::text::{LineEnd, ROOM, put_line};
use std::io::Write;

/// At most so many bytes wait.
const MOST_WAITING: usize = 1 << 14;

/// Replies that wait to be written.
#[derive(Drop)]
struct Waiting {
    bytes: [u8; MOST_WAITING],
    len: usize,
    ghost within: { len ≤ MOST_WAITING },
}

impl Waiting {
    ghost use Rattle.pc_script.specs.Inner.Outputs.{held, waiting};

    /// Writes what waits. Answers false where the write fails.
    ///
    /// This and `put_after_a_write` stand apart, so that no room for what a writer answers is made ready for
    /// every reply.
    #[inline(never)]
    fn write_out<W: Write>(&mut self, writer: &mut W) -> bool
        ensures empty { self.new.len ≡ 0 }
        ensures written { IsTrue result → Appends (W.contents writer.old) (W.contents writer.new) (waiting self.old) }
    {
        let is_written = writer.write_all(&self.bytes[..self.len]).is_ok();
        self.len = 0;
        is_written
    }

    /// Puts a text behind what waits, where there is room for it.
    #[inline(always)]
    fn append(&mut self, text: &[u8])
        requires room { self.old.len + length text.now ≤ MOST_WAITING }
        ensures { waiting self.new ≡ waiting self.old ++ text.now }
    {
        self.len = put_line(&mut self.bytes, self.len, text);
    }

    /// Puts a line's text behind what waits, and first writes what waits, where there is no room for both. Answers
    /// false where that fails.
    #[inline(always)]
    fn put<W: Write>(&mut self, text: &[u8], writer: &mut W) -> bool
        requires short { length text.now ≤ ROOM }
        ensures { IsTrue result
            → Appends (held (W.contents writer.old) self.old) (held (W.contents writer.new) self.new) text.now }
    {
        if text.len() <= MOST_WAITING - self.len {
            self.append(text);
            return true;
        }
        self.put_after_a_write(text, writer)
    }

    /// Fills the room up with the text's front, writes it, and puts the rest behind. Answers false where the write
    /// fails. A write for want of room so is of whole pages: a file system looks twice at one that two writes share.
    #[inline(never)]
    fn put_after_a_write<W: Write>(&mut self, text: &[u8], writer: &mut W) -> bool
        requires short { length text.now ≤ ROOM }
        requires full { MOST_WAITING ≤ self.old.len + length text.now }
        ensures { IsTrue result
            → Appends (held (W.contents writer.old) self.old) (held (W.contents writer.new) self.new) text.now }
    {
        let (front, rest) = text.split_at(MOST_WAITING - self.len);
        self.append(front);
        if !self.write_out(writer) {
            return false;
        }
        self.append(rest);
        true
    }
}

/// Replies that wait to be written, and room in which the next is made.
#[derive(Drop)]
pub(crate) struct Output {
    line: LineEnd,
    waiting: Waiting,
}

impl Output {
    ghost use Rattle.pc_script.specs.Inner.Outputs.{output_held, waiting};

    /// An output of which nothing waits.
    pub(crate) fn new() -> Output
        ensures { waiting result.waiting ≡ [] }
    {
        Output {
            line: LineEnd::new(),
            waiting: Waiting {
                bytes: [0; MOST_WAITING],
                len: 0,
            },
        }
    }

    /// Writes what waits. Answers false where the write fails.
    pub(crate) fn write_out<W: Write>(&mut self, writer: &mut W) -> bool
        ensures empty { self.new.waiting.len ≡ 0 }
        ensures written { IsTrue result
            → Appends (W.contents writer.old) (W.contents writer.new) (waiting self.old.waiting) }
    {
        self.waiting.write_out(writer)
    }

    /// Puts a response's text and a line feed behind what waits. Answers false where a write was needed, and failed.
    ///
    /// A view is let go of here, or it would still stand while the next one is made. No clause says so: it is a matter
    /// of memory.
    #[inline(always)]
    pub(crate) fn put<W: Write>(&mut self, response: &mut Response, writer: &mut W) -> bool
        ensures { IsTrue result
            → Appends (output_held (W.contents writer.old) self.old) (output_held (W.contents writer.new) self.new)
            (text_line (response_text response.old)) }
    {
        self.line.clear();
        match write_line(&mut self.line, response) {
            None => self.waiting.put(self.line.as_slice(), writer),
            Some(threads) => {
                let is_put = self.put_view(threads, writer);
                response.let_go();
                is_put
            }
        }
    }

    /// Puts behind what waits that the line with this number is a fault. Answers false where a write was needed, and
    /// failed.
    #[inline(never)]
    pub(crate) fn put_fault<W: Write>(&mut self, number: u64, writer: &mut W) -> bool
        ensures { IsTrue result
            → Appends (output_held (W.contents writer.old) self.old) (output_held (W.contents writer.new) self.new)
            (outcome_text (Outcome.FaultLine number)) }
    {
        self.line.clear();
        self.line.text(b"\n");
        self.line.number(number);
        self.line.text(b"fault line ");
        self.waiting.put(self.line.as_slice(), writer)
    }

    /// Puts a view's text, which may have any length, and a line feed behind what waits, row by row. Answers false
    /// where a write was needed, and failed.
    #[inline(never)]
    fn put_view<W: Write>(&mut self, threads: &ShownThreads, writer: &mut W) -> bool
        ensures { IsTrue result
            → Appends (output_held (W.contents writer.old) self.old) (output_held (W.contents writer.new) self.new)
            (text_line (response_text (Response.View threads.now))) }
    {
        for shown in threads.as_slice() {
            if !self.put_row(shown, writer) {
                return false;
            }
        }
        self.waiting.put(b"end\n", writer)
    }

    /// Puts what a view knows of a thread, and a line feed, behind what waits.
    fn put_row<W: Write>(&mut self, shown: &ShownThread, writer: &mut W) -> bool
        ensures { IsTrue result
            → Appends (output_held (W.contents writer.old) self.old) (output_held (W.contents writer.new) self.new)
            (text_line (shown_text shown.now)) }
    {
        self.line.clear();
        match shown.early.as_slice().split_first() {
            None => {
                self.line.text(b"-\n");
                write_row(&mut self.line, shown);
                self.waiting.put(self.line.as_slice(), writer)
            }
            Some((first, others)) => {
                write_row(&mut self.line, shown);
                self.waiting.put(self.line.as_slice(), writer)
                    && self.put_numbers(*first, others, writer)
            }
        }
    }

    /// Puts numbers with a space between them, and a line feed, behind what waits.
    fn put_numbers<W: Write>(&mut self, first: u32, others: &[u32], writer: &mut W) -> bool
        ensures { IsTrue result
            → Appends (output_held (W.contents writer.old) self.old) (output_held (W.contents writer.new) self.new)
            (text_line (numbers_text (first ∷ others.now))) }
    {
        if !self.put_number(b"", first, writer) {
            return false;
        }
        for number in others {
            if !self.put_number(b" ", *number, writer) {
                return false;
            }
        }
        self.waiting.put(b"\n", writer)
    }

    /// Puts a number behind a text behind what waits.
    fn put_number<W: Write>(&mut self, before: &[u8], number: u32, writer: &mut W) -> bool
        requires { length before.now ≤ 20 }
        ensures { IsTrue result
            → Appends (output_held (W.contents writer.old) self.old) (output_held (W.contents writer.new) self.new)
            (before.now ++ decimal number) }
    {
        self.line.clear();
        self.line.number(u64::from(number));
        self.line.text(before);
        self.waiting.put(self.line.as_slice(), writer)
    }
}
