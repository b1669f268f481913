//! What commands are answered.

ghost use Rattle.std.specs.Prelude.{OnOk};
ghost use Rattle.std.specs.Io.KnownBytes.{Appends};
ghost use Rattle.pc_script.specs.Responses.{response_text, text_line};
ghost use Rattle.pc_script.specs.declared.response.Response.{Response};

use crate::lists::ShownThreads;
use crate::short::write_line;
use crate::text::LineEnd;
use pc_calls::{LimitField, Refusal, Reply, Status};
use pc_messages::{Phase, Tid};
use pc_policy::PolicyName;
use std::io::{self, Write};

/// What a command is answered. Its text is one line, but for [`Response::View`].
#[derive(Debug, Drop)]
pub enum Response {
    /// `ok`: there is a kernel with the limits.
    Opened,
    /// `refused NoEnclave`: there is no kernel yet.
    NoEnclave,
    /// `refused HaveEnclave`: there is a kernel already.
    HaveEnclave,
    /// `refused BadLimits`, and the name of the first limit that is out of its range.
    BadLimits(LimitField),
    /// What the event is replied: `ok` and what there is to say, or `refused` and the refusal.
    Event(Reply),
    /// `T nN PHASE`, and ` cC` where the thread runs: the thread's status word, and its phase, which stands in front as
    /// what is short does in [`Reply`].
    Status {
        phase: Phase,
        thread: Tid,
        status: Status,
    },
    /// `yes` or `no`.
    Truth(bool),
    /// `equal` or `differ`.
    Sameness(bool),
    /// A line for each known thread, then `end`.
    View(ShownThreads),
    /// `refused`, and why the question has no answer, or the policy is not gone by.
    Refused(Refusal),
    /// `ok`: all agents go by the policy.
    Ruled(PolicyName),
}

impl Response {
    /// Lets go of what it holds. It stands apart, so that no room for a response is made ready where one is written.
    #[inline(never)]
    pub(crate) fn let_go(&mut self) {
        *self = Response::Opened;
    }

    /// Writes the response's text and a line feed: a view piece by piece, every other response at once.
    #[inline(always)]
    pub fn write_to<W: Write>(&self, writer: &mut W) -> io::Result<()>
        ensures { OnOk result
            (Appends (W.contents writer.old) (W.contents writer.new) (text_line (response_text self.now))) }
    {
        let mut line = LineEnd::new();
        match write_line(&mut line, self) {
            None => writer.write_all(line.as_slice()),
            Some(threads) => write_view(threads, writer),
        }
    }
}

/// Writes a line for each thread of a view, then `end`. It stands apart, so that what it needs is not made ready for
/// every response.
#[inline(never)]
pub(crate) fn write_view<W: Write>(threads: &ShownThreads, writer: &mut W) -> io::Result<()>
    ensures { OnOk result
        (Appends (W.contents writer.old) (W.contents writer.new)
        (text_line (response_text (Response.View threads.now)))) }
{
    writeln!(writer, "{threads}end")
}
