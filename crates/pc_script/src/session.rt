//! A session: lines that come one after another, of which each is answered as soon as it is whole.
//!
//! The lines are taken by the walker that walks over the lines of a script. Here is what a session does around it: it
//! reads the text in pieces, passes over what is too long, and goes on behind a fault.

ghost use Rattle.std.specs.Prelude.{◌≡◌, ◌≢◌, ◌⊎◌, ◌+◌, ◌<◌, ◌≤◌, ℕ, suc, true, false, List, [], ◌∷◌, ◌++◌, length};
ghost use Rattle.std.specs.Prelude.{◌↔◌, IfOk, IsTrue, OnOk, Err};
ghost use Rattle.std.specs.Io.Buffered.{writer_buffer, writer_contents};
ghost use Rattle.std.specs.Io.KnownBytes.{Appends, Consumes, IsAtEnd};
ghost use Rattle.std.specs.Str.Lines.{strip_carriage_return};
ghost use Rattle.pc_calls.specs.declared.limits.Profile.{Profile};
ghost use Rattle.pc_script.specs.Inner.Outputs.{waiting};
ghost use Rattle.pc_script.specs.Inner.Pieces.{IsCut, IsPassed, IsUnbroken};
ghost use Rattle.pc_script.specs.Inner.Talks.{CountsOut, Hears, HearsAll, HearsUntil, Lacks, LacksAtEnd, Leaves};
ghost use Rattle.pc_script.specs.Inner.Talks.{talking};
ghost use Rattle.pc_script.specs.Inner.Walks.{stand};
ghost use Rattle.pc_script.specs.Sessions.{AsksForHelp, ConsumesMost, IsAnsweredBy, IsAnsweredUntil, IsConversed};
ghost use Rattle.pc_script.specs.Sessions.{IsConversedUntil};
ghost use Rattle.pc_script.specs.Text.{lines};
ghost use Rattle.pc_script.specs.declared.outcome.ScriptFault.{ScriptFault};
ghost use Rattle.pc_script.specs.declared.version.Version.{Version};

use crate::lines::{first_whole_line, without_carriage_return};
use crate::machine::Machine;
use crate::observer::{Line, Observer};
use crate::outcome::ScriptFault;
use crate::output::Output;
use crate::piece::Piece;
use crate::places::Places;
use crate::run::Replies;
use crate::walker::Walker;
use std::alloc::Global;
use std::io::{BufWriter, Read, Write};

/// The greatest length of a line of a session, in bytes.
pub const MOST_LINE: usize = 65_536;

/// How a session ended that memory sufficed for.
#[derive(Clone, Copy, Debug, PartialEq, Eq)]
pub struct Conversed {
    /// Whether a line was a fault.
    pub had_fault: bool,
    /// Whether the reader came to its end; otherwise a read failed, and the session ended there.
    pub is_whole: bool,
}

/// Who is asked for help by a line `?` or `help`: whoever has somewhere else to write the table of commands.
pub trait Helper: Drop {
    /// A line asks for help.
    fn help(&mut self);

    /// The line of this number is a fault, and none was before it. Nothing is given of a line that is too long.
    fn first_fault(&mut self, number: u64, line: &[u8]);
}

/// Whether a line asks for help.
#[inline(always)]
fn asks_for_help(line: &[u8]) -> bool
    ensures { IsTrue result ↔ AsksForHelp line.now }
{
    line == b"?".as_slice() || line == b"help".as_slice()
}

/// A session between two of its lines.
#[derive(Drop)]
struct Talk<M: Machine> {
    walk: Walker<M>,
    places: Places,
    /// How many lines there were.
    number: u64,
    had_fault: bool,
    /// Whether what was read last is of a line that is too long, and passed over.
    passes: bool,
}

impl<M: Machine> Talk<M> {
    /// Before the first line.
    fn new(alloc: Global) -> Talk<M>
        ensures fresh { M.StandsAfter Profile.One result.walk.machine [] [] }
        ensures open { result.walk.is_open ≡ false }
        ensures version { result.walk.version ≡ Version.One }
        ensures number { result.number ≡ 0 }
        ensures faults { (result.had_fault ≡ false) × (result.passes ≡ false) }
    {
        Talk {
            walk: Walker::new(alloc),
            places: Places::new(),
            number: 0,
            had_fault: false,
            passes: false,
        }
    }

    /// The number of the next line.
    #[inline(always)]
    fn next_number(&self) -> Result<u64, ScriptFault>
        ensures ok { IfOk result (λ number. number ≡ suc self.now.number) }
        ensures err { (fault : ScriptFault) → result ≡ Err fault
            → (fault ≡ ScriptFault.TooLong) × CountsOut self.now.number 0 }
    {
        match self.number.checked_add(1) {
            Some(number) => Ok(number),
            None => Err(ScriptFault::TooLong),
        }
    }

    /// A line is a fault. Of the first one the helper is told.
    #[inline(never)]
    fn note_fault<H: Helper>(&mut self, line: &[u8], helper: &mut H)
        ensures { self.new ≡ record self.old { had_fault = true } }
    {
        if !self.had_fault {
            helper.first_fault(self.number, line);
        }
        self.had_fault = true;
    }

    /// The next line is too long.
    #[inline(never)]
    fn pass_over<O: Observer<M, W>, W: Write, H: Helper>(
        &mut self,
        observer: &mut O,
        helper: &mut H,
        writer: &mut W,
    ) -> Result<(), ScriptFault>
        ensures ok { OnOk result ((line : List ℕ) → MOST_LINE < length line → Hears M.StandsAfter O.Tells
            (talking self.old.walk.machine self.old.walk.is_open self.old.walk.version self.old.number
            self.old.had_fault observer.old (W.contents writer.old)) line
            (talking self.new.walk.machine self.new.walk.is_open self.new.walk.version self.new.number
            self.new.had_fault observer.new (W.contents writer.new))) }
        ensures err { (fault : ScriptFault) → result ≡ Err fault
            → O.MayFail fault ⊎ ((fault ≡ ScriptFault.TooLong) × CountsOut self.old.number 0) }
        ensures counted { OnOk result (self.new.number ≡ suc self.old.number) }
        ensures passes { self.new.passes ≡ self.old.passes }
    {
        let number = self.next_number()?;
        self.number = number;
        self.note_fault(b"".as_slice(), helper);
        self.walk.is_open = true;
        observer.passed_over(number, writer)
    }

    /// Takes the next line.
    #[inline(always)]
    fn take<O: Observer<M, W>, W: Write, H: Helper>(
        &mut self,
        text: &[u8],
        observer: &mut O,
        helper: &mut H,
        writer: &mut W,
    ) -> Result<(), ScriptFault>
        ensures ok { OnOk result (Hears M.StandsAfter O.Tells
            (talking self.old.walk.machine self.old.walk.is_open self.old.walk.version self.old.number
            self.old.had_fault observer.old (W.contents writer.old)) text.now
            (talking self.new.walk.machine self.new.walk.is_open self.new.walk.version self.new.number
            self.new.had_fault observer.new (W.contents writer.new))) }
        ensures err { (fault : ScriptFault) → result ≡ Err fault
            → O.MayFail fault ⊎ ((fault ≡ ScriptFault.TooLong) × CountsOut self.old.number 0)
            ⊎ ((fault ≡ ScriptFault.OutOfMemory) × Lacks M.StandsAfter M.RanOut O.Tells text.now
            (stand self.old.walk.machine self.old.walk.is_open self.old.walk.version observer.old
            (W.contents writer.old))
            (stand self.new.walk.machine self.new.walk.is_open self.new.walk.version observer.new
            (W.contents writer.new))) }
        ensures counted { OnOk result (self.new.number ≡ suc self.old.number) }
        ensures passes { self.new.passes ≡ self.old.passes }
    {
        if text.len() > MOST_LINE {
            return self.pass_over(observer, helper, writer);
        }
        let number = self.next_number()?;
        self.number = number;
        if asks_for_help(text) {
            helper.help();
            return Ok(());
        }
        let line = Line { number, text };
        if !self.walk.take(&mut self.places, line, observer, writer)? {
            self.note_fault(text, helper);
        }
        Ok(())
    }

    /// Takes the lines of a text that are whole, and answers what is left behind them.
    fn take_whole<'t, O: Observer<M, W>, W: Write, H: Helper>(
        &mut self,
        text: &'t [u8],
        observer: &mut O,
        helper: &mut H,
        writer: &mut W,
    ) -> Result<&'t [u8], ScriptFault>
        ensures ok { IfOk result (λ rest. (taken : List (List ℕ)) × HearsAll M.StandsAfter O.Tells
            (talking self.old.walk.machine self.old.walk.is_open self.old.walk.version self.old.number
            self.old.had_fault observer.old (W.contents writer.old)) taken
            (talking self.new.walk.machine self.new.walk.is_open self.new.walk.version self.new.number
            self.new.had_fault observer.new (W.contents writer.new))
            × IsCut text.now taken rest.now × IsUnbroken rest.now) }
        ensures behind { IfOk result (λ rest. (front : List ℕ) × (text.now ≡ front ++ rest.now)) }
        ensures counted { IfOk result
            (λ rest. self.new.number + length rest.now ≤ self.old.number + length text.now) }
        ensures err { (fault : ScriptFault) → result ≡ Err fault
            → O.MayFail fault ⊎ ((fault ≡ ScriptFault.TooLong) × CountsOut self.old.number (length text.now))
            ⊎ ((fault ≡ ScriptFault.OutOfMemory) × HearsUntil M.StandsAfter M.RanOut O.Tells text.now
            (talking self.old.walk.machine self.old.walk.is_open self.old.walk.version self.old.number
            self.old.had_fault observer.old (W.contents writer.old))
            (stand self.new.walk.machine self.new.walk.is_open self.new.walk.version observer.new
            (W.contents writer.new))) }
        ensures passes { self.new.passes ≡ self.old.passes }
    {
        let mut rest = text;
        while let Some((line, more)) = first_whole_line(rest) {
            match self.take(line, observer, helper, writer) {
                Ok(()) => rest = more,
                Err(fault) => return Err(fault),
            }
        }
        Ok(rest)
    }

    /// Takes the lines of a text that are whole, and answers what is to be kept of the line behind them: nothing of one
    /// that is too long, which is passed over from here on.
    fn take_and_keep<'t, O: Observer<M, W>, W: Write, H: Helper>(
        &mut self,
        text: &'t [u8],
        observer: &mut O,
        helper: &mut H,
        writer: &mut W,
    ) -> Result<&'t [u8], ScriptFault>
        requires passes { self.old.passes ≡ false }
        ensures ok { IfOk result (λ rest. Leaves M.StandsAfter O.Tells text.now
            (talking self.old.walk.machine self.old.walk.is_open self.old.walk.version self.old.number
            self.old.had_fault observer.old (W.contents writer.old))
            (talking self.new.walk.machine self.new.walk.is_open self.new.walk.version self.new.number
            self.new.had_fault observer.new (W.contents writer.new)) self.new.passes rest.now) }
        ensures behind { IfOk result (λ rest. (front : List ℕ) × (text.now ≡ front ++ rest.now)) }
        ensures counted { IfOk result
            (λ rest. self.new.number + length rest.now ≤ self.old.number + length text.now) }
        ensures short { IfOk result (λ rest. length rest.now ≤ MOST_LINE + 1) }
        ensures err { (fault : ScriptFault) → result ≡ Err fault
            → O.MayFail fault ⊎ ((fault ≡ ScriptFault.TooLong) × CountsOut self.old.number (length text.now))
            ⊎ ((fault ≡ ScriptFault.OutOfMemory) × HearsUntil M.StandsAfter M.RanOut O.Tells text.now
            (talking self.old.walk.machine self.old.walk.is_open self.old.walk.version self.old.number
            self.old.had_fault observer.old (W.contents writer.old))
            (stand self.new.walk.machine self.new.walk.is_open self.new.walk.version observer.new
            (W.contents writer.new))) }
    {
        let rest = match self.take_whole(text, observer, helper, writer) {
            Ok(rest) => rest,
            Err(fault) => return Err(fault),
        };
        if rest.len() > MOST_LINE + 1 {
            self.passes = true;
            return Ok(&rest[rest.len()..]);
        }
        Ok(rest)
    }

    /// The same of a text that may begin within a line that is passed over.
    fn hear<'t, O: Observer<M, W>, W: Write, H: Helper>(
        &mut self,
        text: &'t [u8],
        observer: &mut O,
        helper: &mut H,
        writer: &mut W,
    ) -> Result<&'t [u8], ScriptFault>
        ensures ok { IfOk result (λ rest. (passed : List ℕ) → IsPassed self.old.passes passed
            → Leaves M.StandsAfter O.Tells (passed ++ text.now)
            (talking self.old.walk.machine self.old.walk.is_open self.old.walk.version self.old.number
            self.old.had_fault observer.old (W.contents writer.old))
            (talking self.new.walk.machine self.new.walk.is_open self.new.walk.version self.new.number
            self.new.had_fault observer.new (W.contents writer.new)) self.new.passes rest.now) }
        ensures behind { IfOk result (λ rest. (front : List ℕ) × (text.now ≡ front ++ rest.now)) }
        ensures counted { IfOk result
            (λ rest. self.new.number + length rest.now ≤ self.old.number + length text.now) }
        ensures short { IfOk result (λ rest. length rest.now ≤ MOST_LINE + 1) }
        ensures err { (fault : ScriptFault) → result ≡ Err fault
            → O.MayFail fault ⊎ ((fault ≡ ScriptFault.TooLong) × CountsOut self.old.number (length text.now))
            ⊎ ((fault ≡ ScriptFault.OutOfMemory) × ((passed : List ℕ) → IsPassed self.old.passes passed
            → HearsUntil M.StandsAfter M.RanOut O.Tells (passed ++ text.now)
            (talking self.old.walk.machine self.old.walk.is_open self.old.walk.version self.old.number
            self.old.had_fault observer.old (W.contents writer.old))
            (stand self.new.walk.machine self.new.walk.is_open self.new.walk.version observer.new
            (W.contents writer.new)))) }
    {
        if !self.passes {
            return self.take_and_keep(text, observer, helper, writer);
        }
        let Some((_, more)) = first_whole_line(text) else {
            return Ok(&text[text.len()..]);
        };
        match self.pass_over(observer, helper, writer) {
            Ok(()) => {}
            Err(fault) => return Err(fault),
        }
        self.passes = false;
        self.take_and_keep(more, observer, helper, writer)
    }

    /// Takes the last line, of which this is kept, and which no line feed ends.
    fn take_last<O: Observer<M, W>, W: Write, H: Helper>(
        &mut self,
        text: &[u8],
        observer: &mut O,
        helper: &mut H,
        writer: &mut W,
    ) -> Result<(), ScriptFault>
        ensures ok { OnOk result ((passed : List ℕ) → IsPassed self.old.passes passed
            → (self.old.passes ≡ true → text.now ≡ []) → Hears M.StandsAfter O.Tells
            (talking self.old.walk.machine self.old.walk.is_open self.old.walk.version self.old.number
            self.old.had_fault observer.old (W.contents writer.old)) (strip_carriage_return (passed ++ text.now))
            (talking self.new.walk.machine self.new.walk.is_open self.new.walk.version self.new.number
            self.new.had_fault observer.new (W.contents writer.new))) }
        ensures err { (fault : ScriptFault) → result ≡ Err fault
            → O.MayFail fault ⊎ ((fault ≡ ScriptFault.TooLong) × CountsOut self.old.number 0)
            ⊎ ((fault ≡ ScriptFault.OutOfMemory) × LacksAtEnd M.StandsAfter M.RanOut O.Tells self.old.passes text.now
            (stand self.old.walk.machine self.old.walk.is_open self.old.walk.version observer.old
            (W.contents writer.old))
            (stand self.new.walk.machine self.new.walk.is_open self.new.walk.version observer.new
            (W.contents writer.new))) }
    {
        if self.passes {
            self.pass_over(observer, helper, writer)
        } else {
            self.take(without_carriage_return(text), observer, helper, writer)
        }
    }
}

/// Has the observer settle, and flushes what it gave the writer.
fn settle<M: Machine, O: Observer<M, BufWriter<W>>, W: Write + Drop>(
    observer: &mut O,
    writer: &mut BufWriter<W>,
) -> Result<(), ScriptFault>
    ensures ok { OnOk result (O.Tells observer.old (writer_contents W.contents writer.old) [] observer.new
        (writer_contents W.contents writer.new)) }
    ensures settled { OnOk result ((O.HoldsNothing observer.new) × (writer_buffer writer.new ≡ [])) }
    ensures err { (fault : ScriptFault) → result ≡ Err fault → O.MayFail fault ⊎ (fault ≡ ScriptFault.Write) }
{
    observer.settle(writer)?;
    match writer.flush() {
        Ok(()) => Ok(()),
        Err(_) => Err(ScriptFault::Write),
    }
}

/// Answers the lines of a text one after another, each as soon as it is whole, until the reader comes to its end or a
/// read fails: then what is left of the text is the last line.
///
/// Lines are those of a script, and are answered as there; but a fault changes nothing, and the session goes on. A line
/// of more than [`MOST_LINE`] bytes is a fault, and is not kept; a line `?` or `help` is the helper's, who is told of
/// the first fault, too. Whatever the pieces are in which the text comes, what is answered is the same. All answers are
/// flushed before each read, and at the end, and at no other time. It takes no memory that grows with the text.
///
/// The fault is one of the observer's; `Write` where a flush fails; `OutOfMemory` where the machine found none for an
/// answer, behind the lines before; or `TooLong` past 18,446,744,073,709,551,615 lines or reads, each of which took a
/// byte at least. After `Write` all that was read is consumed, up to the last read before it; what was written of the
/// answers is not known, since a write that fails says nothing of what it took. No clause says so.
pub fn converse<M: Machine, O: Observer<M, BufWriter<W>>, R: Read, W: Write + Drop, H: Helper>(
    alloc: Global,
    reader: &mut R,
    observer: &mut O,
    helper: &mut H,
    writer: &mut BufWriter<W>,
) -> Result<Conversed, ScriptFault>
    ensures ok { IfOk result (λ conversed. (text : List ℕ)
        × Consumes (R.remaining reader.old) (R.remaining reader.new) text
        × (conversed.is_whole ≡ true → IsAtEnd (R.remaining reader.new))
        × IsConversed O.Tells M.IsRun (lines text) conversed.had_fault observer.old
        (writer_contents W.contents writer.old) observer.new (writer_contents W.contents writer.new)) }
    ensures settled { OnOk result ((O.HoldsNothing observer.new) × (writer_buffer writer.new ≡ [])) }
    ensures no_memory { result ≡ Err ScriptFault.OutOfMemory → O.MayFail ScriptFault.OutOfMemory
        ⊎ ((text : List ℕ) × Consumes (R.remaining reader.old) (R.remaining reader.new) text
        × IsConversedUntil O.Tells M.IsRun M.RanOut (lines text) observer.old
        (writer_contents W.contents writer.old) observer.new (writer_contents W.contents writer.new)) }
    ensures too_long { result ≡ Err ScriptFault.TooLong → O.MayFail ScriptFault.TooLong
        ⊎ ConsumesMost (R.remaining reader.old) (R.remaining reader.new) }
    ensures err { (fault : ScriptFault) → result ≡ Err fault → O.MayFail fault ⊎ (fault ≡ ScriptFault.OutOfMemory)
        ⊎ (fault ≡ ScriptFault.Write) ⊎ (fault ≡ ScriptFault.TooLong) }
{
    let mut talk = Talk::<M>::new(alloc);
    let mut piece = Piece::new();
    for _ in 0..u64::MAX {
        match settle::<M, O, W>(observer, writer) {
            Ok(()) => {}
            Err(fault) => return Err(fault),
        }
        let filled = piece.fill::<M, R, O, W>(reader, observer, writer);
        if !filled.is_more() {
            match talk.take_last(piece.as_slice(), observer, helper, writer) {
                Ok(()) => {}
                Err(fault) => return Err(fault),
            }
            match settle::<M, O, W>(observer, writer) {
                Ok(()) => {}
                Err(fault) => return Err(fault),
            }
            return Ok(Conversed {
                had_fault: talk.had_fault,
                is_whole: filled.is_at_end(),
            });
        }
        match talk.hear(piece.as_slice(), observer, helper, writer) {
            Ok(rest) => {
                let left = rest.len();
                piece.keep_last(left);
            }
            Err(fault) => return Err(fault),
        }
    }
    Err(ScriptFault::TooLong)
}

/// Answers the lines of a text one after another, as [`converse`] does, and writes the replies.
///
/// Each line is answered, a fault is told, and the session goes on behind it. Of a text without a fault, a line `?` or
/// `help` and a line longer than [`MOST_LINE`] what is written is the output of [`run_script`](crate::run_script).
/// After want of memory the replies to the lines before are written, and not flushed. What `Write` leaves is as there.
pub fn run_session<M: Machine, R: Read, W: Write + Drop, H: Helper>(
    alloc: Global,
    reader: &mut R,
    helper: &mut H,
    writer: &mut BufWriter<W>,
) -> Result<Conversed, ScriptFault>
    ensures ok { IfOk result (λ conversed. (text : List ℕ)
        × Consumes (R.remaining reader.old) (R.remaining reader.new) text
        × (conversed.is_whole ≡ true → IsAtEnd (R.remaining reader.new))
        × ((output : List ℕ) × IsAnsweredBy M.IsRun text conversed.had_fault output
        × Appends (writer_contents W.contents writer.old) (writer_contents W.contents writer.new) output)) }
    ensures flushed { OnOk result (writer_buffer writer.new ≡ []) }
    ensures no_memory { result ≡ Err ScriptFault.OutOfMemory → (text : List ℕ)
        × Consumes (R.remaining reader.old) (R.remaining reader.new) text
        × ((output : List ℕ) × IsAnsweredUntil M.IsRun M.RanOut text output
        × Appends (writer_contents W.contents writer.old) (writer_contents W.contents writer.new) output) }
    ensures too_long { result ≡ Err ScriptFault.TooLong
        → ConsumesMost (R.remaining reader.old) (R.remaining reader.new) }
    ensures err { (fault : ScriptFault) → result ≡ Err fault → (fault ≡ ScriptFault.OutOfMemory)
        ⊎ (fault ≡ ScriptFault.Write) ⊎ (fault ≡ ScriptFault.TooLong) }
{
    let mut replies = Replies {
        output: Output::new(),
    };
    match converse::<M, Replies, R, W, H>(alloc, reader, &mut replies, helper, writer) {
        Ok(conversed) => Ok(conversed),
        Err(ScriptFault::OutOfMemory) => {
            if replies.output.write_out(writer) {
                Err(ScriptFault::OutOfMemory)
            } else {
                Err(ScriptFault::Write)
            }
        }
        Err(fault) => Err(fault),
    }
}
