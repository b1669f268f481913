//! The walk over the lines of a script: the one loop in which a machine answers what they ask for, and an observer is
//! told of it.

ghost use Rattle.std.specs.Prelude.{◌≡◌, ◌⊎◌, ◌+◌, ◌<◌, ◌≤◌, ◌^◌, ℕ, List, Option, [], ◌∷◌, false, length, IfOk, OnOk};
ghost use Rattle.std.specs.Prelude.{Err};
ghost use Rattle.std.specs.Bool.{MatchBool};
ghost use Rattle.pc_calls.specs.declared.limits.Profile.TheVariants.{One};
ghost use Rattle.pc_script.specs.Grammar.{AsksFor, HasNoReply, IsFault};
ghost use Rattle.pc_script.specs.Inner.Walks.{Answers, FindsNone, Stops, Takes, stand};
ghost use Rattle.pc_script.specs.Scripts.{IsWalked, IsWalkedUntil, answered};
ghost use Rattle.pc_script.specs.Text.{lines, words};
ghost use Rattle.pc_script.specs.declared.outcome.ScriptFault.{ScriptFault};
ghost use Rattle.pc_script.specs.declared.response.Response.{Response};
ghost use Rattle.pc_script.specs.declared.version.Version.{Version};

use crate::command::Command;
use crate::input::MOST_BYTES;
use crate::line::{Asks, read_line};
use crate::lines::lines_of;
use crate::machine::Machine;
use crate::observer::{Line, Observer};
use crate::outcome::{Outcome, ScriptFault};
use crate::places::{Places, Sort};
use crate::response::Response;
use crate::version::{Version, named_version};
use pc_calls::Profile;
use std::alloc::Global;
use std::io::Write;

/// A walk over the lines of a script, which are handed to it one after another.
///
/// The first line that has a reply may name the version, and by that the profile in which the machine is started.
#[derive(Drop)]
pub(crate) struct Walker<M: Machine> {
    alloc: Global,
    pub(crate) machine: M,
    /// Whether a line had a reply.
    pub(crate) is_open: bool,
    /// The version that a line named, and the first before.
    pub(crate) version: Version,
}

impl<M: Machine> Walker<M> {
    /// Before the first line.
    pub(crate) fn new(alloc: Global) -> Walker<M>
        ensures fresh { M.StandsAfter One result.machine [] [] }
        ensures open { result.is_open ≡ false }
        ensures version { result.version ≡ Version.One }
    {
        Walker {
            alloc,
            machine: M::start(alloc, Profile::One),
            is_open: false,
            version: Version::One,
        }
    }

    /// Has the machine take the command of a line, puts what it is answered in the place of the response, and tells the
    /// observer of it.
    #[inline(always)]
    fn answer<O: Observer<M, W>, W: Write>(
        &mut self,
        line: Line<'_>,
        command: &Command,
        response: &mut Response,
        observer: &mut O,
        writer: &mut W,
    ) -> Result<(), ScriptFault>
        requires replies { HasNoReply line.text.now → ⊥ }
        requires asked { AsksFor self.old.version (words line.text.now) command.now }
        ensures ok { OnOk result (Takes M.StandsAfter O.Tells line.entry.text.now
            (stand self.old.machine self.old.is_open self.old.version observer.old (W.contents writer.old))
            (stand self.new.machine self.new.is_open self.new.version observer.new (W.contents writer.new))) }
        ensures err { (fault : ScriptFault) → result ≡ Err fault → O.MayFail fault
            ⊎ ((fault ≡ ScriptFault.OutOfMemory) × FindsNone M.StandsAfter M.RanOut O.Tells line.entry.text.now
            (stand self.old.machine self.old.is_open self.old.version observer.old (W.contents writer.old))
            (stand self.new.machine self.new.is_open self.new.version observer.new (W.contents writer.new))) }
    {
        self.is_open = true;
        observer.expect(command, &self.machine);
        match self.machine.answer(command, response) {
            Ok(()) => observer.answered(line, command, response, &self.machine, writer),
            Err(_) => Err(ScriptFault::OutOfMemory),
        }
    }

    /// The same, apart from where most commands are answered.
    #[inline(never)]
    fn answer_apart<O: Observer<M, W>, W: Write>(
        &mut self,
        line: Line<'_>,
        command: &Command,
        response: &mut Response,
        observer: &mut O,
        writer: &mut W,
    ) -> Result<(), ScriptFault>
        requires replies { HasNoReply line.text.now → ⊥ }
        requires asked { AsksFor self.old.version (words line.text.now) command.now }
        ensures ok { OnOk result (Takes M.StandsAfter O.Tells line.entry.text.now
            (stand self.old.machine self.old.is_open self.old.version observer.old (W.contents writer.old))
            (stand self.new.machine self.new.is_open self.new.version observer.new (W.contents writer.new))) }
        ensures err { (fault : ScriptFault) → result ≡ Err fault → O.MayFail fault
            ⊎ ((fault ≡ ScriptFault.OutOfMemory) × FindsNone M.StandsAfter M.RanOut O.Tells line.entry.text.now
            (stand self.old.machine self.old.is_open self.old.version observer.old (W.contents writer.old))
            (stand self.new.machine self.new.is_open self.new.version observer.new (W.contents writer.new))) }
    {
        self.answer(line, command, response, observer, writer)
    }

    /// Takes a line that asks for no command: the first that has a reply may name the version, and every other is a
    /// fault, for which the answer is false.
    #[inline(never)]
    fn stop<O: Observer<M, W>, W: Write>(
        &mut self,
        line: Line<'_>,
        observer: &mut O,
        writer: &mut W,
    ) -> Result<bool, ScriptFault>
        requires fault { IsFault self.old.version line.text.now }
        ensures ok { IfOk result (λ goes. MatchBool goes
            (Takes M.StandsAfter O.Tells line.entry.text.now
            (stand self.old.machine self.old.is_open self.old.version observer.old (W.contents writer.old))
            (stand self.new.machine self.new.is_open self.new.version observer.new (W.contents writer.new)))
            (Stops O.Tells line.entry.text.now line.entry.number
            (stand self.old.machine self.old.is_open self.old.version observer.old (W.contents writer.old))
            (stand self.new.machine self.new.is_open self.new.version observer.new (W.contents writer.new)))) }
        ensures err { (fault : ScriptFault) → result ≡ Err fault → O.MayFail fault }
    {
        if !self.is_open {
            self.is_open = true;
            if let Some(version) = named_version(line.text) {
                self.version = version;
                self.machine = M::start(self.alloc, version.profile());
                observer.version_named(line, version, writer)?;
                return Ok(true);
            }
        }
        observer.faulted(line, writer)?;
        Ok(false)
    }

    /// Takes the next line, whose command stands in one of the places. Answers false where it is a fault.
    #[inline(always)]
    pub(crate) fn take<O: Observer<M, W>, W: Write>(
        &mut self,
        places: &mut Places,
        line: Line<'_>,
        observer: &mut O,
        writer: &mut W,
    ) -> Result<bool, ScriptFault>
        ensures ok { IfOk result (λ goes. MatchBool goes
            (Takes M.StandsAfter O.Tells line.entry.text.now
            (stand self.old.machine self.old.is_open self.old.version observer.old (W.contents writer.old))
            (stand self.new.machine self.new.is_open self.new.version observer.new (W.contents writer.new)))
            (Stops O.Tells line.entry.text.now line.entry.number
            (stand self.old.machine self.old.is_open self.old.version observer.old (W.contents writer.old))
            (stand self.new.machine self.new.is_open self.new.version observer.new (W.contents writer.new)))) }
        ensures err { (fault : ScriptFault) → result ≡ Err fault → O.MayFail fault
            ⊎ ((fault ≡ ScriptFault.OutOfMemory) × FindsNone M.StandsAfter M.RanOut O.Tells line.entry.text.now
            (stand self.old.machine self.old.is_open self.old.version observer.old (W.contents writer.old))
            (stand self.new.machine self.new.is_open self.new.version observer.new (W.contents writer.new))) }
    {
        let Places {
            commands,
            responses,
        } = places;
        match read_line(self.version, line.text, commands) {
            Asks::Nothing => Ok(true),
            Asks::For(Sort::Event) => {
                let (command, response) = (&commands.event, &mut responses.event);
                self.answer(line, command, response, observer, writer)?;
                Ok(true)
            }
            Asks::For(Sort::Status) => {
                let (command, response) = (&commands.status, &mut responses.status);
                self.answer(line, command, response, observer, writer)?;
                Ok(true)
            }
            Asks::For(Sort::Other) => {
                let (command, response) = (&commands.other, &mut responses.other);
                self.answer_apart(line, command, response, observer, writer)?;
                Ok(true)
            }
            Asks::ForStop => self.stop(line, observer, writer),
        }
    }
}

/// Walks over the lines of a script's text, up to the end or to the first fault: a machine of its own answers their
/// commands, one after another, and the observer is told of each line that has a reply.
///
/// The fault is one of the observer's, or `OutOfMemory` where the machine found none for an answer.
pub fn walk<M: Machine, O: Observer<M, W>, W: Write>(
    alloc: Global,
    text: &[u8],
    observer: &mut O,
    writer: &mut W,
) -> Result<Outcome, ScriptFault>
    requires short { length text.now ≤ MOST_BYTES }
    ensures ok { IfOk result
        (λ outcome. IsWalked O.Tells M.IsRun (lines text.now) outcome observer.old (W.contents writer.old)
        observer.new (W.contents writer.new)) }
    ensures no_memory { result ≡ Err ScriptFault.OutOfMemory → O.MayFail ScriptFault.OutOfMemory
        ⊎ IsWalkedUntil O.Tells M.IsRun M.RanOut (lines text.now) observer.old (W.contents writer.old) observer.new
        (W.contents writer.new) }
    ensures err { (fault : ScriptFault) → result ≡ Err fault → O.MayFail fault ⊎ (fault ≡ ScriptFault.OutOfMemory) }
{
    let mut walk = Walker::<M>::new(alloc);
    let mut places = Places::new();
    let mut number = 0;
    for text in lines_of(Some(text)) {
        number += 1;
        let line = Line { number, text };
        if !walk.take(&mut places, line, observer, writer)? {
            return Ok(Outcome::FaultLine(number));
        }
    }
    Ok(Outcome::Finished)
}
