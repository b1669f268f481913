//! The texts of what a view shows, which are written piece by piece.

ghost use Rattle.std.specs.Prelude.{Some};
ghost use Rattle.pc_messages.specs.State.{phase_word};
ghost use Rattle.pc_script.specs.Responses.{level_text, reported_text, numbers_text, shown_text};
ghost use Rattle.pc_script.specs.Responses.{shown_lines};

use crate::lists::{EarlyNumbers, ShownThread, ShownThreads};
use pc_messages::{Phase, Reported};
use std::fmt;

/// A level, if it isn't the lowest.
#[derive(Clone, Copy)]
struct LevelPart(u8);

impl fmt::Display for LevelPart {
    ghost output = { λ level. Some (level_text level.0) };

    fn fmt<W: fmt::Write>(&self, f: &mut fmt::Formatter<W>) -> fmt::Result {
        let level = self.0;
        if level == 0 {
            Ok(())
        } else {
            write!(f, " level {level}")
        }
    }
}

/// A phase by its name.
#[derive(Clone, Copy)]
struct PhaseName(Phase);

impl fmt::Display for PhaseName {
    ghost output = { λ phase. Some (phase_word phase.0) };

    fn fmt<W: fmt::Write>(&self, f: &mut fmt::Formatter<W>) -> fmt::Result {
        f.write_str(self.0.word())
    }
}

/// What is reported of a thread, or `-`.
#[derive(Clone, Copy)]
struct ReportedPart(Option<Reported>);

impl fmt::Display for ReportedPart {
    ghost output = { λ reported. Some (reported_text reported.0) };

    fn fmt<W: fmt::Write>(&self, f: &mut fmt::Formatter<W>) -> fmt::Result {
        match self.0 {
            Some(reported) => {
                let phase = PhaseName(reported.phase);
                let mask = reported.mask.bits();
                let ran = reported.ran;
                let level = LevelPart(reported.level.get());
                write!(f, "{phase} mask {mask} ran {ran}{level}")
            }
            None => write!(f, "-"),
        }
    }
}

impl fmt::Display for EarlyNumbers {
    ghost output = { λ numbers. Some (numbers_text numbers) };

    fn fmt<W: fmt::Write>(&self, f: &mut fmt::Formatter<W>) -> fmt::Result {
        let Some((first, others)) = self.as_slice().split_first() else {
            return write!(f, "-");
        };
        write!(f, "{first}")?;
        for number in others {
            write!(f, " {number}")?;
        }
        Ok(())
    }
}

impl fmt::Display for ShownThread {
    ghost output = { λ shown. Some (shown_text shown) };

    fn fmt<W: fmt::Write>(&self, f: &mut fmt::Formatter<W>) -> fmt::Result {
        let thread = self.thread.index();
        let upto = self.upto;
        let reported = ReportedPart(self.reported);
        let early = &self.early;
        write!(f, "t{thread} upto {upto} {reported} early {early}")
    }
}

impl fmt::Display for ShownThreads {
    ghost output = { λ threads. Some (shown_lines threads) };

    fn fmt<W: fmt::Write>(&self, f: &mut fmt::Formatter<W>) -> fmt::Result {
        for shown in self.as_slice() {
            writeln!(f, "{shown}")?;
        }
        Ok(())
    }
}
