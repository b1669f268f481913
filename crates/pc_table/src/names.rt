//! Names of rows.

ghost use Rattle.std.specs.Prelude.{◌≡◌, if◌then◌else◌};
ghost use Rattle.pc_table.specs.Values.{count_name, ending_word, spent_name, whose_word};

use crate::rows::{Number, Spent, Which};
use pc_lab::{Counted, RunEnding};
use std::fmt::{self, Display, Formatter, Write};

/// The word for how a run ended.
pub(crate) const fn ending_word(ending: RunEnding) -> &'static str
    ensures { result.now ≡ ending_word ending }
{
    match ending {
        RunEnding::Done => "done",
        RunEnding::Until => "until",
        RunEnding::NumbersSpent => "NumbersSpent",
        RunEnding::Stalled(_) => "stalled",
    }
}

/// The name of a count.
const fn count_name(what: Counted) -> &'static str
    ensures { result.now ≡ count_name what }
{
    match what {
        Counted::Commit => "commits",
        Counted::Steal => "steals",
        Counted::Message => "messages",
        Counted::Delta => "deltas",
        Counted::Deliver => "delivers",
        Counted::PreemptSpent => "refused preempt NumbersSpent",
        Counted::WakeSpent => "refused wake NumbersSpent",
        Counted::BlockSpent => "refused block NumbersSpent",
        Counted::YieldSpent => "refused yield NumbersSpent",
        Counted::DieSpent => "refused die NumbersSpent",
        Counted::PickStale => "refused pick Stale",
        Counted::PickNothingReady => "refused pick NothingReady",
        Counted::StealNothing => "refused steal NothingToSteal",
        Counted::StealDead => "refused steal Dead",
        Counted::StealStale => "refused steal Stale",
        Counted::SleepStale => "refused sleep Stale",
    }
}

/// The words for what time went to.
const fn spent_name(spent: Spent) -> &'static str
    ensures { result.now ≡ spent_name spent }
{
    match spent {
        Spent::Ran => "ran",
        Spent::InTurns => "in turns",
        Spent::Idle => "idle",
        Spent::IdleWhileOneWaits => "idle while one waits",
    }
}

/// The word for whose waits are told.
const fn whose_word(is_woken: bool) -> &'static str
    ensures { result.now ≡ whose_word is_woken }
{
    if is_woken { "woken" } else { "wait" }
}

/// The name of a number.
impl Display for Number {
    ghost use Rattle.std.specs.Prelude.{Some};
    ghost use Rattle.pc_table.specs.Values.{number_name};

    ghost output = { λ number. Some (number_name number) };

    fn fmt<W: Write>(&self, f: &mut Formatter<W>) -> fmt::Result {
        match *self {
            Number::End => write!(f, "end"),
            Number::Makespan => write!(f, "makespan"),
            Number::Switches => write!(f, "switches"),
            Number::Preempts => write!(f, "preempts"),
            Number::Events => write!(f, "events"),
            Number::Count(what) => {
                let name = count_name(what);
                write!(f, "{name}")
            }
            Number::Total(spent) => {
                let name = spent_name(spent);
                write!(f, "ticks {name}")
            }
            Number::OfCpu(cpu, spent) => {
                let name = spent_name(spent);
                write!(f, "cpu {cpu} {name}")
            }
        }
    }
}

/// The name of waits.
impl Display for Which {
    ghost use Rattle.std.specs.Prelude.{Some};
    ghost use Rattle.pc_table.specs.Values.{which_name};

    ghost output = { λ which. Some (which_name which) };

    fn fmt<W: Write>(&self, f: &mut Formatter<W>) -> fmt::Result {
        let whose = whose_word(self.is_woken);
        match self.level {
            Some(level) => write!(f, "{whose} level {level}"),
            None => write!(f, "{whose}"),
        }
    }
}

/// A percentile of waits.
#[derive(Clone, Copy)]
pub(crate) struct Percentile {
    pub which: Which,
    pub percent: u8,
}

impl Display for Percentile {
    ghost use Rattle.std.specs.Prelude.{Some};
    ghost use Rattle.pc_table.specs.Values.{percentile_name};

    ghost output = { λ of. Some (percentile_name of.which of.percent) };

    fn fmt<W: Write>(&self, f: &mut Formatter<W>) -> fmt::Result {
        let (which, percent) = (self.which, self.percent);
        if percent == 100 {
            write!(f, "{which} max")
        } else {
            write!(f, "{which} p{percent}")
        }
    }
}

/// The sum of waits.
#[derive(Clone, Copy)]
pub(crate) struct Sum {
    pub which: Which,
}

impl Display for Sum {
    ghost use Rattle.std.specs.Prelude.{Some};
    ghost use Rattle.pc_table.specs.Values.{sum_name};

    ghost output = { λ of. Some (sum_name of.which) };

    fn fmt<W: Write>(&self, f: &mut Formatter<W>) -> fmt::Result {
        let which = self.which;
        write!(f, "{which} sum")
    }
}
