//! The keys of texts.

use std::fmt::{self, Display, Formatter, Write};

/// A key of settings, of a load or of variants.
#[derive(Clone, Copy, Debug, PartialEq, Eq)]
pub enum Field {
    /// How many CPUs there are.
    Cpus,
    /// The tick in front of whose things a run of a load stops.
    Until,
    /// The list of threads.
    Threads,
    /// The CPU on whose queue a thread begins.
    Queue,
    /// The CPUs on which a thread may run.
    Mask,
    /// The list of a thread's steps.
    Steps,
    /// The tick of a thread's creation.
    Start,
    /// A thread's level.
    Level,
    /// For how many ticks a thread is blocked.
    Sleeps,
    /// The list of restarts.
    Restarts,
    /// The CPU whose agent restarts.
    Cpu,
    /// The turn before which it does.
    Turn,
    /// The list of variants.
    Variants,
    /// A variant's title.
    Name,
    /// The order of run lists.
    Order,
    /// What a steal takes.
    Steals,
    /// After how many ticks a thread may be preempted.
    Quantum,
    /// How many CPUs hear of each other.
    Group,
    /// After how many ticks others can take a delta in.
    Delay,
    /// How many ticks an agent's turn takes.
    Cost,
    /// Whether who runs is preempted for one that stands before it.
    Urgent,
    /// Whether recorded preempts are kept.
    Keep,
}

impl Field {
    ghost use Rattle.std.specs.Prelude.{◌≡◌};
    ghost use Rattle.pc_settings.specs.Fields.{key_of};

    /// How the key is written in its table.
    pub(crate) const fn key(self) -> &'static str
        ensures { result.now ≡ key_of self }
    {
        match self {
            Field::Cpus => "cpus",
            Field::Until => "until",
            Field::Threads => "thread",
            Field::Queue => "queue",
            Field::Mask => "mask",
            Field::Steps => "steps",
            Field::Start => "start",
            Field::Level => "level",
            Field::Sleeps => "sleeps",
            Field::Restarts => "restart",
            Field::Cpu => "cpu",
            Field::Turn => "turn",
            Field::Variants => "variant",
            Field::Name => "name",
            Field::Order => "order",
            Field::Steals => "steals",
            Field::Quantum => "quantum",
            Field::Group => "group",
            Field::Delay => "delay",
            Field::Cost => "cost",
            Field::Urgent => "urgent",
            Field::Keep => "keep",
        }
    }
}

impl Display for Field {
    ghost use Rattle.std.specs.Prelude.{Some};
    ghost use Rattle.pc_settings.specs.Fields.{key_text};

    ghost output = { λ field. Some (key_text field) };

    fn fmt<W: Write>(&self, f: &mut Formatter<W>) -> Result<(), fmt::Error> {
        f.write_str(match self {
            Field::Cpus => "cpus",
            Field::Until => "until",
            Field::Threads => "thread",
            Field::Queue => "thread.queue",
            Field::Mask => "thread.mask",
            Field::Steps => "thread.steps",
            Field::Start => "thread.start",
            Field::Level => "thread.level",
            Field::Sleeps => "thread.sleeps",
            Field::Restarts => "restart",
            Field::Cpu => "restart.cpu",
            Field::Turn => "restart.turn",
            Field::Variants => "variant",
            Field::Name => "variant.name",
            Field::Order => "variant.order",
            Field::Steals => "variant.steals",
            Field::Quantum => "variant.quantum",
            Field::Group => "variant.group",
            Field::Delay => "variant.delay",
            Field::Cost => "variant.cost",
            Field::Urgent => "variant.urgent",
            Field::Keep => "variant.keep",
        })
    }
}
