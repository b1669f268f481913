//! What a rank may depend on.

ghost use Rattle.std.specs.Prelude.{◌≡◌};
ghost use Rattle.pc_rank.specs.Meaning.{fact_in};

/// One of the numbers that a rank may depend on, as an expression names it.
#[derive(Clone, Copy, PartialEq, Eq)]
pub enum Fact {
    /// The thread's level, from 0 to 7.
    Level,
    /// How many ticks it ran.
    Ran,
    /// The number of its name.
    Thread,
    /// The CPU on which it would run.
    Cpu,
    /// How many CPUs its mask has.
    Allowed,
}

/// A thread on a CPU, as an expression sees it: the number of each [`Fact`].
#[derive(Clone, Copy)]
pub struct Facts {
    /// The thread's level.
    pub level: u64,
    /// Ticks that it ran.
    pub ran: u64,
    /// The number of its name.
    pub thread: u64,
    /// The CPU on which it would run.
    pub cpu: u64,
    /// CPUs of its mask.
    pub allowed: u64,
}

impl Facts {
    /// The number that a name stands for.
    pub const fn get(&self, fact: Fact) -> u64
        ensures { result ≡ fact_in self.now fact }
    {
        match fact {
            Fact::Level => self.level,
            Fact::Ran => self.ran,
            Fact::Thread => self.thread,
            Fact::Cpu => self.cpu,
            Fact::Allowed => self.allowed,
        }
    }
}
