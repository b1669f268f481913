//! What a seed draws.

ghost use Rattle.std.specs.Prelude.{◌≡◌, ◌<◌, MatchOption};
ghost use Rattle.pc_seeds.specs.Draws.{IsChoice, NobodyChooses};

use pc_messages::Cpu;
use pc_protocol::{Protocol, StepFault};
use rand_core::{Rng, SeedableRng};
use rand_pcg::Pcg32;
use std::alloc::{AllocError, Global};

/// Whose step is next, and which of its choices.
#[derive(Clone, Copy, Debug, PartialEq, Eq)]
pub(crate) enum Turn {
    /// The driver's.
    Driver(usize),
    /// That of the CPU's agent.
    Agent(Cpu, usize),
}

/// Draws of a seed, by which some agents are slow: each one, and the driver, has a weight.
#[derive(Drop)]
pub(crate) struct Draws {
    numbers: Pcg32,
    cpus: u8,
    /// The driver's.
    driver: u64,
    /// Those of the agents, by CPUs.
    agents: Vec<u64>,
}

/// 1, 4, 16 or 64.
fn weight(numbers: &mut Pcg32) -> u64 {
    match numbers.next_u32() % 4 {
        0 => 1,
        1 => 4,
        2 => 16,
        _ => 64,
    }
}

impl Draws {
    /// The draws of a seed, for so many agents.
    pub(crate) fn new(alloc: Global, seed: u64, cpus: u8) -> Result<Draws, AllocError> {
        let mut numbers = Pcg32::seed_from_u64(seed);
        let driver = weight(&mut numbers);
        let mut agents = Vec::with_capacity(alloc, cpus as usize)?;
        for _ in 0..cpus {
            let agent = weight(&mut numbers);
            agents.push(agent)?;
        }
        Ok(Draws {
            numbers,
            cpus,
            driver,
            agents,
        })
    }

    /// A number below this one; 0 below none.
    fn below(&mut self, bound: u64) -> u64
        ensures below { 0 < bound → result < bound }
        ensures cpus { self.new.cpus ≡ self.old.cpus }
    {
        if bound == 0 {
            return 0;
        }
        self.numbers.next_u64() % bound
    }

    /// One of so many choices.
    fn choose(&mut self, choices: usize) -> usize
        ensures below { 0 < choices → result < choices }
        ensures cpus { self.new.cpus ≡ self.old.cpus }
    {
        self.below(choices as u64) as usize
    }

    /// The weight of the CPU's agent.
    fn weight_of(&self, cpu: u8) -> u64 {
        match self.agents.get(cpu as usize) {
            Some(weight) => *weight,
            None => 0,
        }
    }

    /// The weights, summed, of those that have a choice.
    fn weigh(&self, machine: &Protocol, driver: usize) -> u64 {
        let mut all: u64 = 0;
        if driver > 0 {
            all = self.driver;
        }
        for cpu in 0..self.cpus {
            if machine.choices(Cpu(cpu)) > 0 {
                all = all.saturating_add(self.weight_of(cpu));
            }
        }
        all
    }

    /// Whose step is next, where the driver has so many choices; none where nobody has one.
    pub(crate) fn next(&mut self, machine: &Protocol, driver: usize) -> Option<Turn>
        ensures turn { MatchOption result (NobodyChooses machine.now self.old.cpus driver)
            (IsChoice machine.now self.old.cpus driver) }
        ensures cpus { self.new.cpus ≡ self.old.cpus }
    {
        let all = self.weigh(machine, driver);
        let mut drawn = self.below(all);
        // The weights come to more than what was drawn, so a turn is found below. That is not proved: the last one that
        // could be stands in.
        let mut last = None;
        if driver > 0 {
            if drawn < self.driver {
                return Some(Turn::Driver(self.choose(driver)));
            }
            drawn -= self.driver;
            last = Some(Turn::Driver(0));
        }
        for cpu in 0..self.cpus {
            let choices = machine.choices(Cpu(cpu));
            if choices > 0 {
                let weight = self.weight_of(cpu);
                if drawn < weight {
                    return Some(Turn::Agent(Cpu(cpu), self.choose(choices)));
                }
                drawn -= weight;
                last = Some(Turn::Agent(Cpu(cpu), 0));
            }
        }
        last
    }
}
