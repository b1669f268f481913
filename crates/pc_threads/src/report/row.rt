//! A report's row of an agent.

ghost use Rattle.std.specs.Prelude.{◌≡◌};
ghost use Rattle.pc_agent.specs.Shows.{counts_of, cpu_of};

use pc_agent::Agent;
use pc_messages::Cpu;

/// A report's row: what one CPU's agent counted in the run (own).
#[derive(Clone, Copy, Debug, PartialEq, Eq)]
pub struct Row {
    pub cpu: Cpu,
    /// Items consumed.
    pub taken: u64,
    /// Threads committed.
    pub commits: u64,
    /// Threads taken over.
    pub steals: u64,
    /// Picks and steals refused as stale.
    pub stale: u64,
    /// Steals refused as messages were pending.
    pub pending: u64,
    /// Picks and steals refused otherwise, those of the counts below.
    pub other: u64,
    /// Picks and steals refused as a thread runs on the CPU.
    pub busy: u64,
    /// Picks refused as no name of the run list may be committed.
    pub nothing_ready: u64,
    /// Steals refused as there is no thread to choose.
    pub nothing_to_steal: u64,
    /// Steals refused as the thread is dead.
    pub dead: u64,
}

impl Row {
    /// What the agent counted.
    pub fn of(agent: &Agent) -> Row
        ensures cpu { result.cpu ≡ cpu_of agent.now }
        ensures taken { result.taken ≡ (counts_of agent.now).taken }
        ensures commits { result.commits ≡ (counts_of agent.now).commits }
        ensures steals { result.steals ≡ (counts_of agent.now).steals }
        ensures stale { result.stale ≡ (counts_of agent.now).stale }
        ensures pending { result.pending ≡ (counts_of agent.now).pending }
        ensures other { result.other ≡ (counts_of agent.now).other }
        ensures busy { result.busy ≡ (counts_of agent.now).busy }
        ensures nothing_ready { result.nothing_ready ≡ (counts_of agent.now).nothing_ready }
        ensures nothing_to_steal { result.nothing_to_steal ≡ (counts_of agent.now).nothing_to_steal }
        ensures dead { result.dead ≡ (counts_of agent.now).dead }
    {
        let counts = agent.counts();
        Row {
            cpu: agent.cpu(),
            taken: counts.taken,
            commits: counts.commits,
            steals: counts.steals,
            stale: counts.stale,
            pending: counts.pending,
            other: counts.other,
            busy: counts.busy,
            nothing_ready: counts.nothing_ready,
            nothing_to_steal: counts.nothing_to_steal,
            dead: counts.dead,
        }
    }
}
