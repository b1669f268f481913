//! The agents of a world.

ghost use Rattle.std.specs.Prelude.{IfOk, ◌≡◌};
ghost use Rattle.pc_policy.specs.Rules.{rules_of};
ghost use Rattle.pc_world.specs.PlainWorld.{rules_at};
ghost use Rattle.pc_world.specs.Inner.Agents.{AreNew};

use pc_agent::Agent;
use pc_join::OutOfMemory;
use pc_messages::Cpu;
use pc_policy::AgentPolicy;
use std::alloc::Global;

/// The policy of a CPU: the usual one, where none is given.
fn policy_at(policies: &[AgentPolicy], cpu: u8) -> Result<AgentPolicy, OutOfMemory>
    ensures { IfOk result (λ policy. rules_of policy ≡ rules_at policies.now cpu) }
{
    let place = cpu as usize;
    if place >= policies.len() {
        return Ok(AgentPolicy::usual());
    }
    let policy = &policies[place];
    let copy = policy.try_copy()?;
    Ok(copy)
}

/// The agents of so many CPUs, who know nothing, with these policies from CPU 0 on; those of further CPUs go by the
/// usual one.
pub fn new_agents(
    alloc: Global,
    cpus: u8,
    policies: &[AgentPolicy],
) -> Result<Vec<Agent>, OutOfMemory>
    ensures { IfOk result (λ agents. AreNew (rules_at policies.now) cpus agents.items) }
{
    let mut agents = Vec::new(alloc);
    for cpu in 0..cpus {
        let policy = policy_at(policies, cpu)?;
        agents.push(Agent::with_policy(alloc, Cpu(cpu), policy))?;
    }
    Ok(agents)
}
