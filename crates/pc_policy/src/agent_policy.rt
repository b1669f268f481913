//! What an agent goes by.

ghost use Rattle.std.specs.Prelude.{◌≡◌, IfOk};
ghost use Rattle.pc_policy.specs.Names.{AreAll, rules_named};
ghost use Rattle.pc_policy.specs.Rules.{rules_of, usual};

use crate::named::PolicyName;
use crate::order::Order;
use std::alloc::{AllocError, Global};

/// Which thread a steal takes (own).
#[derive(Clone, Copy, Debug, PartialEq, Eq)]
pub enum Stealing {
    /// Of the threads that it may, the one with the least name, also where news of it is late: the kernel may refuse
    /// it then.
    Least,
    /// Of the threads that it may and of which it knows every message, the one of the least rank, and of those the one
    /// with the least name: the kernel refuses it only while a message of it waits in its queue.
    Exact,
}

/// What an agent goes by: in which order it runs its threads, and which thread it steals.
#[derive(Debug, Drop)]
pub struct AgentPolicy {
    /// The order of its run list.
    pub order: Order,
    /// Which thread a steal takes.
    pub stealing: Stealing,
}

impl AgentPolicy {
    /// The highest level first, and the least name is stolen: what an agent goes by where nothing else is said.
    pub const fn usual() -> AgentPolicy
        ensures { rules_of result ≡ usual }
    {
        AgentPolicy::named(PolicyName::USUAL)
    }

    /// The policy of this name. It takes no memory.
    pub const fn named(name: PolicyName) -> AgentPolicy
        ensures { rules_of result ≡ rules_named name }
    {
        AgentPolicy {
            order: Order::Named(name.order),
            stealing: name.stealing(),
        }
    }

    /// The policy of this name for each of so many agents.
    pub fn for_each(
        alloc: Global,
        name: PolicyName,
        agents: u8,
    ) -> Result<Vec<AgentPolicy>, AllocError>
        ensures { IfOk result (λ policies. AreAll (rules_named name) agents policies.items) }
    {
        let name = &name;
        let mut policies = Vec::new(alloc);
        for _ in 0..agents {
            policies.push(AgentPolicy::named(*name))?;
        }
        Ok(policies)
    }

    /// The same policy.
    pub fn try_copy(&self) -> Result<AgentPolicy, AllocError>
        ensures { IfOk result (λ copy. rules_of copy ≡ rules_of self.now) }
    {
        Ok(AgentPolicy {
            order: self.order.try_copy()?,
            stealing: self.stealing,
        })
    }
}
