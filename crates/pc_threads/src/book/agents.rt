//! What an agent does with the kernel of a book: each of its calls that is accepted is listed.

ghost use Rattle.std.specs.Prelude.{◌≡◌, ◌≢◌, Err, IfOk, IfSome, OnErr};
ghost use Rattle.pc_calls.specs.AgentCalls.{commits};
ghost use Rattle.pc_calls.specs.declared.call.Answer.TheVariants.{Done};
ghost use Rattle.pc_calls.specs.declared.call.Call.TheVariants as call;
ghost use Rattle.pc_messages.specs.Run.{Extends};
ghost use Rattle.pc_view.specs.Prefixes.{upto_of};
ghost use Rattle.pc_agent.specs.Counts.{consume_counted, pick_counted, steal_counted};
ghost use Rattle.pc_agent.specs.Own.{ConsumesAsSeen, PicksAsSeen, StealsAsSeen};
ghost use Rattle.pc_agent.specs.Publishing.{IsConsumed, WhateverShown};
ghost use Rattle.pc_agent.specs.Running.{IsPicked, Steals, takes_up_to};
ghost use Rattle.pc_agent.specs.Shows.{counts_of, cpu_of, list_of, rules_in, sent_of, view_of};

use crate::book::{Book, list, make_room};
use pc_agent::Agent;
use pc_calls::{AgentCall, Answer, Call, CallFault, Refusal};
use pc_messages::Tid;

impl Book {
    ghost use Rattle.pc_threads.specs.Pages.{Lists, answered, run_of};

    /// The agent removes from its queue the items that it has sent, and answers how many.
    pub fn consume(&mut self, agent: &mut Agent) -> Result<u32, CallFault>
        ensures listed { IfOk result (λ count. Lists (call.Consume (cpu_of agent.old) count) Done self.old self.new) }
        ensures consumes { IfSome (answered result) (λ answer. WhateverShown self.old.kernel agent.old (λ P run p.
            IsConsumed P run p answer (cpu_of agent.old) agent.new self.new.kernel)) }
        ensures own { IfSome (answered result)
            (λ answer. ConsumesAsSeen agent.old self.old.kernel answer agent.new self.new.kernel) }
        ensures counts { IfSome (answered result)
            (λ answer. counts_of agent.new ≡ consume_counted answer (counts_of agent.old)) }
        ensures cpu { cpu_of agent.new ≡ cpu_of agent.old }
        ensures extends { IfOk result (λ _. Extends (run_of self.new) (run_of self.old)) }
        ensures limits { self.new.kernel.limits ≡ self.old.kernel.limits }
        ensures err { OnErr result (self.new ≡ self.old) }
        ensures agent_err { OnErr result (agent.new ≡ agent.old) }
    {
        if make_room(&mut self.calls).is_err() {
            return Err(CallFault::OutOfMemory);
        }
        let cpu = agent.cpu();
        match agent.consume(&mut self.kernel) {
            Ok(count) => {
                let consumed = Call::Consume { cpu, count };
                list(&mut self.calls, &consumed, &Answer::Done);
                Ok(count)
            }
            Err(refusal) => Err(CallFault::Refused(refusal)),
        }
    }

    /// The agent commits the first thread of its run list that the kernel accepts, under the count of posts that it
    /// read.
    ///
    /// A refused pick raises a count of the agent, and empties its run list where it is `NothingReady`. Without memory
    /// for the list the agent is not asked, and is as it was.
    pub fn pick(&mut self, agent: &mut Agent, aseq: u32) -> Result<Tid, CallFault>
        ensures listed { IfOk result
            (λ thread. Lists (commits (cpu_of agent.old) thread aseq) Done self.old self.new) }
        ensures picks { IfSome (answered result) (λ answer. WhateverShown self.old.kernel agent.old (λ P run p.
            IsPicked aseq P run p answer (cpu_of agent.old) agent.new self.new.kernel)) }
        ensures own { IfSome (answered result)
            (λ answer. PicksAsSeen aseq agent.old self.old.kernel answer agent.new self.new.kernel) }
        ensures counts { IfSome (answered result)
            (λ answer. counts_of agent.new ≡ pick_counted answer (counts_of agent.old)) }
        ensures no_memory { result ≡ Err CallFault.OutOfMemory → agent.new ≡ agent.old }
        ensures cpu { cpu_of agent.new ≡ cpu_of agent.old }
        ensures extends { IfOk result (λ _. Extends (run_of self.new) (run_of self.old)) }
        ensures limits { self.new.kernel.limits ≡ self.old.kernel.limits }
        ensures err { OnErr result (self.new ≡ self.old) }
    {
        if make_room(&mut self.calls).is_err() {
            return Err(CallFault::OutOfMemory);
        }
        let cpu = agent.cpu();
        match agent.pick(&mut self.kernel, aseq) {
            Ok(thread) => {
                let committed = Call::Agent(AgentCall::Commit { cpu, thread, aseq });
                list(&mut self.calls, &committed, &Answer::Done);
                Ok(thread)
            }
            Err(refusal) => Err(CallFault::Refused(refusal)),
        }
    }

    /// The agent takes over the first thread that it may, by its policy.
    ///
    /// A refused steal raises a count of the agent. Want of memory changes nothing, whether it is for the list or for
    /// the agent's run list.
    pub fn steal(&mut self, agent: &mut Agent) -> Result<Tid, CallFault>
        ensures listed { IfOk result (λ thread.
            Lists (takes_up_to (upto_of (view_of agent.old)) (cpu_of agent.old) thread) Done self.old self.new) }
        ensures steals { result ≢ Err CallFault.OutOfMemory → WhateverShown self.old.kernel agent.old (λ P run p.
            Steals P run p result (cpu_of agent.old) agent.new self.new.kernel) }
        ensures own { result ≢ Err CallFault.OutOfMemory →
            StealsAsSeen (rules_in agent.old) (view_of agent.old) (cpu_of agent.old) result (list_of agent.old)
            (list_of agent.new) self.old.kernel self.new.kernel }
        ensures list_err { OnErr result (list_of agent.new ≡ list_of agent.old) }
        ensures counts { counts_of agent.new ≡ steal_counted result (counts_of agent.old) }
        ensures view { view_of agent.new ≡ view_of agent.old }
        ensures sent { sent_of agent.new ≡ sent_of agent.old }
        ensures cpu { cpu_of agent.new ≡ cpu_of agent.old }
        ensures extends { IfOk result (λ _. Extends (run_of self.new) (run_of self.old)) }
        ensures limits { self.new.kernel.limits ≡ self.old.kernel.limits }
        ensures err { OnErr result (self.new ≡ self.old) }
    {
        if make_room(&mut self.calls).is_err() {
            return Err(CallFault::OutOfMemory);
        }
        let queue = agent.cpu();
        match agent.steal(&mut self.kernel) {
            Ok(thread) => {
                let number = agent.view().upto(thread);
                let associated = Call::Agent(AgentCall::Associate {
                    thread,
                    queue,
                    number,
                });
                list(&mut self.calls, &associated, &Answer::Done);
                Ok(thread)
            }
            Err(fault) => Err(fault),
        }
    }
}
