//! Calls as values.

ghost use Rattle.std.specs.Prelude.{◌≡◌, Err};
ghost use Rattle.std.specs.Result.{result_map_both};

use crate::kernel::Kernel;
use pc_calls::{AgentCall, Answer, Call, CallFault, EnvCall, Posted, Refusal};

impl Kernel {
    ghost use Rattle.pc_kernel.specs.Answers.{Answered, AnsweredInMemory, done, itself};

    /// Makes the call.
    // Inlined: a caller with calls of one kind then chooses among the kinds once, and the answer is not handed on
    // through memory.
    #[inline(always)]
    pub fn apply(&mut self, call: Call) -> Result<Answer, CallFault>
        ensures answered { AnsweredInMemory itself call result self.old self.new }
        ensures environment { result ≡ Err CallFault.OutOfMemory → (env : EnvCall) × (call ≡ Call.Env env) }
    {
        match call {
            Call::Env(call) => posted(self.apply_env(call)),
            Call::Agent(call) => done(self.apply_agent(call)),
            Call::Consume { cpu, count } => done(self.consume(cpu, count)),
        }
    }

    /// Makes the environment's call. Its answer is what was posted.
    // Inlined as `apply` is.
    #[inline(always)]
    pub fn apply_env(&mut self, call: EnvCall) -> Result<Posted, CallFault>
        ensures { AnsweredInMemory Answer.Posted (Call.Env call) result self.old self.new }
    {
        match call {
            EnvCall::Create { queue, mask, ready } => self.create(queue, mask, ready),
            EnvCall::Wake { thread } => self.wake(thread),
            EnvCall::Block { cpu, ran } => self.block(cpu, ran),
            EnvCall::YieldNow { cpu, ran } => self.yield_now(cpu, ran),
            EnvCall::Preempt { cpu, ran } => self.preempt(cpu, ran),
            EnvCall::Die { cpu, ran } => self.die(cpu, ran),
            EnvCall::SetAffinity { thread, mask } => self.set_affinity(thread, mask),
            EnvCall::SetPriority { thread, level } => self.set_priority(thread, level),
            EnvCall::Tick { cpu } => self.tick(cpu),
        }
    }

    /// Makes the agent's call.
    // Inlined as `apply` is.
    #[inline(always)]
    fn apply_agent(&mut self, call: AgentCall) -> Result<(), Refusal>
        ensures { Answered done (Call.Agent call) result self.old self.new }
    {
        match call {
            AgentCall::Associate {
                thread,
                queue,
                number,
            } => self.associate(thread, queue, number),
            AgentCall::Commit { cpu, thread, aseq } => self.commit(cpu, thread, aseq),
            AgentCall::Sleep { cpu, aseq } => self.sleep(cpu, aseq),
            AgentCall::Rouse { cpu } => self.rouse(cpu),
            AgentCall::Config { queue, target } => self.config_wakeup(queue, target),
        }
    }
}

/// What a call of the environment answers.
fn posted(outcome: Result<Posted, CallFault>) -> Result<Answer, CallFault>
    ensures { result ≡ result_map_both Answer.Posted (λ fault. fault) outcome }
{
    match outcome {
        Ok(posted) => Ok(Answer::Posted(posted)),
        Err(fault) => Err(fault),
    }
}

/// What an agent's call answers.
fn done(outcome: Result<(), Refusal>) -> Result<Answer, CallFault>
    ensures { result ≡ result_map_both (λ _. Answer.Done) CallFault.Refused outcome }
{
    match outcome {
        Ok(()) => Ok(Answer::Done),
        Err(refusal) => Err(CallFault::Refused(refusal)),
    }
}
