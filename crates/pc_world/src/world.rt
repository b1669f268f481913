//! The kernel, its agents, and what they sent.

ghost use Rattle.std.specs.Prelude.{◌≡◌, Some, None, IfOk, IfSome, OnOk, OnErr, ◌∷◌, [], ◌++◌};
ghost use Rattle.std.specs.Prelude.{option_copied, option_map};
ghost use Rattle.pc_agent.specs.Shows.{counts_of, cpu_of};
ghost use Rattle.pc_calls.specs.Limits.{bad_field};
ghost use Rattle.pc_kernel.specs.Answers.{Shows};
ghost use Rattle.pc_kernel.specs.PlainKernel.{kinds};
ghost use Rattle.pc_world.specs.PlainWorld.{PlainWorld, opened, opened_by, rules_at};
ghost use Rattle.pc_world.specs.Steps.{Step};

use crate::agents::new_agents;
use crate::laws::kernel_laws;
use crate::parts::Parts;
use pc_agent::{Agent, KeptWire};
use pc_calls::{Event, LimitField, Limits, LimitsFault, Posted, Profile, Refusal, Reply};
use pc_delta::{Delta, Digest};
use pc_join::OutOfMemory;
use pc_kernel::Kernel;
use pc_messages::{Cpu, Tid};
use pc_policy::AgentPolicy;
use pc_view::View;
use std::alloc::Global;
use std::marker::Model;

/// A kernel, an agent for each of its CPUs, and every delta that an agent ever sent.
///
/// It keeps the deltas, so that each can be delivered late, again or never.
#[derive(Drop)]
pub struct World {
    parts: Parts,
}

impl Model for World {
    ghost use Rattle.pc_world.specs.contracts.parts.Parts.{the_row};
    ghost use Rattle.pc_world.specs.declared.parts.Parts.{Parts};
    ghost use Rattle.pc_world.specs.Shows.{IsReached};

    ghost Value = { Parts };

    ghost coded = { the_row.coded };

    ghost view = { λ w. w.parts };

    ghost invariant = { λ w. IsReached w.parts };
}

/// Puts an item at the end.
fn add<T: Drop>(items: &mut Vec<T>, item: T) -> Result<(), OutOfMemory>
    ensures ok { OnOk result (items.new.items ≡ items.old.items ++ item ∷ []) }
{
    match items.push(item) {
        Ok(()) => Ok(()),
        Err(_) => Err(OutOfMemory),
    }
}

impl World {
    ghost use Rattle.pc_delta.specs.Digests.{set_of_digest};
    ghost use Rattle.pc_world.specs.Shows.{AnswersDigest, AreSent, Does, IsAgentAt, IsReached, IsViewAt, KeepsSent};
    ghost use Rattle.pc_world.specs.Shows.{LeavesWhenRanOut, RunsInPart, RunsThrough, ShowsTheSame, ShowsWorld};
    ghost use Rattle.pc_world.specs.Shows.{deltas_of};
    ghost use Rattle.pc_world.specs.Counting.{CountsEvent, CountsEvents, CountsInPart, CountsNothing};
    ghost use Rattle.pc_world.specs.Counting.{HaveCountedNothing, counts_at};
    ghost use Rattle.pc_world.specs.Inner.Handling.{CountsInto, CountsOrLeaves, StepsInPart, StepsInto};

    /// The world at the start, with limits of profile One. Each agent runs the thread of the highest level first.
    pub fn new(alloc: Global, limits: Limits) -> Result<World, LimitsFault>
        ensures ok { IfOk result (λ world. ShowsWorld world (opened limits)) }
        ensures counts { IfOk result (λ world. HaveCountedNothing world) }
        ensures within { IfOk result (λ _. bad_field Profile.One limits ≡ None) }
        ensures refused { (field : LimitField) → result ≡ Err (LimitsFault.BadLimits field)
            → bad_field Profile.One limits ≡ Some field }
        ensures memory_last { result ≡ Err LimitsFault.OutOfMemory → bad_field Profile.One limits ≡ None }
    {
        Self::new_in(alloc, Profile::One, limits)
    }

    /// The world at the start, with limits of the profile. Each agent runs the thread of the highest level first.
    pub fn new_in(alloc: Global, profile: Profile, limits: Limits) -> Result<World, LimitsFault>
        ensures ok { IfOk result (λ world. ShowsWorld world (opened limits)) }
        ensures counts { IfOk result (λ world. HaveCountedNothing world) }
        ensures within { IfOk result (λ _. bad_field profile limits ≡ None) }
        ensures refused { (field : LimitField) → result ≡ Err (LimitsFault.BadLimits field)
            → bad_field profile limits ≡ Some field }
        ensures memory_last { result ≡ Err LimitsFault.OutOfMemory → bad_field profile limits ≡ None }
    {
        Self::new_by(alloc, profile, limits, &[])
    }

    /// The world at the start, with limits of the profile, and with the policies of CPUs 0, 1, ..: an agent for whose
    /// CPU none is given goes by the usual one, and policies of further CPUs are not looked at.
    pub fn new_by(
        alloc: Global,
        profile: Profile,
        limits: Limits,
        policies: &[AgentPolicy],
    ) -> Result<World, LimitsFault>
        ensures ok { IfOk result (λ world. ShowsWorld world (opened_by (rules_at policies.now) limits)) }
        ensures counts { IfOk result (λ world. HaveCountedNothing world) }
        ensures within { IfOk result (λ _. bad_field profile limits ≡ None) }
        ensures refused { (field : LimitField) → result ≡ Err (LimitsFault.BadLimits field)
            → bad_field profile limits ≡ Some field }
        ensures memory_last { result ≡ Err LimitsFault.OutOfMemory → bad_field profile limits ≡ None }
    {
        match Kernel::new_in(alloc, profile, limits) {
            Err(fault) => Err(fault),
            Ok(kernel) => match new_agents(alloc, kernel.cpus(), policies) {
                Err(_) => Err(LimitsFault::OutOfMemory),
                Ok(agents) => Ok(World {
                    parts: Parts {
                        alloc,
                        kernel,
                        agents,
                        wire: KeptWire::new(alloc),
                    },
                }),
            },
        }
    }

    /// A list of events leads from the start to what the world shows, and each agent goes by the rules of the start. It
    /// does nothing.
    pub fn is_reached(&self)
        ensures { IsReached self.now }
    {
        let _ = &self.parts;
    }

    /// The kernel.
    pub fn kernel(&self) -> &Kernel
        ensures { (w : PlainWorld) → ShowsWorld self.now w → Shows result.now w.kernel }
    {
        &self.parts.kernel
    }

    /// The CPU's agent; none of a CPU that is not there.
    pub fn agent(&self, cpu: Cpu) -> Option<&Agent>
        ensures shown { (w : PlainWorld) → ShowsWorld self.now w → IsAgentAt w cpu (option_copied result) }
        ensures cpu { IfSome (option_copied result) (λ agent. cpu_of agent ≡ cpu) }
        ensures counts { option_map counts_of (option_copied result) ≡ counts_at self.now cpu }
    {
        self.parts.agent(cpu)
    }

    /// The view of the CPU's agent; none of a CPU that is not there.
    pub fn view(&self, cpu: Cpu) -> Option<&View>
        ensures { (w : PlainWorld) → ShowsWorld self.now w → IsViewAt w cpu (option_copied result) }
    {
        match self.agent(cpu) {
            Some(agent) => Some(agent.view()),
            None => None,
        }
    }

    /// The deltas that were sent, in order.
    pub fn sent(&self) -> &[Delta]
        ensures same { result.now ≡ deltas_of self.now }
        ensures tell { (w : PlainWorld) → ShowsWorld self.now w → AreSent (kinds w.kernel) w.sent result.now }
    {
        self.parts.wire.sent()
    }

    /// Takes an event. Want of memory comes only where no refusal before it holds: a refused send, and what the kernel
    /// refuses of a steal, come after it. Nothing changed then, but that the agent of a publish or a deliver may have
    /// taken in a part, and that of a publish whose send found no memory all, with its run list refreshed.
    pub fn step(&mut self, event: Event) -> Result<Reply, OutOfMemory>
        ensures step { IfOk result (Does (λ w. Step w event) self.old self.new) }
        ensures no_memory { OnErr result (LeavesWhenRanOut event self.old self.new) }
        ensures counts { IfOk result (λ told. CountsEvent event self.old self.new told) }
        ensures uncounted { OnErr result (CountsNothing self.old self.new) }
        ensures kept { KeepsSent self.old self.new }
    {
        let mut reply = Reply::Done;
        match self.step_in_place(&event, &mut reply) {
            Ok(()) => Ok(reply),
            Err(fault) => Err(fault),
        }
    }

    /// Takes an event as [`World::step`] does, and puts its reply in the place of another one. So neither is copied on
    /// its way. Where memory runs out, the place keeps what it held.
    pub fn step_in_place(&mut self, event: &Event, reply: &mut Reply) -> Result<(), OutOfMemory>
        ensures step { OnOk result (Does (λ w. Step w event.now) self.old self.new reply.new) }
        ensures no_memory { OnErr result (LeavesWhenRanOut event.now self.old self.new) }
        ensures counts { OnOk result (CountsEvent event.now self.old self.new reply.new) }
        ensures uncounted { OnErr result (CountsNothing self.old self.new) }
        ensures kept { KeepsSent self.old self.new }
        ensures unanswered { OnErr result (reply.new ≡ reply.old) }
    {
        kernel_laws();
        self.parts.handle(event, reply)
    }

    /// Has the CPU's agent send what a digest lacks of all that it knows, whenever the digest was made: the answer to
    /// one of this moment is [`Event::Answer`]. Its reply is that of an answer, or that the CPU is not there. Where
    /// memory runs out, nothing is sent.
    pub fn answer_digest(&mut self, cpu: Cpu, digest: &Digest) -> Result<Reply, OutOfMemory>
        ensures answers { IfOk result (AnswersDigest (set_of_digest digest.now) cpu self.old self.new) }
        ensures no_memory { OnErr result (ShowsTheSame self.old self.new) }
        ensures counts { CountsNothing self.old self.new }
        ensures kept { KeepsSent self.old self.new }
    {
        self.parts.answer_digest(cpu, digest)
    }

    /// Takes events, one after another, and gives the reply of each. Where memory runs out, some first events were
    /// done, in their order, and the next one as far as [`World::step`] says.
    pub fn run(&mut self, events: &[Event]) -> Result<Vec<Reply>, OutOfMemory>
        ensures run { IfOk result (λ replies. RunsThrough events.now replies.items self.old self.new) }
        ensures no_memory { OnErr result (RunsInPart events.now self.old self.new) }
        ensures counts { IfOk result (λ replies. CountsEvents events.now replies.items self.old self.new) }
        ensures counts_in_part { OnErr result (CountsInPart events.now self.old self.new) }
        ensures kept { KeepsSent self.old self.new }
    {
        let mut replies = Vec::new(self.parts.alloc);
        for event in events {
            self.step_into(*event, &mut replies)?;
        }
        Ok(replies)
    }

    /// Takes an event, and puts its reply at the end.
    fn step_into(&mut self, event: Event, replies: &mut Vec<Reply>) -> Result<(), OutOfMemory>
        ensures ok { OnOk result (StepsInto event replies.old.items replies.new.items self.old self.new) }
        ensures no_memory { OnErr result (StepsInPart event self.old self.new) }
        ensures counts { OnOk result (CountsInto event replies.old.items replies.new.items self.old self.new) }
        ensures counts_in_part { OnErr result (CountsOrLeaves event self.old self.new) }
        ensures kept { KeepsSent self.old self.new }
    {
        // The checker finds the types that a reply nests only where the function names them.
        let _: (Option<Posted>, Option<Tid>, Option<Cpu>, Option<Refusal>) = (
            None, None, None, None,
        );
        match self.step(event) {
            Ok(reply) => add(replies, reply),
            Err(fault) => Err(fault),
        }
    }
}
