//! What agents in threads do, turn by turn, as a machine, and laws that hold of each of its states.
//!
//! A scheduler stalls where a thread is ready, a CPU idles, and no agent will ever look again. Agents that follow this
//! protocol do not come to that: whatever the environment did, whoever was slow, in whatever order notes were taken.
//! Agents that start again are not among these, nor sends that are refused. That the threads of a program do these
//! steps, and no others, is not proved; nor that they are scheduled, and that what they send arrives.
//!
//! `Protocol` is the machine as a value: each of its calls is a step of the machine, so each law holds of it.
#![tactic(auto)]

mod machine;
mod question;
mod seats;
mod steps;
mod turns;

ghost use Rattle.pc_world.specs.Inner.Laws.{KernelLaws};
ghost use Rattle.pc_protocol.specs.Resting.{AgentsGoOn, AtRestAllIsHeld, AtRestItsThreadsAreKnown};
ghost use Rattle.pc_protocol.specs.Resting.{AtRestMailTellsTheRest, AtRestNothingWaits, AtRestQueuesAreEmpty};
ghost use Rattle.pc_protocol.specs.Resting.{RestCanCome, SleepersHaveNothing, SomeStateRests, StatesAreReached};
ghost use Rattle.pc_protocol.specs.Resting.{WhoWaitsHasNoStep};
ghost use Rattle.pc_protocol.specs.Running.{DriversGoOn, DriversWake, RestIsDone, RunsGoOn, SomeRunIsOver};

pub use machine::{Protocol, StepFault};
use pc_kernel::laws::{
    accepted_associates_are_exact, accepted_commits_are_exact, calls_extend_the_run,
    homes_are_there, messages_are_posted, messages_stay_home, queues_go_on,
    queues_lose_only_what_was_posted, reads_are_plain, runs_are_begun, sleepers_had_no_post,
    threads_are_placed,
};
use pc_view::upto_is_the_greatest;
use pc_world::laws::every_event_has_a_step;
pub use turns::Told;

/// The laws of the kernel.
pub(crate) fn kernel_laws()
    ensures { KernelLaws }
{
    messages_stay_home();
    threads_are_placed();
    sleepers_had_no_post();
    runs_are_begun();
    calls_extend_the_run();
    reads_are_plain();
    accepted_associates_are_exact();
    accepted_commits_are_exact();
    messages_are_posted();
    queues_go_on();
    queues_lose_only_what_was_posted();
    homes_are_there();
}

/// Events lead to the world of each state, so whatever `pc_world` says of worlds holds of agents in threads too:
/// nothing is lost, and a steal that succeeds is exact.
pub fn states_are_reached()
    ensures { StatesAreReached }
{
    kernel_laws();
}

/// An agent may wait for a note without another look at its queue: where none is under way to it, its queue is empty,
/// and the kernel has it asleep. That stands on the count of posts that it read, under which it sleeps.
pub fn sleepers_have_nothing()
    ensures { SleepersHaveNothing }
{
    kernel_laws();
}

/// Nothing stalls: where no agent has anything to do, and a CPU idles, no thread waits that the CPU's agent would take.
/// The agent that knows all of such a thread would have committed or stolen it, or it asked those that know more.
pub fn at_rest_nothing_waits()
    ensures { AtRestNothingWaits }
{
    kernel_laws();
    upto_is_the_greatest();
}

/// What agents may rely on where none has anything to do, though news that was not urgent may still lie in mailboxes.
/// What an agent knows and what its mailbox holds are together the messages of the run and no others: so once it has
/// taken its mail in, its view is that of each other agent. Of a thread that may run on its CPU it knows all already.
/// And the queues of all CPUs are empty.
pub fn at_rest_all_is_known()
    ensures held { AtRestAllIsHeld }
    ensures threads { AtRestItsThreadsAreKnown }
    ensures queues { AtRestQueuesAreEmpty }
    ensures mail { AtRestMailTellsTheRest }
{
    kernel_laws();
    upto_is_the_greatest();
}

/// No agent gets stuck in its turn: it has a step, unless it waits and no note is under way to it. So a state is at
/// rest exactly where no agent has a step.
pub fn agents_go_on()
    ensures on { AgentsGoOn }
    ensures waits { WhoWaitsHasNoStep }
{
    kernel_laws();
    every_event_has_a_step();
}

/// A state at rest may have a thread on one CPU and none on another: the laws of rest speak of something.
pub fn some_state_rests()
    ensures { SomeStateRests }
{}

/// Agents can always come to rest by their own steps, whatever has happened. That they do is not said: where the agent
/// whose queue holds a message never runs, one that asks for it and one that answers may go on for ever.
pub fn rest_can_come()
    ensures { RestCanCome }
{
    kernel_laws();
    upto_is_the_greatest();
    every_event_has_a_step();
}

/// A run has a step, unless the kernel refuses what the driver would do, or neither an agent nor the driver has
/// anything to do; in the last case every thread of the plans is dead. For that each agent has to take whatever waits
/// for its CPU: it steals also what it does not know to the end, or it ranks every thread. Else a thread without a rank
/// waits for ever.
pub fn rest_is_done()
    ensures done { RestIsDone }
    ensures on { RunsGoOn }
{
    kernel_laws();
    upto_is_the_greatest();
    every_event_has_a_step();
}

/// A driver is not stuck either: on each CPU of which it was told a thread runs that has a deed left. It does that
/// deed, unless the kernel refuses the call, as where a queue is full; and so it wakes a thread that it blocked.
pub fn drivers_go_on()
    ensures deeds { DriversGoOn }
    ensures wakes { DriversWake }
{
    kernel_laws();
}

/// Some run comes to its end: the law that then every thread is dead speaks of something.
pub fn some_run_is_over()
    ensures { SomeRunIsOver }
{}
