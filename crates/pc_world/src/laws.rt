//! What holds after every list of events, whatever they are: with crashes anywhere, deltas that are lost, late or
//! repeated, answers to digests of long ago, and want of memory at any event.

ghost use Rattle.pc_world.specs.Callers.{WhatAStealTookIsReported, WhoHasAllIsComplete};
ghost use Rattle.pc_world.specs.Facts.{AllIsComplete, CommitsAreExact, ConsumesTakeWhatWasSent, CountedIsThere};
ghost use Rattle.pc_world.specs.Facts.{CountedWasSent, EveryEventHasAStep, KernelsAreReplays, KnownLiesInTheRun};
ghost use Rattle.pc_world.specs.Facts.{MessagesStayHome, NamesAreDense, NothingIsLost, PicksAreExact, RunsAreBegun};
ghost use Rattle.pc_world.specs.Facts.{ExactStealsAreTaken, LevelsCopyByLevel, RulesStay, SentLiesInTheRun};
ghost use Rattle.pc_world.specs.Facts.{SleepersHadNoPost, StealsAreExact, ThreadsArePlaced};
ghost use Rattle.pc_world.specs.Inner.Laws.{KernelLaws};
ghost use Rattle.pc_world.specs.Mending.{AllCanBeKnown, AWaitingThreadCanBeRun, MendingGoesOn, ThatThreadCanBeRun};
ghost use Rattle.pc_world.specs.Mending.{WhatWasForgottenComesBack};
ghost use Rattle.pc_world.specs.Mends.{EveryCpuCanBeMended, MendedIsReached};

use pc_kernel::laws::{
    accepted_associates_are_exact, accepted_commits_are_exact, calls_extend_the_run,
    homes_are_there, messages_are_posted, messages_stay_home, queues_go_on,
    queues_lose_only_what_was_posted, reads_are_plain, runs_are_begun, sleepers_had_no_post,
    threads_are_placed,
};
use pc_run_queue::laws::levels_come_by_level;
use pc_view::{upto_is_the_greatest, views_tell_what_their_sets_tell};

/// The laws of the kernel.
pub(crate) fn kernel_laws()
    ensures { KernelLaws }
{
    messages_stay_home();
    threads_are_placed();
    sleepers_had_no_post();
    runs_are_begun();
    calls_extend_the_run();
    reads_are_plain();
    accepted_associates_are_exact();
    accepted_commits_are_exact();
    messages_are_posted();
    queues_go_on();
    queues_lose_only_what_was_posted();
    homes_are_there();
}

/// The kernel of a world that events lead to is the replay of a list of calls.
pub fn kernels_are_replays()
    ensures { KernelsAreReplays }
{
    kernel_laws();
}

/// The facts of every kernel hold in every world that events lead to: messages that were not consumed stay home,
/// threads are placed, sleepers that their own queue wakes had no post since they slept, runs are begun, and names
/// are dense.
pub fn kernel_facts_hold()
    ensures home { MessagesStayHome }
    ensures placed { ThreadsArePlaced }
    ensures rested { SleepersHadNoPost }
    ensures begun { RunsAreBegun }
    ensures dense { NamesAreDense }
{
    kernel_laws();
}

/// What an agent has taken in, and what was sent, are messages of the kernel's run.
pub fn views_are_of_the_run()
    ensures known { KnownLiesInTheRun }
    ensures sent { SentLiesInTheRun }
{
    kernel_laws();
}

/// The messages in queues together with those that were sent are all messages of the run, and no others. What an agent
/// counts as sent stands at the front of its queue, and was sent. So whoever takes in all that waits and all that was
/// sent knows every thread to its last message.
pub fn nothing_is_lost()
    ensures all { NothingIsLost }
    ensures counted { CountedWasSent }
    ensures short { CountedIsThere }
    ensures complete { AllIsComplete }
{
    kernel_laws();
    upto_is_the_greatest();
}

/// An agent on a CPU that is there removes from its queue exactly what it has sent; it is never refused.
pub fn consumes_remove_what_was_sent()
    ensures { ConsumesTakeWhatWasSent }
{
    kernel_laws();
}

/// Where a steal succeeds, the thief had seen all messages of the thread and reported the state that the kernel
/// reports, and no queue held a message of it.
pub fn steals_are_exact()
    ensures { StealsAreExact }
{
    kernel_laws();
}

/// Where a commit or a pick succeeds, the count that was handed in was that of all posts to the CPU's queue, the CPU
/// was idle, and the thread was ready, allowed, at home there and on no CPU.
pub fn commits_are_exact()
    ensures commits { CommitsAreExact }
    ensures picks { PicksAreExact }
{
    kernel_laws();
}

/// Every event has a step from every world that events lead to.
pub fn every_event_has_a_step()
    ensures { EveryEventHasAStep }
{
    kernel_laws();
}

/// Each agent goes by the rules of the start, on a CPU that is there or not: a crash keeps them.
pub fn rules_stay()
    ensures { RulesStay }
{
    kernel_laws();
}

/// Where steals are exact, the thread that one tries is not refused by the kernel, unless a message of it waits in its
/// home queue.
pub fn exact_steals_are_taken()
    ensures { ExactStealsAreTaken }
{
    reads_are_plain();
}

/// An agent that ranks by levels refreshes its run list with the threads of what it copies, the highest level first.
pub fn agents_by_levels_copy_by_level()
    ensures { LevelsCopyByLevel }
{
    levels_come_by_level();
}

/// An agent that has taken in all that waits in queues and all that was sent is complete for each thread that the
/// kernel knows, as `complete` (`pc_view`) tells of its view.
pub fn who_has_all_is_complete()
    ensures { WhoHasAllIsComplete }
{
    nothing_is_lost();
    reads_are_plain();
    views_tell_what_their_sets_tell();
}

/// Of the thread that a steal takes, the thief's view reports what the kernel reports.
pub fn what_a_steal_took_is_reported()
    ensures { WhatAStealTookIsReported }
{
    steals_are_exact();
    reads_are_plain();
    views_tell_what_their_sets_tell();
}

/// From every world that events lead to, whatever was lost, crashed or came late, the agents' own events lead to one in
/// which each agent knows all messages, and every queue is empty. None of them posts anything, so no limit stops them.
pub fn all_can_be_known()
    ensures { AllCanBeKnown }
{
    kernel_laws();
}

/// From every world that events lead to, the agents' own events put a thread on an idle CPU for which one waits: every
/// queue is cleared, the CPU's agent takes in all that was sent and picks; where nothing was ready, it steals and
/// picks.
pub fn a_waiting_thread_can_be_run()
    ensures { AWaitingThreadCanBeRun }
{
    kernel_laws();
    upto_is_the_greatest();
}

/// And where a thread waits for an idle CPU, the kernel's own calls for agents put that very thread on it, once every
/// queue is cleared.
pub fn that_thread_can_be_run()
    ensures { ThatThreadCanBeRun }
{
    kernel_laws();
}

/// Where nothing runs on its CPU, an agent can come to know all that it forgot, also by a crash just now: every queue
/// is cleared, it takes in all that was sent, and steals as often as there are threads. Each thread that waits for its
/// CPU then stands in its run list, its own queue's among them.
pub fn what_was_forgotten_comes_back()
    ensures { WhatWasForgottenComesBack }
{
    kernel_laws();
    upto_is_the_greatest();
}

/// Whatever else happens in between, mending can be begun anew.
pub fn mending_goes_on()
    ensures { MendingGoesOn }
{
    a_waiting_thread_can_be_run();
}

/// From every world that events lead to, each CPU can be mended or is refused, as `mend` of a world answers; and what
/// that leads to is again a world that events lead to.
pub fn every_cpu_can_be_mended()
    ensures can { EveryCpuCanBeMended }
    ensures reached { MendedIsReached }
{
    kernel_laws();
    every_event_has_a_step();
    a_waiting_thread_can_be_run();
}
