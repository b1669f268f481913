//! What holds after every list of calls, whatever they are and whether they were refused.

ghost use Rattle.pc_kernel.specs.Facts.{AlwaysAtHome, AlwaysPlaced, SleepersHadNoPost, RunsAreBegun, NamesAreDense};
ghost use Rattle.pc_kernel.specs.Facts.{CallsExtend};
ghost use Rattle.pc_kernel.specs.Effects.{AgentCallsHaveEffects, EnvCallsHaveEffects};
ghost use Rattle.pc_kernel.specs.Posted.{HomesAreThere, MessagesArePosted, NoMoreIsEaten, OnlyConsumesTake};
ghost use Rattle.pc_kernel.specs.Posted.{PostsAreMessages, QueuesGoOn};
ghost use Rattle.pc_kernel.specs.Exact.{ReadsArePlain, AcceptedAssociatesAreExact, AcceptedCommitsAreExact};

/// A thread's messages that were not consumed all stand in its home queue and are its last ones, in order.
pub fn messages_stay_home()
    ensures { AlwaysAtHome }
{}

/// A thread that is on a CPU is on no other; that CPU is its home queue's; it is ready, and its mask allows the CPU.
pub fn threads_are_placed()
    ensures { AlwaysPlaced }
{}

/// A sleeping agent that its own queue wakes has had no post since it slept.
pub fn sleepers_had_no_post()
    ensures { SleepersHadNoPost }
{}

/// Each thread's kinds begin with its only Created, and the known threads are those whose names are below their count.
pub fn runs_are_begun()
    ensures begun { RunsAreBegun }
    ensures dense { NamesAreDense }
{}

/// Every call extends the kernel's run.
pub fn calls_extend_the_run()
    ensures { CallsExtend }
{}

/// What is read of a plain kernel's threads, and of the CPUs that are there, is what that kernel derives from its posts
/// and marks.
pub fn reads_are_plain()
    ensures { ReadsArePlain }
{}

/// Where a plain kernel accepts an associate, the thread is known, alive and on no CPU, its home queue holds nothing of
/// it, and the number is that of its last message.
pub fn accepted_associates_are_exact()
    ensures { AcceptedAssociatesAreExact }
{}

/// Where a plain kernel accepts a commit, the thread is ready, at home on the CPU, allowed there and on no CPU, no
/// thread is on the CPU, and the Aseq is the count of all posts to its queue.
pub fn accepted_commits_are_exact()
    ensures { AcceptedCommitsAreExact }
{}

/// A thread's messages are exactly what was posted of it, to whatever queues.
pub fn messages_are_posted()
    ensures posted { MessagesArePosted }
    ensures of_the_run { PostsAreMessages }
{}

/// A call only adds to the end of a queue, and only a consume that is accepted takes from its front.
pub fn queues_go_on()
    ensures items { QueuesGoOn }
    ensures eaten { OnlyConsumesTake }
{}

/// No queue loses more items than were posted to it.
pub fn queues_lose_only_what_was_posted()
    ensures { NoMoreIsEaten }
{}

/// The home queue of a known thread is that of a CPU that is there.
pub fn homes_are_there()
    ensures { HomesAreThere }
{}

/// After every list of calls, a call that is accepted does what its effect says ([`pc_calls::Effect`]): whether an item
/// is posted, whose phase changes, who leaves a CPU and who comes. Where the effect names a queue or a thread, the item
/// goes to that queue and is of that thread.
pub fn effects_are_done()
    ensures environment { EnvCallsHaveEffects }
    ensures agents { AgentCallsHaveEffects }
{}
