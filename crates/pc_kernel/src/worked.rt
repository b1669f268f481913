//! Lists of calls worked by hand: what the definitions answer to them.

ghost use Rattle.pc_kernel.specs.Worked.{StaleFirst, Ticks, Spent, Full, PostsSpentLast, DeadStay, Masks, LastCpu};
ghost use Rattle.pc_kernel.specs.Worked.{Targets, Levels, Sleepers, Refusals};

/// The definition of a step, at lists of calls whose answers were written down beforehand. It computes nothing: it
/// shows that the definition says what was meant.
pub fn worked_by_hand()
    ensures stale_first { StaleFirst }
    ensures ticks { Ticks }
    ensures spent { Spent }
    ensures full { Full }
    ensures posts_spent_last { PostsSpentLast }
    ensures dead_stay { DeadStay }
    ensures masks { Masks }
    ensures last_cpu { LastCpu }
    ensures targets { Targets }
    ensures levels { Levels }
    ensures sleepers { Sleepers }
    ensures refusals { Refusals }
{}
