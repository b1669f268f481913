//! What holds of every run.

ghost use Rattle.pc_lab.specs.Laws.{CommitsTakeTheFirst, MomentsGoOn, MomentsReach};

/// Each moment of a run goes on from those before it, and the world to which moments lead is one that events lead to. A
/// commit is the pick of an agent, of the first thread of its run list that the kernel would commit (own).
pub fn runs_are_of_the_world()
    ensures steps { MomentsGoOn }
    ensures reached { MomentsReach }
    ensures commits { CommitsTakeTheFirst }
{}
