//! What holds of the order of run lists, over the definitions alone.

ghost use Rattle.std.specs.Prelude.{ℕ, ◌≡◌, List, Option};
ghost use Rattle.pc_messages.specs.declared.reported.Reported.{Reported};
ghost use Rattle.pc_policy.specs.Rankings.{by_levels};
ghost use Rattle.pc_run_queue.specs.Runs.{level_refreshed_as, refreshed_as};

/// A refresh by levels puts the highest level first, whatever is reported: also at levels above 7, of which a state
/// that is reported has none.
pub fn levels_come_by_level()
    ensures { (reported : ℕ → Option Reported) (cpu : ℕ) (old touched : List ℕ)
        → refreshed_as by_levels reported cpu old touched ≡ level_refreshed_as reported cpu old touched }
{}
