//! What holds of every exchange of deltas, over the definitions alone.

ghost use Rattle.std.specs.Prelude.{ℕ, ◌≡◌, ◌↔◌, ◌||◌, List, None, All, IsTrue};
ghost use Rattle.pc_messages.specs.Run.{Run, Extends, IsWellFormed};
ghost use Rattle.pc_messages.specs.Items.{AreItemsOf, pairs_in};
ghost use Rattle.pc_messages.specs.declared.message.Item.{Item};
ghost use Rattle.pc_messages.specs.declared.message.Message.{Message};
ghost use Rattle.pc_messages.specs.declared.reported.Reported.{Reported};
ghost use Rattle.pc_join.specs.Sets.{IsSameSet, IsUnion, Members, as_members};
ghost use Rattle.pc_view.specs.declared.view.View.{View};
ghost use Rattle.pc_view.specs.Views.{pairs_of, IsOfRun};
ghost use Rattle.pc_delta.specs.declared.part.Part.{Part};
ghost use Rattle.pc_delta.specs.declared.part.Part.TheVariants.{One, Folded};
ghost use Rattle.pc_delta.specs.Parts.{set_of, AreOfRun, all_parts, pairs_of_parts, parts_in};
ghost use Rattle.pc_delta.specs.Faults.{HasNoConflict, IsPossiblePrefix, fault_of, first_fault};
ghost use Rattle.pc_delta.specs.Digests.{RangesByName, set_of_digest, is_same_digest};
ghost use Rattle.pc_delta.specs.Exchange.{IsTakenIn, IsPartlyTakenIn, Takes, TakesEach, all_of};
ghost use Rattle.pc_delta.specs.Worked.{NoParts, Numbers, Misplaced, Ran, FirstPart, Places, Pairs};

/// Views of one run that took in lists of deltas of that run are equal where what they knew before and the deltas'
/// sets have the same union: whatever the order, the division into deltas and the repeats.
pub fn equal_unions_give_equal_views()
    ensures { (run : Run) (deltas others : List (List Part)) (before after start end : View) → IsOfRun run before
        → IsOfRun run start → AreOfRun run (all_parts deltas) → AreOfRun run (all_parts others)
        → IsSameSet (λ m. pairs_of before m || set_of (all_parts deltas) m)
        (λ m. pairs_of start m || set_of (all_parts others) m)
        → IsTakenIn (all_parts deltas) before after → IsTakenIn (all_parts others) start end → after ≡ end }
{}

/// Whatever calls a view of a run took messages in by, it has the union of their sets, and is of the run; so where two
/// views took in equal unions they are equal. A delta, a message, a folded prefix or another view is one step each, by
/// the clauses `done`, `union` and `of_run` of the call that took it in.
pub fn taking_in_is_union_whatever_the_mix()
    ensures delta { (run : Run) (parts : List Part) (old new : View) → AreOfRun run parts → IsTakenIn parts old new
        → Takes run (set_of parts) old new }
    ensures union { (run : Run) (sets : List Members) (old new : View) → TakesEach run sets old new
        → IsUnion (pairs_of old) (all_of sets) (pairs_of new) }
    ensures of_run { (run : Run) (sets : List Members) (old new : View) → TakesEach run sets old new
        → IsOfRun run old → IsOfRun run new }
    ensures equal { (run : Run) (sets others : List Members) (before after start end : View) → IsOfRun run before
        → IsOfRun run start → TakesEach run sets before after → TakesEach run others start end
        → IsSameSet (λ m. pairs_of before m || all_of sets m) (λ m. pairs_of start m || all_of others m) → after ≡ end }
{}

/// Where memory ran out, taking the same parts in again completes it.
pub fn taking_in_again_completes()
    ensures { (parts : List Part) (old some all : View) → IsPartlyTakenIn parts old some → IsTakenIn parts some all
        → IsTakenIn parts old all }
{}

/// Equal digests of views of one run mean equal views.
pub fn digests_tell_views_apart()
    ensures { (run : Run) (a b : View) (digest other : RangesByName) → IsOfRun run a → IsOfRun run b
        → IsSameSet (set_of_digest digest) (pairs_of a) → IsSameSet (set_of_digest other) (pairs_of b) → digest ≡ other
        → a ≡ b }
{}

/// Two digests are equal exactly where they are of the same sets of numbers.
pub fn equality_is_exact()
    ensures { (a b : RangesByName) → IsTrue (is_same_digest a b) ↔ (a ≡ b) }
{}

/// Parts of one run do not contradict each other.
pub fn one_run_has_no_conflict()
    ensures { (run : Run) (parts : List Part) → AreOfRun run parts → HasNoConflict parts }
{}

/// Parts of a run are parts of each run that goes on from it.
pub fn parts_stay_as_the_run_goes_on()
    ensures { (longer shorter : Run) (parts : List Part) → Extends longer shorter → AreOfRun shorter parts
        → AreOfRun longer parts }
{}

/// What parts without a fault are: each message is well formed, and each folded part has a number from 1 to
/// 16,000,000 and no more ticks than its messages can carry.
pub fn parts_without_fault_are_well_formed()
    ensures messages { (message : Message) → fault_of (One message) ≡ None ↔ IsWellFormed message.number message.kind }
    ensures prefixes { (thread upto : ℕ) (reported : Reported)
        → fault_of (Folded thread upto reported) ≡ None ↔ IsPossiblePrefix upto reported }
    ensures all { (parts : List Part) → first_fault parts ≡ None ↔ All (λ part. fault_of part ≡ None) parts }
{}

/// The set of parts is that of their pairs.
pub fn sets_are_pairs()
    ensures { (parts : List Part) → IsSameSet (set_of parts) (as_members (pairs_of_parts parts)) }
{}

/// The parts that tell items tell their messages and no others, and are of each run that the items are of.
pub fn parts_of_items_are_of_the_run()
    ensures set { (items : List Item) → IsSameSet (set_of (parts_in items)) (as_members (pairs_in items)) }
    ensures of_run { (run : Run) (items : List Item) → AreItemsOf run items → AreOfRun run (parts_in items) }
{}

/// The faults of parts and the pairs that they tell, at lists that were worked by hand. It computes nothing: it shows
/// that the definitions say what was meant.
pub fn worked_by_hand()
    ensures no_parts { NoParts }
    ensures numbers { Numbers }
    ensures misplaced { Misplaced }
    ensures ran { Ran }
    ensures first_part { FirstPart }
    ensures places { Places }
    ensures pairs { Pairs }
{}
