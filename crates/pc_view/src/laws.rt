//! What holds of every view, over the definitions alone.

ghost use Rattle.std.specs.Prelude.{ℕ, ◌+◌, ◌≡◌, ◌≤◌, ◌↔◌, true, false, List, [], ◌∷◌, Some, IsTrue, take, length, All};
ghost use Rattle.pc_messages.specs.State.{state_of};
ghost use Rattle.pc_messages.specs.Run.{Run, Extends};
ghost use Rattle.pc_join.specs.Sets.{IsSameSet, IsWithin, as_members, has};
ghost use Rattle.pc_thread_view.specs.Told.{Told};
ghost use Rattle.pc_view.specs.declared.view.View.{View};
ghost use Rattle.pc_view.specs.Views.{is_same_view, pairs_in, pairs_of, thread_of, IsOfRun, TellsOfRun};
ghost use Rattle.pc_view.specs.Prefixes.{upto, upto_of, reported_in, reports};
ghost use Rattle.pc_thread_view.specs.Histories.{Has};

/// Two views are equal exactly where the same is known.
pub fn equality_is_exact()
    ensures { (a b : View) → IsTrue (is_same_view a b) ↔ (a ≡ b) }
{}

/// Views of one run with the same messages are equal.
pub fn views_of_the_same_messages_are_equal()
    ensures { (run : Run) (a b : View) → IsOfRun run a → IsOfRun run b → IsSameSet (pairs_of a) (pairs_of b) → a ≡ b }
{}

/// A view of a run is a view of each run that goes on from it.
pub fn views_stay_as_the_run_goes_on()
    ensures { (longer shorter : Run) (view : View) → Extends longer shorter → IsOfRun shorter view
        → IsOfRun longer view }
{}

/// What a view of a run tells of a thread: the state of the run's messages up to the number, which it has, and it
/// has not the next; where that is as far as the run goes, the state that the run gives. Each early message is one of
/// the run.
pub fn reads_are_those_of_the_run()
    ensures reported { (run : Run) (view : View) (thread : ℕ) (told : Told) → IsOfRun run view
        → thread_of view thread ≡ Some told
        → told.state ≡ state_of (take told.upto (run thread)) }
    ensures within { (run : Run) (view : View) (thread : ℕ) (told : Told) → IsOfRun run view
        → thread_of view thread ≡ Some told
        → told.upto ≤ length (run thread) }
    ensures prefix { (view : View) (thread n : ℕ) (told : Told) → thread_of view thread ≡ Some told → 1 ≤ n
        → n ≤ told.upto
        → pairs_of view (thread ∷ n ∷ []) ≡ true }
    ensures whole { (run : Run) (view : View) (thread : ℕ) (told : Told) → IsOfRun run view
        → thread_of view thread ≡ Some told
        → length (run thread) ≤ told.upto → told.state ≡ state_of (run thread) }
    ensures missing { (run : Run) (view : View) (thread : ℕ) (told : Told) → IsOfRun run view
        → thread_of view thread ≡ Some told
        → pairs_of view (thread ∷ (told.upto + 1) ∷ []) ≡ false }
    ensures early { (run : Run) (view : View) (thread : ℕ) (told : Told) → IsOfRun run view
        → thread_of view thread ≡ Some told
        → All (Has (run thread)) told.early }
{}

/// The greatest prefix of a thread in a set is the greatest.
pub fn upto_is_the_greatest()
    ensures { (set : List (ℕ × ℕ)) (t n : ℕ) → (n ≤ upto set t) ↔ ((m : ℕ) → 1 ≤ m → m ≤ n → IsTrue (has set t m)) }
{}

/// How far a view of a run knows a thread, and the state that it reports, are told by its set of messages and the run.
pub fn views_tell_what_their_sets_tell()
    ensures upto { (run : Run) (set : List (ℕ × ℕ)) (view : View) (t : ℕ) → IsOfRun run view
        → IsSameSet (pairs_of view) (as_members set) → upto_of view t ≡ upto set t }
    ensures reported { (run : Run) (set : List (ℕ × ℕ)) (view : View) (t : ℕ) → IsOfRun run view
        → IsSameSet (pairs_of view) (as_members set) → reported_in view t ≡ reports run set t }
{}

/// A view of a run has messages of the run alone. Of each thread it has those up to a number, and not the next.
pub fn sets_are_those_of_the_run()
    ensures within { (run : Run) (view : View) → IsOfRun run view → IsWithin (pairs_of view) (pairs_in run) }
    ensures prefix { (view : View) (t n : ℕ) → 1 ≤ n → n ≤ upto_of view t → pairs_of view (t ∷ n ∷ []) ≡ true }
    ensures next { (run : Run) (view : View) (t : ℕ) → IsOfRun run view
        → pairs_of view (t ∷ (upto_of view t + 1) ∷ []) ≡ false }
{}

/// A view is of a run exactly where what it tells of each thread is of the thread's history in the run.
pub fn of_a_run_in_plain_words()
    ensures { (run : Run) (view : View) → IsOfRun run view ↔ TellsOfRun run view }
{}
