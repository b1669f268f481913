//! What follows for every type with a join, over its definitions alone: joins are least upper bounds of inclusion.

ghost use Rattle.std.specs.Prelude.{ℕ, ◌≡◌, List, ◌++◌};
ghost use Rattle.pc_join.specs.Sets.{Members, Source, IsJoin, IsWithin, IsSameSet, IsUnion, IsBetween, AgreesOn};
ghost use Rattle.pc_join.specs.Sets.{as_members};

use crate::join::Join;

/// Two joins of the same values are equal.
pub fn joins_are_equal<V: Join>()
    ensures { (s : Source) (a b x y : V) → IsJoin V.known V.is_of s a b x → IsJoin V.known V.is_of s a b y → x ≡ y }
{}

/// The order of two values does not matter.
pub fn commutative<V: Join>()
    ensures { (s : Source) (a b x y : V) → IsJoin V.known V.is_of s a b x → IsJoin V.known V.is_of s b a y → x ≡ y }
{}

/// The grouping of three values does not matter.
pub fn associative<V: Join>()
    ensures { (s : Source) (a b c ab bc x y : V) → IsJoin V.known V.is_of s a b ab → IsJoin V.known V.is_of s ab c x
        → IsJoin V.known V.is_of s b c bc → IsJoin V.known V.is_of s a bc y → x ≡ y }
{}

/// A value joined with itself is the value.
pub fn idempotent<V: Join>()
    ensures { (s : Source) (a x : V) → IsJoin V.known V.is_of s a a x → x ≡ a }
{}

/// Inclusion is a partial order on the values of a source.
pub fn inclusion_is_a_partial_order<V: Join>()
    ensures reflexive { (a : V) → IsWithin (V.known a) (V.known a) }
    ensures transitive { (a b c : V) → IsWithin (V.known a) (V.known b) → IsWithin (V.known b) (V.known c)
        → IsWithin (V.known a) (V.known c) }
    ensures antisymmetric { (s : Source) (a b : V) → V.is_of a s → V.is_of b s → IsWithin (V.known a) (V.known b)
        → IsWithin (V.known b) (V.known a) → a ≡ b }
{}

/// A join is above both values, and below each value that is above both.
pub fn joins_are_least_upper_bounds<V: Join>()
    ensures above_first { (s : Source) (a b x : V) → IsJoin V.known V.is_of s a b x → IsWithin (V.known a) (V.known x) }
    ensures above_second { (s : Source) (a b x : V) → IsJoin V.known V.is_of s a b x
        → IsWithin (V.known b) (V.known x) }
    ensures least { (s : Source) (a b x above : V) → IsJoin V.known V.is_of s a b x
        → IsWithin (V.known a) (V.known above)
        → IsWithin (V.known b) (V.known above) → IsWithin (V.known x) (V.known above) }
{}

/// What is of a source is of every source that gives the same at the value's own members.
pub fn values_stay_of_longer_sources<V: Join>()
    ensures { (s t : Source) (a : V) → AgreesOn (V.known a) s t → V.is_of a s → V.is_of a t }
{}

/// The set of two lists of pairs together is the union of their sets.
pub fn union_of_pairs_is_append()
    ensures { (xs ys : List (ℕ × ℕ)) → IsUnion (as_members xs) (as_members ys) (as_members (xs ++ ys)) }
{}

/// Joining again completes what want of memory broke off.
pub fn joining_again_completes<V: Join>()
    ensures { (a b x y : V) → IsBetween (V.known a) (V.known b) (V.known x)
        → IsUnion (V.known x) (V.known b) (V.known y)
        → IsUnion (V.known a) (V.known b) (V.known y) }
{}

/// Values of one source that know the same are equal.
pub fn equal_sets_are_equal<V: Join>()
    ensures { (s : Source) (a b : V) → V.is_of a s → V.is_of b s → IsSameSet (V.known a) (V.known b) → a ≡ b }
{}
