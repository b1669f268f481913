//! What calls of [`crate::Reported::first`] and [`crate::Reported::apply`], one after another, come to.

ghost use Rattle.std.specs.Prelude.{◌≡◌, ◌+◌, ◌<◌, ◌^◌, List, ◌∷◌, ◌++◌, Some};
ghost use Rattle.pc_messages.specs.Built.{Builds};
ghost use Rattle.pc_messages.specs.Run.{IsBegun};
ghost use Rattle.pc_messages.specs.State.{state_of, ran_given, ran_of};
ghost use Rattle.pc_messages.specs.declared.kind.Kind.{Kind};
ghost use Rattle.pc_messages.specs.declared.reported.Reported.{Reported};

/// Where a list of kinds begins with its only Created, `first` of the first kind has a state, and `apply` of each next
/// kind leads on to some state; what it leads to is the state of the whole list. Where the ticks of the whole list fit,
/// each `apply` on the way meets its condition.
pub fn states_are_built_message_by_message()
    ensures there { (kind : Kind) (kinds : List Kind) → IsBegun (kind ∷ kinds) → (state : Reported)
        × Builds (kind ∷ kinds) state }
    ensures whole { (kinds : List Kind) (state : Reported) → Builds kinds state → state_of kinds ≡ Some state }
    ensures fits { (kinds more : List Kind) (kind : Kind) (state : Reported) → Builds kinds state
        → ran_of (kinds ++ kind ∷ more) < 2 ^ 64 → state.ran + ran_given kind < 2 ^ 64 }
{}
