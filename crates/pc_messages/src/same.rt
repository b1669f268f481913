//! Comparisons that answer exactly whether two values are equal.
//!
//! They are Rust's `==`; what it answers for these types is said here once, for the crates above.

ghost use Rattle.std.specs.Prelude.{◌≡◌, ◌↔◌, IsTrue};

use crate::kind::Kind;
use crate::reported::Reported;

/// Whether the kinds are equal.
pub fn is_same_kind(kind: Kind, other: Kind) -> bool
    ensures { IsTrue result ↔ (kind ≡ other) }
{
    kind == other
}

/// Whether the reported states are equal.
fn is_same_reported(reported: Reported, other: Reported) -> bool
    ensures { IsTrue result ↔ (reported ≡ other) }
{
    reported == other
}

/// Whether both are no state, or the same one.
pub fn is_same_state(state: Option<Reported>, other: Option<Reported>) -> bool
    ensures { IsTrue result ↔ (state ≡ other) }
{
    match (state, other) {
        (None, None) => true,
        (Some(mine), Some(theirs)) => is_same_reported(mine, theirs),
        _ => false,
    }
}
