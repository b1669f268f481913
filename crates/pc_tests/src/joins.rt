//! What is asked of each join, through the bound: over a type parameter a proof costs a fraction of what it costs over
//! a type of many parts.

use pc_join::{Join, OutOfMemory};

/// The join of two values. It has no contract, so that a test's proof does not carry those of joins.
pub fn join_both<V: Join>(first: &V, other: &V) -> Result<V, OutOfMemory> {
    let mut joined = first.try_copy()?;
    joined.join_from(other)?;
    Ok(joined)
}

/// The join of two, the second of which was made.
pub fn joined<V: Join>(first: V, other: Result<V, OutOfMemory>) -> Result<V, OutOfMemory> {
    join_both(&first, &other?)
}

/// Whether the join covers both, and is something.
fn is_above<V: Join>(joined: &V, first: &V, other: &V) -> bool {
    joined.covers(first) && joined.covers(other) && !joined.is_empty()
}

/// Whether the join covers both, neither of them covers it, and it is something.
fn is_join<V: Join>(first: &V, other: &V) -> Result<bool, OutOfMemory> {
    let joined = join_both(first, other)?;
    Ok(is_above(&joined, first, other) && !first.covers(&joined) && !other.covers(&joined))
}

/// The same of two, the second of which was made.
pub fn are_joined<V: Join>(first: V, other: Result<V, OutOfMemory>) -> Result<bool, OutOfMemory> {
    is_join(&first, &other?)
}

/// Whether the join with nothing is the one that was made.
pub fn is_joined_with_nothing<V: Join + PartialEq>(
    one: Result<V, OutOfMemory>,
    nothing: V,
) -> Result<bool, OutOfMemory> {
    is_joined(&one?, &nothing)
}

fn is_joined<V: Join + PartialEq>(one: &V, nothing: &V) -> Result<bool, OutOfMemory> {
    let joined = join_both(nothing, one)?;
    Ok(is_above(&joined, one, nothing) && joined == *one)
}

/// Whether both were made, and are equal.
pub fn are_equal<V: PartialEq + Drop, E: Drop, F: Drop>(
    one: Result<V, E>,
    other: Result<V, F>,
) -> bool {
    match (one, other) {
        (Ok(one), Ok(other)) => one == other,
        _ => false,
    }
}
