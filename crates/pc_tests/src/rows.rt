//! What the tests of all files assert, and tables of rows that each hold alone: one loop and one assertion for all,
//! since these cost the prover more than what a row does.

use std::alloc::Global;
use std::fmt::Debug;
use std::process::Abort;

/// Something could not be done, for whatever reason. Unlike a test's own failure it carries no text, which each
/// function on the way would carry, and may be dropped. It has no `Debug`, so that each error that has can become it.
#[derive(Drop)]
pub struct Failed;

impl<E: Debug + Drop> From<E> for Failed {
    fn from(_error: E) -> Failed {
        Failed
    }
}

/// Asserts that something is so.
pub fn is_so(rt: &impl Abort, so: bool) {
    assert!(rt; so);
}

/// Asserts that something could be found out, and is so.
pub fn is_found_so<E: Drop>(rt: &impl Abort, so: Result<bool, E>) {
    is_so(rt, matches!(so, Ok(true)));
}

/// What holds alone.
pub trait Row {
    /// Whether it holds.
    fn holds(&self, alloc: Global) -> bool;
}

/// The place of the first row that does not hold.
fn first_wrong<R: Row>(alloc: Global, rows: &[R]) -> Option<usize> {
    for (place, row) in rows.iter().enumerate() {
        if !row.holds(alloc) {
            return Some(place);
        }
    }
    None
}

/// Asserts that each row holds.
pub fn each_holds<R: Row>(rt: &impl Abort, alloc: Global, rows: &[R]) {
    assert_eq!(rt; first_wrong(alloc, rows), None);
}
