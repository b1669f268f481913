//! The limits of texts: 512 bytes, 64 nodes, 16 deep.

use pc_rank::{Expression, RankFault};
use std::alloc::{AllocError, Global};
use std::test::Fail;

/// The fault of a text; none, where it is an expression.
fn fault_of(text: &[u8]) -> Option<RankFault> {
    match Expression::read(text) {
        Ok(_) => None,
        Err(fault) => Some(fault),
    }
}

/// So many spaces, and a number.
fn padded(alloc: Global, spaces: usize) -> Result<Vec<u8>, AllocError> {
    let mut text = Vec::new(alloc);
    for _ in 0..spaces {
        text.push(b' ')?;
    }
    text.push(b'1')?;
    Ok(text)
}

/// The fault of so many spaces and a number.
fn fault_of_padded(alloc: Global, spaces: usize) -> Result<Option<RankFault>, Fail> {
    let text = padded(alloc, spaces)?;
    Ok(fault_of(text.as_slice()))
}

#[test]
fn a_text_has_512_bytes(rt: HostRuntime) -> Result<(), Fail> {
    assert_eq!(rt; fault_of_padded(rt.alloc(), 511)?, None);
    assert_eq!(rt; fault_of_padded(rt.alloc(), 512)?, Some(RankFault::TooLong));
    Ok(())
}

/// Texts at the limits, and past them.
static ROWS: [(&str, Option<RankFault>); 12] = [
    ("(((((((((((((((1)))))))))))))))", None),
    (
        "((((((((((((((((1))))))))))))))))",
        Some(RankFault::TooDeep { at: 16 }),
    ),
    (
        "1 + 1 + 1 + 1 + 1 + 1 + 1 + 1 + 1 + 1 + 1 + 1 + 1 + 1 + 1 + 1",
        None,
    ),
    (
        "1 + 1 + 1 + 1 + 1 + 1 + 1 + 1 + 1 + 1 + 1 + 1 + 1 + 1 + 1 + 1 + 1",
        Some(RankFault::TooDeep { at: 64 }),
    ),
    // Three sums of eight, and a choice of sixteen nodes.
    (
        "(1 + 1 + 1 + 1 + 1 + 1 + 1 + 1) * (1 + 1 + 1 + 1 + 1 + 1 + 1 + 1) * \
         (1 + 1 + 1 + 1 + 1 + 1 + 1 + 1) * (if 1 < 1 then 1 else 1 + 1 + 1 + 1 + 1 + 1)",
        None,
    ),
    // A sum of nine in place of the choice.
    (
        "(1 + 1 + 1 + 1 + 1 + 1 + 1 + 1) * (1 + 1 + 1 + 1 + 1 + 1 + 1 + 1) * \
         (1 + 1 + 1 + 1 + 1 + 1 + 1 + 1) * (1 + 1 + 1 + 1 + 1 + 1 + 1 + 1 + 1)",
        Some(RankFault::TooManyNodes { at: 135 }),
    ),
    // What cannot go on is told behind what is too much.
    (
        "(1 + 1 + 1 + 1 + 1 + 1 + 1 + 1) * (1 + 1 + 1 + 1 + 1 + 1 + 1 + 1) * \
         (1 + 1 + 1 + 1 + 1 + 1 + 1 + 1) * (1 + 1 + 1 + 1 + 1 + 1 + 1 + 1 + 1",
        Some(RankFault::TooManyNodes { at: 135 }),
    ),
    ("if not (not (not (not (not (1 < 2))))) then 1 else 2", None),
    (
        "min(min(min(min(min(min(min(min(min(min(min(min(min(min(min(1, 1), 1), 1), 1), 1), 1), 1), 1), 1), 1), 1), \
         1), 1), 1), 1)",
        None,
    ),
    (
        "min(min(min(min(min(min(min(min(min(min(min(min(min(min(min(min(1, 1), 1), 1), 1), 1), 1), 1), 1), 1), 1), \
         1), 1), 1), 1), 1), 1)",
        Some(RankFault::TooDeep { at: 64 }),
    ),
    // Without spaces these have some 470 bytes; they would be written in 512 and in 513.
    (
        "(1+1+184467440737095+18446744073709551615+18446744073709551615+18446744073709551615+184467440737\
         09551615+18446744073709551615)*(18446744073709551615+18446744073709551615+18446744073709551615+1\
         8446744073709551615+18446744073709551615+18446744073709551615+18446744073709551615+1844674407370\
         9551615)*(18446744073709551615+18446744073709551615+18446744073709551615+18446744073709551615+18\
         446744073709551615+18446744073709551615+18446744073709551615+18446744073709551615)",
        None,
    ),
    (
        "(1+1+1844674407370955+18446744073709551615+18446744073709551615+18446744073709551615+18446744073\
         709551615+18446744073709551615)*(18446744073709551615+18446744073709551615+18446744073709551615+\
         18446744073709551615+18446744073709551615+18446744073709551615+18446744073709551615+184467440737\
         09551615)*(18446744073709551615+18446744073709551615+18446744073709551615+18446744073709551615+1\
         8446744073709551615+18446744073709551615+18446744073709551615+18446744073709551615)",
        Some(RankFault::TooLong),
    ),
];

/// The place of the first row that does not hold.
fn first_wrong() -> Option<usize> {
    for (place, row) in ROWS.iter().enumerate() {
        if fault_of(row.0.as_bytes()) != row.1 {
            return Some(place);
        }
    }
    None
}

#[test]
fn texts_are_bounded(rt: HostRuntime) {
    assert_eq!(rt; first_wrong(), None);
}
