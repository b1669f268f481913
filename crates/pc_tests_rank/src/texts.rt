//! The text that an expression is written as, and copies of it.

use pc_rank::Expression;
use std::alloc::Global;
use std::fmt::Debug;

/// Something could not be done, for whatever reason. It may be dropped, other than a test's own failure.
#[derive(Drop)]
struct Failed;

impl<E: Debug + Drop> From<E> for Failed {
    fn from(_error: E) -> Failed {
        Failed
    }
}

/// A text, and what its expression is written as.
static ROWS: [(&str, &str); 36] = [
    ("1", "1"),
    ("  ran  ", "ran"),
    ("none", "none"),
    ("((level))", "level"),
    ("1+2", "1 + 2"),
    ("1+2+3", "1 + 2 + 3"),
    ("(1 + 2) + 3", "(1 + 2) + 3"),
    ("1 + (2 + 3)", "1 + 2 + 3"),
    ("1*2*3", "1 * 2 * 3"),
    ("(1 * 2) * 3", "(1 * 2) * 3"),
    ("1 + (2 * 3)", "1 + (2 * 3)"),
    ("(1 * 2) + (3 * 4)", "(1 * 2) + (3 * 4)"),
    ("(1 - 2) - 3", "(1 - 2) - 3"),
    ("1 - (2 - 3)", "1 - (2 - 3)"),
    ("(1)/(2)", "1 / 2"),
    ("5 % (2)", "5 % 2"),
    ("min(1,2)", "min(1, 2)"),
    ("max ( ran , (7) )", "max(ran, 7)"),
    (
        "min(1 + 2, if 1 < 2 then 3 else 4)",
        "min(1 + 2, if 1 < 2 then 3 else 4)",
    ),
    ("if 1<2 then 3 else 4", "if 1 < 2 then 3 else 4"),
    ("if (1)<=(2) then (3) else (4)", "if 1 <= 2 then 3 else 4"),
    ("if 1 + 2 == 3 then 4 else 5", "if 1 + 2 == 3 then 4 else 5"),
    (
        "if (1 + 2) != 3 then 4 else 5",
        "if 1 + 2 != 3 then 4 else 5",
    ),
    (
        "if (if 1 < 2 then 3 else 4) >= 5 then 6 else 7",
        "if (if 1 < 2 then 3 else 4) >= 5 then 6 else 7",
    ),
    (
        "if 1 < 2 then if 3 < 4 then 5 else 6 else if 7 < 8 then 9 else 10",
        "if 1 < 2 then if 3 < 4 then 5 else 6 else if 7 < 8 then 9 else 10",
    ),
    (
        "(if 1 < 2 then 3 else 4) + 5",
        "(if 1 < 2 then 3 else 4) + 5",
    ),
    (
        "5 + (if 1 < 2 then 3 else 4)",
        "5 + (if 1 < 2 then 3 else 4)",
    ),
    (
        "if (1<2)and(3>4) then 5 else 6",
        "if (1 < 2) and (3 > 4) then 5 else 6",
    ),
    (
        "if (1 < 2) or (3 < 4) or (5 < 6) then 7 else 8",
        "if (1 < 2) or (3 < 4) or (5 < 6) then 7 else 8",
    ),
    (
        "if (1 < 2) or ((3 < 4) or (5 < 6)) then 7 else 8",
        "if (1 < 2) or (3 < 4) or (5 < 6) then 7 else 8",
    ),
    (
        "if ((1 < 2) or (3 < 4)) or (5 < 6) then 7 else 8",
        "if ((1 < 2) or (3 < 4)) or (5 < 6) then 7 else 8",
    ),
    (
        "if (1 < 2) and ((3 < 4) or (5 < 6)) then 7 else 8",
        "if (1 < 2) and ((3 < 4) or (5 < 6)) then 7 else 8",
    ),
    (
        "if not(1 < 2) then 3 else 4",
        "if not (1 < 2) then 3 else 4",
    ),
    (
        "if (not (1 < 2)) and (3 < 4) then 5 else 6",
        "if (not (1 < 2)) and (3 < 4) then 5 else 6",
    ),
    (
        "level + ran + thread + cpu + allowed",
        "level + ran + thread + cpu + allowed",
    ),
    ("18446744073709551615", "18446744073709551615"),
];

/// What a text's expression is written as.
fn written(alloc: Global, text: &str) -> Result<String, Failed> {
    let expression = Expression::read(text.as_bytes())?;
    Ok(expression.to_string(alloc)?)
}

/// What a copy of a text's expression is written as.
fn written_of_copy(alloc: Global, text: &str) -> Result<String, Failed> {
    let expression = Expression::read(text.as_bytes())?;
    let copy = expression;
    Ok(copy.to_string(alloc)?)
}

/// Whether a text is written so, a copy too, and what was written is written so again.
fn holds(alloc: Global, text: &str, wanted: &str) -> Result<bool, Failed> {
    let first = written(alloc, text)?;
    let copied = written_of_copy(alloc, text)?;
    let again = written(alloc, first.as_str())?;
    Ok(first.as_str() == wanted && copied.as_str() == wanted && again.as_str() == wanted)
}

/// The place of the first row that does not hold.
fn first_wrong(alloc: Global) -> Option<usize> {
    for (place, row) in ROWS.iter().enumerate() {
        if !matches!(holds(alloc, row.0, row.1), Ok(true)) {
            return Some(place);
        }
    }
    None
}

#[test]
fn expressions_are_written_and_copied(rt: HostRuntime) {
    assert_eq!(rt; first_wrong(rt.alloc()), None);
}

/// Two texts, and whether they have the same expression.
static PAIRS: [(&str, &str, bool); 9] = [
    ("1+2", " 1 + 2", true),
    ("(level)", "level", true),
    ("1 + (2 + 3)", "1 + 2 + 3", true),
    ("(1 + 2) + 3", "1 + 2 + 3", false),
    ("1 + 2", "2 + 1", false),
    ("1 + 2", "1 * 2", false),
    ("min(1, 2)", "max(1, 2)", false),
    ("level", "none", false),
    ("if 1 < 2 then 3 else 4", "if 1 <= 2 then 3 else 4", false),
];

/// Whether two texts have expressions that are equal.
fn are_equal(text: &str, other: &str) -> Result<bool, Failed> {
    let first = Expression::read(text.as_bytes())?;
    let second = Expression::read(other.as_bytes())?;
    Ok(first == second)
}

/// The place of the first pair that does not hold.
fn first_unlike() -> Option<usize> {
    for (place, row) in PAIRS.iter().enumerate() {
        match are_equal(row.0, row.1) {
            Ok(equal) if equal == row.2 => {}
            _ => return Some(place),
        }
    }
    None
}

#[test]
fn expressions_are_compared(rt: HostRuntime) {
    assert_eq!(rt; first_unlike(), None);
}
