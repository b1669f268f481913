//! Texts that are no expressions: where they cannot go on, and what is wanted there.

use pc_rank::{Expression, RankFault, Wanted};
use std::alloc::Global;
use std::test::Fail;

/// A text, the place of its fault, and what is wanted there.
static ROWS: [(&str, usize, Wanted); 78] = [
    ("", 0, Wanted::Operand),
    ("   ", 3, Wanted::Operand),
    ("+", 0, Wanted::Operand),
    ("1 +", 3, Wanted::Operand),
    ("1 + ", 4, Wanted::Operand),
    ("1 2", 2, Wanted::End),
    ("level ran", 6, Wanted::End),
    ("1 + 2 * 3", 6, Wanted::Parentheses),
    ("1 - 2 - 3", 6, Wanted::Parentheses),
    ("1 * 2 + 3", 6, Wanted::Parentheses),
    ("1 / 2 / 3", 6, Wanted::Parentheses),
    ("1 - 2 + 3", 6, Wanted::Parentheses),
    ("1 % 2 % 3", 6, Wanted::Parentheses),
    ("1 + 2 + 3 - 4", 10, Wanted::Parentheses),
    ("(1", 2, Wanted::Close),
    ("(1 + 2", 6, Wanted::Close),
    (")", 0, Wanted::Operand),
    ("()", 1, Wanted::Operand),
    ("(1))", 3, Wanted::End),
    ("min", 3, Wanted::Open),
    ("min 1", 4, Wanted::Open),
    ("min(1", 5, Wanted::Comma),
    ("min(1)", 5, Wanted::Comma),
    ("min(1 2)", 6, Wanted::Comma),
    ("min(1, ", 7, Wanted::Operand),
    ("min(1, 2", 8, Wanted::Close),
    ("min(1, 2, 3)", 8, Wanted::Close),
    ("max()", 4, Wanted::Operand),
    ("if", 2, Wanted::Operand),
    ("if level", 8, Wanted::Comparison),
    ("if level then 1 else 2", 9, Wanted::Comparison),
    ("if level < 3", 12, Wanted::Then),
    ("if level < 3 then", 17, Wanted::Operand),
    ("if level < 3 then 1", 19, Wanted::Else),
    ("if level < 3 then 1 else", 24, Wanted::Operand),
    ("if level < 3 else 1", 13, Wanted::Then),
    ("if level < 3 < 4 then 1 else 2", 13, Wanted::Then),
    ("if (level < 3) then 1 else 2", 15, Wanted::Joiner),
    ("if (level < 3 then 1 else 2", 14, Wanted::Close),
    ("if (1 < 2) and 3 < 4 then 1 else 2", 15, Wanted::Open),
    (
        "if (1 < 2) and (3 < 4) or (5 < 6) then 1 else 2",
        23,
        Wanted::Parentheses,
    ),
    ("if not 1 < 2 then 1 else 2", 7, Wanted::Open),
    ("if not (1) then 1 else 2", 9, Wanted::Comparison),
    ("if not (1 < 2 then 1 else 2", 14, Wanted::Close),
    ("level < 3", 6, Wanted::End),
    ("(level < 3)", 7, Wanted::Close),
    ("not (level < 3)", 0, Wanted::Operand),
    ("then", 0, Wanted::Operand),
    ("foo", 0, Wanted::Operand),
    ("messages", 0, Wanted::Operand),
    ("levels", 0, Wanted::Operand),
    ("Level", 0, Wanted::Operand),
    ("level1", 0, Wanted::Operand),
    ("1level", 0, Wanted::Number),
    ("01", 0, Wanted::Number),
    ("00", 0, Wanted::Number),
    ("18446744073709551616", 0, Wanted::Number),
    ("99999999999999999999999", 0, Wanted::Number),
    ("1 + 18446744073709551616", 4, Wanted::Number),
    ("1 18446744073709551616", 2, Wanted::End),
    ("1 $ 2", 2, Wanted::End),
    ("1\t+ 2", 1, Wanted::End),
    ("1 = 2", 2, Wanted::End),
    ("if 1 = 2 then 1 else 2", 5, Wanted::Comparison),
    ("if 1 =< 2 then 1 else 2", 5, Wanted::Comparison),
    ("if 1 ! 2 then 1 else 2", 5, Wanted::Comparison),
    ("-1", 0, Wanted::Operand),
    ("1,2", 1, Wanted::End),
    (
        "if if 1 < 2 then 1 else 2 < 3 then 1 else 2",
        3,
        Wanted::Operand,
    ),
    (
        "if 1 < if 2 < 3 then 4 else 5 then 6 else 7",
        7,
        Wanted::Operand,
    ),
    ("1 + if 1 < 2 then 3 else 4", 4, Wanted::Operand),
    ("if ((1 < 2)) then 1 else 2", 11, Wanted::Joiner),
    ("min(level < 3, 1)", 10, Wanted::Comma),
    ("none none", 5, Wanted::End),
    ("if 1 < 2 then 3 else 4 + 5 * 6", 27, Wanted::Parentheses),
    ("é", 0, Wanted::Operand),
    ("if (1 + 2 then 3 else 4", 10, Wanted::Close),
    ("if (1) + 2 * 3 < 4 then 5 else 6", 11, Wanted::Parentheses),
];

/// Whether a text has this fault.
fn holds(text: &str, at: usize, wanted: Wanted) -> bool {
    match Expression::read(text.as_bytes()) {
        Ok(_) => false,
        Err(fault) => fault == RankFault::Wanted { at, wanted },
    }
}

/// The place of the first row that does not hold.
fn first_wrong() -> Option<usize> {
    for (place, row) in ROWS.iter().enumerate() {
        if !holds(row.0, row.1, row.2) {
            return Some(place);
        }
    }
    None
}

#[test]
fn faults_have_places(rt: HostRuntime) {
    assert_eq!(rt; first_wrong(), None);
}

/// What the fault of a text says.
fn said(alloc: Global, text: &str) -> Result<String, Fail> {
    match Expression::read(text.as_bytes()) {
        Ok(_) => Err("it is an expression".into()),
        Err(fault) => Ok(fault.to_string(alloc)?),
    }
}

#[test]
fn a_fault_says_where_and_what(rt: HostRuntime) -> Result<(), Fail> {
    let text = said(rt.alloc(), "1 + 2 * 3")?;
    assert_eq!(rt;
        text.as_str(),
        "byte 6: parentheses are wanted, since two operators meet"
    );
    Ok(())
}
