//! Policies by their texts: what is read of them and how each is written, which rank each gives, and what is told of a
//! text that is none.

use pc_messages::{Cpu, Level, Mask, Phase, Reported, Tid};
use pc_policy::{LONGEST_POLICY, OrderFault, OrderName, Policy, PolicyName};
use pc_rank::{RankFault, Wanted};
use std::alloc::{AllocError, Global};

/// A text, what is written of its policy, whether its steals are exact, and the rank of [`reported`] on CPU 2 as thread
/// 7: of level 3, with 100 ticks, allowed on three CPUs.
static READ: [(&str, &str, bool, Option<u64>); 18] = [
    ("levels", "levels", false, Some(4)),
    ("fifo exact", "fifo exact", true, Some(0)),
    ("least-ran", "least-ran", false, Some(100)),
    (
        "levels-then-least-ran exact",
        "levels-then-least-ran exact",
        true,
        Some(4611686018427388004),
    ),
    ("rank ran", "rank ran", false, Some(100)),
    ("rank ran exact", "rank ran exact", true, Some(100)),
    ("rank   ran", "rank ran", false, Some(100)),
    ("rank ran  exact", "rank ran exact", true, Some(100)),
    ("rank ran ", "rank ran", false, Some(100)),
    ("rank level*10", "rank level * 10", false, Some(30)),
    ("rank thread", "rank thread", false, Some(7)),
    ("rank cpu", "rank cpu", false, Some(2)),
    ("rank allowed", "rank allowed", false, Some(3)),
    ("rank none", "rank none", false, None),
    ("rank (ran)", "rank ran", false, Some(100)),
    (
        "rank ran / (level + 1)",
        "rank ran / (level + 1)",
        false,
        Some(25),
    ),
    (
        "rank if cpu < 4 then 7 - level else none exact",
        "rank if cpu < 4 then 7 - level else none exact",
        true,
        Some(4),
    ),
    (
        "rank if cpu<2 then 7-level else none",
        "rank if cpu < 2 then 7 - level else none",
        false,
        None,
    ),
];

/// Texts that begin as no policy does.
static NO_ORDERS: [&str; 13] = [
    "",
    "cfs",
    "Levels",
    "levels ",
    " levels",
    "levels  exact",
    "levels,exact",
    "levels exact exact",
    "exact",
    " exact",
    "rank",
    "rank exact",
    "rank(ran)",
];

/// Texts with `rank ` and no expression behind, the byte behind it that is no part of one, and what is wanted there.
static NO_EXPRESSIONS: [(&str, usize, Wanted); 6] = [
    ("rank ", 0, Wanted::Operand),
    ("rank ran +", 5, Wanted::Operand),
    ("rank ran + exact", 5, Wanted::Operand),
    ("rank messages", 0, Wanted::Operand),
    ("rank ran exact exact", 4, Wanted::End),
    ("rank ran, exact", 3, Wanted::End),
];

/// What is known of the thread.
fn reported() -> Option<Reported> {
    Some(Reported {
        mask: Mask::new(0b1101, 4).ok()?,
        ran: 100,
        phase: Phase::Ready,
        level: Level::new(3).ok()?,
    })
}

/// Whether a text is read as the row says.
fn is_read(alloc: Global, row: &(&str, &str, bool, Option<u64>)) -> Result<bool, AllocError> {
    let Ok(policy) = PolicyName::read(row.0.as_bytes()) else {
        return Ok(false);
    };
    policy.is_read_again();
    let written = policy.to_string(alloc)?;
    let again = PolicyName::read(written.as_bytes());
    let is_right = match reported() {
        Some(reported) => policy.order.rank(Cpu(2), Tid(7), &reported) == row.3,
        None => false,
    };
    Ok(is_right && written.as_str() == row.1 && policy.exact == row.2 && again == Ok(policy))
}

/// The place of the first row that is not read so.
fn first_unread(alloc: Global) -> Option<usize> {
    for (place, row) in READ.iter().enumerate() {
        if !matches!(is_read(alloc, row), Ok(true)) {
            return Some(place);
        }
    }
    None
}

#[test]
fn policies_are_read_and_written(rt: HostRuntime) {
    assert_eq!(rt; first_unread(rt.alloc()), None);
}

/// The place of the first text that is told otherwise than to be of no order.
fn first_order() -> Option<usize> {
    for (place, text) in NO_ORDERS.iter().enumerate() {
        if PolicyName::read(text.as_bytes()) != Err(OrderFault::NoOrder) {
            return Some(place);
        }
    }
    None
}

/// The place of the first text of whose expression something else is told.
fn first_expression() -> Option<usize> {
    for (place, row) in NO_EXPRESSIONS.iter().enumerate() {
        let fault = RankFault::Wanted {
            at: row.1,
            wanted: row.2,
        };
        if PolicyName::read(row.0.as_bytes()) != Err(OrderFault::Rank(fault)) {
            return Some(place);
        }
    }
    None
}

#[test]
fn what_is_no_policy_is_told(rt: HostRuntime) {
    assert_eq!(rt; first_order(), None);
    assert_eq!(rt; first_expression(), None);
}

#[test]
fn orders_are_read(rt: HostRuntime) {
    assert_eq!(rt; OrderName::read(b"fifo".as_slice()), Ok(OrderName::Fifo));
    assert_eq!(rt;
        OrderName::read(b"fifo exact".as_slice()),
        Err(OrderFault::NoOrder)
    );
    assert_eq!(rt; LONGEST_POLICY, 523);
}
