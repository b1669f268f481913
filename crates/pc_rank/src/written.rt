//! How long the text is that an expression is written as.

ghost use Rattle.std.specs.Prelude.{◌≡◌, decimal, length};
ghost use Rattle.pc_rank.specs.Expressions as tree;
ghost use Rattle.pc_rank.specs.Inner.Written.{Leaves};
ghost use Rattle.pc_rank.specs.Inner.Ends.{AtExpression, AtTest, AtTwo};
ghost use Rattle.pc_rank.specs.declared.operators.Extreme.{Extreme};
ghost use Rattle.pc_rank.specs.Texts.{comparison_sign, fact_word, grouped, joiner_word, test_text, text_of};

use crate::code::{Code, goes_on, is_choice, is_joined_on, is_loose};
use crate::facts::Fact;
use crate::operators::{Comparison, Joiner, Operator};
use crate::parts::before;

/// How many digits a number has.
fn digits(number: u64) -> usize
    ensures { result ≡ length (decimal number) }
{
    let mut count = 1;
    let mut rest = number;
    while rest >= 10 {
        rest /= 10;
        count += 1;
    }
    count
}

/// How long a name is.
fn fact_length(fact: Fact) -> usize
    ensures { result ≡ length (fact_word fact) }
{
    match fact {
        Fact::Ran | Fact::Cpu => 3,
        Fact::Level => 5,
        Fact::Thread => 6,
        Fact::Allowed => 7,
    }
}

/// How long a sign of a comparison is.
fn sign_length(comparison: Comparison) -> usize
    ensures { result ≡ length (comparison_sign comparison) }
{
    match comparison {
        Comparison::Below | Comparison::Above => 1,
        Comparison::AtMost | Comparison::Same | Comparison::Other | Comparison::AtLeast => 2,
    }
}

/// How long a word that joins tests is.
fn word_length(joiner: Joiner) -> usize
    ensures { result ≡ length (joiner_word joiner) }
{
    match joiner {
        Joiner::And => 3,
        Joiner::Or => 2,
    }
}

/// What is left of so many bytes behind the expression at the end; none, where they are too few.
#[cycle(written)]
pub(crate) fn behind_expression(room: usize, codes: &[Code]) -> Option<usize>
    ensures { AtExpression codes.now (λ front a. Leaves room (text_of a) result) }
{
    let [front @ .., code] = codes else {
        return Some(room);
    };
    match code {
        Code::Number(number) => room.checked_sub(digits(*number)),
        Code::Given(fact) => room.checked_sub(fact_length(*fact)),
        Code::NoRank => room.checked_sub(4),
        Code::Infix(operator) => behind_infix(room, *operator, front),
        Code::Call(_) => behind_call(room, front),
        Code::Choice => behind_choice(room, front),
        _ => Some(room),
    }
}

/// What is left of so many bytes behind the test at the end; none, where they are too few.
#[cycle(written)]
fn behind_test(room: usize, codes: &[Code]) -> Option<usize>
    ensures { AtTest codes.now (λ front a. Leaves room (test_text a) result) }
{
    let [front @ .., code] = codes else {
        return Some(room);
    };
    match code {
        Code::Compare(comparison) => behind_compared(room, *comparison, front),
        Code::Join(joiner) => behind_joined(room, *joiner, front),
        Code::Negate => behind_negated(room, front),
        _ => Some(room),
    }
}

/// The same behind an expression in parentheses, where they are wanted.
#[cycle(written)]
fn behind_operand(room: usize, is_grouped: bool, codes: &[Code]) -> Option<usize>
    ensures { AtExpression codes.now (λ front a. Leaves room (grouped is_grouped (text_of a)) result) }
{
    if is_grouped {
        behind_expression(room.checked_sub(2)?, codes)
    } else {
        behind_expression(room, codes)
    }
}

/// The same behind a test in parentheses, where they are wanted.
#[cycle(written)]
fn behind_grouped(room: usize, is_grouped: bool, codes: &[Code]) -> Option<usize>
    ensures { AtTest codes.now (λ front a. Leaves room (grouped is_grouped (test_text a)) result) }
{
    if is_grouped {
        behind_test(room.checked_sub(2)?, codes)
    } else {
        behind_test(room, codes)
    }
}

/// The same behind the two expressions at the end, with an operator between them.
#[cycle(written)]
fn behind_infix(room: usize, operator: Operator, codes: &[Code]) -> Option<usize>
    ensures { AtTwo codes.now (λ front a b. Leaves room (text_of (tree.Infix operator a b)) result) }
{
    let first = before(codes);
    let room = room.checked_sub(3)?;
    let room = behind_operand(room, is_loose(first), first)?;
    behind_operand(room, is_loose(codes) && !goes_on(operator, codes), codes)
}

/// The same behind `min` or `max` of the two expressions at the end.
#[cycle(written)]
fn behind_call(room: usize, codes: &[Code]) -> Option<usize>
    ensures { (extreme : Extreme) → AtTwo codes.now
        (λ front a b. Leaves room (text_of (tree.Call extreme a b)) result) }
{
    let room = room.checked_sub(7)?;
    let room = behind_expression(room, before(codes))?;
    behind_expression(room, codes)
}

/// The same behind the choice between the two expressions at the end, by the test in front of them.
#[cycle(written)]
fn behind_choice(room: usize, codes: &[Code]) -> Option<usize>
    ensures { AtTwo codes.now (λ rest a b. AtTest rest
        (λ front q. Leaves room (text_of (tree.Choice q a b)) result)) }
{
    let first = before(codes);
    let room = room.checked_sub(15)?;
    let room = behind_test(room, before(first))?;
    let room = behind_expression(room, first)?;
    behind_expression(room, codes)
}

/// The same behind the two expressions at the end, with a comparison between them.
#[cycle(written)]
fn behind_compared(room: usize, comparison: Comparison, codes: &[Code]) -> Option<usize>
    ensures { AtTwo codes.now (λ front a b. Leaves room (test_text (tree.Compare comparison a b)) result) }
{
    let first = before(codes);
    let room = room.checked_sub(sign_length(comparison) + 2)?;
    let room = behind_operand(room, is_choice(first), first)?;
    behind_operand(room, is_choice(codes), codes)
}

/// The same behind the two tests at the end, with a word between them.
#[cycle(written)]
fn behind_joined(room: usize, joiner: Joiner, codes: &[Code]) -> Option<usize>
    ensures { AtTest codes.now (λ rest q. AtTest rest
        (λ front p. Leaves room (test_text (tree.Join joiner p q)) result)) }
{
    let room = room.checked_sub(word_length(joiner) + 2)?;
    let room = behind_grouped(room, true, before(codes))?;
    behind_grouped(room, !is_joined_on(joiner, codes), codes)
}

/// The same behind `not` of the test at the end.
#[cycle(written)]
fn behind_negated(room: usize, codes: &[Code]) -> Option<usize>
    ensures { AtTest codes.now (λ front a. Leaves room (test_text (tree.Negate a)) result) }
{
    let room = room.checked_sub(4)?;
    behind_grouped(room, true, codes)
}
