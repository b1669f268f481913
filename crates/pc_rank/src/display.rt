//! Texts of expressions.

ghost use Rattle.std.specs.Fmt.{WritesOnOk};
ghost use Rattle.pc_rank.specs.Expressions as tree;
ghost use Rattle.pc_rank.specs.Inner.Ends.{AtExpression, AtTest, AtTwo};
ghost use Rattle.pc_rank.specs.Texts.{grouped, test_text, text_of};

use crate::code::{Code, goes_on, is_choice, is_joined_on, is_loose};
use crate::facts::Fact;
use crate::operators::{Comparison, Extreme, Joiner, Operator};
use crate::parts::before;
use std::fmt;

impl fmt::Display for Fact {
    ghost use Rattle.std.specs.Prelude.{Some};
    ghost use Rattle.pc_rank.specs.Texts.{fact_word};

    ghost output = { λ fact. Some (fact_word fact) };

    fn fmt<W: fmt::Write>(&self, f: &mut fmt::Formatter<W>) -> fmt::Result {
        f.write_str(match self {
            Fact::Level => "level",
            Fact::Ran => "ran",
            Fact::Thread => "thread",
            Fact::Cpu => "cpu",
            Fact::Allowed => "allowed",
        })
    }
}

impl fmt::Display for Extreme {
    ghost use Rattle.std.specs.Prelude.{Some};
    ghost use Rattle.pc_rank.specs.Texts.{extreme_word};

    ghost output = { λ extreme. Some (extreme_word extreme) };

    fn fmt<W: fmt::Write>(&self, f: &mut fmt::Formatter<W>) -> fmt::Result {
        f.write_str(match self {
            Extreme::Min => "min",
            Extreme::Max => "max",
        })
    }
}

impl fmt::Display for Joiner {
    ghost use Rattle.std.specs.Prelude.{Some};
    ghost use Rattle.pc_rank.specs.Texts.{joiner_word};

    ghost output = { λ joiner. Some (joiner_word joiner) };

    fn fmt<W: fmt::Write>(&self, f: &mut fmt::Formatter<W>) -> fmt::Result {
        f.write_str(match self {
            Joiner::And => "and",
            Joiner::Or => "or",
        })
    }
}

impl fmt::Display for Operator {
    ghost use Rattle.std.specs.Prelude.{Some};
    ghost use Rattle.pc_rank.specs.Texts.{operator_sign};

    ghost output = { λ operator. Some (operator_sign operator) };

    fn fmt<W: fmt::Write>(&self, f: &mut fmt::Formatter<W>) -> fmt::Result {
        f.write_str(match self {
            Operator::Plus => "+",
            Operator::Times => "*",
            Operator::Minus => "-",
            Operator::Over => "/",
            Operator::Modulo => "%",
        })
    }
}

impl fmt::Display for Comparison {
    ghost use Rattle.std.specs.Prelude.{Some};
    ghost use Rattle.pc_rank.specs.Texts.{comparison_sign};

    ghost output = { λ comparison. Some (comparison_sign comparison) };

    fn fmt<W: fmt::Write>(&self, f: &mut fmt::Formatter<W>) -> fmt::Result {
        f.write_str(match self {
            Comparison::Below => "<",
            Comparison::AtMost => "<=",
            Comparison::Same => "==",
            Comparison::Other => "!=",
            Comparison::AtLeast => ">=",
            Comparison::Above => ">",
        })
    }
}

/// Writes the expression at the end.
#[cycle(display)]
pub(crate) fn write_expression<W: fmt::Write>(
    f: &mut fmt::Formatter<W>,
    codes: &[Code],
) -> fmt::Result
    ensures { AtExpression codes.now (λ front a. WritesOnOk W.write_str_gives f.old result (text_of a) f.new) }
{
    let [front @ .., code] = codes else {
        return Ok(());
    };
    match code {
        Code::Number(number) => write!(f, "{number}"),
        Code::Given(fact) => write!(f, "{fact}"),
        Code::NoRank => f.write_str("none"),
        Code::Infix(operator) => write_infix(f, *operator, front),
        Code::Call(extreme) => write_call(f, *extreme, front),
        Code::Choice => write_choice(f, front),
        _ => Ok(()),
    }
}

/// Writes the test at the end.
#[cycle(display)]
fn write_test<W: fmt::Write>(f: &mut fmt::Formatter<W>, codes: &[Code]) -> fmt::Result
    ensures { AtTest codes.now (λ front a. WritesOnOk W.write_str_gives f.old result (test_text a) f.new) }
{
    let [front @ .., code] = codes else {
        return Ok(());
    };
    match code {
        Code::Compare(comparison) => write_compared(f, *comparison, front),
        Code::Join(joiner) => write_joined(f, *joiner, front),
        Code::Negate => write_negated(f, front),
        _ => Ok(()),
    }
}

/// Writes the expression at the end, in parentheses where they are wanted.
#[cycle(display)]
fn write_operand<W: fmt::Write>(
    f: &mut fmt::Formatter<W>,
    is_grouped: bool,
    codes: &[Code],
) -> fmt::Result
    ensures { AtExpression codes.now
        (λ front a. WritesOnOk W.write_str_gives f.old result (grouped is_grouped (text_of a)) f.new) }
{
    if is_grouped {
        f.write_str("(")?;
        write_expression(f, codes)?;
        f.write_str(")")
    } else {
        write_expression(f, codes)
    }
}

/// Writes the test at the end, in parentheses where they are wanted.
#[cycle(display)]
fn write_grouped<W: fmt::Write>(
    f: &mut fmt::Formatter<W>,
    is_grouped: bool,
    codes: &[Code],
) -> fmt::Result
    ensures { AtTest codes.now
        (λ front a. WritesOnOk W.write_str_gives f.old result (grouped is_grouped (test_text a)) f.new) }
{
    if is_grouped {
        f.write_str("(")?;
        write_test(f, codes)?;
        f.write_str(")")
    } else {
        write_test(f, codes)
    }
}

/// Writes the two expressions at the end, with an operator between them.
#[cycle(display)]
fn write_infix<W: fmt::Write>(
    f: &mut fmt::Formatter<W>,
    operator: Operator,
    codes: &[Code],
) -> fmt::Result
    ensures { AtTwo codes.now
        (λ front a b. WritesOnOk W.write_str_gives f.old result (text_of (tree.Infix operator a b)) f.new) }
{
    let first = before(codes);
    write_operand(f, is_loose(first), first)?;
    write!(f, " {operator} ")?;
    write_operand(f, is_loose(codes) && !goes_on(operator, codes), codes)
}

/// Writes `min` or `max` of the two expressions at the end.
#[cycle(display)]
fn write_call<W: fmt::Write>(
    f: &mut fmt::Formatter<W>,
    extreme: Extreme,
    codes: &[Code],
) -> fmt::Result
    ensures { AtTwo codes.now
        (λ front a b. WritesOnOk W.write_str_gives f.old result (text_of (tree.Call extreme a b)) f.new) }
{
    write!(f, "{extreme}(")?;
    write_expression(f, before(codes))?;
    f.write_str(", ")?;
    write_expression(f, codes)?;
    f.write_str(")")
}

/// Writes the choice between the two expressions at the end, by the test in front of them.
#[cycle(display)]
fn write_choice<W: fmt::Write>(f: &mut fmt::Formatter<W>, codes: &[Code]) -> fmt::Result
    ensures { AtTwo codes.now (λ rest a b. AtTest rest
        (λ front q. WritesOnOk W.write_str_gives f.old result (text_of (tree.Choice q a b)) f.new)) }
{
    let first = before(codes);
    f.write_str("if ")?;
    write_test(f, before(first))?;
    f.write_str(" then ")?;
    write_expression(f, first)?;
    f.write_str(" else ")?;
    write_expression(f, codes)
}

/// Writes the two expressions at the end, with a comparison between them.
#[cycle(display)]
fn write_compared<W: fmt::Write>(
    f: &mut fmt::Formatter<W>,
    comparison: Comparison,
    codes: &[Code],
) -> fmt::Result
    ensures { AtTwo codes.now
        (λ front a b. WritesOnOk W.write_str_gives f.old result (test_text (tree.Compare comparison a b)) f.new) }
{
    let first = before(codes);
    write_operand(f, is_choice(first), first)?;
    write!(f, " {comparison} ")?;
    write_operand(f, is_choice(codes), codes)
}

/// Writes the two tests at the end, with a word between them.
#[cycle(display)]
fn write_joined<W: fmt::Write>(
    f: &mut fmt::Formatter<W>,
    joiner: Joiner,
    codes: &[Code],
) -> fmt::Result
    ensures { AtTest codes.now (λ rest q. AtTest rest
        (λ front p. WritesOnOk W.write_str_gives f.old result (test_text (tree.Join joiner p q)) f.new)) }
{
    write_grouped(f, true, before(codes))?;
    write!(f, " {joiner} ")?;
    write_grouped(f, !is_joined_on(joiner, codes), codes)
}

/// Writes `not` of the test at the end.
#[cycle(display)]
fn write_negated<W: fmt::Write>(f: &mut fmt::Formatter<W>, codes: &[Code]) -> fmt::Result
    ensures { AtTest codes.now
        (λ front a. WritesOnOk W.write_str_gives f.old result (test_text (tree.Negate a)) f.new) }
{
    f.write_str("not ")?;
    write_grouped(f, true, codes)
}
