//! Codes of tokens, read from left to right.
//!
//! No function goes more than sixteen levels deep: each level is left at [`part_at`], which counts them.

ghost use Rattle.std.specs.Prelude.{◌≡◌, ◌+◌, ◌<◌, ◌≤◌, [], ◌∷◌, IfOk, OnOk};
ghost use Rattle.pc_rank.specs.Expressions.{Rank};
ghost use Rattle.pc_rank.specs.Inner.Made.{found_on, load, stack, test_on, tree_on, under, Has};
ghost use Rattle.pc_rank.specs.Inner.Reading.{after_in, call_in, choice_in, compared_in, either_in, expression_in};
ghost use Rattle.pc_rank.specs.Inner.Reading.{group_in, grouped_in, infix_in, joined_in, opened_in, part_at};
ghost use Rattle.pc_rank.specs.Inner.Reading.{Gives, part_in, rank_in, sum_in, term_in, test_in, tests_in, whole};
ghost use Rattle.pc_rank.specs.Inner.Stacks.{HasRank, HasTest};

use crate::code::Code;
use crate::fault::Wanted;
use crate::halt::{Halt, Lead, Part, Place};
use crate::making::Making;
use crate::next::{
    behind, ended, meets, mixes, next_comparison, next_joiner, next_lead, next_operator, rest_of,
    too_deep_at, wanted_at,
};
use crate::operators::{Extreme, Joiner, Operator};
use crate::token::Token;

/// Parts of an expression lie in one another at most so deep.
const LEVELS: u8 = 16;

/// The expression at a place.
#[cycle(reader)]
#[tactic(auto, unfolding(crate::specs::Inner::Reading::rank_in))]
fn rank_at<'a>(
    made: &mut Making,
    levels: u8,
    place: Place,
    tokens: &'a [Token],
) -> Result<&'a [Token], Halt>
    requires { load made.old tokens.now ≤ 64 }
    ensures read { Gives (λ rest. (tree_on made.new, rest.now)) result (rank_in (part_at levels) place tokens.now) }
    ensures under { OnOk result (under made.new ≡ stack made.old) }
    ensures kind { OnOk result (HasRank (stack made.new)) }
    ensures load { IfOk result (λ rest. load made.new rest.now ≤ load made.old tokens.now) }
{
    let (part, rest) = part_at(made, levels, place, tokens)?;
    match part {
        Part::Rank => Ok(rest),
        Part::Test => Err(wanted_at(tokens, Wanted::Operand)),
    }
}

/// The test at a place.
#[cycle(reader)]
#[tactic(auto, unfolding(crate::specs::Inner::Reading::test_in))]
fn test_at<'a>(
    made: &mut Making,
    levels: u8,
    place: Place,
    tokens: &'a [Token],
) -> Result<&'a [Token], Halt>
    requires { load made.old tokens.now ≤ 64 }
    ensures read { Gives (λ rest. (test_on made.new, rest.now)) result (test_in (part_at levels) place tokens.now) }
    ensures under { OnOk result (under made.new ≡ stack made.old) }
    ensures kind { OnOk result (HasTest (stack made.new)) }
    ensures load { IfOk result (λ rest. load made.new rest.now ≤ load made.old tokens.now) }
{
    let (part, rest) = part_at(made, levels, place, tokens)?;
    match part {
        Part::Rank => Err(wanted_at(rest, Wanted::Comparison)),
        Part::Test => Ok(rest),
    }
}

/// What is behind `if`, up to its end.
#[cycle(reader)]
#[tactic(auto, unfolding(crate::specs::Inner::Reading::choice_in))]
fn choice_at<'a>(made: &mut Making, levels: u8, tokens: &'a [Token]) -> Result<&'a [Token], Halt>
    requires { load made.old tokens.now < 64 }
    ensures read { Gives (λ rest. (tree_on made.new, rest.now)) result (choice_in (part_at levels) tokens.now) }
    ensures under { OnOk result (under made.new ≡ stack made.old) }
    ensures kind { OnOk result (HasRank (stack made.new)) }
    ensures load { IfOk result (λ rest. load made.new rest.now ≤ load made.old tokens.now + 1) }
{
    let rest = test_at(made, levels, Place::Test, tokens)?;
    let rest = behind(Wanted::Then, rest)?;
    let rest = rank_at(made, levels, Place::Expression, rest)?;
    let rest = behind(Wanted::Else, rest)?;
    let rest = rank_at(made, levels, Place::Expression, rest)?;
    made.push(Code::Choice);
    Ok(rest)
}

/// What is behind `min` or `max`, up to its end.
#[cycle(reader)]
#[tactic(auto, unfolding(crate::specs::Inner::Reading::call_in))]
fn call_at<'a>(
    made: &mut Making,
    levels: u8,
    extreme: Extreme,
    tokens: &'a [Token],
) -> Result<&'a [Token], Halt>
    requires { load made.old tokens.now < 64 }
    ensures read { Gives (λ rest. (tree_on made.new, rest.now)) result (call_in (part_at levels) extreme tokens.now) }
    ensures under { OnOk result (under made.new ≡ stack made.old) }
    ensures kind { OnOk result (HasRank (stack made.new)) }
    ensures load { IfOk result (λ rest. load made.new rest.now ≤ load made.old tokens.now + 1) }
{
    let rest = behind(Wanted::Open, tokens)?;
    let rest = rank_at(made, levels, Place::Expression, rest)?;
    let rest = behind(Wanted::Comma, rest)?;
    let rest = rank_at(made, levels, Place::Expression, rest)?;
    let rest = behind(Wanted::Close, rest)?;
    made.push(Code::Call(extreme));
    Ok(rest)
}

/// What is behind a parenthesis that an operand begins with, up to its end.
#[cycle(reader)]
#[tactic(auto, unfolding(crate::specs::Inner::Reading::group_in))]
fn group_at<'a>(made: &mut Making, levels: u8, tokens: &'a [Token]) -> Result<&'a [Token], Halt>
    requires { load made.old tokens.now ≤ 64 }
    ensures read { Gives (λ rest. (tree_on made.new, rest.now)) result (group_in (part_at levels) tokens.now) }
    ensures under { OnOk result (under made.new ≡ stack made.old) }
    ensures kind { OnOk result (HasRank (stack made.new)) }
    ensures load { IfOk result (λ rest. load made.new rest.now ≤ load made.old tokens.now) }
{
    let rest = rank_at(made, levels, Place::Expression, tokens)?;
    behind(Wanted::Close, rest)
}

/// The term here.
#[cycle(reader)]
#[tactic(auto, unfolding(crate::specs::Inner::Reading::term_in))]
fn term_at<'a>(made: &mut Making, levels: u8, tokens: &'a [Token]) -> Result<&'a [Token], Halt>
    requires { load made.old tokens.now ≤ 64 }
    ensures read { Gives (λ rest. (tree_on made.new, rest.now)) result (term_in (part_at levels) tokens.now) }
    ensures under { OnOk result (under made.new ≡ stack made.old) }
    ensures kind { OnOk result (HasRank (stack made.new)) }
    ensures load { IfOk result (λ rest. load made.new rest.now ≤ load made.old tokens.now) }
{
    match tokens {
        [] => Err(wanted_at(tokens, Wanted::Operand)),
        [token, rest @ ..] => match token {
            Token::Number(number) => {
                made.push(Code::Number(*number));
                Ok(rest)
            }
            Token::Given(fact) => {
                made.push(Code::Given(*fact));
                Ok(rest)
            }
            Token::NoRank => {
                made.push(Code::NoRank);
                Ok(rest)
            }
            Token::Open => group_at(made, levels, rest),
            Token::Call(extreme) => call_at(made, levels, *extreme, rest),
            Token::NoNumber => Err(wanted_at(tokens, Wanted::Number)),
            _ => Err(wanted_at(tokens, Wanted::Operand)),
        },
    }
}

/// What is behind a first operand and an operator.
#[cycle(reader)]
#[tactic(auto, unfolding(crate::specs::Inner::Reading::infix_in))]
fn infix_at<'a>(
    made: &mut Making,
    levels: u8,
    operator: Operator,
    tokens: &'a [Token],
) -> Result<&'a [Token], Halt>
    requires load { load made.old tokens.now < 64 }
    requires kind { HasRank (stack made.old) }
    ensures read { Gives (λ rest. (tree_on made.new, rest.now)) result
        (infix_in (part_at levels) operator (tree_on made.old) tokens.now) }
    ensures under { OnOk result (under made.new ≡ under made.old) }
    ensures kind { OnOk result (HasRank (stack made.new)) }
    ensures load { IfOk result (λ rest. load made.new rest.now ≤ load made.old tokens.now + 1) }
{
    if operator.may_chain() {
        let rest = rank_at(made, levels, Place::Chain(operator), tokens)?;
        made.push(Code::Infix(operator));
        return Ok(rest);
    }
    let rest = term_at(made, levels, tokens)?;
    let rest = ended(rest)?;
    made.push(Code::Infix(operator));
    Ok(rest)
}

/// What is behind a first operand, in a chain of this operator or in none.
#[cycle(reader)]
#[tactic(auto, unfolding(crate::specs::Inner::Reading::after_in))]
fn after_at<'a>(
    made: &mut Making,
    levels: u8,
    chained: Option<Operator>,
    tokens: &'a [Token],
) -> Result<&'a [Token], Halt>
    requires load { load made.old tokens.now ≤ 64 }
    requires kind { HasRank (stack made.old) }
    ensures read { Gives (λ rest. (tree_on made.new, rest.now)) result
        (after_in (part_at levels) chained (tree_on made.old) tokens.now) }
    ensures under { OnOk result (under made.new ≡ under made.old) }
    ensures kind { OnOk result (HasRank (stack made.new)) }
    ensures load { IfOk result (λ rest. load made.new rest.now ≤ load made.old tokens.now) }
{
    match next_operator(tokens) {
        None => Ok(tokens),
        Some(operator) => {
            if meets(chained, operator) {
                Err(wanted_at(tokens, Wanted::Parentheses))
            } else {
                infix_at(made, levels, operator, rest_of(tokens))
            }
        }
    }
}

/// Operands from here on, in a chain of this operator or in none.
#[cycle(reader)]
#[tactic(auto, unfolding(crate::specs::Inner::Reading::sum_in))]
fn sum_at<'a>(
    made: &mut Making,
    levels: u8,
    chained: Option<Operator>,
    tokens: &'a [Token],
) -> Result<&'a [Token], Halt>
    requires { load made.old tokens.now ≤ 64 }
    ensures read { Gives (λ rest. (tree_on made.new, rest.now)) result (sum_in (part_at levels) chained tokens.now) }
    ensures under { OnOk result (under made.new ≡ stack made.old) }
    ensures kind { OnOk result (HasRank (stack made.new)) }
    ensures load { IfOk result (λ rest. load made.new rest.now ≤ load made.old tokens.now) }
{
    let rest = term_at(made, levels, tokens)?;
    after_at(made, levels, chained, rest)
}

/// What is behind a sum where a test may stand.
#[cycle(reader)]
#[tactic(auto, unfolding(crate::specs::Inner::Reading::compared_in))]
fn compared_at<'a>(
    made: &mut Making,
    levels: u8,
    tokens: &'a [Token],
) -> Result<(Part, &'a [Token]), Halt>
    requires load { load made.old tokens.now ≤ 64 }
    requires kind { HasRank (stack made.old) }
    ensures read { Gives (λ x. (found_on x.0 made.new, x.1.now)) result
        (compared_in (part_at levels) (tree_on made.old) tokens.now) }
    ensures under { OnOk result (under made.new ≡ under made.old) }
    ensures kind { IfOk result (λ x. Has x.0 (stack made.new)) }
    ensures load { IfOk result (λ x. load made.new x.1.now ≤ load made.old tokens.now) }
{
    match next_comparison(tokens) {
        None => Ok((Part::Rank, tokens)),
        Some(comparison) => {
            let rest = sum_at(made, levels, None, rest_of(tokens))?;
            made.push(Code::Compare(comparison));
            Ok((Part::Test, rest))
        }
    }
}

/// The test in parentheses here.
#[cycle(reader)]
#[tactic(auto, unfolding(crate::specs::Inner::Reading::grouped_in))]
fn grouped_at<'a>(made: &mut Making, levels: u8, tokens: &'a [Token]) -> Result<&'a [Token], Halt>
    requires { load made.old tokens.now ≤ 64 }
    ensures read { Gives (λ rest. (test_on made.new, rest.now)) result (grouped_in (part_at levels) tokens.now) }
    ensures under { OnOk result (under made.new ≡ stack made.old) }
    ensures kind { OnOk result (HasTest (stack made.new)) }
    ensures load { IfOk result (λ rest. load made.new rest.now ≤ load made.old tokens.now) }
{
    let rest = behind(Wanted::Open, tokens)?;
    let rest = test_at(made, levels, Place::Test, rest)?;
    behind(Wanted::Close, rest)
}

/// What is behind a test in parentheses, in a chain of this word or in none.
#[cycle(reader)]
#[tactic(auto, unfolding(crate::specs::Inner::Reading::joined_in))]
fn joined_at<'a>(
    made: &mut Making,
    levels: u8,
    chained: Option<Joiner>,
    tokens: &'a [Token],
) -> Result<&'a [Token], Halt>
    requires load { load made.old tokens.now ≤ 64 }
    requires kind { HasTest (stack made.old) }
    ensures read { Gives (λ rest. (test_on made.new, rest.now)) result
        (joined_in (part_at levels) chained (test_on made.old) tokens.now) }
    ensures under { OnOk result (under made.new ≡ under made.old) }
    ensures kind { OnOk result (HasTest (stack made.new)) }
    ensures load { IfOk result (λ rest. load made.new rest.now ≤ load made.old tokens.now) }
{
    match next_joiner(tokens) {
        None => match chained {
            None => Err(wanted_at(tokens, Wanted::Joiner)),
            Some(_) => Ok(tokens),
        },
        Some(joiner) => {
            if mixes(chained, joiner) {
                Err(wanted_at(tokens, Wanted::Parentheses))
            } else {
                let rest = test_at(made, levels, Place::Joined(joiner), rest_of(tokens))?;
                made.push(Code::Join(joiner));
                Ok(rest)
            }
        }
    }
}

/// What is behind a parenthesis that a test may begin with.
#[cycle(reader)]
#[tactic(auto, unfolding(crate::specs::Inner::Reading::opened_in))]
fn opened_at<'a>(
    made: &mut Making,
    levels: u8,
    tokens: &'a [Token],
) -> Result<(Part, &'a [Token]), Halt>
    requires { load made.old tokens.now ≤ 64 }
    ensures read { Gives (λ x. (found_on x.0 made.new, x.1.now)) result (opened_in (part_at levels) tokens.now) }
    ensures under { OnOk result (under made.new ≡ stack made.old) }
    ensures kind { IfOk result (λ x. Has x.0 (stack made.new)) }
    ensures load { IfOk result (λ x. load made.new x.1.now ≤ load made.old tokens.now) }
{
    let (part, rest) = part_at(made, levels, Place::Either, tokens)?;
    let rest = behind(Wanted::Close, rest)?;
    match part {
        Part::Test => {
            let rest = joined_at(made, levels, None, rest)?;
            Ok((Part::Test, rest))
        }
        Part::Rank => {
            let rest = after_at(made, levels, None, rest)?;
            compared_at(made, levels, rest)
        }
    }
}

/// The expression or the test here.
#[cycle(reader)]
#[tactic(auto, unfolding(crate::specs::Inner::Reading::either_in))]
fn either_at<'a>(
    made: &mut Making,
    levels: u8,
    tokens: &'a [Token],
) -> Result<(Part, &'a [Token]), Halt>
    requires { load made.old tokens.now ≤ 64 }
    ensures read { Gives (λ x. (found_on x.0 made.new, x.1.now)) result (either_in (part_at levels) tokens.now) }
    ensures under { OnOk result (under made.new ≡ stack made.old) }
    ensures kind { IfOk result (λ x. Has x.0 (stack made.new)) }
    ensures load { IfOk result (λ x. load made.new x.1.now ≤ load made.old tokens.now) }
{
    match next_lead(tokens) {
        Lead::Choice => {
            let rest = choice_at(made, levels, rest_of(tokens))?;
            Ok((Part::Rank, rest))
        }
        Lead::Negation => {
            let rest = grouped_at(made, levels, rest_of(tokens))?;
            made.push(Code::Negate);
            Ok((Part::Test, rest))
        }
        Lead::Group => opened_at(made, levels, rest_of(tokens)),
        Lead::Other => {
            let rest = sum_at(made, levels, None, tokens)?;
            compared_at(made, levels, rest)
        }
    }
}

/// The expression here.
#[cycle(reader)]
#[tactic(auto, unfolding(crate::specs::Inner::Reading::expression_in))]
fn expression_at<'a>(
    made: &mut Making,
    levels: u8,
    tokens: &'a [Token],
) -> Result<&'a [Token], Halt>
    requires { load made.old tokens.now ≤ 64 }
    ensures read { Gives (λ rest. (tree_on made.new, rest.now)) result (expression_in (part_at levels) tokens.now) }
    ensures under { OnOk result (under made.new ≡ stack made.old) }
    ensures kind { OnOk result (HasRank (stack made.new)) }
    ensures load { IfOk result (λ rest. load made.new rest.now ≤ load made.old tokens.now) }
{
    match next_lead(tokens) {
        Lead::Choice => choice_at(made, levels, rest_of(tokens)),
        Lead::Negation | Lead::Group | Lead::Other => sum_at(made, levels, None, tokens),
    }
}

/// The tests in parentheses here, in a chain of this word.
#[cycle(reader)]
#[tactic(auto, unfolding(crate::specs::Inner::Reading::tests_in))]
fn tests_at<'a>(
    made: &mut Making,
    levels: u8,
    joiner: Joiner,
    tokens: &'a [Token],
) -> Result<&'a [Token], Halt>
    requires { load made.old tokens.now ≤ 64 }
    ensures read { Gives (λ rest. (test_on made.new, rest.now)) result (tests_in (part_at levels) joiner tokens.now) }
    ensures under { OnOk result (under made.new ≡ stack made.old) }
    ensures kind { OnOk result (HasTest (stack made.new)) }
    ensures load { IfOk result (λ rest. load made.new rest.now ≤ load made.old tokens.now) }
{
    let rest = grouped_at(made, levels, tokens)?;
    joined_at(made, levels, Some(joiner), rest)
}

/// What stands at a place.
#[cycle(reader)]
#[tactic(auto, unfolding(crate::specs::Inner::Reading::tested_in))]
fn found_at<'a>(
    made: &mut Making,
    levels: u8,
    place: Place,
    tokens: &'a [Token],
) -> Result<(Part, &'a [Token]), Halt>
    requires { load made.old tokens.now ≤ 64 }
    ensures read { Gives (λ x. (found_on x.0 made.new, x.1.now)) result (part_in (part_at levels) place tokens.now) }
    ensures under { OnOk result (under made.new ≡ stack made.old) }
    ensures kind { IfOk result (λ x. Has x.0 (stack made.new)) }
    ensures load { IfOk result (λ x. load made.new x.1.now ≤ load made.old tokens.now) }
{
    match place {
        Place::Expression => {
            let rest = expression_at(made, levels, tokens)?;
            Ok((Part::Rank, rest))
        }
        Place::Test => match next_lead(tokens) {
            Lead::Choice => Err(wanted_at(tokens, Wanted::Operand)),
            Lead::Negation | Lead::Group | Lead::Other => either_at(made, levels, tokens),
        },
        Place::Either => either_at(made, levels, tokens),
        Place::Chain(operator) => {
            let rest = sum_at(made, levels, Some(operator), tokens)?;
            Ok((Part::Rank, rest))
        }
        Place::Joined(joiner) => {
            let rest = tests_at(made, levels, joiner, tokens)?;
            Ok((Part::Test, rest))
        }
    }
}

/// What stands at a place, so many levels deep at most.
#[cycle(reader)]
#[tactic(auto, unfolding(crate::specs::Inner::Reading::part_at))]
fn part_at<'a>(
    made: &mut Making,
    levels: u8,
    place: Place,
    tokens: &'a [Token],
) -> Result<(Part, &'a [Token]), Halt>
    requires { load made.old tokens.now ≤ 64 }
    ensures read { Gives (λ x. (found_on x.0 made.new, x.1.now)) result (part_at levels place tokens.now) }
    ensures under { OnOk result (under made.new ≡ stack made.old) }
    ensures kind { IfOk result (λ x. Has x.0 (stack made.new)) }
    ensures load { IfOk result (λ x. load made.new x.1.now ≤ load made.old tokens.now) }
{
    if levels == 0 {
        return Err(too_deep_at(tokens));
    }
    found_at(made, levels - 1, place, tokens)
}

/// Makes the expression that all of the tokens are.
#[tactic(auto, unfolding(crate::specs::Inner::Reading::whole))]
pub(crate) fn whole(made: &mut Making, tokens: &[Token]) -> Result<(), Halt>
    requires load { load made.old tokens.now ≤ 64 }
    requires none { stack made.old ≡ [] }
    ensures read { Gives (λ _. tree_on made.new) result (whole tokens.now) }
    ensures alone { OnOk result (stack made.new ≡ Rank (tree_on made.new) ∷ []) }
{
    let rest = rank_at(made, LEVELS, Place::Expression, tokens)?;
    match rest {
        [] => Ok(()),
        [_, ..] => Err(wanted_at(rest, Wanted::End)),
    }
}
