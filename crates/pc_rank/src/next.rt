//! What the next token is.

ghost use Rattle.std.specs.Prelude.{◌≡◌, ◌+◌, ◌≤◌, IfOk, IfSome, drop};
ghost use Rattle.pc_rank.specs.Inner.Reading.{behind, comparison_of, deep, ended, halt, is_wanted, joiner_of, lead_of};
ghost use Rattle.pc_rank.specs.Inner.Reading.{meets, mixes, next_comparison, next_joiner, next_lead, next_operator};
ghost use Rattle.pc_rank.specs.Inner.Reading.{Gives, Outweighs, operator_of, weight};

use crate::fault::Wanted;
use crate::halt::{Halt, Lead};
use crate::operators::{Comparison, Joiner, Operator};
use crate::token::Token;

/// This is wanted here.
pub(crate) fn wanted_at(tokens: &[Token], wanted: Wanted) -> Halt
    ensures { result ≡ halt tokens.now wanted }
{
    Halt {
        left: tokens.len(),
        wanted: Some(wanted),
    }
}

/// It goes too deep here.
pub(crate) fn too_deep_at(tokens: &[Token]) -> Halt
    ensures { result ≡ deep tokens.now }
{
    Halt {
        left: tokens.len(),
        wanted: None,
    }
}

/// The tokens behind the next one.
pub(crate) fn rest_of(tokens: &[Token]) -> &[Token]
    ensures is { result.now ≡ drop 1 tokens.now }
    ensures weight { weight result.now ≤ weight tokens.now }
{
    match tokens {
        [] => tokens,
        [_, rest @ ..] => rest,
    }
}

/// How a part begins with a token.
fn lead_of(token: Token) -> Lead
    ensures { result ≡ lead_of token }
{
    match token {
        Token::If => Lead::Choice,
        Token::Not => Lead::Negation,
        Token::Open => Lead::Group,
        _ => Lead::Other,
    }
}

/// How what stands here begins.
pub(crate) fn next_lead(tokens: &[Token]) -> Lead
    ensures is { result ≡ next_lead tokens.now }
    ensures weight { Outweighs result tokens.now }
{
    match tokens {
        [] => Lead::Other,
        [token, ..] => lead_of(*token),
    }
}

/// The operator that a token is.
fn operator_of(token: Token) -> Option<Operator>
    ensures { result ≡ operator_of token }
{
    match token {
        Token::Infix(operator) => Some(operator),
        _ => None,
    }
}

/// The operator that stands here.
pub(crate) fn next_operator(tokens: &[Token]) -> Option<Operator>
    ensures is { result ≡ next_operator tokens.now }
    ensures weight { IfSome result (λ _. weight (drop 1 tokens.now) + 1 ≡ weight tokens.now) }
{
    match tokens {
        [] => None,
        [token, ..] => operator_of(*token),
    }
}

/// The word for joining that a token is.
fn joiner_of(token: Token) -> Option<Joiner>
    ensures { result ≡ joiner_of token }
{
    match token {
        Token::Join(joiner) => Some(joiner),
        _ => None,
    }
}

/// The word for joining that stands here.
pub(crate) fn next_joiner(tokens: &[Token]) -> Option<Joiner>
    ensures is { result ≡ next_joiner tokens.now }
    ensures weight { IfSome result (λ _. weight (drop 1 tokens.now) + 1 ≡ weight tokens.now) }
{
    match tokens {
        [] => None,
        [token, ..] => joiner_of(*token),
    }
}

/// The comparison that a token is.
fn comparison_of(token: Token) -> Option<Comparison>
    ensures { result ≡ comparison_of token }
{
    match token {
        Token::Compare(comparison) => Some(comparison),
        _ => None,
    }
}

/// The comparison that stands here.
pub(crate) fn next_comparison(tokens: &[Token]) -> Option<Comparison>
    ensures is { result ≡ next_comparison tokens.now }
    ensures weight { IfSome result (λ _. weight (drop 1 tokens.now) + 1 ≡ weight tokens.now) }
{
    match tokens {
        [] => None,
        [token, ..] => comparison_of(*token),
    }
}

/// Whether a token is the one that is wanted.
fn is_wanted(wanted: Wanted, token: Token) -> bool
    ensures { result ≡ is_wanted wanted token }
{
    match (wanted, token) {
        (Wanted::Then, Token::Then)
        | (Wanted::Else, Token::Else)
        | (Wanted::Open, Token::Open)
        | (Wanted::Close, Token::Close)
        | (Wanted::Comma, Token::Comma) => true,
        _ => false,
    }
}

/// The tokens behind one that is wanted here.
#[tactic(auto, unfolding(crate::specs::Inner::Reading::behind))]
pub(crate) fn behind(wanted: Wanted, tokens: &[Token]) -> Result<&[Token], Halt>
    ensures is { Gives (λ x. x.now) result (behind wanted tokens.now) }
    ensures weight { IfOk result (λ rest. weight rest.now ≤ weight tokens.now) }
{
    match tokens {
        [] => Err(wanted_at(tokens, wanted)),
        [token, rest @ ..] => {
            if is_wanted(wanted, *token) {
                Ok(rest)
            } else {
                Err(wanted_at(tokens, wanted))
            }
        }
    }
}

/// The tokens themselves, where no operator stands here.
#[tactic(auto, unfolding(crate::specs::Inner::Reading::ended))]
pub(crate) fn ended(tokens: &[Token]) -> Result<&[Token], Halt>
    ensures is { Gives (λ x. x.now) result (ended tokens.now) }
    ensures weight { IfOk result (λ rest. weight rest.now ≤ weight tokens.now) }
{
    match next_operator(tokens) {
        None => Ok(tokens),
        Some(_) => Err(wanted_at(tokens, Wanted::Parentheses)),
    }
}

/// Whether an operator is another than that of the chain.
pub(crate) fn meets(chained: Option<Operator>, operator: Operator) -> bool
    ensures { result ≡ meets chained operator }
{
    match chained {
        None => false,
        Some(within) => !within.is(operator),
    }
}

/// Whether a word is another than that of the chain.
pub(crate) fn mixes(chained: Option<Joiner>, joiner: Joiner) -> bool
    ensures { result ≡ mixes chained joiner }
{
    match chained {
        None => false,
        Some(within) => !within.is(joiner),
    }
}
