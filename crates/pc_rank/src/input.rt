//! Codes of texts that are cut into tokens.

ghost use Rattle.std.specs.Prelude.{◌≡◌, ◌≤◌, IfErr, IfOk, OnOk, count_by};
ghost use Rattle.pc_rank.specs.Inner.Limits.{IsMadeOf, IsNoTree, IsPlaced, IsTooMany, tokens_in};
ghost use Rattle.pc_rank.specs.Tokens.{is_node};

use crate::expression::Expression;
use crate::fault::RankFault;
use crate::halt::Halt;
use crate::making::Making;
use crate::reader::whole;
use crate::row::Row;
use crate::token::{Token, Tokens};

/// Whether a token makes a node.
fn is_node(token: Token) -> bool
    ensures { result ≡ is_node token }
{
    match token {
        Token::Then | Token::Else | Token::Open | Token::Close | Token::Comma => false,
        _ => true,
    }
}

/// The place of a token, or the end of the text.
fn place_of(found: &Tokens, index: usize, end: usize) -> usize {
    if index < found.len() {
        usize::from(found.places[index])
    } else {
        end
    }
}

/// Whether no more tokens than may make nodes.
pub(crate) fn within_limits(found: &Tokens) -> Result<(), RankFault>
    ensures ok { OnOk result (count_by is_node (tokens_in found.now) ≤ 64) }
    ensures err { IfErr result (λ fault. IsTooMany (tokens_in found.now) fault) }
{
    let mut count = 0;
    let mut index = 0;
    for token in found.tokens() {
        if is_node(*token) {
            if count == Expression::MOST_NODES {
                return Err(RankFault::TooManyNodes {
                    at: place_of(found, index, 0),
                });
            }
            count += 1;
        }
        index += 1;
    }
    Ok(())
}

/// What a reader of tokens found wrong, at a place of the text.
fn placed(found: &Tokens, end: usize, halt: Halt) -> RankFault
    ensures { IsPlaced result }
{
    let at = place_of(found, found.len().saturating_sub(halt.left), end);
    match halt.wanted {
        Some(wanted) => RankFault::Wanted { at, wanted },
        None => RankFault::TooDeep { at },
    }
}

/// Makes the codes of the expression of all tokens.
pub(crate) fn made_of(found: &Tokens, end: usize) -> Result<Row, RankFault>
    requires { count_by is_node (tokens_in found.now) ≤ 64 }
    ensures ok { IfOk result (λ row. IsMadeOf (tokens_in found.now) row) }
    ensures err { IfErr result (λ fault. IsNoTree (tokens_in found.now) fault) }
{
    let mut made = Making::new();
    match whole(&mut made, found.tokens()) {
        Ok(()) => Ok(made.into_row()),
        Err(halt) => Err(placed(found, end, halt)),
    }
}
