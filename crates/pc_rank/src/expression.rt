//! Expressions.

ghost use Rattle.std.specs.Prelude.{◌≡◌, ◌<◌, ◌≤◌, Err, IfErr, IfOk, length};
ghost use Rattle.std.specs.Result.{result_ok};
ghost use Rattle.pc_rank.specs.Expressions.{Tree};
ghost use Rattle.pc_rank.specs.Layout.{layout};
ghost use Rattle.pc_rank.specs.Meaning.{rank_by};
ghost use Rattle.pc_rank.specs.declared.fault.RankFault.TheVariants.{TooLong};
ghost use Rattle.pc_rank.specs.Reading.{IsReadable, IsText, Refuses, expression_of, nodes};

use crate::code::Code;
use crate::display::write_expression;
use crate::evaluate::rank_of;
use crate::facts::Facts;
use crate::fault::RankFault;
use crate::input::{made_of, within_limits};
use crate::lexer::tokens_of;
use crate::row::Row;
use crate::written::behind_expression;
use std::fmt;
use std::fmt::Display;
use std::marker::Model;

/// An expression that gives a thread's rank on a CPU, or none: its codes, and `none` up to the end.
#[derive(Clone, Copy, PartialEq, Eq)]
pub struct Expression {
    codes: [Code; Expression::MOST_NODES],
    count: u8,
}

impl Model for Expression {
    ghost use Rattle.pc_rank.specs.Expressions.{Tree};
    ghost use Rattle.pc_rank.specs.Form.{tree_code};

    ghost Value = { Tree };

    ghost coded = { tree_code };

    ghost use Rattle.pc_rank.specs.Fields.{fields_again, fields_of, tree_in, IsLaid};

    ghost view = { tree_in };

    ghost invariant = { IsLaid };

    ghost inverse = { fields_of };

    ghost inverse_ok = { λ a laid. fields_again a laid };
}

impl Expression {
    /// The longest text, in bytes.
    pub const LONGEST: usize = 512;

    /// The most nodes.
    pub const MOST_NODES: usize = 64;

    /// The expression of a text. What is wanted at the place of a fault, and the place, are tested and not proved.
    pub fn read(text: &[u8]) -> Result<Expression, RankFault>
        // What is read is an expression of the text,
        ensures sound { IfOk result (λ e. IsText text.now e) }
        ensures within { IfOk result (λ e. (length text.now ≤ 512) × (nodes e ≤ 64)) }
        // and no other is one.
        ensures only { IfOk result (λ e. (a : Tree) → IsText text.now a → e ≡ a) }
        // What is within the limits is read.
        ensures complete { IfErr result (λ fault. Refuses text.now fault) }
        // A text that is too long is refused first,
        ensures first { 512 < length text.now → result ≡ Err TooLong }
        // and what is read is a function of the text.
        ensures reads { result_ok result ≡ expression_of text.now }
    {
        if text.len() > Expression::LONGEST {
            return Err(RankFault::TooLong);
        }
        let found = tokens_of(text);
        within_limits(&found)?;
        let row = made_of(&found, text.len())?;
        if behind_expression(Expression::LONGEST, row.as_slice()).is_none() {
            return Err(RankFault::TooLong);
        }
        Ok(Expression::of(row))
    }

    /// The expression of these codes.
    fn of(row: Row) -> Expression
        requires { (a : Tree) × (row ≡ layout a) × IsReadable a }
        ensures { (a : Tree) → row ≡ layout a → result ≡ a }
    {
        let (codes, count) = row.into_parts();
        Expression { codes, count }
    }

    /// The rank of a thread of which these are the facts; none, where the thread is left out. It takes no memory.
    pub fn rank(&self, facts: &Facts) -> Option<u64>
        ensures { result ≡ rank_by self.now facts.now }
    {
        rank_of(self.codes(), facts).0
    }

    /// Its codes.
    fn codes(&self) -> &[Code]
        ensures { result.now ≡ layout self.now }
    {
        &self.codes[..usize::from(self.count)]
    }

    /// What is written of an expression is read again.
    pub fn is_read_again(&self)
        ensures { IsReadable self.now }
    {
        let _ = &self.count;
    }
}

impl fmt::Display for Expression {
    ghost use Rattle.std.specs.Prelude.{Some};
    ghost use Rattle.pc_rank.specs.Texts.{text_of};

    ghost output = { λ e. Some (text_of e) };

    fn fmt<W: fmt::Write>(&self, f: &mut fmt::Formatter<W>) -> fmt::Result {
        write_expression(f, self.codes())
    }
}

impl fmt::Debug for Expression {
    fn fmt<W: fmt::Write>(&self, f: &mut fmt::Formatter<W>) -> fmt::Result {
        Display::fmt(self, f)
    }
}
