//! Laws of texts.

ghost use Rattle.std.specs.Prelude.{◌≡◌, ℕ, ◌≤◌, ◌↔◌, List, Some, length};
ghost use Rattle.pc_rank.specs.Expressions.{Tree};
ghost use Rattle.pc_rank.specs.Reading.{IsReadable, IsText, expression_of};
ghost use Rattle.pc_rank.specs.Texts.{text_of};

/// A text has at most one expression.
pub fn a_text_has_one_expression()
    ensures { (text : List ℕ) (a b : Tree) → IsText text a → IsText text b → a ≡ b }
{}

/// An expression that some text has, has also the text that it is written as. So, within 512 bytes, what is read is
/// read again from what is written of it.
pub fn a_written_text_is_read()
    ensures { (text : List ℕ) (a : Tree) → IsText text a → IsText (text_of a) a }
{}

/// The expression that a text is read as is a function of the text: within the limits the text's expression, else none.
pub fn a_text_is_read_by_a_function()
    ensures { (text : List ℕ) (a : Tree)
        → (expression_of text ≡ Some a) ↔ ((length text ≤ 512) × IsText text a × IsReadable a) }
{}
