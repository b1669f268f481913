//! A column of texts.

ghost use Rattle.std.specs.Prelude.{◌≡◌, ◌++◌, ◌∷◌, [], IfOk, IfSome, OnOk, length, slice_index_or};
ghost use Rattle.pc_table.specs.Sheets.{widest};

use std::alloc::{AllocError, Global};
use std::fmt::Display;
use std::io::Write;
use std::marker::Model;

/// Texts, one below another, of which it is known how long the longest is.
#[derive(Drop)]
pub(crate) struct Strip {
    alloc: Global,
    texts: Vec<Vec<u8>>,
    width: usize,
}

impl Model for Strip {
    ghost use Rattle.std.specs.Prelude.{ℕ, List, ◌≡◌, map};
    ghost use Rattle.pc_table.specs.Sheets.{widest};

    ghost Value = { List (List ℕ) };

    ghost view = { λ s. map (λ text. text.items) s.texts.items };

    ghost invariant = { λ s. s.width ≡ widest (map (λ text. text.items) s.texts.items) };
}

/// What a value is written as.
pub(crate) fn spelled<T: Display>(alloc: Global, value: &T) -> Result<Vec<u8>, AllocError>
    ensures { IfOk result (λ text. IfSome (T.output value.now) (λ said. text.items ≡ said)) }
{
    let mut text = Vec::new(alloc);
    match write!(text, "{value}") {
        Ok(()) => Ok(text),
        Err(_) => Err(AllocError),
    }
}

impl Strip {
    /// No texts.
    pub(crate) fn new(alloc: Global) -> Strip
        ensures { result ≡ [] }
    {
        Strip {
            alloc,
            texts: Vec::new(alloc),
            width: 0,
        }
    }

    /// A text more, below all others.
    pub(crate) fn push(&mut self, text: Vec<u8>) -> Result<(), AllocError>
        ensures { OnOk result (self.new ≡ self.old ++ text.items ∷ []) }
    {
        let width = self.width.max(text.len());
        self.texts.push(text)?;
        self.width = width;
        Ok(())
    }

    /// A copy of these bytes more.
    pub(crate) fn push_copy(&mut self, bytes: &[u8]) -> Result<(), AllocError>
        ensures { OnOk result (self.new ≡ self.old ++ bytes.now ∷ []) }
    {
        let text = Vec::from_slice(self.alloc, bytes)?;
        self.push(text)
    }

    /// What a value is written as, more.
    pub(crate) fn push_spelled<T: Display>(&mut self, value: &T) -> Result<(), AllocError>
        ensures { OnOk result (IfSome (T.output value.now) (λ said. self.new ≡ self.old ++ said ∷ [])) }
    {
        let text = spelled(self.alloc, value)?;
        self.push(text)
    }

    /// How many there are.
    pub(crate) fn len(&self) -> usize
        ensures { result ≡ length self.now }
    {
        self.texts.len()
    }

    /// How long the longest is.
    pub(crate) fn width(&self) -> usize
        ensures { result ≡ widest self.now }
    {
        self.width
    }

    /// The text at a place; nothing where there is none.
    pub(crate) fn text(&self, place: usize) -> &[u8]
        ensures { result.now ≡ slice_index_or self.now place [] }
    {
        match self.texts.get(place) {
            Some(text) => text.as_slice(),
            None => &[],
        }
    }
}
