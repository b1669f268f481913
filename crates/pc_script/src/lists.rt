//! The lists inside a response.

ghost use Rattle.std.specs.Prelude.{◌≡◌, [], ◌∷◌, ◌++◌, OnOk, OnErr};

use pc_messages::{Reported, Tid};
use std::alloc::{AllocError, Global};
use std::marker::Model;

/// Message numbers, in the order in which they are shown.
// Most threads have none: the list stands in a place of its own, so that the rows of all threads are short.
#[derive(Debug, Drop)]
pub struct EarlyNumbers {
    alloc: Global,
    numbers: Option<Box<Vec<u32>>>,
}

impl Model for EarlyNumbers {
    ghost use Rattle.std.specs.Prelude.{List, ℕ};
    ghost use Rattle.pc_script.specs.Inner.Lists.{items_in};

    ghost Value = { List ℕ };

    ghost view = { λ list. items_in list.numbers };
}

impl EarlyNumbers {
    /// No numbers.
    pub fn new(alloc: Global) -> Self
        ensures { result ≡ [] }
    {
        EarlyNumbers {
            alloc,
            numbers: None,
        }
    }

    /// Adds a number at the end.
    pub fn push(&mut self, number: u32) -> Result<(), AllocError>
        ensures ok { OnOk result (self.new ≡ self.old ++ number ∷ []) }
        ensures err { OnErr result (self.new ≡ self.old) }
    {
        match &mut self.numbers {
            Some(numbers) => numbers.push(number)?,
            None => {
                let mut numbers = Vec::new(self.alloc);
                numbers.push(number)?;
                self.numbers = Some(Box::new(self.alloc, numbers)?);
            }
        }
        Ok(())
    }

    /// The numbers, in order.
    pub fn as_slice(&self) -> &[u32]
        ensures { result.now ≡ self.now }
    {
        match &self.numbers {
            Some(numbers) => numbers.as_slice(),
            None => &[],
        }
    }
}

/// What a view knows of a thread.
#[derive(Debug, Drop)]
pub struct ShownThread {
    pub thread: Tid,
    /// The messages up to this number are known without a gap; 0 where the first is not known.
    pub upto: u32,
    /// What those messages report; none where there are none.
    pub reported: Option<Reported>,
    /// The numbers of the other known messages.
    pub early: EarlyNumbers,
}

/// The threads of a view, in the order in which they are shown.
#[derive(Debug, Drop)]
pub struct ShownThreads {
    threads: Vec<ShownThread>,
}

impl Model for ShownThreads {
    ghost use Rattle.std.specs.Prelude.{List};
    ghost use Rattle.pc_script.specs.declared.lists.ShownThread.{ShownThread};

    ghost Value = { List ShownThread };

    ghost view = { λ list. list.threads.items };
}

impl ShownThreads {
    /// No threads.
    pub fn new(alloc: Global) -> Self
        ensures { result ≡ [] }
    {
        ShownThreads {
            threads: Vec::new(alloc),
        }
    }

    /// Adds a thread at the end.
    pub fn push(&mut self, thread: ShownThread) -> Result<(), AllocError>
        ensures ok { OnOk result (self.new ≡ self.old ++ thread ∷ []) }
        ensures err { OnErr result (self.new ≡ self.old) }
    {
        self.threads.push(thread)?;
        Ok(())
    }

    /// The threads, in order.
    pub fn as_slice(&self) -> &[ShownThread]
        ensures { result.now ≡ self.now }
    {
        self.threads.as_slice()
    }
}
