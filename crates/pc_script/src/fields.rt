//! The fields of commands: a type for each, whose values are taken from the words of a line.

ghost use Rattle.std.specs.Prelude.{◌≡◌, ◌∷◌, [], ℕ, List, Bool, true, refl};
ghost use Rattle.pc_script.specs.Grammar.{Field};
ghost use Rattle.pc_script.specs.Grammar as grammar;
ghost use Rattle.pc_script.specs.Inner.Readings.{Kind, IsFieldReading, IsFieldsReading, is_word};
ghost use Rattle.pc_script.specs.Inner.Readings as reading;
ghost use Rattle.pc_script.specs.Inner.Taking.{words_left};

use crate::digits::byte;
use crate::trouble::Wanted;
use crate::words::Words;
use pc_messages::{Cpu, Phase, Tid};

/// A field that is one word.
pub(crate) trait Argument: Copy {
    ghost kind: { Kind };

    ghost field: { Self → Field };

    /// What such a field is.
    fn wanted() -> Wanted
    where
        Self: Sized;

    /// Takes the next word, where it is such a field.
    fn read(words: &mut Words<'_>) -> Option<Self>
    where
        Self: Sized,
        ensures { IsFieldReading kind field (words_left words.old) (words_left words.new) result };

    ghost is_one_word: { is_word kind ≡ true };
}

/// Fields, one after another.
pub(crate) trait Arguments: Copy {
    ghost kinds: { List Kind };

    ghost fields: { Self → List Field };

    /// The fields that all words are that are left.
    fn read(words: &mut Words<'_>) -> Option<Self>
    where
        Self: Sized,
        ensures { IsFieldsReading kinds fields (words_left words.old) result };
}

/// How many CPUs there are.
#[derive(Clone, Copy)]
pub(crate) struct Processors(pub(crate) u8);

/// A CPU.
#[derive(Clone, Copy)]
pub(crate) struct Processor(pub(crate) Cpu);

/// The queue of a CPU.
#[derive(Clone, Copy)]
pub(crate) struct Queue(pub(crate) Cpu);

/// The number of a level.
#[derive(Clone, Copy)]
pub(crate) struct Level(pub(crate) u8);

/// A count.
#[derive(Clone, Copy)]
pub(crate) struct Count(pub(crate) u32);

/// The bits of a mask.
#[derive(Clone, Copy)]
pub(crate) struct Mask(pub(crate) u64);

/// The index of a delta.
#[derive(Clone, Copy)]
pub(crate) struct Index(pub(crate) u64);

/// A thread.
#[derive(Clone, Copy)]
pub(crate) struct Thread(pub(crate) Tid);

/// How a new thread starts: ready, or blocked.
#[derive(Clone, Copy)]
pub(crate) struct State(pub(crate) bool);

/// Whom a queue wakes: the agent of a CPU, or none.
#[derive(Clone, Copy)]
pub(crate) struct Target(pub(crate) Option<Cpu>);

/// Whether a send fails: the word `fail`, or none.
#[derive(Clone, Copy)]
pub(crate) struct Failure(pub(crate) bool);

impl Argument for Processors {
    ghost kind = { reading.processors };

    ghost field = { λ read. grammar.Processors read.0 };

    ghost is_one_word = { refl };

    fn wanted() -> Wanted {
        Wanted::Cpus
    }

    fn read(words: &mut Words<'_>) -> Option<Self> {
        Some(Processors(words.byte()?))
    }
}

impl Argument for Processor {
    ghost kind = { reading.processor };

    ghost field = { λ read. grammar.Processor read.0 };

    ghost is_one_word = { refl };

    fn wanted() -> Wanted {
        Wanted::Cpu
    }

    fn read(words: &mut Words<'_>) -> Option<Self> {
        Some(Processor(Cpu(words.byte()?)))
    }
}

impl Argument for Queue {
    ghost kind = { reading.queue };

    ghost field = { λ read. grammar.Queue read.0 };

    ghost is_one_word = { refl };

    fn wanted() -> Wanted {
        Wanted::Queue
    }

    fn read(words: &mut Words<'_>) -> Option<Self> {
        Some(Queue(Cpu(words.byte()?)))
    }
}

impl Argument for Level {
    ghost kind = { reading.level };

    ghost field = { λ read. grammar.Level read.0 };

    ghost is_one_word = { refl };

    fn wanted() -> Wanted {
        Wanted::Level
    }

    fn read(words: &mut Words<'_>) -> Option<Self> {
        Some(Level(words.byte()?))
    }
}

impl Argument for Count {
    ghost kind = { reading.count };

    ghost field = { λ read. grammar.Count read.0 };

    ghost is_one_word = { refl };

    fn wanted() -> Wanted {
        Wanted::Count
    }

    fn read(words: &mut Words<'_>) -> Option<Self> {
        Some(Count(words.count()?))
    }
}

impl Argument for Mask {
    ghost kind = { reading.mask };

    ghost field = { λ read. grammar.Mask read.0 };

    ghost is_one_word = { refl };

    fn wanted() -> Wanted {
        Wanted::Mask
    }

    fn read(words: &mut Words<'_>) -> Option<Self> {
        Some(Mask(words.number()?))
    }
}

impl Argument for Index {
    ghost kind = { reading.index };

    ghost field = { λ read. grammar.Index read.0 };

    ghost is_one_word = { refl };

    fn wanted() -> Wanted {
        Wanted::Index
    }

    fn read(words: &mut Words<'_>) -> Option<Self> {
        Some(Index(words.number()?))
    }
}

impl Argument for Thread {
    ghost kind = { reading.thread };

    ghost field = { λ read. grammar.Thread read.0 };

    ghost is_one_word = { refl };

    fn wanted() -> Wanted {
        Wanted::Thread
    }

    fn read(words: &mut Words<'_>) -> Option<Self> {
        Some(Thread(Tid(words.thread()?)))
    }
}

impl Argument for State {
    ghost kind = { reading.state };

    ghost field = { λ read. grammar.State read.0 };

    ghost is_one_word = { refl };

    fn wanted() -> Wanted {
        Wanted::State
    }

    fn read(words: &mut Words<'_>) -> Option<Self> {
        let word = words.next()?;
        if word == Phase::Ready.word().as_bytes() {
            return Some(State(true));
        }
        if word == Phase::Blocked.word().as_bytes() {
            return Some(State(false));
        }
        None
    }
}

impl Argument for Target {
    ghost kind = { reading.target };

    ghost field = { λ read. grammar.Target read.0 };

    ghost is_one_word = { refl };

    fn wanted() -> Wanted {
        Wanted::Target
    }

    fn read(words: &mut Words<'_>) -> Option<Self> {
        let word = words.next()?;
        if word == b"-".as_slice() {
            return Some(Target(None));
        }
        Some(Target(Some(Cpu(byte(word)?))))
    }
}

impl Arguments for () {
    ghost kinds = { [] };

    ghost fields = { λ read. [] };

    fn read(words: &mut Words<'_>) -> Option<Self> {
        if words.is_over() { Some(()) } else { None }
    }
}

impl Arguments for Failure {
    ghost kinds = { reading.failure ∷ [] };

    ghost fields = { λ read. grammar.Failure read.0 ∷ [] };

    fn read(words: &mut Words<'_>) -> Option<Self> {
        let Some(word) = words.next() else {
            return Some(Failure(false));
        };
        if word != b"fail".as_slice() {
            return None;
        }
        if words.is_over() {
            Some(Failure(true))
        } else {
            None
        }
    }
}

impl<First: Argument, Others: Arguments> Arguments for (First, Others) {
    ghost kinds = { First.kind ∷ Others.kinds };

    ghost fields = { λ read. First.field read.0 ∷ Others.fields read.1 };

    #[inline(always)]
    fn read(words: &mut Words<'_>) -> Option<Self> {
        match First::read(words) {
            Some(first) => match Others::read(words) {
                Some(others) => Some((first, others)),
                None => None,
            },
            None => None,
        }
    }
}
