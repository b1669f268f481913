//! From a line to the command that its words spell.

ghost use Rattle.std.specs.Prelude.{◌≡◌, ◌∷◌, List, IsTrue, ◌↔◌, MatchOption, None};
ghost use Rattle.pc_script.specs.Grammar.{Field, AreInRange, Spells, words_of};
ghost use Rattle.pc_script.specs.Inner.Readings.{IsReading, command_at, kinds_of};
ghost use Rattle.pc_script.specs.Inner.Verbs.{SpellsNone, kinds, name_of};
ghost use Rattle.pc_script.specs.Inner.Taking.{words_left};
ghost use Rattle.pc_script.specs.declared.grammar.Verb.{Verb};

use crate::command::{Command, Read};
use crate::fields::{
    Arguments, Count, Failure, Index, Level, Mask, Processor, Processors, Queue, State, Target,
    Thread,
};
use crate::places::{Commands, Sort};
use crate::policy::{policy_trouble, read_policy};
use crate::trouble::{
    Trouble, Wanted, field_and_word, five_fields, last_field, three_fields, two_fields,
};
use crate::version::Version;
use crate::words::Words;
use pc_calls::{AgentCall, EnvCall, Event, Limits};

/// The first word of a command.
#[derive(Clone, Copy, Debug, PartialEq, Eq)]
pub enum Verb {
    Enclave,
    Create,
    Wake,
    Block,
    Yield,
    Preempt,
    Die,
    Affinity,
    Priority,
    Tick,
    Associate,
    Commit,
    Sleep,
    Rouse,
    Config,
    Publish,
    Consume,
    Deliver,
    Answer,
    Pick,
    Steal,
    Crash,
    Status,
    Asleep,
    Show,
    Same,
    Complete,
    Policy,
    Mend,
}

/// The verb that this word is.
// Inlined: what is done for a verb then follows where its word was found, and the verb is not handed on.
#[inline(always)]
fn verb_of(word: &[u8]) -> Option<Verb>
    ensures { MatchOption result ((any : Verb) → word.now ≡ name_of any → ⊥) (λ verb. word.now ≡ name_of verb) }
{
    match word {
        b"enclave" => Some(Verb::Enclave),
        b"create" => Some(Verb::Create),
        b"wake" => Some(Verb::Wake),
        b"block" => Some(Verb::Block),
        b"yield" => Some(Verb::Yield),
        b"preempt" => Some(Verb::Preempt),
        b"die" => Some(Verb::Die),
        b"affinity" => Some(Verb::Affinity),
        b"priority" => Some(Verb::Priority),
        b"tick" => Some(Verb::Tick),
        b"associate" => Some(Verb::Associate),
        b"commit" => Some(Verb::Commit),
        b"sleep" => Some(Verb::Sleep),
        b"rouse" => Some(Verb::Rouse),
        b"config" => Some(Verb::Config),
        b"publish" => Some(Verb::Publish),
        b"consume" => Some(Verb::Consume),
        b"deliver" => Some(Verb::Deliver),
        b"answer" => Some(Verb::Answer),
        b"pick" => Some(Verb::Pick),
        b"steal" => Some(Verb::Steal),
        b"crash" => Some(Verb::Crash),
        b"status" => Some(Verb::Status),
        b"asleep" => Some(Verb::Asleep),
        b"show" => Some(Verb::Show),
        b"same" => Some(Verb::Same),
        b"complete" => Some(Verb::Complete),
        b"policy" => Some(Verb::Policy),
        b"mend" => Some(Verb::Mend),
        _ => None,
    }
}

/// Fields as the nested pairs that [`Arguments`] reads. A failure stands last.
macro_rules! pairs {
    (Failure($last:pat)) => { Failure($last) };
    ($first:pat) => { ($first, ()) };
    ($first:pat, $($others:tt)+) => { ($first, pairs!($($others)+)) };
}

/// Hands the table of commands to a macro, behind what is given: of each verb the fields that stand behind its word,
/// and how the command that they make is put into a place. A policy is read by its whole text, so it has no row.
macro_rules! table {
    ($make:ident, $($given:expr),+) => {
        $make!($($given),+;
            Enclave(Processors(cpus), Count(threads), Count(numbers), Count(room), Count(posts)) =>
                put_other(Command::Enclave(Limits { cpus, threads, numbers, room, posts })),
            Create(Queue(queue), Mask(mask), State(ready)) =>
                put_event(Event::Env(EnvCall::Create { queue, mask, ready })),
            Wake(Thread(thread)) => put_event(Event::Env(EnvCall::Wake { thread })),
            Block(Processor(cpu), Count(ran)) => put_event(Event::Env(EnvCall::Block { cpu, ran })),
            Yield(Processor(cpu), Count(ran)) => put_event(Event::Env(EnvCall::YieldNow { cpu, ran })),
            Preempt(Processor(cpu), Count(ran)) => put_event(Event::Env(EnvCall::Preempt { cpu, ran })),
            Die(Processor(cpu), Count(ran)) => put_event(Event::Env(EnvCall::Die { cpu, ran })),
            Affinity(Thread(thread), Mask(mask)) => put_event(Event::Env(EnvCall::SetAffinity { thread, mask })),
            Priority(Thread(thread), Level(level)) =>
                put_event(Event::Env(EnvCall::SetPriority { thread, level })),
            Tick(Processor(cpu)) => put_event(Event::Env(EnvCall::Tick { cpu })),
            Associate(Thread(thread), Queue(queue), Count(number)) =>
                put_event(Event::Agent(AgentCall::Associate { thread, queue, number })),
            Commit(Processor(cpu), Thread(thread), Count(aseq)) =>
                put_event(Event::Agent(AgentCall::Commit { cpu, thread, aseq })),
            Sleep(Processor(cpu), Count(aseq)) => put_event(Event::Agent(AgentCall::Sleep { cpu, aseq })),
            Rouse(Processor(cpu)) => put_event(Event::Agent(AgentCall::Rouse { cpu })),
            Config(Queue(queue), Target(target)) => put_event(Event::Agent(AgentCall::Config { queue, target })),
            Publish(Processor(cpu), Failure(fails)) => put_event(Event::Publish { cpu, fails }),
            Consume(Processor(cpu)) => put_event(Event::Consume { cpu }),
            Deliver(Processor(cpu), Index(delta)) => put_event(Event::Deliver { cpu, delta }),
            Answer(Processor(cpu), Processor(asker)) => put_event(Event::Answer { cpu, asker }),
            Pick(Processor(cpu), Count(aseq)) => put_event(Event::Pick { cpu, aseq }),
            Steal(Processor(cpu)) => put_event(Event::Steal { cpu }),
            Crash(Processor(cpu)) => put_event(Event::Crash { cpu }),
            Status(Thread(thread)) => put_status(thread),
            Asleep(Processor(cpu)) => put_read(Read::Asleep { cpu }),
            Show(Processor(cpu)) => put_read(Read::Show { cpu }),
            Same(Processor(cpu), Processor(other)) => put_read(Read::Same { cpu, other }),
            Complete(Processor(cpu), Thread(thread)) => put_read(Read::Complete { cpu, thread }),
            Mend(Processor(cpu)) => put_other(Command::Mend { cpu })
        )
    };
}

/// Puts the command of a verb, whose fields are the words that are left, into its place, and answers which that is.
macro_rules! read {
    ($verb:expr, $words:expr, $commands:expr; $($name:ident($($fields:tt)+) => $put:ident($($made:tt)+)),+) => {
        match $verb {
            $(Verb::$name => match Arguments::read($words) {
                Some(pairs!($($fields)+)) => Some($commands.$put($($made)+)),
                None => None,
            })+
            Verb::Policy => match read_policy($words, &mut $commands.other) {
                true => Some(Sort::Other),
                false => None,
            },
        }
    };
}

/// The first trouble with the words that are left behind a verb's, which should be these fields. A failure stands last.
/// Each is one call: what matches in each other cost a proof grows faster than they do.
macro_rules! first_trouble {
    ($verb:expr, $words:expr; $first:ident($value:pat), Failure($last:pat)) => {
        field_and_word::<$first>($verb, $words, b"fail", Wanted::Failure)
    };
    ($verb:expr, $words:expr; $last:ident($value:pat)) => {
        last_field::<$last>($verb, $words, 2)
    };
    ($verb:expr, $words:expr; $first:ident($value:pat), $last:ident($other:pat)) => {
        two_fields::<$first, $last>($verb, $words, 2)
    };
    ($verb:expr, $words:expr; $first:ident($value:pat), $second:ident($other:pat), $last:ident($another:pat)) => {
        three_fields::<$first, $second, $last>($verb, $words, 2)
    };
    ($verb:expr, $words:expr; $first:ident($value:pat), $($others:ident($values:pat)),+) => {
        five_fields::<$first, $($others),+>($verb, $words)
    };
}

/// The first trouble with the words that are left behind a verb's.
macro_rules! troubles {
    ($verb:expr, $words:expr; $($name:ident($($fields:tt)+) => $put:ident($($made:tt)+)),+) => {
        match $verb {
            $(Verb::$name => first_trouble!($verb, $words; $($fields)+),)+
            Verb::Policy => policy_trouble($words),
        }
    };
}

/// Puts the command of this verb whose fields are the words that are left into its place, and answers which that is;
/// none, where there is no such command.
///
/// The places are the caller's, and stay where they are: a command that were handed on as a value would be put together
/// from the fields of all commands at once, wherever the kinds of commands meet.
#[inline(always)]
fn read_as(verb: Verb, words: &mut Words<'_>, commands: &mut Commands) -> Option<Sort>
    ensures { MatchOption result (SpellsNone verb (words_left words.old))
        (λ sort. Spells (name_of verb ∷ words_left words.old) (command_at sort commands.new)) }
{
    table!(read, verb, words, commands)
}

/// Puts the command that a line with this first word spells, and with the words that are left after it, into its place,
/// and answers which that is; none, where there is no such command.
#[inline(always)]
pub(crate) fn read_command(
    name: &[u8],
    words: &mut Words<'_>,
    commands: &mut Commands,
) -> Option<Sort>
    ensures { MatchOption result (IsReading (name.now ∷ words_left words.old) None)
        (λ sort. Spells (name.now ∷ words_left words.old) (command_at sort commands.new)) }
{
    match verb_of(name) {
        Some(verb) => read_as(verb, words, commands),
        None => None,
    }
}

/// The verb that this word is in a script of the version.
fn verb_in(version: Version, word: &[u8]) -> Option<Verb> {
    match (verb_of(word), version) {
        (Some(Verb::Policy | Verb::Mend), Version::One | Version::Two) => None,
        (verb, _) => verb,
    }
}

/// What is wrong with a line of a script of the version whose first word is this one, and with the words that are left
/// after it; nothing, where they ask for a command.
pub(crate) fn trouble_of<'a>(
    version: Version,
    name: &'a [u8],
    words: &mut Words<'a>,
) -> Option<Trouble<'a>> {
    match verb_in(version, name) {
        Some(verb) => table!(troubles, verb, words),
        None => Some(Trouble::NoCommand { word: name }),
    }
}
