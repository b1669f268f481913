//! What of a run is counted.

ghost use Rattle.std.specs.Prelude.{◌≡◌, ◌+◌, ◌<◌, IfOk, OnOk};
ghost use Rattle.pc_lab.specs.Counting.{Counts, counted_as, counted_in, done_as, place_of, refused_as};
ghost use Rattle.pc_lab.specs.Counting.{spent_of, stale_of};
ghost use Rattle.pc_lab.specs.declared.counted.Counted.{Counted};

use crate::fault::LabFault;
use pc_calls::{AgentCall, EnvCall, Event, Refusal, Reply};
use std::marker::Model;

/// What an event with its reply may count as (own). Refusals are those of [`Refusal`].
#[derive(Clone, Copy, Debug, PartialEq, Eq)]
pub enum Counted {
    /// A thread was put on a CPU.
    Commit,
    /// A thread was taken over.
    Steal,
    /// A message was posted.
    Message,
    /// A delta was sent.
    Delta,
    /// A delta was taken in.
    Deliver,
    /// A preempt was refused as `NumbersSpent`.
    PreemptSpent,
    /// A wake was.
    WakeSpent,
    /// A block was.
    BlockSpent,
    /// A yield was.
    YieldSpent,
    /// A die was.
    DieSpent,
    /// A pick was refused as `Stale`.
    PickStale,
    /// A pick was refused as `NothingReady`.
    PickNothingReady,
    /// A steal was refused as `NothingToSteal`.
    StealNothing,
    /// A steal was refused as `Dead`.
    StealDead,
    /// A steal was refused as `Stale`.
    StealStale,
    /// A sleep was refused as `Stale`.
    SleepStale,
}

/// How many kinds there are.
const KINDS: usize = 16;

/// Where the count of a kind stands.
const fn place_of(what: Counted) -> usize
    ensures same { result ≡ place_of what }
    ensures few { result < 16 }
{
    match what {
        Counted::Commit => 0,
        Counted::Steal => 1,
        Counted::Message => 2,
        Counted::Delta => 3,
        Counted::Deliver => 4,
        Counted::PreemptSpent => 5,
        Counted::WakeSpent => 6,
        Counted::BlockSpent => 7,
        Counted::YieldSpent => 8,
        Counted::DieSpent => 9,
        Counted::PickStale => 10,
        Counted::PickNothingReady => 11,
        Counted::StealNothing => 12,
        Counted::StealDead => 13,
        Counted::StealStale => 14,
        Counted::SleepStale => 15,
    }
}

/// What a call counts as whose thread has used all its numbers.
const fn spent_of(event: &Event) -> Option<Counted>
    ensures { result ≡ spent_of event.now }
{
    match *event {
        Event::Env(EnvCall::Preempt { .. }) => Some(Counted::PreemptSpent),
        Event::Env(EnvCall::Wake { .. }) => Some(Counted::WakeSpent),
        Event::Env(EnvCall::Block { .. }) => Some(Counted::BlockSpent),
        Event::Env(EnvCall::YieldNow { .. }) => Some(Counted::YieldSpent),
        Event::Env(EnvCall::Die { .. }) => Some(Counted::DieSpent),
        _ => None,
    }
}

/// What an event counts as that comes too late.
const fn stale_of(event: &Event) -> Option<Counted>
    ensures { result ≡ stale_of event.now }
{
    match *event {
        Event::Pick { .. } => Some(Counted::PickStale),
        Event::Steal { .. } => Some(Counted::StealStale),
        Event::Agent(AgentCall::Sleep { .. }) => Some(Counted::SleepStale),
        _ => None,
    }
}

/// What a refused event counts as.
const fn refused_as(event: &Event, refusal: Refusal) -> Option<Counted>
    ensures { result ≡ refused_as event.now refusal }
{
    match refusal {
        Refusal::NumbersSpent => spent_of(event),
        Refusal::Stale(_) => stale_of(event),
        Refusal::NothingReady => Some(Counted::PickNothingReady),
        Refusal::NothingToSteal => Some(Counted::StealNothing),
        Refusal::Dead => Some(Counted::StealDead),
        _ => None,
    }
}

/// What an event counts as that is done with nothing more to say.
const fn done_as(event: &Event) -> Option<Counted>
    ensures { result ≡ done_as event.now }
{
    match *event {
        Event::Deliver { .. } => Some(Counted::Deliver),
        _ => None,
    }
}

/// What an event with its reply counts as.
const fn counted_as(event: &Event, reply: &Reply) -> Option<Counted>
    ensures { result ≡ counted_as event.now reply.now }
{
    match *reply {
        Reply::Done => done_as(event),
        Reply::Posted(_) => Some(Counted::Message),
        Reply::Associated { .. } => Some(Counted::Steal),
        Reply::Committed { .. } => Some(Counted::Commit),
        Reply::Published { .. } => Some(Counted::Delta),
        Reply::Consumed { .. } => None,
        Reply::Answered { .. } => None,
        Reply::Refused(refusal) => refused_as(event, refusal),
    }
}

/// How often each kind was counted.
#[derive(Debug, Drop)]
pub struct Tally {
    counts: [u64; KINDS],
}

impl Model for Tally {
    ghost use Rattle.std.specs.Prelude.{ℕ, List, ◌≡◌, length};

    ghost Value = { List ℕ };

    ghost view = { λ tally. tally.counts };

    ghost invariant = { λ tally. length tally.counts ≡ 16 };
}

/// One more.
pub(crate) fn one_more(count: u64) -> Result<u64, LabFault>
    ensures { IfOk result (λ more. more ≡ count + 1) }
{
    match count.checked_add(1) {
        Some(more) => Ok(more),
        None => Err(LabFault::TooLong),
    }
}

impl Tally {
    /// Nothing was counted.
    pub(crate) fn new() -> Tally
        ensures { (what : Counted) → counted_in result what ≡ 0 }
    {
        Tally { counts: [0; KINDS] }
    }

    /// How often this was counted.
    pub fn of(&self, what: Counted) -> u64
        ensures { result ≡ counted_in self.now what }
    {
        self.counts[place_of(what)]
    }

    /// Counts an event with its reply.
    pub(crate) fn add(&mut self, event: &Event, reply: &Reply) -> Result<(), LabFault>
        ensures ok { OnOk result (Counts (counted_as event.now reply.now) self.old self.new) }
    {
        let Some(what) = counted_as(event, reply) else {
            return Ok(());
        };
        let place = place_of(what);
        self.counts[place] = one_more(self.counts[place])?;
        Ok(())
    }
}
