//! The first messages of a thread, folded into the state that they report.

ghost use Rattle.std.specs.Prelude.{◌+◌, ◌≡◌, ◌≤◌, ◌<◌, ◌↔◌, List, [], ◌∷◌, ◌++◌, length, Some, None, IsTrue};
ghost use Rattle.pc_messages.specs.declared.message.TheConstants.{GREATEST_NUMBER};
ghost use Rattle.pc_messages.specs.declared.kind.Kind.{Kind};
ghost use Rattle.pc_messages.specs.Run.{is_created};
ghost use Rattle.pc_messages.specs.State.{state_of};
ghost use Rattle.pc_thread_view.specs.Told.{IsStateOfSome};

use pc_messages::{Kind, Level, Mask, Phase, Reported};
use std::marker::Model;

/// How many messages were folded, and the state that they report. Where it is none, the other fields mean nothing.
///
/// Each thread of each view has one, so it is kept small: an option would put a mark of eight bytes in front of the
/// state, whose short fields fit behind the count.
#[derive(Drop)]
pub struct Prefix {
    mask: Mask,
    ran: u64,
    upto: u32,
    phase: Phase,
    level: Level,
}

impl Model for Prefix {
    ghost use Rattle.pc_thread_view.specs.Inner.Prefix.{Folded, state_at};

    ghost Value = { Folded };

    ghost view = { λ p.
        record {
          upto = p.upto;
          state = state_at p.upto (record { mask = p.mask; ran = p.ran; phase = p.phase; level = p.level });
        } };
}

/// The state after the next message.
fn fold(upto: u32, state: Option<Reported>, kind: Kind) -> Option<Reported>
    requires state { IsStateOfSome upto state }
    requires fits { upto < GREATEST_NUMBER }
    requires created { IsTrue (is_created kind) ↔ (upto + 1 ≡ 1) }
    ensures some { IsStateOfSome (upto + 1) result }
    ensures folded { (kinds : List Kind) → length kinds ≡ upto → state ≡ state_of kinds
        → result ≡ state_of (kinds ++ kind ∷ []) }
{
    match state {
        None => Reported::first(kind),
        Some(reported) => Some(reported.apply(kind)),
    }
}

impl Prefix {
    /// Of no message.
    pub fn none() -> Self
        ensures { result ≡ record { upto = 0; state = None } }
    {
        Prefix {
            mask: Mask::default(),
            ran: 0,
            upto: 0,
            phase: Phase::Blocked,
            level: Level::LOWEST,
        }
    }

    /// Of a thread's first message.
    pub fn first(kind: Kind) -> Self
        requires { IsTrue (is_created kind) }
        ensures { result ≡ record { upto = 1; state = state_of (kind ∷ []) } }
    {
        Prefix::of(1, Reported::first(kind).unwrap())
    }

    /// Of so many messages, which report this state.
    pub fn of(upto: u32, reported: Reported) -> Self
        requires { 1 ≤ upto }
        ensures { result ≡ record { upto = upto; state = Some reported } }
    {
        Prefix {
            mask: reported.mask,
            ran: reported.ran,
            upto,
            phase: reported.phase,
            level: reported.level,
        }
    }

    /// The same once more.
    pub fn copy(&self) -> Self
        ensures { result ≡ self.now }
    {
        Prefix {
            mask: self.mask,
            ran: self.ran,
            upto: self.upto,
            phase: self.phase,
            level: self.level,
        }
    }

    /// How many messages were folded, which is the number of the last.
    pub fn upto(&self) -> u32
        ensures { result ≡ self.now.upto }
    {
        self.upto
    }

    /// The state that they report.
    pub fn state(&self) -> Option<Reported>
        ensures { result ≡ self.now.state }
    {
        if self.upto == 0 {
            return None;
        }
        Some(Reported {
            mask: self.mask,
            ran: self.ran,
            phase: self.phase,
            level: self.level,
        })
    }

    /// Folds the next message in.
    pub fn take(&mut self, kind: Kind)
        requires state { IsStateOfSome self.old.upto self.old.state }
        requires fits { self.old.upto < GREATEST_NUMBER }
        requires created { IsTrue (is_created kind) ↔ (self.old.upto + 1 ≡ 1) }
        ensures upto { self.new.upto ≡ self.old.upto + 1 }
        ensures some { IsStateOfSome (self.old.upto + 1) self.new.state }
        ensures folded { (kinds : List Kind) → length kinds ≡ self.old.upto → self.old.state ≡ state_of kinds
            → self.new.state ≡ state_of (kinds ++ kind ∷ []) }
    {
        let upto = self.upto();
        let reported = fold(upto, self.state(), kind).unwrap();
        *self = Prefix::of(upto + 1, reported);
    }
}
