//! What a list of calls comes to.

ghost use Rattle.std.specs.Prelude.{◌≡◌, ◌<◌, ◌≤◌, ◌*◌, ◌-◌, ◌^◌};
ghost use Rattle.pc_threads.specs.Totals.{committed_by, consumed_by, in_all, ran_by, taken_over_by, told_by};

use crate::report::weights::weights_of;
use pc_calls::{AgentCall, Answer, Call};

/// What calls come to. The sums of what each call tells, its ticks and its items, are wider.
#[derive(Clone, Copy, Debug, PartialEq, Eq)]
pub(crate) struct Counted {
    /// Messages of threads.
    pub(crate) messages: u64,
    /// Threads committed.
    pub(crate) commits: u64,
    /// Threads given another queue.
    pub(crate) taken_over: u64,
    /// Ticks that the messages tell.
    pub(crate) ran: u128,
    /// Items consumed.
    pub(crate) consumed: u128,
}

/// What no call comes to.
const NOTHING: Counted = Counted {
    messages: 0,
    commits: 0,
    taken_over: 0,
    ran: 0,
    consumed: 0,
};

/// What one call comes to.
fn count_one(call: &Call) -> Counted
    ensures messages { result.messages ≡ told_by call.now }
    ensures commits { result.commits ≡ committed_by call.now }
    ensures taken_over { result.taken_over ≡ taken_over_by call.now }
    ensures ran { result.ran ≡ ran_by call.now }
    ensures consumed { result.consumed ≡ consumed_by call.now }
    ensures one_told { result.messages < 2 }
    ensures one_committed { result.commits < 2 }
    ensures one_taken { result.taken_over < 2 }
    ensures few { result.consumed < 2 ^ 32 }
    ensures backed { result.ran ≤ result.messages * (2 ^ 32 - 1) }
{
    match call {
        Call::Env(call) => {
            let weights = weights_of(call);
            Counted {
                messages: weights.told,
                ran: weights.ran as u128,
                ..NOTHING
            }
        }
        Call::Agent(AgentCall::Commit { .. }) => Counted {
            commits: 1,
            ..NOTHING
        },
        Call::Agent(AgentCall::Associate { .. }) => Counted {
            taken_over: 1,
            ..NOTHING
        },
        Call::Agent(AgentCall::Sleep { .. } | AgentCall::Rouse { .. } | AgentCall::Config { .. }) =>
            NOTHING,
        Call::Consume { count, .. } => Counted {
            consumed: *count as u128,
            ..NOTHING
        },
    }
}

/// What the calls come to.
pub(crate) fn count(calls: &[(Call, Answer)]) -> Counted
    ensures messages { result.messages ≡ in_all told_by calls.now }
    ensures commits { result.commits ≡ in_all committed_by calls.now }
    ensures taken_over { result.taken_over ≡ in_all taken_over_by calls.now }
    ensures ran { result.ran ≡ in_all ran_by calls.now }
    ensures consumed { result.consumed ≡ in_all consumed_by calls.now }
    ensures backed { result.ran ≤ result.messages * (2 ^ 32 - 1) }
{
    let mut all = NOTHING;
    for (call, _) in calls {
        let one = count_one(call);
        all = Counted {
            messages: all.messages + one.messages,
            commits: all.commits + one.commits,
            taken_over: all.taken_over + one.taken_over,
            ran: all.ran + one.ran,
            consumed: all.consumed + one.consumed,
        };
    }
    all
}
