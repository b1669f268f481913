//! What a call comes to.

ghost use Rattle.std.specs.Prelude.{◌≡◌, ◌<◌, ◌≤◌, ◌-◌, ◌*◌, ◌^◌};
ghost use Rattle.pc_calls.specs.declared.call.Call.TheVariants.{Env};
ghost use Rattle.pc_threads.specs.Totals.{created_by, died_by, left_by, ran_by, told_by};

use pc_calls::EnvCall;

/// What a call of the environment posts.
#[derive(Clone, Copy, Debug, PartialEq, Eq)]
pub(crate) struct Weights {
    /// Threads created.
    pub(crate) created: u64,
    /// Messages of threads.
    pub(crate) told: u64,
    /// Ticks that they tell.
    pub(crate) ran: u64,
    /// How often a thread leaves its CPU.
    pub(crate) left: u64,
    /// Threads that die.
    pub(crate) died: u64,
}

/// A message of a thread, and nothing else.
const TOLD: Weights = Weights {
    created: 0,
    told: 1,
    ran: 0,
    left: 0,
    died: 0,
};

/// What a call of the environment posts.
pub(crate) fn weights_of(call: &EnvCall) -> Weights
    ensures created { result.created ≡ created_by (Env call.now) }
    ensures told { result.told ≡ told_by (Env call.now) }
    ensures ran { result.ran ≡ ran_by (Env call.now) }
    ensures left { result.left ≡ left_by (Env call.now) }
    ensures died { result.died ≡ died_by (Env call.now) }
    ensures backed { result.ran ≤ result.told * (2 ^ 32 - 1) }
    ensures one { result.told < 2 }
{
    match call {
        EnvCall::Create { .. } => Weights { created: 1, ..TOLD },
        EnvCall::Block { ran, .. } | EnvCall::YieldNow { ran, .. } | EnvCall::Preempt { ran, .. } =>
            Weights {
                ran: *ran as u64,
                left: 1,
                ..TOLD
            },
        EnvCall::Die { ran, .. } => Weights {
            ran: *ran as u64,
            left: 1,
            died: 1,
            ..TOLD
        },
        EnvCall::Wake { .. } | EnvCall::SetAffinity { .. } | EnvCall::SetPriority { .. } => TOLD,
        EnvCall::Tick { .. } => Weights { told: 0, ..TOLD },
    }
}
