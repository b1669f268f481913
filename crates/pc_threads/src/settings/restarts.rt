//! Which agents restart.

ghost use Rattle.std.specs.Prelude.{◌≡◌, not, position};
ghost use Rattle.pc_threads.specs.Settings.{is_restart};

use pc_load::is_cpu;

/// The most restarts.
pub const MOST_RESTARTS: usize = 64;

/// The last turn before which an agent can restart.
pub const MOST_TURN: u32 = 1_000_000;

/// An agent that loses all that it knows (own).
#[derive(Clone, Copy, Debug, PartialEq, Eq)]
pub struct Restart {
    /// The agent's CPU.
    pub cpu: i64,
    /// Before which of its turns it restarts; the first is 1.
    pub turn: i64,
}

fn is_restart(cpus: u8, restart: &Restart) -> bool
    ensures { result ≡ is_restart cpus restart.now }
{
    is_cpu(cpus, restart.cpu) && cpus >= 2 && 1 <= restart.turn && restart.turn <= MOST_TURN as i64
}

/// The place of the first restart that cannot be asked for.
pub(crate) fn bad_restart(cpus: u8, restarts: &[Restart]) -> Option<usize>
    ensures { result ≡ position (λ restart. not (is_restart cpus restart)) restarts.now }
{
    restarts
        .iter()
        .position(|restart| !is_restart(cpus, restart))
}
