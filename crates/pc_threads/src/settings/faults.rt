//! Why a run cannot be asked for.

ghost use Rattle.std.specs.Prelude.{◌≡◌, ◌≤◌, map};
ghost use Rattle.pc_calls.specs.declared.limits.TheConstants.{MOST_CPUS};
ghost use Rattle.pc_threads.specs.Settings.{faults_on, first_fault, plan_of};

use crate::settings::plans::{ThreadPlan, bad_thread};
use crate::settings::restarts::{MOST_RESTARTS, Restart, bad_restart};
use pc_calls::MOST_THREADS;
use thiserror::Error;

/// Why a run cannot be asked for.
#[derive(Clone, Copy, Debug, PartialEq, Eq, Error)]
pub enum ConfigFault {
    /// There are not 1 to 64 CPUs.
    #[error("the count of CPUs is out of range")]
    BadCpus,
    /// There are more than 4,096 threads.
    #[error("there are too many threads")]
    TooManyThreads,
    /// The thread at this place, the first such one: its queue, its mask or its steps.
    #[error("the thread at place {0} cannot be asked for")]
    BadThread(usize),
    /// The restart at this place, the first such one: its CPU, its turn, its want of a peer, or that it is one too
    /// many.
    #[error("the restart at place {0} cannot be asked for")]
    BadRestart(usize),
}

/// The first fault of the threads and the restarts of a run on so many CPUs.
pub(crate) fn fault_on(
    cpus: u8,
    threads: &[ThreadPlan],
    restarts: &[Restart],
) -> Option<ConfigFault>
    requires some { 1 ≤ cpus }
    requires few { cpus ≤ MOST_CPUS }
    ensures { result ≡ first_fault (faults_on cpus (map plan_of threads.now) restarts.now) }
{
    if threads.len() > MOST_THREADS as usize {
        return Some(ConfigFault::TooManyThreads);
    }
    if let Some(place) = bad_thread(cpus, threads) {
        return Some(ConfigFault::BadThread(place));
    }
    let allowed = MOST_RESTARTS.min(restarts.len());
    if let Some(place) = bad_restart(cpus, &restarts[..allowed]) {
        return Some(ConfigFault::BadRestart(place));
    }
    if restarts.len() > MOST_RESTARTS {
        return Some(ConfigFault::BadRestart(MOST_RESTARTS));
    }
    None
}
