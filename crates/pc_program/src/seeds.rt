//! Runs by several seeds, one after another: from a settings text to the text of their tally.

ghost use Rattle.std.specs.Prelude.{◌≡◌, ◌≢◌, ◌⊎◌, ◌≤◌, [], IfErr, IfOk, None};
ghost use Rattle.std.specs.Io.Buffered.{writer_buffer, writer_contents};
ghost use Rattle.toml.specs.Parse.{parse_document};
ghost use Rattle.pc_program.specs.Runs.{IsTextsFault};
ghost use Rattle.pc_program.specs.Seeds.{AreNumbers, EndsAll, IsOfRuns, IsTallied, IsTold, MayEnd, told_of};
ghost use Rattle.pc_program.specs.Seeds.{unsettled_by};
ghost use Rattle.pc_program.specs.Tallies.{CountsAddUp};

use crate::ending::{Ending, Failure, Unsettled};
use crate::forms::flushed;
use crate::run_text::RunTextFault;
use crate::tally::{Tally, write_tally};
use pc_policy::AgentPolicy;
use pc_seeds::{Ended, run_by_seed};
use pc_settings::read_config;
use pc_threads::{Config, LoadReport, RunFault};
use std::alloc::Global;
use std::io::{BufWriter, Write};
use std::time::{Clock, Instant};

/// So many seeds: the first one, and each behind it greater by one (own).
#[derive(Clone, Copy, Debug, PartialEq, Eq)]
pub struct Seeds {
    pub first: u64,
    pub many: u32,
}

/// How runs by seeds ended, and the program by that (own).
#[derive(Clone, Copy, Debug, PartialEq, Eq)]
pub struct Tallied {
    pub ending: Ending,
    /// It counts none where the settings have a fault, or memory was wanting.
    pub tally: Tally,
}

/// Why a run did not settle that has this fault; none where the fault ends all.
fn unsettled_by(fault: &RunFault) -> Option<Unsettled>
    ensures { result ≡ unsettled_by fault.now }
{
    match Ending::from(*fault) {
        Ending::Run(why) => Some(why),
        _ => None,
    }
}

/// What came of a run: its report, or why it has none. A fault is one that ends all.
fn told(ran: Result<Ended, RunFault>) -> Result<Result<LoadReport, Unsettled>, RunFault>
    ensures { result ≡ told_of ran }
{
    let ended = match ran {
        Ok(ended) => ended,
        Err(fault) => {
            return match unsettled_by(&fault) {
                Some(why) => Ok(Err(why)),
                None => Err(fault),
            };
        }
    };
    match ended {
        Ended::Reported(report) => Ok(Ok(report)),
        Ended::Stalled(stall, _book) => Ok(Err(Unsettled::Stalled(stall))),
    }
}

/// Runs the agents of the settings once by each seed. At the deadline it answers for those that ended.
fn try_seeds<R: Clock>(
    rt: &R,
    alloc: Global,
    config: &Config,
    policy: &AgentPolicy,
    seeds: Seeds,
    deadline: Option<Instant>,
) -> Result<Tally, RunFault>
    ensures of_runs { IfOk result (IsOfRuns (λ ended. MayEnd ended config.now) seeds.first) }
    ensures adds_up { IfOk result CountsAddUp }
    ensures few { IfOk result (λ tally. tally.runs ≤ seeds.many) }
    ensures whole { deadline ≡ None → AreNumbers seeds → IfOk result (λ tally. tally.runs ≡ seeds.many) }
    ensures fault { IfErr result (λ fault. fault ≡ RunFault.OutOfMemory) }
{
    let mut tally = Tally::new();
    for place in 0..seeds.many {
        let Some(seed) = seeds.first.checked_add(place as u64) else {
            return Ok(tally);
        };
        let ran = run_by_seed(rt, alloc, config, policy, seed, deadline);
        if deadline.is_some() && matches!(&ran, Err(RunFault::TimeUp)) {
            return Ok(tally);
        }
        let ended = told(ran)?;
        tally = tally.with(seed, &ended);
    }
    Ok(tally)
}

/// Reads the settings, runs their agents once by each seed, and writes the tally. Nothing is flushed.
fn tally_config<R: Clock, W: Write>(
    rt: &R,
    alloc: Global,
    text: &str,
    policy: &AgentPolicy,
    seeds: Seeds,
    deadline: Option<Instant>,
    writer: &mut W,
) -> Result<Tally, RunTextFault>
    ensures told { IfOk result (λ tally. IsTold (parse_document text.now) seeds tally (W.contents writer.old)
        (W.contents writer.new)) }
    ensures whole { deadline ≡ None → AreNumbers seeds → IfOk result (λ tally. tally.runs ≡ seeds.many) }
    ensures settings { IfErr result (IsTextsFault (parse_document text.now)) }
    ensures fault { IfErr result EndsAll }
    ensures unwritten { IfErr result (λ fault. fault ≢ RunTextFault.Write → writer.new ≡ writer.old) }
{
    let config = match read_config(alloc, text) {
        Ok(config) => config,
        Err(fault) => return Err(RunTextFault::Settings(fault)),
    };
    let tally = match try_seeds(rt, alloc, &config, policy, seeds, deadline) {
        Ok(tally) => tally,
        Err(fault) => return Err(RunTextFault::Run(fault)),
    };
    match write_tally(writer, &tally) {
        Ok(()) => Ok(tally),
        Err(_) => Err(RunTextFault::Write),
    }
}

/// Reads a settings text, runs its agents once by each of these seeds, all by this policy, writes the tally of how the
/// runs ended, and flushes it, whatever the ending. At the deadline the tally is of the runs that ended, and the ending
/// is that of a run that was given up.
///
/// Endings are else that of the first run without a report, where one has none, and those of [`crate::run_flushed`].
/// Want of memory ends all, and nothing is written then.
pub fn tally_flushed<R: Clock, W: Write + Drop>(
    rt: &R,
    alloc: Global,
    text: &str,
    policy: &AgentPolicy,
    seeds: Seeds,
    deadline: Option<Instant>,
    writer: &mut BufWriter<W>,
) -> Tallied
    ensures told { IsTallied (parse_document text.now) seeds result.tally (writer_contents W.contents writer.old)
        (writer_contents W.contents writer.new) result.ending }
    ensures whole { (why : Unsettled) → deadline ≡ None → AreNumbers seeds → result.ending ≡ Ending.Run why →
        result.tally.runs ≡ seeds.many }
    ensures flushed { (result.ending ≡ Ending.CannotRead Failure.Write) ⊎ (writer_buffer writer.new ≡ []) }
{
    match tally_config(rt, alloc, text, policy, seeds, deadline, writer) {
        Ok(tally) => Tallied {
            ending: flushed(writer, tally.ending(seeds.many)),
            tally,
        },
        Err(fault) => Tallied {
            ending: flushed(writer, Ending::from(fault)),
            tally: Tally::new(),
        },
    }
}
