//! A run of agents, in threads or by a seed, from a settings text to the text of its report.

ghost use Rattle.std.specs.Prelude.{◌≡◌, ◌≢◌, IfErr, IfOk};
ghost use Rattle.toml.specs.Parse.{parse_document};
ghost use Rattle.pc_seeds.specs.Ending.{IfReported, IfStalledBookTells};
ghost use Rattle.pc_settings.specs.SettingsText.{SpellsSettings};
ghost use Rattle.pc_threads.specs.Reports.{AddsUp, DoesAll, TellsItsBook};
ghost use Rattle.pc_program.specs.ReportText.{IsReport};
ghost use Rattle.pc_program.specs.Runs.{DoesWhatIsSpelled, IfStalledLeads, IsNoStall, IsTextsFault};

use crate::progress::Progress;
use crate::report::{ReportForm, write_report};
use pc_policy::AgentPolicy;
use pc_seeds::{Ended, Stall, run_by_seed};
use pc_settings::{SettingsFault, read_config};
use pc_threads::{Config, Gate, LoadReport, RunFault, run_agents_by};
use std::alloc::Global;
use std::io::Write;
use std::sync::Wait;
use std::thread::Threads;
use std::time::Clock;
use thiserror::Error;

/// Why a settings text led to no written report.
#[derive(Clone, Copy, Debug, PartialEq, Eq, Error)]
pub enum RunTextFault {
    /// The text spells no settings.
    #[error(transparent)]
    Settings(SettingsFault),
    /// The run met a fault.
    #[error(transparent)]
    Run(RunFault),
    /// The run was one by a seed, and no agent will take a thread that waits for a CPU that idles.
    #[error("{0:?} is stalled")]
    Stalled(Stall),
    /// The report could not be written.
    #[error("the report cannot be written")]
    Write,
}

/// What agents of a run go by, and who says whose step is next (own).
#[derive(Debug, Drop)]
pub struct Scheduling {
    /// What every agent goes by.
    pub policy: AgentPolicy,
    /// What draws whose step is next, where all run in one thread; none: each agent runs in a thread of its own.
    pub seed: Option<u64>,
}

/// Runs the agents of the settings, scheduled so.
fn run_scheduled<R: Threads + Wait + Clock + Sync, S: Write + Copy + Sync>(
    rt: &R,
    alloc: Global,
    config: &Config,
    scheduling: Scheduling,
    progress: &Progress<S>,
) -> Result<Ended, RunFault>
    ensures tells { IfOk result (IfReported TellsItsBook) }
    ensures adds_up { IfOk result (IfReported AddsUp) }
    ensures all { IfOk result (IfReported (DoesAll config.now)) }
    ensures stalled { IfOk result (IfStalledBookTells config.now) }
{
    let Scheduling { policy, seed } = scheduling;
    match seed {
        Some(seed) => run_by_seed(rt, alloc, config, &policy, seed, progress.deadline()),
        None => match run_agents_by(rt, alloc, config, policy, progress) {
            Ok(report) => Ok(Ended::Reported(report)),
            Err(fault) => Err(fault),
        },
    }
}

/// Reads the settings, and runs agents as they ask, scheduled so. Nothing is written but what the progress tells.
pub(crate) fn run_settings<R: Threads + Wait + Clock + Sync, S: Write + Copy + Sync>(
    rt: &R,
    alloc: Global,
    text: &str,
    scheduling: Scheduling,
    progress: &Progress<S>,
) -> Result<Ended, RunTextFault>
    ensures tells { IfOk result (IfReported TellsItsBook) }
    ensures adds_up { IfOk result (IfReported AddsUp) }
    ensures all { IfOk result (IfReported (DoesWhatIsSpelled (parse_document text.now))) }
    ensures stalled { IfOk result (IfStalledLeads (parse_document text.now)) }
    ensures spelled { IfOk result (λ _. SpellsSettings (parse_document text.now)) }
    ensures settings { IfErr result (IsTextsFault (parse_document text.now)) }
    ensures unwritten { IfErr result (λ fault. fault ≢ RunTextFault.Write) }
    ensures unstalled { IfErr result IsNoStall }
{
    let config = match read_config(alloc, text) {
        Ok(config) => config,
        Err(fault) => return Err(RunTextFault::Settings(fault)),
    };
    progress.begin(config.threads().len());
    let ended = run_scheduled(rt, alloc, &config, scheduling, progress);
    progress.end();
    match ended {
        Ok(ended) => Ok(ended),
        Err(fault) => Err(RunTextFault::Run(fault)),
    }
}

/// Reads the settings, runs agents as they ask, scheduled so, and writes the report. The progress says when the run is
/// given up, and of a run in threads tells meanwhile how far it is.
///
/// Faults of the settings come first (`Settings`), then those of the run (`Run`, and by a seed `Stalled`), then
/// `Write`, from the first write that fails: the report may then be written in part. Nothing is flushed. Without a
/// deadline it may wait without end, as a run in threads may.
pub fn run_config<R: Threads + Wait + Clock + Sync, S: Write + Copy + Sync, W: Write>(
    rt: &R,
    alloc: Global,
    text: &str,
    scheduling: Scheduling,
    form: ReportForm,
    progress: &Progress<S>,
    writer: &mut W,
) -> Result<LoadReport, RunTextFault>
    ensures tells { IfOk result TellsItsBook }
    ensures adds_up { IfOk result AddsUp }
    ensures all { IfOk result (DoesWhatIsSpelled (parse_document text.now)) }
    ensures writes { IfOk result (λ report. IsReport form report (W.contents writer.old) (W.contents writer.new)) }
    ensures settings { IfErr result (IsTextsFault (parse_document text.now)) }
    ensures unwritten { IfErr result (λ fault. fault ≢ RunTextFault.Write → writer.new ≡ writer.old) }
{
    let ended = match run_settings(rt, alloc, text, scheduling, progress) {
        Ok(ended) => ended,
        Err(fault) => return Err(fault),
    };
    let report = match ended {
        Ended::Reported(report) => report,
        Ended::Stalled(stall, _book) => return Err(RunTextFault::Stalled(stall)),
    };
    match write_report(writer, &report, form) {
        Ok(()) => Ok(report),
        Err(_) => Err(RunTextFault::Write),
    }
}
