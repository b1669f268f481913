//! The command that runs agents once by each of several seeds, and tallies how the runs end.

use crate::end;
use crate::met::{Met, Source};
use crate::run::{deadline_of, end_settings, say_seed, say_unknown, settings_of};
use crate::streams::Noted;
use pc_program::{
    AgentPolicy, Ending, MOST_SETTINGS, Seeds, Tallied, Tally, Unreported, tally_flushed,
};
use std::io::BufWriter;
use std::process::ExitCode;
use std::time::Instant;

/// Runs agents by a settings text once by each seed, and writes the tally through a buffer of its own.
fn tally_of(
    rt: &HostRuntime,
    text: &str,
    policy: &AgentPolicy,
    seeds: Seeds,
    deadline: Option<Instant>,
) -> (Met, Option<Tally>) {
    let Ok(mut writer) = BufWriter::new(rt.alloc(), Noted::new(rt.stdout())) else {
        return (Met::ended(Ending::OutOfMemory), None);
    };
    let Tallied { ending, tally } = tally_flushed(
        rt,
        rt.alloc(),
        text,
        policy,
        seeds,
        deadline,
        &mut writer,
    );
    (Met::of(ending, writer.get_ref().fault()), Some(tally))
}

/// Says how many of the runs were tried where their limit was over; or else of the first one without a report who waits
/// in it, and how it can be had again.
fn say_tally(rt: &HostRuntime, tally: &Tally, seeds: Seeds) {
    let (tried, all) = (tally.runs, seeds.many);
    if tried < all as u64 {
        // Nothing can be said of an error on standard error itself.
        let _ = eprintln!(rt; "pc-sim: {tried} of {all} runs were tried");
    } else if let Some(Unreported { seed, why }) = tally.first {
        say_seed(rt, why, seed);
    }
}

/// Runs agents by the settings of the file, or else of the standard input, once by each seed, and says how that ended.
pub(crate) fn tally_on_machine(
    rt: &HostRuntime,
    file: Option<String>,
    limit: Option<u32>,
    policy: &AgentPolicy,
    seeds: Seeds,
) -> ExitCode {
    let source = Source(file);
    let text = match settings_of(rt, &source) {
        Ok(text) => text,
        Err(met) => return end(rt, &met, &source, MOST_SETTINGS),
    };
    let text = text.as_str();
    let (met, tally) = tally_of(rt, text, policy, seeds, deadline_of(rt, limit));
    let status = end_settings(rt, &met, &source, text);
    if let (Ending::Run(_), Some(tally)) = (met.ending, tally) {
        say_tally(rt, &tally, seeds);
    }
    say_unknown(rt, text);
    status
}
