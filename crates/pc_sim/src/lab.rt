//! The lab's command: the texts that it reads, where it writes, and what is said at its end.

use crate::end;
use crate::met::{Met, Source};
use crate::streams::{Noted, Opening, screen_of};
use pc_program::{Ending, Failure, VariantsFrom};
use pc_trial::{LabEnding, LabOutput, MOST_LOAD, Progress, Stall, Unread, try_load, try_variants};
use std::io::{self, BufWriter, Write};
use std::process::ExitCode;

/// Where more is told of the lab's words.
const MORE_OF_LAB: &str = "pc-sim lab --help tells more";

/// What is met where a text cannot be read for this reason, and the system said that.
fn unread(why: Unread, said: Option<io::Error>) -> Met {
    let failure = match why {
        Unread::Failed => Failure::Read,
        Unread::TooLong => Failure::TooLong,
        Unread::NotUtf8 => Failure::NotUtf8,
    };
    Met::of(Ending::CannotRead(failure), said)
}

/// Says how the lab ended that wrote nothing anew, and behind that what is wrong with a text, of which it tells where
/// it comes from if there are two; and answers its exit status.
fn said(rt: &HostRuntime, ending: LabEnding, from: Option<&Source>, trouble: &Vec<u8>) -> ExitCode {
    if ending != LabEnding::Finished {
        // Nothing can be said of an error on standard error itself.
        let _ = eprintln!(rt; "pc-sim: {ending}");
    }
    if !trouble.is_empty() {
        let _ = match from {
            Some(from) => eprint!(rt; "pc-sim: {from}: "),
            None => eprint!(rt; "pc-sim: "),
        };
        let _ = rt.stderr().write_all(trouble.as_slice());
    }
    ExitCode::from(ending.status())
}

/// Says which run stalled first, where all is told of the runs, and of which text its variant is, if there are two.
fn say_stall(rt: &HostRuntime, ending: LabEnding, from: Option<&Source>, stall: Option<Stall>) {
    if let (LabEnding::Finished, Some(stall)) = (ending, stall) {
        let _ = match from {
            Some(from) => eprintln!(rt; "pc-sim: {from}: {stall}"),
            None => eprintln!(rt; "pc-sim: {stall}"),
        };
    }
}

/// Where other variants come from, if they are of another text than the load.
fn others_of(variants: VariantsFrom) -> Option<Source> {
    match variants {
        VariantsFrom::Load => None,
        VariantsFrom::Input => Some(Source(None)),
        VariantsFrom::File(name) => Some(Source(Some(name))),
    }
}

/// Whether the load and its variants would both be the standard input, which has one text.
fn are_one_text(source: &Source, variants: &VariantsFrom) -> bool {
    match variants {
        VariantsFrom::Input => source.0.is_none(),
        VariantsFrom::Load | VariantsFrom::File(_) => false,
    }
}

/// Says that one text cannot be both, and answers the exit status of a command line that has a fault.
fn refuse_one_text(rt: &HostRuntime, source: &Source) -> ExitCode {
    let status = end(rt, &Met::ended(Ending::BadCommandLine), source, MOST_LOAD);
    let _ = eprintln!(rt;
        "pc-sim: the load and its variants cannot both be the standard input; {MORE_OF_LAB}"
    );
    status
}

/// A text of the lab, and what the system said of it.
#[derive(Clone, Copy)]
struct Given<'a> {
    source: &'a Source,
    said: Option<io::Error>,
}

/// Says how the lab ended of these texts, where the system said that of what was written, and answers its exit status.
fn end_lab(
    rt: &HostRuntime,
    ending: LabEnding,
    load: Given<'_>,
    others: Option<Given<'_>>,
    written: Option<io::Error>,
    trouble: &Vec<u8>,
) -> ExitCode {
    match (ending, others) {
        (LabEnding::LoadUnread(why), _) => {
            end(rt, &unread(why, load.said), load.source, MOST_LOAD)
        }
        (LabEnding::VariantsUnread(why), Some(others)) => {
            end(rt, &unread(why, others.said), others.source, MOST_LOAD)
        }
        (LabEnding::Unwritten, _) => {
            let met = Met::of(Ending::CannotRead(Failure::Write), written);
            end(rt, &met, load.source, MOST_LOAD)
        }
        (LabEnding::BadLoad(_), Some(_)) => said(rt, ending, Some(load.source), trouble),
        (LabEnding::BadVariants(_), Some(others)) => {
            said(rt, ending, Some(others.source), trouble)
        }
        (ending, _) => said(rt, ending, None, trouble),
    }
}

/// Tries the load of the file, or else of the standard input, and says how that ended. It stands apart, so that no
/// other command has the room on its stack that a run in virtual time needs.
#[inline(never)]
pub(crate) fn try_on_machine(
    rt: &HostRuntime,
    file: Option<String>,
    variants: VariantsFrom,
    wanted: &LabOutput,
) -> ExitCode {
    let source = Source(file);
    if are_one_text(&source, &variants) {
        return refuse_one_text(rt, &source);
    }
    let mut trouble = Vec::new(rt.alloc());
    let Ok(mut writer) = BufWriter::new(rt.alloc(), Noted::new(rt.stdout())) else {
        return said(rt, LabEnding::OutOfMemory, None, &trouble);
    };
    match others_of(variants) {
        Some(others) => try_both(rt, &source, &others, wanted, &mut trouble, &mut writer),
        None => try_one(rt, &source, wanted, &mut trouble, &mut writer),
    }
}

/// Tries a load under the variants of its own text.
fn try_one<W: Write + Drop>(
    rt: &HostRuntime,
    source: &Source,
    wanted: &LabOutput,
    trouble: &mut Vec<u8>,
    writer: &mut BufWriter<Noted<W>>,
) -> ExitCode {
    let mut load = Noted::new(Opening::new(rt, source));
    let mut progress = Progress::new(screen_of(rt));
    let ending = try_load(
        rt.alloc(),
        &mut load,
        wanted,
        &mut progress,
        trouble,
        writer,
    );
    let given = Given {
        source,
        said: load.fault(),
    };
    say_stall(rt, ending, None, progress.first_stall());
    end_lab(rt, ending, given, None, writer.get_ref().fault(), trouble)
}

/// Tries a load under the variants of another text.
fn try_both<W: Write + Drop>(
    rt: &HostRuntime,
    source: &Source,
    others: &Source,
    wanted: &LabOutput,
    trouble: &mut Vec<u8>,
    writer: &mut BufWriter<Noted<W>>,
) -> ExitCode {
    let mut load = Noted::new(Opening::new(rt, source));
    let mut variants = Noted::new(Opening::new(rt, others));
    let mut progress = Progress::new(screen_of(rt));
    let ending = try_variants(
        rt.alloc(),
        &mut load,
        &mut variants,
        wanted,
        &mut progress,
        trouble,
        writer,
    );
    let given = Given {
        source,
        said: load.fault(),
    };
    let other = Given {
        source: others,
        said: variants.fault(),
    };
    say_stall(rt, ending, Some(others), progress.first_stall());
    end_lab(
        rt,
        ending,
        given,
        Some(other),
        writer.get_ref().fault(),
        trouble,
    )
}
