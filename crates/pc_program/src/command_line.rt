//! The command line.

ghost use Rattle.std.specs.Prelude.{◌≡◌, ◌↔◌, ◌⊎◌, [], Some, None, Err, IfOk, IfErr, IsTrue, map, option_map};
ghost use Rattle.std.specs.Prelude.{string_bytes, codes, MatchOption};
ghost use Rattle.clap.specs.Walk.{first_of, one_of, rows_of};
ghost use Rattle.clap.specs.Simple.{subcommand_of, subcommand_rows_of};
ghost use Rattle.clap.specs.Faults.{fault_of};
ghost use Rattle.clap.specs.Matches.{found_of};
ghost use Rattle.pc_program.specs.CommandLine.{AreNoRuns, AreSeeds, AsksForTotals, IsAsked, IsAxis, IsCommandMet};
ghost use Rattle.pc_program.specs.CommandLine.{IsFrom, IsInput, IsLimit, IsPart, IsPolicy, IsRefusal, IsReportForm};
ghost use Rattle.pc_program.specs.CommandLine.{IsRuns, IsSeed, IsSpelled, IsWrongIn, NamesNone, pc_sim};
ghost use Rattle.pc_program.specs.Inner.FirstWord.{first_word};

mod parsers;

use crate::numbers::numbers_in;
use crate::report::ReportForm;
use crate::seeds::Seeds;
use clap::error::ErrorKind;
use clap::{ArgMatches, Command as Parser, Error};
use parsers::parser_for;
pub(crate) use parsers::{FIRST_WORDS, command_named};
use pc_draw::{Axis, DrawnPart, Interval};
use pc_policy::{OrderFault, PolicyName};
use std::alloc::{AllocError, Global};
use std::convert::AsStr;
use thiserror::Error as Fault;

/// What the program is asked to do. Where there is no file the standard input is read.
#[derive(Debug, Drop)]
pub enum ProgramCommand {
    /// Replay a script.
    Replay {
        file: Option<String>,
    },
    /// Replay a script, and explain each line.
    Explain {
        file: Option<String>,
    },
    /// Replay a script, and draw what happened.
    Draw {
        file: Option<String>,
        /// What part of it is drawn.
        part: DrawnPart,
        /// What goes to the right.
        axis: Axis,
    },
    /// Run agents by settings, in threads or by a seed.
    Run {
        file: Option<String>,
        /// How the report is told.
        form: ReportForm,
        /// After how many seconds the run is given up.
        limit: Option<u32>,
        /// What every agent goes by.
        policy: PolicyName,
        /// The file into which the run's calls are written as a script.
        script: Option<String>,
        /// What draws whose step is next, where the agents run in one thread.
        seed: Option<u64>,
    },
    /// Run agents by settings once for each of several seeds, and tally how the runs end.
    Tally {
        file: Option<String>,
        /// After how many seconds no more of them are tried.
        limit: Option<u32>,
        /// What every agent goes by.
        policy: PolicyName,
        seeds: Seeds,
    },
    /// Answer commands as they come.
    Session {
        file: Option<String>,
        /// Whether each line is explained.
        explains: bool,
    },
    /// Try a load of the lab under variants of the policy.
    Lab {
        file: Option<String>,
        /// Where the variants come from.
        variants: VariantsFrom,
        /// Whether the time of each CPU is told.
        per_cpu: bool,
        /// Whether the table is written for other tools.
        csv: bool,
        /// Whether the waits are drawn, in place of the table.
        picture: bool,
        /// The variant whose run is written as a script, in place of the table.
        script: Option<String>,
    },
}

/// Where the variants of a load come from (own).
#[derive(Debug, Drop)]
pub enum VariantsFrom {
    /// From the load's own text.
    Load,
    /// From the standard input.
    Input,
    /// From the file of this name.
    File(String),
}

/// Why several runs cannot be asked for so (own).
#[derive(Clone, Copy, Debug, PartialEq, Eq, Fault)]
pub enum RunsFault {
    /// No word says by which seed the first of them is.
    #[error("--runs wants --seed NUMBER beside it, the first of the seeds")]
    NoSeed,
    /// The last of so many seeds is none.
    #[error("--seed and --runs: the last of so many seeds would be past 18446744073709551615")]
    PastTheLast,
    /// Other words ask for more than a tally.
    #[error("--runs writes a tally alone: --per-cpu, --draw and --script cannot stand beside it")]
    MoreThanTotals,
}

/// Why there is no command.
#[derive(Debug, Drop, Fault)]
pub enum CommandFault {
    /// A growth was refused.
    #[error("out of memory")]
    OutOfMemory,
    /// The word behind an option that is to spell numbers spells none.
    #[error("--{option} spells no numbers")]
    BadNumbers { option: &'static str, word: String },
    /// The word behind `--policy` names none.
    #[error("--policy names no policy")]
    BadPolicy { word: String, fault: OrderFault },
    /// Several runs are asked for, but not so that they can be.
    #[error(transparent)]
    BadRuns(RunsFault),
    /// The words are no command, or they ask for help or the version, which is the error's text.
    #[error(transparent)]
    Clap(Error),
}

impl From<AllocError> for CommandFault {
    ghost use Rattle.std.specs.Prelude.{◌≡◌};
    ghost use Rattle.pc_program.specs.declared.command_line.CommandFault.TheVariants.{OutOfMemory};

    ghost from_gives = { λ _ fault. fault ≡ OutOfMemory };

    fn from(_error: AllocError) -> CommandFault {
        CommandFault::OutOfMemory
    }
}

/// The version of the program. It cannot know which kit built it, so it does not say so.
const VERSION: &str = "1.0.0";

/// The most runs that a tally is of.
const MOST_RUNS: u32 = 1_000_000_000;

/// Reads the words of the command line, of which the first is the program's name.
///
/// The fault is `Clap` where the words are no command, and where they ask for help or the version; `BadNumbers` where
/// they are one but for a word that is to spell numbers, `BadPolicy` but for one that is to name a policy, and
/// `BadRuns` but for those that ask for several runs; or `OutOfMemory`. Numbers of CPUs are looked at before those of
/// lines, and a policy before runs.
pub fn read_command<'a, S: AsStr>(
    alloc: Global,
    words: &'a [S],
) -> Result<ProgramCommand, CommandFault>
    ensures asked { IfOk result (IsAsked (subcommand_of pc_sim (map S.text words.entry.now))) }
    ensures taken { IfOk result (λ _. fault_of pc_sim (map S.text words.entry.now) ≡ []) }
    ensures refused { IfErr result (IsRefusal (fault_of pc_sim (map S.text words.entry.now))) }
    ensures wrong { IfErr result (IsWrongIn (subcommand_of pc_sim (map S.text words.entry.now))) }
{
    let parser: Parser<'a> = parser_for(alloc, first_word(words))?;
    match parser.try_get_matches_from(words) {
        Ok(matches) => command_of(alloc, &matches),
        Err(error) if error.kind() == ErrorKind::OutOfMemory => Err(CommandFault::OutOfMemory),
        Err(error) => Err(CommandFault::Clap(error)),
    }
}

/// The first word after the program's name; an empty one where there is none.
pub(crate) fn first_word<S: AsStr>(words: &[S]) -> &str
    ensures { result.now ≡ first_word (map S.text words.now) }
{
    match words.get(1) {
        Some(word) => word.as_str(),
        None => "",
    }
}

/// What the matches of a command ask for.
fn command_of(alloc: Global, matches: &ArgMatches<'_>) -> Result<ProgramCommand, CommandFault>
    requires { IsCommandMet (subcommand_rows_of matches.now) }
    ensures asked { IfOk result (IsAsked (subcommand_rows_of matches.now)) }
    ensures own { IfErr result (IsRefusal []) }
    ensures wrong { IfErr result (IsWrongIn (subcommand_rows_of matches.now)) }
{
    let Some((name, met)) = matches.subcommand() else {
        unreachable!()
    };
    let file = file_of(alloc, met)?;
    if name == "run" {
        run_of(alloc, file, met)
    } else if name == "explain" {
        Ok(ProgramCommand::Explain { file })
    } else if name == "session" {
        Ok(ProgramCommand::Session {
            file,
            explains: is_set(met, "explain"),
        })
    } else if name == "draw" {
        drawing_of(alloc, file, met)
    } else if name == "lab" {
        Ok(lab_of(alloc, file, met)?)
    } else {
        Ok(ProgramCommand::Replay { file })
    }
}

/// The run of this file, or the runs, that the matches of `run` ask for.
fn run_of(
    alloc: Global,
    file: Option<String>,
    met: &ArgMatches<'_>,
) -> Result<ProgramCommand, CommandFault>
    requires { IsInput (first_of (codes "FILE") (rows_of (found_of met.now))) (option_map string_bytes file) }
    ensures asked { IfOk result (IsAsked (Some (codes "run", rows_of (found_of met.now)))) }
    ensures own { IfErr result (IsRefusal []) }
    ensures wrong { IfErr result (IsWrongIn (Some (codes "run", rows_of (found_of met.now)))) }
{
    let policy = policy_of(alloc, met)?;
    match runs_of(met) {
        Some(many) => match tally_of(file, policy, many, met) {
            Ok(command) => Ok(command),
            Err(fault) => Err(CommandFault::BadRuns(fault)),
        },
        None => Ok(single_of(alloc, file, policy, met)?),
    }
}

/// The run of this file, by this policy, that the matches of `run` ask for.
fn single_of(
    alloc: Global,
    file: Option<String>,
    policy: PolicyName,
    met: &ArgMatches<'_>,
) -> Result<ProgramCommand, AllocError>
    requires input { IsInput (first_of (codes "FILE") (rows_of (found_of met.now))) (option_map string_bytes file) }
    requires policy { IsPolicy (first_of (codes "policy") (rows_of (found_of met.now))) policy }
    requires single { IsRuns (one_of (codes "runs") (rows_of (found_of met.now))) None }
    ensures { IfOk result (IsAsked (Some (codes "run", rows_of (found_of met.now)))) }
{
    let script = script_of(alloc, met)?;
    Ok(ProgramCommand::Run {
        file,
        form: form_of(met),
        limit: limit_of(met),
        policy,
        script,
        seed: seed_of(met),
    })
}

/// So many runs of this file, by this policy, that the matches of `run` ask for.
fn tally_of(
    file: Option<String>,
    policy: PolicyName,
    many: u32,
    met: &ArgMatches<'_>,
) -> Result<ProgramCommand, RunsFault>
    requires input { IsInput (first_of (codes "FILE") (rows_of (found_of met.now))) (option_map string_bytes file) }
    requires policy { IsPolicy (first_of (codes "policy") (rows_of (found_of met.now))) policy }
    requires runs { IsRuns (one_of (codes "runs") (rows_of (found_of met.now))) (Some many) }
    ensures asked { IfOk result (IsAsked (Some (codes "run", rows_of (found_of met.now)))) }
    ensures fault { IfErr result (AreNoRuns (rows_of (found_of met.now))) }
{
    let Some(first) = seed_of(met) else {
        return Err(RunsFault::NoSeed);
    };
    let seeds = Seeds { first, many };
    if !are_seeds(seeds) {
        return Err(RunsFault::PastTheLast);
    }
    if !asks_for_totals(met) {
        return Err(RunsFault::MoreThanTotals);
    }
    let limit = limit_of(met);
    Ok(ProgramCommand::Tally {
        file,
        limit,
        policy,
        seeds,
    })
}

/// Whether so many runs may be asked for, and the last seed is one.
fn are_seeds(seeds: Seeds) -> bool
    ensures { IsTrue result ↔ AreSeeds seeds }
{
    let Seeds { first, many } = seeds;
    many >= 1 && many <= MOST_RUNS && first <= u64::MAX - (many - 1) as u64
}

/// Whether nothing asks for more than the totals of a run.
fn asks_for_totals(met: &ArgMatches<'_>) -> bool
    ensures { IsTrue result ↔ AsksForTotals (rows_of (found_of met.now)) }
{
    met.get_count("per-cpu") == 0 && !is_set(met, "draw") && is_absent(met, "script")
}

/// The picture of this file that the matches of `draw` ask for.
fn drawing_of(
    alloc: Global,
    file: Option<String>,
    met: &ArgMatches<'_>,
) -> Result<ProgramCommand, CommandFault>
    requires { IsInput (first_of (codes "FILE") (rows_of (found_of met.now))) (option_map string_bytes file) }
    ensures asked { IfOk result (IsAsked (Some (codes "draw", rows_of (found_of met.now)))) }
    ensures own { IfErr result (IsRefusal []) }
    ensures wrong { IfErr result (IsWrongIn (Some (codes "draw", rows_of (found_of met.now)))) }
{
    let part = part_of(alloc, met)?;
    Ok(ProgramCommand::Draw {
        file,
        part,
        axis: axis_of(met),
    })
}

/// What the matches of `lab` ask for, of the load in this file.
fn lab_of(
    alloc: Global,
    file: Option<String>,
    met: &ArgMatches<'_>,
) -> Result<ProgramCommand, AllocError>
    requires { IsInput (first_of (codes "FILE") (rows_of (found_of met.now))) (option_map string_bytes file) }
    ensures { IfOk result (IsAsked (Some (codes "lab", rows_of (found_of met.now)))) }
{
    let variants = variants_of(alloc, met)?;
    let script = script_of(alloc, met)?;
    Ok(ProgramCommand::Lab {
        file,
        variants,
        per_cpu: is_set(met, "per-cpu"),
        csv: is_set(met, "csv"),
        picture: is_set(met, "picture"),
        script,
    })
}

/// The named file; none of the standard input, which `-` names too.
fn file_of(alloc: Global, matches: &ArgMatches<'_>) -> Result<Option<String>, AllocError>
    ensures { IfOk result
        (λ file. IsInput (first_of (codes "FILE") (rows_of (found_of matches.now))) (option_map string_bytes file)) }
{
    match matches.get_str("FILE") {
        None => Ok(None),
        Some(name) if name == "-" => Ok(None),
        Some(name) => Ok(Some(String::from_str(alloc, name)?)),
    }
}

/// Where the variants come from.
fn variants_of(alloc: Global, matches: &ArgMatches<'_>) -> Result<VariantsFrom, AllocError>
    ensures { IfOk result (IsFrom (first_of (codes "variants") (rows_of (found_of matches.now)))) }
{
    match matches.get_str("variants") {
        None => Ok(VariantsFrom::Load),
        Some(name) if name == "-" => Ok(VariantsFrom::Input),
        Some(name) => Ok(VariantsFrom::File(String::from_str(alloc, name)?)),
    }
}

/// The part of a picture that is asked for.
fn part_of(alloc: Global, matches: &ArgMatches<'_>) -> Result<DrawnPart, CommandFault>
    ensures asked { IfOk result (λ part. IsPart part (rows_of (found_of matches.now))) }
    ensures own { IfErr result (IsRefusal []) }
    ensures wrong { IfErr result (IsWrongIn (Some (codes "draw", rows_of (found_of matches.now)))) }
{
    let cpus = numbers_of(alloc, matches, "cpus")?;
    let lines = numbers_of(alloc, matches, "lines")?;
    Ok(DrawnPart { cpus, lines })
}

/// What goes to the right in a picture.
fn axis_of(matches: &ArgMatches<'_>) -> Axis
    ensures { IsAxis result (rows_of (found_of matches.now)) }
{
    if is_set(matches, "time") {
        Axis::Ticks
    } else {
        Axis::Lines
    }
}

/// The numbers that the word behind an option of `draw` spells; none without a word.
fn numbers_of(
    alloc: Global,
    matches: &ArgMatches<'_>,
    option: &'static str,
) -> Result<Option<Interval>, CommandFault>
    requires { (option.now ≡ codes "cpus") ⊎ (option.now ≡ codes "lines") }
    ensures spelled { IfOk result
        (λ numbers. IsSpelled (first_of option.now (rows_of (found_of matches.now))) numbers) }
    ensures own { IfErr result (IsRefusal []) }
    ensures wrong { IfErr result (IsWrongIn (Some (codes "draw", rows_of (found_of matches.now)))) }
{
    let Some(word) = matches.get_str(option) else {
        return Ok(None);
    };
    match numbers_in(word.as_bytes()) {
        Some(numbers) => Ok(Some(numbers)),
        None => {
            let word = String::from_str(alloc, word)?;
            Err(CommandFault::BadNumbers { option, word })
        }
    }
}

/// How the report is told.
fn form_of(matches: &ArgMatches<'_>) -> ReportForm
    ensures { IsReportForm result (rows_of (found_of matches.now)) }
{
    if is_set(matches, "draw") {
        ReportForm::Picture
    } else {
        match matches.get_count("per-cpu") {
            0 => ReportForm::Totals,
            1 => ReportForm::EachCpu,
            _ => ReportForm::EachRefusal,
        }
    }
}

/// After how many seconds a run is given up.
fn limit_of(matches: &ArgMatches<'_>) -> Option<u32>
    ensures { IsLimit (one_of (codes "limit") (rows_of (found_of matches.now))) result }
{
    matches.get_one::<u32>("limit")
}

/// What draws whose step is next in a run.
fn seed_of(matches: &ArgMatches<'_>) -> Option<u64>
    ensures { IsSeed (one_of (codes "seed") (rows_of (found_of matches.now))) result }
{
    matches.get_one::<u64>("seed")
}

/// How many runs are asked for, where several may be.
fn runs_of(matches: &ArgMatches<'_>) -> Option<u32>
    ensures { IsRuns (one_of (codes "runs") (rows_of (found_of matches.now))) result }
{
    matches.get_one::<u32>("runs")
}

/// What every agent goes by: the usual policy where none is named.
fn policy_of(alloc: Global, matches: &ArgMatches<'_>) -> Result<PolicyName, CommandFault>
    ensures named { IfOk result (IsPolicy (first_of (codes "policy") (rows_of (found_of matches.now)))) }
    ensures own { IfErr result (IsRefusal []) }
    ensures wrong { IfErr result (IsWrongIn (Some (codes "run", rows_of (found_of matches.now)))) }
{
    let Some(word) = matches.get_str("policy") else {
        return Ok(PolicyName::USUAL);
    };
    match PolicyName::read(word.as_bytes()) {
        Ok(policy) => Ok(policy),
        Err(fault) => {
            let word = String::from_str(alloc, word)?;
            Err(CommandFault::BadPolicy { word, fault })
        }
    }
}

/// The file into which a script of the run is written, or the variant whose script is; a name is taken as it stands.
fn script_of(alloc: Global, matches: &ArgMatches<'_>) -> Result<Option<String>, AllocError>
    ensures { IfOk result
        (λ file. option_map string_bytes file ≡ first_of (codes "script") (rows_of (found_of matches.now))) }
{
    match matches.get_str("script") {
        None => Ok(None),
        Some(name) => Ok(Some(String::from_str(alloc, name)?)),
    }
}

/// Whether the flag of this name stands there.
fn is_set(matches: &ArgMatches<'_>, name: &str) -> bool
    ensures { IsTrue result ↔ (first_of name.now (rows_of (found_of matches.now)) ≡ Some (codes "true")) }
{
    match matches.get_str(name) {
        Some(word) => word == "true",
        None => false,
    }
}

/// Whether no word stands behind the option of this name.
fn is_absent(matches: &ArgMatches<'_>, name: &str) -> bool
    ensures { IsTrue result ↔ (first_of name.now (rows_of (found_of matches.now)) ≡ None) }
{
    match matches.get_str(name) {
        Some(_word) => false,
        None => true,
    }
}
