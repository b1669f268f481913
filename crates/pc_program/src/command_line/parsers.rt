//! The parsers of the command line: that of one command, where the first word names one, or else that of all.
//!
//! A parser has some 700 bytes, and each value that a chain of calls makes has a place of its own on the stack. So
//! what adds to a parser stands in functions that are not inlined, and none of them makes more than a few.

ghost use Rattle.std.specs.Prelude.{◌≡◌, IfOk, codes, false, option_map};
ghost use Rattle.clap.specs.Walk.{rule_of};
ghost use Rattle.clap.specs.Simple.{app_of, with_rule, with_subcommand};
ghost use Rattle.pc_program.specs.CommandLine.{counted_flag, drawing, flag, lab, limit, of_file, option, pc_sim};
ghost use Rattle.pc_program.specs.CommandLine.{program, run, runs, seed, session};
ghost use Rattle.pc_program.specs.Inner.FirstWord.{named, parser_of, program_for};

use super::{MOST_RUNS, VERSION};
use clap::builder::ValueParser;
use clap::{Arg, ArgAction, Command as Parser};
use std::alloc::{AllocError, Global};

const ABOUT: &str =
    "A model of per-CPU ghOSt scheduling: a kernel, agents, and what each agent knows";

const AFTER: &str = "\
Examples:
  pc-sim replay examples/commits-and-sleepers.script
  pc-sim explain examples/commits-and-sleepers.script
  pc-sim draw examples/crash-and-steal.script >picture.svg
  pc-sim run settings.toml --per-cpu
  pc-sim run settings.toml --script run.script
  pc-sim session
  pc-sim lab load.toml --variants examples/lab/variants.toml

FILE may be `-`, the standard input. `pc-sim help COMMAND` tells more of a command.
Exit status: 0 finished; 1 a file or a text has a fault; 2 the command line has one; 3 a run did not
settle; 4 memory or a thread is wanting.
Scripts, settings and answers are described in docs/FORMATS.md.";

const ABOUT_REPLAY: &str = "Answers each command of a script on standard output";

const AFTER_REPLAY: &str = "\
Example:
  printf 'enclave 2 8 100 16 1000\\ncreate 0 3 ready\\n' | pc-sim replay

Exit status: 0 finished; 1 a line is no command, or a read or a write failed; 4 memory is wanting.
Scripts are described in docs/FORMATS.md.";

const ABOUT_EXPLAIN: &str =
    "Answers each command of a script, and says in comments what happened and why";

const AFTER_EXPLAIN: &str = "\
Example:
  pc-sim explain examples/commits-and-sleepers.script

The lines that begin with `#` are comments; without them (grep -av '^#') it is what `pc-sim replay` writes.
Exit status: 0 finished; 1 a line is no command, or a read or a write failed; 4 memory is wanting.
What is written is described in docs/FORMATS.md.";

const ABOUT_DRAW: &str = "Draws what happens in a script, as SVG on standard output";

const AFTER_DRAW: &str = "\
Examples:
  pc-sim draw examples/crash-and-steal.script >picture.svg
  pc-sim draw examples/crash-and-steal.script --cpus 1 --lines 10-20 >part.svg
  pc-sim lab load.toml --script fifo | pc-sim draw --time >times.svg

NUMBERS are two with `-` between, of which the second is not below the first, or one.

Time goes to the right, a step for each command, or with --time by the ticks that comments `# at TICK`
tell; each CPU has a lane. A browser shows the picture.
Exit status: 0 finished; 1 a line is no command, or a read or a write failed; 4 memory is wanting.
What is drawn is described in docs/FORMATS.md.";

const ABOUT_RUN: &str =
    "Runs agents by settings, in threads or by a seed, and reports what they did";

const AFTER_RUN: &str = "\
Example:
  printf 'cpus = 2\\n[[thread]]\\nqueue = 0\\nmask = 3\\nsteps = [\"yield 2\", \"die 1\"]\\n' | pc-sim run

With --seed the agents run in one thread, and the same number has the same run again. With --runs, too,
there is a run by each seed, and a tally tells how many have a report, and which seeds have none first; no
report, picture or script is written then. With --draw the report is a picture, and --per-cpu changes
nothing. Where --per-cpu stands twice, refusals are counted by name. The file of --script is made, or
emptied, before the run begins; what is written there can be replayed, explained and drawn.
Exit status: 0 finished; 1 the settings have a fault, or a read or a write failed; 3 the run did not
settle, or not within its limit; 4 memory or a thread is wanting.
Settings and the report are described in docs/FORMATS.md.";

const ABOUT_SESSION: &str = "Answers commands one after another, each as soon as its line is whole";

const AFTER_SESSION: &str = "\
Example:
  pc-sim session
  enclave 2 8 100 16 1000
  ok

A line is answered as `pc-sim replay` answers it, and all answers are flushed before more is read. A line
that is no command is a fault, which changes nothing, and the session goes on. `?` alone on a line lists
the commands, on standard error; `quit` ends the session.
Exit status: 0 finished; 1 a line was no command, or a read or a write failed; 4 memory is wanting.
Sessions are described in docs/SESSIONS.md, and what is answered in docs/FORMATS.md.";

const ABOUT_LAB: &str =
    "Tries a load under variants of the policy, in virtual time, and compares them in a table";

const AFTER_LAB: &str = "\
Examples:
  pc-sim lab load.toml
  pc-sim lab load.toml --variants variants.toml --csv
  pc-sim lab load.toml --picture >waits.svg
  pc-sim lab load.toml --script fifo | pc-sim explain

Where --script stands, --picture, --per-cpu and --csv change nothing; where --picture stands, these two.
Exit status: 0 finished; 1 the load or the variants have a fault, or a read or a write failed; 4 memory
is wanting.
Loads, variants and the table are described in docs/LAB.md.";

const LOAD: &str = "the load; without it, and where it is `-`, the standard input is read";

const VARIANTS: &str =
    "tries the variants of this text in place of the load's own; `-` is the standard input";

const EACH_CPU: &str = "also tells where the time of each CPU went";

const CSV: &str = "writes the table on its side, with all percentiles, for other tools";

const WAITS: &str = "draws how long threads waited, as SVG, in place of the table";

const SCRIPT_OF: &str =
    "writes the run of the variant of this name as a script, in place of the table";

const EXPLAINS: &str = "also says in comments what happened and why";

const COMMANDS: &str = "the commands; without it, and where it is `-`, the standard input is read";

const SCRIPT: &str = "the script; without it, and where it is `-`, the standard input is read";

const CPUS: &str = "draws the lanes of these CPUs alone, counted from 0";

const LINES: &str = "draws what happens at these lines of the script alone, counted from 1";

const TIME: &str = "draws by the ticks that the comments `# at TICK` tell, and not by lines";

const LIMIT: &str = "gives the run up after so many seconds";

const TO_SCRIPT: &str = "also writes the calls of the run as a script, into this file";

const POLICY: &str =
    "by which agents run and steal threads: levels (the default), fifo, least-ran, levels-then-least-ran or \
     rank EXPRESSION, and ` exact` behind it where steals are exact";

const SEED: &str =
    "runs the agents in one thread, where this number (0 to 18446744073709551615) draws whose step is next";

const RUNS: &str =
    "runs once by each of so many seeds (1 to 1000000000) from that of --seed on, and tallies how they end";

const SETTINGS: &str = "the settings; without it, and where it is `-`, the standard input is read";

const REPORTS_CPUS: &str = "also reports a line for each CPU; twice, with its refusals by name";

const DRAWS: &str = "draws the report, as SVG";

/// The words that name a command.
pub(crate) const FIRST_WORDS: &str = "replay, explain, draw, run, session or lab";

/// A command of the program.
#[derive(Clone, Copy)]
pub(crate) enum Subcommand {
    Replay,
    Explain,
    Draw,
    Run,
    Session,
    Lab,
}

/// The program's parser for a command line with this first word: with the command that it names alone, or with all
/// where it names none.
#[inline(never)]
pub(super) fn parser_for<'a>(alloc: Global, word: &str) -> Result<Parser<'a>, AllocError>
    ensures { IfOk result (λ parser. app_of parser ≡ program_for word.now) }
{
    match command_named(word) {
        Some(command) => with_command(program_parser(alloc), alloc, command),
        None => whole_parser(alloc),
    }
}

/// The command of this name, if there is one.
pub(crate) fn command_named(word: &str) -> Option<Subcommand>
    ensures { option_map parser_of result ≡ named word.now }
{
    if word == "replay" {
        Some(Subcommand::Replay)
    } else if word == "explain" {
        Some(Subcommand::Explain)
    } else if word == "draw" {
        Some(Subcommand::Draw)
    } else if word == "run" {
        Some(Subcommand::Run)
    } else if word == "session" {
        Some(Subcommand::Session)
    } else if word == "lab" {
        Some(Subcommand::Lab)
    } else {
        None
    }
}

/// The program's parser with all commands.
#[inline(never)]
fn whole_parser<'a>(alloc: Global) -> Result<Parser<'a>, AllocError>
    ensures { IfOk result (λ parser. app_of parser ≡ pc_sim) }
{
    let parser = with_script_commands(program_parser(alloc), alloc)?;
    let parser = with_command(parser, alloc, Subcommand::Run)?;
    let parser = with_command(parser, alloc, Subcommand::Session)?;
    with_command(parser, alloc, Subcommand::Lab)
}

/// Adds the commands that go through a script.
#[inline(never)]
fn with_script_commands<'a>(parser: Parser<'a>, alloc: Global) -> Result<Parser<'a>, AllocError>
    ensures { IfOk result (λ more. app_of more ≡ with_subcommand (with_subcommand
        (with_subcommand (app_of parser.entry) (of_file (codes "replay")).top) (of_file (codes "explain")).top)
        drawing.top) }
{
    let parser = with_command(parser, alloc, Subcommand::Replay)?;
    let parser = with_command(parser, alloc, Subcommand::Explain)?;
    with_command(parser, alloc, Subcommand::Draw)
}

/// The program's parser without a command.
#[inline(never)]
fn program_parser<'a>(alloc: Global) -> Parser<'a>
    ensures { app_of result ≡ program }
{
    Parser::new(alloc, "pc-sim")
        .version(VERSION)
        .about(ABOUT)
        .after_help(AFTER)
        .subcommand_required(true)
        .disable_help_subcommand(true)
}

/// Adds a command.
#[inline(never)]
fn with_command<'a>(
    parser: Parser<'a>,
    alloc: Global,
    command: Subcommand,
) -> Result<Parser<'a>, AllocError>
    ensures { IfOk result
        (λ more. app_of more ≡ with_subcommand (app_of parser.entry) (parser_of command).top) }
{
    parser.subcommand(command_parser(alloc, command)?)
}

/// The parser of a command.
fn command_parser<'a>(alloc: Global, command: Subcommand) -> Result<Parser<'a>, AllocError>
    ensures { IfOk result (λ parser. app_of parser ≡ parser_of command) }
{
    match command {
        Subcommand::Replay => replay_parser(alloc),
        Subcommand::Explain => explain_parser(alloc),
        Subcommand::Draw => draw_parser(alloc),
        Subcommand::Run => run_parser(alloc),
        Subcommand::Session => session_parser(alloc),
        Subcommand::Lab => lab_parser(alloc),
    }
}

/// `replay [FILE]`
#[inline(never)]
fn replay_parser<'a>(alloc: Global) -> Result<Parser<'a>, AllocError>
    ensures { IfOk result (λ parser. app_of parser ≡ of_file (codes "replay")) }
{
    parser_of_file(alloc, "replay", SCRIPT, ABOUT_REPLAY, AFTER_REPLAY)
}

/// `explain [FILE]`
#[inline(never)]
fn explain_parser<'a>(alloc: Global) -> Result<Parser<'a>, AllocError>
    ensures { IfOk result (λ parser. app_of parser ≡ of_file (codes "explain")) }
{
    parser_of_file(alloc, "explain", SCRIPT, ABOUT_EXPLAIN, AFTER_EXPLAIN)
}

/// `draw [FILE] [--cpus NUMBERS] [--lines NUMBERS] [--time]`
#[inline(never)]
fn draw_parser<'a>(alloc: Global) -> Result<Parser<'a>, AllocError>
    ensures { IfOk result (λ parser. app_of parser ≡ drawing) }
{
    let parser = parser_of_file(alloc, "draw", SCRIPT, ABOUT_DRAW, AFTER_DRAW)?;
    let parser = with_option(parser, alloc, "cpus", "NUMBERS", CPUS)?;
    let parser = with_option(parser, alloc, "lines", "NUMBERS", LINES)?;
    with_flag(parser, alloc, "time", TIME)
}

/// `run [FILE] [--per-cpu] [--draw] [--limit SECONDS] [--script FILE] [--policy NAME] [--seed NUMBER] [--runs NUMBER]`
#[inline(never)]
fn run_parser<'a>(alloc: Global) -> Result<Parser<'a>, AllocError>
    ensures { IfOk result (λ parser. app_of parser ≡ run) }
{
    let parser = parser_of_file(alloc, "run", SETTINGS, ABOUT_RUN, AFTER_RUN)?;
    let parser = with_report_forms(parser, alloc)?;
    let parser = with_limit(parser, alloc)?;
    let parser = with_option(parser, alloc, "script", "FILE", TO_SCRIPT)?;
    with_scheduling(parser, alloc)
}

/// Adds `[--per-cpu] [--draw]`, by which the report of a run is told.
#[inline(never)]
fn with_report_forms<'a>(parser: Parser<'a>, alloc: Global) -> Result<Parser<'a>, AllocError>
    ensures { IfOk result (λ more. app_of more
        ≡ with_rule (with_rule (app_of parser.entry) (counted_flag (codes "per-cpu"))) (flag (codes "draw"))) }
{
    let parser = with_counted_flag(parser, alloc, "per-cpu", REPORTS_CPUS)?;
    with_flag(parser, alloc, "draw", DRAWS)
}

/// Adds `[--policy NAME] [--seed NUMBER] [--runs NUMBER]`: by what agents go, whose step is next, in how many runs.
#[inline(never)]
fn with_scheduling<'a>(parser: Parser<'a>, alloc: Global) -> Result<Parser<'a>, AllocError>
    ensures { IfOk result (λ more. app_of more
        ≡ with_rule (with_rule (with_rule (app_of parser.entry) (option (codes "policy"))) seed) runs) }
{
    let parser = with_option(parser, alloc, "policy", "NAME", POLICY)?;
    let parser = with_seed(parser, alloc)?;
    with_runs(parser, alloc)
}

/// `session [FILE] [--explain]`
#[inline(never)]
fn session_parser<'a>(alloc: Global) -> Result<Parser<'a>, AllocError>
    ensures { IfOk result (λ parser. app_of parser ≡ session) }
{
    let parser = parser_of_file(alloc, "session", COMMANDS, ABOUT_SESSION, AFTER_SESSION)?;
    with_flag(parser, alloc, "explain", EXPLAINS)
}

/// `lab [FILE] [--variants FILE] [--per-cpu] [--csv] [--picture] [--script NAME]`
#[inline(never)]
fn lab_parser<'a>(alloc: Global) -> Result<Parser<'a>, AllocError>
    ensures { IfOk result (λ parser. app_of parser ≡ lab) }
{
    let parser = parser_of_file(alloc, "lab", LOAD, ABOUT_LAB, AFTER_LAB)?;
    let parser = with_option(parser, alloc, "variants", "FILE", VARIANTS)?;
    let parser = with_table_forms(parser, alloc)?;
    with_option(parser, alloc, "script", "NAME", SCRIPT_OF)
}

/// Adds `[--per-cpu] [--csv] [--picture]`, by which a comparison of the lab is told.
#[inline(never)]
fn with_table_forms<'a>(parser: Parser<'a>, alloc: Global) -> Result<Parser<'a>, AllocError>
    ensures { IfOk result (λ more. app_of more ≡ with_rule (with_rule
        (with_rule (app_of parser.entry) (flag (codes "per-cpu"))) (flag (codes "csv"))) (flag (codes "picture"))) }
{
    let parser = with_flag(parser, alloc, "per-cpu", EACH_CPU)?;
    let parser = with_flag(parser, alloc, "csv", CSV)?;
    with_flag(parser, alloc, "picture", WAITS)
}

/// The parser of `NAME [FILE]`; `file` tells what FILE is, `about` what the command does, and `after` stands behind its
/// help.
#[inline(never)]
fn parser_of_file<'a>(
    alloc: Global,
    name: &'static str,
    file: &'static str,
    about: &'static str,
    after: &'static str,
) -> Result<Parser<'a>, AllocError>
    ensures { IfOk result (λ parser. app_of parser ≡ of_file name.now) }
{
    let file = Arg::new(alloc, "FILE").help(file);
    Parser::new(alloc, name)
        .about(about)
        .after_help(after)
        .arg(file)
}

/// Adds the flag `--NAME`.
#[inline(never)]
fn with_flag<'a>(
    parser: Parser<'a>,
    alloc: Global,
    name: &'static str,
    help: &'static str,
) -> Result<Parser<'a>, AllocError>
    ensures { IfOk result (λ more. app_of more ≡ with_rule (app_of parser.entry) (flag name.now)) }
{
    parser.arg(flag_of(alloc, name, help))
}

/// Adds the flag `--NAME`, which counts how often it stands there.
#[inline(never)]
fn with_counted_flag<'a>(
    parser: Parser<'a>,
    alloc: Global,
    name: &'static str,
    help: &'static str,
) -> Result<Parser<'a>, AllocError>
    ensures { IfOk result (λ more. app_of more ≡ with_rule (app_of parser.entry) (counted_flag name.now)) }
{
    parser.arg(counted_flag_of(alloc, name, help))
}

/// Adds the option `--NAME VALUE`.
#[inline(never)]
fn with_option<'a>(
    parser: Parser<'a>,
    alloc: Global,
    name: &'static str,
    value: &'static str,
    help: &'static str,
) -> Result<Parser<'a>, AllocError>
    ensures { IfOk result (λ more. app_of more ≡ with_rule (app_of parser.entry) (option name.now)) }
{
    parser.arg(option_of(alloc, name, value, help))
}

/// Adds the option `--limit SECONDS`.
#[inline(never)]
fn with_limit<'a>(parser: Parser<'a>, alloc: Global) -> Result<Parser<'a>, AllocError>
    ensures { IfOk result (λ more. app_of more ≡ with_rule (app_of parser.entry) limit) }
{
    parser.arg(limit_option(alloc))
}

/// Adds the option `--seed NUMBER`.
#[inline(never)]
fn with_seed<'a>(parser: Parser<'a>, alloc: Global) -> Result<Parser<'a>, AllocError>
    ensures { IfOk result (λ more. app_of more ≡ with_rule (app_of parser.entry) seed) }
{
    parser.arg(seed_option(alloc))
}

/// Adds the option `--runs NUMBER`.
#[inline(never)]
fn with_runs<'a>(parser: Parser<'a>, alloc: Global) -> Result<Parser<'a>, AllocError>
    ensures { IfOk result (λ more. app_of more ≡ with_rule (app_of parser.entry) runs) }
{
    parser.arg(runs_option(alloc))
}

/// The flag `--NAME`.
fn flag_of<'a>(alloc: Global, name: &'static str, help: &'static str) -> Arg<'a>
    ensures rule { rule_of result ≡ flag name.now }
    ensures local { result.global ≡ false }
{
    Arg::new(alloc, name)
        .long(name)
        .action(ArgAction::SetTrue)
        .help(help)
}

/// The flag `--NAME`, which counts how often it stands there.
fn counted_flag_of<'a>(alloc: Global, name: &'static str, help: &'static str) -> Arg<'a>
    ensures rule { rule_of result ≡ counted_flag name.now }
    ensures local { result.global ≡ false }
{
    Arg::new(alloc, name)
        .long(name)
        .action(ArgAction::Count)
        .help(help)
}

/// The option `--NAME VALUE`.
fn option_of<'a>(
    alloc: Global,
    name: &'static str,
    value: &'static str,
    help: &'static str,
) -> Arg<'a>
    ensures rule { rule_of result ≡ option name.now }
    ensures local { result.global ≡ false }
{
    Arg::new(alloc, name)
        .long(name)
        .value_name(value)
        .action(ArgAction::Set)
        .help(help)
}

/// The option `--limit SECONDS`.
fn limit_option<'a>(alloc: Global) -> Arg<'a>
    ensures rule { rule_of result ≡ limit }
    ensures local { result.global ≡ false }
{
    option_of(alloc, "limit", "SECONDS", LIMIT).value_parser(ValueParser::Unsigned(
        0,
        u32::MAX as u64,
    ))
}

/// The option `--seed NUMBER`.
fn seed_option<'a>(alloc: Global) -> Arg<'a>
    ensures rule { rule_of result ≡ seed }
    ensures local { result.global ≡ false }
{
    option_of(alloc, "seed", "NUMBER", SEED).value_parser(ValueParser::Unsigned(0, u64::MAX))
}

/// The option `--runs NUMBER`.
fn runs_option<'a>(alloc: Global) -> Arg<'a>
    ensures rule { rule_of result ≡ runs }
    ensures local { result.global ≡ false }
{
    option_of(alloc, "runs", "NUMBER", RUNS).value_parser(ValueParser::Unsigned(
        1,
        MOST_RUNS as u64,
    ))
}
