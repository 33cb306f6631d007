//! What the words of a command line ask for.
ghost use Rattle.std.specs.Prelude.{◌≡◌, ◌≢◌, [], IfOk, IfErr, false, true, option_map};
ghost use Rattle.std.specs.Prelude.{map, string_bytes};
ghost use Rattle.clap.specs.Words.{App, HasKind, app_of, fault_of, first_of, found_of, kind_of};
ghost use Rattle.clap.specs.Words.{rows_of, rule_of, subcommand_of, subcommand_rows_of};
ghost use Rattle.clap.specs.Words.{with_subcommand};
ghost use Rattle.std.specs.Cow.{cow_str_bytes};
ghost use Rattle.program_arguments.specs.Asking.{Asks, AsksHelp, HasFault, IsAnswer, IsJobFor};
ghost use Rattle.program_arguments.specs.Asking.{IsLimitOf};
ghost use Rattle.program_arguments.specs.Asking.{IsNumber, IsOutOfMemory, NamesJob, NamesNone};
ghost use Rattle.program_arguments.specs.Asking.{IsReading, IsSet, inspect_argument, reading_name};
ghost use Rattle.program_arguments.specs.Asking.{Says, Stops, StopsFor, StopsWith, check_command};
ghost use Rattle.program_arguments.specs.Asking.{command_line, demo_command, file_argument};
ghost use Rattle.program_arguments.specs.Asking.{given_for, limit_argument, path_argument};
ghost use Rattle.program_arguments.specs.Asking.{piece_argument, recording_command};
ghost use Rattle.program_arguments.specs.Asking.{stream_argument};
ghost use Rattle.program_arguments.specs.Asking.{socket_command, tables_argument, texts_of};
ghost use Rattle.program_arguments.specs.Asking.{trace_command};

use crate::status;
use clap::error::ErrorKind;
use clap::{Arg, ArgAction, ArgMatches, Command, Error};
use std::alloc::{AllocError, Global};
use std::borrow::CowStr;
use wl_message::Limit;

/// The most bytes that the demonstration carries at once, by default.
const MOST_PIECE: &str = "4096";

/// The longest message in bytes, by default.
const USUAL_LIMIT: &str = "4096";

/// The version of this program and of the library, which `make` also puts into the header.
const VERSION: &str = "0.2.0";

/// The message for a command line that the parser accepts although it is wrong: the parser takes
/// any number in range for a limit, and any switches together.
const USAGE: &str = "error: no command of this program, or a limit that is no multiple of 4, \
     or --inspect with --stream\n\nUsage: waywire <COMMAND>\n";

/// One run of the program.
#[derive(Debug, Drop)]
pub enum Job {
    /// Print each message of the recording in the file of this name and, if a rule is broken, which
    /// one. `tables` names table texts, and folders of them, which are read first; their interfaces
    /// are added to the core ones. `limit` is the longest message.
    Trace {
        tables: Vec<String>,
        limit: Limit,
        file: String,
    },
    /// Print whether the recording in the file of this name is lawful, with the same tables and
    /// limit; or, if `inspects`, the verdict of `waywire-inspect` on it.
    Check {
        inspects: bool,
        tables: Vec<String>,
        limit: Limit,
        file: String,
    },
    /// Print the same as `Trace` (if `prints_lines`) or `Check` of a recording of any length, which
    /// is judged while it is read. The name `-` is that of standard input.
    Stream {
        prints_lines: bool,
        tables: Vec<String>,
        limit: Limit,
        file: String,
    },
    /// Print a session of both ends, in which at most this many bytes (1 to 4096) are carried at
    /// once.
    Demo {
        piece: u32,
    },
    /// Print the same session, played over a Unix socket that is bound to this path and removed at
    /// the end.
    Socket {
        path: String,
    },
}

/// Why there is no job.
#[derive(Debug, Drop)]
pub struct Stop {
    /// The exit status: 0 if help or the version was asked for, 2 if the command line is wrong, 4
    /// for lack of memory.
    pub status: u8,
    /// What to print: help and the version to standard output, a fault to standard error. It is
    /// empty only for lack of memory.
    pub text: CowStr<'static, Global>,
}

fn command<'a>(alloc: Global) -> Result<Command<'a>, AllocError>
    ensures { IfOk result (λ c. app_of c ≡ command_line) }
{
    let program = Command::new(alloc, "waywire")
        .bin_name("waywire")?
        .about("Recorded sessions of Wayland clients, as text")
        .version(VERSION)
        .subcommand_required(true);
    let program = added(program, trace(alloc))?;
    let program = added(program, check(alloc))?;
    let program = added(program, demo(alloc))?;
    added(program, socket(alloc))
}

/// The program with one more command, if that could be made.
fn added<'a>(
    program: Command<'a>,
    command: Result<Command<'a>, AllocError>,
) -> Result<Command<'a>, AllocError>
    ensures { (others one : App) → app_of program.entry ≡ others
        → IfOk command.entry (λ c. app_of c ≡ one) → one.top.is_plain ≡ true
        → IfOk result (λ c. app_of c ≡ with_subcommand others one.top) }
{
    let command = command?;
    program.subcommand(command)
}

fn trace<'a>(alloc: Global) -> Result<Command<'a>, AllocError>
    ensures { IfOk result (λ c. app_of c ≡ trace_command) }
{
    of_recording(
        alloc,
        "trace",
        "Prints each message of a recording, one a line",
    )
}

fn check<'a>(alloc: Global) -> Result<Command<'a>, AllocError>
    ensures { IfOk result (λ c. app_of c ≡ check_command) }
{
    let command = of_recording(
        alloc,
        "check",
        "Prints whether a recording is a lawful session",
    )?;
    command.arg(inspect(alloc))
}

/// A command of this name that reads a recording.
fn of_recording<'a>(alloc: Global, name: &'a str, about: &'a str) -> Result<Command<'a>, AllocError>
    ensures { IfOk result (λ c. app_of c ≡ recording_command name.entry.now) }
{
    Command::new(alloc, name)
        .about(about)
        .arg(tables(alloc))?
        .arg(limit(alloc))?
        .arg(stream(alloc))?
        .arg(file(alloc))
}

fn demo<'a>(alloc: Global) -> Result<Command<'a>, AllocError>
    ensures { IfOk result (λ c. app_of c ≡ demo_command) }
{
    Command::new(alloc, "demo")
        .about("Runs a client against a server and prints their session")
        .arg(piece(alloc))
}

fn socket<'a>(alloc: Global) -> Result<Command<'a>, AllocError>
    ensures { IfOk result (λ c. app_of c ≡ socket_command) }
{
    Command::new(alloc, "socket")
        .about("Runs the session of `demo` over a Unix socket and prints it")
        .arg(path(alloc))
}

/// The argument that names a table text.
fn tables<'a>(alloc: Global) -> Arg<'a>
    ensures rule { rule_of result ≡ tables_argument }
    ensures local { result.global ≡ false }
{
    Arg::new(alloc, "tables")
        .long("tables")
        .value_name("FILE")
        .action(ArgAction::Append)
        .help("Further interfaces: a table text, or a folder of *.tables; may be repeated")
}

/// The argument that says how long a message may be.
fn limit<'a>(alloc: Global) -> Arg<'a>
    ensures rule { rule_of result ≡ limit_argument }
    ensures local { result.global ≡ false }
{
    Arg::new(alloc, "limit")
        .long("limit")
        .value_name("N")
        .value_parser(clap::value_parser!(u32).range(4096..=65532))
        .default_value(USUAL_LIMIT)
        .help("The most bytes of a message, a multiple of 4 from 4096 to 65532")
}

/// The switch for a recording of any length.
fn stream<'a>(alloc: Global) -> Arg<'a>
    ensures rule { rule_of result ≡ stream_argument }
    ensures local { result.global ≡ false }
{
    Arg::new(alloc, "stream")
        .long("stream")
        .action(ArgAction::SetTrue)
        .help("Judge a recording of any length while it is read; FILE may be - for standard input")
}

/// The switch for the verdict of `waywire-inspect`.
fn inspect<'a>(alloc: Global) -> Arg<'a>
    ensures rule { rule_of result ≡ inspect_argument }
    ensures local { result.global ≡ false }
{
    Arg::new(alloc, "inspect")
        .long("inspect")
        .action(ArgAction::SetTrue)
        .help("Print the verdict of waywire-inspect: what the tables lack is not judged")
}

/// The argument that names a recording.
fn file<'a>(alloc: Global) -> Arg<'a>
    ensures rule { rule_of result ≡ file_argument }
    ensures local { result.global ≡ false }
{
    Arg::new(alloc, "FILE")
        .required(true)
        .help("The recording: one piece a line, `> HEX` or `< HEX`")
}

/// The argument that says how much is carried at once.
fn piece<'a>(alloc: Global) -> Arg<'a>
    ensures rule { rule_of result ≡ piece_argument }
    ensures local { result.global ≡ false }
{
    Arg::new(alloc, "piece")
        .long("piece")
        .value_name("N")
        .value_parser(clap::value_parser!(u32).range(1..=4096))
        .default_value(MOST_PIECE)
        .help("The most bytes carried at once, from 1 to 4096")
}

/// The argument that says where the socket is bound.
fn path<'a>(alloc: Global) -> Arg<'a>
    ensures rule { rule_of result ≡ path_argument }
    ensures local { result.global ≡ false }
{
    Arg::new(alloc, "PATH")
        .required(true)
        .help("The path to bind the socket at; it must not exist yet")
}

/// The word that a command was given for the argument of this name, or none.
fn word_of(
    alloc: Global,
    matches: &ArgMatches<'_>,
    name: &str,
) -> Result<Option<String>, AllocError>
    ensures { IfOk result (λ r. option_map string_bytes r
        ≡ first_of name.now (rows_of (found_of matches.now))) }
{
    match matches.get_str(name) {
        Some(word) => Ok(Some(String::from_str(alloc, word)?)),
        None => Ok(None),
    }
}

/// All words that a command was given for the argument of this name, in their order.
fn words_of(alloc: Global, matches: &ArgMatches<'_>, name: &str) -> Result<Vec<String>, AllocError>
    ensures { IfOk result (λ r. map string_bytes r.items
        ≡ given_for name.now (rows_of (found_of matches.now))) }
{
    match matches.get_strs(name) {
        Some(words) => texts(alloc, words),
        None => Ok(Vec::new(alloc)),
    }
}

/// Copies of words.
fn texts(alloc: Global, words: &[&str]) -> Result<Vec<String>, AllocError>
    ensures { IfOk result (λ r. map string_bytes r.items ≡ map (λ word. word.now) words.now) }
{
    let mut copies = Vec::new(alloc);
    'words: for word in words {
        copies.push(String::from_str(alloc, word)?)?;
    }
    Ok(copies)
}

/// The number that a command was given for the argument of this name, or none.
fn number_of(matches: &ArgMatches<'_>, name: &str) -> Option<u32>
    ensures { IsNumber name.now (rows_of (found_of matches.now)) result }
{
    matches.get_one(name)
}

/// The limit of the number that a command was given for it, or none.
fn limit_of(matches: &ArgMatches<'_>) -> Option<Limit>
    ensures { IsLimitOf (rows_of (found_of matches.now)) result }
{
    match number_of(matches, "limit") {
        Some(bytes) => Limit::new(bytes),
        None => None,
    }
}

/// Whether a command was given the switch of this name.
fn is_set(matches: &ArgMatches<'_>, name: &str) -> bool
    ensures { IsSet name.now (rows_of (found_of matches.now)) result }
{
    match matches.get_str(name) {
        Some(word) => word == "true",
        None => false,
    }
}

/// The job of a command that reads a recording.
fn reading_job(
    prints_lines: bool,
    is_streamed: bool,
    inspects: bool,
    tables: Vec<String>,
    limit: Limit,
    file: String,
) -> Job
    ensures { IsReading prints_lines is_streamed inspects tables limit file result }
{
    if is_streamed {
        return Job::Stream {
            prints_lines,
            tables,
            limit,
            file,
        };
    }
    if prints_lines {
        Job::Trace {
            tables,
            limit,
            file,
        }
    } else {
        Job::Check {
            inspects,
            tables,
            limit,
            file,
        }
    }
}

/// The job that a command asks for that reads a recording, or none.
fn reading(
    alloc: Global,
    given: &ArgMatches<'_>,
    prints_lines: bool,
) -> Result<Option<Job>, AllocError>
    ensures { IfOk result (IsJobFor (reading_name prints_lines) (rows_of (found_of given.now))) }
{
    let Some(limit) = limit_of(given) else {
        return Ok(None);
    };
    let Some(file) = word_of(alloc, given, "FILE")? else {
        return Ok(None);
    };
    let is_streamed = is_set(given, "stream");
    let inspects = is_set(given, "inspect");
    if is_streamed && inspects {
        return Ok(None);
    }
    let tables = words_of(alloc, given, "tables")?;
    Ok(Some(reading_job(prints_lines, is_streamed, inspects, tables, limit, file)))
}

/// The job that a command with this name asks for with its arguments, or none.
fn named(alloc: Global, name: &str, given: &ArgMatches<'_>) -> Result<Option<Job>, AllocError>
    ensures { IfOk result (IsJobFor name.now (rows_of (found_of given.now))) }
{
    match name {
        "trace" => reading(alloc, given, true),
        "check" => reading(alloc, given, false),
        "demo" => Ok(number_of(given, "piece").map(|piece| Job::Demo { piece })),
        "socket" => Ok(word_of(alloc, given, "PATH")?.map(|path| Job::Socket { path })),
        _ => Ok(None),
    }
}

/// The job that a parsed command line asks for, or none.
fn chosen(alloc: Global, matches: &ArgMatches<'_>) -> Result<Option<Job>, AllocError>
    ensures { IfOk result (NamesJob (subcommand_rows_of matches.now)) }
{
    match matches.subcommand() {
        Some((name, given)) => named(alloc, name, given),
        None => Ok(None),
    }
}

/// The job that the words ask for; `None` if they were parsed and name no job.
fn parsed(alloc: Global, words: &[String]) -> Result<Option<Job>, Error>
    ensures asked { IfOk result (λ r. (fault_of command_line (texts_of words.now) ≡ [])
        × NamesJob (subcommand_of command_line (texts_of words.now)) r) }
    ensures fault { IfErr result (HasKind (fault_of command_line (texts_of words.now))) }
{
    let matches = command(alloc)?.try_get_matches_from(words)?;
    Ok(chosen(alloc, &matches)?)
}

fn no_memory() -> Stop
    ensures { IsOutOfMemory result }
{
    Stop {
        status: status::OUT_OF_MEMORY,
        text: CowStr::Borrowed(""),
    }
}

/// A stop for words that name no job, although the parser accepts them.
fn no_job() -> Stop
    ensures { Says 2 result }
{
    Stop {
        status: status::BAD_COMMAND_LINE,
        text: CowStr::Borrowed(USAGE),
    }
}

/// A stop with the parser's text, or with `USAGE` if that is empty.
fn stopped(status: u8, text: String) -> Stop
    ensures says { Says status result }
    ensures kept { string_bytes text ≢ [] → cow_str_bytes result.text ≡ string_bytes text }
{
    if text.is_empty() {
        return Stop {
            status,
            text: CowStr::Borrowed(USAGE),
        };
    }
    Stop {
        status,
        text: CowStr::Owned(text),
    }
}

fn stop_of(alloc: Global, error: &Error) -> Stop
    ensures { StopsFor (kind_of error.now) result }
{
    if matches!(error.kind(), ErrorKind::OutOfMemory) {
        return no_memory();
    }
    let status = if error.use_stderr() { 2 } else { 0 };
    match error.to_string(alloc) {
        Ok(text) => stopped(status, text),
        Err(_) => no_memory(),
    }
}

/// The job that was parsed, or why there is none.
fn answer(alloc: Global, parsed: Result<Option<Job>, Error>) -> Result<Job, Stop>
    ensures { IsAnswer parsed result }
{
    match parsed {
        Ok(Some(job)) => Ok(job),
        Ok(None) => Err(no_job()),
        Err(error) => Err(stop_of(alloc, &error)),
    }
}

/// The job that a command line asks for. The first word is the program's name.
///
/// Help and the version are no job: they stop with status 0. An unknown command, and too many or
/// too few words, stop with status 2.
pub fn job_of(alloc: Global, words: &[String]) -> Result<Job, Stop>
    ensures asked { IfOk result (Asks (texts_of words.now)) }
    ensures stopped { IfErr result (Stops (texts_of words.now)) }

    // and each cause has its status, except for lack of memory
    ensures helped { AsksHelp (texts_of words.now) → (HasFault (texts_of words.now) → ⊥)
        → StopsWith 0 result }
    ensures faulty { HasFault (texts_of words.now) → (AsksHelp (texts_of words.now) → ⊥)
        → StopsWith 2 result }
    ensures none { NamesNone (texts_of words.now) → StopsWith 2 result }
    ensures job { (job : Job) → Asks (texts_of words.now) job → IfErr result IsOutOfMemory }
{
    answer(alloc, parsed(alloc, words))
}
