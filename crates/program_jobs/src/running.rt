//! A run of the whole program, with any writers, and with anything that opens files and binds
//! sockets.
ghost use Rattle.std.specs.Prelude.{◌≡◌, IfOk, IfErr, map, string_bytes};
ghost use Rattle.std.specs.Fn.{FnOnceReturnsAt, FnReturnsAt};
ghost use Rattle.std.specs.IoError.{error_kind};
ghost use Rattle.std.specs.Process.{exit_status};
ghost use Rattle.program_jobs.specs.Running.{AreOpened, FailsForOne, Finds};
ghost use Rattle.program_jobs.specs.Running.{IsOpenFailure, Opened, OpensFile, OpensFiles};
ghost use Rattle.program_jobs.specs.Running.{RunsWords, StopTold, Unread};
ghost use Rattle.program_jobs.specs.Texts.{sources_of};

use crate::acting::{Writers, act, finish};
use crate::failure::Failure;
use crate::socket::{BoundSocket, run_over_socket};
use crate::tables::TablesFile;
use program_arguments::{Job, Stop, job_of, status};
use program_stream::{write_through, write_whole};
use std::alloc::Global;
use std::io::{self, Eprint, ErrorKind, Read, Write};
use std::process::{ExitCode, Termination};

/// The message for words that are not text.
const NO_TEXT: &[u8] = b"error: a word of the command line is not UTF-8\n";

/// How a run ended; the program's exit status. Only `run` makes one.
#[derive(Debug, Drop)]
pub struct ExitStatus {
    status: u8,
}

impl Termination for ExitStatus {
    fn report<R: Eprint>(self, _rt: &R) -> ExitCode
        ensures { exit_status result ≡ self.status }
    {
        ExitCode::from(self.status)
    }
}

/// Does what the words of a command line ask for; the first word is the program's name.
///
/// `finder` returns the names of the files with the table texts that a word names. `openers` opens
/// what a job reads, all of it before any is read: the first the files, the second the recording of
/// a stream. `binder` binds the socket of a job that needs one. Help and the version are printed
/// like a job's output.
pub fn run<R, L, F, G, S, B, O, E>(
    alloc: Global,
    words: io::Result<Vec<String>>,
    finder: L,
    openers: (F, G),
    binder: B,
    writers: &mut Writers<O, E>,
) -> ExitStatus
where
    R: Read + Drop,
    L: Fn(&str) -> io::Result<Vec<String>>,
    F: Fn(&str) -> io::Result<R>,
    G: Fn(&str) -> io::Result<R>,
    S: BoundSocket,
    B: FnOnce(&str) -> io::Result<S>,
    O: Write,
    E: Write,
    requires finds { L.IsAlwaysCallable finder }
    requires opens { F.IsAlwaysCallable openers.0 }
    requires streams { G.IsAlwaysCallable openers.1 }
    requires binds { B.IsAlwaysCallable binder }
    ensures { RunsWords words R.remaining O.contents E.contents (FnReturnsAt L.Fn finder)
        (FnReturnsAt F.Fn openers.0) (FnReturnsAt G.Fn openers.1) (FnOnceReturnsAt B.FnOnce binder)
        S.removes writers.old.out writers.new.out writers.old.err writers.new.err
        result.status }
{
    let status = match words {
        Ok(words) => match job_of(alloc, words.as_slice()) {
            Ok(job) => run_job(alloc, &job, finder, openers, binder, writers),
            Err(stop) => report_stop(&stop, writers),
        },
        Err(error) => not_read(&error, &mut writers.err),
    };
    ExitStatus { status }
}

/// Reports why the words of a command line could not be read, and returns the status.
fn not_read<E: Write>(error: &io::Error, err: &mut E) -> u8
    ensures { Unread E.contents (error_kind error.now) err.old err.new result }
{
    if error.kind() == ErrorKind::OutOfMemory {
        return Failure::Memory.report(err);
    }
    let _ = write_whole(err, NO_TEXT);
    status::BAD_COMMAND_LINE
}

/// Prints help or the version to `out`, and anything else to `err`, and returns the exit status:
/// that of the stop, or 3 if `out` does not take the text.
fn report_stop<O: Write, E: Write>(stop: &Stop, writers: &mut Writers<O, E>) -> u8
    ensures { StopTold O.contents E.contents stop.now writers.old.out writers.new.out
        writers.old.err writers.new.err result }
{
    match stop.status {
        status::SUCCESS => match write_through(&mut writers.out, stop.text.as_str().as_bytes()) {
            Ok(()) => status::SUCCESS,
            Err(_) => Failure::CannotWrite.report(&mut writers.err),
        },
        status::OUT_OF_MEMORY => Failure::Memory.report(&mut writers.err),
        status => {
            let _ = write_whole(&mut writers.err, stop.text.as_str().as_bytes());
            status
        }
    }
}

/// Why a file of this name could not be opened.
fn open_failure<'a>(name: &'a str, error: &io::Error) -> Failure<'a>
    ensures { IsOpenFailure name.entry.now (error_kind error.now) result }
{
    if error.kind() == ErrorKind::OutOfMemory {
        return Failure::Memory;
    }
    Failure::CannotRead(name)
}

/// Opens what the job reads, or binds its socket, does it, and returns the status.
fn run_job<R, L, F, G, S, B, O, E>(
    alloc: Global,
    job: &Job,
    finder: L,
    openers: (F, G),
    binder: B,
    writers: &mut Writers<O, E>,
) -> u8
where
    R: Read + Drop,
    L: Fn(&str) -> io::Result<Vec<String>>,
    F: Fn(&str) -> io::Result<R>,
    G: Fn(&str) -> io::Result<R>,
    S: BoundSocket,
    B: FnOnce(&str) -> io::Result<S>,
    O: Write,
    E: Write,
    requires finds { L.IsAlwaysCallable finder }
    requires opens { F.IsAlwaysCallable openers.0 }
    requires streams { G.IsAlwaysCallable openers.1 }
    requires binds { B.IsAlwaysCallable binder }
    ensures { Opened R.remaining O.contents E.contents (FnReturnsAt L.Fn finder)
        (FnReturnsAt F.Fn openers.0) (FnReturnsAt G.Fn openers.1) (FnOnceReturnsAt B.FnOnce binder)
        S.removes job.now writers.old.out writers.new.out writers.old.err writers.new.err result }
{
    let (opener, streamer) = (&openers.0, &openers.1);
    match job {
        Job::Trace { tables, file, .. } | Job::Check { tables, file, .. } => {
            let names = (tables, file);
            run_over_files(alloc, job, names, &finder, (opener, opener), writers)
        }
        Job::Stream { tables, file, .. } => {
            let names = (tables, file);
            run_over_files(alloc, job, names, &finder, (opener, streamer), writers)
        }
        Job::Demo { .. } => {
            let none: Vec<TablesFile<'_, io::Empty>> = Vec::new(alloc);
            act(alloc, alloc, job, none, &mut io::empty(), writers)
        }
        Job::Socket { path } => match binder(path.as_str()) {
            Ok(bound) => finish(run_over_socket(alloc, alloc, bound), writers),
            Err(error) => Failure::of_socket(&error).report(&mut writers.err),
        },
    }
}

/// Finds the table texts that these words name, opens them, does the job with them and with the
/// recording that `recorder` opens, and returns the status.
fn run_over_files<R, L, F, G, O, E>(
    alloc: Global,
    job: &Job,
    names: (&Vec<String>, &String),
    finder: &L,
    openers: (&F, &G),
    writers: &mut Writers<O, E>,
) -> u8
where
    R: Read + Drop,
    L: Fn(&str) -> io::Result<Vec<String>>,
    F: Fn(&str) -> io::Result<R>,
    G: Fn(&str) -> io::Result<R>,
    O: Write,
    E: Write,
    requires finds { L.IsAlwaysCallable finder.now }
    requires opens { F.IsAlwaysCallable openers.0.now }
    requires records { G.IsAlwaysCallable openers.1.now }
    ensures { OpensFiles R.remaining O.contents E.contents (FnReturnsAt L.Fn finder.now)
        (FnReturnsAt F.Fn openers.entry.0.now) (FnReturnsAt G.Fn openers.entry.1.now) job.now
        (map string_bytes names.entry.0.now.items) (string_bytes names.entry.1.now)
        writers.old.out writers.new.out writers.old.err writers.new.err result }
{
    let (tables, name) = names;
    let (opener, recorder) = openers;
    match all_found(alloc, tables.as_slice(), finder) {
        Ok(found) => match all_opened(alloc, found.as_slice(), opener) {
            Ok(files) => run_over_file(alloc, job, files, name, recorder, writers),
            Err(failure) => failure.report(&mut writers.err),
        },
        Err(failure) => failure.report(&mut writers.err),
    }
}

/// The names of the files that hold the table texts that these words name, in their order.
fn all_found<'a, L>(
    alloc: Global,
    words: &'a [String],
    finder: &L,
) -> Result<Vec<String>, Failure<'a>>
where
    L: Fn(&str) -> io::Result<Vec<String>>,
    requires { L.IsAlwaysCallable finder.now }
    ensures found { IfOk result (λ found. Finds (FnReturnsAt L.Fn finder.now)
        (map string_bytes words.now) (map string_bytes found.items)) }
    ensures refused { IfErr result (FailsForOne (FnReturnsAt L.Fn finder.now)
        (map string_bytes words.now)) }
{
    let mut all = Vec::new(alloc);
    'words: for word in words {
        match finder(word.as_str()) {
            Ok(mut found) => all.append(&mut found)?,
            Err(error) => return Err(open_failure(word.as_str(), &error)),
        }
    }
    Ok(all)
}

/// The files of these names, opened in their order.
fn all_opened<'a, R, F>(
    alloc: Global,
    names: &'a [String],
    opener: &F,
) -> Result<Vec<TablesFile<'a, R>>, Failure<'a>>
where
    R: Read + Drop,
    F: Fn(&str) -> io::Result<R>,
    requires { F.IsAlwaysCallable opener.now }
    ensures opened { IfOk result (λ files. AreOpened (FnReturnsAt F.Fn opener.now)
        (map string_bytes names.now) files.items) }
    ensures refused { IfErr result (FailsForOne (FnReturnsAt F.Fn opener.now)
        (map string_bytes names.now)) }
{
    let mut files = Vec::new(alloc);
    'names: for word in names {
        let name = word.as_str();
        match opener(name) {
            Ok(file) => files.push(TablesFile { name, file })?,
            Err(error) => return Err(open_failure(name, &error)),
        }
    }
    Ok(files)
}

/// Opens the recording of this name, does the job with it and its tables, and returns the status.
fn run_over_file<T, R, F, O, E>(
    alloc: Global,
    job: &Job,
    tables: Vec<TablesFile<'_, T>>,
    name: &String,
    opener: &F,
    writers: &mut Writers<O, E>,
) -> u8
where
    T: Read + Drop,
    R: Read + Drop,
    F: Fn(&str) -> io::Result<R>,
    O: Write,
    E: Write,
    requires opens { F.IsAlwaysCallable opener.now }
    ensures { OpensFile R.remaining O.contents E.contents (FnReturnsAt F.Fn opener.now) job.now
        (sources_of T.remaining tables.entry.items) (string_bytes name.now) writers.old.out
        writers.new.out writers.old.err writers.new.err result }
{
    match opener(name.as_str()) {
        Ok(mut file) => act(alloc, alloc, job, tables, &mut file, writers),
        Err(error) => open_failure(name.as_str(), &error).report(&mut writers.err),
    }
}
