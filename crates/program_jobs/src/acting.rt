//! Doing a job with any reader and writers.
ghost use Rattle.std.specs.Prelude.{◌≡◌, ◌≤◌, ◌⊎◌, ℕ, IfOk, IfErr, IsErr, Option, Some, List, ◌≢◌};
ghost use Rattle.program_arguments.specs.declared.job.Job.{Job};
ghost use Rattle.program_jobs.specs.Failing.{IsReadFailure, IsRecordingFailure, IsRefusal};
ghost use Rattle.program_jobs.specs.Output.{Acted, ChecksAs, IsChecked, IsDone, IsHinted};
ghost use Rattle.program_jobs.specs.Output.{IsInspected, IsRefused, IsTraced, ReadsFile, Streams};
ghost use Rattle.program_jobs.specs.Texts.{IsFileRead, Source, sources_of};
ghost use Rattle.wl_recording.specs.Text.{IsFirstBad};

use crate::failure::Failure;
use crate::finding::{lacking_of, status_by, write_finding};
use crate::hint::{hint_on, requests_of};
use crate::inspecting::inspect;
use crate::streaming::{Stream, judge};
use crate::tables::{TablesFile, load_tables};
use crate::verdict::{status_of, write_broken};
use program_arguments::{Job, status};
use program_demo::demo;
use program_stream::{write_through, write_whole};
use std::alloc::{Allocator, Global};
use std::io::{ErrorKind, Read, Write};
use wl_check::{check_text, trace_text, write_verdict};
use wl_message::Limit;
use wl_recording::Recording;
use wl_sigs::Tables;

/// The most bytes of a file.
const MAX_FILE_BYTES: u64 = 16_777_216;

/// The destinations of a job's output.
#[derive(Drop)]
pub struct Writers<O, E> {
    /// For what the job prints.
    pub out: O,
    /// For failures and faults of usage.
    pub err: E,
}

/// All that a job prints, and its exit status.
#[derive(Debug, Drop)]
pub(crate) struct Printed<A: Allocator> {
    pub(crate) text: Vec<u8, A>,
    /// A line for standard error after it, or nothing.
    pub(crate) hint: Vec<u8, A>,
    pub(crate) status: u8,
    ghost known: { status ≤ 1 },
}

/// All that the reader returns, at most `MAX_FILE_BYTES`. One byte more is read to check that.
pub(crate) fn contents<'a, A: Allocator, R: Read>(
    alloc: A,
    name: &'a str,
    file: &mut R,
) -> Result<Vec<u8, A>, Failure<'a>>
    ensures whole { IfOk result (λ bytes. IsFileRead (R.remaining file.old) bytes.items) }
    ensures refused { IfErr result (IsReadFailure name.entry.now (R.remaining file.old)) }
{
    let mut bytes = Vec::new(alloc);
    match file.take(MAX_FILE_BYTES + 1).read_to_end(&mut bytes) {
        Ok(_) if bytes.len() as u64 <= MAX_FILE_BYTES => Ok(bytes),
        Ok(_) => Err(Failure::TooLong),
        Err(error) => match error.kind() {
            ErrorKind::OutOfMemory => Err(Failure::Memory),
            _ => Err(Failure::CannotRead(name)),
        },
    }
}

/// The whole of a recording that is no stream.
fn recording<'a, A: Allocator, R: Read>(
    alloc: A,
    name: &'a str,
    file: &mut R,
) -> Result<Vec<u8, A>, Failure<'a>>
    ensures whole { IfOk result (λ bytes. IsFileRead (R.remaining file.old) bytes.items) }
    ensures refused { IfErr result (IsRecordingFailure name.entry.now (R.remaining file.old)) }
{
    match contents(alloc, name, file) {
        Ok(bytes) => Ok(bytes),
        Err(Failure::TooLong) => Err(Failure::LongRecording),
        Err(failure) => Err(failure),
    }
}

/// The line of the verdict on a recording, or of that of `waywire-inspect`.
fn checked<'a, A: Allocator>(
    alloc: &'a A,
    global: Global,
    inspects: bool,
    tables: &Tables,
    limit: Limit,
    text: &[u8],
) -> Result<Printed<&'a A>, Failure<'static>>
    ensures line { IfOk result (λ o. ChecksAs inspects limit.bytes tables.now text.now o.text.items
        o.hint.items o.status) }
    ensures refused { IfErr result (IsRefusal text.now) }
    ensures bad { (n : ℕ) → IsFirstBad text.now n → IsErr result }
{
    if inspects {
        inspected(alloc, global, tables, limit, text)
    } else {
        judged(alloc, tables, limit, text)
    }
}

/// The line of the verdict on a recording.
fn judged<'a, A: Allocator>(
    alloc: &'a A,
    tables: &Tables,
    limit: Limit,
    text: &[u8],
) -> Result<Printed<&'a A>, Failure<'static>>
    ensures line { IfOk result (λ o. IsChecked limit.bytes tables.now text.now o.text.items
        o.hint.items o.status) }
    ensures refused { IfErr result (IsRefusal text.now) }
    ensures bad { (n : ℕ) → IsFirstBad text.now n → IsErr result }
{
    let verdict = check_text(alloc, text, tables, limit)?;
    let hint = hint_on(alloc, tables, text, &verdict)?;
    let mut text = Vec::new(alloc);
    write_verdict(&mut text, &verdict)?;
    Ok(Printed {
        text,
        hint,
        status: status_of(&verdict),
    })
}

/// The line of the verdict of `waywire-inspect` on a recording.
fn inspected<'a, A: Allocator>(
    alloc: &'a A,
    global: Global,
    tables: &Tables,
    limit: Limit,
    text: &[u8],
) -> Result<Printed<&'a A>, Failure<'static>>
    ensures line { IfOk result (λ o. IsInspected limit.bytes tables.now text.now o.text.items
        o.hint.items o.status) }
    ensures refused { IfErr result (IsRefusal text.now) }
    ensures bad { (n : ℕ) → IsFirstBad text.now n → IsErr result }
{
    let recording = Recording::parse(global, text)?;
    let (verdict, noted) = inspect(global, tables, limit, &recording)?;
    let requests = requests_of(alloc, &recording)?;
    let lacking = lacking_of(tables, &requests, noted.is_announced, &verdict);
    let mut line = Vec::new(alloc);
    write_finding(&mut line, &lacking, &verdict, &noted)?;
    Ok(Printed {
        text: line,
        hint: Vec::new(alloc),
        status: status_by(&lacking, &verdict, &noted),
    })
}

/// The lines of a recording's messages, followed by the verdict's line if a rule is broken.
fn traced<'a, A: Allocator>(
    alloc: &'a A,
    tables: &Tables,
    limit: Limit,
    text: &[u8],
) -> Result<Printed<&'a A>, Failure<'static>>
    ensures lines { IfOk result (λ o. IsTraced limit.bytes tables.now text.now o.text.items
        o.hint.items o.status) }
    ensures refused { IfErr result (IsRefusal text.now) }
    ensures bad { (n : ℕ) → IsFirstBad text.now n → IsErr result }
{
    let (mut lines, verdict) = trace_text(alloc, text, tables, limit)?;
    let hint = hint_on(alloc, tables, text, &verdict)?;
    write_broken(&mut lines, &verdict)?;
    Ok(Printed {
        text: lines,
        hint,
        status: status_of(&verdict),
    })
}

/// What the job prints.
fn output<'a, 'b, A: Allocator, T: Read + Drop, R: Read>(
    alloc: &'a A,
    global: Global,
    job: &'b Job,
    tables: Vec<TablesFile<'b, T>>,
    file: &mut R,
) -> Result<Printed<&'a A>, Failure<'b>>
    requires { Streams job.now → ⊥ }
    ensures done { IfOk result (λ o. IsDone job.now (sources_of T.remaining tables.entry.items)
        (R.remaining file.old) o.text.items o.hint.items o.status) }
    ensures refused { IfErr result (IsRefused job.now (sources_of T.remaining tables.entry.items)
        (R.remaining file.old)) }
    ensures bad { (text : List ℕ) (n : ℕ) → R.remaining file.old ≡ Some text → IsFirstBad text n
        → ReadsFile job.now → IsErr result }
{
    match job {
        Job::Trace {
            tables: names,
            limit,
            file: name,
        } => {
            let tables = load_tables(alloc, global, names.as_slice(), tables)?;
            let text = recording(alloc, name.as_str(), file)?;
            traced(alloc, &tables, *limit, &text)
        }
        Job::Check {
            inspects,
            tables: names,
            limit,
            file: name,
        } => {
            let tables = load_tables(alloc, global, names.as_slice(), tables)?;
            let text = recording(alloc, name.as_str(), file)?;
            checked(alloc, global, *inspects, &tables, *limit, &text)
        }
        Job::Demo { piece } => {
            let text = demo(alloc, &Tables::core(global)?, *piece)?;
            Ok(Printed {
                text,
                hint: Vec::new(alloc),
                status: status::SUCCESS,
            })
        }
        Job::Socket { .. } | Job::Stream { .. } => Err(Failure::SocketFailed),
    }
}

/// Writes a hint to `err` (standard error), if there is one. If `err` fails, nothing more is
/// written.
fn say<E: Write>(err: &mut E, hint: &[u8])
    ensures { IsHinted E.contents hint.now err.old err.new }
{
    if !hint.is_empty() {
        let _ = write_whole(err, hint);
    }
}

/// Writes what a job prints to `out` and then its hint to `err`, or its failure to `err`. Returns
/// the exit status.
pub(crate) fn finish<A: Allocator, O: Write, E: Write>(
    output: Result<Printed<A>, Failure<'_>>,
    writers: &mut Writers<O, E>,
) -> u8
    ensures acted { (job : Job) (tables : List Source) (known : Option (List ℕ))
        → IfOk output.entry (λ o. IsDone job tables known o.text.items o.hint.items o.status)
        → IfErr output.entry (IsRefused job tables known)
        → Acted O.contents E.contents job tables known writers.old.out writers.new.out
        writers.old.err writers.new.err result }
    ensures refused { IsErr output.entry
        → ((result ≡ 3) ⊎ (result ≡ 4))
        × (O.contents writers.new.out ≡ O.contents writers.old.out) }
    ensures unwritten { result ≡ 4
        → O.contents writers.new.out ≡ O.contents writers.old.out }
    ensures statuses { (result ≤ 4) × (result ≢ 2) }
{
    match output {
        Ok(output) => match write_through(&mut writers.out, &output.text) {
            Ok(()) => {
                say(&mut writers.err, &output.hint);
                output.status
            }
            Err(_) => Failure::CannotWrite.report(&mut writers.err),
        },
        Err(failure) => failure.report(&mut writers.err),
    }
}

/// Does the job and returns the exit status: 0 or 1 if `out` has taken the whole output (1 if a
/// rule is broken); else the status of a `Failure`, whose line goes to `err`.
///
/// Nothing is written to `out` before the whole output is complete, except for the lines of a
/// stream. `tables` are the files with the job's table texts, and `file` has its recording, if it
/// reads these, the tables first. At most 16,777,217 bytes of each are read, and a stream to its
/// end. The signature tables are allocated in the global memory.
pub fn act<A: Allocator, T: Read + Drop, R: Read, O: Write, E: Write>(
    alloc: A,
    global: Global,
    job: &Job,
    tables: Vec<TablesFile<'_, T>>,
    file: &mut R,
    writers: &mut Writers<O, E>,
) -> u8
    // The output was written whole, and at most a hint to `err` (0 for a lawful session or a
    // demonstration, 1 for a broken session); or no output was written; or writing it failed, and
    // only a front part was written. In the last two cases the failure's line went to `err`. Of a
    // stream that ended early, the lines of the session so far were written.
    ensures acted { Acted O.contents E.contents job.now
        (sources_of T.remaining tables.entry.items) (R.remaining file.old) writers.old.out
        writers.new.out writers.old.err writers.new.err result }
    // A recording with a bad line is refused, if the job reads one. A stream may have printed the
    // lines before it.
    ensures bad { (text : List ℕ) (n : ℕ) → R.remaining file.old ≡ Some text → IsFirstBad text n
        → ReadsFile job.now
        → ((result ≡ 3) ⊎ (result ≡ 4))
        × (O.contents writers.new.out ≡ O.contents writers.old.out) }
    ensures bad_stream { (text : List ℕ) (n : ℕ) → R.remaining file.old ≡ Some text
        → IsFirstBad text n → Streams job.now → (result ≡ 3) ⊎ (result ≡ 4) }
    ensures unwritten { (Streams job.now → ⊥) → result ≡ 4
        → O.contents writers.new.out ≡ O.contents writers.old.out }
    ensures statuses { (result ≤ 4) × (result ≢ 2) }
{
    match job {
        Job::Stream {
            prints_lines,
            tables: names,
            limit,
            file: name,
        } => {
            let stream = Stream {
                prints_lines: *prints_lines,
                names: names.as_slice(),
                limit: *limit,
                name: name.as_str(),
            };
            judge(&alloc, global, &stream, tables, file, writers)
        }
        _ => finish(output(&alloc, global, job, tables, file), writers),
    }
}
