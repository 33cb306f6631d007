//! Judging a recording of any length while it is read.
ghost use Rattle.std.specs.Prelude.{◌≡◌, ◌≤◌, ◌≢◌, IfOk, map, string_bytes};
ghost use Rattle.program_jobs.specs.Failing.{IsStreamFailure};
ghost use Rattle.program_jobs.specs.Output.{EndsStream, Streamed, StreamedBy, end_line};
ghost use Rattle.program_jobs.specs.Texts.{sources_of};

use crate::acting::Writers;
use crate::failure::Failure;
use crate::tables::{TablesFile, load_tables};
use crate::verdict::{status_of, write_broken};
use program_stream::{StreamError, judge_stream, write_through};
use std::alloc::{AllocError, Allocator, Global};
use std::io::{Read, Write};
use wl_check::{Verdict, write_verdict};
use wl_message::Limit;
use wl_sigs::Tables;

/// The words of a stream's job.
#[derive(Clone, Copy)]
pub(crate) struct Stream<'a> {
    pub(crate) prints_lines: bool,
    /// What names its table texts.
    pub(crate) names: &'a [String],
    pub(crate) limit: Limit,
    /// The name of its recording.
    pub(crate) name: &'a str,
}

/// Judges a recording while it is read, prints its lines if they are wanted, and the verdict's line
/// at the end. Returns the exit status.
pub(crate) fn judge<A: Allocator, T: Read + Drop, R: Read, O: Write, E: Write>(
    alloc: &A,
    global: Global,
    stream: &Stream<'_>,
    tables: Vec<TablesFile<'_, T>>,
    file: &mut R,
    writers: &mut Writers<O, E>,
) -> u8
    ensures streamed { StreamedBy O.contents E.contents stream.now.prints_lines
        stream.now.limit.bytes (map string_bytes stream.now.names.now) stream.now.name.now
        (sources_of T.remaining tables.entry.items) (R.remaining file.old) writers.old.out
        writers.new.out writers.old.err writers.new.err result }
    ensures statuses { (result ≤ 4) × (result ≢ 2) }
{
    match load_tables(alloc, global, stream.names, tables) {
        Ok(tables) => judge_by(alloc, stream, &tables, file, writers),
        Err(failure) => failure.report(&mut writers.err),
    }
}

/// The same with these tables.
fn judge_by<A: Allocator, R: Read, O: Write, E: Write>(
    alloc: &A,
    stream: &Stream<'_>,
    tables: &Tables,
    file: &mut R,
    writers: &mut Writers<O, E>,
) -> u8
    ensures streamed { Streamed O.contents E.contents stream.now.prints_lines
        stream.now.limit.bytes tables.now stream.now.name.now (R.remaining file.old)
        writers.old.out writers.new.out writers.old.err writers.new.err result }
    ensures statuses { (result ≤ 4) × (result ≢ 2) }
{
    let judged = judge_stream(
        alloc,
        file,
        &mut writers.out,
        stream.prints_lines,
        tables,
        stream.limit,
    );
    match judged {
        Ok(verdict) => finish(alloc, stream.prints_lines, &verdict, writers),
        Err(error) => failure_of(stream.name, error).report(&mut writers.err),
    }
}

/// Writes the line of the verdict, and returns the exit status.
fn finish<A: Allocator, O: Write, E: Write>(
    alloc: &A,
    prints_lines: bool,
    verdict: &Verdict,
    writers: &mut Writers<O, E>,
) -> u8
    ensures ended { EndsStream O.contents E.contents prints_lines verdict.now writers.old.out
        writers.new.out writers.old.err writers.new.err result }
    ensures statuses { (result ≤ 4) × (result ≢ 2) }
{
    match verdict_line(alloc, prints_lines, verdict) {
        Ok(line) => match write_through(&mut writers.out, &line) {
            Ok(()) => status_of(verdict),
            Err(_) => Failure::CannotWrite.report(&mut writers.err),
        },
        Err(_) => Failure::Memory.report(&mut writers.err),
    }
}

/// The line of a verdict; after the lines of a trace, only that of a broken session.
fn verdict_line<A: Allocator>(
    alloc: A,
    prints_lines: bool,
    verdict: &Verdict,
) -> Result<Vec<u8, A>, AllocError>
    ensures { IfOk result (λ line. line.items ≡ end_line prints_lines verdict.now) }
{
    let mut line = Vec::new(alloc);
    if prints_lines {
        write_broken(&mut line, verdict)?;
    } else {
        write_verdict(&mut line, verdict)?;
    }
    Ok(line)
}

/// Why a stream of this name has ended early.
fn failure_of(name: &str, error: StreamError) -> Failure<'_>
    ensures { IsStreamFailure name.entry.now error result }
{
    match error {
        StreamError::CannotRead => Failure::CannotRead(name),
        StreamError::BadLine { line } => Failure::BadLine(line),
        StreamError::CannotWrite => Failure::CannotWrite,
        StreamError::Memory => Failure::Memory,
    }
}
