//! Judging a whole stream.
ghost use Rattle.std.specs.Prelude.{◌≡◌, ℕ, [], List, IfErr, IfOk, OnOk};
ghost use Rattle.wl_sigs.specs.Tables.{Interface};
ghost use Rattle.wl_check.specs.LinesJudged.{HasJudgedLines};
ghost use Rattle.std.specs.Io.Buffered.{reader_remaining};
ghost use Rattle.std.specs.Io.KnownBytes.{Appends};
ghost use Rattle.program_stream.specs.Streams.{HasJudged, IsStreamJudged, IsCutShort};
ghost use Rattle.program_stream.specs.Writing.{AppendsFront};
ghost use Rattle.program_stream.specs.declared.error.StreamError.TheVariants.{CannotWrite};

use crate::error::{StreamError, read_error};
use crate::reading::judge_next;
use crate::writing::write_through;
use std::alloc::Allocator;
use std::io::{BufReader, Read, Write};
use wl_check::{LineJudge, Verdict};
use wl_message::Limit;
use wl_sigs::Tables;

/// How many bytes are read at once.
const READ_BYTES: usize = 65_536;

/// The verdict on all that the reader returns. If `prints_lines`, the lines of the messages are
/// written to `out` while it is read, as far as they are known when a read might wait.
///
/// The verdict and the lines are those of `check` and `trace` for the same bytes. At the first line
/// that a recording cannot have, the lines of the messages before it were written.
pub fn judge_stream<A: Allocator + Clone, R: Read, O: Write>(
    alloc: A,
    file: &mut R,
    out: &mut O,
    prints_lines: bool,
    tables: &Tables,
    limit: Limit,
) -> Result<Verdict, StreamError>
    ensures judged { IfOk result (IsStreamJudged prints_lines limit.bytes tables.now
        (R.remaining file.old) (O.contents out.old) (O.contents out.new)) }
    ensures stopped { IfErr result (IsCutShort prints_lines limit.bytes tables.now
        (R.remaining file.old) (O.contents out.old) (O.contents out.new)) }
{
    let mut judge = LineJudge::new(alloc.clone()?, tables, limit, prints_lines)?;
    judge_by(&alloc, &mut judge, file, out, prints_lines)
}

/// The same with a judge that has judged no line.
fn judge_by<A: Allocator + Clone, R: Read, O: Write>(
    alloc: &A,
    judge: &mut LineJudge<'_, A>,
    file: &mut R,
    out: &mut O,
    prints_lines: bool,
) -> Result<Verdict, StreamError>
    ensures judged { IfOk result (λ verdict. (limit : ℕ) (tables : List Interface)
        → HasJudgedLines prints_lines limit tables [] judge.old
        → IsStreamJudged prints_lines limit tables (R.remaining file.old) (O.contents out.old)
        (O.contents out.new) verdict) }
    ensures stopped { IfErr result (λ why. (limit : ℕ) (tables : List Interface)
        → HasJudgedLines prints_lines limit tables [] judge.old
        → IsCutShort prints_lines limit tables (R.remaining file.old) (O.contents out.old)
        (O.contents out.new) why) }
{
    match BufReader::with_capacity(alloc.clone()?, READ_BYTES, file) {
        Ok(mut reader) => {
            judge_lines(alloc, judge, &mut reader, out, prints_lines)?;
            match judge.verdict() {
                Some(verdict) => Ok(verdict),
                None => Err(StreamError::Memory),
            }
        }
        Err(error) => Err(read_error(&error)),
    }
}

/// Judges line after line, and writes the lines of their messages if they are wanted.
fn judge_lines<A: Allocator + Clone, R: Read, O: Write>(
    alloc: &A,
    judge: &mut LineJudge<'_, A>,
    reader: &mut BufReader<R, A>,
    out: &mut O,
    prints_lines: bool,
) -> Result<(), StreamError>
    ensures judged { OnOk result ((limit : ℕ) (tables : List Interface)
        → HasJudgedLines prints_lines limit tables [] judge.old
        → HasJudged prints_lines limit tables (reader_remaining R.remaining reader.old)
        judge.new (O.contents out.old) (O.contents out.new)) }
    ensures stopped { IfErr result (λ why. (limit : ℕ) (tables : List Interface)
        → HasJudgedLines prints_lines limit tables [] judge.old
        → IsCutShort prints_lines limit tables (reader_remaining R.remaining reader.old)
        (O.contents out.old) (O.contents out.new) why) }
{
    let mut line = Vec::new(alloc.clone()?);
    let mut text = Vec::new(alloc.clone()?);
    'lines: for number in 0..usize::MAX {
        let more = judge_next(judge, reader, &mut line, number, &mut text);
        match more {
            Ok(true) => {
                // Without a whole line in the buffer, the next read may wait.
                if prints_lines && !reader.buffer().contains(&b'\n') {
                    write_text(out, &mut text)?;
                }
            }
            Ok(false) => return write_text(out, &mut text),
            Err(error) => {
                write_text(out, &mut text)?;
                return Err(error);
            }
        }
    }
    write_text(out, &mut text)?;
    Err(StreamError::CannotRead)
}

/// Writes a text, and empties it. If that fails, only a front part of it was written.
fn write_text<A: Allocator, O: Write>(out: &mut O, text: &mut Vec<u8, A>) -> Result<(), StreamError>
    ensures written { OnOk result
        (Appends (O.contents out.old) (O.contents out.new) text.old.items) }
    ensures emptied { OnOk result (text.new.items ≡ []) }
    ensures front { AppendsFront (O.contents out.old) (O.contents out.new) text.old.items }
    ensures why { IfErr result (λ e. e ≡ CannotWrite) }
{
    if write_through(out, text).is_err() {
        return Err(StreamError::CannotWrite);
    }
    text.clear();
    Ok(())
}
