//! Going from line to line.
ghost use Rattle.std.specs.Prelude.{◌<◌, ◌-◌, ◌^◌, ℕ, Bool, List, Option, IfErr, IfOk};
ghost use Rattle.wl_sigs.specs.Tables.{Interface};
ghost use Rattle.program_stream.specs.Streams.{IsStreamedTo, IsStopped, MayGoOn};

use crate::error::StreamError;
use crate::line::{is_ended, judge_line, read_line};
use std::alloc::Allocator;
use std::io::BufRead;
use wl_check::LineJudge;
use wl_recording::RecordingError;

/// Reads and judges the next line, which `number` lines precede. Returns whether there may be
/// another one. The lines of the messages that it completes are appended to `text` if they are
/// wanted.
pub(crate) fn judge_next<A: Allocator + Clone, R: BufRead>(
    judge: &mut LineJudge<'_, A>,
    reader: &mut R,
    line: &mut Vec<u8, A>,
    number: usize,
    text: &mut Vec<u8, A>,
) -> Result<bool, StreamError>
    requires { number < 2 ^ 64 - 1 }
    ensures judged { IfOk result (λ more. (prints_lines : Bool) (limit : ℕ)
        (tables : List Interface) (known : Option (List ℕ)) (written : List ℕ)
        → IsStreamedTo prints_lines limit tables known (R.remaining reader.old) number judge.old
        written text.old.items
        → MayGoOn more prints_lines limit tables known (R.remaining reader.new) number judge.new
        written text.new.items) }
    ensures stopped { IfErr result (λ why. (prints_lines : Bool) (limit : ℕ)
        (tables : List Interface) (known : Option (List ℕ)) (written : List ℕ)
        → IsStreamedTo prints_lines limit tables known (R.remaining reader.old) number judge.old
        written text.old.items
        → IsStopped prints_lines limit tables known why written text.new.items) }
{
    read_line(reader, line)?;
    if line.is_empty() {
        return Ok(false);
    }
    match judge_line(judge, line, text) {
        Ok(()) => Ok(is_ended(line)),
        Err(RecordingError::BadLine { .. }) => Err(StreamError::BadLine { line: number + 1 }),
        Err(RecordingError::Memory) => Err(StreamError::Memory),
    }
}
