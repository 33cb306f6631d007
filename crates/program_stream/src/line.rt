//! One line of a recording: how it is read, and how it is judged.
ghost use Rattle.std.specs.Prelude.{◌≡◌, ◌∷◌, ◌⊎◌, [], ℕ, Bool, List, IfErr, OnErr, OnOk};
ghost use Rattle.std.specs.Io.BufRead.{ends_with_byte};
ghost use Rattle.wl_sigs.specs.Tables.{Interface};
ghost use Rattle.wl_recording.specs.Piece.{Piece};
ghost use Rattle.wl_recording.specs.Text.{IsFirstBad};
ghost use Rattle.wl_recording.specs.declared.recording.RecordingError.TheVariants.{BadLine, Memory};
ghost use Rattle.std.specs.Str.Lines.{lines};
ghost use Rattle.wl_check.specs.LinesJudged.{HasJudgedLines};
ghost use Rattle.program_stream.specs.Streams.{IsReadError, JudgesLine, ReadsLine};

use crate::error::{StreamError, read_error};
use std::alloc::Allocator;
use std::io::BufRead;
use wl_check::LineJudge;
use wl_recording::RecordingError;

/// Reads the next line with its line feed; nothing if there is none. The last line may lack the
/// line feed.
pub(crate) fn read_line<A: Allocator, R: BufRead>(
    reader: &mut R,
    line: &mut Vec<u8, A>,
) -> Result<(), StreamError>
    ensures read { OnOk result
        (ReadsLine (R.remaining reader.old) (R.remaining reader.new) line.new.items) }
    ensures why { IfErr result IsReadError }
{
    line.clear();
    match reader.read_until(b'\n', line) {
        Ok(_) => Ok(()),
        Err(error) => Err(read_error(&error)),
    }
}

/// Whether a line has its line feed.
pub(crate) fn is_ended(line: &[u8]) -> bool
    ensures { result ≡ ends_with_byte 10 line.now }
{
    !line.is_empty() && line[line.len() - 1] == b'\n'
}

/// Judges a line, and appends the lines of the messages that it completes to `text` if they are
/// wanted.
pub(crate) fn judge_line<A: Allocator + Clone>(
    judge: &mut LineJudge<'_, A>,
    line: &[u8],
    text: &mut Vec<u8, A>,
) -> Result<(), RecordingError>
    ensures judged { OnOk result ((prints_lines : Bool) (limit : ℕ) (tables : List Interface)
        (pieces : List Piece) (one : List ℕ) → lines line.now ≡ one ∷ []
        → HasJudgedLines prints_lines limit tables pieces judge.old
        → JudgesLine prints_lines limit tables pieces one judge.new text.old.items
        text.new.items) }
    ensures bad { IfErr result
        (λ e. (e ≡ Memory) ⊎ ((n : ℕ) × (e ≡ BadLine n) × IsFirstBad line.now n)) }
    ensures err { OnErr result (text.new.items ≡ text.old.items) }
{
    judge.judge(line)?;
    text.extend_from_slice(judge.lines())?;
    Ok(())
}
