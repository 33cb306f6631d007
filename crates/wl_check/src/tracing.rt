//! The trace of a recorded session.
ghost use Rattle.std.specs.Prelude.{◌≡◌, ◌⊎◌, ℕ, List, Err, IfOk, IfErr, MatchResult};
ghost use Rattle.wl_recording.specs.declared.recording.RecordingError.TheVariants.{BadLine, Memory};
ghost use Rattle.wl_recording.specs.Piece.{Piece};
ghost use Rattle.wl_recording.specs.Text.{IsFirstBad, TextRecords};
ghost use Rattle.wl_check.specs.Session.{session_of, IsVerdictOf};
ghost use Rattle.wl_check.specs.Trace.{trace_of};

use crate::scanning::{scan, scan_text};
use crate::session_state::Output;
use crate::verdict::Verdict;
use std::alloc::{AllocError, Allocator};
use wl_message::Limit;
use wl_recording::{Recording, RecordingError};
use wl_sigs::Tables;

/// The lines of a recorded session's messages, each ended by a line feed, and the verdict of
/// `check`. If a message breaks a rule, the lines are those of the messages before it; a
/// wl_display.error is the last message printed. `limit` is the longest message.
pub fn trace<A: Allocator + Clone>(
    alloc: A,
    recording: &Recording<A>,
    tables: &Tables,
    limit: Limit,
) -> Result<(Vec<u8, A>, Verdict), AllocError>
    ensures lines { IfOk result
        (λ r. r.0.items ≡ trace_of tables.now (session_of limit.bytes recording.now)) }
    ensures verdict { IfOk result
        (λ r. IsVerdictOf tables.now (session_of limit.bytes recording.now) r.1) }
{
    scan(&alloc, recording.pieces(), tables, limit, Output::Lines)
}

/// The trace of a recording's text, as `trace` of the recording gives it; or the first line that a
/// recording cannot have, as `Recording::parse` says.
///
/// Each message is judged when its line completes it, and at most one piece of the text and the
/// started messages are kept. All lines are read, also after a message that breaks a rule.
pub fn trace_text<A: Allocator + Clone>(
    alloc: A,
    text: &[u8],
    tables: &Tables,
    limit: Limit,
) -> Result<(Vec<u8, A>, Verdict), RecordingError>
    ensures told { IfOk result (λ r. (pieces : List Piece) × TextRecords text.now pieces
        × ((r.0.items ≡ trace_of tables.now (session_of limit.bytes pieces))
        × IsVerdictOf tables.now (session_of limit.bytes pieces) r.1)) }
    ensures bad { IfErr result
        (λ e. (e ≡ Memory) ⊎ ((n : ℕ) × (e ≡ BadLine n) × IsFirstBad text.now n)) }

    // and if the text is a recording, the result is its trace and the verdict on it
    ensures only { (pieces : List Piece) → TextRecords text.now pieces
        → MatchResult result
        (λ r. (r.0.items ≡ trace_of tables.now (session_of limit.bytes pieces))
        × IsVerdictOf tables.now (session_of limit.bytes pieces) r.1)
        (λ e. e ≡ Memory) }
    ensures first { (n : ℕ) → IsFirstBad text.now n → (result ≡ Err (BadLine n))
        ⊎ (result ≡ Err Memory) }
{
    scan_text(&alloc, text, tables, limit, Output::Lines)
}
