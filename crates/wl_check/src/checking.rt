//! Checking a recorded session.
ghost use Rattle.std.specs.Prelude.{◌≡◌, ◌↔◌, ◌⊎◌, ℕ, List, Err, IfOk, IfErr, MatchResult};
ghost use Rattle.wl_recording.specs.declared.recording.RecordingError.TheVariants.{BadLine, Memory};
ghost use Rattle.wl_recording.specs.Piece.{Piece};
ghost use Rattle.wl_recording.specs.Text.{IsFirstBad, TextRecords};
ghost use Rattle.wl_check.specs.Session.{session_of, IsVerdictOf, IsLawful, SaysLawful};

use crate::scanning::{scan, scan_text};
use crate::session_state::Output;
use crate::verdict::Verdict;
use std::alloc::{AllocError, Allocator};
use wl_message::Limit;
use wl_recording::{Recording, RecordingError};
use wl_sigs::Tables;

/// Whether a recorded session is lawful; if not, the first message that breaks a rule.
///
/// The messages of both directions form one list: each is at the piece that brings its last byte,
/// and those of one piece are in stream order. A wl_display.error ends the session, and is counted.
/// `limit` is the longest message.
pub fn check<A: Allocator + Clone>(
    alloc: A,
    recording: &Recording<A>,
    tables: &Tables,
    limit: Limit,
) -> Result<Verdict, AllocError>
    ensures answers { IfOk result
        (λ verdict. IsVerdictOf tables.now (session_of limit.bytes recording.now) verdict) }
    ensures exact { IfOk result
        (λ verdict. SaysLawful verdict
        ↔ IsLawful tables.now (session_of limit.bytes recording.now)) }
{
    let (_text, verdict) = scan(&alloc, recording.pieces(), tables, limit, Output::Nothing)?;
    Ok(verdict)
}

/// Whether the session in a recording's text is lawful, as `check` of the recording says; or the
/// first line that a recording cannot have, as `Recording::parse` says.
///
/// Each message is judged when its line completes it, and at most one piece of the text and the
/// started messages are kept. All lines are read, also after a message that breaks a rule.
pub fn check_text<A: Allocator + Clone>(
    alloc: A,
    text: &[u8],
    tables: &Tables,
    limit: Limit,
) -> Result<Verdict, RecordingError>
    ensures told { IfOk result (λ verdict. (pieces : List Piece) × TextRecords text.now pieces
        × IsVerdictOf tables.now (session_of limit.bytes pieces) verdict) }
    ensures bad { IfErr result
        (λ e. (e ≡ Memory) ⊎ ((n : ℕ) × (e ≡ BadLine n) × IsFirstBad text.now n)) }

    // and if the text is a recording, the result is the verdict on it
    ensures only { (pieces : List Piece) → TextRecords text.now pieces
        → MatchResult result
        (λ verdict. IsVerdictOf tables.now (session_of limit.bytes pieces) verdict)
        (λ e. e ≡ Memory) }
    ensures exact { (pieces : List Piece) → TextRecords text.now pieces → IfOk result
        (λ verdict. SaysLawful verdict
        ↔ IsLawful tables.now (session_of limit.bytes pieces)) }
    ensures first { (n : ℕ) → IsFirstBad text.now n → (result ≡ Err (BadLine n))
        ⊎ (result ≡ Err Memory) }
{
    verdict_on(&alloc, text, tables, limit)
}

/// The verdict on a recording's text, or its first bad line.
fn verdict_on<A: Allocator + Clone>(
    alloc: &A,
    text: &[u8],
    tables: &Tables,
    limit: Limit,
) -> Result<Verdict, RecordingError>
    ensures told { IfOk result (λ verdict. (pieces : List Piece) × TextRecords text.now pieces
        × IsVerdictOf tables.now (session_of limit.bytes pieces) verdict) }
    ensures bad { IfErr result
        (λ e. (e ≡ Memory) ⊎ ((n : ℕ) × (e ≡ BadLine n) × IsFirstBad text.now n)) }
{
    let (_text, verdict) = scan_text(alloc, text, tables, limit, Output::Nothing)?;
    Ok(verdict)
}
