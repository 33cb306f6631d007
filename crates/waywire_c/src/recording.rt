//! The call to read a recording.
ghost use Rattle.std.specs.Prelude.{◌≡◌, ◌≢◌, ◌<◌, ◌≤◌, ◌↔◌, ◌+◌, ◌^◌, ℕ, ◌⊎◌, ◌∷◌, ◌++◌, List, []};
ghost use Rattle.std.specs.Prelude.{drop, length as len, take};
ghost use Rattle.std.specs.Prelude.{Some};
ghost use Rattle.wl_recording.specs.declared.recording.RecordingError.TheVariants.{BadLine as bad_line};
ghost use Rattle.wl_recording.specs.declared.recording.RecordingError.TheVariants.{Memory};
ghost use Rattle.wl_recording.specs.Piece.{Piece, recorded_piece};
ghost use Rattle.wl_recording.specs.Text.{IsFirstBad, IsReadUpTo, TextRecords};
ghost use Rattle.waywire_c.specs.Inspecting.{direction_of};
ghost use Rattle.waywire_c.specs.Recordings.{TellsPiece};

use crate::statuses::{BAD_LINE, BAD_VALUE, FULL, NO_MEMORY, NOT_FOUND, OK};
use std::alloc::Global;
use wl_recording::{Direction, Passed, PieceReader, RecordingError};

/// A piece without its bytes, and how far the text was read.
#[repr(C)]
#[derive(Clone, Copy)]
pub struct CPiece {
    /// The sender: 0 is the client, and 1 the server.
    pub sender: u32,
    pub tokens: u32,
    /// How many bytes it has.
    pub length: usize,
    /// How many bytes of the text are left after the piece's line.
    pub left: usize,
    /// How many lines were read, including the piece's.
    pub number: usize,
}

/// Reads a recording's text up to the end of the next piece's line. `text` is the rest of it after
/// the first `number` lines. The piece's bytes are written to the front of `bytes`, if they fit.
#[unsafe(no_mangle)]
pub extern "C" fn waywire_c_recording_next(
    alloc: Global,
    text: &[u8],
    number: usize,
    bytes: &mut [u8],
    piece: &mut CPiece,
) -> u32
    ensures read { result ≡ 0 → (whole : List ℕ) (pieces : List Piece)
        → IsReadUpTo whole text.now number pieces
        → (next : Piece) × (rest : List ℕ)
        × IsReadUpTo whole rest piece.new.number (pieces ++ next ∷ [])
        × TellsPiece next (len rest) piece.new.number (take piece.new.length bytes.new) piece.new }
    ensures ended { result ≡ 64 → (whole : List ℕ) (pieces : List Piece)
        → IsReadUpTo whole text.now number pieces → TextRecords whole pieces }
    ensures bad { result ≡ 71 → (whole : List ℕ) (pieces : List Piece)
        → IsReadUpTo whole text.now number pieces → IsFirstBad whole piece.new.number }
    ensures full { result ≡ 9 → (whole : List ℕ) (pieces : List Piece)
        → IsReadUpTo whole text.now number pieces
        → (next : Piece) × (rest : List ℕ) × (line : ℕ)
        × IsReadUpTo whole rest line (pieces ++ next ∷ []) × (len bytes.old < len next.bytes) }
    ensures bad_value { (result ≡ 62) ↔ (2 ^ 64 ≤ number + len text.now) }
    ensures statuses { (result ≡ 0) ⊎ (result ≡ 9) ⊎ (result ≡ 11) ⊎ (result ≡ 62)
        ⊎ (result ≡ 64) ⊎ (result ≡ 71) }
    ensures behind { result ≡ 0
        → drop piece.new.length bytes.new ≡ drop piece.new.length bytes.old }
    ensures unwritten { result ≢ 0 → bytes.new ≡ bytes.old }
    ensures untold { result ≢ 0 → result ≢ 71 → piece.new ≡ piece.old }
{
    if number.checked_add(text.len()).is_none() {
        return BAD_VALUE;
    }
    let mut reader = PieceReader { rest: text, number };
    match reader.next_piece(&alloc) {
        Ok(Some(passed)) => put_piece(&passed, reader.rest.len(), reader.number, bytes, piece),
        Ok(None) => NOT_FOUND,
        Err(error) => put_error(error, piece),
    }
}

/// The status of an error; its line is written to `piece`.
fn put_error(error: RecordingError, piece: &mut CPiece) -> u32
    ensures bad { result ≡ 71 → error ≡ bad_line piece.new.number }
    ensures memory { (result ≡ 11) ↔ (error ≡ Memory) }
    ensures status { (result ≡ 71) ⊎ (result ≡ 11) }
    ensures others { record piece.new { number = piece.old.number } ≡ piece.old }
    ensures untold { result ≢ 71 → piece.new ≡ piece.old }
{
    match error {
        RecordingError::BadLine { line } => {
            piece.number = line;
            BAD_LINE
        }
        RecordingError::Memory => NO_MEMORY,
    }
}

/// Writes a piece and its bytes, if there is room for them.
fn put_piece(
    passed: &Passed,
    left: usize,
    number: usize,
    bytes: &mut [u8],
    piece: &mut CPiece,
) -> u32
    ensures told { result ≡ 0 → TellsPiece (recorded_piece passed.now) left number
        (take piece.new.length bytes.new) piece.new }
    ensures status { (result ≡ 0) ⊎ (result ≡ 9) }
    ensures full { result ≡ 9 → len bytes.old < len (recorded_piece passed.now).bytes }
    ensures behind { result ≡ 0
        → drop piece.new.length bytes.new ≡ drop piece.new.length bytes.old }
    ensures unwritten { result ≢ 0 → bytes.new ≡ bytes.old }
    ensures untold { result ≢ 0 → piece.new ≡ piece.old }
{
    let read = passed.bytes.as_slice();
    if read.len() > bytes.len() {
        return FULL;
    }
    bytes[..read.len()].copy_from_slice(read);
    *piece = CPiece {
        sender: sender_of(passed.direction),
        tokens: passed.tokens,
        length: read.len(),
        left,
        number,
    };
    OK
}

/// The sender of what goes in this direction.
fn sender_of(direction: Direction) -> u32
    ensures { direction_of result ≡ Some direction }
{
    match direction {
        Direction::ToServer => 0,
        Direction::ToClient => 1,
    }
}
