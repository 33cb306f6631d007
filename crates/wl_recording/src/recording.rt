//! Recordings.
ghost use Rattle.std.specs.Prelude.{◌≡◌, ℕ, ◌≤◌, List, [], ◌++◌, ◌⊎◌, length, map, replicate};
ghost use Rattle.std.specs.Prelude.{Ok, Err, IfOk, IfErr, OnOk, OnErr};
ghost use Rattle.std.specs.List.{All};
ghost use Rattle.wl_recording.specs.declared.recording.RecordingError.TheVariants.{BadLine, Memory};
ghost use Rattle.wl_recording.specs.Piece.{Piece, recorded_piece, passed, last_len};
ghost use Rattle.wl_recording.specs.Piece.{with_last_bytes, IsTellable};
ghost use Rattle.wl_recording.specs.Text.{TextRecords, IsFirstBad, recording_text};

use crate::line::MOST_TOKENS;
use crate::piece::{Direction, Passed};
use crate::reader::PieceReader;
use crate::write::write_piece;
use std::alloc::{AllocError, AllocFailed, Allocator, Global};
use std::error::Error;
use std::fmt::{self, Display, Formatter};
use std::marker::Model;
use wl_wire::Bytes;

/// Why a text is no recording.
#[derive(Clone, Copy, Debug, PartialEq, Eq)]
pub enum RecordingError {
    /// RP1: the first line, counted from 1, that is neither skipped nor a piece.
    BadLine { line: usize },
    /// RP2: out of memory, for the pieces.
    Memory,
}

impl Display for RecordingError {
    ghost use Rattle.std.specs.Prelude.{Some};
    ghost use Rattle.wl_recording.specs.Errors.{recording_error_text};

    ghost output = { λ error. Some (recording_error_text error) };

    fn fmt<W: fmt::Write>(&self, f: &mut Formatter<W>) -> fmt::Result {
        match self {
            RecordingError::BadLine { line } => write!(f, "line {line}: bad line"),
            RecordingError::Memory => f.write_str("out of memory"),
        }
    }
}

impl Error for RecordingError {}

impl From<AllocError> for RecordingError {
    ghost from_gives = { λ _ e. e ≡ Memory };

    fn from(_e: AllocError) -> RecordingError {
        RecordingError::Memory
    }
}

impl<T: Drop> From<AllocFailed<T>> for RecordingError {
    ghost from_gives = { λ _ e. e ≡ Memory };

    fn from(_e: AllocFailed<T>) -> RecordingError {
        RecordingError::Memory
    }
}

/// What passed at one point of a connection, both directions together, in order.
#[derive(Debug, Drop)]
pub struct Recording<A: Allocator = Global> {
    pieces: Vec<Passed<A>, A>,
}

impl<A: Allocator> Model for Recording<A> {
    ghost use Rattle.std.specs.Prelude.{List, map};
    ghost use Rattle.std.specs.List.{All};
    ghost use Rattle.wl_recording.specs.Piece.{Piece, recorded_piece, IsTellable};

    ghost Value = { List Piece };

    ghost view = { λ r. map recorded_piece r.pieces.items };

    ghost invariant = { λ r. All IsTellable (map recorded_piece r.pieces.items) };
}

impl<A: Allocator> Recording<A> {
    /// An empty recording. It allocates nothing.
    pub fn new(alloc: A) -> Self
        ensures { result ≡ [] }
    {
        Recording {
            pieces: Vec::new(alloc),
        }
    }

    /// The pieces, in the order in which they passed.
    pub fn pieces(&self) -> &[Passed<A>]
        ensures all { map recorded_piece result.now ≡ self.now }
        ensures tellable { All IsTellable self.now }
    {
        self.pieces.as_slice()
    }
}

impl<A: Allocator + Clone> Recording<A> {
    /// Parses the text of a recording.
    ///
    /// Each line ends with a line feed, which the last may lack; one carriage return before a line
    /// feed is dropped. An empty line and a line that begins with `#` are skipped. Every other line
    /// is one piece, such as `> 0100000001000c0002000000 +1`: `>` to the server or `<` to the
    /// client; a space; `-` for no bytes, or two hexadecimal digits, of either case, for each byte;
    /// and, if tokens came, a space, a plus sign and their number, 1 to 65,535, in 1 to 5 decimal
    /// digits.
    ///
    /// `BadLine` (RP1) is returned if and only if some line is none of these, with the number of
    /// the first such line. `Memory` (RP2) may be returned instead of any result.
    pub fn parse(alloc: A, text: &[u8]) -> Result<Self, RecordingError>
        ensures told { IfOk result (λ pieces. TextRecords text.now pieces) }
        ensures bad { IfErr result
            (λ e. (e ≡ Memory) ⊎ ((n : ℕ) × (e ≡ BadLine n) × IsFirstBad text.now n)) }

        // and the result is the recording in the text, or its first bad line
        ensures only { (pieces : List Piece) → TextRecords text.now pieces → (result ≡ Ok pieces)
            ⊎ (result ≡ Err Memory) }
        ensures first { (n : ℕ) → IsFirstBad text.now n → (result ≡ Err (BadLine n))
            ⊎ (result ≡ Err Memory) }
    {
        Recording::read(alloc, text)
    }

    // The recording in a text, or its first bad line.
    fn read(alloc: A, text: &[u8]) -> Result<Self, RecordingError>
        ensures told { IfOk result (λ pieces. TextRecords text.now pieces) }
        ensures bad { IfErr result
            (λ e. (e ≡ Memory) ⊎ ((n : ℕ) × (e ≡ BadLine n) × IsFirstBad text.now n)) }
    {
        let mut pieces = Vec::new(alloc.clone()?);
        let mut reader = PieceReader::new(text);
        'pieces: while let Some(piece) = reader.next_piece(&alloc)? {
            pieces.push(piece)?;
        }
        Ok(Recording { pieces })
    }

    /// The text of the recording: a line for each piece, ended by a line feed. Digits are lower
    /// case, and there are no comments.
    pub fn to_text(&self) -> Result<Vec<u8, A>, AllocError>
        ensures text { IfOk result (λ text. text.items ≡ recording_text self.now) }
        ensures told { IfOk result (λ text. TextRecords text.items self.now) }
    {
        let mut text = Vec::new(self.pieces.allocator().clone()?);
        for piece in &self.pieces {
            write_piece(&mut text, piece)?;
        }
        Ok(text)
    }

    /// Adds what passed at once, with at most 65,536 tokens.
    ///
    /// Nothing is added if nothing passed. A piece counts at most 65,535 tokens, so 65,536 are
    /// added as two pieces: 65,535 tokens alone, and then the bytes with one token. Without memory
    /// nothing is added.
    pub fn add(&mut self, direction: Direction, bytes: &[u8], tokens: u32) -> Result<(), AllocError>
        requires { tokens ≤ 65536 }
        ensures ok { OnOk result (self.new ≡ self.old ++ passed direction bytes.now tokens) }
        ensures err { OnErr result (self.new ≡ self.old) }
    {
        self.prepare(direction, bytes.len(), tokens)?;
        if !bytes.is_empty() {
            self.fill_last(bytes);
        }
        Ok(())
    }

    /// Adds what is about to pass, as `add` would, but with zeros in place of its bytes.
    ///
    /// So everything is allocated before anything moves; `fill_last`, which cannot fail, then
    /// writes what passes over the zeros. `filled_passed` of the proofs says that the two together
    /// are `add`.
    pub fn prepare(
        &mut self,
        direction: Direction,
        len: usize,
        tokens: u32,
    ) -> Result<(), AllocError>
        requires { tokens ≤ 65536 }
        ensures ok { OnOk result
            (self.new ≡ self.old ++ passed direction (replicate len 0) tokens) }
        ensures err { OnErr result (self.new ≡ self.old) }
    {
        if len == 0 && tokens == 0 {
            return Ok(());
        }
        let alloc = self.pieces.allocator();
        let none = Bytes::from_vec(Vec::new(alloc.clone()?));
        let zeros = Bytes::from_vec(vec![in alloc.clone()?; 0u8; len]?);
        self.pieces.reserve(2)?;
        let mut tokens = tokens;
        if tokens > MOST_TOKENS {
            self.pieces.push_reserved(Passed {
                direction,
                bytes: none,
                tokens: MOST_TOKENS,
            });
            tokens -= MOST_TOKENS;
        }
        self.pieces.push_reserved(Passed {
            direction,
            bytes: zeros,
            tokens,
        });
        Ok(())
    }

    /// Writes these bytes over those of the last piece. It allocates nothing.
    pub fn fill_last(&mut self, bytes: &[u8])
        requires { length bytes.now ≡ last_len self.old }
        ensures { self.new ≡ with_last_bytes self.old bytes.now }
    {
        let Some(last) = self.pieces.pop() else {
            return;
        };
        let mut held = last.bytes.into_vec();
        held.as_mut_slice().copy_from_slice(bytes);
        self.pieces.push_reserved(Passed {
            direction: last.direction,
            bytes: Bytes::from_vec(held),
            tokens: last.tokens,
        });
    }
}
