//! The pieces of a text, one after another.
ghost use Rattle.std.specs.Prelude.{◌≡◌, ℕ, ◌+◌, ◌^◌, ◌<◌, List, [], ◌∷◌, ◌++◌, ◌⊎◌, length};
ghost use Rattle.std.specs.Prelude.{Err, IfOk, IfErr, OnErr, IfSome, IfNone, MatchOption};
ghost use Rattle.wl_recording.specs.declared.recording.RecordingError.TheVariants.{BadLine, Memory};
ghost use Rattle.wl_recording.specs.Piece.{AreAsBefore, IsAppended, Piece, recorded_piece};
ghost use Rattle.wl_recording.specs.Text.{IsFirstBad, IsReached, IsReadUpTo, TextRecords};

use crate::line::{append_piece, read_piece};
use crate::piece::{Appended, Passed};
use crate::recording::RecordingError;
use std::alloc::Allocator;
use wl_text::{first_line, is_skipped};

/// A text that is read piece by piece, so that at most one piece is in memory at a time.
#[derive(Clone, Copy, Debug)]
pub struct PieceReader<'a> {
    /// The text not yet read.
    pub rest: &'a [u8],
    /// How many lines were read.
    pub number: usize,
}

impl<'a> PieceReader<'a> {
    /// The position before the first line of a text.
    pub fn new(text: &'a [u8]) -> Self
        ensures { IsReadUpTo text.now result.rest.now result.number [] }
    {
        PieceReader {
            rest: text,
            number: 0,
        }
    }

    /// Reads up to the end of the next piece's line, if there is a next piece, and skips lines
    /// before it as needed.
    ///
    /// `BadLine` and `Memory` are returned as from `Recording::parse`.
    pub fn next_piece<A: Allocator + Clone>(
        &mut self,
        alloc: &A,
    ) -> Result<Option<Passed<A>>, RecordingError>
        requires { self.old.number + length self.old.rest.now < 2 ^ 64 }
        ensures read { IfOk result (λ found. (text : List ℕ) (pieces : List Piece)
            → IsReadUpTo text self.old.rest.now self.old.number pieces
            → MatchOption found (TextRecords text pieces)
            (λ kept. IsReadUpTo text self.new.rest.now self.new.number
            (pieces ++ recorded_piece kept ∷ []))) }
        ensures bad { IfErr result (λ e. (text : List ℕ) (pieces : List Piece)
            → IsReadUpTo text self.old.rest.now self.old.number pieces
            → (e ≡ Memory) ⊎ ((n : ℕ) × (e ≡ BadLine n) × IsFirstBad text n)) }
        ensures shorter { IfOk result (λ found. IfSome found
            (λ kept. length self.new.rest.now < length self.old.rest.now)) }
    {
        let Some(line) = self.next_line() else {
            return Ok(None);
        };
        match read_piece(alloc.clone()?, line)? {
            Some(piece) => Ok(Some(piece)),
            None => Err(RecordingError::BadLine { line: self.number }),
        }
    }

    /// Reads up to the end of the next piece's line, if there is a next piece, and appends its
    /// bytes to those of its direction.
    ///
    /// `BadLine` is returned at the first line that a recording cannot have, and `Memory` only at a
    /// line that is a piece: any other line allocates nothing. Either passes over the line, and
    /// leaves the bytes of both directions unchanged.
    #[inline(always)]
    pub fn append_next<A: Allocator>(
        &mut self,
        to_server: &mut Vec<u8, A>,
        to_client: &mut Vec<u8, A>,
    ) -> Result<Option<Appended>, RecordingError>
        requires { self.old.number + length self.old.rest.now < 2 ^ 64 }
        ensures read { IfOk result (λ found. (text : List ℕ) (pieces : List Piece)
            → IsReadUpTo text self.old.rest.now self.old.number pieces
            → MatchOption found (TextRecords text pieces)
            (λ appended. (piece : Piece)
            × IsReadUpTo text self.new.rest.now self.new.number (pieces ++ piece ∷ [])
            × IsAppended piece appended to_server.old.items to_server.new.items
            to_client.old.items to_client.new.items)) }
        ensures none { IfOk result (λ found. IfNone found
            ((to_server.new.items ≡ to_server.old.items)
            × (to_client.new.items ≡ to_client.old.items))) }
        ensures bad { IfErr result (λ e. (text : List ℕ) (pieces : List Piece)
            → IsReadUpTo text self.old.rest.now self.old.number pieces
            → (e ≡ Memory) ⊎ ((n : ℕ) × (e ≡ BadLine n) × IsFirstBad text n)) }
        ensures refused { OnErr result
            (AreAsBefore to_server.old.items to_server.new.items to_client.old.items
            to_client.new.items) }
        ensures memory { (text : List ℕ) (pieces : List Piece) → result ≡ Err Memory
            → IsReadUpTo text self.old.rest.now self.old.number pieces
            → (piece : Piece)
            × IsReadUpTo text self.new.rest.now self.new.number (pieces ++ piece ∷ []) }
        ensures shorter { IfOk result (λ found. IfSome found
            (λ appended. length self.new.rest.now < length self.old.rest.now)) }
    {
        let Some(line) = self.next_line() else {
            return Ok(None);
        };
        match append_piece(line, to_server, to_client)? {
            Some(appended) => Ok(Some(appended)),
            None => Err(RecordingError::BadLine { line: self.number }),
        }
    }

    // The next line that is not skipped.
    fn next_line(&mut self) -> Option<&'a [u8]>
        requires { self.old.number + length self.old.rest.now < 2 ^ 64 }
        ensures reached { (text : List ℕ) (pieces : List Piece)
            → IsReadUpTo text self.old.rest.now self.old.number pieces
            → MatchOption result (TextRecords text pieces)
            (λ line. IsReached text self.new.rest.now self.new.number line.now pieces) }
        ensures shorter { IfSome result
            (λ line. length self.new.rest.now < length self.old.rest.now) }
    {
        'lines: while !self.rest.is_empty() {
            let (line, after) = first_line(self.rest);
            self.rest = after;
            self.number += 1;
            if !is_skipped(line) {
                return Some(line);
            }
        }
        None
    }
}
