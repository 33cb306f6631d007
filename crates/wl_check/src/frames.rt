//! A recording's messages, cut from the bytes of their directions.
ghost use Rattle.std.specs.Prelude.{◌≡◌, ◌≤◌, ◌<◌, ◌+◌, ◌^◌, ◌++◌, ◌∷◌, ◌⊎◌, ℕ, true, List, []};
ghost use Rattle.std.specs.Prelude.{drop};
ghost use Rattle.std.specs.Prelude.{length, take, IfErr, IfNone, IfOk, IfSome, MatchOption, OnErr};
ghost use Rattle.std.specs.Prelude.{OnOk};
ghost use Rattle.wl_message.specs.Cut.{front, is_size};
ghost use Rattle.wl_wire.specs.Word.{header_at};
ghost use Rattle.wl_recording.specs.declared.recording.RecordingError.TheVariants.{BadLine, Memory};
ghost use Rattle.wl_recording.specs.Piece.{IsAppended, Piece};
ghost use Rattle.wl_recording.specs.Text.{IsFirstBad, IsReadUpTo, TextRecords};
ghost use Rattle.wl_check.specs.Seen.{size_of};

use std::alloc::{AllocError, Allocator, Global};
use std::marker::Model;
use wl_message::Limit;
use wl_recording::{Appended, Direction, PieceReader, RecordingError};
use wl_wire::Header;

/// The most spare room, in bytes, that is kept for waiting bytes: most messages are shorter, so the
/// next one fits.
const ROOM_KEPT: usize = 64;

/// A message of the list.
#[derive(Clone, Copy, Debug)]
pub(crate) struct FramedMessage {
    pub direction: Direction,
    /// Where it begins in its direction.
    pub start: usize,
    /// The size in its header.
    pub size: u16,
    /// How many tokens its direction brought with the pieces up to the one that completes it.
    pub tokens: u128,
}

/// The bytes of a direction that wait for the rest of their message. Their spare room is not part
/// of their value.
#[derive(Debug, Drop)]
pub(crate) struct WaitingBytes<A: Allocator = Global> {
    items: Vec<u8, A>,
}

impl<A: Allocator> Model for WaitingBytes<A> {
    ghost use Rattle.std.specs.Prelude.{ℕ, List};

    ghost Value = { List ℕ };

    ghost view = { λ w. w.items.items };
}

/// What pieces brought in one direction.
#[derive(Debug, Drop)]
pub(crate) struct Stream<A: Allocator = Global> {
    /// The bytes after the last judged message, as long as there are messages to judge.
    pub bytes: WaitingBytes<A>,
    /// The total number of bytes.
    pub len: usize,
    pub tokens: u128,
}

/// A piece that passes.
#[derive(Clone, Copy, Debug)]
pub(crate) struct LentPiece<'a> {
    pub direction: Direction,
    pub bytes: &'a [u8],
    pub tokens: usize,
}

/// The size of the message at the front of these bytes. `None` if its header, or the rest of a
/// message with a good size, is still to come.
pub(crate) fn size_in_front(bytes: &[u8], limit: Limit) -> Option<u16>
    ensures front { result ≡ size_of (front limit.bytes bytes.now) }
    ensures header { IfSome result (λ size. 8 ≤ length bytes.now) }
    ensures size { IfSome result (λ size. size ≡ (header_at bytes.now).size) }
    ensures whole { IfSome result (λ size. is_size limit.bytes size ≡ true
        → size ≤ length bytes.now) }
{
    if bytes.len() < 8 {
        return None;
    }
    let size = Header::at_front_of(bytes).size;
    if bytes.len() < size as usize && limit.allows(size) {
        return None;
    }
    Some(size)
}

/// Before the first piece.
pub(crate) fn empty_stream<A: Allocator>(alloc: A) -> Stream<A>
    ensures bytes { result.bytes ≡ [] }
    ensures len { result.len ≡ 0 }
    ensures tokens { result.tokens ≡ 0 }
{
    Stream {
        bytes: WaitingBytes::new(alloc),
        len: 0,
        tokens: 0,
    }
}

/// Reads up to the end of the next piece of a text, and appends its bytes to those that wait in its
/// direction.
#[inline(always)]
pub(crate) fn append_next<A: Allocator>(
    reader: &mut PieceReader<'_>,
    to_server: &mut WaitingBytes<A>,
    to_client: &mut WaitingBytes<A>,
) -> Result<Option<Appended>, RecordingError>
    requires { reader.old.number + length reader.old.rest.now < 2 ^ 64 }
    ensures read { IfOk result (λ found. (text : List ℕ) (pieces : List Piece)
        → IsReadUpTo text reader.old.rest.now reader.old.number pieces
        → MatchOption found (TextRecords text pieces)
        (λ appended. (piece : Piece)
        × IsReadUpTo text reader.new.rest.now reader.new.number (pieces ++ piece ∷ [])
        × IsAppended piece appended to_server.old to_server.new to_client.old to_client.new)) }
    ensures none { IfOk result (λ found. IfNone found
        ((to_server.new ≡ to_server.old) × (to_client.new ≡ to_client.old))) }
    ensures bad { IfErr result (λ e. (text : List ℕ) (pieces : List Piece)
        → IsReadUpTo text reader.old.rest.now reader.old.number pieces
        → (e ≡ Memory) ⊎ ((n : ℕ) × (e ≡ BadLine n) × IsFirstBad text n)) }
    ensures shorter { IfOk result (λ found. IfSome found
        (λ appended. length reader.new.rest.now < length reader.old.rest.now)) }
{
    reader.append_next(&mut to_server.items, &mut to_client.items)
}

impl<A: Allocator> WaitingBytes<A> {
    /// None.
    pub(crate) fn new(alloc: A) -> Self
        ensures { result ≡ [] }
    {
        WaitingBytes {
            items: Vec::new(alloc),
        }
    }

    pub(crate) fn as_slice(&self) -> &[u8]
        ensures { result.now ≡ self.now }
    {
        self.items.as_slice()
    }

    pub(crate) fn len(&self) -> usize
        ensures { result ≡ length self.now }
    {
        self.items.len()
    }

    /// Appends bytes.
    pub(crate) fn append(&mut self, bytes: &[u8]) -> Result<(), AllocError>
        ensures ok { OnOk result (self.new ≡ self.old ++ bytes.now) }
        ensures err { OnErr result (self.new ≡ self.old) }
    {
        self.items.extend_from_slice(bytes)
    }

    /// Restores the first `len` bytes, which were here before more was appended. The room made for
    /// more is given back, if there is memory to move them.
    pub(crate) fn go_back(&mut self, len: usize)
        ensures { self.new ≡ take len self.old }
    {
        self.items.truncate(len);
        self.items.shrink_to_fit();
    }

    /// Removes the bytes before a place, and keeps the room.
    pub(crate) fn remove_front(&mut self, place: usize)
        requires { place ≤ length self.old }
        ensures { self.new ≡ drop place self.old }
    {
        if place == self.items.len() {
            self.items.clear();
        } else if place > 0 {
            drop(self.items.drain(..place));
        }
    }

    /// Removes the bytes before a place, and keeps little spare room.
    pub(crate) fn keep_from(&mut self, place: usize)
        requires { place ≤ length self.old }
        ensures { self.new ≡ drop place self.old }
    {
        if place == 0 {
            return;
        }
        self.remove_front(place);
        if self.items.capacity() > ROOM_KEPT {
            self.items.shrink_to_fit();
        }
    }
}
