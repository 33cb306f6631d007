//! A reader that keeps a copy of what it reads.
ghost use Rattle.std.specs.Prelude.{◌≡◌, ◌≤◌, ◌+◌, ◌++◌, [], length, IfOk, IfErr, OnOk, OnErr};
ghost use Rattle.std.specs.Prelude.{IsErr};
ghost use Rattle.std.specs.Io.{ReadsAtMost};
ghost use Rattle.std.specs.Io.KnownBytes.{ReadConsumes};
ghost use Rattle.std.specs.IoError.{error_kind};
ghost use types.Logic.{sem};
ghost use denote.Follow.{follows};
ghost use Rattle.wl_recording.specs.Piece.{passed};
ghost use Rattle.wl_session.specs.Copied.{room_left, with_copied, emptied, Copies};
ghost use Rattle.wl_session.specs.Tee.{with_reader};
ghost use Rattle.wl_session.specs.contracts.tee.Tee.{the_row};

use std::alloc::{AllocError, Allocator, Global};
use std::io::{self, ErrorKind, Read};
use std::marker::Model;
use wl_recording::{Direction, Recording};

/// Bytes that were copied, with room reserved for all that may be.
#[derive(Drop)]
pub(crate) struct Copied<A: Allocator> {
    bytes: Vec<u8, A>,
    room: usize,
}

impl<A: Allocator> Model for Copied<A> {
    ghost use Rattle.std.specs.Prelude.{◌≤◌, length, vec_capacity};
    ghost use Rattle.wl_session.specs.Copied.{Copy};

    ghost Value = { Copy };

    ghost view = { λ c. record { bytes = c.bytes.items; room = c.room } };

    ghost invariant = { λ c. record {
      within : length c.bytes.items ≤ c.room;
      reserved : c.room ≤ vec_capacity c.bytes;
    } };
}

impl<A: Allocator> Copied<A> {
    /// No bytes, with room for this many.
    fn new(alloc: A, room: usize) -> Result<Self, AllocError>
        ensures { IfOk result (λ c. c ≡ record { bytes = []; room = room }) }
    {
        Ok(Copied {
            bytes: Vec::with_capacity(alloc, room)?,
            room,
        })
    }

    /// How many bytes there is still room for.
    fn left(&self) -> usize
        ensures left { result ≡ room_left self.now }
        ensures within { length self.now.bytes + result ≡ self.now.room }
    {
        self.room - self.bytes.len()
    }

    /// Appends bytes, for which there must be room.
    fn add(&mut self, bytes: &[u8])
        requires { length bytes.now ≤ room_left self.old }
        ensures { self.new ≡ with_copied self.old bytes.now }
    {
        // Room was reserved, so this does not allocate and cannot fail.
        let _ = self.bytes.extend_from_slice(bytes);
    }

    /// Adds all bytes to a recording as one piece (nothing if there are none), and then holds none.
    fn move_to<B: Allocator + Clone>(
        &mut self,
        recording: &mut Recording<B>,
        direction: Direction,
    ) -> Result<(), AllocError>
        ensures ok { OnOk result
            ((recording.new ≡ recording.old ++ passed direction self.old.bytes 0)
            × (self.new ≡ emptied self.old)) }
        ensures err { OnErr result ((recording.new ≡ recording.old) × (self.new ≡ self.old)) }
    {
        recording.add(direction, &self.bytes, 0)?;
        self.bytes.clear();
        Ok(())
    }
}

/// A reader with a copy of what was read from it, which can be added to a recording.
#[derive(Drop)]
pub struct Tee<R, A: Allocator = Global> {
    reader: R,
    copied: Copied<A>,
}

impl<R: Read, A: Allocator> Tee<R, A> {
    /// Wraps this reader, with room to copy `room` bytes until `add_to` is called.
    pub fn new(alloc: A, reader: R, room: usize) -> Result<Self, AllocError>
    where
        R: Drop,
        ensures { IfOk result (λ t. (t.reader ≡ reader)
            × (t.copied ≡ record { bytes = []; room = room })) }
    {
        let copied = Copied::new(alloc, room)?;
        Ok(Tee { reader, copied })
    }

    /// The reader itself, for example to write to a stream that goes both ways. What is read
    /// directly from it is not copied.
    pub fn reader(&mut self) -> &mut R
        ensures value { result.now ≡ self.old.reader }
        ensures* writes_back { sem 𝓛 (follows (the_row R.row A.row A.Allocator) R.row
            self.entry.ghost_name result.ghost_name (with_reader self.old)) }
    {
        &mut self.reader
    }

    /// Adds what was read since the last call of `add_to` to a recording, as one piece in this
    /// direction; nothing if nothing was read. Then the whole room is free again. Out of memory
    /// changes nothing.
    pub fn add_to<B: Allocator + Clone>(
        &mut self,
        recording: &mut Recording<B>,
        direction: Direction,
    ) -> Result<(), AllocError>
        ensures ok { OnOk result
            ((recording.new ≡ recording.old ++ passed direction self.old.copied.bytes 0)
            × (self.new.copied ≡ emptied self.old.copied)) }
        ensures err { OnErr result
            ((recording.new ≡ recording.old) × (self.new.copied ≡ self.old.copied)) }
        ensures reader { self.new.reader ≡ self.old.reader }
    {
        self.copied.move_to(recording, direction)
    }
}

impl<R: Read, A: Allocator> Read for Tee<R, A> {
    ghost remaining = { λ t. R.remaining t.reader };

    /// Asks the reader for at most as many bytes as there is room to copy. Without such room this
    /// fails with `StorageFull` and reads nothing. Any other error is the reader's own.
    fn read(&mut self, buf: &mut [u8]) -> io::Result<usize>
        ensures bound { ReadsAtMost result buf.new }
        ensures bytes { ReadConsumes (R.remaining self.old.reader) (R.remaining self.new.reader)
            result buf.new }
        ensures copies { Copies self.old.copied result buf.new self.new.copied }
        ensures room { IfOk result (λ n. n ≤ room_left self.old.copied) }
        ensures full { room_left self.old.copied ≡ 0 → IsErr result × (self.new ≡ self.old) }
        ensures kind { room_left self.old.copied ≡ 0
            → IfErr result (λ e. error_kind e ≡ ErrorKind.StorageFull) }
    {
        let left = self.copied.left();
        if left == 0 {
            return Err(io::Error::from(ErrorKind::StorageFull));
        }
        let most = buf.len().min(left);
        let n = self.reader.read(&mut buf[..most])?;
        self.copied.add(&buf[..n]);
        Ok(n)
    }
}
