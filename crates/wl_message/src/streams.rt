//! Queues and streams.
ghost use Rattle.std.specs.Prelude.{◌≡◌, Err};
ghost use Rattle.wl_message.specs.Streams.{Flushes, Fills};

use crate::inbox::Inbox;
use crate::outbox::Outbox;
use std::alloc::Allocator;
use std::error::Error;
use std::fmt::{self, Display, Formatter};
use std::io::{Read, Write};

/// Why bytes are left in an outbox after a `flush`.
#[derive(Clone, Copy, Debug, PartialEq, Eq)]
pub enum FlushError {
    /// FL1: a write failed, or took no byte.
    Io {
        /// The number of bytes that were written before.
        written: usize,
    },
    /// FL2: the next message has tokens, and a writer takes none.
    NeedsTokens {
        /// The number of bytes that were written before.
        written: usize,
    },
}

impl Display for FlushError {
    ghost use Rattle.std.specs.Prelude.{Some};
    ghost use Rattle.wl_message.specs.Streams.{flush_error_text};

    ghost output = { λ error. Some (flush_error_text error) };

    fn fmt<W: fmt::Write>(&self, f: &mut Formatter<W>) -> fmt::Result {
        match *self {
            FlushError::Io { written } => write!(f, "writing failed after {written} bytes"),
            FlushError::NeedsTokens { written } => {
                write!(
                    f,
                    "the next message needs its tokens, after {written} bytes"
                )
            }
        }
    }
}

impl Error for FlushError {}

/// Why a `fill` read nothing.
#[derive(Clone, Copy, Debug, PartialEq, Eq)]
pub enum FillError {
    /// FI1: the read failed.
    Io,
    /// FI2: no byte of the inbox is free, and nothing was read.
    NoRoom,
}

impl Display for FillError {
    ghost use Rattle.std.specs.Prelude.{Some};
    ghost use Rattle.wl_message.specs.Streams.{fill_error_text};

    ghost output = { λ error. Some (fill_error_text error) };

    fn fmt<W: fmt::Write>(&self, f: &mut Formatter<W>) -> fmt::Result {
        match self {
            FillError::Io => f.write_str("reading failed"),
            FillError::NoRoom => f.write_str("inbox is full"),
        }
    }
}

impl Error for FillError {}

/// Writes the bytes that wait, and returns their number. What was written is removed from the
/// outbox.
///
/// It sends no tokens: it stops with `NeedsTokens` before a message that is not begun and has
/// tokens. It stops with `Io` if a write fails (also if it is interrupted) or takes no byte; it can
/// then be called again. What was not written stays in the outbox. Allocates nothing.
pub fn flush<A: Allocator, W: Write>(
    outbox: &mut Outbox<A>,
    writer: &mut W,
) -> Result<usize, FlushError>
    ensures { Flushes outbox.old (W.contents writer.old) result outbox.new
        (W.contents writer.new) }
{
    let total = outbox.tokenless_len();
    let mut written = 0;
    'parts: while written < total {
        match writer.write(outbox.part(total - written)) {
            Ok(0) => return Err(FlushError::Io { written }),
            Ok(n) => {
                outbox.skip(n);
                written += n;
            }
            Err(_) => return Err(FlushError::Io { written }),
        }
    }
    if outbox.is_empty() {
        Ok(written)
    } else {
        Err(FlushError::NeedsTokens { written })
    }
}

/// Reads once, at most 4096 bytes and at most as many as are free, and appends what was read to the
/// bytes that wait. Returns their number; 0 is the end of the input.
///
/// If the read fails (also if it is interrupted), nothing is taken in, and the call can be made
/// again. With `NoRoom` nothing is read. Allocates nothing.
pub fn fill<A: Allocator, R: Read>(inbox: &mut Inbox<A>, reader: &mut R) -> Result<usize, FillError>
    ensures fills { Fills inbox.old (R.remaining reader.old) result inbox.new
        (R.remaining reader.new) }
    ensures unread { result ≡ Err FillError.NoRoom → reader.new ≡ reader.old }
{
    if inbox.room() == 0 {
        return Err(FillError::NoRoom);
    }
    match inbox.read_from(reader) {
        Ok(n) => Ok(n),
        Err(_) => Err(FillError::Io),
    }
}
