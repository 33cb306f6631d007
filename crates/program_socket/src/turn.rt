//! One turn: what one end has written goes into its stream, and the other end reads as many bytes
//! from its own.
ghost use Rattle.std.specs.Prelude.{◌≡◌, ◌+◌, [], length, IfOk, OnOk, OnErr, List, None};
ghost use Rattle.std.specs.Io.KnownBytes.{Consumes};
ghost use Rattle.wl_message.specs.Outgoing.{waiting_bytes};
ghost use Rattle.wl_connection.specs.Reads.{Reads, with_arrivals, reading_of};
ghost use Rattle.program_socket.specs.Streams.{CountsRead, Sends};

use crate::error::SocketError;
use std::alloc::Allocator;
use std::io::{self, Read, Write};
use wl_connection::{End, Receiver, read_all};
use wl_message::FlushError;

/// How many bytes are read at once.
const MOST: usize = 4096;

/// Writes all that waits at an end, and returns how many bytes that was.
pub(crate) fn flush_all<E: End, W: Write>(
    end: &mut E,
    writer: &mut W,
    retries: &mut usize,
) -> Result<usize, SocketError>
    ensures sends { OnOk result (Sends (E.core end.old) (W.contents writer.old) (E.core end.new)
        (W.contents writer.new)) }
    ensures count { IfOk result (λ n. n ≡ length (waiting_bytes (E.core end.old).outbox)) }
    ensures others { OnOk result (end.new ≡ E.with_core end.old (E.core end.new)) }
{
    let mut count = 0usize;
    'tries: loop {
        match end.flush(writer) {
            Ok(written) => return counted(count, written),
            Err(FlushError::Io { written }) => {
                count = counted(count, written)?;
                try_again(retries)?;
            }
            Err(FlushError::NeedsTokens { .. }) => return Err(SocketError::Failed),
        }
    }
}

/// The sum of these numbers of bytes, if it can be counted.
fn counted(count: usize, more: usize) -> Result<usize, SocketError>
    ensures { IfOk result (λ all. all ≡ count + more) }
{
    count.checked_add(more).ok_or(SocketError::Failed)
}

/// Reads this number of bytes.
pub(crate) fn receive<R: Read, A: Allocator>(
    alloc: A,
    reader: &mut R,
    count: usize,
    retries: &mut usize,
) -> Result<Vec<u8, A>, SocketError>
    ensures count { IfOk result (λ bytes. length bytes.items ≡ count) }
    ensures given { IfOk result (λ bytes.
        Consumes (R.remaining reader.old) (R.remaining reader.new) bytes.items) }
{
    let mut bytes = Vec::with_capacity(alloc, count)?;
    let mut buffer = [0u8; MOST];
    'reads: while bytes.len() < count {
        let most = MOST.min(count - bytes.len());
        let n = counted_read(reader.read(&mut buffer[..most]), retries)?;
        bytes.extend_from_slice(&buffer[..n])?;
    }
    Ok(bytes)
}

/// How many bytes a read returned; 0 if it failed and is to be repeated. It fails at the end of the
/// input, whatever retries are left, and if a read failed and no retry is left.
fn counted_read(read: io::Result<usize>, retries: &mut usize) -> Result<usize, SocketError>
    ensures { CountsRead read result retries.old retries.new }
{
    match read {
        Ok(0) => Err(SocketError::Failed),
        Ok(n) => Ok(n),
        Err(_) => {
            try_again(retries)?;
            Ok(0)
        }
    }
}

/// Gives bytes to an end, which then reads all messages that wait.
pub(crate) fn deliver<E: Receiver, A: Allocator>(
    alloc: A,
    end: &mut E,
    bytes: &[u8],
) -> Result<(), SocketError>
    ensures { OnOk result ((reports : List E.Seen)
        × Reads (reading_of E.core E.with_core E.answer E.after E.is_last)
        (with_arrivals (reading_of E.core E.with_core E.answer E.after E.is_last) end.old bytes.now
        [])
        reports None end.new) }
{
    if end.feed(bytes, &[]).bytes < bytes.len() {
        return Err(SocketError::Failed);
    }
    let mut reports = Vec::new(alloc);
    match read_all(end, &[], &mut reports).stop {
        Some(error) => Err(SocketError::from(error)),
        None => Ok(()),
    }
}

/// Uses up one of the retries, or fails if none is left.
fn try_again(retries: &mut usize) -> Result<(), SocketError>
    ensures used { OnOk result (retries.new + 1 ≡ retries.old) }
    ensures none { OnErr result (retries.old ≡ 0) }
{
    if *retries == 0 {
        return Err(SocketError::Failed);
    }
    *retries -= 1;
    Ok(())
}
