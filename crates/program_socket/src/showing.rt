//! What is printed for the session.
ghost use Rattle.std.specs.Prelude.{IfOk};
ghost use Rattle.program_socket.specs.Streams.{known_stream};
ghost use Rattle.program_socket.specs.Socket.{ShowsSession};

use crate::error::SocketError;
use crate::session::{SessionOutcome, socket_session};
use program_demo::write_agreement;
use std::alloc::{AllocError, Allocator};
use std::io::{Read, Write};
use wl_message::Limit;
use wl_session::trace;
use wl_sigs::Tables;

/// What the program prints for the session over two connected streams: the lines of what passed,
/// and a last line, which says that both ends have the same objects, and how many. If they do not,
/// this fails. No read or write is repeated.
pub fn socket_text<A, C, S>(
    alloc: A,
    tables: &Tables,
    client: C,
    server: S,
) -> Result<Vec<u8, A>, SocketError>
where
    A: Allocator + Clone + Drop,
    C: Read + Write + Drop,
    S: Read + Write + Drop,
    ensures { IfOk result (λ text. ShowsSession (known_stream C.remaining C.contents)
        (known_stream S.remaining S.contents) tables.now client server text.items) }
{
    let played = socket_session(alloc.clone()?, tables, client, server, 0)?;
    if !played.agree {
        return Err(SocketError::Failed);
    }
    let (mut text, _verdict) = trace(alloc, &played.recording, tables, Limit::USUAL)?;
    write_agreement(&mut text, true, played.objects)?;
    Ok(text)
}
