//! The session of both ends over a socket that is bound, connected to itself, and removed.
ghost use Rattle.std.specs.Prelude.{◌≡◌, [], IfOk, IfErr, Ok, OnOk};
ghost use Rattle.wl_sigs.specs.Core.{core_tables};
ghost use Rattle.program_socket.specs.Socket.{IsShownOverStreams};
ghost use Rattle.program_jobs.specs.Failing.{IsCalled};
ghost use Rattle.program_jobs.specs.Output.{IsSocketRefusal};

use crate::acting::Printed;
use crate::failure::Failure;
use program_arguments::status;
use program_socket::socket_text;
use std::alloc::{Allocator, Global};
use std::io::{self, Read, Write};
use wl_sigs::Tables;

/// A socket that the program has bound to a path.
///
/// Generic code cannot drop it, so every exit of a session must remove the path.
pub trait BoundSocket {
    ghost use Rattle.std.specs.Prelude.{Result, ⊤};
    ghost use Rattle.std.specs.declared.io.Error.{Error};

    // The result of removing this socket's path.
    ghost removes: { Self → Result ⊤ Error → Type 0 } = { λ _ _. ⊤ };

    /// One end of a connection, closed when it is dropped.
    type Stream: Read + Write + Drop;

    /// One end of a new connection to this socket.
    fn connect(&self) -> io::Result<Self::Stream>;

    /// The other end of the connection that was made first.
    fn accept(&self) -> io::Result<Self::Stream>;

    /// Removes the path.
    fn remove(self) -> io::Result<()>
        ensures { removes self result };
}

/// What the session over a bound socket prints, if its path was removed. The removal is tried
/// however the session ended.
pub(crate) fn run_over_socket<A: Allocator + Clone + Drop, B: BoundSocket>(
    alloc: A,
    global: Global,
    bound: B,
) -> Result<Printed<A>, Failure<'static>>
    ensures shows { IfOk result (λ o. IsShownOverStreams core_tables o.text.items
        × (o.hint.items ≡ []) × (o.status ≡ 0)) }
    ensures refused { IfErr result IsSocketRefusal }
    ensures removed { OnOk result (B.removes bound (Ok tt)) }
{
    let text = play_session(alloc, global, &bound);
    let removed = called(bound.remove());
    let text = text?;
    removed?;
    let hint = Vec::new(text.allocator().clone()?);
    Ok(Printed {
        text,
        hint,
        status: status::SUCCESS,
    })
}

/// The session over the two ends of one connection.
fn play_session<A: Allocator + Clone + Drop, B: BoundSocket>(
    alloc: A,
    global: Global,
    bound: &B,
) -> Result<Vec<u8, A>, Failure<'static>>
    ensures shows { IfOk result (λ text. IsShownOverStreams core_tables text.items) }
    ensures refused { IfErr result IsSocketRefusal }
{
    let client = called(bound.connect())?;
    let server = called(bound.accept())?;
    Ok(socket_text(alloc, &Tables::core(global)?, client, server)?)
}

/// The result of a call of the socket, or why it failed.
fn called<T: Drop>(call: io::Result<T>) -> Result<T, Failure<'static>>
    ensures { IsCalled call result }
{
    match call {
        Ok(given) => Ok(given),
        Err(error) => Err(Failure::of_socket(&error)),
    }
}
