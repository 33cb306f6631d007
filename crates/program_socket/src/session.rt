//! The session over two streams.
ghost use Rattle.std.specs.Prelude.{◌≡◌, ◌↔◌, ◌∷◌, [], IfOk, OnOk, IsTrue};
ghost use Rattle.theory_connection.specs.Runs.{Agree};
ghost use Rattle.wl_session.specs.Room.{HaveSameRows, NoEventMakes, client_count, object_count};
ghost use Rattle.program_socket.specs.Streams.{known_stream};
ghost use Rattle.program_socket.specs.Playing.{PlaysOver, ClientTurn, ServerTurn, begin};
ghost use Rattle.program_socket.specs.Playing.{socket_steps};
ghost use Rattle.program_socket.specs.Sessions.{connected};
ghost use Rattle.program_socket.specs.Socket.{Ends};

use crate::error::SocketError;
use crate::turn::{deliver, flush_all, receive};
use program_demo::SIZES;
use std::alloc::Allocator;
use std::io::{Read, Write};
use wl_client::Client;
use wl_connection::End;
use wl_objects::{SlotTable, Table};
use wl_server::Server;
use wl_session::{Direction, Recording, object_count, same_rows};
use wl_sigs::Tables;

/// How a session over streams ended.
#[derive(Debug, Drop)]
pub struct SessionOutcome<A: Allocator> {
    /// What passed, a piece for each turn.
    pub recording: Recording<A>,
    /// Whether both ends have the same objects.
    pub agree: bool,
    /// How many objects they have.
    pub objects: usize,
}

/// Plays the session of the demonstration over two connected streams, turn by turn: one end writes
/// all that waits, then the other reads until as many bytes have come.
///
/// A read or write that fails is repeated, `retries` times in total; the next failure ends the
/// session with `Failed`. So does an end of input before all has come.
pub fn socket_session<A, C, S>(
    alloc: A,
    tables: &Tables,
    client: C,
    server: S,
    retries: usize,
) -> Result<SessionOutcome<A>, SocketError>
where
    A: Allocator + Clone + Drop,
    C: Read + Write + Drop,
    S: Read + Write + Drop,
    ensures { IfOk result (λ played. Ends (known_stream C.remaining C.contents)
        (known_stream S.remaining S.contents) tables.now client server played.recording played.agree
        played.objects) }
{
    let mut session: Session<'_, SlotTable<A>, C, S> = Session::new(
        alloc, tables, client, server, retries,
    )?;
    session.play(tables)?;
    Ok(session.ended())
}

/// Both ends, the stream of each, and what has passed.
#[derive(Drop)]
pub(crate) struct Session<'t, T: Table, C, S> {
    pub(crate) client: Client<'t, T>,
    pub(crate) server: Server<'t, T>,
    pub(crate) client_stream: C,
    pub(crate) server_stream: S,
    pub(crate) recording: Recording<T::Alloc>,
    pub(crate) retries: usize,
    /// Allocates what is read.
    pub(crate) alloc: T::Alloc,
}

impl<'t, T: Table + Drop, C: Read + Write + Drop, S: Read + Write + Drop> Session<'t, T, C, S> {
    fn new(
        alloc: T::Alloc,
        tables: &'t Tables,
        client: C,
        server: S,
        retries: usize,
    ) -> Result<Self, SocketError>
        ensures { IfOk result (λ session. connected session ≡ begin tables.now client server) }
    {
        let recording = Recording::new(alloc.clone()?);
        Ok(Session {
            client: Client::new(alloc.clone()?, tables, SIZES)?,
            server: Server::new(alloc.clone()?, tables, SIZES)?,
            client_stream: client,
            server_stream: server,
            recording,
            retries,
            alloc,
        })
    }

    /// A client binds two globals, asks for a callback, and makes, commits and destroys a surface.
    fn play(&mut self, tables: &Tables) -> Result<(), SocketError>
        ensures { OnOk result (PlaysOver (known_stream C.remaining C.contents)
            (known_stream S.remaining S.contents) (socket_steps tables.now) (connected self.old)
            (connected self.new)) }
    {
        self.add_globals(tables)?;
        self.get_registry()?;
        self.to_server()?;
        self.announce_globals()?;
        self.to_client()?;
        self.bind_globals()?;
        self.to_server()?;
        self.finish_callback()?;
        self.to_client()?;
        self.draw_surface()?;
        self.to_server()?;
        self.to_client()
    }

    /// What the client has written goes to the server, which reads it.
    fn to_server(&mut self) -> Result<(), SocketError>
        ensures { OnOk result (PlaysOver (known_stream C.remaining C.contents)
            (known_stream S.remaining S.contents) (ClientTurn ∷ []) (connected self.old)
            (connected self.new)) }
    {
        let count = flush_all(&mut self.client, &mut self.client_stream, &mut self.retries)?;
        let bytes = receive(
            self.alloc.clone()?,
            &mut self.server_stream,
            count,
            &mut self.retries,
        )?;
        self.recording.add(Direction::ToServer, &bytes, 0)?;
        deliver(self.alloc.clone()?, &mut self.server, &bytes)
    }

    /// What the server has written goes to the client, which reads it.
    fn to_client(&mut self) -> Result<(), SocketError>
        ensures { OnOk result (PlaysOver (known_stream C.remaining C.contents)
            (known_stream S.remaining S.contents) (ServerTurn ∷ []) (connected self.old)
            (connected self.new)) }
    {
        let count = flush_all(&mut self.server, &mut self.server_stream, &mut self.retries)?;
        let bytes = receive(
            self.alloc.clone()?,
            &mut self.client_stream,
            count,
            &mut self.retries,
        )?;
        self.recording.add(Direction::ToClient, &bytes, 0)?;
        deliver(self.alloc.clone()?, &mut self.client, &bytes)
    }

    /// What passed, and whether both ends now have the same objects.
    fn ended(self) -> SessionOutcome<T::Alloc>
        ensures agree { IsTrue result.agree
            ↔ Agree self.entry.client.core.view self.entry.server.core.view }
        ensures objects { result.objects
            ≡ object_count self.entry.client.core.view self.entry.server.core.view }
        ensures rows { NoEventMakes self.entry.client.core self.entry.server.core
            → IsTrue result.agree
            ↔ HaveSameRows self.entry.client.core.view self.entry.server.core.view }
        ensures of_client { NoEventMakes self.entry.client.core self.entry.server.core
            → result.objects ≡ client_count self.entry.client.core.view }
        ensures passed { result.recording ≡ self.entry.recording }
    {
        SessionOutcome {
            agree: same_rows(&self.client, &self.server),
            objects: object_count(&self.client, &self.server),
            recording: self.recording,
        }
    }
}
