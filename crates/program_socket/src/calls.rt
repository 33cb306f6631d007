//! The calls of the session, as its two ends make them.
ghost use Rattle.std.specs.Prelude.{◌≡◌, IfOk, OnOk};
ghost use Rattle.wl_objects.specs.Writing.{given};
ghost use Rattle.theory_connection.specs.Pair.{AddGlobal, Announce, ClientBind, ClientSend};
ghost use Rattle.theory_connection.specs.Pair.{ServerSend};
ghost use Rattle.program_demo.specs.Moves as session;
ghost use Rattle.program_socket.specs.Streams.{known_stream};
ghost use Rattle.program_socket.specs.Playing.{Accepts, PlaysOver, calls};
ghost use Rattle.program_socket.specs.Sessions.{connected};

use crate::error::SocketError;
use crate::session::Session;
use program_demo::{CALLBACK, COMPOSITOR, DISPLAY, REGISTRY, SURFACE};
use std::io::{Read, Write};
use wl_objects::{Arg, Object, Table};
use wl_sigs::{Tables, event, request};
use wl_wire::Iface;

impl<'t, T: Table + Drop, C: Read + Write + Drop, S: Read + Write + Drop> Session<'t, T, C, S> {
    /// The server adds two globals.
    pub(crate) fn add_globals(&mut self, tables: &Tables) -> Result<(), SocketError>
        ensures { OnOk result (PlaysOver (known_stream C.remaining C.contents)
            (known_stream S.remaining S.contents) (calls (session.adding_globals tables.now))
            (connected self.old) (connected self.new)) }
    {
        self.add_global(interface(tables, b"wl_compositor")?, 6)?;
        self.add_global(interface(tables, b"wl_seat")?, 9)
    }

    /// The client asks for the registry.
    pub(crate) fn get_registry(&mut self) -> Result<(), SocketError>
        ensures { OnOk result (PlaysOver (known_stream C.remaining C.contents)
            (known_stream S.remaining S.contents) (calls session.getting_registry)
            (connected self.old) (connected self.new)) }
    {
        self.send_request(DISPLAY, request::wl_display::GET_REGISTRY, &[Arg::New])
    }

    /// The server writes the events that the registry still needs.
    pub(crate) fn announce_globals(&mut self) -> Result<(), SocketError>
        ensures { OnOk result (PlaysOver (known_stream C.remaining C.contents)
            (known_stream S.remaining S.contents) (calls session.announcing_globals)
            (connected self.old) (connected self.new)) }
    {
        self.announce()
    }

    /// The client binds both globals and asks for a callback.
    pub(crate) fn bind_globals(&mut self) -> Result<(), SocketError>
        ensures { OnOk result (PlaysOver (known_stream C.remaining C.contents)
            (known_stream S.remaining S.contents) (calls session.binding_globals)
            (connected self.old) (connected self.new)) }
    {
        self.bind(1, b"wl_compositor", 6)?;
        self.bind(2, b"wl_seat", 9)?;
        self.send_request(DISPLAY, request::wl_display::SYNC, &[Arg::New])
    }

    /// The server answers the callback.
    pub(crate) fn finish_callback(&mut self) -> Result<(), SocketError>
        ensures { OnOk result (PlaysOver (known_stream C.remaining C.contents)
            (known_stream S.remaining S.contents) (calls session.finishing_callback)
            (connected self.old) (connected self.new)) }
    {
        self.send_event(CALLBACK, event::wl_callback::DONE, &[Arg::Uint(1)])
    }

    /// The client makes a surface, commits it and destroys it.
    pub(crate) fn draw_surface(&mut self) -> Result<(), SocketError>
        ensures { OnOk result (PlaysOver (known_stream C.remaining C.contents)
            (known_stream S.remaining S.contents) (calls session.drawing_surface)
            (connected self.old) (connected self.new)) }
    {
        self.send_request(
            COMPOSITOR,
            request::wl_compositor::CREATE_SURFACE,
            &[Arg::New],
        )?;
        self.send_request(SURFACE, request::wl_surface::COMMIT, &[])?;
        self.send_request(SURFACE, request::wl_surface::DESTROY, &[])
    }

    fn add_global(&mut self, iface: Iface, version: u32) -> Result<(), SocketError>
        ensures { OnOk result (Accepts (AddGlobal iface version) (connected self.old)
            (connected self.new)) }
    {
        self.server.add_global(iface, version)?;
        Ok(())
    }

    fn announce(&mut self) -> Result<(), SocketError>
        ensures { OnOk result (Accepts Announce (connected self.old) (connected self.new)) }
    {
        self.server.announce()?;
        Ok(())
    }

    fn bind(&mut self, name: u32, iface: &[u8], version: u32) -> Result<(), SocketError>
        ensures { OnOk result (Accepts (ClientBind session.the_registry name iface.now version)
            (connected self.old) (connected self.new)) }
    {
        self.client.bind(REGISTRY, name, iface, version)?;
        Ok(())
    }

    fn send_request(
        &mut self,
        target: Object,
        opcode: u16,
        args: &[Arg<'_>],
    ) -> Result<(), SocketError>
        ensures { OnOk result (Accepts (ClientSend target opcode (given args.now))
            (connected self.old) (connected self.new)) }
    {
        self.client.send(target, opcode, args)?;
        Ok(())
    }

    fn send_event(
        &mut self,
        target: Object,
        opcode: u16,
        args: &[Arg<'_>],
    ) -> Result<(), SocketError>
        ensures { OnOk result (Accepts (ServerSend target opcode (given args.now))
            (connected self.old) (connected self.new)) }
    {
        self.server.send(target, opcode, args)?;
        Ok(())
    }
}

/// The interface of this name.
fn interface(tables: &Tables, name: &[u8]) -> Result<Iface, SocketError>
    ensures { IfOk result (λ iface. session.interface_or_display tables.now name.now ≡ iface) }
{
    tables.interface(name).ok_or(SocketError::Failed)
}
