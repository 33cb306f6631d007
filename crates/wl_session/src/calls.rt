//! The calls of the two ends, as the pair makes them: what each does to both ends and to the
//! recording.
ghost use Rattle.std.specs.Prelude.{◌≡◌};
ghost use Rattle.wl_objects.specs.Writing.{given};
ghost use Rattle.wl_connection.specs.Outcomes.{some_object};
ghost use Rattle.wl_client.specs.Seen as client_seen;
ghost use Rattle.wl_server.specs.Seen as server_seen;
ghost use Rattle.theory_connection.specs.Pair.{Does, ClientSend, ClientBind, ServerSend};
ghost use Rattle.theory_connection.specs.Pair.{ServerDrop, PostError, AddGlobal, Withdraw};
ghost use Rattle.theory_connection.specs.Pair.{Announce, ClientNext, ServerNext};
ghost use Rattle.wl_session.specs.Meaning.{counted};

use crate::pair::Pair;
use wl_client::OwnedIncoming;
use wl_objects::{Arg, NextError, Object, SendError, Table};
use wl_server::{Announced, GlobalError, OwnedRequest};
use wl_wire::Iface;

impl<'t, T: Table> Pair<'t, T> {
    pub(crate) fn client_send(
        &mut self,
        target: Object,
        opcode: u16,
        args: &[Arg<'_>],
    ) -> Result<Option<Object>, SendError>
        ensures { Does self.old (ClientSend target opcode (given args.now))
            (ClientSend result) self.new }
    {
        self.client.send(target, opcode, args)
    }

    pub(crate) fn client_bind(
        &mut self,
        registry: Object,
        name: u32,
        iface: &[u8],
        version: u32,
    ) -> Result<Object, SendError>
        ensures { Does self.old (ClientBind registry name iface.now version)
            (ClientBind (some_object result)) self.new }
    {
        self.client.bind(registry, name, iface, version)
    }

    pub(crate) fn server_send(
        &mut self,
        target: Object,
        opcode: u16,
        args: &[Arg<'_>],
    ) -> Result<Option<Object>, SendError>
        ensures { Does self.old (ServerSend target opcode (given args.now))
            (ServerSend result) self.new }
    {
        self.server.send(target, opcode, args)
    }

    pub(crate) fn server_drop(&mut self, object: Object) -> Result<(), SendError>
        ensures { Does self.old (ServerDrop object) (ServerDrop result) self.new }
    {
        self.server.drop_object(object)
    }

    /// The first error that is accepted sets `ended_at`.
    pub(crate) fn post_error(
        &mut self,
        object: Object,
        code: u32,
        text: &[u8],
    ) -> Result<(), SendError>
        ensures { Does self.old (PostError object code text.now) (PostError result) self.new }
    {
        self.server.post_error(object, code, text)?;
        if self.ended_at.is_none() {
            self.ended_at = Some(self.recording.pieces().len());
        }
        Ok(())
    }

    pub(crate) fn add_global(&mut self, iface: Iface, version: u32) -> Result<u32, GlobalError>
        ensures { Does self.old (AddGlobal iface version) (AddGlobal result) self.new }
    {
        self.server.add_global(iface, version)
    }

    pub(crate) fn withdraw(&mut self, name: u32) -> Result<(), GlobalError>
        ensures { Does self.old (Withdraw name) (Withdraw result) self.new }
    {
        self.server.withdraw(name)
    }

    pub(crate) fn announce(&mut self) -> Result<usize, SendError>
        ensures { Does self.old Announce (Announce result) self.new }
    {
        let told = self.server.announce();
        counted(told)
    }

    pub(crate) fn client_next(&mut self) -> Result<Option<OwnedIncoming<T::Alloc>>, NextError>
        ensures { Does self.old ClientNext (ClientNext (client_seen.report_in result)) self.new }
    {
        self.client.next_owned()
    }

    pub(crate) fn server_next(&mut self) -> Result<Option<OwnedRequest<T::Alloc>>, NextError>
        ensures { Does self.old ServerNext (ServerNext (server_seen.report_in result)) self.new }
    {
        self.server.next_owned()
    }
}

/// What announcing answers, by the number of events alone.
fn counted(told: Result<Announced, SendError>) -> Result<usize, SendError>
    ensures { result ≡ counted told }
{
    match told {
        Ok(told) => Ok(told.count),
        Err(why) => Err(why),
    }
}
