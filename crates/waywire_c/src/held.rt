//! The targets of handles. Each has its own type, so a handle's proofs can name it in one word.
ghost use Rattle.std.specs.Prelude.{◌≡◌, false, OnErr, OnOk};
ghost use Rattle.std.specs.Result.{is_err};
ghost use Rattle.wl_connection.specs.MoreTables.{Extend, has_first_server_object, with_tables};
ghost use Rattle.waywire_c.specs.Ends.{core_of as core_of_end, end_with_core as end_by_core};

use std::io::{Read, Write};
use wl_check::{Follower, Inspector};
use wl_client::Client;
use wl_connection::{Core, End, FirstServerObject};
use wl_message::{Fed, FillError, FlushError, Taken};
use wl_objects::SlotTable;
use wl_server::Server;
use wl_sigs::Tables;

/// Tables. C frees them once no end and no inspector borrows them any more.
#[derive(Drop)]
pub struct HeldTables {
    pub tables: Tables,
}

/// A client or a server.
#[derive(Drop)]
pub enum HeldEnd {
    Client(Client<'static, SlotTable>),
    Server(Server<'static, SlotTable>),
}

impl HeldEnd {
    /// Replaces the end's tables with these, which extend them. Refused if these have the first
    /// event by which the server makes an object.
    pub fn more_tables(&mut self, tables: &'static Tables) -> Result<(), FirstServerObject>
        requires { Extend (core_of_end self.old).tables tables.now }
        ensures refused { is_err result
            ≡ has_first_server_object (core_of_end self.old).tables tables.now }
        ensures ok { OnOk result
            (self.new ≡ end_by_core self.old (with_tables (core_of_end self.old) tables.now)) }
        ensures err { OnErr result (self.new ≡ self.old) }
    {
        match self {
            HeldEnd::Client(client) => client.more_tables(tables),
            HeldEnd::Server(server) => server.more_tables(tables),
        }
    }

    /// Replaces the end's tables with these, which extend them and do not have the first event by
    /// which the server makes an object.
    pub fn take_tables(&mut self, tables: &'static Tables)
        requires extend { Extend (core_of_end self.old).tables tables.now }
        requires allowed { has_first_server_object (core_of_end self.old).tables tables.now
            ≡ false }
        ensures { self.new ≡ end_by_core self.old (with_tables (core_of_end self.old) tables.now) }
    {
        let _taken = self.more_tables(tables);
    }
}

/// An inspector, the follower of the same messages, and the verdict line that was last asked for.
#[derive(Drop)]
pub struct HeldInspector {
    pub inspector: Inspector<'static>,
    pub follower: Follower<'static>,
    pub line: Vec<u8>,
}

impl End for HeldEnd {
    ghost use Rattle.waywire_c.specs.Ends.{core_of, end_with_core, end_laws};

    type Table = SlotTable;

    ghost core = { core_of };

    ghost with_core = { end_with_core };

    fn core(&self) -> &Core<'_, SlotTable> {
        match self {
            HeldEnd::Client(client) => client.core(),
            HeldEnd::Server(server) => server.core(),
        }
    }

    fn feed(&mut self, bytes: &[u8], tokens: &[u32]) -> Fed {
        match self {
            HeldEnd::Client(client) => client.feed(bytes, tokens),
            HeldEnd::Server(server) => server.feed(bytes, tokens),
        }
    }

    fn take(&mut self, bytes: &mut [u8], tokens: &mut [u32]) -> Taken {
        match self {
            HeldEnd::Client(client) => client.take(bytes, tokens),
            HeldEnd::Server(server) => server.take(bytes, tokens),
        }
    }

    fn received(&mut self, bytes: usize, tokens: &[u32]) -> Fed {
        match self {
            HeldEnd::Client(client) => client.received(bytes, tokens),
            HeldEnd::Server(server) => server.received(bytes, tokens),
        }
    }

    fn sent(&mut self, bytes: usize) -> Taken {
        match self {
            HeldEnd::Client(client) => client.sent(bytes),
            HeldEnd::Server(server) => server.sent(bytes),
        }
    }

    fn fill<R: Read>(&mut self, reader: &mut R) -> Result<usize, FillError> {
        match self {
            HeldEnd::Client(client) => client.fill(reader),
            HeldEnd::Server(server) => server.fill(reader),
        }
    }

    fn flush<W: Write>(&mut self, writer: &mut W) -> Result<usize, FlushError> {
        match self {
            HeldEnd::Client(client) => client.flush(writer),
            HeldEnd::Server(server) => server.flush(writer),
        }
    }

    fn take_waiting_tokens(&mut self, tokens: &mut [u32]) -> usize {
        match self {
            HeldEnd::Client(client) => client.take_waiting_tokens(tokens),
            HeldEnd::Server(server) => server.take_waiting_tokens(tokens),
        }
    }

    ghost laws = { end_laws };
}
