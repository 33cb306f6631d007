//! A client and a server.
ghost use Rattle.std.specs.Prelude.{◌≡◌, ◌↔◌, ◌≤◌, false, IfOk, IsTrue, length};
ghost use Rattle.wl_sigs.specs.Rules.{has_server_objects};
ghost use Rattle.wl_sigs.specs.Valid.{Valid};
ghost use Rattle.wl_message.specs.Arrived.{AreSizes};
ghost use Rattle.wl_client.specs.State.{new_state as new_client};
ghost use Rattle.wl_server.specs.State.{new_state as new_server};
ghost use Rattle.wl_check.specs.Session.{IsLawful, session_of};
ghost use Rattle.theory_connection.specs.World.{World, opening_world};
ghost use Rattle.theory_connection.specs.Pair.{new_pair, drained};
ghost use Rattle.theory_connection.specs.Stands.{Stands};
ghost use Rattle.theory_recording.specs.Linked.{Linked, pair_limit};
ghost use Rattle.wl_session.specs.Room.{client_count, object_count};

use crate::agreeing::object_count;
use std::alloc::{AllocError, Allocator};
use std::marker::Model;
use wl_client::Client;
use wl_connection::End;
use wl_message::Sizes;
use wl_objects::{DISPLAY, Table};
use wl_recording::Recording;
use wl_server::Server;
use wl_sigs::Tables;

/// The most tokens that an inbox holds, and so the most that a carry moves.
const MOST_TOKENS: usize = 65_536;

/// A client and a server, joined directly, and what was carried from one to the other.
#[derive(Drop)]
pub struct Pair<'t, T: Table> {
    pub(crate) client: Client<'t, T>,
    pub(crate) server: Server<'t, T>,
    pub(crate) recording: Recording<T::Alloc>,
    pub(crate) ended_at: Option<usize>,
    // The bytes of a carry, while it moves them.
    pub(crate) bytes: Vec<u8, T::Alloc>,
    pub(crate) tokens: Vec<u32, T::Alloc>,
    // The allocator of the lists of replies.
    pub(crate) alloc: T::Alloc,
}

impl<'t, T: Table> Model for Pair<'t, T> {
    ghost use Rattle.std.specs.Prelude.{◌≤◌, length};
    ghost use Rattle.std.specs.Coded.{codes};
    ghost use Rattle.wl_object_map.specs.Objects.{objects_code};
    ghost use Rattle.theory_connection.specs.Pair.{PairState};
    ghost use Rattle.wl_session.specs.Room.{HoldsInbox};

    ghost Value = { PairState };

    ghost coded = { Prim.hlevel (codes, objects_code) };

    ghost view = { λ p. record {
      client = p.client;
      server = p.server;
      recording = p.recording;
      ended_at = p.ended_at;
    } };

    ghost invariant = { λ p. record {
      client_fits : HoldsInbox (length p.bytes.items) (length p.tokens.items) p.client.core.inbox;
      server_fits : HoldsInbox (length p.bytes.items) (length p.tokens.items) p.server.core.inbox;
      few_tokens : length p.tokens.items ≤ 65536;
    } };
}

impl<'t, T: Table + Drop> Pair<'t, T> {
    /// A new client and a new server: wl_display at each, empty queues of these sizes, no globals.
    /// Both must have the same limit. All that a carry needs, except for the recording, is
    /// allocated here.
    ///
    /// The pair represents the opening world.
    pub fn new(
        alloc: T::Alloc,
        tables: &'t Tables,
        client: Sizes,
        server: Sizes,
    ) -> Result<Self, AllocError>
        requires client { AreSizes client }
        requires server { AreSizes server }
        requires one_limit { client.limit.bytes ≡ server.limit.bytes }
        ensures begins { IfOk result (λ pair. pair ≡ new_pair tables.now client server) }
        ensures stands { IfOk result (λ pair. Stands pair opening_world) }
        ensures linked { IfOk result (λ pair. Linked pair opening_world) }
    {
        know_valid(tables);
        let (bytes, tokens) = buffers(&alloc, client.in_bytes.max(server.in_bytes))?;
        let recording = Recording::new(alloc.clone()?);
        let (client, server) = ends(&alloc, tables, client, server)?;
        Ok(Pair {
            client,
            server,
            recording,
            ended_at: None,
            bytes,
            tokens,
            alloc,
        })
    }
}

impl<'t, T: Table> Pair<'t, T> {
    /// Whether nothing waits in any of the four queues.
    pub fn drained(&self) -> bool
        ensures { IsTrue result ↔ drained self.now }
    {
        self.client.is_drained() && self.server.is_drained()
    }

    /// The number of objects. In the client's range these are the client's, including those that it
    /// has destroyed and whose delete_id has not come; in the server's range they are the server's.
    pub fn len(&self) -> usize
        ensures count { result
            ≡ object_count self.now.client.core.view self.now.server.core.view }
        // If the tables let the server make no object: the client's.
        ensures of_client { has_server_objects self.now.server.core.tables ≡ false
            → result ≡ client_count self.now.client.core.view }
    {
        object_count(&self.client, &self.server)
    }

    /// What was carried, piece by piece.
    ///
    /// It is lawful to its end, whatever was done with the pair: `check` of it says so, if it has
    /// memory.
    pub fn recording(&self) -> &Recording<T::Alloc>
        ensures lends { result.now ≡ self.now.recording }
        ensures lawful { (world : World) → Linked self.now world
            → IsLawful self.now.server.core.tables
            (session_of (pair_limit self.now) result.now) }
    {
        &self.recording
    }

    /// The number of pieces that were recorded when the first error was posted.
    pub fn ended_at(&self) -> Option<usize>
        ensures { result ≡ self.now.ended_at }
    {
        self.ended_at
    }
}

/// Buffers for this many bytes of a carry, and for as many tokens as an inbox can hold.
fn buffers<A: Allocator + Clone + Drop>(
    alloc: &A,
    most_bytes: usize,
) -> Result<(Vec<u8, A>, Vec<u32, A>), AllocError>
    ensures { IfOk result (λ made. (length made.0.items ≡ most_bytes)
        × (length made.1.items ≡ 65536)) }
{
    let bytes = vec![in alloc.clone()?; 0u8; most_bytes]?;
    let tokens = vec![in alloc.clone()?; 0u32; MOST_TOKENS]?;
    Ok((bytes, tokens))
}

/// A new client and a new server.
fn ends<'t, T: Table + Drop>(
    alloc: &T::Alloc,
    tables: &'t Tables,
    client: Sizes,
    server: Sizes,
) -> Result<(Client<'t, T>, Server<'t, T>), AllocError>
    requires client { AreSizes client }
    requires server { AreSizes server }
    ensures { IfOk result (λ ends.
        (ends.0 ≡ new_client tables.now client) × (ends.1 ≡ new_server tables.now server)) }
{
    let for_client = alloc.clone()?;
    let for_server = alloc.clone()?;
    let client = Client::new(for_client, tables, client)?;
    let server = Server::new(for_server, tables, server)?;
    Ok((client, server))
}

// All tables are valid, as every call on them says.
fn know_valid(tables: &Tables)
    ensures { Valid tables.now }
{
    let _version = tables.version(DISPLAY);
}
