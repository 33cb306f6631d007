//! Whether both ends have the same objects.
ghost use Rattle.std.specs.Prelude.{◌≡◌, ◌≤◌, ◌↔◌, false, IsTrue};
ghost use Rattle.wl_object_map.specs.declared.object.State.TheVariants.{Live, Zombie};
ghost use Rattle.wl_object_map.specs.View.{max_ids};
ghost use Rattle.wl_object_map.specs.Objects.{ObjectsAreSound, ids_used};
ghost use Rattle.wl_sigs.specs.Rules.{has_server_objects};
ghost use Rattle.wl_connection.specs.ServerRange.{IsRangeNewUnlessMade};
ghost use Rattle.theory_connection.specs.World.{World};
ghost use Rattle.theory_connection.specs.Pair.{drained};
ghost use Rattle.theory_connection.specs.Stands.{Stands};
ghost use Rattle.theory_connection.specs.Runs.{Agree, AgreeByClient, AgreeByServer};
ghost use Rattle.wl_session.specs.Room.{AreSame, AreSameByServer, HaveSameRows, NoEventMakes};
ghost use Rattle.wl_session.specs.Room.{SameByServer, client_count, object_count};

use crate::pair::Pair;
use wl_client::Client;
use wl_connection::End;
use wl_object_map::{FIRST_SERVER_ID, Maker};
use wl_objects::{Entry, Objects, State, Table};
use wl_server::Server;

impl<'t, T: Table> Pair<'t, T> {
    /// Whether both ends have the same objects under the same ids, and the client has destroyed
    /// none that it made. (A server's object that the client has destroyed stays at the client
    /// until its id is used again.) If both ends are drained, the answer is true.
    pub fn agree(&self) -> bool
        ensures exact { IsTrue result ↔ Agree self.now.client.core.view self.now.server.core.view }
        // If the tables let the server make no object: the same rows, all live.
        ensures rows { NoEventMakes self.now.client.core self.now.server.core
            → IsTrue result ↔ HaveSameRows self.now.client.core.view self.now.server.core.view }
        ensures drained { (world : World) → Stands self.now world
            → drained self.now → IsTrue result }
    {
        same_rows(&self.client, &self.server)
    }
}

/// Whether a client and a server have the same objects under the same ids, and the client has
/// destroyed none that it made; see `Pair::agree`.
pub fn same_rows<T: Table>(client: &Client<'_, T>, server: &Server<'_, T>) -> bool
    ensures exact { IsTrue result ↔ Agree client.now.core.view server.now.core.view }
    // If the tables let the server make no object: the same rows, all live.
    ensures rows { NoEventMakes client.now.core server.now.core
        → IsTrue result ↔ HaveSameRows client.now.core.view server.now.core.view }
{
    let (client, server) = objects_of(client, server);
    same_of_client(client, server) && same_of_server(client, server)
}

/// How many objects a client and a server have. In the client's range these are the client's,
/// including those that it has destroyed and whose delete_id has not come; in the server's range
/// they are the server's.
pub fn object_count<T: Table>(client: &Client<'_, T>, server: &Server<'_, T>) -> usize
    ensures count { result ≡ object_count client.now.core.view server.now.core.view }
    // If the tables let the server make no object: the client's.
    ensures of_client { has_server_objects server.now.core.tables ≡ false
        → result ≡ client_count client.now.core.view }
{
    let (client, server) = objects_of(client, server);
    client.len(Maker::Client) as usize + server.len(Maker::Server) as usize
}

/// The objects of a client and those of a server.
fn objects_of<'a, T: Table>(
    client: &'a Client<'_, T>,
    server: &'a Server<'_, T>,
) -> (&'a Objects<T>, &'a Objects<T>)
    ensures client { result.0.now ≡ client.now.core.view }
    ensures server { result.1.now ≡ server.now.core.view }
    ensures client_range { IsRangeNewUnlessMade client.now.core.tables client.now.core.view }
    ensures server_range { IsRangeNewUnlessMade server.now.core.tables server.now.core.view }
{
    (client.objects(), server.objects())
}

/// Whether the two have the same live object, or none, at each id of the client's range.
fn same_of_client<T: Table>(client: &Objects<T>, server: &Objects<T>) -> bool
    ensures { IsTrue result ↔ AgreeByClient client.now server.now }
{
    let most = used_ids(client, Maker::Client).max(used_ids(server, Maker::Client));
    for id in 1..1 + most {
        if !are_same(client.look(id), server.look(id)) {
            return false;
        }
    }
    true
}

/// Whether in the server's range the client's live objects are the server's, the client's zombies
/// have ids that the server has freed, and both counts are equal.
fn same_of_server<T: Table>(client: &Objects<T>, server: &Objects<T>) -> bool
    ensures { IsTrue result ↔ AgreeByServer client.now server.now }
{
    let used = used_ids(client, Maker::Server);
    if used != used_ids(server, Maker::Server) {
        return false;
    }
    if client.births(Maker::Server) != server.births(Maker::Server) {
        return false;
    }
    same_by_server(client, server, used)
}

/// Whether the two agree at each of the first `used` ids of the server's range.
fn same_by_server<T: Table>(client: &Objects<T>, server: &Objects<T>, used: u32) -> bool
    requires { used ≤ max_ids }
    ensures { IsTrue result ↔ SameByServer used client.now server.now }
{
    for id in FIRST_SERVER_ID..FIRST_SERVER_ID + used {
        if !are_same_by_server(client.look(id), server.look(id)) {
            return false;
        }
    }
    true
}

/// How many ids of a maker's range were used.
fn used_ids<T: Table>(objects: &Objects<T>, maker: Maker) -> u32
    ensures used { result ≡ ids_used maker objects.now }
    ensures sound { ObjectsAreSound objects.now }
{
    let _display = objects.look(1);
    objects.used(maker)
}

/// Whether these are the same live object, or none.
fn are_same(client: Option<Entry>, server: Option<Entry>) -> bool
    ensures { IsTrue result ↔ AreSame client server }
{
    match (client, server) {
        (None, None) => true,
        (Some(client), Some(server)) => is_same_live(client, server),
        _ => false,
    }
}

/// Whether these are possible at one used id of the server's range: the same live object at both
/// ends, or one that the client has destroyed and none at the server.
fn are_same_by_server(client: Option<Entry>, server: Option<Entry>) -> bool
    ensures { IsTrue result ↔ AreSameByServer client server }
{
    match (client, server) {
        (Some(client), Some(server)) => is_same_live(client, server),
        (Some(client), None) => is_zombie(client),
        _ => false,
    }
}

/// Whether the object has ended.
fn is_zombie(entry: Entry) -> bool
    ensures { IsTrue result ↔ (entry.state ≡ Zombie) }
{
    entry.state == State::Zombie
}

/// Whether these are the same live object.
fn is_same_live(client: Entry, server: Entry) -> bool
    ensures { IsTrue result ↔ ((client ≡ server) × (client.state ≡ Live)) }
{
    client.birth == server.birth
        && client.iface == server.iface
        && client.version == server.version
        && client.state == State::Live
        && server.state == State::Live
}
