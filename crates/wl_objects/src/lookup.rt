//! What a reader of messages knows of objects and ids.
ghost use Rattle.std.specs.Prelude.{◌≡◌};
ghost use Rattle.wl_objects.specs.Reading.{Reader};
ghost use Rattle.wl_objects.specs.Messages.{server_may_use, reader_of, waits_for_request};

use crate::messages::SideTables;
use wl_object_map::{Entry, FIRST_SERVER_ID, Maker, Objects, State, Table};
use wl_sigs::Tables;

/// What a reader finds for an id that a new object is to have.
#[derive(Clone, Copy, Debug, PartialEq, Eq)]
pub enum NewId {
    /// For a request: a freed id or the next unused one. For an event also the id of a zombie, or
    /// of an object that no request destroys.
    Free,
    /// None of these.
    Wrong,
    /// As `Free`, but the connection has no room for another object.
    TooMany,
}

/// What the reading of a message asks for: the object with an id, and whether an id can be a new
/// object's.
pub trait Lookup {
    ghost reader: { Self → Reader };

    /// The object with this id.
    fn object(&self, id: u32) -> Option<Entry>
        ensures { result ≡ (reader self.now).object id };

    /// The result for an id as that of a new object of the client.
    fn new_id(&self, id: u32) -> NewId
        ensures { result ≡ (reader self.now).new_id id };

    /// The result for an id as that of a new object of the server.
    fn new_server_id(&self, id: u32) -> NewId
        ensures { result ≡ (reader self.now).new_server_id id };
}

/// An end's objects, as a reader of one side's messages sees them.
#[derive(Drop)]
pub struct ObjectsLookup<'a, T: Table> {
    /// The tables, and the side that writes the messages and so makes the new objects. (Only
    /// contracts read the side.)
    pub writer: SideTables<'a>,
    pub objects: &'a Objects<T>,
}

impl<'a, T: Table> Lookup for ObjectsLookup<'a, T> {
    ghost reader = { λ held. reader_of held.writer.tables.now held.writer.side held.objects.now };

    fn object(&self, id: u32) -> Option<Entry> {
        self.objects.look(id)
    }

    fn new_id(&self, id: u32) -> NewId {
        let table = self.objects.client();
        if !table.is_free(id) {
            NewId::Wrong
        } else if !table.has_room(id) {
            NewId::TooMany
        } else {
            NewId::Free
        }
    }

    fn new_server_id(&self, id: u32) -> NewId {
        if !server_may_use(self.writer.tables, self.objects, id) {
            NewId::Wrong
        } else if !self.objects.has_room(id) {
            NewId::TooMany
        } else {
            NewId::Free
        }
    }
}

/// Whether an id can be that of a new object of the server: it is in the server's range, is not
/// that of a live object that a request can end, and was used before or is the next one.
fn server_may_use<T: Table>(tables: &Tables, objects: &Objects<T>, id: u32) -> bool
    ensures { result ≡ server_may_use tables.now objects.now id }
{
    id >= FIRST_SERVER_ID
        && !waits_for_request(tables, objects.look(id))
        && id - FIRST_SERVER_ID <= objects.used(Maker::Server)
}

/// Whether an object is live and a request can end it: its interface has a destroying request at
/// the object's version.
pub fn waits_for_request(tables: &Tables, entry: Option<Entry>) -> bool
    ensures { result ≡ waits_for_request tables.now entry }
{
    let Some(entry) = entry else {
        return false;
    };
    match entry.state {
        State::Live => tables.ends_by_request(entry.iface, entry.version),
        State::Zombie => false,
    }
}
