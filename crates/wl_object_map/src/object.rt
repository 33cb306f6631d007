//! What a table keeps about an object, how callers identify one, and why none was opened.

use super::table::FIRST_SERVER_ID;
use std::error::Error;
use std::fmt::{self, Display, Formatter};
use wl_wire::Iface;

/// Whether an object is live.
#[derive(Clone, Copy, Debug, PartialEq, Eq)]
pub enum State {
    /// The object can be used.
    Live,
    /// The client destroyed the object, and its id is not freed yet: events that the server wrote
    /// before it knew may still arrive.
    Zombie,
}

/// Who makes an object and chooses its id. Each maker has its own range of ids, and each range its
/// own count of births.
#[derive(Clone, Copy, Debug, PartialEq, Eq)]
pub enum Maker {
    /// The client, with ids from 1 on.
    Client,
    /// The server, with ids from 0xff000000 on.
    Server,
}

impl Maker {
    ghost use Rattle.std.specs.Prelude.{◌≡◌};
    ghost use Rattle.wl_object_map.specs.Objects.{maker_of};

    /// Who makes the objects with an id: the server from 0xff000000 on, else the client.
    #[inline(always)]
    pub fn of(id: u32) -> Maker
        ensures { result ≡ maker_of id }
    {
        if id < FIRST_SERVER_ID {
            Maker::Client
        } else {
            Maker::Server
        }
    }
}

/// What a table keeps about an object, besides its id.
#[derive(Clone, Copy, Debug, PartialEq, Eq)]
pub struct Entry {
    /// The number of the object in its range of ids.
    pub birth: u64,
    /// The object's interface.
    pub iface: Iface,
    /// The version with which the object was made.
    pub version: u32,
    /// Whether the object is live.
    pub state: State,
}

/// An object of one end: its id, and its birth, which distinguishes it from earlier and later
/// objects with that id.
#[derive(Clone, Copy, Debug, PartialEq, Eq)]
pub struct Object {
    /// The object's id on the wire.
    pub id: u32,
    /// The object's number in its range, counted by this end: in the client's range from 0, which
    /// is wl_display, in the server's from 1. Births are never sent.
    pub birth: u64,
}

/// Why no object was opened. Each call names the order in which refusals are tested.
#[derive(Clone, Copy, Debug, PartialEq, Eq)]
pub enum TableError {
    /// O1: the id would be above 1,048,576, or 18,446,744,073,709,551,615 births were counted.
    NoIds,
    /// O2: the id is 0, or neither freed nor the next new one.
    NotNext,
    /// O3: the id has an entry.
    InUse,
    /// O4: out of memory, for the entry or for its later closing.
    Memory,
}

impl Display for TableError {
    ghost use Rattle.std.specs.Prelude.{Some};
    ghost use Rattle.wl_object_map.specs.Errors.{table_error_text};

    ghost output = { λ error. Some (table_error_text error) };

    fn fmt<W: fmt::Write>(&self, f: &mut Formatter<W>) -> fmt::Result {
        f.write_str(match self {
            TableError::NoIds => "no more objects can be opened",
            TableError::NotNext => "id is neither freed nor the next",
            TableError::InUse => "id is in use",
            TableError::Memory => "out of memory",
        })
    }
}

impl Error for TableError {}
