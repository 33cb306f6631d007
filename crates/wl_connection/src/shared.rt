//! What both ends of a connection have: tables, objects and two queues.
ghost use Rattle.std.specs.Prelude.{◌≡◌, ◌≤◌, IfOk, OnErr, OnOk, take};
ghost use Rattle.std.specs.Result.{is_err};
ghost use Rattle.wl_sigs.specs.Fixed.{display};
ghost use Rattle.wl_sigs.specs.Rules.{has_server_objects};
ghost use Rattle.wl_sigs.specs.Valid.{Valid};
ghost use Rattle.wl_message.specs.Arrived.{AreSizes};
ghost use Rattle.wl_object_map.specs.Objects.{opening};
ghost use Rattle.wl_connection.specs.Core.{new_core, live, feeds, with_arrived};
ghost use Rattle.wl_connection.specs.MoreTables.{Extend, has_first_server_object, with_tables};
ghost use Rattle.wl_connection.specs.ServerRange.{IsRangeNewUnlessMade};

use std::alloc::AllocError;
use std::error::Error;
use std::fmt::{self, Display, Formatter};
use std::marker::Model;
use wl_message::{Fed, Inbox, Outbox, Sizes};
use wl_objects::{DISPLAY, Object, Objects, Table, live_row};
use wl_sigs::Tables;
use wl_wire::Iface;

/// The most globals that a server advertises in its lifetime, and the most that a client remembers.
pub const MAX_GLOBALS: usize = 1024;

/// TB4: the new tables have the first event by which the server makes an object, but the end that
/// was to take them has no table of the server's range of ids.
#[derive(Clone, Copy, Debug, PartialEq, Eq)]
pub struct FirstServerObject;

/// An end: its tables, its objects and its two queues.
///
/// The fields are for the two ends built on it.
#[derive(Drop)]
pub struct Core<'t, T: Table> {
    pub tables: &'t Tables,
    pub objects: Objects<T>,
    pub inbox: Inbox<T::Alloc>,
    pub outbox: Outbox<T::Alloc>,
    /// Where a message is encoded before it goes to the outbox; as long as the longest message.
    pub store: Vec<u8, T::Alloc>,
    /// Whether the end has failed, which is final.
    pub failed: bool,
    /// Bytes of all messages read so far; saturates.
    pub read: u64,
}

impl<'t, T: Table> Model for Core<'t, T> {
    ghost use Rattle.std.specs.Prelude.{◌≡◌, ◌≤◌, false, length};
    ghost use Rattle.std.specs.Coded.{codes};
    ghost use Rattle.wl_sigs.specs.Rules.{has_server_objects};
    ghost use Rattle.wl_message.specs.Cut.{usual_limit};
    ghost use Rattle.wl_object_map.specs.Objects.{objects_code};
    ghost use Rattle.wl_connection.specs.Core.{Core as CoreState, HasDisplay, IsOrdinary};

    ghost Value = { CoreState };

    ghost coded = { Prim.hlevel (codes, objects_code) };

    ghost view = { λ c. record {
      tables = c.tables.now;
      view = c.objects;
      inbox = c.inbox;
      outbox = c.outbox;
      failed = c.failed;
      read = c.read;
    } };

    // The error event is written once, by an end that fails with it.
    ghost invariant = { λ c. record {
      store : usual_limit ≤ length c.store.items;
      room : c.outbox.limit.bytes ≤ length c.store.items;
      display : HasDisplay c.objects;
      range : c.objects.has_server_range ≡ has_server_objects c.tables.now;
      no_error : c.failed ≡ false → IsOrdinary c.outbox;
      whole : c.inbox.limit.bytes ≤ c.inbox.capacity;
    } };
}

impl<'t, T: Table> Core<'t, T> {
    /// An end with wl_display alone and empty queues of these sizes. It has a table of the server's
    /// range of ids if and only if the tables have events by which the server makes objects.
    pub fn new(alloc: T::Alloc, tables: &'t Tables, sizes: Sizes) -> Result<Self, AllocError>
        requires { AreSizes sizes }
        ensures { IfOk result (λ core. core ≡ new_core tables.now sizes) }
    {
        let limit = sizes.limit;
        let inbox = Inbox::new(alloc.clone()?, sizes.in_bytes, sizes.in_tokens, limit)?;
        let outbox = Outbox::new(alloc.clone()?, sizes.out_bytes, sizes.out_tokens, limit)?;
        let store = Vec::from_elem(alloc.clone()?, 0, limit.bytes as usize)?;
        let objects = new_objects(alloc, tables)?;
        Ok(Core {
            tables,
            objects,
            inbox,
            outbox,
            store,
            failed: false,
            read: 0,
        })
    }

    /// Replaces the end's tables with these, which extend them. Nothing else changes: the interface
    /// of each object keeps its index, and each message its opcode.
    ///
    /// Refused if these tables have the first event by which the server makes an object: an end has
    /// a table of the server's range of ids from the start, or never.
    pub fn more_tables(&mut self, tables: &'t Tables) -> Result<(), FirstServerObject>
        requires { Extend self.old.tables tables.now }
        ensures refused { is_err result ≡ has_first_server_object self.old.tables tables.now }
        ensures ok { OnOk result (self.new ≡ with_tables self.old tables.now) }
        ensures err { OnErr result (self.new ≡ self.old) }
        // Tables are always valid; a proof learns this from a call that read them.
        ensures valid { Valid tables.now }
    {
        if tables.has_server_objects() && !self.objects.has_server_range() {
            return Err(FirstServerObject);
        }
        self.tables = tables;
        Ok(())
    }

    /// The objects, in both ranges of ids.
    pub fn objects(&self) -> &Objects<T>
        ensures objects { result.now ≡ self.now.view }
        ensures range { self.now.view.has_server_range ≡ has_server_objects self.now.tables }
        ensures stays_new { IsRangeNewUnlessMade self.now.tables self.now.view }
    {
        // Called for what it ensures: without a table, the range is that of a new end.
        let _range = self.objects.has_server_range();
        &self.objects
    }

    /// The interface and version of an object, if it is live; see `End::live`.
    pub fn live(&self, object: Object) -> Option<(Iface, u32)>
        ensures { result ≡ live self.now object }
    {
        let entry = live_row(&self.objects, object)?;
        Some((entry.iface, entry.version))
    }

    /// Takes in what arrives; see `End::feed`.
    pub fn feed(&mut self, bytes: &[u8], tokens: &[u32]) -> Fed
        ensures fed { result ≡ feeds self.old bytes.now tokens.now }
        ensures state { self.new
            ≡ with_arrived self.old (take result.bytes bytes.now) (take result.tokens tokens.now) }
        ensures holds { self.old.inbox.limit.bytes ≤ self.old.inbox.capacity }
    {
        if self.failed {
            return Fed {
                bytes: 0,
                tokens: 0,
            };
        }
        self.inbox.feed(bytes, tokens)
    }
}

/// The objects of a new end with these tables.
fn new_objects<T: Table>(alloc: T::Alloc, tables: &Tables) -> Result<Objects<T>, AllocError>
    ensures { IfOk result
        (λ objects. objects ≡ opening display (has_server_objects tables.now)) }
{
    if tables.has_server_objects() {
        Objects::with_server_range(alloc, DISPLAY)
    } else {
        Objects::new(alloc, DISPLAY)
    }
}

impl Display for FirstServerObject {
    ghost use Rattle.std.specs.Prelude.{Some, codes};

    ghost output = { λ _. Some (codes "the first event by which the server makes an object") };

    fn fmt<W: fmt::Write>(&self, f: &mut Formatter<W>) -> fmt::Result {
        f.write_str("the first event by which the server makes an object")
    }
}

impl Error for FirstServerObject {}
