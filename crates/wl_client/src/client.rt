//! The client's end.
ghost use Rattle.std.specs.Prelude.{◌≡◌, [], IfOk, OnErr, OnOk};
ghost use Rattle.std.specs.Result.{is_err};
ghost use Rattle.wl_message.specs.Arrived.{AreSizes};
ghost use Rattle.wl_connection.specs.MoreTables.{Extend, has_first_server_object, with_tables};
ghost use Rattle.wl_client.specs.State.{new_state, with_core};

use crate::globals::Remembered;
use crate::role::ClientRole;
use std::alloc::AllocError;
use std::marker::Model;
use wl_connection::{Core, Endpoint, FirstServerObject};
use wl_message::Sizes;
use wl_objects::{Object, Table};
use wl_sigs::Tables;

/// The client's end of a connection: its objects, its two queues, the announced globals, and what
/// the last message read made and replaced.
#[derive(Drop)]
pub struct Client<'t, T: Table> {
    pub(crate) end: Endpoint<'t, T>,
    pub(crate) role: ClientRole<T::Alloc>,
    /// Allocates owned reports.
    pub(crate) alloc: T::Alloc,
}

impl<'t, T: Table> Model for Client<'t, T> {
    ghost use Rattle.std.specs.Coded.{codes};
    ghost use Rattle.wl_object_map.specs.Objects.{objects_code};
    ghost use Rattle.wl_client.specs.State.{State, IsSound};

    ghost Value = { State };

    ghost coded = { Prim.hlevel (codes, objects_code) };

    ghost view = { λ c. record {
      core = c.end.core;
      globals = c.role.globals;
      made = c.role.made;
      replaced = c.role.replaced;
    } };

    ghost invariant = { λ c. IsSound c.end.core };
}

impl<'t, T: Table> Client<'t, T> {
    /// A client with wl_display alone, empty queues of these sizes, and no globals.
    pub fn new(alloc: T::Alloc, tables: &'t Tables, sizes: Sizes) -> Result<Self, AllocError>
        requires { AreSizes sizes }
        ensures { IfOk result (λ client. client ≡ new_state tables.now sizes) }
    {
        let globals = Remembered::new(alloc.clone()?)?;
        let own = alloc.clone()?;
        let core = Core::new(alloc, tables, sizes)?;
        Ok(Client {
            end: Endpoint::new(core),
            role: ClientRole {
                globals,
                made: None,
                replaced: None,
            },
            alloc: own,
        })
    }

    /// The object that the last message read made: one of the server's, made by an event, even if
    /// that event was `Discarded`. `None` if that message made none, or before the first message. A
    /// call that reads no message does not change it. After `read_all` it is the object that the
    /// last of its messages made. If it replaced a live object, `replaced` returns that one.
    pub fn made(&self) -> Option<Object>
        ensures answer { result ≡ self.now.made }
        // Hence an id of the server's range without an entry was never used.
        ensures frees_none { self.now.core.view.server.freed ≡ [] }
    {
        self.role.made
    }

    /// The live object that the object returned by `made` replaced: it had the same id, and no
    /// request could end it at its version (for example a version-2 zwlr_output_head_v1). No later
    /// report names it (`replaced_objects_are_over`), so free here what belongs to it. `None` if
    /// the last message read replaced none. A call that reads no message does not change it. After
    /// `read_all` it is what the last of its messages replaced, so read one by one if you need
    /// each.
    pub fn replaced(&self) -> Option<Object>
        ensures { result ≡ self.now.replaced }
    {
        self.role.replaced
    }
    /// Replaces the client's tables with these, which extend them, as the tables do that
    /// `Tables::read_more` makes from the client's. Nothing else changes: the interface of each
    /// object and each global keeps its index, and each message its opcode. A global that was
    /// announced while its interface was missing stays forgotten; `bind_unannounced` binds it.
    ///
    /// Refused if these tables have the first event by which the server makes an object: a client
    /// has a table of the server's range of ids from the start, or never.
    pub fn more_tables(&mut self, tables: &'t Tables) -> Result<(), FirstServerObject>
        requires { Extend self.old.core.tables tables.now }
        ensures refused { is_err result
            ≡ has_first_server_object self.old.core.tables tables.now }
        ensures ok { OnOk result
            (self.new ≡ with_core self.old (with_tables self.old.core tables.now)) }
        ensures err { OnErr result (self.new ≡ self.old) }
    {
        self.end.core.more_tables(tables)
    }
}
