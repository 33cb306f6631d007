//! The server's end.
ghost use Rattle.std.specs.Prelude.{◌≡◌, IfOk, OnErr, OnOk};
ghost use Rattle.std.specs.Result.{is_err};
ghost use Rattle.wl_message.specs.Arrived.{AreSizes};
ghost use Rattle.wl_connection.specs.MoreTables.{Extend, has_first_server_object, with_tables};
ghost use Rattle.wl_server.specs.State.{new_state, with_core};

use crate::open_registries::OpenRegistries;
use crate::role::ServerRole;
use std::alloc::AllocError;
use std::marker::Model;
use wl_connection::{Core, Endpoint, FirstServerObject, MAX_GLOBALS};
use wl_message::Sizes;
use wl_objects::Table;
use wl_sigs::Tables;

/// The server's end of one connection: its objects, its two queues, the globals that it advertises,
/// and which of them were announced to each open registry.
#[derive(Drop)]
pub struct Server<'t, T: Table> {
    pub(crate) end: Endpoint<'t, T>,
    /// Allocates owned reports.
    pub(crate) alloc: T::Alloc,
    pub(crate) role: ServerRole<T::Alloc>,
}

impl<'t, T: Table> Model for Server<'t, T> {
    ghost use Rattle.std.specs.Coded.{codes};
    ghost use Rattle.wl_object_map.specs.Objects.{objects_code};
    ghost use Rattle.wl_server.specs.State.{State};
    ghost use Rattle.wl_server.specs.Slots.{IsSound};

    ghost Value = { State };

    ghost coded = { Prim.hlevel (codes, objects_code) };

    ghost view = { λ s. record {
      core = s.end.core;
      globals = s.role.globals.items;
      registries = s.role.registries.list;
      allowed = s.role.allowed;
    } };

    ghost invariant = { λ s. IsSound s.end.core s.role.globals.items s.role.registries };
}

impl<'t, T: Table> Server<'t, T> {
    /// A server with wl_display alone, empty queues of these sizes and no globals.
    pub fn new(alloc: T::Alloc, tables: &'t Tables, sizes: Sizes) -> Result<Self, AllocError>
        requires { AreSizes sizes }
        ensures { IfOk result (λ server. server ≡ new_state tables.now sizes) }
    {
        let globals = Vec::new(alloc.clone()?);
        let registries = OpenRegistries::new(alloc.clone()?);
        let core = Core::new(alloc.clone()?, tables, sizes)?;
        Ok(Server {
            end: Endpoint::new(core),
            alloc,
            role: ServerRole {
                globals,
                registries,
                allowed: MAX_GLOBALS,
            },
        })
    }

    /// Replaces the server's tables with these, which extend them, as the tables do that
    /// `Tables::read_more` makes from the server's. Nothing else changes: the interface of each
    /// object and each global keeps its index, and each message its opcode. So a global of a new
    /// interface can be added and announced to a client that is connected.
    ///
    /// Refused if these tables have the first event by which the server makes an object: a server
    /// has a table of its own range of ids from the start, or never.
    ///
    /// What is proved about two ends together does not cover this call: the client may not have
    /// the new interfaces.
    pub fn more_tables(&mut self, tables: &'t Tables) -> Result<(), FirstServerObject>
        requires { Extend self.old.core.tables tables.now }
        ensures refused { is_err result
            ≡ has_first_server_object self.old.core.tables tables.now }
        ensures ok { OnOk result
            (self.new ≡ with_core self.old (with_tables self.old.core tables.now)) }
        ensures err { OnErr result (self.new ≡ self.old) }
    {
        self.end.core.more_tables(tables)
    }
}
