//! The globals that were announced to a client.
ghost use Rattle.std.specs.Prelude.{◌≡◌, ◌<◌, ◌≤◌, [], IfOk, length};
ghost use Rattle.std.specs.Prelude.{is_some};
ghost use Rattle.wl_client.specs.State.{global_of};
ghost use Rattle.wl_client.specs.Reports.{forgotten, with_replaced, remembered};
ghost use Rattle.wl_connection.specs.Core.{max_globals};

use std::alloc::{AllocError, Allocator};
use std::marker::Model;
use wl_connection::MAX_GLOBALS;
use wl_wire::Iface;

/// A global as it was advertised.
#[derive(Clone, Copy, Debug, PartialEq, Eq)]
pub struct Global {
    /// The number by which this server names it.
    pub name: u32,
    /// Its interface, an index in the tables.
    pub iface: Iface,
    /// The greatest version that can be bound.
    pub version: u32,
}

/// The globals that a client remembers, no name twice, in the order in which their names were
/// announced.
///
/// Names nearly always rise: a name greater than `greatest` is known to be new without a search.
/// `new` allocates all memory.
#[derive(Drop)]
pub(crate) struct Remembered<A: Allocator> {
    items: Vec<Global, A>,
    /// The greatest name that was ever remembered; 0 before the first.
    greatest: u32,
}

impl<A: Allocator> Model for Remembered<A> {
    ghost use Rattle.std.specs.Prelude.{List, ◌≤◌, length, vec_capacity};
    ghost use Rattle.wl_connection.specs.Core.{max_globals};
    ghost use Rattle.wl_client.specs.State.{AreNamedUpTo, Global};

    ghost Value = { List Global };

    ghost view = { λ r. r.items.items };

    ghost invariant = { λ r. record {
      few : length r.items.items ≤ max_globals;
      reserved : max_globals ≤ vec_capacity r.items;
      named : AreNamedUpTo r.greatest r.items.items;
    } };
}

impl<A: Allocator> Remembered<A> {
    /// No globals, with room for as many as can be remembered.
    pub(crate) fn new(alloc: A) -> Result<Self, AllocError>
        ensures { IfOk result (λ globals. globals ≡ []) }
    {
        Ok(Remembered {
            items: Vec::with_capacity(alloc, MAX_GLOBALS)?,
            greatest: 0,
        })
    }

    /// The global with a name.
    pub(crate) fn get(&self, name: u32) -> Option<Global>
        ensures { result ≡ global_of self.now name }
    {
        global_of(self.items.as_slice(), name)
    }

    /// Whether a global with this name is remembered. Only a name that is neither that of the last
    /// global nor greater than all takes a search.
    pub(crate) fn has(&self, name: u32) -> bool
        ensures { result ≡ is_some (global_of self.now name) }
    {
        if self.greatest < name {
            return false;
        }
        match self.items.last() {
            Some(last) if last.name == name => true,
            _ => global_of(self.items.as_slice(), name).is_some(),
        }
    }

    /// Removes the global with a name.
    pub(crate) fn forget(&mut self, name: u32)
        ensures { self.new ≡ forgotten name self.old }
    {
        if name <= self.greatest {
            self.items.retain(|global| global.name != name);
        }
    }

    /// Replaces the global of the same name; if there is none, appends the global if there is room.
    pub(crate) fn remember(&mut self, global: Global)
        ensures { self.new ≡ remembered global self.old }
    {
        if self.has(global.name) {
            replace(&mut self.items, global);
        } else if self.items.len() < MAX_GLOBALS {
            self.greatest = self.greatest.max(global.name);
            self.items.push_reserved(global);
        }
    }
}

/// The first global with a name.
fn global_of(globals: &[Global], name: u32) -> Option<Global>
    ensures { result ≡ global_of globals.now name }
{
    globals.iter().find(|global| global.name == name).copied()
}

/// Replaces the globals of the same name.
fn replace(globals: &mut [Global], global: Global)
    ensures { globals.new ≡ with_replaced global globals.old }
{
    'globals: for other in globals.iter_mut() {
        if other.name == global.name {
            *other = global;
        }
    }
}
