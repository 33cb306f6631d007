//! The open registries of a server's client, in order of birth.
ghost use Rattle.std.specs.Prelude.{◌≡◌, ◌≤◌, ◌<◌, ◌+◌, ◌∷◌, ◌++◌, [], true, OnOk, OnErr, length};
ghost use Rattle.std.specs.Prelude.{take};
ghost use Rattle.std.specs.List.{count_by};
ghost use Rattle.wl_connection.specs.Core.{IsOrdinary};
ghost use Rattle.wl_server.specs.State.{most_globals, untold};
ghost use Rattle.wl_server.specs.Announcing.{owed_in};
ghost use Rattle.wl_server.specs.Registries.{without_object};
ghost use Rattle.wl_server.specs.Slots.{KeepsSettled, SlotsRise, open_in, past_of, settled_in};
ghost use Rattle.wl_server.specs.Tellings.{IsAnnounced};
ghost use Rattle.wl_server.specs.Words.{AreWithdrawn};

use crate::announce::{Announced, announce_to};
use crate::globals::{Advertised, withdrawn_names};
use crate::name_set::NameSet;
use crate::registry::{OpenRegistry, RegistrySlot};
use std::alloc::{AllocError, Allocator};
use std::marker::Model;
use wl_connection::Core;
use wl_objects::{Object, Table};

/// The open registries of a client. A closed one keeps its slot until more than half of the slots
/// are closed, or there is no memory for a new one; then all closed slots are removed at once. So
/// on average a closing costs the same, however many registries there are.
#[derive(Drop)]
pub(crate) struct OpenRegistries<A: Allocator> {
    /// In order of birth.
    slots: Vec<RegistrySlot, A>,
    /// How many slots are closed.
    closed: usize,
    /// The first `settled` slots need no event.
    settled: usize,
}

impl<A: Allocator> Model for OpenRegistries<A> {
    ghost use Rattle.std.specs.Prelude.{◌≡◌, ◌≤◌, ◌+◌, ◌-◌, length, take, vec_capacity};
    ghost use Rattle.wl_server.specs.Slots.{KeptRegistries, SlotsRise, open_in, past_of};

    ghost Value = { KeptRegistries };

    ghost view = { λ s. record {
      list = open_in s.slots.items;
      settled = length (open_in (take s.settled s.slots.items));
      past = past_of s.slots.items;
      room = vec_capacity s.slots - length s.slots.items;
      closed = s.closed;
    } };

    ghost invariant = { λ s. record {
      rising : SlotsRise 0 s.slots.items;
      closed : s.closed + length (open_in s.slots.items) ≡ length s.slots.items;
      settled : s.settled ≤ length s.slots.items;
    } };
}

/// How many slots are open.
fn count_open(slots: &[RegistrySlot]) -> usize
    ensures { result ≡ count_by (λ slot. slot.is_open) slots.now }
{
    slots.iter().filter(|slot| slot.is_open).count()
}

/// Writes the events that the registries of slots still need, from a place on, until one does not
/// fit. The place moves past the registries that then need none.
fn announce_from<T: Table>(
    core: &mut Core<'_, T>,
    globals: &[Advertised],
    withdrawn: &NameSet,
    slots: &mut [RegistrySlot],
    settled: &mut usize,
) -> Announced
    requires few { length globals.now ≤ most_globals }
    requires withdrawn { AreWithdrawn globals.now withdrawn.now }
    requires ordinary { IsOrdinary core.old.outbox }
    requires rising { SlotsRise 0 slots.old }
    requires within { settled.old ≤ length slots.old }
    requires settled { owed_in globals.now (open_in (take settled.old slots.old)) ≡ [] }
    ensures told { IsAnnounced core.old (open_in slots.old)
        (owed_in globals.now (open_in slots.old)) result core.new (open_in slots.new) }
    ensures rising { SlotsRise 0 slots.new }
    ensures within { settled.new ≤ length slots.new }
    ensures settled { owed_in globals.now (open_in (take settled.new slots.new)) ≡ [] }
    ensures past { past_of slots.new ≡ past_of slots.old }
    ensures count { length (open_in slots.new) ≡ length (open_in slots.old) }
{
    let mut count = 0;
    'places: for place in *settled..slots.len() {
        if slots[place].is_open {
            let told = announce_to(core, globals, withdrawn, &mut slots[place].registry);
            count += told.count;
            if !told.all {
                return Announced { count, all: false };
            }
        }
        *settled = place + 1;
    }
    Announced { count, all: true }
}

impl<A: Allocator + Drop> OpenRegistries<A> {
    /// No registries, and no room reserved.
    pub(crate) fn new(alloc: A) -> Self
        ensures list { result.list ≡ [] }
        ensures settled { settled_in result ≡ [] }
        ensures past { result.past ≡ 0 }
    {
        OpenRegistries {
            slots: Vec::new(alloc),
            closed: 0,
            settled: 0,
        }
    }

    /// Reserves room for one more. Without memory, the closed slots are reused; it fails only if
    /// there are none.
    pub(crate) fn reserve(&mut self) -> Result<(), AllocError>
        ensures list { self.new.list ≡ self.old.list }
        ensures settled { KeepsSettled self.old self.new }
        ensures past { self.new.past ≤ self.old.past }
        ensures room { OnOk result (0 < self.new.room) }
        ensures err { OnErr result (self.old.closed ≡ 0) }
    {
        if self.slots.reserve(1).is_ok() {
            return Ok(());
        }
        if self.closed == 0 {
            return Err(AllocError);
        }
        self.compact();
        Ok(())
    }

    /// Appends a registry to which nothing was announced yet. Allocates nothing.
    pub(crate) fn push_reserved(&mut self, object: Object)
        requires room { 0 < self.old.room }
        requires past { self.old.past ≤ object.birth }
        ensures list { self.new.list ≡ self.old.list ++ untold object ∷ [] }
        ensures settled { KeepsSettled self.old self.new }
        ensures past { self.new.past ≡ object.birth + 1 }
    {
        self.slots.push_reserved(RegistrySlot {
            registry: OpenRegistry::new(object),
            is_open: true,
        });
    }

    /// From now on any registry may need an event.
    pub(crate) fn unsettle(&mut self)
        ensures list { self.new.list ≡ self.old.list }
        ensures settled { settled_in self.new ≡ [] }
        ensures past { self.new.past ≡ self.old.past }
    {
        self.settled = 0;
    }

    /// Removes the registry with this object. Allocates nothing.
    pub(crate) fn remove(&mut self, object: Object)
        ensures list { self.new.list ≡ without_object true object self.old.list }
        ensures settled { KeepsSettled self.old self.new }
        ensures past { self.new.past ≤ self.old.past }
    {
        let found = self
            .slots
            .binary_search_by_key(&object.birth, |slot| slot.registry.object.birth);
        let Ok(place) = found else {
            return;
        };
        if self.slots[place].registry.object.id != object.id {
            return;
        }
        if !self.slots[place].is_open {
            return;
        }
        self.slots[place].is_open = false;
        self.closed += 1;
        if self.closed > self.slots.len() / 2 {
            self.compact();
        }
    }

    /// Removes the closed slots. Allocates nothing, and keeps their memory.
    fn compact(&mut self)
        ensures list { self.new.list ≡ self.old.list }
        ensures settled { self.new.settled ≡ self.old.settled }
        ensures past { self.new.past ≤ self.old.past }
        ensures room { self.new.room ≡ self.old.room + self.old.closed }
    {
        self.settled = count_open(&self.slots[..self.settled]);
        self.slots.retain(|slot| slot.is_open);
        self.closed = 0;
    }

    /// Writes the events that the open registries still need, until one does not fit. Skips those
    /// that are known to need none.
    pub(crate) fn announce<T: Table>(
        &mut self,
        core: &mut Core<'_, T>,
        globals: &[Advertised],
    ) -> Announced
        requires few { length globals.now ≤ most_globals }
        requires ordinary { IsOrdinary core.old.outbox }
        requires settled { owed_in globals.now (settled_in self.old) ≡ [] }
        ensures told { IsAnnounced core.old self.old.list (owed_in globals.now self.old.list) result
            core.new self.new.list }
        ensures settled { owed_in globals.now (settled_in self.new) ≡ [] }
        ensures past { self.new.past ≡ self.old.past }
    {
        if self.settled == self.slots.len() {
            return Announced {
                count: 0,
                all: true,
            };
        }
        let withdrawn = withdrawn_names(globals);
        announce_from(
            core,
            globals,
            &withdrawn,
            &mut self.slots,
            &mut self.settled,
        )
    }
}
