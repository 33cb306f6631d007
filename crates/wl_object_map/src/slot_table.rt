//! A table of objects in a vector of slots.
ghost use Rattle.std.specs.Prelude.{◌≡◌, ◌≤◌, ◌<◌, ◌+◌, OnOk, OnErr, IfOk, IfErr, IsTrue, length};
ghost use Rattle.std.specs.Prelude.{eqb, if◌then◌else◌};
ghost use Rattle.wl_object_map.specs.View.{View, free_or_next, has_room, next_id, opened_at, times};
ghost use Rattle.wl_object_map.specs.Slots.{slot_of_entry, new_row, slot_at, IsPut, IsOlderSet};
ghost use Rattle.wl_object_map.specs.Slots.{IsNewerSet, IsTakenOut, IsPutFirst, HasSameRows};
ghost use Rattle.wl_object_map.specs.Slots.{HasNoRowAt};

use super::table::MAX_IDS;
use super::{Entry, Object, State, Table, TableError};
use std::alloc::{AllocError, Allocator, Global};
use std::marker::Model;
use std::mem::size_of;
use wl_wire::Iface;

/// The slot of an id that was used.
#[derive(Clone, Copy)]
enum Slot {
    /// The id's row.
    Row {
        birth: u64,
        version: u32,
        iface: Iface,
        state: State,
    },
    /// The id is freed. Its neighbours in the chain of freed ids: the one freed next after it, and
    /// the one freed last before it; 0 for none.
    Free {
        newer: u32,
        older: u32,
    },
}

// The table's documentation gives this size.
const _: () = prove!(size_of::<Slot>() == 24);

impl Slot {
    /// The row of a new object.
    fn live(birth: u64, iface: Iface, version: u32) -> Slot
        ensures { result ≡ slot_of_entry (new_row birth iface version) }
    {
        Slot::Row {
            birth,
            version,
            iface,
            state: State::Live,
        }
    }
}

/// A table of objects in a vector of slots, in which each call takes constant time.
///
/// Id `n` has slot `n - 1`, of 24 bytes. A slot holds the row of its id, or, if the id is freed,
/// its neighbours in the chain of freed ids, so an id can be removed from the middle without a
/// search. Only an opening at a new id allocates, and only if the vector is full: then it doubles,
/// up to 1,048,576 slots.
#[derive(Drop)]
pub struct SlotTable<A: Allocator = Global> {
    slots: Vec<Slot, A>,
    // The id freed last, 0 if none is free.
    first_free: u32,
    // How many ids are free.
    free: u32,
    births: u64,
}

impl<A: Allocator> Model for SlotTable<A> {
    ghost use Rattle.wl_object_map.specs.View.{View, view_code};
    ghost use Rattle.wl_object_map.specs.Slots.{view_of, IsSoundChain};

    ghost Value = { View };

    ghost coded = { view_code };

    ghost view = { λ t. view_of t.slots.items t.first_free t.free t.births };

    ghost invariant = { λ t. IsSoundChain t.slots.items t.first_free t.free t.births };
}

/// The slot of an id, if it was used.
fn slot_of(slots: &[Slot], id: u32) -> Option<Slot>
    ensures { result ≡ slot_at slots.now id }
{
    let place = (id as usize).checked_sub(1)?;
    slots.get(place).copied()
}

/// Puts a slot at an id that was used.
fn put(slots: &mut [Slot], id: u32, slot: Slot)
    requires some { 0 < id }
    requires used { id ≤ length slots.old }
    ensures { IsPut id slot slots.old slots.new }
{
    slots[id as usize - 1] = slot;
}

/// Sets the older neighbour of a freed id, or, if `id` is 0, the first of the chain.
fn set_older(slots: &mut [Slot], first: &mut u32, id: u32, older: u32)
    ensures slots { IsOlderSet id older slots.old slots.new }
    ensures first { first.new ≡ (if eqb id 0 then older else first.old) }
{
    if id == 0 {
        *first = older;
    } else if let Some(Slot::Free { newer, .. }) = slot_of(slots, id) {
        put(slots, id, Slot::Free { newer, older });
    }
}

/// Sets the newer neighbour of a freed id. Does nothing if `id` is 0.
fn set_newer(slots: &mut [Slot], id: u32, newer: u32)
    ensures { IsNewerSet id newer slots.old slots.new }
{
    if let Some(Slot::Free { older, .. }) = slot_of(slots, id) {
        put(slots, id, Slot::Free { newer, older });
    }
}

/// Removes a freed id from the chain, wherever it is, and links its neighbours.
fn take_out(slots: &mut [Slot], first: &mut u32, id: u32)
    ensures chain { IsTakenOut id slots.old first.old slots.new first.new }
    ensures rows { HasSameRows slots.old slots.new }
{
    let Some(Slot::Free { newer, older }) = slot_of(slots, id) else {
        return;
    };
    set_older(slots, first, newer, older);
    set_newer(slots, older, newer);
}

/// Frees an id that was used, and puts it at the front of the chain.
fn put_first(slots: &mut [Slot], first: &mut u32, id: u32)
    requires some { 0 < id }
    requires used { id ≤ length slots.old }
    ensures chain { IsPutFirst id slots.old first.old slots.new first.new }
    ensures rows { HasNoRowAt id slots.old slots.new }
{
    let older = *first;
    set_newer(slots, older, id);
    put(slots, id, Slot::Free { newer: 0, older });
    *first = id;
}

impl<A: Allocator> SlotTable<A> {
    /// The next id to be opened.
    fn next_id(&self) -> u32
        ensures { result ≡ next_id self.now }
    {
        match self.first_free {
            0 => self.slots.len() as u32 + 1,
            id => id,
        }
    }

    /// Opens an object at a freed id. It allocates nothing.
    fn open_freed(&mut self, id: u32, iface: Iface, version: u32) -> Object
        requires freed { 0 < times id self.old.freed }
        requires room { IsTrue (has_room self.old id) }
        ensures table { self.new ≡ opened_at self.old id iface version }
        ensures object { result ≡ record { id = id; birth = self.old.births } }
    {
        let birth = self.births;
        take_out(&mut self.slots, &mut self.first_free, id);
        put(&mut self.slots, id, Slot::live(birth, iface, version));
        self.free -= 1;
        self.births += 1;
        Object { id, birth }
    }

    /// Opens an object at the next new id. The only refusal is O4.
    fn open_new(&mut self, iface: Iface, version: u32) -> Result<Object, TableError>
        requires room { IsTrue (has_room self.old (self.old.used + 1)) }
        ensures ok { OnOk result (self.new ≡ opened_at self.old (self.old.used + 1) iface version) }
        ensures id { IfOk result (λ object. object.id ≡ self.old.used + 1) }
        ensures birth { IfOk result (λ object. object.birth ≡ self.old.births) }
        ensures err { OnErr result (self.new ≡ self.old) }
        ensures memory { IfErr result (λ e. e ≡ TableError.Memory) }
    {
        let birth = self.births;
        if self.slots.push(Slot::live(birth, iface, version)).is_err() {
            return Err(TableError::Memory);
        }
        self.births += 1;
        let id = self.slots.len() as u32;
        Ok(Object { id, birth })
    }

    /// Opens an object at a freed id or the next new one; the limits must leave room for it. The
    /// only refusal is O4.
    fn open(&mut self, id: u32, iface: Iface, version: u32) -> Result<Object, TableError>
        requires free { IsTrue (free_or_next self.old id) }
        requires room { IsTrue (has_room self.old id) }
        ensures ok { OnOk result (self.new ≡ opened_at self.old id iface version) }
        ensures object { IfOk result
            (λ object. object ≡ record { id = id; birth = self.old.births }) }
        ensures err { OnErr result (self.new ≡ self.old) }
        ensures memory { IfErr result (λ e. e ≡ TableError.Memory) }
    {
        if id as usize <= self.slots.len() {
            Ok(self.open_freed(id, iface, version))
        } else {
            self.open_new(iface, version)
        }
    }
}

impl<A: Allocator + Clone + Drop> Table for SlotTable<A> {
    type Alloc = A;

    ghost view = { λ v. v };

    fn new(alloc: A, display: Iface) -> Result<Self, AllocError> {
        let mut slots = Vec::with_capacity(alloc, 1)?;
        slots.push_reserved(Slot::live(0, display, 1));
        Ok(SlotTable {
            slots,
            first_free: 0,
            free: 0,
            births: 1,
        })
    }

    fn look(&self, id: u32) -> Option<Entry> {
        let slot = self.slots.get((id as usize).checked_sub(1)?)?;
        match *slot {
            Slot::Row {
                birth,
                version,
                iface,
                state,
            } => Some(Entry {
                birth,
                iface,
                version,
                state,
            }),
            Slot::Free { .. } => None,
        }
    }

    fn is_free(&self, id: u32) -> bool {
        match slot_of(&self.slots, id) {
            Some(Slot::Row { .. }) => false,
            Some(Slot::Free { .. }) => true,
            None => id as usize == self.slots.len() + 1,
        }
    }

    fn has_room(&self, id: u32) -> bool {
        id <= MAX_IDS && self.births < u64::MAX
    }

    fn can_open(&self) -> bool {
        self.has_room(self.next_id())
    }

    fn used(&self) -> u32 {
        self.slots.len() as u32
    }

    fn len(&self) -> u32 {
        // Each id used has a row or is free.
        self.slots.len() as u32 - self.free
    }

    fn births(&self) -> u64 {
        self.births
    }

    fn open_next(&mut self, iface: Iface, version: u32) -> Result<Object, TableError> {
        let id = self.next_id();
        if !self.has_room(id) {
            return Err(TableError::NoIds);
        }
        self.open(id, iface, version)
    }

    fn open_at(&mut self, id: u32, iface: Iface, version: u32) -> Result<Object, TableError> {
        if self.look(id).is_some() {
            return Err(TableError::InUse);
        }
        if !self.is_free(id) {
            return Err(TableError::NotNext);
        }
        if !self.has_room(id) {
            return Err(TableError::NoIds);
        }
        self.open(id, iface, version)
    }

    fn reopen(&mut self, id: u32, iface: Iface, version: u32) -> Object {
        let object = Object {
            id,
            birth: self.births,
        };
        put(
            &mut self.slots,
            id,
            Slot::live(object.birth, iface, version),
        );
        self.births += 1;
        object
    }

    fn make_zombie(&mut self, id: u32) {
        let Some(entry) = self.look(id) else {
            return;
        };
        let ended = Slot::Row {
            birth: entry.birth,
            version: entry.version,
            iface: entry.iface,
            state: State::Zombie,
        };
        put(&mut self.slots, id, ended);
    }

    fn close(&mut self, id: u32) {
        put_first(&mut self.slots, &mut self.first_free, id);
        self.free += 1;
    }
}
