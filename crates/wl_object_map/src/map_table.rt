//! A table of objects in an ordered map.
ghost use Rattle.std.specs.Prelude.{◌≡◌, ◌≤◌, OnOk, OnErr, IfOk, IfErr, IsTrue, vec_capacity};
ghost use Rattle.std.specs.Ordering.{nat_cmp};
ghost use Rattle.std.specs.FinMap.{from_entries, insert as with_row};
ghost use Rattle.wl_object_map.specs.View.{View, free_or_next, has_room, next_id, opened_at, times};
ghost use Rattle.wl_object_map.specs.View.{without};

use super::table::{DISPLAY_ID, MAX_IDS};
use super::{Entry, Object, State, Table, TableError};
use std::alloc::{AllocError, Allocator, Global};
use std::collections::BTreeMap;
use std::marker::Model;
use wl_wire::Iface;

/// A table of objects in an ordered map, with a list of the freed ids.
#[derive(Drop)]
pub struct MapTable<A: Allocator = Global> {
    rows: BTreeMap<u32, Entry, A>,
    // Freed ids, the latest at the end. The capacity suffices for every id that is used.
    freed: Vec<u32, A>,
    used: u32,
    births: u64,
}

impl<A: Allocator> Model for MapTable<A> {
    ghost use Rattle.std.specs.Prelude.{◌≡◌, ◌≤◌, reverse, vec_capacity};
    ghost use Rattle.std.specs.FinMap.{from_entries};
    ghost use Rattle.wl_object_map.specs.View.{View, view_code, Sound};

    ghost Value = { View };

    ghost coded = { view_code };

    ghost view = { λ t. record {
      rows = from_entries t.rows.entries;
      freed = reverse t.freed.items;
      used = t.used;
      births = t.births;
    } };

    ghost invariant = { λ t. Sound (record {
      rows = from_entries t.rows.entries;
      freed = reverse t.freed.items;
      used = t.used;
      births = t.births;
    }) × (t.used ≤ vec_capacity t.freed) };
}

/// Inserts a row into the map, and reserves room among the freed ids for every id up to the row's.
fn insert_row<A: Allocator + Clone>(
    rows: &mut BTreeMap<u32, Entry, A>,
    freed: &mut Vec<u32, A>,
    id: u32,
    entry: Entry,
) -> Result<(), TableError>
    ensures rows { OnOk result
        (from_entries {R = nat_cmp} rows.new.entries
        ≡ with_row (from_entries rows.old.entries) id entry) }
    ensures room { OnOk result (id ≤ vec_capacity freed.new) }
    ensures rows_stay { OnErr result (rows.new.entries ≡ rows.old.entries) }
    ensures memory { IfErr result (λ e. e ≡ TableError.Memory) }
    ensures freed { freed.new.items ≡ freed.old.items }
    ensures capacity { vec_capacity freed.old ≤ vec_capacity freed.new }
{
    let free = freed.len();
    if freed.reserve((id as usize).saturating_sub(free)).is_err() {
        return Err(TableError::Memory);
    }
    match rows.insert(id, entry) {
        Ok(_) => Ok(()),
        Err(_) => Err(TableError::Memory),
    }
}

/// Removes an id from the freed ids, wherever it is in the list.
fn take_out<A: Allocator>(freed: &mut Vec<u32, A>, id: u32)
    requires { times id freed.old.items ≤ 1 }
    ensures items { freed.new.items ≡ without id freed.old.items }
    ensures capacity { vec_capacity freed.new ≡ vec_capacity freed.old }
{
    // Fast path: the id that was freed last.
    if let Some(last) = freed.pop() {
        if last != id {
            freed.push_reserved(last);
            freed.retain(|freed_id| *freed_id != id);
        }
    }
}

impl<A: Allocator> MapTable<A> {
    /// The next id to be opened.
    fn next_id(&self) -> u32
        ensures { result ≡ next_id self.now }
    {
        match self.freed.last() {
            Some(id) => *id,
            None => self.used + 1,
        }
    }
}

impl<A: Allocator + Clone> MapTable<A> {
    /// Opens an object at a freed id or the next new one; the limits must leave room for it. The
    /// only refusal is O4.
    fn open(&mut self, id: u32, iface: Iface, version: u32) -> Result<Object, TableError>
        requires free { IsTrue (free_or_next self.old id) }
        requires room { IsTrue (has_room self.old id) }
        ensures ok { OnOk result (self.new ≡ opened_at self.old id iface version) }
        ensures object { IfOk result
            (λ object. object ≡ record { id = id; birth = self.old.births }) }
        ensures err { OnErr result (self.new ≡ self.old) }
        ensures memory { IfErr result (λ e. e ≡ TableError.Memory) }
    {
        let birth = self.births;
        let entry = Entry {
            birth,
            iface,
            version,
            state: State::Live,
        };
        insert_row(&mut self.rows, &mut self.freed, id, entry)?;
        take_out(&mut self.freed, id);
        self.used = self.used.max(id);
        self.births += 1;
        Ok(Object { id, birth })
    }
}

impl<A: Allocator + Clone + Drop> Table for MapTable<A> {
    type Alloc = A;

    ghost view = { λ v. v };

    fn new(alloc: A, display: Iface) -> Result<Self, AllocError> {
        let freed = Vec::with_capacity(alloc.clone()?, 1)?;
        let mut rows = BTreeMap::new(alloc);
        rows.insert(
            DISPLAY_ID,
            Entry {
                birth: 0,
                iface: display,
                version: 1,
                state: State::Live,
            },
        )?;
        Ok(MapTable {
            rows,
            freed,
            used: DISPLAY_ID,
            births: 1,
        })
    }

    fn look(&self, id: u32) -> Option<Entry> {
        self.rows.get(&id).copied()
    }

    fn is_free(&self, id: u32) -> bool {
        0 < id && id <= self.used + 1 && !self.rows.contains_key(&id)
    }

    fn has_room(&self, id: u32) -> bool {
        id <= MAX_IDS && self.births < u64::MAX
    }

    fn can_open(&self) -> bool {
        self.has_room(self.next_id())
    }

    fn used(&self) -> u32 {
        self.used
    }

    fn len(&self) -> u32 {
        // Each id used has a row or is freed.
        self.used - self.freed.len() as u32
    }

    fn births(&self) -> u64 {
        self.births
    }

    fn open_next(&mut self, iface: Iface, version: u32) -> Result<Object, TableError> {
        let id = self.next_id();
        if !self.has_room(id) {
            return Err(TableError::NoIds);
        }
        self.open(id, iface, version)
    }

    fn open_at(&mut self, id: u32, iface: Iface, version: u32) -> Result<Object, TableError> {
        if self.look(id).is_some() {
            return Err(TableError::InUse);
        }
        if !self.is_free(id) {
            return Err(TableError::NotNext);
        }
        if !self.has_room(id) {
            return Err(TableError::NoIds);
        }
        self.open(id, iface, version)
    }

    fn reopen(&mut self, id: u32, iface: Iface, version: u32) -> Object {
        let object = Object {
            id,
            birth: self.births,
        };
        let Some(entry) = self.rows.get_mut(&id) else {
            return object;
        };
        *entry = Entry {
            birth: object.birth,
            iface,
            version,
            state: State::Live,
        };
        self.births += 1;
        object
    }

    fn make_zombie(&mut self, id: u32) {
        let Some(entry) = self.rows.get_mut(&id) else {
            return;
        };
        entry.state = State::Zombie;
    }

    fn close(&mut self, id: u32) {
        let _ = self.rows.remove(&id);
        self.freed.push_reserved(id);
    }
}
