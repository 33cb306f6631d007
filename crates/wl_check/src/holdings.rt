//! The objects that are held and the globals that were advertised.
ghost use Rattle.std.specs.Prelude.{◌≡◌, ℕ, ◌+◌, ◌-◌, ◌<◌, ◌++◌, ◌∷◌, [], OnOk, OnErr, IfOk, cond};
ghost use Rattle.std.specs.Prelude.{get_or, length, max, nat_eq, option_map, replicate, set, take};
ghost use Rattle.std.specs.Prelude.{Some, None};
ghost use Rattle.std.specs.BTreeMap.{is_at};
ghost use Rattle.std.specs.Map.{set_value};
ghost use Rattle.wl_object_map.specs.declared.object.State.TheVariants.{Live};
ghost use Rattle.wl_check.specs.declared.overwritten.Overwritten.TheVariants.{Object};
ghost use Rattle.wl_check.specs.Held.{held_object, pair_cmp, put_back, held_version, Held};
ghost use Rattle.wl_check.specs.Held.{slots_in, undone, undone_by, AreReached, HasFewSlots};
ghost use Rattle.wl_check.specs.Held.{HasSlotsOf};
ghost use Rattle.wl_check.specs.Places.{as_zombie, made_entry, frees_id, is_id, is_made};
ghost use Rattle.wl_check.specs.Places.{new_or_null};
ghost use Rattle.wl_check.specs.Places.{server_used_by, used_by, advertised_once};

use crate::changes::AdvertisedGlobal;
use crate::overwritten::{Overwritten, UndoList};
use std::alloc::{AllocError, Allocator, Global};
use std::collections::BTreeMap;
use std::marker::Model;
use wl_object_map::{DISPLAY_ID, FIRST_SERVER_ID, Maker};
use wl_objects::{Entry, NewObject, State};

/// The objects that are held (ending ones as zombies), and the globals that were advertised.
/// Whatever changes them records what it overwrites, so that `undo` can restore all, also if memory
/// runs out halfway.
#[derive(Drop)]
pub(crate) struct Holdings<A: Allocator = Global> {
    /// The object at each id of the client's range. Ids are used in order, so besides slot 0 no
    /// more slots are kept than ids were used.
    objects: Vec<Option<Entry>, A>,
    /// The object at each id of the server's range, from its first id on, for as many as were used.
    server_objects: Vec<Option<Entry>, A>,
    /// For each name and each interface of the tables, the greatest advertised version.
    globals: BTreeMap<(u32, u16), u32, A>,
}

impl<A: Allocator> Model for Holdings<A> {
    ghost use Rattle.wl_check.specs.Held.{Held};

    ghost Value = { Held };

    ghost view = { λ h. record {
      objects = h.objects.items;
      server_objects = h.server_objects.items;
      globals = h.globals.entries;
    } };
}

/// The object at a place of the slots.
fn slot_of(slots: &[Option<Entry>], place: u32) -> Option<Entry>
    ensures { result ≡ get_or slots.now place None }
{
    match slots.get(place as usize) {
        Some(slot) => *slot,
        None => None,
    }
}

/// Adds slots up to a place, if they are missing.
#[inline(always)]
fn reach<A: Allocator>(slots: &mut Vec<Option<Entry>, A>, place: u32) -> Result<(), AllocError>
    ensures items { OnOk result (slots.new.items
        ≡ slots.old.items ++ replicate (place + 1 - length slots.old.items) None) }
    ensures err { OnErr result (slots.new.items ≡ slots.old.items) }
    ensures room { OnOk result (place < length slots.new.items) }
    ensures slots { OnOk result
        (length slots.new.items ≡ max (length slots.old.items) (place + 1)) }
{
    let len = place as usize + 1;
    if slots.len() < len {
        slots.resize(len, None)?;
    }
    Ok(())
}

/// Overwrites a place of the slots; adds a slot if there is none.
#[inline(always)]
fn write_slot<A: Allocator>(
    slots: &mut Vec<Option<Entry>, A>,
    place: u32,
    entry: Option<Entry>,
) -> Result<(), AllocError>
    ensures entry { OnOk result ((other : ℕ) → get_or slots.new.items other None
        ≡ cond (nat_eq place other) entry (get_or slots.old.items other None)) }
    ensures slots { OnOk result
        (length slots.new.items ≡ max (length slots.old.items) (place + 1)) }
    ensures back { take (length slots.old.items)
        (set slots.new.items place (get_or slots.old.items place None)) ≡ slots.old.items }
{
    reach(slots, place)?;
    slots[place as usize] = entry;
    Ok(())
}

/// Restores a place of the slots, and the number of slots.
fn put_back_slot<A: Allocator>(
    slots: &mut Vec<Option<Entry>, A>,
    place: u32,
    entry: Option<Entry>,
    len: usize,
)
    ensures { slots.new.items ≡ take len (set slots.old.items place entry) }
{
    if (place as usize) < slots.len() {
        slots[place as usize] = entry;
    }
    slots.truncate(len);
}

/// Sets the version of a global, which must be there.
fn set_version<A: Allocator>(
    globals: &mut BTreeMap<(u32, u16), u32, A>,
    key: (u32, u16),
    version: u32,
)
    ensures { globals.new.entries ≡ set_value (is_at (pair_cmp key)) globals.old.entries version }
{
    if let Some(there) = globals.get_mut(&key) {
        *there = version;
    }
}

impl<A: Allocator + Clone> Holdings<A> {
    /// wl_display alone, and no globals.
    pub(crate) fn new(alloc: &A, display: Entry) -> Result<Self, AllocError>
        ensures objects { IfOk result (λ h. h.objects ≡ None ∷ Some display ∷ []) }
        ensures server_objects { IfOk result (λ h. h.server_objects ≡ []) }
        ensures globals { IfOk result (λ h. h.globals ≡ []) }
    {
        let mut objects = Vec::new(alloc.clone()?);
        objects.push(None)?;
        objects.push(Some(display))?;
        Ok(Holdings {
            objects,
            server_objects: Vec::new(alloc.clone()?),
            globals: BTreeMap::new(alloc.clone()?),
        })
    }

    /// Remembers a global that an event advertises, unless an event advertised at least this
    /// version.
    pub(crate) fn remember_global(
        &mut self,
        global: &AdvertisedGlobal,
        undo: &mut UndoList<A>,
    ) -> Result<(), AllocError>
        ensures versions { OnOk result ((key : ℕ × ℕ) → held_version self.new key
            ≡ advertised_once global.now key.0 key.1 (held_version self.old key)) }
        ensures objects { self.new.objects ≡ self.old.objects }
        ensures server_objects { self.new.server_objects ≡ self.old.server_objects }
        ensures undone { undone_by undo.new self.new ≡ undone_by undo.old self.old }
    {
        let key = (global.name, global.iface.0);
        let version = self.globals.get(&key).copied();
        if global.version <= version.unwrap_or(0) {
            return Ok(());
        }
        undo.write_down(Overwritten::Global { key, version })?;
        self.globals.insert(key, global.version)?;
        Ok(())
    }
}

impl<A: Allocator> Holdings<A> {
    /// The object that is held with this id.
    pub(crate) fn object(&self, id: u32) -> Option<Entry>
        ensures { result ≡ held_object self.now id }
    {
        match Maker::of(id) {
            Maker::Client => slot_of(self.objects.as_slice(), id),
            Maker::Server => slot_of(self.server_objects.as_slice(), id - FIRST_SERVER_ID),
        }
    }

    /// How many slots the range of an id has.
    pub(crate) fn slots_in(&self, id: u32) -> usize
        ensures { result ≡ slots_in self.now id }
    {
        match Maker::of(id) {
            Maker::Client => self.objects.len(),
            Maker::Server => self.server_objects.len(),
        }
    }

    /// The greatest version that an event advertised for a name and an interface, or 0.
    pub(crate) fn version(&self, key: (u32, u16)) -> u32
        ensures { result ≡ held_version self.now key }
    {
        self.globals.get(&key).copied().unwrap_or(0)
    }

    /// Overwrites the object at an id; adds a slot if there is none.
    #[inline(always)]
    fn write(&mut self, id: u32, entry: Option<Entry>) -> Result<(), AllocError>
        ensures entry { OnOk result ((other : ℕ) → held_object self.new other
            ≡ cond (nat_eq id other) entry (held_object self.old other)) }
        ensures slots { OnOk result (AreReached id self.old self.new) }
        ensures globals { self.new.globals ≡ self.old.globals }
        ensures back { put_back (Object id (held_object self.old id) (slots_in self.old id))
            self.new ≡ self.old }
    {
        match Maker::of(id) {
            Maker::Client => write_slot(&mut self.objects, id, entry),
            Maker::Server => write_slot(&mut self.server_objects, id - FIRST_SERVER_ID, entry),
        }
    }

    /// Overwrites the object at an id, as `write` does, and records the old one.
    #[inline(always)]
    fn put(
        &mut self,
        id: u32,
        entry: Option<Entry>,
        undo: &mut UndoList<A>,
    ) -> Result<(), AllocError>
        ensures entry { OnOk result ((other : ℕ) → held_object self.new other
            ≡ cond (nat_eq id other) entry (held_object self.old other)) }
        ensures slots { OnOk result (AreReached id self.old self.new) }
        ensures globals { self.new.globals ≡ self.old.globals }
        ensures undone { undone_by undo.new self.new ≡ undone_by undo.old self.old }
    {
        undo.write_down(Overwritten::Object {
            id,
            entry: self.object(id),
            slots: self.slots_in(id),
        })?;
        self.write(id, entry)
    }

    /// Frees an id, except that of wl_display and those of the server's range.
    #[inline(always)]
    pub(crate) fn free(&mut self, id: Option<u32>, undo: &mut UndoList<A>) -> Result<(), AllocError>
        ensures freed { OnOk result ((other : ℕ) → held_object self.new other
            ≡ cond (frees_id id other) None (held_object self.old other)) }
        ensures slots { OnOk result (HasSlotsOf self.old self.new) }
        ensures globals { self.new.globals ≡ self.old.globals }
        ensures undone { undone_by undo.new self.new ≡ undone_by undo.old self.old }
    {
        match id {
            Some(id) if id != DISPLAY_ID && id < FIRST_SERVER_ID && self.object(id).is_some() => {
                self.put(id, None, undo)
            }
            _ => Ok(()),
        }
    }

    /// Makes a zombie of an object.
    #[inline(always)]
    pub(crate) fn make_zombie(
        &mut self,
        id: Option<u32>,
        undo: &mut UndoList<A>,
    ) -> Result<(), AllocError>
        ensures ending { OnOk result ((other : ℕ) → held_object self.new other
            ≡ cond (is_id id other) (option_map as_zombie (held_object self.old other))
            (held_object self.old other)) }
        ensures slots { OnOk result (HasSlotsOf self.old self.new) }
        ensures globals { self.new.globals ≡ self.old.globals }
        ensures undone { undone_by undo.new self.new ≡ undone_by undo.old self.old }
    {
        let Some(id) = id else {
            return Ok(());
        };
        let Some(entry) = self.object(id) else {
            return Ok(());
        };
        let ending = Entry {
            state: State::Zombie,
            ..entry
        };
        self.put(id, Some(ending), undo)
    }

    /// Opens an object that was made at a place.
    #[inline(always)]
    pub(crate) fn open(
        &mut self,
        place: u64,
        made: Option<NewObject>,
        undo: &mut UndoList<A>,
    ) -> Result<(), AllocError>
        ensures opened { OnOk result ((other : ℕ) → held_object self.new other
            ≡ cond (is_made made other) (Some (made_entry place Live (new_or_null made)))
            (held_object self.old other)) }
        ensures slots { OnOk result ((used server_used : ℕ)
            → HasFewSlots self.old used server_used
            → HasFewSlots self.new (used_by made used) (server_used_by made server_used)) }
        ensures globals { self.new.globals ≡ self.old.globals }
        ensures undone { undone_by undo.new self.new ≡ undone_by undo.old self.old }
    {
        let Some(new) = made else {
            return Ok(());
        };
        let entry = Entry {
            birth: place,
            iface: new.iface,
            version: new.version,
            state: State::Live,
        };
        self.put(new.id, Some(entry), undo)
    }

    /// Restores one place.
    fn put_back(&mut self, before: Overwritten)
        ensures { self.new ≡ put_back before self.old }
    {
        match before {
            Overwritten::Object { id, entry, slots } => match Maker::of(id) {
                Maker::Client => put_back_slot(&mut self.objects, id, entry, slots),
                Maker::Server => {
                    put_back_slot(&mut self.server_objects, id - FIRST_SERVER_ID, entry, slots)
                }
            },
            Overwritten::Global {
                key,
                version: Some(version),
            } => set_version(&mut self.globals, key, version),
            Overwritten::Global { key, version: None } => {
                self.globals.remove(&key);
            }
        }
    }

    /// Restores all of a list, the last first.
    fn put_back_all(&mut self, list: &mut Vec<Overwritten, A>)
        ensures { self.new ≡ undone list.old.items self.old }
    {
        'undone: while let Some(before) = list.pop() {
            self.put_back(before);
        }
    }

    /// Restores all that was recorded. The room made for more objects is given back, if there is
    /// memory to move the others.
    pub(crate) fn undo(&mut self, undo: &mut UndoList<A>)
        ensures { (held : Held) → undone_by undo.old self.old ≡ Some held → self.new ≡ held }
    {
        match undo {
            UndoList::Off => {}
            UndoList::On(list) => {
                self.put_back_all(list);
                self.objects.shrink_to_fit();
                self.server_objects.shrink_to_fit();
            }
        }
    }
}
