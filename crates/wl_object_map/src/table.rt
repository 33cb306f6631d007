//! The table of objects of one end, however it is stored.
ghost use Rattle.std.specs.Prelude.{◌≡◌, ◌≢◌, ◌↔◌, not, ◌&&◌, IfOk, OnOk, OnErr, IsTrue};
ghost use Rattle.std.specs.FinMap.{len as row_count};
ghost use Rattle.wl_object_map.specs.View.{View, Sound, look, is_held, is_live, free_or_next};
ghost use Rattle.wl_object_map.specs.View.{has_room};
ghost use Rattle.wl_object_map.specs.View.{can_open, next_id, opening, opened, opened_at, closed};
ghost use Rattle.wl_object_map.specs.View.{zombied};

use super::{Entry, Object, TableError};
use std::alloc::{AllocError, Allocator};
use wl_wire::Iface;

/// The most ids of the client's range, id 1 included.
pub const MAX_IDS: u32 = 1_048_576;

/// The id of wl_display.
pub const DISPLAY_ID: u32 = 1;

/// The first id of the server's range. The client makes the ids below it.
pub const FIRST_SERVER_ID: u32 = 0xff00_0000;

/// The last id of the server's range.
pub const MAX_SERVER_ID: u32 = 0xff0f_fffe;

/// The objects of one end: a row for each id in use, the freed ids, latest first, the number of ids
/// ever used, and the number of births.
///
/// Id 1 is always wl_display. A call that is refused leaves the table unchanged.
pub trait Table: Drop {
    /// The allocator of the table's memory.
    type Alloc: Allocator + Clone + Drop;

    ghost view: { Self → View };

    /// A table with one object: wl_display with id 1, birth 0 and version 1.
    fn new(alloc: Self::Alloc, display: Iface) -> Result<Self, AllocError>
        ensures { IfOk result (λ table. view table ≡ opening display) };

    /// The entry of an id, live or zombie.
    fn look(&self, id: u32) -> Option<Entry>
        ensures entry { result ≡ look (view self.now) id }
        ensures sound { Sound (view self.now) };

    /// Whether an id is freed or the next new one, so that `open_at` returns neither O2 nor O3.
    fn is_free(&self, id: u32) -> bool
        ensures { result ≡ free_or_next (view self.now) id };

    /// Whether the limits of O1 leave room for an object at this id.
    fn has_room(&self, id: u32) -> bool
        ensures { result ≡ has_room (view self.now) id };

    /// Whether the limits leave room for one more object, so that `open_next` does not return O1.
    fn can_open(&self) -> bool
        ensures { result ≡ can_open (view self.now) };

    /// How many ids were ever used.
    fn used(&self) -> u32
        ensures { result ≡ (view self.now).used };

    /// How many objects were opened, wl_display included: the birth that the next object gets.
    fn births(&self) -> u64
        ensures { result ≡ (view self.now).births };

    /// How many entries the table has, live and zombie. The entry of id 1 is always there.
    fn len(&self) -> u32
        ensures { result ≡ row_count (view self.now).rows };

    /// Opens an object at the id freed last, or at the next new one if none is free. O1 is tested
    /// before O4.
    fn open_next(&mut self, iface: Iface, version: u32) -> Result<Object, TableError>
        ensures ok { OnOk result (view self.new ≡ opened (view self.old) iface version) }
        ensures object { IfOk result
            (λ object. object
            ≡ record { id = next_id (view self.old); birth = (view self.old).births }) }
        ensures err { OnErr result (view self.new ≡ view self.old) }

        ensures no_ids { (result ≡ Err TableError.NoIds) ↔ IsTrue (not (can_open (view self.old))) }
        ensures not_next { result ≢ Err TableError.NotNext }
        ensures in_use { result ≢ Err TableError.InUse };

    /// Opens an object at a given id: a freed one, wherever it is in the list, or the next new one.
    /// O3 is tested first, then O2, O1 and O4.
    fn open_at(&mut self, id: u32, iface: Iface, version: u32) -> Result<Object, TableError>
        ensures ok { OnOk result (view self.new ≡ opened_at (view self.old) id iface version) }
        ensures object { IfOk result
            (λ object. object ≡ record { id = id; birth = (view self.old).births }) }
        ensures err { OnErr result (view self.new ≡ view self.old) }

        ensures in_use { (result ≡ Err TableError.InUse) ↔ IsTrue (is_held (view self.old) id) }
        ensures not_next { (result ≡ Err TableError.NotNext)
            ↔ IsTrue (not (is_held (view self.old) id) && not (free_or_next (view self.old) id)) }
        ensures no_ids { (result ≡ Err TableError.NoIds)
            ↔ IsTrue (free_or_next (view self.old) id && not (has_room (view self.old) id)) }
        // Hence a free id has no entry.
        ensures sound { Sound (view self.old) };

    /// Opens an object at an id that has an entry, live or zombie, and replaces that entry: the id
    /// stays in use, and the object gets the next birth. It allocates nothing and is never refused.
    fn reopen(&mut self, id: u32, iface: Iface, version: u32) -> Object
        requires held { IsTrue (is_held (view self.old) id) }
        requires not_display { id ≢ 1 }
        requires room { IsTrue (has_room (view self.old) id) }
        // An id with an entry is not freed and at most the number of ids used, so both stay.
        ensures table { view self.new ≡ opened_at (view self.old) id iface version }
        ensures object { result ≡ record { id = id; birth = (view self.old).births } };

    /// Makes a live object a zombie: its id stays in use. It allocates nothing.
    fn make_zombie(&mut self, id: u32)
        requires live { IsTrue (is_live (view self.old) id) }
        requires not_display { id ≢ 1 }
        ensures { view self.new ≡ zombied (view self.old) id };

    /// Removes an object's entry and frees its id, which is then the first to be reused. It
    /// allocates nothing.
    fn close(&mut self, id: u32)
        requires held { IsTrue (is_held (view self.old) id) }
        requires not_display { id ≢ 1 }
        ensures { view self.new ≡ closed (view self.old) id };
}
