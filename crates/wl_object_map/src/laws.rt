//! What follows from the definitions of a table. Each law is the contract of a function that does
//! nothing.
ghost use Rattle.std.specs.Prelude.{◌≡◌, ◌≢◌, ℕ, ◌+◌, Bool, true, not, ◌&&◌, ltb, leb, eqb, length};
ghost use Rattle.std.specs.Prelude.{[], None, drop, if◌then◌else◌};
ghost use Rattle.wl_wire.specs.declared.kind.Iface.{Iface};
ghost use Rattle.wl_object_map.specs.View.{View, Sound, is_held, free_or_next, has_room, can_open};
ghost use Rattle.wl_object_map.specs.View.{next_id, opening, opened, opened_at, closed, zombied};
ghost use Rattle.wl_object_map.specs.declared.object.Maker.{Maker};
ghost use Rattle.wl_object_map.specs.declared.object.Maker.TheVariants.{Server};
ghost use Rattle.wl_object_map.specs.Ranges.{is_of_server};
ghost use Rattle.wl_object_map.specs.Objects as objects;
ghost use Rattle.wl_object_map.specs.Objects.{Objects, ObjectsAreSound, IsServerRangeNew};

/// Every call turns a sound table into a sound one.
pub fn tables_stay_sound()
    ensures opening { (display : Iface) → Sound (opening display) }
    ensures opened_at { (table : View) (id : ℕ) (iface : Iface) (version : ℕ) → Sound table
        → free_or_next table id ≡ true → has_room table id ≡ true
        → Sound (opened_at table id iface version) }
    ensures opened { (table : View) (iface : Iface) (version : ℕ) → Sound table
        → can_open table ≡ true → Sound (opened table iface version) }
    ensures reopened { (table : View) (id : ℕ) (iface : Iface) (version : ℕ) → Sound table
        → is_held table id ≡ true → id ≢ 1 → has_room table id ≡ true
        → Sound (opened_at table id iface version) }
    ensures zombied { (table : View) (id : ℕ) → Sound table → id ≢ 1 → Sound (zombied table id) }
    ensures closed { (table : View) (id : ℕ) → Sound table → is_held table id ≡ true → id ≢ 1
        → Sound (closed table id) }
{}

/// An id is freed or the next new one if and only if it has no row and is from 1 to one past the
/// ids used. The next id to be opened is such an id: the one freed last, which then leaves the
/// freed ids, or the next new one.
pub fn free_ids_have_no_row()
    ensures free { (table : View) (id : ℕ) → Sound table
        → free_or_next table id
        ≡ (not (is_held table id) && (ltb 0 id && leb id (table.used + 1))) }
    ensures next { (table : View) → free_or_next table (next_id table) ≡ true }
    ensures freed { (table : View) (iface : Iface) (version : ℕ) → Sound table
        → (opened table iface version).freed ≡ drop 1 table.freed }
    ensures used { (table : View) (iface : Iface) (version : ℕ) → Sound table
        → (opened table iface version).used
        ≡ (if eqb (length table.freed) 0 then table.used + 1 else table.used) }
{}

/// An opening at an id that has a row changes neither the freed ids nor the number of ids used.
pub fn reopening_uses_no_id()
    ensures freed { (table : View) (id : ℕ) (iface : Iface) (version : ℕ) → Sound table
        → is_held table id ≡ true → (opened_at table id iface version).freed ≡ table.freed }
    ensures used { (table : View) (id : ℕ) (iface : Iface) (version : ℕ) → Sound table
        → is_held table id ≡ true → (opened_at table id iface version).used ≡ table.used }
{}

/// Every call keeps both tables of an end sound.
pub fn objects_stay_sound()
    ensures opening { (display : Iface) (has_server_range : Bool)
        → ObjectsAreSound (objects.opening display has_server_range) }
    ensures opened_at { (o : Objects) (id : ℕ) (iface : Iface) (version : ℕ) → ObjectsAreSound o
        → objects.free_or_next o id ≡ true → objects.has_room o id ≡ true
        → ObjectsAreSound (objects.opened_at o id iface version) }
    ensures opened { (maker : Maker) (o : Objects) (iface : Iface) (version : ℕ) → ObjectsAreSound o
        → objects.can_open maker o ≡ true → ObjectsAreSound (objects.opened maker o iface version) }
    ensures reopened { (o : Objects) (id : ℕ) (iface : Iface) (version : ℕ) → ObjectsAreSound o
        → objects.is_held o id ≡ true → id ≢ 1 → objects.has_room o id ≡ true
        → ObjectsAreSound (objects.opened_at o id iface version) }
    ensures zombied { (o : Objects) (id : ℕ) → ObjectsAreSound o → id ≢ 1
        → ObjectsAreSound (objects.zombied o id) }
    ensures closed { (o : Objects) (id : ℕ) → ObjectsAreSound o → objects.is_held o id ≡ true
        → id ≢ 1
        → ObjectsAreSound (objects.closed o id) }
{}

/// A new server range is empty: no id in it has a row or was used, and its first object will have
/// birth 1.
pub fn new_ranges_are_empty()
    ensures rows { (o : Objects) (id : ℕ) → IsServerRangeNew o → is_of_server id ≡ true
        → objects.look o id ≡ None }
    ensures used { (o : Objects) → IsServerRangeNew o → objects.ids_used Server o ≡ 0 }
    ensures freed { (o : Objects) → IsServerRangeNew o → o.server.freed ≡ [] }
    ensures births { (o : Objects) → IsServerRangeNew o → objects.next_birth Server o ≡ 1 }
{}
