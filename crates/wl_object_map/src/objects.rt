//! The objects of one end in both ranges of ids: a table for each.
ghost use Rattle.std.specs.Prelude.{◌≡◌, ◌≢◌, ◌≤◌, ◌↔◌, ◌&&◌, not, true, false, Err, IfOk, OnOk};
ghost use Rattle.std.specs.Prelude.{OnErr, IsTrue};
ghost use Rattle.wl_object_map.specs.Ranges.{is_of_server, table_id, wire_id};
ghost use Rattle.wl_object_map.specs.View.{max_ids};
ghost use Rattle.wl_object_map.specs.Objects.{Objects, ObjectsAreSound, look, is_held, is_live};
ghost use Rattle.wl_object_map.specs.Objects.{KeepsRangeNew, births, next_birth, row_count};
ghost use Rattle.wl_object_map.specs.Objects.{ids_used, free_or_next, has_room, can_open, next_id};
ghost use Rattle.wl_object_map.specs.Objects.{opening, opened, opened_at, closed, zombied};

use super::table::{FIRST_SERVER_ID, MAX_SERVER_ID};
use super::{Entry, Maker, Object, Table, TableError};
use std::alloc::AllocError;
use std::marker::Model;
use wl_wire::Iface;

/// The interface of row 1 of the server's table, which has no meaning.
const NO_INTERFACE: Iface = Iface(0);

/// An id of the server's range minus its place in the server's table: the first id has place 2.
const ABOVE_PLACE: u32 = FIRST_SERVER_ID - 2;

/// The objects of one end, in both ranges of ids: the client makes ids from 1 on, the server from
/// 0xff000000 on.
///
/// Each range has a table with its own freed ids and its own count of births. Only id and birth
/// together identify an object. Calls take and return ids as they are on the wire. The last id of
/// the client's range is 1,048,576. The last of the server's is 0xff0ffffe, its 1,048,575th.
///
/// If no message in an end's signature tables lets the server make an object, the end has the table
/// of the client's range alone. Then no id of the server's range has an entry, and an opening there
/// is refused: at 0xff000000 with O4, at any other id with O2.
///
/// Id 1 is always wl_display. A call that is refused leaves the objects unchanged.
#[derive(Drop)]
pub struct Objects<T: Table> {
    client: T,
    // `None` if the server makes no objects.
    server: Option<T>,
}

impl<T: Table> Model for Objects<T> {
    ghost use Rattle.std.specs.Prelude.{is_some};
    ghost use Rattle.wl_object_map.specs.Objects.{Objects, ObjectsAreSound, objects_code};
    ghost use Rattle.wl_object_map.specs.Objects.{server_view};

    ghost Value = { Objects };

    ghost coded = { objects_code };

    ghost view = { λ o. record {
      client = T.view o.client;
      server = server_view T.view o.server;
      has_server_range = is_some o.server;
    } };

    ghost invariant = { λ o. ObjectsAreSound (record {
      client = T.view o.client;
      server = server_view T.view o.server;
      has_server_range = is_some o.server;
    }) };
}

/// The place in the server's table for an id of its range.
fn table_id(id: u32) -> u32
    requires { IsTrue (is_of_server id) }
    ensures { result ≡ table_id id }
{
    id - ABOVE_PLACE
}

/// An object of the server's table, with its id on the wire.
fn on_wire(object: Object) -> Object
    requires { object.id ≤ max_ids }
    ensures { result ≡ record { id = wire_id object.id; birth = object.birth } }
{
    Object {
        id: object.id + ABOVE_PLACE,
        birth: object.birth,
    }
}

impl<T: Table> Objects<T> {
    /// The objects of an end whose server makes none: wl_display alone, with id 1, birth 0 and
    /// version 1.
    pub fn new(alloc: T::Alloc, display: Iface) -> Result<Self, AllocError>
        ensures { IfOk result (λ objects. objects ≡ opening display false) }
    {
        Ok(Objects {
            client: T::new(alloc, display)?,
            server: None,
        })
    }

    /// The objects of an end whose server makes some too: wl_display alone, as with `new`, and an
    /// empty server range, for which memory is allocated at once.
    pub fn with_server_range(alloc: T::Alloc, display: Iface) -> Result<Self, AllocError>
        ensures { IfOk result (λ objects. objects ≡ opening display true) }
    {
        let client = T::new(alloc.clone()?, display)?;
        let server = Some(T::new(alloc, NO_INTERFACE)?);
        Ok(Objects { client, server })
    }

    /// The table of the client's range.
    pub fn client(&self) -> &T
        ensures { T.view result.now ≡ self.now.client }
    {
        &self.client
    }

    /// Whether there is a table for the server's range. Without one, no object was ever opened
    /// there.
    pub fn has_server_range(&self) -> bool
        ensures answer { result ≡ self.now.has_server_range }
        ensures new { KeepsRangeNew self.now }
    {
        self.server.is_some()
    }

    /// The entry of an id, live or zombie.
    pub fn look(&self, id: u32) -> Option<Entry>
        ensures entry { result ≡ look self.now id }
        ensures sound { ObjectsAreSound self.now }
    {
        // Most ids are the client's, and its table has no id of the other range.
        if let Some(entry) = self.client.look(id) {
            return Some(entry);
        }
        match Maker::of(id) {
            Maker::Client => None,
            Maker::Server => match &self.server {
                Some(table) => table.look(table_id(id)),
                None => None,
            },
        }
    }

    /// Whether an id is freed or the next new one of its range, so that `open_at` returns neither
    /// O2 nor O3.
    pub fn is_free(&self, id: u32) -> bool
        ensures { result ≡ free_or_next self.now id }
    {
        match Maker::of(id) {
            Maker::Client => self.client.is_free(id),
            Maker::Server => match &self.server {
                Some(table) => table.is_free(table_id(id)),
                None => id == FIRST_SERVER_ID,
            },
        }
    }

    /// Whether the limits of O1 leave room for an object at this id, in its range.
    pub fn has_room(&self, id: u32) -> bool
        ensures { result ≡ has_room self.now id }
    {
        match Maker::of(id) {
            Maker::Client => self.client.has_room(id),
            Maker::Server => match &self.server {
                Some(table) => table.has_room(table_id(id)),
                None => id <= MAX_SERVER_ID,
            },
        }
    }

    /// Whether the limits leave room for one more object of this maker, so that `open_next` does
    /// not return O1.
    pub fn can_open(&self, maker: Maker) -> bool
        ensures { result ≡ can_open maker self.now }
    {
        match maker {
            Maker::Client => self.client.can_open(),
            Maker::Server => match &self.server {
                Some(table) => table.can_open(),
                None => true,
            },
        }
    }

    /// How many ids of this maker's range were ever used.
    pub fn used(&self, maker: Maker) -> u32
        ensures { result ≡ ids_used maker self.now }
    {
        match maker {
            Maker::Client => self.client.used(),
            Maker::Server => match &self.server {
                Some(table) => table.used() - 1,
                None => 0,
            },
        }
    }

    /// How many entries this maker's range has, live and zombie.
    pub fn len(&self, maker: Maker) -> u32
        ensures { result ≡ row_count maker self.now }
    {
        match maker {
            Maker::Client => self.client.len(),
            Maker::Server => match &self.server {
                Some(table) => table.len() - 1,
                None => 0,
            },
        }
    }

    /// The birth that this maker's next object gets: the number of objects opened in its range
    /// (wl_display included), plus 1 in the server's range, whose births start at 1.
    pub fn births(&self, maker: Maker) -> u64
        ensures { result ≡ next_birth maker self.now }
    {
        match maker {
            Maker::Client => self.client.births(),
            Maker::Server => match &self.server {
                Some(table) => table.births(),
                None => 1,
            },
        }
    }

    /// Opens an object of this maker: at the id of its range that was freed last, or at the next
    /// new one if none is free. O1 is tested before O4.
    pub fn open_next(
        &mut self,
        maker: Maker,
        iface: Iface,
        version: u32,
    ) -> Result<Object, TableError>
        ensures ok { OnOk result (self.new ≡ opened maker self.old iface version) }
        ensures object { IfOk result
            (λ object. object ≡ record {
              id = next_id maker self.old;
              birth = births self.old (next_id maker self.old);
            }) }
        ensures err { OnErr result (self.new ≡ self.old) }

        ensures no_ids { (result ≡ Err TableError.NoIds) ↔ IsTrue (not (can_open maker self.old)) }
        ensures not_next { result ≢ Err TableError.NotNext }
        ensures in_use { result ≢ Err TableError.InUse }
    {
        match maker {
            Maker::Client => self.client.open_next(iface, version),
            Maker::Server => self.open_next_of_server(iface, version),
        }
    }

    /// Opens an object of the server, as `open_next` does.
    fn open_next_of_server(&mut self, iface: Iface, version: u32) -> Result<Object, TableError>
        ensures ok { OnOk result (self.new ≡ opened Maker.Server self.old iface version) }
        ensures object { IfOk result
            (λ object. object ≡ record {
              id = next_id Maker.Server self.old;
              birth = births self.old (next_id Maker.Server self.old);
            }) }
        ensures err { OnErr result (self.new ≡ self.old) }

        ensures no_ids { (result ≡ Err TableError.NoIds)
            ↔ IsTrue (not (can_open Maker.Server self.old)) }
        ensures not_next { result ≢ Err TableError.NotNext }
        ensures in_use { result ≢ Err TableError.InUse }
    {
        let Some(table) = &mut self.server else {
            return Err(TableError::Memory);
        };
        let object = table.open_next(iface, version)?;
        Ok(on_wire(object))
    }

    /// Opens an object at a given id: a freed one, wherever it is in the list of its range, or the
    /// next new one of the range. O3 is tested first, then O2, O1 and O4.
    pub fn open_at(&mut self, id: u32, iface: Iface, version: u32) -> Result<Object, TableError>
        ensures ok { OnOk result (self.new ≡ opened_at self.old id iface version) }
        ensures object { IfOk result
            (λ object. object ≡ record { id = id; birth = births self.old id }) }
        ensures err { OnErr result (self.new ≡ self.old) }

        ensures in_use { (result ≡ Err TableError.InUse) ↔ IsTrue (is_held self.old id) }
        ensures not_next { (result ≡ Err TableError.NotNext)
            ↔ IsTrue (not (is_held self.old id) && not (free_or_next self.old id)) }
        ensures no_ids { (result ≡ Err TableError.NoIds)
            ↔ IsTrue (free_or_next self.old id && not (has_room self.old id)) }
        // Hence a free id has no entry.
        ensures sound { ObjectsAreSound self.old }
    {
        match Maker::of(id) {
            Maker::Client => self.client.open_at(id, iface, version),
            Maker::Server => match &mut self.server {
                Some(table) => {
                    let object = table.open_at(table_id(id), iface, version)?;
                    Ok(Object {
                        id,
                        birth: object.birth,
                    })
                }
                None if id == FIRST_SERVER_ID => Err(TableError::Memory),
                None => Err(TableError::NotNext),
            },
        }
    }

    /// Opens an object at an id that has an entry, live or zombie, and replaces that entry: the id
    /// stays in use, and the object gets the next birth of the id's range. It allocates nothing and
    /// is never refused.
    pub fn reopen(&mut self, id: u32, iface: Iface, version: u32) -> Object
        requires held { IsTrue (is_held self.old id) }
        requires not_display { id ≢ 1 }
        requires room { IsTrue (has_room self.old id) }
        ensures objects { self.new ≡ opened_at self.old id iface version }
        ensures object { result ≡ record { id = id; birth = births self.old id } }
    {
        match Maker::of(id) {
            Maker::Client => self.client.reopen(id, iface, version),
            Maker::Server => match &mut self.server {
                Some(table) => {
                    let object = table.reopen(table_id(id), iface, version);
                    Object {
                        id,
                        birth: object.birth,
                    }
                }
                None => Object { id, birth: 0 },
            },
        }
    }

    /// Makes a live object a zombie: its id stays in use. It allocates nothing.
    pub fn make_zombie(&mut self, id: u32)
        requires live { IsTrue (is_live self.old id) }
        requires not_display { id ≢ 1 }
        ensures { self.new ≡ zombied self.old id }
    {
        match Maker::of(id) {
            Maker::Client => self.client.make_zombie(id),
            Maker::Server => {
                if let Some(table) = &mut self.server {
                    table.make_zombie(table_id(id));
                }
            }
        }
    }

    /// Removes an object's entry and frees its id, which is then the first of its range to be
    /// reused. It allocates nothing.
    pub fn close(&mut self, id: u32)
        requires held { IsTrue (is_held self.old id) }
        requires not_display { id ≢ 1 }
        ensures { self.new ≡ closed self.old id }
    {
        match Maker::of(id) {
            Maker::Client => self.client.close(id),
            Maker::Server => {
                if let Some(table) = &mut self.server {
                    table.close(table_id(id));
                }
            }
        }
    }
}
