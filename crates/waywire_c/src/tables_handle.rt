//! The handle of the tables.
ghost use Rattle.std.specs.Prelude.{◌≡◌};
ghost use Rattle.waywire_c.specs.Owned.{held_tables_coded};
ghost use Rattle.waywire_c.specs.declared.held.HeldTables.{HeldTables};

use crate::held::HeldTables;
use std::marker::Model;
use wl_sigs::Tables;

/// C's pointer to the tables. It holds what a `&'static` to them holds: any number of calls can
/// have it at one time, and each takes a copy.
#[repr(C)]
pub struct TablesHandle {
    ptr: *const u8,
    pub ghost held: { HeldTables } by { held_tables_coded },
}

impl Model for TablesHandle {
    ghost use Rattle.waywire_c.specs.Owned.{lends_tables};

    ghost also_owns = { λ h. lends_tables h.ptr h.held };
}

impl TablesHandle {
    /// The handle's target, borrowed.
    fn get<'a>(self) -> &'a HeldTables
        ensures { result.now ≡ self.held }
    {
        let TablesHandle { ptr } = self;
        unsafe { &*(ptr as *const HeldTables) }
    }

    /// The tables.
    pub fn lent<'a>(self) -> &'a Tables
        ensures { result.now ≡ self.held.tables }
    {
        &self.get().tables
    }
}
