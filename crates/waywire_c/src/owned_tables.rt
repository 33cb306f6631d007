//! The handle of tables that nothing borrows any more.
ghost use Rattle.std.specs.Prelude.{◌≡◌};
ghost use Rattle.waywire_c.specs.Owned.{held_tables_coded};
ghost use Rattle.waywire_c.specs.declared.held.HeldTables.{HeldTables};

use crate::held::HeldTables;
use crate::parts::Parts;
use std::alloc::Global;
use std::marker::Model;

/// C's pointer to tables that it gives up: no other handle of them is used any more, and no end or
/// inspector was made with them that is not freed.
#[repr(C)]
pub struct OwnedTables {
    ptr: *mut u8,
    alloc: Global,
    pub ghost held: { HeldTables } by { held_tables_coded },
}

impl Model for OwnedTables {
    ghost use Rattle.waywire_c.specs.Owned.{owns_tables};

    ghost also_owns = { λ h. owns_tables h.alloc h.ptr h.held };
}

impl OwnedTables {
    fn into_parts(self) -> Parts<HeldTables, Global>
        ensures { result.value ≡ self.held }
    {
        let OwnedTables { ptr, alloc } = self;
        Parts {
            ptr: ptr as *mut HeldTables,
            alloc,
        }
    }

    /// The handle's target.
    pub fn opened(self) -> Box<HeldTables>
        ensures { result.value ≡ self.held }
    {
        self.into_parts().into_box()
    }
}
