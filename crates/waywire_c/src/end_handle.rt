//! The handle of an end.
ghost use Rattle.std.specs.Prelude.{◌≡◌};
ghost use Rattle.waywire_c.specs.Owned.{held_end_coded};
ghost use Rattle.waywire_c.specs.declared.held.HeldEnd.{HeldEnd};

use crate::held::HeldEnd;
use crate::parts::Parts;
use std::alloc::Global;
use std::marker::Model;

/// C's pointer to an end.
#[repr(C)]
pub struct EndHandle {
    ptr: *mut u8,
    alloc: Global,
    pub ghost held: { HeldEnd } by { held_end_coded },
}

impl Model for EndHandle {
    ghost use Rattle.waywire_c.specs.Owned.{owns_end};

    ghost also_owns = { λ h. owns_end h.alloc h.ptr h.held };
}

impl EndHandle {
    ghost use Rattle.std.specs.Borrow.{sem};
    ghost use Rattle.waywire_c.specs.Lending.{LendsEnd};

    /// The handle's target, borrowed.
    pub fn get_mut(&mut self) -> &mut HeldEnd
        ensures* writes_back { sem 𝓛 (LendsEnd self.entry result) }
        ensures value { result.now ≡ self.old.held }
    {
        unsafe { &mut *(self.ptr as *mut HeldEnd) }
    }

    fn into_parts(self) -> Parts<HeldEnd, Global>
        ensures { result.value ≡ self.held }
    {
        let EndHandle { ptr, alloc } = self;
        Parts {
            ptr: ptr as *mut HeldEnd,
            alloc,
        }
    }

    /// The handle's target.
    pub fn opened(self) -> Box<HeldEnd>
        ensures { result.value ≡ self.held }
    {
        self.into_parts().into_box()
    }
}
