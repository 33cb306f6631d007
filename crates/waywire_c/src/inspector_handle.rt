//! The handle of an inspector.
ghost use Rattle.std.specs.Prelude.{◌≡◌};
ghost use Rattle.waywire_c.specs.Owned.{held_inspector_coded};
ghost use Rattle.waywire_c.specs.declared.held.HeldInspector.{HeldInspector};

use crate::held::HeldInspector;
use crate::parts::Parts;
use std::alloc::Global;
use std::marker::Model;

/// C's pointer to an inspector.
#[repr(C)]
pub struct InspectorHandle {
    ptr: *mut u8,
    alloc: Global,
    pub ghost held: { HeldInspector } by { held_inspector_coded },
}

impl Model for InspectorHandle {
    ghost use Rattle.waywire_c.specs.Owned.{owns_inspector};

    ghost also_owns = { λ h. owns_inspector h.alloc h.ptr h.held };
}

impl InspectorHandle {
    ghost use Rattle.std.specs.Borrow.{sem};
    ghost use Rattle.waywire_c.specs.Lending.{LendsInspector};

    /// The handle's target, borrowed.
    pub fn get_mut(&mut self) -> &mut HeldInspector
        ensures* writes_back { sem 𝓛 (LendsInspector self.entry result) }
        ensures value { result.now ≡ self.old.held }
    {
        unsafe { &mut *(self.ptr as *mut HeldInspector) }
    }

    fn into_parts(self) -> Parts<HeldInspector, Global>
        ensures { result.value ≡ self.held }
    {
        let InspectorHandle { ptr, alloc } = self;
        Parts {
            ptr: ptr as *mut HeldInspector,
            alloc,
        }
    }

    /// The handle's target.
    pub fn opened(self) -> Box<HeldInspector>
        ensures { result.value ≡ self.held }
    {
        self.into_parts().into_box()
    }
}
