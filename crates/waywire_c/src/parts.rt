//! A box as a pointer and an allocator.
ghost use Rattle.std.specs.Prelude.{◌≡◌};
ghost use Rattle.std.specs.Box.Ownership.{box_owns};

use std::alloc::Allocator;
use std::marker::Model;
use std::ptr;

/// The parts of a box.
pub struct Parts<T, A: Allocator> {
    pub ptr: *mut T,
    pub alloc: A,
    pub ghost value: { T },
}

impl<T, A: Allocator> Model for Parts<T, A> {
    ghost also_owns = { λ p. box_owns (A.dealloc_token p.alloc) T.row p.ptr p.value };
}

impl<T, A: Allocator> Parts<T, A> {
    /// The box again.
    pub fn into_box(self) -> Box<T, A>
        ensures { result.value ≡ self.value }
    {
        let Parts { ptr, alloc } = self;
        unsafe { Box::from_raw(alloc, ptr) }
    }
}

/// The address of a box, which stays allocated.
pub fn address<T: Drop>(boxed: Box<T>) -> *mut u8 {
    Box::into_raw(boxed).cast::<u8>()
}

/// The address of a box's contents, which are lent forever.
pub fn lent_address<T: Drop>(boxed: Box<T>) -> *const u8 {
    let lent: &T = Box::leak(boxed);
    ptr::from_ref(lent).cast::<u8>()
}
