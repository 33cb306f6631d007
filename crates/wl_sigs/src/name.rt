//! The name of an interface or of a message.
ghost use Rattle.std.specs.Prelude.{◌≡◌, IfOk};
ghost use Rattle.wl_sigs.specs.Stored.{name_bytes};

use crate::front::Front;
use std::alloc::{AllocError, Allocator, Global};
use std::fmt::{self, Debug, Formatter};
use std::mem::size_of;

/// How many bytes of a name are stored in the value itself: together with their count and a tag
/// they fit in the 32 bytes that a vector with a tag takes. Few names in protocols are longer.
const SHORT_NAME: usize = 30;

const _: () = prove!(size_of::<Name>() == 32);

/// The bytes of a name.
#[derive(Drop)]
pub(crate) enum Name<A: Allocator = Global> {
    /// Stored in the value itself.
    Short(Front<u8, SHORT_NAME>),
    /// Stored in memory of its own.
    Long(Vec<u8, A>),
}

impl<A: Allocator> Name<A> {
    #[inline]
    pub(crate) fn as_slice(&self) -> &[u8]
        ensures { result.now ≡ name_bytes self.now }
    {
        match self {
            Name::Short(bytes) => bytes.as_slice(),
            Name::Long(bytes) => bytes.as_slice(),
        }
    }
}

impl<A: Allocator + Clone + Drop> Name<A> {
    /// A copy of a name. It allocates only if the name is long.
    pub(crate) fn from_slice(alloc: &A, name: &[u8]) -> Result<Self, AllocError>
        ensures { IfOk result (λ kept. name_bytes kept ≡ name.now) }
    {
        if name.len() > SHORT_NAME {
            return Ok(Name::Long(Vec::from_slice(alloc.clone()?, name)?));
        }
        Ok(Name::Short(Front::from_slice(0, name)))
    }

    /// A copy, which allocates only if the name is long.
    pub(crate) fn copy(&self, alloc: &A) -> Result<Self, AllocError>
        ensures { IfOk result (λ kept. name_bytes kept ≡ name_bytes self.now) }
    {
        match self {
            Name::Short(bytes) => Ok(Name::Short(bytes.copy())),
            Name::Long(bytes) => Name::from_slice(alloc, bytes.as_slice()),
        }
    }
}

impl<A: Allocator> Debug for Name<A> {
    fn fmt<W: fmt::Write>(&self, f: &mut Formatter<W>) -> fmt::Result {
        self.as_slice().fmt(f)
    }
}
