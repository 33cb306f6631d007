//! The value of one argument, owned or borrowed.
ghost use Rattle.std.specs.Prelude.{◌≡◌, ◌↔◌, IsTrue};
ghost use Rattle.wl_wire.specs.Argument.{lent, plain};
ghost use Rattle.wl_wire.specs.Spelling.{Fits, IsText, spelled_len};

use crate::bytes::Bytes;
use crate::fixed::Fixed;
use crate::text::has_nul;
use crate::word::padded_len;
use std::alloc::{Allocator, Global};

/// The value of one argument, with its bytes in memory of its own.
#[derive(Debug, PartialEq, Eq, Drop)]
pub enum Value<A: Allocator = Global> {
    Int(i32),
    Uint(u32),
    Fixed(Fixed),
    /// The string without its ending NUL; `None` for the null string.
    Str(Option<Bytes<A>>),
    /// An object's id; 0 is the null object.
    Obj(u32),
    /// A new object's id.
    New(u32),
    /// The interface, version and id of a new object whose signature gives no interface.
    NewNamed {
        iface: Bytes<A>,
        version: u32,
        id: u32,
    },
    Array(Bytes<A>),
    Fd,
}

impl<A: Allocator> Value<A> {
    /// The same value, borrowed.
    pub fn lend(&self) -> ValueRef<'_>
        ensures { lent result ≡ plain self.now }
    {
        match self {
            Value::Int(z) => ValueRef::Int(*z),
            Value::Uint(n) => ValueRef::Uint(*n),
            Value::Fixed(z) => ValueRef::Fixed(*z),
            Value::Str(Some(text)) => ValueRef::Str(Some(text.as_slice())),
            Value::Str(None) => ValueRef::Str(None),
            Value::Obj(id) => ValueRef::Obj(*id),
            Value::New(id) => ValueRef::New(*id),
            Value::NewNamed { iface, version, id } => ValueRef::NewNamed {
                iface: iface.as_slice(),
                version: *version,
                id: *id,
            },
            Value::Array(bytes) => ValueRef::Array(bytes.as_slice()),
            Value::Fd => ValueRef::Fd,
        }
    }
}

/// The value of one argument, with its bytes borrowed.
#[derive(Clone, Copy, Debug, PartialEq, Eq)]
pub enum ValueRef<'a> {
    Int(i32),
    Uint(u32),
    Fixed(Fixed),
    Str(Option<&'a [u8]>),
    Obj(u32),
    New(u32),
    NewNamed {
        iface: &'a [u8],
        version: u32,
        id: u32,
    },
    Array(&'a [u8]),
    Fd,
}

impl<'a> ValueRef<'a> {
    /// Whether the wire can carry the value: no byte of a string is 0, and each length (of a
    /// string, with its ending NUL) fits in 32 bits.
    pub fn fits(self) -> bool
        ensures { IsTrue result ↔ Fits (lent self.entry) }
    {
        match self {
            ValueRef::Str(Some(text)) => is_text(text),
            ValueRef::NewNamed { iface, .. } => is_text(iface),
            ValueRef::Array(bytes) => bytes.len() <= u32::MAX as usize,
            _ => true,
        }
    }

    /// The length of the value's spelling in bytes. The value must pass `fits`.
    pub fn spelled_len(self) -> usize
        requires { Fits (lent self) }
        ensures { result ≡ spelled_len (lent self.entry) }
    {
        match self {
            ValueRef::Str(Some(text)) => 4 + padded_len(text.len() + 1),
            ValueRef::NewNamed { iface, .. } => 12 + padded_len(iface.len() + 1),
            ValueRef::Array(bytes) => 4 + padded_len(bytes.len()),
            ValueRef::Fd => 0,
            _ => 4,
        }
    }
}

/// Whether the wire can carry these bytes as a string.
fn is_text(text: &[u8]) -> bool
    ensures { IsTrue result ↔ IsText text.now }
{
    text.len() < u32::MAX as usize && !has_nul(text)
}
