//! The arguments of a message, as a caller gives them and as a reader reports them.

use std::alloc::{Allocator, Global};
use wl_object_map::Object;
use wl_wire::{Bytes, Fixed};

/// One argument of a message to be written, in the order of the message's signature.
#[derive(Clone, Copy, Debug)]
pub enum Arg<'a> {
    Int(i32),
    Uint(u32),
    Fixed(Fixed),
    /// A string without a NUL, or `None` for the null string.
    Str(Option<&'a [u8]>),
    /// A live object, or `None` for the null object.
    Obj(Option<Object>),
    /// The position of the new object, which the call makes.
    New,
    Array(&'a [u8]),
    /// The token that represents a descriptor.
    Fd(u32),
}

/// An object argument as its reader has it.
#[derive(Clone, Copy, Debug, PartialEq, Eq)]
pub enum Named {
    Null,
    Live(Object),
    /// A zombie: the reader has destroyed it, and the writer did not know that yet.
    Dead(Object),
}

/// One argument of a message that was read, with its strings and arrays owned.
#[derive(Debug, Drop)]
pub enum Got<A: Allocator = Global> {
    Int(i32),
    Uint(u32),
    Fixed(Fixed),
    Str(Option<Bytes<A>>),
    Obj(Named),
    /// The object that the message made.
    New(Object),
    /// The object that a bind made, with the interface and version that the bind names.
    Bound {
        iface: Bytes<A>,
        version: u32,
        object: Object,
    },
    Array(Bytes<A>),
    /// The token that represents a descriptor.
    Fd(u32),
}

/// One argument of a message that was read, with its strings and arrays borrowed.
#[derive(Clone, Copy, Debug)]
pub enum GotRef<'a> {
    Int(i32),
    Uint(u32),
    Fixed(Fixed),
    Str(Option<&'a [u8]>),
    Obj(Named),
    New(Object),
    Bound {
        iface: &'a [u8],
        version: u32,
        object: Object,
    },
    Array(&'a [u8]),
    Fd(u32),
}
