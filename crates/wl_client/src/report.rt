//! What a client reports.
use crate::tokens::Tokens;
use std::alloc::{Allocator, Global};
use wl_objects::{Args, Entry, Named, Object, OwnedArgs};
use wl_wire::Bytes;

/// A message that the client read. What it borrows belongs to the client, until the client's next
/// call of any kind.
#[derive(Clone, Copy)]
pub enum Incoming<'a> {
    /// An event for a live object.
    Event {
        target: Object,
        opcode: u16,
        args: Args<'a>,
    },
    /// An event for an object that the client has destroyed. The tokens that came with it are
    /// returned, so that the caller can close their descriptors. The client's `made` returns what
    /// the event made, and `replaced` what that replaced.
    Discarded {
        target: Object,
        opcode: u16,
        tokens: &'a [u32],
    },
    /// wl_display.delete_id of an object: its id is free again.
    Deleted {
        object: Object,
    },
    /// wl_display.delete_id of an id that has no object, of wl_display's own, or of an id of the
    /// server's range. Nothing changed.
    Stray {
        id: u32,
    },
    /// wl_display.error, which is fatal: the client has failed. `named` is the object that the
    /// client has with this id; null if the id is 0 or unknown.
    Error {
        id: u32,
        named: Named,
        code: u32,
        text: &'a [u8],
    },
}

/// A message that the client read, owned. The cases are those of `Incoming`.
#[derive(Debug, Drop)]
pub enum OwnedIncoming<A: Allocator = Global> {
    Event {
        target: Object,
        opcode: u16,
        args: OwnedArgs<A>,
    },
    Discarded {
        target: Object,
        opcode: u16,
        tokens: Tokens,
    },
    Deleted {
        object: Object,
    },
    Stray {
        id: u32,
    },
    Error {
        id: u32,
        named: Named,
        code: u32,
        text: Bytes<A>,
    },
}

/// A message that the client read, and the entry, from before the message, of the object that it is
/// about.
#[derive(Clone, Copy)]
pub struct IncomingWithEntry<'a> {
    pub incoming: Incoming<'a>,
    /// The entry (interface, version and state) of the target of an event, of the object that
    /// delete_id ended, or of the one that wl_display.error names. `None` for `Stray`, and if an
    /// error names no object that the client has.
    pub entry: Option<Entry>,
}

/// The same, owned.
#[derive(Debug, Drop)]
pub struct OwnedIncomingWithEntry<A: Allocator = Global> {
    pub incoming: OwnedIncoming<A>,
    pub entry: Option<Entry>,
}
