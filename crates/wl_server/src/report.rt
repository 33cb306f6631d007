//! What a server reports.

use std::alloc::{Allocator, Global};
use wl_objects::{Args, Entry, Object, OwnedArgs};

/// A request that the server read. Strings, arrays and tokens are borrowed from the server, until
/// its next call.
#[derive(Clone, Copy)]
pub struct Request<'a> {
    pub target: Object,
    pub opcode: u16,
    pub args: Args<'a>,
}

/// A request that the server read, owned.
#[derive(Debug, Drop)]
pub struct OwnedRequest<A: Allocator = Global> {
    pub target: Object,
    pub opcode: u16,
    pub args: OwnedArgs<A>,
}

/// A request that the server read, and the entry of its target from before the request.
#[derive(Clone, Copy)]
pub struct RequestWithEntry<'a> {
    pub request: Request<'a>,
    /// The target's interface, version and state, even if the request destroyed it.
    pub entry: Entry,
}

/// The same, owned.
#[derive(Debug, Drop)]
pub struct OwnedRequestWithEntry<A: Allocator = Global> {
    pub request: OwnedRequest<A>,
    pub entry: Entry,
}
