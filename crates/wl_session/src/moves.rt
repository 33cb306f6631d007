//! What can be done with a pair, and the replies.

use std::alloc::{Allocator, Global};
use wl_client::OwnedIncoming;
use wl_message::Fed;
use wl_objects::{NextError, Object, SendError};
use wl_server::{GlobalError, OwnedRequest};
use wl_wire::{Fixed, Iface};

/// One argument of a message to be written, owned.
#[derive(Debug, Drop)]
pub enum SendArg<A: Allocator = Global> {
    Int(i32),
    Uint(u32),
    Fixed(Fixed),
    /// A string without a NUL, or `None` for the null string.
    Str(Option<Vec<u8, A>>),
    /// A live object, or `None` for the null object.
    Obj(Option<Object>),
    /// The position of the new object, which the call makes.
    New,
    Array(Vec<u8, A>),
    /// The token that represents a descriptor.
    Fd(u32),
}

/// One action on a pair: a call of one of its ends, or a carry between them.
#[derive(Debug, Drop)]
pub enum Move<A: Allocator = Global> {
    /// The client sends a request.
    ClientSend {
        target: Object,
        opcode: u16,
        args: Vec<SendArg<A>, A>,
    },
    /// The client binds a global.
    ClientBind {
        registry: Object,
        name: u32,
        iface: Vec<u8, A>,
        version: u32,
    },
    /// The server sends an event.
    ServerSend {
        target: Object,
        opcode: u16,
        args: Vec<SendArg<A>, A>,
    },
    /// The server ends an object without an event.
    ServerDrop {
        object: Object,
    },
    /// The server posts an error, which ends the session.
    PostError {
        object: Object,
        code: u32,
        text: Vec<u8, A>,
    },
    /// The server adds a global.
    AddGlobal {
        iface: Iface,
        version: u32,
    },
    /// The server withdraws a global.
    Withdraw {
        name: u32,
    },
    /// The server announces its globals to the open registries.
    Announce,
    /// The client's bytes go to the server, at most this many, and at most as many as the server's
    /// inbox has room for.
    CarryToServer(usize),
    /// The server's bytes go to the client, at most this many, and at most as many as the client's
    /// inbox has room for.
    CarryToClient(usize),
    /// The client reads a message.
    ClientNext,
    /// The server reads a message.
    ServerNext,
}

/// What a carry did.
#[derive(Clone, Copy, Debug, PartialEq, Eq)]
pub enum Carried {
    /// What went.
    Moved(Fed),
    /// There was no memory to record what would go, and nothing went.
    Memory,
}

/// The reply to a move, in the variant of the same name: what its call returned.
#[derive(Debug, Drop)]
pub enum Reply<A: Allocator = Global> {
    ClientSend(Result<Option<Object>, SendError>),
    ClientBind(Result<Object, SendError>),
    ServerSend(Result<Option<Object>, SendError>),
    ServerDrop(Result<(), SendError>),
    PostError(Result<(), SendError>),
    AddGlobal(Result<u32, GlobalError>),
    Withdraw(Result<(), GlobalError>),
    /// The number of events that were written.
    Announce(Result<usize, SendError>),
    CarryToServer(Carried),
    CarryToClient(Carried),
    ClientNext(Result<Option<OwnedIncoming<A>>, NextError>),
    ServerNext(Result<Option<OwnedRequest<A>>, NextError>),
}
