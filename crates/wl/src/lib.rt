//! Both ends of a Wayland connection, without the socket.
//!
//! A [`Client`] and a [`Server`] write and read the messages of the Wayland protocol. They know
//! which objects each end has, and an object that arrives is the one that its writer meant. Nothing
//! here does I/O: an end takes and returns bytes and tokens. The caller chooses which socket
//! carries these, when it is read, and on which thread. So a toolkit, a compositor, a proxy and a
//! test use the same two types.
//!
//! The contract of each call says what it returns and what it leaves, and is proved.
//!
//! # What is proved of two ends
//!
//! Each end reads exactly the messages that the other wrote, however the bytes are split. A server
//! that has posted an error reads nothing more, and the client reads that error last. Once both
//! streams are drained, both ends have the same objects, including the server's. At an id that the
//! server has freed in its own range, the client has a zombie. The recording of a pair is lawful.
//!
//! These are the premises:
//!
//! - Both ends are this library's. They start together, with the same tables and the same [`Limit`].
//! - The transport delivers all bytes unchanged and in order, and each token no later than the first
//!   byte of its message. In a [`Pair`] this is proved; between processes the caller sees to it.
//! - The client never calls `bind_unannounced`. The server never calls `end_object`,
//!   `next_unanswered`, or `next_answering` with `false`. Neither end calls `more_tables` or
//!   `take_waiting_tokens`.
//!
//! # The loop
//!
//! 1. **Send.** [`Client::send`] and [`Client::bind`] write requests; [`Server::send`],
//!    [`Server::announce`], [`Server::drop_object`] and [`Server::post_error`] write events. What
//!    is written waits in the end's outbox.
//! 2. **Take.** `take` moves what waits into two slices of the caller's, as much as they hold, and
//!    returns how much that was.
//! 3. **The socket.** The caller writes these bytes and descriptors to its socket, and reads what
//!    the other end wrote.
//! 4. **Feed.** `feed` moves what was read into the end's inbox, as much as it has room for, and
//!    returns how much that was. The bytes may be split anywhere.
//! 5. **Next.** `next` reads one message and returns a report that borrows from the end, or `None`
//!    if no whole message waits. Call it until it returns `None`, and send replies in between.
//!    `next_owned` returns an owned report, for a caller that keeps it.
//!
//! [`Client::read_all`] and [`Server::read_all`] are steps 4 and 5 for a list of pieces. If no
//! descriptors are sent, `flush` writes what waits to a stream (steps 2 and 3), and `fill` reads
//! from one (steps 3 and 4). No call blocks unless the stream does, and there are no callbacks.
//!
//! The calls that both ends have, such as `take` and `feed`, are those of the trait [`End`]: import
//! it to call them, and write code for either end over it.
//!
//! Messages have names: [`request::wl_surface::COMMIT`](request) is the opcode of
//! wl_surface.commit, and [`event::wl_callback::DONE`](event) that of wl_callback.done.
//!
//! # Tokens
//!
//! File descriptors are not among the bytes. A token is a `u32` chosen by the caller to represent
//! one, for example its number. [`Arg::Fd`] sends a token, `take` returns it together with the
//! first byte of its message, and the caller passes the descriptor along with these bytes. On the
//! other side the caller feeds a token for each descriptor that came, together with its bytes, and
//! the report has it as [`GotRef::Fd`]. No token is given to another message, and none is lost
//! while the end has not failed. No descriptor is ever closed here.
//!
//! When a connection ends, take what is still to be sent, and then call `take_waiting_tokens`. It
//! gives the end up: it moves the tokens that wait into the caller's slice, first those not read,
//! then those not sent, and returns how many it moved. Repeat the call until it returns 0, with a
//! slice for 20 tokens or more, and close the descriptors that they represent.
//!
//! # Who owns what
//!
//! - [`Tables`] say which messages there are: those of the core interfaces ([`Tables::core`]), and
//!   those that a text declares ([`Tables::read_more`]). Make them once; any number of ends borrows
//!   them.
//! - An end owns its objects, its inbox and its outbox. [`Sizes`] says how large these two queues
//!   are (they never grow) and how long a message may be ([`Limit`]). The objects are kept in a
//!   [`Table`]: a [`SlotTable`], whose calls take constant time, except an opening that doubles its
//!   vector, or the simpler [`MapTable`].
//! - An [`Object`] is a plain value: an id and a birth, which distinguishes it from every other
//!   object that ever had that id. A call with an object that is gone is refused; it never reaches
//!   a later object with the same id. The client makes objects with ids below [`FIRST_SERVER_ID`].
//!   If the tables have events by which the server makes objects, these have ids from
//!   [`FIRST_SERVER_ID`] on. A request destroys an object of the server like any other, but no
//!   delete_id follows: the object stays a zombie at the client until an event makes a new one with
//!   its id.
//! - A report of `next` ([`Incoming`], [`Request`]) borrows its strings, arrays and tokens from the
//!   end, until the end's next call of any kind: code that keeps it longer does not compile.
//!   [`Args`] goes through the arguments. A report of `next_owned` ([`OwnedIncoming`],
//!   [`OwnedRequest`]) owns them. `next_with_entry` and `next_owned_with_entry` also say what the
//!   object was before the message ([`Entry`]), and `shown` of the first prints it. After an event
//!   for an object that the client has destroyed ([`Incoming::Discarded`]), the caller closes the
//!   descriptors that its tokens represent.
//! - Whatever allocates takes an allocator first, and returns an error if memory runs out. After an
//!   end's `new` only these allocate: the opening of an object, [`Server::add_global`], and the
//!   reports of `next_owned` and `read_all`.
//!
//! # What a report holds
//!
//! A client's [`Incoming`] and its owned variant have these cases:
//!
//! - `Event { target, opcode, args }`: an event for a live object.
//! - `Discarded { target, opcode, tokens }`: an event for an object that the client has destroyed.
//!   If the event made an object, that object is open, and [`Client::made`] returns it. If it
//!   replaced a live object, [`Client::replaced`] returns that one.
//! - `Deleted { object }`: wl_display.delete_id; the object is gone, and its id is free again.
//! - `Stray { id }`: a delete_id for no object, for wl_display, or for an object that the server
//!   made; nothing changed.
//! - `Error { id, named, code, text }`: wl_display.error; `named` is the client's object of that
//!   id.
//!
//! A server's [`Request`] has `target`, `opcode` and `args`.
//!
//! An argument is a [`GotRef`] of [`Args::next`], or a [`Got`] of [`OwnedArgs::as_slice`]. The
//! cases are the same:
//!
//! - `Int(i32)`, `Uint(u32)`, `Fixed(Fixed)`: the number. A [`Fixed`] counts 256ths (`raw`).
//! - `Str(Option<..>)`: the bytes without the ending NUL, or `None` for the null string.
//! - `Obj(Named)`: an object by [`Named`], as its reader has it. It is `Null`, `Live(object)`, or
//!   `Dead(object)`, which the reader has destroyed.
//! - `New(object)`: the object that the message made.
//! - `Bound { iface, version, object }`: the object that a bind made, and the name and version of
//!   its interface. Only wl_registry.bind has one.
//! - `Array(..)`: the bytes.
//! - `Fd(u32)`: the token of a descriptor.
//!
//! So a server reads two arguments of a bind: `Uint(name)`, the global's name, and
//! `Bound { iface, version, object }`. A pattern with `New` or `Str` in place of `Bound` compiles,
//! but never matches a bind.
//!
//! `next_with_entry` returns an [`IncomingWithEntry`] (`incoming`, `entry`) or a
//! [`RequestWithEntry`] (`request`, `entry`): the report, and the [`Entry`] that its object had before
//! the message. A client's is `None` for `Stray`, and if an error names no object that the client has.
//! `shown` of both takes the tables, and `{}` prints its result as the line of the message in a trace,
//! with three differences: an object whose interface the signature leaves open is `unknown@7`, a
//! descriptor is its token, and the arguments of a `Discarded` are `..`. The owned variants have no
//! `shown`.
//!
//! # What an error leaves
//!
//! - [`SendError`] and [`GlobalError`]: nothing was written and nothing has changed. After `Full`,
//!   take and send again.
//! - [`NextError::Memory`] and [`NextError::OutFull`]: nothing has changed. The message stays, and
//!   can be read again. A client's `next` never returns the second. It returns the first only for
//!   an event that makes an object whose id the server has never used before.
//! - [`NextError::Fault`]: the other end broke a rule, and this end has failed for good. It reads
//!   and writes nothing more, but `take` still returns what waits, which at a server ends with the
//!   wl_display.error that gives the reason. Take it, write it, and close the socket.
//! - [`Incoming::Error`]: the server has ended the connection, and the client has failed for good.
//!
//! All errors print in plain words, and convert to any type that takes a [`std::error::Error`].
//!
//! # Beyond one end
//!
//! A [`Pair`] is a client and a server joined directly, for tests; it plays a list of [`Move`]s. A
//! [`Recording`] is what passed at one point of a connection; a [`Tee`] records what is read from a
//! stream. [`trace`] prints a recording message by message, and [`check`] says whether it is lawful
//! and, if not, where. An [`Inspector`] does both while a session goes on, for each piece as it
//! passes. [`Twins`] keeps, for a proxy, which objects of its two ends correspond to each other;
//! `examples/proxy` is one. [`same_rows`] says whether a client and a server have the same
//! objects, and [`object_count`] how many.
//!
//! # A client and a server
//!
//! The crate `hello` (`crates/hello/src/main.rt`) is a client and a server in one process, with a
//! buffer in place of a socket. Its import is a good start:
//!
//! ```
//! use wl::{
//!     Arg, Direction, End, Got, GotRef, Incoming, Limit, Object, OwnedArgs, OwnedIncoming, Recording,
//!     Sizes, SlotTable, Tables, event, request, trace,
//! };
//! ```
//!
//! The lines with `ghost` and `requires` are for the proof, and the `for` loops have an upper bound
//! because every loop here is proved to end. `session` owns the two ends and does little else: each
//! exit of a function drops what the function owns, and the drop of an end is a long proof. Its
//! line in `crates.txt` names `wl_message` besides `wl`, for a lemma: what `take` returns is within
//! the slice. A program that slices by `taken.bytes.min(4096)`, as `examples/proxy` does, needs
//! none. `rt try` runs a program without a proof; if its interpreter gives no answer within its
//! steps, the line `checked:` still says how the compiled run ended.
//!
//! # The calls
//!
//! The signature, the comment and the contract of a call are in the source of its type. The last
//! lines of this file name the crate of each type. Calls that only the library's own crates make
//! are left out.
//!
//! - [`End`], the trait of both ends: `feed` and `take` move bytes and tokens; `space` and
//!   `received`, `peek` and `sent` do the same without a buffer of the caller's, and `fill` and
//!   `flush` with a stream. `in_room` and `goes` say how much would be moved. `token_to_go`,
//!   `is_drained`, `has_failed`, `take_waiting_tokens`, `display`, `live` (interface and version of
//!   a live object), `objects`, `table` (the objects of the client's range).
//! - [`Client`]: `new`, `send`, `send_words` (a message of numbers alone), `bind` (an announced
//!   global), `bind_unannounced` (any global), `remembers` (whether `bind` can bind a global),
//!   `more_tables`, `next`, `next_with_entry`, `next_owned`, `next_owned_with_entry`, `read_all`,
//!   `made` and `replaced` (by the last message).
//! - [`Server`]: `new`, `send`, `send_words`, `add_global`, `withdraw`, `allow_globals` (how many it
//!   may add, up to [`MOST_GLOBALS`]), `announce` (to each registry what it lacks), `more_tables`,
//!   `drop_object` (without an event), `end_object` (of any
//!   interface), `post_error`, `next`, `next_with_entry`, `next_unanswered` (leaves a fault to the
//!   caller), `next_answering` (does as the caller says), `front` (the bytes of the first message),
//!   `next_owned`, `next_owned_with_entry`, `read_all`.
//! - [`IncomingWithEntry`]: `shown`. [`RequestWithEntry`]: `shown`.
//! - [`Args`]: `next`, `len`, `is_empty`, `to_owned`. [`OwnedArgs`]: `as_slice`, `into_vec`,
//!   `none`, `from_vec`. [`Tokens`]: `as_slice`. [`Bytes`]: `as_slice`, `len`, `is_empty`,
//!   `copy_of`, `from_vec`, `into_vec`.
//! - [`Fixed`]: `from_raw`, `raw`, `from_int`, `to_int`. [`Limit`]: `new`, `allows` (a length),
//!   `is_message` (whether bytes are one message). [`Sizes`]: `is_allowed`.
//! - [`Tables`]: `core`, `core_unended` (for a server whose caller ends objects), `read_more`,
//!   `interface` (by its name), `name`, `version`, `message` (its signature), `opcode` (by a name),
//!   `ends_by_event`, `ends_by_request`, `has_server_objects` (whether the server can make
//!   objects). [`Signature`]: `name`, `kinds`. [`Destroys`]: `destroys_one`.
//! - [`Table`]: `new`, `look`, `is_free`, `has_room`, `can_open`, `used` (ids), `births`, `len`,
//!   `open_next`, `open_at`, `reopen` (a new object in place of one), `make_zombie`, `close`.
//! - [`Objects`], a table for each range of ids: `new`, `with_server_range`, `client`,
//!   `has_server_range`, and the calls of a table: `look`, `is_free`, `has_room`, `can_open`,
//!   `used`, `births`, `len`, `open_next`, `open_at`, `reopen`, `make_zombie`, `close`. [`Maker`]:
//!   `of` (an id).
//! - [`Pair`]: `new`, `run`, `agree` (whether both ends have the same objects), `drained`, `len`
//!   (objects), `recording`, `ended_at` (how many pieces were recorded at the first error).
//! - [`Recording`]: `new`, `add`, `pieces`, `parse`, `to_text`. [`Tee`]: `new`, `reader`, `add_to`.
//! - [`Inspector`]: `new`, `pass`, `lines`, `judged_count`, `undeserved` (the first delete_id that
//!   nothing asked for), `verdict`.
//! - [`Follower`], which tells what a message says before it is passed on: `new`, `feed`, `ahead`
//!   (the next message), `go_past` (it), `object`, `client_id_count`, `server_id_count`,
//!   `announced_version`.
//! - [`Twins`]: `new`, `add`, `remove`, `at_client`, `at_server`, `request_arg` and `event_arg` (an
//!   argument for the other end).
//! - Functions: `check`, `trace`, `same_rows`, `object_count`.
//!
//! # The moves of a pair
//!
//! A [`Move`] is a call of one end of a pair, or a carry of bytes between them. Its [`Reply`] has the
//! case of the same name, with what the call returns. Each case of a move, its call, and the `Ok` of
//! the reply:
//!
//! - `ClientSend { target, opcode, args }`, `ServerSend { target, opcode, args }`: `send`, with a
//!   vector of [`SendArg`]; the object that the message made, or `None`.
//! - `ClientBind { registry, name, iface, version }`: `bind`; the object.
//! - `ServerDrop { object }`: `drop_object`; nothing.
//! - `PostError { object, code, text }`: `post_error`; nothing.
//! - `AddGlobal { iface, version }`: `add_global`; the name of the global.
//! - `Withdraw { name }`: `withdraw`; nothing.
//! - `Announce`: `announce`; the number of events that were written.
//! - `ClientNext`, `ServerNext`: `next_owned`; the [`OwnedIncoming`] or the [`OwnedRequest`], or
//!   `None`.
//! - `CarryToServer(most)`, `CarryToClient(most)`: bytes of one end go to the other, at most so many,
//!   and no more than its inbox has room for. The reply is no `Result` but a [`Carried`]:
//!   `Moved(fed)`, or `Memory` if there was no memory to record what would go; then nothing went.
//!
//! A [`SendArg`] has the cases of an [`Arg`], and owns what an `Arg` borrows:
//!
//! - `Int(i32)`, `Uint(u32)`, `Fixed(Fixed)`: the number.
//! - `Str(Option<..>)`: the bytes of a string, without a NUL, or `None` for the null string.
//! - `Obj(Option<Object>)`: a live object, or `None` for the null object.
//! - `New`: the position of the new object, which the call makes.
//! - `Array(..)`: the bytes.
//! - `Fd(u32)`: the token of a descriptor.
//!
//! # Preconditions
//!
//! These calls have a precondition:
//!
//! - `new` of a client, a server and a pair: [`Sizes::is_allowed`] holds for the sizes; for a pair,
//!   both have the same limit;
//! - `more_tables`: the tables extend the end's, as those that [`Tables::read_more`] makes from
//!   them do (the law `texts_extend` of `wl_connection`);
//! - [`Recording::add`]: at most 65,536 tokens;
//! - `make_zombie` of a table: the id has a live object; `close` and `reopen`: the id has an entry;
//!   `reopen`: also [`Table::has_room`] holds; and none of the three takes id 1.
#![tactic(auto)]

pub use wl_check::{AdvertisedGlobal, Followed, Follower, Inspector, MessageChanges, NO_INTERFACE};
pub use wl_client::{
    Client, FirstServerObject, Incoming, IncomingWithEntry, OwnedIncoming, OwnedIncomingWithEntry,
    ShownIncoming, Tokens,
};
pub use wl_connection::{End, ReadAll};
pub use wl_message::{Amounts, Fed, FillError, FlushError, Limit, Peek, Piece, Sizes, Taken};
pub use wl_objects::{
    Arg, Args, Entry, FIRST_SERVER_ID, Fault, Got, GotRef, Maker, MapTable, Named, NewObject,
    NextError, Object, Objects, OwnedArgs, SendError, SlotTable, State, Table, TableError,
};
pub use wl_server::{
    Announced, GlobalError, MOST_GLOBALS, OwnedRequest, OwnedRequestWithEntry, Request,
    RequestWithEntry, Server,
};
pub use wl_session::{
    Carried, Direction, Move, Pair, Passed, Recording, RecordingError, Reply, SendArg, Tee,
    Verdict, check, object_count, same_rows, trace,
};
pub use wl_sigs::{Destroys, Side, Signature, TableFault, Tables, event, request};
pub use wl_twins::Twins;
pub use wl_wire::{ArgFault, Bytes, Fixed, Header, Iface, Kind};
