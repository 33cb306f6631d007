//! Following a session's messages without judging them.
ghost use Rattle.std.specs.Prelude.{◌≡◌, ◌≤◌, true, length, is_some, None, OnErr, OnOk, IfOk};
ghost use Rattle.wl_message.specs.Cut.{is_size};
ghost use Rattle.wl_wire.specs.Word.{header_at};
ghost use Rattle.wl_check.specs.Following.{announced, bytes_behind, bytes_in, changes_unread};
ghost use Rattle.wl_check.specs.Following.{follower, if_certain, said, said_changes, said_in};
ghost use Rattle.wl_check.specs.Following.{size_ahead, IsBehind, IsNewFollower, TellsAhead};
ghost use Rattle.wl_check.specs.Following.{WasFed, WentPast};
ghost use Rattle.wl_check.specs.Held.{held_object, held_version, undone_by};

use crate::changes::{AdvertisedGlobal, MessageChanges};
use crate::followed_bytes::FollowedStream;
use crate::frames::size_in_front;
use crate::holdings::Holdings;
use crate::judging::{changes_of, is_global, side_of};
use crate::overwritten::UndoList;
use std::alloc::{AllocError, Allocator, Global};
use wl_message::Limit;
use wl_object_map::{FIRST_SERVER_ID, MAX_IDS, MAX_SERVER_ID, Maker};
use wl_objects::{
    DISPLAY, Entry, Lookup, MAX_ARGS, NewId, ParsedArgs, SideTables, State, Values, receive,
    waits_for_request,
};
use wl_recording::Direction;
use wl_sigs::Tables;
use wl_wire::{Header, Iface, ValueRef};

/// Replaces an interface that the tables lack.
pub const NO_INTERFACE: Iface = Iface(u16::MAX);

/// A message of a session that is followed, not judged.
#[derive(Clone, Copy, Debug)]
pub struct Followed<'a> {
    /// Its number among the messages of both directions, from 1.
    pub number: u64,
    /// Its number among those of its direction, from 1.
    pub index: usize,
    /// Where it begins in its direction.
    pub offset: usize,
    pub header: Header,
    /// Its bytes; if the size in its header is one that no message may have, all bytes that came.
    pub bytes: &'a [u8],
    /// What is known about its target, before it.
    pub target: Option<Entry>,
    /// Whether it could be read: its target is known, the tables have the message, and it names no
    /// unknown object.
    pub is_read: bool,
    /// How it changes what is known.
    pub changes: MessageChanges,
}

/// Follows a session while it goes on, and judges nothing: it finds the target of each message, and
/// what the message makes, destroys and frees. It passes over whatever it cannot read, such as
/// messages of interfaces that the tables lack, and messages that break a rule. Nothing is claimed
/// about what such a message may have changed: an id whose object is not certain names none.
///
/// It keeps the objects that are held, the globals that were announced and the bytes after the last
/// message. Its memory grows with what passed, whatever the ids are.
#[derive(Drop)]
pub struct Follower<'t, A: Allocator = Global> {
    alloc: A,
    tables: &'t Tables,
    limit: Limit,
    held: Holdings<A>,
    /// The number of the last message that could not be read; 0 if there is none.
    unread: u64,
    /// The number of the next message, from 1.
    number: u64,
    to_server: FollowedStream<A>,
    to_client: FollowedStream<A>,
}

/// A message that is being passed over.
#[derive(Clone, Copy)]
struct Step {
    number: u64,
    size: u16,
    /// Whether a message may have this size.
    is_good: bool,
    changes: MessageChanges,
}

/// What the reader of a direction's messages knows when messages are not judged.
#[derive(Drop)]
struct FollowerLookup<'a, A: Allocator = Global> {
    tables: &'a Tables,
    held: &'a Holdings<A>,
    unread: u64,
    place: u64,
    direction: Direction,
}

impl<'a, A: Allocator> Lookup for FollowerLookup<'a, A> {
    ghost reader = { λ lookup.
        follower lookup.tables.now lookup.held.now lookup.unread lookup.place };

    fn object(&self, id: u32) -> Option<Entry> {
        if_certain(self.tables, self.unread, id, self.held.object(id))
    }

    fn new_id(&self, id: u32) -> NewId {
        if id == 0 || u64::from(id - 1) > self.place {
            NewId::Wrong
        } else if id > MAX_IDS {
            NewId::TooMany
        } else {
            NewId::Free
        }
    }

    fn new_server_id(&self, id: u32) -> NewId {
        if id < FIRST_SERVER_ID || u64::from(id - FIRST_SERVER_ID) >= self.place {
            NewId::Wrong
        } else if id > MAX_SERVER_ID {
            NewId::TooMany
        } else {
            NewId::Free
        }
    }
}

/// The object of an id, if the id still names it; `unread` is the number of the last message that
/// could not be read.
fn if_certain(tables: &Tables, unread: u64, id: u32, entry: Option<Entry>) -> Option<Entry>
    ensures { result ≡ if_certain tables.now unread id entry }
{
    let found = entry?;
    if id < FIRST_SERVER_ID || unread < found.birth || waits_for_request(tables, entry) {
        Some(found)
    } else {
        None
    }
}

/// The global that a `global` event announces, even if the tables lack its interface.
fn announced(tables: &Tables, values: &Values<'_>) -> Option<AdvertisedGlobal>
    ensures { result ≡ announced tables.now values.now }
{
    let mut left = values.clone();
    match (left.next(), left.next(), left.next(), left.next()) {
        (
            Some(ValueRef::Uint(name)),
            Some(ValueRef::Str(Some(iface))),
            Some(ValueRef::Uint(version)),
            None,
        ) => Some(AdvertisedGlobal {
            name,
            iface: tables.interface(iface).unwrap_or(NO_INTERFACE),
            version,
        }),
        _ => None,
    }
}

/// The changes by a message that could not be read.
fn changes_unread(direction: Direction, target: u32) -> MessageChanges
    ensures { result ≡ changes_unread direction target }
{
    MessageChanges {
        direction,
        made: None,
        deleted: None,
        destroyed: match Maker::of(target) {
            Maker::Client => None,
            Maker::Server => Some(target),
        },
        advertised: None,
        tokens: 0,
        is_error: false,
    }
}

impl<'a, A: Allocator> FollowerLookup<'a, A> {
    /// The changes by the message with this header and this body, and whether it could be read.
    fn said(&self, header: Header, body: &[u8]) -> (MessageChanges, bool)
        ensures changes { result.0 ≡ said_changes self.now.tables.now self.now.direction
            header.object (said self.now.tables.now self.now.held.now self.now.unread self.now.place
            self.now.direction header body.now) }
        ensures is_read { result.1 ≡ is_some (said self.now.tables.now self.now.held.now
            self.now.unread self.now.place self.now.direction header body.now) }
    {
        let direction = self.direction;
        let side = side_of(direction);
        let tables = self.tables;
        let writer = SideTables { tables, side };
        let mut args = ParsedArgs::new();
        match receive(&mut args, writer, self, header, body, MAX_ARGS) {
            Ok(message) => {
                let changes = changes_of(tables, direction, side, header.opcode, &message);
                let advertised = if is_global(side, message.entry.iface, header.opcode) {
                    announced(tables, &message.values())
                } else {
                    None
                };
                let told = MessageChanges {
                    advertised,
                    ..changes
                };
                (told, true)
            }
            Err(_) => (changes_unread(direction, header.object), false),
        }
    }

    /// The same for the message at the front of these bytes.
    fn said_in(&self, limit: Limit, bytes: &[u8]) -> (MessageChanges, bool)
        requires header { 8 ≤ length bytes.now }
        requires whole { is_size limit.bytes (header_at bytes.now).size ≡ true
            → (header_at bytes.now).size ≤ length bytes.now }
        ensures changes { result.0 ≡ said_changes self.now.tables.now self.now.direction
            (header_at bytes.now).object
            (said_in limit.bytes self.now.tables.now self.now.held.now self.now.unread
            self.now.place self.now.direction bytes.now) }
        ensures is_read { result.1 ≡ is_some (said_in limit.bytes self.now.tables.now
            self.now.held.now self.now.unread self.now.place self.now.direction bytes.now) }
    {
        let header = Header::at_front_of(bytes);
        if !limit.allows(header.size) {
            return (changes_unread(self.direction, header.object), false);
        }
        self.said(header, &bytes[8..header.size as usize])
    }
}

/// Makes the changes of a message at this place to what is held. Without memory, some of the
/// changes may have been made; the undo list has these.
fn apply<A: Allocator + Clone>(
    held: &mut Holdings<A>,
    place: u64,
    changes: &MessageChanges,
    undo: &mut UndoList<A>,
) -> Result<(), AllocError>
    ensures behind { OnOk result (IsBehind place changes.now held.old held.new) }
    ensures undone { undone_by undo.new held.new ≡ undone_by undo.old held.old }
{
    held.free(changes.deleted, undo)?;
    held.make_zombie(changes.destroyed, undo)?;
    held.open(place, changes.made, undo)?;
    if let Some(global) = &changes.advertised {
        held.remember_global(global, undo)?;
    }
    Ok(())
}

/// Makes the changes of a message that was read so far, and passes over its bytes. Without memory,
/// what is held may have changed; the undo list has these changes.
fn change<A: Allocator + Clone>(
    held: &mut Holdings<A>,
    stream: &mut FollowedStream<A>,
    step: &Step,
    undo: &mut UndoList<A>,
) -> Result<(), AllocError>
    ensures behind { OnOk result (IsBehind step.now.number step.now.changes held.old held.new) }
    ensures own { OnOk result (stream.new
        ≡ bytes_behind step.now.is_good step.now.size stream.old) }
    ensures bytes { OnErr result (stream.new ≡ stream.old) }
    ensures undone { undone_by undo.new held.new ≡ undone_by undo.old held.old }
{
    apply(held, step.number, &step.changes, undo)?;
    stream.go_past(step.size, step.is_good)
}

/// The same, but without memory nothing changes.
fn change_or_go_back<A: Allocator + Clone>(
    alloc: &A,
    held: &mut Holdings<A>,
    stream: &mut FollowedStream<A>,
    step: &Step,
) -> Result<(), AllocError>
    ensures behind { OnOk result (IsBehind step.now.number step.now.changes held.old held.new) }
    ensures own { OnOk result (stream.new
        ≡ bytes_behind step.now.is_good step.now.size stream.old) }
    ensures bytes { OnErr result (stream.new ≡ stream.old) }
    ensures held { OnErr result (held.new ≡ held.old) }
{
    let overwritten = Vec::new(alloc.clone()?);
    let mut undo = UndoList::On(overwritten);
    match change(held, stream, step, &mut undo) {
        Ok(()) => Ok(()),
        Err(error) => {
            held.undo(&mut undo);
            Err(error)
        }
    }
}

impl<'t, A: Allocator + Clone> Follower<'t, A> {
    /// Before the first byte: wl_display exists, with id 1. `limit` is the longest message.
    pub fn new(alloc: A, tables: &'t Tables, limit: Limit) -> Result<Self, AllocError>
        ensures { IfOk result (IsNewFollower tables.now limit.bytes) }
    {
        let display = Entry {
            birth: 0,
            iface: DISPLAY,
            version: 1,
            state: State::Live,
        };
        let held = Holdings::new(&alloc, display)?;
        let to_server = FollowedStream::new(alloc.clone()?);
        let to_client = FollowedStream::new(alloc.clone()?);
        Ok(Follower {
            alloc,
            tables,
            limit,
            held,
            unread: 0,
            number: 1,
            to_server,
            to_client,
        })
    }

    /// Takes bytes of a direction, split anywhere. Without memory nothing changes.
    pub fn feed(&mut self, direction: Direction, bytes: &[u8]) -> Result<(), AllocError>
        ensures ok { OnOk result (WasFed direction bytes.now self.old self.new) }
        ensures err { OnErr result (self.new ≡ self.old) }
    {
        match direction {
            Direction::ToServer => self.to_server.append(bytes),
            Direction::ToClient => self.to_client.append(bytes),
        }
    }

    /// Passes over the next message of a direction, if there is one. Without memory nothing
    /// changes.
    pub fn go_past(&mut self, direction: Direction) -> Result<(), AllocError>
        ensures past { OnOk result (is_some (size_ahead self.old direction) ≡ true
            → WentPast direction self.old self.new) }
        ensures none { size_ahead self.old direction ≡ None → self.new ≡ self.old }
        ensures err { OnErr result (self.new ≡ self.old) }
    {
        let Some(message) = self.ahead(direction) else {
            return Ok(());
        };
        let step = Step {
            number: message.number,
            size: message.header.size,
            is_good: self.limit.allows(message.header.size),
            changes: message.changes,
        };
        let is_read = message.is_read;
        // No memory can hold more than these numbers can count.
        let Some(next) = step.number.checked_add(1) else {
            return Err(AllocError);
        };
        let Follower {
            alloc,
            held,
            to_server,
            to_client,
            ..
        } = self;
        match direction {
            Direction::ToServer => change_or_go_back(alloc, held, to_server, &step)?,
            Direction::ToClient => change_or_go_back(alloc, held, to_client, &step)?,
        }
        self.number = next;
        if !is_read {
            self.unread = step.number;
        }
        Ok(())
    }
}

impl<'t, A: Allocator> Follower<'t, A> {
    /// The bytes of a direction that wait.
    fn bytes(&self, direction: Direction) -> &FollowedStream<A>
        ensures { result.now ≡ bytes_in self.now direction }
    {
        match direction {
            Direction::ToServer => &self.to_server,
            Direction::ToClient => &self.to_client,
        }
    }

    /// The next message of a direction, as soon as it is whole or its size is known to be bad. It
    /// stays until it is passed over.
    pub fn ahead(&self, direction: Direction) -> Option<Followed<'_>>
        ensures { TellsAhead self.now direction result }
    {
        let stream = self.bytes(direction);
        let waiting = stream.waiting();
        let _size = size_in_front(waiting, self.limit)?;
        let header = Header::at_front_of(waiting);
        let lookup = FollowerLookup {
            tables: self.tables,
            held: &self.held,
            unread: self.unread,
            place: self.number,
            direction,
        };
        let (changes, is_read) = lookup.said_in(self.limit, waiting);
        let bytes = if self.limit.allows(header.size) {
            &waiting[..header.size as usize]
        } else {
            waiting
        };
        Some(Followed {
            number: self.number,
            index: stream.index(),
            offset: stream.end(),
            header,
            bytes,
            target: lookup.object(header.object),
            is_read,
            changes,
        })
    }

    /// The object that an id names, before the messages that were not passed over.
    pub fn object(&self, id: u32) -> Option<Entry>
        ensures { result ≡ if_certain self.now.tables.now self.now.unread id
            (held_object self.now.held id) }
    {
        if_certain(self.tables, self.unread, id, self.held.object(id))
    }

    /// How many ids of the client's range, from 0 on, may name an object.
    pub fn client_id_count(&self) -> usize
        ensures { result ≡ length self.now.held.objects }
    {
        self.held.slots_in(0)
    }

    /// How many ids of the server's range, from its first on, may name an object.
    pub fn server_id_count(&self) -> usize
        ensures { result ≡ length self.now.held.server_objects }
    {
        self.held.slots_in(FIRST_SERVER_ID)
    }

    /// The greatest version with which a global of this name was announced with this interface, or
    /// 0; `NO_INTERFACE` means all interfaces that the tables lack.
    pub fn announced_version(&self, name: u32, interface: Iface) -> u32
        ensures { result ≡ held_version self.now.held (name, interface.0) }
    {
        self.held.version((name, interface.0))
    }
}
