//! Calls of an inspector that follow the messages one by one.
ghost use Rattle.std.specs.Prelude.{◌≡◌, ◌≢◌, ℕ, List, None, true, is_some, IfSome};
ghost use Rattle.std.specs.Prelude.{if◌then◌else◌, length as len};
ghost use Rattle.wl_recording.specs.Piece.{Piece};
ghost use Rattle.wl_sigs.specs.Tables.{Interface};
ghost use Rattle.wl_check.specs.Following.{if_certain, size_ahead, WasFed, WentPast};
ghost use Rattle.wl_check.specs.Held.{held_object, held_version};
ghost use Rattle.wl_check.specs.Inspected.{HasPassed};
ghost use Rattle.wl_check.specs.Session.{messages, session_of};
ghost use Rattle.wl_check.specs.Trace.{lasting};
ghost use Rattle.waywire_c.specs.Followed.{followed_by, id_or_none, made_id, made_interface};
ghost use Rattle.waywire_c.specs.Followed.{made_version, of_followed, sender_of, told_entry};
ghost use Rattle.waywire_c.specs.Followed.{told_verdict, EndsFor, TellsNextFollowed, TellsParts};
ghost use Rattle.waywire_c.specs.Inspecting.{direction_of, ReportsUndeserved};

use crate::inspector::direction_of;
use crate::inspector_handle::InspectorHandle;
use crate::statuses::{
    BAD_VALUE, NO_MEMORY, NOT_FOUND, OK, fault_place, fault_spelling, fault_status,
};
use crate::values::start_of;
use wl_check::{Followed, Verdict};
use wl_objects::{Entry, NewObject, State};
use wl_recording::Direction;
use wl_wire::Iface;

/// The index that means an interface that the tables lack.
const NO_PLACE: u16 = 65_535;

/// What is known about an id.
#[repr(C)]
#[derive(Clone, Copy)]
pub struct CEntry {
    /// The number of the message that made the object.
    pub birth: u64,
    pub version: u32,
    /// The index of its interface.
    pub interface: u16,
    pub is_known: bool,
    /// Whether it was destroyed, and its id is not free yet.
    pub is_ending: bool,
}

/// A message that is followed.
#[repr(C)]
#[derive(Clone, Copy)]
pub struct CFollowed {
    pub number: u64,
    pub index: usize,
    pub offset: usize,
    pub bytes: *const u8,
    pub length: usize,
    pub descriptors: usize,
    pub object: CEntry,
    pub target: u32,
    pub opcode: u16,
    pub size: u16,
    pub made: u32,
    pub made_version: u32,
    pub destroyed: u32,
    pub deleted: u32,
    pub made_interface: u16,
    pub is_read: bool,
}

/// A verdict: the numbers of a lawful session, or which message breaks which rule.
#[repr(C)]
#[derive(Clone, Copy)]
pub struct CVerdict {
    pub requests: usize,
    pub events: usize,
    pub left_to_server: usize,
    pub left_to_client: usize,
    pub index: usize,
    pub offset: usize,
    /// The index of the argument at fault, and which of A1 to A4 it has.
    pub place: usize,
    /// The status of the broken rule; 0 if none is broken.
    pub fault: u32,
    pub spelling: u32,
    pub sender: u32,
}

/// What is reported about an object, known or not.
fn told_entry(entry: Option<Entry>) -> CEntry
    ensures { result ≡ told_entry entry }
{
    match entry {
        None => CEntry {
            birth: 0,
            version: 0,
            interface: NO_PLACE,
            is_known: false,
            is_ending: false,
        },
        Some(entry) => CEntry {
            birth: entry.birth,
            version: entry.version,
            interface: entry.iface.0,
            is_known: true,
            is_ending: match entry.state {
                State::Live => false,
                State::Zombie => true,
            },
        },
    }
}

fn made_id(made: Option<NewObject>) -> u32
    ensures { result ≡ made_id made }
{
    match made {
        None => 0,
        Some(new) => new.id,
    }
}

fn made_interface(made: Option<NewObject>) -> u16
    ensures { result ≡ made_interface made }
{
    match made {
        None => NO_PLACE,
        Some(new) => new.iface.0,
    }
}

fn made_version(made: Option<NewObject>) -> u32
    ensures { result ≡ made_version made }
{
    match made {
        None => 0,
        Some(new) => new.version,
    }
}

fn id_or_none(id: Option<u32>) -> u32
    ensures { result ≡ id_or_none id }
{
    id.unwrap_or(0)
}

/// What is reported about a message.
fn of_followed(message: &Followed<'_>) -> CFollowed
    ensures { followed_by result ≡ of_followed message.now }
{
    let changes = &message.changes;
    CFollowed {
        number: message.number,
        index: message.index,
        offset: message.offset,
        bytes: start_of(message.bytes),
        length: message.bytes.len(),
        descriptors: changes.tokens,
        object: told_entry(message.target),
        target: message.header.object,
        opcode: message.header.opcode,
        size: message.header.size,
        made: made_id(changes.made),
        made_version: made_version(changes.made),
        destroyed: id_or_none(changes.destroyed),
        deleted: id_or_none(changes.deleted),
        made_interface: made_interface(changes.made),
        is_read: message.is_read,
    }
}

/// Adds the bytes of a piece to those that are followed.
#[unsafe(no_mangle)]
pub extern "C" fn waywire_c_inspector_follow(
    inspector: &mut InspectorHandle,
    sender: u32,
    bytes: &[u8],
) -> u32
    ensures answer { EndsFor (direction_of sender) result }
    ensures fed { result ≡ 0 → IfSome (direction_of sender) (λ direction.
        WasFed direction bytes.now inspector.old.held.follower inspector.new.held.follower) }
    ensures judged { inspector.new.held.inspector ≡ inspector.old.held.inspector }
    ensures line { inspector.new.held.line ≡ inspector.old.held.line }
    ensures unchanged { result ≢ 0 → inspector.new.held ≡ inspector.old.held }
{
    let Some(direction) = direction_of(sender) else {
        return BAD_VALUE;
    };
    match inspector.get_mut().follower.feed(direction, bytes) {
        Ok(()) => OK,
        Err(_) => NO_MEMORY,
    }
}

/// Writes the next message of a sender.
#[unsafe(no_mangle)]
pub extern "C" fn waywire_c_inspector_ahead(
    inspector: &mut InspectorHandle,
    sender: u32,
    message: &mut CFollowed,
) -> u32
    ensures told { TellsNextFollowed (direction_of sender) inspector.old.held.follower result
        (followed_by message.old) (followed_by message.new) }
    ensures unchanged { inspector.new.held ≡ inspector.old.held }
{
    let Some(direction) = direction_of(sender) else {
        return BAD_VALUE;
    };
    match inspector.get_mut().follower.ahead(direction) {
        Some(found) => {
            *message = of_followed(&found);
            OK
        }
        None => NOT_FOUND,
    }
}

/// Passes over the next message of a sender, if there is one.
#[unsafe(no_mangle)]
pub extern "C" fn waywire_c_inspector_go_past(inspector: &mut InspectorHandle, sender: u32) -> u32
    ensures answer { EndsFor (direction_of sender) result }
    ensures past { result ≡ 0 → IfSome (direction_of sender) (λ direction.
        is_some (size_ahead inspector.old.held.follower direction) ≡ true
        → WentPast direction inspector.old.held.follower inspector.new.held.follower) }
    ensures none { IfSome (direction_of sender) (λ direction.
        size_ahead inspector.old.held.follower direction ≡ None
        → inspector.new.held ≡ inspector.old.held) }
    ensures judged { inspector.new.held.inspector ≡ inspector.old.held.inspector }
    ensures line { inspector.new.held.line ≡ inspector.old.held.line }
    ensures unchanged { result ≢ 0 → inspector.new.held ≡ inspector.old.held }
{
    let Some(direction) = direction_of(sender) else {
        return BAD_VALUE;
    };
    match inspector.get_mut().follower.go_past(direction) {
        Ok(()) => OK,
        Err(_) => NO_MEMORY,
    }
}

/// Writes what is known about an id, before the messages that were not passed over.
#[unsafe(no_mangle)]
pub extern "C" fn waywire_c_inspector_object(
    inspector: &mut InspectorHandle,
    id: u32,
    object: &mut CEntry,
)
    ensures told { object.new ≡ told_entry (if_certain inspector.old.held.follower.tables.now
        inspector.old.held.follower.unread id (held_object inspector.old.held.follower.held id)) }
    ensures unchanged { inspector.new.held ≡ inspector.old.held }
{
    *object = told_entry(inspector.get_mut().follower.object(id));
}

/// How many ids of the client's range, from 0 on, or of the server's, from its first on, may name
/// an object.
#[unsafe(no_mangle)]
pub extern "C" fn waywire_c_inspector_id_count(
    inspector: &mut InspectorHandle,
    of_server: bool,
) -> usize
    ensures told { result ≡ (if of_server then len inspector.old.held.follower.held.server_objects
        else len inspector.old.held.follower.held.objects) }
    ensures unchanged { inspector.new.held ≡ inspector.old.held }
{
    let follower = &inspector.get_mut().follower;
    if of_server {
        follower.server_id_count()
    } else {
        follower.client_id_count()
    }
}

/// The greatest version with which a global of this name and this interface was announced, or 0.
#[unsafe(no_mangle)]
pub extern "C" fn waywire_c_inspector_announced(
    inspector: &mut InspectorHandle,
    name: u32,
    interface: u16,
) -> u32
    ensures told { result ≡ held_version inspector.old.held.follower.held (name, interface) }
    ensures unchanged { inspector.new.held ≡ inspector.old.held }
{
    inspector
        .get_mut()
        .follower
        .announced_version(name, Iface(interface))
}

/// How many messages were judged, all of them lawful: the first ones of both directions together.
#[unsafe(no_mangle)]
pub extern "C" fn waywire_c_inspector_judged(inspector: &mut InspectorHandle) -> u64
    ensures told { (limit : ℕ) (tables : List Interface) (ps : List Piece)
        → HasPassed limit tables ps inspector.old.held.inspector
        → result ≡ lasting (messages tables (session_of limit ps)) }
    ensures unchanged { inspector.new.held ≡ inspector.old.held }
{
    inspector.get_mut().inspector.judged_count()
}

/// Writes to `id` the id that the first judged delete_id takes back that nothing asked for. Returns
/// that message's number among those of both directions, from 1. Both are 0 if there is none.
#[unsafe(no_mangle)]
pub extern "C" fn waywire_c_inspector_undeserved(
    inspector: &mut InspectorHandle,
    id: &mut u32,
) -> u64
    ensures told { (limit : ℕ) (tables : List Interface) (ps : List Piece)
        → HasPassed limit tables ps inspector.old.held.inspector
        → ReportsUndeserved tables (session_of limit ps) result id.new }
    ensures unchanged { inspector.new.held ≡ inspector.old.held }
{
    match inspector.get_mut().inspector.undeserved() {
        Some(delete) => {
            *id = delete.id;
            delete.number
        }
        None => {
            *id = 0;
            0
        }
    }
}

/// The number of a direction's sender.
fn sender_of(direction: Direction) -> u32
    ensures { result ≡ sender_of direction }
{
    match direction {
        Direction::ToServer => 0,
        Direction::ToClient => 1,
    }
}

/// What is reported about a verdict.
fn told_verdict(verdict: &Verdict) -> CVerdict
    ensures { result ≡ told_verdict verdict.now }
{
    let none = CVerdict {
        requests: 0,
        events: 0,
        left_to_server: 0,
        left_to_client: 0,
        index: 0,
        offset: 0,
        place: 0,
        fault: 0,
        spelling: 0,
        sender: 0,
    };
    match verdict {
        Verdict::Lawful {
            requests,
            events,
            left_to_server,
            left_to_client,
        } => CVerdict {
            requests: *requests,
            events: *events,
            left_to_server: *left_to_server,
            left_to_client: *left_to_client,
            ..none
        },
        Verdict::Broken {
            direction,
            index,
            offset,
            fault,
        } => CVerdict {
            index: *index,
            offset: *offset,
            place: fault_place(*fault),
            fault: fault_status(*fault),
            spelling: fault_spelling(*fault),
            sender: sender_of(*direction),
            ..none
        },
    }
}

/// Writes the parts of the verdict on all pieces so far.
#[unsafe(no_mangle)]
pub extern "C" fn waywire_c_inspector_verdict_parts(
    inspector: &mut InspectorHandle,
    verdict: &mut CVerdict,
)
    ensures told { (limit : ℕ) (tables : List Interface) (ps : List Piece)
        → HasPassed limit tables ps inspector.old.held.inspector
        → TellsParts tables (session_of limit ps) verdict.new }
    ensures unchanged { inspector.new.held ≡ inspector.old.held }
{
    *verdict = told_verdict(&inspector.get_mut().inspector.verdict());
}
