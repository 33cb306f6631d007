//! Judging one message with what is known at its place.
ghost use Rattle.std.specs.Prelude.{◌≡◌, ◌≤◌, ◌^◌, ◌<◌, ◌++◌, min, true, length, Some, OnOk, IfOk};
ghost use Rattle.wl_sigs.specs.Valid.{Valid};
ghost use Rattle.wl_message.specs.Cut.{is_size};
ghost use Rattle.wl_sigs.specs.Tables.{descriptors};
ghost use Rattle.wl_objects.specs.Messages.{is_error};
ghost use Rattle.wl_objects.specs.Seen.{received_of};
ghost use Rattle.wl_check.specs.Changes.{advertised, changes, first_number, is_global, side_of};
ghost use Rattle.wl_trace_line.specs.Line.{line};
ghost use Rattle.wl_check.specs.Rules.{allows_bind, is_disallowed_bind, judged_message};
ghost use Rattle.wl_check.specs.Rules.{judged_front};
ghost use Rattle.wl_check.specs.Rules.{reader_by};
ghost use Rattle.wl_check.specs.Seen.{call_of, changes_in, known_in, taken_of_direction};
ghost use Rattle.wl_check.specs.Trace.{judged_line, wanted};

use crate::changes::{AdvertisedGlobal, MessageChanges};
use crate::frames::FramedMessage;
use crate::known::{KnownState, ReaderLookup};
use crate::session_state::{Output, Protocol, Sink};
use std::alloc::{AllocError, Allocator};
use wl_objects::{
    Fault, NewObject, ParsedArgs, REGISTRY, Received, SideTables, Values, is_bind, is_delete_id,
    made_by_message, receive,
};
use wl_recording::Direction;
use wl_sigs::event::wl_registry::GLOBAL;
use wl_sigs::{Destroys, Side, Tables};
use wl_trace_line::write_line;
use wl_wire::{Header, Iface, ValueRef};

/// The least room, in bytes, that is requested when a line is appended: most lines are shorter, so
/// one request suffices.
const LINE_ROOM: usize = 128;

/// Requests go to the server, events to the client.
pub(crate) fn side_of(direction: Direction) -> Side
    ensures { result ≡ side_of direction }
{
    match direction {
        Direction::ToServer => Side::Request,
        Direction::ToClient => Side::Event,
    }
}

/// Judges a frame's message, at the front of these bytes: its changes, or the first rule that it
/// breaks. The wanted output for a message that keeps the rules is appended to the text. Its
/// arguments are read over those of the message before.
pub(crate) fn judge<A: Allocator>(
    args: &mut ParsedArgs,
    protocol: &Protocol<'_>,
    known: &KnownState<A>,
    bytes: &[u8],
    frame: &FramedMessage,
    sink: &mut Sink<A>,
) -> Result<Result<MessageChanges, Fault>, AllocError>
    requires valid { Valid protocol.now.tables.now }
    requires header { 8 ≤ length bytes.now }
    requires whole { is_size protocol.now.limit.bytes frame.now.size ≡ true
        → frame.now.size ≤ length bytes.now }
    requires taken { taken_of_direction known.now frame.now.direction < 2 ^ 127 }
    ensures changes { IfOk result (λ r. r ≡ changes_in protocol.now.tables.now
        (judged_front protocol.now.limit.bytes protocol.now.tables.now (known_in known.now)
        bytes.now frame.now)) }
    ensures text { OnOk result (sink.new.text.items ≡ sink.old.text.items
        ++ wanted sink.old.output (judged_line protocol.now.tables.now (known_in known.now)
        (Some (judged_front protocol.now.limit.bytes protocol.now.tables.now (known_in known.now)
        bytes.now frame.now)))) }
    ensures output { sink.new.output ≡ sink.old.output }
{
    if !protocol.limit.allows(frame.size) {
        return Ok(Err(Fault::BadSize));
    }
    let whole = WholeMessage {
        header: Header::at_front_of(bytes),
        body: &bytes[8..frame.size as usize],
    };
    judge_message(args, protocol.tables, known, frame, &whole, sink)
}

/// The header of a message, and the bytes after it.
#[derive(Clone, Copy)]
struct WholeMessage<'a> {
    header: Header,
    body: &'a [u8],
}

/// Judges a whole message: its header and the bytes after it.
fn judge_message<A: Allocator>(
    args: &mut ParsedArgs,
    tables: &Tables,
    known: &KnownState<A>,
    frame: &FramedMessage,
    whole: &WholeMessage<'_>,
    sink: &mut Sink<A>,
) -> Result<Result<MessageChanges, Fault>, AllocError>
    requires valid { Valid tables.now }
    requires taken { taken_of_direction known.now frame.now.direction < 2 ^ 127 }
    ensures changes { IfOk result (λ r. r ≡ changes_in tables.now
        (judged_message tables.now (known_in known.now) frame.now whole.now.header
        whole.now.body.now)) }
    ensures text { OnOk result (sink.new.text.items ≡ sink.old.text.items
        ++ wanted sink.old.output (judged_line tables.now (known_in known.now)
        (Some (judged_message tables.now (known_in known.now) frame.now whole.now.header
        whole.now.body.now)))) }
    ensures output { sink.new.output ≡ sink.old.output }
{
    let WholeMessage { header, body } = *whole;
    let direction = frame.direction;
    let side = side_of(direction);
    let lookup = ReaderLookup {
        tables,
        known,
        direction,
    };
    let taken = known.taken(direction);
    let waiting = count(frame.tokens.saturating_sub(taken));
    let writer = SideTables { tables, side };
    let received = receive(args, writer, &lookup, header, body, waiting);
    let message = match received {
        Ok(message) => message,
        Err(fault) => return Ok(Err(fault)),
    };
    let changes = changes_of(tables, direction, side, header.opcode, &message);
    if is_disallowed_bind(tables, known, side, header.opcode, &message, &changes) {
        return Ok(Err(Fault::BadBind));
    }
    write(sink, writer, &lookup, &message, taken)?;
    Ok(Ok(changes))
}

/// Appends the wanted output for a message, before the message changes what is known.
fn write<A: Allocator>(
    sink: &mut Sink<A>,
    writer: SideTables<'_>,
    lookup: &ReaderLookup<'_, A>,
    message: &Received<'_, '_>,
    taken: u128,
) -> Result<(), AllocError>
    requires { taken < 2 ^ 127 }
    ensures text { OnOk result (sink.new.text.items ≡ sink.old.text.items
        ++ wanted sink.old.output (line writer.entry.tables.now writer.entry.side
        (reader_by lookup.now.tables.now (known_in lookup.now.known.now)
        lookup.now.direction).object
        (received_of message.now) taken)) }
    ensures output { sink.new.output ≡ sink.old.output }
{
    match sink.output {
        Output::Nothing => Ok(()),
        Output::Lines => {
            sink.text.reserve(LINE_ROOM)?;
            write_line(&mut sink.text, writer, lookup, message, taken)
        }
    }
}

/// The number of tokens; saturates.
fn count(tokens: u128) -> usize
    ensures { result ≡ min tokens 18446744073709551615 }
{
    usize::try_from(tokens).unwrap_or(usize::MAX)
}

/// Whether a message with these changes is a bind that no `global` event allows.
fn is_disallowed_bind<A: Allocator>(
    tables: &Tables,
    known: &KnownState<A>,
    side: Side,
    opcode: u16,
    message: &Received<'_, '_>,
    done: &MessageChanges,
) -> bool
    requires side { side ≡ side_of done.now.direction }
    requires done { done.now ≡ changes tables.now (call_of done.now.direction opcode message.now) }
    ensures { result ≡ is_disallowed_bind tables.now (known_in known.now) side opcode
        (received_of message.now) }
{
    if !is_bind(side, message.entry.iface, opcode) {
        return false;
    }
    !allows_bind(tables, known, first_number(&message.values()), done.made)
}

/// Whether a bind of this name may make this object.
fn allows_bind<A: Allocator>(
    tables: &Tables,
    known: &KnownState<A>,
    name: Option<u32>,
    new: Option<NewObject>,
) -> bool
    ensures { result ≡ allows_bind tables.now (known_in known.now) name new }
{
    match (name, new) {
        (Some(name), Some(new)) => {
            new.version >= 1
                && new.version <= tables.version(new.iface).unwrap_or(0)
                && new.version <= known.advertised_version(name, new.iface)
        }
        _ => false,
    }
}

/// The first argument, if it is a number.
fn first_number(values: &Values<'_>) -> Option<u32>
    ensures { result ≡ first_number values.now }
{
    match values.clone().next() {
        Some(ValueRef::Uint(number)) => Some(number),
        _ => None,
    }
}

/// Whether this is wl_registry.global.
pub(crate) fn is_global(side: Side, iface: Iface, opcode: u16) -> bool
    ensures { result ≡ is_global side iface opcode }
{
    side == Side::Event && iface == REGISTRY && opcode == GLOBAL
}

/// The global that a `global` event advertises, if its interface is in the tables.
fn advertised(tables: &Tables, values: &Values<'_>) -> Option<AdvertisedGlobal>
    ensures { result ≡ advertised tables.now values.now }
{
    let mut left = values.clone();
    match (left.next(), left.next(), left.next(), left.next()) {
        (
            Some(ValueRef::Uint(name)),
            Some(ValueRef::Str(Some(iface))),
            Some(ValueRef::Uint(version)),
            None,
        ) => {
            let iface = tables.interface(iface)?;
            Some(AdvertisedGlobal {
                name,
                iface,
                version,
            })
        }
        _ => None,
    }
}

/// The changes by a message that was read.
// Inlined by hand: the command has the checker for two allocators, so the compiler leaves it out of
// line, and the changes of each message then go through memory.
#[inline(always)]
pub(crate) fn changes_of(
    tables: &Tables,
    direction: Direction,
    side: Side,
    opcode: u16,
    message: &Received<'_, '_>,
) -> MessageChanges
    requires side { side ≡ side_of direction }
    requires tokens { message.now.tokens ≡ descriptors message.now.signature.now.kinds }
    requires error { message.now.is_error ≡ is_error side message.now.entry.iface opcode }
    ensures { result ≡ changes tables.now (call_of direction opcode message.now) }
{
    let iface = message.entry.iface;
    let signature = message.signature;
    let values = &message.values();
    MessageChanges {
        direction,
        made: made_by_message(tables, message),
        deleted: if is_delete_id(side, iface, opcode) {
            first_number(values)
        } else {
            None
        },
        destroyed: match signature.destroys {
            Destroys::Target => Some(message.target.id),
            Destroys::Arg(place) => Some(values.id_at(place)),
            Destroys::Nothing => None,
        },
        advertised: if is_global(side, iface, opcode) {
            advertised(tables, values)
        } else {
            None
        },
        tokens: message.tokens,
        is_error: message.is_error,
    }
}
