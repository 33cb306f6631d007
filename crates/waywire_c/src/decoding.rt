//! One message decoded by its signature, without knowledge of objects and tokens.
ghost use Rattle.std.specs.Prelude.{◌≡◌, ◌≤◌, length, nat_lt, option_copied, IfSome};
ghost use Rattle.wl_wire.specs.Argument.{lent};
ghost use Rattle.wl_message.specs.Cut.{is_size};
ghost use Rattle.wl_sigs.specs.Tables.{max_args};
ghost use Rattle.wl_objects.specs.Parsed.{lent_got};
ghost use Rattle.waywire_c.specs.Decoding.{bare_argument, bare_named, bare_object, decoded_by};
ghost use Rattle.waywire_c.specs.Decoding.{message_since, no_message, of_header, of_message};
ghost use Rattle.waywire_c.specs.Decoding.{place_of_fault, side_with_room, spelled_outcome};
ghost use Rattle.waywire_c.specs.Decoding.{spelling_of_fault, TellsBody, TellsDecoded};
ghost use Rattle.waywire_c.specs.Decoding.{TellsAtFront, TellsKnown, TellsSpelled};

use crate::messages::side_of;
use crate::statuses::{BAD_VALUE, NOT_FOUND, OK, fault_place, fault_spelling, fault_status};
use crate::tables_handle::TablesHandle;
use crate::values::{ReportArg, show, start_of};
use wl_objects::{Fault, GotRef, MAX_ARGS, Named, Object};
use wl_sigs::{Side, Signature, Tables};
use wl_wire::{HEADER_LEN, Header, Iface, Kind, ValueRef, read_ref};

/// The part of a message before its arguments, and how many of these are spelled.
#[repr(C)]
#[derive(Clone, Copy)]
pub struct Decoded {
    /// The id of the message's target.
    pub target: u32,
    pub opcode: u16,
    pub size: u16,
    pub name: *const u8,
    pub name_length: usize,
    pub arg_count: usize,
    /// The index of an argument at fault, and which of A1 to A4 it has.
    pub place: usize,
    pub spelling: u32,
}

/// The result if there is not even a header.
fn no_message() -> Decoded
    ensures { decoded_by result ≡ no_message }
{
    Decoded {
        target: 0,
        opcode: 0,
        size: 0,
        name: start_of(b""),
        name_length: 0,
        arg_count: 0,
        place: 0,
        spelling: 0,
    }
}

/// The result for a header.
fn of_header(header: Header) -> Decoded
    ensures { decoded_by result ≡ of_header header }
{
    Decoded {
        target: header.object,
        opcode: header.opcode,
        size: header.size,
        ..no_message()
    }
}

/// An object by its id alone.
fn bare_object(id: u32) -> Object
    ensures { result ≡ bare_object id }
{
    Object { id, birth: 0 }
}

fn bare_named(id: u32) -> Named
    ensures { result ≡ bare_named id }
{
    if id == 0 {
        Named::Null
    } else {
        Named::Live(bare_object(id))
    }
}

/// An argument that bytes spell, as in a report.
fn bare_argument(value: ValueRef<'_>) -> GotRef<'_>
    ensures { lent_got result ≡ bare_argument (lent value.entry) }
{
    match value {
        ValueRef::Int(number) => GotRef::Int(number),
        ValueRef::Uint(number) => GotRef::Uint(number),
        ValueRef::Fixed(number) => GotRef::Fixed(number),
        ValueRef::Str(text) => GotRef::Str(text),
        ValueRef::Obj(id) => GotRef::Obj(bare_named(id)),
        ValueRef::New(id) => GotRef::New(bare_object(id)),
        ValueRef::NewNamed { iface, version, id } => GotRef::Bound {
            iface,
            version,
            object: bare_object(id),
        },
        ValueRef::Array(bytes) => GotRef::Array(bytes),
        ValueRef::Fd => GotRef::Fd(0),
    }
}

/// Writes the arguments that a body spells to the first slots, one of each kind, and returns their
/// number and the first fault: F4 or F7.
fn put_spelled(kinds: &[Kind], body: &[u8], slots: &mut [ReportArg]) -> (usize, Option<Fault>)
    requires room { length kinds.now ≤ length slots.old }
    ensures { TellsSpelled kinds.now body.now result.0 result.1 slots.old slots.new }
{
    let mut end = 0;
    'kinds: for (place, kind) in kinds.iter().enumerate() {
        match read_ref(*kind, &body[end..]) {
            Ok((value, len)) => {
                show(bare_argument(value), &mut slots[place]);
                end += len;
            }
            Err(fault) => return (place, Some(Fault::BadArgument(place, fault))),
        }
    }
    let left = if end < body.len() {
        Some(Fault::TrailingBytes)
    } else {
        None
    };
    (kinds.len(), left)
}

/// The status of decoded arguments.
fn spelled_outcome(fault: Option<Fault>) -> u32
    ensures { result ≡ spelled_outcome fault }
{
    match fault {
        None => OK,
        Some(fault) => fault_status(fault),
    }
}

fn place_of_fault(fault: Option<Fault>) -> usize
    ensures { result ≡ place_of_fault fault }
{
    match fault {
        None => 0,
        Some(fault) => fault_place(fault),
    }
}

fn spelling_of_fault(fault: Option<Fault>) -> u32
    ensures { result ≡ spelling_of_fault fault }
{
    match fault {
        None => 0,
        Some(fault) => fault_spelling(fault),
    }
}

/// The result for a message with this signature, with this many arguments.
fn of_message(
    header: Header,
    message: &Signature,
    arg_count: usize,
    fault: Option<Fault>,
) -> Decoded
    ensures { decoded_by result ≡ of_message header message.now arg_count fault }
{
    Decoded {
        name: start_of(message.name()),
        name_length: message.name().len(),
        arg_count,
        place: place_of_fault(fault),
        spelling: spelling_of_fault(fault),
        ..of_header(header)
    }
}

/// Decodes a message with this signature. Returns the status.
fn put_body(
    header: Header,
    message: &Signature,
    body: &[u8],
    decoded: &mut Decoded,
    args: &mut [ReportArg],
) -> u32
    requires room { length message.now.kinds ≤ length args.old }
    ensures { TellsBody header message.now body.now result (decoded_by decoded.new) args.old
        args.new }
{
    let (arg_count, fault) = put_spelled(message.kinds(), body, args);
    *decoded = of_message(header, message, arg_count, fault);
    spelled_outcome(fault)
}

/// The requests or events, depending on the side, of an interface at this version.
#[derive(Clone, Copy)]
struct MessageSet<'t> {
    tables: &'t Tables,
    interface: Iface,
    version: u32,
    side: Side,
}

/// The message with this opcode, if this version has it.
fn message_since<'t>(set: &MessageSet<'t>, opcode: u16) -> Option<&'t Signature>
    ensures found { option_copied result
        ≡ message_since set.now.tables.now set.now.interface.0 set.now.version set.now.side
        opcode }
    ensures few { IfSome result (λ message. length message.now.kinds ≤ max_args) }
{
    let message = set.tables.message(set.interface, set.side, opcode)?;
    if message.since <= set.version {
        Some(message)
    } else {
        None
    }
}

/// Decodes the message with this header, if the version of its interface has it.
fn put_message(
    set: &MessageSet<'_>,
    header: Header,
    body: &[u8],
    decoded: &mut Decoded,
    args: &mut [ReportArg],
) -> u32
    requires room { max_args ≤ length args.old }
    ensures { TellsKnown header
        (message_since set.now.tables.now set.now.interface.0 set.now.version set.now.side
        header.opcode)
        body.now result (decoded_by decoded.new) args.old args.new }
{
    match message_since(set, header.opcode) {
        Some(message) => put_body(header, message, body, decoded, args),
        None => {
            *decoded = of_header(header);
            fault_status(Fault::UnknownMessage)
        }
    }
}

/// Whether all bytes of a header's size are there, and a message may have that size.
fn stands_whole(size: usize, bytes: &[u8]) -> bool
    ensures { result ≡ is_size (length bytes.now) size }
{
    size >= HEADER_LEN && size % 4 == 0 && size <= bytes.len()
}

/// Decodes the message at the front of bytes.
fn put_front(
    set: &MessageSet<'_>,
    bytes: &[u8],
    decoded: &mut Decoded,
    args: &mut [ReportArg],
) -> u32
    requires room { max_args ≤ length args.old }
    ensures { TellsAtFront (nat_lt (length bytes.now) 8) set.now.tables.now set.now.interface.0
        set.now.version set.now.side bytes.now result (decoded_by decoded.new) args.old args.new }
{
    if bytes.len() < HEADER_LEN {
        *decoded = no_message();
        return fault_status(Fault::BadSize);
    }
    let header = Header::at_front_of(bytes);
    let size = usize::from(header.size);
    if !stands_whole(size, bytes) {
        *decoded = of_header(header);
        return fault_status(Fault::BadSize);
    }
    let body = &bytes[HEADER_LEN..size];
    put_message(set, header, body, decoded, args)
}

/// Decodes the message at the front of bytes: a request or an event, depending on the sender, of an
/// interface at this version. Writes what precedes its arguments to `decoded`, and the arguments to
/// the front of `args`, which has room for as many as a message may have.
#[unsafe(no_mangle)]
pub extern "C" fn waywire_c_tables_decode(
    tables: TablesHandle,
    interface: u16,
    version: u32,
    sender: u32,
    bytes: &[u8],
    decoded: &mut Decoded,
    args: &mut [ReportArg],
) -> u32
    ensures { TellsDecoded tables.held.tables interface version sender bytes.now
        (decoded_by decoded.old) result (decoded_by decoded.new) args.old args.new }
{
    let tables = tables.lent();
    let Some(side) = side_with_room(args.len(), sender) else {
        return BAD_VALUE;
    };
    if tables.version(Iface(interface)).is_none() {
        return NOT_FOUND;
    }
    let set = MessageSet {
        tables,
        interface: Iface(interface),
        version,
        side,
    };
    put_front(&set, bytes, decoded, args)
}

/// Which side a number means, if there is room for every argument.
fn side_with_room(room: usize, sender: u32) -> Option<Side>
    ensures { result ≡ side_with_room room sender }
{
    if room < MAX_ARGS {
        return None;
    }
    side_of(sender)
}
